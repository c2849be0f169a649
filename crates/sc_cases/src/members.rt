//! Lines about fractions, thresholds, sets of ids and facts.

use crate::words::{MembersLine, number};
use sc_members::{Config, Facts, FactsFault, Fraction, IdSet};
use std::alloc::{AllocError, Global};
use std::io;

/// The ids that words spell; another word is left out.
fn ids_of(alloc: Global, words: &[&str]) -> Result<IdSet, AllocError> {
    let mut ids = IdSet::new(alloc);
    for word in words {
        if let Some(id) = number(word) {
            ids.insert(id)?;
        }
    }
    Ok(ids)
}

fn tell_ids(rt: &impl Print, ids: &IdSet) -> io::Result<()> {
    for id in ids.iter() {
        print!(rt; " {id}")?;
    }
    Ok(())
}

fn tell_sets(rt: &impl Print, first: &IdSet, second: &IdSet) -> io::Result<()> {
    tell_ids(rt, &first.union(second)?)?;
    print!(rt; " size {}", first.len())?;
    if let Some(id) = first.least_common(second) {
        print!(rt; " common {id}")?;
    }
    println!(rt;
        " union {} difference {}",
        first.union_len(second),
        first.difference_len(second)
    )
}

/// One more fact, of which a word says what it is.
fn add(facts: &mut Facts, what: &str, id: u64) -> Result<(), FactsFault> {
    match what {
        "entered" => facts.add_entered(id),
        "joined" => facts.add_joined(id),
        "left" => facts.add_left(id),
        _ => Ok(()),
    }
}

/// The facts that words say: of whom, each behind the word that says what it is, at first this one.
fn said(alloc: Global, first: &str, words: &[&str]) -> Result<Facts, FactsFault> {
    let mut facts = Facts::new(alloc);
    let mut what = first;
    for word in words {
        match number(word) {
            Some(id) => add(&mut facts, what, id)?,
            None => what = word,
        }
    }
    Ok(facts)
}

/// These facts, united with those that the words say.
fn united(alloc: Global, facts: &Facts, more: &[&str]) -> Result<Facts, FactsFault> {
    let more = said(alloc, "", more)?;
    facts.united(&more)
}

/// The facts of these founders, united with those that the words say.
fn facts_of(alloc: Global, founders: &[&str], more: &[&str]) -> Result<Facts, FactsFault> {
    let founding = said(alloc, "joined", founders)?;
    united(alloc, &founding, more)
}

fn tell_counts(rt: &impl Print, facts: &Facts) -> io::Result<()> {
    println!(rt; " present {} members {}", facts.present(), facts.members())
}

fn refuse(rt: &impl Print, fault: FactsFault) -> io::Result<()> {
    println!(rt; " refused {}", fault.reason())
}

fn tell_facts(rt: &impl Print, facts: Result<Facts, FactsFault>) -> io::Result<()> {
    match facts {
        Ok(facts) => tell_counts(rt, &facts),
        Err(fault) => refuse(rt, fault),
    }
}

fn tell_fraction(rt: &impl Print, fraction: Fraction) -> io::Result<()> {
    let whole = Fraction {
        numerator: 1,
        denominator: 1,
    };
    match (Config::new(fraction, whole), Config::new(whole, fraction)) {
        (Ok(beta), Ok(gamma)) => println!(rt;
            " of four {} {}",
            beta.beta_threshold(4),
            gamma.gamma_threshold(4)
        ),
        (Err(fault), _) => println!(rt; " refused {}", fault.reason()),
        (_, Err(fault)) => println!(rt; " joins refused {}", fault.reason()),
    }
}

fn tell_threshold(rt: &impl Print, fraction: Fraction, count: usize) -> io::Result<()> {
    match Config::new(fraction, fraction) {
        Ok(config) => println!(rt; " {}", config.beta_threshold(count)),
        Err(fault) => println!(rt; " refused {}", fault.reason()),
    }
}

pub(crate) fn tell(rt: &impl Print, alloc: Global, line: &MembersLine) -> io::Result<()> {
    match line {
        MembersLine::Threshold(fraction, count) => tell_threshold(rt, *fraction, *count),
        MembersLine::Fraction(fraction) => tell_fraction(rt, *fraction),
        MembersLine::Sets(first, second) => {
            tell_sets(rt, &ids_of(alloc, first)?, &ids_of(alloc, second)?)
        }
        MembersLine::Facts(founders, more) => tell_facts(rt, facts_of(alloc, founders, more)),
    }
}
