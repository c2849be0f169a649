//! The two fractions of a cluster, and how many nodes a phase waits for by them.

ghost use Rattle.std.specs.Prelude.{◌≡◌, ◌≤◌, ◌↔◌, IsTrue, IsOk, IfOk};
ghost use Rattle.sc_members.specs.Members.{AreFractions, IsFraction, IsConfig, config_of, threshold};

use reasons::Reason;
use std::marker::Model;

/// A fraction as it is given: in lowest terms or not, and not yet judged.
#[derive(Clone, Copy, Debug, PartialEq, Eq)]
pub struct Fraction {
    /// What stands above.
    pub numerator: u64,
    /// What stands below, perhaps 0.
    pub denominator: u64,
}

/// The two fractions of a cluster: beta for the phases of operations, gamma for joining.
/// Each is num / den with 1 <= num <= den <= 1,000.
#[derive(Clone, Copy, Debug, PartialEq, Eq)]
pub struct Config {
    beta_num: u16,
    beta_den: u16,
    gamma_num: u16,
    gamma_den: u16,
}

impl Model for Config {
    ghost use Rattle.sc_members.specs.Members.{Config as Fractions, IsConfig};

    ghost Value = { Fractions };

    ghost view = { λ a. record { beta_num = a.beta_num; beta_den = a.beta_den; gamma_num = a.gamma_num; gamma_den = a.gamma_den } };

    ghost invariant = { λ a. IsConfig (record { beta_num = a.beta_num; beta_den = a.beta_den; gamma_num = a.gamma_num; gamma_den = a.gamma_den }) };

    ghost inverse = { λ c. record { beta_num = c.beta_num; beta_den = c.beta_den; gamma_num = c.gamma_num; gamma_den = c.gamma_den } };
}

/// 45: a fraction isn't num / den with 1 <= num <= den <= 1,000.
#[derive(Clone, Copy, Debug, PartialEq, Eq)]
pub struct BadFraction;

impl BadFraction {
    /// The reason by which the fault is told, 45.
    pub fn reason(&self) -> Reason
        ensures { result ≡ Reason.BadFraction }
    {
        Reason::BadFraction
    }
}

/// max(1, ceil(num * count / den)): how many answers a phase waits for where so many nodes count. Takes no memory.
pub fn threshold(num: u64, den: u64, count: usize) -> u64
    requires { IsFraction num den }
    ensures { result ≡ threshold num den count }
{
    let ceiling = (u128::from(num) * count as u128 + u128::from(den - 1)) / u128::from(den);
    ceiling.max(1) as u64
}

/// Whether it is num / den with 1 <= num <= den <= 1,000.
fn is_taken(fraction: Fraction) -> bool
    ensures { IsTrue result ↔ IsFraction fraction.numerator fraction.denominator }
{
    1 <= fraction.numerator
        && fraction.numerator <= fraction.denominator
        && fraction.denominator <= 1000
}

/// Four fifths for both.
impl Default for Config {
    ghost use Rattle.std.specs.Prelude.{◌≡◌};

    ghost is_default = { λ config. config ≡ record { beta_num = 4; beta_den = 5; gamma_num = 4; gamma_den = 5 } };

    fn default() -> Config {
        Config {
            beta_num: 4,
            beta_den: 5,
            gamma_num: 4,
            gamma_den: 5,
        }
    }
}

impl Config {
    /// Refuses 45 where one of the two fractions isn't num / den with 1 <= num <= den <= 1,000.
    pub fn new(beta: Fraction, gamma: Fraction) -> Result<Config, BadFraction>
        ensures accepted { IsOk result ↔ AreFractions beta gamma }
        ensures fields { IfOk result (λ config. config ≡ config_of beta gamma) }
    {
        if !is_taken(beta) || !is_taken(gamma) {
            return Err(BadFraction);
        }
        Ok(Config {
            beta_num: beta.numerator as u16,
            beta_den: beta.denominator as u16,
            gamma_num: gamma.numerator as u16,
            gamma_den: gamma.denominator as u16,
        })
    }

    /// Beta's numerator, 1 to beta's denominator.
    pub fn beta_num(&self) -> u64
        ensures field { result ≡ self.now.beta_num }
        ensures valid { IsConfig self.now }
    {
        u64::from(self.beta_num)
    }

    /// Beta's denominator, 1 to 1,000.
    pub fn beta_den(&self) -> u64
        ensures field { result ≡ self.now.beta_den }
        ensures valid { IsConfig self.now }
    {
        u64::from(self.beta_den)
    }

    /// Gamma's numerator, 1 to gamma's denominator.
    pub fn gamma_num(&self) -> u64
        ensures field { result ≡ self.now.gamma_num }
        ensures valid { IsConfig self.now }
    {
        u64::from(self.gamma_num)
    }

    /// Gamma's denominator, 1 to 1,000.
    pub fn gamma_den(&self) -> u64
        ensures field { result ≡ self.now.gamma_den }
        ensures valid { IsConfig self.now }
    {
        u64::from(self.gamma_den)
    }

    /// How many answers a phase of an operation waits for, where the node knows so many members.
    pub fn beta_threshold(&self, members: usize) -> u64
        ensures value { result ≡ threshold self.now.beta_num self.now.beta_den members }
        ensures positive { 1 ≤ result }
    {
        threshold(self.beta_num(), self.beta_den(), members)
    }

    /// How many echoes a join waits for, where the node knows so many present nodes.
    pub fn gamma_threshold(&self, present: usize) -> u64
        ensures value { result ≡ threshold self.now.gamma_num self.now.gamma_den present }
        ensures positive { 1 ≤ result }
    {
        threshold(self.gamma_num(), self.gamma_den(), present)
    }
}
