//! The parts of heads and events, read from left to right.

ghost use Rattle.std.specs.Prelude.{◌≡◌, ◌<◌, ◌+◌, ◌^◌, ◌++◌, ◌∷◌, [], length, List, ℕ, option_map, IfOk, IfErr, OnOk, OnErr};
ghost use Rattle.spelling.specs.Codes.{BeginsNone};
ghost use Rattle.spelling.specs.Numbers.{number_bytes};
ghost use Rattle.sc_msg.specs.Values.{version_byte};
ghost use Rattle.q_replay.specs.Spelling.{config_bytes, start_bytes, AreShort, AreFounders};
ghost use Rattle.q_replay.specs.Reading.{ids_bytes, AreIds};
ghost use Rattle.sc_members.specs.Members.{config_of};

use crate::read::ReadFault;
use sc_members::Fraction;
use sc_msg::Version;
use spelling::{take_byte, take_front, take_u16, take_u32, take_u64};
use std::alloc::Global;

/// The version that the fourth byte of a journal tells.
fn version_of(byte: u8) -> Result<Version, ReadFault>
    ensures told { IfOk result (λ version. version_byte version ≡ byte) }
    ensures none { OnErr result ((version : Version) → version_byte version ≡ byte → ⊥) }
{
    match byte {
        1 => Ok(Version::First),
        2 => Ok(Version::Second),
        _ => Err(ReadFault::Form),
    }
}

/// What is left of the bytes. After a fault it is not used again.
#[derive(Drop)]
pub(crate) struct Reader<'a> {
    pub(crate) rest: &'a [u8],
}

impl<'a> Reader<'a> {
    pub(crate) fn byte(&mut self) -> Result<u8, ReadFault>
        ensures parts { IfOk result (λ b. self.old.rest.now ≡ b ∷ self.new.rest.now) }
        ensures none { OnErr result (self.old.rest.now ≡ []) }
    {
        take_byte(&mut self.rest).ok_or(ReadFault::Form)
    }

    /// A number of two bytes.
    #[tactic(auto, using(spelling::proofs::Codes::number_then))]
    fn short(&mut self) -> Result<u16, ReadFault>
        ensures fits { IfOk result (λ n. n < 2 ^ 16) }
        ensures parts { IfOk result (λ n. self.old.rest.now ≡ number_bytes 2 n ++ self.new.rest.now) }
        ensures long { OnOk result (length self.old.rest.now ≡ 2 + length self.new.rest.now) }
        ensures none { OnErr result (length self.old.rest.now < 2) }
    {
        take_u16(&mut self.rest).ok_or(ReadFault::Form)
    }

    /// A number of four bytes.
    #[tactic(auto, using(spelling::proofs::Codes::number_then))]
    pub(crate) fn word(&mut self) -> Result<u32, ReadFault>
        ensures fits { IfOk result (λ n. n < 2 ^ 32) }
        ensures parts { IfOk result (λ n. self.old.rest.now ≡ number_bytes 4 n ++ self.new.rest.now) }
        ensures long { OnOk result (length self.old.rest.now ≡ 4 + length self.new.rest.now) }
        ensures none { OnErr result (length self.old.rest.now < 4) }
    {
        take_u32(&mut self.rest).ok_or(ReadFault::Form)
    }

    /// A number of eight bytes.
    #[tactic(auto, using(spelling::proofs::Codes::number_then))]
    pub(crate) fn number(&mut self) -> Result<u64, ReadFault>
        ensures fits { IfOk result (λ n. n < 2 ^ 64) }
        ensures parts { IfOk result (λ n. self.old.rest.now ≡ number_bytes 8 n ++ self.new.rest.now) }
        ensures long { OnOk result (length self.old.rest.now ≡ 8 + length self.new.rest.now) }
        ensures none { OnErr result (length self.old.rest.now < 8) }
    {
        take_u64(&mut self.rest).ok_or(ReadFault::Form)
    }

    /// The next bytes, so many.
    pub(crate) fn take(&mut self, count: usize) -> Result<&'a [u8], ReadFault>
        ensures len { IfOk result (λ front. length front.now ≡ count) }
        ensures parts { IfOk result (λ front. self.old.rest.now ≡ front.now ++ self.new.rest.now) }
        ensures few { OnErr result (length self.old.rest.now < count) }
    {
        take_front(&mut self.rest, count).ok_or(ReadFault::Form)
    }

    /// Nothing more.
    pub(crate) fn end(&self) -> Result<(), ReadFault>
        ensures end { OnOk result (self.now.rest.now ≡ []) }
        ensures more { OnErr result (0 < length self.now.rest.now) }
    {
        match self.rest {
            [] => Ok(()),
            [_, ..] => Err(ReadFault::Form),
        }
    }

    /// A number of eight bytes, and nothing more.
    pub(crate) fn last_number(&mut self) -> Result<u64, ReadFault>
        ensures fits { IfOk result (λ n. n < 2 ^ 64) }
        ensures is { IfOk result (λ n. self.old.rest.now ≡ number_bytes 8 n) }
        ensures none { OnErr result (length self.old.rest.now ≡ 8 → ⊥) }
    {
        let number = self.number()?;
        self.end()?;
        Ok(number)
    }

    /// The first four bytes of a journal, of which the last tells its version.
    pub(crate) fn format(&mut self) -> Result<Version, ReadFault>
        ensures parts { IfOk result (λ version. self.old.rest.now ≡ 0x42 ∷ 0x51 ∷ 0x4a ∷ version_byte version ∷ self.new.rest.now) }
        ensures none { OnErr result ((version : Version) (more : List ℕ) → self.old.rest.now ≡ 0x42 ∷ 0x51 ∷ 0x4a ∷ version_byte version ∷ more → ⊥) }
    {
        let [0x42, 0x51, 0x4a, byte, rest @ ..] = self.rest else {
            return Err(ReadFault::Form);
        };
        let version = version_of(*byte)?;
        self.rest = rest;
        Ok(version)
    }

    fn fraction(&mut self) -> Result<Fraction, ReadFault>
        ensures numerator { IfOk result (λ f. f.numerator < 2 ^ 16) }
        ensures denominator { IfOk result (λ f. f.denominator < 2 ^ 16) }
        ensures parts { IfOk result (λ f. self.old.rest.now ≡ number_bytes 2 f.numerator ++ number_bytes 2 f.denominator ++ self.new.rest.now) }
        ensures long { OnOk result (length self.old.rest.now ≡ 4 + length self.new.rest.now) }
        ensures none { OnErr result (length self.old.rest.now < 4) }
    {
        let numerator = self.short()?;
        let denominator = self.short()?;
        Ok(Fraction {
            numerator: u64::from(numerator),
            denominator: u64::from(denominator),
        })
    }

    /// Beta and gamma.
    pub(crate) fn fractions(&mut self) -> Result<(Fraction, Fraction), ReadFault>
        ensures legal { IfOk result (λ x. AreShort (config_of x.0 x.1)) }
        ensures parts { IfOk result (λ x. self.old.rest.now ≡ config_bytes (config_of x.0 x.1) ++ self.new.rest.now) }
        ensures none { OnErr result (length self.old.rest.now < 8) }
    {
        let beta = self.fraction()?;
        let gamma = self.fraction()?;
        Ok((beta, gamma))
    }

    /// A count of two bytes, and so many ids.
    fn ids(&mut self, alloc: Global) -> Result<Vec<u64>, ReadFault>
        ensures legal { IfOk result (λ ids. AreIds ids.items) }
        ensures parts { IfOk result (λ ids. self.old.rest.now ≡ ids_bytes ids.items ++ self.new.rest.now) }
        ensures none { IfErr result (λ e. e ≡ ReadFault.Form → BeginsNone ids_bytes AreIds self.old.rest.now) }
    {
        let count = self.short()?;
        let mut ids = Vec::new(alloc);
        for _ in 0..count {
            let id = self.number()?;
            ids.push(id)?;
        }
        Ok(ids)
    }

    /// How the node began: all founders, or none where it entered.
    pub(crate) fn start(&mut self, alloc: Global) -> Result<Option<Vec<u64>>, ReadFault>
        ensures legal { IfOk result (λ o. AreFounders (option_map (λ v. v.items) o)) }
        ensures parts { IfOk result (λ o. self.old.rest.now ≡ start_bytes (option_map (λ v. v.items) o) ++ self.new.rest.now) }
        ensures none { IfErr result (λ e. e ≡ ReadFault.Form → BeginsNone start_bytes AreFounders self.old.rest.now) }
    {
        match self.byte()? {
            0 => Ok(Some(self.ids(alloc)?)),
            1 => Ok(None),
            _ => Err(ReadFault::Form),
        }
    }
}
