//! Loads and stores: where an access lies, and the bytes there.

ghost use Rattle.std.specs.Prelude.{◌≡◌, ◌≤◌, ◌<◌, ◌+◌, ◌^◌, Some, None, IfOk, IfErr, IfSome, length};
ghost use Rattle.bq_word.specs.Word.{le_number};
ghost use Rattle.bq_meaning.specs.Place.{record_room};
ghost use Rattle.bq_meaning.specs.Memory.{is_inside, access, loaded, LiesWithin};
ghost use Rattle.bq_meaning.specs.Meaning.{reading, stored};
ghost use Rattle.bq_meaning.specs.Runs.{StepAnswers};

use crate::fault::Fault;
use crate::machine::{Location, Machine};
use crate::placement::{FRAME_LENGTH, Placement};
use crate::step::Step;

fn is_inside(start: u64, len: u64, address: u64, size: u64) -> bool
    requires fits { start + len < 2 ^ 64 }
    requires small { size ≤ len }
    ensures { result ≡ is_inside start len address size }
{
    start <= address && address - start <= len - size
}

/// The number that bytes stand for, the least significant first.
fn le_number(bytes: &[u8]) -> u64
    requires { length bytes.now ≤ 8 }
    ensures value { result ≡ le_number bytes.now }
    ensures small { result < 256 ^ length bytes.now }
{
    match bytes {
        [] => 0,
        [first, rest @ ..] => u64::from(*first) + 256 * le_number(rest),
    }
}

impl Placement {
    /// Where so many bytes at an address lie, if they lie wholly in one region, where the record has so many bytes.
    fn access(&self, record_length: usize, address: u64, size: usize) -> Option<Location>
        requires small { size ≤ 8 }
        requires least { 8 ≤ record_length }
        requires room { record_length ≤ record_room }
        ensures value { result ≡ access self.now record_length address size }
        ensures within { IfSome result (λ l. LiesWithin record_length l size) }
    {
        let frame = self.frame();
        let record = self.record();
        if is_inside(frame, FRAME_LENGTH as u64, address, size as u64) {
            Some(Location::Frame((address - frame) as usize))
        } else if is_inside(record, record_length as u64, address, size as u64) {
            Some(Location::Record((address - record) as usize))
        } else {
            None
        }
    }
}

impl Machine<'_> {
    /// The number that lies in so many bytes at an address.
    pub(crate) fn number_at(
        &self,
        placement: &Placement,
        address: u64,
        size: usize,
    ) -> Result<u64, Fault>
        requires { size ≤ 8 }
        ensures ok { IfOk result (λ v. (l : Location) × (access placement.now (length self.now.«record») address size ≡ Some l) × (v ≡ le_number (loaded self.now l size))) }
        ensures err { IfErr result (λ f. (f ≡ Fault.OutsideAccess) × (access placement.now (length self.now.«record») address size ≡ None)) }
    {
        match placement.access(self.record.len(), address, size) {
            Some(Location::Frame(at)) => Ok(le_number(&self.frame[at..at + size])),
            Some(Location::Record(at)) => Ok(le_number(&self.record[at..at + size])),
            None => Err(Fault::OutsideAccess),
        }
    }

    /// Puts the lowest bytes of a value at an address, and goes to the next unit.
    pub(crate) fn store_at(
        &mut self,
        placement: &Placement,
        address: u64,
        size: usize,
        value: u64,
    ) -> Result<Step, Fault>
        requires small { size ≤ 8 }
        requires room { self.old.unit + 1 < 2 ^ 64 }
        ensures { StepAnswers (reading Fault.OutsideAccess (access placement.now (length self.old.«record») address size) (λ l. stored self.old l size value)) self.old result self.new }
    {
        match placement.access(self.record.len(), address, size) {
            Some(Location::Frame(at)) => {
                let bytes = value.to_le_bytes();
                self.frame[at..at + size].copy_from_slice(&bytes[..size]);
                self.unit += 1;
                Ok(Step::Continues)
            }
            Some(Location::Record(_)) => Err(Fault::WroteRecord),
            None => Err(Fault::OutsideAccess),
        }
    }
}
