//! The parts of a message, read from left to right.

ghost use Rattle.std.specs.Prelude.{◌≡◌, ◌≤◌, ◌<◌, ◌^◌, ◌++◌, [], ◌∷◌, Some, length, All, true, IfOk, IfErr, OnOk, OnErr, if◌then◌else◌};
ghost use Rattle.spelling.specs.Numbers.{first_number, number_bytes};
ghost use Rattle.sc_view.specs.Values.{most_bytes};
ghost use Rattle.sc_msg.specs.Values.{length_bytes, length_fault, value_bytes, value_fault, IsLength};
ghost use Rattle.sc_msg.specs.Entries.{count_fault, id_fault, is_above, ids_bytes, ids_layout, stored_bytes, stored_fault, view_bytes, view_layout, AreIds, AreRecords, IsStored};
ghost use Rattle.sc_msg.specs.Fields.{facts_fields, facts_slots, fields_bytes, flag_fault, IsFieldsFault, IsListFault, OrMemory};

use crate::fault::MessageFault;
use crate::version::Version;
use sc_members::{Facts, IdSet, MOST_FACTS};
use sc_view::{MOST_ENTRIES, MOST_VALUE_BYTES, Stored, VALUE_LENGTH, Value, View};
use spelling::{take_front, take_u16, take_u64};
use std::alloc::Global;

/// What is left of the bytes of a message. After a fault it is not used again.
#[derive(Drop)]
pub(crate) struct Reader<'a> {
    pub(crate) rest: &'a [u8],
}

impl<'a> Reader<'a> {
    /// The next bytes, so many.
    fn take(&mut self, count: usize) -> Result<&'a [u8], MessageFault>
        ensures len { IfOk result (λ front. length front.now ≡ count) }
        ensures parts { IfOk result (λ front. self.old.rest.now ≡ front.now ++ self.new.rest.now) }
        ensures bytes { IfOk result (λ front. All (λ b. b < 256) front.now) }
        ensures short { IfErr result (λ e. e ≡ MessageFault.Short) }
        ensures few { OnErr result (length self.old.rest.now < count) }
    {
        take_front(&mut self.rest, count).ok_or(MessageFault::Short)
    }

    /// A number of two bytes.
    fn short_number(&mut self) -> Result<u16, MessageFault>
        ensures parts { IfOk result (λ n. self.old.rest.now ≡ number_bytes 2 n ++ self.new.rest.now) }
        ensures first { IfOk result (λ n. first_number 2 self.old.rest.now ≡ n) }
        ensures long { OnOk result (2 ≤ length self.old.rest.now) }
        ensures short { IfErr result (λ e. e ≡ MessageFault.Short) }
        ensures few { OnErr result (length self.old.rest.now < 2) }
    {
        take_u16(&mut self.rest).ok_or(MessageFault::Short)
    }

    /// A number of eight bytes.
    pub(crate) fn number(&mut self) -> Result<u64, MessageFault>
        ensures fits { IfOk result (λ n. n < 2 ^ 64) }
        ensures parts { IfOk result (λ n. self.old.rest.now ≡ number_bytes 8 n ++ self.new.rest.now) }
        ensures first { IfOk result (λ n. first_number 8 self.old.rest.now ≡ n) }
        ensures long { OnOk result (8 ≤ length self.old.rest.now) }
        ensures short { IfErr result (λ e. e ≡ MessageFault.Short) }
        ensures few { OnErr result (length self.old.rest.now < 8) }
    {
        take_u64(&mut self.rest).ok_or(MessageFault::Short)
    }

    /// A byte that is 0 or 1.
    pub(crate) fn flag(&mut self) -> Result<bool, MessageFault>
        ensures parts { IfOk result (λ b. self.old.rest.now ≡ (if b then 1 else 0) ∷ self.new.rest.now) }
        ensures fault { IfErr result (λ e. flag_fault self.old.rest.now ≡ Some e) }
    {
        match self.rest {
            [] => Err(MessageFault::Short),
            [0, rest @ ..] => {
                self.rest = rest;
                Ok(false)
            }
            [1, rest @ ..] => {
                self.rest = rest;
                Ok(true)
            }
            [_, ..] => Err(MessageFault::BadField),
        }
    }

    /// A count of two bytes that is not above its limit.
    fn count(&mut self, most: usize) -> Result<usize, MessageFault>
        ensures few { IfOk result (λ n. n ≤ most) }
        ensures parts { IfOk result (λ n. self.old.rest.now ≡ number_bytes 2 n ++ self.new.rest.now) }
        ensures fault { IfErr result (λ e. count_fault most self.old.rest.now ≡ Some e) }
    {
        let count = usize::from(self.short_number()?);
        if count > most {
            return Err(MessageFault::BadField);
        }
        Ok(count)
    }

    /// An id above the one before it, if there is one.
    fn id_above(&mut self, last: Option<u64>) -> Result<u64, MessageFault>
        ensures above { IfOk result (λ id. is_above last id ≡ true) }
        ensures fits { IfOk result (λ id. id < 2 ^ 64) }
        ensures parts { IfOk result (λ id. self.old.rest.now ≡ number_bytes 8 id ++ self.new.rest.now) }
        ensures fault { IfErr result (λ e. id_fault last self.old.rest.now ≡ Some e) }
    {
        let id = self.number()?;
        match last {
            Some(last) if id <= last => Err(MessageFault::Unsorted),
            _ => Ok(id),
        }
    }

    /// How many bytes a value has, which is told in one byte.
    fn told_length(&mut self) -> Result<usize, MessageFault>
        ensures legal { IfOk result (IsLength Version.Second) }
        ensures few { IfOk result (λ n. n ≤ most_bytes) }
        ensures parts { IfOk result (λ n. self.old.rest.now ≡ n ∷ self.new.rest.now) }
        ensures fault { IfErr result (λ e. length_fault Version.Second self.old.rest.now ≡ Some e) }
    {
        let [count, rest @ ..] = self.rest else {
            return Err(MessageFault::Short);
        };
        let count = usize::from(*count);
        if count > MOST_VALUE_BYTES {
            return Err(MessageFault::BadField);
        }
        self.rest = rest;
        Ok(count)
    }

    /// How many bytes a value has.
    fn value_length(&mut self, version: Version) -> Result<usize, MessageFault>
        ensures legal { IfOk result (IsLength version) }
        ensures few { IfOk result (λ n. n ≤ most_bytes) }
        ensures parts { IfOk result (λ n. self.old.rest.now ≡ length_bytes version n ++ self.new.rest.now) }
        ensures fault { IfErr result (λ e. length_fault version self.old.rest.now ≡ Some e) }
    {
        match version {
            Version::First => Ok(VALUE_LENGTH),
            Version::Second => self.told_length(),
        }
    }

    /// A value, behind its length where that is told.
    fn value(&mut self, version: Version) -> Result<Value, MessageFault>
        ensures whole { IfOk result (λ v. IsLength version (length v)) }
        ensures bytes { IfOk result (λ v. All (λ b. b < 256) v) }
        ensures parts { IfOk result (λ v. self.old.rest.now ≡ value_bytes version v ++ self.new.rest.now) }
        ensures fault { IfErr result (λ e. value_fault version self.old.rest.now ≡ Some e) }
    {
        let count = self.value_length(version)?;
        let bytes = self.take(count)?;
        let Ok(value) = Value::new(bytes) else {
            unreachable!()
        };
        Ok(value)
    }

    /// A sequence number from 1 and a value.
    fn stored(&mut self, version: Version) -> Result<Stored, MessageFault>
        ensures stored { IfOk result (IsStored version) }
        ensures parts { IfOk result (λ e. self.old.rest.now ≡ stored_bytes version e ++ self.new.rest.now) }
        ensures fault { IfErr result (λ e. stored_fault version self.old.rest.now ≡ Some e) }
    {
        let number = self.number()?;
        if number == 0 {
            return Err(MessageFault::BadField);
        }
        let value = self.value(version)?;
        let Some(stored) = Stored::new(number, value) else {
            unreachable!()
        };
        Ok(stored)
    }

    /// A set of ids: a count of at most 1,024, and the ids in rising order.
    pub(crate) fn ids(&mut self, alloc: Global) -> Result<IdSet, MessageFault>
        ensures ids { IfOk result AreIds }
        ensures parts { IfOk result (λ s. self.old.rest.now ≡ ids_bytes s ++ self.new.rest.now) }
        ensures fault { IfErr result (OrMemory (IsListFault ids_layout self.old.rest.now)) }
    {
        let count = self.count(MOST_FACTS)?;
        let mut ids = IdSet::new(alloc);
        let mut last = None;
        for _ in 0..count {
            let node = self.id_above(last)?;
            ids.insert(node)?;
            last = Some(node);
        }
        Ok(ids)
    }

    /// A view: a count of at most 256, and records in rising order of their ids.
    pub(crate) fn view(&mut self, alloc: Global, version: Version) -> Result<View, MessageFault>
        ensures records { IfOk result (AreRecords version) }
        ensures parts { IfOk result (λ v. self.old.rest.now ≡ view_bytes version v ++ self.new.rest.now) }
        ensures fault { IfErr result (OrMemory (IsListFault (view_layout version) self.old.rest.now)) }
    {
        let count = self.count(MOST_ENTRIES)?;
        let mut view = View::new(alloc);
        let mut last = None;
        for _ in 0..count {
            let id = self.id_above(last)?;
            let stored = self.stored(version)?;
            view.put(id, stored)?;
            last = Some(id);
        }
        Ok(view)
    }

    /// Three sets of ids.
    pub(crate) fn facts(&mut self, alloc: Global) -> Result<Facts, MessageFault>
        ensures entered { IfOk result (λ f. AreIds f.entered) }
        ensures joined { IfOk result (λ f. AreIds f.joined) }
        ensures left { IfOk result (λ f. AreIds f.left) }
        ensures parts { IfOk result (λ f. self.old.rest.now ≡ fields_bytes (facts_fields f) ++ self.new.rest.now) }
        ensures fault { IfErr result (OrMemory (IsFieldsFault facts_slots self.old.rest.now)) }
    {
        let entered = self.ids(alloc)?;
        let joined = self.ids(alloc)?;
        let left = self.ids(alloc)?;
        Ok(Facts::from_sets(entered, joined, left))
    }
}
