//! Lists of records.

ghost use Rattle.std.specs.Prelude.{◌≡◌, ◌↔◌, ℕ, List, ◌≤◌, ◌+◌, length, ◌%◌, Some, Ok, IfOk, IfErr, IsTrue, MatchOption, MatchResult};
ghost use Rattle.std.specs.FinMap as fin;
ghost use Rattle.std.specs.List.{AllPass};
ghost use Rattle.bq_range.specs.Interval.{IsIn};
ghost use Rattle.hex.specs.Hex.{is_hex_digit};
ghost use Rattle.sc_view.specs.declared.view.Stored.{Stored as StoredValue};
ghost use Rattle.q_script.specs.Records.{Record, AreDigits, IsValue, ReadsValue, IsRecord, IsReadAs, IsEntry, HasFault, IsView, IsRefusal, value_bytes, reason};

use crate::numeral::{leading, number};
use crate::text::without_last_feed;
use bq_meaning::LEAST_RECORD;
use bq_state::Bounds;
use reasons::{Reason, told};
use sc_view::{Entry, MOST_VALUE_BYTES, Stored, VALUE_LENGTH, Value, ValueFault, View, ViewFault};
use std::alloc::Global;

/// The line of a record, `ID SEQ VALUE`.
#[derive(Clone, Copy)]
struct RecordLine {
    /// The id of the node.
    id: u64,
    /// The sequence number of its store.
    number: u64,
    /// The value that it stored, unless it has more than 112 bytes.
    value: Result<Value, ValueFault>,
}

/// What is wrong with a line.
#[derive(Clone, Copy, Debug, PartialEq, Eq)]
pub enum RecordFault {
    /// 9: the line is of another form.
    Syntax,
    /// 75: the id is not above the one before.
    Unsorted,
    /// 77: the sequence number is 0.
    BadField,
    /// 50: the record has another number of bytes than records may have; 16 bytes stand before its value.
    BadValue,
    /// 46: a 257th record would come.
    Full,
}

impl RecordFault {
    /// The reason by which the fault is told.
    pub fn reason(self) -> Reason
        ensures { result ≡ reason self }
    {
        told!(self, RecordFault: Syntax, Unsorted, BadField => MessageField, BadValue, Full => ViewFull)
    }
}

/// Why records are not read.
#[derive(Clone, Copy, Debug, PartialEq, Eq)]
pub enum RecordsFault {
    /// This is wrong with the least faulty line.
    Line {
        /// The line, counted from 1.
        line: usize,
        /// What is wrong.
        fault: RecordFault,
    },
    /// 99: memory ran out.
    OutOfMemory,
}

/// The value for a number: its eight bytes, little-endian, and then zeros.
pub fn value_bytes(number: u64) -> Value
    ensures { result ≡ value_bytes number }
{
    let mut bytes = [0; VALUE_LENGTH];
    bytes[..8].copy_from_slice(&number.to_le_bytes());
    Value::from(&bytes)
}

/// Whether these are hexadecimal digits, two for each byte.
fn are_digits(text: &str) -> bool
    ensures { IsTrue result ↔ ((length text.now % 2 ≡ 0) × AllPass is_hex_digit text.now) }
{
    text.len() % 2 == 0
        && text
            .as_bytes()
            .iter()
            .all(|digit| digit.is_ascii_hexdigit())
}

/// The value of the bytes that hexadecimal digits spell.
fn decoded(digits: &str) -> Option<Result<Value, ValueFault>>
    ensures { ReadsValue AreDigits digits.now result }
{
    let len = digits.len() / 2;
    if len > MOST_VALUE_BYTES {
        return are_digits(digits).then_some(Err(ValueFault::BadValue));
    }
    let mut room = [0; MOST_VALUE_BYTES];
    let bytes = &mut room[..len];
    match hex::decode_to_slice(digits, bytes) {
        Ok(()) => Some(Value::new(bytes)),
        Err(_) => None,
    }
}

/// The value that a text spells.
fn value(text: &str) -> Option<Result<Value, ValueFault>>
    ensures { ReadsValue IsValue text.now result }
{
    match text.strip_prefix('x') {
        Some(digits) => decoded(digits),
        None => Some(Ok(value_bytes(number(text)?))),
    }
}

impl RecordLine {
    /// What a line spells.
    fn read(text: &str) -> Option<RecordLine>
        ensures { MatchOption result ((r : Record) → IsRecord text.now r → ⊥) (λ line. (bytes : List ℕ) × IsRecord text.now (record { id = line.id; number = line.number; value = bytes }) × IsReadAs bytes line.value) }
    {
        let (id, rest) = leading(text, ' ')?;
        let (number, rest) = leading(rest, ' ')?;
        let value = value(rest)?;
        Some(RecordLine { id, number, value })
    }
}

/// The value of a record that has one of the lengths.
fn suited(value: Result<Value, ValueFault>, lengths: Bounds) -> Option<Value>
    ensures { MatchOption result ((bytes : List ℕ) → IsReadAs bytes value → IsIn (16 + length bytes) lengths → ⊥) (λ v. (value ≡ Ok v) × IsIn (16 + length v) lengths) }
{
    let least = usize::from(lengths.least());
    let most = usize::from(lengths.most());
    let value = value.ok()?;
    let length = LEAST_RECORD + value.bytes().len();
    if least <= length && length <= most {
        Some(value)
    } else {
        None
    }
}

/// The record of a line behind the record with this id, or behind none.
fn judged(text: &str, last: Option<u64>, lengths: Bounds) -> Result<Entry, RecordFault>
    ensures { MatchResult result (IsEntry lengths last text.now) (λ fault. (count : ℕ) → HasFault lengths last count text.now fault) }
{
    let Some(line) = RecordLine::read(text) else {
        return Err(RecordFault::Syntax);
    };
    if let Some(last) = last
        && line.id <= last
    {
        return Err(RecordFault::Unsorted);
    }
    if line.number == 0 {
        return Err(RecordFault::BadField);
    }
    let Some(value) = suited(line.value, lengths) else {
        return Err(RecordFault::BadValue);
    };
    let Some(stored) = Stored::new(line.number, value) else {
        unreachable!()
    };
    Ok((line.id, stored))
}

/// The view of the records that a text lists. A value is a number, whose eight bytes stand little-endian before 40
/// zeros, or `x` and two hexadecimal digits for each of its bytes; a record has 16 bytes more, and must have one of the
/// lengths. Refused is what is wrong with the least faulty line, in the order of [`RecordFault`], and 99.
pub fn read_records(alloc: Global, source: &str, lengths: Bounds) -> Result<View, RecordsFault>
    ensures read { IfOk result (IsView lengths source.now) }
    ensures lengths { IfOk result (λ view. (id : ℕ) (e : StoredValue) → fin.get view id ≡ Some e → IsIn (16 + length e.value) lengths) }
    ensures fault { IfErr result (IsRefusal lengths source.now) }
{
    let mut view = View::new(alloc);
    if source.is_empty() {
        return Ok(view);
    }
    let mut last = None;
    for text in without_last_feed(source).split('\n') {
        let (id, stored) = match judged(text, last, lengths) {
            Ok(entry) => entry,
            Err(fault) => {
                return Err(RecordsFault::Line {
                    line: view.len() + 1,
                    fault,
                });
            }
        };
        match view.put(id, stored) {
            Ok(()) => last = Some(id),
            Err(ViewFault::Full) => {
                return Err(RecordsFault::Line {
                    line: view.len() + 1,
                    fault: RecordFault::Full,
                });
            }
            Err(ViewFault::OutOfMemory) => return Err(RecordsFault::OutOfMemory),
        }
    }
    Ok(view)
}
