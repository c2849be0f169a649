//! Every refusal that a caller is told, each with its number and its name.
//!
//! From the node up a call that refuses answers the [`Reason`] itself. Faults that carry more (a unit, a line, a place)
//! are of the crates that refuse with them, and tell of each its reason. The definition of the table is in
//! `specs/Table.antt`. Two names stand twice, for texts and for messages: 2 and 73 are both `TooLong`, 6 and 77 both
//! `BadField`. No number does.
#![tactic(auto)]

ghost use Rattle.std.specs.Prelude.{◌≡◌, Contains, map};
ghost use Rattle.std.specs.List.Sorted.{IsStrictlyIncreasing};
ghost use Rattle.reasons.specs.declared.Reason.{Reason as Why};
ghost use Rattle.reasons.specs.declared.Reason.TheVariants.{OutOfMemory};
ghost use Rattle.reasons.specs.Table.{number, name};

use std::alloc::{AllocError, AllocFailed};
use std::fmt;

pub mod worked;

/// The reason of each variant of a fault: that of its own name, that of the name behind `=>`, or that of the fault that
/// it carries. `Name { .. }` is a variant whose fields say nothing of the reason.
#[macro_export]
macro_rules! told {
    (@ $name:ident) => { $crate::Reason::$name };
    (@ $name:ident => $reason:ident) => { $crate::Reason::$reason };
    (@ $name:ident { }) => { $crate::Reason::$name };
    (@ $name:ident { } => $reason:ident) => { $crate::Reason::$reason };
    (@ $name:ident { $carried:ident }) => { $carried.reason() };
    (@ $name:ident ($carried:ident)) => { $carried.reason() };
    ($told:expr, $fault:ident: $($name:ident $(($carried:ident))? $({ $($field:ident,)? .. })? $(=> $reason:ident)?),+) => {
        match $told {
            $($fault::$name $(($carried))? $({ $($field,)? .. })? =>
                $crate::told!(@ $name $(($carried))? $({ $($field)? })? $(=> $reason)?),)+
        }
    };
}

/// The value of another type that stands for one of this type, as a fault may stand for another: the variant of the
/// same name, or of the name behind `=>`; `else` names the one of all others.
#[macro_export]
macro_rules! passed_on {
    (@ $to:ident $name:ident) => { $to::$name };
    (@ $to:ident $name:ident => $other:ident) => { $to::$other };
    ($fault:expr, $from:ident as $to:ident: $($name:ident $(=> $other:ident)?),+ $(; else $rest:ident)?) => {
        match $fault {
            $($from::$name => $crate::passed_on!(@ $to $name $(=> $other)?),)+
            $(_ => $to::$rest,)?
        }
    };
}

/// Why something is refused, each with its number, in the order of these. Of calls and events [`Reason::when`] says
/// when each is told.
#[derive(Clone, Copy, Debug, PartialEq, Eq)]
pub enum Reason {
    // Texts of instructions, and sources of the assembler.
    BadLength = 1,
    TooLong = 2,
    BadOpcode = 3,
    BadRegister = 4,
    UnusedField = 5,
    BadField = 6,
    CutWide = 7,
    LeftOut = 8,
    Syntax = 9,
    Label = 10,
    // The flow of a text.
    Backward = 11,
    OutsideText = 12,
    IntoWide = 13,
    FallsOff = 14,
    // Notes and the rules of the checker.
    WrongCount = 21,
    Entry = 22,
    UnsetRegister = 23,
    WrongKind = 24,
    OutsideFrame = 25,
    OutsideRecord = 26,
    RecordWritten = 27,
    FramePointerWritten = 28,
    NotCovered = 29,
    AnswerKind = 30,
    NoteForm = 31,
    // Calls of nodes and views.
    NotJoined = 41,
    Gone = 42,
    SessionsFull = 43,
    IdUsed = 44,
    BadFraction = 45,
    ViewFull = 46,
    FactsFull = 47,
    NumbersOut = 48,
    BadFounders = 49,
    // Programs, queries and journals.
    BadValue = 50,
    UnknownProgram = 51,
    TableFull = 52,
    BookFull = 53,
    NoSuchQuery = 54,
    Stranger = 55,
    AlreadyAnswered = 56,
    JournalForm = 57,
    JournalMismatch = 58,
    WrongBounds = 59,
    // Job boards.
    RowFull = 61,
    BadCount = 62,
    // Messages and records.
    BadHead = 71,
    Short = 72,
    /// Told as `TooLong`.
    LongMessage = 73,
    BadKind = 74,
    Unsorted = 75,
    Extra = 76,
    /// Told as `BadField`.
    MessageField = 77,
    // Events, requests, transports and files.
    NoSuchNode = 81,
    NeverSent = 82,
    NoSuchJob = 83,
    BadRequest = 84,
    CutRequest = 85,
    TransportFailed = 86,
    FileFailed = 87,
    // Runs that test each access.
    ReadUnset = 91,
    WroteFramePointer = 92,
    OutsideAccess = 93,
    WroteRecord = 94,
    BadPlace = 95,
    StepsOut = 96,
    OutOfMemory = 99,
}

/// Every reason, in the order of numbers.
const REASONS: [Reason; 67] = [
    Reason::BadLength,
    Reason::TooLong,
    Reason::BadOpcode,
    Reason::BadRegister,
    Reason::UnusedField,
    Reason::BadField,
    Reason::CutWide,
    Reason::LeftOut,
    Reason::Syntax,
    Reason::Label,
    Reason::Backward,
    Reason::OutsideText,
    Reason::IntoWide,
    Reason::FallsOff,
    Reason::WrongCount,
    Reason::Entry,
    Reason::UnsetRegister,
    Reason::WrongKind,
    Reason::OutsideFrame,
    Reason::OutsideRecord,
    Reason::RecordWritten,
    Reason::FramePointerWritten,
    Reason::NotCovered,
    Reason::AnswerKind,
    Reason::NoteForm,
    Reason::NotJoined,
    Reason::Gone,
    Reason::SessionsFull,
    Reason::IdUsed,
    Reason::BadFraction,
    Reason::ViewFull,
    Reason::FactsFull,
    Reason::NumbersOut,
    Reason::BadFounders,
    Reason::BadValue,
    Reason::UnknownProgram,
    Reason::TableFull,
    Reason::BookFull,
    Reason::NoSuchQuery,
    Reason::Stranger,
    Reason::AlreadyAnswered,
    Reason::JournalForm,
    Reason::JournalMismatch,
    Reason::WrongBounds,
    Reason::RowFull,
    Reason::BadCount,
    Reason::BadHead,
    Reason::Short,
    Reason::LongMessage,
    Reason::BadKind,
    Reason::Unsorted,
    Reason::Extra,
    Reason::MessageField,
    Reason::NoSuchNode,
    Reason::NeverSent,
    Reason::NoSuchJob,
    Reason::BadRequest,
    Reason::CutRequest,
    Reason::TransportFailed,
    Reason::FileFailed,
    Reason::ReadUnset,
    Reason::WroteFramePointer,
    Reason::OutsideAccess,
    Reason::WroteRecord,
    Reason::BadPlace,
    Reason::StepsOut,
    Reason::OutOfMemory,
];

impl From<AllocError> for Reason {
    ghost from_gives = { λ _ e. e ≡ OutOfMemory };

    fn from(_: AllocError) -> Reason {
        Reason::OutOfMemory
    }
}

impl<T: Drop> From<AllocFailed<T>> for Reason {
    ghost from_gives = { λ _ e. e ≡ OutOfMemory };

    fn from(_: AllocFailed<T>) -> Reason {
        Reason::OutOfMemory
    }
}

impl Reason {
    /// Each reason, in the order of numbers.
    pub fn all() -> [Reason; 67]
        ensures each { (reason : Why) → Contains result reason }
        ensures rising { IsStrictlyIncreasing (map number result) }
    {
        REASONS
    }

    /// The number by which it is told.
    pub fn number(self) -> u8
        ensures { result ≡ number self }
    {
        self as u8
    }

    /// The name by which it is told.
    pub fn name(self) -> &'static str
        ensures { result.now ≡ name self }
    {
        match self {
            Reason::BadLength => "BadLength",
            Reason::TooLong => "TooLong",
            Reason::BadOpcode => "BadOpcode",
            Reason::BadRegister => "BadRegister",
            Reason::UnusedField => "UnusedField",
            Reason::BadField => "BadField",
            Reason::CutWide => "CutWide",
            Reason::LeftOut => "LeftOut",
            Reason::Syntax => "Syntax",
            Reason::Label => "Label",
            Reason::Backward => "Backward",
            Reason::OutsideText => "OutsideText",
            Reason::IntoWide => "IntoWide",
            Reason::FallsOff => "FallsOff",
            Reason::WrongCount => "WrongCount",
            Reason::Entry => "Entry",
            Reason::UnsetRegister => "UnsetRegister",
            Reason::WrongKind => "WrongKind",
            Reason::OutsideFrame => "OutsideFrame",
            Reason::OutsideRecord => "OutsideRecord",
            Reason::RecordWritten => "RecordWritten",
            Reason::FramePointerWritten => "FramePointerWritten",
            Reason::NotCovered => "NotCovered",
            Reason::AnswerKind => "AnswerKind",
            Reason::NoteForm => "NoteForm",
            Reason::NotJoined => "NotJoined",
            Reason::Gone => "Gone",
            Reason::SessionsFull => "SessionsFull",
            Reason::IdUsed => "IdUsed",
            Reason::BadFraction => "BadFraction",
            Reason::ViewFull => "ViewFull",
            Reason::FactsFull => "FactsFull",
            Reason::NumbersOut => "NumbersOut",
            Reason::BadFounders => "BadFounders",
            Reason::BadValue => "BadValue",
            Reason::UnknownProgram => "UnknownProgram",
            Reason::TableFull => "TableFull",
            Reason::BookFull => "BookFull",
            Reason::NoSuchQuery => "NoSuchQuery",
            Reason::Stranger => "Stranger",
            Reason::AlreadyAnswered => "AlreadyAnswered",
            Reason::JournalForm => "JournalForm",
            Reason::JournalMismatch => "JournalMismatch",
            Reason::WrongBounds => "WrongBounds",
            Reason::RowFull => "RowFull",
            Reason::BadCount => "BadCount",
            Reason::BadHead => "BadHead",
            Reason::Short => "Short",
            Reason::LongMessage => "TooLong",
            Reason::BadKind => "BadKind",
            Reason::Unsorted => "Unsorted",
            Reason::Extra => "Extra",
            Reason::MessageField => "BadField",
            Reason::NoSuchNode => "NoSuchNode",
            Reason::NeverSent => "NeverSent",
            Reason::NoSuchJob => "NoSuchJob",
            Reason::BadRequest => "BadRequest",
            Reason::CutRequest => "CutRequest",
            Reason::TransportFailed => "TransportFailed",
            Reason::FileFailed => "FileFailed",
            Reason::ReadUnset => "ReadUnset",
            Reason::WroteFramePointer => "WroteFramePointer",
            Reason::OutsideAccess => "OutsideAccess",
            Reason::WroteRecord => "WroteRecord",
            Reason::BadPlace => "BadPlace",
            Reason::StepsOut => "StepsOut",
            Reason::OutOfMemory => "OutOfMemory",
        }
    }

    /// When it is told, in words for a person: of calls and events, and of memory.
    pub fn when(self) -> Option<&'static str> {
        let words = match self {
            Reason::NotJoined => "The node has not joined, so it can begin no operation.",
            Reason::Gone => "The node left. No call is made at it any more.",
            Reason::SessionsFull => "The node has 64 operations open, the most that it has.",
            Reason::IdUsed =>
                "The id was used before, also by a node that left or crashed. Ids are used once.",
            Reason::ViewFull => "A view would have more than 256 ids, the most that one has.",
            Reason::FactsFull =>
                "More than 1024 ids would be known to have entered, joined or left: the most.",
            Reason::NumbersOut => "The node has begun 2^32 operations, the most that it begins.",
            Reason::BadFounders =>
                "The founders are not 1 to 256, their ids do not rise strictly, or they lack the node's own.",
            Reason::BadValue => "A value has another length than those of the version.",
            Reason::UnknownProgram => "No program of this node has this number.",
            Reason::TableFull => "The node has 1024 programs, the most that it keeps.",
            Reason::BookFull =>
                "The node has 4096 queries, or 65536 entries in its journal: the most.",
            Reason::NoSuchQuery => "No query of this node has this number.",
            Reason::Stranger =>
                "The result is of another node, program, view or start, or its query does not run.",
            Reason::AlreadyAnswered => "The query of this job is answered.",
            Reason::WrongBounds =>
                "The program was checked for records of other lengths than those of the node's views.",
            Reason::NoSuchNode => "No node of this id is there: it never entered, left or crashed.",
            Reason::NeverSent => "No message of this number was sent.",
            Reason::NoSuchJob => "No job of this number was handed out.",
            Reason::OutOfMemory => "Memory was refused.",
            _ => return None,
        };
        Some(words)
    }
}

/// The number and the name, with a space between.
impl fmt::Display for Reason {
    ghost use Rattle.std.specs.Prelude.{Some};
    ghost use Rattle.reasons.specs.Table.{text};

    ghost output = { λ reason. Some (text reason) };

    fn fmt<W: fmt::Write>(&self, f: &mut fmt::Formatter<W>) -> fmt::Result {
        write!(f, "{} {}", self.number(), self.name())
    }
}
