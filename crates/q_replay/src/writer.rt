//! Heads and events to bytes.

ghost use Rattle.std.specs.Prelude.{◌≡◌, ◌<◌, ◌^◌, ◌++◌, ◌∷◌, [], length, option_map, IfOk, IfSome, OnOk};
ghost use Rattle.std.specs.List.{flat_map, AllByRecursion};
ghost use Rattle.bq_sound.specs.Passes.{AllFitLengths};
ghost use Rattle.bq_check.specs.Spelling.{notes_bytes, IsNotes};
ghost use Rattle.spelling.specs.Numbers.{number_bytes};
ghost use Rattle.q_book.specs.Replays.{EntryFits};
ghost use Rattle.q_replay.specs.Spelling.{config_bytes, head_bytes, body_bytes, event_bytes, code, AreShort, IsHead, IsWritten};
ghost use Rattle.q_replay.specs.Reading.{ids_bytes};
ghost use Rattle.q_book.specs.Books.{notes_form, record_lengths};
ghost use Rattle.q_replay.specs.Writing.{with_more};
ghost use Rattle.q_replay.specs.Journal.{written_of, IsEntry};
ghost use Rattle.q_replay.specs.Checked.{IsChecked};
ghost use Rattle.q_replay.specs.declared.raw_entry.RawEntry.TheVariants as written;

use bq_check::Notes;
use bq_insn::Text;
use q_desk::{Call, Entry};
use sc_members::Config;
use sc_msg::{Version, encode_fitting};
use spelling::{put_u16, put_u32, put_u64};
use std::alloc::{AllocError, Global};
use std::marker::Model;

/// The bytes of the parts of heads and events. Contracts see the list of these.
#[derive(Drop)]
struct Bytes {
    bytes: Vec<u8>,
}

impl Model for Bytes {
    ghost use Rattle.std.specs.Prelude.{ℕ, List};

    ghost Value = { List ℕ };

    ghost view = { λ b. b.bytes.items };
}

impl Bytes {
    fn byte(&mut self, byte: u8) -> Result<(), AllocError>
        ensures { OnOk result (self.new ≡ self.old ++ byte ∷ []) }
    {
        Ok(self.bytes.push(byte)?)
    }

    fn append(&mut self, bytes: &[u8]) -> Result<(), AllocError>
        ensures { OnOk result (self.new ≡ self.old ++ bytes.now) }
    {
        self.bytes.extend_from_slice(bytes)
    }

    /// A number in two bytes.
    fn short(&mut self, number: u16) -> Result<(), AllocError>
        ensures fits { number < 2 ^ 16 }
        ensures spelled { OnOk result (self.new ≡ self.old ++ number_bytes 2 number) }
    {
        put_u16(&mut self.bytes, number)
    }

    /// A number in four bytes.
    fn word(&mut self, number: u32) -> Result<(), AllocError>
        ensures fits { number < 2 ^ 32 }
        ensures spelled { OnOk result (self.new ≡ self.old ++ number_bytes 4 number) }
    {
        put_u32(&mut self.bytes, number)
    }

    /// A number in eight bytes.
    fn number(&mut self, number: u64) -> Result<(), AllocError>
        ensures fits { number < 2 ^ 64 }
        ensures spelled { OnOk result (self.new ≡ self.old ++ number_bytes 8 number) }
    {
        put_u64(&mut self.bytes, number)
    }

    fn config(&mut self, config: Config) -> Result<(), AllocError>
        ensures legal { AreShort config }
        ensures spelled { OnOk result (self.new ≡ self.old ++ config_bytes config) }
    {
        self.short(config.beta_num() as u16)?;
        self.short(config.beta_den() as u16)?;
        self.short(config.gamma_num() as u16)?;
        self.short(config.gamma_den() as u16)
    }

    /// How many, and the ids.
    fn ids(&mut self, ids: &[u64]) -> Result<(), AllocError>
        requires { length ids.now < 2 ^ 16 }
        ensures legal { OnOk result (AllByRecursion (λ id. id < 2 ^ 64) ids.now) }
        ensures spelled { OnOk result (self.new ≡ self.old ++ ids_bytes ids.now) }
    {
        self.short(ids.len() as u16)?;
        for id in ids {
            self.number(*id)?;
        }
        Ok(())
    }

    /// A text behind its length, and notes, in the form of that version.
    fn program(
        &mut self,
        alloc: Global,
        version: Version,
        text: &Text,
        notes: &Notes,
    ) -> Result<(), AllocError>
        requires { AllFitLengths (record_lengths version) notes.now }
        ensures legal { OnOk result (IsWritten version (written.Register text.now notes.now)) }
        ensures spelled { OnOk result (self.new ≡ self.old ++ body_bytes version (written.Register text.now notes.now)) }
    {
        let spelling = bq_insn::encode(alloc, text)?;
        let notes = spelled_notes(alloc, version, notes)?;
        self.word(spelling.len() as u32)?;
        self.append(&spelling)?;
        self.append(&notes)
    }

    /// The body of an entry in that version. Answers the entry's kind.
    fn body(&mut self, alloc: Global, version: Version, entry: &Entry) -> Result<u8, AllocError>
        requires fits { EntryFits version entry.now }
        requires checked { IsChecked version entry.now }
        ensures kind { IfOk result (λ kind. kind ≡ code (written_of entry.now)) }
        ensures legal { OnOk result (IsEntry version entry.now) }
        ensures spelled { OnOk result (self.new ≡ self.old ++ body_bytes version (written_of entry.now)) }
    {
        match entry {
            Entry::Call(Call::Leave) => Ok(1),
            Entry::Call(Call::Register(program)) => {
                let certified = program.certified();
                let _longest = certified.longest();
                self.program(alloc, version, certified.text(), certified.notes())?;
                Ok(2)
            }
            Entry::Call(Call::Ask { program, start }) => {
                self.word(program.number())?;
                self.number(*start)?;
                Ok(3)
            }
            Entry::Call(Call::Store(value)) => {
                self.append(value.bytes())?;
                Ok(4)
            }
            Entry::Deliver(message) => {
                let bytes = encode_fitting(alloc, version, message)?;
                self.append(&bytes)?;
                Ok(5)
            }
            Entry::Call(Call::HandOut) => Ok(6),
            Entry::Post { query, ran } => {
                self.number(*query as u64)?;
                self.number(ran.acc)?;
                self.number(ran.steps)?;
                Ok(7)
            }
        }
    }
}

/// The bytes of the notes in the form of that version. The one error is that memory ran out.
fn spelled_notes(alloc: Global, version: Version, notes: &Notes) -> Result<Vec<u8>, AllocError>
    requires { AllFitLengths (record_lengths version) notes.now }
    ensures legal { IfOk result (λ _. IsNotes (notes_form version) notes.now) }
    ensures spelled { IfOk result (λ bytes. bytes.items ≡ notes_bytes (notes_form version) notes.now) }
{
    match version {
        Version::First => match notes.bytes_v1(alloc) {
            Ok(bytes) => Ok(bytes),
            Err(_) => Err(AllocError),
        },
        Version::Second => notes.bytes(alloc),
    }
}

/// The bytes of a journal that is being written. Contracts see its version and these. The one error of each call is
/// that memory ran out (99 OutOfMemory); then the bytes may end within what was to be written.
#[derive(Drop)]
pub struct Writer {
    alloc: Global,
    version: Version,
    out: Bytes,
}

impl Model for Writer {
    ghost use Rattle.q_replay.specs.Writing.{JournalBytes};

    ghost Value = { JournalBytes };

    ghost view = { λ w. record { version = w.version; bytes = w.out } };
}

impl Writer {
    /// Nothing is written yet of a journal of that version.
    pub fn new(alloc: Global, version: Version) -> Writer
        ensures { result ≡ record { version = version; bytes = [] } }
    {
        Writer {
            alloc,
            version,
            out: Bytes {
                bytes: Vec::new(alloc),
            },
        }
    }

    /// The head of the journal of this node: of a founder with all founders' ids, and with none of a node that enters.
    /// A cluster has at most 256 founders.
    pub fn head(
        &mut self,
        id: u64,
        config: Config,
        founders: Option<&[u64]>,
    ) -> Result<(), AllocError>
        requires { IfSome founders (λ ids. length ids.now < 2 ^ 16) }
        ensures legal { OnOk result (IsHead (record { version = self.old.version; id = id; config = config; founders = option_map (λ ids. ids.now) founders.entry })) }
        ensures spelled { OnOk result (self.new ≡ with_more self.old (head_bytes (record { version = self.old.version; id = id; config = config; founders = option_map (λ ids. ids.now) founders.entry }))) }
    {
        self.out.append(&[0x42, 0x51, 0x4a, self.version.byte()])?;
        self.out.number(id)?;
        self.out.config(config)?;
        match founders {
            Some(ids) => {
                self.out.byte(0)?;
                self.out.ids(ids)
            }
            None => self.out.byte(1),
        }
    }

    /// An entry, whose values have lengths of the version, and whose program was checked for the version's records.
    #[tactic(auto, using(crate::proofs::Sizes::body_small))]
    pub fn entry(&mut self, entry: &Entry) -> Result<(), AllocError>
        requires fits { EntryFits self.old.version entry.now }
        requires checked { IsChecked self.old.version entry.now }
        ensures legal { OnOk result (IsEntry self.old.version entry.now) }
        ensures spelled { OnOk result (self.new ≡ with_more self.old (event_bytes self.old.version (written_of entry.now))) }
    {
        let mut body = Bytes {
            bytes: Vec::new(self.alloc),
        };
        let kind = body.body(self.alloc, self.version, entry)?;
        self.out.byte(kind)?;
        self.out.word(body.bytes.len() as u32)?;
        self.out.append(&body.bytes)
    }

    /// All that was written.
    pub fn bytes(self) -> Vec<u8>
        ensures { result.items ≡ self.bytes }
    {
        self.out.bytes
    }
}
