//! The records of a script, one at a time.

ghost use Rattle.std.specs.Prelude.{◌≡◌, ◌+◌, ◌<◌, ◌^◌, true, false, Some, Err, IfOk, IfErr, OnOk, OnErr, option_map};
ghost use Rattle.csv.specs.Records.{fields_of, AllText};
ghost use Rattle.csv.specs.Reading.{error_kind, source_of, reader_source, reader_state, has_failed, strip_bom};
ghost use Rattle.csv.specs.declared.parser.State.TheVariants as st;
ghost use Rattle.pfx_program_script.specs.Heard.{heard_left};
ghost use Rattle.pfx_program_script.specs.Records.{unread, ReadsScripts, Reads, ReadFails, IsUnread, Reports};

use crate::heard::Heard;
use csv::{ErrorKind, Reader, ReaderBuilder, StringRecord};
use pfx_fault::Fault;
use std::alloc::Global;
use std::io::Read;
use std::marker::Model;

/// A script that is being read, in the memory of one record at a time.
///
/// It is seen as the list of the records that are left, if the bytes of its reader are known, the number of those that
/// were read, whether reading has failed, whether the last answer of its reader was an error, and whether a record more has
/// been read to its end.
#[derive(Drop)]
pub struct Script<R: Read + Drop> {
    reader: Reader<Heard<R>>,
    place: u64,
    failed: bool,
}

impl<R: Read + Drop> Model for Script<R> {
    ghost use Rattle.std.specs.Prelude.{◌≡◌, false, None, nat_lt, if◌then◌else◌};
    ghost use Rattle.csv.specs.Reading.{reader_source};
    ghost use Rattle.pfx_program_script.specs.Heard.{heard_left};
    ghost use Rattle.pfx_program_script.specs.Records.{Records, records_left, ReadsScripts};

    ghost Value = { Records };

    ghost view = { λ s. record {
      left = if s.failed then None else records_left (heard_left R.remaining) s.reader;
      place = s.place;
      failed = s.failed;
      broken = (reader_source s.reader).failed;
      ready = nat_lt s.place (reader_source s.reader).gone.ends;
    } };

    ghost invariant = { λ s. s.failed ≡ false → ReadsScripts s.reader };
}

// A reader of records of any lengths, with no header line.
fn records_of<R: Read + Drop>(alloc: Global, input: R) -> Reader<Heard<R>>
    ensures reads { ReadsScripts result }
    ensures state { reader_state result ≡ st.StartRecord }
    ensures source { source_of (heard_left R.remaining) result ≡ option_map strip_bom (R.remaining input) }
    ensures well { (reader_source result).failed ≡ false }
    ensures none { (reader_source result).gone.ends ≡ 0 }
{
    ReaderBuilder::new()
        .has_headers(false)
        .flexible(true)
        .from_reader(alloc, Heard::new(input))
}

// A reader that hasn't failed leaves memory alone to run out.
fn read_fault(error: &csv::Error, broken: bool, at: u64) -> Fault
    ensures { Reports (error_kind error.now) broken at result }
{
    match error.kind() {
        ErrorKind::Io(_) if broken => Fault::InputFailed,
        ErrorKind::Io(_) => Fault::NoMemory,
        ErrorKind::OutOfMemory => Fault::NoMemory,
        _ => Fault::BadScript { at },
    }
}

impl<R: Read + Drop> Script<R> {
    /// The script that a reader gives. A byte order mark in front is passed over.
    pub fn new(alloc: Global, input: R) -> Script<R>
        ensures { result ≡ unread (R.remaining input) }
    {
        Script {
            reader: records_of(alloc, input),
            place: 0,
            failed: false,
        }
    }

    /// How many records were read.
    pub fn place(&self) -> u64
        ensures { result ≡ self.now.place }
    {
        self.place
    }

    /// Whether the next record stands ready: the reader has given it to its end, and it wasn't read yet. So it is read without asking
    /// the reader for more.
    pub fn has_ready(&self) -> bool
        ensures { result ≡ self.now.ready }
    {
        let ends = self.reader.get_ref().ends();
        ends > self.place
    }

    /// Reads the next record into `row`: `true` if there is one, `false` at the script's end.
    ///
    /// `BadScript` comes if the next record is no UTF-8 text, with its place; `InputFailed` if the reader fails (or 2^64 - 1
    /// records were read), and only then; `NoMemory` if an allocation failed. Reading has failed then, at the same place: each
    /// further call answers `InputFailed`, and reads nothing.
    pub fn next(&mut self, row: &mut StringRecord) -> Result<bool, Fault>
        ensures reads { IfOk result (λ found. Reads self.old found (fields_of row.new) self.new) }
        ensures text { OnOk result (AllText (fields_of row.new)) }
        ensures counts { self.new.place < 2 ^ 64 }
        ensures fails { IfErr result (λ e. ReadFails self.old e) }
        ensures input { result ≡ Err Fault.InputFailed → IsUnread self.old self.new }
        ensures stops { OnErr result ((self.new.failed ≡ true) × (self.new.place ≡ self.old.place)) }
        ensures stopped { self.old.failed ≡ true → (result ≡ Err Fault.InputFailed) × (self.new ≡ self.old) }
    {
        if self.failed || self.place == u64::MAX {
            self.failed = true;
            return Err(Fault::InputFailed);
        }
        match self.reader.read_record(row) {
            Ok(found) => {
                if found {
                    self.place += 1;
                }
                Ok(found)
            }
            Err(error) => {
                self.failed = true;
                let broken = self.reader.get_ref().has_failed();
                Err(read_fault(&error, broken, self.place + 1))
            }
        }
    }
}
