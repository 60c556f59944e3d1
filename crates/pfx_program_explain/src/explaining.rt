//! `pfx explain`: the entry of a fault.

ghost use Rattle.std.specs.Prelude.{◌≡◌, true, false, IfNone, IfSome, OnOk};
ghost use Rattle.std.specs.Io.KnownBytes.{Appends};
ghost use Rattle.pfx_fault.specs.declared.refusals.Fault.{Fault};
ghost use Rattle.pfx_program_explain.specs.Explaining.{AreSpared, entry_text, faults_of, names};

use crate::entries::{Entry, OF_RUNS, OF_SETS, OF_STORES};
use pfx_fault::Fault;
use pfx_kinds_decimal::number_in;
use std::fmt::{Display, Formatter};
use std::io::Write;
use std::{fmt, io};

fn names(word: &str, fault: Fault) -> bool
    ensures { result ≡ names word.now fault }
{
    match number_in(2, word.as_bytes()) {
        Some(number) if number == u64::from(fault.number()) => true,
        _ => word == fault.name(),
    }
}

fn entry_in(word: &str, entries: &[Entry]) -> Option<Entry>
    ensures found { IfSome result (λ entry. names word.now entry.fault ≡ true) }
    ensures none { IfNone result (AreSpared word.now (faults_of entries.now)) }
{
    for entry in entries {
        if names(word, entry.fault) {
            return Some(*entry);
        }
    }
    None
}

/// The entry of the fault that a word names by its number or by its name; `None` if it names no fault.
pub fn entry_named(word: &str) -> Option<Entry>
    ensures found { IfSome result (λ entry. names word.now entry.fault ≡ true) }
    ensures none { IfNone result ((fault : Fault) → names word.now fault ≡ false) }
{
    if let Some(entry) = entry_in(word, &OF_SETS) {
        return Some(entry);
    }
    if let Some(entry) = entry_in(word, &OF_STORES) {
        return Some(entry);
    }
    entry_in(word, &OF_RUNS)
}

impl Display for Entry {
    ghost use Rattle.std.specs.Prelude.{Some};
    ghost use Rattle.pfx_program_explain.specs.Explaining.{entry_text};

    ghost output = { λ entry. Some (entry_text entry.fault entry.text.now) };

    fn fmt<W: fmt::Write>(&self, f: &mut Formatter<W>) -> fmt::Result {
        let number = self.fault.number();
        let name = self.fault.name();
        let text = self.text;
        let status = self.fault.status();
        write!(f, "{number} {name}, status {status}\n\n{text}\n")
    }
}

/// Writes an entry: the fault's number and name, what it means with an example, and its exit status. An `Err` is the writer's own.
pub fn put_entry<W: Write>(output: &mut W, entry: Entry) -> io::Result<()>
    ensures { OnOk result (Appends (W.contents output.old) (W.contents output.new) (entry_text entry.fault entry.text.now)) }
{
    write!(output, "{entry}")
}
