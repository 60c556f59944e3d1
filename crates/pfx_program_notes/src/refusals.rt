//! Notes of records of a script that were refused.

use crate::places::{Place, without_mark};
use crate::scripts::{line_of, read_to};
use crate::texts;
use crate::words::{Said, Texts, Word, note_of, said_with};
use csv::ByteRecord;
use pfx_fault::Fault;
use pfx_program_explain::NoteLines;
use std::alloc::{AllocError, Global};
use std::str::from_utf8;

// What to do about a refusal.
fn change_of(fault: Fault) -> &'static str {
    let refusal = fault.name();
    for (name, change) in texts::REFUSALS {
        if refusal == name {
            return change;
        }
    }
    texts::AT_ITS_END
}

// The word of a record that such a refusal is about; empty if it is about none.
fn word_of(row: &ByteRecord, fault: Fault) -> &str {
    let place = match fault {
        Fault::BadKind => 2,
        Fault::BadGoal => 3,
        Fault::BadData => 4,
        _ => return "",
    };
    match row.get(place) {
        Some(bytes) => from_utf8(bytes).unwrap_or(""),
        None => "",
    }
}

/// A record that was refused first: its place, counted from 1, why it was, and how many records were refused.
#[derive(Clone, Copy)]
pub struct FirstRefusal {
    pub at: u64,
    pub fault: Fault,
    pub refused: u64,
}

// What is said of the record that was refused first: its line and its word, as far as the script's text has them.
fn said_of<'a>(file: &'a str, first: FirstRefusal, line: Option<Place>, word: &'a str) -> Said<'a> {
    let what = if word.is_empty() {
        texts::REFUSED
    } else {
        texts::REFUSED_WORD
    };
    let more = match first.refused {
        0 | 1 => "",
        2 => "One more record was refused.",
        _ => "{3} more records were refused.",
    };
    let words = [
        Word::At(file, line),
        Word::Number(first.at),
        Word::Refusal(first.fault),
        Word::Number(first.refused.saturating_sub(1)),
        Word::Front(word),
    ];
    let change = change_of(first.fault);
    said_with(Texts { what, change }, more, &words)
}

/// The note of the first refused record of a script: where it stands, how it was refused, what to change, and how many more records were.
/// `file` is the word that names the script, `text` what stands in it, or nothing if that isn't at hand: then its place among the
/// records is told, and no line. Fails only if memory runs out.
pub fn refused_note(
    alloc: Global,
    file: &str,
    text: &[u8],
    first: FirstRefusal,
) -> Result<NoteLines, AllocError> {
    let text = without_mark(text);
    let mut row = ByteRecord::new(alloc);
    if !read_to(alloc, text, first.at, &mut row) {
        return note_of(alloc, said_of(file, first, None, ""));
    }
    let word = word_of(&row, first.fault);
    note_of(alloc, said_of(file, first, line_of(text, &row), word))
}
