//! Notes of scripts.

use crate::places::{Place, line_behind, without_mark};
use crate::texts;
use crate::words::{Said, Texts, Word, say, written};
use csv::{ByteRecord, ReaderBuilder};
use pfx_kinds_decimal::number_in;
use pfx_program_explain::NoteLines;
use pfx_program_script::Whole;
use std::alloc::{AllocError, Global};
use std::io::Read;
use std::str::from_utf8;

/// How many bytes a record has at the most.
const LONGEST: usize = 1 << 20;

// A record, its place in the script and its line.
#[derive(Clone, Copy)]
struct Found<'a> {
    file: &'a str,
    line: Option<Place>,
    row: &'a ByteRecord,
    place: u64,
}

impl<'a> Found<'a> {
    fn field(&self, i: usize) -> &'a str {
        match self.row.get(i) {
            Some(bytes) => from_utf8(bytes).unwrap_or(""),
            None => "",
        }
    }

    fn say(&self, texts: Texts, second: Word<'a>, third: Word<'a>) -> Option<Said<'a>> {
        let at = Word::At(self.file, self.line);
        say(texts, &[at, Word::Number(self.place), second, third])
    }
}

/// The line that a record begins at.
pub(crate) fn line_of(text: &[u8], row: &ByteRecord) -> Option<Place> {
    let byte = usize::try_from(row.position()?.byte()).ok()?;
    Some(line_behind(text, byte))
}

// How a record of a verb is written; nothing of another word.
fn form_of(verb: &str) -> &'static str {
    match verb {
        "submit" => "submit,TASK,KIND,GOAL,DATA",
        "slot" => "slot,,,COUNT,",
        "withdraw" => "withdraw,TASK,,,",
        "settle" => "settle,,,,",
        "status" => "status,,,,",
        "show" => "show,TASK,,,",
        "reweigh" => "reweigh,,,WORKERS,E/P E/P ..",
        _ => "",
    }
}

// The first word of a field.
fn word_of(field: &str) -> &str {
    let field = field.trim();
    match field.split_once(' ') {
        Some((word, _)) => word,
        None => field,
    }
}

// Another number of fields than five.
fn fields_note<'a>(found: &Found<'a>) -> Option<Said<'a>> {
    let count = found.row.len();
    let form = form_of(word_of(found.field(0)));
    let texts = match (count == 1, form.is_empty()) {
        (true, true) => texts::ONE_WORD,
        (true, false) => texts::ONE_FIELD,
        (false, true) => texts::WORD_COUNT,
        (false, false) => texts::FIELD_COUNT,
    };
    let third = if count == 1 {
        Word::Front(found.field(0))
    } else {
        Word::Count(count as u64, "field")
    };
    found.say(texts, Word::Text(form), third)
}

fn is_task(text: &str) -> bool {
    match number_in(5, text.as_bytes()) {
        Some(task) => task <= 65_535,
        None => false,
    }
}

fn has_workers(found: &Found<'_>) -> bool {
    number_in(10, found.field(3).as_bytes()).is_some()
}

fn are_empty(found: &Found<'_>, task: bool, goal: bool) -> bool {
    (task || found.field(1).is_empty())
        && found.field(2).is_empty()
        && (goal || found.field(3).is_empty())
        && found.field(4).is_empty()
}

// What is wrong with a record of five fields, and which of them.
fn wrong_field(found: &Found<'_>) -> (Texts, usize) {
    match found.field(0) {
        "submit" if !is_task(found.field(1)) => (texts::RECORD_TASK, 1),
        "submit" => (texts::RECORD_GOAL, 3),
        "slot" if are_empty(found, false, true) => (texts::RECORD_COUNT, 3),
        "withdraw" | "show" if are_empty(found, true, false) => (texts::RECORD_TASK, 1),
        "reweigh" if !found.field(1).is_empty() || !found.field(2).is_empty() => (
            texts::FIELD_USED,
            5,
        ),
        "reweigh" if !has_workers(found) => (texts::RECORD_WORKERS, 3),
        "reweigh" => (texts::RECORD_WEIGHTS, 4),
        verb if form_of(verb).is_empty() => (texts::RECORD_VERB, 0),
        _ => (texts::FIELD_USED, 5),
    }
}

fn verb_note<'a>(found: &Found<'a>) -> Option<Said<'a>> {
    let (texts, field) = wrong_field(found);
    let word = if field < 5 {
        Word::Front(found.field(field))
    } else {
        Word::Text(form_of(found.field(0)))
    };
    found.say(texts, word, Word::Text(""))
}

// What is said of a record that has no form.
fn said_of<'a>(found: &Found<'a>) -> Option<Said<'a>> {
    if from_utf8(found.row.as_slice()).is_err() {
        return found.say(texts::RECORD_BYTES, Word::Text(""), Word::Text(""));
    }
    if found.row.len() != 5 {
        return fields_note(found);
    }
    verb_note(found)
}

/// Reads the record at this place, counted from 1; whether there is one.
pub(crate) fn read_to(alloc: Global, text: &[u8], place: u64, row: &mut ByteRecord) -> bool {
    let mut reader = ReaderBuilder::new()
        .has_headers(false)
        .flexible(true)
        .from_reader(alloc, text);
    for _ in 0..place {
        match reader.read_byte_record(row) {
            Ok(true) => {}
            _ => return false,
        }
    }
    place > 0
}

// How many bytes of a text are whole, where not all are.
fn whole_len(alloc: Global, text: &[u8]) -> Option<usize> {
    let mut bytes = Vec::new(alloc);
    Whole::new(text).read_to_end(&mut bytes).ok()?;
    let len = bytes.len().checked_sub(1)?;
    if bytes.len() <= text.len() && bytes[len] == text[len] {
        None
    } else {
        Some(len)
    }
}

// What isn't whole of the record that ends a text's whole bytes.
fn broken_texts(text: &[u8], len: usize, begin: usize) -> Texts {
    if len.saturating_sub(begin) >= LONGEST {
        texts::RECORD_LONG
    } else if len < text.len() {
        texts::QUOTE_TEXT
    } else {
        texts::QUOTE_OPEN
    }
}

// What is said of the record at this place, where it isn't whole.
fn broken_note<'a>(alloc: Global, file: &'a str, text: &[u8], place: u64) -> Option<Said<'a>> {
    let len = whole_len(alloc, text)?;
    let whole = &text[..len.min(text.len())];
    let mut row = ByteRecord::new(alloc);
    if read_to(alloc, whole, place.saturating_add(1), &mut row)
        || !read_to(alloc, whole, place, &mut row)
    {
        return None;
    }
    let begin = usize::try_from(row.position()?.byte()).ok()?;
    let words = [
        Word::At(file, line_of(text, &row)),
        Word::Number(place),
        Word::Text(""),
        Word::Text(""),
        Word::Number(row.len() as u64),
    ];
    say(broken_texts(text, len, begin), &words)
}

/// The note of the record at this place of a script whose text isn't at hand. Fails only if memory runs out.
pub fn record_note(alloc: Global, file: &str, place: u64) -> Result<Option<NoteLines>, AllocError> {
    let words = [Word::At(file, None), Word::Number(place)];
    written(alloc, say(texts::RECORD, &words))
}

/// The note of the script's record at this place, counted from 1, which has no form: its line, what is wrong, what to write. `file` is
/// the word that names the script, `text` what stands in it. `None` if the text has no such record. Fails only if memory runs
/// out.
pub fn script_note(
    alloc: Global,
    file: &str,
    text: &[u8],
    place: u64,
) -> Result<Option<NoteLines>, AllocError> {
    let text = without_mark(text);
    let broken = broken_note(alloc, file, text, place);
    if broken.is_some() {
        return written(alloc, broken);
    }
    let mut row = ByteRecord::new(alloc);
    if !read_to(alloc, text, place, &mut row) {
        return Ok(None);
    }
    let found = Found {
        file,
        line: line_of(text, &row),
        row: &row,
        place,
    };
    written(alloc, said_of(&found))
}
