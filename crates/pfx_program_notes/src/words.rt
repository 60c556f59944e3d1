//! Texts with places for words, and what fills them.

use crate::fractions::Fraction;
use crate::places::{Place, shown_path};
use pfx_fault::Fault;
use pfx_kinds_decimal::number_in;
use pfx_program_explain::NoteLines;
use std::alloc::{AllocError, Global};

/// The most bytes of a text that is shown in front.
const FRONT: usize = 40;

/// What stands at a place of a text.
#[derive(Clone, Copy)]
pub(crate) enum Word<'a> {
    /// A text.
    Text(&'a str),
    /// The first characters of a text, if it is long.
    Front(&'a str),
    /// A number.
    Number(u64),
    /// A number that may be below 0.
    Integer(i64),
    /// A file, with the line and the column if they are known.
    At(&'a str, Option<Place>),
    /// A task by its number and its name.
    Task(usize, Option<&'a str>),
    /// A name like this one that a task may have.
    Name(&'a str),
    /// An idle task by its number.
    Idle(usize),
    /// A ledger of nothing, of so many tasks.
    Zeros(usize),
    /// So many of what the noun names.
    Count(u64, &'static str),
    /// Whether so many is or are.
    Are(u64),
    /// A number of parts, and how many make a whole.
    Fraction(Fraction),
    /// A number, or the next one too.
    Either(u64),
    /// A refusal: its number, its name and its fields.
    Refusal(Fault),
}

/// What is wrong, and what to change: texts with places `{0}` to `{5}` for words.
#[derive(Clone, Copy)]
pub(crate) struct Texts {
    pub(crate) what: &'static str,
    pub(crate) change: &'static str,
}

/// What is said: its texts, and the words at their places. `more` is a third text, or empty.
#[derive(Clone, Copy)]
pub(crate) struct Said<'a> {
    what: &'static str,
    change: &'static str,
    more: &'static str,
    first: Word<'a>,
    second: Word<'a>,
    third: Word<'a>,
    fourth: Word<'a>,
    fifth: Word<'a>,
    sixth: Word<'a>,
}

fn word_at<'a>(words: &[Word<'a>], i: usize) -> Word<'a> {
    match words.get(i) {
        Some(word) => *word,
        None => Word::Text(""),
    }
}

/// These texts, with a third one or an empty one, and these words.
pub(crate) fn said_with<'a>(texts: Texts, more: &'static str, words: &[Word<'a>]) -> Said<'a> {
    let first = word_at(words, 0);
    let second = word_at(words, 1);
    let third = word_at(words, 2);
    let fourth = word_at(words, 3);
    let fifth = word_at(words, 4);
    let sixth = word_at(words, 5);
    Said {
        what: texts.what,
        change: texts.change,
        more,
        first,
        second,
        third,
        fourth,
        fifth,
        sixth,
    }
}

/// These texts, with these words.
pub(crate) fn say<'a>(texts: Texts, given: &[Word<'a>]) -> Option<Said<'a>> {
    Some(said_with(texts, "", given))
}

fn put_front(text: &mut String, word: &str) -> Result<(), AllocError> {
    let mut count: usize = 0;
    for c in word.chars() {
        if count >= FRONT {
            return text.push_str("..");
        }
        count = count.saturating_add(c.len_utf8());
        text.push(c)?;
    }
    Ok(())
}

fn put_number(alloc: Global, text: &mut String, number: u64) -> Result<(), AllocError> {
    let digits = number.to_string(alloc)?;
    text.push_str(digits.as_str())
}

fn put_integer(alloc: Global, text: &mut String, number: i64) -> Result<(), AllocError> {
    let digits = number.to_string(alloc)?;
    text.push_str(digits.as_str())
}

fn put_file(
    alloc: Global,
    text: &mut String,
    file: &str,
    place: Option<Place>,
) -> Result<(), AllocError> {
    text.push_str(shown_path(file))?;
    if let Some(Place { line, column }) = place {
        text.push(':')?;
        put_number(alloc, text, line as u64)?;
        text.push(':')?;
        put_number(alloc, text, column as u64)?;
    }
    Ok(())
}

fn put_task(
    alloc: Global,
    text: &mut String,
    task: usize,
    name: Option<&str>,
) -> Result<(), AllocError> {
    text.push_str("task ")?;
    put_number(alloc, text, task as u64)?;
    if let Some(name) = name {
        text.push_str(" \"")?;
        text.push_str(name)?;
        text.push('"')?;
    }
    Ok(())
}

/// Whether a character may stand in a name.
pub(crate) fn is_in_names(c: char) -> bool {
    c.is_ascii_alphanumeric() || c == '_' || c == '-'
}

fn put_name(text: &mut String, name: &str) -> Result<(), AllocError> {
    let mut count: usize = 0;
    for c in name.chars() {
        if count < 32 {
            text.push(if is_in_names(c) { c } else { '_' })?;
            count += 1;
        }
    }
    if count == 0 { text.push('a') } else { Ok(()) }
}

fn put_zeros(text: &mut String, total: usize) -> Result<(), AllocError> {
    text.push_str("0:0")?;
    for _ in 1..total {
        text.push_str(",0")?;
    }
    Ok(())
}

fn put_count(alloc: Global, text: &mut String, count: u64, noun: &str) -> Result<(), AllocError> {
    put_number(alloc, text, count)?;
    text.push(' ')?;
    text.push_str(noun)?;
    if count == 1 {
        return Ok(());
    }
    text.push('s')
}

fn put_refusal(alloc: Global, text: &mut String, fault: Fault) -> Result<(), AllocError> {
    let said = fault.to_string(alloc)?;
    text.push_str(said.as_str())
}

fn put_idle(alloc: Global, text: &mut String, task: usize) -> Result<(), AllocError> {
    text.push_str("idle ")?;
    put_task(alloc, text, task, None)
}

fn put_fraction(alloc: Global, text: &mut String, fraction: Fraction) -> Result<(), AllocError> {
    put_number(alloc, text, fraction.parts)?;
    if fraction.whole == 1 {
        return Ok(());
    }
    text.push('/')?;
    put_number(alloc, text, fraction.whole)
}

fn put_either(alloc: Global, text: &mut String, number: u64) -> Result<(), AllocError> {
    put_number(alloc, text, number)?;
    text.push_str(" or ")?;
    put_number(alloc, text, number.saturating_add(1))
}

fn put_word(alloc: Global, text: &mut String, word: Word<'_>) -> Result<(), AllocError> {
    match word {
        Word::Text(word) => text.push_str(word),
        Word::Front(word) => put_front(text, word),
        Word::Number(number) => put_number(alloc, text, number),
        Word::Integer(number) => put_integer(alloc, text, number),
        Word::At(file, place) => put_file(alloc, text, file, place),
        Word::Task(task, name) => put_task(alloc, text, task, name),
        Word::Name(name) => put_name(text, name),
        Word::Idle(task) => put_idle(alloc, text, task),
        Word::Zeros(total) => put_zeros(text, total),
        Word::Count(count, noun) => put_count(alloc, text, count, noun),
        Word::Are(count) => text.push_str(if count == 1 { "is" } else { "are" }),
        Word::Fraction(fraction) => put_fraction(alloc, text, fraction),
        Word::Refusal(fault) => put_refusal(alloc, text, fault),
        Word::Either(number) => put_either(alloc, text, number),
    }
}

// A text with the words at their places.
fn filled(alloc: Global, form: &str, words: &[Word<'_>]) -> Result<String, AllocError> {
    let mut text = String::new(alloc);
    for part in form.split('{') {
        let Some((place, rest)) = part.split_once('}') else {
            text.push_str(part)?;
            continue;
        };
        let place = number_in(1, place.as_bytes()).unwrap_or(0);
        if let Some(word) = words.get(place as usize) {
            put_word(alloc, &mut text, *word)?;
        }
        text.push_str(rest)?;
    }
    Ok(text)
}

/// The note that says this. Fails only if memory runs out.
pub(crate) fn note_of(alloc: Global, said: Said<'_>) -> Result<NoteLines, AllocError> {
    let words = [
        said.first,
        said.second,
        said.third,
        said.fourth,
        said.fifth,
        said.sixth,
    ];
    let what = filled(alloc, said.what, &words)?;
    let change = Some(filled(alloc, said.change, &words)?);
    let more = if said.more.is_empty() {
        None
    } else {
        Some(filled(alloc, said.more, &words)?)
    };
    Ok(NoteLines { what, change, more })
}

/// The note that says this, if it is anything.
pub(crate) fn written(
    alloc: Global,
    said: Option<Said<'_>>,
) -> Result<Option<NoteLines>, AllocError> {
    match said {
        Some(said) => Ok(Some(note_of(alloc, said)?)),
        None => Ok(None),
    }
}
