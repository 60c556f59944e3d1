//! Notes of texts that aren't set files.

use crate::members::{SetSource, kind_of, other_set_key, other_task_key};
use crate::places::{header_place, place_at};
use crate::texts;
use crate::words::{Said, Texts, Word, is_in_names, say};
use std::str::from_utf8;
use toml::{Table, Value};

// The key that stands twice, if that is the error.
fn doubled<'a>(text: &'a [u8], error: &toml::de::Error) -> Option<&'a str> {
    if error.message() != "duplicate key" {
        return None;
    }
    let span = error.span()?;
    let found = from_utf8(text.get(span.start..span.end)?).ok()?;
    match found.split_once('=') {
        Some((key, _)) => Some(key.trim()),
        None => Some(found),
    }
}

/// The note of a text that isn't TOML.
pub(crate) fn syntax_note<'a>(
    file: &'a str,
    text: &'a [u8],
    error: &'a toml::de::Error,
) -> Option<Said<'a>> {
    let place = match error.span() {
        Some(span) => Some(place_at(text, span.start)),
        None => None,
    };
    if from_utf8(text).is_err() {
        return say(texts::NO_UTF8, &[Word::At(file, place)]);
    }
    if let Some(key) = doubled(text, error) {
        return say(texts::KEY_TWICE, &[Word::At(file, place), Word::Front(key)]);
    }
    let why = Word::Text(error.message());
    say(texts::NO_TOML, &[Word::At(file, place), why])
}

// `workers` isn't there.
fn no_workers<'a>(set: &SetSource<'a>) -> Option<Said<'a>> {
    let Some(key) = other_set_key(set.table) else {
        let at = Word::At(set.file, None);
        return say(texts::WORKERS_MISSING, &[at]);
    };
    let at = Word::At(set.file, set.key_place(key));
    say(texts::WORKERS_MISNAMED, &[at, Word::Text(key)])
}

// A value under a key of the set isn't what it has to be.
fn bad_top<'a>(set: &SetSource<'a>, key: &str, value: &Value, texts: Texts) -> Option<Said<'a>> {
    let at = Word::At(set.file, set.top_place(key));
    say(texts, &[at, Word::Text(kind_of(value))])
}

fn bad_tasks<'a>(set: &SetSource<'a>, value: &Value) -> Option<Said<'a>> {
    let place = match header_place(set.text, "task", 0) {
        Some(place) => Some(place),
        None => set.top_place("task"),
    };
    let at = Word::At(set.file, place);
    let kind = Word::Text(kind_of(value));
    say(texts::TASKS_KIND, &[at, kind])
}

// What a key of a task has to be, and what to change.
fn wanted(key: &str) -> (&'static str, &'static str) {
    if key == "name" {
        ("a string", texts::NAME)
    } else {
        ("an integer", texts::WEIGHT)
    }
}

// A key of a task isn't there, or isn't what it has to be.
fn bad_member<'a>(set: &SetSource<'a>, task: usize, key: &'a str) -> Option<Said<'a>> {
    let named = set.named(task);
    let (kind, change) = wanted(key);
    let Some(table) = set.task(task) else {
        let at = Word::At(set.file, set.task_place(task));
        return say(texts::TASK_KIND, &[at, named]);
    };
    if let Some(value) = table.get(key) {
        let at = Word::At(set.file, set.value_place(task, key));
        let what = texts::MEMBER_KIND.what;
        let words = [
            at,
            named,
            Word::Text(key),
            Word::Text(kind_of(value)),
            Word::Text(kind),
        ];
        return say(Texts { what, change }, &words);
    }
    let Some(other) = other_task_key(table) else {
        let at = Word::At(set.file, set.task_place(task));
        let what = texts::MEMBER_MISSING.what;
        return say(Texts { what, change }, &[at, named, Word::Text(key)]);
    };
    let at = Word::At(set.file, set.task_key_place(task, other));
    let what = texts::MEMBER_MISNAMED.what;
    let words = [at, named, Word::Text(key), Word::Text(other)];
    say(Texts { what, change }, &words)
}

fn is_lawful(name: &str) -> bool {
    !name.is_empty() && name.len() <= 32 && name.chars().all(is_in_names)
}

fn bad_name<'a>(set: &SetSource<'a>, task: usize, name: &'a str) -> Option<Said<'a>> {
    let at = Word::At(set.file, set.value_place(task, "name"));
    let number = Word::Number(task as u64);
    let (texts, word) = if name.is_empty() {
        (texts::NAME_EMPTY, Word::Text(""))
    } else if name.chars().all(is_in_names) {
        (texts::NAME_LONG, Word::Number(name.len() as u64))
    } else {
        (texts::NAME_LETTERS, Word::Text(name))
    };
    say(texts, &[at, number, Word::Name(name), word])
}

// The first task before this one that has its name.
fn earlier(set: &SetSource<'_>, task: usize) -> Option<usize> {
    let name = set.name_of(task)?;
    for other in 0..task {
        if set.name_of(other) == Some(name) {
            return Some(other);
        }
    }
    None
}

fn names_note<'a>(set: &SetSource<'a>) -> Option<Said<'a>> {
    for task in 0..set.tasks().len() {
        if let Some(first) = earlier(set, task) {
            let at = Word::At(set.file, set.value_place(task, "name"));
            let first = Word::Number(first as u64);
            return say(texts::NAME_TWICE, &[at, set.named(task), first]);
        }
    }
    None
}

fn task_note<'a>(set: &SetSource<'a>, task: usize) -> Option<Said<'a>> {
    if set.number(task, "e").is_none() {
        return bad_member(set, task, "e");
    }
    if set.number(task, "p").is_none() {
        return bad_member(set, task, "p");
    }
    match set.name_of(task) {
        Some(name) if is_lawful(name) => None,
        Some(name) => bad_name(set, task, name),
        None => bad_member(set, task, "name"),
    }
}

fn tasks_note<'a>(set: &SetSource<'a>, table: &Table) -> Option<Said<'a>> {
    let value = table.get("task")?;
    if value.as_array().is_none() {
        return bad_tasks(set, value);
    }
    for task in 0..set.tasks().len() {
        let found = task_note(set, task);
        if found.is_some() {
            return found;
        }
    }
    names_note(set)
}

/// The note of a text that is TOML and no set.
pub(crate) fn form_note<'a>(set: &SetSource<'a>) -> Option<Said<'a>> {
    match set.table.get("workers") {
        None => return no_workers(set),
        Some(value) if !value.is_integer() => {
            return bad_top(set, "workers", value, texts::WORKERS_KIND);
        }
        Some(_) => {}
    }
    if let Some(value) = set.table.get("segment")
        && !value.is_integer()
    {
        return bad_top(set, "segment", value, texts::SEGMENT_KIND);
    }
    tasks_note(set, set.table)
}
