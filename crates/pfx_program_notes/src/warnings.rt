//! Warnings: what is passed over in a set.

use crate::members::{SetSource, is_set_key, is_task_key, other_set_key, other_task_key};
use crate::texts;
use crate::words::{Said, Word, said_with, written};
use pfx_program_explain::NoteLines;
use std::alloc::{AllocError, Global};
use std::str::from_utf8;

// The first key of a task that no task has.
fn first_of_tasks<'a>(set: &SetSource<'a>) -> Option<(usize, &'a str)> {
    for task in 0..set.tasks().len() {
        if let Some(table) = set.task(task)
            && let Some(key) = other_task_key(table)
        {
            return Some((task, key));
        }
    }
    None
}

// How many keys are passed over.
fn count_of(set: &SetSource<'_>) -> usize {
    let mut count: usize = 0;
    for key in set.table.keys() {
        if !is_set_key(key.as_str()) {
            count = count.saturating_add(1);
        }
    }
    for task in 0..set.tasks().len() {
        if let Some(table) = set.task(task) {
            for key in table.keys() {
                if !is_task_key(key.as_str()) {
                    count = count.saturating_add(1);
                }
            }
        }
    }
    count
}

// What is said of a set's keys that are passed over.
fn said_of<'a>(set: &SetSource<'a>) -> Option<Said<'a>> {
    let others = count_of(set).saturating_sub(1);
    let more = match others {
        0 => "",
        1 => "One more key is passed over.",
        _ => "{3} more keys are passed over.",
    };
    let others = Word::Number(others as u64);
    if let Some(key) = other_set_key(set.table) {
        let at = Word::At(set.file, set.key_place(key));
        let words = [at, Word::Text(key), Word::Text(""), others];
        return Some(said_with(texts::SET_KEY, more, &words));
    }
    let (task, key) = first_of_tasks(set)?;
    let at = Word::At(set.file, set.task_key_place(task, key));
    let words = [at, Word::Text(key), set.named(task), others];
    Some(said_with(texts::TASK_KEY, more, &words))
}

/// What is passed over in a set: its first key that no set has, else the first of a task that no task has, and how many more there
/// are. `None` if there is none, or the text is no TOML. Fails only if memory runs out.
pub fn passed_over_note(
    alloc: Global,
    file: &str,
    text: &[u8],
) -> Result<Option<NoteLines>, AllocError> {
    let table = match toml::table_from_slice(alloc, text) {
        Ok(table) => table,
        Err(e) if e.is_memory() => return Err(AllocError),
        Err(_) => return Ok(None),
    };
    let Ok(text) = from_utf8(text) else {
        return Ok(None);
    };
    let set = SetSource {
        file,
        text: text.strip_prefix('\u{feff}').unwrap_or(text),
        table: &table,
    };
    written(alloc, said_of(&set))
}
