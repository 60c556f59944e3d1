//! What a set file has under its keys, as far as its text is TOML.

use crate::places::{Place, Within, header_place, places_of};
use crate::words::Word;
use toml::{Table, Value};

/// A set's text, its name, and the table that it is.
#[derive(Clone, Copy)]
pub(crate) struct SetSource<'a> {
    pub(crate) file: &'a str,
    pub(crate) text: &'a str,
    pub(crate) table: &'a Table,
}

impl<'a> SetSource<'a> {
    /// The tables of the tasks; none if `task` is no list of tables.
    pub(crate) fn tasks(&self) -> &'a [Value] {
        let found: Option<&'a Value> = self.table.get("task");
        match found {
            Some(value) => match value.as_array() {
                Some(items) => items.as_slice(),
                None => &[],
            },
            None => &[],
        }
    }

    /// The table of a task.
    pub(crate) fn task(&self, task: usize) -> Option<&'a Table> {
        self.tasks().get(task)?.as_table()
    }

    /// The number under a key of a task, as the text has it.
    pub(crate) fn number(&self, task: usize, key: &str) -> Option<i64> {
        self.task(task)?.get(key)?.as_integer()
    }

    /// A task as it is named: `task 2 "big"`.
    pub(crate) fn named(&self, task: usize) -> Word<'a> {
        Word::Task(task, self.name_of(task))
    }

    /// The name of a task, if it is a text.
    pub(crate) fn name_of(&self, task: usize) -> Option<&'a str> {
        self.task(task)?.get("name")?.as_str()
    }

    /// Where a task begins.
    pub(crate) fn task_place(&self, task: usize) -> Option<Place> {
        header_place(self.text, "task", task)
    }

    /// Where the value of a key of a task stands, else where the task begins.
    pub(crate) fn value_place(&self, task: usize, key: &str) -> Option<Place> {
        match places_of(self.text, Within::Task(task), key) {
            Some((_, value)) => Some(value),
            None => self.task_place(task),
        }
    }

    /// Where a key of a task stands, else where the task begins.
    pub(crate) fn task_key_place(&self, task: usize, key: &str) -> Option<Place> {
        match places_of(self.text, Within::Task(task), key) {
            Some((place, _)) => Some(place),
            None => self.task_place(task),
        }
    }

    /// Where a key of the set stands, or the line that begins a table of its name.
    pub(crate) fn key_place(&self, key: &str) -> Option<Place> {
        match places_of(self.text, Within::Top, key) {
            Some((place, _)) => Some(place),
            None => header_place(self.text, key, 0),
        }
    }

    /// Where the value of a key of the set stands.
    pub(crate) fn top_place(&self, key: &str) -> Option<Place> {
        match places_of(self.text, Within::Top, key) {
            Some((_, value)) => Some(value),
            None => None,
        }
    }
}

/// What a value is, as `a string`.
pub(crate) fn kind_of(value: &Value) -> &'static str {
    match value {
        Value::String(_) => "a string",
        Value::Integer(_) => "an integer",
        Value::Float(_) => "a float",
        Value::Boolean(_) => "a boolean",
        Value::Datetime(_) => "a date or time",
        Value::Array(_) => "an array",
        Value::Table(_) => "a table",
    }
}

/// Whether a key is one of a set.
pub(crate) fn is_set_key(key: &str) -> bool {
    key == "workers" || key == "segment" || key == "task"
}

/// Whether a key is one of a task.
pub(crate) fn is_task_key(key: &str) -> bool {
    key == "name" || key == "e" || key == "p"
}

/// The first key of a table, by the alphabet, that no set has.
pub(crate) fn other_set_key(table: &Table) -> Option<&str> {
    for key in table.keys() {
        if !is_set_key(key.as_str()) {
            return Some(key.as_str());
        }
    }
    None
}

/// The same of a task.
pub(crate) fn other_task_key(table: &Table) -> Option<&str> {
    for key in table.keys() {
        if !is_task_key(key.as_str()) {
            return Some(key.as_str());
        }
    }
    None
}
