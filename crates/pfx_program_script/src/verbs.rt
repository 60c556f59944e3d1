//! What a record asks for.

ghost use Rattle.std.specs.Prelude.{◌≡◌, option_map};
ghost use Rattle.csv.specs.Records.{fields_of, AllText};
ghost use Rattle.pfx_program_script.specs.Verbs.{field, are_empty, said_by, submit_by, slot_by, withdraw_by, show_by, reweigh_by, verb_by, verb_of};

use crate::fields::{count_in, goal_in, task_in};
use crate::weights::{number_within, says_weights};
use csv::StringRecord;

/// What a record asks for, with its fields. Tasks are numbered from 0.
#[derive(Clone, Copy, Debug, PartialEq, Eq)]
pub enum Verb<'a> {
    /// Start a job of this kind, with this goal and this text, and give it to the task.
    Submit {
        task: u16,
        kind: &'a str,
        /// 0 if the record has none.
        goal: u64,
        text: &'a str,
    },
    /// Run so many slots, 1 to 1,048,576.
    Slot {
        count: u32,
    },
    /// Take the task's job away.
    Withdraw {
        task: u16,
    },
    /// Wait until all that was accepted is kept.
    Settle,
    /// Settle, and show the board.
    Status,
    /// Settle, and show what the task's job has computed, or all jobs if no task is named.
    Show {
        task: Option<u16>,
    },
    /// Give all tasks new weights, and the set so many workers.
    Reweigh {
        workers: u32,
        /// What `said_weights` reads.
        weights: &'a str,
    },
}

fn submit<'a>(task: &str, kind: &'a str, goal: &str, text: &'a str) -> Option<Verb<'a>>
    ensures { option_map said_by result ≡ submit_by task.now kind.now goal.now text.now }
{
    let task = task_in(task)?;
    let goal = goal_in(goal)?;
    Some(Verb::Submit {
        task,
        kind,
        goal,
        text,
    })
}

fn slot<'a>(task: &str, kind: &str, count: &str, text: &str) -> Option<Verb<'a>>
    ensures { option_map said_by result ≡ slot_by task.now kind.now count.now text.now }
{
    if !(task.is_empty() && kind.is_empty() && text.is_empty()) {
        return None;
    }
    let count = count_in(count)?;
    Some(Verb::Slot { count })
}

fn withdraw<'a>(task: &str, kind: &str, goal: &str, text: &str) -> Option<Verb<'a>>
    ensures { option_map said_by result ≡ withdraw_by task.now kind.now goal.now text.now }
{
    if !(kind.is_empty() && goal.is_empty() && text.is_empty()) {
        return None;
    }
    let task = task_in(task)?;
    Some(Verb::Withdraw { task })
}

fn show<'a>(task: &str, kind: &str, goal: &str, text: &str) -> Option<Verb<'a>>
    ensures { option_map said_by result ≡ show_by task.now kind.now goal.now text.now }
{
    if !kind.is_empty() || !goal.is_empty() || !text.is_empty() {
        return None;
    }
    if task.is_empty() {
        return Some(Verb::Show { task: None });
    }
    let task = task_in(task)?;
    Some(Verb::Show { task: Some(task) })
}

fn reweigh<'a>(task: &str, kind: &str, workers: &str, text: &'a str) -> Option<Verb<'a>>
    ensures { option_map said_by result ≡ reweigh_by task.now kind.now workers.now text.now }
{
    if !(task.is_empty() && kind.is_empty() && says_weights(text)) {
        return None;
    }
    let workers = number_within(workers)?;
    Some(Verb::Reweigh {
        workers,
        weights: text,
    })
}

fn are_empty(task: &str, kind: &str, goal: &str, text: &str) -> bool
    ensures { result ≡ are_empty task.now kind.now goal.now text.now }
{
    task.is_empty() && kind.is_empty() && goal.is_empty() && text.is_empty()
}

fn verb_by<'a>(verb: &str, task: &str, kind: &'a str, goal: &str, text: &'a str) -> Option<Verb<'a>>
    ensures { option_map said_by result ≡ verb_by verb.now task.now kind.now goal.now text.now }
{
    match verb {
        "submit" => submit(task, kind, goal, text),
        "slot" => slot(task, kind, goal, text),
        "withdraw" => withdraw(task, kind, goal, text),
        "settle" if are_empty(task, kind, goal, text) => Some(Verb::Settle),
        "status" if are_empty(task, kind, goal, text) => Some(Verb::Status),
        "show" => show(task, kind, goal, text),
        "reweigh" => reweigh(task, kind, goal, text),
        _ => None,
    }
}

fn field_text(row: &StringRecord, i: usize) -> &str
    ensures { result.now ≡ field (fields_of row.now) i }
{
    match row.get(i) {
        Some(text) => text,
        None => "",
    }
}

/// What a record asks for; `None` if it has no form of a record: five fields, of which those that its verb doesn't
/// use are empty. A task is 1 to 5 decimal digits, at most 65,535, or empty if all jobs are shown; a goal 1 to 10
/// digits, or empty for 0; a count of slots is a goal of 1 to 1,048,576, or empty for 1. Of a `reweigh` the goal is the
/// workers, 1 to 10 digits, and the data one weight e/p or more, 1 to 10 digits each, with single spaces between them.
pub fn read_verb(row: &StringRecord) -> Option<Verb<'_>>
    requires { AllText (fields_of row.now) }
    ensures { option_map said_by result ≡ verb_of (fields_of row.now) }
{
    if row.len() != 5 {
        return None;
    }
    verb_by(
        field_text(row, 0),
        field_text(row, 1),
        field_text(row, 2),
        field_text(row, 3),
        field_text(row, 4),
    )
}
