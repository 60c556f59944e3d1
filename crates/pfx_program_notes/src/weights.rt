//! Notes of sets that are no task sets.

use crate::fractions::{Fraction, common_multiple, is_out, sum_of};
use crate::members::SetSource;
use crate::places::header_place;
use crate::texts;
use crate::words::{Said, Texts, Word, say};
use pfx_program_set::SetText;

/// No task.
pub(crate) fn no_tasks<'a>(set: &SetSource<'a>) -> Option<Said<'a>> {
    if set.table.contains_key("tasks") {
        let at = Word::At(set.file, header_place(set.text, "tasks", 0));
        return say(texts::TASKS_PASSED, &[at]);
    }
    let at = Word::At(set.file, None);
    say(texts::NO_TASK, &[at])
}

/// Too many tasks.
pub(crate) fn too_many<'a>(set: &SetSource<'a>) -> Option<Said<'a>> {
    let count = Word::Number(set.tasks().len() as u64);
    let at = Word::At(set.file, set.task_place(1024));
    say(texts::MANY_TASKS, &[at, count])
}

/// Workers out of range.
pub(crate) fn workers_note<'a>(set: &SetSource<'a>) -> Option<Said<'a>> {
    let workers = set.table.get("workers")?.as_integer()?;
    let at = Word::At(set.file, set.top_place("workers"));
    say(texts::WORKERS_RANGE, &[at, Word::Integer(workers)])
}

/// A weight that isn't between 0 and 1.
pub(crate) fn weight_note<'a>(set: &SetSource<'a>, task: usize) -> Option<Said<'a>> {
    let e = set.number(task, "e")?;
    let p = set.number(task, "p")?;
    let (texts, key) = if p < 2 {
        (texts::WEIGHT_PERIOD, "p")
    } else if e < 1 {
        (texts::WEIGHT_NONE, "e")
    } else if e >= p {
        (texts::WEIGHT_WHOLE, "e")
    } else {
        (texts::WEIGHT_LARGE, "p")
    };
    let at = Word::At(set.file, set.value_place(task, key));
    let words = [at, set.named(task), Word::Integer(e), Word::Integer(p)];
    say(texts, &words)
}

// The common multiple of the periods before a task, and with it.
fn multiples(set: &SetText, task: usize, out: &[u16]) -> Option<(u64, u64)> {
    let mut multiple: u64 = 1;
    for (x, one) in set.tasks.iter().enumerate() {
        if is_out(x, out) {
            continue;
        }
        let with = common_multiple(multiple, u64::from(one.p))?;
        if x == task {
            return Some((multiple, with));
        }
        multiple = with;
    }
    None
}

/// Periods whose common multiple is too large.
pub(crate) fn multiple_note<'a>(
    source: &SetSource<'a>,
    set: &SetText,
    task: usize,
    out: &[u16],
) -> Option<Said<'a>> {
    let (before, with) = multiples(set, task, out)?;
    let texts = if before == 1 {
        texts::PERIOD_LONG
    } else {
        texts::MULTIPLE_LARGE
    };
    let at = Word::At(source.file, source.value_place(task, "p"));
    let words = [
        at,
        source.named(task),
        Word::Number(with),
        Word::Number(before),
    ];
    say(texts, &words)
}

// How many workers weights of this sum want.
fn wanted(sum: Fraction) -> Option<u64> {
    let least = sum.parts.checked_div(sum.whole)?;
    if least.saturating_mul(sum.whole) < sum.parts {
        Some(least.saturating_add(1))
    } else {
        Some(least)
    }
}

// The workers that the weights are compared with: 64 of a set that has no lawful number of them.
fn workers_of(set: &SetText) -> u64 {
    if set.workers >= 1 && set.workers <= 64 {
        u64::from(set.workers)
    } else {
        64
    }
}

/// Weights that sum to more than the workers.
pub(crate) fn load_note<'a>(
    source: &SetSource<'a>,
    set: &SetText,
    out: &[u16],
) -> Option<Said<'a>> {
    let sum = sum_of(set.tasks.as_slice(), out)?;
    let wanted = wanted(sum)?;
    let workers = workers_of(set);
    let taken = workers.checked_mul(sum.whole)?;
    let beyond = Fraction {
        parts: sum.parts.saturating_sub(taken),
        whole: sum.whole,
    };
    let texts = if workers != u64::from(set.workers) {
        texts::LOAD_OF_MOST
    } else if wanted <= 64 {
        texts::LOAD
    } else {
        texts::LOAD_LARGE
    };
    let words = [
        Word::At(source.file, source.top_place("workers")),
        Word::Fraction(sum.reduced()),
        Word::Are(workers),
        Word::Count(workers, "worker"),
        Word::Number(wanted),
        Word::Fraction(beyond.reduced()),
    ];
    say(texts, &words)
}

/// A segment out of range; `least` is the least size, if it is too small.
pub(crate) fn segment_note<'a>(
    source: &SetSource<'a>,
    set: &SetText,
    least: Option<u32>,
) -> Option<Said<'a>> {
    let texts = if least.is_some() {
        texts::SEGMENT_SMALL
    } else {
        texts::SEGMENT_LARGE
    };
    let words = [
        Word::At(source.file, source.top_place("segment")),
        Word::Number(u64::from(set.segment)),
        Word::Count(u64::from(set.workers), "worker"),
        Word::Number(u64::from(least.unwrap_or(0))),
    ];
    say(texts, &words)
}
