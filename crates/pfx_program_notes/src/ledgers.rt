//! Notes of ledgers that a plan can't begin with.

use crate::fractions::Fraction;
use crate::texts;
use crate::words::{Said, Word, say, written};
use pfx_fault::Fault;
use pfx_kinds_decimal::number_in;
use pfx_program_explain::NoteLines;
use pfx_program_set::SetText;
use pfx_weights::TaskSet;
use std::alloc::{AllocError, Global};

/// The most digits of a number in a ledger's text.
const DIGITS: usize = 13;

// The first part of a text of numbers that is none.
fn no_number(text: &str) -> Option<&str> {
    for part in text.split(',') {
        if number_in(DIGITS, part.as_bytes()).is_none() {
            return Some(part);
        }
    }
    None
}

// A number of a text of numbers.
fn number_at(text: &str, at: usize) -> Option<u64> {
    for (i, part) in text.split(',').enumerate() {
        if i == at {
            return number_in(DIGITS, part.as_bytes());
        }
    }
    None
}

// The sum of a text of numbers.
fn sum_of(text: &str) -> u64 {
    let mut sum: u64 = 0;
    for part in text.split(',') {
        sum = sum.saturating_add(number_in(DIGITS, part.as_bytes()).unwrap_or(0));
    }
    sum
}

// How many allocations the set wants.
fn count_note<'a>(at: &'a str, given: usize, set: &TaskSet) -> Option<Said<'a>> {
    let total = set.total();
    let texts = if total > 12 {
        texts::COUNT_OF_MANY
    } else {
        texts::COUNT
    };
    let idle = total.saturating_sub(set.real());
    let words = [
        Word::Front(at),
        Word::Count(given as u64, "number"),
        Word::Count(total as u64, "task"),
        Word::Number(set.real() as u64),
        Word::Number(idle as u64),
        Word::Zeros(total),
    ];
    say(texts, &words)
}

// A text that is no ledger of the set.
fn form_note<'a>(at: &'a str, set: &TaskSet) -> Option<Said<'a>> {
    let word = Word::Front(at);
    let Some((slot, rest)) = at.split_once(':') else {
        return say(texts::NO_COLON, &[word]);
    };
    match number_in(DIGITS, slot.as_bytes()) {
        Some(number) if number < 1 << 40 => {}
        _ => {
            return say(texts::NO_SLOT, &[word, Word::Front(slot)]);
        }
    }
    if let Some(part) = no_number(rest) {
        return say(texts::NO_NUMBER, &[word, Word::Front(part)]);
    }
    count_note(at, rest.split(',').count(), set)
}

// The lag of a task is out of range.
fn lag_note<'a>(at: &'a str, file: &'a SetText, set: &TaskSet, task: usize) -> Option<Said<'a>> {
    let (slot, rest) = at.split_once(':')?;
    let slot = number_in(DIGITS, slot.as_bytes())?;
    let got = number_at(rest, task)?;
    if task >= set.total() {
        return None;
    }
    let (e, p) = set.weight(task);
    let due = u64::from(e).checked_mul(slot)?;
    let least = due.checked_div(u64::from(p))?;
    let named = match file.tasks.get(task) {
        Some(one) => Word::Task(task, Some(one.name.as_str())),
        None => Word::Idle(task),
    };
    let lawful = if least.saturating_mul(u64::from(p)) == due {
        Word::Number(least)
    } else {
        Word::Either(least)
    };
    let due = Fraction {
        parts: due,
        whole: u64::from(p),
    };
    let words = [
        Word::Front(at),
        named,
        Word::Fraction(due),
        Word::Number(slot),
        Word::Number(got),
        lawful,
    ];
    say(texts::LAG, &words)
}

// The allocations don't sum to the workers' slots.
fn sum_note<'a>(at: &'a str, set: &TaskSet) -> Option<Said<'a>> {
    let (slot, rest) = at.split_once(':')?;
    let slot = number_in(DIGITS, slot.as_bytes())?;
    let workers = u64::from(set.workers());
    let words = [
        Word::Front(at),
        Word::Number(sum_of(rest)),
        Word::Number(slot),
        Word::Number(workers),
        Word::Number(workers.saturating_mul(slot)),
    ];
    say(texts::SUM, &words)
}

// What is said of a fault of a ledger.
fn said_of<'a>(file: &'a SetText, at: &'a str, set: &TaskSet, fault: Fault) -> Option<Said<'a>> {
    let word = Word::Front(at);
    match fault {
        Fault::BadLedger => form_note(at, set),
        Fault::OutOfRange { task } => lag_note(at, file, set, usize::from(task)),
        Fault::WrongSum => sum_note(at, set),
        Fault::TooManyUrgent { urgent, m } => {
            let urgent = Word::Number(u64::from(urgent));
            say(texts::URGENT, &[word, urgent, Word::Number(u64::from(m))])
        }
        Fault::TooFewEligible { eligible, m } => {
            let eligible = Word::Number(u64::from(eligible));
            say(
                texts::ELIGIBLE,
                &[word, eligible, Word::Number(u64::from(m))],
            )
        }
        _ => None,
    }
}

/// The note of a fault of a ledger, or of a plan that goes on from it.
pub(crate) fn ledger_fault_note(
    alloc: Global,
    file: &SetText,
    at: &str,
    fault: Fault,
) -> Result<Option<NoteLines>, AllocError> {
    let weights = file.weights(alloc)?;
    match TaskSet::new(alloc, file.workers, weights.as_slice()) {
        Ok(set) => written(alloc, said_of(file, at, &set, fault)),
        Err(_) => Ok(None),
    }
}
