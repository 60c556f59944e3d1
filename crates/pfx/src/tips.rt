//! What is said of words that the program doesn't take, beside what was expected.

use pfx_program_explain::{Entry, entry_named};
use std::alloc::{AllocError, Global};

/// The numbers that faults have.
const NUMBERS: &str =
    "the numbers are 10 to 14, 16, 17, 19 to 26, 31 to 34, 41 to 43, 45, 51 to 58, 61, 64, 68, 71 to 77 and 90";

/// The last line of what is said of wrong words.
const END: &str = "\nFor more information";

// How many letters two words begin with alike.
fn alike(one: &str, other: &str) -> usize {
    one.bytes()
        .zip(other.bytes())
        .take_while(|pair| pair.0.eq_ignore_ascii_case(&pair.1))
        .count()
}

// The same from behind.
fn alike_behind(one: &str, other: &str) -> usize {
    one.bytes()
        .rev()
        .zip(other.bytes().rev())
        .take_while(|pair| pair.0.eq_ignore_ascii_case(&pair.1))
        .count()
}

// How near a word is to the name of a fault.
fn nearness(word: &str, name: &str) -> usize {
    let both = alike(word, name).saturating_add(alike_behind(word, name));
    both.min(name.len())
}

// The fault of a number.
fn entry_of(alloc: Global, number: u8) -> Option<Entry> {
    let digits = number.to_string(alloc).ok()?;
    entry_named(digits.as_str())
}

// The fault whose name is nearest to a word, if one is near.
fn nearest(alloc: Global, word: &str) -> Option<Entry> {
    let mut found: Option<Entry> = None;
    let mut most: usize = 3;
    for number in 10..91u8 {
        if let Some(entry) = entry_of(alloc, number) {
            let near = nearness(word, entry.fault.name());
            if near > most {
                most = near;
                found = Some(entry);
            }
        }
    }
    found
}

/// What is said of a word that names no fault. Fails only if memory runs out.
pub(crate) fn of_fault(alloc: Global, word: &str) -> Result<String, AllocError> {
    match nearest(alloc, word) {
        Some(entry) => {
            let number = entry.fault.number();
            let name = entry.fault.name();
            format!(in alloc;
                "no fault has this number or name\n\n  tip: the nearest is '{name}', {number}"
            )
        }
        None => format!(in alloc; "no fault has this number or name\n\n  tip: {NUMBERS}"),
    }
}

// Whether a word is a number below 0.
fn is_below_zero(word: &str) -> bool {
    match word.strip_prefix('-') {
        Some(digits) => !digits.is_empty() && digits.bytes().all(|b| b.is_ascii_digit()),
        None => false,
    }
}

// What is said of a word that is no number, or a number below 0.
fn tip_of(words: &[&str], message: &str) -> Option<&'static str> {
    let command = *words.get(1)?;
    let is_slots = message.contains("'<SLOTS>'")
        || (message.contains("unexpected argument '-")
            && words.iter().any(|word| is_below_zero(word)));
    match command {
        "plan" if is_slots => {
            Some("SLOTS is a number from 0 to 1048576, behind the set: pfx plan SET 100")
        }
        "draw" if is_slots => {
            Some("SLOTS is a number from 1 to 1440, behind the set: pfx draw SET 60")
        }
        "show" if message.contains("TASK") || is_slots => {
            Some("TASK is a task's number, which pfx status has in front of each line")
        }
        "run" if message.contains("'--workers <N>'") => {
            Some("--workers takes a number from 0 to 64: 0 is one thread for everything")
        }
        "run" if message.contains("'--batch <N>'") => {
            Some("--batch takes a number from 1 to 16: how many slots one write keeps")
        }
        _ => None,
    }
}

/// What is said of wrong words, with a tip where there is one. Fails only if memory runs out.
pub(crate) fn of_words(alloc: Global, words: &[&str], message: &str) -> Result<String, AllocError> {
    let (Some(tip), Some((front, end))) = (tip_of(words, message), message.split_once(END)) else {
        return String::from_str(alloc, message);
    };
    let said = match front.split_once("\n\n  tip:") {
        Some((said, _)) => said,
        None => front.trim_end(),
    };
    format!(in alloc; "{said}\n\n  tip: {tip}\n{END}{end}")
}
