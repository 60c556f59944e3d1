//! What is said on standard error as JSON.

use crate::check::check;
use pfx_fault::Fault;
use pfx_program_explain::{NoteLines, entry_named};
use pfx_program_objects::{also_line, entry_line, error_line, warning_line};
use std::alloc::{AllocError, Global};

/// A note of two lines.
fn note(alloc: Global) -> Result<NoteLines, AllocError> {
    Ok(NoteLines {
        what: String::from_str(alloc, "a.toml:5:5: \"big\"")?,
        change: Some(String::from_str(alloc, "Make e smaller.")?),
        more: None,
    })
}

/// Whether a line is this one.
fn is(line: Result<String, AllocError>, want: &str) -> bool {
    match line {
        Ok(line) => line.as_str() == want,
        Err(_) => false,
    }
}

const ERROR: &str =
    "{\"error\":{\"fields\":{\"task\":2},\"name\":\"BadWeight\",\"number\":14},\"note\":{\"change\":\"Make e smaller.\",\"more\":null,\"what\":\"a.toml:5:5: \\\"big\\\"\"}}\n";

const BARE: &str =
    "{\"error\":{\"fields\":{\"m\":1,\"urgent\":2},\"name\":\"TooManyUrgent\",\"number\":21},\"note\":null}\n";

const ALSO: &str = "{\"also\":{\"fields\":{},\"name\":\"Overload\",\"number\":17},\"note\":null}\n";

const WARNING: &str = "{\"note\":null,\"warning\":\"a record was refused\"}\n";

#[test]
fn says_a_refusal(rt: HostRuntime) {
    let alloc = rt.alloc();
    let weight = Fault::BadWeight { task: 2 };
    let said = match note(alloc) {
        Ok(note) => is(error_line(alloc, weight, Some(&note)), ERROR),
        Err(_) => false,
    };
    check(&rt, said, "with a note");
    let urgent = Fault::TooManyUrgent { urgent: 2, m: 1 };
    check(
        &rt,
        is(error_line(alloc, urgent, None), BARE),
        "without one",
    );
}

#[test]
fn says_what_else_and_warns(rt: HostRuntime) {
    let alloc = rt.alloc();
    let also = also_line(alloc, Fault::Overload, None);
    check(&rt, is(also, ALSO), "a further fault");
    let warning = warning_line(alloc, "a record was refused", None);
    check(&rt, is(warning, WARNING), "a warning");
}

/// Whether what a word names is said by an object that begins so.
fn begins(alloc: Global, word: &str, front: &str) -> bool {
    let Some(entry) = entry_named(word) else {
        return false;
    };
    match entry_line(alloc, entry) {
        Ok(line) => line.as_str().starts_with(front),
        Err(_) => false,
    }
}

#[test]
fn says_what_a_fault_means(rt: HostRuntime) {
    let front = "{\"name\":\"Overload\",\"number\":17,\"status\":3,\"text\":\"The weights";
    check(&rt, begins(rt.alloc(), "17", front), "Overload");
}
