//! What the program says on standard error, and what a fault means, as JSON.
//!
//! What it keeps true: each is one object a line, with its keys in alphabetical order; that of a refusal has the fault's object, as
//! `pfx_program` has it of a refused command, and the lines that a person would read below its line (`specs/Said.antt`).
//!
//! Why it is so:
//! - **With `--json` standard error has objects too**, warnings as well, so that a program reads both streams by lines. A note's keys are
//!   always there, with null for what isn't said. Words that aren't accepted are answered in text: it isn't known then which form is
//!   asked for. A load is a list of two numbers, since a fraction is none in JSON.
#![tactic(auto)]

mod entry;
mod notes;
mod said;

pub use entry::entry_line;
pub use said::{also_line, error_line, warning_line};
