//! The refusals of the program: each one's number, name, fields and exit status, and the line that
//! the program prints for it.
//!
//! What it keeps true: the numbers, names and fields are those of one table, `refusal` of
//! `specs/Refusals.antt`; the line is exactly `pfx: error`, the number, the name and ` field=value`
//! for each field in the table's order, ended by one line feed; a refused command is shown by the same
//! words behind `refused`; the exit status follows from the number alone.
//!
//! Why it is so:
//! - **Exit statuses tell the kind of a refusal**: 3 for a set or a plan, 5 for memory, 8 for files and output; 2 for words.
#![tactic(auto)]

mod fields;
mod line;
mod refusals;

pub use fields::{Cause, Part};
pub use line::put_fault;
pub use refusals::{Fault, Refused};
