//! Scripts: records of five fields, each of which asks for one thing to be done.
//!
//! What it keeps true: the records of a script are those of its bytes as CSV without a header line, read one at a time
//! in the memory of one record; the verb of a record is one stated function of its fields, `verb_of` of
//! `specs/Verbs.antt`; a script ends early exactly at its first record that is no text, or if its reader or the
//! memory fails; and that a reader has failed is said only where its last answer was an error.
//!
//! Why it is so:
//! - **Empty lines of a script are no records** and aren't counted; a line of `""` is one. A leading byte order mark is skipped.
//! - **A reweigh's weights stand in one field**, single spaces between, and its form is tested as the record is read, so a wrong one ends
//!   the run before anything is tried; numbers are the machine's matter, and one that no set has counts as 0. Workers have to be written:
//!   no number of them is what someone who leaves the field empty means.
//! - **A script's reader is wrapped in one that keeps whether its last answer was an error** (`Heard`), and InputFailed rests on that.
//!   `csv` says nothing of its errors of input, so what it reports as one, over a reader that gave none, is want of memory, the one thing
//!   left to fail.
//! - **A script counts the ends of the records that its reader gave** (`Heard`, by the same states as `Whole`), and so knows without
//!   asking whether the next record is there. An end counts only outside of quotes; where that isn't sure none does, and a record is
//!   taken alone.
#![tactic(auto)]

mod ends;
mod fields;
mod heard;
pub mod laws;
mod records;
mod verbs;
mod weights;
mod whole;

pub use records::Script;
pub use verbs::{Verb, read_verb};
pub use weights::said_weights;
pub use whole::Whole;
