//! What is said below the line of a fault: where the mistake stands, what is wrong there, and what to change.
//!
//! Which words stand in a note is tested, not proved. It is asked for only if something was refused, and reads the refused text once more.
//!
//! Why it is so:
//! - **What stands below a fault's line is looked up after the fault**, by a crate of its own, `pfx_program_notes`, from the text that was
//!   refused: so what is proved of reading, planning and running doesn't know of it. It is slow where it may be, and says nothing if it
//!   isn't sure. What has a contract there, the lines of a note and what each fault means, is `pfx_program_explain`.
//! - **A run answers what happened, and the program finds no refusal in what it printed.** `run_script` reports how many commands were
//!   accepted, how many records were refused, and the first of these with its place and its fault; notes are made of that. A note looks
//!   into the script again for the record's line and word alone: where the text isn't at hand, as on standard input, it tells the place
//!   among the records.
//! - **A set's bytes are kept as they are read**, so its notes are of what was read, from standard input and from pipes too. A script may
//!   be longer than memory: it is read once more, if it is a plain file.
//! - **The places of keys are found line by line.** The TOML library gives places of wrong text alone, none of values; what isn't found
//!   so has no place, and a wrong one is never made up: below a text of several lines nothing is looked for.
#![tactic(auto)]

mod files;
mod forms;
mod fractions;
mod ledgers;
mod members;
mod places;
mod refusals;
mod scripts;
mod sets;
mod texts;
mod warnings;
mod weights;
mod words;

pub use files::{
    NamedFile, Stands, Trouble, history_note, input_note, log_note, output_note, store_note,
    trouble_note,
};
pub use refusals::{FirstRefusal, refused_note};
pub use scripts::{record_note, script_note};
pub use sets::{further_note, set_note};
pub use warnings::passed_over_note;
