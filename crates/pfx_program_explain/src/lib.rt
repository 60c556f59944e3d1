//! What is said of a fault beside its line: what it means, as `pfx explain` prints it, and the lines of a note below it.
//!
//! What it keeps true: a word names the fault whose number or name it is, and each fault has an entry; a note is at most three lines, each
//! begins with two spaces and ends with a line feed, and has no other one.
#![tactic(auto)]

mod entries;
mod explaining;
mod note;

pub use entries::Entry;
pub use explaining::{entry_named, put_entry};
pub use note::NoteLines;
