//! What each task was due and got in windows of slots.
//!
//! `Totals` takes in records one after the other, each with the state before it. The slots that they ran are put into windows: from the
//! first slot that is asked for on, so many slots long at the most, and cut where new weights come into force. For each window and each
//! real task a `Total` says what the task was due, how many slots it got, in how many of them it had an open job, and the least, the
//! greatest and the last of its lags at the slots' ends. Only the window that isn't closed yet is in memory, a few numbers a task.
//!
//! 1. The totals that were given, and those at the end, are the figures of all records that were taken in, as `specs/Figures.antt` has
//!    them of the list as a whole.
//! 2. `laws`: the windows have each slot once, and one set's weights throughout; what is got is used or wasted.
//! 3. `put_total`, `put_csv` and `total_object` write a total as a line, as a row of CSV and as an object of JSON.
#![tactic(auto)]

mod adding;
mod choice;
mod csv;
mod fractions;
pub mod laws;
mod objects;
mod printing;
mod seeing;
mod share;
mod slot;
mod states;
mod telling;
mod total;
mod totals;
mod window;
mod windows;

pub use choice::Choice;
pub use csv::{put_csv, put_csv_head};
pub use objects::total_object;
pub use printing::put_total;
pub use total::Total;
pub use totals::Totals;
