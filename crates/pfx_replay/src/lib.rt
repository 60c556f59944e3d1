//! A replay of a store's file: what is recorded, against what its commands do.
//!
//! `replay` opens the file as `open` does, and then runs the commands of its records again, from the lesser checkpoint on where
//! the records lead from there to the other, else from the one in use on. It says that all agrees, or names the first number
//! that doesn't, and what differs there:
//! 1. a row that isn't PF's, or if there is none;
//! 2. a job's state that isn't the one after its quantum;
//! 3. an answer that isn't of the next unit that its task was given;
//! 4. a checkpoint that doesn't hold what the commands led to.
//!
//! The state is kept as plain numbers, one task after the other. PF's row is found by counting who goes before whom, by symbols
//! that are worked out anew: no code of the chooser, the lanes or the machine runs here, so an error there doesn't hide itself.
//!
//! `plain_state` is that fold over commands alone. Its parts, as `judge_one`, the verdict on one record, serve other readers of records too.
#![tactic(auto)]

mod file;
mod folding;
mod history;
mod image;
mod jobs;
mod judged;
mod judging;
mod ledger;
mod numbers;
mod records;
mod replaying;
mod state;
mod symbols;
mod verdict;
mod way;

pub use file::{apply_all, file_frames};
pub use folding::plain_state;
pub use history::are_states;
pub use image::{frames_in, state_in};
pub use jobs::PlainState;
pub use judged::Judged;
pub use judging::judge_one;
pub use numbers::PlainLedger;
pub use records::records_behind;
pub use replaying::{read_image, replay};
pub use verdict::{Difference, Verdict, put_verdict, verdict_object};
pub use way::lead;
