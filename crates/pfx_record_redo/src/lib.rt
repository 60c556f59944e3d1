//! What records do to a state.
//!
//! A record says what an accepted command did. Taken over by a state it gives what is recorded: a row adds allocations, a
//! recorded job takes the place of a task's job, new weights put their set in force, and no job is stepped.
//!
//! 1. A record is taken over exactly if it is right: it has a spelling, the state lets its command pass, a row has a
//!    job's state exactly if its task has an unfinished job, and what is after it is a state, above all a fair one.
//!    Only new weights take memory for it.
//! 2. The record of each accepted command is right if the command was accepted, and leads to the command's outcome.
//!
//! Why it is so:
//! - **A state says how its frames are read**: how many tasks a row has is what its own set says, not the header's. The header says how
//!   many tasks are real, which never changes.
//! - **An opening applies the records of a frame one by one**, as they are read. The batch of a frame, held whole, keeps up to 16 rows at
//!   a time, more than an allocator has at hand, and nobody asks for it there. A frame that isn't right leaves a state of no use, which
//!   is dropped.
#![tactic(auto)]

mod applying;
pub mod laws;
mod recording;

pub use applying::{apply_all, apply_record, apply_reweigh, is_common};
pub use recording::{Recorded, apply_recorded, prepare_recorded};
