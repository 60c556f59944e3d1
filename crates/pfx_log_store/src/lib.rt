//! A store beside a log: the whole history of a store, kept beyond its segments.
//!
//! Each frame that the store appends is copied in memory. Before the store turns, `keep_up` appends the copied frames to the log as a
//! block; so the frames that the log hasn't are in what recovery reads of the file, as they are, at every moment and in every image that
//! a stop may leave of the two (`pfx_events_base` says which checkpoint that is). Nothing of the file is read for it but by `open`:
//! `frames_behind` gives the frames that an opened file has behind the log's last number, or says that there is a gap.
//!
//! What the calls keep true, and no change may lose:
//! 1. No turn comes before the log has all frames up to the store's state.
//! 2. The log gets only frames that are durable in the file.
//! 3. A call works on one disk alone: on the log's, or on the file's. If the log's disk fails nothing was done to the file, and no turn
//! comes any more.
//!
//! Why it is so:
//! - **A call works on one disk.** `keep_up` writes the log, `append` and `tend` the file. So no contract has to tell in which order the
//!   calls of two disks come, of which nothing is known: each image of the one is covered with each image of the other.
#![tactic(auto)]

mod beside;
mod joining;
mod keeper;
pub mod laws;
mod logged;
mod noted;
mod opening;

pub use beside::LoggedStore;
pub use joining::{JoinFault, frames_behind};
