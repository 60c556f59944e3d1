//! Checkpoints: a state as bytes, and back.
//!
//! The bytes of a state are its number and its slot, eight bytes each, the lowest first; then for each task its
//! allocations in eight bytes, and after those of a real task a flag, 1 if it has a job, and the job's 128 bytes, or
//! zeros if it has none. Which set the tasks are of isn't in the bytes, nor at which slot it came into force, from which
//! the slot is counted.
//!
//! Bytes are read as a state of a set exactly if they are the bytes of one: the number and the slot are below their
//! limits, every lag lies strictly between minus one and one, and the allocations sum to the workers times the slot.
#![tactic(auto)]

mod faults;
mod freezing;
pub mod laws;
mod reading;
mod whole;

pub use faults::CheckpointFault;
pub use freezing::{freeze, frozen_len, state_len};
pub use reading::read;
pub use whole::{freeze_whole, read_whole, whole_len};
