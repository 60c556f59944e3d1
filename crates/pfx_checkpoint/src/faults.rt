//! Why bytes aren't read.

use thiserror::Error;

/// Why bytes give no state.
#[derive(Clone, Copy, Debug, PartialEq, Eq, Error)]
pub enum CheckpointFault {
    /// The bytes are those of no state of the set.
    #[error("the bytes are no state of the set")]
    Damaged,
    /// An allocation failed.
    #[error("out of memory")]
    NoMemory,
}
