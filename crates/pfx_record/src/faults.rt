// Why bytes begin with no batch.
ghost use Rattle.pfx_record.specs.declared.faults.BatchFault.TheVariants.{NoMemory};
ghost use Rattle.std.specs.Prelude.{◌≡◌};

use std::alloc::AllocError;
use thiserror::Error;

/// What of a frame is at fault.
#[derive(Clone, Copy, Debug, PartialEq, Eq)]
pub enum FramePart {
    /// Its head: the gate, the length, the number of the first command or the count.
    Frame,
    /// A record behind it, or bytes behind the last one.
    Record,
}

/// Why bytes begin with no batch.
#[derive(Clone, Copy, Debug, PartialEq, Eq, Error)]
pub enum BatchFault {
    /// The part at this place is at fault, the first such one.
    #[error("the bytes from {at} on are at fault")]
    Damaged { at: usize, what: FramePart },
    /// An allocation failed.
    #[error("out of memory")]
    NoMemory,
}

impl From<AllocError> for BatchFault {
    ghost from_gives = { λ _ e. e ≡ NoMemory };

    fn from(_: AllocError) -> Self {
        BatchFault::NoMemory
    }
}
