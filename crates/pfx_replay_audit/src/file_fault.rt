// Why a store's file isn't the end of a history.
ghost use Rattle.std.specs.Prelude.{◌≡◌};
ghost use Rattle.pfx_replay_audit.specs.declared.file_fault.FileFault.TheVariants.{NoMemory};

use std::alloc::{AllocError, AllocFailed};
use thiserror::Error;

/// Why a store's file isn't the end of a history.
#[derive(Clone, Copy, Debug, PartialEq, Eq, Error)]
pub enum FileFault {
    /// An allocation failed.
    #[error("out of memory")]
    NoMemory,
    /// The log ends before the file's records begin, behind the command `file`; or behind the file's last command, `file`.
    #[error("the log ends with command {log}, and the file has no record behind it: see {file}")]
    Gap { log: u64, file: u64 },
    /// The file's records behind the log's last number aren't right there: it is the file of another history.
    #[error("the file's records don't go on from the log's end")]
    Apart,
}

impl From<AllocError> for FileFault {
    ghost from_gives = { λ _ e. e ≡ NoMemory };

    fn from(_: AllocError) -> Self {
        FileFault::NoMemory
    }
}

impl<T: Drop> From<AllocFailed<T>> for FileFault {
    ghost from_gives = { λ _ e. e ≡ NoMemory };

    fn from(_: AllocFailed<T>) -> Self {
        FileFault::NoMemory
    }
}
