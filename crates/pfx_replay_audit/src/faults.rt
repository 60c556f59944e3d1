// Why a log isn't folded.
ghost use Rattle.std.specs.Prelude.{◌≡◌};
ghost use Rattle.pfx_replay_audit.specs.declared.faults.HistoryFault.TheVariants.{Log};
ghost use Rattle.pfx_log.specs.declared.faults.LogFault.TheVariants.{Device, NoMemory};

use pfx_disk::DeviceFailed;
use pfx_log::LogFault;
use std::alloc::{AllocError, AllocFailed};
use thiserror::Error;

/// Why a log isn't part of a history.
#[derive(Clone, Copy, Debug, PartialEq, Eq, Error)]
pub enum HistoryFault {
    /// It isn't read, for this reason.
    #[error("{0}")]
    Log(LogFault),
    /// It is of a store's file of another version, or begins at no state of a store.
    #[error("the log begins at no state")]
    Start,
    /// It doesn't name the head of the log before, or doesn't begin at that one's last number.
    #[error("the log doesn't go on from the one before")]
    NotNext,
    /// The block whose gate stands at this offset isn't frames of records that are right behind those before them, up to its last number.
    #[error("the frames of the log's block at {at} aren't right")]
    Frames { at: usize },
}

impl From<LogFault> for HistoryFault {
    ghost from_gives = { λ fault e. e ≡ Log fault };

    fn from(fault: LogFault) -> Self {
        HistoryFault::Log(fault)
    }
}

impl From<DeviceFailed> for HistoryFault {
    ghost from_gives = { λ _ e. e ≡ Log Device };

    fn from(_: DeviceFailed) -> Self {
        HistoryFault::Log(LogFault::Device)
    }
}

impl From<AllocError> for HistoryFault {
    ghost from_gives = { λ _ e. e ≡ Log NoMemory };

    fn from(_: AllocError) -> Self {
        HistoryFault::Log(LogFault::NoMemory)
    }
}

impl<T: Drop> From<AllocFailed<T>> for HistoryFault {
    ghost from_gives = { λ _ e. e ≡ Log NoMemory };

    fn from(_: AllocFailed<T>) -> Self {
        HistoryFault::Log(LogFault::NoMemory)
    }
}
