//! Why a front's calls fail.
use pfx_book::faults::BookFault;
use pfx_fault::Cause;
use thiserror::Error;

/// Why a command has no reply, or a number no receipt.
#[derive(Clone, Copy, Debug, PartialEq, Eq, Error)]
pub enum CallFault {
    /// The command is refused. It isn't `NoMemory`.
    #[error("{0}")]
    Refused(BookFault),
    /// An allocation failed: the command has no number, or the number no receipt, and nothing has changed.
    #[error("out of memory")]
    NoMemory,
    /// The flusher has given up, so nothing more is accepted, and nothing becomes durable.
    #[error("the store has failed: {cause}, behind command {marked}")]
    StoreFailed {
        /// The number of the last mark: the commands up to it are durable.
        marked: u64,
        /// Why it gave up.
        cause: Cause,
    },
}

/// Why a front doesn't start.
#[derive(Clone, Copy, Debug, PartialEq, Eq, Error)]
pub enum StartFault {
    /// The system gives no thread.
    #[error("no thread can be started")]
    NoThread,
    /// An allocation failed.
    #[error("out of memory")]
    NoMemory,
}

/// Why a front isn't closed.
#[derive(Clone, Copy, Debug, PartialEq, Eq, Error)]
pub enum CloseFault {
    /// Passes of this front weren't given back.
    #[error("{count} passes are out")]
    PassOut {
        /// How many.
        count: u8,
    },
}
