//! What goes wrong.
use pfx_front::faults::{CallFault, StartFault};
use thiserror::Error;

/// Why a run isn't what it should be.
#[derive(Clone, Copy, Debug, PartialEq, Eq, Error)]
pub enum RunFailure {
    /// The file isn't to be opened, or another process has it open.
    #[error("the file can't be opened and locked")]
    File,
    /// No store was made or opened.
    #[error("there is no store")]
    NoStore,
    /// An allocation failed.
    #[error("out of memory")]
    NoMemory,
    /// The clock gives no time.
    #[error("there is no clock")]
    NoClock,
    /// The front didn't start.
    #[error("the front didn't start: {0}")]
    NotStarted(StartFault),
    /// No pass is left.
    #[error("there is no pass")]
    NoPass,
    /// A call failed.
    #[error("a call failed: {0}")]
    Call(CallFault),
    /// A receipt is of another number than its call.
    #[error("the receipt of {0} is missing")]
    NoReceipt(u64),
    /// A receipt couldn't be printed.
    #[error("the output failed")]
    Output,
    /// The front wasn't closed.
    #[error("the front wasn't closed: a pass is missing")]
    NotClosed,
    /// The session hasn't the commands that were asked.
    #[error("the store ends at {0} and not at {1}")]
    WrongLength(u64, u64),
    /// The flusher has given up, or the session has other marks than the store.
    #[error("the session isn't settled: its last mark is {0}")]
    NotSettled(u64),
}
