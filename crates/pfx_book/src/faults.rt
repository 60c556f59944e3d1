//! Why a command has no number.
use pfx_machine::MachineFault;
use thiserror::Error;

/// Why a command isn't accepted.
#[derive(Clone, Copy, Debug, PartialEq, Eq, Error)]
pub enum BookFault {
    /// The session has accepted as many commands as it may. This is tested before all else.
    #[error("the session is full")]
    SessionFull,
    /// The machine refuses it.
    #[error("{0}")]
    Machine(MachineFault),
    /// An allocation failed. Nothing was noted then, and nothing has changed.
    #[error("out of memory")]
    NoMemory,
}
