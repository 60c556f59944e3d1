// Why a history isn't audited.
use crate::faults::HistoryFault;
use crate::file_fault::FileFault;
use thiserror::Error;

/// Why a history isn't audited up to its end.
#[derive(Clone, Copy, Debug, PartialEq, Eq, Error)]
pub enum AuditFault {
    /// The log of this index, counted from 0, isn't the next part of the history.
    #[error("{fault}")]
    Log { index: usize, fault: HistoryFault },
    /// The store's file isn't the end of the history.
    #[error("{0}")]
    File(FileFault),
}
