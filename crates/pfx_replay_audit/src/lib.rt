//! An audit of a store's history: logs, and the store's file behind them, against what their commands do.
//!
//! A log begins at a state and has the frames of the commands behind it, block by block. `fold_first` folds the first log from its state
//! on, `fold_next` each further one, which names the head of the one before and begins with the state that it led to, and `fold_behind`
//! the records that the store's file has behind the last log's end. Each says that all agrees, and gives the state there, or names the
//! first number that doesn't agree, and what differs there: a row that isn't PF's, a job's state that isn't the one after its quantum, an
//! answer that isn't of the next unit, or a checkpoint. `laws` has that what these say of parts holds of the whole,
//! and that no history both agrees and differs.
//!
//! Checkpoints are states that are recorded elsewhere with their numbers: those that a file holds, which `read_file` reads first. Each is
//! compared where its number comes, within a log too.
//!
//! `audit` folds a whole history: logs in their order, and the file behind them. A `Watch` is told of the records that agree.
//!
//! Each record is judged by `pfx_replay`, apart from the machine; a block's frames are taken over by the machine before, which says
//! whether they are frames of records that may stand there. One block is in memory at a time.
//!
//! Why it is so:
//! - **An audit locks what it reads**, as `replay` does: what its contracts say is of disks that nobody writes meanwhile. A copy of a log
//!   can be audited while a run has the log itself.
#![tactic(auto)]

mod audit_fault;
mod auditing;
mod behind;
mod block;
mod blocks;
mod chain;
mod ends;
mod faults;
mod file;
mod file_fault;
mod finding;
mod folded;
mod framing;
mod heads;
pub mod laws;
mod log;
mod marks;
mod starts;
mod watch;

pub use audit_fault::AuditFault;
pub use auditing::audit;
pub use behind::fold_behind;
pub use ends::{HistoryEnd, LogEnd};
pub use faults::HistoryFault;
pub use file::{FileHistory, read_file};
pub use file_fault::FileFault;
pub use finding::find_block;
pub use folded::Folded;
pub use heads::{head_object, head_text};
pub use log::{fold_first, fold_next};
pub use watch::{Unwatched, Watch};
