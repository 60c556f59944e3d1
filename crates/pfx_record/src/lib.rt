//! Records of accepted commands, batches of them, and their one spelling in bytes.
//!
//! Numbers are unsigned and little endian. A batch is spelled as the bytes of its frame: an open gate, 0xC3 (1 byte), the
//! length of the records (4), the number of the first command (8), how many commands there are (2), and the records:
//!
//! | Record | Bytes |
//! |---|---|
//! | a job given | 1; the task (2); the job's encoding (128) |
//! | a slot | 2; for each task of its row, strictly rising: the task (2), and 1 and the job's encoding (128), or 0 |
//! | a job taken away | 3; the task (2) |
//! | new weights | 4; how many workers there are then (1); e (4) and p (4) of each real task |
//!
//! What is kept:
//! 1. a batch has 1 to 16 commands, with numbers from 1 to 2^48 - 1, and all its rows have as many tasks as there are
//!    workers, 1 to 64; new weights are alone in their batch;
//! 2. a batch has one spelling, no two have the same, and none begins with that of another;
//! 3. what is written is just that spelling, and takes no memory; what is read is the batch whose spelling the bytes
//!    begin with, and bytes that begin with none are refused, with the place of the first fault.
//!
//! Spellings are read with the number of workers and of real tasks, which they don't tell. Where no task is said to be real,
//! no new weights have a spelling. Only form is tested: whether commands are ones that a state accepts is for those who know
//! the state.
//!
//! Why it is so:
//! - **A batch keeps its records in a vector**, which the caller makes and gets back: writing takes no memory.
//! - **New weights have a record, which is alone in its frame.** Its spelling takes a weight for each real task, so the grammar asks how
//!   many tasks are real, and for that a file of version 1 says none: then new weights have no spelling, and every frame is what it was.
//!   So records are read by one grammar, whichever version they are of. Alone, since the rows of a frame are all of one length, that of
//!   the state before it.
#![tactic(auto)]

mod batch;
mod faults;
mod form;
pub mod laws;
mod numbers;
mod read;
mod read_record;
mod record;
mod write;

pub use batch::{Batch, fits, record_fits};
pub use faults::{BatchFault, FramePart};
pub use form::Form;
pub use read::{FrameHead, head_of, read_batch, read_head, read_next};
pub use record::{Place, Record};
pub use write::{batch_len, batch_most, write_batch};
