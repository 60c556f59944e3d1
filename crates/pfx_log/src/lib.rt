//! Logs: the whole history of a store, kept, chained and checked, in a file that only grows.
//!
//! A log is a header and blocks one behind the other, each behind a gate, and a closed gate behind the last. The header has the state that
//! the log begins at; a block has the numbers of its commands, their frames, and a head: the SHA-256 of the head before it and of all that is
//! in the block. `docs/FORMAT.md` has the grammar. States and frames are bytes here: only that a state's first eight are the number of its
//! last command is known of it.
//!
//! What the calls keep true, and no change may lose:
//! 1. A closed gate stands behind the log in each image that a stop may leave. A block is written behind it with the next closed gate as its
//!    last byte, and synced before the gate is opened by a write of its own.
//! 2. Nothing is written to a gate but to open it. Opening a log syncs and only reads, so that the gate behind it is known to be closed in each
//!    image. After a call of the disk that failed nothing is known, and the log is broken until it is opened again.
//! 3. A block begins with the number behind the last one before it, so that there is no gap.
//! 4. An image holds at most one log, and a last head fixes all that is before it, or two strings of bytes have one SHA-256.
//!
//! Why it is so:
//! - **A closed gate ends a log, and has to be there.** The grammar has it, each call writes it, and so opening writes nothing: a byte
//!   written at a file's end may be torn to any other, an open gate too. A log that is cut right behind its last block is refused
//!   (`Block`, at its end).
//! - **A state's first 8 bytes are its number.** The log knows nothing else of a state, and needs that one to know which block is next. A
//!   checkpoint area's body begins so.
#![tactic(auto)]

mod appending;
mod creating;
mod faults;
mod file;
mod heads;
pub mod laws;
mod looking;
mod opening;
mod place;
mod putting;
mod reading;

pub use faults::{AppendFault, CreateLogFault, Damage, LogFault};
pub use file::LogFile;
pub use place::{LogBlock, LogHeader, LogPlace, MOST};
pub use reading::{read_block, read_header};
