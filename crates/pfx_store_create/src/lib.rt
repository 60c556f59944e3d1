//! A new store's file, written onto an empty disk.
//!
//! The file is made so that it is a store's only when it is whole. Its first byte, the gate before the header, is written
//! closed and synced; then all bytes behind it, piece by piece, and synced; then the gate is opened by a write of its own
//! and synced. A stop at any moment leaves no store's file yet, which is a byte at most or a closed first gate, or the new
//! file, whole. A byte alone may be an open gate: a stop within the very first write may leave any byte.
//!
//! No memory is taken: each byte of the file is worked out from the header, the first checkpoint area's body, the first segment's
//! number and the lengths.
//!
//! Why it is so:
//! - **The first byte of a new file** may be left open by a stop within its very first write, which a torn write allows. A file of one
//!   byte is no store, so nothing is lost by it.
#![tactic(auto)]

mod bytes;
mod creation;
mod fault;
mod file;
pub mod laws;
mod pieces;

pub use creation::create;
pub use fault::CreateFault;
pub use file::{create_file, new_places};
