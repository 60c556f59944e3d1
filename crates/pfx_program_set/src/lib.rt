//! Reads the file in which a user describes a task set.
//!
//! A set file is TOML: the integer `workers`, an optional integer `segment` and an array of tables
//! `task`, each with a text `name` and integers `e` and `p`:
//!
//! ```text
//! workers = 2
//!
//! [[task]]
//! name = "index"
//! e = 2
//! p = 3
//! ```
//!
//! What it keeps true: which set the bytes are is one stated function of them, `set_of_bytes` of
//! `specs/SetFile.antt`. It is read exactly, a text that isn't a set file is refused, and nothing
//! else is. Whether the set can be scheduled is not asked here.
//!
//! Why it is so:
//! - **An integer that TOML can't hold** (beyond 64 bits, signed) makes the file no set file (BadSet), rather than a zero. One that fits
//!   TOML but not 32 bits counts as 0, and is refused as a weight or number of workers by the set itself.
//! - **A leading byte order mark is skipped.** The crate `toml` does so, and editors write them.
//! - **Keys that pfx doesn't know are ignored**, so that a file can carry what other tools need.
//! - **A set file or a script that isn't read answers the program's own fault** (`pfx_fault::Fault`), not one of its crate's own that a
//!   table would turn into it: there are fewer types, and a clause says which of the faults come.
#![tactic(auto)]

mod members;
mod reading;
mod set;

pub use members::is_name;
pub use reading::read_set;
pub use set::{NamedTask, SetText};
