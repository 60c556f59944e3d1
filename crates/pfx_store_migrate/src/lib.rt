//! Stores of version 1 made into stores of this version.
//!
//! `migrate` reads a file of version 1 by that version's rules, and makes a new file as `Store::init` does, which begins at the state that the
//! old one is recovered to: its number, its slot and set, its allocations and jobs. What that promises, for disks that behave as their
//! model says:
//! 1. the old file is only read, and what isn't a file of version 1 is refused by the first test that it doesn't pass;
//! 2. the new store's state is exactly the one that the old file's bytes stand for, and from the return on each image of the new disk is
//!    recovered to it;
//! 3. at every moment of the call each image of an empty new disk is no store's, or recovered to that state.
//!
//! `OldFormat` is the format of `pfx_store_version_one` as `pfx_store_recover` takes it.
#![tactic(auto)]

mod fault;
mod format;
mod header;
mod line;
mod migrating;

pub use fault::MigrateFault;
pub use format::OldFormat;
pub use header::OldHeader;
pub use line::{migrated_object, migrated_text};
pub use migrating::migrate;
