//! Scripts that are run on stores, of `AnyJob`s: by one thread or through a front, on a store alone or on one beside its log.
//!
//! What is printed is what `pfx_program` says, whatever carries the commands out. A printed line is a receipt: whatever a run answers, each
//! image that a stop may leave after it is recovered to the outcome of a beginning of the script's accepted commands which holds every
//! command whose line was printed.
//!
//! - `running`: over a durable engine.
//! - `noting`: by one thread on a store, whose disk's calls are noted, so that what is kept is said of them.
//! - `logging`: the same on a store beside its log: each frame is in the store's file before its commands are answered, and in the log
//!   before the file's segment is left.
//! - `workforce`: who runs the jobs of a front.
//! - `kept`: through a front at whatever keeps a store. The front is started for the script and ended after it.
//! - `serving`: through a front at a store.
//! - `log_serving`: through a front at a store beside its log.
#![tactic(auto)]

mod kept;
mod log_serving;
mod logging;
mod noting;
mod running;
mod serving;
mod workforce;

pub use kept::{Kept, serve_kept};
pub use log_serving::{LoggedServed, run_logged_served};
pub use logging::{LoggedRun, run_logged};
pub use noting::{NotedRun, run_noted};
pub use running::run_durable;
pub use serving::{Served, run_served};
pub use workforce::Workforce;
