//! Engines, which carry commands out, for jobs of any kind; of a store, such that commands are durable before they are answered.
//!
//! An `Engine` is anything that carries commands out as the machine does, and promises what is kept of them: a `State` in
//! memory, which keeps nothing, a `DurableEngine`, or a front's only client (`pfx_front_engine`). What is said over any engine
//! holds of each of them.
//!
//! A `DurableEngine` has a keeper of a store, the store itself or one beside a log, and a state of its own that
//! commands are run on. For every disk that behaves as its model says, at every moment and through repeated stops:
//! 1. a command that is answered is durable: from its mark on, each image that a stop may leave is recovered to the state
//!    after it;
//! 2. whatever a call answers, the commands that survived before it survive, with the call's commands or without them: what
//!    is recovered is the outcome of a beginning of the accepted commands, with every answered one;
//! 3. a refused command changes neither the state nor the store; nor does a command for which there is no memory;
//! 4. once the disk has failed, or the log beside the store, nothing is done and every answer is `StoreFailed`, with the
//!    number of the last command that is known to be durable.
//!
//! A command has a frame of its own; Slots of one call share one, 16 at the most, and none is answered before it is kept.
//!
//! A step of the checkpoint in progress, if there is one, is taken before each frame that is kept, so that an append which
//! turns seldom has a checkpoint to end. Its `settled` waits for nothing.
//!
//! `faults` has the program's fault for each way in which a store isn't made or opened.
//!
//! Why it is so:
//! - **An engine is a trait with one state behind it**, and clauses that say what a call does to that state. So what a script prints is
//!   one function, made in one place, for an engine in memory and for every one that comes later.
//! - **What ends a run and what doesn't** is distinguished by the type of the answer: a machine's refusal is a line and the script goes
//!   on; a fault of reader, writer, memory or engine ends it with a prefix of its output printed.
//! - **What is kept is stated over commands, not frames.** A frame survives whole or not at all, so the outcomes of prefixes of commands
//!   that may be found are fewer than stated; a caller has no use for the difference, and the statement doesn't change with the window.
#![tactic(auto)]

mod durable;
mod engine;
pub mod faults;
mod keeping;
pub mod laws;
mod memory;
mod place;
mod places;
mod windows;

pub use durable::{DurableEngine, StoreEngine};
pub use engine::{Engine, EngineFault, Told};
pub use place::RealTask;
pub use places::place_of;
