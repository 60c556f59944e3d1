//! The machine: commands, and the state after them.
//!
//! Commands give a task a job (`Submit`), run one slot (`Slot`) or take a task's job away (`Withdraw`). Their meaning is
//! said over whole lists of commands from a start, and never by the machine's own loop:
//!
//! - the rows of a list: for each Slot PF's row over the rows before it;
//! - the quanta of a job: its span runs from the command that gave it to the next one that changes its task's job, or to
//!   the end; its quanta are the first slots of the span whose row holds its task, as many as it had steps left;
//! - the state of a job: its start, stepped once for each quantum;
//! - the outcome of a list: the last number, the ledger after the rows, each task's job, and each command's reply.
//!
//! `State` is that outcome, kept a command at a time: after `apply` it is the outcome of the list with the command added.
//! A slot may also be opened, its quanta run elsewhere and in any order, and sealed, with the same result. `run` takes a
//! whole list. At every moment every lag lies strictly between minus one and one.
//!
//! Why it is so:
//! - **The meaning of commands is stated over whole lists**, from a start: rows, spans, quanta, outcome. The machine keeps one state and
//!   proceeds one command at a time; that the two agree is proved, and is the contract of `apply`, `seal` and `run`.
//! - **A start is any state**, not only the empty one, so that a store that was opened continues under the same definitions.
//! - **Only a Slot and a Reweigh take memory** (the choice's vectors, which the state keeps for the next one; the new set and its
//!   ledger), so only these can be refused with NoMemory, which their clause says. `seal` and `begin` take none: what could fail has been
//!   done by `open_slot` and `prepare`.
//! - **What a record is taken over by stands with the machine**: whether a task is free, has a job or is busy, and the tests that a state
//!   passes (`laws::tests_tell_states`). `put_job`, `pass_row` and `count` bypass acceptance, for records of commands that were accepted
//!   before; their docs say so. So records are taken over without anything of a checkpoint.
#![tactic(auto)]

mod board;
mod command;
mod faults;
mod jobs;
pub mod laws;
mod plain;
mod reweighing;
mod runs;
mod slot;
mod state;

pub use board::{Board, JobStatus, TaskLine};
pub use command::{Command, Reply};
pub use faults::MachineFault;
pub use jobs::{copy_jobs, has_job, is_busy, is_free};
pub use plain::{Happening, plain_job, plain_slots};
pub use reweighing::NewEpoch;
pub use runs::{Answer, run};
pub use slot::run_all;
pub use state::State;
