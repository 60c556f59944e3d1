//! From the empty start PF's choice never fails, and over its whole life a task gets what it is due.
//!
//! A ledger is endless if for each number of slots there is a fair schedule of so many from it on. What holds of them:
//!
//! 1. The start of each filled set is endless, and so is each ledger at which every lag is zero.
//! 2. PF's choice keeps a ledger endless, and at one nothing refuses a row but the last slot and memory.
//! 3. From the start, behind every acceptable list of commands, a Slot is refused by the limits on numbers and slots alone.
//! 4. Any ledger is endless exactly if PF's choice succeeds from it up to a slot that is a whole number of hyperperiods.
//!
//! A Reweigh needs every lag to be zero, which is so at each multiple of the hyperperiod (`laws::level_at_each_period`). So over
//! its whole life, over all its weights, a task has got what it was due, to within one slot (`laws::lives`).
//!
//! That there are such schedules is a theorem of Baruah, Cohen, Plaxton and Varvel, "Proportionate Progress" (Algorithmica 15,
//! 1996), there by a flow through a network. Here it is by moves: in a schedule in which every task is fair but not every
//! slot has as many tasks as there are workers, a task is moved from one slot to another, and stays fair, until each has.
//!
//! - `laws`: what holds of every ledger and every list of commands.
//! - `begin`, `next_row`: a plan that only a failed allocation can stop.
//!
//! Why it is so:
//! - **What is carried along is that a ledger is endless**, and not how it was reached: `IsEndless` speaks of the ledger alone, PF's
//!   choice keeps it, and at such a ledger nothing but the last slot and memory refuses. The refusals for lack of a row stay in the
//!   types: a ledger that is given may have them.
//! - **That fair schedules exist is proved by moves between slots**, without flows: a move shifts one task, so what it keeps is said of
//!   one task and one number at a time, and any whole number of hyperperiods may be taken at once.
//! - **Whether a given ledger goes on without end has no command of its own**: a plan up to a whole number of hyperperiods decides it.
#![tactic(auto)]

pub mod laws;
mod slots;

pub use slots::{begin, next_row};
