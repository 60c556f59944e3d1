//! PF's plans for programs in C, Rust and Python: five calls of a static library, from slices to slices.
//!
//! There is no handle, no state between calls and no thread. The caller keeps the ledger, a slot and for each task (idle ones
//! too) how many of the slots before it the task got, and each call is a function of its arguments. No call requires anything
//! of the numbers that it gets: lengths and ranges are tested inside, and a refusal is answered by its number in the
//! product's table (`pfx_fault`), with nothing changed but what the call's page names. 0 says that the call did what it is for.
//!
//! - `sets`: `pfx_total` and `pfx_set`, what a set is: how many tasks it has, its hyperperiod and its load.
//! - `checks`: `pfx_check`, whether numbers are a ledger of a set, and which task is out of range if they aren't.
//! - `nexts`: `pfx_next`, PF's row at a ledger.
//! - `plans`: `pfx_plan`, PF's rows of many slots, with the ledger taken along.
//! - `laws`: what a call answers is determined by its arguments, but for 90.
//!
//! 90 is answered if any allocation fails, also if the call would succeed.
//!
//! Why it is so:
//! - **Nothing is required of a caller's numbers**, since nothing would check it: each call tests them, and answers a refusal by the
//!   number that the program prints. 57 NoRoom, there a frame that doesn't fit its segment, is here rows that don't fit the caller's
//!   places: so every number is one of `pfx_fault`'s table.
//! - **A plan that ends early keeps its rows**, as `pfx plan` prints them: otherwise the caller would have to plan them again. `made`
//!   tells how many.
//! - **The copy of the weights is bounded before it is made**: more than 1,024 are refused first, whatever else is wrong with them, as
//!   `TaskSet::new` does.
#![tactic(auto)]

mod checks;
mod faults;
pub mod laws;
mod nexts;
mod places;
mod plans;
mod sets;
#[cfg(test)]
mod tests;
mod weights;
