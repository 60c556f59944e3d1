//! What a task set asks for, or all that is wrong with it.
//!
//! What it keeps true: of a set of which a store can be made the text is `check_text` of `specs/Text.antt`, a stated function of
//! its tasks, and the load in it is in lowest terms. Of any other set the faults are those of `AreFaults` of `specs/Faults.antt`:
//! the one that every command says first, and then what would be said next, were the task that is named taken out of the set.
//! `candidate` has a set that is tried, `faults` goes on from fault to fault, `load` has the load, `text` the text, and `run` all
//! of it from a set file's bytes on. `laws` says of the faults that they are one list, and none exactly of a set of which a store
//! can be made.
//!
//! Why it is so:
//! - **All faults of a set are those that would be reported next, one after the other**, if each task that is named were taken out: so
//!   the first is the one of every command, by the very definition, and each further one stays when those before it are fixed. Another
//!   list, say of each test on its own, would need rules for tests that can't be made if an earlier one fails.
//! - **What is tried after a count out of its limits is a set whose count is the nearest that can tell anything**: 64 workers, the first
//!   1,024 tasks, one task of half a slot. An overload that is then reported is one for every number of workers.
//! - **Further faults have `pfx: also` in front**: a script that takes the first line, or greps `pfx: error`, gets what it did before.
//! - **The load is a fraction in lowest terms, also if it is whole** (`2/1`): one form to read.
//! - **A file that isn't a set file has one fault**: places in the text are for people, and stand in the lines below a fault.
#![tactic(auto)]

mod also;
mod candidate;
mod checks;
mod faults;
pub mod laws;
mod load;
mod text;

pub use also::put_also;
pub use checks::{SetRefusals, run_check};
pub use text::store_len;
