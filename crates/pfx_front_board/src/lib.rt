//! The board: what readers see of the durable commands, without waiting for anybody.
//!
//! The flusher appends batches to the store, one after the other. After each it publishes the batch, and the board then shows
//! the state after it: its number, its slot, and a line for each task. Readers look at the board of the last publication, in
//! one of two copies of it, while the writer changes the other; so no reader takes a lock.
//!
//! - `word`: a `Word` is a beginning of the durable batches. It may be copied and given to any thread.
//! - `receipt`: a number that is durable since a clock, with a word that reaches it.
//! - `shown`: what lies in each of the two copies: a board, with the word that it is of.
//! - `publisher`: where the durable list grows, and is published.
//! - `reader`: a reader knows a word: all that it saw and was told of. It shows no less.
//!
//! What types keep: the batches that a reader knows, and those that are shown, begin the durable ones; what is shown is the
//! board of the state after them. That a reader does get to see what was published before it was told, and so isn't answered
//! `BoardShut`, is shown by tests alone.
//!
//! Why it is so:
//! - **The board is built on the plain handles of `left_right`, whose value carries a prefix of the durable list.** Its ruled reader
//!   doesn't say that its seat stays with its table, so it can't be told repeatedly. Readers compare prefixes by their counts.
#![tactic(auto)]

pub mod name;
pub mod publisher;
pub mod reader;
pub mod receipt;
pub mod shown;
pub mod word;
