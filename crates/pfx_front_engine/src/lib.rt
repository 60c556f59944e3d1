//! The engine of a front: commands carried out by workers and a flusher.
//!
//! A `FrontEngine` is a front's only client, for jobs of any kind. It answers a command once it has the command's receipt, and
//! asks for up to 64 Slots before it waits for the last one's: their batches are written meanwhile.
//!
//! - `client`: the only client of a front, and how far it has come.
//! - `asking`: a command of the only client, and why it has no answer.
//! - `engine`: the engine.
//!
//! Why it is so:
//! - **A script's run is the front's only client**, and is told by each call whether it still is: then its notes are the whole session,
//!   and its answers are the machine's before anything is gathered at the end. Another pass would have to come from whoever holds the
//!   front, which is the run itself; the type of a front doesn't say so, so the call would wait for ever if it were otherwise.
//! - **Up to 64 slots are asked for before the last one's receipt is waited for.** The flusher's batches of 16 fill while the slots go
//!   on, and the lines are printed after one receipt. A command that isn't a slot is waited for at once.
//! - **If a receipt is refused for lack of memory**, the run ends as StoreFailed with the last number that has its receipt: the command
//!   is accepted by then, so saying that nothing was done would be wrong.
#![tactic(auto)]

mod asking;
pub mod client;
pub mod engine;
