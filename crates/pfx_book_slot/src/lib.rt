//! An open slot: its row, its quanta, and the results that are back.
//!
//! A Slot may be run in parts: it is opened at a state, its quanta are run by others, and once all results are back it is
//! sealed. `slot` is what lies between: each result is put at its quantum's place, in any order, and once. `sealing` opens
//! the slot of a state and ends it there, with the reply, the record and the outcome of a Slot that is run at once.
//!
//! All memory that the end needs is taken at the opening, so that a slot that was opened can always be sealed.
//!
//! A job's state is copied four times on its way from the machine's state into a record: into its quantum, since the state stays as it is
//! until the slot is sealed; into the quantum that is dealt, since a result is compared with its quantum, and a lost one is dealt again;
//! before the step, since a result says of which state it is the step; and out of the result, which the machine's state takes.
#![tactic(auto)]

pub mod sealing;
pub mod slot;
