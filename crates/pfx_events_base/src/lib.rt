//! The checkpoint that a store's file is recovered from, at each moment of the acts.
//!
//! An image is recovered from a checkpoint and the frames behind it. Its number is at most that of the last turn: the next checkpoint
//! holds the state at the turn, and is read only once it is whole. So it is before, between and within all calls of an append, of a turn
//! and of the steps of a checkpoint, an append that turns among them: of that the turn before counts. Whoever keeps elsewhere what the
//! segments hold up to the last turn misses nothing.
//!
//! `specs/Bases.antt` says what that means of an image and of a disk, over any codec; `laws` has it of each act.
//!
//! Why it is so:
//! - **Which checkpoint an image is recovered from is shown by a codec that takes none above a number** (`pfx_events_base`): for it such a
//!   checkpoint is damaged. It keeps the laws of recovery, so that what is proved of each act over any codec holds over it too, and what
//!   it recovers has a checkpoint of at most that number. No proof of an act was written again for it, but for how the acts are joined.
#![tactic(auto)]

pub mod laws;
