//! A job kind of one's own, as `docs/JOB_KINDS.md` tells it: a walk on a line of 64-bit places.
//!
//! The walker draws a number at each step, by the linear congruential generator of the constants 6364136223846793005
//! and 1442695040888963407, and goes one place up or down, as the number's highest bit says. Nothing here is known to
//! the crates that run, write and recover jobs: the kind proves the laws of `Job`, and they rely on these alone.
#![tactic(auto)]

pub mod laws;
pub mod walk;
