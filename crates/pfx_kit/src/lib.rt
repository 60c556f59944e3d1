//! What tests and measurements of several crates share, below a front. None of it is part of the program.
//!
//! | Module | Holds |
//! |---|---|
//! | `frames` | frames of one store's file, of new weights too |
//! | `places` | where the parts of one store's file stand |
//! | `states` | ledgers and states from their numbers |
//! | `week` | a script of three slots, and what its first two runs print |
//! | `watched` | a desk whose calls another value is told of, and may hold up |
//!
//! Why it is so:
//! - **Tests stand in trial crates**, `pfx_trial_disk` to `pfx_trial_program`, each beside the crates of one layer: a crate with tests is
//!   proved twice, and such proofs were two fifths of the gate's time. Only a test of what a crate doesn't show would stay in it, and
//!   those of `pfx_c`, a static library, on which no crate can depend. Checks are plain functions to `bool`, since an `assert_eq!` or a
//!   `?` into a test's failure costs seconds of proof.
//! - **What a trial does is generic over a trait without contracts**: `Service` is a front, or a book, as its clients see it, `Engine`
//!   and `Stopped` a store's engine and its disk on one thread (`pfx_trial_front_stops`). The methods of one impl hold the real types, and what
//!   these promise ends there. A run over the real types pays for their facts on each path out of a loop or a function: the loop that
//!   folds a run's commands took some 40 seconds of proof, and takes some 10 where a function of its own drops the promise of
//!   `plain_state` and another is the loop's body.
//! - **What several trial and bench crates share stands in `pfx_kit`**: states from numbers, the places and frames of one store, the
//!   script that runs over each engine, a desk whose calls are watched. How a front is started for a test stands in each crate that does
//!   it: a trait for what is then done at it, whose method takes a front of any name, was tried, and the prover doesn't fit an impl's
//!   bounds to such a method's.
#![tactic(auto)]

pub mod frames;
pub mod places;
pub mod states;
pub mod watched;
pub mod week;
