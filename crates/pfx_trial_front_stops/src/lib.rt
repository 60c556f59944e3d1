//! Trials of stores under hostile use: stops twice, and one failing call. In a crate of their own, so that the tested crates
//! are proved once, without them.
//!
//! | Module | Tests |
//! |---|---|
//! | `folds` | the run of the trials, and what its commands lead to by `pfx_replay`'s slow fold |
//! | `engines`, `courses` | disks and engines as the runs see them, and the runs on one thread |
//! | `stopped` | stops after each call of a disk, and again after each call of a Slot that goes on |
//! | `twice` | a store on one thread is stopped twice |
//! | `failing` | each call of a store's run fails in turn, and each call of its opening |
//! | `service`, `visits` | a front as the run's two clients see it, and the run that they ask |
//! | `fronts` | how the run starts a front and ends it |
//! | `through` | the same two trials through the front |
//! | `answers` | a run of grants and of answers to them is stopped twice |
//! | `weeks` | a script through a front, by none, one and two workers |
//!
//! A case is a plain `bool`; `check` and `check_at` name the one that doesn't hold.
#![tactic(auto)]

#[cfg(test)]
mod answers;
#[cfg(test)]
mod check;
#[cfg(test)]
mod courses;
#[cfg(test)]
mod engines;
#[cfg(test)]
mod failing;
#[cfg(test)]
mod folds;
#[cfg(test)]
mod fronts;
#[cfg(test)]
mod service;
#[cfg(test)]
mod stopped;
#[cfg(test)]
mod through;
#[cfg(test)]
mod twice;
#[cfg(test)]
mod visits;
#[cfg(test)]
mod weeks;
