//! Tests of the front and of its board, in a crate of their own so that they are proved once, without them.
//!
//! | Module | Tests |
//! |---|---|
//! | `stores` | the stores that the modules below begin with |
//! | `service`, `answers` | a front as the sessions of its clients see it, and whether they are answered as they should be |
//! | `served` | a client's calls by no worker, one and two, new weights, a receipt, a pass that is out, and the store opened again |
//! | `fronts`, `sessions` | how the modules below start a front and end it; the session of each of them |
//! | `passes` | all passes that there are |
//! | `sole` | a client that is the only one has a copy of its state, until there is a second client |
//! | `many` | sixteen clients and two workers: all is settled, and in the store |
//! | `late`, `missed` | a desk at which a result is late: the front makes it again |
//! | `pieces` | a checkpoint's piece that is held, and one that fails |
//! | `clients` | clients in threads of their own: what was answered is in the store |
//! | `held` | a flusher that is held in its first sync: calls are answered meanwhile |
//! | `lost` | a device that fails: who is told, and what is left |
//! | `board` | the board by itself: what its readers see, also beside a thread that publishes |
//!
//! `proofs/RefutedCalls.antt` has worked rows of what a client knows whose call has no reply or no receipt.
#![tactic(auto)]

#[cfg(test)]
mod answers;
#[cfg(test)]
mod board;
#[cfg(test)]
mod clients;
#[cfg(test)]
mod fronts;
#[cfg(test)]
mod held;
#[cfg(test)]
mod late;
#[cfg(test)]
mod lost;
#[cfg(test)]
mod many;
#[cfg(test)]
mod missed;
#[cfg(test)]
mod passes;
#[cfg(test)]
mod pieces;
#[cfg(test)]
mod served;
#[cfg(test)]
mod service;
#[cfg(test)]
mod sessions;
#[cfg(test)]
mod sole;
#[cfg(test)]
mod stores;
