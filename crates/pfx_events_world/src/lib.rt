//! The world of events: a store's file, its book, its readers and the calls of its disk, and what holds after every list of
//! events.
//!
//! `specs/World.antt` has the world, `specs/Session.antt` the book in it, and `specs/Events.antt` the events: when each may
//! happen, and the world after it. A run is a list of events that each may happen where they come. What a store's file
//! stands for and which calls its acts make is left open (`specs/Setting.antt`): whoever has a store says what it is, and
//! proves that it is sound. `specs/Claims.antt` says what then holds in every run from a file that stands for its start, and
//! `proofs/Claiming.antt` proves it. The theorem of this product's store, as a contract, is in `pfx_events`.
//!
//! Why it is so:
//! - **A device call that fails ends the calls to come.** If only that call were struck off, a stop within the next one could open a gate
//!   over a torn body, and the theorem would be false.
//! - **The sync of an open marks what was left at the stop**, not what was accepted since then: a command asked in between would be
//!   marked, receipted and lost.
//! - **A slot that was opened and is given up is an event**: it leaves the book as it was before the slot. Memory may be refused after
//!   the opening.
//! - **A result belongs to the open slot only if its whole quantum is that slot's**: number, slot, task and the state before. With
//!   another state before, a result would be written back that no step of the job made.
//! - **A process that ends while the disk goes on is a stop with what is read then.** The next start syncs first: nothing else may happen
//!   to the disk before, and nothing is marked. The world's opening is that sync alone, as reads leave nothing.
//! - **The world's clock goes on across stops, and no claim speaks of it.** A receipt's clock means something for its own disk only.
//! - **What may be left within the coming call is asked for beside what may be left now**: a sync that comes leaves either.
//! - **What may happen is a type by cases, what it does is a function**, so a run is a fold. That an image may be left is no test that
//!   code could make, so a step can't be a function that answers yes or no.
//! - **What a read gives may have more than each image**: the pieces of a checkpoint that no sync has covered. So a store says both.
#![tactic(auto)]
