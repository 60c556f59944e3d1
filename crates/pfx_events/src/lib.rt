//! The theorem over every list of events, of this product's store.
//!
//! `specs/Store.antt` says which store the world of events (`pfx_events_world`) has here: its files are those of the codec in
//! `pfx_store_format`, its calls those that `pfx_store` says its own make. `proofs/Sound.antt` proves that this store is sound,
//! from the laws of the crates below and those of the jobs' kind, and nothing else. So what the world's claims say holds of
//! it, which is the contract of `laws::crash_prefix`. `tied` has the store's `append`, `append_reweigh`, `tend` and `open`, which say of each
//! such world that their calls are its events.
//!
//! Why it is so:
//! - **A run begins at one image**, the one that was read, or at a store that goes on with pieces of its checkpoint not yet synced
//!   (`standing_is_seen`, `laws::runs_go_on`).
//! - **A mark is kept by a count of frames and the number after them**, and stated of broken stores too, so that calls compose across
//!   failures.
#![tactic(auto)]

pub mod laws;
pub mod tied;
