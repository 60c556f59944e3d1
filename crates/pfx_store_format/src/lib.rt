//! The format of a store's file, version 2: what the bytes of its header, its checkpoint areas and its frames stand for.
//!
//! `specs/Format.antt` gives the codec that `pfx_store_image` leaves open. A header is that of `pfx_store_header`, and a checkpoint area's body
//! the bytes of a state of `pfx_checkpoint` with its set, in whose segments the longest batch of its workers has room. A frame is a batch of `pfx_record`, which leads from a state to the one after
//! its records:
//! 1. its head is right after the state's number: 1 to 16 commands, the next number first, none above 2^48 - 1;
//! 2. its bytes are the spelling of a batch, all of them;
//! 3. each record is right where it comes, as `pfx_record_redo` says, and is taken over as it stands.
//!
//! Records are read and taken over one by one, so that a batch isn't held, and a slot's record in which no task has a state
//! without a list of places: it takes no memory.
//!
//! `laws` has that the codec keeps what recovery asks of one.
//!
//! Why it is so:
//! - **Areas of checkpoints never move**: how long one is depends on the number of real tasks alone, which no new weights change. A step
//!   of a checkpoint in progress writes the state at the turn, whatever set was in force then.
//! - **What can stand in a file is one codec**, and reading, making and writing a file are proved over any codec. The product's own one
//!   enters only in `pfx_store_format` and `pfx_store`. The impl that files are opened by (`FileFormat`) stands in `pfx_store`, not beside the
//!   codec: an impl takes the laws of its trait from its own crate's definitions or from below, and the codec's laws are proofs.
#![tactic(auto)]

mod areas;
mod frames;
mod idle;
pub mod laws;

pub use areas::read_area;
pub use frames::{apply_frame, number_after, number_of};
