//! The format of a store's file, version 1, for reading alone.
//!
//! A file of version 1 differs from one of version 2 by its version byte and in two parts. A checkpoint area's body is the bytes of
//! a state of `pfx_checkpoint` without its set, which is the header's from the first slot on. A frame is a batch of `pfx_record` in
//! which no task is said to be real, so that new weights have no spelling.
//!
//! `specs/Format.antt` gives the codec, the functions here read what it says, and `laws` has that it keeps what recovery asks of one.
#![tactic(auto)]

mod areas;
mod frames;
mod headers;
pub mod laws;

pub use areas::read_area;
pub use frames::apply_frame;
pub use headers::{VERSION, read_header};
