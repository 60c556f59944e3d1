//! What the bytes of a store's file mean: which files a store may leave, and what a file is recovered to.
//!
//! A file is a header, two checkpoint areas and two segments of frames. Each checkpoint area, segment and frame begins with a gate,
//! a byte that counts as open at one value and as closed at every other. Behind a closed gate nothing is read.
//! 1. The checkpoint area taken is the open one; of two open ones the one with the greater number. It gives a state.
//! 2. The segment read first is open and begins with the number after the state's. Its frames, up to the first closed
//!    gate, lead on from that state. If the other segment is open and begins after their last number, its frames
//!    lead on from there, and a checkpoint of the state between the two is in progress.
//! 3. All tests come in one order over the whole file, and the first that fails gives the refusal: header, length,
//!    checkpoint areas, segments, the heads of all frames that are read, their records, the segment that isn't read.
//!
//! What stands in a header, a checkpoint area and a frame is left open: a `Codec` says it, and keeps a few laws. `IsStore` is the
//! relation of those who write (which parts stand where), `recovered` is the function of those who read, and `laws` has
//! that the two agree, and that each step of a writer leaves, at every moment, a file of the store before or after it.
//!
//! Why it is so:
//! - **What stands in a slot or a frame is left open** in `pfx_store_image` and `pfx_store_file`: a codec with six laws. So what a stop may
//!   leave is proved once, and no proof about torn writes speaks of records.
#![tactic(auto)]

mod head;
pub mod laws;

pub use head::SEGMENT_HEAD;
