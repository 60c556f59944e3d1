//! Opening a store's file: the code that reads a disk, and answers what `pfx_store_image` says that its bytes mean.
//!
//! What stands in a header, a checkpoint area and a frame is left to a `Format`, which has the codec of the file's bytes and reads
//! them. `open` begins with a sync, so that what it reads is what a stop leaves, and then only reads: the header, the checkpoint areas
//! and the segments' gates, and then each segment at once, or its frames one by one if there is no memory for the whole. Its
//! tests come in one order over the file:
//! 1. the header, and the file's length;
//! 2. the checkpoint areas' gates and numbers, and the state in the checkpoint area that is taken;
//! 3. the segments' gates and first numbers;
//! 4. the heads of all frames that are read, of the second segment too, if it goes on after the first;
//! 5. the records of these frames, which are held in memory for it;
//! 6. the first number of an open segment that isn't read.
//!
//! The first that fails gives the refusal. No stage writes, and none looks behind a closed gate but at the number there.
//!
//! Why it is so:
//! - **The tests of recovery come in one order over the whole file**: the heads of all frames that are read before any record. A file
//!   with two faults has one answer.
//! - **An opening reads each segment at once, and its frames stay where they were read**: a pass over their heads, and then one over
//!   their records, take no memory and copy nothing. With three calls per frame a file of 32 MB took two million of them, and with a
//!   vector for each frame the vectors took more time than the tests. Only the segments that are read come into memory. If there is no
//!   memory for a segment, its frames are read by disk calls and put one after the other, so that one loop takes the records in both
//!   cases.
//! - **All heads of frames are tested before any record**, over both segments, so the frames are held in memory while a file is opened:
//!   at most two segments.
#![tactic(auto)]

mod areas;
mod bytes;
mod choosing;
mod contents;
mod faults;
mod format;
mod frames;
mod gates;
mod opened;
mod outline;
mod reading;
mod records;
mod segments;
mod walked;

pub use faults::{HeadFault, OpenFault, Refusal};
pub use format::Format;
pub use opened::{OpenedFile, open};
