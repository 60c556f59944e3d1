//! The header of a store's file: a task set, and how many bytes a segment has.
//!
//! A header is a gate (1 byte, open at 0xC3), the letters `PFXSTORE` (8), the version (1), which is 2, how many workers
//! (1) and how many real tasks (2) there are, how many bytes a segment has (4), and e (4) and p (4) of each real task.
//! Numbers are unsigned and little endian. Idle tasks aren't in it: they follow from the set.
//!
//! Bytes are tested in this order, and the first test that fails gives the answer:
//! 1. fewer than 17, the gate closed or other letters: `NotAStore`;
//! 2. another version: `WrongVersion`, which names it;
//! 3. not 1 to 64 workers or not 1 to 1,024 tasks: `Damaged`;
//! 4. fewer bytes than the header has: `NotAStore`;
//! 5. tasks that are no set, or a segment out of its limits: `Damaged`.
//!
//! What stands behind the header doesn't matter. Bytes are read as a header exactly where they begin with its bytes.
//!
//! Why it is so:
//! - **A set is read from a header as a function of its bytes**: the first common multiple up to 2^20 is the hyperperiod. The code
//!   computes it by least common multiples, and the two are proved the same.
#![tactic(auto)]

mod faults;
pub mod laws;
mod reading;
mod sets;
mod sizes;
mod writing;

pub use faults::{HeaderFault, SegmentSizeFault};
pub use reading::{read_header, read_header_of};
pub use sizes::{
    HEADER_MOST, LONGEST_SEGMENT, check_segment, header_len, least_for, least_segment,
};
pub use writing::write_header;
