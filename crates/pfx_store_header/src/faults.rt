//! Why there is no header.

use thiserror::Error;

/// Why bytes begin with no header.
#[derive(Clone, Copy, Debug, PartialEq, Eq, Error)]
pub enum HeaderFault {
    /// There are fewer bytes than a header has, or the first ones aren't an open gate and the letters of a store.
    #[error("the file is not a store")]
    NotAStore,
    /// The bytes are those of a store of another version.
    #[error("the store has version {version}")]
    WrongVersion { version: u8 },
    /// The bytes are those of a store of this version, but of no task set, or of a segment out of its limits.
    #[error("the header is damaged")]
    Damaged,
    /// An allocation failed.
    #[error("out of memory")]
    NoMemory,
}

/// Why a segment has no such length.
#[derive(Clone, Copy, Debug, PartialEq, Eq, Error)]
pub enum SegmentSizeFault {
    /// The longest batch of the set's workers has no room in it. It takes `least` bytes at the least.
    #[error("a segment takes {least} bytes at the least")]
    SegmentTooSmall { least: u32 },
    /// It is longer than 16,777,216 bytes.
    #[error("a segment takes 16777216 bytes at the most")]
    SegmentTooLarge,
}
