//! What a log is read as.

/// The most bytes that a state, or the frames of a block, has.
pub const MOST: usize = 16_777_216;

/// What a log begins with.
#[derive(Drop)]
pub struct LogHeader {
    /// The version of the store's file that the state and the frames are of.
    pub version: u8,
    /// The state that the log begins at. Its first 8 bytes are the number of its last command.
    pub state: Vec<u8>,
    /// The head of the log before, or zeros.
    pub before: [u8; 32],
}

/// A block.
#[derive(Drop)]
pub struct LogBlock {
    /// The number of its first command.
    pub first: u64,
    /// The number of its last command.
    pub last: u64,
    /// Its frames.
    pub frames: Vec<u8>,
}

/// A place behind the header or a block, and what is known there.
#[derive(Clone, Copy)]
pub struct LogPlace {
    /// Where the next block's gate stands.
    pub at: usize,
    /// The number of the last command up to there.
    pub last: u64,
    /// The head of the last block up to there, or that of the header.
    pub head: [u8; 32],
}
