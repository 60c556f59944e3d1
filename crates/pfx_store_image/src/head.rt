//! The head of a segment: its gate and a number.

/// How many bytes a segment has before its first frame's gate: its own gate, and the number of its first command in eight bytes. As
/// many are put behind its gate as it begins: that number, and that frame's closed gate.
pub const SEGMENT_HEAD: usize = 9;
