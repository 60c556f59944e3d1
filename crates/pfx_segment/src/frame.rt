//! The head of a frame: where its numbers stand, and how long the frame is.
ghost use Rattle.std.specs.Prelude.{◌≡◌, ◌≤◌, ◌<◌, ◌+◌, ◌^◌, length};
ghost use Rattle.pfx_segment.specs.Frames.{frame_len};

/// How many bytes a frame has before its records.
pub const FRAME_HEAD: usize = 15;

/// The place in a frame of the length of its records, in four bytes.
pub const LENGTH_AT: usize = 1;

/// The place in a frame of its first command's number, in eight bytes.
pub const FIRST_AT: usize = 5;

/// The place in a frame of the count of its commands, in two bytes.
pub const COUNT_AT: usize = 13;

/// How long the frame at this gate is, as its head says. Only the gate and the length of its records need be there.
pub fn frame_len_at(bytes: &[u8], at: usize) -> usize
    requires inside { at + FIRST_AT ≤ length bytes.now }
    ensures value { result ≡ frame_len at bytes.now }
    ensures bound { result < FRAME_HEAD + 2 ^ 32 }
{
    let at = at + LENGTH_AT;
    FRAME_HEAD
        + bytes[at] as usize
        + 256
            * (bytes[at + 1] as usize
                + 256 * (bytes[at + 2] as usize + 256 * bytes[at + 3] as usize))
}
