// How the bytes of a store's file are read.
ghost use Rattle.std.specs.Prelude.{◌≡◌, ◌<◌, ◌^◌, ℕ, IfOk};

use crate::faults::HeadFault;
use pfx_store_file::Sizes;
use std::alloc::{AllocError, Global};

/// How the headers, the states and the frames of a store's file are read. The type names the format, and no value of it
/// is made.
///
/// `codec` says what the bytes stand for, and each function answers as it says. Numbers are those of commands, and stay
/// below 2^48: the last one that a state has seen, or that a frame has.
pub trait Format {
    ghost use Rattle.pfx_store_image.specs.Codec.{Codec, Laws};
    ghost use Rattle.pfx_store_recover.specs.Formats.{Applies, AreSizes, Bounds, CanEncode, Encodes};
    ghost use Rattle.pfx_store_recover.specs.Answers.{GivesHead};

    /// What stands at the front of a file.
    type Header: Drop;

    /// What a file stands for.
    type State: Drop;

    /// What the bytes of the parts of a file stand for.
    ghost codec: { Codec Self.Header Self.State };

    /// Which states a checkpoint area of a file with this header can hold. Those that are read fit, and those that frames lead to.
    ghost fits: { Self.Header → Self.State → Type 0 };

    ghost HEAD_MOST: { ℕ };

    /// How many bytes at the front of a file are enough for each header.
    const HEAD_MOST: usize;

    /// The header at the front of these bytes, or why there is none.
    fn read_head(alloc: Global, bytes: &[u8]) -> Result<Self::Header, HeadFault>
        ensures { GivesHead (codec.read_head bytes.now) result };

    /// How long the parts of a file with this header are. A checkpoint area's body begins with a number of eight bytes.
    fn sizes(header: &Self::Header) -> Sizes
        ensures { AreSizes (codec.layout header.now) result };

    /// The number at the beginning of a checkpoint area's body, which isn't tested.
    fn area_number(bytes: &[u8; 8]) -> u64
        ensures { result ≡ codec.area_number bytes.now };

    /// The state that a checkpoint area's body stands for, or `None` if it doesn't pass its tests.
    fn read_state(
        alloc: Global,
        header: &Self::Header,
        bytes: &[u8],
    ) -> Result<Option<Self::State>, AllocError>
        ensures { IfOk result (λ state. state ≡ codec.read_state header.now bytes.now) };

    /// The number of the last command that the state has seen.
    fn number(state: &Self::State) -> u64
        ensures { result ≡ codec.number state.now };

    /// The number of the first command of a segment, which stands behind its gate.
    fn segment_number(bytes: &[u8; 8]) -> u64
        ensures { result ≡ codec.segment_number bytes.now };

    /// The number of the frame's last command, or `None` if the frame's head isn't right after this number.
    fn after(last: u64, frame: &[u8]) -> Option<u64>
        requires { last < 2 ^ 48 }
        ensures { result ≡ codec.after last frame.now };

    /// Takes over the frame's records. If they aren't right at this state, the answer is `false`, and the state is no
    /// longer of use.
    fn apply(alloc: Global, state: &mut Self::State, frame: &[u8]) -> Result<bool, AllocError>
        ensures { IfOk result (Applies codec state.old frame.now state.new) };

    /// Writes the body of a checkpoint area that holds the state. It takes no memory.
    fn encode(header: &Self::Header, state: &Self::State, out: &mut [u8])
        requires { CanEncode codec fits header.now state.now out.old }
        ensures { Encodes codec header.now state.now out.old out.new };

    /// The codec is one of a store's files.
    ghost laws: { Laws codec };

    /// Its headers, its numbers and the states that fit are bounded.
    ghost bounds: { Bounds codec fits HEAD_MOST };
}
