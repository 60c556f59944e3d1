// Where the parts of a store's file lie, and how its gates stand.
ghost use Rattle.std.specs.Prelude.{◌≤◌, ◌<◌};
ghost use Rattle.pfx_store_file.specs.Checkpoints.{written};
ghost use Rattle.pfx_store_file.specs.Sizes.{total_len};

use crate::progress::Checkpoint;
use crate::sizes::Sizes;

/// Where the parts of a store's file lie, and how its gates stand. Of the two checkpoint areas and of the two segments `true` names
/// the second. All places are offsets in the file, all lengths are in bytes.
#[derive(Clone, Copy)]
pub struct Places {
    /// How long the file's parts are.
    pub sizes: Sizes,
    /// The checkpoint area in use.
    pub area: bool,
    /// The segment that frames go to.
    pub segment: bool,
    /// How far the checkpoint in progress is. While there is one the other segment is to be read before the one that frames go to.
    pub checkpoint: Checkpoint,
    /// The gate of the next frame.
    pub gate: usize,
    /// The end of the segment that frames go to.
    pub end: usize,
    /// Whether the gate of the checkpoint area that isn't in use stands open.
    pub area_open: bool,
    /// Whether the gate of the other segment stands open, if that isn't to be read.
    pub segment_open: bool,
    ghost before: { gate < end },
    ghost inside: { end ≤ total_len sizes },
    ghost part: { written checkpoint ≤ sizes.body },
}
