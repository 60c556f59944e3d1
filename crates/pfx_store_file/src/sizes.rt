// How long the parts of a store's file are, and where they lie.
ghost use Rattle.std.specs.Prelude.{◌≡◌, ◌≤◌, ◌<◌, ◌+◌, ◌*◌, ◌^◌};
ghost use Rattle.pfx_store_image.specs.declared.head.TheConstants.{SEGMENT_HEAD};

/// How long the parts of a store's file are, in bytes. Of the two checkpoint areas and of the two segments `true` names the second.
#[derive(Clone, Copy)]
pub struct Sizes {
    /// The header.
    pub head: usize,
    /// A checkpoint area behind its gate.
    pub body: usize,
    /// A segment. It begins with a gate, a number of eight bytes and the gate of a frame.
    pub segment: usize,
    ghost room: { SEGMENT_HEAD < segment },
    ghost short: { head + 2 * (1 + body) + 2 * segment < 2 ^ 62 },
}

impl Sizes {
    ghost use Rattle.pfx_store_file.specs.Sizes.{IsAreaAt, IsSegmentAt, total_len};

    /// The file's length.
    pub fn file_len(&self) -> usize
        ensures { result ≡ total_len self.now }
    {
        self.head + 2 * (1 + self.body) + 2 * self.segment
    }

    /// Where a checkpoint area stands.
    pub fn area_at(&self, b: bool) -> usize
        ensures { IsAreaAt self.now b result }
    {
        if b {
            self.head + 1 + self.body
        } else {
            self.head
        }
    }

    /// Where a segment stands.
    pub fn segment_at(&self, b: bool) -> usize
        ensures { IsSegmentAt self.now b result }
    {
        let first = self.head + 2 * (1 + self.body);
        if b { first + self.segment } else { first }
    }
}
