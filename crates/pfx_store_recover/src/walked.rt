// The frames that were read of a segment.
ghost use Rattle.std.specs.Prelude.{◌≤◌, length};

/// The frames of a segment that were read.
#[derive(Drop)]
pub(crate) struct Walked {
    /// The frames, each with its gate, one behind the other, and what else was read behind them.
    pub bytes: Vec<u8>,
    /// How many bytes the frames take.
    pub len: usize,
    /// The number of the last command in them, or before them, if there are none.
    pub last: u64,
    /// The closed gate behind them.
    pub gate: usize,
    ghost inside: { len ≤ length bytes.items },
}

impl Walked {
    ghost use Rattle.pfx_store_recover.specs.Looking.{IsFront};

    /// The frames, one behind the other.
    pub(crate) fn frames(&self) -> &[u8]
        ensures { IsFront self.now.len self.now.bytes.items result.now }
    {
        &self.bytes[..self.len]
    }
}
