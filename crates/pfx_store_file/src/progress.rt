// How far a checkpoint is.
ghost use Rattle.std.specs.Prelude.{◌≡◌};

/// How far the checkpoint in progress is. It writes the state at the last turn into the checkpoint area that isn't in use.
#[derive(Clone, Copy, Debug, PartialEq, Eq)]
pub enum Checkpoint {
    /// None is in progress: one segment is read.
    Ended,
    /// It is still to be begun: that area isn't closed for it.
    Pending,
    /// That area was closed for it, and so many bytes of it have been written behind the area's gate.
    Writing { done: usize },
}

impl Checkpoint {
    ghost use Rattle.pfx_store_file.specs.Checkpoints.{in_progress};

    /// Whether there is one in progress.
    pub fn in_progress(&self) -> bool
        ensures { result ≡ in_progress self.now }
    {
        !matches!(self, Checkpoint::Ended)
    }
}
