// The header of a file of version 1.
ghost use Rattle.std.specs.Prelude.{◌≡◌};

use pfx_weights::TaskSet;
use std::marker::Model;

/// The header of a file of version 1: a task set, and how many bytes a segment has.
#[derive(Drop)]
pub struct OldHeader {
    pub(crate) set: TaskSet,
    pub(crate) segment: u32,
}

impl Model for OldHeader {
    ghost use Rattle.pfx_store_header.specs.Headers.{Header, IsHeader};

    ghost Value = { Header };

    ghost view = { λ h. record { set = h.set; segment = h.segment } };

    ghost invariant = { λ h. IsHeader (record { set = h.set; segment = h.segment }) };
}

impl OldHeader {
    ghost use Rattle.pfx_store_header.specs.Headers.{IsHeader};

    /// The task set.
    pub fn set(&self) -> &TaskSet
        ensures set { result.now ≡ self.now.set }
        ensures header { IsHeader self.now }
    {
        &self.set
    }

    /// How many bytes a segment has.
    pub fn segment(&self) -> u32
        ensures { result ≡ self.now.segment }
    {
        self.segment
    }
}
