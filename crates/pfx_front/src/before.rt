//! How often the disk had failed when a front began.
ghost use Rattle.std.specs.Prelude.{◌≡◌, ◌⊎◌, ◌<◌, IsTrue, Some};
ghost use Rattle.pfx_disk.specs.Disk.{IsSpent};
ghost use Rattle.pfx_fault.specs.declared.fields.Cause.TheVariants.{Device};

use pfx_disk::Disk;
use pfx_disk_chronicle::name::Charted;
use pfx_fault::Cause;
use std::marker::{Model, PhantomData};

/// The greatest clock and the greatest count of failures that a disk has.
const LIMIT: u64 = (1 << 63) - 1;

/// How often the disk had failed. Contracts see the number, which is the name's.
#[derive(Drop)]
pub struct Before<B: Charted> {
    failures: u64,
    of: PhantomData<B>,
}

impl<B: Charted> Model for Before<B> {
    ghost use Rattle.std.specs.Prelude.{◌≡◌, ℕ};

    ghost Value = { ℕ };

    ghost view = { λ b. b.failures };

    ghost invariant = { λ b. b.failures ≡ B.failures };
}

impl<B: Charted> Before<B> {
    /// What the disk counts now.
    pub(crate) fn of<D: Disk>(disk: &D) -> Before<B>
        requires { (D.view disk.now).failures ≡ B.failures }
    {
        Before {
            failures: disk.failures(),
            of: PhantomData,
        }
    }

    /// Whether the disk has failed since, if it is for the device that the flusher gave up.
    pub fn backs<D: Disk>(&self, failure: Option<Cause>, disk: &D) -> bool
        ensures { IsTrue result → failure ≡ Some Device → (B.failures < (D.view disk.now).failures) ⊎ IsSpent (D.view disk.now) }
    {
        match failure {
            Some(Cause::Device) => {
                self.failures < disk.failures() || disk.clock() == LIMIT || disk.failures() == LIMIT
            }
            _ => true,
        }
    }
}
