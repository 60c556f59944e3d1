// A log on its disk.
ghost use Rattle.std.specs.Prelude.{◌≡◌, ◌<◌, length};
ghost use Rattle.pfx_disk.specs.Disk.{IsHonest};

use crate::place::LogPlace;
use pfx_disk::Disk;

/// A log on its disk: where it ends, and whether the disk has failed.
#[derive(Drop)]
pub struct LogFile<D: Disk> {
    /// The disk.
    pub disk: D,
    /// Where the next block's gate stands, closed; the number of the last command, and the last head.
    pub place: LogPlace,
    /// Whether a call of the disk has failed: then nothing is known of the gate, and no call is made any more.
    pub broken: bool,
    ghost inside: { IsHonest (D.view disk) → place.at < length (D.view disk).contents },
}

impl<D: Disk> LogFile<D> {
    /// The disk.
    pub fn into_disk(self) -> D
        ensures { result ≡ self.disk }
    {
        self.disk
    }
}
