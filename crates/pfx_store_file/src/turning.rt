// Going on in the other segment.
ghost use Rattle.std.specs.Prelude.{◌≡◌, ◌<◌, ◌+◌, ◌↔◌, ℕ, List, length, false, OnOk, IsTrue};
ghost use Rattle.pfx_disk.specs.Disk.{IsHonest};
ghost use Rattle.pfx_store_image.specs.Codec.{Codec, Laws};
ghost use Rattle.pfx_store_image.specs.Store.{Parts, turned_at};
ghost use Rattle.pfx_store_file.specs.Acts.{turn_acts, turned_file};
ghost use Rattle.pfx_store_file.specs.Files.{File, AreOf};
ghost use Rattle.pfx_store_file.specs.Fitting.{IsTurnable};
ghost use Rattle.pfx_store_file.specs.Holding.{Holds, IsStart};
ghost use Rattle.pfx_store_file.specs.Tending.{IsTurned};
ghost use Rattle.pfx_store_file.specs.Working.{IsCall, Keeps, Makes, MovesTo};

use crate::faults::StoreFault;
use crate::file::StoreFile;
use crate::progress::Checkpoint;
use pfx_disk::Disk;
use pfx_segment::prepare;
use pfx_store_image::SEGMENT_HEAD;

impl<D: Disk> StoreFile<D> {
    /// Whether a turn is lawful: no checkpoint is in progress, and the segment that frames go to has one.
    pub fn can_turn<H, S>(&self) -> bool
        ensures places { IsTrue result ↔ IsTurnable self.now.places }
        ensures parts { (K : Codec H S) → Laws K → (h : H) → (p : Parts S) → (s : S) → (spelling : List ℕ)
            → Holds K h self.now.places p s spelling (D.view self.now.disk)
            → IsTrue result ↔ (p.turned ≡ false) × (0 < length p.frames) }
    {
        !self.places.checkpoint.in_progress()
            && self.places.end + SEGMENT_HEAD < self.places.gate + self.places.sizes.segment
    }

    /// Goes on in the other segment, by six calls of the disk: that segment's gate is closed, if it stands open, or else
    /// read; then a sync; what stands behind the gate and a sync; the gate and a sync. Those bytes are the number of the
    /// next frame's first command and that frame's closed gate. If the file is broken, nothing is done.
    ///
    /// A turn is lawful, and there are nine such bytes. It is a call of the file, of six calls of the disk. After success
    /// the file is turned, and the store holds so, with a checkpoint of this state in progress; at every moment what
    /// survived before survives. The calls of the disk are those of a turn, and the places are those of the file after it.
    pub fn turn<H, S>(&mut self, start: &[u8]) -> Result<(), StoreFault>
        requires lawful { IsTurnable self.old.places }
        requires nine { length start.now ≡ SEGMENT_HEAD }
        ensures call { IsCall self.old self.new result 6 }
        ensures place { MovesTo result self.old.places self.new.places (IsTurned self.new.places) }
        // The store goes on in the other segment, with a checkpoint of this state in progress.
        ensures keeps { (K : Codec H S) → Laws K → (h : H) → (p : Parts S) → (s : S) → (spelling : List ℕ)
            → Holds K h self.old.places p s spelling (D.view self.old.disk)
            → IsStart K (K.number s + 1) start.now → (next : List ℕ)
            → Keeps self.old self.new result K h (turned_at p s) s next }
        ensures acts { (K : Codec H S) → (f : File H S) → AreOf K f self.old.places → IsHonest (D.view self.old.disk)
            → Makes self.old self.new result (turn_acts K f start.now) }
        ensures file { (K : Codec H S) → (f : File H S) → AreOf K f self.old.places → (s : S)
            → OnOk result (AreOf K (turned_file K f s) self.new.places) }
    {
        if self.broken {
            return Err(StoreFault::Broken);
        }
        let at = self.places.sizes.segment_at(!self.places.segment);
        self.broken = true;
        prepare(&mut self.disk, at, self.places.segment_open, start)?;
        let mut places = self.places;
        places.segment = !places.segment;
        places.checkpoint = Checkpoint::Pending;
        places.gate = at + SEGMENT_HEAD;
        places.end = at + places.sizes.segment;
        self.places = places;
        self.broken = false;
        Ok(())
    }
}
