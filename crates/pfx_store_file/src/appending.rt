// Appending, whatever room is left.
ghost use Rattle.std.specs.Prelude.{◌≡◌, ◌<◌, ◌+◌, ◌∷◌, ◌↔◌, ℕ, List, length, Some, true, false, IfOk, OnOk, IsTrue};
ghost use Rattle.pfx_disk.specs.Disk.{IsHonest};
ghost use Rattle.pfx_disk.specs.declared.gates.TheConstants.{GATE_OPEN};
ghost use Rattle.pfx_store_image.specs.Codec.{Codec, Laws};
ghost use Rattle.pfx_store_image.specs.Store.{Parts, with_frame};
ghost use Rattle.pfx_segment.specs.Acts.{put_acts};
ghost use Rattle.pfx_store_file.specs.Acts.{append_acts, appended_file, gate_of, framed_file};
ghost use Rattle.pfx_store_file.specs.Files.{File, AreOf};
ghost use Rattle.pfx_store_file.specs.Fitting.{HasRoom};
ghost use Rattle.pfx_store_file.specs.Holding.{Holds, IsPending, IsStart};
ghost use Rattle.pfx_store_file.specs.Tending.{FindsRoom, MovesOn, append_calls, made_room};
ghost use Rattle.pfx_store_file.specs.Working.{Commits, IsAppend, IsCall, Makes, MovesTo};

use crate::faults::StoreFault;
use crate::file::StoreFile;
use pfx_disk::Disk;
use pfx_segment::put_behind;
use pfx_store_image::SEGMENT_HEAD;

impl<D: Disk> StoreFile<D> {
    /// Whether a frame of `n` bytes, its gate counted, has room in the segment that frames go to.
    pub fn has_room(&self, n: usize) -> bool
        ensures { IsTrue result ↔ HasRoom n self.now.places }
    {
        n < self.places.end - self.places.gate
    }

    // Puts a frame that has room behind the next frame's gate, in a file that isn't broken: what an append does.
    fn put_frame<H, S>(&mut self, frame: &[u8]) -> Result<(), StoreFault>
        requires whole { self.old.broken ≡ false }
        requires room { (0 < length frame.now) × HasRoom (length frame.now) self.old.places }
        ensures call { IsCall self.old self.new result 4 }
        ensures place { MovesTo result self.old.places self.new.places (MovesOn (length frame.now) self.old.places self.new.places) }
        // The store goes on with the frame.
        ensures commits { (K : Codec H S) → Laws K → (h : H) → (p : Parts S) → (s : S) → (spelling : List ℕ)
            → Holds K h self.old.places p s spelling (D.view self.old.disk)
            → (body : List ℕ) → (t : S) → IsPending frame.now body → K.apply s (GATE_OPEN ∷ body) ≡ Some t
            → Commits self.old self.new result K h (with_frame p (GATE_OPEN ∷ body)) s (GATE_OPEN ∷ body) t spelling }
        ensures acts { (K : Codec H S) → (f : File H S) → AreOf K f self.old.places → IsHonest (D.view self.old.disk)
            → Makes self.old self.new result (put_acts (gate_of K f) frame.now) }
        ensures file { (K : Codec H S) → (f : File H S) → AreOf K f self.old.places
            → (next : List ℕ) → length next ≡ length frame.now
            → OnOk result (AreOf K (framed_file K f next) self.new.places) }
    {
        self.broken = true;
        put_behind(&mut self.disk, self.places.gate, frame)?;
        self.places.gate += frame.len();
        self.broken = false;
        Ok(())
    }

    /// Appends a frame, by four calls of the disk: what stands behind its gate, with the next frame's closed gate as the
    /// last byte, and a sync; its gate and a sync. If it doesn't fit, or the file is broken, nothing is done.
    ///
    /// The frame has a byte at least. It is an append to the file, and moves the next frame's gate on. After success the
    /// store holds with the frame, and each image has it; at every moment what survived before survives, with the frame or
    /// without. The calls of the disk put the frame behind its gate, and the places are those of the file with it.
    pub fn append<H, S>(&mut self, frame: &[u8]) -> Result<(), StoreFault>
        requires some { 0 < length frame.now }
        ensures call { IsAppend self.old self.new result (length frame.now) }
        ensures place { MovesTo result self.old.places self.new.places (MovesOn (length frame.now) self.old.places self.new.places) }
        // The store goes on with the frame.
        ensures commits { (K : Codec H S) → Laws K → (h : H) → (p : Parts S) → (s : S) → (spelling : List ℕ)
            → Holds K h self.old.places p s spelling (D.view self.old.disk)
            → (body : List ℕ) → (t : S) → IsPending frame.now body → K.apply s (GATE_OPEN ∷ body) ≡ Some t
            → Commits self.old self.new result K h (with_frame p (GATE_OPEN ∷ body)) s (GATE_OPEN ∷ body) t spelling }
        ensures acts { (K : Codec H S) → (f : File H S) → AreOf K f self.old.places → IsHonest (D.view self.old.disk)
            → Makes self.old self.new result (put_acts (gate_of K f) frame.now) }
        ensures file { (K : Codec H S) → (f : File H S) → AreOf K f self.old.places
            → (next : List ℕ) → length next ≡ length frame.now
            → OnOk result (AreOf K (framed_file K f next) self.new.places) }
    {
        if self.broken {
            return Err(StoreFault::Broken);
        }
        if !self.has_room(frame.len()) {
            return Err(StoreFault::NoRoom);
        }
        self.put_frame::<H, S>(frame)
    }

    /// Appends a frame. If it doesn't fit, the checkpoint in progress is ended first, if there is one, and the file turned: that it
    /// was turned is the answer. `spelling` is as for `tend`, `start` as for `turn`, `frame` as for `append`. If the file is broken,
    /// nothing is done.
    ///
    /// The frame has a byte at least, and fits into an empty segment; `start` has nine bytes, and the spelling is as long
    /// as a checkpoint area's body. It is a call of the file, of four calls of the disk, or of those that make room too. The places
    /// take the frame, and the answer is whether it had no room. After success the store holds with it, and each image has it; at every moment what survived before
    /// survives, with the frame or without. The calls of the disk are those that make room, if there is none, and those of
    /// an append; and the places are those of the file after them.
    pub fn append_or_turn<H, S>(
        &mut self,
        spelling: &[u8],
        start: &[u8],
        frame: &[u8],
    ) -> Result<bool, StoreFault>
        requires frame { (0 < length frame.now) × (length frame.now + SEGMENT_HEAD < self.old.places.sizes.segment) }
        requires nine { length start.now ≡ SEGMENT_HEAD }
        requires long { length spelling.now ≡ self.old.places.sizes.body }
        ensures call { IsCall self.old self.new result (append_calls (length frame.now) self.old.places) }
        ensures place { IfOk result (λ turned. FindsRoom turned (length frame.now) self.old.places self.new.places) }
        // The store goes on with the frame.
        ensures commits { (K : Codec H S) → Laws K → (h : H) → (p : Parts S) → (s : S)
            → Holds K h self.old.places p s spelling.now (D.view self.old.disk)
            → (p.turned ≡ true → K.read_state h spelling.now ≡ Some p.middle)
            → IsStart K (K.number s + 1) start.now
            → (body : List ℕ) → (t : S) → IsPending frame.now body → K.apply s (GATE_OPEN ∷ body) ≡ Some t
            → Commits self.old self.new result K h (with_frame (made_room (length frame.now) self.old.places p s) (GATE_OPEN ∷ body))
            s (GATE_OPEN ∷ body) t spelling.now }
        ensures acts { (K : Codec H S) → (f : File H S) → (s : S) → AreOf K f self.old.places → IsHonest (D.view self.old.disk)
            → Makes self.old self.new result (append_acts K f s spelling.now start.now frame.now) }
        ensures file { (K : Codec H S) → (f : File H S) → (s : S) → AreOf K f self.old.places → IsHonest (D.view self.old.disk)
            → (next : List ℕ) → length next ≡ length frame.now
            → OnOk result (AreOf K (appended_file K f s frame.now next) self.new.places) }
    {
        if self.broken {
            return Err(StoreFault::Broken);
        }
        if self.has_room(frame.len()) {
            self.put_frame::<H, S>(frame)?;
            return Ok(false);
        }
        self.end_checkpoint::<H, S>(spelling)?;
        self.turn::<H, S>(start)?;
        self.put_frame::<H, S>(frame)?;
        Ok(true)
    }
}
