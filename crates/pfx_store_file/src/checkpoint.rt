// The checkpoint in progress, step by step.
ghost use Rattle.std.specs.Prelude.{◌≡◌, ◌≤◌, ◌<◌, ◌+◌, ◌∷◌, [], ℕ, List, take, drop, length, Some, true, false, OnOk};
ghost use Rattle.pfx_disk.specs.Disk.{IsHonest};
ghost use Rattle.pfx_disk.specs.Stop.{Write};
ghost use Rattle.pfx_store_image.specs.Codec.{Codec, Laws};
ghost use Rattle.pfx_store_image.specs.Store.{Parts, Replays, finished};
ghost use Rattle.pfx_segment.specs.Acts.{close_acts, open_acts};
ghost use Rattle.pfx_store_file.specs.Acts.{closed_file, finished_file, tend_acts, tended_file, end_acts, ended_file};
ghost use Rattle.pfx_store_file.specs.Checkpoints.{in_progress, written};
ghost use Rattle.pfx_store_file.specs.Files.{File, AreOf, area_of};
ghost use Rattle.pfx_store_file.specs.Holding.{Holds, KeepsAll};
ghost use Rattle.pfx_store_file.specs.Tending.{next_step, calls_of, calls_left, settled, settled_unless};
ghost use Rattle.pfx_store_file.specs.Working.{Ends, IsCall, IsPiece, IsStep, Keeps, Makes, Tends};
ghost use Rattle.pfx_store_file.specs.declared.progress.Checkpoint.TheVariants.{Ended, Pending, Writing};

use crate::faults::StoreFault;
use crate::file::StoreFile;
use crate::progress::Checkpoint;
use pfx_disk::Disk;
use pfx_segment::{close, open_gate};

/// How many bytes of a checkpoint, or of a new file, a call of the disk writes at most.
pub const PIECE: usize = 4096;

/// What a step of a checkpoint has done.
#[derive(Clone, Copy, Debug, PartialEq, Eq)]
pub enum Tended {
    /// No checkpoint is in progress.
    Nothing,
    /// The gate of the checkpoint area that isn't in use is closed.
    Closed,
    /// A piece more stands behind it.
    Piece,
    /// The gate is open: the checkpoint area is in use, and the older segment is free.
    Finished,
}

impl<D: Disk> StoreFile<D> {
    // The first step: two calls.
    fn begin<H, S>(&mut self) -> Result<(), StoreFault>
        requires whole { self.old.broken ≡ false }
        requires pending { self.old.places.checkpoint ≡ Pending }
        ensures call { IsCall self.old self.new result 2 }
        ensures step { IsStep result self.old.places self.new.places (self.new.places.checkpoint ≡ Writing 0) }
        ensures holds { (K : Codec H S) → Laws K → (h : H) → (p : Parts S) → (s : S) → (code : List ℕ)
            → Holds K h self.old.places p s code (D.view self.old.disk)
            → (spelling : List ℕ) → K.read_state h spelling ≡ Some p.middle → length spelling ≡ (K.layout h).body
            → OnOk result (Holds K h self.new.places p s spelling (D.view self.new.disk)) }
        ensures keeps { (K : Codec H S) → Laws K → (h : H) → (p : Parts S) → (s : S) → (code : List ℕ)
            → Holds K h self.old.places p s code (D.view self.old.disk)
            → (start : S) → (all : List (List ℕ)) → Replays K start all s
            → KeepsAll K start all all (D.view self.old.disk) (D.view self.new.disk) }
        ensures acts { (K : Codec H S) → (f : File H S) → AreOf K f self.old.places → IsHonest (D.view self.old.disk)
            → Makes self.old self.new result (close_acts (area_of K f) f.area_open) }
        ensures file { (K : Codec H S) → (f : File H S) → AreOf K f self.old.places
            → OnOk result (AreOf K (closed_file K f) self.new.places) }
    {
        let at = self.places.sizes.area_at(!self.places.area);
        self.broken = true;
        close(&mut self.disk, at, self.places.area_open)?;
        self.places.area_open = false;
        self.places.checkpoint = Checkpoint::Writing { done: 0 };
        self.broken = false;
        Ok(())
    }

    // A middle step, of a checkpoint of which so many bytes are done: one call, for the next n bytes of the spelling.
    fn write_piece<H, S>(
        &mut self,
        spelling: &[u8],
        done: usize,
        n: usize,
    ) -> Result<(), StoreFault>
        requires whole { self.old.broken ≡ false }
        requires piece { IsPiece done n spelling.now self.old.places }
        ensures call { IsCall self.old self.new result 1 }
        ensures step { IsStep result self.old.places self.new.places (self.new.places.checkpoint ≡ Writing (done + n)) }
        ensures keeps { (K : Codec H S) → Laws K → (h : H) → (p : Parts S) → (s : S)
            → Holds K h self.old.places p s spelling.now (D.view self.old.disk)
            → Keeps self.old self.new result K h p s spelling.now }
        ensures acts { (K : Codec H S) → (f : File H S) → AreOf K f self.old.places → IsHonest (D.view self.old.disk)
            → Makes self.old self.new result
            (Write (area_of K f + 1 + written f.checkpoint) (take n (drop (written f.checkpoint) spelling.now)) ∷ []) }
        ensures file { (K : Codec H S) → (f : File H S) → AreOf K f self.old.places
            → OnOk result (AreOf K (record f { checkpoint = Writing (written f.checkpoint + n) }) self.new.places) }
    {
        let at = self.places.sizes.area_at(!self.places.area);
        self.broken = true;
        self.disk
            .write_at(at + 1 + done, &spelling[done..done + n])?;
        self.places.checkpoint = Checkpoint::Writing { done: done + n };
        self.broken = false;
        Ok(())
    }

    // The last step: three calls.
    fn finish<H, S>(&mut self) -> Result<(), StoreFault>
        requires whole { self.old.broken ≡ false }
        requires written { self.old.places.checkpoint ≡ Writing self.old.places.sizes.body }
        ensures call { IsCall self.old self.new result 3 }
        ensures step { IsStep result self.old.places self.new.places (self.new.places.checkpoint ≡ Ended) }
        ensures keeps { (K : Codec H S) → Laws K → (h : H) → (p : Parts S) → (s : S) → (spelling : List ℕ)
            → Holds K h self.old.places p s spelling (D.view self.old.disk)
            → Keeps self.old self.new result K h (finished p) s spelling }
        ensures acts { (K : Codec H S) → (f : File H S) → AreOf K f self.old.places → IsHonest (D.view self.old.disk)
            → Makes self.old self.new result (open_acts (area_of K f)) }
        ensures file { (K : Codec H S) → (f : File H S) → AreOf K f self.old.places
            → OnOk result (AreOf K (finished_file K f) self.new.places) }
    {
        let at = self.places.sizes.area_at(!self.places.area);
        self.broken = true;
        open_gate(&mut self.disk, at)?;
        self.places.area = !self.places.area;
        self.places.checkpoint = Checkpoint::Ended;
        self.places.area_open = true;
        self.places.segment_open = true;
        self.broken = false;
        Ok(())
    }

    /// Takes one step of the checkpoint in progress, if there is one. `spelling` is how the state at the turn is written
    /// after a checkpoint area's gate, the same for each step. If the file is broken, nothing is done.
    ///
    /// The spelling is as long as a checkpoint area's body. It is a call of the file, of as many calls of the disk as the next step
    /// takes. That step is taken, and frames go where they went. After success the store holds, with its checkpoint ended
    /// by the last step; at every moment what survived before survives. The calls of the disk are those of that step, and
    /// the places are those of the file after it.
    pub fn tend<H, S>(&mut self, spelling: &[u8]) -> Result<Tended, StoreFault>
        requires long { length spelling.now ≡ self.old.places.sizes.body }
        ensures call { IsCall self.old self.new result (calls_of (next_step self.old.places)) }
        ensures tends { Tends self.old self.new result }
        // The store goes on, and its checkpoint has ended with the last step.
        ensures keeps { (K : Codec H S) → Laws K → (h : H) → (p : Parts S) → (s : S)
            → Holds K h self.old.places p s spelling.now (D.view self.old.disk)
            → (p.turned ≡ true → K.read_state h spelling.now ≡ Some p.middle)
            → Keeps self.old self.new result K h (settled_unless (in_progress self.new.places.checkpoint) p) s spelling.now }
        ensures acts { (K : Codec H S) → (f : File H S) → AreOf K f self.old.places → IsHonest (D.view self.old.disk)
            → Makes self.old self.new result (tend_acts K f spelling.now) }
        ensures file { (K : Codec H S) → (f : File H S) → AreOf K f self.old.places
            → OnOk result (AreOf K (tended_file K f) self.new.places) }
    {
        if self.broken {
            return Err(StoreFault::Broken);
        }
        match self.places.checkpoint {
            Checkpoint::Ended => Ok(Tended::Nothing),
            Checkpoint::Pending => {
                self.begin::<H, S>()?;
                Ok(Tended::Closed)
            }
            Checkpoint::Writing { done } => {
                if done < self.places.sizes.body {
                    let left = self.places.sizes.body - done;
                    self.write_piece::<H, S>(
                        spelling,
                        done,
                        if left < PIECE { left } else { PIECE },
                    )?;
                    return Ok(Tended::Piece);
                }
                self.finish::<H, S>()?;
                Ok(Tended::Finished)
            }
        }
    }

    /// Takes all steps that are left of the checkpoint in progress, if there is one. `spelling` is as for `tend`.
    ///
    /// The spelling is as long as a checkpoint area's body. It is a call of the file, of as many calls of the disk as those steps
    /// take. After success no checkpoint is in progress; if none was, nothing is done, and frames go where they went. After
    /// success the store holds so; at every moment what survived before survives. The calls of the disk are those of all
    /// these steps, and the places are those of the file after them.
    pub fn end_checkpoint<H, S>(&mut self, spelling: &[u8]) -> Result<(), StoreFault>
        requires long { length spelling.now ≡ self.old.places.sizes.body }
        ensures call { IsCall self.old self.new result (calls_left self.old.places) }
        ensures ends { Ends self.old self.new result }
        // The store goes on, with no checkpoint in progress.
        ensures keeps { (K : Codec H S) → Laws K → (h : H) → (p : Parts S) → (s : S)
            → Holds K h self.old.places p s spelling.now (D.view self.old.disk)
            → (p.turned ≡ true → K.read_state h spelling.now ≡ Some p.middle)
            → Keeps self.old self.new result K h (settled p) s spelling.now }
        ensures acts { (K : Codec H S) → (f : File H S) → AreOf K f self.old.places → IsHonest (D.view self.old.disk)
            → Makes self.old self.new result (end_acts K f spelling.now) }
        ensures file { (K : Codec H S) → (f : File H S) → AreOf K f self.old.places → IsHonest (D.view self.old.disk)
            → OnOk result (AreOf K (ended_file K f) self.new.places) }
    {
        if self.broken {
            return Err(StoreFault::Broken);
        }
        if !self.places.checkpoint.in_progress() {
            return Ok(());
        }
        'steps: while self.places.checkpoint.in_progress() {
            let _tended = self.tend::<H, S>(spelling)?;
        }
        Ok(())
    }
}
