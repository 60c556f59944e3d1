//! The disk that notes its calls.
ghost use Rattle.std.specs.Prelude.{◌≡◌, ◌≤◌, ◌<◌, ◌+◌, ◌-◌, ◌^◌, ◌++◌, ◌∷◌, [], List, ℕ, length, take, false, IsTrue, OnOk};
ghost use Rattle.pfx_disk.specs.Disk.{IsHonest, IsLive, IsSpent, Leaves, Same, Only};
ghost use Rattle.pfx_disk.specs.Stop.{Left};
ghost use Rattle.pfx_disk_chronicle.specs.Chart.{acts_of, noted_view, GoesAlong};

use crate::list::{CallsEnd, Moment, UnnamedCalls};
use crate::made::{NotesLook, NotesSync, NotesWrite};
use crate::name::Charted;
use pfx_disk::{DeviceFailed, Disk};
use std::marker::Model;

/// The greatest clock and the greatest count of failures.
const LIMIT: u64 = (1 << 63) - 1;

/// A disk that tells which calls were made.
pub trait Logged<B: Charted>: Disk {
    ghost use Rattle.pfx_disk.specs.Disk.{View, IsHonest};

    /// The calls that were made. What a stop may leave after the first so many of them, it may have left since any clock up to then.
    fn moment(&self) -> Moment<B>
        ensures images { B.held → (image : List ℕ) → Left B.image (acts_of result) image → (Self.view self.now).now image }
        ensures since { B.held → (c k : ℕ) → c ≤ B.clock + k → k ≤ length result
            → (image : List ℕ) → Left B.image (take k (acts_of result)) image → (Self.view self.now).since c image }
        ensures clock { B.clock + length result ≤ (Self.view self.now).clock };

    /// A law: it is honest, if it held what it is said to have held.
    ghost sure: { (disk : Self) → B.held → IsHonest (Self.view disk) };
}

/// Passes its writes, syncs and looks on to a disk, and notes them. After a call that failed none is made any more. What is on the
/// disk is read before the first call or after the last: a read that gives bytes fails, and so do the question for the length and a write
/// past the end.
#[derive(Drop)]
pub struct Chronicle<D: Disk, B: Charted> {
    disk: D,
    end: CallsEnd<B>,
    past: Moment<B>,
    // How far writes may go: no further than the bytes that were there.
    extent: usize,
    // Calls of the disk that weren't noted: the one that failed, if it wasn't a write.
    late: u64,
    failed: bool,
}

impl<D: Disk, B: Charted> Model for Chronicle<D, B> {
    ghost use Rattle.std.specs.Prelude.{◌≤◌, length};
    ghost use Rattle.pfx_disk_chronicle.specs.Chart.{Noted, GoesAlong};

    ghost Value = { Noted D };

    ghost view = { λ c. record { disk = c.disk; made = c.past; late = c.late; failed = c.failed } };

    ghost invariant = { λ c. (B.held → c.extent ≤ length B.image)
        × GoesAlong B.held B.image B.clock B.failures c.past c.late c.failed (D.view c.disk) };
}

impl<D: Disk, B: Charted> Chronicle<D, B> {
    /// A disk on which no call is noted yet, and whose writes may go as far as this: one that goes further fails.
    pub fn new(disk: D, list: UnnamedCalls, extent: usize) -> Chronicle<D, B>
        requires list { list.seen.book ≡ B.calls }
        requires clock { (D.view disk).clock ≡ B.clock }
        requires failures { (D.view disk).failures ≡ B.failures }
        requires held { IsHonest (D.view disk) → B.held × ((D.view disk).contents ≡ B.image) × Only B.image (D.view disk) }
        requires inside { B.held → extent ≤ length B.image }
        ensures { result ≡ record { disk = disk; made = []; late = 0; failed = false } }
    {
        let (end, past) = list.named::<B>(disk.clock());
        Chronicle {
            disk,
            end,
            past,
            extent,
            late: 0,
            failed: false,
        }
    }

    /// The disk that the calls were passed on to. As far as it is honest, it has done what they tell.
    pub fn into_inner(self) -> D
        ensures disk { result ≡ self.disk }
        ensures along { GoesAlong B.held B.image B.clock B.failures self.made self.late self.failed (D.view result) }
    {
        self.disk
    }

    /// Whether a call has failed.
    pub fn has_failed(&self) -> bool
        ensures { result ≡ self.now.failed }
    {
        self.failed
    }

    // Whether so many bytes at this place lie inside of what was there.
    fn is_inside(&self, at: usize, n: usize) -> bool
        ensures { IsTrue result → B.held → at + n ≤ length B.image }
    {
        at <= self.extent && n <= self.extent - at
    }

    // How often the disk is said to have failed.
    fn failure_count(&self) -> u64
        ensures value { result ≡ (noted_view B.held B.image B.clock B.failures self.now).failures }
        ensures limit { result < 2 ^ 63 }
    {
        if self.failed {
            return LIMIT;
        }
        self.disk.failures()
    }

    // Whether a call can be made.
    fn is_live(&self) -> bool
        ensures live { IsTrue result → IsLive (D.view self.now.disk) × (self.now.failed ≡ false) × (self.now.late ≡ 0) }
        ensures noted { IsTrue result → IsLive (noted_view B.held B.image B.clock B.failures self.now) }
        ensures spent { result ≡ false → IsSpent (noted_view B.held B.image B.clock B.failures self.now) }
        ensures clock { (noted_view B.held B.image B.clock B.failures self.now).clock < 2 ^ 63 }
        ensures failures { (noted_view B.held B.image B.clock B.failures self.now).failures < 2 ^ 63 }
    {
        let clock = self.disk.clock();
        let failures = self.failure_count();
        clock < LIMIT && failures < LIMIT
    }

    // A call that isn't passed on. If one can be made, the disk is asked for its length, so that both clocks go on.
    fn refuse(&mut self) -> DeviceFailed
        ensures limit { IsSpent (noted_view B.held B.image B.clock B.failures self.old) → self.new ≡ self.old }
        ensures tick { IsLive (noted_view B.held B.image B.clock B.failures self.old)
            → (noted_view B.held B.image B.clock B.failures self.new).clock ≡ (noted_view B.held B.image B.clock B.failures self.old).clock + 1 }
        ensures rise { IsLive (noted_view B.held B.image B.clock B.failures self.old)
            → (noted_view B.held B.image B.clock B.failures self.new).failures ≡ 2 ^ 63 - 1 }
        ensures clock_limit { (noted_view B.held B.image B.clock B.failures self.old).clock < 2 ^ 63 }
        ensures failures_limit { (noted_view B.held B.image B.clock B.failures self.old).failures < 2 ^ 63 }
        ensures leaves { B.held
            → Leaves Same (noted_view B.held B.image B.clock B.failures self.old) (noted_view B.held B.image B.clock B.failures self.new) }
    {
        if self.is_live() {
            let _ = self.disk.len();
            self.late = 1;
            self.failed = true;
        }
        DeviceFailed
    }
}

impl<D: Disk, B: Charted> Disk for Chronicle<D, B> {
    ghost use Rattle.pfx_disk_chronicle.specs.Chart.{noted_view, last_only};

    ghost view = { noted_view B.held B.image B.clock B.failures };

    ghost only_now = { λ d image left. last_only B.held B.image B.clock B.failures d.made d.late d.failed image left };

    #[tactic(auto, using(crate::proofs::Charts::chart_steps))]
    fn clock(&self) -> u64 {
        self.disk.clock()
    }

    fn failures(&self) -> u64 {
        self.failure_count()
    }

    #[tactic(auto, using(crate::proofs::Charts::chart_steps))]
    fn len(&mut self) -> Result<usize, DeviceFailed> {
        Err(self.refuse())
    }

    #[tactic(auto, using(crate::proofs::Charts::chart_steps))]
    fn read(&mut self, at: usize, out: &mut [u8]) -> Result<(), DeviceFailed> {
        Err(self.refuse())
    }

    #[tactic(auto, using(crate::proofs::Charts::chart_steps))]
    fn look_at(&mut self, at: usize) -> Result<(), DeviceFailed> {
        if !self.is_live() {
            return Err(self.refuse());
        }
        if let Err(failed) = self.disk.look_at(at) {
            self.late = 1;
            self.failed = true;
            return Err(failed);
        }
        let mut past = self.past.again();
        if !self.end.extend::<(), NotesLook>(&mut past, &()) {
            self.late = 1;
            self.failed = true;
            return Err(DeviceFailed);
        }
        self.past = past;
        Ok(())
    }

    #[tactic(auto, using(crate::proofs::Charts::chart_steps))]
    fn write_at(&mut self, at: usize, bytes: &[u8]) -> Result<(), DeviceFailed> {
        if !self.is_live() {
            return Err(self.refuse());
        }
        if !self.is_inside(at, bytes.len()) {
            return Err(self.refuse());
        }
        let mut past = self.past.again();
        if !self
            .end
            .extend::<(usize, &[u8]), NotesWrite>(&mut past, &(at, bytes))
        {
            return Err(self.refuse());
        }
        self.past = past;
        match self.disk.write_at(at, bytes) {
            Ok(()) => Ok(()),
            Err(failed) => {
                self.failed = true;
                Err(failed)
            }
        }
    }

    #[tactic(auto, using(crate::proofs::Charts::chart_steps))]
    fn sync(&mut self) -> Result<(), DeviceFailed> {
        if !self.is_live() {
            return Err(self.refuse());
        }
        if let Err(failed) = self.disk.sync() {
            self.late = 1;
            self.failed = true;
            return Err(failed);
        }
        let mut past = self.past.again();
        if !self.end.extend::<(), NotesSync>(&mut past, &()) {
            self.late = 1;
            self.failed = true;
            return Err(DeviceFailed);
        }
        self.past = past;
        Ok(())
    }
}

impl<D: Disk, B: Charted> Logged<B> for Chronicle<D, B> {
    ghost use Rattle.pfx_disk_chronicle.specs.Chart.{noted_view, charted_honest};

    ghost sure = { λ d held. charted_honest B.held B.image B.clock B.failures d.made d.late d.failed held };

    fn moment(&self) -> Moment<B> {
        self.past.again()
    }
}
