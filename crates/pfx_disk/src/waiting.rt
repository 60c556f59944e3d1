// A disk one of whose calls waits, for tests of the layers above.
ghost use Rattle.std.specs.Prelude.{◌≡◌, IfOk};

use crate::device::{DeviceFailed, Disk, LIMIT};
use std::alloc::{AllocError, Global};
use std::sync::{Arc, Wait};
use std::thread::Parker;

/// Passes its calls on. Its k-th call, counted from 0, waits until it is released, and is made then.
///
/// Whoever calls it may wait for ever: no contract says that a latch is released.
#[derive(Drop)]
pub struct LatchDisk<D, R> {
    disk: D,
    rt: R,
    // How many calls come before the one that waits; none is left once it has waited.
    before: Option<u64>,
    released: Arc<Parker, Global>,
}

/// Releases the call of its disk that waits.
#[derive(Drop)]
pub struct Latch {
    released: Arc<Parker, Global>,
}

impl Latch {
    /// Lets the call go on, or lets it pass when it comes. A second release changes nothing.
    pub fn release(&self) {
        self.released.unpark();
    }
}

impl<D, R> LatchDisk<D, R> {
    ghost use Rattle.pfx_disk.specs.Waiting.{disk_behind};

    /// The disk that the calls were passed on to.
    pub fn into_inner(self) -> D
    where
        R: Drop,
        ensures { result ≡ disk_behind self }
    {
        self.disk
    }
}

impl<D: Drop, R: Wait + Drop> LatchDisk<D, R> {
    ghost use Rattle.pfx_disk.specs.Waiting.{disk_behind, calls_before_latch};

    /// A disk whose k-th call waits, and its latch. If an allocation fails, the disk is dropped.
    pub fn new(
        rt: R,
        alloc: Global,
        disk: D,
        k: u64,
    ) -> Result<(LatchDisk<D, R>, Latch), AllocError>
        ensures disk { IfOk result (λ both. disk_behind both.0 ≡ disk) }
        ensures calls { IfOk result (λ both. calls_before_latch both.0 ≡ Some k) }
    {
        let released = Arc::new(alloc, Parker::new())?;
        let latch = Latch {
            released: Arc::try_clone(&released)?,
        };
        let held = LatchDisk {
            disk,
            rt,
            before: Some(k),
            released,
        };
        Ok((held, latch))
    }
}

impl<D: Disk, R: Wait> LatchDisk<D, R> {
    ghost use Rattle.std.specs.Prelude.{◌<◌, ◌-◌, ◌^◌, false, IsTrue};
    ghost use Rattle.pfx_disk.specs.Disk.{IsLive, IsSpent};
    ghost use Rattle.pfx_disk.specs.Fault.{one_fewer};
    ghost use Rattle.pfx_disk.specs.Waiting.{disk_behind, calls_before_latch};

    // Whether a call can be made.
    fn is_live(&self) -> bool
        ensures live { IsTrue result → IsLive (D.view (disk_behind self.now)) }
        ensures spent { result ≡ false → IsSpent (D.view (disk_behind self.now)) }
        ensures limit { (D.view (disk_behind self.now)).clock < 2 ^ 63 }
        ensures failures_limit { (D.view (disk_behind self.now)).failures < 2 ^ 63 }
    {
        let clock = self.disk.clock();
        let failures = self.disk.failures();
        clock < LIMIT && failures < LIMIT
    }

    // Counts a call, and waits if it is the one that waits.
    fn pass(&mut self)
        ensures disk { disk_behind self.new ≡ disk_behind self.old }
        ensures calls { calls_before_latch self.new ≡ one_fewer (calls_before_latch self.old) }
    {
        match self.before {
            Some(0) => {
                self.before = None;
                self.released.park(&self.rt);
            }
            Some(k) => self.before = Some(k - 1),
            None => {}
        }
    }
}

impl<D: Disk, R: Wait> Disk for LatchDisk<D, R> {
    ghost use Rattle.pfx_disk.specs.Waiting.{held_view};

    ghost view = { held_view D.view };

    ghost only_now = { λ m image left. D.only_now m.disk image left };

    fn clock(&self) -> u64 {
        self.disk.clock()
    }

    fn failures(&self) -> u64 {
        self.disk.failures()
    }

    #[tactic(auto, using(crate::proofs::Failing::spent_steps))]
    fn len(&mut self) -> Result<usize, DeviceFailed> {
        if !self.is_live() {
            return Err(DeviceFailed);
        }
        self.pass();
        self.disk.len()
    }

    #[tactic(auto, using(crate::proofs::Failing::spent_steps))]
    fn read(&mut self, at: usize, out: &mut [u8]) -> Result<(), DeviceFailed> {
        if !self.is_live() {
            return Err(DeviceFailed);
        }
        self.pass();
        self.disk.read(at, out)
    }

    #[tactic(auto, using(crate::proofs::Failing::spent_steps))]
    fn look_at(&mut self, at: usize) -> Result<(), DeviceFailed> {
        if !self.is_live() {
            return Err(DeviceFailed);
        }
        self.pass();
        self.disk.look_at(at)
    }

    #[tactic(auto, using(crate::proofs::Failing::spent_steps))]
    fn write_at(&mut self, at: usize, bytes: &[u8]) -> Result<(), DeviceFailed> {
        if !self.is_live() {
            return Err(DeviceFailed);
        }
        self.pass();
        self.disk.write_at(at, bytes)
    }

    #[tactic(auto, using(crate::proofs::Failing::spent_steps))]
    fn sync(&mut self) -> Result<(), DeviceFailed> {
        if !self.is_live() {
            return Err(DeviceFailed);
        }
        self.pass();
        self.disk.sync()
    }
}
