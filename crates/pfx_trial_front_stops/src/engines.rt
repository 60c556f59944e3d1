//! Disks and engines over stores on one thread, as the runs and their stops see them. They know no more of them, so that each is
//! proved over any.

use crate::folds::{SEGMENT, is_state, thirds};
use pfx_disk::{Disk, Fate, MemoryDisk};
use pfx_kinds::any::AnyJob;
use pfx_machine::Command;
use pfx_replay::PlainState;
use pfx_store::Store;
use pfx_store_engine::{DurableEngine, EngineFault, StoreEngine};
use pfx_store_file::StoreFault;
use std::alloc::Global;

/// The engine over a store in memory.
pub type MemoryEngine = StoreEngine<MemoryDisk, AnyJob>;

/// A disk that may be stopped.
pub trait Stopped: Drop {
    /// How many calls were made of it.
    fn calls(&self) -> u64;

    /// The disk that a stop after so many calls leaves. `None` if there weren't so many.
    fn left(&self, alloc: Global, calls: u64, fates: &[Fate]) -> Option<Self>;

    /// The bytes that it holds.
    fn bytes(self, alloc: Global) -> Option<Vec<u8>>;
}

impl Stopped for MemoryDisk {
    fn calls(&self) -> u64 {
        self.clock()
    }

    fn left(&self, alloc: Global, calls: u64, fates: &[Fate]) -> Option<MemoryDisk> {
        if self.clock() < calls {
            return None;
        }
        self.stopped(alloc, calls as usize, fates).ok()
    }

    fn bytes(self, alloc: Global) -> Option<Vec<u8>> {
        let mut disk = self;
        let n = disk.len().ok()?;
        let mut bytes = Vec::new(alloc);
        bytes.resize(n, 0).ok()?;
        disk.read(0, &mut bytes).ok()?;
        Some(bytes)
    }
}

/// An engine over a store on a disk.
pub trait Engine<D>: Drop {
    /// Over a new store of three tasks, with segments of the least length.
    fn begun(alloc: Global, disk: D) -> Option<Self>;

    /// Over the store that a disk holds.
    fn opened(alloc: Global, disk: D) -> Option<Self>;

    /// How many calls were made of its disk.
    fn calls(&self) -> u64;

    /// The number of its store's last command.
    fn number(&self) -> u64;

    /// Whether its store has this state.
    fn is_at(&self, state: &PlainState<AnyJob>) -> bool;

    /// Carries a command out, and answers the clock of its mark.
    fn carry_out(&mut self, alloc: Global, command: Command<AnyJob>) -> Result<u64, EngineFault>;

    /// Its disk.
    fn into_disk(self) -> D;

    /// Whether its store answers each call as broken, and makes none of its disk's, of which there are to be so many; and the disk.
    fn broken(self, calls: u64) -> (bool, D);
}

impl<D: Disk + Drop> Engine<D> for StoreEngine<D, AnyJob> {
    fn begun(alloc: Global, disk: D) -> Option<StoreEngine<D, AnyJob>> {
        let store = Store::init(alloc, disk, &thirds(alloc)?, SEGMENT).ok()?;
        DurableEngine::new(alloc, store).ok()
    }

    fn opened(alloc: Global, disk: D) -> Option<StoreEngine<D, AnyJob>> {
        DurableEngine::new(alloc, Store::open(alloc, disk).ok()?).ok()
    }

    fn calls(&self) -> u64 {
        self.keeper.disk().clock()
    }

    fn number(&self) -> u64 {
        self.keeper.state().number()
    }

    fn is_at(&self, state: &PlainState<AnyJob>) -> bool {
        is_state(self.keeper.state(), state)
    }

    fn carry_out(&mut self, alloc: Global, command: Command<AnyJob>) -> Result<u64, EngineFault> {
        match self.execute(alloc, command) {
            Ok((mark, _reply)) => Ok(mark.clock),
            Err(fault) => Err(fault),
        }
    }

    fn into_disk(self) -> D {
        self.into_keeper().into_disk()
    }

    fn broken(self, calls: u64) -> (bool, D) {
        let mut store = self.into_keeper();
        let tended = store.tend() == Err(StoreFault::Broken);
        let turned = store.turn() == Err(StoreFault::Broken);
        let same = store.is_broken() && store.disk().clock() == calls;
        (tended && turned && same, store.into_disk())
    }
}
