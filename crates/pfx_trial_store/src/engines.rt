//! Engines over stores of three tasks of weight 2/3 on two workers.

use pfx_disk::{Disk, MemoryDisk};
use pfx_jobs::job::Job;
use pfx_kinds::any::AnyJob;
use pfx_kit::places::END;
use pfx_store::Store;
use pfx_store_engine::{DurableEngine, StoreEngine};
use pfx_weights::TaskSet;
use std::alloc::Global;

/// A store of these tests, behind a pointer: a proof spells what a function holds itself at each of its steps.
pub type Held<D> = Box<Store<D, AnyJob>>;

/// The engine over a store, behind one too.
pub type Driven<D> = Box<StoreEngine<D, AnyJob>>;

/// The engine over a store in memory, as it is lent.
pub type Engine = StoreEngine<MemoryDisk, AnyJob>;

/// An empty disk with room for the file of three tasks, and for so many calls.
pub fn empty(alloc: Global, calls: usize) -> Option<MemoryDisk> {
    MemoryDisk::new(alloc, &[], END, calls, 60_000).ok()
}

/// The new store on a disk, with segments of this length.
pub fn new_store<D: Disk + Drop>(alloc: Global, disk: D, segment: u32) -> Option<Held<D>> {
    let set = TaskSet::new(alloc, 2, &[(2, 3), (2, 3), (2, 3)]).ok()?;
    Box::new(alloc, Store::init(alloc, disk, &set, segment).ok()?).ok()
}

/// The store that a disk holds.
pub fn opened_store<D: Disk + Drop>(alloc: Global, disk: D) -> Option<Held<D>> {
    Box::new(alloc, Store::open(alloc, disk).ok()?).ok()
}

/// The engine over a store.
pub fn over<D: Disk + Drop>(alloc: Global, store: Held<D>) -> Option<Driven<D>> {
    let engine = DurableEngine::new(alloc, Box::into_inner(store)).ok()?;
    Box::new(alloc, engine).ok()
}

/// The engine over a new store with segments of 8,192 bytes.
pub fn begun<D: Disk + Drop>(alloc: Global, disk: D) -> Option<Driven<D>> {
    over(alloc, new_store(alloc, disk, 8192)?)
}

/// The engine over a new store on a disk in memory, with room for so many calls.
pub fn in_memory(alloc: Global, calls: usize) -> Option<Driven<MemoryDisk>> {
    begun(alloc, empty(alloc, calls)?)
}

/// The engine over the store that a disk holds.
pub fn opened<D: Disk + Drop>(alloc: Global, disk: D) -> Option<Driven<D>> {
    over(alloc, opened_store(alloc, disk)?)
}

/// The disk of a store.
pub fn disk_of_store<D: Disk + Drop, J: Job>(store: Box<Store<D, J>>) -> D {
    Box::into_inner(store).into_disk()
}

/// The store of an engine.
pub fn store_of_engine<D: Disk + Drop>(alloc: Global, engine: Driven<D>) -> Option<Held<D>> {
    Box::new(alloc, Box::into_inner(engine).into_keeper()).ok()
}

/// The disk of an engine's store.
pub fn disk_of_engine<D: Disk + Drop>(engine: Driven<D>) -> D {
    Box::into_inner(engine).into_keeper().into_disk()
}

/// The number of the last command of the engine over the store that a disk holds.
pub fn last_of(alloc: Global, disk: MemoryDisk) -> Option<u64> {
    opened(alloc, disk)?.last_kept().ok()
}
