//! A store on one thread, each of whose calls of the disk fails in turn, and each call of whose opening does.

use crate::check::check_at;
use crate::courses::Course;
use crate::engines::{Engine, MemoryEngine, Stopped};
use crate::folds::{CALLS, COMMANDS, Fold, MADE, command, empty, folds};
use pfx_disk::{Disk, FaultDisk, MemoryDisk};
use pfx_fault::{Cause, Fault};
use pfx_kinds::any::AnyJob;
use pfx_machine::Command;
use pfx_store::Store;
use pfx_store_engine::{EngineFault, StoreEngine};
use pfx_store_recover::OpenFault;
use std::alloc::Global;

/// The engine over a store on a disk that fails.
type FaultEngine = StoreEngine<FaultDisk<MemoryDisk>, AnyJob>;

/// How many calls an opening of the disk after the run takes.
const OPENING: u64 = 9;

/// A disk whose call of this number fails, doing its work all the same or not.
fn failing(alloc: Global, call: u64, works: bool) -> Option<FaultDisk<MemoryDisk>> {
    let memory = empty(alloc)?;
    Some(match works {
        true => FaultDisk::with_work_done(memory, call),
        false => FaultDisk::new(memory, call),
    })
}

/// How many commands of the run are carried out, and why the next one isn't.
fn carried_out<D, E: Engine<D>>(
    alloc: Global,
    engine: &mut E,
) -> Option<(u64, Option<EngineFault>)> {
    for number in 1..COMMANDS + 1 {
        match engine.carry_out(alloc, command(alloc, number)?) {
            Ok(_) => {}
            Err(fault) => return Some((number - 1, Some(fault))),
        }
    }
    Some((COMMANDS, None))
}

/// Whether the disk opens to the state after so many commands, or after some more, which are so many at the most.
pub fn holds<D, E: Engine<D>>(
    alloc: Global,
    disk: D,
    done: u64,
    most: u64,
    folds: &[Fold],
) -> bool {
    let Some(engine) = E::opened(alloc, disk) else {
        return false;
    };
    let number = engine.number();
    match folds.get(number as usize) {
        Some(fold) => done <= number && number - done <= most && engine.is_at(&fold.state),
        None => false,
    }
}

/// How many commands are carried out on a disk that fails; whether the one under way is answered by what failed, and the next one
/// too, and the store is broken; and the disk. A store that is broken makes no call of its disk, so a disk that fails once and ever
/// after is answered as one that fails once.
fn ends<D, E: Engine<D>>(alloc: Global, disk: D) -> Option<(u64, bool, D)> {
    let mut engine = E::begun(alloc, disk)?;
    let (done, fault) = carried_out(alloc, &mut engine)?;
    let told = EngineFault::Failed(Fault::StoreFailed {
        marked: done,
        cause: Cause::Device,
    });
    let calls = engine.calls();
    let again = engine.carry_out(alloc, Command::Slot).err();
    let is_told = fault == Some(told) && again == Some(told);
    let (is_broken, left) = engine.broken(calls);
    Some((done, is_told && is_broken, left))
}

/// Whether a call that fails is answered so, and what was answered before is kept.
fn is_ended(alloc: Global, call: u64, works: bool, folds: &[Fold]) -> Option<bool> {
    let disk = failing(alloc, MADE.saturating_add(call), works)?;
    let (done, is_told, left) = ends::<FaultDisk<MemoryDisk>, FaultEngine>(alloc, disk)?;
    let is_kept = holds::<MemoryDisk, MemoryEngine>(alloc, left.into_inner(), done, 1, folds);
    Some(is_told && is_kept)
}

/// The disk after the run, if this one lets it through.
fn gone_through<D: Drop, E: Engine<D>>(alloc: Global, disk: D) -> Option<D> {
    let mut engine = E::begun(alloc, disk)?;
    if carried_out(alloc, &mut engine)? == (COMMANDS, None) {
        Some(engine.into_disk())
    } else {
        None
    }
}

/// The disk after the run, if the call that is to fail is this one and doesn't come.
fn run_disk(alloc: Global, call: u64) -> Option<MemoryDisk> {
    let disk = failing(alloc, call, false)?;
    let left = gone_through::<FaultDisk<MemoryDisk>, FaultEngine>(alloc, disk)?;
    Some(left.into_inner())
}

#[test]
fn each_call_fails_in_turn(rt: HostRuntime) {
    let alloc = rt.alloc();
    let folds = folds(alloc, Course::Reweighed).unwrap_or(Vec::new(alloc));
    let is_whole = run_disk(alloc, MADE.saturating_add(CALLS)).is_some();
    check_at(&rt, is_whole, "calls of the run", CALLS);
    for call in 0..CALLS {
        for works in [false, true] {
            let holds = is_ended(alloc, call, works, &folds) == Some(true);
            check_at(&rt, holds, "call", call);
        }
    }
}

/// Of an opening whose call of this number fails, whether it is answered by Device, and no other call is made after it; and the
/// disk. `None` if it opens.
fn refused(alloc: Global, disk: MemoryDisk, call: u64) -> Option<(bool, MemoryDisk)> {
    match Store::<FaultDisk<MemoryDisk>, AnyJob>::open(alloc, FaultDisk::new(disk, call)) {
        Ok(_store) => None,
        Err((fault, left)) => {
            let is_last = left.clock() == call.saturating_add(1);
            Some((fault == OpenFault::Device && is_last, left.into_inner()))
        }
    }
}

/// How many calls an opening of the disk takes; `None` if one fails and isn't answered by Device, or another call is made
/// after it, or the disk doesn't open then.
fn opening_calls(alloc: Global, disk: &MemoryDisk, folds: &[Fold]) -> Option<u64> {
    for call in 0..1000 {
        let copy = disk.left(alloc, disk.calls(), &[])?;
        match refused(alloc, copy, call) {
            None => return Some(call),
            Some((is_told, left)) => {
                if !is_told || !holds::<MemoryDisk, MemoryEngine>(alloc, left, COMMANDS, 1, folds) {
                    return None;
                }
            }
        }
    }
    None
}

#[test]
fn each_call_of_an_opening_fails_in_turn(rt: HostRuntime) {
    let alloc = rt.alloc();
    let folds = folds(alloc, Course::Reweighed).unwrap_or(Vec::new(alloc));
    let Some(disk) = run_disk(alloc, 100_000) else {
        return check_at(&rt, false, "commands", COMMANDS);
    };
    let calls = opening_calls(alloc, &disk, &folds).unwrap_or(0);
    check_at(&rt, calls == OPENING, "calls of an opening", calls);
}
