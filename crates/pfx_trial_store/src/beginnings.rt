//! Stores that begin at a state of their own: slot 2 of three tasks of weight 2/3 on two workers, behind a command of any number.

ghost use Rattle.std.specs.Prelude.{◌≡◌, IfSome};

use crate::check::{check, check_at};
use crate::engines::{Held, disk_of_store, opened_store};
use crate::held::held;
use crate::journal::left;
use crate::turns::append_slot;
use pfx_disk::{Disk, Fate, FaultDisk, MemoryDisk};
use pfx_kinds::any::AnyJob;
use pfx_kit::places::{END, FIRST_SEGMENT};
use pfx_kit::states::ledger_at;
use pfx_machine::State;
use pfx_store::{InitFault, Store};
use pfx_store_recover::Refusal;
use pfx_weights::TaskSet;
use std::alloc::Global;

/// The number of the last command: each byte of the one after it is another.
const NUMBER: u64 = 0x0605_0403_0201;

/// No jobs, for so many tasks.
fn no_jobs(alloc: Global, real: usize) -> Option<Vec<Option<AnyJob>>> {
    let mut jobs = Vec::new(alloc);
    for _task in 0..real {
        jobs.push(None).ok()?;
    }
    Some(jobs)
}

fn state_of(alloc: Global, set: &TaskSet, number: u64, segment: u32) -> Option<State<AnyJob>>
    ensures { IfSome result (λ s. s.ledger.set ≡ set.now) }
{
    let ledger = ledger_at(alloc, set, 2, &[2, 1, 1])?;
    let jobs = no_jobs(alloc, ledger.real())?;
    if number >= 1 << 48 || jobs.len() != ledger.real() {
        return None;
    }
    let _total = ledger.total();
    set.is_of_its_tasks();
    Some(State::from_parts(alloc, number, 0, ledger, jobs, segment))
}

/// The store that begins on a disk, or why none does.
fn begun<D: Disk + Drop>(
    alloc: Global,
    disk: D,
    number: u64,
    segment: u32,
) -> Result<Held<D>, InitFault> {
    let Ok(set) = TaskSet::new(alloc, 2, &[(2, 3), (2, 3), (2, 3)]) else {
        return Err(InitFault::NoMemory);
    };
    let Some(state) = state_of(alloc, &set, number, segment) else {
        return Err(InitFault::NoMemory);
    };
    match Store::begin(alloc, disk, &set, state) {
        Ok(store) => Box::new(alloc, store).ok().ok_or(InitFault::NoMemory),
        Err((fault, _disk)) => Err(fault),
    }
}

fn begun_in_memory(alloc: Global, number: u64) -> Option<Held<MemoryDisk>> {
    let disk = MemoryDisk::new(alloc, &[], END, 80, 30_000).ok()?;
    begun(alloc, disk, number, 8192).ok()
}

/// Whether a store is at the second slot, behind the command of this number.
fn is_at(store: &Store<MemoryDisk, AnyJob>, number: u64) -> bool {
    let state = store.state();
    state.number() == number && state.slot() == 2 && state.from() == 0
}

/// Whether the bytes of a store that begins behind this number have these behind the first segment's gate, and open to that state.
fn begins_with(alloc: Global, number: u64, first: &[u8; 8]) -> Option<bool> {
    let store = begun_in_memory(alloc, number)?;
    let is_begun = is_at(&store, number);
    let bytes = held(alloc, &mut disk_of_store(store))?;
    let mut same = bytes.len() == END;
    for (i, byte) in first.iter().enumerate() {
        if bytes.get(FIRST_SEGMENT + 1 + i) != Some(byte) {
            same = false;
        }
    }
    let disk = MemoryDisk::new(alloc, &bytes, bytes.len(), 200, 1000).ok()?;
    let opened = opened_store(alloc, disk)?;
    Some(is_begun && same && is_at(&opened, number))
}

/// Numbers, and the bytes of the number behind each.
static NUMBERS: [(u64, [u8; 8]); 3] = [
    (0, [1, 0, 0, 0, 0, 0, 0, 0]),
    (NUMBER, [2, 2, 3, 4, 5, 6, 0, 0]),
    ((1 << 48) - 1, [0, 0, 0, 0, 0, 0, 1, 0]),
];

#[test]
fn a_store_begins_behind_a_number(rt: HostRuntime) {
    let alloc = rt.alloc();
    for (row, (number, first)) in NUMBERS.iter().enumerate() {
        let holds = begins_with(alloc, *number, first) == Some(true);
        check_at(&rt, holds, "row", row);
    }
}

#[test]
fn a_begun_store_goes_on(rt: HostRuntime) {
    let alloc = rt.alloc();
    let Some(mut store) = begun_in_memory(alloc, NUMBER) else {
        return check(&rt, false, "begun");
    };
    check(&rt, append_slot(alloc, &mut store), "appended");
    check(&rt, store.state().slot() == 3, "the slot");
    let disk = disk_of_store(store);
    for (calls, number) in [(11, NUMBER), (14, NUMBER), (15, NUMBER + 1)] {
        let holds = left(alloc, &disk, calls, Fate::Filled(0x5a)) == Some(Ok(number));
        check_at(&rt, holds, "calls", calls);
    }
}

/// Stops after so many calls, and what is left if this becomes of what isn't synced.
static STOPS: [(usize, Fate, Result<u64, Refusal>); 5] = [
    (8, Fate::Kept, Err(Refusal::NotAStore)),
    (9, Fate::Filled(0xc3), Err(Refusal::NotAStore)),
    (10, Fate::Dropped, Err(Refusal::NotAStore)),
    (10, Fate::Kept, Ok(NUMBER)),
    (11, Fate::Dropped, Ok(NUMBER)),
];

#[test]
fn a_beginning_is_stopped(rt: HostRuntime) {
    let alloc = rt.alloc();
    let Some(store) = begun_in_memory(alloc, NUMBER) else {
        return check(&rt, false, "begun");
    };
    let disk = disk_of_store(store);
    for (row, (calls, fate, wanted)) in STOPS.iter().enumerate() {
        let holds = left(alloc, &disk, *calls, *fate) == Some(*wanted);
        check_at(&rt, holds, "row", row);
    }
}

/// Why no store begins on a disk whose k-th call fails.
fn fault_at(alloc: Global, k: u64) -> Option<InitFault> {
    let disk = MemoryDisk::new(alloc, &[], END, 40, 20_000).ok()?;
    begun(alloc, FaultDisk::new(disk, k), NUMBER, 8192).err()
}

/// Why no store begins on a disk that holds a byte, with segments of this length.
fn fault_of(alloc: Global, segment: u32) -> Option<InitFault> {
    let disk = MemoryDisk::new(alloc, &[7], END, 40, 20_000).ok()?;
    begun(alloc, disk, NUMBER, segment).err()
}

#[test]
fn stores_that_cant_begin(rt: HostRuntime) {
    let alloc = rt.alloc();
    let small = InitFault::SegmentTooSmall { least: 4233 };
    check(&rt, fault_of(alloc, 4232) == Some(small), "too small");
    let large = InitFault::SegmentTooLarge;
    check(&rt, fault_of(alloc, 16_777_217) == Some(large), "too large");
    let full = InitFault::NotEmpty;
    check(&rt, fault_of(alloc, 8192) == Some(full), "not empty");
    for k in 0..11 {
        let holds = fault_at(alloc, k) == Some(InitFault::Device);
        check_at(&rt, holds, "call", k as usize);
    }
}
