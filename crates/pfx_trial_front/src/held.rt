//! A flusher that is held in its first sync. Calls are answered meanwhile, and receipts come once it goes on.

use crate::answers::{is_number, is_shown, is_told_and_shown};
use crate::fronts::{Ended, have_looked};
use crate::service::{Ask, Service};
use crate::sessions::{Session, Visit, alone, on_disk};
use crate::stores::{SEGMENT, memory};
use pfx_disk::{Latch, LatchDisk};
use std::alloc::Global;
use std::sync::Wait;
use std::thread::Threads;
use std::time::Clock;

/// How many calls make the file, and one more: the call after them is the first sync of an append.
const FIRST_SYNC: u64 = 12;

/// Whether 16 Slots are answered 1 to 16.
fn slots_are_answered<F: Service, R: Wait>(
    rt: &R,
    alloc: Global,
    front: &F,
    pass: &mut F::Pass,
) -> bool {
    let mut answered = true;
    for number in 1..17 {
        let slot = front.asks(rt, alloc, pass, Ask::Slot);
        answered = is_number(&slot, number) && answered;
    }
    answered
}

/// Whether the calls are answered before the release, while the board shows none of them, and settled and shown after it.
pub fn visit<F: Service, R: Wait>(
    rt: &R,
    alloc: Global,
    front: &F,
    reader: &mut F::Reader,
    latch: &Latch,
) -> Option<Visit<F::Pass>> {
    let mut pass = front.admit(rt)?;
    let answered = slots_are_answered(rt, alloc, front, &mut pass);
    let unshown = is_shown(alloc, front, reader, 0, 0);
    latch.release();
    let settled = is_told_and_shown(rt, alloc, front, &mut pass, reader, 0);
    alone(alloc, answered && unshown && settled, pass)
}

/// Whether all is in the store, and the reader saw it.
pub fn has_ended(ended: &Ended) -> bool {
    have_looked(&ended.looked, 1) && ended.number == 16
}

/// Whether calls are answered while the flusher is held.
fn is_held<R: Threads + Wait + Clock + Copy + Drop + Send + Sync + 'static>(
    rt: R,
    alloc: Global,
) -> Option<bool> {
    let (disk, latch) = LatchDisk::new(rt, alloc, memory(alloc)?, FIRST_SYNC).ok()?;
    on_disk(rt, alloc, disk, SEGMENT, Session::Held { latch })
}

#[test]
fn calls_are_answered_while_the_flusher_is_held(rt: HostRuntime) {
    assert!(rt; is_held(rt, rt.alloc()) == Some(true));
}
