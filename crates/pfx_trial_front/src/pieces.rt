//! A checkpoint whose first piece is held, or fails: calls are answered meanwhile, and what was marked before stays so.

use crate::answers::{is_accepted, is_number, is_settled};
use crate::fronts::{Ended, is_kept};
use crate::service::{Ask, Service};
use crate::sessions::{Session, Visit, alone, on_disk};
use crate::stores::memory;
use pfx_disk::{FaultDisk, Latch, LatchDisk};
use pfx_fault::Cause;
use std::alloc::Global;
use std::sync::Wait;
use std::thread::Threads;
use std::time::Clock;

/// The least length of a segment of two workers.
const SEGMENT: u32 = 4233;

/// How many slots, one a batch, have room in a segment, and one more: with it the file turns.
const TURNING: u64 = 192;

/// How many calls make the file, append so many batches and turn the file: the next call is the checkpoint's first.
const FIRST_PIECE: u64 = 9 + 4 * TURNING + 6;

/// Whether slots are answered up to the one with which the file turns, each with its receipt.
fn is_turned<F: Service, R: Wait>(rt: &R, alloc: Global, front: &F, pass: &mut F::Pass) -> bool {
    let mut settled = true;
    for _slot in 0..TURNING {
        settled = is_accepted(&front.asks(rt, alloc, pass, Ask::Slot)) && settled;
        settled = is_settled(rt, front, pass) && settled;
    }
    settled
}

/// Whether the next slot is answered while the piece is held, and settled once it is released.
fn is_answered<F: Service, R: Wait>(
    rt: &R,
    alloc: Global,
    front: &F,
    pass: &mut F::Pass,
    latch: &Latch,
) -> bool {
    let slot = front.asks(rt, alloc, pass, Ask::Slot);
    latch.release();
    is_number(&slot, TURNING + 1) && is_settled(rt, front, pass)
}

/// Whether a slot more is answered while the first piece of a checkpoint is held.
pub fn visit_held<F: Service, R: Wait>(
    rt: &R,
    alloc: Global,
    front: &F,
    latch: &Latch,
) -> Option<Visit<F::Pass>> {
    let mut pass = front.admit(rt)?;
    let turned = is_turned(rt, alloc, front, &mut pass);
    let answered = is_answered(rt, alloc, front, &mut pass, latch);
    alone(alloc, turned && answered, pass)
}

/// Whether all slots are kept.
pub fn has_ended(ended: &Ended) -> bool {
    is_kept(ended, TURNING + 1)
}

/// Whether slots are answered up to the turn, behind which the device fails.
pub fn visit_lost<F: Service, R: Wait>(rt: &R, alloc: Global, front: &F) -> Option<Visit<F::Pass>> {
    let mut pass = front.admit(rt)?;
    let turned = is_turned(rt, alloc, front, &mut pass);
    alone(alloc, turned, pass)
}

/// Whether the front is closed because its device failed, with all slots up to the turn durable and nothing more.
pub fn has_failed(ended: &Ended) -> bool {
    let failed = ended.failure == Some(Cause::Device) && ended.broken;
    failed && ended.marked == TURNING && ended.number == TURNING
}

/// Whether a slot is answered while a checkpoint's piece is held.
fn holds_a_piece<R: Threads + Wait + Clock + Copy + Drop + Send + Sync + 'static>(
    rt: R,
    alloc: Global,
) -> Option<bool> {
    let (disk, latch) = LatchDisk::new(rt, alloc, memory(alloc)?, FIRST_PIECE).ok()?;
    let session = Session::HeldPiece { latch };
    on_disk(rt, alloc, disk, SEGMENT, session)
}

/// Whether a piece that fails leaves all that was marked, so that the call held above is a checkpoint's and no append's.
fn fails_at_a_piece<R: Threads + Wait + Clock + Copy + Drop + Send + Sync + 'static>(
    rt: R,
    alloc: Global,
) -> Option<bool> {
    let disk = FaultDisk::new(memory(alloc)?, FIRST_PIECE);
    on_disk(rt, alloc, disk, SEGMENT, Session::LostPiece)
}

#[test]
fn a_call_is_answered_while_a_piece_is_held(rt: HostRuntime) {
    assert!(rt; holds_a_piece(rt, rt.alloc()) == Some(true));
}

#[test]
fn a_piece_that_fails_leaves_what_was_marked(rt: HostRuntime) {
    assert!(rt; fails_at_a_piece(rt, rt.alloc()) == Some(true));
}
