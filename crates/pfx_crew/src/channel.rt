//! A desk of two lanes, one for what is dealt and one for results.
//!
//! Why it is so:
//! - **A closed desk answers at once.** A flag beside the lanes is read before a call, so that what is brought is given back and nothing
//!   is given out any more, though something may still lie there. The ends are for those that are already waiting. A quantum that is lost
//!   in this way is dealt by its slot, which can make it again.
//! - **Closing waits for room** if a lane is full, as every message does. A lane has room for all quanta of a slot.
//! - **A seat owns its ends of both lanes**, so it may be kept under a lock or go to a thread, and no call has a condition on it.
use crate::desk::Desk;
use crate::lane::{Berth, Quay};
use std::alloc::{AllocError, Global};
use std::sync::Wait;
use std::sync::atomic::{AtomicBool, Ordering};

/// How many messages have room in a lane. A slot has at most as many quanta.
pub const ROOM: usize = 64;

/// A desk of two bounded channels. A dealt quantum, or a result, waits in its lane until some seat takes it.
///
/// Closing it puts an end into each lane, which wakes a seat that waits there, and that seat puts the end in again for the
/// next one; for this a lane that is full must get room.
#[derive(Drop)]
pub struct ChannelDesk<Q: Drop, D: Drop> {
    quanta: Quay<Q>,
    results: Quay<D>,
    closed: AtomicBool,
}

/// A thread's place at both lanes.
#[derive(Drop)]
pub struct ChannelSeat<Q: Drop, D: Drop> {
    quanta: Berth<Q>,
    results: Berth<D>,
}

impl<Q: Drop, D: Drop> ChannelDesk<Q, D> {
    /// A desk on which nothing lies. `AllocError` if an allocation fails.
    pub fn new(alloc: Global) -> Result<ChannelDesk<Q, D>, AllocError> {
        Ok(ChannelDesk {
            quanta: Quay::new(alloc, ROOM)?,
            results: Quay::new(alloc, ROOM)?,
            closed: AtomicBool::new(false),
        })
    }

    /// Whether it was closed.
    pub fn is_closed(&self) -> bool {
        self.closed.load(Ordering::SeqCst)
    }
}

impl<Q: Drop, D: Drop> Desk<Q, D> for ChannelDesk<Q, D> {
    type Seat = ChannelSeat<Q, D>;

    ghost dealt = { λ s. s.quanta.put };

    ghost took = { λ s. s.quanta.taken };

    ghost handed = { λ s. s.results.put };

    ghost collected = { λ s. s.results.taken };

    fn seat<R: Wait>(&self, rt: &R) -> Result<ChannelSeat<Q, D>, AllocError> {
        let quanta = self.quanta.berth(rt)?;
        let results = self.results.berth(rt)?;
        Ok(ChannelSeat { quanta, results })
    }

    fn deal<R: Wait>(&self, rt: &R, seat: &mut ChannelSeat<Q, D>, quantum: Q) -> Result<(), Q> {
        if self.is_closed() {
            return Err(quantum);
        }
        seat.quanta.put(rt, quantum)
    }

    fn next<R: Wait>(&self, rt: &R, seat: &mut ChannelSeat<Q, D>) -> Option<Q> {
        if self.is_closed() {
            return None;
        }
        seat.quanta.take(rt)
    }

    fn hand_back<R: Wait>(&self, rt: &R, seat: &mut ChannelSeat<Q, D>, done: D) -> Result<(), D> {
        if self.is_closed() {
            return Err(done);
        }
        seat.results.put(rt, done)
    }

    fn collect<R: Wait>(&self, rt: &R, seat: &mut ChannelSeat<Q, D>) -> Option<D> {
        if self.is_closed() {
            return None;
        }
        seat.results.take(rt)
    }

    fn close<R: Wait>(&self, rt: &R, seat: &mut ChannelSeat<Q, D>) {
        self.closed.store(true, Ordering::SeqCst);
        seat.quanta.end(rt);
        seat.results.end(rt);
    }
}
