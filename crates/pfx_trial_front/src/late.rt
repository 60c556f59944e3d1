//! A desk that, where it is late, holds the first result that is handed back until quanta are dealt again or the desk is closed, and
//! meanwhile answers once that there is no result.

use pfx_crew::desk::Desk;
use pfx_jobs::quantum::{Done, Quantum};
use pfx_kinds::any::AnyJob;
use std::alloc::{AllocError, Global};
use std::sync::atomic::{AtomicBool, AtomicU64, Ordering};
use std::sync::{Arc, Wait};
use std::thread;

/// How many turns it holds a result at the most; in each it yields to other threads.
pub const LIMIT: u32 = 1_000_000;

/// What happened at such a desk.
#[derive(Drop)]
pub struct Marks {
    held: AtomicBool,
    missed: AtomicBool,
    released: AtomicBool,
    late: AtomicBool,
    collected: AtomicU64,
}

impl Marks {
    /// Nothing yet, or, of a desk that isn't late, all that happens once.
    fn new(is_late: bool) -> Marks {
        Marks {
            held: AtomicBool::new(!is_late),
            missed: AtomicBool::new(false),
            released: AtomicBool::new(false),
            late: AtomicBool::new(false),
            collected: AtomicU64::new(if is_late { 0 } else { 2 }),
        }
    }

    /// Whether a result was held, the caller was told that there is none, it dealt again before the limit was reached, and more than two
    /// results were collected.
    pub fn is_made_again(&self) -> bool {
        let held = self.held.load(Ordering::SeqCst) && self.missed.load(Ordering::SeqCst);
        let made = held
            && self.released.load(Ordering::SeqCst)
            && !self.late.load(Ordering::SeqCst);
        made && self.collected.load(Ordering::SeqCst) > 2
    }

    /// Waits until the result may go on.
    fn hold(&self) {
        for _turn in 0..LIMIT {
            if self.released.load(Ordering::SeqCst) {
                return;
            }
            thread::yield_now();
        }
        self.late.store(true, Ordering::SeqCst);
    }
}

/// Such a desk, over another one.
#[derive(Drop)]
pub struct LateDesk<K: Drop> {
    desk: K,
    marks: Arc<Marks, Global>,
}

impl<K: Drop> LateDesk<K> {
    /// Over this desk, with what is to happen there.
    pub fn new(
        alloc: Global,
        desk: K,
        is_late: bool,
    ) -> Result<(LateDesk<K>, Arc<Marks, Global>), AllocError> {
        let marks = Arc::new(alloc, Marks::new(is_late))?;
        let theirs = Arc::try_clone(&marks)?;
        Ok((
            LateDesk {
                desk,
                marks: theirs,
            },
            marks,
        ))
    }
}

impl<K: Desk<Quantum<AnyJob>, Done<AnyJob>> + Drop> Desk<Quantum<AnyJob>, Done<AnyJob>>
    for LateDesk<K> {
    type Seat = K::Seat;

    ghost dealt = { K.dealt };

    ghost took = { K.took };

    ghost handed = { K.handed };

    ghost collected = { K.collected };

    fn seat<R: Wait>(&self, rt: &R) -> Result<K::Seat, AllocError> {
        self.desk.seat(rt)
    }

    fn deal<R: Wait>(
        &self,
        rt: &R,
        seat: &mut K::Seat,
        quantum: Quantum<AnyJob>,
    ) -> Result<(), Quantum<AnyJob>> {
        if self.marks.missed.load(Ordering::SeqCst) {
            self.marks.released.store(true, Ordering::SeqCst);
        }
        self.desk.deal(rt, seat, quantum)
    }

    fn next<R: Wait>(&self, rt: &R, seat: &mut K::Seat) -> Option<Quantum<AnyJob>> {
        self.desk.next(rt, seat)
    }

    fn hand_back<R: Wait>(
        &self,
        rt: &R,
        seat: &mut K::Seat,
        done: Done<AnyJob>,
    ) -> Result<(), Done<AnyJob>> {
        if !self.marks.held.swap(true, Ordering::SeqCst) {
            self.marks.hold();
        }
        self.desk.hand_back(rt, seat, done)
    }

    fn collect<R: Wait>(&self, rt: &R, seat: &mut K::Seat) -> Option<Done<AnyJob>> {
        if self.marks.collected.fetch_add(1, Ordering::SeqCst) == 1 {
            self.marks.missed.store(true, Ordering::SeqCst);
            return None;
        }
        self.desk.collect(rt, seat)
    }

    fn close<R: Wait>(&self, rt: &R, seat: &mut K::Seat) {
        self.marks.released.store(true, Ordering::SeqCst);
        self.desk.close(rt, seat)
    }
}
