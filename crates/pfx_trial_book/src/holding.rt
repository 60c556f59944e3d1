//! A watch that holds the hand-back of task 0's result until another one is back, or until a limit of turns is reached.

use pfx_jobs::quantum::Done;
use pfx_kinds::any::AnyJob;
use pfx_kit::watched::DeskWatch;
use std::sync::atomic::{AtomicBool, AtomicU64, Ordering};
use std::thread;

/// How many turns it holds a result at the most; in each it yields to other threads.
pub const LIMIT: u32 = 1_000_000;

/// Such a watch.
#[derive(Drop)]
pub struct Holding {
    late: AtomicBool,
    backs: AtomicU64,
}

impl Holding {
    /// With no result back.
    pub fn new() -> Holding {
        Holding {
            late: AtomicBool::new(false),
            backs: AtomicU64::new(0),
        }
    }

    /// Whether the limit was reached.
    pub fn is_late(&self) -> bool {
        self.late.load(Ordering::SeqCst)
    }

    /// How many results were handed back.
    pub fn backs(&self) -> u64 {
        self.backs.load(Ordering::SeqCst)
    }
}

impl DeskWatch<Done<AnyJob>> for Holding {
    fn hands_back(&self, done: &Done<AnyJob>) {
        if done.task != 0 {
            return;
        }
        for _turn in 0..LIMIT {
            if self.backs() > 0 {
                return;
            }
            thread::yield_now();
        }
        self.late.store(true, Ordering::SeqCst);
    }

    fn handed_back(&self) {
        self.backs.fetch_add(1, Ordering::SeqCst);
    }
}
