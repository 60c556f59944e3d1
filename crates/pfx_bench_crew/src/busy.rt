//! Workers that have more to do than the step of a quantum.
use pfx_kit::watched::DeskWatch;
use std::sync::atomic::{AtomicU64, Ordering};

/// So many turns of plain arithmetic, each of which needs the one before.
pub fn turned(turns: u64) -> u64 {
    let mut value = turns;
    for turn in 0..turns {
        value = (value ^ (value >> 7))
            .wrapping_mul(0x9e37_79b9_7f4a_7c15)
            .wrapping_add(turn);
    }
    value
}

/// Takes the turns before a result is handed back.
#[derive(Drop)]
pub struct Busy {
    turns: u64,
    kept: AtomicU64,
}

impl Busy {
    /// With so many turns a result.
    pub fn new(turns: u64) -> Busy {
        Busy {
            turns,
            kept: AtomicU64::new(0),
        }
    }
}

impl<D> DeskWatch<D> for Busy {
    fn hands_back(&self, _done: &D) {
        if self.turns > 0 {
            self.kept.store(turned(self.turns), Ordering::SeqCst);
        }
    }
}
