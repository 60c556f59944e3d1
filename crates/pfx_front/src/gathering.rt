//! How long the flusher waits for those whom it has just woken.
//!
//! Clients whose commands were marked together mostly ask for their next ones at once. A flusher that took the first of these
//! alone would write the others with the batch after it, and its clients would stay in two groups: batches of 8 if there
//! are 16 clients. So it waits until as many have asked again, but not for long beside the batch itself.

use crate::monitor::Monitor;
use crate::name::Since;
use pfx_book::book::Book;
use pfx_jobs::job::Job;
use pfx_record::Batch;
use std::sync::atomic::Ordering;
use std::sync::{CondvarTimeouts, MutexGuard, Wait};
use std::time::{Clock, Duration, Instant};

/// The most records that one batch has.
const BATCH: u64 = 16;

/// What part of a batch's time the flusher waits after it, at the most.
const PART: u32 = 4;

/// The longest wait after a batch, in microseconds.
const LONGEST: u64 = 1000;

/// What the last batch tells of the next one.
#[derive(Clone, Copy)]
pub(crate) struct Pace {
    /// When the batch was taken; `None` if it was waited for already, or if there is no clock.
    begun: Option<Instant>,
    /// The number of its last command.
    last: u64,
    /// How many commands it has.
    count: u64,
}

impl Pace {
    /// Before the first batch.
    pub(crate) fn new() -> Pace {
        Pace {
            begun: None,
            last: 0,
            count: 0,
        }
    }

    /// Of a batch that is begun now.
    pub(crate) fn of<J: Job, R: Clock>(rt: &R, batch: &Batch<J>) -> Pace {
        let count = batch.records.len() as u64;
        Pace {
            begun: Instant::now(rt).ok(),
            last: batch.first.saturating_add(count).saturating_sub(1),
            count,
        }
    }

    /// The number to wait for, if the command of the number `asked` was accepted last: the batch's clients, and those
    /// who have asked meanwhile. `None` if it is there already, or if there was one client.
    fn wanted(&self, asked: u64) -> Option<u64> {
        let waiting = asked.saturating_sub(self.last);
        let most = waiting.saturating_add(self.count).min(BATCH);
        if most <= waiting || most < 2 {
            return None;
        }
        Some(self.last.saturating_add(most))
    }

    /// How long to wait.
    fn most<R: Clock>(&self, rt: &R) -> Option<Duration> {
        let took = self.begun?.elapsed(rt).ok()?;
        Some(took.checked_div(PART)?.min(Duration::from_micros(LONGEST)))
    }
}

/// The book, once as many commands wait as the last batch lets expect, or its time is up, or there is no use in waiting.
pub(crate) fn gathered<'a, J: Job, B: Since<J>, R: Wait + Clock>(
    rt: &R,
    monitor: &'a Monitor<J, B>,
    pace: Pace,
) -> MutexGuard<'a, Option<Book<J, B>>> {
    let guard = monitor.book.lock(rt);
    let Some(most) = pace.most(rt) else {
        return guard;
    };
    let Some(wanted) = pace.wanted(monitor.asked()) else {
        return guard;
    };
    monitor.wanted.store(wanted, Ordering::Relaxed);
    let (guard, _timed) = monitor
        .work
        .wait_timeout_while(rt, guard, most, |b| match b {
            Some(book) => monitor.asked() < wanted && !book.is_closed(),
            None => false,
        });
    monitor.wanted.store(0, Ordering::Relaxed);
    guard
}
