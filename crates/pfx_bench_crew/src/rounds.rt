//! Rounds of quanta: dealt to a crew, or run by the calling thread, and gathered.
ghost use Rattle.std.specs.Prelude.{◌≡◌};

use crate::busy::{Busy, turned};
use pfx_crew::channel::{ChannelDesk, ChannelSeat};
use pfx_crew::desk::Desk;
use pfx_crew::gathering::gather;
use pfx_crew::work::worker;
use pfx_jobs::job::Job;
use pfx_jobs::quantum::{Done, Quantum};
use pfx_kinds::any::AnyJob;
use pfx_kit::watched::WatchedDesk;
use std::alloc::Global;
use std::sync::Wait;
use std::thread;
use std::thread::Threads;

/// The desk that is measured.
pub type JobDesk = WatchedDesk<ChannelDesk<Quantum<AnyJob>, Done<AnyJob>>, Busy>;

type JobSeat = ChannelSeat<Quantum<AnyJob>, Done<AnyJob>>;

/// The quanta of a round and the places of their results.
#[derive(Drop)]
pub struct Bench {
    job: AnyJob,
    count: u16,
    quanta: Vec<Quantum<AnyJob>>,
    places: Vec<Option<Done<AnyJob>>>,
}

/// A quantum of this job.
fn quantum(round: u64, task: u16, job: &AnyJob) -> Option<Quantum<AnyJob>> {
    let before = job.copy_of();
    if before.is_done() {
        return None;
    }
    Some(Quantum::new(round, round, task, before))
}

impl Bench {
    /// Room for rounds of so many quanta, 64 at the most.
    pub fn new(alloc: Global, count: u64) -> Option<Bench> {
        let count = u16::try_from(count).ok()?;
        if count > 64 {
            return None;
        }
        Some(Bench {
            job: AnyJob::start("rule", 1_000_000, b"110:00000001").ok()?,
            count,
            quanta: Vec::with_capacity(alloc, 64).ok()?,
            places: Vec::with_capacity(alloc, 64).ok()?,
        })
    }

    /// Makes the quanta of a round, and free places for them.
    fn prepare(&mut self, round: u64) -> Option<()> {
        self.quanta.clear();
        self.places.clear();
        for task in 0..self.count {
            self.quanta.push(quantum(round, task, &self.job)?).ok()?;
            self.places.push(None).ok()?;
        }
        Some(())
    }

    /// Puts a result at its place.
    fn take(&mut self, done: Done<AnyJob>) -> Option<()> {
        if self.places.len() != self.quanta.len() {
            return None;
        }
        gather(&self.quanta, &mut self.places, done).ok()
    }

    /// The sum over the results of a round, in the quanta's order.
    fn sum(&self) -> Option<u64> {
        let mut sum = 0u64;
        for place in &self.places {
            match place {
                Some(done) => {
                    let left = u64::from(done.task).wrapping_add(u64::from(done.after.left()));
                    sum = sum.wrapping_mul(31).wrapping_add(left);
                }
                None => return None,
            }
        }
        Some(sum)
    }
}

/// The sum over rounds whose quanta the calling thread runs.
pub fn rounds_alone(bench: &mut Bench, rounds: u64, turns: u64) -> Option<u64> {
    let mut sum = 0u64;
    let mut kept = 0u64;
    for round in 0..rounds {
        bench.prepare(round)?;
        for task in 0..bench.count {
            let one = quantum(round, task, &bench.job)?;
            let done = one.run();
            if turns > 0 {
                kept ^= turned(turns.wrapping_add(kept & 1));
            }
            bench.take(done)?;
        }
        sum = sum.wrapping_mul(3).wrapping_add(bench.sum()?);
    }
    // What the turns gave is used, so that they aren't left out.
    if kept == 1 { None } else { Some(sum) }
}

/// One round at a desk.
fn round_at<R: Wait>(
    rt: &R,
    desk: &JobDesk,
    seat: &mut JobSeat,
    bench: &mut Bench,
    round: u64,
) -> Option<u64> {
    bench.prepare(round)?;
    for task in 0..bench.count {
        let one = quantum(round, task, &bench.job)?;
        desk.deal(rt, seat, one).ok()?;
    }
    for _task in 0..bench.count {
        let done = desk.collect(rt, seat)?;
        bench.take(done)?;
    }
    bench.sum()
}

/// The sum over rounds at a desk, which is closed after them.
fn rounds_at<R: Wait>(
    rt: &R,
    desk: &JobDesk,
    mut seat: JobSeat,
    bench: &mut Bench,
    rounds: u64,
) -> Option<u64> {
    let mut sum = Some(0u64);
    for round in 0..rounds {
        sum = match (sum, round_at(rt, desk, &mut seat, bench, round)) {
            (Some(before), Some(more)) => Some(before.wrapping_mul(3).wrapping_add(more)),
            _ => None,
        };
        if sum.is_none() {
            break;
        }
    }
    desk.close(rt, &mut seat);
    sum
}

/// The sum over rounds that a crew of so many workers runs.
pub fn crew<R: Threads + Wait + Sync>(
    rt: &R,
    alloc: Global,
    desk: &JobDesk,
    bench: &mut Bench,
    rounds: u64,
    workers: u64,
) -> Option<u64> {
    let mine: JobSeat = desk.seat(rt).ok()?;
    let (sum, crew) = thread::join(
        rt,
        move || rounds_at(rt, desk, mine, bench, rounds),
        move || {
            thread::map_indices(
                rt,
                alloc,
                workers as usize,
                &|_worker: usize| match desk.seat(rt) {
                    Ok(seat) => {
                        let _seat = worker::<AnyJob, R, JobDesk>(rt, desk, seat);
                        true
                    }
                    Err(_) => false,
                },
            )
        },
    );
    crew.ok()?;
    sum
}
