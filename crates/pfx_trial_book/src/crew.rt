use crate::channels::{Deed, in_channels};
use crate::holding::Holding;
use crate::quanta::{collected, is_dealt, is_run};
use pfx_crew::desk::Desk;
use pfx_crew::work::worker;
use pfx_jobs::quantum::{Done, Quantum};
use pfx_kinds::any::AnyJob;
use pfx_kit::watched::WatchedDesk;
use std::sync::Wait;
use std::thread;
use std::thread::Threads;

/// Deals the quanta of tasks 0 and 1, collects both results and closes the desk. The tasks, as they came.
fn call<K: Desk<Quantum<AnyJob>, Done<AnyJob>>, R: Wait>(
    rt: &R,
    desk: &K,
    mut seat: K::Seat,
) -> [Option<u16>; 2]
where
    K::Seat: Drop,
{
    let dealt = is_dealt(rt, desk, &mut seat, 0) && is_dealt(rt, desk, &mut seat, 1);
    let mut tasks = [None; 2];
    if dealt {
        tasks = [
            collected(rt, desk, &mut seat),
            collected(rt, desk, &mut seat),
        ];
    }
    desk.close(rt, &mut seat);
    tasks
}

/// One caller and two workers at a desk. The tasks of the results, as they came.
fn with_two_workers<K: Desk<Quantum<AnyJob>, Done<AnyJob>> + Sync, R: Threads + Wait + Sync>(
    rt: &R,
    desk: &K,
) -> Option<[Option<u16>; 2]>
where
    K::Seat: Drop + Send,
{
    let mine = desk.seat(rt).ok()?;
    let first = desk.seat(rt).ok()?;
    let second = desk.seat(rt).ok()?;
    let (got, _seats) = thread::join(
        rt,
        move || call(rt, desk, mine),
        move || {
            thread::join(
                rt,
                move || worker::<AnyJob, R, K>(rt, desk, first),
                move || worker::<AnyJob, R, K>(rt, desk, second),
            )
        },
    );
    Some(got)
}

/// The quanta of tasks 0 and 1 by the calling thread alone. Whether both went out, and both results were handed back.
fn serves_alone<K: Desk<Quantum<AnyJob>, Done<AnyJob>>, R: Wait>(rt: &R, desk: &K) -> bool
where
    K::Seat: Drop,
{
    let Ok(mut seat) = desk.seat(rt) else {
        return false;
    };
    is_dealt(rt, desk, &mut seat, 0)
        && is_dealt(rt, desk, &mut seat, 1)
        && is_run(rt, desk, &mut seat)
        && is_run(rt, desk, &mut seat)
}

/// What is done at a desk that holds back the result of task 0.
#[derive(Clone, Copy)]
pub enum Serves {
    /// One caller and two workers.
    Workers,
    /// The caller alone.
    Alone,
}

/// Whether both results came: of two workers task 1's first, and of the caller alone.
fn are_both_served<K: Desk<Quantum<AnyJob>, Done<AnyJob>> + Sync, R: Threads + Wait + Sync>(
    rt: &R,
    desk: &K,
    serves: Serves,
) -> bool
where
    K::Seat: Drop + Send,
{
    match serves {
        Serves::Workers => with_two_workers(rt, desk) == Some([Some(1), Some(0)]),
        Serves::Alone => serves_alone(rt, desk),
    }
}

/// Whether both results came, of two workers before the limit, and of the caller alone at the limit. A worker's count may come after the
/// caller's last look, so it is read once all threads have ended.
pub fn is_served<K: Desk<Quantum<AnyJob>, Done<AnyJob>> + Drop + Sync, R: Threads + Wait + Sync>(
    rt: &R,
    desk: K,
    serves: Serves,
) -> bool
where
    K::Seat: Drop + Send,
{
    let desk = WatchedDesk::new(desk, Holding::new());
    let served = are_both_served(rt, &desk, serves);
    let late = matches!(serves, Serves::Alone);
    served && desk.watch().is_late() == late && desk.watch().backs() == 2
}

#[test]
fn two_workers_end_within_the_limit(rt: HostRuntime) {
    assert!(rt; in_channels(&rt, rt.alloc(), Deed::Hold(Serves::Workers)));
}

#[test]
fn one_thread_reaches_the_limit(rt: HostRuntime) {
    assert!(rt; in_channels(&rt, rt.alloc(), Deed::Hold(Serves::Alone)));
}
