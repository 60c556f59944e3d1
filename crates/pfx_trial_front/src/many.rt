//! Sixteen clients in threads of their own, and two workers: all is settled, and in the store.

use crate::answers::{admit, is_accepted, is_settled};
use crate::fronts::{Ended, is_kept};
use crate::service::{Ask, Service};
use crate::sessions::{Session, Visit, in_memory};
use pfx_book::book::Pass;
use pfx_crew::desk::Desk;
use pfx_front::calls::Front;
use pfx_front::name::Since;
use pfx_jobs::quantum::{Done, Quantum};
use pfx_kinds::any::AnyJob;
use std::alloc::Global;
use std::sync::Wait;
use std::thread;
use std::thread::Threads;

/// How many clients there are.
const CLIENTS: u64 = 16;

/// How many slots each of them runs.
const SLOTS: u64 = 20;

/// How many tasks have a job.
const TASKS: u16 = 3;

/// Runs slots, with a receipt after each. The client's pass, and whether all of its calls had their receipts.
fn client<F: Service, R: Wait>(rt: &R, alloc: Global, front: &F, pass: F::Pass) -> (F::Pass, bool) {
    let mut pass = pass;
    let mut settled = true;
    for _slot in 0..SLOTS {
        settled = is_accepted(&front.asks(rt, alloc, &mut pass, Ask::Slot)) && settled;
        settled = is_settled(rt, front, &mut pass) && settled;
    }
    (pass, settled)
}

/// The passes of these visits, if all were settled.
fn settled_passes<P: Drop>(alloc: Global, visits: Vec<(P, bool)>) -> Option<Vec<P>> {
    let mut passes = Vec::new(alloc);
    for (pass, settled) in visits {
        if !settled {
            return None;
        }
        passes.push(pass).ok()?;
    }
    Some(passes)
}

/// All clients at once. Their passes, if all were settled.
fn visited<
    B: Since<AnyJob> + Send + Sync,
    K: Desk<Quantum<AnyJob>, Done<AnyJob>> + Drop + Send + Sync,
    R: Threads + Wait + Sync,
>(rt: &R, alloc: Global, front: &Front<AnyJob, B, K>) -> Option<Vec<Pass<AnyJob, B>>>
where
    K::Seat: Drop + Send,
{
    let waiting = admit(rt, alloc, front, CLIENTS)?;
    let visits = thread::map_vec(
        rt,
        waiting,
        &|pass: Pass<AnyJob, B>| client(rt, alloc, front, pass),
    );
    match visits {
        Ok(visits) => settled_passes(alloc, visits),
        Err(_) => None,
    }
}

/// Whether each task takes a job.
fn are_given<F: Service, R: Wait>(rt: &R, alloc: Global, front: &F, pass: &mut F::Pass) -> bool {
    let mut given = true;
    for task in 0..TASKS {
        given = is_accepted(&front.asks(rt, alloc, pass, Ask::Submit { task })) && given;
    }
    given
}

/// Whether all that sixteen clients ask is settled.
pub fn visit<
    B: Since<AnyJob> + Send + Sync,
    K: Desk<Quantum<AnyJob>, Done<AnyJob>> + Drop + Send + Sync,
    R: Threads + Wait + Sync,
>(rt: &R, alloc: Global, front: &Front<AnyJob, B, K>) -> Option<Visit<Pass<AnyJob, B>>>
where
    K::Seat: Drop + Send,
{
    let mut first = front.admit(rt)?;
    let given = are_given(rt, alloc, front, &mut first);
    let mut passes = visited(rt, alloc, front)?;
    passes.push(first).ok()?;
    Some((given, passes))
}

/// Whether all is in the store.
pub fn has_ended(ended: &Ended) -> bool {
    is_kept(ended, u64::from(TASKS) + CLIENTS * SLOTS)
}

#[test]
fn sixteen_clients_are_served_by_two_workers(rt: HostRuntime) {
    assert!(rt; in_memory(rt, rt.alloc(), Session::Many) == Some(true));
}
