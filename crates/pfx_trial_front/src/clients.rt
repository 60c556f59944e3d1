//! Two clients in threads of their own, and two workers: what was answered is in the store.

use crate::answers::{is_accepted, is_settled};
use crate::fronts::{Ended, is_kept};
use crate::service::{Ask, Service};
use crate::sessions::{Session, Visit, both, in_memory};
use pfx_book::book::Pass;
use pfx_crew::desk::Desk;
use pfx_front::calls::Front;
use pfx_front::name::Since;
use pfx_jobs::quantum::{Done, Quantum};
use pfx_kinds::any::AnyJob;
use std::alloc::Global;
use std::sync::Wait;
use std::thread;
use std::thread::Threads;

/// How many slots each client runs.
const SLOTS: u32 = 40;

/// Gives a task a job and runs slots, with a receipt after each. Whether all were answered.
fn client<F: Service, R: Wait>(
    rt: &R,
    alloc: Global,
    front: &F,
    pass: F::Pass,
    task: u16,
) -> (F::Pass, bool) {
    let mut pass = pass;
    let mut answered = is_accepted(&front.asks(rt, alloc, &mut pass, Ask::Submit { task }));
    for _slot in 0..SLOTS {
        answered = is_accepted(&front.asks(rt, alloc, &mut pass, Ask::Slot)) && answered;
        answered = is_settled(rt, front, &mut pass) && answered;
    }
    (pass, answered)
}

/// Two clients at once. Whether both were answered.
pub fn visit<
    B: Since<AnyJob> + Send + Sync,
    K: Desk<Quantum<AnyJob>, Done<AnyJob>> + Drop + Send + Sync,
    R: Threads + Wait + Sync,
>(rt: &R, alloc: Global, front: &Front<AnyJob, B, K>) -> Option<Visit<Pass<AnyJob, B>>>
where
    K::Seat: Drop + Send,
{
    let one = front.admit(rt)?;
    let other = front.admit(rt)?;
    let ((one, first), (other, second)) = thread::join(
        rt,
        move || client(rt, alloc, front, one, 0),
        move || client(rt, alloc, front, other, 1),
    );
    both(alloc, first && second, other, one)
}

/// Whether all is in the store.
pub fn has_ended(ended: &Ended) -> bool {
    is_kept(ended, 2 + 2 * u64::from(SLOTS))
}

#[test]
fn two_clients_are_served_by_two_workers(rt: HostRuntime) {
    assert!(rt; in_memory(rt, rt.alloc(), Session::Clients) == Some(true));
}
