//! One client of a front, with no worker, one and two.

use crate::answers::{is_first_slot, is_number, is_refused, is_told_and_shown};
use crate::fronts::{Ended, Served, have_looked, left_by};
use crate::service::{Answer, Ask, Service};
use crate::sessions::{Session, Visit, both, in_memory};
use pfx_book::book::Pass;
use pfx_book::faults::BookFault;
use pfx_crew::desk::Desk;
use pfx_disk::Disk;
use pfx_front::calls::Front;
use pfx_front::closing::{Closed, Given};
use pfx_front::faults::{CallFault, CloseFault};
use pfx_front::name::Since;
use pfx_front::start::Crew;
use pfx_jobs::quantum::{Done, Quantum};
use pfx_kinds::any::AnyJob;
use pfx_machine::{MachineFault, Reply};
use pfx_store::Store;
use std::alloc::Global;
use std::sync::Wait;
use std::thread::Threads;

/// A front that couldn't be closed, its threads, and what was given back.
type Reopened<B, D, K, R> = (
    Front<AnyJob, B, K>,
    Crew<AnyJob, B, D, K, R>,
    Given<AnyJob, B>,
);

/// Whether a command was refused by the machine for this fault.
fn is_faulty(answer: &Answer, fault: MachineFault) -> bool {
    is_refused(answer, CallFault::Refused(BookFault::Machine(fault)))
}

/// Whether two Submits are accepted, and one at each of two other tasks refused.
fn are_submitted<F: Service, R: Wait>(
    rt: &R,
    alloc: Global,
    front: &F,
    pass: &mut F::Pass,
) -> bool {
    let first = front.asks(rt, alloc, pass, Ask::Submit { task: 0 });
    let busy = front.asks(rt, alloc, pass, Ask::Submit { task: 0 });
    let second = front.asks(rt, alloc, pass, Ask::Submit { task: 1 });
    let none = front.asks(rt, alloc, pass, Ask::Submit { task: 3 });
    is_number(&first, 1)
        && is_faulty(&busy, MachineFault::TaskBusy { task: 0 })
        && is_number(&second, 2)
        && is_faulty(&none, MachineFault::NoSuchTask { task: 3 })
}

/// Whether a job that isn't there is refused to be taken back, and a slot of two tasks is answered.
fn is_run<F: Service, R: Wait>(rt: &R, alloc: Global, front: &F, pass: &mut F::Pass) -> bool {
    let gone = front.asks(rt, alloc, pass, Ask::Withdraw { task: 2 });
    let slot = front.asks(rt, alloc, pass, Ask::Slot);
    is_faulty(&gone, MachineFault::NoJob { task: 2 }) && is_number(&slot, 3) && is_first_slot(&slot)
}

/// Whether new weights are refused where a task is ahead, and come into force two slots later, where none is.
fn is_reweighed<F: Service, R: Wait>(rt: &R, alloc: Global, front: &F, pass: &mut F::Pass) -> bool {
    let early = front.asks(rt, alloc, pass, Ask::Thirds);
    let second = front.asks(rt, alloc, pass, Ask::Slot);
    let third = front.asks(rt, alloc, pass, Ask::Slot);
    let level = front.asks(rt, alloc, pass, Ask::Thirds);
    let renewed = match &level {
        Some(Ok((6, Reply::Reweighed { slot }))) => *slot == 3,
        _ => false,
    };
    is_faulty(&early, MachineFault::NotLevel { task: 0 })
        && is_number(&second, 4)
        && is_number(&third, 5)
        && renewed
}

/// Whether all that one client asks is answered as it should be.
fn is_answered<F: Service, R: Wait>(
    rt: &R,
    alloc: Global,
    front: &F,
    pass: &mut F::Pass,
    reader: &mut F::Reader,
) -> bool {
    let submitted = are_submitted(rt, alloc, front, pass);
    let run = is_run(rt, alloc, front, pass);
    let settled = is_told_and_shown(rt, alloc, front, pass, reader, 2);
    let renewed = is_reweighed(rt, alloc, front, pass);
    submitted && run && settled && renewed
}

/// One client's session, beside another one that has nothing but its pass.
pub fn visit<F: Service, R: Wait>(
    rt: &R,
    alloc: Global,
    front: &F,
    reader: &mut F::Reader,
) -> Option<Visit<F::Pass>> {
    let mut first = front.admit(rt)?;
    let second = front.admit(rt)?;
    let answered = is_answered(rt, alloc, front, &mut first, reader);
    both(alloc, answered, second, first)
}

/// Whether the reader saw the last publication, and all commands are kept.
pub fn has_ended(ended: &Ended) -> bool {
    have_looked(&ended.looked, 1) && ended.marked == 7 && ended.number == 7
}

/// The end of a front that goes on behind a close with a pass out, and gets that pass.
fn closed_with<
    B: Since<AnyJob>,
    K: Desk<Quantum<AnyJob>, Done<AnyJob>> + Drop,
    D: Disk + Drop,
    R: Threads + Wait + Drop,
>(
    rt: &R,
    alloc: Global,
    open: Reopened<B, D, K, R>,
    pass: Pass<AnyJob, B>,
) -> Option<Closed<AnyJob, B, D>>
where
    K::Seat: Drop,
{
    let (front, crew, given) = open;
    let (mut given, mut pass) = (given, pass);
    let slot = front.asks(rt, alloc, &mut pass, Ask::Slot);
    if !is_number(&slot, 7) {
        return None;
    }
    given.passes.push(pass).ok()?;
    front.close(rt, crew, given).ok()
}

/// The end of a front that was to be closed without the last of these passes, which said so, and that goes on.
fn kept_open<
    B: Since<AnyJob>,
    K: Desk<Quantum<AnyJob>, Done<AnyJob>> + Drop,
    D: Disk + Drop,
    R: Threads + Wait + Drop,
>(
    rt: &R,
    alloc: Global,
    served: Served<B, D, K, R>,
    passes: Vec<Pass<AnyJob, B>>,
) -> Option<Closed<AnyJob, B, D>>
where
    K::Seat: Drop,
{
    let (front, crew, readers) = served;
    let mut passes = passes;
    let last = passes.pop()?;
    match front.close(rt, crew, Given { passes, readers }) {
        Err((CloseFault::PassOut { count: 1 }, front, crew, given)) => {
            closed_with(rt, alloc, (front, crew, given), last)
        }
        _ => None,
    }
}

/// Whether the store has these many commands and its new set once it is opened again.
fn is_opened<D: Disk + Drop>(alloc: Global, disk: D, number: u64) -> bool {
    match Store::<D, AnyJob>::open(alloc, disk) {
        Ok(again) => {
            let state = again.state();
            state.number() == number && state.columns().workers() == 1 && state.from() == 3
        }
        Err(_) => false,
    }
}

/// Whether a close without one of two passes says so, and the front goes on; and whether all is kept once it is closed with
/// both, also when its store is opened again.
pub fn is_ended<
    B: Since<AnyJob>,
    K: Desk<Quantum<AnyJob>, Done<AnyJob>> + Drop,
    D: Disk + Drop,
    R: Threads + Wait + Drop,
>(rt: &R, alloc: Global, served: Served<B, D, K, R>, passes: Vec<Pass<AnyJob, B>>) -> Option<bool>
where
    K::Seat: Drop,
{
    let (ended, disk) = left_by(kept_open(rt, alloc, served, passes)?);
    Some(has_ended(&ended) && is_opened(alloc, disk, 7))
}

#[test]
fn a_client_is_served_by_its_own_thread(rt: HostRuntime) {
    assert!(rt; in_memory(rt, rt.alloc(), Session::Served { workers: 0 }) == Some(true));
}

#[test]
fn a_client_is_served_by_one_worker(rt: HostRuntime) {
    assert!(rt; in_memory(rt, rt.alloc(), Session::Served { workers: 1 }) == Some(true));
}

#[test]
fn a_client_is_served_by_two_workers(rt: HostRuntime) {
    assert!(rt; in_memory(rt, rt.alloc(), Session::Served { workers: 2 }) == Some(true));
}
