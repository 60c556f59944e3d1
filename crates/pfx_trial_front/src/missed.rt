//! Two workers, one of whom is late: the front makes what is missing by itself, and drops the result that comes after it.

use crate::answers::{is_accepted, is_first_slot, is_number, is_settled};
use crate::fronts::{Ended, is_kept};
use crate::service::{Ask, Service};
use crate::sessions::{Session, Visit, alone, in_memory};
use std::alloc::Global;
use std::sync::Wait;

/// How many commands are called: two Submits, and slots after them.
const LAST: u64 = 6;

/// Whether two jobs are taken, and a slot that both have is answered with a receipt, and slots after it.
fn slots_are_answered<F: Service, R: Wait>(
    rt: &R,
    alloc: Global,
    front: &F,
    pass: &mut F::Pass,
) -> bool {
    let given = is_accepted(&front.asks(rt, alloc, pass, Ask::Submit { task: 0 }));
    let both = is_accepted(&front.asks(rt, alloc, pass, Ask::Submit { task: 1 }));
    let slot = front.asks(rt, alloc, pass, Ask::Slot);
    let mut answered = given && both && is_first_slot(&slot) && is_settled(rt, front, pass);
    for number in 4..LAST + 1 {
        let slot = front.asks(rt, alloc, pass, Ask::Slot);
        answered = is_number(&slot, number) && is_settled(rt, front, pass) && answered;
    }
    answered
}

/// Whether all slots are answered.
pub fn visit<F: Service, R: Wait>(rt: &R, alloc: Global, front: &F) -> Option<Visit<F::Pass>> {
    let mut pass = front.admit(rt)?;
    let answered = slots_are_answered(rt, alloc, front, &mut pass);
    alone(alloc, answered, pass)
}

/// Whether all is in the store.
pub fn has_ended(ended: &Ended) -> bool {
    is_kept(ended, LAST)
}

#[test]
fn what_a_late_worker_owes_is_made_again(rt: HostRuntime) {
    assert!(rt; in_memory(rt, rt.alloc(), Session::Missed) == Some(true));
}
