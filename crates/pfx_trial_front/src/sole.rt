//! A client that is the only one: the board and a copy of the state after its commands.

use crate::answers::is_accepted;
use crate::fronts::{Ended, is_kept};
use crate::service::{Ask, Service};
use crate::sessions::{Session, Visit, both, in_memory};
use std::alloc::Global;
use std::sync::Wait;

/// Whether two Submits and a slot are accepted, the slot of the only client. None of them is waited for.
fn are_accepted<F: Service, R: Wait>(rt: &R, alloc: Global, front: &F, pass: &mut F::Pass) -> bool {
    let first = is_accepted(&front.asks(rt, alloc, pass, Ask::Submit { task: 0 }));
    let second = is_accepted(&front.asks(rt, alloc, pass, Ask::Submit { task: 2 }));
    let slot = front.hears(rt, alloc, pass, Ask::Slot) == Some((true, true));
    first && second && slot
}

/// Whether the client is given the state after three commands, with the job of task 0 a step on, and that of task 2 as it
/// began, and the board of it.
fn is_copied<F: Service, R: Wait>(rt: &R, front: &F, pass: &mut F::Pass) -> bool {
    let state = front.copied(rt, pass);
    let board = front.boarded(rt, pass);
    state == Some(Some((3, [Some(4), None, Some(5)]))) && board == Some(Some((3, 2)))
}

/// Whether the client is given neither, and with a refusal hears that it isn't the only one.
fn is_told_nothing<F: Service, R: Wait>(
    rt: &R,
    alloc: Global,
    front: &F,
    pass: &mut F::Pass,
) -> bool {
    let heard = front.hears(rt, alloc, pass, Ask::Withdraw { task: 1 });
    let state = front.copied(rt, pass);
    let board = front.boarded(rt, pass);
    let others = state == Some(None) && board == Some(None) && heard == Some((false, false));
    others && !front.is_alone(rt, pass)
}

/// Whether the only client knows that it is, and is given a copy of its state behind its commands.
fn is_served_alone<F: Service, R: Wait>(
    rt: &R,
    alloc: Global,
    front: &F,
    pass: &mut F::Pass,
) -> bool {
    let sole = front.is_alone(rt, pass);
    let accepted = are_accepted(rt, alloc, front, pass);
    let copied = is_copied(rt, front, pass);
    sole && accepted && copied
}

/// Whether the only client is given a copy of its state, and one of two clients none.
pub fn visit<F: Service, R: Wait>(rt: &R, alloc: Global, front: &F) -> Option<Visit<F::Pass>> {
    let mut first = front.admit(rt)?;
    let served = is_served_alone(rt, alloc, front, &mut first);
    let second = front.admit(rt)?;
    let refused = is_told_nothing(rt, alloc, front, &mut first);
    both(alloc, served && refused, first, second)
}

/// Whether all is in the store.
pub fn has_ended(ended: &Ended) -> bool {
    is_kept(ended, 3)
}

#[test]
fn the_only_client_has_a_copy_of_its_state(rt: HostRuntime) {
    assert!(rt; in_memory(rt, rt.alloc(), Session::Sole) == Some(true));
}
