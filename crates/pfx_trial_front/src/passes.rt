//! All passes that there are.

use crate::answers::{admit, is_accepted, is_settled};
use crate::fronts::{Ended, is_kept};
use crate::service::{Ask, Service};
use crate::sessions::{Session, Visit, in_memory};
use std::alloc::Global;
use std::sync::Wait;

/// How many passes a front gives.
const MOST: usize = 64;

/// Whether a slot is run, with a receipt.
fn is_called<F: Service, R: Wait>(rt: &R, alloc: Global, front: &F, pass: &mut F::Pass) -> bool {
    let called = is_accepted(&front.asks(rt, alloc, pass, Ask::Slot));
    let settled = is_settled(rt, front, pass);
    called && settled
}

/// Whether there are 64 passes, by the last of which a slot is run, and no more.
pub fn visit<F: Service, R: Wait>(rt: &R, alloc: Global, front: &F) -> Option<Visit<F::Pass>> {
    let mut passes = admit(rt, alloc, front, 100)?;
    let all = passes.len() == MOST && front.admit(rt).is_none();
    let called = match passes.last_mut() {
        Some(last) => is_called(rt, alloc, front, last),
        None => false,
    };
    Some((all && called, passes))
}

/// Whether all is in the store, and all passes come back.
pub fn has_ended(ended: &Ended) -> bool {
    is_kept(ended, 1) && ended.passes == MOST
}

#[test]
fn there_are_64_passes(rt: HostRuntime) {
    assert!(rt; in_memory(rt, rt.alloc(), Session::Passes) == Some(true));
}
