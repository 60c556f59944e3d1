//! Two Submits and a slot of two quanta, with results that are refused.

use crate::answers::{seals, seals_none, submits};
use crate::service::{Service, Taken};
use crate::sessions::{Session, at_thirds};
use pfx_crew::gathering::GatherFault;
use std::alloc::Global;

/// Whether a quantum was dealt by command 3 in slot 0 for this task, with five steps left.
fn is_dealt<S: Service>(book: &S, quantum: &S::Quantum, task: u16) -> bool {
    book.deals(quantum) == (3, 0, task, 5)
}

/// The two quanta of the slot that this pass opens, if they are as they should be.
fn dealt<S: Service>(book: &mut S, pass: &mut S::Pass) -> Option<(S::Quantum, S::Quantum)> {
    let mut quanta = book.open(pass)?.ok()?;
    let second = quanta.pop()?;
    let first = quanta.pop()?;
    if !quanta.is_empty() || !is_dealt(book, &first, 0) || !is_dealt(book, &second, 1) {
        return None;
    }
    Some((first, second))
}

/// Whether the result of a quantum is refused for this fault, and task 0's isn't back.
fn refuses<S: Service>(book: &mut S, quantum: S::Quantum, fault: GatherFault) -> bool {
    book.give(quantum) == Err(fault) && book.missing() == Some(0)
}

/// Whether the results of these two quanta, doubles and strangers among them, are answered as expected.
fn results<S: Service>(
    book: &mut S,
    pass: &mut S::Pass,
    first: S::Quantum,
    second: S::Quantum,
) -> bool {
    let double = book.again(&second, 3);
    let stranger = book.again(&first, 2);
    book.missing() == Some(0)
        && book.give(second).is_ok()
        && refuses(book, double, GatherFault::Double { task: 1 })
        && refuses(book, stranger, GatherFault::Stranger { task: 0 })
        && seals_none(book, pass)
        && book.looks().is_open
        && book.give(first).is_ok()
        && book.missing().is_none()
}

/// Whether a batch begins with command 1, and its third record is that of a slot in which tasks 0 and 1 took a step.
fn has_slot(batch: Taken) -> bool {
    let row = Some([(0, Some(4)), (1, Some(4))]);
    batch.first == 1 && batch.count == 3 && batch.row == row
}

/// Whether two Submits of two passes are accepted.
fn are_submitted<S: Service>(book: &mut S, one: &mut S::Pass, other: &mut S::Pass) -> bool {
    submits(book, one, 0, 1) && submits(book, other, 1, 2)
}

/// Whether the first pass opens a slot, its results come back, wrong ones too, and it alone seals the slot.
fn is_run<S: Service>(book: &mut S, one: &mut S::Pass, other: &mut S::Pass) -> Option<bool> {
    let (first, second) = dealt(book, one)?;
    let given = results(book, one, first, second) && seals_none(book, other);
    Some(given && seals(book, one, 3) && !book.looks().is_open)
}

/// Whether the next batch has that slot.
fn is_taken<S: Service>(alloc: Global, book: &mut S) -> bool {
    match book.take(alloc) {
        Some(Ok(batch)) => has_slot(batch),
        _ => false,
    }
}

/// Two passes submit, the first one opens a slot, and its results come back, wrong ones too. Whether all is as expected.
pub fn visit<S: Service>(alloc: Global, book: &mut S) -> Option<bool> {
    let mut one = book.admit()?;
    let mut other = book.admit()?;
    if !are_submitted(book, &mut one, &mut other) {
        return None;
    }
    let run = is_run(book, &mut one, &mut other)?;
    Some(run && is_taken(alloc, book))
}

#[test]
fn a_slot_is_worked(rt: HostRuntime) {
    assert!(rt; at_thirds(rt.alloc(), Session::Worked) == Some(true));
}
