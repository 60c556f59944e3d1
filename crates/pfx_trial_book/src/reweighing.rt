//! New weights among other commands: what they are answered, and the batches that they are taken in.

use crate::answers::{is_refused, submits, withdraws};
use crate::asking::Answer;
use crate::service::Service;
use crate::sessions::{Session, at_thirds};
use pfx_machine::{MachineFault, Reply};
use std::alloc::Global;

/// A batch as it should be: the workers of its rows, how many tasks it says to be real, its first number, and how many records it has.
type Shape = (u32, u32, u64, usize);

/// Whether new weights were accepted with this number, in force from slot 0 on.
fn is_reweighed(answer: &Option<Answer>, number: u64) -> bool {
    match answer {
        Some(Ok((got, Reply::Reweighed { slot }))) => *got == number && *slot == 0,
        _ => false,
    }
}

/// Whether the next batch has this shape. It is marked.
fn takes<S: Service>(alloc: Global, book: &mut S, shape: Shape) -> bool {
    let (workers, real, first, count) = shape;
    let right = match book.take(alloc) {
        Some(Ok(batch)) => {
            batch.workers == workers
                && batch.real == real
                && batch.first == first
                && batch.count == count
        }
        _ => false,
    };
    book.mark(11);
    right
}

/// Whether too few weights are refused.
fn refuses_few<S: Service>(alloc: Global, book: &mut S, pass: &mut S::Pass) -> bool {
    is_refused(&book.reweigh(alloc, pass, 2), MachineFault::WrongCount)
}

/// Whether new weights are accepted with this number.
fn reweighs<S: Service>(alloc: Global, book: &mut S, pass: &mut S::Pass, number: u64) -> bool {
    is_reweighed(&book.reweigh(alloc, pass, 3), number)
}

/// Whether too few weights are refused, and new weights are accepted between other commands, and again.
fn asks<S: Service>(alloc: Global, book: &mut S, pass: &mut S::Pass) -> bool {
    refuses_few(alloc, book, pass)
        && submits(book, pass, 0, 1)
        && withdraws(book, pass, 0, 2)
        && reweighs(alloc, book, pass, 3)
        && reweighs(alloc, book, pass, 4)
        && submits(book, pass, 1, 5)
}

/// Whether new weights between other commands are accepted, and taken alone.
pub fn visit<S: Service>(alloc: Global, book: &mut S) -> Option<bool> {
    let mut pass = book.admit()?;
    if !asks(alloc, book, &mut pass) {
        return Some(false);
    }
    let shapes: [Shape; 4] = [(2, 0, 1, 2), (2, 3, 3, 1), (1, 3, 4, 1), (1, 0, 5, 1)];
    for shape in shapes {
        if !takes(alloc, book, shape) {
            return Some(false);
        }
    }
    let looks = book.looks();
    Some(!looks.has_pending && looks.is_settled)
}

#[test]
fn new_weights_are_taken_alone(rt: HostRuntime) {
    assert!(rt; at_thirds(rt.alloc(), Session::Reweighing) == Some(true));
}
