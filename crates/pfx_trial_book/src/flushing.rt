//! Batches, marks and receipts, and a flusher that gives up.

use crate::answers::is_told;
use crate::calls::takes;
use crate::service::Service;
use crate::sessions::{Session, at_thirds};
use pfx_fault::Cause;
use std::alloc::Global;

/// Whether so many jobs are given to task 0 and taken away.
pub fn ask_pairs<S: Service>(book: &mut S, pass: &mut S::Pass, pairs: u32) -> bool {
    for _pair in 0..pairs {
        let submitted = matches!(book.submit(pass, 0), Some(Ok(_)));
        if !submitted || !matches!(book.withdraw(pass, 0), Some(Ok(_))) {
            return false;
        }
    }
    true
}

/// Whether a receipt is given for this number, with this clock.
fn is_receipted<S: Service>(book: &mut S, pass: &mut S::Pass, number: u64, clock: u64) -> bool {
    match book.receipt(pass, number) {
        Some(Ok(given)) => given.number == number && given.clock == clock,
        _ => false,
    }
}

/// Whether receipts have their marks' clocks: of the start, of the first 16 commands, and of all twenty.
fn marks<S: Service>(alloc: Global, book: &mut S, pass: &mut S::Pass) -> bool {
    let begun = is_receipted(book, pass, 0, 7) && book.receipt(pass, 1).is_none();
    let sixteen = takes(alloc, book, 1, 16) && book.looks().marked == 0;
    book.mark(11);
    let first = is_receipted(book, pass, 16, 11) && is_receipted(book, pass, 3, 11);
    let four = takes(alloc, book, 17, 4) && book.receipt(pass, 17).is_none();
    book.mark(12);
    let second = is_receipted(book, pass, 20, 12) && is_receipted(book, pass, 3, 12);
    begun && sixteen && first && four && second && book.looks().is_settled
}

/// Whether a client is told of the first failure, and once, and receipts are given on.
fn gives_up<S: Service>(book: &mut S, pass: &mut S::Pass) -> bool {
    let before = !book.tell(pass) && book.looks().is_free;
    book.fail(Cause::Device);
    let looks = book.looks();
    let failed = looks.failure == Some(Cause::Device) && !looks.is_free && !looks.is_closed;
    let untold = book.knows(pass).lost.is_none();
    let told = untold && book.tell(pass) && is_told(book.knows(pass), 20);
    book.fail(Cause::Memory);
    let again = book.tell(pass) && is_told(book.knows(pass), 20);
    before && failed && told && again && is_receipted(book, pass, 20, 12)
}

/// Whether twenty commands are taken, marked and receipted, and then the flusher gives up.
pub fn visit<S: Service>(alloc: Global, book: &mut S) -> Option<bool> {
    let mut pass = book.admit()?;
    let marked = ask_pairs(book, &mut pass, 10) && marks(alloc, book, &mut pass);
    if !marked || book.take(alloc)?.is_ok() || book.looks().has_pending {
        return Some(false);
    }
    Some(gives_up(book, &mut pass))
}

#[test]
fn batches_are_taken_and_marked(rt: HostRuntime) {
    assert!(rt; at_thirds(rt.alloc(), Session::Flushing) == Some(true));
}
