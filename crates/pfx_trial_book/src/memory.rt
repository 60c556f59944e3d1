//! Calls that are refused memory, and again. Run with each allocation failing in turn, each refusal is an answer, and changes
//! nothing: what is asked once more is answered as if it had never been refused.

use crate::answers::{is_submitted, is_withdrawn, is_without_memory, seals};
use crate::asking::Answer;
use crate::service::Service;
use crate::sessions::{Session, at_thirds};
use pfx_book::closing::PlainReceipt;
use pfx_book::faults::BookFault;

/// Submits, and once more if an allocation fails.
fn submit_again<S: Service>(book: &mut S, pass: &mut S::Pass, task: u16) -> Option<Answer> {
    let answer = book.submit(pass, task);
    if is_without_memory(&answer) {
        return book.submit(pass, task);
    }
    answer
}

/// Withdraws, and once more if an allocation fails.
fn withdraw_again<S: Service>(book: &mut S, pass: &mut S::Pass, task: u16) -> Option<Answer> {
    let answer = book.withdraw(pass, task);
    if is_without_memory(&answer) {
        return book.withdraw(pass, task);
    }
    answer
}

/// Whether a Submit for a task is accepted so with this number.
fn submits<S: Service>(book: &mut S, pass: &mut S::Pass, task: u16, number: u64) -> bool {
    is_submitted(&submit_again(book, pass, task), number, task)
}

/// Whether a Withdraw for a task is accepted so with this number.
fn withdraws<S: Service>(book: &mut S, pass: &mut S::Pass, task: u16, number: u64) -> bool {
    is_withdrawn(&withdraw_again(book, pass, task), number, task)
}

/// Opens a slot, and once more if an allocation fails.
fn open_again<S: Service>(
    book: &mut S,
    pass: &mut S::Pass,
) -> Option<Result<Vec<S::Quantum>, BookFault>> {
    let answer = book.open(pass);
    if matches!(answer, Some(Err(BookFault::NoMemory))) && !book.looks().is_open {
        return book.open(pass);
    }
    answer
}

/// A receipt for the start, once more if an allocation fails.
fn receipt_again<S: Service>(book: &mut S, pass: &mut S::Pass) -> Option<PlainReceipt> {
    match book.receipt(pass, 0)? {
        Ok(given) => Some(given),
        Err(_) => book.receipt(pass, 0)?.ok(),
    }
}

/// Whether nine receipts are given, each of the start.
fn is_receipted<S: Service>(book: &mut S, pass: &mut S::Pass) -> bool {
    for _time in 0..9 {
        match receipt_again(book, pass) {
            Some(given) if given.clock == 7 => {}
            _ => return false,
        }
    }
    true
}

/// Whether a slot is opened, run and sealed, with nine receipts in its midst.
fn runs<S: Service>(book: &mut S, pass: &mut S::Pass) -> Option<bool> {
    let quanta = open_again(book, pass)?.ok()?;
    if !is_receipted(book, pass) {
        return None;
    }
    for quantum in quanta {
        book.give(quantum).ok()?;
    }
    Some(seals(book, pass, 3))
}

/// Whether all is answered as it should be, whatever was refused.
pub fn visit<S: Service>(book: &mut S) -> bool {
    let (Some(mut one), Some(mut other)) = (book.admit(), book.admit()) else {
        return false;
    };
    submits(book, &mut one, 0, 1)
        && submits(book, &mut other, 1, 2)
        && runs(book, &mut one) == Some(true)
        && withdraws(book, &mut other, 1, 4)
        && book.knows(&one).greatest == 3
        && book.knows(&other).greatest == 4
}

#[test]
fn refused_memory_is_an_answer(rt: HostRuntime) {
    // Without memory there may be no book.
    assert!(rt; at_thirds(rt.alloc(), Session::Memory) != Some(false));
}
