//! Each call once, through the life of a book that begins after one command.

use crate::answers::{is_told, seals, submits, withdraws};
use crate::service::Service;
use crate::sessions::{Session, is_right};
use crate::states::later;
use pfx_fault::Cause;
use std::alloc::Global;

/// Whether a new book is as it should be.
fn is_new<S: Service>(book: &S) -> bool {
    let looks = book.looks();
    let is_idle = !looks.is_open && !looks.has_pending && looks.is_settled;
    let goes_on = looks.has_room && !looks.is_closed && looks.failure.is_none();
    is_idle && goes_on && looks.marked == 1 && looks.passes == 0
}

/// Whether the first pass of a book is as it should be.
fn is_first<S: Service>(book: &S, pass: &S::Pass) -> bool {
    let known = book.knows(pass);
    let is_blank = known.greatest == 0 && known.lost.is_none();
    known.number == 1 && is_blank && book.looks().passes == 1
}

/// Whether a Submit and a Withdraw are taken.
fn asks<S: Service>(book: &mut S, pass: &mut S::Pass) -> bool {
    let submitted = submits(book, pass, 0, 2);
    let withdrawn = withdraws(book, pass, 2, 3);
    let looks = book.looks();
    let waits = looks.has_pending && !looks.is_settled;
    submitted && withdrawn && book.knows(pass).greatest == 3 && waits
}

/// The only quantum of the slot that this pass opens.
fn dealt<S: Service>(book: &mut S, pass: &mut S::Pass) -> Option<S::Quantum> {
    let mut quanta = book.open(pass)?.ok()?;
    let quantum = quanta.pop()?;
    if quanta.is_empty() {
        Some(quantum)
    } else {
        None
    }
}

/// Whether a slot of one quantum is opened, run and sealed.
fn runs<S: Service>(book: &mut S, pass: &mut S::Pass) -> Option<bool> {
    let quantum = dealt(book, pass)?;
    let (number, _slot, task, _left) = book.deals(&quantum);
    let is_dealt = number == 4 && task == 0 && book.missing() == Some(0);
    let opened = book.looks().is_open && is_dealt;
    let given = book.give(quantum).is_ok() && book.missing().is_none();
    let sealed = seals(book, pass, 4);
    let ended = !book.looks().is_open && book.knows(pass).greatest == 4;
    Some(opened && given && sealed && ended)
}

/// Whether the next batch begins with this number and has so many records, of rows of two workers.
pub fn takes<S: Service>(alloc: Global, book: &mut S, first: u64, count: usize) -> bool {
    match book.take(alloc) {
        Some(Ok(batch)) => { batch.workers == 2 && batch.first == first && batch.count == count }
        _ => false,
    }
}

/// Whether all is taken and marked, and a receipt given.
fn marks<S: Service>(alloc: Global, book: &mut S, pass: &mut S::Pass) -> Option<bool> {
    let taken = takes(alloc, book, 2, 3);
    let looks = book.looks();
    let waits = !looks.has_pending && !looks.is_settled;
    book.mark(9);
    let looks = book.looks();
    let given = book.receipt(pass, 4)?.ok()?;
    let receipted = given.number == 4 && given.clock == 9;
    Some(taken && waits && looks.marked == 4 && looks.is_settled && receipted)
}

/// Whether the copy of the state has just task 0's job, one step on.
fn is_copied<S: Service>(book: &S) -> bool {
    book.copied() == Some((4, [Some(4), None, None]))
}

/// Whether the book is closed, and the client told why.
fn ends<S: Service>(book: &mut S, pass: &mut S::Pass) -> bool {
    book.shut();
    book.fail(Cause::Device);
    let told = book.tell(pass) && is_told(book.knows(pass), book.looks().marked);
    let looks = book.looks();
    looks.is_closed && looks.failure == Some(Cause::Device) && told
}

/// Whether each part of a book's life is as it should be, with its first pass.
fn lives<S: Service>(alloc: Global, book: &mut S, pass: &mut S::Pass) -> bool {
    let first = is_first(book, pass);
    let asked = asks(book, pass);
    let ran = runs(book, pass) == Some(true);
    let marked = marks(alloc, book, pass) == Some(true);
    let copied = is_copied(book);
    let ended = ends(book, pass);
    first && asked && ran && marked && copied && ended
}

/// Whether a new book lives so, and its pass is all passes.
pub fn visit<S: Service>(alloc: Global, book: &mut S) -> Option<bool> {
    let new = is_new(book);
    let mut pass = book.admit()?;
    let lived = lives(alloc, book, &mut pass);
    let mut passes = Vec::new(alloc);
    passes.push(pass).ok()?;
    Some(new && lived && book.gathered(&mut passes))
}

/// Whether a book's life is as it should be.
fn book_lives(alloc: Global) -> Option<bool> {
    let state = later(alloc)?;
    is_right(alloc, &state, Session::Calls)
}

#[test]
fn a_book_lives(rt: HostRuntime) {
    assert!(rt; book_lives(rt.alloc()) == Some(true));
}
