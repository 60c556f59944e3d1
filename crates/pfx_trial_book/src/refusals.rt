//! Each refusal by its name. Results that are refused stand in `worked`, refused memory in `memory`.

use crate::answers::{opens_none, seals_none, submits, submits_none, withdraws, withdraws_none};
use crate::calls::takes;
use crate::flushing::ask_pairs;
use crate::service::Service;
use crate::sessions::{Session, at_thirds, is_right};
use crate::states::{Held, at_the_limits, idle, urgent};
use pfx_choice::ChoiceFault;
use pfx_crew::gathering::GatherFault;
use pfx_machine::MachineFault;
use std::alloc::Global;

/// Whether commands for tasks are refused as the machine refuses them, and take no number.
fn tasks<S: Service>(book: &mut S, pass: &mut S::Pass) -> bool {
    let none = MachineFault::NoSuchTask { task: 3 };
    let busy = MachineFault::TaskBusy { task: 0 };
    let empty = MachineFault::NoJob { task: 1 };
    submits_none(book, pass, 3, none)
        && withdraws_none(book, pass, 3, none)
        && submits(book, pass, 0, 1)
        && submits_none(book, pass, 0, busy)
        && withdraws_none(book, pass, 1, empty)
        && book.knows(pass).greatest == 1
        && withdraws(book, pass, 0, 2)
}

/// Whether a result is a stranger's if no slot is open.
fn strange<S: Service>(book: &mut S) -> Option<bool> {
    let quantum = book.stranger()?;
    Some(book.missing().is_none() && book.give(quantum) == Err(GatherFault::Stranger { task: 5 }))
}

/// Whether no slot is sealed that isn't open.
fn unopened<S: Service>(book: &mut S, pass: &mut S::Pass) -> bool {
    !book.looks().is_open && seals_none(book, pass)
}

/// Whether 63 passes more are given out, and then none.
fn passes<S: Service>(book: &mut S) -> bool {
    for _pass in 1..64 {
        if book.admit().is_none() {
            return false;
        }
    }
    book.looks().passes == 64 && book.admit().is_none() && book.looks().passes == 64
}

/// Whether there is room for 64 commands that aren't marked, two of which the book has, and more once they are.
fn room<S: Service>(alloc: Global, book: &mut S, pass: &mut S::Pass) -> bool {
    let filled = ask_pairs(book, pass, 31);
    let full = book.looks();
    let taken = takes(alloc, book, 1, 16) && !book.looks().has_room;
    book.mark(8);
    let again = book.looks();
    let bounded = filled && !full.has_room && !full.is_free && taken;
    bounded && again.is_free && again.marked == 16 && again.has_pending
}

/// Whether nothing is taken if nothing waits, and the vector comes back.
fn nothing_waits<S: Service>(alloc: Global, book: &mut S) -> bool {
    match book.take(alloc) {
        Some(Err(capacity)) => capacity >= 16,
        _ => false,
    }
}

/// Whether each kind of refusal is as expected, of three tasks of 2/3 on two workers.
pub fn visit<S: Service>(alloc: Global, book: &mut S) -> Option<bool> {
    let mut pass = book.admit()?;
    let waits = nothing_waits(alloc, book);
    let named = tasks(book, &mut pass);
    let repelled = strange(book) == Some(true);
    let unsealed = unopened(book, &mut pass);
    let bounded = room(alloc, book, &mut pass);
    let counted = passes(book);
    book.shut();
    let closed = !book.looks().is_free;
    Some(waits && named && repelled && unsealed && bounded && counted && closed)
}

/// Whether a book is refused the last slot, and all after the last number.
pub fn visit_limits<S: Service>(book: &mut S) -> Option<bool> {
    let mut pass = book.admit()?;
    let fault = MachineFault::NoRow(ChoiceFault::SlotLimit);
    let last = opens_none(book, &mut pass, fault) && withdraws(book, &mut pass, 0, (1 << 48) - 1);
    let fault = MachineFault::NumberLimit;
    let behind = opens_none(book, &mut pass, fault)
        && submits_none(book, &mut pass, 0, fault)
        && withdraws_none(book, &mut pass, 3, fault);
    Some(last && behind)
}

/// Whether a book opens no slot, for this fault.
pub fn visit_stuck<S: Service>(book: &mut S, fault: MachineFault) -> Option<bool> {
    let mut pass = book.admit()?;
    let refused = opens_none(book, &mut pass, fault);
    let looks = book.looks();
    Some(refused && !looks.is_open && !looks.has_pending)
}

/// Whether a book that begins at this state is as it should be in this session.
fn is_refused_at(alloc: Global, state: Option<Held>, session: Session) -> bool {
    match state {
        Some(state) => is_right(alloc, &state, session) == Some(true),
        None => false,
    }
}

#[test]
fn refusals_have_their_names(rt: HostRuntime) {
    assert!(rt; at_thirds(rt.alloc(), Session::Refusals) == Some(true));
}

#[test]
fn a_book_ends_at_the_limits(rt: HostRuntime) {
    let alloc = rt.alloc();
    assert!(rt; is_refused_at(alloc, at_the_limits(alloc), Session::Limits));
}

#[test]
fn a_ledger_that_cannot_go_on_opens_no_slot(rt: HostRuntime) {
    let alloc = rt.alloc();
    let fault = MachineFault::NoRow(ChoiceFault::TooManyUrgent { urgent: 2, m: 1 });
    assert!(rt; is_refused_at(alloc, urgent(alloc), Session::Stuck { fault }));
    let fault = MachineFault::NoRow(ChoiceFault::TooFewEligible { eligible: 2, m: 3 });
    assert!(rt; is_refused_at(alloc, idle(alloc), Session::Stuck { fault }));
}
