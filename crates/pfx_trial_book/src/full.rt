//! A session of 1,048,576 commands, which accepts no more. Built, it takes half a second; `rt try` stops it after a minute.

use crate::asking::Answer;
use crate::calls::takes;
use crate::flushing::ask_pairs;
use crate::service::Service;
use crate::sessions::{Session, at_thirds};
use pfx_book::faults::BookFault;
use std::alloc::Global;

/// Whether so many commands can be asked, in groups of 16 that are taken and marked.
fn fill<S: Service>(alloc: Global, book: &mut S, pass: &mut S::Pass, groups: u32) -> bool {
    for group in 0..groups {
        let first = u64::from(group) * 16 + 1;
        if !ask_pairs(book, pass, 8) || !takes(alloc, book, first, 16) {
            return false;
        }
        book.mark(first);
    }
    true
}

/// Whether a command was refused since the session is full.
fn is_full(answer: &Option<Answer>) -> bool {
    matches!(answer, Some(Err(BookFault::SessionFull)))
}

/// Whether a Submit, a Withdraw that the machine would refuse, and a Slot are refused since the session is full.
fn refuses<S: Service>(book: &mut S, pass: &mut S::Pass) -> bool {
    book.looks().is_free
        && is_full(&book.submit(pass, 0))
        && is_full(&book.withdraw(pass, 3))
        && matches!(book.open(pass), Some(Err(BookFault::SessionFull)))
        && book.knows(pass).greatest == 1 << 20
        && !book.looks().has_pending
}

/// Whether a session is full with its last command, and not before.
pub fn visit<S: Service>(alloc: Global, book: &mut S) -> Option<bool> {
    let mut pass = book.admit()?;
    let filled = fill(alloc, book, &mut pass, 1 << 16);
    Some(filled && book.looks().marked == 1 << 20 && refuses(book, &mut pass))
}

#[test]
fn a_session_is_full(rt: HostRuntime) {
    assert!(rt; at_thirds(rt.alloc(), Session::Full) == Some(true));
}
