//! Passes that come back, in order and out of order.

use crate::service::Service;
use crate::sessions::{Session, at_thirds};
use std::alloc::Global;

/// Whether a pass has an entry: of a Submit, or for task 2 of a Withdraw that is refused.
fn is_entered<S: Service>(book: &mut S, pass: &mut S::Pass, task: u16) -> bool {
    if task < 2 {
        matches!(book.submit(pass, task), Some(Ok(_)))
    } else {
        matches!(book.withdraw(pass, task), Some(Err(_)))
    }
}

/// A pass with such an entry.
fn entered<S: Service>(book: &mut S, task: u16) -> Option<S::Pass> {
    let mut pass = book.admit()?;
    if is_entered(book, &mut pass, task) {
        Some(pass)
    } else {
        None
    }
}

/// Three passes, each with an entry, in their order. The last one's is a refusal.
fn three<S: Service>(alloc: Global, book: &mut S) -> Option<Vec<S::Pass>> {
    let mut passes = Vec::with_capacity(alloc, 3).ok()?;
    for task in 0..3 {
        passes.push(entered(book, task)?).ok()?;
    }
    Some(passes)
}

/// Whether no passes are all passes.
fn are_none<S: Service>(alloc: Global, book: &mut S) -> bool {
    let mut none = Vec::new(alloc);
    book.gathered(&mut none)
}

/// Puts the third pass before the second, which is the last of these.
fn turn<P: Drop>(passes: &mut Vec<P>, third: P) -> Option<()> {
    let second = passes.pop()?;
    passes.push(third).ok()?;
    passes.push(second).ok()
}

/// Whether passes are gathered if all are back in order, and only there. They come back in order.
pub fn visit<S: Service>(alloc: Global, book: &mut S) -> Option<bool> {
    let empty = are_none(alloc, book);
    let mut passes = three(alloc, book)?;
    let ordered = book.gathered(&mut passes) && book.gathered(&mut passes);
    let third = passes.pop()?;
    let missing = book.gathered(&mut passes) || are_none(alloc, book);
    turn(&mut passes, third)?;
    let turned = book.gathered(&mut passes);
    Some(empty && ordered && !missing && !turned)
}

#[test]
fn passes_are_gathered_in_order(rt: HostRuntime) {
    assert!(rt; at_thirds(rt.alloc(), Session::Closing) == Some(true));
}
