//! Calls of a book whose premises are tested first. If one fails, `None`.
ghost use Rattle.std.specs.Prelude.{◌≡◌, IsTrue, None, false};
ghost use Rattle.pfx_book.specs.Register.{HasRoom};

use crate::states::Trial;
use pfx_book::book::{Book, Pass};
use pfx_book::closing::PlainReceipt;
use pfx_book::faults::BookFault;
use pfx_book::name::Named;
use pfx_jobs::quantum::Quantum;
use pfx_machine::{Command, Reply};
use pfx_weights::Weights;
use std::alloc::{AllocError, Global};

/// What a command is answered.
pub type Answer = Result<(u64, Reply), BookFault>;

/// Whether commands may be asked.
pub fn is_free<J: Trial, B: Named<J>>(book: &Book<J, B>) -> bool
    ensures none_open { IsTrue result → book.now.session.opened ≡ None }
    ensures room { IsTrue result → HasRoom book.now.session }
    ensures goes_on { IsTrue result → book.now.failure ≡ None }
    ensures not_shut { IsTrue result → book.now.shut ≡ false }
{
    !book.is_open() && book.has_room() && book.failure().is_none() && !book.is_closed()
}

/// Submits a count of five steps.
pub fn submit<J: Trial, B: Named<J>>(
    book: &mut Book<J, B>,
    pass: &mut Pass<J, B>,
    task: u16,
) -> Option<Answer> {
    let job = J::count()?;
    if !is_free(book) {
        return None;
    }
    Some(book.ask(pass, Command::Submit { task, job }))
}

/// Withdraws.
pub fn withdraw<J: Trial, B: Named<J>>(
    book: &mut Book<J, B>,
    pass: &mut Pass<J, B>,
    task: u16,
) -> Option<Answer> {
    if !is_free(book) {
        return None;
    }
    Some(book.ask(pass, Command::Withdraw { task }))
}

/// Asks for new weights, each of 1/3, and one worker.
pub fn reweigh<J: Trial, B: Named<J>>(
    alloc: Global,
    book: &mut Book<J, B>,
    pass: &mut Pass<J, B>,
    count: usize,
) -> Option<Answer> {
    let items = Vec::from_elem(alloc, (1, 3), count).ok()?;
    if !is_free(book) {
        return None;
    }
    let weights = Weights::new(items);
    Some(book.ask(
        pass,
        Command::Reweigh {
            workers: 1,
            weights,
        },
    ))
}

/// Opens a slot.
pub fn open<J: Trial, B: Named<J>>(
    book: &mut Book<J, B>,
    pass: &mut Pass<J, B>,
) -> Option<Result<Vec<Quantum<J>>, BookFault>> {
    if !is_free(book) {
        return None;
    }
    Some(book.open(pass))
}

/// Gives a receipt.
pub fn receipt<J: Trial, B: Named<J>>(
    book: &mut Book<J, B>,
    pass: &mut Pass<J, B>,
    number: u64,
) -> Option<Result<PlainReceipt, AllocError>> {
    if number > book.marked() {
        return None;
    }
    Some(book.receipt(pass, number))
}

/// Tells a client that the flusher has given up. Whether it has.
pub fn tell<J: Trial, B: Named<J>>(book: &mut Book<J, B>, pass: &mut Pass<J, B>) -> bool {
    if book.failure().is_none() {
        return false;
    }
    book.note_failure(pass);
    true
}
