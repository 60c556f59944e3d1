//! The book's lock, and what threads wait for.
//!
//! Why it is so:
//! - **Three condition variables**: work for the flusher, marks, and a book that may be asked. With one, each mark woke every client that
//!   waited for a slot's end.
ghost use Rattle.std.specs.Prelude.{◌≡◌, ℕ, None, false, IsTrue};
ghost use Rattle.pfx_book.specs.Register.{new_register, HasRoom};

use crate::durable::Durable;
use crate::name::Since;
use pfx_book::book::Book;
use pfx_jobs::job::Job;
use std::sync::atomic::{AtomicU64, Ordering};
use std::sync::{Condvar, Mutex};

/// A book under a lock, with what threads wait for: the flusher for work, clients for marks, and clients for a book that may be
/// asked. `close` takes the book out. Under a lock of its own lies what was durable at the last publication, which is put there before
/// its commands are marked. Two numbers are touched under the book's lock alone.
#[derive(Drop)]
pub struct Monitor<J: Job, B: Since<J>> {
    pub(crate) book: Mutex<Option<Book<J, B>>>,
    pub(crate) durable: Mutex<Durable<J, B>>,
    pub(crate) work: Condvar,
    pub(crate) marked: Condvar,
    pub(crate) free: Condvar,
    // The number of the command that was accepted last, or 0.
    pub(crate) last: AtomicU64,
    // The number that the flusher waits for, or 0 where any command will do.
    pub(crate) wanted: AtomicU64,
}

impl<J: Job, B: Since<J>> Monitor<J, B> {
    /// With this book, of which nobody has a pass yet, what is durable, and nobody waiting.
    pub(crate) fn new(book: Book<J, B>, durable: Durable<J, B>) -> Monitor<J, B>
        requires { (clock : ℕ) × (book ≡ new_register B.start clock) }
    {
        Monitor {
            book: Mutex::new(Some(book)),
            durable: Mutex::new(durable),
            work: Condvar::new(),
            marked: Condvar::new(),
            free: Condvar::new(),
            last: AtomicU64::new(0),
            wanted: AtomicU64::new(0),
        }
    }

    /// The number of the command that was accepted last, or 0.
    pub(crate) fn asked(&self) -> u64 {
        self.last.load(Ordering::Relaxed)
    }

    /// Notes that the command of this number was accepted: whether the flusher has what it waits for.
    pub(crate) fn notes(&self, number: u64) -> bool {
        self.last.store(number, Ordering::Relaxed);
        self.wanted.load(Ordering::Relaxed) <= number
    }

    /// Wakes the flusher, if it has what it waits for, and a client that waits for the book.
    pub(crate) fn wake(&self, enough: bool) {
        if enough {
            self.work.notify_one();
        }
        self.free.notify_one();
    }
}

/// Whether a command may be asked of the book: the flusher goes on, the session isn't closed, no slot is open, and fewer than
/// 64 commands wait for their mark.
pub(crate) fn is_ready<J: Job, B: Since<J>>(book: &Book<J, B>) -> bool
    ensures none_open { IsTrue result → book.now.session.opened ≡ None }
    ensures room { IsTrue result → HasRoom book.now.session }
    ensures goes_on { IsTrue result → book.now.failure ≡ None }
    ensures not_shut { IsTrue result → book.now.shut ≡ false }
{
    book.failure().is_none() && !book.is_closed() && !book.is_open() && book.has_room()
}

/// Whether a client has to wait: the flusher goes on, but no command may be asked.
pub(crate) fn is_busy<J: Job, B: Since<J>>(book: &Option<Book<J, B>>) -> bool {
    match book {
        Some(book) => book.failure().is_none() && !is_ready(book),
        None => true,
    }
}
