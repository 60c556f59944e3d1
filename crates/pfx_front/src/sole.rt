//! A client that is the only one.
ghost use Rattle.std.specs.Prelude.{◌≡◌, IfOk, IfSome, IsTrue};
ghost use Rattle.pfx_front.specs.Sole.{IsAlone, IsShownBy, state_of};

use crate::calls::Front;
use crate::name::Since;
use pfx_book::book::{Book, Pass};
use pfx_crew::desk::Desk;
use pfx_jobs::job::Job;
use pfx_jobs::quantum::{Done, Quantum};
use pfx_machine::{Board, State};
use std::alloc::AllocError;
use std::sync::Wait;

/// What a call gives, with whether no other pass was out then.
#[derive(Drop)]
pub struct Heard<T: Drop> {
    /// Whether the pass was the only one.
    pub sole: bool,
    /// What the call gives.
    pub said: T,
}

/// Whether this is the only pass that is out; then its notes are the session.
pub(crate) fn is_sole_in<J: Job, B: Since<J>>(book: &mut Book<J, B>, pass: &mut Pass<J, B>) -> bool
    ensures same { (book.new ≡ book.old) × (pass.new ≡ pass.old) }
    ensures alone { IsTrue result → IsAlone J.kind B.start pass.old.1 }
    ensures state { IsTrue result → book.old.session.state ≡ state_of J.kind B.start pass.old.1 }
{
    book.legal();
    book.is_sole(pass)
}

/// The book, if this is the only pass that is out; then its state is the one after the pass's commands.
fn sole_book<'b, J: Job, B: Since<J>>(
    held: &'b mut Option<Book<J, B>>,
    pass: &mut Pass<J, B>,
) -> Option<&'b Book<J, B>>
    ensures same { pass.new ≡ pass.old }
    ensures state { IfSome result (λ book. book.now.session.state ≡ state_of J.kind B.start pass.old.1) }
{
    let Some(book) = held else {
        return None;
    };
    if !is_sole_in(book, pass) {
        return None;
    }
    Some(book)
}

impl<J: Job, B: Since<J>, K: Desk<Quantum<J>, Done<J>> + Drop> Front<J, B, K>
where
    K::Seat: Drop,
{
    /// Whether no other pass is out. Then what this pass notes is all that has happened: each of its answers is the machine's
    /// after the commands that it had accepted before.
    pub fn is_sole<R: Wait>(&self, rt: &R, pass: &mut Pass<J, B>) -> bool
        ensures same { pass.new ≡ pass.old }
        ensures alone { IsTrue result → IsAlone J.kind B.start pass.old.1 }
    {
        match &mut *self.shared.monitor.book.lock(rt) {
            Some(book) => is_sole_in(book, pass),
            None => false,
        }
    }

    /// The board of the state after this pass's commands, durable or not; `None` if other passes are out. While it is made the
    /// lock is held, for nobody else can wait for it but the flusher. `AllocError` if an allocation fails.
    pub fn board<R: Wait>(&self, rt: &R, pass: &mut Pass<J, B>) -> Result<Option<Board>, AllocError>
        ensures same { pass.new ≡ pass.old }
        ensures shows { IfOk result (λ o. IfSome o (IsShownBy J.kind (state_of J.kind B.start pass.old.1))) }
    {
        let mut held = self.shared.monitor.book.lock(rt);
        let Some(book) = sole_book(&mut held, pass) else {
            return Ok(None);
        };
        Ok(Some(book.board()?))
    }

    /// A copy of the state after this pass's commands, durable or not; `None` if other passes are out. While it is made the
    /// lock is held, as for the board. `AllocError` if an allocation fails.
    pub fn state<R: Wait>(
        &self,
        rt: &R,
        pass: &mut Pass<J, B>,
    ) -> Result<Option<State<J>>, AllocError>
        ensures same { pass.new ≡ pass.old }
        ensures copies { IfOk result (λ o. IfSome o (λ copy. copy ≡ state_of J.kind B.start pass.old.1)) }
    {
        let mut held = self.shared.monitor.book.lock(rt);
        let Some(book) = sole_book(&mut held, pass) else {
            return Ok(None);
        };
        Ok(Some(book.state()?))
    }
}
