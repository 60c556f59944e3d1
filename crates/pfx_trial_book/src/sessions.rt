//! What the clients of a book and its flusher do in each test, and the book at which they do it.
ghost use Rattle.std.specs.Prelude.{◌≡◌};

use crate::flusher::begin;
use crate::service::Service;
use crate::states::{Trial, thirds};
use crate::{calls, closing, flushing, full, memory, refusals, reweighing, worked};
use pfx_book::name::Named;
use pfx_book::note::Note;
use pfx_kinds::any::AnyJob;
use pfx_machine::{MachineFault, State};
use pfx_token::tokens::UnnamedKeeper;
use std::alloc::Global;
use std::marker::Brand;

/// What happens at a book.
#[derive(Clone, Copy)]
pub enum Session {
    /// `calls`.
    Calls,
    /// `closing`.
    Closing,
    /// `flushing`.
    Flushing,
    /// `full`.
    Full,
    /// `memory`.
    Memory,
    /// `refusals`.
    Refusals,
    /// `refusals`, at the limits.
    Limits,
    /// `refusals`, where no slot is opened for this fault.
    Stuck { fault: MachineFault },
    /// `reweighing`.
    Reweighing,
    /// `worked`.
    Worked,
}

/// Whether all is as it should be in a session at a book.
fn visit<S: Service>(alloc: Global, book: &mut S, session: Session) -> Option<bool> {
    match session {
        Session::Calls => calls::visit(alloc, book),
        Session::Closing => closing::visit(alloc, book),
        Session::Flushing => flushing::visit(alloc, book),
        Session::Full => full::visit(alloc, book),
        Session::Memory => Some(memory::visit(book)),
        Session::Refusals => refusals::visit(alloc, book),
        Session::Limits => refusals::visit_limits(book),
        Session::Stuck { fault } => refusals::visit_stuck(book, fault),
        Session::Reweighing => reweighing::visit(alloc, book),
        Session::Worked => worked::visit(alloc, book),
    }
}

/// The same at a new book that begins at this state.
fn serve<J: Trial, B: Named<J>>(
    alloc: Global,
    tokens: UnnamedKeeper<Note<J>>,
    state: &State<J>,
    session: Session,
) -> Option<bool>
    requires table { tokens.table.shared.table_id ≡ B.table }
    requires start { state.now ≡ B.start }
{
    let mut kept = begin::<J, B>(alloc, tokens, state)?;
    visit(alloc, &mut *kept, session)
}

/// The same by a name of its own. `None` too if there is no such book.
pub fn is_right(alloc: Global, state: &State<AnyJob>, session: Session) -> Option<bool> {
    let tokens = UnnamedKeeper::new(alloc).ok()?;
    serve::<AnyJob, Brand>(alloc, tokens, state, session)
}

/// The same at a book of three tasks of 2/3 on two workers.
pub fn at_thirds(alloc: Global, session: Session) -> Option<bool> {
    let state = thirds(alloc)?;
    is_right(alloc, &state, session)
}
