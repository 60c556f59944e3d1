//! A share with the number of the last command that it took.
ghost use Rattle.std.specs.Prelude.{◌≡◌, ◌+◌, ◌≤◌, [], length, vec_capacity, IfSome};
ghost use Rattle.pfx_book.specs.Notes.{records_in};

use crate::states::Trial;
use pfx_book::book::{Book, Share};
use pfx_book::name::Named;
use pfx_book::note::Note;
use pfx_fault::Cause;
use pfx_machine::State;
use pfx_record::{Batch, Record};
use pfx_token::tokens::UnnamedKeeper;
use std::alloc::Global;

/// A flusher.
#[derive(Drop)]
pub struct Flusher<J: Trial, B: Named<J>> {
    share: Share<J, B>,
    last: u64,
    ghost last_is: { last ≡ B.start.number + length (records_in share) },
}

/// A book and its flusher.
#[derive(Drop)]
pub struct Kept<J: Trial, B: Named<J>> {
    pub book: Book<J, B>,
    pub flusher: Flusher<J, B>,
}

/// A book that begins at this state, marked at clock 7, and its flusher, behind a pointer.
pub fn begin<J: Trial, B: Named<J>>(
    alloc: Global,
    tokens: UnnamedKeeper<Note<J>>,
    state: &State<J>,
) -> Option<Box<Kept<J, B>>>
    requires table { tokens.table.shared.table_id ≡ B.table }
    requires start { state.now ≡ B.start }
{
    let (book, share) = Book::<J, B>::new(alloc, tokens, state, 7).ok()?;
    let last = book.marked();
    let flusher = Flusher { share, last };
    Box::new(alloc, Kept { book, flusher }).ok()
}

/// A vector with room for a batch.
pub fn batch_room<J: Trial>(alloc: Global) -> Option<Vec<Record<J>>>
    ensures { IfSome result (λ room. (room.items ≡ []) × (16 ≤ vec_capacity room)) }
{
    Vec::with_capacity(alloc, 16).ok()
}

impl<J: Trial, B: Named<J>> Flusher<J, B> {
    /// The next batch, if all before it is marked. The vector comes back if it isn't, or nothing waits.
    pub fn take(
        &mut self,
        book: &mut Book<J, B>,
        room: Vec<Record<J>>,
    ) -> Result<Batch<J>, Vec<Record<J>>>
        requires empty { room.items ≡ [] }
        requires room { 16 ≤ vec_capacity room }
    {
        let Flusher { share, last } = self;
        if *last >= 1 << 62 {
            return Err(room);
        }
        let marked = book.marked();
        if marked != *last {
            return Err(room);
        }
        book.settled(share);
        let batch = book.take_batch(share, room)?;
        book.settled(share);
        *last += batch.records.len() as u64;
        Ok(batch)
    }

    /// Marks what it took, at this clock, unless it has given up.
    pub fn mark(&mut self, book: &mut Book<J, B>, clock: u64) {
        let Flusher { share, last } = self;
        if book.failure().is_some() {
            return;
        }
        book.settled(share);
        book.mark(share, *last, clock);
        book.settled(share);
    }

    /// Gives up.
    pub fn fail(&mut self, book: &mut Book<J, B>, cause: Cause) {
        let Flusher { share, .. } = self;
        book.settled(share);
        book.fail(share, cause);
        book.settled(share);
    }
}
