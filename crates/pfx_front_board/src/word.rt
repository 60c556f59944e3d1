//! Beginnings of the durable batches.
//!
//! Why it is so:
//! - **The durable list is of batches** (`Batch`, as the store appends them), not of commands or of a type that the caller picks: the
//!   flusher has the batch at hand, one step of the list and one publication serve up to 16 commands, and what is shown has to be the
//!   board of the state that the entries lead to.
ghost use Rattle.std.specs.Prelude.{◌≡◌, ◌≤◌, ◌<◌, ◌+◌, ◌^◌, ◌++◌, ◌∷◌, ◌↔◌, [], length, IsTrue, IsFalse, MatchBool};
ghost use mathlib.Core.List.{IsPrefix};
ghost use Rattle.pfx_front_board.specs.Word.{last_of};

use crate::name::Begun;
use pfx_record::Batch;
use pfx_token::past::{End, Past};
use std::marker::Model;

/// A beginning of the durable batches, with the number of its last command. Contracts see it as these batches.
#[derive(Drop)]
pub struct Word<J, B: Begun<J>> {
    number: u64,
    past: Past<Batch<J>, B>,
}

impl<J, B: Begun<J>> Model for Word<J, B> {
    ghost use Rattle.std.specs.Prelude.{◌≡◌, List};
    ghost use Rattle.pfx_front_board.specs.Word.{last_of};
    ghost use Rattle.pfx_record.specs.declared.batch.Batch.{Batch};

    ghost Value = { List (Batch J) };

    ghost view = { λ w. w.past };

    ghost invariant = { λ w. w.number ≡ last_of B.origin w.past };
}

impl<J, B: Begun<J>> Word<J, B> {
    /// The word that nothing is durable yet after the state that the board begins with, whose number this is.
    pub(crate) fn new(number: u64, past: Past<Batch<J>, B>) -> Word<J, B>
        requires empty { past ≡ [] }
        requires number { number ≡ B.origin.number }
        ensures { result ≡ [] }
    {
        Word { number, past }
    }

    /// The number of its last command, or that of the state that the board began with if it has none.
    pub fn number(&self) -> u64
        ensures { result ≡ last_of B.origin self.now }
    {
        self.number
    }

    /// A copy.
    pub fn again(&self) -> Word<J, B>
        ensures { result ≡ self.now }
    {
        Word {
            number: self.number,
            past: self.past.again(),
        }
    }

    /// Whether it has no more batches than the other. Then it is a beginning of the other, and else the other of it.
    pub fn begins(&self, other: &Word<J, B>) -> bool
        ensures counts { IsTrue result ↔ (length self.now ≤ length other.now) }
        ensures begins { MatchBool result (IsPrefix self.now other.now) (IsPrefix other.now self.now) }
    {
        self.past.begins(&other.past)
    }

    /// Adds a batch to the durable ones, and says whether it did. Else nothing changes here: the list is longer than was known.
    pub(crate) fn extend(&mut self, end: &End<Batch<J>, B>, batch: &Batch<J>) -> bool
        requires room { last_of B.origin (self.old ++ batch.now ∷ []) < 2 ^ 48 }
        ensures added { IsTrue result → self.new ≡ self.old ++ batch.now ∷ [] }
        ensures kept { IsFalse result → self.new ≡ self.old }
    {
        let Word { number, past } = self;
        let mut longer = past.again();
        if !end.extend(&mut longer, batch) {
            return false;
        }
        *past = longer;
        *number += batch.records.len() as u64;
        true
    }
}
