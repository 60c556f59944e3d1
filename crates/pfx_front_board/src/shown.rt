//! What lies in each copy of the board.
ghost use Rattle.std.specs.Prelude.{◌≡◌, ◌≤◌, [], length, vec_capacity, IfOk, OnErr, IsTrue, Some};
ghost use mathlib.Core.List.{IsPrefix};
ghost use Rattle.pfx_record_redo.specs.Applying.{applied};
ghost use Rattle.pfx_front_board.specs.Word.{records_of, last_of};
ghost use Rattle.pfx_front_board.specs.Shown.{IsBoardOf};

use crate::name::Begun;
use crate::reader::StatusFault;
use crate::word::Word;
use left_right::Absorb;
use pfx_jobs::job::Job;
use pfx_machine::{Board, State, TaskLine};
use pfx_record::Batch;
use std::alloc::{AllocError, Global};
use std::marker::Model;

/// How many lines a board has at the most.
pub(crate) const MOST_LINES: usize = 1152;

/// Puts lines in the place of others, in a vector with room for them.
fn put_lines(lines: &mut Vec<TaskLine>, from: &[TaskLine])
    requires { length from.now ≤ vec_capacity lines.old }
    ensures items { lines.new.items ≡ from.now }
    ensures room { vec_capacity lines.new ≡ vec_capacity lines.old }
{
    lines.clear();
    for line in from {
        lines.push_reserved(*line);
    }
}

/// A board, with the word that it is of. Contracts see it as the batches of that word. Its type keeps that the board is that
/// of the state after them.
#[derive(Drop)]
pub struct Shown<J: Job, B: Begun<J>> {
    board: Board,
    word: Word<J, B>,
}

impl<J: Job, B: Begun<J>> Model for Shown<J, B> {
    ghost use Rattle.std.specs.Prelude.{List, ◌≤◌, length, vec_capacity};
    ghost use Rattle.pfx_front_board.specs.Shown.{IsBoardOf};
    ghost use Rattle.pfx_record.specs.declared.batch.Batch.{Batch};

    ghost Value = { List (Batch J) };

    ghost view = { λ s. s.word };

    ghost invariant = { λ s. IsBoardOf J.kind B.origin s.word s.board × (length s.board.lines.items ≤ 1152) × (1152 ≤ vec_capacity s.board.lines) };
}

impl<J: Job, B: Begun<J>> Shown<J, B> {
    /// The board of the state after a word. `AllocError` if an allocation fails.
    pub(crate) fn of(
        alloc: Global,
        state: &State<J>,
        word: &Word<J, B>,
    ) -> Result<Shown<J, B>, AllocError>
        requires { applied J.kind B.origin (records_of word.now) ≡ Some state.now }
        ensures { IfOk result (λ s. s ≡ word.now) }
    {
        let _total = state.columns().total();
        let Board {
            number,
            slot,
            from,
            lines,
        } = state.board(alloc)?;
        let mut room = Vec::with_capacity(alloc, MOST_LINES)?;
        put_lines(&mut room, &lines);
        Ok(Shown {
            board: Board {
                number,
                slot,
                from,
                lines: room,
            },
            word: word.again(),
        })
    }

    /// The word that the board is of.
    pub(crate) fn word(&self) -> &Word<J, B>
        ensures { result.now ≡ self.now }
    {
        &self.word
    }

    /// Whether the board is of just this word.
    pub(crate) fn is_of(&self, word: &Word<J, B>) -> bool
        ensures { IsTrue result → self.now ≡ word.now }
    {
        self.word.begins(word) && word.begins(&self.word)
    }

    /// The board, in this vector, if a reader that knows this word may see it; the reader then knows the board's.
    pub(crate) fn look(
        &self,
        known: &mut Word<J, B>,
        room: Vec<TaskLine>,
    ) -> Result<Board, StatusFault>
        requires { room.items ≡ [] }
        ensures later { IsPrefix known.old known.new }
        ensures seen { IfOk result (λ board. (known.new ≡ self.now) × IsBoardOf J.kind B.origin self.now board) }
        ensures number { IfOk result (λ board. board.number ≡ last_of B.origin known.new) }
        ensures least { IfOk result (λ board. last_of B.origin known.old ≤ board.number) }
        ensures kept { OnErr result (known.new ≡ known.old) }
    {
        if !known.begins(&self.word) {
            return Err(StatusFault::BoardShut);
        }
        let mut lines = room;
        if lines.extend_from_slice(&self.board.lines).is_err() {
            return Err(StatusFault::NoMemory);
        }
        *known = self.word.again();
        Ok(Board {
            number: self.board.number,
            slot: self.board.slot,
            from: self.board.from,
            lines,
        })
    }
}

impl<J: Job, B: Begun<J>> Absorb<Shown<J, B>> for Shown<J, B> {
    type State = [Batch<J>; 0];

    ghost state = { λ s. s };

    ghost applied = { λ s o. o };

    ghost never_fails = { Unit {0} };

    fn absorb_first(
        &mut self,
        operation: &Shown<J, B>,
        _other: &Shown<J, B>,
    ) -> Result<(), AllocError> {
        let Shown { board, word } = self;
        board.number = operation.board.number;
        board.slot = operation.board.slot;
        board.from = operation.board.from;
        put_lines(&mut board.lines, &operation.board.lines);
        *word = operation.word.again();
        Ok(())
    }
}
