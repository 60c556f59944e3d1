//! Those who look at the board.
//!
//! Why it is so:
//! - **A reader waits for nobody**: `told`, `status` and `looks` take no handle by which they could. The writer waits, for readers that
//!   are still in the copy that it is to write; so a reader takes the memory for its lines before it enters.
ghost use Rattle.std.specs.Prelude.{◌≡◌, ◌≤◌, IfOk, OnErr, IsTrue};
ghost use mathlib.Core.List.{IsPrefix};
ghost use Rattle.pfx_front_board.specs.Shown.{IsBoardOf};
ghost use Rattle.pfx_front_board.specs.Word.{last_of};

use crate::name::Begun;
use crate::receipt::Receipt;
use crate::shown::Shown;
use crate::word::Word;
use left_right::ReadHandle;
use pfx_jobs::job::Job;
use pfx_machine::Board;
use std::alloc::Global;
use std::marker::Model;
use thiserror::Error;

/// Why no board is shown.
#[derive(Clone, Copy, Debug, PartialEq, Eq, Error)]
pub enum StatusFault {
    /// An allocation failed.
    #[error("out of memory")]
    NoMemory,
    /// The writer is gone, or shows less than the reader knows.
    #[error("the board is shut")]
    BoardShut,
}

/// Looks at the board without waiting. Contracts see it as the durable batches that it saw or was told of.
#[derive(Drop)]
pub struct Reader<J: Job, B: Begun<J>> {
    handle: ReadHandle<Shown<J, B>>,
    word: Word<J, B>,
    // How many lines a board has.
    tasks: usize,
}

impl<J: Job, B: Begun<J>> Model for Reader<J, B> {
    ghost use Rattle.std.specs.Prelude.{List};
    ghost use Rattle.pfx_record.specs.declared.batch.Batch.{Batch};

    ghost Value = { List (Batch J) };

    ghost view = { λ r. r.word };
}

impl<J: Job, B: Begun<J>> Reader<J, B> {
    /// A reader of boards of so many lines, which knows this word.
    pub(crate) fn new(
        handle: ReadHandle<Shown<J, B>>,
        word: Word<J, B>,
        tasks: usize,
    ) -> Reader<J, B>
        ensures { result ≡ word }
    {
        Reader {
            handle,
            word,
            tasks,
        }
    }

    /// From now on it shows no less than the receipt's word, and so the receipt's number at least. It waits for nobody and
    /// takes no memory.
    pub fn told(&mut self, receipt: &Receipt<J, B>)
        ensures later { IsPrefix self.old self.new }
        ensures told { IsPrefix receipt.now.word self.new }
        ensures number { receipt.now.number ≤ last_of B.origin self.new }
    {
        self.hear(&receipt.word);
    }

    /// The board of the state after durable batches that begin with all that this reader saw or was told of. It waits for
    /// nobody. `BoardShut` if the writer is gone; after a fault the reader is as before.
    pub fn status(&mut self, alloc: Global) -> Result<Board, StatusFault>
        ensures later { IsPrefix self.old self.new }
        ensures board { IfOk result (λ board. IsBoardOf J.kind B.origin self.new board) }
        ensures number { IfOk result (λ board. board.number ≡ last_of B.origin self.new) }
        ensures least { IfOk result (λ board. last_of B.origin self.old ≤ board.number) }
        ensures kept { OnErr result (self.new ≡ self.old) }
    {
        let Ok(room) = Vec::with_capacity(alloc, self.tasks) else {
            return Err(StatusFault::NoMemory);
        };
        let Reader { handle, word, .. } = self;
        match handle.enter() {
            Some(shown) => shown.look(word, room),
            None => Err(StatusFault::BoardShut),
        }
    }

    /// Whether the board shows just what the writer published last, whose word this is. The reader is told of it, and looks. It
    /// waits for nobody and takes no memory.
    pub fn looks(&mut self, last: &Word<J, B>) -> bool
        ensures later { IsPrefix self.old self.new }
        ensures looked { IsTrue result → self.new ≡ last.now }
    {
        self.hear(last);
        self.sees(last) && self.word.begins(last)
    }

    /// Whether the board shows just this word.
    fn sees(&mut self, word: &Word<J, B>) -> bool
        ensures { self.new ≡ self.old }
    {
        match self.handle.enter() {
            Some(shown) => shown.is_of(word),
            None => false,
        }
    }

    /// From now on it knows the word.
    fn hear(&mut self, word: &Word<J, B>)
        ensures later { IsPrefix self.old self.new }
        ensures told { IsPrefix word.now self.new }
    {
        if self.word.begins(word) {
            self.word = word.again();
        }
    }
}
