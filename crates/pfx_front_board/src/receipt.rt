//! Acknowledgements that a reader can be told of.
//!
//! Why it is so:
//! - **BoardShut may be answered by a board that is behind what the reader knows.** No contract ties the moment of an entry to that of a
//!   publication. It doesn't happen if a receipt's word was published before it was given, and tests show it. That `looks` did look is
//!   therefore tested: no contract could tell.
ghost use Rattle.std.specs.Prelude.{◌≡◌, ◌≤◌};
ghost use Rattle.pfx_front_board.specs.Word.{last_of};

use crate::name::Begun;
use crate::word::Word;

/// The command of this number, and those before it, are durable since this clock of the disk. Its type keeps that the word
/// reaches the number.
#[derive(Drop)]
pub struct Receipt<J, B: Begun<J>> {
    /// The number.
    pub number: u64,
    /// The clock of the mark that covers it.
    pub clock: u64,
    /// What was published before that mark.
    pub word: Word<J, B>,
    ghost reaches: { number ≤ last_of B.origin word },
}

impl<J, B: Begun<J>> Receipt<J, B> {
    /// A receipt for a number that the word reaches.
    pub fn new(number: u64, clock: u64, word: Word<J, B>) -> Receipt<J, B>
        requires { number ≤ last_of B.origin word }
        ensures number { result.number ≡ number }
        ensures clock { result.clock ≡ clock }
        ensures word { result.word ≡ word }
    {
        Receipt {
            number,
            clock,
            word,
        }
    }
}
