//! Whose book it is, and what it began with.
use pfx_token::tokens::Room;
use std::marker::Brand;

/// Names a book, its passes and its share, and says which state the book began with.
pub trait Named<J>: Room {
    ghost use Rattle.pfx_machine.specs.Plain.{Plain};

    /// The state before the first command of the session.
    ghost start: { Plain J };
}

impl<J> Named<J> for Brand {
    ghost use Rattle.pfx_book.specs.Register.{nowhere};

    ghost start = { nowhere };
}
