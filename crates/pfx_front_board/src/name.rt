//! Whose board it is, and what it began with.
use pfx_token::past::Naming;
use std::marker::Brand;

/// Names a board with the list of its batches, and says which state the first of them goes on from.
pub trait Begun<J>: Naming {
    ghost use Rattle.pfx_machine.specs.Plain.{Plain};

    /// The state before the first batch.
    ghost origin: { Plain J };
}

impl<J> Begun<J> for Brand {
    ghost use Rattle.pfx_front_board.specs.Name.{nowhere};

    ghost origin = { nowhere };
}
