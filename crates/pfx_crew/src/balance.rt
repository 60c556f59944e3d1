//! The rule of a lane: what was put in is what was taken out and what is inside. Every value named here exists in proofs
//! alone.
//!
//! Why it is so:
//! - **The rule counts, it doesn't order.** However messages are weighed, what all seats put in weighs as much as what they took out and
//!   what is inside. Which seat's message comes when is left to the threads.
use crossbeam_channel::protocol::{Lesson, Outcome, Protocol, Split};
use std::collections::LinkedList;

/// What a thread put into a lane and took out of it. No value of it is made.
pub struct Hand<T> {
    /// What it put in, in order.
    pub put: LinkedList<T>,
    /// What it took out, in order.
    pub taken: LinkedList<T>,
}

/// However things are weighed, what all hands put in weighs what they took out and what is inside.
pub struct Fair;

impl<T> Protocol<T, Hand<T>> for Fair {
    ghost use Rattle.std.specs.Prelude.{[]};
    ghost use Rattle.pfx_crew.specs.Balance.{Balanced, hand};

    ghost holds = { Balanced };

    ghost first = { hand [] [] };
}

/// A hand puts one thing in.
pub struct Puts;

impl<T> Outcome<T, Hand<T>> for Puts {
    ghost use Rattle.std.specs.Prelude.{◌≡◌, ◌++◌, ◌∷◌, []};
    ghost use Rattle.pfx_crew.specs.Balance.{hand};

    ghost then = { λ v x w. w ≡ hand (v.put ++ x ∷ []) v.taken };
}

impl<T> Lesson<T, Hand<T>> for Puts {
    ghost use Rattle.std.specs.Prelude.{⊤};

    ghost fact = { λ v items. ⊤ };
}

/// A hand takes one thing out.
pub struct TakesOut;

impl<T> Outcome<T, Hand<T>> for TakesOut {
    ghost use Rattle.std.specs.Prelude.{◌≡◌, ◌++◌, ◌∷◌, []};
    ghost use Rattle.pfx_crew.specs.Balance.{hand};

    ghost then = { λ v x w. w ≡ hand v.put (v.taken ++ x ∷ []) };
}

impl<T> Lesson<T, Hand<T>> for TakesOut {
    ghost use Rattle.std.specs.Prelude.{⊤};

    ghost fact = { λ v items. ⊤ };
}

/// One more hand comes, which has put and taken nothing.
pub struct Fresh;

impl<T> Split<Hand<T>> for Fresh {
    ghost use Rattle.std.specs.Prelude.{[]};
    ghost use Rattle.pfx_crew.specs.Balance.{hand};

    ghost left = { λ v. v };

    ghost right = { λ v. hand [] [] };
}
