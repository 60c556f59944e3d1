//! The rule under a list that only grows, and the step that extends it. Every value named here exists in proofs alone.
use logbook::{Gain, Plain, Play, Rule};

/// The word is the list's length.
pub struct LengthLaw;

impl<E> Rule<E, u64> for LengthLaw {
    ghost use Rattle.std.specs.Prelude.{[]};
    ghost use base.Fml.{ftrue};
    ghost use Rattle.pfx_token.specs.Growing.{IsKept};

    ghost holds = { λ cells log. IsKept cells log };

    ghost first = { [] };

    ghost hinted = { λ n log. Unit {0} };

    ghost shows = { λ log. [] };

    ghost keeps = { λ names log. ftrue };

    ghost moves = { λ ask before after answer. Unit {0} };
}

/// Callers trade nothing.
pub struct Nothing;

impl<E> Gain<E, u64> for Nothing {
    ghost use base.Fml.{ftrue};

    ghost after = { λ names about answer. ftrue };
}

/// The step that adds an entry.
pub struct Add;

impl<E> Play<E, u64> for Add {
    ghost use Rattle.pfx_token.specs.Growing.{Adds};

    ghost then = { Adds };
}

impl<E> Plain<E, E, u64> for Add {
    ghost use Rattle.std.specs.Prelude.{None};

    ghost ask = { λ x. x };

    ghost state = { λ x. None };
}
