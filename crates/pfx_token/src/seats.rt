//! The rule under a keeper and its tokens, and the steps that it allows. Every value named here exists in proofs alone.
use atomic_table::{Join, Play, Split, TableRule};
use std::collections::LinkedList;

/// What a seat knows: the keeper's all lists, a token's its number and its list. No value of it is made.
pub struct View<E> {
    /// Whether it knows all lists.
    pub keeps: bool,
    /// All lists, a token's at its number.
    pub lists: LinkedList<LinkedList<E>>,
    /// Whether it has a number.
    pub claims: bool,
    /// The number.
    pub number: u64,
    /// The list at that number.
    pub mine: LinkedList<E>,
}

/// One seat at most knows all lists, and each number has one seat at most, which knows the list that stands there.
pub struct SeatLaw;

impl<E> TableRule<E, View<E>, ()> for SeatLaw {
    ghost use Rattle.std.specs.Prelude.{[]};
    ghost use Rattle.pfx_token.specs.Seats.{keeper, KeptIn};

    ghost holds = { λ _. KeptIn };

    ghost first = { λ _. keeper [] };
}

/// The keeper makes a token.
pub struct Makes;

impl<E> Split<View<E>> for Makes {
    ghost use Rattle.pfx_token.specs.Seats.{with_one_more, next_token};

    ghost left = { with_one_more };

    ghost right = { next_token };
}

/// A seat that knows nothing comes, to stand in a token's place while the keeper has the token in hand.
pub struct Blank;

impl<E> Split<View<E>> for Blank {
    ghost use Rattle.pfx_token.specs.Seats.{nobody};

    ghost left = { λ v. v };

    ghost right = { λ _. nobody };
}

/// The keeper takes a token in.
pub struct Takes;

impl<E> Join<View<E>> for Takes {
    ghost use Rattle.pfx_token.specs.Seats.{holding, nobody};

    ghost both = { holding };

    ghost spent = { nobody };
}

/// The keeper adds an entry to the list of the token that it holds.
pub struct Adds;

impl<E> Play<E, View<E>> for Adds {
    ghost use Rattle.pfx_token.specs.Seats.{Added};

    ghost then = { Added };
}

/// The keeper compares the list of the token that it holds with its own.
pub struct Learns;

impl<E> Play<E, View<E>> for Learns {
    ghost use Rattle.pfx_token.specs.Seats.{Learned};

    ghost then = { Learned };
}

/// The keeper gives the token out again.
pub struct Gives;

impl<E> Split<View<E>> for Gives {
    ghost use Rattle.pfx_token.specs.Seats.{let_go, held};

    ghost left = { let_go };

    ghost right = { held };
}
