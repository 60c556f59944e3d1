//! A list that only grows, kept in proofs alone, and the beginnings of it that were seen.
ghost use Rattle.std.specs.Prelude.{◌≡◌, ◌+◌, ◌==◌, ◌<◌, ◌≤◌, ◌^◌, ◌++◌, ◌∷◌, ◌↔◌, [], length, MatchBool, IsTrue};
ghost use mathlib.Core.List.{IsPrefix};
ghost use Rattle.pfx_token.specs.Growing.{head_of, IsLonger};

use crate::growing::{Add, LengthLaw, Nothing};
use logbook::{Offer, Seen, Start, Word};
use std::marker::{Brand, Model, PhantomData};

/// Names one list. A call picks the name, and what bears it belongs together.
pub trait Naming {
    ghost use Rattle.logbook.specs.Pages.{Book};

    /// The list that is meant.
    ghost book: { Book };
}

impl Naming for Brand {
    ghost book = { record { number = 0; log_name = 0; cells_name = 0 } };
}

/// An empty list, which has no name yet.
#[derive(Drop)]
pub struct UnnamedList<E> {
    head: Word<E, u64, LengthLaw>,
    seen: Seen<E, u64, LengthLaw>,
    ghost empty: { seen.log ≡ [] },
    ghost head_is: { head ≡ head_of seen.book },
}

impl<E> UnnamedList<E> {
    /// A list of its own. It takes no memory.
    pub fn new() -> UnnamedList<E> {
        let (seen, mut first, _second) = Seen::open(Start::alone(), 0, 0);
        UnnamedList {
            head: Word::tracked(0, &mut first),
            seen,
        }
    }

    /// The list's end under a name, and the beginning that knows nothing of it.
    pub fn named<J: Naming>(self) -> (End<E, J>, Past<E, J>)
        requires { self.seen.book ≡ J.book }
        ensures { result.1 ≡ [] }
    {
        let UnnamedList { head, seen } = self;
        (
            End {
                head,
                of: PhantomData,
            },
            Past {
                count: 0,
                seen,
                of: PhantomData,
            },
        )
    }
}

/// Where the list grows. It may be shared by reference; there is one for a list.
#[derive(Drop)]
pub struct End<E, J: Naming> {
    head: Word<E, u64, LengthLaw>,
    of: PhantomData<J>,
    ghost head_is: { head ≡ head_of J.book },
}

/// A beginning of the list. Contracts see it as that.
#[derive(Drop)]
pub struct Past<E, J: Naming> {
    count: u64,
    seen: Seen<E, u64, LengthLaw>,
    of: PhantomData<J>,
}

impl<E, J: Naming> Model for Past<E, J> {
    ghost use Rattle.std.specs.Prelude.{◌≡◌, List, length};

    ghost Value = { List E };

    ghost view = { λ f. f.seen.log };

    ghost invariant = { λ f. (f.count ≡ length f.seen.log) × (f.seen.book ≡ J.book) };
}

impl<E, J: Naming> Past<E, J> {
    /// How many entries it has.
    pub fn count(&self) -> u64
        ensures { result ≡ length self.now }
    {
        self.count
    }

    /// A copy.
    pub fn again(&self) -> Past<E, J>
        ensures { result ≡ self.now }
    {
        Past {
            count: self.count,
            seen: self.seen.again(),
            of: PhantomData,
        }
    }

    /// Whether it has no more entries than the other. Then it is a beginning of the other, and else the other of it.
    pub fn begins(&self, other: &Past<E, J>) -> bool
        ensures counts { IsTrue result ↔ (length self.now ≤ length other.now) }
        ensures begins { MatchBool result (IsPrefix self.now other.now) (IsPrefix other.now self.now) }
    {
        let mut both = self.seen.again();
        both.learn(&other.seen);
        other.count >= self.count
    }
}

impl<E, J: Naming> End<E, J> {
    /// Adds an entry after all that is known of the list, and says whether it did. If it did not, the list is longer than
    /// was known, and as much of it is known now as its end told.
    pub fn extend(&self, past: &mut Past<E, J>, entry: &E) -> bool
        requires room { length past.old < 2 ^ 62 }
        ensures { MatchBool result (past.new ≡ past.old ++ entry.now ∷ []) (IsLonger past.old past.new) }
    {
        let mut offer: Offer<E, u64, LengthLaw, Nothing> = past
            .seen
            .plain::<Nothing, E, Add>(entry);
        let mut pen = past.seen.no_pen();
        let count = past.count;
        let found = self
            .head
            .compare_exchange::<Add, Nothing>(
                count,
                count + 1,
                &mut past.seen,
                &mut offer,
                &mut pen,
            );
        past.count = if found == count { count + 1 } else { found };
        found == count
    }
}
