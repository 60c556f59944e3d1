//! The list of the calls, kept in proofs alone, and the beginnings of it that were reached.
ghost use Rattle.std.specs.Prelude.{◌≡◌, ◌+◌, ◌==◌, ◌<◌, ◌≤◌, ◌^◌, ◌++◌, ◌∷◌, ◌↔◌, [], length, None, MatchBool, IsTrue};
ghost use mathlib.Core.List.{IsPrefix};
ghost use Rattle.pfx_token.specs.Growing.{head_of, IsLonger};

use crate::made::Made;
use crate::name::Charted;
use logbook::{Offer, Plain, Seen, Start, Word};
use pfx_token::growing::{Add, LengthLaw, Nothing};
use std::marker::{Model, PhantomData};

/// An empty list, which has no name yet.
#[derive(Drop)]
pub struct UnnamedCalls {
    head: Word<Made, u64, LengthLaw>,
    seen: Seen<Made, u64, LengthLaw>,
    ghost empty: { seen.log ≡ [] },
    ghost head_is: { head ≡ head_of seen.book },
}

impl UnnamedCalls {
    /// A list of its own. It takes no memory.
    pub fn new() -> UnnamedCalls {
        let (seen, mut first, _second) = Seen::open(Start::alone(), 0, 0);
        UnnamedCalls {
            head: Word::tracked(0, &mut first),
            seen,
        }
    }

    /// The list's end under a name, and the beginning that knows nothing of it. `first` is the disk's clock.
    pub fn named<B: Charted>(self, first: u64) -> (CallsEnd<B>, Moment<B>)
        requires list { self.seen.book ≡ B.calls }
        requires first { first ≡ B.clock }
        ensures { result.1 ≡ [] }
    {
        let UnnamedCalls { head, seen } = self;
        (
            CallsEnd {
                head,
                of: PhantomData,
            },
            Moment {
                first,
                count: 0,
                seen,
                of: PhantomData,
            },
        )
    }
}

/// Where the list grows. There is one for a list.
#[derive(Drop)]
pub struct CallsEnd<B: Charted> {
    head: Word<Made, u64, LengthLaw>,
    of: PhantomData<B>,
    ghost head_is: { head ≡ head_of B.calls },
}

/// A beginning of the list that was reached. Contracts see it as that.
#[derive(Drop)]
pub struct Moment<B: Charted> {
    first: u64,
    count: u64,
    seen: Seen<Made, u64, LengthLaw>,
    of: PhantomData<B>,
}

impl<B: Charted> Model for Moment<B> {
    ghost use Rattle.std.specs.Prelude.{◌≡◌, List, length};
    ghost use Rattle.pfx_disk_chronicle.specs.declared.made.Made.{Made};

    ghost Value = { List Made };

    ghost view = { λ f. f.seen.log };

    ghost invariant = { λ f. (f.count ≡ length f.seen.log) × (f.seen.book ≡ B.calls) × (f.first ≡ B.clock) };
}

impl<B: Charted> Moment<B> {
    /// Whether the disk's clock had come to this one.
    pub fn reaches(&self, clock: u64) -> bool
        ensures { IsTrue result ↔ (clock ≤ B.clock + length self.now) }
    {
        clock.saturating_sub(self.first) <= self.count
    }

    /// A copy.
    pub fn again(&self) -> Moment<B>
        ensures { result ≡ self.now }
    {
        Moment {
            first: self.first,
            count: self.count,
            seen: self.seen.again(),
            of: PhantomData,
        }
    }

    /// Whether it has no more calls than the other. Then it is a beginning of the other, and else the other of it.
    pub fn begins(&self, other: &Moment<B>) -> bool
        ensures counts { IsTrue result ↔ (length self.now ≤ length other.now) }
        ensures begins { MatchBool result (IsPrefix self.now other.now) (IsPrefix other.now self.now) }
    {
        let mut both = self.seen.again();
        both.learn(&other.seen);
        other.count >= self.count
    }
}

impl<B: Charted> CallsEnd<B> {
    /// Adds the call that this value tells of after all that is known, and says whether it did. If it did not, the list is longer
    /// than was known.
    pub(crate) fn extend<X, M: Plain<X, Made, u64>>(&self, past: &mut Moment<B>, about: &X) -> bool
        requires room { length past.old < 2 ^ 63 }
        requires free { M.state about.now ≡ None }
        ensures { MatchBool result (past.new ≡ past.old ++ M.ask about.now ∷ []) (IsLonger past.old past.new) }
    {
        let mut offer: Offer<Made, u64, LengthLaw, Nothing> = past
            .seen
            .plain::<Nothing, X, M>(about);
        let mut pen = past.seen.no_pen();
        let count = past.count;
        let found = self
            .head
            .compare_exchange::<Add, Nothing>(
                count,
                count + 1,
                &mut past.seen,
                &mut offer,
                &mut pen,
            );
        past.count = if found == count { count + 1 } else { found };
        found == count
    }
}
