//! A keeper of lists, and the tokens that bring them home.
ghost use Rattle.std.specs.Prelude.{◌≡◌, ℕ, List, [], ◌∷◌, ◌++◌, ◌<◌, length, Some, slice_get, slice_set};
ghost use Rattle.pfx_token.specs.Seats.{keeper, token as token_view};

use crate::seats::{Adds, Blank, Gives, Learns, Makes, SeatLaw, Takes, View};
use atomic_table::{Seat, Table};
use std::alloc::{AllocError, Global};
use std::marker::{Brand, Model, PhantomData};
use std::mem;

/// Names one keeper. A call picks the name, and what bears it belongs together.
pub trait Room {
    ghost use Rattle.atomic_table.specs.Seated.{TableId};

    /// The keeper that is meant.
    ghost table: { TableId };
}

impl Room for Brand {
    ghost use Rattle.pfx_token.specs.Seats.{no_table};

    ghost table = { no_table };
}

/// A keeper that has no name yet, and has issued nothing.
#[derive(Drop)]
pub struct UnnamedKeeper<E: Drop> {
    table: Table<E, View<E>, (), SeatLaw, Global>,
    seat: Seat<E, View<E>>,
    ghost seated: { seat.table_id ≡ table.shared.table_id },
    ghost starts: { seat.me ≡ (keeper [], []) },
    ghost wide: { table.shared.table_id.words ≡ 1 },
}

impl<E: Drop> UnnamedKeeper<E> {
    /// A keeper of its own. `AllocError` if an allocation fails.
    pub fn new(alloc: Global) -> Result<UnnamedKeeper<E>, AllocError> {
        let (table, seat) = Table::of_words(alloc, &[0], &())?;
        Ok(UnnamedKeeper { table, seat })
    }

    /// The keeper under its name. It knows no list yet.
    pub fn named<B: Room>(self) -> Keeper<E, B>
        requires { self.table.shared.table_id ≡ B.table }
        ensures { result ≡ [] }
    {
        let UnnamedKeeper { table, seat } = self;
        Keeper {
            table,
            seat,
            room: PhantomData,
        }
    }
}

/// Knows the list of each token that it has issued. Contracts see it as these lists, a token's at its number.
#[derive(Drop)]
pub struct Keeper<E: Drop, B: Room> {
    table: Table<E, View<E>, (), SeatLaw, Global>,
    seat: Seat<E, View<E>>,
    room: PhantomData<B>,
}

impl<E: Drop, B: Room> Model for Keeper<E, B> {
    ghost Value = { List (List E) };

    ghost view = { λ k. k.seat.me.0.lists };

    ghost invariant = { λ k. (k.table.shared.table_id ≡ B.table) × (k.seat.table_id ≡ B.table) × (k.seat.me ≡ (keeper k.seat.me.0.lists, []))
        × (k.table.shared.table_id.words ≡ 1) };
}

/// A number, and the list of what was noted for it. Contracts see it as these two. There is one for each number.
#[derive(Drop)]
pub struct Token<E, B: Room> {
    seat: Seat<E, View<E>>,
    room: PhantomData<B>,
}

impl<E, B: Room> Model for Token<E, B> {
    ghost Value = { ℕ × List E };

    ghost view = { λ t. (t.seat.me.0.number, t.seat.me.0.mine) };

    ghost invariant = { λ t. (t.seat.table_id ≡ B.table) × (t.seat.me ≡ (token_view t.seat.me.0.number t.seat.me.0.mine, [])) };
}

impl<E: Drop, B: Room> Keeper<E, B> {
    /// A new token, with the next number and an empty list.
    pub fn issue(&mut self) -> Token<E, B>
        ensures token { result ≡ (length self.old, []) }
        ensures keeper { self.new ≡ self.old ++ [] ∷ [] }
    {
        let Keeper { table, seat, .. } = self;
        let seat = table.shared.split_seat::<Makes>(seat);
        Token {
            seat,
            room: PhantomData,
        }
    }

    /// Adds an entry to the token's list. The list that the token brings is the one that the keeper knows.
    pub fn note(&mut self, token: &mut Token<E, B>, entry: &E)
        ensures known { slice_get self.old token.old.0 ≡ Some token.old.1 }
        ensures token { token.new ≡ (token.old.0, token.old.1 ++ entry.now ∷ []) }
        ensures keeper { self.new ≡ slice_set self.old token.old.0 (token.old.1 ++ entry.now ∷ []) }
    {
        let Keeper { table, seat, .. } = self;
        let shared = &table.shared;
        let blank = shared.split_seat::<Blank>(seat);
        let mine = mem::replace(&mut token.seat, blank);
        shared.join_seat::<Takes>(seat, mine);
        shared.compare_exchange_with::<Adds>(seat, 0, 0, 0, entry);
        token.seat = shared.split_seat::<Gives>(seat);
    }

    /// The list that the token brings is the one that the keeper knows, and nothing changes.
    pub fn look(&mut self, token: &mut Token<E, B>)
        ensures known { slice_get self.old token.old.0 ≡ Some token.old.1 }
        ensures token { token.new ≡ token.old }
        ensures keeper { self.new ≡ self.old }
    {
        let Keeper { table, seat, .. } = self;
        let shared = &table.shared;
        let blank = shared.split_seat::<Blank>(seat);
        let taken = mem::replace(&mut token.seat, blank);
        shared.join_seat::<Takes>(seat, taken);
        shared.load::<Learns>(seat, 0);
        token.seat = shared.split_seat::<Gives>(seat);
    }
}
