//! Worked rows, and the comparison by gaps beside the walk.

ghost use Rattle.std.specs.Prelude.{◌<◌, ◌≤◌, ◌^◌};

use pfx_symbols::{
    Class, KeptKey, Key, Rank, Symbol, class, compare, compare_by_symbols, compare_in_rounds,
    rank_key, symbol,
};
use std::alloc::Global;
use std::cmp::Ordering;

/// The symbol of a sign.
fn symbol_of(sign: u8) -> Symbol {
    match sign {
        b'-' => Symbol::Minus,
        b'0' => Symbol::Zero,
        _ => Symbol::Plus,
    }
}

/// Whether the weight's symbols from slot 0 on are these.
fn has_symbols(e: u32, p: u32, text: &str) -> bool {
    let mut slot = 0u64;
    for sign in text.bytes() {
        if e == 0 || e >= p || p >= 10 || slot >= 10 {
            return false;
        }
        let rank = Rank::at_slot(slot, e, p, 0);
        let weight = rank.weight();
        if symbol(weight.0, weight.1, rank.phase()) != symbol_of(sign) {
            return false;
        }
        slot += 1;
    }
    true
}

#[test]
fn has_the_symbols_of_worked_weights(rt: HostRuntime) {
    // The symbols of one period, from slot 0 on.
    let rows = [
        (2, 3, "-+0"),
        (1, 2, "-0"),
        (1, 3, "--0"),
        (2, 5, "--+-0"),
        (4, 5, "-+++0"),
        (2, 4, "-0-0"),
    ];
    for (e, p, text) in rows {
        assert!(rt; has_symbols(e, p, text), "{e}/{p}");
    }
}

static CLASSES: [(i32, Symbol, Class); 9] = [
    (1, Symbol::Minus, Class::Contending),
    (1, Symbol::Zero, Class::Urgent),
    (7, Symbol::Plus, Class::Urgent),
    (0, Symbol::Minus, Class::Contending),
    (0, Symbol::Zero, Class::Contending),
    (0, Symbol::Plus, Class::Contending),
    (-1, Symbol::Minus, Class::Tnegru),
    (-7, Symbol::Zero, Class::Tnegru),
    (-1, Symbol::Plus, Class::Contending),
];

#[test]
fn classes_by_lag_and_symbol(rt: HostRuntime) {
    for (at, (lag, symbol, expected)) in CLASSES.iter().enumerate() {
        assert!(rt; class(*lag, *symbol) == *expected, "row {at}, lag {lag}");
    }
}

/// Whether the first task stands so to the second, by each comparison and from both sides.
fn orders(a: &Rank, b: &Rank, expected: Ordering) -> bool {
    a.cmp(b) == expected && b.cmp(a) == expected.reverse() && compare_by_symbols(a, b) == expected
}

/// Whether a rank shows what it was made of, is equal to itself, and is that of another slot of the same phase.
fn shows_its_parts() -> bool {
    let rank = Rank::new(1, 2, 3, 9);
    let weight = rank.weight();
    rank.phase() == 1
        && weight.0 == 2
        && weight.1 == 3
        && rank.id() == 9
        && compare(&rank, &rank) == Ordering::Equal
        && rank == Rank::at_slot(5, 2, 3, 9)
}

#[test]
fn orders_worked_ranks(rt: HostRuntime) {
    // Two tasks at one slot, and how the first stands to the second.
    let rows = [
        // At slot 1 the substring of 2/5 is `+-0` and that of 2/3 is `0`.
        (
            1,
            Rank::at_slot(1, 2, 5, 1),
            Rank::at_slot(1, 2, 3, 0),
            Ordering::Greater,
        ),
        // At slot 3 those of 1/3 and of 1/6 are `-0` both, and at slot 4 those of 1/2 and of 1/6 are `0`.
        (
            3,
            Rank::at_slot(3, 1, 3, 1),
            Rank::at_slot(3, 1, 6, 2),
            Ordering::Greater,
        ),
        (
            4,
            Rank::at_slot(4, 1, 6, 2),
            Rank::at_slot(4, 1, 2, 0),
            Ordering::Less,
        ),
        // At slot 0 that of 4/5 is `+++0` and that of 2/5 is `-+-0`.
        (
            0,
            Rank::at_slot(0, 2, 5, 0),
            Rank::at_slot(0, 4, 5, 1),
            Ordering::Less,
        ),
    ];
    for (slot, a, b, expected) in rows {
        assert!(rt; orders(&a, &b, expected), "slot {slot}");
    }
    assert!(rt; shows_its_parts());
}

/// Whether the comparison by gaps takes so many rounds, and says what the walk says.
fn takes_rounds(a: &Rank, b: &Rank, rounds: u32) -> bool {
    let got = compare_in_rounds(a, b);
    got.0 == compare_by_symbols(a, b) && got.1 == rounds
}

#[test]
fn counts_the_rounds_of_worked_pairs(rt: HostRuntime) {
    // Weights of which each is the next one's gaps, and two equal ones of different periods.
    let rows = [
        (Rank::at_slot(0, 1, 2, 0), Rank::at_slot(0, 1, 3, 1), 1),
        (Rank::at_slot(0, 2, 5, 0), Rank::at_slot(0, 3, 7, 1), 2),
        (Rank::at_slot(0, 5, 12, 0), Rank::at_slot(0, 12, 29, 1), 3),
        (
            Rank::at_slot(0, 195025, 470832, 0),
            Rank::at_slot(0, 390050, 941664, 1),
            15,
        ),
        (Rank::at_slot(0, 2, 3, 0), Rank::at_slot(0, 2, 3, 1), 0),
    ];
    for (a, b, rounds) in rows {
        assert!(rt; takes_rounds(&a, &b, rounds), "{rounds} rounds");
    }
}

/// Both comparisons of two tasks at a slot.
fn agree(slot: u64, a: (u32, u32), b: (u32, u32), kept: &mut [KeptKey]) -> bool
    requires slot { slot < 2 ^ 40 }
    requires a_weight { (1 ≤ a.0) × (a.0 < a.1) × (a.1 ≤ 2 ^ 20) }
    requires b_weight { (1 ≤ b.0) × (b.0 < b.1) × (b.1 ≤ 2 ^ 20) }
{
    let a = Rank::at_slot(slot, a.0, a.1, 3);
    let b = Rank::at_slot(slot, b.0, b.1, 4);
    let order = compare_by_symbols(&a, &b);
    compare(&a, &b) == order && agree_by_keys(a, b, order, kept)
}

/// Room for keys, with none kept yet; no room at all if memory is lacking.
fn room_for_keys(alloc: Global) -> Vec<KeptKey> {
    Vec::from_elem(alloc, KeptKey::none(), 1024).unwrap_or(Vec::new(alloc))
}

/// The keys of two ranks, by one guess and as many rounds, found with what was kept, and the first one with nothing kept.
fn keys_of(a: &Rank, b: &Rank, guess: u32, rounds: u32, kept: &mut [KeptKey]) -> [(Key, Key); 2] {
    let x = rank_key(a, guess, rounds, kept);
    let y = rank_key(b, guess, rounds, kept);
    let z = rank_key(a, guess, rounds, &mut []);
    let w = rank_key(b, guess, rounds, kept);
    [(x, y), (z, w)]
}

/// Whether the keys of two ranks, by two guesses and by few rounds, many and none, say no more than their order.
fn agree_by_keys(a: Rank, b: Rank, order: Ordering, kept: &mut [KeptKey]) -> bool {
    for (guess, rounds) in [(1, 0), (1, 3), (2, 1), (2, 24)] {
        for (x, y) in keys_of(&a, &b, guess, rounds, kept) {
            let told = y.number.cmp(&x.number);
            if told.is_ne() && told != order {
                return false;
            }
            // Of equal substrings the lower number is greater, and that is the first one's.
            if told.is_eq() && x.whole && y.whole && order != Ordering::Greater {
                return false;
            }
        }
    }
    true
}

#[test]
fn keys_tell_worked_ranks_apart(rt: HostRuntime) {
    let mut kept = room_for_keys(rt.alloc());
    // At slot 3 the substrings of 1/3 and of 1/6 are `-0` both, and at slot 1 that of 2/5 is `+-0` and that of 2/3 is `0`.
    let same = (Rank::at_slot(3, 1, 3, 1), Rank::at_slot(3, 1, 6, 2));
    let apart = (Rank::at_slot(1, 2, 5, 1), Rank::at_slot(1, 2, 3, 0));
    for (x, y) in keys_of(&same.0, &same.1, 2, 3, &mut kept) {
        assert!(rt;
            x.number == y.number && x.whole && y.whole,
            "told to be the same"
        );
    }
    for (x, y) in keys_of(&same.0, &same.1, 1, 3, &mut kept) {
        assert!(rt;
            x.number == y.number && !x.whole && !y.whole,
            "not told, where the gap is another one"
        );
    }
    for (x, y) in keys_of(&apart.0, &apart.1, 1, 3, &mut kept) {
        assert!(rt; x.number < y.number, "the greater has the lesser key");
    }
    // The keys of 3/7 and of 2/5 at slot 0 are told apart by a round, and aren't by none.
    let later = (Rank::at_slot(0, 3, 7, 0), Rank::at_slot(0, 2, 5, 1));
    for (x, y) in keys_of(&later.0, &later.1, 2, 0, &mut kept) {
        assert!(rt;
            x.number == y.number && !x.whole && !y.whole,
            "no round tells"
        );
    }
    for (x, y) in keys_of(&later.0, &later.1, 2, 1, &mut kept) {
        assert!(rt; x.number != y.number, "a round tells");
    }
}

/// Both comparisons of two tasks at six slots.
fn agree_at_slots(a: (u32, u32), b: (u32, u32), kept: &mut [KeptKey]) -> bool
    requires a_weight { (1 ≤ a.0) × (a.0 < a.1) × (a.1 ≤ 2 ^ 20) }
    requires b_weight { (1 ≤ b.0) × (b.0 < b.1) × (b.1 ≤ 2 ^ 20) }
{
    for slot in 0..6u64 {
        if !agree(slot * 5, a, b, kept) {
            return false;
        }
    }
    true
}

/// Whether both comparisons of a task with each task of a small period agree.
fn agree_with_small(a: (u32, u32), kept: &mut [KeptKey]) -> bool
    requires { (1 ≤ a.0) × (a.0 < a.1) × (a.1 ≤ 2 ^ 20) }
{
    for q in 2..25u32 {
        for f in 1..q {
            if !agree_at_slots(a, (f, q), kept) {
                return false;
            }
        }
    }
    true
}

#[test]
fn gaps_agree_with_the_walk_on_small_periods(rt: HostRuntime) {
    let mut kept = room_for_keys(rt.alloc());
    for p in 2..25u32 {
        for e in 1..p {
            assert!(rt; agree_with_small((e, p), &mut kept), "{e}/{p}");
        }
    }
}

/// The next seed of a generator whose high bits are drawn.
fn next(seed: u64) -> u64 {
    seed.wrapping_mul(6364136223846793005)
        .wrapping_add(1442695040888963407)
}

/// Both comparisons of a drawn pair of tasks, and of the first of them with a weight next to its own: weights that differ by
/// little have long equal substrings.
fn agree_on_drawn(drawn: [u32; 4], seed: u64, kept: &mut [KeptKey]) -> bool {
    let [a, b, c, d] = drawn;
    let p = 2 + a % 1048575;
    let q = if c % 3 == 0 { p } else { 2 + c % 1048575 };
    let (e, f) = (1 + b % (p - 1), 1 + d % (q - 1));
    let slot = seed % 1000000;
    let near = if e > 1 { e - 1 } else { e };
    agree(slot, (e, p), (f, q), kept) && agree(slot, (e, p), (near, p), kept)
}

#[test]
fn gaps_agree_with_the_walk_on_large_periods(rt: HostRuntime) {
    let mut kept = room_for_keys(rt.alloc());
    let mut seed = 88172645463325252u64;
    for pair in 0..4000u32 {
        let mut parts = [0u32; 4];
        for part in parts.iter_mut() {
            seed = next(seed);
            *part = (seed >> 44) as u32;
        }
        assert!(rt;
            agree_on_drawn(parts, seed, &mut kept),
            "pair {pair}, seed {seed}"
        );
    }
}
