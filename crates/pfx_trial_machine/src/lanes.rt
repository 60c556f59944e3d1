//! The lanes beside plain loops, at lengths around the multiples of sixteen.

ghost use Rattle.std.specs.Prelude.{◌≡◌, length};
ghost use Rattle.std.specs.Bool.{OnTrue};
ghost use Rattle.pfx_lanes.specs.Classes.{IsLane, AreLanes};

use pfx_lanes::{advance_lanes, classify, lag_after};
use std::alloc::{AllocError, Global};
use std::cmp::Ordering;

/// The lengths: none, one, around one turn of sixteen and two, and the most tasks that a ledger has, less one.
static LENGTHS: [u32; 9] = [0, 1, 15, 16, 17, 31, 32, 33, 1151];

/// What the columns hold of one task.
#[derive(Clone, Copy)]
struct Place {
    lag: i32,
    phase: i32,
    e: i32,
    p: i32,
}

/// The columns of some tasks.
#[derive(Drop)]
struct Places {
    lag: Vec<i32>,
    phase: Vec<i32>,
    e: Vec<i32>,
    p: Vec<i32>,
}

impl Places {
    /// Of no task.
    fn new(alloc: Global) -> Places {
        Places {
            lag: Vec::new(alloc),
            phase: Vec::new(alloc),
            e: Vec::new(alloc),
            p: Vec::new(alloc),
        }
    }

    /// One more task.
    fn push(&mut self, place: Place) -> Result<(), AllocError> {
        self.lag.push(place.lag)?;
        self.phase.push(place.phase)?;
        self.e.push(place.e)?;
        self.p.push(place.p)?;
        Ok(())
    }

    /// What the columns hold of task `k`, if each of them has it.
    fn place(&self, k: usize) -> Option<Place> {
        let (lag, phase, e, p) = (&self.lag[..], &self.phase[..], &self.e[..], &self.p[..]);
        if k >= lag.len() || k >= phase.len() || k >= e.len() || k >= p.len() {
            return None;
        }
        Some(Place {
            lag: lag[k],
            phase: phase[k],
            e: e[k],
            p: p[k],
        })
    }
}

/// A place by its number: all signs of lags and symbols are among those of the first few.
fn some_place(x: u32) -> Place {
    let period = 2 + x.wrapping_mul(37) % 23;
    let due = 1 + x.wrapping_mul(11) % (period - 1);
    Place {
        lag: (x.wrapping_mul(71) % (2 * period - 1)) as i32 - (period as i32 - 1),
        phase: (x.wrapping_mul(53) % period) as i32,
        e: due as i32,
        p: period as i32,
    }
}

/// Places with all signs of lags and symbols.
fn some_places(alloc: Global, n: u32) -> Option<Places> {
    let mut all = Places::new(alloc);
    for x in 0..n {
        all.push(some_place(x)).ok()?;
    }
    Some(all)
}

fn is_lane(lag: i32, phase: i32, e: i32, p: i32) -> bool
    ensures { OnTrue result (IsLane lag phase e p) }
{
    if p < 0 || 1048576 < p {
        return false;
    }
    if lag < -p || p < lag {
        return false;
    }
    if phase < 0 || p < phase {
        return false;
    }
    if e < 0 || p < e {
        return false;
    }
    true
}

/// Whether each place is one of a ledger.
fn are_lanes(lag: &[i32], phase: &[i32], e: &[i32], p: &[i32]) -> bool
    requires { (length phase.now ≡ length lag.now) × (length e.now ≡ length lag.now) × (length p.now ≡ length lag.now) }
    ensures { OnTrue result (AreLanes lag.now phase.now e.now p.now) }
{
    for k in 0..lag.len() {
        if !is_lane(lag[k], phase[k], e[k], p[k]) {
            return false;
        }
    }
    true
}

/// Whether the columns have as many places as the first of them, and each place is one of a ledger.
fn fit(lag: &[i32], phase: &[i32], e: &[i32], p: &[i32]) -> bool
    ensures phase { OnTrue result (length phase.now ≡ length lag.now) }
    ensures e { OnTrue result (length e.now ≡ length lag.now) }
    ensures p { OnTrue result (length p.now ≡ length lag.now) }
    ensures lanes { OnTrue result (AreLanes lag.now phase.now e.now p.now) }
{
    let n = lag.len();
    phase.len() == n && e.len() == n && p.len() == n && are_lanes(lag, phase, e, p)
}

/// The class of a place, by the signs of its lag and of phase + e - p.
fn plain_class(place: Place) -> u8 {
    let Place { lag, phase, e, p } = place;
    let symbol = (i64::from(phase) + i64::from(e)).cmp(&i64::from(p));
    match (lag.cmp(&0), symbol) {
        (Ordering::Greater, Ordering::Equal | Ordering::Greater) => 1,
        (Ordering::Less, Ordering::Less | Ordering::Equal) => 2,
        _ => 0,
    }
}

/// Whether these are the plain loop's classes.
fn are_plain_classes(all: &Places, classes: &[u8]) -> bool {
    for (k, class) in classes.iter().enumerate() {
        match all.place(k) {
            Some(place) => {
                if *class != plain_class(place) {
                    return false;
                }
            }
            None => return false,
        }
    }
    true
}

/// Whether `classify` gives the plain loop's classes.
fn are_classified(all: &Places, out: &mut [u8]) -> bool {
    let (lag, phase, e, p) = (&all.lag[..], &all.phase[..], &all.e[..], &all.p[..]);
    if out.len() != lag.len() || !fit(lag, phase, e, p) {
        return false;
    }
    classify(lag, phase, e, p, out);
    are_plain_classes(all, out)
}

/// Whether `classify` and the plain loop agree on so many places.
fn classes_agree(alloc: Global, n: u32) -> bool {
    let Some(all) = some_places(alloc, n) else {
        return false;
    };
    match vec![in alloc; 9u8; n as usize] {
        Ok(mut out) => are_classified(&all, &mut out),
        Err(_) => false,
    }
}

#[test]
fn classes_at_each_length(rt: HostRuntime) {
    for n in LENGTHS {
        assert!(rt; classes_agree(rt.alloc(), n), "of {n}");
    }
}

/// Whether a place went one slot on, in which its task ran or rested.
fn went_on(before: Place, after: Place, ran: bool) -> bool {
    let Place { lag, phase, e, p } = before;
    let taken = if ran { p } else { 0 };
    let reach = phase.wrapping_add(e);
    let wrapped = if reach < p { 0 } else { p };
    after.lag == lag.wrapping_add(e).wrapping_sub(taken)
        && after.phase == reach.wrapping_sub(wrapped)
}

/// Whether each of so many places went one slot on, in which every third task ran.
fn all_went_on(before: &Places, after: &Places, n: usize) -> bool {
    for k in 0..n {
        let (Some(old), Some(new)) = (before.place(k), after.place(k)) else {
            return false;
        };
        if !went_on(old, new, k % 3 == 0) {
            return false;
        }
    }
    true
}

/// A mark for every third of so many tasks.
fn thirds(alloc: Global, n: usize) -> Option<Vec<u8>> {
    let mut chosen = Vec::new(alloc);
    for k in 0..n {
        chosen.push(u8::from(k % 3 == 0)).ok()?;
    }
    Some(chosen)
}

/// Advances the places by a slot, if they are lanes.
fn step(all: &mut Places, chosen: &[u8]) -> bool {
    if chosen.len() != all.lag.len() || !fit(&all.lag, &all.phase, &all.e, &all.p) {
        return false;
    }
    advance_lanes(&mut all.lag, &mut all.phase, &all.e, &all.p, chosen);
    true
}

/// Whether `advance_lanes` and the plain loop agree on so many places, of which every third task is chosen.
fn steps_agree(alloc: Global, n: u32) -> Option<bool> {
    let mut all = some_places(alloc, n)?;
    let before = some_places(alloc, n)?;
    let chosen = thirds(alloc, n as usize)?;
    Some(step(&mut all, &chosen) && all_went_on(&before, &all, n as usize))
}

#[test]
fn steps_at_each_length(rt: HostRuntime) {
    for n in LENGTHS {
        assert!(rt; steps_agree(rt.alloc(), n) == Some(true), "of {n}");
    }
}

#[test]
fn lags_of_one_task(rt: HostRuntime) {
    assert!(rt; lag_after(1, 2, 3, 1) == 0, "ran");
    assert!(rt; lag_after(1, 2, 3, 0) == 3, "rested");
    assert!(rt; lag_after(-1, 2, 3, 2) == 1, "of another mark");
}

/// Whether lags of 1, -1 and 0 over a period of 3 have their classes, at the phases where the symbol is minus, zero and plus
/// for e = 2.
fn has_each_class() -> bool {
    let lag = [1, 1, 1, -1, -1, -1, 0, 0, 0];
    let phase = [0, 1, 2, 0, 1, 2, 0, 1, 2];
    let (e, p) = ([2; 9], [3; 9]);
    let mut out = [9; 9];
    if !are_lanes(&lag, &phase, &e, &p) {
        return false;
    }
    classify(&lag, &phase, &e, &p, &mut out);
    out == [0, 1, 1, 2, 2, 0, 0, 0, 0]
}

#[test]
fn classes_of_each_kind(rt: HostRuntime) {
    assert!(rt; has_each_class());
}
