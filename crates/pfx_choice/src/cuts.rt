//! The place at which the workers run out.

ghost use Rattle.std.specs.Prelude.{◌≡◌, ◌+◌, ◌<◌, ◌≤◌, length, IfSome};
ghost use Rattle.pfx_choice.specs.Cuts.{below, IsCut};

use crate::counts::count_below;

/// Where the workers run out: each task at a lesser place runs, none at a greater one does, and of those at it as many as
/// are left.
#[derive(Clone, Copy)]
pub struct Cut {
    /// The place, 1 to 254.
    pub place: u8,
    /// How many workers the tasks at lesser places leave.
    pub left: usize,
    /// How many tasks are at it.
    pub tasks: usize,
}

/// The place at which the workers run out, if they do at one. The one guessed and those beside it are tried first.
pub fn find_cut(places: &[u8], workers: usize, guess: u8) -> Option<Cut>
    requires { length places.now ≤ 1152 }
    ensures { IfSome result (λ cut. IsCut places.now workers cut) }
{
    if let Some(cut) = find_near(places, workers, guess) {
        return Some(cut);
    }
    let urgent = count_below(places, 1);
    let eligible = count_below(places, 255);
    if urgent > workers || eligible < workers {
        return None;
    }
    Some(bisect(places, workers, urgent))
}

/// The place guessed or one beside it, where the workers run out there before all of its tasks have one.
fn find_near(places: &[u8], workers: usize, guess: u8) -> Option<Cut>
    requires { length places.now ≤ 1152 }
    ensures { IfSome result (λ cut. IsCut places.now workers cut) }
{
    if guess == 0 || guess > 252 {
        return None;
    }
    let first = count_below(places, guess);
    if first > workers {
        if guess == 1 {
            return None;
        }
        let before = count_below(places, guess - 1);
        return cut_between(places, before, first, workers, guess - 1);
    }
    let next = count_below(places, guess + 1);
    if workers < next {
        return cut_between(places, first, next, workers, guess);
    }
    let last = count_below(places, guess + 2);
    cut_between(places, next, last, workers, guess + 1)
}

/// The place, if no more tasks than workers are below it, and more up to it.
fn cut_between(places: &[u8], first: usize, next: usize, workers: usize, d: u8) -> Option<Cut>
    requires place { (0 < d) × (d < 255) }
    requires first { first ≡ below places.now d }
    requires next { next ≡ below places.now (d + 1) }
    ensures { IfSome result (λ cut. IsCut places.now workers cut) }
{
    let _places = places;
    if first <= workers && workers < next {
        Some(Cut {
            place: d,
            left: workers - first,
            tasks: next.saturating_sub(first),
        })
    } else {
        None
    }
}

/// The greatest place of 1 to 254 below which there are no more tasks than workers.
fn bisect(places: &[u8], workers: usize, urgent: usize) -> Cut
    requires long { length places.now ≤ 1152 }
    requires urgent { urgent ≡ below places.now 1 }
    requires least { urgent ≤ workers }
    requires most { workers ≤ below places.now 255 }
    ensures { IsCut places.now workers result }
{
    let mut low: u8 = 1;
    let mut high: u8 = 255;
    let mut first = urgent;
    'halves: while high - low > 1 {
        let middle = low + (high - low) / 2;
        let number = count_below(places, middle);
        if number <= workers {
            low = middle;
            first = number;
        } else {
            high = middle;
        }
    }
    Cut {
        place: low,
        left: workers - first,
        tasks: count_below(places, low + 1).saturating_sub(first),
    }
}
