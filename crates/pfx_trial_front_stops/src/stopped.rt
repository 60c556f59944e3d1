//! Stops after each call of a run's disk; what each leaves is opened, one Slot is appended, and that is stopped again.

use crate::engines::{Engine, Stopped};
use crate::folds::{Fold, MADE};
use pfx_disk::Fate;
use pfx_machine::Command;
use std::alloc::Global;

/// What becomes of what isn't synced.
pub static FATES: [Fate; 5] = [
    Fate::Kept,
    Fate::Dropped,
    Fate::Filled(0x00),
    Fate::Filled(0xc3),
    Fate::Filled(0x5a),
];

/// A run on a disk: what its commands lead to, and the clock from which on each is marked.
#[derive(Drop)]
pub struct Run<'a> {
    pub folds: &'a [Fold],
    pub marks: &'a [u64],
}

/// The number of the last command that was marked by so many calls.
fn marked_by(marks: &[u64], calls: u64) -> u64 {
    let mut number: u64 = 0;
    for (before, mark) in marks.iter().enumerate() {
        if *mark <= calls {
            number = (before as u64).saturating_add(1);
        }
    }
    number
}

/// The bytes that a stop after so many calls leaves.
fn bytes_left<D: Stopped>(alloc: Global, disk: &D, calls: u64, fates: &[Fate]) -> Option<Vec<u8>> {
    disk.left(alloc, calls, fates)?.bytes(alloc)
}

/// Whether after each call there are two writes at the most that no sync has covered: what becomes of a third one changes
/// nothing.
pub fn are_two<D: Stopped>(alloc: Global, disk: &D) -> bool {
    for calls in MADE..disk.calls().saturating_add(1) {
        let kept = bytes_left(alloc, disk, calls, &[]);
        for byte in [0x00, 0xff] {
            let third = [Fate::Kept, Fate::Kept, Fate::Filled(byte)];
            if kept.is_none() || bytes_left(alloc, disk, calls, &third) != kept {
                return false;
            }
        }
    }
    true
}

/// The engine over what a stop after so many calls leaves.
fn left<D: Stopped, E: Engine<D>>(
    alloc: Global,
    disk: &D,
    calls: u64,
    fates: &[Fate],
) -> Option<E> {
    E::opened(alloc, disk.left(alloc, calls, fates)?)
}

/// Whether a stop leaves the state after the Slot, or the one before it if it isn't marked yet.
fn is_one<D: Stopped, E: Engine<D>>(
    alloc: Global,
    disk: &D,
    calls: u64,
    fates: &[Fate],
    fold: &Fold,
    is_marked: bool,
) -> bool {
    match left::<D, E>(alloc, disk, calls, fates) {
        Some(engine) => {
            engine.is_at(&fold.behind_slot) || (!is_marked && engine.is_at(&fold.state))
        }
        None => false,
    }
}

/// The same of two stops: if this becomes of all that isn't synced, and of the last write, the others kept.
fn are_ones<D: Stopped, E: Engine<D>>(
    alloc: Global,
    disk: &D,
    calls: u64,
    fate: Fate,
    fold: &Fold,
    is_marked: bool,
) -> bool {
    let all = [fate, fate];
    let last = [Fate::Kept, fate];
    is_one::<D, E>(alloc, disk, calls, &all, fold, is_marked)
        && is_one::<D, E>(alloc, disk, calls, &last, fold, is_marked)
}

/// How many stops an opening and the appending of one Slot go through, a stop at each of their calls with each fate; `None`
/// if one of them leaves anything but the state before the Slot or the one after it, or not the latter once it is marked.
/// An opening's first call is a sync and the others read, so that a stop after these leaves what one after the sync does.
fn goes_on<D: Stopped, E: Engine<D>>(alloc: Global, engine: E, fold: &Fold) -> Option<u64> {
    let mut engine = engine;
    let opened = engine.calls();
    let marked = engine.carry_out(alloc, Command::Slot).ok()?;
    let disk = engine.into_disk();
    let mut stops: u64 = 0;
    for calls in 0..disk.calls().saturating_add(1) {
        if calls > 1 && calls < opened {
            continue;
        }
        for fate in FATES {
            if !are_ones::<D, E>(alloc, &disk, calls, fate, fold, marked <= calls) {
                return None;
            }
            stops = stops.saturating_add(2);
        }
    }
    Some(stops)
}

/// How many stops a run goes through, and how many the Slots after them do, if this becomes of what isn't synced: of all
/// of it, and of the last write, the others kept. There are to be two at the most.
///
/// `None` if one leaves anything but the state after a beginning of the commands with every marked one.
pub fn stops<D: Stopped, E: Engine<D>>(
    alloc: Global,
    disk: &D,
    run: &Run<'_>,
    fate: Fate,
) -> Option<(u64, u64)> {
    let mut first: u64 = 0;
    let mut second: u64 = 0;
    for calls in MADE..disk.calls().saturating_add(1) {
        let least = marked_by(run.marks, calls);
        for fates in [[fate, fate], [Fate::Kept, fate]] {
            let engine = left::<D, E>(alloc, disk, calls, &fates)?;
            let number = engine.number();
            let fold = run.folds.get(number as usize)?;
            if number < least || !engine.is_at(&fold.state) {
                return None;
            }
            first = first.saturating_add(1);
            second = second.saturating_add(goes_on::<D, E>(alloc, engine, fold)?);
        }
    }
    Some((first, second))
}
