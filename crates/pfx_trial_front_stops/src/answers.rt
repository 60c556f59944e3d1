//! A run of grants and of answers to them on one thread, stopped twice.

use crate::check::check_at;
use crate::courses::{Course, run_on_disk};
use crate::engines::{MemoryEngine, Stopped};
use crate::folds::{MADE, empty, folds};
use crate::stopped::{FATES, Run, stops};
use crate::twice::MORE;
use pfx_disk::{Fate, MemoryDisk};
use pfx_kinds::any::AnyJob;
use pfx_machine::Command;
use std::alloc::Global;

/// How many commands the run has: a start for each task, and then 25 slots, each with the answers of its two units behind it. Their
/// frames fill a segment more than once.
pub const COMMANDS: u64 = 78;

/// The tasks of a slot's row.
fn row(slot: u64) -> [u16; 2] {
    match slot % 3 {
        0 => [0, 1],
        1 => [0, 2],
        _ => [1, 2],
    }
}

/// How many units a task was given by the end of a slot.
fn granted(task: u16, slot: u64) -> u64 {
    let mut units: u64 = 0;
    for before in 0..slot.saturating_add(1) {
        let [first, second] = row(before);
        if first == task || second == task {
            units = units.saturating_add(1);
        }
    }
    units
}

/// The answer of a task's unit, as long as the unit's number says.
fn answer(task: u16, unit: u64) -> Option<Command<AnyJob>> {
    let text = b"steps=90210;checkpoint=9f2cb0a4";
    let length = (unit % 32) as usize;
    let job = AnyJob::start("own", unit, text.get(..length)?).ok()?;
    Some(Command::Submit { task, job })
}

/// The run's command of this number.
pub fn command(number: u64) -> Option<Command<AnyJob>> {
    if number <= 3 {
        return answer(number.checked_sub(1)? as u16, 0);
    }
    let slot = (number - 4) / 3;
    let [first, second] = row(slot);
    match (number - 4) % 3 {
        0 => Some(Command::Slot),
        1 => answer(first, granted(first, slot)),
        _ => answer(second, granted(second, slot)),
    }
}

/// Whether the run is stopped after each of its calls with this fate, and each stop leaves what it has to, now and one Slot later.
fn is_kept(alloc: Global, fate: Fate) -> Option<bool> {
    let begun = empty(alloc)?;
    let (disk, marks) = run_on_disk::<MemoryDisk, MemoryEngine>(alloc, begun, Course::Answered)?;
    let folds = folds(alloc, Course::Answered)?;
    let run = Run {
        folds: &folds,
        marks: &marks,
    };
    let calls = disk.calls().checked_sub(MADE)?;
    let wanted = calls.saturating_add(1).saturating_mul(2);
    let (first, second) = stops::<MemoryDisk, MemoryEngine>(alloc, &disk, &run, fate)?;
    Some(calls > 4 * COMMANDS && first == wanted && second >= MORE.saturating_mul(wanted))
}

#[test]
fn answers_stopped_twice(rt: HostRuntime) {
    for (at, fate) in FATES.into_iter().enumerate() {
        let holds = is_kept(rt.alloc(), fate) == Some(true);
        check_at(&rt, holds, "fate", at as u64);
    }
}
