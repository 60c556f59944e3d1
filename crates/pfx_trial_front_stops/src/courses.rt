//! The runs of the trials on one thread, by their commands.

use crate::engines::Engine;
use crate::{answers, folds};
use pfx_kinds::any::AnyJob;
use pfx_machine::Command;
use std::alloc::Global;

/// A run.
#[derive(Clone, Copy)]
pub enum Course {
    /// Of slots and new weights, as in `folds`.
    Reweighed,
    /// Of grants and answers to them, as in `answers`.
    Answered,
}

impl Course {
    /// How many commands it has.
    pub fn commands(self) -> u64 {
        match self {
            Course::Reweighed => folds::COMMANDS,
            Course::Answered => answers::COMMANDS,
        }
    }

    /// Its command of this number.
    pub fn command(self, alloc: Global, number: u64) -> Option<Command<AnyJob>> {
        match self {
            Course::Reweighed => folds::command(alloc, number),
            Course::Answered => answers::command(number),
        }
    }
}

/// The disk after a run that begins on this one, and the clocks of the run's marks.
pub fn run_on_disk<D, E: Engine<D>>(
    alloc: Global,
    disk: D,
    course: Course,
) -> Option<(D, Vec<u64>)> {
    let mut engine = E::begun(alloc, disk)?;
    let mut marks = Vec::new(alloc);
    for number in 1..course.commands().saturating_add(1) {
        let command = course.command(alloc, number)?;
        marks.push(engine.carry_out(alloc, command).ok()?).ok()?;
    }
    Some((engine.into_disk(), marks))
}
