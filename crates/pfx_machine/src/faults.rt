//! Why a command is refused.
//!
//! Why it is so:
//! - **A lack of memory is a case of the lowest fault at hand** and has no type of its own: the machine's and the book's is the choice's
//!   (`NoRow(NoMemory)`), and what reads a header, a frame or a file each has one case for it, into which the library's `AllocError`
//!   turns. So a caller matches one enum, and nothing is copied upwards.
//! - **A refusal names the first test that fails**, in one order, and takes no number. NumberLimit comes before all others, so that a
//!   machine at its last number answers one thing.

ghost use Rattle.std.specs.Prelude.{◌≡◌, ◌↔◌, IsTrue};
ghost use Rattle.pfx_machine.specs.Faults.{no_memory};

use pfx_choice::ChoiceFault;
use pfx_weights::SetFault;
use thiserror::Error;

/// Why a command is refused. A refused command takes no number and changes nothing.
#[derive(Clone, Copy, Debug, PartialEq, Eq, Error)]
pub enum MachineFault {
    /// The last number is 2^48 - 1. This is tested before all else.
    #[error("there is no further command number")]
    NumberLimit,
    /// The task isn't a real one.
    #[error("there is no task {task}")]
    NoSuchTask { task: u16 },
    /// The task has a job that isn't done.
    #[error("task {task} has an unfinished job")]
    TaskBusy { task: u16 },
    /// The task has no job.
    #[error("task {task} has no job")]
    NoJob { task: u16 },
    /// A Slot has no row, or an allocation failed before a Slot was run or new weights came into force. The machine refuses no
    /// other command so; a book, each one for which it finds no memory.
    #[error("{0}")]
    NoRow(ChoiceFault),
    /// A Reweigh hasn't as many weights as there are real tasks.
    #[error("there is not one weight for each task")]
    WrongCount,
    /// The lag of this task, the first such one, isn't zero, so no new weights come into force. It may be an idle task.
    #[error("task {task} has a lag other than zero")]
    NotLevel { task: u16 },
    /// The new workers and weights are no set. The fault isn't NoMemory: that is a NoRow.
    #[error("{0}")]
    NoSet(SetFault),
    /// The segments of the store are too short for the new set: they would have to have `least` bytes, for the longest batch of
    /// its workers and the record of its weights.
    #[error("a segment would have to have {least} bytes")]
    SegmentTooSmall { least: u32 },
}

impl MachineFault {
    /// Whether an allocation failed, and nothing is said of the state.
    pub fn is_memory(self) -> bool
        ensures { IsTrue result ↔ (self ≡ no_memory) }
    {
        matches!(self, MachineFault::NoRow(ChoiceFault::NoMemory))
    }
}
