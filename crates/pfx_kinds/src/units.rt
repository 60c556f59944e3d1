//! Which jobs are the answers of units that other programs do.
//!
//! Why it is so:
//! - **Whether an answer is of the next unit is asked where a script is run** (`is_next`), not by the machine: the machine knows no kind.
//!   So it holds of scripts, and of a file only if scripts alone wrote it.

ghost use Rattle.std.specs.Prelude.{◌≡◌, Option};
ghost use Rattle.pfx_kinds.specs.declared.units.Unit.{Unit as Answered};

use crate::any::AnyJob;

/// A unit of a task, which other programs do.
#[derive(Clone, Copy, Debug, PartialEq, Eq)]
pub struct Unit {
    /// The slot from which on the weights are in force that it is counted in.
    pub since: u64,
    /// Its number: the first unit that its task was given by these weights is 1.
    pub number: u64,
}

/// A job that may be the answer of a unit.
pub trait Units {
    /// The unit that a job is the answer of, or none if it is no answer.
    ghost unit: { Self → Option Answered };

    /// The unit that this is the answer of, or `None` if it is no answer.
    fn unit_answered(&self) -> Option<Unit>
        ensures { result ≡ unit self.now };
}

impl Units for AnyJob {
    ghost use Rattle.pfx_kinds.specs.Units.{unit_of};

    ghost unit = { unit_of };

    fn unit_answered(&self) -> Option<Unit> {
        match self {
            AnyJob::Count(_) | AnyJob::Rule(_) | AnyJob::Scan(_) => None,
            AnyJob::Own(job) => Some(Unit {
                since: job.since,
                number: job.answered,
            }),
        }
    }
}
