//! What a run of a script does at a refusal, and what it counts.
//!
//! Why it is so:
//! - **A strict run is an ordinary run of a shorter script**: that of the records up to the first one that is refused (`taken`), so what
//!   is proved of courses holds of it as it stands, and `closed` says what was kept. Its records share no call, so that none behind a
//!   refusal is carried out.
//! - **Only a run that went well has a report.** Where it fails, the fault is what there is to say, and what was refused before stands in
//!   its output.

ghost use Rattle.std.specs.Prelude.{◌≡◌, ◌<◌, ◌≤◌, None};
ghost use Rattle.pfx_program.specs.Reports.{IsAdded};
ghost use Rattle.pfx_program.specs.Script.{noted};

use crate::OutputForm;
use pfx_fault::Fault;

/// What a run of a script does behind a record that is refused.
#[derive(Clone, Copy, Debug, PartialEq, Eq)]
pub enum AtRefusal {
    /// It goes on with the next record.
    GoOn,
    /// It ends there, as if the script did.
    End,
}

/// How the records of a script are run.
#[derive(Clone, Copy)]
pub struct Run {
    /// How many slots of a record are asked for in one call, 1 or more.
    pub batch: u32,
    /// How many records share a call at the most, 16 or fewer.
    pub group: u32,
    /// What is done behind a record that is refused.
    pub at_refusal: AtRefusal,
    /// Whether lines are text or objects.
    pub form: OutputForm,
    ghost some: { 0 < batch },
    ghost few: { group ≤ 16 },
}

/// A record of a script that was refused.
#[derive(Clone, Copy, Debug, PartialEq, Eq)]
pub struct RefusedRecord {
    /// Its place in the script, counted from 1.
    pub at: u64,
    /// Why.
    pub fault: Fault,
}

/// What a run of a script has counted.
#[derive(Clone, Copy, Debug, PartialEq, Eq)]
pub struct Report {
    /// How many commands were accepted.
    pub accepted: u32,
    /// How many records were refused. A record of slots ends with its first refusal, and is refused then.
    pub refused: u64,
    /// The first of these.
    pub first: Option<RefusedRecord>,
}

impl Report {
    /// Of a run that has done nothing.
    pub(crate) fn new() -> Report
        ensures accepted { result.accepted ≡ 0 }
        ensures refused { result.refused ≡ 0 }
        ensures first { result.first ≡ None }
    {
        Report {
            accepted: 0,
            refused: 0,
            first: None,
        }
    }

    /// Counts the record at a place, if it was refused. Fewer were so far than stand before it.
    pub(crate) fn note(&mut self, at: u64, refusal: Option<Fault>)
        requires room { self.old.refused < at }
        ensures { IsAdded self.old 0 (noted at refusal) self.new }
    {
        if let Some(fault) = refusal {
            self.refused += 1;
            if self.first.is_none() {
                self.first = Some(RefusedRecord { at, fault });
            }
        }
    }
}
