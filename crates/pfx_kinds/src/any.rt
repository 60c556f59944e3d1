ghost use Rattle.std.specs.Prelude.{◌≡◌, MatchResult, Ok, Err};
ghost use Rattle.pfx_kinds.specs.Starts.{any_start};

use crate::count::{COUNT, Count};
use crate::own::{OWN, Own};
use crate::rule::{RULE, Rule};
use crate::scan::{SCAN, Scan};
use crate::start::JobStartFault;
use pfx_jobs::job::{Job, JobFault};

/// A job of any kind.
#[derive(Debug, Drop)]
pub enum AnyJob {
    /// A count.
    Count(Count),
    /// A cellular automaton.
    Rule(Rule),
    /// A search.
    Scan(Scan),
    /// What another program answered.
    Own(Own),
}

impl AnyJob {
    ghost use Rattle.pfx_kinds.specs.AnyStart.{fields_of};

    /// The job of the kind `count`, `rule`, `scan` or `own` at its start, of its goal and its data.
    ///
    /// A kind of another name is refused first (`BadKind`), then a goal out of the kind's range (`BadGoal`), then data that is not
    /// in the kind's form (`BadData`), as `Count::start`, `Rule::start`, `Scan::start` and `Own::start` say.
    pub fn start(kind: &str, goal: u64, text: &[u8]) -> Result<AnyJob, JobStartFault>
        ensures { MatchResult result (λ job. any_start kind.now goal text.now ≡ Ok (fields_of job)) (λ fault. any_start kind.now goal text.now ≡ Err fault) }
    {
        if kind == "count" {
            return Ok(AnyJob::Count(Count::start(goal, text)?));
        }
        if kind == "rule" {
            return Ok(AnyJob::Rule(Rule::start(goal, text)?));
        }
        if kind == "scan" {
            return Ok(AnyJob::Scan(Scan::start(goal, text)?));
        }
        if kind == "own" {
            return Ok(AnyJob::Own(Own::start(goal, text)?));
        }
        Err(JobStartFault::BadKind)
    }
}

impl Job for AnyJob {
    ghost use Rattle.pfx_kinds.specs.AnyKind.{any_kind, any_laws};

    ghost kind = { any_kind };

    fn copy_of(&self) -> AnyJob {
        match self {
            AnyJob::Count(job) => AnyJob::Count(job.copy_of()),
            AnyJob::Rule(job) => AnyJob::Rule(job.copy_of()),
            AnyJob::Scan(job) => AnyJob::Scan(job.copy_of()),
            AnyJob::Own(job) => AnyJob::Own(job.copy_of()),
        }
    }

    fn left(&self) -> u32 {
        match self {
            AnyJob::Count(job) => job.left(),
            AnyJob::Rule(job) => job.left(),
            AnyJob::Scan(job) => job.left(),
            AnyJob::Own(_) => 0,
        }
    }

    fn is_done(&self) -> bool {
        match self {
            AnyJob::Count(job) => job.is_done(),
            AnyJob::Rule(job) => job.is_done(),
            AnyJob::Scan(job) => job.is_done(),
            AnyJob::Own(_) => true,
        }
    }

    fn step(&mut self) {
        match self {
            AnyJob::Count(job) => job.step(),
            AnyJob::Rule(job) => job.step(),
            AnyJob::Scan(job) => job.step(),
            AnyJob::Own(_) => {}
        }
    }

    fn encode(&self, bytes: &mut [u8; 128]) {
        match self {
            AnyJob::Count(job) => job.encode(bytes),
            AnyJob::Rule(job) => job.encode(bytes),
            AnyJob::Scan(job) => job.encode(bytes),
            AnyJob::Own(job) => job.encode(bytes),
        }
    }

    fn decode(bytes: &[u8; 128]) -> Result<AnyJob, JobFault> {
        match bytes[0] {
            COUNT => Ok(AnyJob::Count(Count::decode(bytes)?)),
            RULE => Ok(AnyJob::Rule(Rule::decode(bytes)?)),
            SCAN => Ok(AnyJob::Scan(Scan::decode(bytes)?)),
            OWN => Ok(AnyJob::Own(Own::decode(bytes)?)),
            _ => Err(JobFault::BadState),
        }
    }

    ghost laws = { any_laws };
}
