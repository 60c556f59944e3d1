//! What a task may be given: which jobs there are, and which answers of its units are taken.

ghost use Rattle.std.specs.Prelude.{◌≡◌, ◌==◌, if◌then◌else◌, IfOk, IfErr, OnOk};
ghost use Rattle.pfx_kinds.specs.Starts.{any_start};
ghost use Rattle.pfx_kinds.specs.Units.{unit_of, is_behind, last_by};
ghost use Rattle.pfx_program.specs.Grants.{counted, counted_by, is_next, is_taken_by};
ghost use Rattle.pfx_store_engine.specs.Promises.{IsSame, IsEngineFault};
ghost use Rattle.pfx_program.specs.Script.{job_by};

use pfx_fault::Fault;
use pfx_kinds::any::AnyJob;
use pfx_kinds::own::Own;
use pfx_kinds::start::JobStartFault;
use pfx_store_engine::{Engine, RealTask};
use std::alloc::Global;

/// A job at its start.
pub(crate) fn started(kind: &str, goal: u64, text: &str) -> Result<AnyJob, JobStartFault>
    ensures { result ≡ job_by (any_start kind.now goal text.now) }
{
    AnyJob::start(kind, goal, text.as_bytes())
}

// How many units were answered by then, counted in the weights that are in force from a slot on.
fn count_in(from: u64, last: &Own) -> u64
    ensures { result ≡ if last.now.since == from then last.now.answered else 0 }
{
    if last.since == from { last.answered } else { 0 }
}

// Whether a unit is the one behind the last that was answered.
fn is_behind(from: u64, place: &Option<AnyJob>, unit: u64) -> bool
    ensures { result ≡ is_behind from (last_by unit_of place.now) unit }
{
    match place {
        Some(AnyJob::Own(last)) => {
            let count = count_in(from, last);
            count < unit && unit - count == 1
        }
        _ => true,
    }
}

// Whether a unit's answer is taken, by what its task has.
fn is_taken(place: &Option<RealTask<AnyJob>>, unit: u64) -> bool
    ensures { result ≡ is_taken_by place.now unit }
{
    match place {
        None => true,
        Some(place) => { unit <= place.allocation && is_behind(place.from, &place.job, unit) }
    }
}

// Counts an answer in the weights in force, by what its task has.
fn count(place: &Option<RealTask<AnyJob>>, job: &mut AnyJob)
    ensures { job.new ≡ counted_by place.now job.old }
{
    if let (Some(place), AnyJob::Own(answer)) = (place, job) {
        answer.count_from(place.from);
    }
}

// Whether the machine may be asked to give a task this job: an answer, only if it is of the next unit that the task was given. The
// answer counts in the weights in force then.
pub(crate) fn is_next<E: Engine<AnyJob>>(
    alloc: Global,
    task: u16,
    job: &mut AnyJob,
    engine: &mut E,
) -> Result<bool, Fault>
    ensures next { IfOk result (λ next. next ≡ is_next (E.promise.state engine.old) task job.new) }
    ensures counted { OnOk result (job.new ≡ counted (E.promise.state engine.old) task job.old) }
    ensures settled { OnOk result (E.promise.settled engine.old → E.promise.settled engine.new) }
    ensures same { IsSame E.promise engine.old engine.new }
    ensures fails { IfErr result (IsEngineFault E.promise.faults (E.promise.state engine.old)) }
{
    let unit = match job {
        AnyJob::Own(answer) => answer.answered,
        _ => return Ok(true),
    };
    let place = engine.place(alloc, task)?;
    count(&place, job);
    Ok(is_taken(&place, unit))
}
