//! What a task of a state has.

ghost use Rattle.std.specs.Prelude.{◌≡◌};
ghost use Rattle.pfx_store_engine.specs.Promises.{IsPlace};

use crate::place::RealTask;
use pfx_jobs::job::Job;
use pfx_machine::State;

fn copied<J: Job>(job: &Option<J>) -> Option<J>
    ensures { result ≡ job.now }
{
    match job {
        None => None,
        Some(job) => Some(job.copy_of()),
    }
}

/// What a task of a state has: since when its weights are in force, how many slots it got since then, and a copy of its job; `None` if the
/// state has no real task of this number. It takes no memory.
pub fn place_of<J: Job>(state: &State<J>, task: u16) -> Option<RealTask<J>>
    ensures { IsPlace state.now task result }
{
    let _number = state.number();
    let task = usize::from(task);
    match state.jobs().get(task) {
        None => None,
        Some(job) => Some(RealTask {
            from: state.from(),
            allocation: state.columns().alloc(task),
            job: copied(job),
        }),
    }
}
