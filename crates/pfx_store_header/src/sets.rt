//! Task sets by the function behind their acceptance.

ghost use Rattle.std.specs.Prelude.{◌≡◌, IfOk};
ghost use Rattle.pfx_weights.specs.Tests.{set_of};

use pfx_weights::{SetFault, TaskSet};
use std::alloc::{AllocError, Global};

/// The set of these workers and tasks, or none if `TaskSet::new` refuses them.
pub(crate) fn set_of(
    alloc: Global,
    workers: u32,
    tasks: &[(u32, u32)],
) -> Result<Option<TaskSet>, AllocError>
    ensures { IfOk result (λ set. set ≡ set_of workers tasks.now) }
{
    match TaskSet::new(alloc, workers, tasks) {
        Ok(set) => Ok(Some(set)),
        Err(SetFault::NoMemory) => Err(AllocError),
        Err(SetFault::NoTasks) => Ok(None),
        Err(SetFault::TooManyTasks) => Ok(None),
        Err(SetFault::BadWorkers) => Ok(None),
        Err(SetFault::BadWeight { .. }) => Ok(None),
        Err(SetFault::HyperperiodTooLarge { .. }) => Ok(None),
        Err(SetFault::Overload) => Ok(None),
    }
}
