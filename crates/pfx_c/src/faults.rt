//! A refusal's number, and the task that it names.

ghost use Rattle.std.specs.Prelude.{◌≡◌, ◌≢◌};
ghost use Rattle.pfx_fault.specs.Refusals.{number_of};
ghost use Rattle.pfx_c.specs.Faults.{task_named};

use pfx_fault::Fault;

/// The number by which a call answers a refusal.
pub fn number_of(fault: Fault) -> u32
    ensures number { result ≡ number_of fault }
    ensures some { result ≢ 0 }
{
    u32::from(fault.number())
}

/// Puts the task that a refusal names, if it names one, into `task`.
pub fn name_task(fault: Fault, task: &mut u16)
    ensures { task.new ≡ task_named fault task.old }
{
    match fault {
        Fault::BadWeight { task: x }
        | Fault::HyperperiodTooLarge { task: x }
        | Fault::OutOfRange { task: x } => *task = x,
        _ => {}
    }
}
