//! Each refusal's fault.

ghost use Rattle.std.specs.Prelude.{◌≡◌};
ghost use Rattle.pfx_choice_refusals.specs.Faults.{fault_of_set, fault_of_ledger, fault_of_choice};

use pfx_choice::ChoiceFault;
use pfx_columns::LedgerFault;
use pfx_fault::Fault;
use pfx_weights::SetFault;

/// The program's fault for the refusal of a task set.
pub fn set_fault(fault: SetFault) -> Fault
    ensures { result ≡ fault_of_set fault }
{
    match fault {
        SetFault::NoTasks => Fault::NoTasks,
        SetFault::TooManyTasks => Fault::TooManyTasks,
        SetFault::BadWorkers => Fault::BadWorkers,
        SetFault::BadWeight { task } => Fault::BadWeight { task },
        SetFault::HyperperiodTooLarge { task } => Fault::HyperperiodTooLarge { task },
        SetFault::Overload => Fault::Overload,
        SetFault::NoMemory => Fault::NoMemory,
    }
}

/// The program's fault for allocations that are no ledger.
pub fn ledger_fault(fault: LedgerFault) -> Fault
    ensures { result ≡ fault_of_ledger fault }
{
    match fault {
        LedgerFault::OutOfRange { task } => Fault::OutOfRange { task },
        LedgerFault::WrongSum => Fault::WrongSum,
        LedgerFault::NoMemory => Fault::NoMemory,
    }
}

/// The program's fault for a slot that has no row.
pub fn choice_fault(fault: ChoiceFault) -> Fault
    ensures { result ≡ fault_of_choice fault }
{
    match fault {
        ChoiceFault::SlotLimit => Fault::SlotLimit,
        ChoiceFault::TooManyUrgent { urgent, m } => Fault::TooManyUrgent { urgent, m },
        ChoiceFault::TooFewEligible { eligible, m } => Fault::TooFewEligible { eligible, m },
        ChoiceFault::NoMemory => Fault::NoMemory,
    }
}
