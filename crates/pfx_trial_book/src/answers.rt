//! Whether clients are answered as they should be.

use crate::asking::Answer;
use crate::service::{Known, Service};
use pfx_book::faults::BookFault;
use pfx_book::note::Loss;
use pfx_fault::Cause;
use pfx_machine::{MachineFault, Reply};

/// Whether a client was told that the device failed, behind this mark.
pub fn is_told(pass: Known, marked: u64) -> bool {
    pass.lost
        == Some(Loss {
            marked,
            cause: Cause::Device,
        })
}

/// Whether a Submit for this task was accepted with this number.
pub fn is_submitted(answer: &Option<Answer>, number: u64, wanted: u16) -> bool {
    match answer {
        Some(Ok((got, Reply::Submitted { task }))) => *got == number && *task == wanted,
        _ => false,
    }
}

/// Whether a Withdraw for this task was accepted with this number.
pub fn is_withdrawn(answer: &Option<Answer>, number: u64, wanted: u16) -> bool {
    match answer {
        Some(Ok((got, Reply::Withdrawn { task }))) => *got == number && *task == wanted,
        _ => false,
    }
}

/// Whether slot 0 with tasks 0 and 1 was sealed with this number.
pub fn is_first_slot(answer: &Option<(u64, Reply)>, number: u64) -> bool {
    match answer {
        Some((got, Reply::Ran { slot, row })) => {
            *got == number && *slot == 0 && row.len() == 2 && row.holds(0) && row.holds(1)
        }
        _ => false,
    }
}

/// Whether the machine refused a command for this fault.
pub fn is_refused(answer: &Option<Answer>, fault: MachineFault) -> bool {
    match answer {
        Some(Err(got)) => *got == BookFault::Machine(fault),
        _ => false,
    }
}

/// Whether a command wasn't accepted since an allocation failed.
pub fn is_without_memory(answer: &Option<Answer>) -> bool {
    matches!(answer, Some(Err(BookFault::NoMemory)))
}

/// Whether a Submit for a task is accepted with this number. The answer ends here, so that no step of a caller's proof spells its type.
pub fn submits<S: Service>(book: &mut S, pass: &mut S::Pass, task: u16, number: u64) -> bool {
    is_submitted(&book.submit(pass, task), number, task)
}

/// Whether a Withdraw for a task is accepted with this number.
pub fn withdraws<S: Service>(book: &mut S, pass: &mut S::Pass, task: u16, number: u64) -> bool {
    is_withdrawn(&book.withdraw(pass, task), number, task)
}

/// Whether the machine refuses a Submit for a task, for this fault.
pub fn submits_none<S: Service>(
    book: &mut S,
    pass: &mut S::Pass,
    task: u16,
    fault: MachineFault,
) -> bool {
    is_refused(&book.submit(pass, task), fault)
}

/// Whether the machine refuses a Withdraw for a task, for this fault.
pub fn withdraws_none<S: Service>(
    book: &mut S,
    pass: &mut S::Pass,
    task: u16,
    fault: MachineFault,
) -> bool {
    is_refused(&book.withdraw(pass, task), fault)
}

/// Whether the machine refuses to open a slot, for this fault.
pub fn opens_none<S: Service>(book: &mut S, pass: &mut S::Pass, fault: MachineFault) -> bool {
    is_unopened(&book.open(pass), fault)
}

/// Whether no slot of this pass is sealed.
pub fn seals_none<S: Service>(book: &mut S, pass: &mut S::Pass) -> bool {
    book.seal(pass).is_none()
}

/// Whether slot 0 with tasks 0 and 1 is sealed with this number.
pub fn seals<S: Service>(book: &mut S, pass: &mut S::Pass, number: u64) -> bool {
    is_first_slot(&book.seal(pass), number)
}

/// Whether the machine refused to open a slot for this fault.
pub fn is_unopened<Q>(answer: &Option<Result<Vec<Q>, BookFault>>, fault: MachineFault) -> bool {
    match answer {
        Some(Err(got)) => *got == BookFault::Machine(fault),
        _ => false,
    }
}
