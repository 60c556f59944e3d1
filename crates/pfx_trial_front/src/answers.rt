//! Whether clients are answered, and shown, what they should be.

use crate::service::{Answer, Service};
use pfx_front::faults::CallFault;
use pfx_machine::Reply;
use std::alloc::Global;
use std::sync::Wait;

/// Whether the command was accepted.
pub fn is_accepted(answer: &Answer) -> bool {
    matches!(answer, Some(Ok(_)))
}

/// Whether the command was accepted with this number.
pub fn is_number(answer: &Answer, number: u64) -> bool {
    match answer {
        Some(Ok(reply)) => reply.0 == number,
        _ => false,
    }
}

/// Whether the command was refused so.
pub fn is_refused(answer: &Answer, fault: CallFault) -> bool {
    match answer {
        Some(Err(told)) => *told == fault,
        _ => false,
    }
}

/// Whether the command was this slot, and tasks 0 and 1 alone have its row.
pub fn is_first_slot(answer: &Answer) -> bool {
    match answer {
        Some(Ok((_, Reply::Ran { slot, row }))) => {
            *slot == 0 && row.len() == 2 && row.holds(0) && row.holds(1)
        }
        _ => false,
    }
}

/// Whether what was accepted last gets its receipt.
pub fn is_settled<F: Service, R: Wait>(rt: &R, front: &F, pass: &mut F::Pass) -> bool {
    front.settle(rt, pass) == Some(Ok(true))
}

/// Whether what was accepted last gets its receipt, and a reader that is told of it is shown that number, with an open job at
/// just so many tasks.
pub fn is_told_and_shown<F: Service, R: Wait>(
    rt: &R,
    alloc: Global,
    front: &F,
    pass: &mut F::Pass,
    reader: &mut F::Reader,
    jobs: u32,
) -> bool {
    match front.tell(rt, pass, reader) {
        Some(number) => is_shown(alloc, front, reader, number, jobs),
        None => false,
    }
}

/// Whether the reader is shown the board of this number, with an open job at just so many tasks.
pub fn is_shown<F: Service>(
    alloc: Global,
    front: &F,
    reader: &mut F::Reader,
    number: u64,
    jobs: u32,
) -> bool {
    front.shown(alloc, reader) == Some((number, jobs))
}

/// So many passes, or as many as there are.
pub fn admit<F: Service, R: Wait>(
    rt: &R,
    alloc: Global,
    front: &F,
    clients: u64,
) -> Option<Vec<F::Pass>> {
    let mut passes = Vec::new(alloc);
    for _client in 0..clients {
        match front.admit(rt) {
            None => return Some(passes),
            Some(pass) => passes.push(pass).ok()?,
        }
    }
    Some(passes)
}
