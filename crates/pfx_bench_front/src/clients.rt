//! What a client does.
use crate::failures::RunFailure;
use crate::stores::{TASKS, submit};
use crate::words::Plan;
use pfx_book::book::Pass;
use pfx_book::faults::BookFault;
use pfx_crew::desk::Desk;
use pfx_front::calls::Front;
use pfx_front::faults::CallFault;
use pfx_front::name::Since;
use pfx_jobs::quantum::{Done, Quantum};
use pfx_kinds::any::AnyJob;
use pfx_machine::{Command, MachineFault};
use std::alloc::Global;
use std::io;
use std::io::{Print, Write};
use std::sync::Wait;

/// What a client came to: its pass, how many receipts it has, and why it ended before its last slot, if it did.
#[derive(Drop)]
pub struct Visit<B: Since<AnyJob>> {
    /// The client's pass.
    pub pass: Pass<AnyJob, B>,
    /// How many slots were answered and have their receipts.
    pub receipts: u64,
    /// Why it ended.
    pub failure: Option<RunFailure>,
}

/// Waits for the receipt of the last command, whose number this is.
fn settle<B: Since<AnyJob>, K: Desk<Quantum<AnyJob>, Done<AnyJob>> + Drop, R: Wait>(
    rt: &R,
    front: &Front<AnyJob, B, K>,
    pass: &mut Pass<AnyJob, B>,
    number: u64,
) -> Result<u64, RunFailure>
where
    K::Seat: Drop,
{
    let last = pass.greatest();
    if last == 0 || last != number {
        return Err(RunFailure::NoReceipt(number));
    }
    match front.settled(rt, pass, last) {
        Ok(acknowledged) if acknowledged.receipt.number == number => Ok(number),
        Ok(_) => Err(RunFailure::NoReceipt(number)),
        Err(fault) => Err(RunFailure::Call(fault)),
    }
}

/// Runs a slot, and waits for its receipt: its number.
fn slot<B: Since<AnyJob>, K: Desk<Quantum<AnyJob>, Done<AnyJob>> + Drop, R: Wait>(
    rt: &R,
    front: &Front<AnyJob, B, K>,
    pass: &mut Pass<AnyJob, B>,
) -> Result<u64, RunFailure>
where
    K::Seat: Drop,
{
    match front.ask(rt, pass, Command::Slot) {
        Ok((number, _reply)) => settle(rt, front, pass, number),
        Err(fault) => Err(RunFailure::Call(fault)),
    }
}

/// Writes a number as a line of its own, by one call of the system.
fn show<R: Print>(rt: &R, alloc: Global, number: u64) -> Result<(), RunFailure> {
    let Ok(line) = format!(in alloc; "{number}\n") else {
        return Err(RunFailure::NoMemory);
    };
    match io::writer(rt).write_all(line.as_bytes()) {
        Ok(()) => Ok(()),
        Err(_) => Err(RunFailure::Output),
    }
}

/// A slot with its receipt, which is printed if it is to be.
fn step<B: Since<AnyJob>, K: Desk<Quantum<AnyJob>, Done<AnyJob>> + Drop, R: Wait + Print>(
    rt: &R,
    alloc: Global,
    front: &Front<AnyJob, B, K>,
    pass: &mut Pass<AnyJob, B>,
    print: bool,
) -> Option<RunFailure>
where
    K::Seat: Drop,
{
    match slot(rt, front, pass) {
        Err(failure) => Some(failure),
        Ok(number) if print => show(rt, alloc, number).err(),
        Ok(_) => None,
    }
}

/// Runs a client's slots.
pub fn client<B: Since<AnyJob>, K: Desk<Quantum<AnyJob>, Done<AnyJob>> + Drop, R: Wait + Print>(
    rt: &R,
    alloc: Global,
    front: &Front<AnyJob, B, K>,
    pass: Pass<AnyJob, B>,
    plan: Plan,
) -> Visit<B>
where
    K::Seat: Drop,
{
    let mut pass = pass;
    let mut receipts = 0u64;
    for _slot in 0..plan.commands {
        let failure = step(rt, alloc, front, &mut pass, plan.print);
        if failure.is_some() {
            return Visit {
                pass,
                receipts,
                failure,
            };
        }
        receipts = receipts.saturating_add(1);
    }
    Visit {
        pass,
        receipts,
        failure: None,
    }
}

/// Gives a task its job, and waits for the receipt. `false` if it has one.
fn give<B: Since<AnyJob>, K: Desk<Quantum<AnyJob>, Done<AnyJob>> + Drop, R: Wait>(
    rt: &R,
    front: &Front<AnyJob, B, K>,
    pass: &mut Pass<AnyJob, B>,
    task: u16,
) -> Result<bool, RunFailure>
where
    K::Seat: Drop,
{
    let Some(command) = submit(task) else {
        return Err(RunFailure::NoMemory);
    };
    match front.ask(rt, pass, command) {
        Ok((number, _reply)) => {
            settle(rt, front, pass, number)?;
            Ok(true)
        }
        Err(CallFault::Refused(BookFault::Machine(MachineFault::TaskBusy { .. }))) => Ok(false),
        Err(fault) => Err(RunFailure::Call(fault)),
    }
}

/// Gives each task a job that has none: how many.
pub fn furnish<B: Since<AnyJob>, K: Desk<Quantum<AnyJob>, Done<AnyJob>> + Drop, R: Wait>(
    rt: &R,
    front: &Front<AnyJob, B, K>,
    pass: &mut Pass<AnyJob, B>,
) -> Result<u64, RunFailure>
where
    K::Seat: Drop,
{
    let mut given = 0u64;
    for task in 0..TASKS {
        if give(rt, front, pass, task)? {
            given = given.saturating_add(1);
        }
    }
    Ok(given)
}
