//! Commands, and what is printed of them.

use crate::failure::Failure;
use crate::sum::Sum;
use pfx_disk::FileDisk;
use pfx_fault::Fault;
use pfx_machine::{Command, JobStatus, Reply};
use pfx_store_engine::{EngineFault, StoreEngine};
use std::alloc::Global;

/// How many slots a run has.
const SLOTS: u32 = 10;

/// The greatest number of the jobs' sums.
const GREATEST: u32 = 1_000;

/// Why a command wasn't accepted.
fn failure_of(fault: EngineFault) -> Failure {
    match fault {
        EngineFault::Refused(_) => Failure::Refused,
        EngineFault::Failed(Fault::NoMemory) => Failure::NoMemory,
        EngineFault::Failed(_) => Failure::NotDurable,
    }
}

/// Gives a sum to each task that has no job.
pub fn submit_all(alloc: Global, engine: &mut StoreEngine<FileDisk, Sum>) -> Result<(), Failure> {
    let Ok(board) = engine.state.board(alloc) else {
        return Err(Failure::NoMemory);
    };
    for task in 0..3u16 {
        let is_free = match board.lines.get(usize::from(task)) {
            Some(line) => line.job == JobStatus::None,
            None => false,
        };
        if is_free {
            let job = Sum::new(GREATEST);
            match engine.execute(alloc, Command::Submit { task, job }) {
                Ok(_) => {}
                Err(fault) => return Err(failure_of(fault)),
            }
        }
    }
    Ok(())
}

/// Runs ten slots, and prints the number, the slot and the tasks of each. It is durable by then, and so are its jobs' states.
pub fn run_slots(
    rt: &HostRuntime,
    alloc: Global,
    engine: &mut StoreEngine<FileDisk, Sum>,
) -> Result<(), Failure> {
    for _more in 0..SLOTS {
        let (number, slot, row) = match engine.execute(alloc, Command::Slot) {
            Ok((mark, Reply::Ran { slot, row })) => (mark.number, slot, row),
            Ok(_) => return Err(Failure::Refused),
            Err(fault) => return Err(failure_of(fault)),
        };
        let tasks = row.as_slice();
        if println!(rt; "{number}: slot {slot} ran {tasks:?}").is_err() {
            return Err(Failure::NoOutput);
        }
    }
    Ok(())
}

/// Prints how many slots each task got, its lag, and its sum so far.
pub fn print_tasks(
    rt: &HostRuntime,
    alloc: Global,
    engine: &StoreEngine<FileDisk, Sum>,
) -> Result<(), Failure> {
    let Ok(board) = engine.state.board(alloc) else {
        return Err(Failure::NoMemory);
    };
    for task in 0..3usize {
        let Some(line) = board.lines.get(task) else {
            return Err(Failure::NoStore);
        };
        let total = match engine.state.jobs().get(task) {
            Some(Some(job)) => job.total,
            _ => return Err(Failure::NoStore),
        };
        if println!(rt;
            "task {task} got {} slots, its lag is {}/{}, its sum is {total}",
            line.alloc, line.lag, line.period
        )
        .is_err()
        {
            return Err(Failure::NoOutput);
        }
    }
    Ok(())
}
