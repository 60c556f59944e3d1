//! Copies of commands and replies.
ghost use Rattle.std.specs.Prelude.{◌≡◌, IfSome, IfNone};
ghost use Rattle.pfx_machine.specs.Refusals.{TakesMemory};

use pfx_jobs::job::Job;
use pfx_machine::{Command, Reply};
use pfx_weights::Row;
use std::alloc::Global;

fn copy_row(row: &Row) -> Row
    ensures { result ≡ row.now }
{
    let _len = row.len();
    let mut copy = Row::empty();
    copy.set(row.as_slice());
    copy
}

pub fn copy_reply(reply: &Reply) -> Reply
    ensures { result ≡ reply.now }
{
    match reply {
        Reply::Submitted { task } => Reply::Submitted { task: *task },
        Reply::Ran { slot, row } => Reply::Ran {
            slot: *slot,
            row: copy_row(row),
        },
        Reply::Withdrawn { task } => Reply::Withdrawn { task: *task },
        Reply::Reweighed { slot } => Reply::Reweighed { slot: *slot },
    }
}

/// A copy of a command. `None` if an allocation fails, which only a Reweigh takes.
pub fn copy_command<J: Job>(alloc: Global, command: &Command<J>) -> Option<Command<J>>
    ensures same { IfSome result (λ copy. copy ≡ command.now) }
    ensures none { IfNone result (TakesMemory command.now) }
{
    match command {
        Command::Submit { task, job } => Some(Command::Submit {
            task: *task,
            job: job.copy_of(),
        }),
        Command::Slot => Some(Command::Slot),
        Command::Withdraw { task } => Some(Command::Withdraw { task: *task }),
        Command::Reweigh { workers, weights } => match weights.copy_of(alloc) {
            Ok(weights) => Some(Command::Reweigh {
                workers: *workers,
                weights,
            }),
            Err(_) => None,
        },
    }
}
