//! What a book keeps of each entry. Numbers and replies aren't kept: they follow from the entries before it.
ghost use Rattle.std.specs.Prelude.{◌≡◌, IfSome, true, false};
ghost use Rattle.pfx_machine.specs.declared.command.Command.{Command};
ghost use Rattle.pfx_book.specs.Lines.{IsOf};

use pfx_jobs::job::Job;
use pfx_machine::Command;
use pfx_weights::Weights;
use std::alloc::Global;

/// One entry of a session, in 24 bytes beside a Submit's job and a Reweigh's weights.
#[derive(Drop)]
pub enum Line<J> {
    /// A Submit that was accepted or refused.
    Submit {
        pass: u8,
        refused: bool,
        task: u16,
        job: Box<J>,
    },
    /// A Slot that was accepted or refused.
    Slot {
        pass: u8,
        refused: bool,
    },
    /// A Withdraw that was accepted or refused.
    Withdraw {
        pass: u8,
        refused: bool,
        task: u16,
    },
    /// A Reweigh that was accepted or refused.
    Reweigh {
        pass: u8,
        refused: bool,
        workers: u32,
        weights: Box<Weights>,
    },
    /// A receipt, with its mark's clock.
    Receipt {
        pass: u8,
        number: u64,
        clock: u64,
    },
}

/// The weights in memory of their own, in a box. `None` if an allocation fails.
fn boxed(alloc: Global, weights: &Weights) -> Option<Box<Weights>>
    ensures { IfSome result (λ copy. copy.value ≡ weights.now) }
{
    match weights.copy_of(alloc) {
        Ok(copy) => Box::new(alloc, copy).ok(),
        Err(_) => None,
    }
}

/// The line of an accepted command. `None` if an allocation fails, which only a Submit and a Reweigh take.
pub fn line_of<J: Job>(alloc: Global, pass: u8, command: &Command<J>) -> Option<Line<J>>
    ensures { IfSome result (IsOf pass false command.now) }
{
    match command {
        Command::Submit { task, job } => match Box::new(alloc, job.copy_of()) {
            Ok(job) => Some(Line::Submit {
                pass,
                refused: false,
                task: *task,
                job,
            }),
            Err(_) => None,
        },
        Command::Slot => Some(Line::Slot {
            pass,
            refused: false,
        }),
        Command::Withdraw { task } => Some(Line::Withdraw {
            pass,
            refused: false,
            task: *task,
        }),
        Command::Reweigh { workers, weights } => match boxed(alloc, weights) {
            Some(weights) => Some(Line::Reweigh {
                pass,
                refused: false,
                workers: *workers,
                weights,
            }),
            None => None,
        },
    }
}

/// The line of the same command, refused.
pub fn refused_line<J: Job>(line: Line<J>, command: &Command<J>, number: u8) -> Line<J>
    requires { IsOf number false command.now line }
    ensures { IsOf number true command.now result }
{
    match line {
        Line::Submit {
            pass,
            task,
            job,
            ..
        } => Line::Submit {
            pass,
            refused: true,
            task,
            job,
        },
        Line::Slot { pass, .. } => Line::Slot {
            pass,
            refused: true,
        },
        Line::Withdraw { pass, task, .. } => Line::Withdraw {
            pass,
            refused: true,
            task,
        },
        Line::Reweigh {
            pass,
            workers,
            weights,
            ..
        } => Line::Reweigh {
            pass,
            refused: true,
            workers,
            weights,
        },
        Line::Receipt {
            pass,
            number,
            clock,
        } => Line::Receipt {
            pass,
            number,
            clock,
        },
    }
}
