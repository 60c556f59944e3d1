//! A whole list of commands.

ghost use Rattle.std.specs.Prelude.{◌≡◌, ◌++◌, [], List, IfOk, OnOk, OnErr};
ghost use Rattle.pfx_machine.specs.Outcome.{outcome};
ghost use Rattle.pfx_machine.specs.Plain.{Plain};
ghost use Rattle.pfx_machine.specs.Refusals.{refusal};
ghost use Rattle.pfx_machine.specs.Runs.{accepted, answer, answers, with_accepted};
ghost use Rattle.pfx_machine.specs.declared.command.Command.{Command};

use crate::{Command, MachineFault, Reply, State};
use pfx_choice::ChoiceFault;
use pfx_jobs::job::Job;
use std::alloc::{AllocError, Global};

/// A command's reply, or why it was refused.
pub type Answer = Result<Reply, MachineFault>;

/// Gives the commands to the state, one after the other, and answers each.
///
/// The state is afterwards the outcome of the commands that were accepted, and each answer is the reply, or the refusal,
/// after those accepted before it. Where an allocation fails the run ends, and the state is the outcome of the
/// accepted ones of a beginning of the list.
pub fn run<J: Job>(
    alloc: Global,
    state: &mut State<J>,
    commands: Vec<Command<J>>,
) -> Result<Vec<Answer>, AllocError>
    ensures answers { IfOk result (λ given. given.items ≡ answers J.kind state.old commands.items) }
    ensures outcome { OnOk result (state.new ≡ outcome J.kind state.old (accepted J.kind state.old commands.items)) }
    ensures beginning { OnErr result ((front : List (Command J)) × (rest : List (Command J)) × (commands.items ≡ front ++ rest)
        × (state.new ≡ outcome J.kind state.old (accepted J.kind state.old front))) }
{
    let mut given = Vec::with_capacity(alloc, commands.len())?;
    for command in commands {
        let answer = answer_one(state, command)?;
        given.push(answer)?;
    }
    Ok(given)
}

/// Gives one command to the state and answers it. An error comes only if an allocation failed, and then the
/// state is as it was.
fn answer_one<J: Job>(state: &mut State<J>, command: Command<J>) -> Result<Answer, AllocError>
    ensures answer { IfOk result (λ given. given ≡ answer J.kind state.old command) }
    ensures outcome { OnOk result ((B : Plain J) (H : List (Command J)) → state.old ≡ outcome J.kind B H
        → state.new ≡ outcome J.kind B (with_accepted H command (refusal J.kind state.old command))) }
    ensures kept { OnErr result (state.new ≡ state.old) }
{
    match state.apply(command) {
        Ok(reply) => Ok(Ok(reply)),
        Err(MachineFault::NoRow(ChoiceFault::NoMemory)) => Err(AllocError),
        Err(fault) => Ok(Err(fault)),
    }
}
