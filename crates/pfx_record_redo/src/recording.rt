// Running a command, with its record.
ghost use Rattle.std.specs.Prelude.{◌≡◌, ◌≤◌, ◌<◌, ◌+◌, ◌∷◌, ◌++◌, ◌^◌, [], List, map, length, slice_get, MatchResult, IfOk, OnOk, OnErr, None};
ghost use Rattle.pfx_machine.specs.Choosing.{row_in};
ghost use Rattle.pfx_machine.specs.Plain.{Plain};
ghost use Rattle.pfx_machine.specs.Outcome.{outcome};
ghost use Rattle.pfx_machine.specs.Reweighing.{new_set};
ghost use Rattle.pfx_machine.specs.Refusals.{refusal, reply, IsFaultOf};
ghost use Rattle.pfx_machine.specs.Slots.{deal};
ghost use Rattle.pfx_machine.specs.declared.command.Command.{Command};
ghost use Rattle.pfx_record.specs.Records.{plain};
ghost use Rattle.pfx_record_redo.specs.Recording.{after_in, record_of};

use pfx_choice::ChoiceFault;
use pfx_jobs::job::Job;
use pfx_jobs::quantum::Done;
use pfx_machine::{Command, MachineFault, NewEpoch, Reply, State, run_all};
use pfx_record::{Place, Record};
use pfx_weights::{Row, Weights};
use std::alloc::{AllocError, Global};

/// What an accepted command answers, and its record.
#[derive(Drop)]
pub struct Recorded<J> {
    /// What it answers.
    pub reply: Reply,
    /// What is recorded of it.
    pub entry: Record<J>,
}

// The state that the results have for a task, if any.
fn after_of<J: Job>(dones: &[Done<J>], task: u16) -> Option<J>
    ensures { result ≡ after_in J.kind task (map (λ d. deal d.number d.slot d.task d.before) dones.now) }
{
    for done in dones {
        if done.task == task {
            return Some(done.after.copy_of());
        }
    }
    None
}

// The places of a row's tasks, with the states that the results have for them.
fn places_of<J: Job>(
    alloc: Global,
    row: &Row,
    dones: &[Done<J>],
) -> Result<Vec<Place<J>>, AllocError>
    ensures { IfOk result (λ places. places.items ≡ map
        (λ x. record { task = x; state = after_in J.kind x (map (λ d. deal d.number d.slot d.task d.before) dones.now) }) row.now) }
{
    let mut places = Vec::with_capacity(alloc, row.len())?;
    for i in 0..row.len() {
        let task = row.get(i);
        places.push(Place {
            task,
            state: after_of(dones, task),
        })?;
    }
    Ok(places)
}

// Runs a slot and records it.
fn run_slot<J: Job>(alloc: Global, state: &mut State<J>) -> Result<Recorded<J>, MachineFault>
    ensures exact { MatchResult result (λ _. refusal J.kind state.old Command.Slot ≡ None) (λ fault. IsFaultOf J.kind state.old Command.Slot fault) }
    ensures reply { IfOk result (λ done. done.reply ≡ reply state.old Command.Slot) }
    ensures kept_as { IfOk result (λ done. plain done.entry ≡ record_of J.kind state.old Command.Slot) }
    ensures outcome { OnOk result
        ((B : Plain J) (H : List (Command J)) → state.old ≡ outcome J.kind B H → state.new ≡ outcome J.kind B (H ++ Command.Slot ∷ [])) }
    ensures kept { OnErr result (state.new ≡ state.old) }
{
    let (row, quanta) = state.open_slot(alloc)?;
    let Ok(dones) = run_all(alloc, quanta) else {
        return Err(MachineFault::NoRow(ChoiceFault::NoMemory));
    };
    let Ok(places) = places_of(alloc, &row, &dones) else {
        return Err(MachineFault::NoRow(ChoiceFault::NoMemory));
    };
    Ok(Recorded {
        reply: state.seal(row, dones),
        entry: Record::Slot { row: places },
    })
}

/// What `State::prepare` answers for a Reweigh of these workers and weights, and the record of it. The state stays as it is.
pub fn prepare_recorded<J: Job>(
    alloc: Global,
    state: &State<J>,
    workers: u32,
    weights: Weights,
) -> Result<(NewEpoch, Record<J>), MachineFault>
    ensures set { IfOk result (λ prepared. prepared.0 ≡ new_set state.now.ledger.set workers weights) }
    ensures kept_as { IfOk result (λ prepared. plain prepared.1 ≡ record_of J.kind state.now (Command.Reweigh workers weights)) }
    ensures number { OnOk result (state.now.number + 1 < 2 ^ 48) }
    ensures real { IfOk result (λ prepared. prepared.0.real ≡ state.now.ledger.set.real) }
    ensures exact { MatchResult result (λ _. refusal J.kind state.now (Command.Reweigh workers weights) ≡ None) (λ fault. IsFaultOf J.kind state.now (Command.Reweigh workers weights) fault) }
{
    let epoch = state.prepare(alloc, workers, &weights)?;
    let entry = Record::Reweigh {
        workers: workers as u8,
        weights,
    };
    Ok((epoch, entry))
}

// Runs a Reweigh and records it.
fn run_reweigh<J: Job>(
    alloc: Global,
    state: &mut State<J>,
    workers: u32,
    weights: Weights,
) -> Result<Recorded<J>, MachineFault>
    ensures exact { MatchResult result (λ _. refusal J.kind state.old (Command.Reweigh workers weights) ≡ None) (λ fault. IsFaultOf J.kind state.old (Command.Reweigh workers weights) fault) }
    ensures reply { IfOk result (λ done. done.reply ≡ reply state.old (Command.Reweigh workers weights)) }
    ensures kept_as { IfOk result (λ done. plain done.entry ≡ record_of J.kind state.old (Command.Reweigh workers weights)) }
    ensures outcome { OnOk result ((B : Plain J) (H : List (Command J)) → state.old ≡ outcome J.kind B H → state.new ≡ outcome J.kind B (H ++ Command.Reweigh workers weights ∷ [])) }
    ensures kept { OnErr result (state.new ≡ state.old) }
{
    let (epoch, entry) = prepare_recorded(alloc, state, workers, weights)?;
    Ok(Recorded {
        reply: state.begin(epoch),
        entry,
    })
}

/// Runs a whole command on the state, as `State::apply` does, and records it: the record is right at the state before.
/// `NoRow(NoMemory)` comes only for a Slot or a Reweigh, if an allocation failed.
pub fn apply_recorded<J: Job>(
    alloc: Global,
    state: &mut State<J>,
    command: Command<J>,
) -> Result<Recorded<J>, MachineFault>
    ensures exact { MatchResult result (λ _. refusal J.kind state.old command ≡ None) (λ fault. IsFaultOf J.kind state.old command fault) }
    ensures reply { IfOk result (λ done. done.reply ≡ reply state.old command) }
    ensures kept_as { IfOk result (λ done. plain done.entry ≡ record_of J.kind state.old command) }
    ensures outcome { OnOk result ((B : Plain J) (H : List (Command J)) → state.old ≡ outcome J.kind B H → state.new ≡ outcome J.kind B (H ++ command ∷ [])) }
    ensures kept { OnErr result (state.new ≡ state.old) }
{
    match command {
        Command::Submit { task, job } => {
            let entry = Record::Submit {
                task,
                job: job.copy_of(),
            };
            let reply = state.apply(Command::Submit { task, job })?;
            Ok(Recorded { reply, entry })
        }
        Command::Slot => run_slot(alloc, state),
        Command::Withdraw { task } => {
            let entry = Record::Withdraw { task };
            let reply = state.apply(Command::Withdraw { task })?;
            Ok(Recorded { reply, entry })
        }
        Command::Reweigh { workers, weights } => run_reweigh(alloc, state, workers, weights),
    }
}
