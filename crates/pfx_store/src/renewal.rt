// New weights, prepared for a store.
//
// Why it is so:
// - **New weights are appended in two steps**, as the machine puts them in force: `prepare_reweigh` takes all memory, for the new set's
//   ledger and for the longest frame of its workers, and refuses what the machine refuses; it only looks at the store, so no call of the
//   disk comes before a refusal. `append_reweigh` takes what was prepared, and no memory: so it answers and promises just what `append`
//   does, and needs no fault of its own. In one call memory would come behind the checkpoint's step that an engine takes before each
//   append, and a refusal for memory would leave a store that isn't as it was.
// - **The room for frames is always enough for a record of weights too**, of as many as there are real tasks: it is a matter of the
//   header, and a store of few workers and many tasks has that record as its longest frame. The room that was prepared takes its place
//   when the new set comes into force, so a failed append keeps the room of its own set.
ghost use Rattle.std.specs.Prelude.{◌≡◌, IfOk, MatchResult, None};
ghost use Rattle.pfx_machine.specs.Refusals.{refusal, IsFaultOf};
ghost use Rattle.pfx_machine.specs.Reweighing.{new_set};
ghost use Rattle.pfx_machine.specs.declared.command.Command.{Command};

use crate::opening::longest_frame;
use pfx_choice::ChoiceFault;
use pfx_jobs::job::Job;
use pfx_machine::{MachineFault, NewEpoch, State};
use pfx_weights::Weights;
use std::alloc::Global;
use std::marker::Model;

/// A set of new weights that may come into force in a store, with all the memory that this takes: the ledger that it begins
/// with, and room for the longest frame of its workers. Contracts see it as the set.
///
/// `Store::prepare_reweigh` makes it, and `Store::append_reweigh` puts it in force, which takes no memory.
#[derive(Drop)]
pub struct Renewal {
    pub(crate) epoch: NewEpoch,
    pub(crate) frame: Vec<u8>,
}

impl Model for Renewal {
    ghost use Rattle.std.specs.Prelude.{◌≤◌, ◌+◌, vec_capacity};
    ghost use Rattle.pfx_record.specs.Batches.{batch_most};
    ghost use Rattle.pfx_weights.specs.Sets.{FilledSet};

    ghost Value = { FilledSet };

    ghost view = { λ renewal. renewal.epoch };

    ghost invariant = { λ renewal. batch_most renewal.epoch.workers renewal.epoch.real + 1 ≤ vec_capacity renewal.frame };
}

// Prepares the set of these workers and weights at a state.
pub(crate) fn prepared<J: Job>(
    alloc: Global,
    state: &State<J>,
    workers: u32,
    weights: &Weights,
) -> Result<Renewal, MachineFault>
    ensures set { IfOk result (λ renewal. renewal ≡ new_set state.now.ledger.set workers weights.now) }
    ensures exact { MatchResult result (λ _. refusal J.kind state.now (Command.Reweigh workers weights.now) ≡ None)
        (λ fault. IsFaultOf J.kind state.now (Command.Reweigh workers weights.now) fault) }
{
    let epoch = state.prepare(alloc, workers, weights)?;
    let _total = state.columns().total();
    let real = state.columns().real() as u32;
    let Ok(frame) = Vec::with_capacity(alloc, longest_frame(workers, real)) else {
        return Err(MachineFault::NoRow(ChoiceFault::NoMemory));
    };
    Ok(Renewal { epoch, frame })
}
