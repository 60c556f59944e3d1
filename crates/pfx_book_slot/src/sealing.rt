//! The slot of a state, opened and sealed.
ghost use Rattle.std.specs.Prelude.{◌≡◌, List, ◌∷◌, ◌++◌, [], MatchOption, MatchResult, IfOk, map, None};
ghost use Rattle.pfx_machine.specs.Outcome.{outcome};
ghost use Rattle.pfx_machine.specs.Plain.{Plain};
ghost use Rattle.pfx_machine.specs.Refusals.{refusal, reply, IsFaultOf};
ghost use Rattle.pfx_machine.specs.Slots.{deal};
ghost use Rattle.pfx_machine.specs.declared.command.Command.{Command};
ghost use Rattle.pfx_record.specs.Records.{plain};
ghost use Rattle.pfx_record_redo.specs.Recording.{record_of};
ghost use Rattle.pfx_book_slot.specs.Dealt.{AllBack, StandsAt};

use crate::slot::{Ended, OpenSlot};
use pfx_choice::ChoiceFault;
use pfx_jobs::job::Job;
use pfx_jobs::quantum::Quantum;
use pfx_machine::{Command, MachineFault, State};
use pfx_record::Record;
use pfx_record_redo::Recorded;
use std::alloc::Global;

/// Opens the state's next slot, with all the memory that its end needs, and gives the quanta that are to be run. The state
/// stays as it is. It is refused as a Slot is; `NoRow(NoMemory)` comes only if an allocation failed.
pub fn open_on<J: Job>(
    alloc: Global,
    state: &mut State<J>,
) -> Result<(OpenSlot<J>, Vec<Quantum<J>>), MachineFault>
    ensures stands { IfOk result (λ r. StandsAt J.kind state.old r.0) }
    ensures none_back { IfOk result (λ r. r.0.back ≡ map (λ d. None) r.0.quanta) }
    ensures dealt { IfOk result (λ r. map (λ q. deal q.number q.slot q.task q.before) r.1.items ≡ r.0.quanta) }
    ensures exact { MatchResult result (λ _. refusal J.kind state.old Command.Slot ≡ None) (λ fault. IsFaultOf J.kind state.old Command.Slot fault) }
    ensures same { state.new ≡ state.old }
{
    let (row, quanta) = state.open_slot(alloc)?;
    match OpenSlot::of(alloc, row, quanta) {
        Ok((slot, dealt)) => Ok((slot, dealt)),
        Err(_) => Err(MachineFault::NoRow(ChoiceFault::NoMemory)),
    }
}

/// Ends the slot of this state, once all results are back: what `State::apply` of a Slot does, by the results. It takes no
/// memory, and is never `None`.
pub fn seal_on<J: Job>(state: &mut State<J>, slot: OpenSlot<J>) -> Option<Recorded<J>>
    requires stands { StandsAt J.kind state.old slot }
    requires all { AllBack slot.back }
    ensures reply { MatchOption result ⊥ (λ done. done.reply ≡ reply state.old Command.Slot) }
    ensures entry { MatchOption result ⊥ (λ done. plain done.entry ≡ record_of J.kind state.old Command.Slot) }
    ensures outcome { (B : Plain J) (H : List (Command J)) → state.old ≡ outcome J.kind B H → state.new ≡ outcome J.kind B (H ++ Command.Slot ∷ []) }
{
    let Ended { row, dones, places } = slot.end()?;
    Some(Recorded {
        reply: state.seal(row, dones),
        entry: Record::Slot { row: places },
    })
}
