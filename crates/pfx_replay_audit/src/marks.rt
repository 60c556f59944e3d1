// Records against what their commands do, and against states that are recorded elsewhere.
ghost use Rattle.std.specs.Prelude.{◌≡◌, ◌↔◌, ℕ, List, map, IfOk, IsTrue, Some};
ghost use Rattle.pfx_machine.specs.Plain.{IsState, Plain};
ghost use Rattle.pfx_record.specs.Records.{plain};
ghost use Rattle.pfx_record_redo.specs.Applying.{applied, is_right};
ghost use Rattle.pfx_replay.specs.Stated.{plain_of};
ghost use Rattle.pfx_replay_audit.specs.Marks.{Gives, GivesMet, IsMet, Meets};

use pfx_jobs::job::Job;
use pfx_kinds::units::Units;
use pfx_machine::State;
use pfx_record::Record;
use pfx_replay::{Difference, Judged, PlainState, are_states, judge_one};
use std::alloc::{AllocError, Global};

// Whether a mark is the state, if it has the state's number.
fn is_met<J: Job>(mark: &PlainState<J>, state: &PlainState<J>) -> bool
    ensures { IsTrue result ↔ IsMet (plain_of state.now) (plain_of mark.now) }
{
    mark.number != state.number || are_states(mark, state)
}

/// Whether each mark with the state's number is the state.
pub(crate) fn meets<J: Job>(state: &PlainState<J>, marks: &[PlainState<J>]) -> bool
    ensures { IsTrue result ↔ Meets (map plain_of marks.now) (plain_of state.now) }
{
    for mark in marks {
        if !is_met(mark, state) {
            return false;
        }
    }
    true
}

// A state, and the record behind it.
fn judge_met<J: Job + Units>(
    alloc: Global,
    state: PlainState<J>,
    entry: &Record<J>,
    marks: &[PlainState<J>],
) -> Result<Judged<J>, AllocError>
    requires { IsTrue (is_right J.kind (plain_of state) (plain entry.now)) }
    ensures { IfOk result (GivesMet J.kind J.unit (map plain_of marks.now) (plain_of state) (plain entry.now)) }
{
    if !meets(&state, marks) {
        return Ok(Judged::Differs {
            number: state.number,
            what: Difference::Checkpoint,
        });
    }
    judge_one(alloc, state, entry)
}

/// Records after a state, one after the other, and the marks, up to the first that differs. An error comes only if an allocation failed.
pub(crate) fn judge_marked<J: Job + Units>(
    alloc: Global,
    state: PlainState<J>,
    records: &[Record<J>],
    marks: &[PlainState<J>],
) -> Result<Judged<J>, AllocError>
    requires { (t : Plain J) × (applied J.kind (plain_of state) (map plain records.now) ≡ Some t) }
    ensures { IfOk result (Gives J.kind J.unit (map plain_of marks.now) (plain_of state) (map plain records.now)) }
{
    let mut reached = state;
    for entry in records {
        match judge_met(alloc, reached, entry, marks)? {
            Judged::Agrees(next) => reached = next,
            Judged::Differs { number, what } => return Ok(Judged::Differs { number, what }),
        }
    }
    if !meets(&reached, marks) {
        return Ok(Judged::Differs {
            number: reached.number,
            what: Difference::Checkpoint,
        });
    }
    Ok(Judged::Agrees(reached))
}

/// The same of records that are right behind a state of the machine.
pub(crate) fn judge_from<J: Job + Units>(
    alloc: Global,
    from: &State<J>,
    records: &[Record<J>],
    marks: &[PlainState<J>],
) -> Result<Judged<J>, AllocError>
    requires { (t : Plain J) × (applied J.kind from.now (map plain records.now) ≡ Some t) }
    ensures gives { IfOk result (Gives J.kind J.unit (map plain_of marks.now) from.now (map plain records.now)) }
    ensures state { IfOk result (λ judged. IsState from.now) }
{
    let plain = PlainState::of(alloc, from)?;
    judge_marked(alloc, plain, records, marks)
}
