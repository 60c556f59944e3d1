// One block of a log.
ghost use Rattle.std.specs.Prelude.{◌≡◌, List, ℕ, map, IfOk, MatchOption};
ghost use Rattle.pfx_store_format.specs.Format.{format};
ghost use Rattle.pfx_log.specs.Logs.{block_of};
ghost use Rattle.pfx_machine.specs.Plain.{IsState, Plain};
ghost use Rattle.pfx_record.specs.Records.{Recorded};
ghost use Rattle.pfx_store_image.specs.Store.{Replays};
ghost use Rattle.pfx_replay.specs.Stated.{plain_of};
ghost use Rattle.pfx_replay.specs.Trails.{records_behind};
ghost use Rattle.pfx_segment.specs.Reading.{views};
ghost use Rattle.pfx_replay_audit.specs.Blocks.{IsRead};
ghost use Rattle.pfx_replay_audit.specs.Folds.{GivesBlock};
ghost use Rattle.pfx_replay_audit.specs.Marks.{Gives};
ghost use Rattle.pfx_replay_audit.specs.Watches.{IfAgrees};

use crate::folded::Folded;
use crate::framing::frames_of;
use crate::marks::judge_from;
use crate::watch::Watch;
use pfx_jobs::job::Job;
use pfx_kinds::units::Units;
use pfx_log::LogBlock;
use pfx_machine::State;
use pfx_replay::{Judged, PlainState, lead, records_behind};
use pfx_store::FileFormat;
use std::alloc::{AllocError, Global};

// The records of frames that lead on from a state. The watcher is told of them, if they agree.
fn judge_frames<J: Job + Units, W: Watch<J>>(
    alloc: Global,
    state: &State<J>,
    frames: &[Vec<u8>],
    marks: &[PlainState<J>],
    watch: &mut W,
) -> Result<Judged<J>, AllocError>
    requires { (t : Plain J) × Replays (format J.kind) state.now (views frames.now) t }
    ensures gives { IfOk result (Gives J.kind J.unit (map plain_of marks.now) state.now
        (records_behind J.kind state.now (views frames.now))) }
    ensures state { IfOk result (λ judged. IsState state.now) }
    ensures told { IfOk result (λ judged. IfAgrees judged
        (W.sees watch.old state.now (records_behind J.kind state.now (views frames.now)) watch.new)) }
{
    let records = records_behind(alloc, state, frames)?;
    match judge_from(alloc, state, &records, marks)? {
        Judged::Differs { number, what } => Ok(Judged::Differs { number, what }),
        Judged::Agrees(last) => {
            watch.see(alloc, state, &records)?;
            Ok(Judged::Agrees(last))
        }
    }
}

// The state that frames lead to, if it has this number.
fn lead_to<J: Job>(
    alloc: Global,
    state: &State<J>,
    frames: &[Vec<u8>],
    last: u64,
) -> Result<Option<State<J>>, AllocError>
    ensures { IfOk result (λ found. MatchOption found
        ((t : Plain J) → Replays (format J.kind) state.now (views frames.now) t → t.number ≡ last → ⊥)
        (λ t. Replays (format J.kind) state.now (views frames.now) t × (t.number ≡ last))) }
{
    let copy = state.copy_of(alloc)?;
    let Some(led) = lead::<FileFormat<J>>(alloc, copy, frames)? else {
        return Ok(None);
    };
    if led.number() == last {
        Ok(Some(led))
    } else {
        Ok(None)
    }
}

/// A block that stands behind a state: the state behind its records, if they agree, or the first that differs; `None` if the block isn't
/// frames that lead on from the state to its last number. The watcher is told of the records, if they agree. An error comes only if an
/// allocation failed.
pub(crate) fn fold_block<J: Job + Units, W: Watch<J>>(
    alloc: Global,
    state: &State<J>,
    block: &LogBlock,
    marks: &[PlainState<J>],
    watch: &mut W,
) -> Result<Option<Folded<State<J>>>, AllocError>
    ensures { let read = block_of block.now.first block.now.last block.now.frames.items in IfOk result (λ found. MatchOption found
        ((records : List (Recorded J)) → (t : Plain J) → IsRead J.kind state.now read records t → ⊥)
        (GivesBlock J.kind J.unit (map plain_of marks.now) (λ s told. W.sees watch.old s told watch.new) state.now read)) }
{
    let Some(frames) = frames_of(alloc, &block.frames)? else {
        return Ok(None);
    };
    let Some(led) = lead_to(alloc, state, &frames, block.last)? else {
        return Ok(None);
    };
    match judge_frames(alloc, state, &frames, marks, watch)? {
        Judged::Agrees(_) => Ok(Some(Folded::Agrees(led))),
        Judged::Differs { number, what } => Ok(Some(Folded::Differs { number, what })),
    }
}
