// The blocks of a log, one after the other.
ghost use Rattle.std.specs.Prelude.{◌≡◌, ◌≤◌, List, ℕ, map};
ghost use Rattle.pfx_log.specs.Holding.{Begins};
ghost use Rattle.pfx_log.specs.Logs.{new_log};
ghost use Rattle.pfx_log.specs.Reading.{HasLen};
ghost use Rattle.pfx_replay.specs.Stated.{plain_of};
ghost use Rattle.pfx_replay_audit.specs.Marks.{Meets};
ghost use Rattle.pfx_replay_audit.specs.Reads.{BlocksAnswer, Reads};
ghost use Rattle.pfx_replay_audit.specs.Watches.{Told};

use crate::block::fold_block;
use crate::ends::LogEnd;
use crate::faults::HistoryFault;
use crate::folded::Folded;
use crate::watch::Watch;
use pfx_disk::Disk;
use pfx_jobs::job::Job;
use pfx_kinds::units::Units;
use pfx_log::{LogPlace, read_block};
use pfx_machine::State;
use pfx_replay::PlainState;
use std::alloc::Global;

/// The blocks of a log that stand behind a place, the log's first, and a state, up to the log's end or the first number that differs.
/// The marks are met at the state. One block is in memory at a time, and nothing is written.
pub(crate) fn fold_blocks<J: Job + Units, L: Disk, W: Watch<J>>(
    alloc: Global,
    disk: &mut L,
    len: usize,
    first: LogPlace,
    state: State<J>,
    marks: &[PlainState<J>],
    watch: &mut W,
) -> Result<LogEnd<State<J>>, HistoryFault>
    requires len { HasLen len (L.view disk.old) }
    requires inside { first.at ≤ len }
    requires met { Meets (map plain_of marks.now) state }
    ensures { Reads (L.view disk.old) (L.view disk.new) result (λ bytes. (version : ℕ) → (spelled before : List ℕ)
        → Begins (new_log version spelled before) first bytes
        → BlocksAnswer J.kind J.unit (map plain_of marks.now) (new_log version spelled before) state bytes
        (Told J.kind W.sees watch.old watch.new) result) }
{
    let mut place = first;
    let mut reached = state;
    'walk: loop {
        let Some((block, next)) = read_block(alloc, disk, len, place)? else {
            return Ok(LogEnd::Agrees {
                state: reached,
                place,
            });
        };
        let Some(folded) = fold_block(alloc, &reached, &block, marks, watch)? else {
            return Err(HistoryFault::Frames { at: place.at });
        };
        match folded {
            Folded::Differs { number, what } => return Ok(LogEnd::Differs { number, what }),
            Folded::Agrees(led) => reached = led,
        }
        place = next;
    }
}
