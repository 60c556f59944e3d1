// The records that a store's file has behind a log's end.
ghost use Rattle.std.specs.Prelude.{◌≡◌, ◌≤◌, ◌<◌, ◌^◌, ◌+◌, length, map, IfOk, IsFalse, IsTrue, None, Some};
ghost use Rattle.pfx_machine.specs.Plain.{Plain};
ghost use Rattle.pfx_record.specs.Records.{plain};
ghost use Rattle.pfx_record_redo.specs.Applying.{applied};
ghost use Rattle.pfx_replay.specs.Stated.{plain_of};
ghost use Rattle.pfx_replay_audit.specs.Behind.{BehindAnswer, JudgedBehind};
ghost use Rattle.pfx_replay_audit.specs.Watches.{Told};

use crate::file_fault::FileFault;
use crate::marks::judge_from;
use crate::watch::Watch;
use pfx_jobs::job::Job;
use pfx_kinds::units::Units;
use pfx_machine::State;
use pfx_record::Record;
use pfx_replay::{Judged, PlainState, Verdict, apply_all};
use std::alloc::{AllocError, Global};

// Whether records are right behind a state.
fn are_right<J: Job>(
    alloc: Global,
    from: &State<J>,
    records: &[Record<J>],
) -> Result<bool, AllocError>
    ensures taken { IfOk result (λ right. IsTrue right
        → (t : Plain J) × (applied J.kind from.now (map plain records.now) ≡ Some t)) }
    ensures wrong { IfOk result (λ right. IsFalse right → applied J.kind from.now (map plain records.now) ≡ None) }
{
    let mut led = from.copy_of(alloc)?;
    let right = apply_all(alloc, &mut led, records)?;
    Ok(right)
}

// Records behind a state, which they may not be right behind.
fn judge_behind<J: Job + Units, W: Watch<J>>(
    alloc: Global,
    from: &State<J>,
    records: &[Record<J>],
    marks: &[PlainState<J>],
    watch: &mut W,
) -> Result<Verdict, FileFault>
    ensures { JudgedBehind J.kind J.unit (map plain_of marks.now) (Told J.kind W.sees watch.old watch.new)
        from.now (map plain records.now) result }
{
    if !are_right(alloc, from, records)? {
        return Err(FileFault::Apart);
    }
    match judge_from(alloc, from, records, marks)? {
        Judged::Agrees(last) => {
            let number = last.number;
            watch.see(alloc, from, records)?;
            Ok(Verdict::Agrees { number })
        }
        Judged::Differs { number, what } => Ok(Verdict::Differs { number, what }),
    }
}

/// Folds the records that a store's file has behind a log's end: those behind the log's last number, of all that it has behind the command
/// `begin`, and the marks. If all agrees, `watch` was told of them.
///
/// The answer is that all agrees, up to the last number, or the first number that differs and what differs there. `Gap` says that the
/// file begins behind the log's end, or ends before it; `Apart` that its records aren't right there. `NoMemory` comes only if an
/// allocation failed.
pub fn fold_behind<J: Job + Units, W: Watch<J>>(
    alloc: Global,
    from: &State<J>,
    begin: u64,
    records: &[Record<J>],
    marks: &[PlainState<J>],
    watch: &mut W,
) -> Result<Verdict, FileFault>
    ensures { BehindAnswer J.kind J.unit (map plain_of marks.now) (Told J.kind W.sees watch.old watch.new)
        from.now begin (map plain records.now) result }
{
    let last = from.number();
    if last < begin {
        return Err(FileFault::Gap {
            log: last,
            file: begin,
        });
    }
    let passed = last - begin;
    if passed > records.len() as u64 {
        return Err(FileFault::Gap {
            log: last,
            file: begin + records.len() as u64,
        });
    }
    judge_behind(alloc, from, &records[passed as usize..], marks, watch)
}
