// What a store's file records, and the verdict on it.
ghost use Rattle.std.specs.Prelude.{◌≡◌, ◌≤◌, ◌+◌, ◌++◌, [], ℕ, List, length, map, not, true, false, Option, Some, None, IfOk, IsTrue, IsFalse, MatchOption};
ghost use Rattle.pfx_record_redo.specs.Applying.{applied};
ghost use Rattle.pfx_store_format.specs.Format.{format, layout};
ghost use Rattle.pfx_machine.specs.Plain.{Plain};
ghost use Rattle.pfx_record.specs.Records.{Recorded, plain};
ghost use Rattle.pfx_store_image.specs.Layout.{segment_at, file_len};
ghost use Rattle.pfx_store_image.specs.Store.{Parts, IsStore};
ghost use Rattle.pfx_segment.specs.Frames.{AreFrames};
ghost use Rattle.pfx_segment.specs.Reading.{views};
ghost use Rattle.pfx_replay.specs.Stated.{plain_of};
ghost use Rattle.pfx_replay.specs.Trails.{IsWayIf, history, records_behind};
ghost use Rattle.pfx_replay.specs.Verdicts.{History, IsVerdict};

use crate::history::judge_history;
use crate::image::{frames_in, state_in};
use crate::jobs::PlainState;
use crate::records::records_behind;
use crate::verdict::Verdict;
use crate::way::find_way;
use pfx_jobs::job::Job;
use pfx_kinds::units::Units;
use pfx_machine::State;
use pfx_record::Record;
use pfx_record_redo::apply_reweigh;
use pfx_store::{FileFormat, FileHeader};
use pfx_store_recover::Format;
use std::alloc::{AllocError, Global};

// Adds the frames of a segment, or answers `false` if one doesn't fit.
fn add_segment<J: Job>(
    alloc: Global,
    all: &mut Vec<Vec<u8>>,
    header: &FileHeader,
    image: &[u8],
    second: bool,
) -> Result<bool, AllocError>
    requires { length image.now ≡ file_len (layout header.now) }
    ensures { IfOk result (λ added. (frames : List (List ℕ))
        → AreFrames (segment_at (layout header.now) second + 9) (segment_at (layout header.now) second + (layout header.now).segment) frames image.now
        → (added ≡ true) × (views all.new.items ≡ views all.old.items ++ frames)) }
{
    let sizes = FileFormat::<J>::sizes(header);
    let place = sizes.segment_at(second);
    match frames_in(alloc, image, place + 9, place + sizes.segment)? {
        None => Ok(false),
        Some(frames) => {
            let mut frames = frames;
            all.append(&mut frames)?;
            Ok(true)
        }
    }
}

/// The frames of the segment that frames go to, and before them those of the other, if it was read first. `None` comes if a frame
/// doesn't fit.
pub fn file_frames<J: Job>(
    alloc: Global,
    header: &FileHeader,
    image: &[u8],
    segment: bool,
    turned: bool,
) -> Result<Option<Vec<Vec<u8>>>, AllocError>
    requires { length image.now ≡ file_len (layout header.now) }
    ensures { IfOk result (λ found. (before frames : List (List ℕ))
        → (turned ≡ false → before ≡ [])
        → (turned ≡ true → AreFrames (segment_at (layout header.now) (not segment) + 9)
        (segment_at (layout header.now) (not segment) + (layout header.now).segment) before image.now)
        → AreFrames (segment_at (layout header.now) segment + 9) (segment_at (layout header.now) segment + (layout header.now).segment) frames image.now
        → MatchOption found ⊥ (λ all. views all.items ≡ before ++ frames)) }
{
    let mut all = Vec::new(alloc);
    if turned {
        if !add_segment::<J>(alloc, &mut all, header, image, !segment)? {
            return Ok(None);
        }
    }
    if !add_segment::<J>(alloc, &mut all, header, image, segment)? {
        return Ok(None);
    }
    Ok(Some(all))
}

/// Takes over records, each of which is right after those before it. If one isn't, the answer is `false`.
pub fn apply_all<J: Job>(
    alloc: Global,
    state: &mut State<J>,
    records: &[Record<J>],
) -> Result<bool, AllocError>
    ensures taken { IfOk result (λ right. IsTrue right → applied J.kind state.old (map plain records.now) ≡ Some state.new) }
    ensures wrong { IfOk result (λ right. IsFalse right → applied J.kind state.old (map plain records.now) ≡ None) }
{
    for entry in records {
        if !apply_reweigh(alloc, state, entry)? {
            return Ok(false);
        }
    }
    Ok(true)
}

// The numbers of a state that records are right behind, or `None` if they aren't. The state is no longer of use.
fn numbers_before<J: Job>(
    alloc: Global,
    state: &mut State<J>,
    records: &[Record<J>],
) -> Result<Option<PlainState<J>>, AllocError>
    ensures { IfOk result (λ found. MatchOption found
        ((t : Plain J) → applied J.kind state.old (map plain records.now) ≡ Some t → ⊥)
        (λ s. (plain_of s ≡ state.old) × ((t : Plain J) × (applied J.kind (plain_of s) (map plain records.now) ≡ Some t)))) }
{
    let numbers = PlainState::of(alloc, state)?;
    if apply_all(alloc, state, records)? {
        Ok(Some(numbers))
    } else {
        Ok(None)
    }
}

// The verdict on records that lead from a start to a checkpoint, and on from there, or `None` if some aren't right. Both states are no
// longer of use.
fn judge_trail<J: Job + Units>(
    alloc: Global,
    start: &mut State<J>,
    before: &[Record<J>],
    base: &mut State<J>,
    behind: &[Record<J>],
) -> Result<Option<Verdict>, AllocError>
    ensures { IfOk result (λ found. MatchOption found
        ((t u : Plain J) → applied J.kind start.old (map plain before.now) ≡ Some t → applied J.kind base.old (map plain behind.now) ≡ Some u → ⊥)
        (λ verdict. IsVerdict J.kind J.unit (record { start = start.old; before = map plain before.now; checkpoint = base.old; behind = map plain behind.now }) verdict)) }
{
    let Some(first) = numbers_before(alloc, start, before)? else {
        return Ok(None);
    };
    let Some(checkpoint) = numbers_before(alloc, base, behind)? else {
        return Ok(None);
    };
    let verdict = judge_history(alloc, first, before, checkpoint, behind)?;
    Ok(Some(verdict))
}

// The verdict on the records of a way to a checkpoint, if there is one, and on those behind it. `None` comes if some aren't right.
fn judge_way<J: Job + Units>(
    alloc: Global,
    way: Option<(State<J>, Vec<Vec<u8>>)>,
    base: &mut State<J>,
    behind: &[Record<J>],
) -> Result<Option<Verdict>, AllocError>
    ensures { let judged = λ (start : Plain J) (before : List (Recorded J)) (found : Option Verdict). MatchOption found
        ((t u : Plain J) → applied J.kind start before ≡ Some t → applied J.kind base.old (map plain behind.now) ≡ Some u → ⊥)
        (λ verdict. IsVerdict J.kind J.unit (record { start = start; before = before; checkpoint = base.old; behind = map plain behind.now }) verdict) in
        IfOk result (λ found. MatchOption way (judged base.old [] found) (λ w. judged w.0 (records_behind J.kind w.0 (views w.1.items)) found)) }
{
    match way {
        None => {
            let mut start = base.copy_of(alloc)?;
            let before = Vec::new(alloc);
            judge_trail(alloc, &mut start, &before, base, behind)
        }
        Some((start, frames)) => {
            let mut start = start;
            let before = records_behind(alloc, &start, &frames)?;
            judge_trail(alloc, &mut start, &before, base, behind)
        }
    }
}

// The records behind a checkpoint, of the frames of the segment that frames go to, and before them those of the other, if it was read
// first. `None` comes if a frame doesn't fit.
fn records_in<J: Job>(
    alloc: Global,
    header: &FileHeader,
    image: &[u8],
    base: &State<J>,
    segment: bool,
    turned: bool,
) -> Result<Option<Vec<Record<J>>>, AllocError>
    requires { length image.now ≡ file_len (layout header.now) }
    ensures { IfOk result (λ found. (before frames : List (List ℕ))
        → (turned ≡ false → before ≡ [])
        → (turned ≡ true → AreFrames (segment_at (layout header.now) (not segment) + 9)
        (segment_at (layout header.now) (not segment) + (layout header.now).segment) before image.now)
        → AreFrames (segment_at (layout header.now) segment + 9) (segment_at (layout header.now) segment + (layout header.now).segment) frames image.now
        → MatchOption found ⊥ (λ records. map plain records.items ≡ records_behind J.kind base.now (before ++ frames))) }
{
    let Some(all) = file_frames::<J>(alloc, header, image, segment, turned)? else {
        return Ok(None);
    };
    let records = records_behind(alloc, base, &all)?;
    Ok(Some(records))
}

// The verdict on a file with these parts, whose checkpoint in use holds this state, which is no longer of use.
fn judge_from<J: Job + Units>(
    alloc: Global,
    header: &FileHeader,
    image: &[u8],
    base: &mut State<J>,
    area: bool,
    segment: bool,
    turned: bool,
) -> Result<Option<Verdict>, AllocError>
    requires { length image.now ≡ file_len (layout header.now) }
    ensures { IfOk result (λ found. (p : Parts (Plain J)) → (t : Plain J) → IsStore (format J.kind) header.now p t image.now
        → base.old ≡ p.base → p.area ≡ area → p.segment ≡ segment → p.turned ≡ turned
        → MatchOption found ⊥ (λ verdict. (way : Option (Plain J × List (List ℕ)))
        × IsWayIf (format J.kind) header.now p image.now way × IsVerdict J.kind J.unit (history J.kind p way) verdict)) }
{
    let Some(behind) = records_in(alloc, header, image, base, segment, turned)? else {
        return Ok(None);
    };
    let way = find_way::<FileFormat<J>>(alloc, header, image, area, segment, base.number())?;
    judge_way(alloc, way, base, &behind)
}

/// The verdict on a file with these parts, or `None` if the bytes aren't those of a store's file.
pub(crate) fn judge_file<J: Job + Units>(
    alloc: Global,
    header: &FileHeader,
    image: &[u8],
    area: bool,
    segment: bool,
    turned: bool,
) -> Result<Option<Verdict>, AllocError>
    requires { length image.now ≡ file_len (layout header.now) }
    ensures { IfOk result (λ found. (p : Parts (Plain J)) → (t : Plain J) → IsStore (format J.kind) header.now p t image.now
        → p.area ≡ area → p.segment ≡ segment → p.turned ≡ turned
        → MatchOption found ⊥ (λ verdict. (way : Option (Plain J × List (List ℕ)))
        × IsWayIf (format J.kind) header.now p image.now way × IsVerdict J.kind J.unit (history J.kind p way) verdict)) }
{
    let sizes = FileFormat::<J>::sizes(header);
    let at = sizes.area_at(area);
    match state_in::<FileFormat<J>>(alloc, header, image, at, sizes.body)? {
        Some(base) => {
            let mut base = base;
            judge_from(alloc, header, image, &mut base, area, segment, turned)
        }
        None => Ok(None),
    }
}
