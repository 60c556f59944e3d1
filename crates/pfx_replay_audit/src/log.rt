// A log, from its header on.
ghost use Rattle.std.specs.Prelude.{◌≡◌, ◌≤◌, ◌↔◌, List, ℕ, map, IfOk, IsTrue};
ghost use Rattle.pfx_log.specs.Holding.{Begins};
ghost use Rattle.pfx_log.specs.Logs.{new_log};
ghost use Rattle.pfx_log.specs.Reading.{HasLen};
ghost use Rattle.pfx_replay.specs.Stated.{plain_of};
ghost use Rattle.pfx_replay_audit.specs.Logs.{FirstAnswer, HeaderAnswer, NextAnswer};
ghost use Rattle.pfx_replay_audit.specs.Marks.{Meets};
ghost use Rattle.pfx_replay_audit.specs.Reads.{BlocksAnswer, Reads};
ghost use Rattle.pfx_replay_audit.specs.Watches.{Told};

use crate::blocks::fold_blocks;
use crate::ends::LogEnd;
use crate::faults::HistoryFault;
use crate::marks::meets;
use crate::starts::read_start;
use crate::watch::Watch;
use pfx_disk::Disk;
use pfx_jobs::job::Job;
use pfx_kinds::units::Units;
use pfx_log::{LogHeader, LogPlace, read_header};
use pfx_machine::State;
use pfx_replay::{Difference, PlainState, are_states};
use std::alloc::{AllocError, Global};

// The header of a log, the place behind it, and how many bytes the disk has.
fn read_front<L: Disk>(
    alloc: Global,
    disk: &mut L,
) -> Result<(LogHeader, LogPlace, usize), HistoryFault>
    ensures long { IfOk result (λ x. HasLen x.2 (L.view disk.new)) }
    ensures inside { IfOk result (λ x. x.1.at ≤ x.2) }
    ensures read { Reads (L.view disk.old) (L.view disk.new) result (HeaderAnswer result) }
{
    let len = disk.len()?;
    let (header, place) = read_header(alloc, disk, len)?;
    Ok((header, place, len))
}

// Whether two states are the same. An error comes only if an allocation failed.
fn are_same<J: Job>(alloc: Global, one: &State<J>, other: &State<J>) -> Result<bool, AllocError>
    ensures { IfOk result (λ same. IsTrue same ↔ (one.now ≡ other.now)) }
{
    let first = PlainState::of(alloc, one)?;
    let second = PlainState::of(alloc, other)?;
    Ok(are_states(&first, &second))
}

// Whether the marks are met at a state. An error comes only if an allocation failed.
fn meets_at<J: Job>(
    alloc: Global,
    state: &State<J>,
    marks: &[PlainState<J>],
) -> Result<bool, AllocError>
    ensures { IfOk result (λ met. IsTrue met ↔ Meets (map plain_of marks.now) state.now) }
{
    let plain = PlainState::of(alloc, state)?;
    Ok(meets(&plain, marks))
}

// The blocks of a log that stand behind a place, the log's first, and a state.
fn fold_from<J: Job + Units, L: Disk, W: Watch<J>>(
    alloc: Global,
    disk: &mut L,
    len: usize,
    first: LogPlace,
    state: State<J>,
    marks: &[PlainState<J>],
    watch: &mut W,
) -> Result<LogEnd<State<J>>, HistoryFault>
    requires len { HasLen len (L.view disk.old) }
    requires inside { first.at ≤ len }
    ensures { Reads (L.view disk.old) (L.view disk.new) result (λ bytes. (version : ℕ) → (spelled before : List ℕ)
        → Begins (new_log version spelled before) first bytes
        → BlocksAnswer J.kind J.unit (map plain_of marks.now) (new_log version spelled before) state bytes
        (Told J.kind W.sees watch.old watch.new) result) }
{
    let number = state.number();
    if !meets_at(alloc, &state, marks)? {
        return Ok(LogEnd::Differs {
            number,
            what: Difference::Checkpoint,
        });
    }
    fold_blocks(alloc, disk, len, first, state, marks, watch)
}

// Whether a log that names this head and begins at a state goes on from the other head and state.
fn is_next<J: Job>(before: &[u8], head: &[u8], start: &State<J>, from: &State<J>) -> bool
    ensures { IsTrue result ↔ ((before.now ≡ head.now) × (start.now.number ≡ from.now.number)) }
{
    before == head && start.number() == from.number()
}

/// Folds a log from the state on that it begins at: the records of its blocks against what their commands do, and the marks, which are
/// states that are recorded elsewhere, each where its number comes. If all agrees, `watch` was told of all records, block by block.
///
/// The answer is the state at the log's end with its last head, or the first number that differs and what differs there. A fault says why
/// the log isn't read: `Log` with the log's own fault, `Start`, or `Frames`. One block is in memory at a time, and nothing is written.
pub fn fold_first<J: Job + Units, L: Disk, W: Watch<J>>(
    alloc: Global,
    disk: &mut L,
    marks: &[PlainState<J>],
    watch: &mut W,
) -> Result<LogEnd<State<J>>, HistoryFault>
    ensures { Reads (L.view disk.old) (L.view disk.new) result (λ bytes.
        FirstAnswer J.kind J.unit (map plain_of marks.now) (Told J.kind W.sees watch.old watch.new) bytes result) }
{
    let (header, place, len) = read_front(alloc, disk)?;
    let Some(start) = read_start::<J>(alloc, header.version, &header.state)? else {
        return Err(HistoryFault::Start);
    };
    fold_from(alloc, disk, len, place, start, marks, watch)
}

/// Folds a log that goes on from another one, which ended at a state and with a head: as `fold_first`, and `NotNext` if it doesn't name
/// that head or begins at another number. If it begins at another state, `Checkpoint` differs at that number.
pub fn fold_next<J: Job + Units, L: Disk, W: Watch<J>>(
    alloc: Global,
    disk: &mut L,
    from: &State<J>,
    head: [u8; 32],
    marks: &[PlainState<J>],
    watch: &mut W,
) -> Result<LogEnd<State<J>>, HistoryFault>
    ensures { Reads (L.view disk.old) (L.view disk.new) result (λ bytes.
        NextAnswer J.kind J.unit (map plain_of marks.now) (Told J.kind W.sees watch.old watch.new) from.now head bytes result) }
{
    let (header, place, len) = read_front(alloc, disk)?;
    let Some(start) = read_start::<J>(alloc, header.version, &header.state)? else {
        return Err(HistoryFault::Start);
    };
    if !is_next(&header.before[..], &head[..], &start, from) {
        return Err(HistoryFault::NotNext);
    }
    let number = from.number();
    if !are_same(alloc, &start, from)? {
        return Ok(LogEnd::Differs {
            number,
            what: Difference::Checkpoint,
        });
    }
    fold_from(alloc, disk, len, place, start, marks, watch)
}
