ghost use Rattle.std.specs.Prelude.{◌≡◌};

use crate::board::line::{Held, Line, Listed, begin, keep_count, keep_row, thirds};
use pfx_disk_chronicle::list;
use pfx_front_board::name::Begun;
use pfx_front_board::reader::{Reader, StatusFault};
use pfx_front_board::receipt::Receipt;
use pfx_front_board::word::Word;
use pfx_kinds::any::AnyJob;
use pfx_machine::{Board, JobStatus};
use pfx_record::Batch;
use pfx_token::past::UnnamedList;
use std::alloc::Global;
use std::marker::Brand;
use std::sync::Wait;

/// A task's allocations, its lag's numerator over 3, and its job.
type Task = (u64, i32, JobStatus);

/// Whether a board has this number and slot, and these tasks.
fn is_board(board: &Board, number: u64, slot: u64, tasks: &[Task]) -> bool {
    if board.number != number || board.slot != slot || board.lines.len() != tasks.len() {
        return false;
    }
    for (line, task) in board.lines.iter().zip(tasks) {
        if line.alloc != task.0 || line.lag != task.1 || line.period != 3 || line.job != task.2 {
            return false;
        }
    }
    true
}

/// Whether all readers see this board.
fn all_see<B: Begun<AnyJob>>(
    alloc: Global,
    readers: &mut Vec<Reader<AnyJob, B>>,
    number: u64,
    slot: u64,
    tasks: &[Task],
) -> bool {
    for reader in readers.iter_mut() {
        match reader.status(alloc) {
            Ok(board) => {
                if !is_board(&board, number, slot, tasks) {
                    return false;
                }
            }
            Err(_) => return false,
        }
    }
    true
}

/// Whether the board is shut for all readers.
fn all_shut<B: Begun<AnyJob>>(alloc: Global, readers: &mut Vec<Reader<AnyJob, B>>) -> bool {
    for reader in readers.iter_mut() {
        match reader.status(alloc) {
            Err(StatusFault::BoardShut) => {}
            _ => return false,
        }
    }
    true
}

/// How many readers look at just this word's board.
fn lookers<B: Begun<AnyJob>>(readers: &mut Vec<Reader<AnyJob, B>>, last: &Word<AnyJob, B>) -> u32 {
    let mut lookers: u32 = 0;
    for reader in readers.iter_mut() {
        if reader.looks(last) {
            lookers = lookers.wrapping_add(1);
        }
    }
    lookers
}

/// Tells each reader of a receipt for all that is shown.
fn tell_all<B: Begun<AnyJob>>(readers: &mut Vec<Reader<AnyJob, B>>, last: &Word<AnyJob, B>) {
    for reader in readers.iter_mut() {
        reader.told(&Receipt::new(last.number(), 9, last.again()));
    }
}

/// Whether the later word has all of the earlier one, and more.
fn grows<B: Begun<AnyJob>>(earlier: &Word<AnyJob, B>, later: &Word<AnyJob, B>) -> bool {
    earlier.begins(later) && !later.begins(earlier) && earlier.number() < later.number()
}

/// Readers look before and after three publications, and once they are told of the last.
fn show<B: Listed<AnyJob>, R: Wait + Drop>(
    rt: &R,
    alloc: Global,
    line: &mut Line<AnyJob, B, R>,
    readers: &mut Vec<Reader<AnyJob, B>>,
) -> bool {
    let none = JobStatus::None;
    let begun = all_see(
        alloc,
        readers,
        0,
        0,
        &[(0, 0, none), (0, 0, none), (0, 0, none)],
    );
    let before = line.publisher.published().again();
    let kept = keep_row(rt, alloc, line, 0, 1)
        && keep_row(rt, alloc, line, 0, 2)
        && keep_count(rt, alloc, line, 1);
    let tasks = [(2, -2, none), (1, 1, JobStatus::Open), (1, 1, none)];
    let seen = all_see(alloc, readers, 3, 2, &tasks);
    let last = line.publisher.published();
    tell_all(readers, last);
    let told = all_see(alloc, readers, 3, 2, &tasks);
    let looked = lookers(readers, last) == 2 && lookers(readers, &before) == 0;
    begun && kept && seen && told && looked && grows(&before, last)
}

/// Once the writer is gone, no reader sees or looks at anything.
fn leave<B: Listed<AnyJob>, R: Wait + Drop>(
    alloc: Global,
    line: Box<Line<AnyJob, B, R>>,
    readers: &mut Vec<Reader<AnyJob, B>>,
) -> bool {
    let last = line.publisher.published().again();
    drop(line);
    all_shut(alloc, readers) && lookers(readers, &last) == 0
}

/// Two readers of a board that is published three times.
fn serve<B: Listed<AnyJob>, R: Wait + Copy + Drop>(
    rt: R,
    alloc: Global,
    opened: UnnamedList<Batch<AnyJob>>,
    calls: list::UnnamedCalls,
    state: Held,
) -> bool
    requires book { opened.seen.book ≡ B.book }
    requires origin { state.value ≡ B.origin }
    requires calls { (calls.seen.book ≡ B.calls) × (B.clock ≡ 0) }
    requires no_disk { B.held → ⊥ }
{
    let Some((mut line, mut readers)) = begin::<B, R>(rt, alloc, opened, calls, state, 2) else {
        return false;
    };
    show(&rt, alloc, &mut line, &mut readers) && leave(alloc, line, &mut readers)
}

/// Whether readers see what they should.
fn readers_see<R: Wait + Copy + Drop>(rt: R, alloc: Global) -> bool {
    match thirds(alloc) {
        Some(state) => serve::<Brand, R>(
            rt,
            alloc,
            UnnamedList::new(),
            list::UnnamedCalls::new(),
            state,
        ),
        None => false,
    }
}

#[test]
fn readers_see_what_was_published(rt: HostRuntime) {
    assert!(rt; readers_see(&rt, rt.alloc()));
}
