ghost use Rattle.std.specs.Prelude.{◌≡◌};

use crate::board::line::{Held, Line, Listed, begin, keep_row, thirds};
use pfx_disk_chronicle::list;
use pfx_front_board::name::Begun;
use pfx_front_board::reader::Reader;
use pfx_front_board::receipt::Receipt;
use pfx_front_board::word::Word;
use pfx_kinds::any::AnyJob;
use pfx_machine::Board;
use pfx_record::Batch;
use pfx_token::past::UnnamedList;
use std::alloc::Global;
use std::marker::Brand;
use std::sync::{Mutex, Wait};
use std::thread;
use std::thread::Threads;

/// How many hyperperiods of three slots are published.
const ROUNDS: u64 = 40;

/// How often a reader looks at the most.
const LOOKS: u32 = 10_000_000;

/// Where the last word is left for the reader.
type Words<B> = Mutex<Option<Word<AnyJob, B>>>;

/// Publishes a slot, and leaves its word. Whether it did.
fn write_one<B: Listed<AnyJob>, R: Wait + Drop>(
    rt: &R,
    alloc: Global,
    line: &mut Line<AnyJob, B, R>,
    words: &Words<B>,
    row: (u16, u16),
) -> bool {
    let kept = keep_row(rt, alloc, line, row.0, row.1);
    *words.lock(rt) = Some(line.publisher.published().again());
    kept
}

/// Publishes slots one by one. The line, if it did.
fn write<B: Listed<AnyJob>, R: Wait + Copy + Drop>(
    rt: R,
    alloc: Global,
    line: Box<Line<AnyJob, B, R>>,
    words: &Words<B>,
) -> Option<Box<Line<AnyJob, B, R>>> {
    let mut line = line;
    let mut written = true;
    for _round in 0..ROUNDS {
        for row in [(0, 1), (0, 2), (1, 2)] {
            written = write_one(&rt, alloc, &mut line, words, row) && written;
        }
    }
    if written { Some(line) } else { None }
}

/// Whether a board of slots alone is that of one moment: each slot has a number, and gave two allocations.
fn is_whole(board: &Board) -> bool {
    let mut given: u64 = 0;
    for line in &board.lines {
        given = given.wrapping_add(line.alloc);
    }
    board.number == board.slot && given == board.slot.wrapping_add(board.slot)
}

/// Tells the reader of the word that was left, if one was. What it has to see then at least.
fn hear<B: Begun<AnyJob>, R: Wait>(
    rt: &R,
    reader: &mut Reader<AnyJob, B>,
    words: &Words<B>,
    least: u64,
) -> u64 {
    match words.lock(rt).take() {
        None => least,
        Some(word) => {
            let number = word.number();
            reader.told(&Receipt::new(number, 0, word));
            number
        }
    }
}

/// Looks once. The number that is seen; `None` if the board is shut, torn, or behind what the reader has to see.
fn look<B: Begun<AnyJob>>(
    alloc: Global,
    reader: &mut Reader<AnyJob, B>,
    least: u64,
) -> Option<u64> {
    match reader.status(alloc) {
        Ok(board) => {
            if board.number < least || !is_whole(&board) {
                return None;
            }
            Some(board.number)
        }
        Err(_) => None,
    }
}

/// Looks until all is seen. The reader, if each look saw what it had to.
fn read<B: Begun<AnyJob>, R: Wait + Drop>(
    rt: R,
    alloc: Global,
    reader: Box<Reader<AnyJob, B>>,
    words: &Words<B>,
) -> Option<Box<Reader<AnyJob, B>>> {
    let mut reader = reader;
    let mut seen = 0;
    for _look in 0..LOOKS {
        let least = hear(&rt, &mut reader, words, seen);
        seen = look(alloc, &mut reader, least)?;
        if seen == 3 * ROUNDS {
            return Some(reader);
        }
        thread::yield_now();
    }
    None
}

/// Whether all was written and seen, and the reader looks at what was published last.
fn have_met<B: Listed<AnyJob>, R: Wait + Drop>(
    line: Option<Box<Line<AnyJob, B, R>>>,
    reader: Option<Box<Reader<AnyJob, B>>>,
) -> bool {
    match (line, reader) {
        (Some(line), Some(mut reader)) => reader.looks(line.publisher.published()),
        _ => false,
    }
}

/// One thread publishes and another reads.
fn compete<B: Listed<AnyJob> + Send + Sync, R: Threads + Wait + Copy + Drop + Send + Sync>(
    rt: R,
    alloc: Global,
    line: Box<Line<AnyJob, B, R>>,
    reader: Box<Reader<AnyJob, B>>,
) -> bool {
    let words: Words<B> = Mutex::new(None);
    let shared = &words;
    let (line, reader) = thread::join(
        &rt,
        move || write(rt, alloc, line, shared),
        move || read(rt, alloc, reader, shared),
    );
    have_met(line, reader)
}

/// The only one of these readers, behind a pointer.
fn only<B: Begun<AnyJob>>(
    alloc: Global,
    readers: Vec<Reader<AnyJob, B>>,
) -> Option<Box<Reader<AnyJob, B>>> {
    let mut readers = readers;
    Box::new(alloc, readers.pop()?).ok()
}

/// One thread publishes and another reads, from the beginning on.
fn race<B: Listed<AnyJob> + Send + Sync, R: Threads + Wait + Copy + Drop + Send + Sync>(
    rt: R,
    alloc: Global,
    opened: UnnamedList<Batch<AnyJob>>,
    calls: list::UnnamedCalls,
    state: Held,
) -> bool
    requires book { opened.seen.book ≡ B.book }
    requires origin { state.value ≡ B.origin }
    requires calls { (calls.seen.book ≡ B.calls) × (B.clock ≡ 0) }
    requires no_disk { B.held → ⊥ }
{
    let Some((line, readers)) = begin::<B, R>(rt, alloc, opened, calls, state, 1) else {
        return false;
    };
    match only(alloc, readers) {
        Some(reader) => compete(rt, alloc, line, reader),
        None => false,
    }
}

/// Whether a reader sees all that it is told of, beside a thread that publishes.
fn told_reader_sees<R: Threads + Wait + Copy + Drop + Send + Sync>(rt: R, alloc: Global) -> bool {
    match thirds(alloc) {
        Some(state) => race::<Brand, R>(
            rt,
            alloc,
            UnnamedList::new(),
            list::UnnamedCalls::new(),
            state,
        ),
        None => false,
    }
}

#[test]
fn a_reader_sees_what_it_was_told_of(rt: HostRuntime) {
    assert!(rt; told_reader_sees(&rt, rt.alloc()));
}
