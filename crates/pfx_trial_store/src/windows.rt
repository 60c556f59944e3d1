//! Scripts whose slots or records share frames: what they print, what survives if the disk fails, and stops after each call.

use crate::check::{check, check_at, check_pair};
use crate::engines::{Driven, begun, disk_of_engine, empty, in_memory, last_of, opened};
use crate::stops::{kept_by, survivors};
use pfx_disk::{Disk, Fate, FaultDisk, MemoryDisk};
use pfx_fault::{Cause, Fault};
use pfx_kinds::any::AnyJob;
use pfx_program::{AtRefusal, OutputForm, Run};
use pfx_program_script::Script;
use pfx_program_store::run_durable;
use pfx_store_engine::StoreEngine;
use std::alloc::Global;
use std::io::Write;

/// What a script prints over an engine with this window, which records share too, and how it ends.
fn run<D: Disk>(
    alloc: Global,
    script: &str,
    window: u32,
    engine: &mut StoreEngine<D, AnyJob>,
) -> (Vec<u8>, Result<(), Fault>) {
    let mut written = Vec::new(alloc);
    let end = run_durable(
        alloc,
        &mut Script::new(alloc, script.as_bytes()),
        Run {
            batch: window.max(1),
            group: window.min(16),
            at_refusal: AtRefusal::GoOn,
            form: OutputForm::Text,
        },
        &mut written,
        engine,
    );
    match end {
        Ok(_) => (written, Ok(())),
        Err(fault) => (written, Err(fault)),
    }
}

/// Records of slots that end within a window and at its border, with commands between them that are taken and refused.
const MIXED: &str = "slot,,,16,
submit,0,count,2,
slot,,,1,
submit,0,count,2,
slot,,,17,
withdraw,1,,,
submit,0,count,2,
slot,,,33,
settle,,,,
status,,,,
";

/// Whether the script prints these lines with this window, and leaves the store at the last number.
fn prints(alloc: Global, window: u32, wanted: &[u8], last: u64) -> bool {
    let Some(mut engine) = in_memory(alloc, 900) else {
        return false;
    };
    let (written, end) = run(alloc, MIXED, window, &mut engine);
    let is_printed = end.is_ok() && written.as_slice() == wanted;
    let kept = last_of(alloc, disk_of_engine(engine));
    is_printed && kept == Some(last)
}

/// What the script prints with windows of one slot.
fn one_at_a_time(alloc: Global) -> Option<Vec<u8>> {
    let mut engine = in_memory(alloc, 900)?;
    let (written, end) = run(alloc, MIXED, 1, &mut engine);
    end.ok()?;
    Some(written)
}

#[test]
fn each_window_prints_the_same_lines(rt: HostRuntime) {
    let alloc = rt.alloc();
    let Some(wanted) = one_at_a_time(alloc) else {
        return check(&rt, false, "one at a time");
    };
    check(&rt, wanted.ends_with(b"job=none\nclosed 69\n"), "the end");
    for window in 1..20 {
        let holds = prints(alloc, window, wanted.as_slice(), 69);
        check_at(&rt, holds, "window", window as usize);
    }
}

/// How many calls of the disk 32 slots take.
fn calls_of(alloc: Global, window: u32) -> Option<u64> {
    let mut engine = in_memory(alloc, 300)?;
    let before = engine.keeper.disk().clock();
    let (_written, end) = run(alloc, "slot,,,32,\n", window, &mut engine);
    end.ok()?;
    engine.keeper.disk().clock().checked_sub(before)
}

#[test]
fn a_frame_takes_four_calls(rt: HostRuntime) {
    let rows = [(1, 128), (2, 64), (15, 12), (16, 8), (17, 8), (1000, 8)];
    for (window, calls) in rows {
        let holds = calls_of(rt.alloc(), window) == Some(calls);
        check_at(&rt, holds, "window", window as usize);
    }
}

/// The texts before three tasks' first units.
const TEXTS: &str = "submit,0,own,0,a
submit,1,own,0,b
submit,2,own,0,c
";

/// A record that is of the same task as the one before it: it has a frame of its own.
const SAME: &str = "submit,0,own,0,a
withdraw,0,,,
submit,1,own,0,b
";

/// How many calls of the disk a script takes of which up to so many records share a frame.
fn calls_of_group(alloc: Global, script: &str, group: u32) -> Option<u64> {
    let mut engine = in_memory(alloc, 300)?;
    let before = engine.keeper.disk().clock();
    let (_written, end) = run(alloc, script, group, &mut engine);
    end.ok()?;
    engine.keeper.disk().clock().checked_sub(before)
}

#[test]
fn records_that_stand_ready_share_frames(rt: HostRuntime) {
    let rows = [(0, 12), (1, 12), (2, 8), (3, 4), (16, 4)];
    for (group, calls) in rows {
        let holds = calls_of_group(rt.alloc(), TEXTS, group) == Some(calls);
        check_at(&rt, holds, "group", group as usize);
    }
    let is_apart = calls_of_group(rt.alloc(), SAME, 16) == Some(12);
    check(&rt, is_apart, "the same task");
}

/// Forty slots.
const FORTY: &str = "slot,,,40,\n";

/// The rows of three tasks of weight 2/3 on two workers, which come round every three slots.
static ROWS: [&str; 3] = ["0 1", "0 2", "1 2"];

/// The lines of so many slots.
fn lines(alloc: Global, slots: u64) -> Option<Vec<u8>> {
    let mut text = Vec::new(alloc);
    for slot in 0..slots {
        let row = ROWS[(slot % 3) as usize];
        write!(text, "{} ran {slot}: {row}\n", slot.saturating_add(1)).ok()?;
    }
    Some(text)
}

/// How many calls it takes to make a store's file of 19,395 bytes, and to append a batch if there is room.
const MADE: u64 = 11;

const APPENDED: u64 = 4;

/// The engine on a disk whose call k after the making fails, with its work done or not.
fn faulty(alloc: Global, k: u64, works: bool) -> Option<Driven<FaultDisk<MemoryDisk>>> {
    let call = MADE.saturating_add(k);
    let memory = empty(alloc, 300)?;
    let disk = match works {
        true => FaultDisk::with_work_done(memory, call),
        false => FaultDisk::new(memory, call),
    };
    begun(alloc, disk)
}

/// Whether a run with this window ends where call k fails: the lines of the whole windows before it are printed, and a
/// beginning of the slots with each of these survives, whose next ones are those of one window at the most.
fn is_ended(alloc: Global, window: u32, k: u64, works: bool) -> Option<bool> {
    let marked = (k / APPENDED).saturating_mul(u64::from(window));
    let wanted = lines(alloc, marked)?;
    let mut engine = faulty(alloc, k, works)?;
    let (written, end) = run(alloc, FORTY, window, &mut engine);
    let cause = Cause::Device;
    let is_told = end == Err(Fault::StoreFailed { marked, cause });
    let is_printed = written.as_slice() == wanted.as_slice();
    let disk = disk_of_engine(engine).into_inner();
    let again = opened(alloc, disk)?;
    let kept = again.last_kept().ok()?;
    let next = marked.saturating_add(u64::from(window)).min(40);
    Some(
        is_told
            && is_printed
            && (kept == marked || kept == next)
            && again.state.columns().slot() == kept,
    )
}

#[test]
fn a_disk_that_fails_within_a_window_keeps_what_was_printed(rt: HostRuntime) {
    // Forty slots are three windows of sixteen, of four calls each, and twenty of two.
    let rows = [(16, 12), (2, 80), (1, 24)];
    for (window, calls) in rows {
        for k in 0..calls {
            for works in [false, true] {
                let holds = is_ended(rt.alloc(), window, k, works) == Some(true);
                check_pair(&rt, holds, "window, and call", window as usize, k as usize);
            }
        }
    }
}

#[test]
fn a_frame_survives_whole_or_not_at_all(rt: HostRuntime) {
    let alloc = rt.alloc();
    let Some(mut engine) = in_memory(alloc, 300) else {
        return check(&rt, false, "an engine");
    };
    let made = engine.keeper.disk().clock();
    let (_written, end) = run(alloc, "slot,,,48,\n", 16, &mut engine);
    check(&rt, end.is_ok(), "48 slots");
    let disk = disk_of_engine(engine);
    let fates = [
        Fate::Kept,
        Fate::Dropped,
        Fate::Filled(0xc3),
        Fate::Filled(0),
    ];
    for calls in 0..13 {
        for (number, fate) in fates.iter().enumerate() {
            let kept = survivors(alloc, &disk, made, calls, *fate);
            let holds = kept == Some(kept_by(calls, *fate).saturating_mul(16));
            check_pair(&rt, holds, "calls, and fate", calls as usize, number);
        }
    }
}

/// Whether so many slots, which fill segments of 8,192 bytes, are all there when the store is opened again.
fn turns(alloc: Global, window: u32, slots: u64) -> Option<bool> {
    let mut engine = in_memory(alloc, 4000)?;
    let script = format!(in alloc; "slot,,,{slots},\n").ok()?;
    let (_written, end) = run(alloc, script.as_str(), window, &mut engine);
    end.ok()?;
    let kept = last_of(alloc, disk_of_engine(engine));
    Some(kept == Some(slots))
}

#[test]
fn segments_are_turned(rt: HostRuntime) {
    // A frame of one slot has 22 bytes, of two 29, of sixteen 127.
    let rows = [(1, 800), (2, 1200), (16, 2400)];
    for (window, slots) in rows {
        let holds = turns(rt.alloc(), window, slots) == Some(true);
        check_at(&rt, holds, "window", window as usize);
    }
}
