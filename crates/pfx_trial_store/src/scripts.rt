//! Scripts over stores: on disks in memory, in a file, and on disks that fail.

use crate::check::{check, check_pair};
use crate::engines::{Driven, begun, disk_of_engine, empty, in_memory, opened};
use pfx_disk::{Disk, FaultDisk, FileDisk, MemoryDisk};
use pfx_fault::{Cause, Fault};
use pfx_kinds::any::AnyJob;
use pfx_kit::places::END;
use pfx_kit::week::{FIRST_WEEK, SECOND_WEEK, WEEK};
use pfx_machine::{Command, Reply};
use pfx_program::{AtRefusal, OutputForm, Run, run_script};
use pfx_program_script::Script;
use pfx_store_engine::{Engine, EngineFault, StoreEngine, laws};
use std::alloc::Global;
use std::fs::{File, OpenOptions};
use std::path::PathBuf;
use std::{env, fs, process};

/// A run that keeps each slot and each record by itself.
const ONE_BY_ONE: Run = Run {
    batch: 1,
    group: 0,
    at_refusal: AtRefusal::GoOn,
    form: OutputForm::Text,
};

/// Whether a script prints this, and ends so.
fn prints<D: Disk>(
    alloc: Global,
    script: &str,
    engine: &mut StoreEngine<D, AnyJob>,
    wanted: &str,
    end: Option<Fault>,
) -> bool {
    let mut written = Vec::new(alloc);
    let answer = run_script(
        alloc,
        &mut Script::new(alloc, script.as_bytes()),
        ONE_BY_ONE,
        &mut written,
        engine,
    );
    answer.err() == end && written.as_slice() == wanted.as_bytes()
}

#[test]
fn a_second_run_goes_on(rt: HostRuntime) {
    let alloc = rt.alloc();
    let Some(mut engine) = in_memory(alloc, 200) else {
        return check(&rt, false, "an engine");
    };
    check(
        &rt,
        prints(alloc, WEEK, &mut engine, FIRST_WEEK, None),
        "first",
    );
    check(
        &rt,
        prints(alloc, WEEK, &mut engine, SECOND_WEEK, None),
        "second",
    );
    laws::frames_lead_to_outcomes::<AnyJob>();
}

#[test]
fn a_run_goes_on_after_the_store_is_opened_again(rt: HostRuntime) {
    let alloc = rt.alloc();
    let Some(mut engine) = in_memory(alloc, 300) else {
        return check(&rt, false, "an engine");
    };
    check(
        &rt,
        prints(alloc, WEEK, &mut engine, FIRST_WEEK, None),
        "first",
    );
    let Some(mut again) = opened(alloc, disk_of_engine(engine)) else {
        return check(&rt, false, "opened again");
    };
    check(
        &rt,
        prints(alloc, WEEK, &mut again, SECOND_WEEK, None),
        "second",
    );
}

const SHOW: &str = "submit,0,rule,3,110:00000001
slot,,,3,
show,,,,
show,1,,,
show,3,,,
";

const SHOWN: &str = "1 submitted 0
2 ran 0: 0 1
3 ran 1: 0 2
4 ran 2: 1 2
0 rule left=1 rule=110 cells=00000111
refused 33 NoJob task=1
refused 31 NoSuchTask task=3
closed 4
";

const SHOWN_AGAIN: &str = "0 rule left=1 rule=110 cells=00000111
closed 4
";

#[test]
fn jobs_are_shown_and_again_after_the_store_is_opened(rt: HostRuntime) {
    let alloc = rt.alloc();
    let Some(mut engine) = in_memory(alloc, 300) else {
        return check(&rt, false, "an engine");
    };
    check(&rt, prints(alloc, SHOW, &mut engine, SHOWN, None), "first");
    let Some(mut again) = opened(alloc, disk_of_engine(engine)) else {
        return check(&rt, false, "opened again");
    };
    check(
        &rt,
        prints(alloc, "show,0,,,\n", &mut again, SHOWN_AGAIN, None),
        "second",
    );
}

/// The file at this path, to be read and written.
fn file_at(rt: &HostRuntime, path: &PathBuf) -> Option<File> {
    OpenOptions::new()
        .read(true)
        .write(true)
        .open(rt, path)
        .ok()
}

/// Whether the first run over a new store in the file prints what is wanted.
fn first_runs(alloc: Global, file: File) -> bool {
    match begun(alloc, FileDisk::new(file)) {
        Some(mut engine) => prints(alloc, WEEK, &mut engine, FIRST_WEEK, None),
        None => false,
    }
}

/// Whether the second run over the store in the file does.
fn second_runs(alloc: Global, file: File) -> bool {
    match opened(alloc, FileDisk::new(file)) {
        Some(mut engine) => prints(alloc, WEEK, &mut engine, SECOND_WEEK, None),
        None => false,
    }
}

/// Whether both runs over the file at this path, made and removed here, print what is wanted, and it is a store's then.
fn file_runs(rt: &HostRuntime, alloc: Global, path: &PathBuf) -> Option<bool> {
    fs::write(rt, path, b"").ok()?;
    let are_run = first_runs(alloc, file_at(rt, path)?) && second_runs(alloc, file_at(rt, path)?);
    let bytes = fs::read(rt, path).ok()?;
    fs::remove_file(rt, path).ok()?;
    Some(are_run && bytes.len() == END && bytes.starts_with(b"\xc3PFXSTORE"))
}

fn temporary_file_runs(rt: &HostRuntime, alloc: Global) -> Option<bool> {
    let name = format!(in alloc; "pfx_engine_{}", process::id(rt.process())).ok()?;
    let path = env::temp_dir(rt).ok()?.join(alloc, name.as_str()).ok()?;
    file_runs(rt, alloc, &path)
}

#[test]
fn a_script_runs_over_a_file(rt: HostRuntime) {
    let holds = temporary_file_runs(&rt, rt.alloc()) == Some(true);
    check(&rt, holds, "a file in the folder of temporary ones");
}

/// Whether the disk's engine stands at this number and slot.
fn stands_at(alloc: Global, disk: MemoryDisk, number: u64) -> bool {
    match opened(alloc, disk) {
        Some(again) => { again.last_kept() == Ok(number) && again.state.columns().slot() == number }
        None => false,
    }
}

#[test]
fn segments_are_turned(rt: HostRuntime) {
    // A frame has 22 bytes, so a segment is full after 371 slots.
    let alloc = rt.alloc();
    let Some(mut engine) = in_memory(alloc, 9000) else {
        return check(&rt, false, "an engine");
    };
    let mut written = Vec::new(alloc);
    let end = run_script(
        alloc,
        &mut Script::new(alloc, b"slot,,,800,\n".as_slice()),
        ONE_BY_ONE,
        &mut written,
        &mut *engine,
    );
    check(&rt, end.is_ok(), "800 slots");
    let disk = disk_of_engine(engine);
    check(&rt, stands_at(alloc, disk, 800), "opened again");
}

/// Whether a slot's mark has the number 1 and the disk's clock, and its reply is of slot 0.
fn slot_is_marked(alloc: Global, mut engine: Driven<MemoryDisk>) -> bool {
    match engine.execute(alloc, Command::Slot) {
        Ok((mark, Reply::Ran { slot: 0, row: _ })) => {
            engine.last_kept() == Ok(1)
                && mark.number == 1
                && mark.clock == disk_of_engine(engine).clock()
        }
        _ => false,
    }
}

#[test]
fn a_mark_has_its_number_and_the_clock(rt: HostRuntime) {
    let Some(engine) = in_memory(rt.alloc(), 200) else {
        return check(&rt, false, "an engine");
    };
    check(&rt, engine.last_kept() == Ok(0), "a new store");
    check(&rt, slot_is_marked(rt.alloc(), engine), "a slot");
}

/// What is printed before the end, by how many commands were kept.
static KEPT: [&str; 4] = [
    "",
    "1 submitted 0\n",
    "1 submitted 0\n2 ran 0: 0 1\n",
    "1 submitted 0\n2 ran 0: 0 1\n3 ran 1: 0 2\n",
];

/// How many calls it takes to make a store's file of 19,395 bytes, and to append a batch if there is room.
const MADE: u64 = 11;

const APPENDED: u64 = 4;

/// The engine on a disk whose call k after the making fails, with its work done or not.
fn faulty(alloc: Global, k: u64, works: bool) -> Option<Driven<FaultDisk<MemoryDisk>>> {
    let call = MADE.saturating_add(k);
    let memory = empty(alloc, 200)?;
    let disk = match works {
        true => FaultDisk::with_work_done(memory, call),
        false => FaultDisk::new(memory, call),
    };
    begun(alloc, disk)
}

/// Whether the engine has failed so, whatever is asked.
fn stays_failed(
    alloc: Global,
    engine: &mut StoreEngine<FaultDisk<MemoryDisk>, AnyJob>,
    fault: Fault,
) -> bool {
    let is_settled = engine.settled(alloc) == Err(fault);
    let has_status = engine.status(alloc).err() == Some(fault);
    let has_state = engine.state(alloc).err() == Some(fault);
    match engine.ask(alloc, Command::Withdraw { task: 2 }) {
        Ok(_) => false,
        Err(why) => is_settled && has_status && has_state && why == EngineFault::Failed(fault),
    }
}

/// Whether what was answered survives, and at most the command that failed with it.
fn keeps(alloc: Global, engine: Driven<FaultDisk<MemoryDisk>>, marked: u64) -> bool {
    match opened(alloc, disk_of_engine(engine).into_inner()) {
        Some(again) => match again.last_kept() {
            Ok(kept) => marked <= kept && kept - marked <= 1,
            Err(_) => false,
        },
        None => false,
    }
}

/// Whether the run ends where the disk fails.
fn is_ended(alloc: Global, k: u64, works: bool) -> Option<bool> {
    let marked = k / APPENDED;
    let fault = Fault::StoreFailed {
        marked,
        cause: Cause::Device,
    };
    let wanted = KEPT.get(marked as usize)?;
    let mut engine = faulty(alloc, k, works)?;
    let is_printed = prints(alloc, WEEK, &mut engine, wanted, Some(fault));
    let is_failed = stays_failed(alloc, &mut engine, fault);
    Some(is_printed && is_failed && keeps(alloc, engine, marked))
}

#[test]
fn a_disk_that_fails_ends_the_run(rt: HostRuntime) {
    let alloc = rt.alloc();
    for k in 0..4 * APPENDED {
        for works in [false, true] {
            let holds = is_ended(alloc, k, works) == Some(true);
            check_pair(
                &rt,
                holds,
                "call, and its work",
                k as usize,
                usize::from(works),
            );
        }
    }
}

#[test]
fn no_call_of_the_run_is_left_out(rt: HostRuntime) {
    let alloc = rt.alloc();
    let Some(mut engine) = faulty(alloc, 4 * APPENDED, false) else {
        return check(&rt, false, "an engine");
    };
    check(
        &rt,
        prints(alloc, WEEK, &mut engine, FIRST_WEEK, None),
        "the run",
    );
    let end = Some(Fault::StoreFailed {
        marked: 4,
        cause: Cause::Device,
    });
    check(
        &rt,
        prints(alloc, "slot,,,,\n", &mut engine, "", end),
        "a slot",
    );
}
