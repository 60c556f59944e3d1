//! Turns and checkpoints of stores on a disk in memory.

use crate::check::{check, check_at};
use crate::engines::{
    Driven, Engine, Held, disk_of_engine, disk_of_store, empty, new_store, opened, over,
    store_of_engine,
};
use crate::held::held;
use pfx_disk::{Disk, Fate, MemoryDisk};
use pfx_jobs::job::Job;
use pfx_kinds::any::AnyJob;
use pfx_kit::places::{END, FIRST_FRAME, FIRST_SEGMENT, SECOND_AREA};
use pfx_machine::{Command, State};
use pfx_record::{Batch, Record, fits};
use pfx_record_redo::{apply_all, apply_recorded};
use pfx_store::Store;
use pfx_store_file::Tended;
use std::alloc::Global;

/// The record of a command, if the state accepts it.
fn entry_of<J: Job>(alloc: Global, command: Command<J>, state: &State<J>) -> Option<Record<J>> {
    let mut copy = state.copy_of(alloc).ok()?;
    let done = apply_recorded(alloc, &mut copy, command).ok()?;
    Some(done.entry)
}

/// Whether the records are appended in one batch, right at the store's state.
fn append<J: Job>(
    alloc: Global,
    records: Vec<Record<J>>,
    store: &mut Store<MemoryDisk, J>,
) -> bool {
    let Ok(mut copy) = store.state().copy_of(alloc) else {
        return false;
    };
    let workers = copy.columns().workers();
    let first = copy.number() + 1;
    if !fits(workers, 0, first, &records) {
        return false;
    }
    let batch = Batch::new(workers, 0, first, records);
    apply_all(&mut copy, &batch.records) && store.append(&batch).is_ok()
}

/// Appends a command, with no step of a checkpoint before it.
pub fn append_command<J: Job>(
    alloc: Global,
    command: Command<J>,
    store: &mut Store<MemoryDisk, J>,
) -> bool {
    let Some(entry) = entry_of(alloc, command, store.state()) else {
        return false;
    };
    match Vec::with_capacity(alloc, 1) {
        Ok(mut records) => {
            records.push_reserved(entry);
            append(alloc, records, store)
        }
        Err(_) => false,
    }
}

/// Appends a slot, with no step of a checkpoint before it.
pub fn append_slot(alloc: Global, store: &mut Store<MemoryDisk, AnyJob>) -> bool {
    append_command(alloc, Command::Slot, store)
}

/// Whether so many slots are appended, with no step of a checkpoint between them.
fn append_slots(alloc: Global, count: u32, store: &mut Store<MemoryDisk, AnyJob>) -> bool {
    for _ in 0..count {
        if !append_slot(alloc, store) {
            return false;
        }
    }
    true
}

/// Whether these are the steps that the checkpoint in progress takes.
fn are_steps(store: &mut Store<MemoryDisk, AnyJob>, steps: &[Tended]) -> bool {
    for step in steps {
        if store.tend() != Ok(*step) {
            return false;
        }
    }
    true
}

/// The disk as a stop now leaves it.
fn left(alloc: Global, store: &Store<MemoryDisk, AnyJob>) -> Option<MemoryDisk> {
    let calls = store.disk().clock();
    store.disk().stopped(alloc, calls as usize, &[]).ok()
}

/// The byte at a place, 0 past the end.
fn byte_at(bytes: &[u8], at: usize) -> u8 {
    bytes.get(at).copied().unwrap_or(0)
}

/// Whether the last command has this number, and each task of three has got so many slots.
fn stands_at(engine: &Engine, number: u64, got: u64) -> bool {
    let ledger = engine.state.columns();
    engine.last_kept() == Ok(number)
        && ledger.total() == 3
        && (ledger.alloc(0), ledger.alloc(1), ledger.alloc(2)) == (got, got, got)
}

/// The steps of a checkpoint of one piece, and what comes after them.
static STEPS: [Tended; 4] = [
    Tended::Closed,
    Tended::Piece,
    Tended::Finished,
    Tended::Nothing,
];

/// Whether the store is turned; a second turn isn't lawful.
fn turns(store: &mut Store<MemoryDisk, AnyJob>) -> bool {
    store.turn() == Ok(true) && store.turn() == Ok(false)
}

/// The new store with segments of 8,192 bytes, on a disk with room for so many calls.
fn thirds(alloc: Global, calls: usize) -> Option<Held<MemoryDisk>> {
    new_store(alloc, empty(alloc, calls)?, 8192)
}

/// The store after ten slots, a turn, the checkpoint's steps, a slot, a turn and a slot.
fn turned_twice(alloc: Global) -> Option<Held<MemoryDisk>> {
    let mut store = thirds(alloc, 200)?;
    let is_turned = append_slots(alloc, 10, &mut store)
        && turns(&mut store)
        && are_steps(&mut store, &STEPS)
        && append_slots(alloc, 1, &mut store)
        && turns(&mut store)
        && append_slots(alloc, 1, &mut store);
    if is_turned { Some(store) } else { None }
}

#[test]
fn a_second_turn_leads_back(rt: HostRuntime) {
    let alloc = rt.alloc();
    let Some(store) = turned_twice(alloc) else {
        return check(&rt, false, "two turns");
    };
    let Some(again) = reopened(alloc, &store) else {
        return check(&rt, false, "opened again");
    };
    check(&rt, stands_at(&again, 12, 8), "state");
    let places = again.keeper.places();
    let leads_back = places.area && places.checkpoint.in_progress() && !places.segment;
    check(&rt, leads_back, "places");
}

/// The engine over the store as a stop now leaves it.
fn reopened(alloc: Global, store: &Store<MemoryDisk, AnyJob>) -> Option<Driven<MemoryDisk>> {
    opened(alloc, left(alloc, store)?)
}

/// The bytes of the file after two turns, as a stop leaves them.
fn file_turned_twice(alloc: Global) -> Option<Vec<u8>> {
    let store = turned_twice(alloc)?;
    let mut disk = left(alloc, &store)?;
    held(alloc, &mut disk)
}

/// Frame 12 stands where frame 1 stood, and has closed frame 2's gate; those behind it are as they were.
static BYTES: [(usize, u8); 6] = [
    (SECOND_AREA, 0xc3),
    (SECOND_AREA + 1, 10),
    (FIRST_SEGMENT, 0xc3),
    (FIRST_SEGMENT + 1, 12),
    (FIRST_FRAME, 0xc3),
    (FIRST_FRAME + 22, 0),
];

#[test]
fn old_frames_stand_behind_a_closed_gate(rt: HostRuntime) {
    let alloc = rt.alloc();
    let bytes = file_turned_twice(alloc).unwrap_or(Vec::new(alloc));
    check(&rt, bytes.len() == END, "two turns");
    for (at, byte) in BYTES.iter() {
        check_at(&rt, byte_at(&bytes, *at) == *byte, "byte", *at);
    }
    for frame in 2..10 {
        let holds = byte_at(&bytes, FIRST_FRAME + 22 * frame) == 0xc3;
        check_at(&rt, holds, "frame", frame);
    }
}

/// The store after forty slots, a turn, and five slots between the checkpoint's first two steps and after them.
fn turned_once(alloc: Global) -> Option<Held<MemoryDisk>> {
    let mut store = thirds(alloc, 400)?;
    let is_turned = append_slots(alloc, 40, &mut store)
        && turns(&mut store)
        && are_steps(&mut store, &[Tended::Closed])
        && append_slots(alloc, 2, &mut store)
        && are_steps(&mut store, &[Tended::Piece])
        && append_slots(alloc, 3, &mut store);
    if is_turned { Some(store) } else { None }
}

/// Whether the store takes the steps of a checkpoint, and stands as before when it is opened then.
fn begins_anew(alloc: Global, engine: Driven<MemoryDisk>) -> bool {
    let Some(mut store) = store_of_engine(alloc, engine) else {
        return false;
    };
    if !are_steps(&mut store, &STEPS) {
        return false;
    }
    match opened(alloc, disk_of_store(store)) {
        Some(after) => stands_at(&after, 45, 30),
        None => false,
    }
}

#[test]
fn a_checkpoint_begins_anew_behind_a_stop(rt: HostRuntime) {
    let alloc = rt.alloc();
    let Some(store) = turned_once(alloc) else {
        return check(&rt, false, "a turn");
    };
    let Some(again) = reopened(alloc, &store) else {
        return check(&rt, false, "opened again");
    };
    check(&rt, stands_at(&again, 45, 30), "state");
    check(&rt, begins_anew(alloc, again), "the steps");
}

#[test]
fn a_checkpoint_ends_between_slots(rt: HostRuntime) {
    let alloc = rt.alloc();
    let Some(mut store) = turned_once(alloc) else {
        return check(&rt, false, "a turn");
    };
    check(&rt, are_steps(&mut store, &[Tended::Finished]), "finished");
    let Some(after) = reopened(alloc, &store) else {
        return check(&rt, false, "opened again");
    };
    check(&rt, stands_at(&after, 45, 30), "state");
    let places = after.keeper.places();
    check(
        &rt,
        places.area && !places.checkpoint.in_progress(),
        "places",
    );
}

/// The engine after five slots and a turn.
fn with_a_checkpoint(alloc: Global) -> Option<Driven<MemoryDisk>> {
    let mut store = thirds(alloc, 200)?;
    if append_slots(alloc, 5, &mut store) && store.turn() == Ok(true) {
        over(alloc, store)
    } else {
        None
    }
}

/// Whether a slot takes so many calls, up to its mark.
fn takes_calls(alloc: Global, engine: &mut Engine, calls: u64) -> bool {
    let before = engine.keeper.disk().clock();
    match engine.execute(alloc, Command::Slot) {
        Ok((mark, _reply)) => mark.clock >= before && mark.clock - before == calls,
        Err(_) => false,
    }
}

#[test]
fn each_command_takes_a_step(rt: HostRuntime) {
    let alloc = rt.alloc();
    let Some(mut engine) = with_a_checkpoint(alloc) else {
        return check(&rt, false, "a turn");
    };
    check(&rt, takes_calls(alloc, &mut engine, 4 + 2), "closed");
    check(&rt, takes_calls(alloc, &mut engine, 4 + 1), "a piece");
    check(&rt, takes_calls(alloc, &mut engine, 4 + 3), "finished");
    check(&rt, takes_calls(alloc, &mut engine, 4), "nothing");
    check(&rt, takes_calls(alloc, &mut engine, 4), "nothing again");
}

/// Carries a command out, and notes the clock of its mark.
fn marked(
    alloc: Global,
    command: Command<AnyJob>,
    marks: &mut Vec<u64>,
    engine: &mut Engine,
) -> bool {
    match engine.execute(alloc, command) {
        Ok((mark, _reply)) => marks.push(mark.clock).is_ok(),
        Err(_) => false,
    }
}

/// Whether the task's job of 1,000 steps, if there is one, has stepped as often as its task was chosen.
fn has_stepped(engine: &Engine, task: u16) -> bool {
    if engine.state.columns().total() != 3 || engine.state.jobs().len() != 3 || task >= 3 {
        return false;
    }
    let steps = engine.state.columns().alloc(usize::from(task));
    match engine.state.job(task) {
        Some(job) => steps <= 1000 && u64::from(job.left()) == 1000 - steps,
        None => true,
    }
}

/// The number of the last command, if each job has stepped as often as its task was chosen.
fn kept_whole(engine: &Engine) -> Option<u64> {
    let number = engine.last_kept().ok()?;
    let is_whole = engine.state.columns().slot() == number.saturating_sub(2)
        && has_stepped(engine, 0)
        && has_stepped(engine, 1);
    if is_whole { Some(number) } else { None }
}

/// The engine over a new store with segments of the least length.
fn over_least_segments(alloc: Global) -> Option<Driven<MemoryDisk>> {
    let disk = MemoryDisk::new(alloc, &[], FIRST_SEGMENT + 2 * 4233, 1000, 60_000).ok()?;
    over(alloc, new_store(alloc, disk, 4233)?)
}

/// Gives a job of 1,000 steps to a task.
fn marked_job(alloc: Global, task: u16, marks: &mut Vec<u64>, engine: &mut Engine) -> bool {
    match AnyJob::start("count", 1000, b"") {
        Ok(job) => marked(alloc, Command::Submit { task, job }, marks, engine),
        Err(_) => false,
    }
}

/// Whether two jobs are given and sixty slots run, the clocks of whose marks are noted.
fn run_62(alloc: Global, marks: &mut Vec<u64>, engine: &mut Engine) -> bool {
    if !marked_job(alloc, 0, marks, engine) || !marked_job(alloc, 1, marks, engine) {
        return false;
    }
    for _ in 0..60 {
        if !marked(alloc, Command::Slot, marks, engine) {
            return false;
        }
    }
    true
}

/// How many of the commands were marked by so many calls.
fn marked_by(marks: &[u64], calls: u64) -> u64 {
    marks.iter().filter(|&&mark| mark <= calls).count() as u64
}

/// Whether a stop leaves every command that was marked and at most one more.
fn is_left(alloc: Global, disk: &MemoryDisk, calls: u64, fates: &[Fate; 2], done: u64) -> bool {
    if disk.clock() < calls {
        return false;
    }
    match disk.stopped(alloc, calls as usize, fates) {
        Ok(left) => match opened(alloc, left) {
            Some(engine) => match kept_whole(&engine) {
                Some(kept) => done <= kept && kept - done <= 1,
                None => false,
            },
            None => false,
        },
        Err(_) => false,
    }
}

/// The first call after which a stop does not leave every command that was marked and at most one more, if this
/// becomes of what isn't synced: at most two writes at a time, of which all meet this fate, or the last alone.
fn first_loss(
    alloc: Global,
    disk: &MemoryDisk,
    made: u64,
    marks: &[u64],
    fate: Fate,
) -> Option<u64> {
    for calls in made..=disk.clock() {
        let done = marked_by(marks, calls);
        let alike = is_left(alloc, disk, calls, &[fate, fate], done);
        let last = is_left(alloc, disk, calls, &[Fate::Kept, fate], done);
        if !alike || !last {
            return Some(calls);
        }
    }
    None
}

/// Tells whether marks survive stops after each call of 62 commands over segments of the least length.
fn marks_survive(alloc: Global, fate: Fate) -> Option<bool> {
    let mut engine = over_least_segments(alloc)?;
    let made = engine.keeper.disk().clock();
    let mut marks = Vec::new(alloc);
    let is_run = run_62(alloc, &mut marks, &mut engine);
    let disk = disk_of_engine(engine);
    let is_marked = marked_by(&marks, disk.clock()) == 62;
    Some(is_run && is_marked && first_loss(alloc, &disk, made, &marks, fate).is_none())
}

#[test]
fn marks_survive_where_writes_are_kept(rt: HostRuntime) {
    let holds = marks_survive(rt.alloc(), Fate::Kept) == Some(true);
    check(&rt, holds, "kept");
}

#[test]
fn marks_survive_where_writes_are_dropped(rt: HostRuntime) {
    let holds = marks_survive(rt.alloc(), Fate::Dropped) == Some(true);
    check(&rt, holds, "dropped");
}

#[test]
fn marks_survive_where_torn_writes_are_open_gates(rt: HostRuntime) {
    let holds = marks_survive(rt.alloc(), Fate::Filled(0xc3)) == Some(true);
    check(&rt, holds, "open gates");
}

#[test]
fn marks_survive_where_torn_writes_are_closed_gates(rt: HostRuntime) {
    let holds = marks_survive(rt.alloc(), Fate::Filled(0)) == Some(true);
    check(&rt, holds, "closed gates");
}
