//! New weights in stores on disks in memory.

use crate::check::{check, check_at, check_pair};
use crate::engines;
use crate::engines::{Driven, Engine, Held, disk_of_engine, over};
use pfx_disk::{Disk, Fate, MemoryDisk};
use pfx_jobs::job::Job;
use pfx_kinds::any::AnyJob;
use pfx_machine::{Command, MachineFault, Reply};
use pfx_store::Store;
use pfx_store_engine::EngineFault;
use pfx_weights::{SetFault, TaskSet, Weights};
use std::alloc::Global;

/// A disk behind a pointer: a proof spells what a function holds itself at each of its steps.
type Left = Box<MemoryDisk>;

/// A new store on a disk of so many bytes, with room for so many that are written.
fn new_store(
    alloc: Global,
    set: &TaskSet,
    segment: u32,
    len: usize,
    room: usize,
) -> Option<Held<MemoryDisk>> {
    let disk = MemoryDisk::new(alloc, &[], len, 1000, room).ok()?;
    Box::new(alloc, Store::init(alloc, disk, set, segment).ok()?).ok()
}

/// The engine over a new store on a disk of so many bytes, with room for so many that are written.
fn begun(
    alloc: Global,
    workers: u32,
    weights: &[(u32, u32)],
    segment: u32,
    len: usize,
    room: usize,
) -> Option<Driven<MemoryDisk>> {
    let set = TaskSet::new(alloc, workers, weights).ok()?;
    let store = new_store(alloc, &set, segment, len, room)?;
    over(alloc, store)
}

/// The disk of an engine's store.
fn disk_of(alloc: Global, engine: Driven<MemoryDisk>) -> Option<Left> {
    Box::new(alloc, disk_of_engine(engine)).ok()
}

/// Three tasks of 1/3.
static SINGLE: [(u32, u32); 3] = [(1, 3), (1, 3), (1, 3)];

/// Three tasks of 2/3.
static DOUBLE: [(u32, u32); 3] = [(2, 3), (2, 3), (2, 3)];

/// The engine over the store of three tasks of 2/3 on two workers, with segments of 8,192 bytes.
fn thirds(alloc: Global) -> Option<Driven<MemoryDisk>> {
    begun(alloc, 2, &DOUBLE, 8192, 19395, 60_000)
}

/// The engine over the store that a disk holds.
fn opened(alloc: Global, disk: Left) -> Option<Driven<MemoryDisk>> {
    engines::opened(alloc, Box::into_inner(disk))
}

/// The engine over the store that an engine leaves on its disk.
fn opened_again(alloc: Global, engine: Driven<MemoryDisk>) -> Option<Driven<MemoryDisk>> {
    opened(alloc, disk_of(alloc, engine)?)
}

/// A Reweigh.
fn reweigh(alloc: Global, workers: u32, weights: &[(u32, u32)]) -> Option<Command<AnyJob>> {
    let weights = Vec::from_slice(alloc, weights).ok()?;
    Some(Command::Reweigh {
        workers,
        weights: Weights::new(weights),
    })
}

/// Whether so many slots are carried out.
fn runs(alloc: Global, slots: u32, engine: &mut Engine) -> bool {
    for _slot in 0..slots {
        if engine.execute(alloc, Command::Slot).is_err() {
            return false;
        }
    }
    true
}

/// Whether the next slot is this one, with this row.
fn ran(alloc: Global, slot: u64, row: &[u16], engine: &mut Engine) -> bool {
    match engine.execute(alloc, Command::Slot) {
        Ok(
            (
                _,
                Reply::Ran {
                    slot: got,
                    row: tasks,
                },
            ),
        ) => got == slot && tasks.as_slice() == row,
        _ => false,
    }
}

/// As what new weights are kept: their command's number, the slot from which on they are in force, and how many calls of the
/// disk that took.
#[derive(Drop)]
struct Kept {
    number: u64,
    from: u64,
    calls: u64,
}

/// Whether the last command is this one, with the set of so many workers in force from its slot on.
fn is_in_force(engine: &Engine, workers: u32, kept: &Kept) -> bool {
    let store = engine.keeper.state();
    store.number() == kept.number
        && store.from() == kept.from
        && store.columns().workers() == workers
        && engine.state.from() == kept.from
        && engine.state.columns().workers() == workers
}

/// Whether new weights are kept so.
fn takes(
    alloc: Global,
    workers: u32,
    weights: &[(u32, u32)],
    kept: &Kept,
    engine: &mut Engine,
) -> bool {
    let wanted = engine.keeper.disk().clock().saturating_add(kept.calls);
    let Some(command) = reweigh(alloc, workers, weights) else {
        return false;
    };
    match engine.execute(alloc, command) {
        Ok((mark, Reply::Reweighed { slot })) => {
            mark.number == kept.number
                && mark.clock == wanted
                && slot == kept.from
                && is_in_force(engine, workers, kept)
        }
        _ => false,
    }
}

/// Whether new weights are refused for this fault, with no call of the disk and nothing changed.
fn refuses(
    alloc: Global,
    workers: u32,
    weights: &[(u32, u32)],
    fault: MachineFault,
    engine: &mut Engine,
) -> bool {
    let clock = engine.keeper.disk().clock();
    let number = engine.state.number();
    let Some(command) = reweigh(alloc, workers, weights) else {
        return false;
    };
    match engine.execute(alloc, command) {
        Err(EngineFault::Refused(got)) => {
            got == fault
                && engine.keeper.disk().clock() == clock
                && engine.keeper.state().number() == number
                && engine.state.number() == number
        }
        _ => false,
    }
}

/// Where the fourth frame stands, behind three of 22 bytes.
const FOURTH: usize = 3020 + 3 * 22;

/// The frame of the fourth command: three weights 1/3 on one worker.
static FRAME: [u8; 41] = [
    0xc3, 0x1a, 0, 0, 0, 4, 0, 0, 0, 0, 0, 0, 0, 1, 0, 4, 1, 1, 0, 0, 0, 3, 0, 0, 0, 1, 0, 0, 0, 3,
    0, 0, 0, 1, 0, 0, 0, 3, 0, 0, 0,
];

/// Whether the fourth frame on the disk is that of the new weights.
fn has_frame(disk: &mut MemoryDisk) -> bool {
    let mut frame = [0; 41];
    match disk.len() {
        Ok(len) if FOURTH + 41 <= len => disk.read(FOURTH, &mut frame).is_ok() && frame == FRAME,
        _ => false,
    }
}

/// Whether the first slots are run, and new weights come into force behind the third, and not before.
fn begins(alloc: Global, engine: &mut Engine) -> bool {
    let unlevel = MachineFault::NotLevel { task: 0 };
    let kept = Kept {
        number: 4,
        from: 3,
        calls: 4,
    };
    ran(alloc, 0, &[0, 1], engine)
        && refuses(alloc, 1, &SINGLE, unlevel, engine)
        && ran(alloc, 1, &[0, 2], engine)
        && ran(alloc, 2, &[1, 2], engine)
        && takes(alloc, 1, &SINGLE, &kept, engine)
        && ran(alloc, 3, &[0], engine)
}

/// Whether it goes on so, with the old weights again from the sixth slot on.
fn goes_on(alloc: Global, engine: &mut Engine) -> bool {
    let kept = Kept {
        number: 8,
        from: 6,
        calls: 4,
    };
    engine.last_kept() == Ok(5)
        && engine.keeper.state().from() == 3
        && ran(alloc, 4, &[1], engine)
        && ran(alloc, 5, &[2], engine)
        && takes(alloc, 2, &DOUBLE, &kept, engine)
        && ran(alloc, 6, &[0, 1], engine)
}

#[test]
fn new_weights_come_into_force(rt: HostRuntime) {
    let alloc = rt.alloc();
    let Some(mut engine) = thirds(alloc) else {
        return check(&rt, false, "an engine");
    };
    check(&rt, begins(alloc, &mut engine), "begins");
    let Some(mut disk) = disk_of(alloc, engine) else {
        return check(&rt, false, "a disk");
    };
    check(&rt, has_frame(&mut disk), "frame");
    let Some(mut again) = opened(alloc, disk) else {
        return check(&rt, false, "opened");
    };
    check(&rt, goes_on(alloc, &mut again), "goes on");
}

/// Whether the tests come in their order, each with the disk left alone.
fn refuses_in_order(alloc: Global, engine: &mut Engine) -> bool {
    let count = MachineFault::WrongCount;
    let unlevel = MachineFault::NotLevel { task: 0 };
    let workers = MachineFault::NoSet(SetFault::BadWorkers);
    let segment = MachineFault::SegmentTooSmall { least: 8425 };
    runs(alloc, 1, engine)
        && refuses(alloc, 0, &[(1, 3)], count, engine)
        && refuses(alloc, 0, &SINGLE, unlevel, engine)
        && runs(alloc, 2, engine)
        && refuses(alloc, 0, &SINGLE, workers, engine)
        && refuses(alloc, 4, &SINGLE, segment, engine)
}

#[test]
fn refusals_call_no_disk(rt: HostRuntime) {
    let alloc = rt.alloc();
    let Some(mut engine) = thirds(alloc) else {
        return check(&rt, false, "an engine");
    };
    check(&rt, refuses_in_order(alloc, &mut engine), "in order");
}

/// The last number, the slot from which on the set is in force, and its workers, in the store that a stop leaves after so
/// many calls.
fn left(alloc: Global, disk: &MemoryDisk, after: u64, fate: Fate) -> Option<(u64, u64, u32)> {
    if after > disk.clock() {
        return None;
    }
    let left = disk.stopped(alloc, after as usize, &[fate, fate]).ok()?;
    let engine = opened(alloc, Box::new(alloc, left).ok()?)?;
    let state = engine.keeper.state();
    Some((state.number(), state.from(), state.columns().workers()))
}

/// How many commands of four calls each are kept by so many. The gate is the fourth call but one.
fn kept_by(calls: u64, fate: Fate) -> u64 {
    let is_open = matches!(fate, Fate::Kept | Fate::Filled(0xc3));
    calls / 4 + u64::from(calls % 4 == 3 && is_open)
}

/// What so many commands leave: the fourth and the fifth are new weights.
fn left_by(number: u64) -> (u64, u64, u32) {
    match number {
        0..4 => (number, 0, 2),
        4 => (4, 3, 1),
        _ => (number, 3, 2),
    }
}

/// Three slots, two Reweighs at one slot, and a slot.
fn six_commands(alloc: Global) -> Option<Driven<MemoryDisk>> {
    let mut engine = thirds(alloc)?;
    let one = Kept {
        number: 4,
        from: 3,
        calls: 4,
    };
    let two = Kept {
        number: 5,
        from: 3,
        calls: 4,
    };
    let holds = runs(alloc, 3, &mut engine)
        && takes(alloc, 1, &SINGLE, &one, &mut engine)
        && takes(alloc, 2, &DOUBLE, &two, &mut engine)
        && runs(alloc, 1, &mut engine);
    if holds { Some(engine) } else { None }
}

#[test]
fn stops_after_each_call(rt: HostRuntime) {
    let alloc = rt.alloc();
    let Some(engine) = six_commands(alloc) else {
        return check(&rt, false, "an engine");
    };
    let Some(disk) = disk_of(alloc, engine) else {
        return check(&rt, false, "a disk");
    };
    let Some(made) = disk.clock().checked_sub(24) else {
        return check(&rt, false, "calls");
    };
    let fates = [
        Fate::Kept,
        Fate::Dropped,
        Fate::Filled(0xc3),
        Fate::Filled(0),
    ];
    for calls in 0..25 {
        for (number, fate) in fates.iter().enumerate() {
            let left = left(alloc, &disk, made.saturating_add(calls), *fate);
            let holds = left == Some(left_by(kept_by(calls, *fate)));
            check_pair(&rt, holds, "calls, and fate", calls as usize, number);
        }
    }
}

/// A job of so many steps.
fn count(steps: u64) -> Option<AnyJob> {
    AnyJob::start("count", steps, b"").ok()
}

/// Whether a job is given to the first task.
fn submit(alloc: Global, steps: u64, engine: &mut Engine) -> bool {
    match count(steps) {
        Some(job) => engine
            .execute(alloc, Command::Submit { task: 0, job })
            .is_ok(),
        None => false,
    }
}

/// The engine at a level slot over the least segments, one of which has so few bytes left that the frame of new weights doesn't fit.
fn nearly_full(alloc: Global) -> Option<Driven<MemoryDisk>> {
    let mut engine = begun(alloc, 2, &DOUBLE, 4233, 11477, 60_000)?;
    let holds = submit(alloc, 1, &mut engine)
        && engine.execute(alloc, Command::Withdraw { task: 0 }).is_ok()
        && runs(alloc, 183, &mut engine);
    if holds { Some(engine) } else { None }
}

/// Whether a stop so many calls behind the last slot leaves the state before new weights or after them, as it may.
fn may_leave(calls: u64, left: Option<(u64, u64, u32)>) -> bool {
    match left {
        Some((185, 0, 2)) => calls < 10,
        Some((186, 183, 1)) => calls > 8,
        Some((187, 183, 1)) => calls > 14,
        _ => false,
    }
}

#[test]
fn new_weights_turn_a_store(rt: HostRuntime) {
    let alloc = rt.alloc();
    let Some(mut engine) = nearly_full(alloc) else {
        return check(&rt, false, "an engine");
    };
    let made = engine.keeper.disk().clock();
    let kept = Kept {
        number: 186,
        from: 183,
        calls: 10,
    };
    check(&rt, !engine.keeper.places().segment, "the first segment");
    check(&rt, takes(alloc, 1, &SINGLE, &kept, &mut engine), "turned");
    check(&rt, engine.keeper.places().segment, "the second segment");
    check(&rt, runs(alloc, 1, &mut engine), "a slot, and a step");
    let Some(disk) = disk_of(alloc, engine) else {
        return check(&rt, false, "a disk");
    };
    let fates = [Fate::Kept, Fate::Dropped];
    for calls in 0..17 {
        for (number, fate) in fates.iter().enumerate() {
            let left = left(alloc, &disk, made.saturating_add(calls), *fate);
            let holds = may_leave(calls, left);
            check_pair(&rt, holds, "calls, and fate", calls as usize, number);
        }
    }
}

/// A thousand and twenty-four tasks of 1/2000.
fn many(alloc: Global) -> Option<Vec<(u32, u32)>> {
    let mut weights = Vec::with_capacity(alloc, 1024).ok()?;
    for _task in 0..1024 {
        weights.push((1, 2000)).ok()?;
    }
    Some(weights)
}

/// The engine over the store of so many tasks on one worker, with segments of 8,218 bytes, or of one more.
fn over_many(alloc: Global, weights: &[(u32, u32)], is_longer: bool) -> Option<Driven<MemoryDisk>> {
    if is_longer {
        return begun(alloc, 1, weights, 8219, 323707, 1_500_000);
    }
    begun(alloc, 1, weights, 8218, 323705, 1_500_000)
}

/// Whether the record of so many weights just fits, also as the first behind a turn.
fn just_fits(alloc: Global, weights: &[(u32, u32)]) -> bool {
    let Some(mut engine) = over_many(alloc, weights, true) else {
        return false;
    };
    let one = Kept {
        number: 1,
        from: 0,
        calls: 4,
    };
    let two = Kept {
        number: 2,
        from: 0,
        calls: 10,
    };
    let holds = takes(alloc, 1, weights, &one, &mut engine)
        && takes(alloc, 1, weights, &two, &mut engine);
    match opened_again(alloc, engine) {
        Some(again) => holds && again.last_kept() == Ok(2),
        None => false,
    }
}

#[test]
fn many_tasks_of_one_worker(rt: HostRuntime) {
    let alloc = rt.alloc();
    let Some(weights) = many(alloc) else {
        return check(&rt, false, "weights");
    };
    let Some(mut engine) = over_many(alloc, &weights, false) else {
        return check(&rt, false, "an engine");
    };
    let least = MachineFault::SegmentTooSmall { least: 8219 };
    let holds = refuses(alloc, 1, &weights, least, &mut engine);
    check(&rt, holds, "too small");
    check(&rt, just_fits(alloc, &weights), "just fits");
}

/// How many steps the first task's job has left.
fn steps_left(engine: &Engine) -> Option<u32> {
    let state = engine.keeper.state();
    if state.jobs().is_empty() {
        return None;
    }
    match state.job(0) {
        Some(job) => Some(job.left()),
        None => None,
    }
}

#[test]
fn jobs_go_on_over_new_weights(rt: HostRuntime) {
    let alloc = rt.alloc();
    let Some(mut engine) = thirds(alloc) else {
        return check(&rt, false, "an engine");
    };
    let kept = Kept {
        number: 5,
        from: 3,
        calls: 4,
    };
    let given = submit(alloc, 5, &mut engine) && runs(alloc, 3, &mut engine);
    check(&rt, given, "a job, and three slots");
    check(
        &rt,
        takes(alloc, 1, &SINGLE, &kept, &mut engine),
        "one worker",
    );
    let Some(mut again) = opened_again(alloc, engine) else {
        return check(&rt, false, "opened");
    };
    check(&rt, steps_left(&again) == Some(3), "three steps left");
    check(&rt, runs(alloc, 9, &mut again), "nine slots");
    check(&rt, steps_left(&again) == Some(0), "none left");
}
