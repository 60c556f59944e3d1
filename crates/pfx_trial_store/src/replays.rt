//! Replays of stores of three tasks of weight 2/3 on two workers, whose segments have 8,192 bytes.

use crate::check::{check, check_at};
use pfx_disk::{Disk, MemoryDisk};
use pfx_fault::Part;
use pfx_kinds::any::AnyJob;
use pfx_kit::frames::{LEVEL, new_weights, put_all, row_of_one};
use pfx_kit::places::{END, FIRST_FRAME, HEADER, SECOND_AREA, SET, TASK, TASKS};
use pfx_machine::Command;
use pfx_replay::{Difference, Verdict, replay};
use pfx_store::Store;
use pfx_store_engine::{DurableEngine, StoreEngine};
use pfx_store_file::Tended;
use pfx_store_recover::{OpenFault, Refusal};
use pfx_weights::{TaskSet, Weights};
use std::alloc::Global;
use std::process::Abort;

/// A disk with these bytes, and room for the file and for so many calls.
fn disk_of(alloc: Global, bytes: &[u8]) -> Option<MemoryDisk> {
    if bytes.len() > END {
        return None;
    }
    MemoryDisk::new(alloc, bytes, END, 400, 60_000).ok()
}

/// A store of these tests, and the engine over one, behind a pointer: a proof spells what a function holds itself at each of its steps.
type Held = Box<Store<MemoryDisk, AnyJob>>;

type Driven = Box<StoreEngine<MemoryDisk, AnyJob>>;

/// The engine as it is lent.
type Engine = StoreEngine<MemoryDisk, AnyJob>;

/// What the engine is asked for.
#[derive(Clone, Copy)]
enum Step {
    /// A slot.
    Slot,
    /// A submit of rule 110 with three steps to task 0.
    Work,
    /// The answer of a unit of task 0, counted in the weights that are in force from a slot on. That of unit 0 starts the task.
    Answer { since: u32, unit: u64 },
    /// The same weights and workers anew.
    Reweigh,
}

/// A new store.
fn new_store(alloc: Global, set: &TaskSet) -> Option<Held> {
    let disk = disk_of(alloc, &[])?;
    Box::new(alloc, Store::init(alloc, disk, set, 8192).ok()?).ok()
}

/// The engine over a store.
fn driven(alloc: Global, store: Held) -> Option<Driven> {
    let engine = DurableEngine::new(alloc, Box::into_inner(store)).ok()?;
    Box::new(alloc, engine).ok()
}

/// The engine over a new store.
fn begun(alloc: Global) -> Option<Driven> {
    let set = TaskSet::new(alloc, 2, &[(2, 3), (2, 3), (2, 3)]).ok()?;
    let store = new_store(alloc, &set)?;
    driven(alloc, store)
}

/// The store of an engine.
fn kept(alloc: Global, engine: Driven) -> Option<Held> {
    Box::new(alloc, Box::into_inner(engine).into_keeper()).ok()
}

/// The answer of a unit of task 0, counted in the weights that are in force from this slot on.
fn answer(since: u32, unit: u64) -> Option<AnyJob> {
    let mut job = AnyJob::start("own", unit, b"s=500;ck=9f2c").ok()?;
    if let AnyJob::Own(own) = &mut job {
        own.count_from(u64::from(since));
    }
    Some(job)
}

/// The submit of a job to task 0.
fn submit(job: Option<AnyJob>) -> Option<Command<AnyJob>> {
    Some(Command::Submit { task: 0, job: job? })
}

/// The same weights and workers anew.
fn same_weights(alloc: Global) -> Option<Command<AnyJob>> {
    let weights = Vec::from_slice(alloc, &[(2, 3), (2, 3), (2, 3)]).ok()?;
    Some(Command::Reweigh {
        workers: 2,
        weights: Weights::new(weights),
    })
}

/// The command of a step.
fn command_of(alloc: Global, step: Step) -> Option<Command<AnyJob>> {
    match step {
        Step::Slot => Some(Command::Slot),
        Step::Work => submit(AnyJob::start("rule", 3, b"110:00000001").ok()),
        Step::Answer { since, unit } => submit(answer(since, unit)),
        Step::Reweigh => same_weights(alloc),
    }
}

/// Whether the engine takes a step.
fn takes_one(alloc: Global, engine: &mut Engine, step: Step) -> bool {
    match command_of(alloc, step) {
        Some(command) => engine.execute(alloc, command).is_ok(),
        None => false,
    }
}

/// Whether the engine takes steps, one after the other.
fn takes(alloc: Global, engine: &mut Engine, steps: &[Step]) -> bool {
    for step in steps {
        if !takes_one(alloc, engine, *step) {
            return false;
        }
    }
    true
}

/// Whether the engine takes answers of units of task 0, each counted in the weights from a slot on.
fn takes_answers(alloc: Global, engine: &mut Engine, answers: &[(u32, u64)]) -> bool {
    for (since, unit) in answers {
        let step = Step::Answer {
            since: *since,
            unit: *unit,
        };
        if !takes_one(alloc, engine, step) {
            return false;
        }
    }
    true
}

/// The store after these steps from the engine over it on.
fn with_steps(alloc: Global, engine: Option<Driven>, steps: &[Step]) -> Option<Held> {
    let mut engine = engine?;
    if takes(alloc, &mut engine, steps) {
        kept(alloc, engine)
    } else {
        None
    }
}

/// The store after ten slots.
fn ten_slots(alloc: Global) -> Option<Held> {
    with_steps(alloc, begun(alloc), &[Step::Slot; 10])
}

/// All bytes of a disk.
fn bytes_on(alloc: Global, disk: &mut MemoryDisk) -> Option<Vec<u8>> {
    let n = disk.len().ok()?;
    let mut out = Vec::new(alloc);
    out.resize(n, 0).ok()?;
    disk.read(0, &mut out).ok()?;
    Some(out)
}

/// All bytes of a store's file.
fn file_of(alloc: Global, store: Held) -> Option<Vec<u8>> {
    let mut disk = Box::into_inner(store).into_disk();
    bytes_on(alloc, &mut disk)
}

/// The file of a new store after these steps.
fn file_behind(alloc: Global, steps: &[Step]) -> Option<Vec<u8>> {
    file_of(alloc, with_steps(alloc, begun(alloc), steps)?)
}

/// The file after a submit of rule 110 with three steps to task 0, and five slots.
fn worked(alloc: Global) -> Option<Vec<u8>> {
    let slot = Step::Slot;
    file_behind(alloc, &[Step::Work, slot, slot, slot, slot, slot])
}

/// The file after these steps and these answers: a store takes any.
fn answered(alloc: Global, steps: &[Step], answers: &[(u32, u64)]) -> Option<Vec<u8>> {
    let mut engine = begun(alloc)?;
    if takes(alloc, &mut engine, steps) && takes_answers(alloc, &mut engine, answers) {
        file_of(alloc, kept(alloc, engine)?)
    } else {
        None
    }
}

/// Turns the store and takes the steps of its checkpoint.
fn checkpoint(store: &mut Store<MemoryDisk, AnyJob>) -> bool {
    store.turn() == Ok(true)
        && store.tend() == Ok(Tended::Closed)
        && store.tend() == Ok(Tended::Piece)
        && store.tend() == Ok(Tended::Finished)
}

/// The file after ten slots, a turn and a whole checkpoint.
fn checkpointed(alloc: Global) -> Option<Vec<u8>> {
    let mut store = ten_slots(alloc)?;
    if checkpoint(&mut store) {
        file_of(alloc, store)
    } else {
        None
    }
}

/// The file after ten slots and a turn, whose checkpoint hasn't begun.
fn turned(alloc: Global) -> Option<Vec<u8>> {
    let mut store = ten_slots(alloc)?;
    if store.turn() == Ok(true) {
        file_of(alloc, store)
    } else {
        None
    }
}

/// Changes one of the bytes from a value to another, if it has the first.
fn changes(bytes: &mut [u8], at: usize, from: u8, to: u8) -> bool {
    match bytes.get_mut(at) {
        Some(byte) => {
            let is_there = *byte == from;
            if is_there {
                *byte = to;
            }
            is_there
        }
        None => false,
    }
}

/// Changes bytes, each at its place from a value to another, if all have the first ones.
fn changes_all(bytes: &mut [u8], places: &[(usize, u8, u8)]) -> bool {
    for (at, from, to) in places {
        if !changes(bytes, *at, *from, *to) {
            return false;
        }
    }
    true
}

/// The bytes with some of them changed, each at its place from a value to another, if they have the first ones.
fn with_bytes(bytes: Option<Vec<u8>>, places: &[(usize, u8, u8)]) -> Option<Vec<u8>> {
    let mut bytes = bytes?;
    if changes_all(&mut bytes, places) {
        Some(bytes)
    } else {
        None
    }
}

/// What a replay of the bytes says.
fn verdict_of(alloc: Global, bytes: Option<Vec<u8>>) -> Option<Verdict> {
    let disk = disk_of(alloc, &bytes?)?;
    match replay::<AnyJob, MemoryDisk>(alloc, disk) {
        Ok((verdict, _)) => Some(verdict),
        Err(_) => None,
    }
}

/// Why a replay of the bytes is refused.
fn fault_of(alloc: Global, bytes: &[u8]) -> Option<OpenFault> {
    let disk = disk_of(alloc, bytes)?;
    match replay::<AnyJob, MemoryDisk>(alloc, disk) {
        Ok(_) => None,
        Err((fault, _)) => Some(fault),
    }
}

fn agrees(number: u64) -> Option<Verdict> {
    Some(Verdict::Agrees { number })
}

fn differs(number: u64, what: Difference) -> Option<Verdict> {
    Some(Verdict::Differs { number, what })
}

/// Ends a test if a replay of a file after these steps and the answers of a row says anything else than what stands beside them.
fn check_answers(
    rt: &impl Abort,
    alloc: Global,
    steps: &[Step],
    rows: &[(&[(u32, u64)], Option<Verdict>)],
) {
    for (at, (answers, wanted)) in rows.iter().enumerate() {
        let found = verdict_of(alloc, answered(alloc, steps, answers));
        check_at(rt, found == *wanted, "row", at);
    }
}

/// At the command of this number the answer isn't of the next unit.
fn no_next(number: u64) -> Option<Verdict> {
    differs(number, Difference::Answer)
}

#[test]
fn answers_have_to_be_of_the_next_unit(rt: HostRuntime) {
    let start = Step::Answer { since: 0, unit: 0 };
    let rows: [(&[(u32, u64)], Option<Verdict>); 6] = [
        (&[], agrees(2)),
        (&[(0, 1)], agrees(3)),
        (&[(0, 0)], no_next(3)),
        (&[(0, 2)], no_next(3)),
        (&[(0, 1), (0, 1)], no_next(4)),
        (&[(0, 1), (0, 2), (0, 3)], no_next(4)),
    ];
    check_answers(&rt, rt.alloc(), &[start, Step::Slot], &rows);
}

// Behind new weights the first unit is the next one, and it has to say from which slot on it counts. Before them are three slots, and the
// answers of the two units of task 0; behind them, from slot 3 on, a slot that task 0 gets.
#[test]
fn answers_count_in_the_weights_in_force(rt: HostRuntime) {
    let slot = Step::Slot;
    let one = Step::Answer { since: 0, unit: 1 };
    let two = Step::Answer { since: 0, unit: 2 };
    let rows: [(&[(u32, u64)], Option<Verdict>); 9] = [
        (&[], agrees(7)),
        (&[(3, 1)], agrees(8)),
        (&[(3, 3)], no_next(8)),
        (&[(0, 3)], no_next(8)),
        (&[(0, 1)], no_next(8)),
        (&[(2, 1)], no_next(8)),
        (&[(4, 1)], no_next(8)),
        (&[(3, 1), (3, 1)], no_next(9)),
        (&[(3, 1), (3, 2)], no_next(9)),
    ];
    let steps = [slot, slot, slot, one, two, Step::Reweigh, slot];
    check_answers(&rt, rt.alloc(), &steps, &rows);
}

#[test]
fn whole_files_agree(rt: HostRuntime) {
    let alloc = rt.alloc();
    let new = verdict_of(alloc, file_behind(alloc, &[]));
    check(&rt, new == agrees(0), "new");
    let one = verdict_of(alloc, file_behind(alloc, &[Step::Slot]));
    check(&rt, one == agrees(1), "one");
    check(&rt, verdict_of(alloc, worked(alloc)) == agrees(6), "worked");
    check(
        &rt,
        verdict_of(alloc, checkpointed(alloc)) == agrees(10),
        "checkpoint",
    );
    check(
        &rt,
        verdict_of(alloc, turned(alloc)) == agrees(10),
        "turned",
    );
}

#[test]
fn a_changed_state_differs(rt: HostRuntime) {
    let alloc = rt.alloc();
    let changed = with_bytes(worked(alloc), &[(FIRST_FRAME + 323, 7, 6)]);
    check(
        &rt,
        verdict_of(alloc, changed) == differs(3, Difference::State),
        "state",
    );
}

#[test]
fn a_changed_row_differs(rt: HostRuntime) {
    let alloc = rt.alloc();
    let file = file_behind(alloc, &[Step::Slot]);
    let changed = with_bytes(file, &[(FIRST_FRAME + 19, 1, 2)]);
    check(
        &rt,
        verdict_of(alloc, changed) == differs(1, Difference::Row),
        "row",
    );
}

#[test]
fn a_changed_checkpoint_differs(rt: HostRuntime) {
    let alloc = rt.alloc();
    let second = SECOND_AREA + TASKS + TASK;
    let places = [(second, 7, 6), (second + TASK, 6, 7)];
    let changed = with_bytes(checkpointed(alloc), &places);
    check(
        &rt,
        verdict_of(alloc, changed) == differs(10, Difference::Checkpoint),
        "checkpoint",
    );
}

/// The bytes of a new store's file with the frames of three slots on two workers, of new weights for one, and of a slot of this task.
fn renewed(alloc: Global, task: u8) -> Option<Vec<u8>> {
    let weights = new_weights(4, 1, 1);
    let row = row_of_one(5, task);
    let frames: [&[u8]; 3] = [&LEVEL, &weights, &row];
    let mut bytes = file_behind(alloc, &[])?;
    if put_all(&mut bytes, FIRST_FRAME, &frames) {
        Some(bytes)
    } else {
        None
    }
}

/// The store that a disk with these bytes holds.
fn opened(alloc: Global, bytes: &[u8]) -> Option<Held> {
    let disk = disk_of(alloc, bytes)?;
    Box::new(alloc, Store::open(alloc, disk).ok()?).ok()
}

/// The store of that file after a checkpoint, in which the other area holds the set before.
fn checkpointed_anew(alloc: Global) -> Option<Held> {
    let mut store = opened(alloc, &renewed(alloc, 0)?)?;
    if checkpoint(&mut store) {
        Some(store)
    } else {
        None
    }
}

/// The bytes of its file.
fn file_checkpointed_anew(alloc: Global) -> Option<Vec<u8>> {
    file_of(alloc, checkpointed_anew(alloc)?)
}

/// The store after these steps more.
fn with_more(alloc: Global, store: Held, steps: &[Step]) -> Option<Held> {
    with_steps(alloc, driven(alloc, store), steps)
}

/// The file after two slots more, a second checkpoint and a slot: both areas hold another set than the header.
fn file_checkpointed_twice(alloc: Global) -> Option<Vec<u8>> {
    let before = checkpointed_anew(alloc)?;
    let mut store = with_more(alloc, before, &[Step::Slot; 2])?;
    if checkpoint(&mut store) {
        file_of(alloc, with_more(alloc, store, &[Step::Slot])?)
    } else {
        None
    }
}

#[test]
fn files_with_new_weights_agree(rt: HostRuntime) {
    let alloc = rt.alloc();
    let frames = verdict_of(alloc, renewed(alloc, 0));
    check(&rt, frames == agrees(5), "frames alone");
    let lesser = verdict_of(alloc, file_checkpointed_anew(alloc));
    check(
        &rt,
        lesser == agrees(5),
        "the lesser checkpoint is of the set before",
    );
    let both = verdict_of(alloc, file_checkpointed_twice(alloc));
    check(&rt, both == agrees(8), "both are of the new set");
}

#[test]
fn another_row_behind_new_weights_differs(rt: HostRuntime) {
    let alloc = rt.alloc();
    let found = verdict_of(alloc, renewed(alloc, 1));
    check(&rt, found == differs(5, Difference::Row), "row");
}

// Another task than the first one has got the slot; the set came into force three slots later; other weights, of the same sum.
#[test]
fn a_changed_checkpoint_of_new_weights_differs(rt: HostRuntime) {
    let alloc = rt.alloc();
    let tasks = SECOND_AREA + TASKS;
    let set = SECOND_AREA + SET;
    let rows = [
        [(tasks, 1, 0), (tasks + TASK, 0, 1), (tasks, 0, 0)],
        [
            (SECOND_AREA + 9, 4, 7),
            (SECOND_AREA + 17, 3, 6),
            (tasks, 1, 1),
        ],
        [(set + 5, 3, 2), (set + 13, 3, 4), (set + 21, 3, 4)],
    ];
    for (number, row) in rows.iter().enumerate() {
        let bytes = with_bytes(file_checkpointed_anew(alloc), row);
        let found = verdict_of(alloc, bytes);
        let holds = found == differs(5, Difference::Checkpoint);
        check_at(&rt, holds, "row", number);
    }
}

/// Why a replay of so many of a file's first bytes has to be refused.
fn wanted_of(cut: usize) -> Refusal {
    if cut < HEADER {
        Refusal::NotAStore
    } else {
        Refusal::Damaged {
            at: cut,
            what: Part::Length,
        }
    }
}

/// Whether a replay of so many of the first bytes is refused so.
fn is_refused(alloc: Global, bytes: &[u8], cut: usize) -> bool {
    match bytes.get(..cut) {
        Some(front) => fault_of(alloc, front) == Some(OpenFault::Refused(wanted_of(cut))),
        None => false,
    }
}

#[test]
fn other_files_are_refused(rt: HostRuntime) {
    let alloc = rt.alloc();
    check(&rt, is_refused(alloc, &[], 0), "empty");
    let bytes = file_behind(alloc, &[Step::Slot]).unwrap_or(Vec::new(alloc));
    check(&rt, bytes.len() == END, "length");
    for cut in [0, 16, HEADER - 1, HEADER, FIRST_FRAME, END - 1] {
        check_at(&rt, is_refused(alloc, &bytes, cut), "cut", cut);
    }
}
