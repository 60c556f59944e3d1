//! Files with frames of new weights, written down: a store of three tasks of weight 2/3 on two workers, and then of 1/3 on one.

use crate::check::{check, check_at, check_pair};
use crate::engines::{Held, disk_of_store, opened_store};
use crate::held::held;
use crate::journal::{damaged, file_of_one_slot, is_refused, is_refused_with, new_file, opened};
use crate::turns::append_slot;
use pfx_choice::ChoiceFault;
use pfx_disk::{Disk, Fate, MemoryDisk};
use pfx_fault::Part;
use pfx_kinds::any::AnyJob;
use pfx_kit::frames::{LEVEL, new_weights, put, put_all, row_of_one, row_of_two};
use pfx_kit::places::{
    AREA, END, FIRST_FRAME, FIRST_SEGMENT, HEADER, SECOND_AREA, SET, TASK, TASKS,
};
use pfx_machine::{Command, MachineFault, State};
use pfx_store::Store;
use pfx_store_file::Tended;
use pfx_weights::Weights;
use std::alloc::Global;

/// Where the frame of new weights stands behind that of three slots.
const SECOND_FRAME: usize = FIRST_FRAME + 36;

/// The bytes of a new store's file with so many of the frames of two workers, of one, and of two again, at most seven.
fn file_of_epochs(alloc: Global, many: usize) -> Option<Vec<u8>> {
    let one = new_weights(4, 1, 1);
    let rows = [row_of_one(5, 0), row_of_one(6, 1), row_of_one(7, 2)];
    let two = new_weights(8, 2, 2);
    let last = row_of_two(9, 0, 1);
    let frames: [&[u8]; 7] = [&LEVEL, &one, &rows[0], &rows[1], &rows[2], &two, &last];
    let mut bytes = new_file(alloc)?;
    if put_all(&mut bytes, FIRST_FRAME, frames.get(..many)?) {
        Some(bytes)
    } else {
        None
    }
}

/// The bytes of a new store's file with these frames.
fn file_of(alloc: Global, frames: &[&[u8]]) -> Option<Vec<u8>> {
    let mut bytes = new_file(alloc)?;
    if put_all(&mut bytes, FIRST_FRAME, frames) {
        Some(bytes)
    } else {
        None
    }
}

/// The number, the slot, the slot at which the set came into force, and the workers.
fn stand(state: &State<AnyJob>) -> (u64, u64, u64, u32) {
    (
        state.number(),
        state.slot(),
        state.from(),
        state.columns().workers(),
    )
}

/// Where a store stands that is opened on these bytes.
fn stand_of(alloc: Global, bytes: Option<Vec<u8>>) -> Option<(u64, u64, u64, u32)> {
    let store = opened(alloc, &bytes?)?;
    Some(stand(store.state()))
}

/// Where the store stands behind so many of the frames.
static STANDS: [(u64, u64, u64, u32); 8] = [
    (0, 0, 0, 2),
    (3, 3, 0, 2),
    (4, 3, 3, 1),
    (5, 4, 3, 1),
    (6, 5, 3, 1),
    (7, 6, 3, 1),
    (8, 6, 6, 2),
    (9, 7, 6, 2),
];

#[test]
fn rows_are_of_the_workers_in_force(rt: HostRuntime) {
    let alloc = rt.alloc();
    for (many, wanted) in STANDS.iter().enumerate() {
        let found = stand_of(alloc, file_of_epochs(alloc, many));
        check_at(&rt, found == Some(*wanted), "frames", many);
    }
}

#[test]
fn new_weights_may_come_first_and_twice(rt: HostRuntime) {
    let alloc = rt.alloc();
    let first = file_of(alloc, &[&new_weights(1, 1, 1)]);
    check(&rt, stand_of(alloc, first) == Some((1, 0, 0, 1)), "first");
    let both = file_of(
        alloc,
        &[&LEVEL, &new_weights(4, 1, 1), &new_weights(5, 3, 1)],
    );
    check(
        &rt,
        stand_of(alloc, both) == Some((5, 3, 3, 3)),
        "at one slot",
    );
}

/// The allocations of three tasks.
fn allocations(state: &State<AnyJob>) -> Option<(u64, u64, u64)> {
    let ledger = state.columns();
    if ledger.total() != 3 {
        return None;
    }
    Some((ledger.alloc(0), ledger.alloc(1), ledger.alloc(2)))
}

#[test]
fn allocations_begin_anew(rt: HostRuntime) {
    let alloc = rt.alloc();
    let rows = [
        (1, (2, 2, 2)),
        (2, (0, 0, 0)),
        (3, (1, 0, 0)),
        (5, (1, 1, 1)),
        (6, (0, 0, 0)),
        (7, (1, 1, 0)),
    ];
    for (many, wanted) in rows {
        let bytes = file_of_epochs(alloc, many).unwrap_or(Vec::new(alloc));
        let Some(store) = opened(alloc, &bytes) else {
            return check_at(&rt, false, "opened", many);
        };
        let holds = allocations(store.state()) == Some(wanted);
        check_at(&rt, holds, "frames", many);
    }
}

/// A disk with these bytes, and room for so many calls.
fn disk_of(alloc: Global, bytes: &[u8], calls: usize) -> Option<MemoryDisk> {
    if bytes.len() > END {
        return None;
    }
    MemoryDisk::new(alloc, bytes, END, calls, 60_000).ok()
}

/// The bytes of the file to which a slot is appended behind so many of the frames.
fn appended(alloc: Global, many: usize) -> Option<Vec<u8>> {
    let disk = disk_of(alloc, &file_of_epochs(alloc, many)?, 40)?;
    let mut store = opened_store(alloc, disk)?;
    if append_slot(alloc, &mut store) {
        held(alloc, &mut disk_of_store(store))
    } else {
        None
    }
}

#[test]
fn an_appended_row_is_of_the_workers_in_force(rt: HostRuntime) {
    let alloc = rt.alloc();
    for many in [2, 3, 4, 6] {
        let bytes = appended(alloc, many);
        let holds = bytes.is_some() && bytes == file_of_epochs(alloc, many + 1);
        check_at(&rt, holds, "frames", many);
    }
}

/// Other new weights, at their state: no workers, 65 and 4 of them, whose longest batch has no room in a segment, a weight 1/0, one of 3/3,
/// and 2/3 beside two of 1/3, which are too much for one worker; and two commands said to be there.
#[test]
fn weights_that_arent_right_are_a_damaged_record(rt: HostRuntime) {
    let alloc = rt.alloc();
    let bytes = file_of_epochs(alloc, 2).unwrap_or(Vec::new(alloc));
    let record = damaged(SECOND_FRAME, Part::Record);
    for (at, byte) in [
        (16, 0),
        (16, 65),
        (16, 4),
        (21, 0),
        (17, 3),
        (17, 2),
        (13, 2),
    ] {
        let holds = is_refused_with(alloc, &bytes, &[(SECOND_FRAME + at, byte)], record);
        check_at(&rt, holds == Some(true), "byte", at);
    }
}

/// The bytes of a file with a slot and new weights, where tasks are ahead and behind.
fn file_of_weights_too_early(alloc: Global) -> Option<Vec<u8>> {
    let mut bytes = file_of_one_slot(alloc)?;
    if put(&mut bytes, FIRST_FRAME + 22, &new_weights(2, 1, 1)) {
        Some(bytes)
    } else {
        None
    }
}

#[test]
fn new_weights_at_another_lag_are_a_damaged_record(rt: HostRuntime) {
    let alloc = rt.alloc();
    let bytes = file_of_weights_too_early(alloc).unwrap_or(Vec::new(alloc));
    let record = damaged(FIRST_FRAME + 22, Part::Record);
    check(&rt, is_refused(alloc, &bytes, record), "their frame");
}

#[test]
fn rows_of_other_workers_are_a_damaged_record(rt: HostRuntime) {
    let alloc = rt.alloc();
    let one = file_of(alloc, &[&LEVEL, &row_of_one(4, 0)]).unwrap_or(Vec::new(alloc));
    let record = damaged(SECOND_FRAME, Part::Record);
    check(&rt, is_refused(alloc, &one, record), "a row of one before");
    let frames: [&[u8]; 3] = [&LEVEL, &new_weights(4, 1, 1), &row_of_two(5, 0, 1)];
    let two = file_of(alloc, &frames).unwrap_or(Vec::new(alloc));
    let record = damaged(SECOND_FRAME + 41, Part::Record);
    check(&rt, is_refused(alloc, &two, record), "a row of two behind");
}

/// The byte of the checkpoint area with the state after new weights and a slot of task 0: its gate, the number, the slot, where the set came
/// into force, one worker and three weights 1/3, and a row of 137 bytes for each task.
fn byte_of_checkpoint(i: usize) -> u8 {
    match i {
        0 => 0xc3,
        1 => 5,
        9 => 4,
        17 | 30 | 38 | 46 => 3,
        SET | 26 | 34 | 42 | TASKS => 1,
        _ => 0,
    }
}

/// The store behind new weights and a slot, which is appended, a turn and a whole checkpoint.
fn checkpointed(alloc: Global) -> Option<Held<MemoryDisk>> {
    let disk = disk_of(alloc, &file_of_epochs(alloc, 2)?, 80)?;
    let mut store = opened_store(alloc, disk)?;
    if append_slot(alloc, &mut store) && checkpoint(&mut store) {
        Some(store)
    } else {
        None
    }
}

/// The bytes of that store's file.
fn checkpointed_file(alloc: Global) -> Option<Vec<u8>> {
    held(alloc, &mut disk_of_store(checkpointed(alloc)?))
}

#[test]
fn a_checkpoint_holds_the_set_in_force(rt: HostRuntime) {
    let alloc = rt.alloc();
    let bytes = checkpointed_file(alloc).unwrap_or(Vec::new(alloc));
    check(&rt, bytes.len() == END, "checkpointed");
    for i in 0..AREA {
        let holds = bytes.get(SECOND_AREA + i) == Some(&byte_of_checkpoint(i));
        check_at(&rt, holds, "byte", i);
    }
    let found = stand_of(alloc, Some(bytes));
    check(&rt, found == Some((5, 4, 3, 1)), "opened again");
}

/// When a store was opened, and when each of three slots was marked, by the disk's clock.
#[derive(Clone, Copy)]
struct Clocks {
    opened: u64,
    first: u64,
    second: u64,
    third: u64,
}

impl Clocks {
    /// The number of the last command that was marked by so many calls, the new weights' before all of them.
    fn marked_by(self, calls: u64) -> u64 {
        4 + u64::from(self.first <= calls)
            + u64::from(self.second <= calls)
            + u64::from(self.third <= calls)
    }
}

/// Turns the store and takes the steps of its checkpoint.
fn checkpoint(store: &mut Store<MemoryDisk, AnyJob>) -> bool {
    store.turn() == Ok(true)
        && store.tend() == Ok(Tended::Closed)
        && store.tend() == Ok(Tended::Piece)
        && store.tend() == Ok(Tended::Finished)
}

/// The disk's clock at which a slot more is marked.
fn marked(alloc: Global, store: &mut Store<MemoryDisk, AnyJob>) -> Option<u64> {
    if append_slot(alloc, store) {
        Some(store.disk().clock())
    } else {
        None
    }
}

/// A disk with new weights in its file, and the calls of a slot, a turn, a whole checkpoint and two slots.
fn run(alloc: Global) -> Option<(MemoryDisk, Clocks)> {
    let disk = disk_of(alloc, &file_of_epochs(alloc, 2)?, 200)?;
    let mut store = opened_store(alloc, disk)?;
    let opened = store.disk().clock();
    let first = marked(alloc, &mut store)?;
    if !checkpoint(&mut store) {
        return None;
    }
    let second = marked(alloc, &mut store)?;
    let third = marked(alloc, &mut store)?;
    let clocks = Clocks {
        opened,
        first,
        second,
        third,
    };
    Some((disk_of_store(store), clocks))
}

/// The store that a stop after so many calls leaves, if the set in force is the new one and the slot is that of its number.
fn left(alloc: Global, disk: &MemoryDisk, calls: u64, fate: Fate) -> Option<Held<MemoryDisk>> {
    if disk.clock() < calls {
        return None;
    }
    let left = disk.stopped(alloc, calls as usize, &[fate, fate]).ok()?;
    let store = opened_store(alloc, left)?;
    let number = store.state().number();
    if (4..9).contains(&number)
        && stand(store.state()) == (number, number.saturating_sub(1), 3, 1)
    {
        Some(store)
    } else {
        None
    }
}

/// Whether a stop leaves every command that was marked, and at most one more.
fn is_left(alloc: Global, disk: &MemoryDisk, calls: u64, fate: Fate, done: u64) -> bool {
    match left(alloc, disk, calls, fate) {
        Some(store) => {
            let number = store.state().number();
            number == done || number == done.saturating_add(1)
        }
        None => false,
    }
}

static FATES: [Fate; 5] = [
    Fate::Kept,
    Fate::Dropped,
    Fate::Filled(0xc3),
    Fate::Filled(0),
    Fate::Filled(0x5a),
];

#[test]
fn new_weights_survive_stops(rt: HostRuntime) {
    let alloc = rt.alloc();
    let Some((disk, clocks)) = run(alloc) else {
        return check(&rt, false, "the run");
    };
    for (row, fate) in FATES.iter().enumerate() {
        for calls in 0..=disk.clock() {
            let holds = is_left(alloc, &disk, calls, *fate, clocks.marked_by(calls));
            check_pair(&rt, holds, "fate and call", row, calls as usize);
        }
    }
}

/// Whether a slot may be appended to what a stop left, and each stop of that, from its opening's end on, leaves what it has to.
fn is_stopped_again(alloc: Global, disk: &MemoryDisk, calls: u64, fate: Fate) -> Option<bool> {
    let mut store = left(alloc, disk, calls, fate)?;
    let number = store.state().number();
    let begun = store.disk().clock();
    if !append_slot(alloc, &mut store) {
        return None;
    }
    let more = disk_of_store(store);
    let marked = more.clock();
    for second in begun..=marked {
        let done = if second < marked {
            number
        } else {
            number.saturating_add(1)
        };
        for other in FATES.iter() {
            if !is_left(alloc, &more, second, *other, done) {
                return None;
            }
        }
    }
    Some(begun < marked)
}

/// Whether each stop with this fate, from the first opening's end on, and then each stop of a slot more, leaves what it has to.
fn are_stopped_twice(alloc: Global, fate: Fate) -> bool {
    let Some((disk, clocks)) = run(alloc) else {
        return false;
    };
    for calls in clocks.opened..=disk.clock() {
        if is_stopped_again(alloc, &disk, calls, fate) != Some(true) {
            return false;
        }
    }
    true
}

#[test]
fn new_weights_survive_two_stops_where_writes_are_kept(rt: HostRuntime) {
    check(&rt, are_stopped_twice(rt.alloc(), Fate::Kept), "kept");
}

#[test]
fn new_weights_survive_two_stops_where_writes_are_dropped(rt: HostRuntime) {
    check(&rt, are_stopped_twice(rt.alloc(), Fate::Dropped), "dropped");
}

#[test]
fn new_weights_survive_two_stops_where_torn_writes_are_open_gates(rt: HostRuntime) {
    check(
        &rt,
        are_stopped_twice(rt.alloc(), Fate::Filled(0xc3)),
        "0xc3",
    );
}

/// A number of eight bytes whose first ones are so.
fn number_of(front: &[u8]) -> [u8; 8] {
    let mut bytes = [0; 8];
    let _ = put(&mut bytes, 0, front);
    bytes
}

/// The last slot, 2^40 - 1, and how many slots each task has got by then, two of three.
const LAST_SLOT: u64 = (1 << 40) - 1;

/// The bytes of the file whose first checkpoint is at the last slot, where no task is ahead or behind, with this number and the next one.
fn file_at_the_last_slot(alloc: Global, number: &[u8], next: &[u8]) -> Option<Vec<u8>> {
    let mut bytes = new_file(alloc)?;
    let got = number_of(&[0xaa; 5]);
    let holds = put(&mut bytes, HEADER + 1, &number_of(number))
        && put(&mut bytes, HEADER + 9, &number_of(&[0xff; 5]))
        && put(&mut bytes, HEADER + TASKS, &got)
        && put(&mut bytes, HEADER + TASKS + TASK, &got)
        && put(&mut bytes, HEADER + TASKS + 2 * TASK, &got)
        && put(&mut bytes, FIRST_SEGMENT + 1, &number_of(next));
    if holds { Some(bytes) } else { None }
}

/// Why the state refuses new weights.
fn fault_of(
    alloc: Global,
    state: &State<AnyJob>,
    workers: u32,
    weights: &[(u32, u32)],
) -> Option<MachineFault> {
    let mut copy = state.copy_of(alloc).ok()?;
    let weights = Weights::new(Vec::from_slice(alloc, weights).ok()?);
    copy.apply(Command::Reweigh { workers, weights }).err()
}

#[test]
fn no_new_weights_come_behind_the_last_number(rt: HostRuntime) {
    let alloc = rt.alloc();
    let bytes = file_at_the_last_slot(alloc, &[0xff; 6], &[0, 0, 0, 0, 0, 0, 1]);
    let bytes = bytes.unwrap_or(Vec::new(alloc));
    let Some(store) = opened(alloc, &bytes) else {
        return check(&rt, false, "opened");
    };
    let last = (1 << 48) - 1;
    check(
        &rt,
        stand(store.state()) == (last, LAST_SLOT, 0, 2),
        "state",
    );
    let thirds = [(1, 3), (1, 3), (1, 3)];
    let limit = Some(MachineFault::NumberLimit);
    check(
        &rt,
        fault_of(alloc, store.state(), 1, &thirds[..2]) == limit,
        "two weights",
    );
    check(
        &rt,
        fault_of(alloc, store.state(), 1, &thirds) == limit,
        "three weights",
    );
    let mut frame = new_weights(0, 1, 1);
    frame[11] = 1;
    let mut more = bytes;
    check(&rt, put(&mut more, FIRST_FRAME, &frame), "a frame");
    check(
        &rt,
        is_refused(alloc, &more, damaged(FIRST_FRAME, Part::Frame)),
        "its number",
    );
}

#[test]
fn new_weights_come_into_force_at_the_last_slot(rt: HostRuntime) {
    let alloc = rt.alloc();
    let bytes = file_at_the_last_slot(alloc, &[6], &[7]);
    let mut bytes = bytes.unwrap_or(Vec::new(alloc));
    check(
        &rt,
        put(&mut bytes, FIRST_FRAME, &new_weights(7, 1, 1)),
        "a frame",
    );
    let Some(store) = opened(alloc, &bytes) else {
        return check(&rt, false, "opened");
    };
    check(
        &rt,
        stand(store.state()) == (7, LAST_SLOT, LAST_SLOT, 1),
        "state",
    );
    let Ok(mut copy) = store.state().copy_of(alloc) else {
        return check(&rt, false, "a copy");
    };
    let limit = MachineFault::NoRow(ChoiceFault::SlotLimit);
    check(
        &rt,
        copy.apply(Command::Slot).err() == Some(limit),
        "no slot",
    );
    check(
        &rt,
        put(&mut bytes, FIRST_FRAME + 41, &row_of_one(8, 0)),
        "a row",
    );
    let record = damaged(FIRST_FRAME + 41, Part::Record);
    check(&rt, is_refused(alloc, &bytes, record), "no such slot");
}
