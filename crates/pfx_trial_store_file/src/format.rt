//! Frames of a store of three tasks of weight 2/3 on two workers.

use crate::check::{check, check_at};
use crate::thirds::{Held, new_state};
use pfx_kinds::any::AnyJob;
use pfx_machine::State;
use pfx_store_format::{apply_frame, laws, number_after, number_of};
use std::alloc::Global;

/// The frame of one slot without jobs, of this number and these two tasks.
fn slot_frame(number: u8, first: u8, second: u8) -> [u8; 22] {
    [
        0xc3, 7, 0, 0, 0, number, 0, 0, 0, 0, 0, 0, 0, 1, 0, 2, first, 0, 0, second, 0, 0,
    ]
}

/// The number after the first frame, were there so many commands in it.
fn number_behind(count: u8) -> Option<u64> {
    let mut frame = slot_frame(1, 0, 1);
    frame[13] = count;
    number_after(0, &frame)
}

/// The number 2^48 - 1 is the last one.
fn is_last_number() -> bool {
    let last = [
        0xc3, 7, 0, 0, 0, 0xff, 0xff, 0xff, 0xff, 0xff, 0xff, 0, 0, 1, 0, 2, 0, 0, 0, 1, 0, 0,
    ];
    number_after((1 << 48) - 2, &last) == Some((1 << 48) - 1)
}

#[test]
fn heads_of_frames(rt: HostRuntime) {
    check(&rt, number_of(&[1, 2, 0, 0, 0, 0, 0, 0]) == 513, "513");
    let frame = slot_frame(1, 0, 1);
    check(&rt, number_after(0, &frame) == Some(1), "behind none");
    check(&rt, number_after(1, &frame).is_none(), "behind itself");
    check(&rt, number_after(0, &frame[..14]).is_none(), "14 bytes");
    check(&rt, number_behind(16) == Some(16), "16 commands");
    check(&rt, number_behind(17).is_none(), "17 commands");
    check(&rt, number_behind(0).is_none(), "no commands");
    check(&rt, is_last_number(), "the number 2^48 - 1");
}

/// The state after frames that come in turn, from the empty one.
fn behind(alloc: Global, frames: &[[u8; 22]]) -> Option<Held> {
    let mut state = new_state(alloc)?;
    for frame in frames {
        if !apply_frame(alloc, &mut state, frame).ok()? {
            return None;
        }
    }
    Some(state)
}

/// Whether the frames lead to a state of as many commands and slots.
fn lead_on(alloc: Global, frames: &[[u8; 22]]) -> bool {
    let number = frames.len() as u64;
    match behind(alloc, frames) {
        Some(state) => state.number() == number && state.columns().slot() == number,
        None => false,
    }
}

/// Whether memory suffices, and the frame leads nowhere.
fn leads_nowhere(alloc: Global, state: Option<Held>, frame: &[u8]) -> bool {
    let Some(mut state) = state else {
        return false;
    };
    match apply_frame(alloc, &mut state, frame) {
        Ok(right) => !right,
        Err(_) => false,
    }
}

#[test]
fn frames_lead_on(rt: HostRuntime) {
    let alloc = rt.alloc();
    let frames = [slot_frame(1, 0, 1), slot_frame(2, 0, 2)];
    check(&rt, lead_on(alloc, &frames[..1]), "one frame");
    check(&rt, lead_on(alloc, &frames), "two frames");
    let skips = slot_frame(4, 1, 2);
    let state = behind(alloc, &frames);
    check(&rt, leads_nowhere(alloc, state, &skips), "a number skipped");
}

/// Whether the frame leads nowhere from the empty state.
fn is_wrong(alloc: Global, frame: &[u8]) -> bool {
    leads_nowhere(alloc, new_state(alloc), frame)
}

#[test]
fn wrong_frames_lead_nowhere(rt: HostRuntime) {
    let alloc = rt.alloc();
    let frames = [
        slot_frame(2, 0, 1),
        slot_frame(1, 1, 0),
        slot_frame(1, 1, 1),
        slot_frame(1, 0, 3),
    ];
    for (row, frame) in frames.iter().enumerate() {
        check_at(&rt, is_wrong(alloc, frame), "frame", row);
    }
    let long = [
        0xc3, 7, 0, 0, 0, 1, 0, 0, 0, 0, 0, 0, 0, 1, 0, 2, 0, 0, 0, 1, 0, 0, 0,
    ];
    check(&rt, is_wrong(alloc, &long), "a byte left over");
    check(&rt, is_wrong(alloc, &long[..21]), "a byte missing");
    laws::batches_are_read_as_they_are_written::<AnyJob>();
    laws::format_keeps_the_laws::<AnyJob>();
}

/// The frame of one slot of one worker, of this number and this task.
fn row_of_one(number: u8, task: u8) -> [u8; 19] {
    [
        0xc3, 4, 0, 0, 0, number, 0, 0, 0, 0, 0, 0, 0, 1, 0, 2, task, 0, 0,
    ]
}

/// The frame of new weights, of this number: so many workers, and so many thirds of the slots for each of three tasks.
fn new_weights(number: u8, workers: u8, e: u8) -> [u8; 41] {
    [
        0xc3, 26, 0, 0, 0, number, 0, 0, 0, 0, 0, 0, 0, 1, 0, 4, workers, e, 0, 0, 0, 3, 0, 0, 0,
        e, 0, 0, 0, 3, 0, 0, 0, e, 0, 0, 0, 3, 0, 0, 0,
    ]
}

/// The frame of new weights whose head says that there are so many commands.
fn weights_among(number: u8, count: u8) -> [u8; 41] {
    let mut frame = new_weights(number, 1, 1);
    frame[13] = count;
    frame
}

/// Whether frames are taken over, one after the other.
fn are_taken_over(alloc: Global, state: &mut State<AnyJob>, frames: &[&[u8]]) -> bool {
    for frame in frames {
        match apply_frame(alloc, state, frame) {
            Ok(true) => {}
            _ => return false,
        }
    }
    true
}

/// The state after frames of two workers, of one, and of two again: after so many of them, at most nine.
fn behind_epochs(alloc: Global, many: usize) -> Option<Held> {
    let one = new_weights(4, 1, 1);
    let two = new_weights(8, 2, 2);
    let frames: [&[u8]; 9] = [
        &slot_frame(1, 0, 1),
        &slot_frame(2, 0, 2),
        &slot_frame(3, 1, 2),
        &one,
        &row_of_one(5, 0),
        &row_of_one(6, 1),
        &row_of_one(7, 2),
        &two,
        &slot_frame(9, 0, 1),
    ];
    let front = frames.get(..many.min(9))?;
    let mut state = new_state(alloc)?;
    if are_taken_over(alloc, &mut state, front) {
        Some(state)
    } else {
        None
    }
}

/// The number, the slot, where the set came into force, and the workers after so many of those frames.
fn told(alloc: Global, many: usize) -> Option<(u64, u64, u64, u32)> {
    let state = behind_epochs(alloc, many)?;
    let workers = state.columns().workers();
    Some((state.number(), state.slot(), state.from(), workers))
}

#[test]
fn rows_are_of_the_workers_in_force(rt: HostRuntime) {
    let alloc = rt.alloc();
    let rows = [
        (0, (0, 0, 0, 2)),
        (3, (3, 3, 0, 2)),
        (4, (4, 3, 3, 1)),
        (5, (5, 4, 3, 1)),
        (7, (7, 6, 3, 1)),
        (8, (8, 6, 6, 2)),
        (9, (9, 7, 6, 2)),
    ];
    for (many, wanted) in rows {
        check_at(&rt, told(alloc, many) == Some(wanted), "frames", many);
    }
}

#[test]
fn wrong_frames_of_new_weights_lead_nowhere(rt: HostRuntime) {
    let alloc = rt.alloc();
    // Behind so many frames: too early, new weights for no worker, an overload, among others, rows of too many and of too few workers.
    let rows: [(usize, &[u8]); 8] = [
        (2, &new_weights(3, 1, 1)),
        (3, &new_weights(4, 0, 1)),
        (3, &new_weights(4, 1, 2)),
        (3, &weights_among(4, 2)),
        (3, &weights_among(4, 0)),
        (3, &row_of_one(4, 0)),
        (4, &slot_frame(5, 0, 1)),
        (8, &row_of_one(9, 0)),
    ];
    for (row, (many, frame)) in rows.iter().enumerate() {
        let state = behind_epochs(alloc, *many);
        check_at(&rt, leads_nowhere(alloc, state, frame), "row", row);
    }
}
