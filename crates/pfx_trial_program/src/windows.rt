//! Scripts whose slots are run several at once: the lines are those of slots that are run one at a time, up to a refusal
//! within a window or at its border, and up to where a writer fails.

use crate::runs::run_of;
use crate::scripts::{Held, run_into, runs_to_its_end};
use pfx_fault::Fault;
use pfx_kit::states::state_at;
use pfx_program::{AtRefusal, OutputForm};
use pfx_weights::TaskSet;
use std::alloc::Global;
use std::io;
use std::io::Write;

/// How many slots are run at once.
static WINDOWS: [u32; 3] = [1, 2, 16];

/// The number after the last one.
const END: u64 = 1 << 48;

/// The state of three tasks of weight 2/3 on two workers, before their first slot, that takes so many commands more, 4,096 at
/// the most.
fn with_room_for(alloc: Global, room: u64) -> Option<Held> {
    let set = TaskSet::new(alloc, 2, &[(2, 3), (2, 3), (2, 3)]).ok()?;
    if room > 4096 {
        return None;
    }
    Box::new(
        alloc,
        state_at(alloc, END - 1 - room, &set, 0, &[0, 0, 0], None)?,
    )
    .ok()
}

/// The rows, which come round every three slots.
static ROWS: [&str; 3] = ["0 1", "0 2", "1 2"];

/// Writes the lines of a record of slots, of which the state takes those below its room.
fn put_slots(text: &mut Vec<u8>, first: u64, count: u64, room: u64) -> Option<()> {
    for slot in first..first.saturating_add(count) {
        if slot >= room {
            text.extend_from_slice(b"refused 34 NumberLimit\n").ok()?;
            return Some(());
        }
        let row = ROWS[(slot % 3) as usize];
        let number = (END - 1)
            .saturating_sub(room)
            .saturating_add(slot)
            .saturating_add(1);
        write!(text, "{number} ran {slot}: {row}\n").ok()?;
    }
    Some(())
}

/// Twenty slots, and five more.
const SCRIPT: &str = "slot,,,20,
slot,,,5,
";

/// What the script prints over a state with this room.
fn lines(alloc: Global, room: u64) -> Option<Vec<u8>> {
    let mut text = Vec::new(alloc);
    put_slots(&mut text, 0, 20, room)?;
    put_slots(&mut text, room.min(20), 5, room)?;
    let last = (END - 1).saturating_sub(room).saturating_add(room.min(25));
    write!(text, "closed {last}\n").ok()?;
    Some(text)
}

/// Whether it prints just that with this window.
fn prints(alloc: Global, room: u64, window: u32) -> bool {
    let Some(want) = lines(alloc, room) else {
        return false;
    };
    let run = run_of(window, AtRefusal::GoOn, OutputForm::Text);
    match with_room_for(alloc, room) {
        Some(mut state) => { runs_to_its_end(alloc, run, &mut state, SCRIPT.as_bytes(), &want) }
        None => false,
    }
}

#[test]
fn each_window_prints_the_same_lines(rt: HostRuntime) {
    // The refusal comes at each place of both records, and after them.
    for room in 0..28 {
        for window in WINDOWS {
            assert!(rt;
                prints(rt.alloc(), room, window),
                "room for {room}, {window} at once"
            );
        }
    }
}

/// A writer that takes one byte at a time, and none once its room is used up.
#[derive(Drop)]
struct Small {
    taken: Vec<u8>,
    room: usize,
}

impl Write for Small {
    fn write(&mut self, buf: &[u8]) -> io::Result<usize> {
        let Some(byte) = buf.first() else {
            return Ok(0);
        };
        if self.taken.len() >= self.room || self.taken.push(*byte).is_err() {
            return Ok(0);
        }
        Ok(1)
    }

    fn flush(&mut self) -> io::Result<()> {
        Ok(())
    }
}

/// Whether a writer with this room has taken the first bytes of the lines, with this window.
fn takes_the_first(alloc: Global, all: &[u8], room: usize, window: u32) -> bool {
    let Some(mut state) = with_room_for(alloc, 18) else {
        return false;
    };
    let mut output = Small {
        taken: Vec::new(alloc),
        room,
    };
    let run = run_of(window, AtRefusal::GoOn, OutputForm::Text);
    let end = run_into(alloc, run, &mut state, SCRIPT.as_bytes(), &mut output);
    end == Err(Fault::OutputFailed) && Some(output.taken.as_slice()) == all.get(..room)
}

/// Whether writers of every room below the whole have taken the first bytes, with this window.
fn takes_each_beginning(alloc: Global, window: u32) -> bool {
    let Some(all) = lines(alloc, 18) else {
        return false;
    };
    for room in 0..all.len() {
        if !takes_the_first(alloc, &all, room, window) {
            return false;
        }
    }
    all.len() > 300
}

#[test]
fn a_writer_that_fails_has_the_beginning(rt: HostRuntime) {
    for window in WINDOWS {
        assert!(rt;
            takes_each_beginning(rt.alloc(), window),
            "{window} at once"
        );
    }
}
