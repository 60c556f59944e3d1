//! Long scripts and plans, a slow writer, and the reading of a store's set.

use crate::refused_sets::REFUSED_SETS;
use crate::runs::one_by_one;
use crate::scripts::{prints_as, run_into, runs_to_its_end, thirds};
use crate::torn::Torn;
use pfx_fault::Fault;
use pfx_program::{OutputForm, read_task_set, run_plan};
use std::alloc::Global;
use std::io;
use std::io::Write;

/// The rows of three tasks of weight 2/3 on two workers, which come round every three slots.
static ROWS: [&str; 3] = ["0 1", "0 2", "1 2"];

/// What is printed of so many slots, one after the other, and at the end.
fn week_of(alloc: Global, slots: u32) -> Option<Vec<u8>> {
    let mut text = Vec::new(alloc);
    for slot in 0..slots {
        let row = ROWS[(slot % 3) as usize];
        write!(text, "{} ran {slot}: {row}\n", slot as u64 + 1).ok()?;
    }
    write!(text, "closed {slots}\n").ok()?;
    Some(text)
}

/// Whether the script prints so many slots, all of them taken.
fn runs_slots(alloc: Global, script: &[u8], slots: u32) -> bool {
    let Some(want) = week_of(alloc, slots) else {
        return false;
    };
    match thirds(alloc) {
        Some(mut state) => {
            runs_to_its_end(
                alloc,
                one_by_one(OutputForm::Text),
                &mut state,
                script,
                &want,
            )
        }
        None => false,
    }
}

/// A script of so many records, each of one slot.
fn records_of(alloc: Global, count: u32) -> Option<Vec<u8>> {
    let mut script = Vec::new(alloc);
    for _ in 0..count {
        script.extend_from_slice(b"slot,,,1,\n").ok()?;
    }
    Some(script)
}

#[test]
fn runs_three_thousand_records(rt: HostRuntime) {
    let alloc = rt.alloc();
    let script = records_of(alloc, 3000).unwrap_or(Vec::new(alloc));
    assert!(rt; runs_slots(alloc, &script, 3000));
}

#[test]
fn runs_five_thousand_slots_of_one_record(rt: HostRuntime) {
    assert!(rt; runs_slots(rt.alloc(), b"slot,,,5000,\n", 5000));
}

/// A writer that takes one byte at a time.
#[derive(Drop)]
struct Slow {
    taken: Vec<u8>,
}

impl Write for Slow {
    fn write(&mut self, buf: &[u8]) -> io::Result<usize> {
        let Some(byte) = buf.first() else {
            return Ok(0);
        };
        match self.taken.push(*byte) {
            Ok(_) => Ok(1),
            Err(_) => Ok(0),
        }
    }

    fn flush(&mut self) -> io::Result<()> {
        Ok(())
    }
}

/// Whether a slow writer gets more than 2,000 bytes as a quick one does.
fn is_written_slowly(alloc: Global) -> bool {
    let Some(want) = week_of(alloc, 150) else {
        return false;
    };
    let Some(mut state) = thirds(alloc) else {
        return false;
    };
    let mut output = Slow {
        taken: Vec::new(alloc),
    };
    let script = b"slot,,,150,\n".as_slice();
    let run = one_by_one(OutputForm::Text);
    let end = run_into(alloc, run, &mut state, script, &mut output);
    end.is_ok() && want.len() > 2000 && output.taken.as_slice() == want.as_slice()
}

#[test]
fn a_slow_writer_gets_all(rt: HostRuntime) {
    assert!(rt; is_written_slowly(rt.alloc()));
}

const THIRDS: &str = "workers = 2
task = [{name = \"0\", e = 2, p = 3}, {name = \"1\", e = 2, p = 3}, {name = \"2\", e = 2, p = 3}]
";

static NAMES: [&str; 3] = ["0,1", "0,2", "1,2"];

/// Whether a plan of 5,000 slots has its rows, which come round every three slots.
fn plans_five_thousand(alloc: Global) -> bool {
    let mut want = Vec::new(alloc);
    for slot in 0..5000u32 {
        let row = NAMES[(slot % 3) as usize];
        if write!(want, "{slot},{row}\n").is_err() {
            return false;
        }
    }
    let mut written = Vec::new(alloc);
    let end = run_plan(
        alloc,
        &mut THIRDS.as_bytes(),
        None,
        OutputForm::Text,
        &mut written,
        5000,
        false,
    );
    end.is_ok() && written.as_slice() == want.as_slice()
}

#[test]
fn plans_five_thousand_slots(rt: HostRuntime) {
    assert!(rt; plans_five_thousand(rt.alloc()));
}

const WORKED: &str = "submit,0,count,2,10
slot,,,2,
submit,0,count,1,
withdraw,1,,,
";

const ANSWERS: &str = "1 submitted 0
2 ran 0: 0 1
3 ran 1: 0 2
4 submitted 0
refused 33 NoJob task=1
closed 4
";

/// Whether the worked script is answered line by line.
fn answers_worked(alloc: Global) -> bool {
    match thirds(alloc) {
        Some(mut state) => prints_as(alloc, OutputForm::Text, &mut state, WORKED, ANSWERS, Ok(())),
        None => false,
    }
}

#[test]
fn answers_the_worked_script(rt: HostRuntime) {
    assert!(rt; answers_worked(rt.alloc()));
}

/// Whether the text is read as a set of so many workers and real tasks, with this size of a segment.
fn reads_set(alloc: Global, text: &str, workers: u32, real: usize, segment: u32) -> bool {
    match read_task_set(alloc, &mut text.as_bytes()) {
        Ok((set, size)) => set.workers() == workers && set.real() == real && size == segment,
        Err(_) => false,
    }
}

/// Why no set is read from the bytes.
fn set_fault_of(alloc: Global, bytes: &[u8]) -> Option<Fault> {
    let mut input = bytes;
    match read_task_set(alloc, &mut input) {
        Ok(_) => None,
        Err(fault) => Some(fault),
    }
}

/// A set file of so many tasks of weight 1/2048 on one worker.
fn many_tasks(alloc: Global, count: u32) -> Option<Vec<u8>> {
    let mut text = Vec::new(alloc);
    write!(text, "workers = 1\n").ok()?;
    for task in 0..count {
        write!(text, "[[task]]\nname = \"t{task}\"\ne = 1\np = 2048\n").ok()?;
    }
    Some(text)
}

#[test]
fn reads_a_set(rt: HostRuntime) {
    let alloc = rt.alloc();
    assert!(rt;
        reads_set(alloc, THIRDS, 2, 3, 1_048_576),
        "the usual segment"
    );
    let short = "segment = 8192\nworkers = 1\ntask = [{name = \"x\", e = 1, p = 2}]\n";
    assert!(rt; reads_set(alloc, short, 1, 1, 8192), "a segment of its own");
}

#[test]
fn refuses_sets_by_name(rt: HostRuntime) {
    let alloc = rt.alloc();
    for (text, want) in REFUSED_SETS.iter() {
        let got = set_fault_of(alloc, text.as_bytes());
        assert!(rt; got == Some(*want), "{text}");
    }
    let most = many_tasks(alloc, 1024).unwrap_or(Vec::new(alloc));
    assert!(rt; set_fault_of(alloc, &most).is_none(), "1,024 tasks");
    let more = many_tasks(alloc, 1025).unwrap_or(Vec::new(alloc));
    let got = set_fault_of(alloc, &more);
    assert!(rt; got == Some(Fault::TooManyTasks), "1,025 tasks");
}

/// Whether a reader that fails gives InputFailed, not a set of the bytes before.
fn tells_a_failed_reader(alloc: Global) -> bool {
    let mut input = Torn {
        left: THIRDS.as_bytes(),
    };
    match read_task_set(alloc, &mut input) {
        Ok(_) => false,
        Err(fault) => fault == Fault::InputFailed,
    }
}

#[test]
fn a_set_whose_reader_fails(rt: HostRuntime) {
    assert!(rt; tells_a_failed_reader(rt.alloc()));
}
