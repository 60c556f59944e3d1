//! What is printed of a new store, a state's board, and what its jobs have computed.

use crate::runs::one_by_one;
use crate::scripts::{thirds, written_by};
use pfx_fault::Fault;
use pfx_kinds::any::AnyJob;
use pfx_machine::{Command, State};
use pfx_program::{OutputForm, created_line, run_show, run_status};
use pfx_weights::TaskSet;
use std::alloc::Global;

/// Whether this is the line of a new store of this set and size.
fn has_line(
    alloc: Global,
    form: OutputForm,
    m: u32,
    tasks: &[(u32, u32)],
    size: usize,
    line: &str,
) -> bool {
    let Ok(set) = TaskSet::new(alloc, m, tasks) else {
        return false;
    };
    match created_line(alloc, form, &set, size) {
        Ok(text) => text.as_str() == line,
        Err(_) => false,
    }
}

#[test]
fn tells_what_was_created(rt: HostRuntime) {
    let thirds = [(2, 3), (2, 3), (2, 3)];
    let line = "created m=2 real=3 idle=0 hyper=3 size=19395\n";
    assert!(rt;
        has_line(rt.alloc(), OutputForm::Text, 2, &thirds, 19_395, line),
        "thirds"
    );
    let line = "{\"created\":{\"hyper\":3,\"idle\":0,\"m\":2,\"real\":3,\"size\":19395}}\n";
    assert!(rt;
        has_line(rt.alloc(), OutputForm::Json, 2, &thirds, 19_395, line),
        "an object"
    );
    // One idle task of 1/6 fills the worker.
    let most = [(1, 2), (1, 3)];
    let line = "created m=1 real=2 idle=1 hyper=6 size=0\n";
    assert!(rt;
        has_line(rt.alloc(), OutputForm::Text, 1, &most, 0, line),
        "an idle task"
    );
}

const BOARD: &str = "board 1 slot 1
0 alloc=1 lag=-1/3 job=none
1 alloc=1 lag=-1/3 job=none
2 alloc=0 lag=2/3 job=none
";

/// Whether the board after the first slot is shown.
fn shows_first_slot(alloc: Global) -> bool {
    let Some(mut state) = thirds(alloc) else {
        return false;
    };
    if state.apply(Command::Slot).is_err() {
        return false;
    }
    let mut written = Vec::new(alloc);
    run_status(alloc, OutputForm::Text, &mut written, &mut *state).is_ok()
        && written.as_slice() == BOARD.as_bytes()
}

#[test]
fn shows_the_board(rt: HostRuntime) {
    assert!(rt; shows_first_slot(rt.alloc()));
}

/// Two jobs and three slots.
const WEEK: &str = "submit,0,count,100,10
submit,1,rule,3,110:00000001
slot,,,3,
";

const JOBS: &str = "0 count left=98 value=12
1 rule left=1 rule=110 cells=00000111
";

/// Whether this is shown of all jobs of a state, or of one.
fn has_shown(
    alloc: Global,
    form: OutputForm,
    state: &State<AnyJob>,
    task: Option<u16>,
    text: &str,
) -> bool {
    let mut written = Vec::new(alloc);
    let end = run_show(alloc, form, &mut written, state, task);
    end.is_ok() && written.as_slice() == text.as_bytes()
}

fn has_jobs(alloc: Global, state: &State<AnyJob>, task: Option<u16>, text: &str) -> bool {
    has_shown(alloc, OutputForm::Text, state, task, text)
}

/// Whether nothing is shown of a task, for this reason.
fn has_none(alloc: Global, state: &State<AnyJob>, task: u16, fault: Fault) -> bool {
    let mut written = Vec::new(alloc);
    let end = run_show(alloc, OutputForm::Text, &mut written, state, Some(task));
    end == Err(fault) && written.is_empty()
}

const WHOLE_WEEK: &str = "submit,0,count,100,10
submit,1,rule,3,110:00000001
submit,2,scan,,a\"b:xa\"ba
slot,,,3,
";

const OBJECTS: &str = "{\"job\":\"count\",\"left\":98,\"task\":0,\"value\":12}
{\"cells\":\"00000111\",\"job\":\"rule\",\"left\":1,\"rule\":110,\"task\":1}
{\"found\":1,\"job\":\"scan\",\"left\":1,\"of\":\"a\\\"b\",\"task\":2}
";

const COUNT_OBJECT: &str = "{\"job\":\"count\",\"left\":98,\"task\":0,\"value\":12}\n";

/// Whether a script is run to its end.
fn is_run(alloc: Global, state: &mut State<AnyJob>, script: &str) -> bool {
    let (_lines, end) = written_by(
        alloc,
        one_by_one(OutputForm::Text),
        state,
        script.as_bytes(),
    );
    end.is_ok()
}

/// Whether what a job of each kind has computed is shown as an object.
fn shows_objects(alloc: Global) -> bool {
    let Some(mut state) = thirds(alloc) else {
        return false;
    };
    is_run(alloc, &mut state, WHOLE_WEEK)
        && has_shown(alloc, OutputForm::Json, &state, None, OBJECTS)
        && has_shown(alloc, OutputForm::Json, &state, Some(0), COUNT_OBJECT)
}

#[test]
fn shows_jobs_as_objects(rt: HostRuntime) {
    assert!(rt; shows_objects(rt.alloc()));
}

/// Whether what two jobs have computed is shown, and what a task without a job has isn't.
fn shows_two_jobs(alloc: Global) -> bool {
    let Some(mut state) = thirds(alloc) else {
        return false;
    };
    is_run(alloc, &mut state, WEEK)
        && has_jobs(alloc, &state, None, JOBS)
        && has_jobs(alloc, &state, Some(0), "0 count left=98 value=12\n")
        && has_none(alloc, &state, 2, Fault::NoJob { task: 2 })
        && has_none(alloc, &state, 3, Fault::NoSuchTask { task: 3 })
}

#[test]
fn shows_what_jobs_have_computed(rt: HostRuntime) {
    assert!(rt; shows_two_jobs(rt.alloc()));
}
