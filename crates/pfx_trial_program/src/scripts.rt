//! Scripts over a state in memory, and what a failing reader or writer leaves.

use crate::runs::{one_by_one, run_of};
use crate::torn::Torn;
use csv::StringRecord;
use pfx_fault::Fault;
use pfx_kinds::any::AnyJob;
use pfx_kit::states::SEGMENT;
use pfx_kit::week::{FIRST_WEEK, SECOND_WEEK, WEEK};
use pfx_machine::State;
use pfx_program::{AtRefusal, OutputForm, Report, Run, run_record, run_script};
use pfx_program_script::Script;
use pfx_weights::TaskSet;
use std::alloc::Global;
use std::io;
use std::io::{Read, Write};

/// A state behind a pointer: a proof spells what a function holds itself at each of its steps.
pub type Held = Box<State<AnyJob>>;

/// The state of a set before its first command, whose segments have so many bytes.
pub fn begun_with(
    alloc: Global,
    workers: u32,
    weights: &[(u32, u32)],
    segment: u32,
) -> Option<Held> {
    let set = TaskSet::new(alloc, workers, weights).ok()?;
    Box::new(alloc, State::new(alloc, &set, segment).ok()?).ok()
}

/// The state of a set before its first command.
pub fn begun(alloc: Global, workers: u32, weights: &[(u32, u32)]) -> Option<Held> {
    begun_with(alloc, workers, weights, SEGMENT)
}

/// Three tasks of weight 2/3 on two workers.
pub fn thirds(alloc: Global) -> Option<Held> {
    begun(alloc, 2, &[(2, 3), (2, 3), (2, 3)])
}

/// Runs a script that is read from an input, and prints on an output: how it ends.
pub fn run_into<R: Read + Drop, W: Write>(
    alloc: Global,
    run: Run,
    state: &mut State<AnyJob>,
    input: R,
    output: &mut W,
) -> Result<Report, Fault> {
    run_script(alloc, &mut Script::new(alloc, input), run, output, state)
}

/// What a script prints, and how it ends.
pub fn written_by(
    alloc: Global,
    run: Run,
    state: &mut State<AnyJob>,
    script: &[u8],
) -> (Vec<u8>, Result<Report, Fault>) {
    let mut written = Vec::new(alloc);
    let end = run_into(alloc, run, state, script, &mut written);
    (written, end)
}

/// Whether a script is run to its end, and prints just this.
pub fn runs_to_its_end(
    alloc: Global,
    run: Run,
    state: &mut State<AnyJob>,
    script: &[u8],
    want: &[u8],
) -> bool {
    let (written, end) = written_by(alloc, run, state, script);
    end.is_ok() && written.as_slice() == want
}

/// Whether a script prints just this and ends so.
pub fn prints_as(
    alloc: Global,
    form: OutputForm,
    state: &mut State<AnyJob>,
    script: &str,
    want: &str,
    end: Result<(), Fault>,
) -> bool {
    let (written, got) = written_by(alloc, one_by_one(form), state, script.as_bytes());
    got.err() == end.err() && written.as_slice() == want.as_bytes()
}

fn prints(
    alloc: Global,
    state: &mut State<AnyJob>,
    script: &str,
    want: &str,
    end: Result<(), Fault>,
) -> bool {
    prints_as(alloc, OutputForm::Text, state, script, want, end)
}

const DAY: &str = "submit,0,count,9,
submit,0,count,9,
submit,1,bowl,9,
slot,,,1,
withdraw,0,,,
withdraw,9,,,
settle,,,,
status,,,,
";

const DAY_OBJECTS: &str = "{\"did\":\"submitted\",\"number\":1,\"task\":0}
{\"refused\":{\"fields\":{\"task\":0},\"name\":\"TaskBusy\",\"number\":32}}
{\"refused\":{\"fields\":{},\"name\":\"BadKind\",\"number\":41}}
{\"did\":\"ran\",\"number\":2,\"slot\":0,\"tasks\":[0,1]}
{\"did\":\"withdrawn\",\"number\":3,\"task\":0}
{\"refused\":{\"fields\":{\"task\":9},\"name\":\"NoSuchTask\",\"number\":31}}
{\"settled\":3}
";

const DAY_BOARD: &str = "{\"number\":3,\"slot\":1,\"tasks\":[\
{\"alloc\":1,\"job\":\"none\",\"lag\":-1,\"period\":3,\"task\":0},\
{\"alloc\":1,\"job\":\"none\",\"lag\":-1,\"period\":3,\"task\":1},\
{\"alloc\":0,\"job\":\"none\",\"lag\":2,\"period\":3,\"task\":2}]}
{\"closed\":3}
";

/// Whether a script of all verbs prints objects.
fn prints_objects(alloc: Global) -> bool {
    let Some(mut state) = thirds(alloc) else {
        return false;
    };
    let Ok(want) = format!(in alloc; "{DAY_OBJECTS}{DAY_BOARD}") else {
        return false;
    };
    prints_as(
        alloc,
        OutputForm::Json,
        &mut state,
        DAY,
        want.as_str(),
        Ok(()),
    )
}

#[test]
fn runs_a_script_as_objects(rt: HostRuntime) {
    assert!(rt; prints_objects(rt.alloc()));
}

/// How many of two weeks are printed as expected, up to the first that isn't.
fn prints_two_weeks(alloc: Global) -> u32 {
    let Some(mut state) = thirds(alloc) else {
        return 0;
    };
    if !prints(alloc, &mut state, WEEK, FIRST_WEEK, Ok(())) {
        return 0;
    }
    if prints(alloc, &mut state, WEEK, SECOND_WEEK, Ok(())) {
        2
    } else {
        1
    }
}

#[test]
fn runs_a_script_twice(rt: HostRuntime) {
    let right = prints_two_weeks(rt.alloc());
    assert!(rt; right == 2, "{right} of 2");
}

const WITH_REFUSALS: &str = "settle,,,,
submit,0,count,5,
submit,0,count,5,
withdraw,0,,,
submit,0,scan,,ab:abcab
submit,3,count,1,
withdraw,1,,,
submit,1,sum,1,
submit,1,count,,
submit,1,scan,0,abc:ab
slot,,,,
status,,,,
settle,,,,
";

const REFUSALS: &str = "settled 0
1 submitted 0
refused 32 TaskBusy task=0
2 withdrawn 0
3 submitted 0
refused 31 NoSuchTask task=3
refused 33 NoJob task=1
refused 41 BadKind
refused 42 BadGoal
refused 43 BadData
4 ran 0: 0 1
board 4 slot 1
0 alloc=1 lag=-1/3 job=open
1 alloc=1 lag=-1/3 job=none
2 alloc=0 lag=2/3 job=none
settled 4
closed 4
";

/// Whether a script goes on after each of its refusals.
fn goes_on(alloc: Global) -> bool {
    match thirds(alloc) {
        Some(mut state) => prints(alloc, &mut state, WITH_REFUSALS, REFUSALS, Ok(())),
        None => false,
    }
}

#[test]
fn goes_on_after_refusals(rt: HostRuntime) {
    assert!(rt; goes_on(rt.alloc()));
}

const ANSWERS: &str = "submit,0,own,1,early
submit,0,own,0,start
slot,,,,
submit,0,own,1,s=500;ck=9f2c
submit,0,own,1,s=500;ck=9f2c
submit,0,own,2,s=900
submit,2,own,1,late
submit,3,own,1,none
show,,,,
withdraw,0,,,
submit,0,own,2,ahead
submit,0,own,1,again
";

const ANSWERED: &str = "refused 45 NotNext task=0
1 submitted 0
2 ran 0: 0 1
3 submitted 0
refused 45 NotNext task=0
refused 45 NotNext task=0
refused 45 NotNext task=2
refused 31 NoSuchTask task=3
0 own answered=1 text=s=500;ck=9f2c
4 withdrawn 0
refused 45 NotNext task=0
5 submitted 0
closed 5
";

/// Whether only the answer of the next unit that a task was given is taken.
fn takes_next_answers(alloc: Global) -> bool {
    match thirds(alloc) {
        Some(mut state) => prints(alloc, &mut state, ANSWERS, ANSWERED, Ok(())),
        None => false,
    }
}

#[test]
fn takes_only_next_answers(rt: HostRuntime) {
    assert!(rt; takes_next_answers(rt.alloc()));
}

const IDLE_BOARD: &str = "1 ran 0: 0
2 ran 1: 1
board 2 slot 2
0 alloc=1 lag=0/2 job=none
1 alloc=1 lag=-1/3 job=none
2 alloc=0 lag=2/6 job=none
closed 2
";

/// Whether a board has a line for the idle task.
fn shows_idle(alloc: Global) -> bool {
    let script = "slot,,,2,\nstatus,,,,\n";
    match begun(alloc, 1, &[(1, 2), (1, 3)]) {
        Some(mut state) => prints(alloc, &mut state, script, IDLE_BOARD, Ok(())),
        None => false,
    }
}

#[test]
fn shows_idle_tasks(rt: HostRuntime) {
    assert!(rt; shows_idle(rt.alloc()));
}

/// Whether a script stops at its second record, which has no form, and the state is then as after the first.
fn ends_at_the_second(alloc: Global) -> bool {
    let Some(mut state) = thirds(alloc) else {
        return false;
    };
    let script = "slot,,,,\nslot,,,0,\nslot,,,,\n";
    let end = Err(Fault::BadScript { at: 2 });
    prints(alloc, &mut state, script, "1 ran 0: 0 1\n", end)
        && prints(alloc, &mut state, "", "closed 1\n", Ok(()))
}

#[test]
fn ends_at_a_record_without_form(rt: HostRuntime) {
    assert!(rt; ends_at_the_second(rt.alloc()));
}

/// A writer that keeps its last bytes, and fails once it has taken so many.
#[derive(Drop)]
struct Last {
    bytes: [u8; 64],
    room: usize,
}

impl Write for Last {
    fn write(&mut self, buf: &[u8]) -> io::Result<usize> {
        if buf.is_empty() || self.room == 0 {
            return Ok(0);
        }
        self.room -= 1;
        self.bytes.rotate_left(1);
        self.bytes[63] = buf[0];
        Ok(1)
    }

    fn flush(&mut self) -> io::Result<()> {
        Ok(())
    }
}

/// Whether a script runs up to where its reader fails.
fn runs_up_to_the_tear(alloc: Global, state: &mut State<AnyJob>) -> bool {
    let input = Torn {
        left: b"slot,,,,\nslot,",
    };
    let mut written = Vec::new(alloc);
    let end = run_into(
        alloc,
        one_by_one(OutputForm::Text),
        state,
        input,
        &mut written,
    );
    end == Err(Fault::InputFailed) && written.as_slice() == b"1 ran 0: 0 1\n".as_slice()
}

/// Whether a record is answered by a reader that fails if it is asked for anything after it, and the next one isn't.
fn answers_before_it_asks(alloc: Global, state: &mut State<AnyJob>) -> bool {
    let input = Torn {
        left: b"slot,,,2,\n",
    };
    let Ok(mut script) = Box::new(alloc, Script::new(alloc, input)) else {
        return false;
    };
    let mut row = StringRecord::new(alloc);
    let mut accepted = 0;
    let mut written = Vec::new(alloc);
    let first = run_record(
        alloc,
        &mut *script,
        &mut row,
        one_by_one(OutputForm::Text),
        &mut accepted,
        &mut written,
        state,
    );
    let answered = written.as_slice() == b"1 ran 0: 0 1\n2 ran 1: 0 2\n".as_slice();
    let second = run_record(
        alloc,
        &mut *script,
        &mut row,
        one_by_one(OutputForm::Text),
        &mut accepted,
        &mut written,
        state,
    );
    first == Ok(true) && answered && accepted == 2 && second == Err(Fault::InputFailed)
}

/// Whether two records that stand ready are answered together by a reader that fails if it is asked for anything after them.
fn answers_a_group_before_it_asks(alloc: Global, state: &mut State<AnyJob>) -> bool {
    let input = Torn {
        left: b"submit,0,own,0,a\nsubmit,1,own,0,b\n",
    };
    let mut written = Vec::new(alloc);
    let run = Run {
        batch: 1,
        group: 16,
        at_refusal: AtRefusal::GoOn,
        form: OutputForm::Text,
    };
    let end = run_into(alloc, run, state, input, &mut written);
    end == Err(Fault::InputFailed)
        && written.as_slice() == b"1 submitted 0\n2 submitted 1\n".as_slice()
}

/// How three records end, of which the second one has no form.
static ENDED: [Result<bool, Fault>; 3] = [Ok(true), Err(Fault::BadScript { at: 2 }), Ok(false)];

/// Whether a record at a time is answered, up to the end of the script, which prints nothing.
fn answers_one_by_one(alloc: Global, state: &mut State<AnyJob>) -> bool {
    let script = Script::new(alloc, b"settle,,,,\nleap,,,,\n".as_slice());
    let Ok(mut script) = Box::new(alloc, script) else {
        return false;
    };
    let mut row = StringRecord::new(alloc);
    let mut accepted = 0;
    let mut written = Vec::new(alloc);
    let mut ended = Vec::new(alloc);
    for _ in 0..3 {
        let end = run_record(
            alloc,
            &mut *script,
            &mut row,
            run_of(16, AtRefusal::GoOn, OutputForm::Text),
            &mut accepted,
            &mut written,
            state,
        );
        if ended.push(end).is_err() {
            return false;
        }
    }
    ended.as_slice() == ENDED.as_slice() && written.as_slice() == b"settled 0\n".as_slice()
}

/// Whether all three are so.
fn answers_records(alloc: Global) -> bool {
    match (thirds(alloc), thirds(alloc), thirds(alloc)) {
        (Some(mut first), Some(mut second), Some(mut third)) => {
            answers_before_it_asks(alloc, &mut first)
                && answers_one_by_one(alloc, &mut second)
                && answers_a_group_before_it_asks(alloc, &mut third)
        }
        _ => false,
    }
}

#[test]
fn records_are_answered_one_by_one(rt: HostRuntime) {
    assert!(rt; answers_records(rt.alloc()));
}

/// Whether a script whose lines are no longer taken has written their beginning.
fn writes_the_beginning(alloc: Global, state: &mut State<AnyJob>) -> bool {
    let mut output = Last {
        bytes: [0; 64],
        room: 20,
    };
    let run = one_by_one(OutputForm::Text);
    let end = run_into(alloc, run, state, WEEK.as_bytes(), &mut output);
    end == Err(Fault::OutputFailed) && output.bytes.ends_with(b"\x002 submitted 0\n3 ran ")
}

/// Whether a script stops where its reader fails, and the next one where its writer does.
fn stops_at_failures(alloc: Global) -> bool {
    match thirds(alloc) {
        Some(mut state) => {
            runs_up_to_the_tear(alloc, &mut state) && writes_the_beginning(alloc, &mut state)
        }
        None => false,
    }
}

#[test]
fn reader_or_writer_fails(rt: HostRuntime) {
    assert!(rt; stops_at_failures(rt.alloc()));
}
