//! Scripts that give tasks new weights.

use crate::scripts::{begun, begun_with, prints_as, thirds};
use pfx_fault::Fault;
use pfx_program::OutputForm;
use std::alloc::Global;

// Refused once, and accepted at the end of a round.
const ROUND: &str = "slot,,,1,
reweigh,,,1,1/3 1/3 1/3
slot,,,2,
reweigh,,,1,1/3 1/3 1/3
slot,,,1,
status,,,,
";

const ROUND_LINES: &str = "1 ran 0: 0 1
refused 35 NotLevel task=0
2 ran 1: 0 2
3 ran 2: 1 2
4 reweighed 3
5 ran 3: 0
board 5 slot 4 from 3
0 alloc=1 lag=-2/3 job=none
1 alloc=0 lag=1/3 job=none
2 alloc=0 lag=1/3 job=none
closed 5
";

const ROUND_OBJECTS: &str = "{\"did\":\"ran\",\"number\":1,\"slot\":0,\"tasks\":[0,1]}
{\"refused\":{\"fields\":{\"task\":0},\"name\":\"NotLevel\",\"number\":35}}
{\"did\":\"ran\",\"number\":2,\"slot\":1,\"tasks\":[0,2]}
{\"did\":\"ran\",\"number\":3,\"slot\":2,\"tasks\":[1,2]}
{\"did\":\"reweighed\",\"number\":4,\"slot\":3}
{\"did\":\"ran\",\"number\":5,\"slot\":3,\"tasks\":[0]}
{\"from\":3,\"number\":5,\"slot\":4,\"tasks\":[\
{\"alloc\":1,\"job\":\"none\",\"lag\":-2,\"period\":3,\"task\":0},\
{\"alloc\":0,\"job\":\"none\",\"lag\":1,\"period\":3,\"task\":1},\
{\"alloc\":0,\"job\":\"none\",\"lag\":1,\"period\":3,\"task\":2}]}
{\"closed\":5}
";

/// Whether a script over three tasks of weight 2/3 on two workers prints just this.
fn prints(alloc: Global, form: OutputForm, script: &str, want: &str) -> bool {
    match thirds(alloc) {
        Some(mut state) => prints_as(alloc, form, &mut state, script, want, Ok(())),
        None => false,
    }
}

#[test]
fn new_weights_come_into_force_where_all_is_level(rt: HostRuntime) {
    assert!(rt; prints(rt.alloc(), OutputForm::Text, ROUND, ROUND_LINES));
    assert!(rt; prints(rt.alloc(), OutputForm::Json, ROUND, ROUND_OBJECTS));
}

// Each is refused, and the last one, with leading zeros, is accepted.
const REFUSED: &str = "reweigh,,,2,1/3
reweigh,,,2,1/3 1/3 1/3 1/3
reweigh,,,0,1/3 1/3 1/3
reweigh,,,65,1/3 1/3 1/3
reweigh,,,4294967297,1/3 1/3 1/3
reweigh,,,2,1/3 0/3 1/3
reweigh,,,2,1/3 1/3 3/3
reweigh,,,2,4294967297/3 1/3 1/3
reweigh,,,2,1/1024 1/3 1/1025
reweigh,,,1,2/3 1/3 1/3
slot,,,1,
reweigh,,,2,1/3
reweigh,,,2,0/3 1/3 1/3
slot,,,2,
reweigh,,,0000000002,02/0000000003 2/3 1/3
status,,,,
";

const REFUSED_LINES: &str = "refused 36 WrongCount
refused 36 WrongCount
refused 13 BadWorkers
refused 13 BadWorkers
refused 13 BadWorkers
refused 14 BadWeight task=1
refused 14 BadWeight task=2
refused 14 BadWeight task=0
refused 16 HyperperiodTooLarge task=2
refused 17 Overload
1 ran 0: 0 1
refused 36 WrongCount
refused 35 NotLevel task=0
2 ran 1: 0 2
3 ran 2: 1 2
4 reweighed 3
board 4 slot 3 from 3
0 alloc=0 lag=0/3 job=none
1 alloc=0 lag=0/3 job=none
2 alloc=0 lag=0/3 job=none
3 alloc=0 lag=0/3 job=none
closed 4
";

#[test]
fn new_weights_are_refused_in_order(rt: HostRuntime) {
    assert!(rt; prints(rt.alloc(), OutputForm::Text, REFUSED, REFUSED_LINES));
}

// What is recorded stays until the first unit of the new weights is answered.
const ANSWERS: &str = "slot,,,3,
submit,0,own,1,a
submit,0,own,2,b
submit,1,own,1,c
reweigh,,,2,2/3 2/3 2/3
submit,0,own,3,late
submit,0,own,1,early
show,,,,
slot,,,1,
submit,0,own,3,late
submit,0,own,2,ahead
submit,0,own,1,d
submit,0,own,1,twice
submit,2,own,0,start
show,,,,
slot,,,1,
submit,0,own,2,e
withdraw,0,,,
submit,0,own,3,ahead
submit,0,own,1,again
show,0,,,
";

const ANSWERED: &str = "1 ran 0: 0 1
2 ran 1: 0 2
3 ran 2: 1 2
4 submitted 0
5 submitted 0
6 submitted 1
7 reweighed 3
refused 45 NotNext task=0
refused 45 NotNext task=0
0 own answered=2 text=b
1 own answered=1 text=c
8 ran 3: 0 1
refused 45 NotNext task=0
refused 45 NotNext task=0
9 submitted 0
refused 45 NotNext task=0
10 submitted 2
0 own answered=1 text=d since=3
1 own answered=1 text=c
2 own answered=0 text=start since=3
11 ran 4: 0 2
12 submitted 0
13 withdrawn 0
refused 45 NotNext task=0
14 submitted 0
0 own answered=1 text=again since=3
closed 14
";

#[test]
fn answers_count_in_the_weights_in_force(rt: HostRuntime) {
    assert!(rt; prints(rt.alloc(), OutputForm::Text, ANSWERS, ANSWERED));
}

const TWICE: &str = "reweigh,,,2,2/3 2/3 2/3
submit,1,own,0,a
slot,,,3,
submit,0,own,1,b
reweigh,,,2,2/3 2/3 2/3
reweigh,,,2,2/3 2/3 2/3
slot,,,1,
submit,0,own,2,c
submit,0,own,1,d
show,,,,
";

const TWICE_OBJECTS: &str = "{\"did\":\"reweighed\",\"number\":1,\"slot\":0}
{\"did\":\"submitted\",\"number\":2,\"task\":1}
{\"did\":\"ran\",\"number\":3,\"slot\":0,\"tasks\":[0,1]}
{\"did\":\"ran\",\"number\":4,\"slot\":1,\"tasks\":[0,2]}
{\"did\":\"ran\",\"number\":5,\"slot\":2,\"tasks\":[1,2]}
{\"did\":\"submitted\",\"number\":6,\"task\":0}
{\"did\":\"reweighed\",\"number\":7,\"slot\":3}
{\"did\":\"reweighed\",\"number\":8,\"slot\":3}
{\"did\":\"ran\",\"number\":9,\"slot\":3,\"tasks\":[0,1]}
{\"refused\":{\"fields\":{\"task\":0},\"name\":\"NotNext\",\"number\":45}}
{\"did\":\"submitted\",\"number\":10,\"task\":0}
{\"answered\":1,\"job\":\"own\",\"since\":3,\"task\":0,\"text\":\"d\"}
{\"answered\":0,\"job\":\"own\",\"task\":1,\"text\":\"a\"}
{\"closed\":10}
";

#[test]
fn weights_of_slot_0_are_the_first_ones(rt: HostRuntime) {
    assert!(rt; prints(rt.alloc(), OutputForm::Json, TWICE, TWICE_OBJECTS));
}

/// Whether a task that is idle is named where it isn't level, and the weights are in force two slots later.
fn waits_for_the_idle(alloc: Global) -> bool {
    let Some(mut state) = begun(alloc, 2, &[(2, 4)]) else {
        return false;
    };
    let script = "slot,,,2,\nreweigh,,,2,1/2\nslot,,,2,\nreweigh,,,2,1/2\n";
    let want =
        "1 ran 0: 1 2\n2 ran 1: 0 1\nrefused 35 NotLevel task=1\n3 ran 2: 0 2\n4 ran 3: 1 2\n5 reweighed 4\nclosed 5\n";
    prints_as(alloc, OutputForm::Text, &mut state, script, want, Ok(()))
}

#[test]
fn idle_tasks_are_level_too(rt: HostRuntime) {
    assert!(rt; waits_for_the_idle(rt.alloc()));
}

/// Whether more workers are refused where a segment can't hold their greatest batch.
fn wants_room(alloc: Global) -> bool {
    let script = "reweigh,,,2,1/2\nreweigh,,,1,1/2\n";
    let want = "refused 19 SegmentTooSmall least=4233\n1 reweighed 0\nclosed 1\n";
    match begun_with(alloc, 1, &[(1, 2)], 4_232) {
        Some(mut state) => prints_as(alloc, OutputForm::Text, &mut state, script, want, Ok(())),
        None => false,
    }
}

#[test]
fn a_segment_has_room_for_the_new_workers(rt: HostRuntime) {
    assert!(rt; wants_room(rt.alloc()));
}

/// Whether a script stops at its second record.
fn stops_at(alloc: Global, record: &str) -> bool {
    let Some(mut state) = thirds(alloc) else {
        return false;
    };
    let Ok(script) = format!(in alloc; "settle,,,,\n{record}\nsettle,,,,\n") else {
        return false;
    };
    let end = Err(Fault::BadScript { at: 2 });
    prints_as(
        alloc,
        OutputForm::Text,
        &mut state,
        script.as_str(),
        "settled 0\n",
        end,
    )
}

/// Records that are no reweighs.
static NO_REWEIGHS: [&str; 22] = [
    "reweigh",
    "reweigh,,,2",
    "reweigh,,,2,1/3 1/3 1/3,",
    "reweigh,0,,2,1/3 1/3 1/3",
    "reweigh,,count,2,1/3 1/3 1/3",
    "reweigh,,,,1/3 1/3 1/3",
    "reweigh,,,x,1/3 1/3 1/3",
    "reweigh,,,+2,1/3 1/3 1/3",
    "reweigh,,,00000000002,1/3 1/3 1/3",
    "reweigh,,,2,",
    "reweigh,,,2,1",
    "reweigh,,,2,/",
    "reweigh,,,2,1/",
    "reweigh,,,2,/3",
    "reweigh,,,2,1/3/3",
    "reweigh,,,2,1/3  1/3 1/3",
    "reweigh,,,2, 1/3 1/3 1/3",
    "reweigh,,,2,1/3 1/3 1/3 ",
    "reweigh,,,2,1/3;1/3;1/3",
    "reweigh,,,2,1/3 -1/3 1/3",
    "reweigh,,,2,1/3 1/00000000003 1/3",
    "Reweigh,,,2,1/3 1/3 1/3",
];

#[test]
fn stops_at_a_reweigh_without_form(rt: HostRuntime) {
    for record in NO_REWEIGHS.iter() {
        assert!(rt; stops_at(rt.alloc(), record), "{record}");
    }
}
