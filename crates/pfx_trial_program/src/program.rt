//! Plans of whole set files, and what a failing reader or writer leaves.

use crate::refused_sets::REFUSED_SETS;
use crate::torn::Torn;
use pfx_fault::Fault;
use pfx_program::{OutputForm, run_plan};
use std::alloc::Global;
use std::io::{ErrorKind, Write};
use std::{io, str};

const THIRDS: &str = "workers = 2
task = [{name = \"a\", e = 2, p = 3}, {name = \"b\", e = 2, p = 3}, {name = \"c\", e = 2, p = 3}]
";

const HALF_AND_THIRD: &str = "workers = 1
task = [{name = \"x\", e = 1, p = 2}, {name = \"y\", e = 1, p = 3}]
";

const HALF_ON_TWO: &str = "workers = 2
task = [{name = \"x\", e = 1, p = 2}]
";

const MOST_ON_TWO: &str = "workers = 2
task = [{name = \"x\", e = 4, p = 5}]
";

const TWO_PERIODS: &str = "workers = 2
task = [{name = \"x\", e = 2, p = 3}, {name = \"y\", e = 2, p = 5}]
";

const FOUR_ON_THREE: &str = "workers = 3
task = [{name = \"a\", e = 2, p = 3}, {name = \"b\", e = 2, p = 3},
    {name = \"c\", e = 5, p = 6}, {name = \"d\", e = 5, p = 6}]
";

const QUARTERS_AND_EIGHTHS: &str = "workers = 1
task = [{name = \"a\", e = 1, p = 4}, {name = \"b\", e = 1, p = 4}, {name = \"c\", e = 1, p = 4},
    {name = \"d\", e = 1, p = 8}, {name = \"e\", e = 1, p = 8}]
";

const THIRDS_AND_SIXTHS: &str = "workers = 1
task = [{name = \"a\", e = 1, p = 3}, {name = \"b\", e = 1, p = 3},
    {name = \"c\", e = 1, p = 6}, {name = \"d\", e = 1, p = 6}]
";

/// Whether a plan, from a ledger's text on if there is one, writes just this and ends so.
fn plans(
    alloc: Global,
    set: &str,
    at: Option<&str>,
    slots: u64,
    want: &str,
    end: Result<(), Fault>,
) -> bool {
    let mut written = Vec::new(alloc);
    let got = run_plan(
        alloc,
        &mut set.as_bytes(),
        at,
        OutputForm::Text,
        &mut written,
        slots,
        false,
    );
    got == end && written.as_slice() == want.as_bytes()
}

/// Whether a plan writes just these objects.
fn plans_objects(alloc: Global, set: &str, slots: u64, want: &str) -> bool {
    let mut written = Vec::new(alloc);
    let mut input = set.as_bytes();
    let end = run_plan(
        alloc,
        &mut input,
        None,
        OutputForm::Json,
        &mut written,
        slots,
        false,
    );
    end.is_ok() && written.as_slice() == want.as_bytes()
}

const THIRDS_OBJECTS: &str = "{\"run\":[\"a\",\"b\"],\"slot\":0}
{\"run\":[\"a\",\"c\"],\"slot\":1}
";

const IDLE_OBJECTS: &str = "{\"run\":[\"x\",\"*0\"],\"slot\":0}
{\"run\":[\"*1\",\"*2\"],\"slot\":1}
";

#[test]
fn prints_the_rows_as_objects(rt: HostRuntime) {
    assert!(rt;
        plans_objects(rt.alloc(), THIRDS, 2, THIRDS_OBJECTS),
        "thirds"
    );
    assert!(rt;
        plans_objects(rt.alloc(), HALF_ON_TWO, 2, IDLE_OBJECTS),
        "idle tasks"
    );
    assert!(rt; plans_objects(rt.alloc(), THIRDS, 0, ""), "none");
}

/// Sets, and the rows of their first slots, by a plain program, apart from this one, that follows the definitions.
static PLANS: [(&str, u64, &str); 7] = [
    (THIRDS, 4, "0,a,b\n1,a,c\n2,b,c\n3,a,b\n"),
    (THIRDS, 0, ""),
    (HALF_AND_THIRD, 6, "0,x\n1,y\n2,x\n3,y\n4,x\n5,*0\n"),
    (HALF_ON_TWO, 4, "0,x,*0\n1,*1,*2\n2,x,*0\n3,*1,*2\n"),
    (MOST_ON_TWO, 5, "0,x,*0\n1,x,*0\n2,x,*1\n3,x,*0\n4,*0,*1\n"),
    (FOUR_ON_THREE, 4, "0,a,c,d\n1,b,c,d\n2,a,b,c\n3,a,b,d\n"),
    (
        TWO_PERIODS,
        15,
        "0,x,*0\n1,y,*0\n2,x,*0\n3,x,*0\n4,y,*0\n5,x,*0\n6,x,*0\n7,y,*0\n8,x,*0\n9,y,*0\n10,x,*0\n11,x,*0\n12,x,y\n13,x,*0\n14,y,*0\n",
    ),
];

#[test]
fn prints_the_rows(rt: HostRuntime) {
    for (set, slots, want) in PLANS.iter() {
        assert!(rt;
            plans(rt.alloc(), set, None, *slots, want, Ok(())),
            "{slots} slots of {set}"
        );
    }
}

/// Sets, ledgers, and the rows of so many slots behind them, by the same program.
static LATER_PLANS: [(&str, &str, u64, &str); 5] = [
    (THIRDS, "0:0,0,0", 2, "0,a,b\n1,a,c\n"),
    (THIRDS, "2:2,1,1", 2, "2,b,c\n3,a,b\n"),
    (HALF_AND_THIRD, "6:3,2,1", 1, "6,x\n"),
    (HALF_AND_THIRD, "0000000000006:03,2,1", 2, "6,x\n7,y\n"),
    (FOUR_ON_THREE, "2:2,2,1,1", 0, ""),
];

#[test]
fn goes_on_from_a_ledger(rt: HostRuntime) {
    for (set, at, slots, want) in LATER_PLANS.iter() {
        assert!(rt;
            plans(rt.alloc(), set, Some(at), *slots, want, Ok(())),
            "{at}"
        );
    }
}

/// What a plan that says which ledger it leaves writes, if no slot lacks a row.
fn left(
    alloc: Global,
    form: OutputForm,
    set: &str,
    at: Option<&str>,
    slots: u64,
) -> Result<Vec<u8>, Fault> {
    let mut written = Vec::new(alloc);
    run_plan(
        alloc,
        &mut set.as_bytes(),
        at,
        form,
        &mut written,
        slots,
        true,
    )?;
    Ok(written)
}

/// Whether such a plan writes just this.
fn leaves(alloc: Global, set: &str, at: Option<&str>, slots: u64, want: &str) -> bool {
    match left(alloc, OutputForm::Text, set, at, slots) {
        Ok(written) => written.as_slice() == want.as_bytes(),
        Err(_) => false,
    }
}

/// Sets, ledgers, and what is printed of so many slots and of the ledger behind them.
static LEFT: [(&str, Option<&str>, u64, &str); 6] = [
    (THIRDS, None, 2, "0,a,b\n1,a,c\n2:2,1,1\n"),
    (THIRDS, None, 0, "0:0,0,0\n"),
    (THIRDS, Some("2:2,1,1"), 0, "2:2,1,1\n"),
    (
        HALF_AND_THIRD,
        Some("0000000000006:03,2,1"),
        1,
        "6,x\n7:4,2,1\n",
    ),
    (HALF_ON_TWO, None, 1, "0,x,*0\n1:1,1,0,0\n"),
    (
        HALF_ON_TWO,
        Some("1099511627774:549755813887,549755813887,549755813887,549755813887"),
        1,
        "1099511627774,x,*0\n1099511627775:549755813888,549755813888,549755813887,549755813887\n",
    ),
];

#[test]
fn says_which_ledger_it_leaves(rt: HostRuntime) {
    for (set, at, slots, want) in LEFT.iter() {
        assert!(rt; leaves(rt.alloc(), set, *at, *slots, want), "{want}");
    }
}

/// Whether a plan that ends early says only why.
fn leaves_none(alloc: Global) -> bool {
    let mut written = Vec::new(alloc);
    let end = run_plan(
        alloc,
        &mut QUARTERS_AND_EIGHTHS.as_bytes(),
        Some("2:0,0,0,1,1"),
        OutputForm::Text,
        &mut written,
        6,
        true,
    );
    end == Err(Fault::TooManyUrgent { urgent: 2, m: 1 }) && written.as_slice() == "2,a\n".as_bytes()
}

/// Whether such a plan writes these objects.
fn leaves_object(alloc: Global, want: &str) -> bool {
    match left(alloc, OutputForm::Json, THIRDS, Some("2:2,1,1"), 1) {
        Ok(written) => written.as_slice() == want.as_bytes(),
        Err(_) => false,
    }
}

#[test]
fn leaves_a_ledger_as_an_object_or_none(rt: HostRuntime) {
    let want = "{\"run\":[\"b\",\"c\"],\"slot\":2}\n{\"ledger\":\"3:2,2,2\"}\n";
    assert!(rt; leaves_object(rt.alloc(), want), "an object");
    assert!(rt; leaves_none(rt.alloc()), "none");
}

/// Where the last line of a text begins.
fn last_line(text: &str) -> Option<(&str, &str)> {
    let body = text.strip_suffix("\n")?;
    match body.rsplit_once('\n') {
        Some((_, line)) => Some((&text[..body.len() - line.len()], line)),
        None => Some(("", body)),
    }
}

/// Whether a plan in two parts, of these slots each, has the lines of the whole plan.
fn goes_on_where_it_ended(alloc: Global, set: &str, first: u64, second: u64) -> Option<bool> {
    let one = left(alloc, OutputForm::Text, set, None, first).ok()?;
    let (front, line) = last_line(str::from_utf8(one.as_slice()).ok()?)?;
    let two = left(alloc, OutputForm::Text, set, Some(line), second).ok()?;
    let whole = left(
        alloc,
        OutputForm::Text,
        set,
        None,
        first.checked_add(second)?,
    )
    .ok()?;
    let mut parts = String::from_str(alloc, front).ok()?;
    parts.push_str(str::from_utf8(two.as_slice()).ok()?).ok()?;
    Some(parts.as_bytes() == whole.as_slice())
}

#[test]
fn goes_on_in_parts(rt: HostRuntime) {
    for set in [
        THIRDS,
        HALF_AND_THIRD,
        HALF_ON_TWO,
        TWO_PERIODS,
        FOUR_ON_THREE,
    ] {
        for (first, second) in [(0, 3), (1, 1), (3, 4), (7, 20), (29, 31)] {
            assert!(rt;
                goes_on_where_it_ended(rt.alloc(), set, first, second) == Some(true),
                "{first} and {second} slots of {set}"
            );
        }
    }
}

/// Sets, ledgers, and what is printed up to this fault.
static ENDS: [(&str, &str, &str, Fault); 4] = [
    (
        QUARTERS_AND_EIGHTHS,
        "2:0,0,0,1,1",
        "2,a\n",
        Fault::TooManyUrgent { urgent: 2, m: 1 },
    ),
    (
        FOUR_ON_THREE,
        "2:2,2,1,1",
        "",
        Fault::TooFewEligible { eligible: 2, m: 3 },
    ),
    (
        HALF_ON_TWO,
        "1099511627775:549755813887,549755813888,549755813887,549755813888",
        "",
        Fault::SlotLimit,
    ),
    (
        HALF_ON_TWO,
        "1099511627774:549755813887,549755813887,549755813887,549755813887",
        "1099511627774,x,*0\n",
        Fault::SlotLimit,
    ),
];

#[test]
fn ends_early_from_a_ledger(rt: HostRuntime) {
    for (set, at, want, fault) in ENDS.iter() {
        assert!(rt;
            plans(rt.alloc(), set, Some(at), 6, want, Err(*fault)),
            "{at}"
        );
    }
}

/// Sets and texts that are no ledgers of them.
static NO_LEDGERS: [(&str, &str, Fault); 20] = [
    (
        THIRDS_AND_SIXTHS,
        "2:0,0,2,0",
        Fault::OutOfRange { task: 2 },
    ),
    (THIRDS_AND_SIXTHS, "2:0,0,1,0", Fault::WrongSum),
    (HALF_AND_THIRD, "6:3,2", Fault::BadLedger),
    (HALF_AND_THIRD, "6:3,2,1,0", Fault::BadLedger),
    (HALF_AND_THIRD, "", Fault::BadLedger),
    (HALF_AND_THIRD, "6", Fault::BadLedger),
    (HALF_AND_THIRD, "6:", Fault::BadLedger),
    (HALF_AND_THIRD, ":3,2,1", Fault::BadLedger),
    (HALF_AND_THIRD, "6:3,2,1,", Fault::BadLedger),
    (HALF_AND_THIRD, "6:3,,1", Fault::BadLedger),
    (HALF_AND_THIRD, "6:3,2,-1", Fault::BadLedger),
    (HALF_AND_THIRD, "+6:3,2,1", Fault::BadLedger),
    (HALF_AND_THIRD, "6: 3,2,1", Fault::BadLedger),
    (HALF_AND_THIRD, "6:3:2,1", Fault::BadLedger),
    (HALF_AND_THIRD, "6,3,2,1", Fault::BadLedger),
    (HALF_AND_THIRD, "00000000000006:3,2,1", Fault::BadLedger),
    (HALF_AND_THIRD, "6:3,2,00000000000001", Fault::BadLedger),
    (HALF_AND_THIRD, "1099511627776:3,2,1", Fault::BadLedger),
    ("workers = 1", "6", Fault::NoTasks),
    ("workers = ", "6", Fault::BadSet),
];

#[test]
fn refuses_a_ledger(rt: HostRuntime) {
    for (set, at, fault) in NO_LEDGERS.iter() {
        assert!(rt;
            plans(rt.alloc(), set, Some(at), 1, "", Err(*fault)),
            "{at} of {set}"
        );
    }
}

#[test]
fn refuses_with_no_line(rt: HostRuntime) {
    for (set, fault) in REFUSED_SETS.iter() {
        assert!(rt; plans(rt.alloc(), set, None, 3, "", Err(*fault)), "{set}");
    }
}

/// Whether a plan of a set that is read in part writes nothing. The first bytes alone would be a set.
fn reads_no_part(alloc: Global) -> bool {
    let mut input = Torn {
        left: THIRDS.as_bytes(),
    };
    let mut written = Vec::new(alloc);
    let end = run_plan(
        alloc,
        &mut input,
        None,
        OutputForm::Text,
        &mut written,
        4,
        false,
    );
    end == Err(Fault::InputFailed) && written.is_empty()
}

#[test]
fn reader_fails_in_the_middle(rt: HostRuntime) {
    assert!(rt; reads_no_part(rt.alloc()));
}

/// A writer that takes one byte at a time, is interrupted before each, and is full at last.
#[derive(Drop)]
struct Narrow {
    held: [u8; 8],
    len: usize,
    interrupts: bool,
}

impl Write for Narrow {
    fn write(&mut self, buf: &[u8]) -> io::Result<usize> {
        self.interrupts = !self.interrupts;
        if self.interrupts {
            return Err(io::Error::from(ErrorKind::Interrupted));
        }
        if buf.is_empty() || self.len >= 8 {
            return Ok(0);
        }
        self.held[self.len] = buf[0];
        self.len += 1;
        Ok(1)
    }

    fn flush(&mut self) -> io::Result<()> {
        Ok(())
    }
}

/// Whether a plan that isn't taken to its end has written its beginning.
fn writes_the_beginning(alloc: Global) -> bool {
    let mut output = Narrow {
        held: [0; 8],
        len: 0,
        interrupts: false,
    };
    let end = run_plan(
        alloc,
        &mut THIRDS.as_bytes(),
        None,
        OutputForm::Text,
        &mut output,
        4,
        false,
    );
    end == Err(Fault::OutputFailed) && output.held == *b"0,a,b\n1,"
}

#[test]
fn writer_fails_in_the_middle(rt: HostRuntime) {
    assert!(rt; writes_the_beginning(rt.alloc()));
}
