//! Scripts as users write them, and what a failing reader leaves.

use crate::torn::Torn;
use csv::StringRecord;
use pfx_fault::Fault;
use pfx_program_script::{Script, Verb, read_verb};
use std::alloc::Global;
use std::io::Read;

/// Whether the script asks for this, in turn.
fn asks<R: Read + Drop>(
    script: &mut Script<R>,
    row: &mut StringRecord,
    verbs: &[Verb<'_>],
) -> bool {
    for want in verbs {
        if script.next(row) != Ok(true) || read_verb(row) != Some(*want) {
            return false;
        }
    }
    true
}

/// Whether the script then ends, or stops by this fault.
fn ends<R: Read + Drop>(
    script: &mut Script<R>,
    row: &mut StringRecord,
    end: Result<(), Fault>,
) -> bool {
    match script.next(row) {
        Ok(false) => end == Ok(()),
        Ok(true) => {
            read_verb(row).is_none() && end == Err(Fault::BadScript { at: script.place() })
        }
        Err(fault) => end == Err(fault),
    }
}

/// Whether the script asks for this, in turn, and then ends or stops by this fault.
fn reads<R: Read + Drop>(
    alloc: Global,
    input: R,
    verbs: &[Verb<'_>],
    end: Result<(), Fault>,
) -> bool {
    let mut script = Script::new(alloc, input);
    let mut row = StringRecord::new(alloc);
    asks(&mut script, &mut row, verbs) && ends(&mut script, &mut row, end)
}

const EACH: &str = "\u{feff}submit,0,rule,3,110:00000001
slot,,,3,

slot,,,,
\"withdraw\",65535,,,\r
settle,,,,
submit,00001,\"a,b\",9999999999,\"say \"\"so\"\"\"
slot,,,0001048576,
show,,,,
show,00007,,,
reweigh,,,0002,1/2 4294967296/03
status,,,,";

/// Whether the script of all verbs is read.
fn reads_each_verb(alloc: Global) -> bool {
    let first = Verb::Submit {
        task: 0,
        kind: "rule",
        goal: 3,
        text: "110:00000001",
    };
    let second = Verb::Submit {
        task: 1,
        kind: "a,b",
        goal: 9_999_999_999,
        text: "say \"so\"",
    };
    let verbs = [
        first,
        Verb::Slot { count: 3 },
        Verb::Slot { count: 1 },
        Verb::Withdraw { task: 65_535 },
        Verb::Settle,
        second,
        Verb::Slot { count: 1_048_576 },
        Verb::Show { task: None },
        Verb::Show { task: Some(7) },
        Verb::Reweigh {
            workers: 2,
            weights: "1/2 4294967296/03",
        },
        Verb::Status,
    ];
    reads(alloc, EACH.as_bytes(), &verbs, Ok(()))
}

#[test]
fn reads_verbs(rt: HostRuntime) {
    assert!(rt; reads_each_verb(rt.alloc()));
}

#[test]
fn reads_no_records(rt: HostRuntime) {
    for script in ["", "\n", "\r\n\n", "\u{feff}"] {
        assert!(rt;
            reads(rt.alloc(), script.as_bytes(), &[], Ok(())),
            "{script:?}"
        );
    }
}

/// A script whose second record is this one.
fn script_with(alloc: Global, record: &[u8]) -> Option<Vec<u8>> {
    let mut script = Vec::new(alloc);
    script.extend_from_slice(b"settle,,,,\n\n").ok()?;
    script.extend_from_slice(record).ok()?;
    script.extend_from_slice(b"\nstatus,,,,\n").ok()?;
    Some(script)
}

/// Whether a script stops at this record.
fn stops_at(alloc: Global, record: &[u8]) -> bool {
    match script_with(alloc, record) {
        Some(script) => {
            let end = Err(Fault::BadScript { at: 2 });
            reads(alloc, script.as_slice(), &[Verb::Settle], end)
        }
        None => false,
    }
}

/// Records without a form.
static NO_RECORDS: [&[u8]; 31] = [
    b"status",
    b"status,,,",
    b"status,,,,,",
    b"\"\"",
    b",,,,",
    b"Status,,,,",
    b" status,,,,",
    b"status,0,,,",
    b"settle,,,1,",
    b"settle,,x,,",
    b"slot,0,,3,",
    b"slot,,,3,x",
    b"slot,,,0,",
    b"slot,,,1048577,",
    b"slot,,,-1,",
    b"slot,,,00000000001,",
    b"withdraw,,,,",
    b"withdraw,65536,,,",
    b"withdraw,000001,,,",
    b"show",
    b"show,,,",
    b"show,a,,,",
    b"show,65536,,,",
    b"show,,count,,",
    b"show,0,,1,",
    b"show,0,,,x",
    b"submit,,rule,3,110:000",
    b"submit,+1,rule,3,110:000",
    b"submit,1,rule,12345678901,110:000",
    b"submit,1,rule,x,110:000",
    b"submit,1,\xff,3,110:000",
];

#[test]
fn stops_at_a_record_without_form(rt: HostRuntime) {
    for (at, record) in NO_RECORDS.iter().enumerate() {
        assert!(rt; stops_at(rt.alloc(), record), "record {at}");
    }
}

/// Whether a script is read up to where its reader fails.
fn stops_where_reader_fails(alloc: Global) -> bool {
    let input = Torn {
        left: b"settle,,,,\nstatus,,,",
    };
    reads(alloc, input, &[Verb::Settle], Err(Fault::InputFailed))
}

/// Whether a reader that always fails is told of each time.
fn tells_each_time(alloc: Global) -> bool {
    let mut script = Script::new(alloc, Torn { left: b"" });
    let mut row = StringRecord::new(alloc);
    for _ in 0..3 {
        if script.next(&mut row) != Err(Fault::InputFailed) {
            return false;
        }
    }
    true
}

#[test]
fn reader_fails_in_the_middle(rt: HostRuntime) {
    assert!(rt; stops_where_reader_fails(rt.alloc()));
    assert!(rt; tells_each_time(rt.alloc()));
}
