//! The refusals as a reader of the output sees them.

use pfx_fault::{Cause, Fault, Part, Refused, put_fault};
use std::alloc::Global;

/// A refusal, the exit status and the text, as the table of refusals has them.
static ROWS: [(Fault, u8, &str); 47] = [
    (Fault::BadSet, 3, "10 BadSet"),
    (Fault::NoTasks, 3, "11 NoTasks"),
    (Fault::TooManyTasks, 3, "12 TooManyTasks"),
    (Fault::BadWorkers, 3, "13 BadWorkers"),
    (Fault::BadWeight { task: 0 }, 3, "14 BadWeight task=0"),
    (
        Fault::HyperperiodTooLarge { task: 1023 },
        3,
        "16 HyperperiodTooLarge task=1023",
    ),
    (Fault::Overload, 3, "17 Overload"),
    (
        Fault::SegmentTooSmall { least: 4233 },
        3,
        "19 SegmentTooSmall least=4233",
    ),
    (Fault::SegmentTooLarge, 3, "20 SegmentTooLarge"),
    (
        Fault::TooManyUrgent { urgent: 3, m: 2 },
        3,
        "21 TooManyUrgent urgent=3 m=2",
    ),
    (
        Fault::TooFewEligible {
            eligible: 63,
            m: 64,
        },
        3,
        "22 TooFewEligible eligible=63 m=64",
    ),
    (Fault::SlotLimit, 3, "23 SlotLimit"),
    (Fault::OutOfRange { task: 7 }, 3, "24 OutOfRange task=7"),
    (Fault::WrongSum, 3, "25 WrongSum"),
    (Fault::BadLedger, 3, "26 BadLedger"),
    (
        Fault::NoSuchTask { task: 65535 },
        4,
        "31 NoSuchTask task=65535",
    ),
    (Fault::TaskBusy { task: 0 }, 4, "32 TaskBusy task=0"),
    (Fault::NoJob { task: 1 }, 4, "33 NoJob task=1"),
    (Fault::NumberLimit, 4, "34 NumberLimit"),
    (Fault::NotLevel { task: 2 }, 4, "35 NotLevel task=2"),
    (Fault::WrongCount, 4, "36 WrongCount"),
    (Fault::BadKind, 4, "41 BadKind"),
    (Fault::BadGoal, 4, "42 BadGoal"),
    (Fault::BadData, 4, "43 BadData"),
    (Fault::NotAStore, 4, "51 NotAStore"),
    (
        Fault::Damaged {
            at: 3020,
            what: Part::Frame,
        },
        4,
        "52 Damaged at=3020 what=Frame",
    ),
    (
        Fault::Damaged {
            at: 0,
            what: Part::Header,
        },
        4,
        "52 Damaged at=0 what=Header",
    ),
    (
        Fault::Damaged {
            at: 19394,
            what: Part::Length,
        },
        4,
        "52 Damaged at=19394 what=Length",
    ),
    (Fault::Device, 4, "53 Device"),
    (Fault::Broken, 4, "54 Broken"),
    (
        Fault::WrongVersion { version: 9 },
        4,
        "55 WrongVersion version=9",
    ),
    (Fault::NotEmpty, 4, "56 NotEmpty"),
    (Fault::NoRoom, 4, "57 NoRoom"),
    (Fault::Busy, 4, "58 Busy"),
    (
        Fault::StoreFailed {
            marked: 4,
            cause: Cause::Device,
        },
        4,
        "61 StoreFailed marked=4 cause=Device",
    ),
    (
        Fault::StoreFailed {
            marked: 0,
            cause: Cause::Memory,
        },
        4,
        "61 StoreFailed marked=0 cause=Memory",
    ),
    (
        Fault::StoreFailed {
            marked: 9,
            cause: Cause::Log,
        },
        4,
        "61 StoreFailed marked=9 cause=Log",
    ),
    (Fault::SessionFull, 4, "64 SessionFull"),
    (Fault::NoThread, 4, "68 NoThread"),
    (
        Fault::BadScript {
            at: 18446744073709551615,
        },
        7,
        "71 BadScript at=18446744073709551615",
    ),
    (Fault::InputFailed, 8, "72 InputFailed"),
    (Fault::OutputFailed, 8, "73 OutputFailed"),
    (
        Fault::LogGap { log: 40, file: 97 },
        4,
        "74 LogGap log=40 file=97",
    ),
    (Fault::NotALog, 4, "75 NotALog"),
    (Fault::LogDamaged { at: 4205 }, 4, "76 LogDamaged at=4205"),
    (
        Fault::WrongLogVersion { version: 2 },
        4,
        "77 WrongLogVersion version=2",
    ),
    (Fault::NoMemory, 5, "90 NoMemory"),
];

/// Whether a refusal's line is this text after `pfx: error`.
fn has_line(alloc: Global, fault: &Fault, text: &str) -> bool {
    let mut written = Vec::new(alloc);
    if put_fault(&mut written, *fault).is_err() {
        return false;
    }
    match format!(in alloc; "pfx: error {text}\n") {
        Ok(line) => written.as_slice() == line.as_bytes(),
        Err(_) => false,
    }
}

/// Whether a refused command is shown by this text after `refused`.
fn is_shown(alloc: Global, fault: &Fault, text: &str) -> Option<bool> {
    let shown = format!(in alloc; "{}", Refused(*fault)).ok()?;
    let refused = format!(in alloc; "refused {text}").ok()?;
    Some(shown.as_str() == refused.as_str())
}

/// Whether the text begins with the refusal's number and name.
fn is_front(alloc: Global, fault: &Fault, text: &str) -> bool {
    match format!(in alloc; "{} {}", fault.number(), fault.name()) {
        Ok(front) => text.starts_with(front.as_str()),
        Err(_) => false,
    }
}

/// Whether a refusal is shown by this text in each place, and has this exit status.
fn is_right(alloc: Global, fault: &Fault, status: u8, text: &str) -> bool {
    has_line(alloc, fault, text)
        && is_shown(alloc, fault, text) == Some(true)
        && is_front(alloc, fault, text)
        && fault.status() == status
}

#[test]
fn prints_each_refusal(rt: HostRuntime) {
    for (fault, status, text) in ROWS.iter() {
        assert!(rt; is_right(rt.alloc(), fault, *status, text), "{text}");
    }
}

/// Whether a part is shown by this name.
fn is_named(alloc: Global, part: Part, name: &str) -> bool {
    match format!(in alloc; "{part}") {
        Ok(shown) => shown.as_str() == name,
        Err(_) => false,
    }
}

/// Parts, and their names.
static PARTS: [(Part, &str); 6] = [
    (Part::Header, "Header"),
    (Part::Length, "Length"),
    (Part::Checkpoint, "Checkpoint"),
    (Part::Segment, "Segment"),
    (Part::Frame, "Frame"),
    (Part::Record, "Record"),
];

#[test]
fn names_each_part(rt: HostRuntime) {
    for (part, name) in PARTS.iter() {
        assert!(rt; is_named(rt.alloc(), *part, name), "{name}");
    }
}
