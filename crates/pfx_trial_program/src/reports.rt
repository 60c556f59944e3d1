//! What a run of a script counts, and where it ends if it ends at a refusal.

use crate::runs::run_of;
use crate::scripts::{thirds, written_by};
use pfx_fault::Fault;
use pfx_program::{AtRefusal, OutputForm, RefusedRecord, Report};
use std::alloc::Global;

/// Records that are refused behind slots, alone and in a group, and one that shows no job.
const MIXED: &str =
    "slot,,,2,\nwithdraw,0,,,\nshow,1,,,\nsubmit,0,count,5,\nwithdraw,1,,,\nwithdraw,7,,,\n";

/// What it prints if it goes on.
const WHOLE: &str =
    "1 ran 0: 0 1\n2 ran 1: 0 2\nrefused 33 NoJob task=0\nrefused 33 NoJob task=1\n3 submitted 0\nrefused 33 NoJob task=1\nrefused 31 NoSuchTask task=7\nclosed 3\n";

/// What it prints if it ends at a refusal.
const FRONT: &str = "1 ran 0: 0 1\n2 ran 1: 0 2\nrefused 33 NoJob task=0\nclosed 2\n";

/// Whether three tasks of 2/3 are run so, and it is reported so, with windows and groups of this size.
fn runs(
    alloc: Global,
    script: &str,
    size: u32,
    at_refusal: AtRefusal,
    want: &str,
    report: Report,
) -> bool {
    let Some(mut state) = thirds(alloc) else {
        return false;
    };
    let run = run_of(size, at_refusal, OutputForm::Text);
    let (written, end) = written_by(alloc, run, &mut state, script.as_bytes());
    end == Ok(report) && written.as_slice() == want.as_bytes()
}

/// A report of so many commands and records, the first of which was refused so.
fn counted(accepted: u32, refused: u64, at: u64, fault: Fault) -> Report {
    Report {
        accepted,
        refused,
        first: Some(RefusedRecord { at, fault }),
    }
}

#[test]
fn a_run_reports_its_refusals(rt: HostRuntime) {
    let report = counted(3, 4, 2, Fault::NoJob { task: 0 });
    for size in 0..18 {
        assert!(rt;
            runs(rt.alloc(), MIXED, size, AtRefusal::GoOn, WHOLE, report),
            "{size} at once"
        );
    }
}

#[test]
fn a_run_ends_at_a_refusal(rt: HostRuntime) {
    let report = counted(2, 1, 2, Fault::NoJob { task: 0 });
    for size in 0..18 {
        assert!(rt;
            runs(rt.alloc(), MIXED, size, AtRefusal::End, FRONT, report),
            "{size} at once"
        );
    }
}

#[test]
fn a_run_without_refusals_reports_none(rt: HostRuntime) {
    let report = Report {
        accepted: 2,
        refused: 0,
        first: None,
    };
    let lines = "1 submitted 0\n2 ran 0: 0 1\nclosed 2\n";
    for at_refusal in [AtRefusal::GoOn, AtRefusal::End] {
        assert!(rt;
            runs(
                rt.alloc(),
                "submit,0,count,5,\nslot,,,,\n",
                16,
                at_refusal,
                lines,
                report
            ),
            "{at_refusal:?}"
        );
    }
}
