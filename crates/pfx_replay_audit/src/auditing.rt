// A whole history.
ghost use Rattle.std.specs.Prelude.{◌≡◌, ◌<◌, length, map};
ghost use Rattle.std.specs.Option.{option_copied};
ghost use Rattle.pfx_replay.specs.Stated.{plain_of};
ghost use Rattle.pfx_replay_audit.specs.Audits.{AuditAnswer, EndAnswer, FileAnswer, ReadsEach};
ghost use Rattle.pfx_replay_audit.specs.Histories.{marks_in};
ghost use Rattle.pfx_replay_audit.specs.Watches.{Told};

use crate::audit_fault::AuditFault;
use crate::behind::fold_behind;
use crate::chain::fold_logs;
use crate::ends::{HistoryEnd, LogEnd};
use crate::file::FileHistory;
use crate::file_fault::FileFault;
use crate::watch::Watch;
use pfx_disk::Disk;
use pfx_jobs::job::Job;
use pfx_kinds::units::Units;
use pfx_log::LogPlace;
use pfx_machine::State;
use pfx_replay::{PlainState, Verdict};
use std::alloc::Global;

// The states that a store's file holds: none, if there is no file.
fn marks_in<'a, J>(file: Option<&'a FileHistory<J>>) -> &'a [PlainState<J>]
    ensures { map plain_of result.now ≡ marks_in (option_copied file.entry) }
{
    match file {
        None => &[],
        Some(file) => &file.marks,
    }
}

// What a store's file has behind a state: nothing, if there is no file.
fn judge_end<J: Job + Units, W: Watch<J>>(
    alloc: Global,
    from: &State<J>,
    file: Option<&FileHistory<J>>,
    watch: &mut W,
) -> Result<Verdict, FileFault>
    ensures { FileAnswer J.kind J.unit (Told J.kind W.sees watch.old watch.new) (option_copied file.entry) from.now result }
{
    match file {
        None => Ok(Verdict::Agrees {
            number: from.number(),
        }),
        Some(file) => fold_behind(alloc, from, file.begin, &file.records, &file.marks, watch),
    }
}

// The end of a history whose logs agree, and end at a state and a place.
fn end_from<J: Job + Units, W: Watch<J>>(
    alloc: Global,
    from: &State<J>,
    log: LogPlace,
    file: Option<&FileHistory<J>>,
    watch: &mut W,
) -> Result<HistoryEnd, AuditFault>
    ensures { EndAnswer J.kind J.unit (Told J.kind W.sees watch.old watch.new) (option_copied file.entry) from.now log result }
{
    match judge_end(alloc, from, file, watch) {
        Err(fault) => Err(AuditFault::File(fault)),
        Ok(Verdict::Agrees { number }) => Ok(HistoryEnd::Agrees { number, log }),
        Ok(Verdict::Differs { number, what }) => Ok(HistoryEnd::Differs { number, what }),
    }
}

/// Audits a history: logs in their order, one at least, and what a store's file has behind them, if there is one.
///
/// The answer is that all agrees, with the last number of all and the place where the last log ends, or the first number that differs and
/// what differs there: a record, a state that the file holds, or the state that a further log begins at. A fault says which log isn't read
/// or isn't the next one, and why, or why the file isn't the history's end; all before it agrees. If all agrees, `watch` was told of all
/// records, each once and in their order, block by block and then the file's, each part with the state that it stands behind. One block is
/// in memory at a time, and nothing is written.
pub fn audit<J: Job + Units, L: Disk, W: Watch<J>>(
    alloc: Global,
    logs: &mut [L],
    file: Option<&FileHistory<J>>,
    watch: &mut W,
) -> Result<HistoryEnd, AuditFault>
    requires { 0 < length logs.old }
    ensures { ReadsEach L.view logs.old logs.new result (λ images.
        AuditAnswer J.kind J.unit images (option_copied file.entry) (Told J.kind W.sees watch.old watch.new) result) }
{
    match fold_logs(alloc, logs, marks_in(file), watch)? {
        LogEnd::Differs { number, what } => Ok(HistoryEnd::Differs { number, what }),
        LogEnd::Agrees { state, place } => end_from(alloc, &state, place, file, watch),
    }
}
