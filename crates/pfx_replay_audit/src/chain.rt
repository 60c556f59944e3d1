// Logs, one behind the other.
ghost use Rattle.std.specs.Prelude.{◌<◌, length, map};
ghost use Rattle.pfx_replay.specs.Stated.{plain_of};
ghost use Rattle.pfx_replay_audit.specs.Audits.{LogsAnswer, ReadsEach};
ghost use Rattle.pfx_replay_audit.specs.Watches.{Told};

use crate::audit_fault::AuditFault;
use crate::ends::LogEnd;
use crate::log::{fold_first, fold_next};
use crate::watch::Watch;
use pfx_disk::Disk;
use pfx_jobs::job::Job;
use pfx_kinds::units::Units;
use pfx_machine::State;
use pfx_replay::PlainState;
use std::alloc::Global;

/// Folds logs, each of which goes on from the one before, up to the end of the last one, or to the first number that differs.
pub(crate) fn fold_logs<J: Job + Units, L: Disk, W: Watch<J>>(
    alloc: Global,
    logs: &mut [L],
    marks: &[PlainState<J>],
    watch: &mut W,
) -> Result<LogEnd<State<J>>, AuditFault>
    requires { 0 < length logs.old }
    ensures { ReadsEach L.view logs.old logs.new result (λ images.
        LogsAnswer J.kind J.unit (map plain_of marks.now) images (Told J.kind W.sees watch.old watch.new) result) }
{
    let end = match fold_first(alloc, &mut logs[0], marks, watch) {
        Err(fault) => return Err(AuditFault::Log { index: 0, fault }),
        Ok(end) => end,
    };
    let (mut state, mut place) = match end {
        LogEnd::Differs { number, what } => return Ok(LogEnd::Differs { number, what }),
        LogEnd::Agrees { state, place } => (state, place),
    };
    for index in 1..logs.len() {
        let end = match fold_next(alloc, &mut logs[index], &state, place.head, marks, watch) {
            Err(fault) => return Err(AuditFault::Log { index, fault }),
            Ok(end) => end,
        };
        match end {
            LogEnd::Differs { number, what } => return Ok(LogEnd::Differs { number, what }),
            LogEnd::Agrees {
                state: led,
                place: at,
            } => {
                state = led;
                place = at;
            }
        }
    }
    Ok(LogEnd::Agrees { state, place })
}
