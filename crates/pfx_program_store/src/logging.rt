// Running a script on a store beside its log, the calls of whose disk are noted.
ghost use Rattle.std.specs.Prelude.{◌≡◌, None};
ghost use Rattle.pfx_disk.specs.Disk.{IsHonest, Only};
ghost use Rattle.pfx_program_store.specs.Noting.{IsNotedRun};
ghost use Rattle.pfx_kinds.specs.AnyKind.{any_kind};
ghost use Rattle.pfx_program_store.specs.Causes.{IsDiskOrLog};
ghost use Rattle.pfx_store.specs.Noting.{IsHeldBy};
ghost use Rattle.pfx_log_store.specs.Working.{failure_beside};

use crate::running::run_durable;
use pfx_disk::Disk;
use pfx_disk_chronicle::chronicle::Logged;
use pfx_disk_chronicle::list::{Moment, UnnamedCalls};
use pfx_disk_chronicle::name::Charted;
use pfx_fault::Fault;
use pfx_kinds::any::AnyJob;
use pfx_log_store::LoggedStore;
use pfx_program::{Report, Run};
use pfx_program_script::Script;
use pfx_store_engine::DurableEngine;
use std::alloc::Global;
use std::io::{Read, Write};

/// What a run leaves on a store beside its log, whose disk's calls were noted.
#[derive(Drop)]
pub struct LoggedRun<D: Disk, L: Disk, B: Charted> {
    /// The store, on its own disk, and the log.
    pub beside: LoggedStore<D, L, AnyJob>,
    /// The calls that the run made on the store's disk.
    pub moment: Moment<B>,
    /// What the run answered.
    pub result: Result<Report, Fault>,
}

/// Runs the records of a script that are left on a store beside its log, as `run_durable` does, and notes the calls that are made on the store's disk in a
/// list of this name. `B` says what that disk held when the store was opened, and what the premise of that is.
///
/// A printed line is a receipt: whatever the run answers, if the disk held these bytes, each image that a stop may leave behind
/// the calls that were made on it is recovered to the outcome of a beginning of the script's accepted commands which holds every command
/// whose line was printed. An honest disk is shown to have held them, and a stop leaves no other image on it; of a file it is the premise.
///
/// If the store's disk fails or the log can't be brought up the run ends with `StoreFailed`, and its cause says which: `Device`, or `Log`.
pub fn run_logged<R: Read + Drop, W: Write, D: Disk, L: Disk, B: Charted>(
    alloc: Global,
    list: UnnamedCalls,
    beside: LoggedStore<D, L, AnyJob>,
    script: &mut Script<R>,
    run: Run,
    output: &mut W,
) -> LoggedRun<D, L, B>
    requires list { list.seen.book ≡ B.calls }
    requires whole { failure_beside beside ≡ None }
    requires moment { ((D.view beside.store.file.disk).clock ≡ B.clock) × ((D.view beside.store.file.disk).failures ≡ B.failures) }
    requires honest { IsHonest (D.view beside.store.file.disk)
        → B.held × ((D.view beside.store.file.disk).contents ≡ B.image) × Only B.image (D.view beside.store.file.disk) }
    requires held { B.held → IsHeldBy any_kind beside.store B.image }
    ensures ran { IsNotedRun IsDiskOrLog run.form run.at_refusal beside.store.state script.old script.new.failed (W.contents output.old) (W.contents output.new)
        B.held B.image result.moment (D.view result.beside.store.file.disk) result.beside.store.state result.result }
{
    let noted = beside.noted::<B>(list);
    let _broken = noted.store.is_broken();
    match DurableEngine::new(alloc, noted) {
        Err((_, back)) => LoggedRun {
            moment: back.store.disk().moment(),
            beside: back.told(),
            result: Err(Fault::NoMemory),
        },
        Ok(mut engine) => {
            let result = run_durable(alloc, script, run, output, &mut engine);
            let after = engine.into_keeper();
            LoggedRun {
                moment: after.store.disk().moment(),
                beside: after.told(),
                result,
            }
        }
    }
}
