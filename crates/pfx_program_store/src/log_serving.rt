// Running a script through a front on a store beside its log.
ghost use Rattle.std.specs.Prelude.{◌≡◌, None};
ghost use Rattle.pfx_front.specs.Starting.{Begins};
ghost use Rattle.pfx_program_store.specs.Serving.{IsServedRun};
ghost use Rattle.pfx_kinds.specs.AnyKind.{any_kind};
ghost use Rattle.pfx_log_store.specs.Working.{failure_beside};

use crate::kept::{Kept, serve_kept};
use crate::workforce::Workforce;
use pfx_crew::desk::Desk;
use pfx_disk::Disk;
use pfx_disk_chronicle::chronicle::Chronicle;
use pfx_disk_chronicle::name::Charted;
use pfx_fault::Fault;
use pfx_front::name::{Names, Since};
use pfx_jobs::quantum::{Done, Quantum};
use pfx_kinds::any::AnyJob;
use pfx_log_store::LoggedStore;
use pfx_program::{Report, Run};
use pfx_program_script::Script;
use std::alloc::Global;
use std::io::{Read, Write};
use std::marker::Brand;
use std::sync::Wait;
use std::thread::Threads;
use std::time::Clock;

/// What a run through a front leaves of a store beside its log.
#[derive(Drop)]
pub struct LoggedServed<D: Disk, L: Disk> {
    /// The store and the log.
    pub beside: LoggedStore<D, L, AnyJob>,
    /// What the run answered.
    pub result: Result<Report, Fault>,
}

// Runs a script through a front of this name, which is started for it and ended after it.
fn serve<
    I: Read + Drop,
    W: Write,
    D: Disk + Drop + Send + 'static,
    L: Disk + Drop + Send + 'static,
    B: Since<AnyJob> + Send + Sync + 'static,
    K: Desk<Quantum<AnyJob>, Done<AnyJob>> + Drop + Send + Sync + 'static,
    R: Threads + Wait + Clock + Copy + Drop + Send + Sync + 'static,
>(
    alloc: Global,
    beside: LoggedStore<D, L, AnyJob>,
    names: Names<AnyJob>,
    workforce: Workforce<K, R>,
    script: &mut Script<I>,
    run: Run,
    output: &mut W,
) -> LoggedServed<D, L>
where
    K::Seat: Drop + Send + 'static,
    requires named { (names.tokens.table.shared.table_id ≡ B.table) × (names.list.seen.book ≡ B.book) × (B.origin ≡ B.start) }
    requires calls { (names.calls.seen.book ≡ B.calls) × (names.marks.seen.book ≡ B.marks) }
    requires whole { failure_beside beside ≡ None }
    requires begins { Begins any_kind B.start B.failures B.clock B.held B.image beside.store (D.view beside.store.file.disk) }
    ensures { IsServedRun run.form run.at_refusal B.start script.old script.new.failed (W.contents output.old) (W.contents output.new)
        (D.view result.beside.store.file.disk) result.result }
{
    let (lists, calls) = names.split();
    let noted = beside.noted::<B>(calls);
    let _broken = noted.store.is_broken();
    let ran = serve_kept::<I, W, Chronicle<D, B>, B, LoggedStore<Chronicle<D, B>, L, AnyJob>, K, R>(
        alloc, lists, noted, workforce, script, run, output,
    );
    let Kept { keeper, result, .. } = ran;
    LoggedServed {
        beside: keeper.told(),
        result,
    }
}

/// Runs the records of a script that are left on a store beside its log, as `run_served` does on a store: through a front that is started
/// for it and ended after it. The flusher's thread keeps the log too.
///
/// What is printed is the same as without a log, and a printed line is a receipt as it is there. If the store's disk fails or the log can't
/// be brought up the run ends with `StoreFailed`, and its cause says which: `Device`, or `Log`.
pub fn run_logged_served<
    I: Read + Drop,
    W: Write,
    D: Disk + Drop + Send + 'static,
    L: Disk + Drop + Send + 'static,
    N: Charted,
    K: Desk<Quantum<AnyJob>, Done<AnyJob>> + Drop + Send + Sync + 'static,
    R: Threads + Wait + Clock + Copy + Drop + Send + Sync + 'static,
>(
    alloc: Global,
    beside: LoggedStore<D, L, AnyJob>,
    workforce: Workforce<K, R>,
    script: &mut Script<I>,
    run: Run,
    output: &mut W,
) -> LoggedServed<D, L>
where
    K::Seat: Drop + Send + 'static,
    requires whole { failure_beside beside ≡ None }
    requires begins { Begins any_kind beside.store.state (D.view beside.store.file.disk).failures
        (D.view beside.store.file.disk).clock N.held N.image beside.store (D.view beside.store.file.disk) }
    ensures { IsServedRun run.form run.at_refusal beside.store.state script.old script.new.failed (W.contents output.old) (W.contents output.new)
        (D.view result.beside.store.file.disk) result.result }
{
    let _broken = beside.store.is_broken();
    match Names::new(alloc) {
        Ok(names) => serve::<I, W, D, L, Brand, K, R>(
            alloc, beside, names, workforce, script, run, output,
        ),
        Err(_) => LoggedServed {
            beside,
            result: Err(Fault::NoMemory),
        },
    }
}
