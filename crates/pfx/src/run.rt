//! `pfx run FILE SCRIPT`.

ghost use Rattle.std.specs.Prelude.{◌≡◌, ℕ, List, unwrap_or, None};
ghost use Rattle.pfx_disk.specs.File.{file_view};
ghost use Rattle.pfx_front.specs.Starting.{Begins};
ghost use Rattle.pfx_kinds.specs.AnyKind.{any_kind};
ghost use Rattle.pfx_log_store.specs.Working.{failure_beside};
ghost use Rattle.pfx_store.specs.Noting.{IsHeldBy};

use crate::files::{Source, disk, input};
use crate::log::beside;
use crate::process::Process;
use crate::progress::Told;
use crate::store::opened;
use crate::traces::Traces;
use pfx_crew::channel::ChannelDesk;
use pfx_disk::FileDisk;
use pfx_disk_chronicle::list::UnnamedCalls;
use pfx_disk_chronicle::name::Charted;
use pfx_fault::{Cause, Fault};
use pfx_front_engine::engine::WINDOW;
use pfx_jobs::quantum::{Done, Quantum};
use pfx_kinds::any::AnyJob;
use pfx_log_store::LoggedStore;
use pfx_program::{AtRefusal, OutputForm, Report, Run, level_slot};
use pfx_program_script::{Script, Whole};
use pfx_program_store::{Workforce, run_logged, run_logged_served, run_noted, run_served};
use pfx_store::Store;
use std::alloc::Global;
use std::marker::Brand;
use std::sync::Wait;
use std::thread::Threads;
use std::time::Clock;

// The desk of a front's workers.
type JobDesk = ChannelDesk<Quantum<AnyJob>, Done<AnyJob>>;

/// The most records of a script that share a commit.
const GROUP: u32 = 16;

// Runs a script on a store by one thread. The name says which bytes the file held when it was opened: that they stand for the store is
// the premise of each printed line.
fn run_alone<N: Charted>(
    process: Process<'_>,
    list: UnnamedCalls,
    store: Store<FileDisk, AnyJob>,
    script: &mut Script<Whole<Source>>,
    run: Run,
) -> Result<(), Fault>
    requires list { list.seen.book ≡ N.calls }
    requires begins { Begins any_kind store.state N.failures N.clock N.held N.image store (file_view store.file.disk) }
{
    let mut output = Told::new(process.rt, process.alloc, process.output(), "lines", None);
    let ran = run_noted::<_, _, FileDisk, N>(process.alloc, list, store, script, run, &mut output);
    output.clear();
    process.traces.keep_said(ran.store.disk());
    process
        .traces
        .level
        .set(Some(level_slot(ran.store.state())));
    process.traces.keep_report(ran.result)
}

// Whether it is the log that ended a run.
fn is_of_log(answer: &Result<Report, Fault>) -> bool {
    match answer {
        Err(Fault::StoreFailed { cause, .. }) => *cause == Cause::Log,
        _ => false,
    }
}

// Leaves what the system said of the disk that failed, and what the run answered.
fn leave_beside(
    beside: &LoggedStore<FileDisk, FileDisk, AnyJob>,
    answer: Result<Report, Fault>,
    traces: &Traces,
) -> Result<(), Fault> {
    let is_log = is_of_log(&answer);
    traces.at_log.set(is_log);
    traces.keep_said(if is_log {
        &beside.log.disk
    } else {
        beside.store.disk()
    });
    traces.level.set(Some(level_slot(beside.store.state())));
    traces.keep_report(answer)
}

// Runs a script on a store beside its log by one thread, as `run_alone` does on a store.
fn run_beside<N: Charted>(
    process: Process<'_>,
    list: UnnamedCalls,
    beside: LoggedStore<FileDisk, FileDisk, AnyJob>,
    script: &mut Script<Whole<Source>>,
    run: Run,
) -> Result<(), Fault>
    requires list { list.seen.book ≡ N.calls }
    requires whole { failure_beside beside ≡ None }
    requires begins { Begins any_kind beside.store.state N.failures N.clock N.held N.image beside.store (file_view beside.store.file.disk) }
{
    let mut output = Told::new(process.rt, process.alloc, process.output(), "lines", None);
    let ran = run_logged::<_, _, FileDisk, FileDisk, N>(
        process.alloc,
        list,
        beside,
        script,
        run,
        &mut output,
    );
    output.clear();
    leave_beside(&ran.beside, ran.result, process.traces)
}

// Runs a script on a store by so many workers. The name says which bytes the file held when it was opened: that they stand for the
// store is the premise of each receipt.
fn run_by<N: Charted, R: Threads + Wait + Clock + Copy + Drop + Send + Sync + 'static>(
    process: Process<'_>,
    threads: R,
    store: Store<FileDisk, AnyJob>,
    workers: u32,
    script: &mut Script<Whole<Source>>,
    run: Run,
) -> Result<(), Fault>
    requires begins { Begins any_kind store.state (file_view store.file.disk).failures
        (file_view store.file.disk).clock N.held N.image store (file_view store.file.disk) }
{
    let Ok(desk) = JobDesk::new(process.alloc) else {
        return Err(Fault::NoMemory);
    };
    let mut output = Told::new(process.rt, process.alloc, process.output(), "lines", None);
    let workforce = Workforce {
        threads,
        desk,
        workers,
    };
    let served = run_served::<_, _, FileDisk, N, JobDesk, R>(
        process.alloc,
        store,
        workforce,
        script,
        run,
        &mut output,
    );
    output.clear();
    process.traces.keep_said(served.store.disk());
    process
        .traces
        .level
        .set(Some(level_slot(served.store.state())));
    process.traces.keep_report(served.result)
}

// Runs a script on a store beside its log by so many workers, as `run_by` does on a store.
fn run_beside_by<N: Charted, R: Threads + Wait + Clock + Copy + Drop + Send + Sync + 'static>(
    process: Process<'_>,
    threads: R,
    beside: LoggedStore<FileDisk, FileDisk, AnyJob>,
    workers: u32,
    script: &mut Script<Whole<Source>>,
    run: Run,
) -> Result<(), Fault>
    requires whole { failure_beside beside ≡ None }
    requires begins { Begins any_kind beside.store.state (file_view beside.store.file.disk).failures
        (file_view beside.store.file.disk).clock N.held N.image beside.store (file_view beside.store.file.disk) }
{
    let Ok(desk) = JobDesk::new(process.alloc) else {
        return Err(Fault::NoMemory);
    };
    let mut output = Told::new(process.rt, process.alloc, process.output(), "lines", None);
    let workforce = Workforce {
        threads,
        desk,
        workers,
    };
    let served = run_logged_served::<_, _, FileDisk, FileDisk, N, JobDesk, R>(
        process.alloc,
        beside,
        workforce,
        script,
        run,
        &mut output,
    );
    output.clear();
    leave_beside(&served.beside, served.result, process.traces)
}

// By how many workers a store is run: those that are said, or else as many as the weights in force have, which need not be those of
// the header.
fn workers_of(said: Option<u32>, store: &Store<FileDisk, AnyJob>) -> u32
    ensures { result ≡ unwrap_or said store.now.state.ledger.set.workers }
{
    said.unwrap_or(store.state().columns().workers())
}

/// What a run is asked for beside its file and its script.
#[derive(Clone, Copy)]
pub(crate) struct Asked<'a> {
    /// How many workers run the jobs; 0 is one thread for all.
    pub(crate) workers: Option<u32>,
    /// How many slots of a record are kept at once at the most.
    pub(crate) batch: Option<u32>,
    /// The log beside the store.
    pub(crate) log: Option<&'a str>,
    /// The log that a new one goes on from.
    pub(crate) after: Option<&'a str>,
    /// Whether the script ends behind its first refused record.
    pub(crate) strict: bool,
    /// Whether lines are text or objects.
    pub(crate) form: OutputForm,
}

// A run as it is asked for, with so many slots at once where none are said.
fn run_of(asked: Asked<'_>, batch: u32) -> Run {
    let at_refusal = if asked.strict {
        AtRefusal::End
    } else {
        AtRefusal::GoOn
    };
    Run {
        batch: asked.batch.unwrap_or(batch).max(1),
        group: GROUP,
        at_refusal,
        form: asked.form,
    }
}

// Runs a script on a store by so many workers, or for 0 by one thread. Whatever bytes its file is said to hold, that they stand for the
// store is the premise.
fn run_on<R: Threads + Wait + Clock + Copy + Drop + Send + Sync + 'static>(
    process: Process<'_>,
    threads: R,
    store: Store<FileDisk, AnyJob>,
    workers: u32,
    script: &mut Script<Whole<Source>>,
    asked: Asked<'_>,
) -> Result<(), Fault>
    requires begins { (image : List ℕ) → Begins any_kind store.state (file_view store.file.disk).failures (file_view store.file.disk).clock
        (IsHeldBy any_kind store image) image store (file_view store.file.disk) }
{
    if workers == 0 {
        let list = UnnamedCalls::new();
        let run = run_of(asked, 1);
        return run_alone::<Brand>(process, list, store, script, run);
    }
    let run = run_of(asked, WINDOW);
    run_by::<Brand, R>(process, threads, store, workers, script, run)
}

// The same beside its log.
fn run_at_log<R: Threads + Wait + Clock + Copy + Drop + Send + Sync + 'static>(
    process: Process<'_>,
    threads: R,
    beside: LoggedStore<FileDisk, FileDisk, AnyJob>,
    workers: u32,
    script: &mut Script<Whole<Source>>,
    asked: Asked<'_>,
) -> Result<(), Fault>
    requires whole { failure_beside beside ≡ None }
    requires begins { (image : List ℕ) → Begins any_kind beside.store.state (file_view beside.store.file.disk).failures
        (file_view beside.store.file.disk).clock (IsHeldBy any_kind beside.store image) image beside.store (file_view beside.store.file.disk) }
{
    if workers == 0 {
        let list = UnnamedCalls::new();
        let run = run_of(asked, 1);
        return run_beside::<Brand>(process, list, beside, script, run);
    }
    let run = run_of(asked, WINDOW);
    run_beside_by::<Brand, R>(process, threads, beside, workers, script, run)
}

/// Runs a script on the store of a file by so many workers, as many as its weights have if none are said, or for 0 by one thread. Up
/// to `batch` slots of a record are kept at once; if that isn't said, it is 1, or 64 with workers. Records that stand ready together
/// are kept at once too, up to 16. Lines are printed as they come. Behind a refused record the script goes on, or ends if it is strict.
/// Beside a log each segment of the file is in the log before it is used again.
pub(crate) fn run<R: Threads + Wait + Clock + Copy + Drop + Send + Sync + 'static>(
    process: Process<'_>,
    threads: R,
    file: &str,
    script: &str,
    asked: Asked<'_>,
) -> Result<(), Fault> {
    let mut script = Script::new(process.alloc, Whole::new(input(process.rt, script)?));
    let store = opened(process, disk(process.rt, file)?)?;
    let workers = workers_of(asked.workers, &store);
    match asked.log {
        Some(log) => {
            let beside = beside(process, store, log, asked.after)?;
            run_at_log::<R>(process, threads, beside, workers, &mut script, asked)
        }
        None => run_on::<R>(process, threads, store, workers, &mut script, asked),
    }
}
