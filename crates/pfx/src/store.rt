//! `pfx init SET FILE --at LEDGER`, `pfx status FILE`, `pfx show FILE TASK`.

ghost use Rattle.std.specs.Prelude.{◌≡◌, ℕ, List, IfOk};
ghost use Rattle.pfx_disk.specs.File.{file_view};
ghost use Rattle.pfx_front.specs.Starting.{Begins};
ghost use Rattle.pfx_store_header.specs.Headers.{IsSegmentSize};
ghost use Rattle.pfx_kinds.specs.AnyKind.{any_kind};
ghost use Rattle.pfx_store.specs.Noting.{IsHeldBy};

use crate::files::{fault_of, input, new_disk, shared_disk, sync_directory};
use crate::process::Process;
use crate::traces::{KeptSource, Unmade};
use pfx_disk::FileDisk;
use pfx_fault::Fault;
use pfx_kinds::any::AnyJob;
use pfx_machine::State;
use pfx_program::{OutputForm, created_line, first_state, read_task_set, run_show, run_status};
use pfx_program_check::store_len;
use pfx_store::Store;
use pfx_store_engine::faults::{init_fault, open_fault, size_fault};
use pfx_store_engine::{DurableEngine, StoreEngine};
use pfx_store_header::check_segment;
use pfx_weights::TaskSet;
use std::alloc::Global;
use std::fs;
use std::io::{BufWriter, Write};

/// Takes away the file in which no store could be made, if it is new.
pub(crate) fn taken_away(
    rt: &HostRuntime,
    file: &str,
    is_new: bool,
    needed: u64,
) -> Option<Unmade> {
    if !is_new {
        return None;
    }
    let is_left = fs::remove_file(rt, file).is_err();
    Some(Unmade { needed, is_left })
}

// The set of a file, and the state that a store of it begins with: at slot 0, or with the ledger that is given.
fn begun(
    process: Process<'_>,
    set: &str,
    at: Option<&str>,
) -> Result<(TaskSet, State<AnyJob>), Fault>
    ensures set { IfOk result (λ begun. begun.1.ledger.set ≡ begun.0) }
    ensures size { IfOk result (λ begun. IsSegmentSize begun.0.workers begun.1.segment) }
{
    let mut input = KeptSource::new(process.alloc, input(process.rt, set)?);
    let read = read_task_set(process.alloc, &mut input);
    process.traces.keep_set(input.into_read());
    let (set, segment) = read?;
    if let Err(fault) = check_segment(&set, segment) {
        return Err(size_fault(fault));
    }
    let state = first_state(process.alloc, &set, segment, at)?;
    Ok((set, state))
}

// Makes a store on a disk, and syncs its file's directory. The answer is how many bytes the file has. Where none is made a new file is
// taken away while its disk is still held, so that it isn't another's by then.
fn made(
    process: Process<'_>,
    disk: FileDisk,
    file: &str,
    is_new: bool,
    set: &TaskSet,
    state: State<AnyJob>,
) -> Result<usize, Fault>
    requires set { state.ledger.set ≡ set.now }
    requires size { IsSegmentSize set.now.workers state.segment }
{
    let needed = store_len(set, state.segment());
    match Store::<FileDisk, AnyJob>::begin(process.alloc, disk, set, state) {
        Ok(store) => {
            if let Err(fault) = sync_directory(process.rt, file, &process.traces.device) {
                process
                    .traces
                    .unmade
                    .set(taken_away(process.rt, file, is_new, needed));
                return Err(fault);
            }
            Ok(store.places().sizes.file_len())
        }
        Err((fault, disk)) => {
            process.traces.device.set(disk.said());
            process
                .traces
                .unmade
                .set(taken_away(process.rt, file, is_new, needed));
            Err(init_fault(fault))
        }
    }
}

// Prints the line of a store that was made.
fn print_created(
    process: Process<'_>,
    form: OutputForm,
    set: &TaskSet,
    len: usize,
) -> Result<(), Fault> {
    let Ok(line) = created_line(process.alloc, form, set, len) else {
        return Err(Fault::NoMemory);
    };
    match process.output().write_all(line.as_bytes()) {
        Ok(()) => Ok(()),
        Err(error) => Err(fault_of(&error, Fault::OutputFailed)),
    }
}

/// Makes a store of a set in a file, which is made if it is missing, and prints its line. The store begins at slot 0, or with the
/// ledger that is given. The refusals of the set, of its segments and of the ledger come before the file is touched. The file's directory is
/// synced before the line is printed. A new file is taken away if no store is made in it.
pub(crate) fn init(
    process: Process<'_>,
    set: &str,
    file: &str,
    at: Option<&str>,
    form: OutputForm,
) -> Result<(), Fault> {
    let (set, state) = begun(process, set, at)?;
    let (disk, is_new) = new_disk(process.rt, file, &process.traces.unopened)?;
    let len = made(process, disk, file, is_new, &set, state)?;
    print_created(process, form, &set, len)
}

/// The store on a disk. Whatever bytes the file is said to hold, that they stand for the store is the premise. If the disk fails, what the
/// system said is kept.
pub(crate) fn opened(process: Process<'_>, disk: FileDisk) -> Result<Store<FileDisk, AnyJob>, Fault>
    ensures { IfOk result
        (λ s. (image : List ℕ) → Begins any_kind s.state (file_view s.file.disk).failures (file_view s.file.disk).clock
        (IsHeldBy any_kind s image) image s (file_view s.file.disk)) }
{
    match Store::open(process.alloc, disk) {
        Ok(store) => Ok(store),
        Err((fault, disk)) => {
            process.traces.keep_said(&disk);
            Err(open_fault(fault))
        }
    }
}

// The engine of one thread over a store.
fn engine(
    alloc: Global,
    store: Store<FileDisk, AnyJob>,
) -> Result<StoreEngine<FileDisk, AnyJob>, Fault> {
    match DurableEngine::new(alloc, store) {
        Ok(engine) => Ok(engine),
        Err(_) => Err(Fault::NoMemory),
    }
}

// Prints an engine's board.
fn print_board(
    process: Process<'_>,
    form: OutputForm,
    engine: &mut StoreEngine<FileDisk, AnyJob>,
) -> Result<(), Fault> {
    let Ok(mut output) = BufWriter::new(process.alloc, process.output()) else {
        return Err(Fault::NoMemory);
    };
    let shown = run_status(process.alloc, form, &mut output, engine);
    let flushed = output.flush();
    shown?;
    match flushed {
        Ok(()) => Ok(()),
        Err(error) => Err(fault_of(&error, Fault::OutputFailed)),
    }
}

/// Prints the board of the store of a file.
pub(crate) fn status(process: Process<'_>, file: &str, form: OutputForm) -> Result<(), Fault> {
    let store = opened(process, shared_disk(process.rt, file)?)?;
    print_board(process, form, &mut engine(process.alloc, store)?)
}

// The number of a task; one that is greater than any is no task's.
fn task_of(task: u32) -> u16 {
    if task < 65_535 { task as u16 } else { 65_535 }
}

/// Prints what the jobs of the store of a file have computed, or the one of a task.
pub(crate) fn show(
    process: Process<'_>,
    file: &str,
    task: Option<u32>,
    form: OutputForm,
) -> Result<(), Fault> {
    let store = opened(process, shared_disk(process.rt, file)?)?;
    let task = match task {
        Some(task) => Some(task_of(task)),
        None => None,
    };
    run_show(
        process.alloc,
        form,
        &mut process.output(),
        store.state(),
        task,
    )
}
