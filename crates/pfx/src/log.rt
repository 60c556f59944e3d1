//! The log beside a store.

ghost use Rattle.std.specs.Prelude.{◌≡◌, ◌≤◌, ℕ, List, length, IfOk, None};
ghost use Rattle.pfx_disk.specs.File.{file_view};
ghost use Rattle.pfx_front.specs.Starting.{Begins};
ghost use Rattle.pfx_kinds.specs.AnyKind.{any_kind};
ghost use Rattle.pfx_store.specs.Noting.{IsHeldBy};
ghost use Rattle.pfx_log_store.specs.Fitting.{FitsIn};
ghost use Rattle.pfx_log_store.specs.Working.{failure_beside};

use crate::files::{disk, new_disk, sync_directory};
use crate::process::Process;
use crate::traces::Traces;
use pfx_checkpoint::{freeze_whole, whole_len};
use pfx_disk::{Disk, FileDisk};
use pfx_fault::Fault;
use pfx_kinds::any::AnyJob;
use pfx_log::{AppendFault, CreateLogFault, LogFault, LogFile};
use pfx_log_store::{JoinFault, LoggedStore};
use pfx_machine::State;
use pfx_store::{BatchKeeper, Store};
use pfx_store_engine::faults::open_fault;
use std::alloc::{AllocError, Global};

/// The version of the stores whose states a log begins with.
const STORES: u8 = 2;

/// The fault of a log that isn't read.
pub(crate) fn log_fault(fault: LogFault) -> Fault {
    match fault {
        LogFault::NoMemory => Fault::NoMemory,
        LogFault::Device => Fault::Device,
        LogFault::NotALog => Fault::NotALog,
        LogFault::WrongVersion { version } => Fault::WrongLogVersion { version },
        LogFault::Damaged { at, .. } | LogFault::TooLong { at } => Fault::LogDamaged {
            at: at as u64,
        },
    }
}

fn create_fault(fault: CreateLogFault) -> Fault {
    match fault {
        CreateLogFault::NoMemory => Fault::NoMemory,
        CreateLogFault::Device => Fault::Device,
        CreateLogFault::NotEmpty => Fault::NotEmpty,
    }
}

fn join_fault(fault: JoinFault) -> Fault {
    match fault {
        JoinFault::File(fault) => open_fault(fault),
        JoinFault::LogGap { log, file } => Fault::LogGap { log, file },
        JoinFault::Log(AppendFault::NoMemory) => Fault::NoMemory,
        JoinFault::Log(_) => Fault::Device,
    }
}

// A state as a log begins with it: with its set, and how many bytes a segment of its store has.
fn spelled(alloc: Global, state: &State<AnyJob>) -> Result<Vec<u8>, AllocError>
    ensures { IfOk result (λ bytes. (8 ≤ length bytes.items) × (length bytes.items ≤ 16777216)) }
{
    let _total = state.columns().total();
    let mut bytes = Vec::from_elem(alloc, 0, whole_len(state.columns().real()))?;
    freeze_whole(state, &mut bytes);
    bytes.extend_from_slice(&state.segment().to_le_bytes())?;
    Ok(bytes)
}

// A new log in an empty file, at this state, which names the head of the log before, or zeros.
fn begun(
    process: Process<'_>,
    disk: FileDisk,
    path: &str,
    state: &State<AnyJob>,
    before: [u8; 32],
) -> Result<LogFile<FileDisk>, Fault> {
    let Ok(bytes) = spelled(process.alloc, state) else {
        return Err(Fault::NoMemory);
    };
    match LogFile::create(process.alloc, disk, STORES, &bytes, before) {
        Ok(log) => {
            sync_directory(process.rt, path, &process.traces.device)?;
            Ok(log)
        }
        Err((fault, disk)) => {
            process.traces.keep_said(&disk);
            Err(create_fault(fault))
        }
    }
}

// The log that a file holds.
fn opened(process: Process<'_>, disk: FileDisk) -> Result<LogFile<FileDisk>, Fault> {
    match LogFile::open(process.alloc, disk) {
        Ok(log) => Ok(log),
        Err((fault, disk)) => {
            process.traces.keep_said(&disk);
            Err(log_fault(fault))
        }
    }
}

// Whether a file holds nothing.
fn is_empty(disk: &mut FileDisk, traces: &Traces) -> Result<bool, Fault> {
    match disk.len() {
        Ok(len) => Ok(len == 0),
        Err(_) => {
            traces.keep_said(disk);
            Err(Fault::Device)
        }
    }
}

// The file of a log, which is made if it is missing.
fn log_disk(process: Process<'_>, path: &str) -> Result<FileDisk, Fault> {
    let (disk, _) = new_disk(process.rt, path, &process.traces.unopened_log)?;
    Ok(disk)
}

// The log of this path: the one that is there, or a new one at this state where the file is missing or empty.
fn log_at(
    process: Process<'_>,
    path: &str,
    state: &State<AnyJob>,
) -> Result<LogFile<FileDisk>, Fault> {
    let mut disk = log_disk(process, path)?;
    if is_empty(&mut disk, process.traces)? {
        return begun(process, disk, path, state, [0; 32]);
    }
    opened(process, disk)
}

// What was opened, if nothing has failed of it.
fn whole(
    beside: LoggedStore<FileDisk, FileDisk, AnyJob>,
) -> Result<LoggedStore<FileDisk, FileDisk, AnyJob>, Fault>
    ensures whole { IfOk result (λ b. failure_beside b ≡ None) }
    ensures begins { IfOk result (λ b. (image : List ℕ) → Begins any_kind b.store.state (file_view b.store.file.disk).failures
        (file_view b.store.file.disk).clock (IsHeldBy any_kind b.store image) image b.store (file_view b.store.file.disk)) }
{
    match beside.failure() {
        None => Ok(beside),
        Some(_) => Err(Fault::Device),
    }
}

// A store beside a log that is open.
fn joined(
    process: Process<'_>,
    store: Store<FileDisk, AnyJob>,
    log: LogFile<FileDisk>,
) -> Result<LoggedStore<FileDisk, FileDisk, AnyJob>, Fault> {
    match LoggedStore::open(process.alloc, store.into_disk(), log) {
        Ok(beside) => Ok(beside),
        Err((fault, disk, log)) => {
            let is_file = matches!(fault, JoinFault::File(_));
            process.traces.at_log.set(!is_file);
            process
                .traces
                .keep_said(if is_file { &disk } else { &log.disk });
            Err(join_fault(fault))
        }
    }
}

// The empty file of a new log, and the log that it goes on from.
fn both_logs(
    process: Process<'_>,
    path: &str,
    older: &str,
) -> Result<(FileDisk, LogFile<FileDisk>), Fault> {
    let mut fresh = log_disk(process, path)?;
    if !is_empty(&mut fresh, process.traces)? {
        return Err(Fault::NotEmpty);
    }
    let old = opened(process, disk(process.rt, older)?)?;
    Ok((fresh, old))
}

// A store whose log was brought up to it, and the log's head.
fn brought_up(
    process: Process<'_>,
    store: Store<FileDisk, AnyJob>,
    log: LogFile<FileDisk>,
) -> Result<(Store<FileDisk, AnyJob>, [u8; 32]), Fault>
    ensures { IfOk result (λ brought. FitsIn 0 brought.0.file.places) }
{
    let mut beside = joined(process, store, log)?;
    if beside.keep_up().is_err() {
        process.traces.keep_said(&beside.log.disk);
        return Err(Fault::Device);
    }
    let (store, log, _) = beside.into_parts();
    if store.is_broken() {
        return Err(Fault::Device);
    }
    let head = log.place.head;
    Ok((store, head))
}

// A store beside a new log that begins at its state, behind the log with this head.
fn followed(
    process: Process<'_>,
    store: Store<FileDisk, AnyJob>,
    fresh: FileDisk,
    path: &str,
    head: [u8; 32],
) -> Result<LoggedStore<FileDisk, FileDisk, AnyJob>, Fault>
    requires { FitsIn 0 store.file.places }
{
    let log = begun(process, fresh, path, store.state(), head)?;
    match LoggedStore::new(process.alloc, store, log, &[]) {
        Ok(beside) => Ok(beside),
        Err(_) => Err(Fault::NoMemory),
    }
}

// A store beside a new log of this path, which goes on from an older one: that is brought up to the store first, so that the new one begins
// where it ends.
fn gone_on(
    process: Process<'_>,
    store: Store<FileDisk, AnyJob>,
    path: &str,
    older: &str,
) -> Result<LoggedStore<FileDisk, FileDisk, AnyJob>, Fault> {
    let (fresh, old) = both_logs(process, path, older)?;
    let (store, head) = brought_up(process, store, old)?;
    followed(process, store, fresh, path, head)
}

/// A store beside the log of this path, which is made at the store's state where it is missing; with an older log the new one goes on from
/// that. Whatever bytes the store's file is said to hold, that they stand for the store is the premise. Where it fails `traces` has whether it
/// is the log that failed.
pub(crate) fn beside(
    process: Process<'_>,
    store: Store<FileDisk, AnyJob>,
    path: &str,
    older: Option<&str>,
) -> Result<LoggedStore<FileDisk, FileDisk, AnyJob>, Fault>
    ensures whole { IfOk result (λ b. failure_beside b ≡ None) }
    ensures begins { IfOk result (λ b. (image : List ℕ) → Begins any_kind b.store.state (file_view b.store.file.disk).failures
        (file_view b.store.file.disk).clock (IsHeldBy any_kind b.store image) image b.store (file_view b.store.file.disk)) }
{
    process.traces.at_log.set(true);
    let beside = match older {
        Some(older) => gone_on(process, store, path, older)?,
        None => {
            let log = log_at(process, path, store.state())?;
            joined(process, store, log)?
        }
    };
    process.traces.at_log.set(false);
    whole(beside)
}
