//! Running a script over a front.
ghost use Rattle.std.specs.Prelude.{◌≡◌};
ghost use Rattle.pfx_front.specs.Starting.{Begins};
ghost use Rattle.pfx_kinds.specs.AnyKind.{any_kind};
ghost use Rattle.pfx_program_store.specs.Serving.{IsServedRun};

use crate::kept::{Kept, serve_kept};
use crate::workforce::Workforce;
use pfx_crew::desk::Desk;
use pfx_disk::Disk;
use pfx_disk_chronicle::chronicle::Chronicle;
use pfx_disk_chronicle::name::Charted;
use pfx_fault::Fault;
use pfx_front::name::{Names, Since};
use pfx_jobs::quantum::{Done, Quantum};
use pfx_kinds::any::AnyJob;
use pfx_program::{Report, Run};
use pfx_program_script::Script;
use pfx_store::Store;
use std::alloc::Global;
use std::io::{Read, Write};
use std::marker::Brand;
use std::sync::Wait;
use std::thread::Threads;
use std::time::Clock;

/// What a run over a front leaves.
#[derive(Drop)]
pub struct Served<D: Disk> {
    /// The store.
    pub store: Store<D, AnyJob>,
    /// What the run answered.
    pub result: Result<Report, Fault>,
}

/// Runs a script through a front of this name, which is started for it and ended after it.
fn serve<
    I: Read + Drop,
    W: Write,
    D: Disk + Drop + Send + 'static,
    B: Since<AnyJob> + Send + Sync + 'static,
    K: Desk<Quantum<AnyJob>, Done<AnyJob>> + Drop + Send + Sync + 'static,
    R: Threads + Wait + Clock + Copy + Drop + Send + Sync + 'static,
>(
    alloc: Global,
    store: Store<D, AnyJob>,
    names: Names<AnyJob>,
    workforce: Workforce<K, R>,
    script: &mut Script<I>,
    run: Run,
    output: &mut W,
) -> Served<D>
where
    K::Seat: Drop + Send + 'static,
    requires named { (names.tokens.table.shared.table_id ≡ B.table) × (names.list.seen.book ≡ B.book) × (B.origin ≡ B.start) }
    requires calls { (names.calls.seen.book ≡ B.calls) × (names.marks.seen.book ≡ B.marks) }
    requires begins { Begins any_kind B.start B.failures B.clock B.held B.image store (D.view store.file.disk) }
    ensures { IsServedRun run.form run.at_refusal B.start script.old script.new.failed (W.contents output.old) (W.contents output.new)
        (D.view result.store.file.disk) result.result }
{
    let (lists, calls) = names.split();
    let noted = store.noted::<B>(calls);
    let _broken = noted.is_broken();
    let ran = serve_kept::<I, W, Chronicle<D, B>, B, Store<Chronicle<D, B>, AnyJob>, K, R>(
        alloc, lists, noted, workforce, script, run, output,
    );
    let Kept { keeper, result, .. } = ran;
    Served {
        store: keeper.told(),
        result,
    }
}

/// Runs the records of a script that are left on a store, as `run_script` does over any engine, through a front that is started
/// for it and ended after it: with one thread for the flusher, and the workers of its workforce, or none, if the calling thread
/// runs the jobs.
///
/// Of the slots of a record up to `run.batch` are asked for before the last of them is waited for, and 64 at the most; so are
/// up to `run.group` records that stand ready together, as `run_script` says.
///
/// What is printed is the same for any number of workers and any batch, and by `run.form` text or JSON. A printed line is a
/// receipt: whatever the run answers, each image that a stop may leave after it is recovered to the outcome of a beginning of
/// the script's accepted commands which holds
/// every command whose line was printed. `NoThread` says that the system gives no thread; then nothing was done.
///
/// `N` says what the disk held when the store was opened, and what the premise of that is: each receipt that the front gives for
/// a line stands under it.
pub fn run_served<
    I: Read + Drop,
    W: Write,
    D: Disk + Drop + Send + 'static,
    N: Charted,
    K: Desk<Quantum<AnyJob>, Done<AnyJob>> + Drop + Send + Sync + 'static,
    R: Threads + Wait + Clock + Copy + Drop + Send + Sync + 'static,
>(
    alloc: Global,
    store: Store<D, AnyJob>,
    workforce: Workforce<K, R>,
    script: &mut Script<I>,
    run: Run,
    output: &mut W,
) -> Served<D>
where
    K::Seat: Drop + Send + 'static,
    requires begins { Begins any_kind store.state (D.view store.file.disk).failures
        (D.view store.file.disk).clock N.held N.image store (D.view store.file.disk) }
    ensures { IsServedRun run.form run.at_refusal store.state script.old script.new.failed (W.contents output.old) (W.contents output.new)
        (D.view result.store.file.disk) result.result }
{
    let _broken = store.is_broken();
    match Names::new(alloc) {
        Ok(names) => serve::<I, W, D, Brand, K, R>(
            alloc, store, names, workforce, script, run, output,
        ),
        Err(_) => Served {
            store,
            result: Err(Fault::NoMemory),
        },
    }
}
