//! How the run of the trials starts a front and ends it.
ghost use Rattle.std.specs.Prelude.{◌≡◌, IfSome};
ghost use Rattle.pfx_kinds.specs.AnyKind.{any_kind};
ghost use Rattle.pfx_front.specs.Starting.{Begins, BeginsHonest};

use crate::folds::{MADE, SEGMENT, thirds};
use crate::visits::{Asked, ask_by_two};
use pfx_book::book::Pass;
use pfx_crew::channel::ChannelDesk;
use pfx_crew::desk::Desk;
use pfx_disk::{Disk, FaultDisk, Latch, LatchDisk, MemoryDisk};
use pfx_fault::Cause;
use pfx_front::calls::Front;
use pfx_front::closing::{Closed, Given};
use pfx_front::name::{Names, Since};
use pfx_front::start::Crew;
use pfx_front_board::reader::Reader;
use pfx_jobs::quantum::{Done, Quantum};
use pfx_kinds::any::AnyJob;
use pfx_store::Store;
use pfx_store::laws::honest_disks_hold;
use std::alloc::Global;
use std::marker::Brand;
use std::sync::Wait;
use std::thread::Threads;
use std::time::Clock;

/// The desk of the front, which has no workers.
pub type JobDesk = ChannelDesk<Quantum<AnyJob>, Done<AnyJob>>;

/// A front, its threads, which are to be joined, and its reader.
type Served<B, D, K, R> = (
    Front<AnyJob, B, K>,
    Crew<AnyJob, B, D, K, R>,
    Vec<Reader<AnyJob, B>>,
);

/// What a front left.
#[derive(Drop)]
pub struct Left {
    /// The number of the store's last command, and of the last mark.
    pub numbers: (u64, u64),
    /// Why the front's flusher gave up.
    pub failure: Option<Cause>,
    /// Whether the front's one reader saw its last publication.
    pub looked: bool,
}

/// What the run came to: its clients, and what the front left behind them.
#[derive(Drop)]
pub struct Outcome {
    pub asked: Asked,
    pub left: Left,
}

/// What a closed front left, and its disk.
fn left_by<B: Since<AnyJob>, D: Disk + Drop>(closed: Closed<AnyJob, B, D>) -> (Left, D) {
    let Closed {
        store,
        book,
        looked,
        ..
    } = closed;
    let left = Left {
        numbers: (store.state().number(), book.marked()),
        failure: book.failure(),
        looked: looked.len() == 1 && looked[0],
    };
    (left, store.into_disk())
}

/// Ends a front.
fn end<
    B: Since<AnyJob>,
    K: Desk<Quantum<AnyJob>, Done<AnyJob>> + Drop,
    D: Disk + Drop,
    R: Threads + Wait + Drop,
>(rt: &R, served: Served<B, D, K, R>, passes: Vec<Pass<AnyJob, B>>) -> Option<(Left, D)>
where
    K::Seat: Drop,
{
    let (front, crew, readers) = served;
    match front.close(rt, crew, Given { passes, readers }) {
        Ok(closed) => Some(left_by(closed)),
        Err(_) => None,
    }
}

/// The run on a front over a store, on a disk that is held by the latch if there is one.
fn serve<
    B: Since<AnyJob> + Send + Sync + 'static,
    K: Desk<Quantum<AnyJob>, Done<AnyJob>> + Drop + Send + Sync + 'static,
    D: Disk + Drop + Send + 'static,
    R: Threads + Wait + Clock + Copy + Drop + Send + Sync + 'static,
>(
    rt: R,
    alloc: Global,
    names: Names<AnyJob>,
    store: Store<D, AnyJob>,
    desk: K,
    latch: Option<Latch>,
) -> Option<(Outcome, D)>
where
    K::Seat: Drop + Send + 'static,
    requires named { (names.tokens.table.shared.table_id ≡ B.table) × (names.list.seen.book ≡ B.book) × (B.origin ≡ B.start) }
    requires calls { (names.calls.seen.book ≡ B.calls) × (names.marks.seen.book ≡ B.marks) }
    requires begins { Begins any_kind B.start B.failures B.clock B.held B.image store (D.view store.file.disk) }
{
    let started = Front::<AnyJob, B, K>::start::<D, R>(rt, alloc, names, store, desk, 0, 1);
    let served = started.ok()?;
    let (asked, passes) = ask_by_two(&rt, alloc, &served.0, latch.as_ref())?;
    let (left, disk) = end(&rt, served, passes)?;
    Some((Outcome { asked, left }, disk))
}

/// The same by a name of its own.
fn serve_named<
    D: Disk + Drop + Send + 'static,
    R: Threads + Wait + Clock + Copy + Drop + Send + Sync + 'static,
>(
    rt: R,
    alloc: Global,
    names: Names<AnyJob>,
    store: Store<D, AnyJob>,
    desk: JobDesk,
    latch: Option<Latch>,
) -> Option<(Outcome, D)>
    requires { BeginsHonest any_kind store (D.view store.file.disk) }
{
    serve::<Brand, JobDesk, D, R>(rt, alloc, names, store, desk, latch)
}

/// A new store on a disk, with segments of the least length.
pub fn store_on<D: Disk + Drop>(alloc: Global, disk: D) -> Option<Store<D, AnyJob>>
    ensures { IfSome result (λ s. BeginsHonest any_kind s (D.view s.file.disk)) }
{
    let set = thirds(alloc)?;
    match Store::init(alloc, disk, &set, SEGMENT) {
        Ok(store) => {
            honest_disks_hold(&store);
            Some(store)
        }
        Err(_) => None,
    }
}

/// The run over an empty disk, held by the latch if there is one.
fn run_on<
    D: Disk + Drop + Send + 'static,
    R: Threads + Wait + Clock + Copy + Drop + Send + Sync + 'static,
>(rt: R, alloc: Global, disk: D, latch: Option<Latch>) -> Option<(Outcome, D)> {
    let store = store_on(alloc, disk)?;
    let desk = ChannelDesk::new(alloc).ok()?;
    serve_named(rt, alloc, Names::new(alloc).ok()?, store, desk, latch)
}

/// The run over a disk in memory, each of whose frames has one command, since each client waits for each receipt.
pub fn run_in_memory<R: Threads + Wait + Clock + Copy + Drop + Send + Sync + 'static>(
    rt: R,
    alloc: Global,
    disk: MemoryDisk,
) -> Option<(Outcome, MemoryDisk)> {
    run_on(rt, alloc, disk, None)
}

/// The run over a disk in memory that holds its first frame until all is asked, so that the later frames have up to 16 commands.
pub fn run_held<R: Threads + Wait + Clock + Copy + Drop + Send + Sync + 'static>(
    rt: R,
    alloc: Global,
    disk: MemoryDisk,
) -> Option<(Outcome, MemoryDisk)> {
    let (disk, latch) = LatchDisk::new(rt, alloc, disk, MADE).ok()?;
    let (outcome, disk) = run_on(rt, alloc, disk, Some(latch))?;
    Some((outcome, disk.into_inner()))
}

/// The run over a disk that fails.
pub fn run_failing<R: Threads + Wait + Clock + Copy + Drop + Send + Sync + 'static>(
    rt: R,
    alloc: Global,
    disk: FaultDisk<MemoryDisk>,
) -> Option<(Outcome, MemoryDisk)> {
    let (outcome, disk) = run_on(rt, alloc, disk, None)?;
    Some((outcome, disk.into_inner()))
}
