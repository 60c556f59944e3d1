//! A front over a store, its clients at once, and its end.
ghost use Rattle.std.specs.Prelude.{◌≡◌};
ghost use Rattle.pfx_disk.specs.File.{file_view};
ghost use Rattle.pfx_kinds.specs.AnyKind.{any_kind};
ghost use Rattle.pfx_front.specs.Starting.{Begins, BeginsHonest};

use crate::clients::{Visit, client, furnish};
use crate::failures::RunFailure;
use crate::stores::JobDesk;
use crate::words::Plan;
use pfx_book::book::Pass;
use pfx_crew::desk::Desk;
use pfx_disk::{Disk, FileDisk};
use pfx_front::calls::Front;
use pfx_front::closing::{Closed, Given};
use pfx_front::name::{Names, Since};
use pfx_front::start::Crew;
use pfx_front_board::reader::Reader;
use pfx_jobs::quantum::{Done, Quantum};
use pfx_kinds::any::AnyJob;
use pfx_store::Store;
use std::alloc::Global;
use std::io::Print;
use std::marker::Brand;
use std::sync::Wait;
use std::thread;
use std::thread::Threads;
use std::time::{Clock, Instant};

/// What a run came to.
#[derive(Clone, Copy)]
pub struct Outcome {
    /// The number of the store's last command.
    pub number: u64,
    /// How many slots have their receipts.
    pub receipts: u64,
    /// What the slots took, in nanoseconds.
    pub nanos: u128,
}

/// A front, its threads, which are to be joined, and a reader.
type Served<B, D, K, R> = (
    Front<AnyJob, B, K>,
    Crew<AnyJob, B, D, K, R>,
    Vec<Reader<AnyJob, B>>,
);

/// Starts a front.
fn begin<
    B: Since<AnyJob> + Send + Sync + 'static,
    K: Desk<Quantum<AnyJob>, Done<AnyJob>> + Drop + Send + Sync + 'static,
    D: Disk + Drop + Send + 'static,
    R: Threads + Wait + Clock + Copy + Drop + Send + Sync + 'static,
>(
    rt: R,
    alloc: Global,
    names: Names<AnyJob>,
    store: Store<D, AnyJob>,
    desk: K,
    workers: u16,
) -> Result<Served<B, D, K, R>, RunFailure>
where
    K::Seat: Drop + Send + 'static,
    requires named { (names.tokens.table.shared.table_id ≡ B.table) × (names.list.seen.book ≡ B.book) × (B.origin ≡ B.start) }
    requires calls { (names.calls.seen.book ≡ B.calls) × (names.marks.seen.book ≡ B.marks) }
    requires begins { Begins any_kind B.start B.failures B.clock B.held B.image store (D.view store.file.disk) }
{
    match Front::<AnyJob, B, K>::start::<D, R>(
        rt,
        alloc,
        names,
        store,
        desk,
        u32::from(workers),
        1,
    ) {
        Ok(served) => Ok(served),
        Err((fault, _store)) => Err(RunFailure::NotStarted(fault)),
    }
}

/// Ends a front.
fn end<
    B: Since<AnyJob>,
    K: Desk<Quantum<AnyJob>, Done<AnyJob>> + Drop,
    D: Disk + Drop,
    R: Threads + Wait + Drop,
>(
    rt: &R,
    served: Served<B, D, K, R>,
    passes: Vec<Pass<AnyJob, B>>,
) -> Result<Closed<AnyJob, B, D>, RunFailure>
where
    K::Seat: Drop,
{
    let (front, crew, readers) = served;
    match front.close(rt, crew, Given { passes, readers }) {
        Ok(closed) => Ok(closed),
        Err(_) => Err(RunFailure::NotClosed),
    }
}

/// A pass for each client.
fn admit<B: Since<AnyJob>, K: Desk<Quantum<AnyJob>, Done<AnyJob>> + Drop, R: Wait>(
    rt: &R,
    alloc: Global,
    front: &Front<AnyJob, B, K>,
    clients: u16,
) -> Result<Vec<Pass<AnyJob, B>>, RunFailure>
where
    K::Seat: Drop,
{
    let mut passes = Vec::new(alloc);
    for _client in 0..clients {
        let Some(pass) = front.pass(rt) else {
            return Err(RunFailure::NoPass);
        };
        if passes.push(pass).is_err() {
            return Err(RunFailure::NoMemory);
        }
    }
    Ok(passes)
}

/// What all clients came to: their passes, and how many receipts they have.
fn gathered<B: Since<AnyJob>>(
    alloc: Global,
    first: Pass<AnyJob, B>,
    visits: Vec<Visit<B>>,
) -> Result<(Vec<Pass<AnyJob, B>>, u64), RunFailure> {
    let mut passes = Vec::new(alloc);
    if passes.push(first).is_err() {
        return Err(RunFailure::NoMemory);
    }
    let mut receipts = 0u64;
    for visit in visits {
        if let Some(failure) = visit.failure {
            return Err(failure);
        }
        receipts = receipts.saturating_add(visit.receipts);
        if passes.push(visit.pass).is_err() {
            return Err(RunFailure::NoMemory);
        }
    }
    Ok((passes, receipts))
}

/// Whether the closed front has all that was asked, durable, and a receipt for each slot.
fn examined<B: Since<AnyJob>, D: Disk + Drop>(
    closed: Closed<AnyJob, B, D>,
    outcome: Outcome,
    wanted: u64,
) -> Result<Outcome, RunFailure> {
    let Closed { store, book, .. } = closed;
    let number = store.state().number();
    if number != outcome.number {
        return Err(RunFailure::WrongLength(number, outcome.number));
    }
    if book.failure().is_some() || book.marked() != number {
        return Err(RunFailure::NotSettled(book.marked()));
    }
    if outcome.receipts != wanted {
        return Err(RunFailure::NoReceipt(outcome.receipts));
    }
    Ok(outcome)
}

/// Serves all clients of a plan, and ends the front after them.
fn serve<
    B: Since<AnyJob> + Send + Sync + 'static,
    K: Desk<Quantum<AnyJob>, Done<AnyJob>> + Drop + Send + Sync + 'static,
    D: Disk + Drop + Send + 'static,
    R: Threads + Wait + Clock + Print + Copy + Drop + Send + Sync + 'static,
>(
    rt: R,
    alloc: Global,
    names: Names<AnyJob>,
    store: Store<D, AnyJob>,
    desk: K,
    plan: Plan,
) -> Result<Outcome, RunFailure>
where
    K::Seat: Drop + Send + 'static,
    requires named { (names.tokens.table.shared.table_id ≡ B.table) × (names.list.seen.book ≡ B.book) × (B.origin ≡ B.start) }
    requires calls { (names.calls.seen.book ≡ B.calls) × (names.marks.seen.book ≡ B.marks) }
    requires begins { Begins any_kind B.start B.failures B.clock B.held B.image store (D.view store.file.disk) }
{
    let began = store.state().number();
    let served = begin::<B, K, D, R>(rt, alloc, names, store, desk, plan.workers)?;
    let front = &served.0;
    let Some(mut first) = front.pass(&rt) else {
        return Err(RunFailure::NoPass);
    };
    let given = furnish(&rt, front, &mut first)?;
    let passes = admit(&rt, alloc, front, plan.clients)?;
    let (visits, nanos) = visited(&rt, alloc, front, passes, plan)?;
    let (passes, receipts) = gathered(alloc, first, visits)?;
    let wanted = u64::from(plan.clients).saturating_mul(plan.commands);
    let number = began.saturating_add(given).saturating_add(wanted);
    let outcome = Outcome {
        number,
        receipts,
        nanos,
    };
    examined(end(&rt, served, passes)?, outcome, wanted)
}

/// All clients at once, and how many nanoseconds they took.
fn visited<
    B: Since<AnyJob> + Send + Sync,
    K: Desk<Quantum<AnyJob>, Done<AnyJob>> + Drop + Send + Sync,
    R: Threads + Wait + Clock + Print + Sync,
>(
    rt: &R,
    alloc: Global,
    front: &Front<AnyJob, B, K>,
    passes: Vec<Pass<AnyJob, B>>,
    plan: Plan,
) -> Result<(Vec<Visit<B>>, u128), RunFailure>
where
    K::Seat: Drop + Send,
{
    let Ok(start) = Instant::now(rt) else {
        return Err(RunFailure::NoClock);
    };
    let visits = thread::map_vec(
        rt,
        passes,
        &|pass: Pass<AnyJob, B>| { client(rt, alloc, front, pass, plan) },
    );
    let Ok(took) = start.elapsed(rt) else {
        return Err(RunFailure::NoClock);
    };
    match visits {
        Ok(visits) => Ok((visits, took.as_nanos())),
        Err(_) => Err(RunFailure::NoMemory),
    }
}

/// Serves all clients of a plan over a store in a file.
pub fn serve_file<R: Threads + Wait + Clock + Print + Copy + Drop + Send + Sync + 'static>(
    rt: R,
    alloc: Global,
    names: Names<AnyJob>,
    store: Store<FileDisk, AnyJob>,
    desk: JobDesk,
    plan: Plan,
) -> Result<Outcome, RunFailure>
    requires { BeginsHonest any_kind store (file_view store.file.disk) }
{
    serve::<Brand, JobDesk, FileDisk, R>(rt, alloc, names, store, desk, plan)
}
