//! What the clients of a front do in each test, and the front of a new store at which they do it.
ghost use Rattle.std.specs.Prelude.{◌≡◌};
ghost use Rattle.pfx_kinds.specs.AnyKind.{any_kind};
ghost use Rattle.pfx_front.specs.Starting.{Begins, BeginsHonest};

use crate::fronts::{Ended, Served, begin, end};
use crate::late::LateDesk;
use crate::service::Service;
use crate::stores::{SEGMENT, desk, memory, thirds_by};
use crate::{clients, held, lost, many, missed, passes, pieces, served, sole};
use pfx_book::book::Pass;
use pfx_crew::desk::Desk;
use pfx_disk::{Disk, Latch};
use pfx_front::calls::Front;
use pfx_front::name::{Names, Since};
use pfx_front_board::reader::Reader;
use pfx_jobs::quantum::{Done, Quantum};
use pfx_kinds::any::AnyJob;
use pfx_store::Store;
use std::alloc::Global;
use std::marker::Brand;
use std::sync::Wait;
use std::thread::Threads;
use std::time::Clock;

/// What the clients of a front do.
#[derive(Drop)]
pub enum Session {
    /// `served`, with so many workers.
    Served { workers: u32 },
    /// `passes`.
    Passes,
    /// `sole`.
    Sole,
    /// `many`.
    Many,
    /// `missed`.
    Missed,
    /// `clients`.
    Clients,
    /// `held`, with the latch of the disk.
    Held { latch: Latch },
    /// `lost`.
    Lost,
    /// `pieces`, with the latch of the disk.
    HeldPiece { latch: Latch },
    /// `pieces`, where the disk fails.
    LostPiece,
}

/// Whether all was answered as it should be, and the clients' passes.
pub type Visit<P> = (bool, Vec<P>);

/// The visit of one client.
pub fn alone<P: Drop>(alloc: Global, answered: bool, pass: P) -> Option<Visit<P>> {
    let mut passes = Vec::new(alloc);
    passes.push(pass).ok()?;
    Some((answered, passes))
}

/// The visit of two clients.
pub fn both<P: Drop>(alloc: Global, answered: bool, one: P, other: P) -> Option<Visit<P>> {
    let mut passes = Vec::new(alloc);
    passes.push(one).ok()?;
    passes.push(other).ok()?;
    Some((answered, passes))
}

/// How many workers there are.
fn workers_of(session: &Session) -> u32 {
    match session {
        Session::Served { workers } => *workers,
        Session::Sole => 1,
        Session::Many | Session::Missed | Session::Clients => 2,
        _ => 0,
    }
}

/// What the clients of a session in one thread come to.
fn visit_alone<F: Service, R: Wait>(
    rt: &R,
    alloc: Global,
    front: &F,
    reader: &mut F::Reader,
    session: &Session,
) -> Option<Visit<F::Pass>> {
    match session {
        Session::Served { .. } => served::visit(rt, alloc, front, reader),
        Session::Passes => passes::visit(rt, alloc, front),
        Session::Sole => sole::visit(rt, alloc, front),
        Session::Missed => missed::visit(rt, alloc, front),
        Session::Held { latch } => held::visit(rt, alloc, front, reader, latch),
        Session::Lost => lost::visit(rt, alloc, front),
        Session::HeldPiece { latch } => pieces::visit_held(rt, alloc, front, latch),
        Session::LostPiece => pieces::visit_lost(rt, alloc, front),
        Session::Many | Session::Clients => None,
    }
}

/// What the clients of a session come to. Sessions with threads have to know the front that they share.
fn visit<
    B: Since<AnyJob> + Send + Sync,
    K: Desk<Quantum<AnyJob>, Done<AnyJob>> + Drop + Send + Sync,
    R: Threads + Wait + Sync,
>(
    rt: &R,
    alloc: Global,
    front: &Front<AnyJob, B, K>,
    reader: &mut Reader<AnyJob, B>,
    session: &Session,
) -> Option<Visit<Pass<AnyJob, B>>>
where
    K::Seat: Drop + Send,
{
    match session {
        Session::Many => many::visit(rt, alloc, front),
        Session::Clients => clients::visit(rt, alloc, front),
        _ => visit_alone(rt, alloc, front, reader, session),
    }
}

/// Whether the front that a session was at left what it should.
fn has_ended(session: &Session, ended: &Ended) -> bool {
    match session {
        Session::Served { .. } => served::has_ended(ended),
        Session::Passes => passes::has_ended(ended),
        Session::Sole => sole::has_ended(ended),
        Session::Many => many::has_ended(ended),
        Session::Missed => missed::has_ended(ended),
        Session::Clients => clients::has_ended(ended),
        Session::Held { .. } => held::has_ended(ended),
        Session::Lost => lost::has_ended(ended),
        Session::HeldPiece { .. } => pieces::has_ended(ended),
        Session::LostPiece => pieces::has_failed(ended),
    }
}

/// The same at a front with a reader.
fn visit_served<
    B: Since<AnyJob> + Send + Sync,
    K: Desk<Quantum<AnyJob>, Done<AnyJob>> + Drop + Send + Sync,
    D: Disk + Drop,
    R: Threads + Wait + Drop + Sync,
>(
    rt: &R,
    alloc: Global,
    served: &mut Served<B, D, K, R>,
    session: &Session,
) -> Option<Visit<Pass<AnyJob, B>>>
where
    K::Seat: Drop + Send,
{
    let reader = served.2.get_mut(0)?;
    visit(rt, alloc, &served.0, reader, session)
}

/// Whether the front of a session ends as it should.
fn ends<
    B: Since<AnyJob>,
    K: Desk<Quantum<AnyJob>, Done<AnyJob>> + Drop,
    D: Disk + Drop,
    R: Threads + Wait + Drop,
>(
    rt: &R,
    alloc: Global,
    served: Served<B, D, K, R>,
    passes: Vec<Pass<AnyJob, B>>,
    session: &Session,
) -> Option<bool>
where
    K::Seat: Drop,
{
    if matches!(session, Session::Served { .. }) {
        return served::is_ended(rt, alloc, served, passes);
    }
    match end(rt, served, passes) {
        Some(ended) => Some(has_ended(session, &ended)),
        None => None,
    }
}

/// Whether all is as it should be in a session at a front of this store.
fn serve<
    B: Since<AnyJob> + Send + Sync + 'static,
    K: Desk<Quantum<AnyJob>, Done<AnyJob>> + Drop + Send + Sync + 'static,
    D: Disk + Drop + Send + 'static,
    R: Threads + Wait + Clock + Copy + Drop + Send + Sync + 'static,
>(
    rt: R,
    alloc: Global,
    names: Names<AnyJob>,
    store: Store<D, AnyJob>,
    desk: K,
    session: Session,
) -> Option<bool>
where
    K::Seat: Drop + Send + 'static,
    requires named { (names.tokens.table.shared.table_id ≡ B.table) × (names.list.seen.book ≡ B.book) × (B.origin ≡ B.start) }
    requires calls { (names.calls.seen.book ≡ B.calls) × (names.marks.seen.book ≡ B.marks) }
    requires begins { Begins any_kind B.start B.failures B.clock B.held B.image store (D.view store.file.disk) }
{
    let workers = workers_of(&session);
    let mut served = begin::<B, K, D, R>(rt, alloc, names, store, desk, workers)?;
    let (answered, passes) = visit_served(&rt, alloc, &mut served, &session)?;
    let ended = ends(&rt, alloc, served, passes, &session)?;
    Some(answered && ended)
}

/// The same by a name of its own.
fn serve_named<
    K: Desk<Quantum<AnyJob>, Done<AnyJob>> + Drop + Send + Sync + 'static,
    D: Disk + Drop + Send + 'static,
    R: Threads + Wait + Clock + Copy + Drop + Send + Sync + 'static,
>(
    rt: R,
    alloc: Global,
    names: Names<AnyJob>,
    store: Store<D, AnyJob>,
    desk: K,
    session: Session,
) -> Option<bool>
where
    K::Seat: Drop + Send + 'static,
    requires { BeginsHonest any_kind store (D.view store.file.disk) }
{
    serve::<Brand, K, D, R>(rt, alloc, names, store, desk, session)
}

/// Whether all is as it should be in a session at a front of a new store on this disk, with segments of this length in bytes.
fn is_right<
    K: Desk<Quantum<AnyJob>, Done<AnyJob>> + Drop + Send + Sync + 'static,
    D: Disk + Drop + Send + 'static,
    R: Threads + Wait + Clock + Copy + Drop + Send + Sync + 'static,
>(rt: R, alloc: Global, disk: D, segment: u32, desk: K, session: Session) -> Option<bool>
where
    K::Seat: Drop + Send + 'static,
{
    let store = thirds_by(alloc, disk, segment)?;
    serve_named(rt, alloc, Names::new(alloc).ok()?, store, desk, session)
}

/// The same at a desk of channels, which is late where that is the session.
pub fn on_disk<
    D: Disk + Drop + Send + 'static,
    R: Threads + Wait + Clock + Copy + Drop + Send + Sync + 'static,
>(rt: R, alloc: Global, disk: D, segment: u32, session: Session) -> Option<bool> {
    let is_late = matches!(session, Session::Missed);
    let (desk, marks) = LateDesk::new(alloc, desk(alloc)?, is_late).ok()?;
    let served = is_right(rt, alloc, disk, segment, desk, session)?;
    Some(served && (!is_late || marks.is_made_again()))
}

/// The same of a store in memory, with segments that hold what the tests do.
pub fn in_memory<R: Threads + Wait + Clock + Copy + Drop + Send + Sync + 'static>(
    rt: R,
    alloc: Global,
    session: Session,
) -> Option<bool> {
    on_disk(rt, alloc, memory(alloc)?, SEGMENT, session)
}
