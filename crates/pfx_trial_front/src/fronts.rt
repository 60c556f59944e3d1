//! How sessions start a front and end it.
ghost use Rattle.std.specs.Prelude.{◌≡◌};
ghost use Rattle.pfx_kinds.specs.AnyKind.{any_kind};
ghost use Rattle.pfx_front.specs.Starting.{Begins};

use pfx_book::book::Pass;
use pfx_crew::desk::Desk;
use pfx_disk::Disk;
use pfx_fault::Cause;
use pfx_front::calls::Front;
use pfx_front::closing::{Closed, Given};
use pfx_front::name::{Names, Since};
use pfx_front::start::Crew;
use pfx_front_board::reader::Reader;
use pfx_jobs::quantum::{Done, Quantum};
use pfx_kinds::any::AnyJob;
use pfx_store::Store;
use std::alloc::Global;
use std::sync::Wait;
use std::thread::Threads;
use std::time::Clock;

/// A front, its threads, which are to be joined, and a reader.
pub type Served<B, D, K, R> = (
    Front<AnyJob, B, K>,
    Crew<AnyJob, B, D, K, R>,
    Vec<Reader<AnyJob, B>>,
);

/// What a front left.
#[derive(Drop)]
pub struct Ended {
    /// The number of the store's last command.
    pub number: u64,
    /// Whether the store is broken.
    pub broken: bool,
    /// The number of the book's last mark.
    pub marked: u64,
    /// Why the flusher gave up.
    pub failure: Option<Cause>,
    /// Of each reader, whether it saw the last publication.
    pub looked: Vec<bool>,
    /// How many passes came back.
    pub passes: usize,
}

/// Starts a front.
pub fn begin<
    B: Since<AnyJob> + Send + Sync + 'static,
    K: Desk<Quantum<AnyJob>, Done<AnyJob>> + Drop + Send + Sync + 'static,
    D: Disk + Drop + Send + 'static,
    R: Threads + Wait + Clock + Copy + Drop + Send + Sync + 'static,
>(
    rt: R,
    alloc: Global,
    names: Names<AnyJob>,
    store: Store<D, AnyJob>,
    desk: K,
    workers: u32,
) -> Option<Served<B, D, K, R>>
where
    K::Seat: Drop + Send + 'static,
    requires named { (names.tokens.table.shared.table_id ≡ B.table) × (names.list.seen.book ≡ B.book) × (B.origin ≡ B.start) }
    requires calls { (names.calls.seen.book ≡ B.calls) × (names.marks.seen.book ≡ B.marks) }
    requires begins { Begins any_kind B.start B.failures B.clock B.held B.image store (D.view store.file.disk) }
{
    Front::<AnyJob, B, K>::start::<D, R>(rt, alloc, names, store, desk, workers, 1).ok()
}

/// What a closed front left, and its disk.
pub fn left_by<B: Since<AnyJob>, D: Disk + Drop>(closed: Closed<AnyJob, B, D>) -> (Ended, D) {
    let Closed {
        store,
        book,
        given,
        looked,
    } = closed;
    let left = Ended {
        number: store.state().number(),
        broken: store.is_broken(),
        marked: book.marked(),
        failure: book.failure(),
        looked,
        passes: given.passes.len(),
    };
    (left, store.into_disk())
}

/// Ends a front.
pub fn end<
    B: Since<AnyJob>,
    K: Desk<Quantum<AnyJob>, Done<AnyJob>> + Drop,
    D: Disk + Drop,
    R: Threads + Wait + Drop,
>(rt: &R, served: Served<B, D, K, R>, passes: Vec<Pass<AnyJob, B>>) -> Option<Ended>
where
    K::Seat: Drop,
{
    let (front, crew, readers) = served;
    match front.close(rt, crew, Given { passes, readers }) {
        Ok(closed) => Some(left_by(closed).0),
        Err(_) => None,
    }
}

/// Whether the closed front ends at this number, and all of it is durable.
pub fn is_kept(ended: &Ended, number: u64) -> bool {
    let settled = ended.failure.is_none() && ended.marked == number;
    settled && ended.number == number && !ended.broken
}

/// Whether so many readers looked, each of whom saw the last publication.
pub fn have_looked(looked: &[bool], readers: usize) -> bool {
    for did in looked {
        if !*did {
            return false;
        }
    }
    looked.len() == readers
}
