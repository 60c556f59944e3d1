//! The end of a front.
//!
//! Why it is so:
//! - **That a device which is said to have failed has is asked of the disk itself when the front is closed**: the disk that tells its
//!   calls may fail where the one behind it didn't, if its list hasn't grown or a write goes past the end. That never happens, and if it
//!   did the close would wait for ever. In the same way it is asked of the store whether it is whole where memory is said to have been
//!   refused.
//! - **Readers are asked once more by `close`**, which tells each of the last publication; one that looked has seen a prefix of the
//!   commands, which the store has. Room for their answers is taken at the start, so a close takes no memory.
ghost use Rattle.std.specs.Prelude.{◌≡◌, ◌≢◌, ◌+◌, ◌-◌, [], length, map, Some, true, false, IfOk, IfErr, IfSome, IfNone, IsTrue, IsPermutation};
ghost use Rattle.pfx_disk_chronicle.specs.Chart.{noted_view};
ghost use Rattle.pfx_disk.specs.Disk.{IsHonest};
ghost use Rattle.pfx_fault.specs.declared.fields.Cause.TheVariants.{Memory, Log};
ghost use Rattle.pfx_book.specs.Merging.{numbers_from};
ghost use Rattle.pfx_front.specs.Closing.{IsTold, AreTold, AreLooked, AreSeen, IsSession, IsShort, IsStored, IsHeld, StaysWhole};
ghost use Rattle.pfx_front.specs.Keeping.{Behind};
ghost use Rattle.pfx_front.specs.Showing.{IsShown};
ghost use Rattle.pfx_store.specs.Keepers.{failure_of};
ghost use Rattle.pfx_front.specs.declared.faults.CloseFault.TheVariants.{PassOut};

use crate::before::Before;
use crate::calls::Front;
use crate::faults::CloseFault;
use crate::flusher::Flushed;
use crate::monitor::Monitor;
use crate::name::Since;
use crate::start::{Crew, Hands, KeptCrew, dismiss};
use pfx_book::book::{Book, Pass, Share};
use pfx_crew::desk::Desk;
use pfx_disk::Disk;
use pfx_disk_chronicle::chronicle::Chronicle;
use pfx_fault::Cause;
use pfx_front_board::publisher::Publisher;
use pfx_front_board::reader::Reader;
use pfx_front_board::shown::Shown;
use pfx_front_board::word::Word;
use pfx_jobs::job::Job;
use pfx_jobs::quantum::{Done, Quantum};
use pfx_store::{BatchKeeper, Store};
use std::marker::PhantomData;
use std::sync::Wait;
use std::thread::Threads;

/// What `close` is given: all that `start` and `pass` gave out.
#[derive(Drop)]
pub struct Given<J: Job, B: Since<J>> {
    /// The passes.
    pub passes: Vec<Pass<J, B>>,
    /// The readers of the board.
    pub readers: Vec<Reader<J, B>>,
}

/// What a front leaves.
#[derive(Drop)]
pub struct Closed<J: Job, B: Since<J>, D: Disk> {
    /// The store, with what became durable.
    pub store: Store<D, J>,
    /// The session.
    pub book: Book<J, B>,
    /// The passes in the order in which they were given out, and the readers.
    pub given: Given<J, B>,
    /// Of each reader, whether it was told of the last publication and then saw just that.
    pub looked: Vec<bool>,
}

/// What a front at a keeper leaves.
#[derive(Drop)]
pub struct Left<J: Job, B: Since<J>, D: Disk, S: BatchKeeper<D, J> + Drop> {
    /// What keeps the store, with what became durable.
    pub keeper: S,
    /// The session.
    pub book: Book<J, B>,
    /// The passes in the order in which they were given out, and the readers.
    pub given: Given<J, B>,
    /// Of each reader, whether it was told of the last publication and then saw just that.
    pub looked: Vec<bool>,
    /// How often the disk had failed when the front began.
    pub before: Before<B>,
    pub(crate) disk: PhantomData<D>,
}

/// Shuts this book, if these are all its passes; else says how many are missing, and changes nothing.
fn shut<J: Job, B: Since<J>>(book: &mut Book<J, B>, passes: &mut Vec<Pass<J, B>>) -> Option<u8>
    ensures passes { passes.new.items ≡ passes.old.items }
    ensures shut { IfNone result (book.new ≡ record book.old { shut = true }) }
    ensures kept { IfSome result (λ count. book.new ≡ book.old) }
    ensures count { IfSome result (λ count. count ≡ book.old.passes - length passes.old.items) }
    ensures short { IfSome result (λ count. map (λ p. p.0) passes.old.items ≢ numbers_from 1 book.old.passes) }
{
    if book.gathered(passes) {
        book.shut();
        return None;
    }
    let out = book.passes();
    let given = passes.len();
    if given < out as usize {
        return Some(out - given as u8);
    }
    Some(0)
}

/// Shuts the book, if these are all passes; else says how many are missing, and changes nothing.
fn shut_in<J: Job, B: Since<J>, R: Wait>(
    rt: &R,
    monitor: &Monitor<J, B>,
    passes: &mut Vec<Pass<J, B>>,
) -> Option<u8>
    ensures passes { passes.new.items ≡ passes.old.items }
    ensures short { IfSome result (λ count. IsShort passes.old.items (PassOut count)) }
{
    let mut guard = monitor.book.lock(rt);
    match &mut *guard {
        Some(book) => shut(book, passes),
        None => None,
    }
}

/// Whether the client of this pass wasn't told of another failure than this one, nor of another mark than the last one.
fn is_told<J: Job, B: Since<J>>(failure: Option<Cause>, last: u64, pass: &Pass<J, B>) -> bool
    ensures { IsTrue result → IsTold failure last pass.now }
{
    match pass.lost() {
        None => true,
        Some(loss) => failure == Some(loss.cause) && loss.marked == last,
    }
}

/// Whether no client was told of another failure than this one, nor of another mark than the last one.
fn are_told<J: Job, B: Since<J>>(failure: Option<Cause>, last: u64, passes: &[Pass<J, B>]) -> bool
    ensures { IsTrue result → AreTold failure last passes.now }
{
    let mut i = 0;
    while i < passes.len() {
        if !is_told(failure, last, &passes[i]) {
            return false;
        }
        i += 1;
    }
    true
}

/// Tells each reader of the last publication, and has it look. `false` if there is no room for an answer of each.
fn look_all<J: Job, B: Since<J>>(
    last: &Word<J, B>,
    readers: &mut Vec<Reader<J, B>>,
    looked: &mut Vec<bool>,
) -> bool
    requires { looked.old.items ≡ [] }
    ensures { IsTrue result → AreLooked last.now readers.old.items readers.new.items looked.new.items }
{
    let mut i = 0;
    while i < readers.len() {
        let saw = readers[i].looks(last);
        if looked.push(saw).is_err() {
            return false;
        }
        i += 1;
    }
    true
}

/// Looks at the book, all passes and the share together: whether session, store and board have come to what a front leaves.
fn is_ended<J: Job, B: Since<J>, D: Disk, S: BatchKeeper<D, J> + Drop, R: Wait + Drop>(
    book: &mut Book<J, B>,
    share: &mut Share<J, B>,
    _keeper: &S,
    publisher: &Publisher<J, B, R>,
    passes: &mut Vec<Pass<J, B>>,
    readers: &mut Vec<Reader<J, B>>,
    looked: &mut Vec<bool>,
) -> bool
    requires behind { Behind J.kind B.start B.failures B.clock share.old (S.failed _keeper.now) (S.kept _keeper.now).file.broken
        (S.kept _keeper.now).state (D.view (S.kept _keeper.now).file.disk) }
    requires shown { IsShown J.kind B.start share.old publisher.now.batches (S.kept _keeper.now).state }
    ensures passes { IsTrue result → passes.new.items ≡ passes.old.items }
    ensures session { IsTrue result → IsSession J.kind B.start book.new passes.new.items }
    ensures told { IsTrue result → AreTold book.new.failure (B.start.number + book.new.session.marked) passes.new.items }
    ensures store { IsTrue result → IsStored J.kind B.start B.failures book.new (S.kept _keeper.now).state (D.view (S.kept _keeper.now).file.disk) }
    ensures images { IsTrue result → IsHonest (D.view (S.kept _keeper.now).file.disk)
        → IsHeld J.kind B.start B.clock book.new (D.view (S.kept _keeper.now).file.disk) }
    ensures readers { IsTrue result → AreSeen J.kind B.start book.new (S.kept _keeper.now).state readers.old.items readers.new.items looked.new.items }
    ensures whole { IsTrue result → StaysWhole book.new.failure (S.failed _keeper.now) (S.kept _keeper.now).file.broken }
{
    looked.clear();
    if !book.gathered(passes) {
        return false;
    }
    if book.failure().is_none() && !book.is_settled() {
        return false;
    }
    if !are_told(book.failure(), book.marked(), passes) {
        return false;
    }
    book.settled(share);
    book.legal();
    look_all(publisher.published(), readers, looked)
}

/// What a front leaves, if all of it has come to that.
fn ended<J: Job, B: Since<J>, D: Disk, S: BatchKeeper<D, J> + Drop, R: Wait + Drop>(
    book: Book<J, B>,
    flushed: Flushed<J, B, D, S, Shown<J, B>, R>,
    given: Given<J, B>,
    looked: Vec<bool>,
    before: Before<B>,
) -> Option<Left<J, B, D, S>>
    ensures passes { IfSome result (λ c. c.given.passes.items ≡ given.passes.items) }
    ensures session { IfSome result (λ c. IsSession J.kind B.start c.book c.given.passes.items) }
    ensures told { IfSome result (λ c. AreTold c.book.failure (B.start.number + c.book.session.marked) c.given.passes.items) }
    ensures store { IfSome result (λ c. IsStored J.kind B.start B.failures c.book (S.kept c.keeper).state (D.view (S.kept c.keeper).file.disk)) }
    ensures images { IfSome result (λ c. IsHonest (D.view (S.kept c.keeper).file.disk)
        → IsHeld J.kind B.start B.clock c.book (D.view (S.kept c.keeper).file.disk)) }
    ensures readers { IfSome result (λ c. AreSeen J.kind B.start c.book (S.kept c.keeper).state given.readers.items c.given.readers.items c.looked.items) }
    ensures whole { IfSome result (λ c. StaysWhole c.book.failure (S.failed c.keeper) (S.kept c.keeper).file.broken) }
{
    let mut book = book;
    let Flushed {
        mut share,
        keeper,
        publisher,
        ..
    } = flushed;
    let Given {
        mut passes,
        mut readers,
    } = given;
    let mut looked = looked;
    if !is_ended::<J, B, D, S, R>(
        &mut book,
        &mut share,
        &keeper,
        &publisher,
        &mut passes,
        &mut readers,
        &mut looked,
    ) {
        return None;
    }
    Some(Left {
        keeper,
        book,
        given: Given { passes, readers },
        looked,
        before,
        disk: PhantomData,
    })
}

/// Whether the store is whole, if it is for memory that the flusher gave up.
fn is_whole_for<J: Job, D: Disk>(failure: Option<Cause>, store: &Store<D, J>) -> bool
    ensures { IsTrue result → failure ≡ Some Memory → store.now.file.broken ≡ false }
{
    match failure {
        Some(Cause::Memory) => !store.is_broken(),
        _ => true,
    }
}

/// The store on the disk itself, which has gone along with what was told of it. `None` if the flusher gave up for a device that
/// hasn't failed, or for memory where the store is broken.
fn told<J: Job, B: Since<J>, D: Disk + Drop>(
    before: &Before<B>,
    book: &Book<J, B>,
    store: Store<Chronicle<D, B>, J>,
) -> Option<Store<D, J>>
    requires store { IsStored J.kind B.start B.failures book.now store.state (noted_view B.held B.image B.clock B.failures store.file.disk) }
    requires images { IsHonest (noted_view B.held B.image B.clock B.failures store.file.disk)
        → IsHeld J.kind B.start B.clock book.now (noted_view B.held B.image B.clock B.failures store.file.disk) }
    requires whole { StaysWhole book.now.failure (failure_of store) store.file.broken }
    ensures state { IfSome result (λ s. s.state ≡ store.state) }
    ensures store { IfSome result (λ s. IsStored J.kind B.start B.failures book.now s.state (D.view s.file.disk)) }
    ensures images { IfSome result (λ s. IsHonest (D.view s.file.disk) → IsHeld J.kind B.start B.clock book.now (D.view s.file.disk)) }
    ensures whole { IfSome result (λ s. book.now.failure ≡ Some Memory → s.file.broken ≡ false) }
    ensures no_log { IfSome result (λ s. book.now.failure ≢ Some Log) }
{
    let store = store.told();
    let failure = book.failure();
    if before.backs(failure, store.disk()) && is_whole_for(failure, &store) {
        return Some(store);
    }
    None
}

impl<J: Job, B: Since<J>, K: Desk<Quantum<J>, Done<J>> + Drop> Front<J, B, K>
where
    K::Seat: Drop,
{
    /// Ends the front: nothing more is accepted, what was accepted becomes durable unless the store has failed, and all threads
    /// are joined. It takes the passes in any order. Each reader is then told of the board's last publication, and looks.
    ///
    /// The store comes back on the disk itself. Of what comes back it says: the session is the merge of the passes' notes, and
    /// legal, so each answer is the machine's; a client that was told of a failure was told of the session's; the store is the
    /// outcome of its first commands, of all up to the last mark, and of all of them unless the store has failed, which it is
    /// said to have by `Device` only if the disk has; where the flusher gave up for `Memory` the store is whole; each image that
    /// a stop may leave since a receipt's moment is recovered to the outcome of first commands, the receipt's among them; and
    /// what a reader that looked has seen are first commands that the store has.
    ///
    /// `PassOut` says that a pass is missing, or is another front's; then nothing has ended, and all comes back as it was, the passes
    /// perhaps in another order. Of the front's book, which is under its lock, no clause says so.
    pub fn close<D: Disk + Drop, R: Threads + Wait + Drop>(
        self,
        rt: &R,
        crew: Crew<J, B, D, K, R>,
        given: Given<J, B>,
    ) -> Result<Closed<J, B, D>, (CloseFault, Front<J, B, K>, Crew<J, B, D, K, R>, Given<J, B>)>
        ensures passes { IfOk result (λ c. IsPermutation given.passes.items c.given.passes.items) }
        ensures back { IfErr result (λ e. IsPermutation given.passes.items e.3.passes.items × (e.3.readers.items ≡ given.readers.items)) }
        ensures unchanged { IfErr result (λ e. (e.1 ≡ self) × (e.2 ≡ crew)) }
        ensures short { IfErr result (λ e. IsShort e.3.passes.items e.0) }
        ensures session { IfOk result (λ c. IsSession J.kind B.start c.book c.given.passes.items) }
        ensures told { IfOk result (λ c. AreTold c.book.failure (B.start.number + c.book.session.marked) c.given.passes.items) }
        ensures store { IfOk result (λ c. IsStored J.kind B.start B.failures c.book c.store.state (D.view c.store.file.disk)) }
        ensures images { IfOk result (λ c. IsHonest (D.view c.store.file.disk) → IsHeld J.kind B.start B.clock c.book (D.view c.store.file.disk)) }
        ensures readers { IfOk result (λ c. AreSeen J.kind B.start c.book c.store.state given.readers.items c.given.readers.items c.looked.items) }
        ensures whole { IfOk result (λ c. c.book.failure ≡ Some Memory → c.store.file.broken ≡ false) }
        ensures no_log { IfOk result (λ c. c.book.failure ≢ Some Log) }
    {
        match self.close_kept(rt, crew, given) {
            Err(open) => Err(open),
            Ok(left) => {
                let Left {
                    keeper,
                    book,
                    given,
                    looked,
                    before,
                    ..
                } = left;
                if let Some(store) = told(&before, &book, keeper) {
                    return Ok(Closed {
                        store,
                        book,
                        given,
                        looked,
                    });
                }

                // A device that is said to have failed has, and where memory is said to have been refused no call has failed.
                for _ in rt.forever() {}
                unreachable!()
            }
        }
    }

    /// Ends a front at a keeper, as `close` does one at a store.
    ///
    /// What keeps the store comes back as it is. Of it and of what comes back with it the same is said; and where the flusher gave up
    /// for the log, the log has failed, and the store is whole.
    pub fn close_kept<D: Disk, S: BatchKeeper<D, J> + Drop, R: Threads + Wait + Drop>(
        self,
        rt: &R,
        crew: KeptCrew<J, B, D, S, K, R>,
        given: Given<J, B>,
    ) -> Result<
        Left<J, B, D, S>,
        (
            CloseFault,
            Front<J, B, K>,
            KeptCrew<J, B, D, S, K, R>,
            Given<J, B>,
        ),
    >
        ensures passes { IfOk result (λ c. IsPermutation given.passes.items c.given.passes.items) }
        ensures back { IfErr result (λ e. IsPermutation given.passes.items e.3.passes.items × (e.3.readers.items ≡ given.readers.items)) }
        ensures unchanged { IfErr result (λ e. (e.1 ≡ self) × (e.2 ≡ crew)) }
        ensures short { IfErr result (λ e. IsShort e.3.passes.items e.0) }
        ensures session { IfOk result (λ c. IsSession J.kind B.start c.book c.given.passes.items) }
        ensures told { IfOk result (λ c. AreTold c.book.failure (B.start.number + c.book.session.marked) c.given.passes.items) }
        ensures store { IfOk result (λ c. IsStored J.kind B.start B.failures c.book (S.kept c.keeper).state (D.view (S.kept c.keeper).file.disk)) }
        ensures images { IfOk result (λ c. IsHonest (D.view (S.kept c.keeper).file.disk)
            → IsHeld J.kind B.start B.clock c.book (D.view (S.kept c.keeper).file.disk)) }
        ensures readers { IfOk result (λ c. AreSeen J.kind B.start c.book (S.kept c.keeper).state given.readers.items c.given.readers.items c.looked.items) }
        ensures whole { IfOk result (λ c. StaysWhole c.book.failure (S.failed c.keeper) (S.kept c.keeper).file.broken) }
    {
        let Given {
            mut passes,
            readers,
        } = given;
        passes.sort_unstable_by_key(|pass| pass.number());
        let shared = &*self.shared;
        if let Some(count) = shut_in(rt, &shared.monitor, &mut passes) {
            let given = Given { passes, readers };
            return Err((CloseFault::PassOut { count }, self, crew, given));
        }
        shared.monitor.work.notify_all();
        let Hands {
            flusher,
            workers,
            looked,
            before,
        } = crew;
        let flushed = flusher.join(rt);
        dismiss(rt, shared, workers);
        if let Some(book) = shared.monitor.book.lock(rt).take() {
            let given = Given { passes, readers };
            if let Some(left) = ended(book, flushed, given, looked, before) {
                return Ok(left);
            }
        }

        // The flusher's thread has ended, so all is marked or the store has failed; only this call takes the book out; and there
        // is room for an answer of each reader since the start.
        for _ in rt.forever() {}
        unreachable!()
    }
}
