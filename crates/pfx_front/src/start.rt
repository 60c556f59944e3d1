//! A front with its threads.
//!
//! Why it is so:
//! - **The flusher's thread is started before it is given the store**, which it finds in a mailbox: a thread that can't be started would
//!   otherwise have taken the store with it, and a refusal gives it back as it was.
//! - **A front moves the store onto a disk that tells its calls, and back when it is closed**, so that callers keep their types. What a
//!   closed front says is said of the disk itself: it has left nothing that its calls don't leave. The premise under which receipts hold
//!   is part of the front's name: of a disk that is honest it follows, and of a file it is that it held some bytes that stand for the
//!   store.
ghost use Rattle.std.specs.Prelude.{◌≡◌, ◌<◌, ◌≤◌, ◌∷◌, [], replicate, Some, None, false, IfOk, IfErr, IsTrue, vec_len, vec_capacity};
ghost use Rattle.pfx_front_board.specs.Word.{records_of};
ghost use Rattle.pfx_disk_chronicle.specs.Chart.{noted_view};
ghost use Rattle.pfx_book.specs.declared.note.Note.TheVariants.{Marked};
ghost use Rattle.pfx_front.specs.Starting.{Begins, IsFresh};
ghost use Rattle.pfx_record_redo.specs.Applying.{applied};

use crate::before::Before;
use crate::calls::{Front, Shared};
use crate::durable::{Durable, moment_of};
use crate::faults::StartFault;
use crate::flusher::{Flushed, Flusher, flush};
use crate::marking::Marking;
use crate::monitor::Monitor;
use crate::name::{Lists, Names, Since};
use left_right::Absorb;
use pfx_book::book::{Book, Share};
use pfx_book::note::Note;
use pfx_crew::desk::Desk;
use pfx_crew::work::worker;
use pfx_disk::Disk;
use pfx_disk_chronicle::chronicle::{Chronicle, Logged};
use pfx_front_board::publisher::{BoardWriter, Publisher};
use pfx_front_board::reader::Reader;
use pfx_front_board::shown::Shown;
use pfx_front_board::word::Word;
use pfx_jobs::job::Job;
use pfx_jobs::quantum::{Done, Quantum};
use pfx_record::{Batch, Record};
use pfx_store::{BatchKeeper, Store};
use pfx_token::past;
use pfx_token::tokens::UnnamedKeeper;
use std::alloc::{AllocError, Global};
use std::marker::PhantomData;
use std::sync::{Arc, Condvar, Mutex, Wait};
use std::thread::{self, JoinHandle, Threads};
use std::time::Clock;

/// The threads of a front at a store. `Front::close` joins them.
pub type Crew<J, B, D, K, R> = KeptCrew<J, B, Chronicle<D, B>, Store<Chronicle<D, B>, J>, K, R>;

/// The threads of a front at what keeps a store. `Front::close_kept` joins them.
pub type KeptCrew<J, B, D, S, K, R> = Hands<J, B, D, S, K, Shown<J, B>, R>;

/// A `KeptCrew`, over what each copy of the board holds: `Shown`.
#[derive(Drop)]
pub struct Hands<
    J: Job,
    B: Since<J>,
    D: Disk,
    S: BatchKeeper<D, J> + Drop,
    K: Desk<Quantum<J>, Done<J>>,
    T: Absorb<T, State = [Batch<J>; 0]> + Drop,
    R: Wait + Drop,
> {
    pub(crate) flusher: JoinHandle<Flushed<J, B, D, S, T, R>>,
    pub(crate) workers: Vec<JoinHandle<K::Seat>>,
    // Room for one answer a reader, empty.
    pub(crate) looked: Vec<bool>,
    pub(crate) before: Before<B>,
}

/// Where the flusher's thread finds what it owns. It is put in once all threads have started: until then what keeps the store can be
/// given back.
#[derive(Drop)]
struct Mailbox<
    J: Job,
    B: Since<J>,
    D: Disk,
    S: BatchKeeper<D, J> + Drop,
    T: Absorb<T, State = [Batch<J>; 0]> + Drop,
    R: Wait + Drop,
> {
    flusher: Mutex<Option<Flusher<J, B, D, S, T, R>>>,
    here: Condvar,
}

/// A mailbox that two share.
type Post<J, B, D, S, R> = Arc<Mailbox<J, B, D, S, Shown<J, B>, R>, Global>;

/// A front, its threads and its readers.
type Started<J, B, D, S, K, R> = (
    Front<J, B, K>,
    KeptCrew<J, B, D, S, K, R>,
    Vec<Reader<J, B>>,
);

/// The mailbox, the flusher's thread and the workers'.
type Manned<J, B, D, S, K, R> = (
    Post<J, B, D, S, R>,
    JoinHandle<Flushed<J, B, D, S, Shown<J, B>, R>>,
    Vec<JoinHandle<<K as Desk<Quantum<J>, Done<J>>>::Seat>>,
);

/// Waits for what is put into the mailbox.
fn fetch<J: Job, B: Since<J>, D: Disk, S: BatchKeeper<D, J> + Drop, R: Wait + Drop, W: Wait>(
    rt: &W,
    mailbox: &Mailbox<J, B, D, S, Shown<J, B>, R>,
) -> Flusher<J, B, D, S, Shown<J, B>, R> {
    for _ in rt.forever() {
        let mut guard = mailbox
            .here
            .wait_while(rt, mailbox.flusher.lock(rt), |f| f.is_none());
        if let Some(flusher) = guard.take() {
            return flusher;
        }
    }
    unreachable!()
}

/// Puts the flusher into the mailbox.
fn post<J: Job, B: Since<J>, D: Disk, S: BatchKeeper<D, J> + Drop, R: Wait + Drop, W: Wait>(
    rt: &W,
    mailbox: &Mailbox<J, B, D, S, Shown<J, B>, R>,
    flusher: Flusher<J, B, D, S, Shown<J, B>, R>,
) {
    *mailbox.flusher.lock(rt) = Some(flusher);
    mailbox.here.notify_one();
}

/// The flusher's thread.
fn flush_there<
    J: Job,
    B: Since<J>,
    D: Disk + Logged<B>,
    S: BatchKeeper<D, J> + Drop,
    K: Desk<Quantum<J>, Done<J>> + Drop,
    R: Wait + Clock + Drop,
>(
    rt: R,
    alloc: Global,
    shared: Arc<Shared<J, B, K>, Global>,
    mailbox: Arc<Mailbox<J, B, D, S, Shown<J, B>, R>, Global>,
) -> Flushed<J, B, D, S, Shown<J, B>, R>
where
    K::Seat: Drop,
{
    flush(&rt, alloc, &shared.monitor, fetch(&rt, &*mailbox))
}

/// A worker's thread.
fn work_there<J: Job, B: Since<J>, K: Desk<Quantum<J>, Done<J>> + Drop, R: Wait + Drop>(
    rt: R,
    shared: Arc<Shared<J, B, K>, Global>,
    seat: K::Seat,
) -> K::Seat
where
    K::Seat: Drop,
{
    worker::<J, R, K>(&rt, &shared.desk, seat)
}

/// Closes the desk and joins the workers.
pub(crate) fn dismiss<J: Job, B: Since<J>, K: Desk<Quantum<J>, Done<J>> + Drop, R: Threads + Wait>(
    rt: &R,
    shared: &Shared<J, B, K>,
    workers: Vec<JoinHandle<K::Seat>>,
)
where
    K::Seat: Drop,
{
    let seat = shared.seat.lock(rt).take();
    if let Some(mut seat) = seat {
        shared.desk.close(rt, &mut seat);
    }
    for worker in workers {
        let _seat = worker.join(rt);
    }
}

/// What the threads of a front share, the flusher's share of a new book, and room for a batch.
fn furnish<J: Job, B: Since<J>, D: Disk + Logged<B>, K: Desk<Quantum<J>, Done<J>> + Drop, R: Wait>(
    rt: &R,
    alloc: Global,
    tokens: UnnamedKeeper<Note<J>>,
    store: &Store<D, J>,
    durable: Durable<J, B>,
    desk: K,
    workers: u32,
) -> Result<(Arc<Shared<J, B, K>, Global>, Share<J, B>, Vec<Record<J>>), AllocError>
where
    K::Seat: Drop,
    requires table { tokens.table.shared.table_id ≡ B.table }
    requires start { store.now.state ≡ B.start }
    ensures share { IfOk result (λ r. r.1 ≡ Marked B.start.number (D.view store.now.file.disk).clock ∷ []) }
    ensures room { IfOk result (λ r. (r.2.items ≡ []) × (16 ≤ vec_capacity r.2)) }
{
    let room = Vec::with_capacity(alloc, 16)?;
    let seat = desk.seat(rt)?;
    let (book, share) = Book::new(alloc, tokens, store.state(), store.disk().clock())?;
    let shared = Arc::new(
        alloc,
        Shared {
            monitor: Monitor::new(book, durable),
            desk,
            seat: Mutex::new(Some(seat)),
            workers,
            alloc,
        },
    )?;
    Ok((shared, share, room))
}

/// A board at the store's state, with so many readers, and room for an answer of each at the end.
fn show_first<J: Job, B: Since<J>, D: Disk, R: Wait + Drop>(
    rt: R,
    alloc: Global,
    list: past::UnnamedList<Batch<J>>,
    store: &Store<D, J>,
    readers: u8,
) -> Result<(Publisher<J, B, R>, Vec<Reader<J, B>>, Vec<bool>), AllocError>
    requires book { list.seen.book ≡ B.book }
    requires origin { store.now.state ≡ B.origin }
    requires readers { 0 < readers }
    ensures publisher { IfOk result (λ r. r.0 ≡ record { batches = []; shown = [] }) }
    ensures readers { IfOk result (λ r. r.1.items ≡ replicate readers []) }
    ensures looked { IfOk result (λ r. r.2.items ≡ []) }
{
    let count = readers as usize;
    let looked = Vec::with_capacity(alloc, count)?;
    let (publisher, given) = BoardWriter::new(alloc, rt, list, store.state(), count)?;
    Ok((publisher, given, looked))
}

/// What a front has before its threads: what they share, what the flusher owns but for what keeps the store, the readers, and room for an
/// answer of each at the end.
#[derive(Drop)]
struct Outfit<J: Job, B: Since<J>, K: Desk<Quantum<J>, Done<J>>, R: Wait + Drop> {
    shared: Arc<Shared<J, B, K>, Global>,
    share: Share<J, B>,
    room: Vec<Record<J>>,
    publisher: Publisher<J, B, R>,
    marking: Marking<J, B>,
    given: Vec<Reader<J, B>>,
    looked: Vec<bool>,
}

/// The outfit of a front at this store.
fn outfit_of<
    J: Job,
    B: Since<J>,
    D: Disk + Logged<B>,
    K: Desk<Quantum<J>, Done<J>> + Drop,
    R: Wait + Copy + Drop,
>(
    rt: R,
    alloc: Global,
    lists: Lists<J>,
    store: &Store<D, J>,
    desk: K,
    workers: u32,
    readers: u8,
) -> Result<Outfit<J, B, K, R>, AllocError>
where
    K::Seat: Drop,
    requires named { (lists.tokens.table.shared.table_id ≡ B.table) × (lists.list.seen.book ≡ B.book) × (B.origin ≡ B.start) }
    requires marks { lists.marks.seen.book ≡ B.marks }
    requires readers { 0 < readers }
    requires start { store.now.state ≡ B.start }
    requires whole { store.now.file.broken ≡ false }
    ensures share { IfOk result (λ r. r.share ≡ Marked B.start.number (D.view store.now.file.disk).clock ∷ []) }
    ensures room { IfOk result (λ r. (r.room.items ≡ []) × (16 ≤ vec_capacity r.room)) }
    ensures publisher { IfOk result (λ r. r.publisher ≡ record { batches = []; shown = [] }) }
    ensures marking { IfOk result (λ r. r.marking ≡ []) }
    ensures given { IfOk result (λ r. r.given.items ≡ replicate readers []) }
{
    let Lists {
        tokens,
        list,
        marks,
    } = lists;
    let (publisher, given, looked) = show_first::<J, B, D, R>(rt, alloc, list, store, readers)?;
    let word = publisher.published().again();
    let marking = Marking::new(marks);
    let durable = Durable::new(word, moment_of(store), marking.marked(), None);
    let (shared, share, room) = furnish::<J, B, D, K, R>(
        &rt, alloc, tokens, store, durable, desk, workers,
    )?;
    Ok(Outfit {
        shared,
        share,
        room,
        publisher,
        marking,
        given,
        looked,
    })
}

/// Makes room for one thing more.
pub(crate) fn make_room<T: Drop>(list: &mut Vec<T>) -> bool
    ensures { IsTrue result → vec_len list.new < vec_capacity list.new }
{
    list.reserve(1).is_ok()
}

/// Starts so many workers.
fn hire<
    J: Job + Drop + Send + Sync + 'static,
    B: Since<J> + Send + Sync + 'static,
    K: Desk<Quantum<J>, Done<J>> + Drop + Send + Sync + 'static,
    R: Threads + Wait + Copy + Drop + Send + Sync + 'static,
>(
    rt: R,
    shared: &Arc<Shared<J, B, K>, Global>,
    hired: &mut Vec<JoinHandle<K::Seat>>,
    workers: u32,
) -> Result<(), StartFault>
where
    K::Seat: Drop + Send + 'static,
{
    for _worker in 0..workers {
        if !make_room(hired) {
            return Err(StartFault::NoMemory);
        }
        let Ok(theirs) = Arc::try_clone(shared) else {
            return Err(StartFault::NoMemory);
        };
        let Ok(seat) = theirs.desk.seat(&rt) else {
            return Err(StartFault::NoMemory);
        };
        match thread::spawn(&rt, move || work_there(rt, theirs, seat)) {
            Ok(handle) => hired.push_reserved(handle),
            Err(_) => return Err(StartFault::NoThread),
        }
    }
    Ok(())
}

/// An empty mailbox, for the one who puts in and for the one who takes out.
fn mailboxes<J: Job, B: Since<J>, D: Disk, S: BatchKeeper<D, J> + Drop, R: Wait + Drop>(
    alloc: Global,
) -> Result<(Post<J, B, D, S, R>, Post<J, B, D, S, R>), AllocError> {
    let mailbox = Arc::new(
        alloc,
        Mailbox {
            flusher: Mutex::new(None),
            here: Condvar::new(),
        },
    )?;
    let other = Arc::try_clone(&mailbox)?;
    Ok((mailbox, other))
}

/// Starts the workers and the flusher's thread, which waits at the mailbox. With a fault all that had been started are joined.
fn man<
    J: Job + Drop + Send + Sync + 'static,
    B: Since<J> + Send + Sync + 'static,
    D: Disk + Logged<B> + Drop + Send + 'static,
    S: BatchKeeper<D, J> + Drop + Send + 'static,
    K: Desk<Quantum<J>, Done<J>> + Drop + Send + Sync + 'static,
    R: Threads + Wait + Clock + Copy + Drop + Send + Sync + 'static,
>(
    rt: R,
    alloc: Global,
    shared: &Arc<Shared<J, B, K>, Global>,
    workers: u32,
) -> Result<Manned<J, B, D, S, K, R>, StartFault>
where
    K::Seat: Drop + Send + 'static,
{
    let Ok((mailbox, letters)) = mailboxes::<J, B, D, S, R>(alloc) else {
        return Err(StartFault::NoMemory);
    };
    let Ok(theirs) = Arc::try_clone(shared) else {
        return Err(StartFault::NoMemory);
    };
    let mut hired = Vec::new(alloc);
    if let Err(fault) = hire::<J, B, K, R>(rt, shared, &mut hired, workers) {
        dismiss(&rt, &**shared, hired);
        return Err(fault);
    }
    match thread::spawn(&rt, move || flush_there(rt, alloc, theirs, letters)) {
        Ok(flusher) => Ok((mailbox, flusher, hired)),
        Err(_) => {
            dismiss(&rt, &**shared, hired);
            Err(StartFault::NoThread)
        }
    }
}

/// Puts what the flusher owns into its mailbox, with what keeps the store. What is left of the outfit: what the threads share, the readers, and
/// room for an answer of each at the end.
fn hand_over<
    J: Job,
    B: Since<J>,
    D: Disk,
    S: BatchKeeper<D, J> + Drop,
    K: Desk<Quantum<J>, Done<J>>,
    R: Wait + Drop,
    W: Wait,
>(
    rt: &W,
    mailbox: &Mailbox<J, B, D, S, Shown<J, B>, R>,
    outfit: Outfit<J, B, K, R>,
    keeper: S,
) -> (Arc<Shared<J, B, K>, Global>, Vec<Reader<J, B>>, Vec<bool>)
    requires fresh { IsFresh J.kind B.start B.failures B.clock (S.kept keeper).file.broken (S.kept keeper).state (D.view (S.kept keeper).file.disk) }
    requires goes_on { S.failed keeper ≡ None }
    requires origin { B.origin ≡ B.start }
    requires share { outfit.share ≡ Marked B.start.number (D.view (S.kept keeper).file.disk).clock ∷ [] }
    requires room { (outfit.room.items ≡ []) × (16 ≤ vec_capacity outfit.room) }
    requires publisher { outfit.publisher ≡ record { batches = []; shown = [] } }
    requires marking { outfit.marking ≡ [] }
    ensures given { result.1.items ≡ outfit.given.items }
{
    let Outfit {
        shared,
        share,
        room,
        publisher,
        marking,
        given,
        looked,
    } = outfit;
    let owned = Flusher {
        share,
        keeper,
        publisher,
        room,
        marking,
        disk: PhantomData,
    };
    post(rt, mailbox, owned);
    (shared, given, looked)
}

/// A front at what keeps a store whose disk tells its calls. With a fault it comes back as it was.
fn manned<
    J: Job + Drop + Send + Sync + 'static,
    B: Since<J> + Send + Sync + 'static,
    D: Disk + Logged<B> + Drop + Send + 'static,
    S: BatchKeeper<D, J> + Drop + Send + 'static,
    K: Desk<Quantum<J>, Done<J>> + Drop + Send + Sync + 'static,
    R: Threads + Wait + Clock + Copy + Drop + Send + Sync + 'static,
>(
    rt: R,
    alloc: Global,
    lists: Lists<J>,
    keeper: S,
    desk: K,
    workers: u32,
    readers: u8,
) -> Result<Started<J, B, D, S, K, R>, (StartFault, S)>
where
    K::Seat: Drop + Send + 'static,
    requires named { (lists.tokens.table.shared.table_id ≡ B.table) × (lists.list.seen.book ≡ B.book) × (B.origin ≡ B.start) }
    requires marks { lists.marks.seen.book ≡ B.marks }
    requires readers { 0 < readers }
    requires fresh { IsFresh J.kind B.start B.failures B.clock (S.kept keeper).file.broken (S.kept keeper).state (D.view (S.kept keeper).file.disk) }
    requires goes_on { S.failed keeper ≡ None }
    ensures readers { IfOk result (λ r. r.2.items ≡ replicate readers []) }
    ensures given_back { IfErr result (λ e. e.1 ≡ keeper) }
{
    let before = Before::of(keeper.stored().disk());
    let Ok(outfit) = outfit_of::<J, B, D, K, R>(
        rt,
        alloc,
        lists,
        keeper.stored(),
        desk,
        workers,
        readers,
    ) else {
        return Err((StartFault::NoMemory, keeper));
    };
    let (mailbox, flusher, workers) = match man::<J, B, D, S, K, R>(
        rt,
        alloc,
        &outfit.shared,
        workers,
    ) {
        Ok(manned) => manned,
        Err(fault) => return Err((fault, keeper)),
    };
    let (shared, given, looked) = hand_over(&rt, &*mailbox, outfit, keeper);
    let crew = Hands {
        flusher,
        workers,
        looked,
        before,
    };
    Ok((Front { shared }, crew, given))
}

impl<
    J: Job + Drop + Send + Sync + 'static,
    B: Since<J> + Send + Sync + 'static,
    K: Desk<Quantum<J>, Done<J>> + Drop + Send + Sync + 'static,
> Front<J, B, K>
where
    K::Seat: Drop + Send + 'static,
{
    /// A front at this store: one thread for the flusher, so many workers at the desk, and so many readers of the board, who
    /// know nothing yet. With no workers each client's thread runs the quanta of its Slots.
    ///
    /// From now on the calls that are made on the disk are told in a list of `names`. The front's name says which bytes the disk
    /// held, and under which premise: it is that of each receipt. An honest disk is shown to meet it (`BeginsHonest`); of a file
    /// it is that the file held these bytes, which stand for the store.
    ///
    /// `NoThread` and `NoMemory` give the store back as it was, with all threads joined that had been started.
    pub fn start<
        D: Disk + Drop + Send + 'static,
        R: Threads + Wait + Clock + Copy + Drop + Send + Sync + 'static,
    >(
        rt: R,
        alloc: Global,
        names: Names<J>,
        store: Store<D, J>,
        desk: K,
        workers: u32,
        readers: u8,
    ) -> Result<(Front<J, B, K>, Crew<J, B, D, K, R>, Vec<Reader<J, B>>), (StartFault, Store<D, J>)>
        requires named { (names.tokens.table.shared.table_id ≡ B.table) × (names.list.seen.book ≡ B.book) × (B.origin ≡ B.start) }
        requires calls { (names.calls.seen.book ≡ B.calls) × (names.marks.seen.book ≡ B.marks) }
        requires readers { 0 < readers }
        requires begins { Begins J.kind B.start B.failures B.clock B.held B.image store (D.view store.file.disk) }
        ensures readers { IfOk result (λ r. r.2.items ≡ replicate readers []) }
        ensures given_back { IfErr result (λ e. e.1 ≡ store) }
    {
        let (lists, calls) = names.split();
        let noted = store.noted::<B>(calls);
        let _broken = noted.is_broken();
        match Front::<J, B, K>::start_kept::<Chronicle<D, B>, Store<Chronicle<D, B>, J>, R>(
            rt, alloc, lists, noted, desk, workers, readers,
        ) {
            Ok(begun) => Ok(begun),
            Err((fault, back)) => Err((fault, back.told())),
        }
    }

    /// A front at what keeps a store whose disk tells its calls already, in the list of `names` that `split` gave: a store, or one beside
    /// a log. In all else it is `start`.
    ///
    /// `NoThread` and `NoMemory` give it back as it was, with all threads joined that had been started.
    pub fn start_kept<
        D: Disk + Logged<B> + Drop + Send + 'static,
        S: BatchKeeper<D, J> + Drop + Send + 'static,
        R: Threads + Wait + Clock + Copy + Drop + Send + Sync + 'static,
    >(
        rt: R,
        alloc: Global,
        lists: Lists<J>,
        keeper: S,
        desk: K,
        workers: u32,
        readers: u8,
    ) -> Result<
        (
            Front<J, B, K>,
            KeptCrew<J, B, D, S, K, R>,
            Vec<Reader<J, B>>,
        ),
        (StartFault, S),
    >
        requires named { (lists.tokens.table.shared.table_id ≡ B.table) × (lists.list.seen.book ≡ B.book) × (B.origin ≡ B.start) }
        requires marks { lists.marks.seen.book ≡ B.marks }
        requires readers { 0 < readers }
        requires fresh { IsFresh J.kind B.start B.failures B.clock (S.kept keeper).file.broken (S.kept keeper).state (D.view (S.kept keeper).file.disk) }
        requires goes_on { S.failed keeper ≡ None }
        ensures readers { IfOk result (λ r. r.2.items ≡ replicate readers []) }
        ensures given_back { IfErr result (λ e. e.1 ≡ keeper) }
    {
        manned::<J, B, D, S, K, R>(rt, alloc, lists, keeper, desk, workers, readers)
    }
}
