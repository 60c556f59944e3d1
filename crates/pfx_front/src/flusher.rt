//! The flusher: it alone owns what keeps the store.
//!
//! Why it is so:
//! - **The store's promise is kept over the flusher's own notes.** The notes in its share are the book's: batches that were taken, marks,
//!   a failure. The flusher's type says that the store has just these frames and keeps just these marks; at the end the book is laid
//!   beside the share, and what held of the notes holds of the session. So nothing new had to be written under the lock for the theorem.
//! - **The board is published between a batch's append and its mark**, and what is durable then is left under a lock of its own before
//!   the mark. So a receipt is given with a word that reaches its number and a moment that has come to its clock, both of which the call
//!   tests rather than keeps as an invariant of the lock: nothing of the book's needs to be proved anew at each call for it. If memory is
//!   refused for the board, the flusher gives up, with the batch in the store and not marked.
ghost use Rattle.std.specs.Prelude.{◌≡◌, ◌≤◌, ◌+◌, [], ◌∷◌, ◌++◌, length, IsTrue, IfSome, IfNone, Some, None, false, vec_capacity};
ghost use Rattle.pfx_front_board.specs.Word.{records_of};
ghost use Rattle.pfx_record_redo.specs.Applying.{applied};
ghost use Rattle.pfx_fault.specs.declared.fields.Cause.TheVariants.{Memory};
ghost use Rattle.pfx_fault.specs.declared.fields.Cause.{Cause};
ghost use Rattle.pfx_book.specs.Notes.{IsRested, Noted, records_in};
ghost use Rattle.pfx_book.specs.declared.note.Note.TheVariants.{Marked, Failed};
ghost use Rattle.pfx_front.specs.Keeping.{InStep, Behind};
ghost use Rattle.pfx_front.specs.Lasting.{AreNoted};
ghost use Rattle.pfx_front.specs.Showing.{AreShown, IsShown, IsShownBefore};
ghost use Rattle.pfx_front.specs.Working.{Gives, IsTaken};

use crate::appending::append_taken;
use crate::durable::{Durable, moment_of};
use crate::gathering::{Pace, gathered};
use crate::marking::Marking;
use crate::monitor::Monitor;
use crate::name::Since;
use left_right::Absorb;
use pfx_book::book::{Book, Share};
use pfx_disk::Disk;
use pfx_disk_chronicle::chronicle::Logged;
use pfx_fault::Cause;
use pfx_front_board::publisher::BoardWriter;
use pfx_front_board::shown::Shown;
use pfx_front_board::word::Word;
use pfx_jobs::job::Job;
use pfx_record::{Batch, Record};
use pfx_store::{BatchKeeper, Mark, Store};
use std::alloc::Global;
use std::marker::{Model, PhantomData};
use std::sync::Wait;
use std::time::Clock;

/// What the flusher's thread owns: room for the records of a batch, its share of the book, what keeps the store, the board's writer, and the marks.
/// Contracts see it as the share's notes, what keeps the store and what is published, which are in step.
#[derive(Drop)]
pub struct Flusher<
    J: Job,
    B: Since<J>,
    D: Disk,
    S: BatchKeeper<D, J> + Drop,
    T: Absorb<T, State = [Batch<J>; 0]> + Drop,
    R: Wait + Drop,
> {
    pub(crate) room: Vec<Record<J>>,
    pub(crate) share: Share<J, B>,
    pub(crate) keeper: S,
    pub(crate) publisher: BoardWriter<J, B, T, R>,
    pub(crate) marking: Marking<J, B>,
    pub(crate) disk: PhantomData<D>,
}

impl<
    J: Job,
    B: Since<J>,
    D: Disk,
    S: BatchKeeper<D, J> + Drop,
    T: Absorb<T, State = [Batch<J>; 0]> + Drop,
    R: Wait + Drop,
> Model for Flusher<J, B, D, S, T, R> {
    ghost use Rattle.std.specs.Prelude.{◌≡◌, ◌≤◌, List, [], None, vec_capacity};
    ghost use Rattle.pfx_front_board.specs.Publisher.{Published};
    ghost use Rattle.pfx_book.specs.declared.note.Note.{Note};
    ghost use Rattle.pfx_front.specs.Keeping.{InStep};
    ghost use Rattle.pfx_front.specs.Lasting.{AreNoted};
    ghost use Rattle.pfx_front.specs.Showing.{AreShown};

    ghost Value = { List (Note J) × S × Published J };

    ghost view = { λ f. (f.share, f.keeper, f.publisher) };

    ghost invariant = { λ f. InStep J.kind B.start B.failures B.clock f.share (S.kept f.keeper).file.broken (S.kept f.keeper).state
        (D.view (S.kept f.keeper).file.disk)
        × AreShown f.share f.publisher.batches × (B.origin ≡ B.start)
        × (f.room.items ≡ []) × (16 ≤ vec_capacity f.room) × AreNoted f.marking f.share × (S.failed f.keeper ≡ None) };
}

/// What comes home when the flusher's thread ends. Contracts see it as the share's notes, what keeps the store, which has what its marks
/// promise, and what is published, which is what the store has.
#[derive(Drop)]
pub struct Flushed<
    J: Job,
    B: Since<J>,
    D: Disk,
    S: BatchKeeper<D, J> + Drop,
    T: Absorb<T, State = [Batch<J>; 0]> + Drop,
    R: Wait + Drop,
> {
    pub(crate) share: Share<J, B>,
    pub(crate) keeper: S,
    pub(crate) publisher: BoardWriter<J, B, T, R>,
    pub(crate) disk: PhantomData<D>,
}

impl<
    J: Job,
    B: Since<J>,
    D: Disk,
    S: BatchKeeper<D, J> + Drop,
    T: Absorb<T, State = [Batch<J>; 0]> + Drop,
    R: Wait + Drop,
> Model for Flushed<J, B, D, S, T, R> {
    ghost use Rattle.std.specs.Prelude.{List};
    ghost use Rattle.pfx_front_board.specs.Publisher.{Published};
    ghost use Rattle.pfx_book.specs.declared.note.Note.{Note};
    ghost use Rattle.pfx_front.specs.Keeping.{Behind};
    ghost use Rattle.pfx_front.specs.Showing.{IsShown};

    ghost Value = { List (Note J) × S × Published J };

    ghost view = { λ f. (f.share, f.keeper, f.publisher) };

    ghost invariant = { λ f. Behind J.kind B.start B.failures B.clock f.share (S.failed f.keeper) (S.kept f.keeper).file.broken
        (S.kept f.keeper).state (D.view (S.kept f.keeper).file.disk)
        × IsShown J.kind B.start f.share f.publisher.batches (S.kept f.keeper).state };
}

/// What the flusher is to do next.
#[derive(Drop)]
pub enum Work<J> {
    /// This batch was taken: it is to be appended.
    Append(Batch<J>),
    /// Nothing waits, but a checkpoint is in progress. The room for a batch comes back.
    Tend(Vec<Record<J>>),
    /// Nothing waits, and nothing more is accepted.
    End,
}

/// Waits until there is something to do, and takes a batch if there is one; all that was taken before is marked. `busy` says that a checkpoint is in progress.
fn next_work<J: Job, B: Since<J>, R: Wait + Clock>(
    rt: &R,
    monitor: &Monitor<J, B>,
    share: &mut Share<J, B>,
    room: Vec<Record<J>>,
    busy: bool,
    pace: Pace,
) -> Work<J>
    requires empty { room.items ≡ [] }
    requires room { 16 ≤ vec_capacity room }
    requires rested { IsRested B.start.number share.old }
    ensures { Gives J.kind B.start share.old share.new result }
{
    let mut guard = monitor
        .work
        .wait_while(rt, gathered(rt, monitor, pace), |b| match b {
            Some(book) => !busy && !book.has_pending() && !book.is_closed(),
            None => false,
        });
    let Some(book) = &mut *guard else {
        return Work::End;
    };
    match book.take_batch(share, room) {
        Ok(batch) => Work::Append(batch),
        Err(room) => {
            if book.is_closed() {
                return Work::End;
            }
            Work::Tend(room)
        }
    }
}

/// Marks all that was taken in the book, which it looks at: what is durable, to be left to those who will be told of it. `None` if the
/// list of marks is longer than its end knows.
fn mark_book<J: Job, B: Since<J>, D: Disk + Logged<B>>(
    book: &mut Book<J, B>,
    share: &mut Share<J, B>,
    store: &Store<D, J>,
    marking: &mut Marking<J, B>,
    word: Word<J, B>,
    mark: Mark,
) -> Option<Durable<J, B>>
    requires taken { records_of word ≡ records_in share.old }
    requires origin { B.origin ≡ B.start }
    requires number { mark.number ≡ B.start.number + length (records_in share.old) }
    requires unfailed { (cause : Cause) → Noted (Failed cause) share.old → ⊥ }
    requires step { InStep J.kind B.start B.failures B.clock (share.old ++ Marked mark.number mark.clock ∷ []) store.now.file.broken store.now.state (D.view store.now.file.disk) }
    requires noted { AreNoted marking.old share.old }
    ensures share { IfSome result (λ _. share.new ≡ share.old ++ Marked mark.number mark.clock ∷ []) }
    ensures noted { IfSome result (λ _. AreNoted marking.new share.new) }
{
    let moment = moment_of(store);
    book.settled(share);
    book.legal();
    if !marking.add(&mark) {
        return None;
    }
    let durable = Durable::new(word, moment, marking.marked(), Some(mark));
    book.mark(share, mark.number, mark.clock);
    Some(durable)
}

/// Leaves what is durable to those who will be told of it, all that was taken, marks that, and wakes those who wait for it. Room for a
/// command more may have come.
fn mark_in<J: Job, B: Since<J>, D: Disk + Logged<B>, R: Wait>(
    rt: &R,
    monitor: &Monitor<J, B>,
    share: &mut Share<J, B>,
    store: &Store<D, J>,
    marking: &mut Marking<J, B>,
    word: Word<J, B>,
    mark: Mark,
)
    requires taken { records_of word ≡ records_in share.old }
    requires origin { B.origin ≡ B.start }
    requires number { mark.number ≡ B.start.number + length (records_in share.old) }
    requires unfailed { (cause : Cause) → Noted (Failed cause) share.old → ⊥ }
    requires step { InStep J.kind B.start B.failures B.clock (share.old ++ Marked mark.number mark.clock ∷ []) store.now.file.broken store.now.state (D.view store.now.file.disk) }
    requires noted { AreNoted marking.old share.old }
    ensures share { share.new ≡ share.old ++ Marked mark.number mark.clock ∷ [] }
    ensures noted { AreNoted marking.new share.new }
{
    let mut guard = monitor.book.lock(rt);
    if let Some(book) = &mut *guard {
        if let Some(durable) = mark_book(book, share, store, marking, word, mark) {
            *monitor.durable.lock(rt) = durable;
            drop(guard);
            monitor.marked.notify_all();
            monitor.free.notify_one();
            return;
        }
    }

    // The book is taken out only once this thread has ended, and the list of marks has this end alone.
    for _ in rt.forever() {}
    unreachable!()
}

/// Gives up, and wakes all who wait.
fn fail_in<J: Job, B: Since<J>, R: Wait>(
    rt: &R,
    monitor: &Monitor<J, B>,
    share: &mut Share<J, B>,
    cause: Cause,
)
    ensures { share.new ≡ share.old ++ Failed cause ∷ [] }
{
    let mut guard = monitor.book.lock(rt);
    if let Some(book) = &mut *guard {
        book.fail(share, cause);
        drop(guard);
        monitor.marked.notify_all();
        monitor.free.notify_all();
        return;
    }

    // The book is taken out only once this thread has ended.
    for _ in rt.forever() {}
    unreachable!()
}

/// A batch's vector, empty again.
fn room_of<J: Job>(batch: Batch<J>) -> Vec<Record<J>>
    ensures empty { result.items ≡ [] }
    ensures room { vec_capacity result ≡ vec_capacity batch.records }
{
    let mut room = batch.records;
    room.clear();
    room
}

/// Publishes a batch that is durable: the batches that are published then, all that were taken. `None` if an allocation fails; then the book knows.
fn show<J: Job, B: Since<J>, D: Disk + Logged<B>, R: Wait + Drop, W: Wait>(
    rt: &W,
    alloc: Global,
    monitor: &Monitor<J, B>,
    share: &mut Share<J, B>,
    store: &Store<D, J>,
    publisher: &mut BoardWriter<J, B, Shown<J, B>, R>,
    batch: &Batch<J>,
) -> Option<Word<J, B>>
    requires taken { AreShown share.old (publisher.old.batches ++ batch.now ∷ []) }
    requires leads { applied J.kind B.origin (records_of (publisher.old.batches ++ batch.now ∷ [])) ≡ Some store.now.state }
    requires whole { store.now.file.broken ≡ false }
    ensures batches { publisher.new.batches ≡ publisher.old.batches ++ batch.now ∷ [] }
    ensures shown { IfSome result (λ word. (share.new ≡ share.old) × (records_of word ≡ records_in share.new)) }
    ensures lost { IfNone result (share.new ≡ share.old ++ Failed Memory ∷ []) }
{
    let moment = moment_of(store);
    match publisher.publish(rt, alloc, batch, store.state(), &moment) {
        Ok(()) => Some(publisher.published().again()),
        Err(_) => {
            fail_in(rt, monitor, share, Cause::Memory);
            None
        }
    }
}

/// Keeps a batch, publishes and marks it: the room for the next one. `None` if the keeper has failed, or an allocation fails
/// for new weights or for the board; then the book knows.
fn commit<J: Job, B: Since<J>, D: Disk + Logged<B>, S: BatchKeeper<D, J>, R: Wait + Drop, W: Wait>(
    rt: &W,
    alloc: Global,
    monitor: &Monitor<J, B>,
    share: &mut Share<J, B>,
    keeper: &mut S,
    publisher: &mut BoardWriter<J, B, Shown<J, B>, R>,
    marking: &mut Marking<J, B>,
    batch: Batch<J>,
) -> Option<Vec<Record<J>>>
    requires taken { IsTaken J.kind B.start B.failures B.clock share.old batch (S.kept keeper.old).file.broken (S.kept keeper.old).state
        (D.view (S.kept keeper.old).file.disk) }
    requires goes_on { S.failed keeper.old ≡ None }
    requires shown { IsShownBefore share.old publisher.old.batches batch }
    requires origin { B.origin ≡ B.start }
    requires room { 16 ≤ vec_capacity batch.records }
    requires noted { AreNoted marking.old share.old }
    ensures step { IfSome result (λ _. InStep J.kind B.start B.failures B.clock share.new (S.kept keeper.new).file.broken (S.kept keeper.new).state
        (D.view (S.kept keeper.new).file.disk)) }
    ensures goes_on { IfSome result (λ _. S.failed keeper.new ≡ None) }
    ensures shown { IfSome result (λ _. AreShown share.new publisher.new.batches) }
    ensures room { IfSome result (λ room. (room.items ≡ []) × (16 ≤ vec_capacity room)) }
    ensures noted { IfSome result (λ _. AreNoted marking.new share.new) }
    ensures behind { IfNone result (Behind J.kind B.start B.failures B.clock share.new (S.failed keeper.new) (S.kept keeper.new).file.broken
        (S.kept keeper.new).state (D.view (S.kept keeper.new).file.disk)) }
    ensures left { IfNone result (IsShown J.kind B.start share.new publisher.new.batches (S.kept keeper.new).state) }
{
    match append_taken(alloc, keeper, &batch) {
        Ok(mark) => match show(
            rt,
            alloc,
            monitor,
            share,
            keeper.stored(),
            publisher,
            &batch,
        ) {
            Some(word) => {
                mark_in(rt, monitor, share, keeper.stored(), marking, word, mark);
                Some(room_of(batch))
            }
            None => None,
        },
        Err(cause) => {
            fail_in(rt, monitor, share, cause);
            None
        }
    }
}

/// Takes a step of the checkpoint in progress, if there is one. `false` if the keeper has failed; then the book knows.
fn tend<J: Job, B: Since<J>, D: Disk, S: BatchKeeper<D, J>, R: Wait>(
    rt: &R,
    monitor: &Monitor<J, B>,
    share: &mut Share<J, B>,
    keeper: &mut S,
) -> bool
    requires step { InStep J.kind B.start B.failures B.clock share.old (S.kept keeper.old).file.broken (S.kept keeper.old).state
        (D.view (S.kept keeper.old).file.disk) }
    requires goes_on { S.failed keeper.old ≡ None }
    ensures step { IsTrue result → InStep J.kind B.start B.failures B.clock share.new (S.kept keeper.new).file.broken (S.kept keeper.new).state
        (D.view (S.kept keeper.new).file.disk) }
    ensures goes_on { IsTrue result → S.failed keeper.new ≡ None }
    ensures kept { IsTrue result → share.new ≡ share.old }
    ensures notes { records_in share.new ≡ records_in share.old }
    ensures leads { applied J.kind B.start (records_in share.new) ≡ Some (S.kept keeper.new).state }
    ensures behind { result ≡ false → Behind J.kind B.start B.failures B.clock share.new (S.failed keeper.new) (S.kept keeper.new).file.broken
        (S.kept keeper.new).state (D.view (S.kept keeper.new).file.disk) }
{
    let tended = keeper.tend_on();
    let _failure = keeper.failure();
    match tended {
        Ok(_tended) => true,
        Err(cause) => {
            fail_in(rt, monitor, share, cause);
            false
        }
    }
}

/// What the thread gives back.
fn home<J: Job, B: Since<J>, D: Disk, S: BatchKeeper<D, J> + Drop, R: Wait + Drop>(
    share: Share<J, B>,
    keeper: S,
    publisher: BoardWriter<J, B, Shown<J, B>, R>,
) -> Flushed<J, B, D, S, Shown<J, B>, R>
    requires behind { Behind J.kind B.start B.failures B.clock share (S.failed keeper) (S.kept keeper).file.broken (S.kept keeper).state
        (D.view (S.kept keeper).file.disk) }
    requires shown { IsShown J.kind B.start share publisher.batches (S.kept keeper).state }
{
    Flushed {
        share,
        keeper,
        publisher,
        disk: PhantomData,
    }
}

/// Keeps the book's commands, batch by batch, until no more is accepted or the keeper has failed. After each batch
/// it takes one step of the checkpoint in progress.
pub(crate) fn flush<
    J: Job,
    B: Since<J>,
    D: Disk + Logged<B>,
    S: BatchKeeper<D, J> + Drop,
    R: Wait + Drop,
    W: Wait + Clock,
>(
    rt: &W,
    alloc: Global,
    monitor: &Monitor<J, B>,
    flusher: Flusher<J, B, D, S, Shown<J, B>, R>,
) -> Flushed<J, B, D, S, Shown<J, B>, R> {
    let Flusher {
        mut share,
        mut keeper,
        mut publisher,
        mut room,
        mut marking,
        ..
    } = flusher;
    let mut pace = Pace::new();
    for _ in rt.forever() {
        let busy = keeper.stored().places().checkpoint.in_progress();
        match next_work(rt, monitor, &mut share, room, busy, pace) {
            Work::End => return home(share, keeper, publisher),
            Work::Tend(back) => {
                pace = Pace::new();
                room = back;
            }
            Work::Append(batch) => {
                pace = Pace::of(rt, &batch);
                match commit(
                    rt,
                    alloc,
                    monitor,
                    &mut share,
                    &mut keeper,
                    &mut publisher,
                    &mut marking,
                    batch,
                ) {
                    Some(back) => room = back,
                    None => return home(share, keeper, publisher),
                }
            }
        }
        if !tend(rt, monitor, &mut share, &mut keeper) {
            return home(share, keeper, publisher);
        }
    }
    unreachable!()
}
