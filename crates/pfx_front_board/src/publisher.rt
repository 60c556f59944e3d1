//! Where the durable list grows, and is published.
//!
//! Why it is so:
//! - **A batch whose publication is refused memory is in the durable list all the same**: the store has it. What is shown then stays, and
//!   a later publication shows it too.
//! - **If the durable list were longer than its one end knows, publishing would wait for ever.** The list grows by `publish` alone, but
//!   no proof says that nobody else extended it.
//! - **The struct that holds the writer has a type parameter for what the copies hold** (`BoardWriter`; `Publisher` names it with the one
//!   type that is meant): a struct whose bound is on a type made of its parameters can't be dropped by a generic function.
//! - **Publishing asks for a moment of the disk at which the batch is durable.** It could have taken the store; then it would have to
//!   know stores, and a copy of one in memory would do. A moment is a beginning of the one list of calls, so nobody can have one that the
//!   disk hasn't reached.
ghost use Rattle.std.specs.Prelude.{◌≡◌, ◌≤◌, ◌<◌, ◌^◌, ◌++◌, ◌∷◌, [], replicate, Some, IfOk, OnOk, OnErr};
ghost use mathlib.Core.List.{IsPrefix};
ghost use Rattle.left_right.specs.Handles.{published, pending};
ghost use Rattle.pfx_record_redo.specs.Applying.{applied};
ghost use Rattle.pfx_front_board.specs.Lasting.{IsDurable};
ghost use Rattle.pfx_front_board.specs.Word.{records_of};
ghost use Rattle.pfx_front_board.specs.Publisher.{Published};

use crate::name::Begun;
use crate::reader::Reader;
use crate::shown::{MOST_LINES, Shown};
use crate::word::Word;
use left_right::{Absorb, WriteHandle};
use pfx_disk_chronicle::list::Moment;
use pfx_disk_chronicle::name::Charted;
use pfx_jobs::job::Job;
use pfx_machine::State;
use pfx_record::Batch;
use pfx_token::past::{End, UnnamedList};
use std::alloc::{AllocError, Global};
use std::marker::Model;
use std::sync::Wait;

/// Where the durable list grows, and the writer of the board. There is one for a list.
pub type Publisher<J, B, R> = BoardWriter<J, B, Shown<J, B>, R>;

/// A `Publisher`, over what each of the two copies holds: `Shown`. Contracts see it as the durable batches, and those whose
/// board is shown, which begin them.
#[derive(Drop)]
pub struct BoardWriter<
    J: Job,
    B: Begun<J>,
    T: Absorb<T, State = [Batch<J>; 0]> + Drop,
    R: Wait + Drop,
> {
    end: End<Batch<J>, B>,
    word: Word<J, B>,
    writer: WriteHandle<T, T, R>,
}

impl<J: Job, B: Begun<J>, T: Absorb<T, State = [Batch<J>; 0]> + Drop, R: Wait + Drop> Model
    for BoardWriter<J, B, T, R> {
    ghost use Rattle.std.specs.Prelude.{◌≡◌, []};
    ghost use mathlib.Core.List.{IsPrefix};
    ghost use Rattle.left_right.specs.Handles.{published, pending};
    ghost use Rattle.pfx_front_board.specs.Publisher.{Published};

    ghost Value = { Published J };

    ghost view = { λ p. record { batches = p.word; shown = T.state (published p.writer) } };

    ghost invariant = { λ p. (pending p.writer ≡ []) × IsPrefix (T.state (published p.writer)) p.word };
}

// The writer of a board for so many readers, whose two copies show a state.
fn writer_of<J: Job, B: Begun<J>, R: Wait + Drop>(
    alloc: Global,
    rt: R,
    state: &State<J>,
    word: &Word<J, B>,
    readers: usize,
) -> Result<WriteHandle<Shown<J, B>, Shown<J, B>, R>, AllocError>
    requires leads { applied J.kind B.origin (records_of word.now) ≡ Some state.now }
    requires readers { (0 < readers) × (readers < 2 ^ 32) }
    ensures { IfOk result (λ w. (published w ≡ word.now) × (pending w ≡ [])) }
{
    let first = Shown::of(alloc, state, word)?;
    let second = Shown::of(alloc, state, word)?;
    WriteHandle::new(alloc, rt, first, second, readers)
}

// So many readers of a board, who know as much as this word.
fn readers_of<J: Job, B: Begun<J>, R: Wait + Drop>(
    alloc: Global,
    writer: &WriteHandle<Shown<J, B>, Shown<J, B>, R>,
    word: &Word<J, B>,
    readers: usize,
) -> Result<Vec<Reader<J, B>>, AllocError>
    ensures { IfOk result (λ given. given.items ≡ replicate readers word.now) }
{
    let factory = writer.factory()?;
    let mut given = Vec::with_capacity(alloc, readers)?;
    for _reader in 0..readers {
        let handle = factory.handle()?;
        given.push(Reader::new(handle, word.again(), MOST_LINES))?;
    }
    Ok(given)
}

impl<J: Job, B: Begun<J> + Charted, R: Wait + Drop> BoardWriter<J, B, Shown<J, B>, R> {
    /// A board of this state, with no batch after it, and so many readers. `AllocError` if an allocation fails.
    pub fn new(
        alloc: Global,
        rt: R,
        opened: UnnamedList<Batch<J>>,
        state: &State<J>,
        readers: usize,
    ) -> Result<(Publisher<J, B, R>, Vec<Reader<J, B>>), AllocError>
        requires book { opened.seen.book ≡ B.book }
        requires origin { state.now ≡ B.origin }
        requires readers { (0 < readers) × (readers < 2 ^ 32) }
        ensures publisher { IfOk result (λ r. r.0 ≡ record { batches = []; shown = [] }) }
        ensures readers { IfOk result (λ r. r.1.items ≡ replicate readers []) }
    {
        let (end, past) = opened.named::<B>();
        let word = Word::new(state.number(), past);
        let writer = writer_of(alloc, rt, state, &word, readers)?;
        let given = readers_of(alloc, &writer, &word, readers)?;
        Ok((BoardWriter { end, word, writer }, given))
    }

    /// The batch is the next one of the durable list, and the state that it leads to is shown. It is durable at this moment of the
    /// disk: whatever a stop may leave then is recovered to that state. It waits for readers that still look at the board of the
    /// publication before the last. `AllocError` if an allocation fails: then the list has the batch, and what was shown is shown.
    pub fn publish<W: Wait>(
        &mut self,
        rt: &W,
        alloc: Global,
        batch: &Batch<J>,
        state: &State<J>,
        moment: &Moment<B>,
    ) -> Result<(), AllocError>
        requires leads { applied J.kind B.origin (records_of (self.old.batches ++ batch.now ∷ [])) ≡ Some state.now }
        requires lasting { IsDurable J.kind B.origin B.held B.image moment.now (self.old.batches ++ batch.now ∷ []) }
        ensures durable { self.new.batches ≡ self.old.batches ++ batch.now ∷ [] }
        ensures shown { OnOk result (self.new.shown ≡ self.new.batches) }
        ensures kept { OnErr result (self.new.shown ≡ self.old.shown) }
    {
        let _number = state.number();
        let _moment = moment;
        let BoardWriter { end, word, writer } = self;
        if !word.extend(end, batch) {
            for _ in rt.forever() {}
            unreachable!()
        }
        let shown = Shown::of(alloc, state, word)?;
        if writer.append(shown).is_err() {
            return Err(AllocError);
        }
        writer.publish()
    }

    /// What was published last: the word of the board that readers see.
    pub fn published(&self) -> &Word<J, B>
        ensures shown { result.now ≡ self.now.shown }
        ensures durable { IsPrefix self.now.shown self.now.batches }
    {
        self.writer.published().word()
    }
}
