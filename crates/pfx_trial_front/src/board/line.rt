//! A publisher with the state that its batches lead to.
ghost use Rattle.std.specs.Prelude.{◌≡◌, ◌<◌, ◌^◌, []};

use pfx_disk_chronicle::list::{Moment, UnnamedCalls};
use pfx_disk_chronicle::name::Charted;
use pfx_front_board::name::Begun;
use pfx_front_board::publisher::Publisher;
use pfx_front_board::reader::Reader;
use pfx_jobs::job::Job;
use pfx_kinds::any::AnyJob;
use pfx_machine::State;
use pfx_record::{Batch, Place, Record, fits};
use pfx_record_redo::{apply_record, is_common};
use pfx_token::past;
use pfx_weights::TaskSet;
use std::alloc::Global;
use std::marker::{Brand, Model};
use std::sync::Wait;

/// Names a board, and a disk of which nothing is said.
pub trait Listed<J>: Begun<J> + Charted {}

impl<J> Listed<J> for Brand {}

/// A publisher, and the state after all that is durable. The disk is none: it isn't so that it held what it is said to have held.
#[derive(Drop)]
pub struct Line<J: Job, B: Listed<J>, R: Wait + Drop> {
    /// Where batches are published.
    pub publisher: Publisher<J, B, R>,
    state: State<J>,
    moment: Moment<B>,
}

impl<J: Job, B: Listed<J>, R: Wait + Drop> Model for Line<J, B, R> {
    ghost use Rattle.std.specs.Prelude.{◌≡◌, Some};
    ghost use Rattle.pfx_machine.specs.Plain.{Plain};
    ghost use Rattle.pfx_record_redo.specs.Applying.{applied};
    ghost use Rattle.pfx_front_board.specs.Word.{records_of};

    ghost Value = { Plain J };

    ghost view = { λ l. l.state };

    ghost invariant = { λ l. (applied J.kind B.origin (records_of l.publisher.batches) ≡ Some l.state) × (B.held → ⊥) };
}

impl<J: Job, B: Listed<J>, R: Wait + Drop> Line<J, B, R> {
    /// With nothing durable yet.
    pub fn new(publisher: Publisher<J, B, R>, state: State<J>, calls: UnnamedCalls) -> Line<J, B, R>
        requires batches { publisher.batches ≡ [] }
        requires origin { state ≡ B.origin }
        requires calls { (calls.seen.book ≡ B.calls) × (B.clock ≡ 0) }
        requires no_disk { B.held → ⊥ }
    {
        let (_end, moment) = calls.named::<B>(0);
        Line {
            publisher,
            state,
            moment,
        }
    }

    /// Takes a record over, but one of new weights, and publishes it as a batch of one. Whether it was right there, and memory was enough.
    pub fn keep<W: Wait>(&mut self, rt: &W, alloc: Global, entry: Record<J>) -> bool {
        let Line {
            publisher,
            state,
            moment,
        } = self;
        let workers = state.columns().workers();
        let first = state.number() + 1;
        let mut records = Vec::new(alloc);
        if records.push(entry).is_err() {
            return false;
        }
        if !fits(workers, 0, first, &records) {
            return false;
        }
        let batch = Batch::new(workers, 0, first, records);
        if !is_common(&batch.records[0]) {
            return false;
        }
        if !apply_record(state, &batch.records[0]) {
            return false;
        }
        publisher.publish(rt, alloc, &batch, state, moment).is_ok()
    }
}

/// A state behind a pointer: a proof spells what a function holds itself at each of its steps.
pub type Held = Box<State<AnyJob>>;

/// A line behind a pointer, and the readers of what is published there.
pub type Lined<B, R> = (Box<Line<AnyJob, B, R>>, Vec<Reader<AnyJob, B>>);

/// Three tasks of 2/3 on two workers, before the first command.
pub fn thirds(alloc: Global) -> Option<Held> {
    let set = TaskSet::new(alloc, 2, &[(2, 3), (2, 3), (2, 3)]).ok()?;
    Box::new(alloc, State::new(alloc, &set, 1 << 24).ok()?).ok()
}

/// A line with nothing durable yet, and so many readers.
pub fn begin<B: Listed<AnyJob>, R: Wait + Drop>(
    rt: R,
    alloc: Global,
    opened: past::UnnamedList<Batch<AnyJob>>,
    calls: UnnamedCalls,
    state: Held,
    readers: usize,
) -> Option<Lined<B, R>>
    requires book { opened.seen.book ≡ B.book }
    requires origin { state.value ≡ B.origin }
    requires readers { (0 < readers) × (readers < 2 ^ 32) }
    requires calls { (calls.seen.book ≡ B.calls) × (B.clock ≡ 0) }
    requires no_disk { B.held → ⊥ }
{
    let (publisher, readers) = Publisher::<AnyJob, B, R>::new(
        alloc, rt, opened, &state, readers,
    ).ok()?;
    let line = Line::new(publisher, Box::into_inner(state), calls);
    Some((Box::new(alloc, line).ok()?, readers))
}

/// The record of a slot in which these two tasks ran, neither of which has a job.
fn row(alloc: Global, one: u16, other: u16) -> Option<Record<AnyJob>> {
    let mut row = Vec::new(alloc);
    for task in [one, other] {
        let place = Place { task, state: None };
        if row.push(place).is_err() {
            return None;
        }
    }
    Some(Record::Slot { row })
}

/// Whether a slot in which these two tasks ran was right, and is published.
pub fn keep_row<B: Listed<AnyJob>, R: Wait + Drop>(
    rt: &R,
    alloc: Global,
    line: &mut Line<AnyJob, B, R>,
    one: u16,
    other: u16,
) -> bool {
    match row(alloc, one, other) {
        Some(entry) => line.keep(rt, alloc, entry),
        None => false,
    }
}

/// Whether a task could be given a count of two steps, and that is published.
pub fn keep_count<B: Listed<AnyJob>, R: Wait + Drop>(
    rt: &R,
    alloc: Global,
    line: &mut Line<AnyJob, B, R>,
    task: u16,
) -> bool {
    match AnyJob::start("count", 2, b"") {
        Ok(job) => line.keep(rt, alloc, Record::Submit { task, job }),
        Err(_) => false,
    }
}
