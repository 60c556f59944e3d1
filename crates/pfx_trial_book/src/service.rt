//! A book and its flusher as the sessions see them. They know no more of them, so that each is proved over any book.

use crate::asking::{self, Answer};
use crate::flusher::{Kept, batch_room};
use crate::states::Trial;
use pfx_book::book::Pass;
use pfx_book::closing::PlainReceipt;
use pfx_book::faults::BookFault;
use pfx_book::name::Named;
use pfx_book::note::Loss;
use pfx_crew::gathering::GatherFault;
use pfx_fault::Cause;
use pfx_jobs::quantum::Quantum;
use pfx_machine::{Reply, State};
use pfx_record::{Batch, Place, Record};
use std::alloc::{AllocError, Global};

/// What a book shows of itself.
#[derive(Clone, Copy)]
pub struct Looks {
    /// Whether commands may be asked.
    pub is_free: bool,
    /// Whether a slot is open.
    pub is_open: bool,
    /// Whether a command more may be accepted and not yet marked.
    pub has_room: bool,
    /// Whether commands wait for the flusher.
    pub has_pending: bool,
    /// Whether all that was accepted is marked.
    pub is_settled: bool,
    /// Whether no more is accepted.
    pub is_closed: bool,
    /// Why the flusher gave up.
    pub failure: Option<Cause>,
    /// The number of the last mark.
    pub marked: u64,
    /// How many passes are out.
    pub passes: u8,
}

/// What a pass shows of itself.
#[derive(Clone, Copy)]
pub struct Known {
    /// Its number.
    pub number: u8,
    /// The greatest number that a call of it was answered.
    pub greatest: u64,
    /// What the client was told of the flusher's end.
    pub lost: Option<Loss>,
}

/// A batch that the flusher took.
#[derive(Clone, Copy)]
pub struct Taken {
    /// How many tasks each row has.
    pub workers: u32,
    /// How many tasks it says to be real.
    pub real: u32,
    /// The number of its first command.
    pub first: u64,
    /// How many records it has.
    pub count: usize,
    /// If its third record is that of a slot of two tasks, these and how many steps their jobs have left.
    pub row: Option<[(u16, Option<u32>); 2]>,
}

/// A book and its flusher.
pub trait Service {
    /// A step of a job that is to be run.
    type Quantum: Drop;

    /// A client's pass.
    type Pass: Drop;

    /// What it shows of itself.
    fn looks(&self) -> Looks;

    /// What a pass of it shows.
    fn knows(&self, pass: &Self::Pass) -> Known;

    /// The number of a copy of its state, and how many steps the jobs of the first three tasks have left there.
    fn copied(&self) -> Option<(u64, [Option<u32>; 3])>;

    /// A pass for one more client.
    fn admit(&mut self) -> Option<Self::Pass>;

    /// Whether these are all passes in their order.
    fn gathered(&mut self, passes: &mut Vec<Self::Pass>) -> bool;

    /// Submits a count of five steps.
    fn submit(&mut self, pass: &mut Self::Pass, task: u16) -> Option<Answer>;

    /// Withdraws.
    fn withdraw(&mut self, pass: &mut Self::Pass, task: u16) -> Option<Answer>;

    /// Asks for one worker and so many weights of 1/3.
    fn reweigh(&mut self, alloc: Global, pass: &mut Self::Pass, count: usize) -> Option<Answer>;

    /// Opens a slot.
    fn open(&mut self, pass: &mut Self::Pass) -> Option<Result<Vec<Self::Quantum>, BookFault>>;

    /// The command, the slot and the task of a quantum, and how many steps its job has left.
    fn deals(&self, quantum: &Self::Quantum) -> (u64, u64, u16, u32);

    /// A copy of a quantum, as if it were of the command of this number.
    fn again(&self, quantum: &Self::Quantum, number: u64) -> Self::Quantum;

    /// A quantum of task 5 that no slot dealt.
    fn stranger(&self) -> Option<Self::Quantum>;

    /// The task of the first quantum whose result isn't back.
    fn missing(&self) -> Option<u16>;

    /// Runs a quantum and takes its result in.
    fn give(&mut self, quantum: Self::Quantum) -> Result<(), GatherFault>;

    /// Ends the open slot of a pass.
    fn seal(&mut self, pass: &mut Self::Pass) -> Option<(u64, Reply)>;

    /// Gives a receipt.
    fn receipt(
        &mut self,
        pass: &mut Self::Pass,
        number: u64,
    ) -> Option<Result<PlainReceipt, AllocError>>;

    /// Tells a client that the flusher has given up. Whether it has.
    fn tell(&mut self, pass: &mut Self::Pass) -> bool;

    /// Accepts nothing more.
    fn shut(&mut self);

    /// The flusher's next batch, or for how many records there is room in the vector that comes back. `None` if there was no
    /// memory for one.
    fn take(&mut self, alloc: Global) -> Option<Result<Taken, usize>>;

    /// The flusher marks what it took, at this clock, unless it has given up.
    fn mark(&mut self, clock: u64);

    /// The flusher gives up.
    fn fail(&mut self, cause: Cause);
}

/// How many steps a task's job has left. `None` if the task has no job.
fn left<J: Trial>(state: &State<J>, task: usize) -> Option<u32> {
    Some(state.jobs().get(task)?.as_ref()?.left())
}

/// A state's number, and how many steps the jobs of its first three tasks have left.
fn shown<J: Trial>(state: &State<J>) -> (u64, [Option<u32>; 3]) {
    let jobs = [left(state, 0), left(state, 1), left(state, 2)];
    (state.number(), jobs)
}

/// A task that took a step, and how many steps its job has left.
fn stepped<J: Trial>(place: &Place<J>) -> (u16, Option<u32>) {
    match &place.state {
        Some(job) => (place.task, Some(job.left())),
        None => (place.task, None),
    }
}

/// The tasks of a slot of two, and how many steps their jobs have left.
fn row_of_two<J: Trial>(record: &Record<J>) -> Option<[(u16, Option<u32>); 2]> {
    let Record::Slot { row } = record else {
        return None;
    };
    if row.len() != 2 {
        return None;
    }
    Some([stepped(&row[0]), stepped(&row[1])])
}

/// What a batch shows of itself.
fn shape_of<J: Trial>(batch: &Batch<J>) -> Taken {
    Taken {
        workers: batch.workers,
        real: batch.real,
        first: batch.first,
        count: batch.records.len(),
        row: match batch.records.get(2) {
            Some(record) => row_of_two(record),
            None => None,
        },
    }
}

/// A quantum of task 5 that no slot dealt.
fn stranger<J: Trial>() -> Option<Quantum<J>> {
    let job = J::count()?;
    if job.is_done() {
        return None;
    }
    Some(Quantum::new(1, 0, 5, job))
}

impl<J: Trial, B: Named<J>> Service for Kept<J, B> {
    type Quantum = Quantum<J>;

    type Pass = Pass<J, B>;

    fn looks(&self) -> Looks {
        let book = &self.book;
        Looks {
            is_free: asking::is_free(book),
            is_open: book.is_open(),
            has_room: book.has_room(),
            has_pending: book.has_pending(),
            is_settled: book.is_settled(),
            is_closed: book.is_closed(),
            failure: book.failure(),
            marked: book.marked(),
            passes: book.passes(),
        }
    }

    fn knows(&self, pass: &Pass<J, B>) -> Known {
        Known {
            number: pass.number(),
            greatest: pass.greatest(),
            lost: pass.lost(),
        }
    }

    fn copied(&self) -> Option<(u64, [Option<u32>; 3])> {
        Some(shown(&self.book.state().ok()?))
    }

    fn admit(&mut self) -> Option<Pass<J, B>> {
        self.book.pass()
    }

    fn gathered(&mut self, passes: &mut Vec<Pass<J, B>>) -> bool {
        self.book.gathered(passes)
    }

    fn submit(&mut self, pass: &mut Pass<J, B>, task: u16) -> Option<Answer> {
        asking::submit(&mut self.book, pass, task)
    }

    fn withdraw(&mut self, pass: &mut Pass<J, B>, task: u16) -> Option<Answer> {
        asking::withdraw(&mut self.book, pass, task)
    }

    fn reweigh(&mut self, alloc: Global, pass: &mut Pass<J, B>, count: usize) -> Option<Answer> {
        asking::reweigh(alloc, &mut self.book, pass, count)
    }

    fn open(&mut self, pass: &mut Pass<J, B>) -> Option<Result<Vec<Quantum<J>>, BookFault>> {
        asking::open(&mut self.book, pass)
    }

    fn deals(&self, quantum: &Quantum<J>) -> (u64, u64, u16, u32) {
        (
            quantum.number,
            quantum.slot,
            quantum.task,
            quantum.before.left(),
        )
    }

    fn again(&self, quantum: &Quantum<J>, number: u64) -> Quantum<J> {
        Quantum::new(number, quantum.slot, quantum.task, quantum.before.copy_of())
    }

    fn stranger(&self) -> Option<Quantum<J>> {
        stranger()
    }

    fn missing(&self) -> Option<u16> {
        Some(self.book.missing()?.task)
    }

    fn give(&mut self, quantum: Quantum<J>) -> Result<(), GatherFault> {
        self.book.give(quantum.run())
    }

    fn seal(&mut self, pass: &mut Pass<J, B>) -> Option<(u64, Reply)> {
        self.book.seal(pass)
    }

    fn receipt(
        &mut self,
        pass: &mut Pass<J, B>,
        number: u64,
    ) -> Option<Result<PlainReceipt, AllocError>> {
        asking::receipt(&mut self.book, pass, number)
    }

    fn tell(&mut self, pass: &mut Pass<J, B>) -> bool {
        asking::tell(&mut self.book, pass)
    }

    fn shut(&mut self) {
        self.book.legal();
        self.book.shut();
    }

    fn take(&mut self, alloc: Global) -> Option<Result<Taken, usize>> {
        let room = batch_room(alloc)?;
        let Kept { book, flusher } = self;
        match flusher.take(book, room) {
            Ok(batch) => Some(Ok(shape_of(&batch))),
            Err(back) => Some(Err(back.capacity())),
        }
    }

    fn mark(&mut self, clock: u64) {
        let Kept { book, flusher } = self;
        flusher.mark(book, clock);
    }

    fn fail(&mut self, cause: Cause) {
        let Kept { book, flusher } = self;
        flusher.fail(book, cause);
    }
}
