//! A front as the sessions of clients see it. They know no more of it, so that each is proved over any front.

use crate::stores::submit;
use pfx_book::book::Pass;
use pfx_book::note::Loss;
use pfx_crew::desk::Desk;
use pfx_front::calls::Front;
use pfx_front::durable::Acknowledged;
use pfx_front::faults::CallFault;
use pfx_front::name::Since;
use pfx_front_board::reader::Reader;
use pfx_jobs::job::Job;
use pfx_jobs::quantum::{Done, Quantum};
use pfx_kinds::any::AnyJob;
use pfx_machine::{Board, Command, JobStatus, Reply, State};
use pfx_weights::Weights;
use std::alloc::Global;
use std::sync::Wait;

/// What a client asks.
#[derive(Clone, Copy)]
pub enum Ask {
    /// A count of five steps for a task.
    Submit { task: u16 },
    /// A task's job back.
    Withdraw { task: u16 },
    /// A slot.
    Slot,
    /// One worker, and for each of three tasks the weight 1/3.
    Thirds,
}

/// What a client is answered. `None` if there was no memory to ask.
pub type Answer = Option<Result<(u64, Reply), CallFault>>;

/// What a client knows of a state: the number of its last command, and how many steps the jobs of the first three tasks have left.
pub type Copied = (u64, [Option<u32>; 3]);

/// A front.
pub trait Service {
    /// A client's pass.
    type Pass: Drop;

    /// A reader of the board.
    type Reader: Drop;

    /// A pass for one more client.
    fn admit<R: Wait>(&self, rt: &R) -> Option<Self::Pass>;

    /// Asks.
    fn asks<R: Wait>(&self, rt: &R, alloc: Global, pass: &mut Self::Pass, ask: Ask) -> Answer;

    /// Asks: whether it is accepted, and whether the client is said to be the only one. `None` if there was no memory to ask.
    fn hears<R: Wait>(
        &self,
        rt: &R,
        alloc: Global,
        pass: &mut Self::Pass,
        ask: Ask,
    ) -> Option<(bool, bool)>;

    /// Waits for the receipt of what was accepted last: whether it has that number, and came at a moment that its clock had
    /// reached. `None` if nothing was accepted.
    fn settle<R: Wait>(&self, rt: &R, pass: &mut Self::Pass) -> Option<Result<bool, CallFault>>;

    /// Waits for the same receipt, tells a reader of it, and gives its number.
    fn tell<R: Wait>(
        &self,
        rt: &R,
        pass: &mut Self::Pass,
        reader: &mut Self::Reader,
    ) -> Option<u64>;

    /// The number of the board that a reader is shown, and at how many tasks a job is open there.
    fn shown(&self, alloc: Global, reader: &mut Self::Reader) -> Option<(u64, u32)>;

    /// What the client was told of the flusher's end.
    fn lost(&self, pass: &Self::Pass) -> Option<Loss>;

    /// Whether the client is the only one.
    fn is_alone<R: Wait>(&self, rt: &R, pass: &mut Self::Pass) -> bool;

    /// What the client knows of its state: `Some(None)` if there are other clients, `None` if an allocation failed.
    fn copied<R: Wait>(&self, rt: &R, pass: &mut Self::Pass) -> Option<Option<Copied>>;

    /// The number of its own board, and at how many tasks a job is open there; `Some(None)` and `None` as for the state.
    fn boarded<R: Wait>(&self, rt: &R, pass: &mut Self::Pass) -> Option<Option<(u64, u32)>>;
}

/// One worker, and for each of three tasks the weight 1/3.
fn thirds(alloc: Global) -> Option<Command<AnyJob>> {
    let items = Vec::from_elem(alloc, (1, 3), 3).ok()?;
    let weights = Weights::new(items);
    Some(Command::Reweigh {
        workers: 1,
        weights,
    })
}

/// The command that is asked.
fn command_of(alloc: Global, ask: Ask) -> Option<Command<AnyJob>> {
    match ask {
        Ask::Submit { task } => submit(task),
        Ask::Withdraw { task } => Some(Command::Withdraw { task }),
        Ask::Slot => Some(Command::Slot),
        Ask::Thirds => thirds(alloc),
    }
}

/// At how many tasks of a board a job is open.
fn open_jobs(board: &Board) -> u32 {
    let mut open = 0u32;
    for line in &board.lines {
        if matches!(line.job, JobStatus::Open) {
            open = open.saturating_add(1);
        }
    }
    open
}

/// How many steps a task's job has left. `None` if the task has no job.
fn left(state: &State<AnyJob>, task: usize) -> Option<u32> {
    Some(state.jobs().get(task)?.as_ref()?.left())
}

/// What a client knows of a state.
fn known_of(state: &State<AnyJob>) -> Copied {
    let jobs = [left(state, 0), left(state, 1), left(state, 2)];
    (state.number(), jobs)
}

/// The number of a board, and at how many tasks a job is open there.
fn shown_on(board: &Board) -> (u64, u32) {
    (board.number, open_jobs(board))
}

/// Waits for the receipt of what was accepted last. `None` if nothing was.
fn settle_last<B: Since<AnyJob>, K: Desk<Quantum<AnyJob>, Done<AnyJob>> + Drop, R: Wait>(
    rt: &R,
    front: &Front<AnyJob, B, K>,
    pass: &mut Pass<AnyJob, B>,
) -> Option<Result<Acknowledged<AnyJob, B>, CallFault>>
where
    K::Seat: Drop,
{
    let number = pass.greatest();
    if number == 0 {
        return None;
    }
    Some(front.settled(rt, pass, number))
}

/// Whether the receipt has this number, and came at a moment that its clock had reached.
fn is_reached<B: Since<AnyJob>>(acknowledged: &Acknowledged<AnyJob, B>, number: u64) -> bool {
    let receipt = &acknowledged.receipt;
    receipt.number == number && receipt.clock > 0 && acknowledged.moment.reaches(receipt.clock)
}

impl<B: Since<AnyJob>, K: Desk<Quantum<AnyJob>, Done<AnyJob>> + Drop> Service
    for Front<AnyJob, B, K>
where
    K::Seat: Drop,
{
    type Pass = Pass<AnyJob, B>;

    type Reader = Reader<AnyJob, B>;

    fn admit<R: Wait>(&self, rt: &R) -> Option<Pass<AnyJob, B>> {
        self.pass(rt)
    }

    fn asks<R: Wait>(&self, rt: &R, alloc: Global, pass: &mut Pass<AnyJob, B>, ask: Ask) -> Answer {
        let command = command_of(alloc, ask)?;
        Some(self.ask(rt, pass, command))
    }

    fn hears<R: Wait>(
        &self,
        rt: &R,
        alloc: Global,
        pass: &mut Pass<AnyJob, B>,
        ask: Ask,
    ) -> Option<(bool, bool)> {
        let command = command_of(alloc, ask)?;
        let heard = self.hear(rt, pass, command);
        Some((heard.said.is_ok(), heard.sole))
    }

    fn settle<R: Wait>(
        &self,
        rt: &R,
        pass: &mut Pass<AnyJob, B>,
    ) -> Option<Result<bool, CallFault>> {
        match settle_last(rt, self, pass)? {
            Ok(acknowledged) => Some(Ok(is_reached(&acknowledged, pass.greatest()))),
            Err(fault) => Some(Err(fault)),
        }
    }

    fn tell<R: Wait>(
        &self,
        rt: &R,
        pass: &mut Pass<AnyJob, B>,
        reader: &mut Reader<AnyJob, B>,
    ) -> Option<u64> {
        match settle_last(rt, self, pass)? {
            Ok(acknowledged) => {
                reader.told(&acknowledged.receipt);
                Some(acknowledged.receipt.number)
            }
            Err(_) => None,
        }
    }

    fn shown(&self, alloc: Global, reader: &mut Reader<AnyJob, B>) -> Option<(u64, u32)> {
        match reader.status(alloc) {
            Ok(board) => Some(shown_on(&board)),
            Err(_) => None,
        }
    }

    fn lost(&self, pass: &Pass<AnyJob, B>) -> Option<Loss> {
        pass.lost()
    }

    fn is_alone<R: Wait>(&self, rt: &R, pass: &mut Pass<AnyJob, B>) -> bool {
        self.is_sole(rt, pass)
    }

    fn copied<R: Wait>(&self, rt: &R, pass: &mut Pass<AnyJob, B>) -> Option<Option<Copied>> {
        match self.state(rt, pass) {
            Ok(Some(copy)) => Some(Some(known_of(&copy))),
            Ok(None) => Some(None),
            Err(_) => None,
        }
    }

    fn boarded<R: Wait>(&self, rt: &R, pass: &mut Pass<AnyJob, B>) -> Option<Option<(u64, u32)>> {
        match self.board(rt, pass) {
            Ok(Some(board)) => Some(Some(shown_on(&board))),
            Ok(None) => Some(None),
            Err(_) => None,
        }
    }
}
