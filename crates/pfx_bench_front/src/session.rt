//! A session with every kind of call, for `bench/refused_front`: a call for which an allocation fails is made once more, and
//! after a failure of the store there is only the front's end.
//!
//! A line of standard output says what each call was answered: a number or `ok`, `90` if an allocation fails, `61` and the
//! number of the last mark if the store has failed, and `other`.
ghost use Rattle.std.specs.Prelude.{◌≡◌, IfErr, IfSome};
ghost use Rattle.pfx_disk.specs.File.{file_view};
ghost use Rattle.pfx_kinds.specs.AnyKind.{any_kind};
ghost use Rattle.pfx_front.specs.Starting.{Begins, BeginsHonest};

use crate::stores::{JobDesk, SEGMENT, TASKS, submit, thirds};
use pfx_book::book::Pass;
use pfx_crew::channel::ChannelDesk;
use pfx_crew::desk::Desk;
use pfx_disk::{Disk, FileDisk};
use pfx_fault::Cause;
use pfx_front::calls::Front;
use pfx_front::closing::{Closed, Given};
use pfx_front::faults::{CallFault, StartFault};
use pfx_front::name::{Names, Since};
use pfx_front_board::reader::{Reader, StatusFault};
use pfx_jobs::quantum::{Done, Quantum};
use pfx_kinds::any::AnyJob;
use pfx_machine::{Board, Command, JobStatus, Reply};
use pfx_store::{InitFault, Store};
use pfx_store_recover::OpenFault;
use pfx_weights::{TaskSet, Weights};
use std::alloc::Global;
use std::io::Print;
use std::marker::Brand;
use std::sync::Wait;
use std::thread::Threads;
use std::time::Clock;

/// How many commands are asked: a Submit a task, and fifteen Slots with a Reweigh among them.
const COMMANDS: u64 = 19;

/// The number of the Reweigh: six Slots stand before it.
const REWEIGH: u64 = 10;

/// How many workers the front has.
const WORKERS: u32 = 2;

/// Says what a call was answered.
fn say<R: Print>(rt: &R, call: &str, answer: &str) {
    let _said = println!(rt; "{call} {answer}");
}

/// Says with which number a call was answered.
fn count<R: Print>(rt: &R, call: &str, number: u64) {
    let _said = println!(rt; "{call} {number}");
}

/// Says what a command was answered.
fn say_reply<R: Print>(rt: &R, number: u64, reply: &Reply) {
    match reply {
        Reply::Submitted { task } => {
            let _said = println!(rt; "call {number} submitted {task}");
        }
        Reply::Ran { slot, row } => {
            let (first, second, third) = (row.holds(0), row.holds(1), row.holds(2));
            let _said = println!(rt; "call {number} ran {slot} {first} {second} {third}");
        }
        Reply::Reweighed { slot } => {
            let _said = println!(rt; "call {number} reweighed {slot}");
        }
        Reply::Withdrawn { .. } => say(rt, "call", "other"),
    }
}

/// Says what a board shows.
fn say_board<R: Print>(rt: &R, board: &Board) {
    let (number, slot) = (board.number, board.slot);
    let _said = println!(rt; "status {number} slot {slot}");
    for line in &board.lines {
        let (alloc, lag) = (line.alloc, line.lag);
        let is_open = matches!(line.job, JobStatus::Open);
        let _said = println!(rt; "task alloc {alloc} lag {lag} open {is_open}");
    }
}

/// Says why a call is refused: whether the store has failed.
fn refuse<R: Print>(rt: &R, call: &str, fault: CallFault) -> bool {
    match fault {
        CallFault::NoMemory => {
            say(rt, call, "90");
            false
        }
        CallFault::StoreFailed {
            marked,
            cause: Cause::Memory,
        } => {
            let _said = println!(rt; "{call} 61 {marked}");
            true
        }
        _ => {
            say(rt, call, "other");
            true
        }
    }
}

/// What is said of a call that can be refused for memory alone.
fn shown(is_memory: bool) -> &'static str {
    if is_memory { "90" } else { "other" }
}

/// The set of the store.
fn set_of<R: Print>(rt: &R, alloc: Global) -> Option<TaskSet> {
    for _try in 0..2 {
        match thirds(alloc) {
            Some(set) => return Some(set),
            None => say(rt, "set", "90"),
        }
    }
    None
}

/// A new store on an empty disk.
fn init<R: Print>(rt: &R, alloc: Global, disk: FileDisk) -> Option<Store<FileDisk, AnyJob>> {
    let set = set_of(rt, alloc)?;
    let mut disk = disk;
    for _try in 0..2 {
        match Store::init(alloc, disk, &set, SEGMENT) {
            Ok(store) => {
                say(rt, "init", "ok");
                return Some(store);
            }
            Err((fault, back)) => {
                say(rt, "init", shown(fault == InitFault::NoMemory));
                disk = back;
            }
        }
    }
    None
}

/// The store that is on a disk.
fn open<R: Print>(rt: &R, alloc: Global, disk: FileDisk) -> Option<Store<FileDisk, AnyJob>>
    ensures { IfSome result
        (λ s. BeginsHonest any_kind s (file_view s.file.disk)) }
{
    let mut disk = disk;
    for _try in 0..2 {
        match Store::<FileDisk, AnyJob>::open(alloc, disk) {
            Ok(store) => {
                count(rt, "open", store.state().number());
                return Some(store);
            }
            Err((fault, back)) => {
                say(rt, "open", shown(fault == OpenFault::NoMemory));
                disk = back;
            }
        }
    }
    None
}

/// The same weights anew, for as many workers.
fn reweigh(alloc: Global) -> Option<Command<AnyJob>> {
    let weights = Weights::new(Vec::from_slice(alloc, &[(2, 3), (2, 3), (2, 3)]).ok()?);
    Some(Command::Reweigh {
        workers: 2,
        weights,
    })
}

/// The command of this number, if there is memory for it.
fn command(alloc: Global, number: u64) -> Option<Command<AnyJob>> {
    if number == 0 {
        return None;
    }
    if number == REWEIGH {
        return reweigh(alloc);
    }
    match u16::try_from(number - 1) {
        Ok(task) if task < TASKS => submit(task),
        _ => Some(Command::Slot),
    }
}

/// Calls the command of this number. Whether it was answered.
fn ask<B: Since<AnyJob>, K: Desk<Quantum<AnyJob>, Done<AnyJob>> + Drop, R: Wait + Print>(
    rt: &R,
    alloc: Global,
    front: &Front<AnyJob, B, K>,
    pass: &mut Pass<AnyJob, B>,
    number: u64,
) -> bool
where
    K::Seat: Drop,
{
    let before = pass.greatest();
    for _try in 0..2 {
        let Some(command) = command(alloc, number) else {
            say(rt, "call", "90");
            continue;
        };
        match front.ask(rt, pass, command) {
            Ok((number, reply)) => {
                say_reply(rt, number, &reply);
                return true;
            }
            Err(fault) => {
                if refuse(rt, "call", fault) || pass.greatest() != before {
                    return false;
                }
            }
        }
    }
    false
}

/// Calls all commands, those with odd numbers by the first pass. Whether all were answered.
fn ask_all<B: Since<AnyJob>, K: Desk<Quantum<AnyJob>, Done<AnyJob>> + Drop, R: Wait + Print>(
    rt: &R,
    alloc: Global,
    front: &Front<AnyJob, B, K>,
    first: &mut Pass<AnyJob, B>,
    second: &mut Pass<AnyJob, B>,
) -> bool
where
    K::Seat: Drop,
{
    for number in 1..COMMANDS + 1 {
        let is_answered = if number % 2 == 1 {
            ask(rt, alloc, front, first, number)
        } else {
            ask(rt, alloc, front, second, number)
        };
        if !is_answered {
            return false;
        }
    }
    true
}

/// Waits for the receipt of a pass's last command, and tells the reader.
fn settle<B: Since<AnyJob>, K: Desk<Quantum<AnyJob>, Done<AnyJob>> + Drop, R: Wait + Print>(
    rt: &R,
    front: &Front<AnyJob, B, K>,
    pass: &mut Pass<AnyJob, B>,
    reader: &mut Reader<AnyJob, B>,
) -> bool
where
    K::Seat: Drop,
{
    for _try in 0..2 {
        let last = pass.greatest();
        if last == 0 {
            return false;
        }
        match front.settled(rt, pass, last) {
            Ok(acknowledged) => {
                count(rt, "settled", acknowledged.receipt.number);
                reader.told(&acknowledged.receipt);
                return true;
            }
            Err(fault) => {
                if refuse(rt, "settled", fault) {
                    return false;
                }
            }
        }
    }
    false
}

/// Has the reader look.
fn look<B: Since<AnyJob>, R: Print>(rt: &R, alloc: Global, reader: &mut Reader<AnyJob, B>) {
    for _try in 0..2 {
        match reader.status(alloc) {
            Ok(board) => return say_board(rt, &board),
            Err(fault) => say(rt, "status", shown(fault == StatusFault::NoMemory)),
        }
    }
}

/// What is said of a front that doesn't start.
fn unstarted(fault: StartFault) -> &'static str {
    match fault {
        StartFault::NoThread => "thread",
        StartFault::NoMemory => "90",
    }
}

/// Makes all calls of a front, one after the other, up to one that isn't answered as it should be.
fn visit<B: Since<AnyJob>, K: Desk<Quantum<AnyJob>, Done<AnyJob>> + Drop, R: Wait + Print>(
    rt: &R,
    alloc: Global,
    front: &Front<AnyJob, B, K>,
    first: &mut Pass<AnyJob, B>,
    second: &mut Pass<AnyJob, B>,
    readers: &mut Vec<Reader<AnyJob, B>>,
)
where
    K::Seat: Drop,
{
    if !ask_all(rt, alloc, front, first, second) {
        return;
    }
    if let Some(reader) = readers.get_mut(0) {
        if settle(rt, front, first, reader) {
            look(rt, alloc, reader);
        }
    }
}

/// Says what a front left: the store's last number, that of the last mark, why the front failed, and whether its one reader saw
/// the last publication.
fn left<B: Since<AnyJob>, D: Disk + Drop, R: Print>(rt: &R, closed: Closed<AnyJob, B, D>) {
    let cause = match closed.book.failure() {
        None => "none",
        Some(Cause::Memory) => "Memory",
        Some(Cause::Device) => "Device",
        Some(Cause::Log) => "Log",
    };
    let has_looked = closed.looked.len() == 1 && closed.looked[0];
    let number = closed.store.state().number();
    let marked = closed.book.marked();
    let _said = println!(rt; "closed {number} {marked} {cause} {has_looked}");
}

/// The session over a front of a store. The store comes back if the front doesn't start.
fn serve<
    B: Since<AnyJob> + Send + Sync + 'static,
    K: Desk<Quantum<AnyJob>, Done<AnyJob>> + Drop + Send + Sync + 'static,
    D: Disk + Drop + Send + 'static,
    R: Threads + Wait + Clock + Print + Copy + Drop + Send + Sync + 'static,
>(
    rt: R,
    alloc: Global,
    names: Names<AnyJob>,
    store: Store<D, AnyJob>,
    desk: K,
) -> Result<bool, Store<D, AnyJob>>
where
    K::Seat: Drop + Send + 'static,
    requires named { (names.tokens.table.shared.table_id ≡ B.table) × (names.list.seen.book ≡ B.book) × (B.origin ≡ B.start) }
    requires calls { (names.calls.seen.book ≡ B.calls) × (names.marks.seen.book ≡ B.marks) }
    requires begins { Begins any_kind B.start B.failures B.clock B.held B.image store (D.view store.file.disk) }
    ensures back { IfErr result (λ s. s ≡ store) }
{
    let Ok(mut passes) = Vec::with_capacity(alloc, 2) else {
        say(&rt, "passes", "90");
        return Err(store);
    };
    let started = Front::<AnyJob, B, K>::start::<D, R>(rt, alloc, names, store, desk, WORKERS, 1);
    let (front, crew, mut readers) = match started {
        Ok(served) => served,
        Err((fault, store)) => {
            say(&rt, "start", unstarted(fault));
            return Err(store);
        }
    };
    say(&rt, "start", "ok");
    let (Some(mut first), Some(mut second)) = (front.pass(&rt), front.pass(&rt)) else {
        return Ok(false);
    };
    visit(&rt, alloc, &front, &mut first, &mut second, &mut readers);
    passes.push_reserved(first);
    passes.push_reserved(second);
    match front.close(&rt, crew, Given { passes, readers }) {
        Ok(closed) => left(&rt, closed),
        Err(_) => return Ok(false),
    }
    Ok(true)
}

/// The session over a store in a file, by a name of its own. The store comes back if the front doesn't start.
fn serve_file<R: Threads + Wait + Clock + Print + Copy + Drop + Send + Sync + 'static>(
    rt: R,
    alloc: Global,
    store: Store<FileDisk, AnyJob>,
    desk: JobDesk,
    names: Names<AnyJob>,
) -> Result<bool, Store<FileDisk, AnyJob>>
    requires { BeginsHonest any_kind store (file_view store.file.disk) }
    ensures back { IfErr result (λ s. s ≡ store) }
{
    serve::<Brand, JobDesk, FileDisk, R>(rt, alloc, names, store, desk)
}

/// The same with a desk and lists of its own, or the store again.
fn start<R: Threads + Wait + Clock + Print + Copy + Drop + Send + Sync + 'static>(
    rt: R,
    alloc: Global,
    store: Store<FileDisk, AnyJob>,
) -> Result<bool, Store<FileDisk, AnyJob>>
    requires { BeginsHonest any_kind store (file_view store.file.disk) }
    ensures back { IfErr result (λ s. s ≡ store) }
{
    match (ChannelDesk::new(alloc), Names::new(alloc)) {
        (Ok(desk), Ok(names)) => serve_file(rt, alloc, store, desk, names),
        _ => {
            say(&rt, "desk", "90");
            Err(store)
        }
    }
}

/// The session over a new store in an empty file. Whether it came to the front's end.
pub fn session<R: Threads + Wait + Clock + Print + Copy + Drop + Send + Sync + 'static>(
    rt: R,
    alloc: Global,
    disk: FileDisk,
) -> bool {
    let Some(made) = init(&rt, alloc, disk) else {
        return false;
    };
    let Some(store) = open(&rt, alloc, made.into_disk()) else {
        return false;
    };
    match start(rt, alloc, store) {
        Ok(is_ended) => is_ended,
        Err(store) => match start(rt, alloc, store) {
            Ok(is_ended) => is_ended,
            Err(_store) => false,
        },
    }
}
