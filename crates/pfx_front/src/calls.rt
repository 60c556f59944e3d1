//! What clients call.
//!
//! Why it is so:
//! - **A slot takes the front's lock twice**, to be opened and to be ended: its results are gathered outside and taken in together, so
//!   that more clients come between two batches of the flusher. If memory for a result is refused, the book is given it at once.
//! - **A single client's board is made under the lock.** A reader's board is what was published; only the book's state is that of the
//!   client's commands, and while one pass is out nobody else except the flusher can wait for the lock.
//! - **A result that never comes is made by the caller.** If the desk is closed or a worker is gone, `missing` gives the quantum again
//!   and the calling thread runs it; a second result of the same quantum is refused by the book, and dropped.
ghost use Rattle.std.specs.Prelude.{◌≡◌, ◌<◌, ◌≤◌, ◌+◌, ℕ, [], length, IfOk, IfErr, IfSome, IfNone, OnOk, Some, None, false, IsTrue};
ghost use Rattle.pfx_fault.specs.declared.fields.Cause.{Cause};
ghost use Rattle.pfx_machine.specs.declared.command.Command.TheVariants.{Slot};
ghost use Rattle.pfx_events_world.specs.Session.{IsQuick, asked};
ghost use Rattle.pfx_book.specs.Calls.{IsAccepted, noted};
ghost use Rattle.pfx_book.specs.Notes.{greatest};
ghost use Rattle.pfx_book.specs.Register.{HasRoom};
ghost use Rattle.pfx_book.specs.declared.note.Note.TheVariants.{Accepted, Receipt as Receipted};
ghost use Rattle.pfx_front.specs.Calling.{IsLost, IsRefusedBy, HasNoReply, HasNoReceipt, told_of};
ghost use Rattle.pfx_front.specs.Lasting.{IsAcknowledged};
ghost use Rattle.pfx_front.specs.Sole.{IsAlone};
ghost use Rattle.pfx_front.specs.declared.faults.CallFault.TheVariants.{StoreFailed};

use crate::durable::{Acknowledged, Durable};
use crate::faults::CallFault;
use crate::monitor::{Monitor, is_busy, is_ready};
use crate::name::Since;
use crate::sole::{Heard, is_sole_in};
use crate::start::make_room;
use pfx_book::book::{Book, Pass};
use pfx_book::closing;
use pfx_book::faults::BookFault;
use pfx_crew::desk::Desk;
use pfx_jobs::job::Job;
use pfx_jobs::quantum::{Done, Quantum};
use pfx_machine::{Command, Reply};
use std::alloc::Global;
use std::sync::{Arc, Mutex, Wait};

/// What the threads of a front share.
#[derive(Drop)]
pub(crate) struct Shared<J: Job, B: Since<J>, K: Desk<Quantum<J>, Done<J>>> {
    pub(crate) monitor: Monitor<J, B>,
    pub(crate) desk: K,
    pub(crate) seat: Mutex<Option<K::Seat>>,
    pub(crate) workers: u32,
    pub(crate) alloc: Global,
}

/// A store that many threads call. Each client has a `Pass`, which knows what happened to it: what its calls were answered, in
/// order, and nothing else.
#[derive(Drop)]
pub struct Front<J: Job, B: Since<J>, K: Desk<Quantum<J>, Done<J>>> {
    pub(crate) shared: Arc<Shared<J, B, K>, Global>,
}

/// Why no more is accepted, if the flusher has given up. The client is told, which its pass notes the first time.
fn loss<J: Job, B: Since<J>>(book: &mut Book<J, B>, pass: &mut Pass<J, B>) -> Option<CallFault>
    ensures some { IfSome result (IsLost pass.old pass.new) }
    ensures mark { (marked : ℕ) → (cause : Cause) → result ≡ Some (StoreFailed marked cause) → marked ≡ B.start.number + book.old.session.marked }
    ensures none { IfNone result ((book.old.failure ≡ None) × (book.new ≡ book.old) × (pass.new ≡ pass.old)) }
{
    if book.failure().is_none() {
        return None;
    }
    book.note_failure(pass);
    match pass.lost() {
        Some(loss) => Some(CallFault::StoreFailed {
            marked: loss.marked,
            cause: loss.cause,
        }),
        None => unreachable!(),
    }
}

/// As `loss`, with whether this is the only pass that is out.
fn heard_loss<J: Job, B: Since<J>>(
    book: &mut Book<J, B>,
    pass: &mut Pass<J, B>,
) -> Option<Heard<CallFault>>
    ensures some { IfSome result (λ heard. IsLost pass.old pass.new heard.said) }
    ensures alone { IfSome result (λ heard. IsTrue heard.sole → IsAlone J.kind B.start pass.new.1) }
    ensures none { IfNone result ((book.old.failure ≡ None) × (book.new ≡ book.old) × (pass.new ≡ pass.old)) }
{
    let said = loss(book, pass)?;
    let sole = is_sole_in(book, pass);
    Some(Heard { sole, said })
}

/// A receipt, as the book gives it.
fn receipt_of<J: Job, B: Since<J>>(
    book: &mut Book<J, B>,
    pass: &mut Pass<J, B>,
    number: u64,
) -> Result<closing::PlainReceipt, CallFault>
    requires { number ≤ B.start.number + book.old.session.marked }
    ensures ok { IfOk result (λ r. (r.number ≡ number) × (pass.new ≡ noted (Receipted number r.clock) pass.old)) }
    ensures err { IfErr result (HasNoReceipt number pass.old pass.new) }
{
    match book.receipt(pass, number) {
        Ok(receipt) => Ok(receipt),
        Err(_) => Err(CallFault::NoMemory),
    }
}

/// Gives the book a result. One that it refuses is dropped: it is a double, or of a slot that isn't open.
fn give_in<J: Job, B: Since<J>, R: Wait>(rt: &R, monitor: &Monitor<J, B>, done: Done<J>) {
    let mut guard = monitor.book.lock(rt);
    if let Some(book) = &mut *guard {
        let _refused = book.give(done);
    }
}

/// Gives the book these results, each as `give_in` does.
fn give_all<J: Job, B: Since<J>>(book: &mut Book<J, B>, back: Vec<Done<J>>) {
    for done in back {
        let _refused = book.give(done);
    }
}

/// Gives the book these results and ends the open slot of this pass, if none is missing then. The flusher is woken, and a client
/// that waits for the slot's end.
fn seal_in<J: Job, B: Since<J>, R: Wait>(
    rt: &R,
    monitor: &Monitor<J, B>,
    pass: &mut Pass<J, B>,
    back: Vec<Done<J>>,
) -> Option<Heard<(u64, Reply)>>
    ensures some { IfSome result (λ r. (pass.new ≡ noted (Accepted r.said.0 Slot r.said.1) pass.old) × (greatest pass.old.1 < r.said.0)) }
    ensures alone { IfSome result (λ heard. IsTrue heard.sole → IsAlone J.kind B.start pass.new.1) }
    ensures none { IfNone result (pass.new ≡ pass.old) }
{
    let mut guard = monitor.book.lock(rt);
    let Some(book) = &mut *guard else {
        return None;
    };
    give_all(book, back);
    let said = book.seal(pass)?;
    let sole = is_sole_in(book, pass);
    let enough = monitor.notes(said.0);
    drop(guard);
    monitor.wake(enough);
    Some(Heard { sole, said })
}

/// The first quantum of the open slot whose result isn't back.
fn missing_in<J: Job, B: Since<J>, R: Wait>(rt: &R, monitor: &Monitor<J, B>) -> Option<Quantum<J>> {
    match &*monitor.book.lock(rt) {
        Some(book) => book.missing(),
        None => None,
    }
}

/// Ends the open slot of this pass with these results. A result that no worker brought is made here.
fn end_slot<J: Job, B: Since<J>, R: Wait>(
    rt: &R,
    alloc: Global,
    monitor: &Monitor<J, B>,
    pass: &mut Pass<J, B>,
    back: Vec<Done<J>>,
) -> Heard<(u64, Reply)>
    ensures noted { pass.new ≡ noted (Accepted result.said.0 Slot result.said.1) pass.old }
    ensures rises { greatest pass.old.1 < result.said.0 }
    ensures alone { IsTrue result.sole → IsAlone J.kind B.start pass.new.1 }
{
    if let Some(sealed) = seal_in(rt, monitor, pass, back) {
        return sealed;
    }
    for _ in rt.forever() {
        if let Some(quantum) = missing_in(rt, monitor) {
            give_in(rt, monitor, quantum.run());
        }
        if let Some(sealed) = seal_in(rt, monitor, pass, Vec::new(alloc)) {
            return sealed;
        }
    }
    unreachable!()
}

/// What a client is told of the book's refusal.
fn told_of(fault: BookFault) -> CallFault
    ensures { result ≡ told_of fault }
{
    match fault {
        BookFault::NoMemory => CallFault::NoMemory,
        fault => CallFault::Refused(fault),
    }
}

/// Opens a slot of the book, or says why there is none, and whether this is the only pass that is out.
fn open_of<J: Job, B: Since<J>>(
    book: &mut Book<J, B>,
    pass: &mut Pass<J, B>,
) -> Result<Vec<Quantum<J>>, Heard<CallFault>>
    requires none_open { book.old.session.opened ≡ None }
    requires room { HasRoom book.old.session }
    requires goes_on { book.old.failure ≡ None }
    requires not_shut { book.old.shut ≡ false }
    ensures ok { OnOk result (pass.new ≡ pass.old) }
    ensures err { IfErr result (λ heard. HasNoReply Slot pass.old pass.new heard.said) }
    ensures alone { IfErr result (λ heard. IsTrue heard.sole → IsAlone J.kind B.start pass.new.1) }
{
    match book.open(pass) {
        Ok(quanta) => Ok(quanta),
        Err(fault) => {
            let sole = is_sole_in(book, pass);
            Err(Heard {
                sole,
                said: told_of(fault),
            })
        }
    }
}

/// Waits until a command may be asked, and opens a slot.
fn open_in<J: Job, B: Since<J>, R: Wait>(
    rt: &R,
    monitor: &Monitor<J, B>,
    pass: &mut Pass<J, B>,
) -> Result<Vec<Quantum<J>>, Heard<CallFault>>
    ensures ok { OnOk result (pass.new ≡ pass.old) }
    ensures err { IfErr result (λ heard. HasNoReply Slot pass.old pass.new heard.said) }
    ensures alone { IfErr result (λ heard. IsTrue heard.sole → IsAlone J.kind B.start pass.new.1) }
{
    for _ in rt.forever() {
        let mut guard = monitor
            .free
            .wait_while(rt, monitor.book.lock(rt), |b| is_busy(b));
        let Some(book) = &mut *guard else {
            continue;
        };
        if let Some(heard) = heard_loss(book, pass) {
            return Err(heard);
        }
        if is_ready(book) {
            let opened = open_of(book, pass);
            drop(guard);
            if opened.is_err() {
                monitor.free.notify_one();
            }
            return opened;
        }
    }
    unreachable!()
}

/// The book's answer to a command. What it accepts or refuses is an entry of this pass, and of none else.
fn ask_of<J: Job, B: Since<J>>(
    book: &mut Book<J, B>,
    pass: &mut Pass<J, B>,
    command: Command<J>,
) -> Result<(u64, Reply), CallFault>
    requires quick { IsQuick command }
    requires none_open { book.old.session.opened ≡ None }
    requires room { HasRoom book.old.session }
    requires goes_on { book.old.failure ≡ None }
    requires not_shut { book.old.shut ≡ false }
    ensures ok { IfOk result (λ r. (pass.new ≡ noted (Accepted r.0 command r.1) pass.old) × (greatest pass.old.1 < r.0)) }
    ensures err { IfErr result (HasNoReply command pass.old pass.new) }
    ensures accepted { IfOk result (IsAccepted command (asked J.kind command book.old.session) book.old book.new pass.old pass.new) }
    ensures refused { IfErr result (IsRefusedBy J.kind command book.old book.new pass.old pass.new) }
{
    match book.ask(pass, command) {
        Ok(reply) => Ok(reply),
        Err(fault) => Err(told_of(fault)),
    }
}

/// As `ask_of`, with whether this is the only pass that is out.
fn heard_of<J: Job, B: Since<J>>(
    book: &mut Book<J, B>,
    pass: &mut Pass<J, B>,
    command: Command<J>,
) -> Heard<Result<(u64, Reply), CallFault>>
    requires quick { IsQuick command }
    requires none_open { book.old.session.opened ≡ None }
    requires room { HasRoom book.old.session }
    requires goes_on { book.old.failure ≡ None }
    requires not_shut { book.old.shut ≡ false }
    ensures ok { IfOk result.said (λ r. (pass.new ≡ noted (Accepted r.0 command r.1) pass.old) × (greatest pass.old.1 < r.0)) }
    ensures err { IfErr result.said (HasNoReply command pass.old pass.new) }
    ensures alone { IsTrue result.sole → IsAlone J.kind B.start pass.new.1 }
{
    let said = ask_of(book, pass, command);
    let sole = is_sole_in(book, pass);
    Heard { sole, said }
}

/// Whether the flusher has what it waits for after this answer.
fn is_enough<J: Job, B: Since<J>>(
    monitor: &Monitor<J, B>,
    answer: &Result<(u64, Reply), CallFault>,
) -> bool {
    match answer {
        Ok(reply) => monitor.notes(reply.0),
        Err(_) => false,
    }
}

/// Waits until a command may be asked, and asks it.
fn ask_in<J: Job, B: Since<J>, R: Wait>(
    rt: &R,
    monitor: &Monitor<J, B>,
    pass: &mut Pass<J, B>,
    command: Command<J>,
) -> Heard<Result<(u64, Reply), CallFault>>
    requires { IsQuick command }
    ensures ok { IfOk result.said (λ r. (pass.new ≡ noted (Accepted r.0 command r.1) pass.old) × (greatest pass.old.1 < r.0)) }
    ensures err { IfErr result.said (HasNoReply command pass.old pass.new) }
    ensures alone { IsTrue result.sole → IsAlone J.kind B.start pass.new.1 }
{
    for _ in rt.forever() {
        let mut guard = monitor
            .free
            .wait_while(rt, monitor.book.lock(rt), |b| is_busy(b));
        let Some(book) = &mut *guard else {
            continue;
        };
        if let Some(lost) = heard_loss(book, pass) {
            return Heard {
                sole: lost.sole,
                said: Err(lost.said),
            };
        }
        if is_ready(book) {
            let answer = heard_of(book, pass, command);
            let enough = is_enough(monitor, &answer.said);
            drop(guard);
            monitor.wake(enough);
            return answer;
        }
    }
    unreachable!()
}

/// Waits until the number is marked, or the flusher has given up.
fn settle_in<J: Job, B: Since<J>, R: Wait>(
    rt: &R,
    monitor: &Monitor<J, B>,
    pass: &mut Pass<J, B>,
    number: u64,
) -> Result<closing::PlainReceipt, CallFault>
    requires some { 0 < number }
    requires known { number ≤ greatest pass.old.1 }
    ensures ok { IfOk result (λ r. (r.number ≡ number) × (pass.new ≡ noted (Receipted number r.clock) pass.old)) }
    ensures err { IfErr result (HasNoReceipt number pass.old pass.new) }
{
    for _ in rt.forever() {
        let mut guard = monitor
            .marked
            .wait_while(rt, monitor.book.lock(rt), |b| match b {
                Some(book) => book.marked() < number && book.failure().is_none(),
                None => true,
            });
        let Some(book) = &mut *guard else {
            continue;
        };
        if number <= book.marked() {
            return receipt_of(book, pass, number);
        }
        if let Some(fault) = loss(book, pass) {
            return Err(fault);
        }
    }
    unreachable!()
}

/// The receipt with what was durable at the last publication, which reaches its number and its clock: it was left before the number was
/// marked.
fn worded<J: Job, B: Since<J>, R: Wait>(
    rt: &R,
    monitor: &Monitor<J, B>,
    receipt: closing::PlainReceipt,
) -> Acknowledged<J, B>
    ensures { (result.receipt.number ≡ receipt.number) × (result.receipt.clock ≡ receipt.clock) }
{
    let durable = monitor.durable.lock(rt).again();
    if let Some(acknowledged) = Acknowledged::new(receipt.number, receipt.clock, durable) {
        return acknowledged;
    }
    for _ in rt.forever() {}
    unreachable!()
}

impl<J: Job, B: Since<J>, K: Desk<Quantum<J>, Done<J>> + Drop> Shared<J, B, K>
where
    K::Seat: Drop,
{
    /// Keeps a result for the slot's end. If no memory can be had for it, the book is given it at once.
    fn hold<R: Wait>(&self, rt: &R, back: &mut Vec<Done<J>>, done: Done<J>) {
        if make_room(back) {
            back.push_reserved(done);
        } else {
            give_in(rt, &self.monitor, done);
        }
    }

    /// Has the workers run these quanta. What the desk doesn't take is run here; what it doesn't bring back stays missing.
    fn deal<R: Wait>(&self, rt: &R, quanta: Vec<Quantum<J>>, back: &mut Vec<Done<J>>) {
        let Some(mut seat) = self.seat.lock(rt).take() else {
            return;
        };
        let mut dealt = 0u32;
        for quantum in quanta {
            match self.desk.deal(rt, &mut seat, quantum) {
                Ok(()) => dealt = dealt.saturating_add(1),
                Err(quantum) => self.hold(rt, back, quantum.run()),
            }
        }
        for _ in 0..dealt {
            match self.desk.collect(rt, &mut seat) {
                Some(done) => self.hold(rt, back, done),
                None => break,
            }
        }
        *self.seat.lock(rt) = Some(seat);
    }

    /// Runs these quanta, by the workers if there are any, and gathers their results, so that one locking takes them in.
    fn run<R: Wait>(&self, rt: &R, quanta: Vec<Quantum<J>>) -> Vec<Done<J>> {
        let mut back = Vec::new(self.alloc);
        if self.workers > 0 {
            self.deal(rt, quanta, &mut back);
        } else {
            for quantum in quanta {
                self.hold(rt, &mut back, quantum.run());
            }
        }
        back
    }
}

impl<J: Job, B: Since<J>, K: Desk<Quantum<J>, Done<J>> + Drop> Front<J, B, K>
where
    K::Seat: Drop,
{
    /// A pass for one more client, with no notes. `None` if 64 are out.
    pub fn pass<R: Wait>(&self, rt: &R) -> Option<Pass<J, B>>
        ensures { IfSome result (λ p. p.1 ≡ []) }
    {
        match &mut *self.shared.monitor.book.lock(rt) {
            Some(book) => book.pass(),
            None => None,
        }
    }

    /// Accepts a command, carries it out, and answers its number and its reply, which the pass notes. That isn't an
    /// acknowledgement: `settled` is.
    ///
    /// It waits for the lock, while a slot is open, and while 64 accepted commands aren't durable. A Slot's quanta are run
    /// meanwhile, by the workers or, if there are none or their desk is closed, by this thread. `Refused` says why there is no
    /// such command now, and is noted. `NoMemory` says that an allocation failed: then nothing has changed. `StoreFailed` says that nothing
    /// is accepted any more; the first time, the pass notes why.
    pub fn ask<R: Wait>(
        &self,
        rt: &R,
        pass: &mut Pass<J, B>,
        command: Command<J>,
    ) -> Result<(u64, Reply), CallFault>
        ensures ok { IfOk result (λ r. (pass.new ≡ noted (Accepted r.0 command r.1) pass.old) × (greatest pass.old.1 < r.0)) }
        ensures err { IfErr result (HasNoReply command pass.old pass.new) }
    {
        self.hear(rt, pass, command).said
    }

    /// What `call` does, with whether no other pass was out when it was answered, under the same lock. Then what this pass notes is
    /// all that has happened: each of its answers is the machine's after the commands that it had accepted before.
    pub fn hear<R: Wait>(
        &self,
        rt: &R,
        pass: &mut Pass<J, B>,
        command: Command<J>,
    ) -> Heard<Result<(u64, Reply), CallFault>>
        ensures ok { IfOk result.said (λ r. (pass.new ≡ noted (Accepted r.0 command r.1) pass.old) × (greatest pass.old.1 < r.0)) }
        ensures err { IfErr result.said (HasNoReply command pass.old pass.new) }
        ensures alone { IsTrue result.sole → IsAlone J.kind B.start pass.new.1 }
    {
        let shared = &*self.shared;
        if !matches!(&command, Command::Slot) {
            return ask_in(rt, &shared.monitor, pass, command);
        }
        match open_in(rt, &shared.monitor, pass) {
            Err(refused) => Heard {
                sole: refused.sole,
                said: Err(refused.said),
            },
            Ok(quanta) => {
                let back = shared.run(rt, quanta);
                let sealed = end_slot(rt, shared.alloc, &shared.monitor, pass, back);
                Heard {
                    sole: sealed.sole,
                    said: Ok(sealed.said),
                }
            }
        }
    }

    /// What was durable at the last mark, and has been since the marks before it. Asked whether it holds a receipt, it says that
    /// whatever a stop may have left at any call between the receipt's moment and its own has the receipt's command.
    pub fn moment<R: Wait>(&self, rt: &R) -> Durable<J, B> {
        self.shared.monitor.durable.lock(rt).again()
    }

    /// Waits until the command of this number is durable, and gives its receipt, which the pass notes. A reader that is told of
    /// the receipt shows that command's state, or a later one. With it comes the moment at which it is durable: whatever a stop may
    /// have left then is recovered to a state that has the command.
    ///
    /// `StoreFailed` says that it isn't known to be durable, and won't become so; a number up to the last mark has its receipt
    /// also then. `NoMemory` changes nothing, and the call may be made again.
    pub fn settled<R: Wait>(
        &self,
        rt: &R,
        pass: &mut Pass<J, B>,
        number: u64,
    ) -> Result<Acknowledged<J, B>, CallFault>
        requires some { 0 < number }
        requires known { number ≤ greatest pass.old.1 }
        ensures ok { IfOk result (λ r. (r.receipt.number ≡ number) × (pass.new ≡ noted (Receipted number r.receipt.clock) pass.old)) }
        ensures reached { IfOk result (λ r. r.receipt.clock ≤ B.clock + length r.moment) }
        ensures durable { IfOk result (λ r. IsAcknowledged J.kind B.origin B.held B.image r.moment r.receipt.word number) }
        ensures err { IfErr result (HasNoReceipt number pass.old pass.new) }
    {
        let monitor = &self.shared.monitor;
        match settle_in(rt, monitor, pass, number) {
            Ok(receipt) => Ok(worded(rt, monitor, receipt)),
            Err(fault) => Err(fault),
        }
    }
}
