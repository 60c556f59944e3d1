//! A command of a front's only client.
ghost use Rattle.std.specs.Prelude.{◌≡◌, ◌≢◌, ◌<◌, [], true, IfOk, IfErr, OnOk, OnErr};
ghost use Rattle.pfx_book.specs.Calls.{noted};
ghost use Rattle.pfx_book.specs.Notes.{greatest};
ghost use Rattle.pfx_book.specs.declared.note.Note.TheVariants.{Accepted};
ghost use Rattle.pfx_front.specs.Calling.{HasNoReply};
ghost use Rattle.pfx_front.specs.Sole.{IsAlone, IsShownBy, state_of};
ghost use Rattle.pfx_machine.specs.declared.command.Command.{Command};
ghost use Rattle.pfx_front_engine.specs.Asking.{AreAllAsked, AreAsked, AreSomeAsked, IsAnswered, IsUnanswered, IsFrontFault, why_machine, why_of};
ghost use Rattle.pfx_front_engine.specs.Keeping.{IsSettled, KeepsBy};

use crate::client::Client;
use pfx_book::book::Pass;
use pfx_book::faults::BookFault;
use pfx_choice::ChoiceFault;
use pfx_crew::desk::Desk;
use pfx_fault::{Cause, Fault};
use pfx_front::calls::Front;
use pfx_front::faults::CallFault;
use pfx_front::name::Since;
use pfx_front::sole::Heard;
use pfx_jobs::job::Job;
use pfx_jobs::quantum::{Done, Quantum};
use pfx_machine::{Board, Command, MachineFault, Reply, State};
use pfx_store_engine::{EngineFault, Told};
use std::alloc::{AllocError, Global};
use std::sync::Wait;

/// What the machine's refusal is to a run.
fn why_machine(fault: MachineFault) -> EngineFault
    ensures { result ≡ why_machine fault }
{
    match fault {
        MachineFault::NoRow(ChoiceFault::NoMemory) => EngineFault::Failed(Fault::NoMemory),
        fault => EngineFault::Refused(fault),
    }
}

/// What a front's refusal is to a run: the machine's refusals are answers, all others end it.
fn why(fault: CallFault) -> EngineFault
    ensures { result ≡ why_of fault }
{
    match fault {
        CallFault::Refused(BookFault::NoMemory) | CallFault::NoMemory => {
            EngineFault::Failed(Fault::NoMemory)
        }
        CallFault::Refused(BookFault::SessionFull) => EngineFault::Failed(Fault::SessionFull),
        CallFault::Refused(BookFault::Machine(fault)) => why_machine(fault),
        CallFault::StoreFailed { marked, cause } => {
            EngineFault::Failed(Fault::StoreFailed { marked, cause })
        }
    }
}

/// Returns if a pass was the only one that was out, and else never: who gave it out gives no other.
fn stay_alone<R: Wait>(rt: &R, sole: bool)
    ensures { sole ≡ true }
{
    if sole {
        return;
    }
    for _ in rt.forever() {}
    unreachable!()
}

/// One call of the front by its only client, whose notes are then all that has happened.
fn ask_alone<J: Job, B: Since<J>, K: Desk<Quantum<J>, Done<J>> + Drop, R: Wait>(
    rt: &R,
    front: &Front<J, B, K>,
    pass: &mut Pass<J, B>,
    command: Command<J>,
) -> Result<(u64, Reply), CallFault>
where
    K::Seat: Drop,
    ensures ok { IfOk result (λ r. (pass.new ≡ noted (Accepted r.0 command r.1) pass.old) × (greatest pass.old.1 < r.0)) }
    ensures err { IfErr result (HasNoReply command pass.old pass.new) }
    ensures alone { IsAlone J.kind B.start pass.new.1 }
{
    let Heard { sole, said } = front.hear(rt, pass, command);
    stay_alone(rt, sole);
    said
}

/// Has a command carried out for the only client. The answer isn't an acknowledgement: `settle` is.
pub(crate) fn ask<J: Job, B: Since<J>, K: Desk<Quantum<J>, Done<J>> + Drop, R: Wait>(
    rt: &R,
    front: &Front<J, B, K>,
    client: &mut Client<J, B>,
    command: Command<J>,
) -> Result<(u64, Reply), EngineFault>
where
    K::Seat: Drop,
    ensures ok { IfOk result (λ r. IsAnswered J.kind B.start client.old command r.0 r.1 client.new) }
    ensures err { IfErr result (IsUnanswered J.kind B.start client.old command client.new) }
{
    match ask_alone(rt, front, &mut client.pass, command) {
        Ok((number, reply)) => {
            client.number = number;
            Ok((number, reply))
        }
        Err(fault) => Err(why(fault)),
    }
}

/// Has Slots carried out one after the other, at least one and at most `count`, up to the first that has no answer.
pub(crate) fn ask_slots<J: Job, B: Since<J>, K: Desk<Quantum<J>, Done<J>> + Drop, R: Wait>(
    rt: &R,
    alloc: Global,
    front: &Front<J, B, K>,
    client: &mut Client<J, B>,
    count: u32,
) -> Result<Vec<(u64, Reply)>, EngineFault>
where
    K::Seat: Drop,
    requires some { 0 < count }
    ensures ok { IfOk result (λ said. AreAsked J.kind B.start client.old count said.items client.new) }
    ensures err { IfErr result (IsUnanswered J.kind B.start client.old Command.Slot client.new) }
{
    let Ok(mut said) = Vec::with_capacity(alloc, count as usize) else {
        return Err(EngineFault::Failed(Fault::NoMemory));
    };
    for _ in 0..count {
        match ask(rt, front, client, Command::Slot) {
            Ok(reply) => said.push_reserved(reply),
            Err(_) if !said.is_empty() => return Ok(said),
            Err(why) => return Err(why),
        }
    }
    Ok(said)
}

/// Has commands carried out one after the other: what each is told. None of the answers is an acknowledgement: `settle` is.
pub(crate) fn ask_all<J: Job, B: Since<J>, K: Desk<Quantum<J>, Done<J>> + Drop, R: Wait>(
    rt: &R,
    alloc: Global,
    front: &Front<J, B, K>,
    client: &mut Client<J, B>,
    commands: Vec<Command<J>>,
) -> Result<Vec<Told>, Fault>
where
    K::Seat: Drop,
    ensures ok { IfOk result (λ told. AreAllAsked J.kind B.start client.old commands.items told.items client.new) }
    ensures fails { IfErr result (IsFrontFault J.kind B.start client.new) }
    ensures err { OnErr result (AreSomeAsked J.kind B.start client.old commands.items client.new) }
{
    let Ok(mut told) = Vec::with_capacity(alloc, commands.len()) else {
        return Err(Fault::NoMemory);
    };
    for command in commands {
        match ask(rt, front, client, command) {
            Ok(reply) => told.push_reserved(Ok(reply)),
            Err(EngineFault::Refused(fault)) => told.push_reserved(Err(fault)),
            Err(EngineFault::Failed(fault)) => return Err(fault),
        }
    }
    Ok(told)
}

/// Waits until all that the client had accepted is durable: the last number.
pub(crate) fn settle<J: Job, B: Since<J>, K: Desk<Quantum<J>, Done<J>> + Drop, R: Wait>(
    rt: &R,
    front: &Front<J, B, K>,
    client: &mut Client<J, B>,
) -> Result<u64, Fault>
where
    K::Seat: Drop,
    ensures number { IfOk result (λ n. n ≡ (state_of J.kind B.start client.old).number) }
    ensures settled { OnOk result (IsSettled B.start.number client.new) }
    ensures stays { KeepsBy B.start.number client.old [] 0 client.new }
    ensures fails { IfErr result (IsFrontFault J.kind B.start client.new) }
    ensures memory { IfErr result (λ fault. fault ≢ Fault.NoMemory) }
{
    if client.number == client.kept {
        return Ok(client.number);
    }
    match front.settled(rt, &mut client.pass, client.number) {
        Ok(_receipt) => {
            client.kept = client.number;
            Ok(client.number)
        }
        Err(CallFault::StoreFailed { marked, cause }) => {
            Err(Fault::StoreFailed { marked, cause })
        }
        Err(CallFault::NoMemory) => Err(Fault::StoreFailed {
            marked: client.kept,
            cause: Cause::Memory,
        }),
        Err(CallFault::Refused(_)) => unreachable!(),
    }
}

/// The board of the state after the client's commands.
pub(crate) fn board<J: Job, B: Since<J>, K: Desk<Quantum<J>, Done<J>> + Drop, R: Wait>(
    rt: &R,
    front: &Front<J, B, K>,
    client: &mut Client<J, B>,
) -> Result<Board, AllocError>
where
    K::Seat: Drop,
    ensures same { client.new ≡ client.old }
    ensures shows { IfOk result (IsShownBy J.kind (state_of J.kind B.start client.old)) }
{
    match front.board(rt, &mut client.pass) {
        Ok(Some(board)) => return Ok(board),
        Ok(None) => {}
        Err(fault) => return Err(fault),
    }
    for _ in rt.forever() {}
    unreachable!()
}

/// A copy of the state after the client's commands.
pub(crate) fn state<J: Job, B: Since<J>, K: Desk<Quantum<J>, Done<J>> + Drop, R: Wait>(
    rt: &R,
    front: &Front<J, B, K>,
    client: &mut Client<J, B>,
) -> Result<State<J>, AllocError>
where
    K::Seat: Drop,
    ensures same { client.new ≡ client.old }
    ensures copies { IfOk result (λ copy. copy ≡ state_of J.kind B.start client.old) }
{
    match front.state(rt, &mut client.pass) {
        Ok(Some(copy)) => return Ok(copy),
        Ok(None) => {}
        Err(fault) => return Err(fault),
    }
    for _ in rt.forever() {}
    unreachable!()
}
