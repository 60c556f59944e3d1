//! Commands tried on the state.
ghost use Rattle.std.specs.Prelude.{◌≡◌, ◌≢◌, ◌↔◌, map, IfOk, IfErr, OnOk, None, IsTrue, IsFalse};
ghost use Rattle.pfx_machine.specs.Slots.{deal};
ghost use Rattle.pfx_book_slot.specs.Dealt.{StandsAt};
ghost use Rattle.pfx_book.specs.Notes.{refused_at};
ghost use Rattle.pfx_book.specs.Trying.{Tries, StaysUnopened, IsReady};

use crate::copies::copy_command;
use crate::faults::BookFault;
use pfx_book_slot::sealing::open_on;
use pfx_book_slot::slot::OpenSlot;
use pfx_jobs::job::Job;
use pfx_jobs::quantum::Quantum;
use pfx_machine::{Command, Reply, State};
use pfx_record::Record;
use pfx_record_redo::{Recorded, apply_recorded};
use std::alloc::Global;

/// What came of a command, with a copy of it.
#[derive(Drop)]
pub enum Tried<J> {
    Done(Command<J>, Reply, Record<J>),
    Refused(Command<J>, BookFault),
    NoMemory,
}

/// Whether this is the refusal of a growth of memory.
pub(crate) fn is_no_memory(fault: BookFault) -> bool
    ensures yes { IsTrue result → fault ≡ BookFault.NoMemory }
    ensures no { IsFalse result → fault ≢ BookFault.NoMemory }
{
    matches!(fault, BookFault::NoMemory)
}

/// Tries a command on the state of a session that is full or not. `NoMemory` isn't said of a full one, nor of a Submit or a Withdraw.
pub fn try_command<J: Job>(
    alloc: Global,
    state: &mut State<J>,
    command: Command<J>,
    is_full: bool,
) -> Tried<J>
    ensures { Tries J.kind is_full state.old command state.new result }
{
    if is_full {
        return Tried::Refused(command, BookFault::SessionFull);
    }
    let Some(copy) = copy_command(alloc, &command) else {
        return Tried::NoMemory;
    };
    match apply_recorded(alloc, state, command) {
        Ok(Recorded { reply, entry }) => Tried::Done(copy, reply, entry),
        Err(fault) => {
            if fault.is_memory() {
                return Tried::NoMemory;
            }
            Tried::Refused(copy, BookFault::Machine(fault))
        }
    }
}

/// Tries to open the next slot of a session that is full or not. A full one isn't refused for want of memory.
pub fn try_open<J: Job>(
    alloc: Global,
    state: &mut State<J>,
    is_full: bool,
) -> Result<(OpenSlot<J>, Vec<Quantum<J>>), BookFault>
    ensures free { OnOk result (refused_at is_full J.kind state.old Command.Slot ≡ None) }
    ensures stands { IfOk result (λ r. StandsAt J.kind state.old r.0) }
    ensures none_back { IfOk result (λ r. r.0.back ≡ map (λ d. None) r.0.quanta) }
    ensures dealt { IfOk result (λ r. map (λ q. deal q.number q.slot q.task q.before) r.1.items ≡ r.0.quanta) }
    ensures err { IfErr result (StaysUnopened J.kind is_full state.old) }
    ensures same { state.new ≡ state.old }
{
    if is_full {
        return Err(BookFault::SessionFull);
    }
    match open_on(alloc, state) {
        Ok(opened) => Ok(opened),
        Err(fault) if fault.is_memory() => Err(BookFault::NoMemory),
        Err(fault) => Err(BookFault::Machine(fault)),
    }
}

/// Whether a slot is open whose results are all back.
pub fn is_all_back<J: Job>(slot: &Option<OpenSlot<J>>) -> bool
    ensures { IsTrue result ↔ IsReady slot.now }
{
    match slot {
        None => false,
        Some(slot) => slot.missing().is_none(),
    }
}
