//! The open slot: begun, given its results, sealed.
ghost use Rattle.std.specs.Prelude.{◌≡◌, ◌≢◌, ◌<◌, map, IfOk, IfErr, IfSome, IfNone, OnOk, OnErr, MatchOption, None, false};
ghost use Rattle.pfx_machine.specs.Slots.{deal};
ghost use Rattle.pfx_events_world.specs.Session.{MayBegin, MaySeal, opening_of, sealed};
ghost use Rattle.pfx_book.specs.Calls.{TakesCommands, IsAccepted, IsBegun, Refuses, NoneMissing, IsFirstMissing, ComesBack, IsRepelled};

use crate::book::{Book, Pass};
use crate::copies::copy_reply;
use crate::faults::BookFault;
use crate::line::Line;
use crate::name::Named;
use crate::note::Note;
use crate::room::make_room;
use crate::trying::{is_all_back, is_no_memory, try_open};
use pfx_book_slot::sealing::seal_on;
use pfx_crew::gathering::GatherFault;
use pfx_jobs::job::Job;
use pfx_jobs::quantum::{Done, Quantum};
use pfx_machine::{Command, Reply};
use pfx_record_redo::Recorded;

impl<J: Job, B: Named<J>> Book<J, B> {
    /// Opens the next slot for this pass, if the book takes commands and a slot may be opened, and gives the quanta that are to be
    /// run; or refuses a Slot as `ask` refuses a command.
    /// All memory that the slot's end needs is taken here. Until it is sealed no command is accepted.
    pub fn open(&mut self, pass: &mut Pass<J, B>) -> Result<Vec<Quantum<J>>, BookFault>
        requires ready { TakesCommands self.old }
        ensures may { IfOk result (λ _. MayBegin J.kind self.old.session) }
        ensures begun { OnOk result (IsBegun J.kind self.old self.new pass.old pass.new) }
        ensures dealt { IfOk result
            (λ quanta. map (λ q. deal q.number q.slot q.task q.before) quanta.items ≡ (opening_of J.kind self.old.session.state).quanta) }
        ensures err { IfErr result (Refuses J.kind Command.Slot self.old self.new pass.old pass.new) }
    {
        let Book {
            alloc,
            keeper,
            began,
            state,
            history,
            slot,
            opener,
            ..
        } = self;
        if !make_room(history, 1) {
            return Err(BookFault::NoMemory);
        }
        let is_full = state.number() - *began >= 1 << 20;
        match try_open(*alloc, state, is_full) {
            Err(fault) => {
                if is_no_memory(fault) {
                    return Err(fault);
                }
                history.push_reserved(Line::Slot {
                    pass: pass.number,
                    refused: true,
                });
                keeper.note(
                    &mut pass.token,
                    &Note::Refused(state.number(), Command::Slot, fault),
                );
                return Err(fault);
            }
            Ok((open, quanta)) => {
                *slot = Some(open);
                *opener = pass.number;
                return Ok(quanta);
            }
        }
    }

    /// Again the first quantum of the open slot whose result isn't back. `None` if none is missing, or no slot is open.
    pub fn missing(&self) -> Option<Quantum<J>>
        ensures { MatchOption result (NoneMissing self.now.session.opened)
            (λ q. IsFirstMissing self.now.session.opened (deal q.number q.slot q.task q.before)) }
    {
        match &self.slot {
            None => None,
            Some(slot) => slot.missing(),
        }
    }

    /// Takes a result of the open slot in, or refuses it with nothing changed: as a `Stranger` if it answers no quantum of
    /// the open slot or none is open, and as a `Double` if that quantum's result is back. It takes no memory.
    pub fn give(&mut self, done: Done<J>) -> Result<(), GatherFault>
        ensures event { OnOk result (ComesBack J.kind (deal done.number done.slot done.task done.before) self.old self.new) }
        ensures err { IfErr result (λ fault. IsRepelled self.old.session.opened (deal done.number done.slot done.task done.before) fault) }
        ensures kept { OnErr result (self.new ≡ self.old) }
    {
        let Some(slot) = &mut self.slot else {
            return Err(GatherFault::Stranger { task: done.task });
        };
        slot.give(done)
    }

    /// Ends the open slot of this pass once all results are back: a Slot is accepted, with an entry for the pass. `None`, with
    /// nothing changed, if no slot is open, if another pass opened it, or if a result is missing. It takes no memory.
    pub fn seal(&mut self, pass: &mut Pass<J, B>) -> Option<(u64, Reply)>
        ensures may { IfSome result (λ _. MaySeal self.old.session × (self.old.opener ≡ pass.old.0)) }
        ensures accepted { IfSome result (IsAccepted Command.Slot (sealed self.old.session) self.old self.new pass.old pass.new) }
        ensures none { IfNone result ((self.new ≡ self.old) × (pass.new ≡ pass.old) × (MaySeal self.old.session → self.old.opener ≢ pass.old.0)) }
    {
        let Book {
            keeper,
            state,
            history,
            pending,
            slot,
            opener,
            ..
        } = self;
        if *opener != pass.number {
            return None;
        }
        if !is_all_back(slot) {
            return None;
        }
        let _total = state.number();
        let open = slot.take()?;
        let Recorded { reply, entry } = seal_on(state, open)?;
        let number = state.number();
        let note = Note::Accepted(number, Command::Slot, copy_reply(&reply));
        keeper.note(&mut pass.token, &note);
        history.push_reserved(Line::Slot {
            pass: pass.number,
            refused: false,
        });
        pending.push_back_reserved(entry);
        pass.top = number;
        Some((number, reply))
    }
}
