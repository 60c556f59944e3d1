//! The locked value, and the tokens that it gives out.
ghost use Rattle.std.specs.Prelude.{◌≡◌, ◌≢◌, ◌↔◌, ℕ, List, [], ◌∷◌, ◌<◌, ◌≤◌, ◌+◌, length, map, IfOk, IfErr, IfSome, IfNone, Some, None};
ghost use Rattle.std.specs.Prelude.{false, IsTrue, vec_capacity};
ghost use Rattle.pfx_machine.specs.Board.{all_lines};
ghost use Rattle.pfx_machine.specs.Plain.{whole};
ghost use Rattle.pfx_events_world.specs.Session.{IsQuick, MayAsk, asked};
ghost use Rattle.pfx_book.specs.Calls.{TakesCommands, IsAccepted, Refuses};
ghost use Rattle.pfx_book.specs.Notes.{IsRested, greatest, lost_in};
ghost use Rattle.pfx_book.specs.Register.{new_register, HasRoom};
ghost use Rattle.pfx_book.specs.declared.note.Note.TheVariants.{Marked};

use crate::copies::copy_reply;
use crate::faults::BookFault;
use crate::line::{Line, line_of, refused_line};
use crate::name::Named;
use crate::note::{Loss, Note};
use crate::room::make_room;
use crate::trying::{Tried, try_command};
use pfx_book_slot::slot::OpenSlot;
use pfx_fault::Cause;
use pfx_jobs::job::Job;
use pfx_machine::{Board, Command, Reply, State};
use pfx_record::Record;
use pfx_token::tokens::{Keeper, Token, UnnamedKeeper};
use std::alloc::{AllocError, Global};
use std::collections::VecDeque;
use std::marker::Model;

/// How many commands may be accepted and not yet marked.
pub const UNMARKED: u64 = 64;

/// The flusher's token. Contracts see it as the flusher's notes.
#[derive(Drop)]
pub struct Share<J: Job, B: Named<J>> {
    pub(crate) token: Token<Note<J>, B>,
}

impl<J: Job, B: Named<J>> Model for Share<J, B> {
    ghost use Rattle.std.specs.Prelude.{◌≡◌, List};
    ghost use Rattle.pfx_book.specs.declared.note.Note.{Note};

    ghost Value = { List (Note J) };

    ghost view = { λ p. p.token.1 };

    ghost invariant = { λ p. p.token.0 ≡ 0 };
}

/// A client's token. Contracts see it as its number, from 1 on, and its own notes.
#[derive(Drop)]
pub struct Pass<J: Job, B: Named<J>> {
    pub(crate) number: u8,
    pub(crate) top: u64,
    pub(crate) lost: Option<Loss>,
    pub(crate) token: Token<Note<J>, B>,
}

impl<J: Job, B: Named<J>> Model for Pass<J, B> {
    ghost use Rattle.std.specs.Prelude.{◌≡◌, ◌<◌, ℕ, List};
    ghost use Rattle.pfx_book.specs.Notes.{greatest, lost_in};
    ghost use Rattle.pfx_book.specs.declared.note.Note.{Note};

    ghost Value = { ℕ × List (Note J) };

    ghost view = { λ p. p.token };

    ghost invariant = { λ p. (p.number ≡ p.token.0) × (0 < p.token.0) × (p.top ≡ greatest p.token.1) × (p.lost ≡ lost_in p.token.1) };
}

impl<J: Job, B: Named<J>> Pass<J, B> {
    /// Its number, from 1 on, in the order in which a book gives passes out.
    pub fn number(&self) -> u8
        ensures { result ≡ self.now.0 }
    {
        self.number
    }

    /// The greatest number that an accepted call of it was answered, 0 before.
    pub fn greatest(&self) -> u64
        ensures { result ≡ greatest self.now.1 }
    {
        self.top
    }

    /// What the client was first told of it that the flusher had given up, if it was.
    pub fn lost(&self) -> Option<Loss>
        ensures { result ≡ lost_in self.now.1 }
    {
        self.lost
    }
}

/// The session of a store's clients.
#[derive(Drop)]
pub struct Book<J: Job, B: Named<J>> {
    pub(crate) alloc: Global,
    pub(crate) keeper: Keeper<Note<J>, B>,
    pub(crate) passes: u8,
    pub(crate) began: u64,
    pub(crate) state: State<J>,
    pub(crate) history: Vec<Line<J>>,
    pub(crate) pending: VecDeque<Record<J>>,
    pub(crate) slot: Option<OpenSlot<J>>,
    pub(crate) opener: u8,
    pub(crate) taken: u64,
    pub(crate) width: u32,
    pub(crate) marked: u64,
    pub(crate) clock: u64,
    pub(crate) failure: Option<Cause>,
    pub(crate) shut: bool,
}

impl<J: Job, B: Named<J>> Model for Book<J, B> {
    ghost use Rattle.std.specs.Prelude.{◌≡◌, ◌≤◌, map, [], length, vec_capacity};
    ghost use Rattle.std.specs.VecDeque.{deque_items, deque_capacity};
    ghost use Rattle.pfx_record.specs.Records.{plain};
    ghost use Rattle.pfx_book.specs.Lines.{told};
    ghost use Rattle.pfx_book.specs.Kept.{Counts, IsKept, OpenFits};
    ghost use Rattle.pfx_book.specs.Notes.{commands_of};
    ghost use Rattle.pfx_book.specs.Register.{Register, register};

    ghost Value = { Register J };

    ghost view = { λ b. register J.kind (told J.kind B.start [] b.history.items) b.state b.slot b.taken b.marked b.clock b.passes b.opener b.failure b.shut };

    ghost invariant = { λ b. IsKept J.kind B.start (told J.kind B.start [] b.history.items) b.keeper b.passes b.state (map plain (deque_items b.pending))
        b.taken b.marked b.clock b.failure
        × OpenFits J.kind b.state B.start.number b.slot b.marked (length b.history.items) (vec_capacity b.history)
        × Counts J.kind B.start (commands_of (told J.kind B.start [] b.history.items)) b.began b.taken b.width × (64 ≤ deque_capacity b.pending) };
}

impl<J: Job, B: Named<J>> Book<J, B> {
    /// A book that begins at this state, which counts as durable since this clock of the disk, and the flusher's share, which
    /// notes that mark. `AllocError` if an allocation fails.
    pub fn new(
        alloc: Global,
        tokens: UnnamedKeeper<Note<J>>,
        state: &State<J>,
        clock: u64,
    ) -> Result<(Book<J, B>, Share<J, B>), AllocError>
        requires table { tokens.table.shared.table_id ≡ B.table }
        requires start { state.now ≡ B.start }
        ensures book { IfOk result (λ r. r.0 ≡ new_register B.start clock) }
        ensures share { IfOk result (λ r. r.1 ≡ Marked B.start.number clock ∷ []) }
        ensures rested { IfOk result (λ r. IsRested B.start.number r.1) }
    {
        let state = state.copy_of(alloc)?;
        let pending = VecDeque::with_capacity(alloc, 64)?;
        let mut keeper = tokens.named::<B>();
        let mut token = keeper.issue();
        let began = state.number();
        let width = state.columns().workers();
        keeper.note(&mut token, &Note::Marked(began, clock));
        let book = Book {
            alloc,
            keeper,
            passes: 0,
            began,
            state,
            history: Vec::new(alloc),
            pending,
            slot: None,
            opener: 0,
            taken: 0,
            width,
            marked: 0,
            clock,
            failure: None,
            shut: false,
        };
        Ok((book, Share { token }))
    }

    /// Whether a slot is open.
    pub fn is_open(&self) -> bool
        ensures { IsTrue result ↔ (self.now.session.opened ≢ None) }
    {
        self.slot.is_some()
    }

    /// Whether a command more may be accepted and not yet marked.
    pub fn has_room(&self) -> bool
        ensures { IsTrue result ↔ HasRoom self.now.session }
    {
        self.state.number() - self.began < self.marked + UNMARKED
    }

    /// Whether no more is accepted.
    pub fn is_closed(&self) -> bool
        ensures { result ≡ self.now.shut }
    {
        self.shut
    }

    /// Why the flusher gave up, if it did.
    pub fn failure(&self) -> Option<Cause>
        ensures { result ≡ self.now.failure }
    {
        self.failure
    }

    /// The number of the last mark: all commands up to it are durable.
    pub fn marked(&self) -> u64
        ensures { result ≡ B.start.number + self.now.session.marked }
    {
        let _number = self.state.number();
        self.began + self.marked
    }

    /// Whether all that was accepted is marked.
    pub fn is_settled(&self) -> bool
        ensures { IsTrue result ↔ (self.now.session.marked ≡ length self.now.session.accepted) }
    {
        self.state.number() - self.began == self.marked
    }

    /// The board of the state after all that was accepted. `AllocError` if an allocation fails.
    pub fn board(&self) -> Result<Board, AllocError>
        ensures number { IfOk result (λ b. b.number ≡ self.now.session.state.number) }
        ensures slot { IfOk result (λ b. b.slot ≡ whole self.now.session.state) }
        ensures from { IfOk result (λ b. b.from ≡ self.now.session.state.from) }
        ensures lines { IfOk result (λ b. b.lines.items ≡ all_lines J.kind self.now.session.state) }
    {
        self.state.board(self.alloc)
    }

    /// A copy of the state after all that was accepted. `AllocError` if an allocation fails.
    pub fn state(&self) -> Result<State<J>, AllocError>
        ensures { IfOk result (λ copy. copy ≡ self.now.session.state) }
    {
        self.state.copy_of(self.alloc)
    }

    /// How many passes are out.
    pub fn passes(&self) -> u8
        ensures { result ≡ self.now.passes }
    {
        self.passes
    }

    /// A new pass, with no notes. `None` if 64 are out.
    pub fn pass(&mut self) -> Option<Pass<J, B>>
        ensures some { IfSome result (λ p. (p ≡ (self.old.passes + 1, [])) × (self.new ≡ record self.old { passes = self.old.passes + 1 })) }
        ensures none { IfNone result ((self.old.passes ≡ 64) × (self.new ≡ self.old)) }
    {
        if self.passes >= 64 {
            return None;
        }
        self.passes += 1;
        let token = self.keeper.issue();
        Some(Pass {
            number: self.passes,
            top: 0,
            lost: None,
            token,
        })
    }

    /// Accepts a Submit, a Withdraw or a Reweigh, if the book takes commands and it may be asked, and carries it out; or refuses it,
    /// with an entry for the pass in both cases: `SessionFull` if 1,048,576 commands were accepted, else as the machine refuses it.
    /// `NoMemory` has no entry.
    pub fn ask(
        &mut self,
        pass: &mut Pass<J, B>,
        command: Command<J>,
    ) -> Result<(u64, Reply), BookFault>
        requires quick { IsQuick command }
        requires ready { TakesCommands self.old }
        ensures may { IfOk result (λ _. MayAsk J.kind self.old.session command) }
        ensures accepted { IfOk result (IsAccepted command (asked J.kind command self.old.session) self.old self.new pass.old pass.new) }
        ensures err { IfErr result (Refuses J.kind command self.old self.new pass.old pass.new) }
    {
        let Book {
            alloc,
            keeper,
            began,
            state,
            history,
            pending,
            ..
        } = self;
        if !make_room(history, 1) {
            return Err(BookFault::NoMemory);
        }
        let Some(line) = line_of(*alloc, pass.number, &command) else {
            return Err(BookFault::NoMemory);
        };
        let is_full = state.number() - *began >= 1 << 20;
        match try_command(*alloc, state, command, is_full) {
            Tried::NoMemory => return Err(BookFault::NoMemory),
            Tried::Refused(copy, fault) => {
                history.push_reserved(refused_line(line, &copy, pass.number));
                keeper.note(&mut pass.token, &Note::Refused(state.number(), copy, fault));
                return Err(fault);
            }
            Tried::Done(copy, reply, entry) => {
                let number = state.number();
                let note = Note::Accepted(number, copy, copy_reply(&reply));
                keeper.note(&mut pass.token, &note);
                history.push_reserved(line);
                pending.push_back_reserved(entry);
                pass.top = number;
                return Ok((number, reply));
            }
        }
    }
}
