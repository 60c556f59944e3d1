//! Receipts, failures, and the end of a session.
ghost use Rattle.std.specs.Prelude.{◌≡◌, ◌≢◌, ◌≤◌, ◌+◌, [], map, length, take, IfOk, OnOk, OnErr, Some, None, true, false, IsTrue};
ghost use Rattle.pfx_record_redo.specs.Recording.{records_of};
ghost use Rattle.pfx_machine.specs.Outcome.{outcome};
ghost use Rattle.pfx_machine.specs.Plain.{IsState};
ghost use Rattle.pfx_machine.specs.Sessions.{IsAcceptable};
ghost use Rattle.pfx_book.specs.Calls.{IsReceipted, once_lost};
ghost use Rattle.pfx_book.specs.Merging.{of, numbers_from, IsMerge};
ghost use Rattle.pfx_book.specs.Kept.{HasFailed};
ghost use Rattle.pfx_book.specs.Notes.{alone, lost_in, answers_of, commands_of, records_in, Legal, Noted, AllBacked};
ghost use Rattle.pfx_book.specs.declared.note.Loss.{Loss};
ghost use Rattle.pfx_book.specs.declared.note.Note.TheVariants.{Marked};

use crate::book::{Book, Pass, Share};
use crate::line::Line;
use crate::name::Named;
use crate::note::{Loss, Note};
use crate::room::make_room;
use pfx_jobs::job::Job;
use std::alloc::AllocError;

/// An acknowledgement: the command of this number, and those before it, are durable since this clock of the disk.
#[derive(Clone, Copy, Debug, PartialEq, Eq)]
pub struct PlainReceipt {
    /// The number.
    pub number: u64,
    /// The clock of the mark that covers it.
    pub clock: u64,
}

impl<J: Job, B: Named<J>> Book<J, B> {
    /// A receipt for a number up to the mark, with the mark's clock and an entry for the pass. `AllocError` if an allocation fails;
    /// then nothing changes.
    pub fn receipt(
        &mut self,
        pass: &mut Pass<J, B>,
        number: u64,
    ) -> Result<PlainReceipt, AllocError>
        requires { number ≤ B.start.number + self.old.session.marked }
        ensures receipt { IfOk result (λ r. (r.number ≡ number) × (r.clock ≡ self.old.session.marked_at)) }
        ensures receipted { OnOk result (IsReceipted number self.old self.new pass.old pass.new) }
        ensures kept { OnErr result ((self.new ≡ self.old) × (pass.new ≡ pass.old)) }
    {
        let Book {
            keeper,
            history,
            clock,
            ..
        } = self;
        if !make_room(history, 2) {
            return Err(AllocError);
        }
        keeper.note(&mut pass.token, &Note::Receipt(number, *clock));
        history.push_reserved(Line::Receipt {
            pass: pass.number,
            number,
            clock: *clock,
        });
        Ok(PlainReceipt {
            number,
            clock: *clock,
        })
    }

    /// Notes for a client that the flusher has given up, why, and the number of the last mark, unless it was told before. It takes no
    /// memory.
    pub fn note_failure(&mut self, pass: &mut Pass<J, B>)
        requires { self.old.failure ≢ None }
        ensures same { self.new ≡ self.old }
        ensures noted { (cause : _) → self.old.failure ≡ Some cause → pass.new ≡ (
          pass.old.0,
          once_lost (lost_in pass.old.1)
              (record { marked = B.start.number + self.old.session.marked; cause = cause }) pass.old.1,
        ) }
        ensures before { (loss : Loss) → lost_in pass.old.1 ≡ Some loss → loss.marked ≡ B.start.number + self.old.session.marked }
    {
        let marked = self.marked();
        if pass.lost.is_some() {
            self.keeper.look(&mut pass.token);
            return;
        }
        if let Some(cause) = self.failure {
            let loss = Loss { marked, cause };
            self.keeper.note(&mut pass.token, &Note::Lost(loss));
            pass.lost = Some(loss);
        }
    }

    /// What holds of each session, whatever was called: its entries are right at their places, and its accepted commands are
    /// acceptable and lead from the start to the state; what is marked was taken, and what was taken was accepted. It does nothing.
    pub fn legal(&self)
        ensures start { IsState B.start }
        ensures legal { Legal J.kind B.start [] self.now.history }
        ensures commands { self.now.session.accepted ≡ commands_of self.now.history }
        ensures accepted { IsAcceptable J.kind B.start self.now.session.accepted }
        ensures state { self.now.session.state ≡ outcome J.kind B.start self.now.session.accepted }
        ensures marked { self.now.session.marked ≤ self.now.session.taken }
        ensures taken { self.now.session.taken ≤ length self.now.session.accepted }
    {
        let _began = self.began;
    }

    /// Looks at the flusher's share, which changes nothing: its records are those of the taken commands, each receipt of the
    /// session rests on one of the share's marks, no lower and with its clock, and so do the last mark, what was taken, and
    /// the failure on its notes.
    pub fn settled(&mut self, share: &mut Share<J, B>)
        ensures same { (self.new ≡ self.old) × (share.new ≡ share.old) }
        ensures records { records_in share.old ≡ records_of J.kind B.start (take self.old.session.taken self.old.session.accepted) }
        ensures backed { AllBacked share.old self.old.history }
        ensures mark { Noted (Marked (B.start.number + self.old.session.marked) self.old.session.marked_at) share.old }
        ensures taken { self.old.session.taken ≡ length (records_in share.old) }
        ensures failed { HasFailed self.old.failure share.old }
    {
        self.keeper.look(&mut share.token);
    }

    /// From now on nothing is accepted.
    pub fn shut(&mut self)
        ensures { self.new ≡ record self.old { shut = true } }
    {
        self.shut = true;
    }

    /// Whether this is the pass of that number. Then its entries are those of that number.
    fn look(&mut self, pass: &mut Pass<J, B>, number: u64) -> bool
        ensures same { (self.new ≡ self.old) × (pass.new ≡ pass.old) }
        ensures its { IsTrue result → answers_of pass.old.1 ≡ of number self.old.history }
        ensures other { result ≡ false → pass.old.0 ≢ number }
    {
        if u64::from(pass.number) != number {
            return false;
        }
        self.keeper.look(&mut pass.token);
        true
    }

    /// Whether this is the only pass that is out. Then the session is its own notes.
    pub fn is_sole(&mut self, pass: &mut Pass<J, B>) -> bool
        ensures same { (self.new ≡ self.old) × (pass.new ≡ pass.old) }
        ensures sole { IsTrue result → self.old.history ≡ alone pass.old.1 }
        ensures yes { self.old.passes ≡ 1 → pass.old.0 ≡ 1 → result ≡ true }
    {
        if self.passes != 1 {
            return false;
        }
        self.look(pass, 1)
    }

    /// Whether these are all passes, in the order in which they were given out. Then the session is the merge of their entries.
    pub fn gathered(&mut self, passes: &mut Vec<Pass<J, B>>) -> bool
        ensures same { (self.new ≡ self.old) × (passes.new.items ≡ passes.old.items) }
        ensures merge { IsTrue result → IsMerge (map (λ p. answers_of p.1) passes.old.items) self.old.history }
        ensures all { map (λ p. p.0) passes.old.items ≡ numbers_from 1 self.old.passes → result ≡ true }
    {
        let mut i = 0;
        while i < passes.len() {
            let same = self.look(&mut passes[i], i as u64 + 1);
            if !same {
                return false;
            }
            i += 1;
        }
        if self.passes as usize != passes.len() {
            return false;
        }
        true
    }
}
