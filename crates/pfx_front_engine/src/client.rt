//! The only client of a front.
ghost use Rattle.std.specs.Prelude.{◌≡◌, [], IfOk, OnOk};
ghost use Rattle.pfx_book.specs.Notes.{alone};

use pfx_book::book::Pass;
use pfx_front::name::Since;
use pfx_jobs::job::Job;
use std::marker::Model;

/// A front's only client: its pass, and how far it has come. Contracts see it as the pass's notes.
#[derive(Drop)]
pub struct Client<J: Job, B: Since<J>> {
    pub(crate) pass: Pass<J, B>,
    // The numbers of the last command that was accepted, and of the last one that has its receipt, or was durable at the start.
    pub(crate) number: u64,
    pub(crate) kept: u64,
}

impl<J: Job, B: Since<J>> Model for Client<J, B> {
    ghost use Rattle.std.specs.Prelude.{List};
    ghost use Rattle.pfx_book.specs.declared.note.Note.{Note};
    ghost use Rattle.pfx_front_engine.specs.Keeping.{IsKept};

    ghost Value = { List (Note J) };

    ghost view = { λ e. e.pass.1 };

    ghost invariant = { λ e. IsKept J.kind B.start e.pass.1 e.number e.kept };
}

impl<J: Job, B: Since<J>> Client<J, B> {
    /// The client with this pass, which has no notes yet; `number` is that of the store that the front began with.
    pub fn new(pass: Pass<J, B>, number: u64) -> Client<J, B>
        requires fresh { pass.1 ≡ [] }
        requires number { number ≡ B.start.number }
        ensures { result ≡ [] }
    {
        Client {
            pass,
            number,
            kept: number,
        }
    }

    /// The pass, to end the front with.
    pub fn into_pass(self) -> Pass<J, B>
        ensures { result.1 ≡ self }
    {
        self.pass
    }
}
