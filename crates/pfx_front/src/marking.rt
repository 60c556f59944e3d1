//! The marks that the flusher gave, as a list that is kept in proofs alone.
//!
//! Why it is so:
//! - **What a running front says of later moments is said of its marks, not of a world of events.** The design wanted two lists that tell
//!   one run of the world, the disk's calls and what changed the book, with that run as the lock's invariant. What a client needs of it
//!   is less: that from a receipt on whatever a stop may leave has the receipt's command, and that what is published is what was asked
//!   for. Both follow from what the flusher keeps of its store anyway (`InStep`) and from a look into the book at each mark. So there is
//!   one list more, of the marks, kept in proofs alone; a receipt carries a beginning of it, and `Durable::holds` compares two. Nothing
//!   of the book's is proved anew for it, and no call costs more.
ghost use Rattle.std.specs.Prelude.{◌≡◌, ◌++◌, ◌∷◌, [], IsTrue};

use crate::name::Since;
use pfx_store::Mark;
use pfx_token::past::{End, Naming, Past, UnnamedList};
use std::marker::{Model, PhantomData};

/// Names the list of a front's marks.
pub struct Marks<J, B> {
    job: PhantomData<J>,
    name: PhantomData<B>,
}

impl<J, B: Since<J>> Naming for Marks<J, B> {
    ghost book = { B.marks };
}

/// A beginning of the list.
pub type Marked<J, B> = Past<Mark, Marks<J, B>>;

/// Where the list grows, and all of it. Contracts see it as that.
#[derive(Drop)]
pub struct Marking<J, B: Since<J>>
where
    Marks<J, B>: Naming,
{
    end: End<Mark, Marks<J, B>>,
    past: Marked<J, B>,
}

impl<J, B: Since<J>> Model for Marking<J, B>
where
    Marks<J, B>: Naming,
{
    ghost use Rattle.std.specs.Prelude.{List};
    ghost use Rattle.pfx_store.specs.declared.appending.Mark.{Mark};

    ghost Value = { List Mark };

    ghost view = { λ m. m.past };
}

impl<J, B: Since<J>> Marking<J, B> {
    /// With no mark.
    pub(crate) fn new(list: UnnamedList<Mark>) -> Marking<J, B>
        requires { list.seen.book ≡ B.marks }
        ensures { result ≡ [] }
    {
        let (end, past) = list.named::<Marks<J, B>>();
        Marking { end, past }
    }

    /// The marks.
    pub(crate) fn marked(&self) -> Marked<J, B>
        ensures { result ≡ self.now }
    {
        self.past.again()
    }

    /// Adds a mark. `false` if the list is longer than its one end knows, or has 2^62 marks.
    pub(crate) fn add(&mut self, mark: &Mark) -> bool
        ensures { IsTrue result → self.new ≡ self.old ++ mark.now ∷ [] }
    {
        let Marking { end, past } = self;
        past.count() < 1 << 62 && end.extend(past, mark)
    }
}
