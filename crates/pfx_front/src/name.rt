//! Whose front it is, and what it began with.
//!
//! Why it is so:
//! - **A front's name carries the disk's clock and failures at the start** beside the state: `close` says since which moment each image
//!   has a prefix of the commands, and that a front which answered that the device had failed did see it fail.
ghost use Rattle.std.specs.Prelude.{◌≡◌};

use pfx_book::name::Named;
use pfx_book::note::Note;
use pfx_disk_chronicle::list;
use pfx_disk_chronicle::name::Charted;
use pfx_front_board::name::Begun;
use pfx_jobs::job::Job;
use pfx_record::Batch;
use pfx_store::Mark;
use pfx_token::{past, tokens};
use std::alloc::{AllocError, Global};
use std::marker::Brand;

/// Names a front, with its book, its board, the calls that are made on its disk from its beginning on, and its marks.
pub trait Since<J>: Named<J> + Begun<J> + Charted {
    ghost use Rattle.logbook.specs.Pages.{Book};

    /// The list of the marks.
    ghost marks: { Book };
}

impl<J> Since<J> for Brand {
    ghost marks = { record { number = 0; log_name = 0; cells_name = 0 } };
}

/// The lists of a front, which have no name yet: what happened to its passes, its durable batches, the calls that are made
/// on its disk, and its marks.
#[derive(Drop)]
pub struct Names<J: Job> {
    pub(crate) tokens: tokens::UnnamedKeeper<Note<J>>,
    pub(crate) list: past::UnnamedList<Batch<J>>,
    pub(crate) calls: list::UnnamedCalls,
    pub(crate) marks: past::UnnamedList<Mark>,
}

/// The lists of a front but that of its disk's calls.
#[derive(Drop)]
pub struct Lists<J: Job> {
    pub(crate) tokens: tokens::UnnamedKeeper<Note<J>>,
    pub(crate) list: past::UnnamedList<Batch<J>>,
    pub(crate) marks: past::UnnamedList<Mark>,
}

impl<J: Job> Names<J> {
    /// Lists of their own. `AllocError` if an allocation fails.
    pub fn new(alloc: Global) -> Result<Names<J>, AllocError> {
        let tokens = tokens::UnnamedKeeper::new(alloc)?;
        Ok(Names {
            tokens,
            list: past::UnnamedList::new(),
            calls: list::UnnamedCalls::new(),
            marks: past::UnnamedList::new(),
        })
    }

    /// The list of the disk's calls by itself: for a disk that is to tell them before a front begins at it.
    pub fn split(self) -> (Lists<J>, list::UnnamedCalls)
        ensures lists { (result.0.tokens ≡ self.tokens) × (result.0.list ≡ self.list) × (result.0.marks ≡ self.marks) }
        ensures calls { result.1 ≡ self.calls }
    {
        let Names {
            tokens,
            list,
            calls,
            marks,
        } = self;
        (
            Lists {
                tokens,
                list,
                marks,
            },
            calls,
        )
    }
}
