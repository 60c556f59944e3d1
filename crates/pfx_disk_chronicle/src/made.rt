//! The calls as they are noted. No value named here is made.
use logbook::Plain;
use std::collections::LinkedList;

/// A call of a disk that was made. A write counts from before it is made on, a sync and a look once they have succeeded.
pub enum Made {
    /// A sync that succeeded.
    Synced,
    /// A byte was read, and nothing given of it.
    Looked,
    /// These bytes were written at this place, or a part of them.
    Wrote(usize, LinkedList<u8>),
}

/// Notes a sync.
pub struct NotesSync;

impl Plain<(), Made, u64> for NotesSync {
    ghost use Rattle.std.specs.Prelude.{None};
    ghost use Rattle.pfx_disk_chronicle.specs.declared.made.Made.TheVariants.{Synced};

    ghost ask = { λ x. Synced };

    ghost state = { λ x. None };
}

/// Notes a look.
pub struct NotesLook;

impl Plain<(), Made, u64> for NotesLook {
    ghost use Rattle.std.specs.Prelude.{None};
    ghost use Rattle.pfx_disk_chronicle.specs.declared.made.Made.TheVariants.{Looked};

    ghost ask = { λ x. Looked };

    ghost state = { λ x. None };
}

/// Notes a write, by its place and its bytes.
pub struct NotesWrite;

impl<'a> Plain<(usize, &'a [u8]), Made, u64> for NotesWrite {
    ghost use Rattle.std.specs.Prelude.{None};
    ghost use Rattle.pfx_disk_chronicle.specs.declared.made.Made.TheVariants.{Wrote};

    ghost ask = { λ x. Wrote x.0 x.1.now };

    ghost state = { λ x. None };
}
