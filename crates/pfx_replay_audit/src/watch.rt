// Who is told of the records of a history as they are found to agree.
ghost use Rattle.std.specs.Prelude.{◌≡◌, List, map, IsOk, OnOk};
ghost use Rattle.pfx_machine.specs.Plain.{Plain};
ghost use Rattle.pfx_record.specs.Records.{Recorded, plain};

use pfx_jobs::job::Job;
use pfx_machine::State;
use pfx_record::Record;
use std::alloc::{AllocError, Global};

/// Is told of the records of a history that agree: block by block, and at last the store's file, each part once, with the state that it
/// stands behind, in their order.
pub trait Watch<J: Job> {
    /// What it may be after it was told of records behind a state, by what it was.
    ghost sees: { Self → Plain J → List (Recorded J) → Self → Type 0 };

    /// Is told of records that agree behind a state. An error comes only if an allocation failed; then the audit ends.
    fn see(
        &mut self,
        alloc: Global,
        state: &State<J>,
        records: &[Record<J>],
    ) -> Result<(), AllocError>
        ensures { OnOk result (sees self.old state.now (map plain records.now) self.new) };
}

/// Nobody is told. Its `see` never fails.
#[derive(Drop)]
pub struct Unwatched;

impl<J: Job> Watch<J> for Unwatched {
    ghost sees = { λ old s records new. new ≡ old };

    fn see(
        &mut self,
        _alloc: Global,
        _state: &State<J>,
        _records: &[Record<J>],
    ) -> Result<(), AllocError>
        ensures told { OnOk result (self.new ≡ self.old) }
        ensures ok { IsOk result }
    {
        Ok(())
    }
}
