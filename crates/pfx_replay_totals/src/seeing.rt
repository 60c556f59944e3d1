// The totals of records, one after the other.
ghost use Rattle.std.specs.Prelude.{◌≡◌, ◌++◌, IfOk, OnErr, List, map};
ghost use Rattle.pfx_record.specs.Records.{plain};
ghost use Rattle.pfx_replay.specs.Stated.{plain_of};
ghost use Rattle.pfx_replay_totals.specs.Adding.{Holds};
ghost use Rattle.pfx_replay_totals.specs.Figures.{Figures, figures};
ghost use Rattle.pfx_replay_totals.specs.Slots.{Slot};
ghost use Rattle.pfx_replay_totals.specs.States.{ran_by};

use crate::states::slot_in;
use crate::total::Total;
use crate::totals::Totals;
use pfx_jobs::job::Job;
use pfx_record::Record;
use pfx_replay::PlainState;
use std::alloc::{AllocError, Global};

impl Totals {
    /// Takes in a record and the state before it. Where it is of a slot that closes a window, the answer is each real task's totals of that
    /// window, else none. An error comes only if an allocation failed, and then nothing changes.
    pub fn see<J: Job>(
        &mut self,
        alloc: Global,
        before: &PlainState<J>,
        entry: &Record<J>,
    ) -> Result<Vec<Total>, AllocError>
        ensures ok { (given : List Figures) → (seen : List Slot) → Holds self.old given seen
            → IfOk result (λ rows. Holds self.new (given ++ map figures rows.items)
            (seen ++ ran_by J.kind (plain_of before.now) (plain entry.now))) }
        ensures choice { self.new.choice ≡ self.old.choice }
        ensures err { OnErr result (self.new ≡ self.old) }
    {
        match entry {
            Record::Slot { row } => {
                let slot = slot_in(alloc, before, row)?;
                self.add(alloc, &slot)
            }
            Record::Submit { .. } => Ok(Vec::new(alloc)),
            Record::Withdraw { .. } => Ok(Vec::new(alloc)),
            Record::Reweigh { .. } => Ok(Vec::new(alloc)),
        }
    }
}
