// Turning a store to its other segment, and the checkpoint in progress.
//
// Why it is so:
// - **Turning came with the store.** `Store::append` ends the checkpoint in progress and turns if a frame doesn't fit, so that no append
//   is refused for lack of room, and a store runs for ever in a file of fixed length. Whoever runs commands takes a step of the
//   checkpoint between appends; an append that needs the room takes all that are left.
// - **A store's turn and its steps are public beside `append`**, which turns by itself: for callers that know of a quiet moment.
ghost use Rattle.std.specs.Prelude.{◌≡◌, true, Ok, OnOk};
ghost use Rattle.pfx_store_format.specs.Format.{format};
ghost use Rattle.pfx_store_file.specs.Acts.{tended_file, turned_file};
ghost use Rattle.pfx_store_file.specs.Tending.{next_step, calls_of, turn_calls};
ghost use Rattle.pfx_store.specs.Files.{tending, turning};
ghost use Rattle.pfx_store.specs.Stores.{stored};
ghost use Rattle.pfx_store.specs.Working.{IsCall, Makes, StandsOn, Tends, Turns};

use crate::appending::{encode, start_behind};
use crate::format::FileHeader;
use crate::journal::Journal;
use pfx_disk::Disk;
use pfx_jobs::job::Job;
use pfx_machine::State;
use pfx_store_file::{StoreFault, Tended};

impl<D: Disk, J: Job> Journal<D, J> {
    // Takes one step of the checkpoint in progress, as a store does.
    pub(crate) fn tend(&mut self) -> Result<Tended, StoreFault>
        ensures call { IsCall D.view (stored self.old) (stored self.new) result (calls_of (next_step self.old.file.places)) }
        ensures tends { Tends (stored self.old) (stored self.new) result }

        // The state stays, and the store goes on. At every moment of the call, whatever it answers, what survived before survives.
        ensures stands { StandsOn D.view J.kind (stored self.old) (stored self.new) result }

        // These calls of the disk, and the file after them.
        ensures acts { Makes D.view (stored self.old) (stored self.new) result J.kind (λ f. tending J.kind f)
            (λ f. tended_file (format J.kind) f) (OnOk result) }
    {
        self.file.tend::<FileHeader, State<J>>(&self.spelled)
    }

    // Turns to the other segment, as a store does.
    pub(crate) fn turn(&mut self) -> Result<bool, StoreFault>
        ensures call { IsCall D.view (stored self.old) (stored self.new) result (turn_calls self.old.file.places) }
        ensures turns { Turns (stored self.old) (stored self.new) result }

        // The state stays, and the store goes on. At every moment of the call, whatever it answers, what survived before survives.
        ensures stands { StandsOn D.view J.kind (stored self.old) (stored self.new) result }

        // These calls of the disk if it turns, and the file after them.
        ensures acts { Makes D.view (stored self.old) (stored self.new) result J.kind (λ f. turning J.kind f self.old.state)
            (λ f. turned_file (format J.kind) f self.old.state) (λ P. result ≡ Ok true → P) }
    {
        if self.file.broken {
            return Err(StoreFault::Broken);
        }
        if !self.file.can_turn::<FileHeader, State<J>>() {
            return Ok(false);
        }
        encode(&self.state, &mut self.spelled);
        let start = start_behind(self.state.number());
        self.file.turn::<FileHeader, State<J>>(&start)?;
        Ok(true)
    }
}
