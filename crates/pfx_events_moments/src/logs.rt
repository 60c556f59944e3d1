//! What two lists that tell one run say of the disk.
ghost use Rattle.std.specs.Prelude.{List, ℕ};
ghost use Rattle.pfx_disk_chronicle.specs.Chart.{acts_of};
ghost use Rattle.pfx_disk_chronicle.specs.declared.made.Made.{Made};
ghost use Rattle.pfx_disk.specs.Stop.{Left};
ghost use Rattle.pfx_machine.specs.Plain.{Plain};
ghost use Rattle.pfx_events_moments.specs.Logs.{Entry, IsLog, world_of};
ghost use Rattle.pfx_events_moments.specs.Moments.{Holds};
ghost use Rattle.pfx_store.specs.Files.{FileOf};
ghost use Rattle.pfx_events_world.specs.Claims.{IsReceipted};

use pfx_events::laws;
use pfx_jobs::job::Job;

/// Whatever a stop may leave after the calls is recovered to the outcome of first accepted commands, every receipted one among them: also
/// while calls are under way.
pub fn logs_hold<J: Job>()
    ensures { (start : Plain J) (image : List ℕ) (place : FileOf J) (entries : List (Entry J)) (made : List Made)
        → IsLog J.kind start image place entries made → (n : ℕ) → IsReceipted n (world_of J.kind start image place entries).book.receipts
        → (left : List ℕ) → Left image (acts_of made) left
        → Holds J.kind start (world_of J.kind start image place entries).book.accepted n left }
{
    laws::runs_go_on::<J>();
    laws::runs_begin_at_files::<J>();
}
