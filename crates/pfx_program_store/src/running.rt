//! Running a script on a store.

ghost use Rattle.std.specs.Prelude.{◌≡◌, max, List, None, IfSome};
ghost use Rattle.pfx_disk.specs.Disk.{IsHonest};
ghost use Rattle.pfx_kinds.specs.declared.any.AnyJob.{AnyJob};
ghost use Rattle.pfx_store_engine.specs.Keeping.{Anchors};
ghost use Rattle.pfx_program_store.specs.Running.{IsKeptAsPrinted};
ghost use Rattle.pfx_program.specs.Running.{Runs};
ghost use Rattle.pfx_program.specs.Script.{at_start, taken};
ghost use Rattle.pfx_program_script.specs.Records.{Fields};
ghost use Rattle.pfx_kinds.specs.AnyKind.{any_kind};

use pfx_disk::Disk;
use pfx_fault::Fault;
use pfx_kinds::any::AnyJob;
use pfx_program::{Report, Run, run_script};
use pfx_program_script::Script;
use pfx_store::BatchKeeper;
use pfx_store_engine::{DurableEngine, Engine};
use std::alloc::Global;
use std::io::{Read, Write};

/// Runs the records of a script that are left on an engine's store, as `run_script` does over any engine.
///
/// Of the slots of a record up to `run.batch` share a frame, and 16 at the most; so do up to `run.group` records that stand
/// ready together, as `run_script` says. By `run.form` lines are text or JSON.
///
/// A printed line is a receipt: whatever the run answers, each image that a stop may leave after it is recovered to the
/// outcome of a beginning of the script's accepted commands which holds every command whose line was printed. It takes an
/// honest disk, and a store that was whole and all of whose images were those of its state, as `init` and `open` leave it.
pub fn run_durable<R: Read + Drop, W: Write, D: Disk, K: BatchKeeper<D, AnyJob>>(
    alloc: Global,
    script: &mut Script<R>,
    run: Run,
    output: &mut W,
    engine: &mut DurableEngine<D, AnyJob, K>,
) -> Result<Report, Fault>
    ensures runs { Runs ⟦<DurableEngine<D, AnyJob, K> as Engine<AnyJob>>⟧.promise run.form run.at_refusal (max run.batch run.group) script.old script.new.failed engine.old engine.new
        (W.contents output.old) (W.contents output.new) result }
    ensures printed { K.failed engine.old.keeper ≡ None → IsHonest (D.view (K.kept engine.old.keeper).file.disk)
        → Anchors any_kind (D.view (K.kept engine.old.keeper).file.disk) (K.kept engine.old.keeper).state
        → (records : List Fields) × IfSome script.old.left (λ all. taken run.at_refusal (at_start run.form (K.kept engine.old.keeper).state) all ≡ records)
        × IsKeptAsPrinted run.form (K.kept engine.old.keeper).state script.old records (W.contents output.old) (W.contents output.new) (D.view (K.kept engine.new.keeper).file.disk) }
{
    run_script(alloc, script, run, output, engine)
}
