//! Running a script on a store whose disk's calls are noted, so that what is kept is said of them, and not of the disk alone.
//!
//! Why it is so:
//! - **A run on one thread notes its disk's calls as a front does** (`run_noted`), since `run_durable` says nothing of a file, which is
//!   never honest. It says it of the calls alone, under the name's premise, and not of a disk of its own; of an honest disk it says both.
//!   The list exists in proofs alone, so a call of the disk costs a word's exchange more, and no memory.

ghost use Rattle.std.specs.Prelude.{◌≡◌, false};
ghost use Rattle.pfx_disk.specs.Disk.{IsHonest, Only};
ghost use Rattle.pfx_fault.specs.declared.fields.Cause.TheVariants.{Device};
ghost use Rattle.pfx_kinds.specs.AnyKind.{any_kind};
ghost use Rattle.pfx_store.specs.Noting.{IsHeldBy};
ghost use Rattle.pfx_program_store.specs.Noting.{IsNotedRun};

use crate::running::run_durable;
use pfx_disk::Disk;
use pfx_disk_chronicle::chronicle::Logged;
use pfx_disk_chronicle::list::{Moment, UnnamedCalls};
use pfx_disk_chronicle::name::Charted;
use pfx_fault::Fault;
use pfx_kinds::any::AnyJob;
use pfx_program::{Report, Run};
use pfx_program_script::Script;
use pfx_store::Store;
use pfx_store_engine::DurableEngine;
use std::alloc::Global;
use std::io::{Read, Write};

/// What a run leaves whose disk's calls were noted.
#[derive(Drop)]
pub struct NotedRun<D: Disk, B: Charted> {
    /// The store, on its own disk.
    pub store: Store<D, AnyJob>,
    /// The calls that the run made on the disk.
    pub moment: Moment<B>,
    /// What the run answered.
    pub result: Result<Report, Fault>,
}

/// Runs the records of a script that are left on a store, as `run_durable` does, and notes the calls that are made on the disk in a list
/// of this name. `B` says what the disk held when the store was opened, and what the premise of that is.
///
/// A printed line is a receipt: whatever the run answers, if the disk held these bytes, each image that a stop may leave behind
/// the calls that were made on it is recovered to the outcome of a beginning of the script's accepted commands which holds every command
/// whose line was printed. An honest disk is shown to have held them, and a stop leaves no other image on it; of a file it is the premise.
pub fn run_noted<R: Read + Drop, W: Write, D: Disk, B: Charted>(
    alloc: Global,
    list: UnnamedCalls,
    store: Store<D, AnyJob>,
    script: &mut Script<R>,
    run: Run,
    output: &mut W,
) -> NotedRun<D, B>
    requires list { list.seen.book ≡ B.calls }
    requires whole { store.file.broken ≡ false }
    requires moment { ((D.view store.file.disk).clock ≡ B.clock) × ((D.view store.file.disk).failures ≡ B.failures) }
    requires honest { IsHonest (D.view store.file.disk)
        → B.held × ((D.view store.file.disk).contents ≡ B.image) × Only B.image (D.view store.file.disk) }
    requires held { B.held → IsHeldBy any_kind store B.image }
    ensures ran { IsNotedRun (λ cause. cause ≡ Device) run.form run.at_refusal store.state script.old script.new.failed (W.contents output.old) (W.contents output.new)
        B.held B.image result.moment (D.view result.store.file.disk) result.store.state result.result }
{
    let noted = store.noted::<B>(list);
    let _broken = noted.is_broken();
    match DurableEngine::new(alloc, noted) {
        Err((_, back)) => NotedRun {
            moment: back.disk().moment(),
            store: back.told(),
            result: Err(Fault::NoMemory),
        },
        Ok(mut engine) => {
            let result = run_durable(alloc, script, run, output, &mut engine);
            let after = engine.into_keeper();
            NotedRun {
                moment: after.disk().moment(),
                store: after.told(),
                result,
            }
        }
    }
}
