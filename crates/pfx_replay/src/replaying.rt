//! A replay of a store's file.
//!
//! Why it is so:
//! - **A replay takes the disk and gives it back**, as `open` does: it opens the file first, so what is refused is refused by the same
//!   test, and then reads all bytes once and works in memory.
ghost use Rattle.std.specs.Prelude.{◌≡◌, ◌≤◌, ℕ, List, length, Option, Err, Ok, IfOk, IfErr, IsErrOf, MatchResult};
ghost use Rattle.pfx_disk.specs.Disk.{IsHonest, HasFailed};
ghost use Rattle.pfx_machine.specs.Plain.{Plain};
ghost use Rattle.pfx_store_file.specs.Checkpoints.{in_progress};
ghost use Rattle.pfx_store_file.specs.Sizes.{HasSizes, total_len};
ghost use Rattle.pfx_store_format.specs.Format.{format, layout};
ghost use Rattle.pfx_store_recover.specs.Answers.{IsRefusal};
ghost use Rattle.pfx_store_recover.specs.Looking.{IsKept, Looks, Reaches, ReadsKept};
ghost use Rattle.pfx_store_image.specs.Recovery.{found, recovered};
ghost use Rattle.pfx_store_image.specs.Store.{IsStore, Parts};
ghost use Rattle.pfx_replay.specs.Reading.{IsNoRefusal};
ghost use Rattle.pfx_replay.specs.Trails.{IsReplayed, IsWayIf, history};
ghost use Rattle.pfx_replay.specs.Verdicts.{IsVerdict};

use crate::file::judge_file;
use crate::verdict::Verdict;
use pfx_disk::Disk;
use pfx_fault::Part;
use pfx_jobs::job::Job;
use pfx_kinds::units::Units;
use pfx_store::{FileFormat, FileHeader};
use pfx_store_file::Places;
use pfx_store_recover::{OpenFault, OpenedFile, Refusal, open};
use std::alloc::Global;

/// All bytes of a disk, of which there are so many.
pub fn read_image<D: Disk>(alloc: Global, disk: &mut D, len: usize) -> Result<Vec<u8>, OpenFault>
    requires inside { Reaches len (D.view disk.old) }
    ensures looks { Looks (D.view disk.old) (D.view disk.new) }
    ensures device { IsErrOf result OpenFault.Device → HasFailed (D.view disk.old) (D.view disk.new) }
    ensures refused { IfErr result IsNoRefusal }
    ensures long { IfOk result (λ image. length image.items ≡ len) }
    ensures exact { (bytes : List ℕ) → IsKept bytes (D.view disk.old) → len ≡ length bytes → IfOk result (λ image. image.items ≡ bytes) }
{
    let mut image = vec![in alloc; 0; len]?;
    disk.read(0, &mut image)?;
    Ok(image)
}

// The verdict on the file of a disk that was opened, with this header and these places.
fn verdict_on<J: Job + Units, D: Disk>(
    alloc: Global,
    disk: &mut D,
    header: &FileHeader,
    places: &Places,
) -> Result<Verdict, OpenFault>
    requires sized { HasSizes (layout header.now) places.now.sizes }
    requires inside { Reaches (total_len places.now.sizes) (D.view disk.old) }
    ensures { ReadsKept (D.view disk.old) (D.view disk.new) result (λ bytes. (p : Parts (Plain J)) → (t : Plain J)
        → IsStore (format J.kind) header.now p t bytes
        → p.area ≡ places.now.area → p.segment ≡ places.now.segment → p.turned ≡ in_progress places.now.checkpoint
        → MatchResult result (λ verdict. (way : Option (Plain J × List (List ℕ))) × IsWayIf (format J.kind) header.now p bytes way
        × IsVerdict J.kind J.unit (history J.kind p way) verdict) IsNoRefusal) }
{
    let image = read_image(alloc, disk, places.sizes.file_len())?;
    let turned = places.checkpoint.in_progress();
    match judge_file::<J>(alloc, header, &image, places.area, places.segment, turned)? {
        Some(verdict) => Ok(verdict),
        None => Err(OpenFault::Refused(Refusal::Damaged {
            at: 0,
            what: Part::Checkpoint,
        })),
    }
}

// An answer, and the disk beside it.
fn with_disk<D: Disk>(
    answer: Result<Verdict, OpenFault>,
    disk: D,
) -> Result<(Verdict, D), (OpenFault, D)>
    ensures answer { MatchResult result (λ r. answer ≡ Ok r.0) (λ e. answer ≡ Err e.0) }
    ensures disk { MatchResult result (λ r. r.1 ≡ disk) (λ e. e.1 ≡ disk) }
{
    match answer {
        Ok(verdict) => Ok((verdict, disk)),
        Err(fault) => Err((fault, disk)),
    }
}

/// Reads a store's file and runs its commands again, from the lesser checkpoint on if the file has the records from
/// there to the other, and from the one in use on if it hasn't. The disk comes back.
///
/// `Agrees` says that each recorded row is PF's, each recorded state of a job is the one after its quantum, each recorded answer is of
/// the next unit that its task was given, and the checkpoint on the way holds the state that the commands lead to; `Differs` names the
/// first number where that isn't so, and what differs there: a row before a state, a state before a checkpoint. If the file isn't a store's, it is refused
/// as `open` refuses it. Nothing is written.
pub fn replay<J: Job + Units, D: Disk>(
    alloc: Global,
    disk: D,
) -> Result<(Verdict, D), (OpenFault, D)>
    ensures verdict { IsHonest (D.view disk) → IfOk result (λ r.
        IsReplayed J.kind J.unit (D.view disk).contents (found (format J.kind) (D.view disk).contents) r.0) }
    ensures refused { IsHonest (D.view disk) → IfErr result (λ e. IsRefusal e.0 (λ refusal.
        recovered (format J.kind) (D.view disk).contents ≡ Err refusal)) }
    ensures device { IfErr result (λ e. e.0 ≡ OpenFault.Device → HasFailed (D.view disk) (D.view e.1)) }
    ensures looks { MatchResult result (λ r. Looks (D.view disk) (D.view r.1)) (λ e. Looks (D.view disk) (D.view e.1)) }
{
    let OpenedFile { file, header, .. } = match open::<FileFormat<J>, D>(alloc, disk) {
        Ok(opened) => opened,
        Err(fault) => return Err(fault),
    };
    let places = file.places;
    let mut disk = file.into_disk();
    let verdict = verdict_on::<J, D>(alloc, &mut disk, &header, &places);
    with_disk(verdict, disk)
}
