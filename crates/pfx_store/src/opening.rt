// Opening a store.
ghost use Rattle.std.specs.Prelude.{◌≡◌, ◌≤◌, ◌+◌, ℕ, List, if◌then◌else◌, false, Ok, Err, IfOk, IfErr, MatchResult};
ghost use Rattle.pfx_disk.specs.Disk.{IsHonest, HasFailed};
ghost use Rattle.pfx_store_format.specs.Format.{format, IsOf};
ghost use Rattle.pfx_store_header.specs.Headers.{Header};
ghost use Rattle.pfx_machine.specs.Plain.{Plain};
ghost use Rattle.pfx_store_recover.specs.Answers.{IsRefusal};
ghost use Rattle.pfx_store_recover.specs.Finding.{CanGoOn, IsOpened};
ghost use Rattle.pfx_store_recover.specs.Looking.{Looks};
ghost use Rattle.pfx_record.specs.Batches.{batch_most};
ghost use Rattle.pfx_store_image.specs.Recovery.{Found, found, recovered};
ghost use Rattle.pfx_store_file.specs.Checkpoints.{is_begun};
ghost use Rattle.pfx_store_file.specs.Tending.{pieces, steps_left};
ghost use Rattle.pfx_store.specs.Stores.{stored};
ghost use Rattle.pfx_store.specs.Working.{Finds, IsBody, IsDurable, Opens};

use crate::format::{FileFormat, FileHeader};
use crate::journal::Journal;
use crate::store::Store;
use pfx_checkpoint::whole_len;
use pfx_disk::Disk;
use pfx_jobs::job::Job;
use pfx_machine::State;
use pfx_record::batch_most;
use pfx_store_file::StoreFile;
use pfx_store_recover::{OpenFault, OpenedFile, open};
use std::alloc::{AllocError, Global};

// How many bytes the longest frame takes, be it of rows or of new weights, with the closed gate behind it.
pub(crate) fn longest_frame(workers: u32, real: u32) -> usize
    ensures { result ≡ batch_most workers real + 1 }
{
    batch_most(workers, real) + 1
}

// The body of the checkpoint in progress, or room for one.
fn body_of(alloc: Global, middle: Option<Vec<u8>>, len: usize) -> Result<Vec<u8>, AllocError>
    ensures { IfOk result (λ body. IsBody middle len body.items) }
{
    match middle {
        Some(body) if body.len() == len => Ok(body),
        _ => vec![in alloc; 0; len],
    }
}

// The journal of a file, with its room.
fn furnished<D: Disk, J: Job>(
    alloc: Global,
    file: StoreFile<D>,
    header: &FileHeader,
    state: State<J>,
    middle: Option<Vec<u8>>,
) -> Result<Journal<D, J>, (OpenFault, D)>
    requires { CanGoOn (format J.kind) IsOf header.now file.broken file.places state }
    ensures file { IfOk result (λ store. store.file ≡ file) }
    ensures state { IfOk result (λ store. store.state ≡ state) }
    ensures found { (bytes : List ℕ) → IsOpened (format J.kind) header.now bytes file.places state middle (D.view file.disk)
        → IfOk result (λ store. Finds D.view J.kind bytes (stored store)) }
    ensures fault { IfErr result (λ e. (e.0 ≡ OpenFault.NoMemory) × (e.1 ≡ file.disk)) }
{
    let _header = header.set();
    let _total = state.columns().total();
    let real = state.columns().real();
    let Ok(spelled) = body_of(alloc, middle, whole_len(real)) else {
        return Err((OpenFault::NoMemory, file.into_disk()));
    };
    let longest = longest_frame(state.columns().workers(), real as u32);
    let Ok(frame) = Vec::with_capacity(alloc, longest) else {
        return Err((OpenFault::NoMemory, file.into_disk()));
    };
    Ok(Journal {
        file,
        state,
        spelled,
        frame,
    })
}

impl<D: Disk, J: Job> Store<D, J> {
    /// Opens the store of a file: a sync, and then reads alone. With a fault the disk comes back.
    ///
    /// `Refused` names the first test that the file doesn't pass. `Device` comes only if the disk failed, and `NoMemory`
    /// if an allocation failed.
    pub fn open(alloc: Global, disk: D) -> Result<Store<D, J>, (OpenFault, D)>
        ensures found { IsHonest (D.view disk) → IfOk result (λ store.
            recovered (format J.kind) (D.view disk).contents ≡ Ok store.state) }
        ensures refused { IsHonest (D.view disk) → IfErr result (λ e. IsRefusal e.0 (λ refusal.
            recovered (format J.kind) (D.view disk).contents ≡ Err refusal)) }
        ensures device { IfErr result (λ e. e.0 ≡ OpenFault.Device → HasFailed (D.view disk) (D.view e.1)) }
        ensures looks { MatchResult result
            (λ store. Looks (D.view disk) (D.view store.file.disk)) (λ e. Looks (D.view disk) (D.view e.1)) }
        ensures fresh { IfOk result (λ store. (store.file.broken ≡ false) × (is_begun store.file.places.checkpoint ≡ false)) }

        // If two segments were read a checkpoint is in progress, with all its steps to come; else there is none.
        ensures left { IsHonest (D.view disk) → IfOk result (λ store. (f : Found Header (Plain J))
            → found (format J.kind) (D.view disk).contents ≡ Ok f
            → steps_left store.file.places ≡ (if f.parts.turned then 2 + pieces store.file.places.sizes.body else 0)) }

        // From the return on each image is recovered to the state.
        ensures durable { IsHonest (D.view disk) → IfOk result (λ store.
            IsDurable J.kind store.file.broken store.state (D.view store.file.disk)) }

        // The sync, and no other call that a stop would tell; and the file that is found.
        ensures acts { IsHonest (D.view disk) → Opens D.view J.kind disk result }
    {
        match open::<FileFormat<J>, D>(alloc, disk) {
            Err(fault) => Err(fault),
            Ok(opened) => {
                let OpenedFile {
                    file,
                    header,
                    state,
                    middle,
                } = opened;
                match furnished(alloc, file, &header, state, middle) {
                    Ok(journal) => Ok(Store { journal }),
                    Err(refused) => Err(refused),
                }
            }
        }
    }
}
