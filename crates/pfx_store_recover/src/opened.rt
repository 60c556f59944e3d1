// Opening a store's file.
ghost use Rattle.std.specs.Prelude.{◌≡◌, Err, IfOk, IfErr, MatchResult};
ghost use Rattle.pfx_disk.specs.Disk.{IsHonest, HasFailed};
ghost use Rattle.pfx_store_image.specs.Recovery.{recovered};
ghost use Rattle.pfx_store_recover.specs.Answers.{IsRefusal};
ghost use Rattle.pfx_store_recover.specs.Finding.{CanGoOn, IsOpened};
ghost use Rattle.pfx_store_recover.specs.Looking.{Looks};

use crate::faults::OpenFault;
use crate::format::Format;
use crate::reading::read_file;
use pfx_disk::Disk;
use pfx_store_file::StoreFile;
use std::alloc::Global;

/// A store's file that was opened.
#[derive(Drop)]
pub struct OpenedFile<D: Disk, F: Format> {
    /// The file on its disk, where the next frame goes.
    pub file: StoreFile<D>,
    /// Its header.
    pub header: F::Header,
    /// Its state.
    pub state: F::State,
    /// The body of the checkpoint area that the checkpoint in progress writes, where two segments were read. It holds the state
    /// after the frames of the first.
    pub middle: Option<Vec<u8>>,
}

/// Opens a store's file: a sync, and then reads alone. With a fault the disk comes back.
///
/// What comes is what is found in the disk's bytes. `Refused` names the first test that they don't pass, `Device` comes only if the
/// disk failed, and `NoMemory` if an allocation failed. Nothing is written, and a store can go on with the file: none of its calls has
/// failed, no checkpoint is begun, and a checkpoint area can hold the state.
pub fn open<F: Format, D: Disk>(alloc: Global, disk: D) -> Result<OpenedFile<D, F>, (OpenFault, D)>
    // What is found in the disk's bytes, and the store of it.
    ensures opened { IsHonest (D.view disk) → IfOk result (λ o. IsOpened F.codec o.header
        (D.view disk).contents o.file.places o.state o.middle (D.view o.file.disk)) }
    // A refusal is the one that the bytes are to be refused with.
    ensures refused { IsHonest (D.view disk) → IfErr result (λ e. IsRefusal e.0 (λ refusal.
        recovered F.codec (D.view disk).contents ≡ Err refusal)) }
    ensures device { IfErr result (λ e. e.0 ≡ OpenFault.Device → HasFailed (D.view disk) (D.view e.1)) }
    // Nothing is written.
    ensures looks { MatchResult result
        (λ o. Looks (D.view disk) (D.view o.file.disk)) (λ e. Looks (D.view disk) (D.view e.1)) }
    ensures going { IfOk result (λ o. CanGoOn F.codec F.fits o.header o.file.broken o.file.places o.state) }
{
    let mut disk = disk;
    match read_file::<F, D>(alloc, &mut disk) {
        Ok((outline, contents)) => Ok(OpenedFile {
            file: StoreFile::new::<F::Header, F::State>(disk, contents.places),
            header: outline.header,
            state: contents.state,
            middle: contents.middle,
        }),
        Err(fault) => Err((fault, disk)),
    }
}
