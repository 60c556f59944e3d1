// What the header of a store's file says.
ghost use Rattle.std.specs.Prelude.{◌≡◌, ◌≤◌, ◌+◌, Ok, Err, IfOk, IfErr};
ghost use Rattle.pfx_disk.specs.Disk.{IsHonest};
ghost use Rattle.pfx_store_format.specs.Format.{format};
ghost use Rattle.pfx_store_header.specs.Headers.{Header, read_header, this_version};
ghost use Rattle.pfx_store_header.specs.declared.sizes.TheConstants.{HEADER_MOST};
ghost use Rattle.pfx_machine.specs.Plain.{Plain};
ghost use Rattle.pfx_store_recover.specs.Answers.{Gives, IsRead, IsRefusal};
ghost use Rattle.pfx_store_recover.specs.Looking.{OnlyReads};
ghost use Rattle.pfx_store_image.specs.Recovery.{Found, found, recovered};

use crate::format::{FileFormat, FileHeader};
use crate::store::Store;
use pfx_disk::Disk;
use pfx_jobs::job::Job;
use pfx_store_header::HEADER_MOST;
use pfx_store_recover::{Format, OpenFault};
use std::alloc::Global;

impl<D: Disk, J: Job> Store<D, J> {
    /// The header of the store's file on a disk: its task set, and how many bytes a segment has. It is the one that `open`
    /// would find there, but nothing after it is looked at: a file whose header is whole may still be refused. Two calls of
    /// the disk, which only read.
    ///
    /// `Refused` names the first test that the header doesn't pass, as `open` would. `Device` comes only if the disk failed,
    /// and `NoMemory` if an allocation failed.
    pub fn layout(alloc: Global, disk: &mut D) -> Result<FileHeader, OpenFault>
        ensures header { IsHonest (D.view disk.old) → Gives IsRead (read_header this_version (D.view disk.old).contents) result }

        // If `open` finds a file, it has this header; and what is refused here, `open` refuses so.
        ensures opens { IsHonest (D.view disk.old) → IfOk result (λ header. (f : Found Header (Plain J))
            → found (format J.kind) (D.view disk.old).contents ≡ Ok f → f.head ≡ header) }
        ensures refused { IsHonest (D.view disk.old) → IfErr result (λ e. IsRefusal e (λ refusal.
            recovered (format J.kind) (D.view disk.old).contents ≡ Err refusal)) }
        ensures reads { OnlyReads (D.view disk.old) (D.view disk.new) result }
        ensures calls { (D.view disk.new).clock ≤ (D.view disk.old).clock + 2 }
    {
        let len = disk.len()?;
        let mut front = vec![in alloc; 0; len.min(HEADER_MOST)]?;
        disk.read(0, &mut front)?;
        Ok(FileFormat::<J>::read_head(alloc, &front)?)
    }
}
