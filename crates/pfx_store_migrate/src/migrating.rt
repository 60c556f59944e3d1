// A new store of an old one.
ghost use Rattle.std.specs.Prelude.{◌≡◌, [], ◌<◌, length, Ok, IfOk, IfErr, MatchResult};
ghost use Rattle.pfx_store_create.specs.Attempts.{IsNoneOrMade};
ghost use Rattle.pfx_disk.specs.Disk.{IsHonest, Leaves, Same};
ghost use Rattle.pfx_store_format.specs.Format.{format};
ghost use Rattle.pfx_machine.specs.Plain.{Plain};
ghost use Rattle.pfx_store_migrate.specs.Migrating.{IsUnmigrated};
ghost use Rattle.pfx_store_recover.specs.Looking.{Looks};
ghost use Rattle.pfx_store_image.specs.Recovery.{recovered};
ghost use Rattle.pfx_store.specs.Working.{IsBegun, IsDurable};
ghost use Rattle.pfx_store_version_one.specs.Format.{format_1};

use crate::fault::MigrateFault;
use crate::format::OldFormat;
use pfx_disk::Disk;
use pfx_jobs::job::Job;
use pfx_store::Store;
use pfx_store_recover::{OpenedFile, open};
use std::alloc::Global;

/// Makes a store of this version on an empty disk out of a file of version 1, which stays as it is. Both disks come back, the new one in its
/// store or beside the fault.
///
/// The old file's faults come first, those of `Store::open` by the rules of version 1: a file of another version is `WrongVersion`. Then
/// come those of `Store::init` but for the segment's, which has the length that it had: `NoMemory`, `NotEmpty` and `Device`.
pub fn migrate<D: Disk, E: Disk, J: Job>(
    alloc: Global,
    old: D,
    new: E,
) -> Result<(Store<E, J>, D), (MigrateFault, D, E)>
    // The new store begins at the state that the old file's bytes stand for.
    ensures state { IsHonest (D.view old) → IfOk result (λ r.
        (recovered (format_1 J.kind) (D.view old).contents ≡ Ok r.0.state) × IsBegun r.0.state r.0) }
    // The old file is only read.
    ensures looks { MatchResult result (λ r. Looks (D.view old) (D.view r.1)) (λ e. Looks (D.view old) (D.view e.1)) }
    ensures unmigrated { IfErr result (λ e. IsUnmigrated D.view E.view J.kind old new e.0 e.1 e.2) }
    // It makes a store on an empty disk alone, and leaves one that holds bytes as it was.
    ensures vacant { IsHonest (E.view new) → MatchResult result (λ _. (E.view new).contents ≡ [])
        (λ e. 0 < length (E.view new).contents → Leaves Same (E.view new) (E.view e.2)) }
    // From the return on each image of the new disk is recovered to the state.
    ensures durable { IsHonest (E.view new) → IfOk result (λ r.
        IsDurable J.kind r.0.file.broken r.0.state (E.view r.0.file.disk)) }
    // At every moment of the call, whatever it answers, each image of a new disk that was empty is no store's, or recovered to the old
    // file's state.
    ensures recovers { IsHonest (D.view old) → IsHonest (E.view new) → (s : Plain J)
        → recovered (format_1 J.kind) (D.view old).contents ≡ Ok s → MatchResult result
        (λ r. IsNoneOrMade (format J.kind) s (E.view new) (E.view r.0.file.disk))
        (λ e. IsNoneOrMade (format J.kind) s (E.view new) (E.view e.2)) }
{
    match open::<OldFormat<J>, D>(alloc, old) {
        Err((fault, old)) => Err((MigrateFault::Old(fault), old, new)),
        Ok(opened) => {
            let OpenedFile {
                file,
                header,
                state,
                ..
            } = opened;
            let old = file.into_disk();
            match Store::begin(alloc, new, header.set(), state) {
                Ok(store) => Ok((store, old)),
                Err((fault, new)) => Err((MigrateFault::New(fault), old, new)),
            }
        }
    }
}
