//! Stores of three tasks of weight 2/3 on two workers, the desk of their fronts, and the jobs of their clients.
ghost use Rattle.std.specs.Prelude.{IfSome};
ghost use Rattle.pfx_kinds.specs.AnyKind.{any_kind};
ghost use Rattle.pfx_front.specs.Starting.{BeginsHonest};

use pfx_crew::channel::ChannelDesk;
use pfx_disk::{Disk, MemoryDisk};
use pfx_jobs::quantum::{Done, Quantum};
use pfx_kinds::any::AnyJob;
use pfx_machine::Command;
use pfx_store::Store;
use pfx_store::laws::honest_disks_hold;
use pfx_weights::TaskSet;
use std::alloc::Global;

/// The desk of these fronts.
pub type JobDesk = ChannelDesk<Quantum<AnyJob>, Done<AnyJob>>;

/// The length in bytes of segments that hold what most tests do.
pub const SEGMENT: u32 = 8192;

/// A desk on which nothing lies.
pub fn desk(alloc: Global) -> Option<JobDesk> {
    ChannelDesk::new(alloc).ok()
}

/// An empty disk with room for the file of three tasks.
pub fn memory(alloc: Global) -> Option<MemoryDisk> {
    MemoryDisk::new(alloc, &[], 19_395, 20_000, 4_000_000).ok()
}

/// A new store on a disk, with segments of this length in bytes.
pub fn thirds_by<D: Disk + Drop>(alloc: Global, disk: D, segment: u32) -> Option<Store<D, AnyJob>>
    ensures { IfSome result (λ s. BeginsHonest any_kind s (D.view s.file.disk)) }
{
    let set = TaskSet::new(alloc, 2, &[(2, 3), (2, 3), (2, 3)]).ok()?;
    match Store::init(alloc, disk, &set, segment) {
        Ok(store) => {
            honest_disks_hold(&store);
            Some(store)
        }
        Err(_) => None,
    }
}

/// Gives a task a count of five steps.
pub fn submit(task: u16) -> Option<Command<AnyJob>> {
    let job = AnyJob::start("count", 5, b"").ok()?;
    Some(Command::Submit { task, job })
}
