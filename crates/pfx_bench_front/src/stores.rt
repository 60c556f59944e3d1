//! The store, its desk, and the jobs of its tasks.
ghost use Rattle.std.specs.Prelude.{IfOk};
ghost use Rattle.pfx_kinds.specs.AnyKind.{any_kind};
ghost use Rattle.pfx_front.specs.Starting.{BeginsHonest};

use crate::failures::RunFailure;
use pfx_crew::channel::ChannelDesk;
use pfx_disk::Disk;
use pfx_jobs::quantum::{Done, Quantum};
use pfx_kinds::any::AnyJob;
use pfx_machine::Command;
use pfx_store::Store;
use pfx_store::laws::honest_disks_hold;
use pfx_weights::TaskSet;
use std::alloc::Global;

/// How many tasks a store has.
pub const TASKS: u16 = 3;

/// How long a segment is, in bytes, as it is if a set file doesn't say.
pub const SEGMENT: u32 = 1_048_576;

/// The desk of the front.
pub type JobDesk = ChannelDesk<Quantum<AnyJob>, Done<AnyJob>>;

/// Three tasks of 2/3 on two workers.
pub fn thirds(alloc: Global) -> Option<TaskSet> {
    TaskSet::new(alloc, 2, &[(2, 3), (2, 3), (2, 3)]).ok()
}

/// A new store of these.
pub fn made<D: Disk + Drop>(alloc: Global, disk: D) -> Result<Store<D, AnyJob>, RunFailure>
    ensures { IfOk result (λ s. BeginsHonest any_kind s (D.view s.file.disk)) }
{
    let Some(set) = thirds(alloc) else {
        return Err(RunFailure::NoStore);
    };
    match Store::init(alloc, disk, &set, SEGMENT) {
        Ok(store) => {
            honest_disks_hold(&store);
            Ok(store)
        }
        Err(_) => Err(RunFailure::NoStore),
    }
}

/// The store that is on a disk.
pub fn opened<D: Disk + Drop>(alloc: Global, disk: D) -> Result<Store<D, AnyJob>, RunFailure>
    ensures { IfOk result (λ s. BeginsHonest any_kind s (D.view s.file.disk)) }
{
    match Store::open(alloc, disk) {
        Ok(store) => {
            honest_disks_hold(&store);
            Ok(store)
        }
        Err(_) => Err(RunFailure::NoStore),
    }
}

/// Gives a task the rule 110 over 512 cells, with more steps than will be taken.
pub fn submit(task: u16) -> Option<Command<AnyJob>> {
    let mut text = [b'0'; 516];
    text[0] = b'1';
    text[1] = b'1';
    text[3] = b':';
    text[515] = b'1';
    let job = AnyJob::start("rule", u64::from(u32::MAX), &text).ok()?;
    Some(Command::Submit { task, job })
}
