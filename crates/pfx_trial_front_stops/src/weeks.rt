//! A script over a store through a front, with workers and without: what it prints is what it prints on one thread.
ghost use Rattle.std.specs.Prelude.{IfSome};
ghost use Rattle.pfx_kinds.specs.AnyKind.{any_kind};
ghost use Rattle.pfx_front.specs.Starting.{BeginsHonest};
ghost use Rattle.pfx_disk.specs.Memory.{memory_view};

use crate::check::check_at;
use crate::folds::empty;
use crate::fronts::{JobDesk, store_on};
use pfx_crew::channel::ChannelDesk;
use pfx_disk::{Disk, MemoryDisk};
use pfx_kinds::any::AnyJob;
use pfx_kit::week::{FIRST_WEEK, SECOND_WEEK, WEEK};
use pfx_program::{AtRefusal, OutputForm, Run};
use pfx_program_script::Script;
use pfx_program_store::{Workforce, run_served};
use pfx_store::Store;
use pfx_store::laws::honest_disks_hold;
use std::alloc::Global;
use std::marker::Brand;
use std::sync::Wait;
use std::thread::Threads;
use std::time::Clock;

/// The store that a disk holds.
fn reopened<D: Disk + Drop>(alloc: Global, disk: D) -> Option<Store<D, AnyJob>>
    ensures { IfSome result (λ s. BeginsHonest any_kind s (D.view s.file.disk)) }
{
    match Store::open(alloc, disk) {
        Ok(store) => {
            honest_disks_hold(&store);
            Some(store)
        }
        Err(_) => None,
    }
}

/// The disk after the script over this store by so many workers, if it prints this.
fn printed<R: Threads + Wait + Clock + Copy + Drop + Send + Sync + 'static>(
    rt: R,
    alloc: Global,
    store: Store<MemoryDisk, AnyJob>,
    workers: u32,
    wanted: &str,
) -> Option<MemoryDisk>
    requires { BeginsHonest any_kind store (memory_view store.file.disk) }
{
    let desk: JobDesk = ChannelDesk::new(alloc).ok()?;
    let mut script = Script::new(alloc, WEEK.as_bytes());
    let mut output = Vec::new(alloc);
    let served = run_served::<_, _, MemoryDisk, Brand, JobDesk, R>(
        alloc,
        store,
        Workforce {
            threads: rt,
            desk,
            workers,
        },
        &mut script,
        Run {
            batch: 2,
            group: 0,
            at_refusal: AtRefusal::GoOn,
            form: OutputForm::Text,
        },
        &mut output,
    );
    if served.result.is_ok() && output.as_slice() == wanted.as_bytes() {
        Some(served.store.into_disk())
    } else {
        None
    }
}

/// Whether the script prints what it should by so many workers, and again after the store is opened again.
fn prints_two_weeks<R: Threads + Wait + Clock + Copy + Drop + Send + Sync + 'static>(
    rt: R,
    alloc: Global,
    workers: u32,
) -> Option<bool> {
    let store = store_on(alloc, empty(alloc)?)?;
    let disk = printed(rt, alloc, store, workers, FIRST_WEEK)?;
    let store = reopened(alloc, disk)?;
    let again = printed(rt, alloc, store, workers, SECOND_WEEK);
    Some(again.is_some())
}

#[test]
fn a_script_prints_the_same_by_any_number_of_workers(rt: HostRuntime) {
    for workers in 0..=2 {
        let holds = prints_two_weeks(rt, rt.alloc(), workers) == Some(true);
        check_at(&rt, holds, "workers", u64::from(workers));
    }
}
