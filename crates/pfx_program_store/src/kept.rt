//! Running a script over a front at what keeps a store: the store itself, or one beside a log.
ghost use Rattle.std.specs.Prelude.{◌≡◌, ◌⊎◌, None};
ghost use Rattle.pfx_front.specs.Starting.{IsFresh};
ghost use Rattle.pfx_kinds.specs.AnyKind.{any_kind};
ghost use Rattle.pfx_program_store.specs.Serving.{IsServedRun};

use crate::workforce::Workforce;
use pfx_crew::desk::Desk;
use pfx_disk::Disk;
use pfx_disk_chronicle::chronicle::Logged;
use pfx_fault::Fault;
use pfx_front::calls::Front;
use pfx_front::closing::Given;
use pfx_front::faults::StartFault;
use pfx_front::name::{Lists, Since};
use pfx_front_engine::client::Client;
use pfx_front_engine::engine::FrontEngine;
use pfx_jobs::quantum::{Done, Quantum};
use pfx_kinds::any::AnyJob;
use pfx_program::{Report, Run, run_script};
use pfx_program_script::Script;
use pfx_store::BatchKeeper;
use std::alloc::Global;
use std::io::{Read, Write};
use std::marker::PhantomData;
use std::sync::Wait;
use std::thread::Threads;
use std::time::Clock;

/// What a run over a front at a keeper leaves.
#[derive(Drop)]
pub struct Kept<D: Disk, S: BatchKeeper<D, AnyJob> + Drop> {
    /// What keeps the store.
    pub keeper: S,
    /// What the run answered.
    pub result: Result<Report, Fault>,
    on: PhantomData<D>,
}

/// Why a front doesn't start, as a run's fault.
fn start_fault(fault: StartFault) -> Fault
    ensures { (result ≡ Fault.NoThread) ⊎ (result ≡ Fault.NoMemory) }
{
    match fault {
        StartFault::NoThread => Fault::NoThread,
        StartFault::NoMemory => Fault::NoMemory,
    }
}

/// Never returns.
fn never<D: Disk, S: BatchKeeper<D, AnyJob> + Drop, R: Wait>(rt: &R) -> Kept<D, S>
    ensures { ⊥ }
{
    for _ in rt.forever() {}
    unreachable!()
}

/// Runs the records of a script that are left on what keeps a store, as `run_served` does on a store, through a front that is started for it and
/// ended after it. The disk of what is kept tells its calls already, in a list of the front's name; so it does when it comes back.
pub fn serve_kept<
    I: Read + Drop,
    W: Write,
    D: Disk + Logged<B> + Drop + Send + 'static,
    B: Since<AnyJob> + Send + Sync + 'static,
    S: BatchKeeper<D, AnyJob> + Drop + Send + 'static,
    K: Desk<Quantum<AnyJob>, Done<AnyJob>> + Drop + Send + Sync + 'static,
    R: Threads + Wait + Clock + Copy + Drop + Send + Sync + 'static,
>(
    alloc: Global,
    lists: Lists<AnyJob>,
    keeper: S,
    workforce: Workforce<K, R>,
    script: &mut Script<I>,
    run: Run,
    output: &mut W,
) -> Kept<D, S>
where
    K::Seat: Drop + Send + 'static,
    requires named { (lists.tokens.table.shared.table_id ≡ B.table) × (lists.list.seen.book ≡ B.book) × (B.origin ≡ B.start) }
    requires marks { lists.marks.seen.book ≡ B.marks }
    requires fresh { IsFresh any_kind B.start B.failures B.clock (S.kept keeper).file.broken (S.kept keeper).state (D.view (S.kept keeper).file.disk) }
    requires goes_on { S.failed keeper ≡ None }
    ensures { IsServedRun run.form run.at_refusal B.start script.old script.new.failed (W.contents output.old) (W.contents output.new)
        (D.view (S.kept result.keeper).file.disk) result.result }
{
    let number = keeper.stored().state().number();
    let Ok(mut passes) = Vec::with_capacity(alloc, 1) else {
        return Kept {
            keeper,
            result: Err(Fault::NoMemory),
            on: PhantomData,
        };
    };
    let Workforce {
        threads: rt,
        desk,
        workers,
    } = workforce;
    match Front::<AnyJob, B, K>::start_kept::<D, S, R>(rt, alloc, lists, keeper, desk, workers, 1) {
        Err((fault, keeper)) => Kept {
            keeper,
            result: Err(start_fault(fault)),
            on: PhantomData,
        },
        Ok((front, crew, readers)) => {
            if let Some(pass) = front.pass(&rt) {
                let client = Client::new(pass, number);
                let mut engine = FrontEngine { rt, front, client };
                let result = run_script(alloc, script, run, output, &mut engine);
                let FrontEngine { front, client, .. } = engine;
                passes.push_reserved(client.into_pass());
                if let Ok(left) = front.close_kept(&rt, crew, Given { passes, readers }) {
                    return Kept {
                        keeper: left.keeper,
                        result,
                        on: PhantomData,
                    };
                }
            }

            // A new front gives its first pass out, and ends with it.
            never(&rt)
        }
    }
}
