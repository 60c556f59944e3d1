ghost use Rattle.std.specs.Prelude.{◌≡◌, length};

use crate::quanta::{is_result, quantum};
use pfx_crew::gathering::{GatherFault, gather};
use pfx_crew::laws;
use pfx_jobs::quantum::{Done, Quantum};
use pfx_kinds::any::AnyJob;
use std::alloc::Global;

/// The quanta of tasks 0, 1 and 2 in slot 4, dealt by command 9, each of a job at 20.
fn slot(alloc: Global) -> Option<Vec<Quantum<AnyJob>>> {
    let mut quanta = Vec::new(alloc);
    for task in 0..3 {
        quanta.push(quantum(9, 4, task, b"20")?).ok()?;
    }
    Some(quanta)
}

/// A free place for each of them.
fn places(alloc: Global) -> Option<Vec<Option<Done<AnyJob>>>> {
    let mut places = Vec::new(alloc);
    for _task in 0..3 {
        places.push(None).ok()?;
    }
    Some(places)
}

/// What gathering answers to the result of a quantum, if there is a place for each.
fn answer(
    quanta: &[Quantum<AnyJob>],
    places: &mut [Option<Done<AnyJob>>],
    one: Option<Quantum<AnyJob>>,
) -> Option<Result<(), GatherFault>> {
    if places.len() != quanta.len() {
        return None;
    }
    Some(gather(quanta, places, one?.run()))
}

/// Whether each place has its quantum's result.
fn are_results(places: &[Option<Done<AnyJob>>]) -> bool {
    let mut task = 0;
    for place in places {
        match place {
            Some(done) => {
                if !is_result(done, task) {
                    return false;
                }
            }
            None => return false,
        }
        task = task.wrapping_add(1);
    }
    task == 3
}

/// Whether the results, in this order, all come to their places.
fn come_out(alloc: Global, order: &[u16]) -> Option<bool> {
    let quanta = slot(alloc)?;
    let mut places = places(alloc)?;
    for task in order {
        if answer(&quanta, &mut places, quantum(9, 4, *task, b"20")) != Some(Ok(())) {
            return Some(false);
        }
    }
    Some(are_results(&places))
}

/// Whether the results come to their places in each of the six orders.
fn all_orders(alloc: Global) -> bool {
    laws::every_order::<u32, u32>();
    laws::rows_have_no_task_twice::<u32>();
    let orders: [[u16; 3]; 6] = [
        [0, 1, 2],
        [0, 2, 1],
        [1, 0, 2],
        [1, 2, 0],
        [2, 0, 1],
        [2, 1, 0],
    ];
    for order in &orders {
        if come_out(alloc, order) != Some(true) {
            return false;
        }
    }
    true
}

/// A result: of which command, slot, task and state before.
type Given<'a> = (u64, u64, u16, &'a [u8]);

/// Whether each result is answered so, one after the other.
fn are_answered(
    quanta: &[Quantum<AnyJob>],
    places: &mut [Option<Done<AnyJob>>],
    rows: &[(Given<'_>, Result<(), GatherFault>)],
) -> bool {
    for ((number, slot, task, start), wanted) in rows {
        let one = quantum(*number, *slot, *task, *start);
        if answer(quanta, places, one) != Some(*wanted) {
            return false;
        }
    }
    true
}

/// Whether a result is refused: of another number, slot, state before or task as a stranger, and a second time as a double.
fn refusals(alloc: Global) -> Option<bool> {
    let quanta = slot(alloc)?;
    let mut places = places(alloc)?;
    let stranger = Err(GatherFault::Stranger { task: 1 });
    let rows: [(Given<'_>, Result<(), GatherFault>); 6] = [
        ((8, 4, 1, b"20"), stranger),
        ((9, 3, 1, b"20"), stranger),
        ((9, 4, 1, b"19"), stranger),
        ((9, 4, 3, b"20"), Err(GatherFault::Stranger { task: 3 })),
        ((9, 4, 1, b"20"), Ok(())),
        ((9, 4, 1, b"20"), Err(GatherFault::Double { task: 1 })),
    ];
    Some(are_answered(&quanta, &mut places, &rows))
}

#[test]
fn results_come_out_in_every_order(rt: HostRuntime) {
    assert!(rt; all_orders(rt.alloc()));
}

#[test]
fn doubles_and_strangers_are_refused(rt: HostRuntime) {
    assert!(rt; refusals(rt.alloc()) == Some(true));
}
