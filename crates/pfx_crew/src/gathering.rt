//! Putting results at their quanta's places, in any order of arrival.
//!
//! Why it is so:
//! - **A result finds its place by the quantum that it answers**, state before included, and not by its task alone, so a late result of
//!   an earlier slot is a Stranger. That every order gives the same is a law over all orders, and needs only that no two quanta of a slot
//!   are of one task, as a row's aren't.
ghost use Rattle.std.specs.Prelude.{◌≡◌, ◌<◌, ◌≤◌, length, map, Some, IfErr, OnOk, OnErr, IfSome, IfNone};
ghost use Rattle.pfx_machine.specs.Slots.{deal};
ghost use Rattle.pfx_crew.specs.Gathering.{IsFirst, IsNowhere, Puts, Refuses};

use pfx_jobs::job::Job;
use pfx_jobs::quantum::{Done, Quantum};
use thiserror::Error;

/// Why a result isn't taken.
#[derive(Debug, Clone, Copy, PartialEq, Eq, Error)]
pub enum GatherFault {
    /// The result of this task's quantum is back already.
    #[error("the quantum of task {task} is back already")]
    Double {
        /// The task.
        task: u16,
    },
    /// It is no result of this slot: no quantum has its number, slot, task and state before.
    #[error("a result of task {task} that isn't of this slot")]
    Stranger {
        /// The task that it names.
        task: u16,
    },
}

/// The place of the first quantum that a result answers, from this place on. `None` if it answers none.
fn place_from<J: Job>(quanta: &[Quantum<J>], done: &Done<J>, from: usize) -> Option<usize>
    requires { from ≤ length quanta.now }
    ensures some { IfSome result (λ at. (at < length quanta.now) × IsFirst (map (λ q. deal q.number q.slot q.task q.before) quanta.now)
        (deal done.now.number done.now.slot done.now.task done.now.before) from at) }
    ensures none { IfNone result (IsNowhere (map (λ q. deal q.number q.slot q.task q.before) quanta.now)
        (deal done.now.number done.now.slot done.now.task done.now.before) from) }
{
    for at in from..quanta.len() {
        if done.answers(&quanta[at]) {
            return Some(at);
        }
    }
    None
}

/// Puts a result at its quantum's place, or refuses it with nothing changed: as a `Stranger` if it answers no quantum of the
/// slot, and as a `Double` if its place is taken. There is a place for each quantum. It takes no memory.
pub fn gather<J: Job>(
    quanta: &[Quantum<J>],
    places: &mut [Option<Done<J>>],
    done: Done<J>,
) -> Result<(), GatherFault>
    requires { length places.old ≡ length quanta.now }
    ensures ok { OnOk result (Puts (map (λ q. deal q.number q.slot q.task q.before) quanta.now) (deal done.number done.slot done.task done.before)
        places.old places.new (Some done)) }
    ensures err { IfErr result (λ fault. Refuses (map (λ q. deal q.number q.slot q.task q.before) quanta.now)
        (deal done.number done.slot done.task done.before) places.old fault) }
    ensures kept { OnErr result (places.new ≡ places.old) }
{
    let task = done.task;
    match place_from(quanta, &done, 0) {
        None => Err(GatherFault::Stranger { task }),
        Some(at) => {
            if places[at].is_some() {
                return Err(GatherFault::Double { task });
            }
            places[at] = Some(done);
            Ok(())
        }
    }
}
