//! New weights, and the ledger that they begin with.
//!
//! Why it is so:
//! - **A Reweigh is prepared and then begun**: `State::prepare` makes the new set and its ledger, and changes nothing; `begin` takes no
//!   memory. So whoever keeps a state on a disk has all memory before the first byte is written.

ghost use Rattle.std.specs.Prelude.{◌≡◌, ◌≢◌, ◌<◌, ◌≤◌, length, IfOk, IfErr, OnOk, Some, None};
ghost use Rattle.pfx_weights.specs.Sets.{Accepts, IsOfItsTasks};
ghost use Rattle.pfx_columns.specs.Ledgers.{start};
ghost use Rattle.pfx_columns.specs.Levels.{unlevel};
ghost use Rattle.pfx_machine.specs.Faults.{no_memory};
ghost use Rattle.pfx_machine.specs.Reweighing.{fault_of, least_for, new_fault, new_set};

use crate::MachineFault;
use pfx_choice::ChoiceFault;
use pfx_columns::Columns;
use pfx_weights::{SetFault, TaskSet};
use std::alloc::Global;
use std::marker::Model;

/// A set that may come into force, with the ledger that it begins with. Contracts see it as the set.
///
/// `State::prepare` makes it, which takes memory and changes nothing; `State::begin` puts it in force, and takes none.
#[derive(Drop)]
pub struct NewEpoch {
    ledger: Columns,
}

impl Model for NewEpoch {
    ghost use Rattle.std.specs.Prelude.{◌≡◌};
    ghost use Rattle.pfx_weights.specs.Sets.{FilledSet, IsOfItsTasks};
    ghost use Rattle.pfx_columns.specs.Ledgers.{start};

    ghost Value = { FilledSet };

    ghost view = { λ epoch. epoch.ledger.set };

    ghost invariant = { λ epoch. (epoch.ledger ≡ start epoch.ledger.set) × IsOfItsTasks epoch.ledger.set };
}

impl NewEpoch {
    /// The ledger that the set begins with.
    pub(crate) fn ledger(self) -> Columns
        ensures start { result ≡ start self }
        ensures set { IsOfItsTasks self }
    {
        self.ledger
    }
}

// The machine's refusal for that of a set.
fn fault_of(fault: SetFault) -> MachineFault
    ensures { result ≡ fault_of fault }
{
    match fault {
        SetFault::NoTasks => MachineFault::NoSet(SetFault::NoTasks),
        SetFault::TooManyTasks => MachineFault::NoSet(SetFault::TooManyTasks),
        SetFault::BadWorkers => MachineFault::NoSet(SetFault::BadWorkers),
        SetFault::BadWeight { task } => MachineFault::NoSet(SetFault::BadWeight { task }),
        SetFault::HyperperiodTooLarge { task } => {
            MachineFault::NoSet(SetFault::HyperperiodTooLarge { task })
        }
        SetFault::Overload => MachineFault::NoSet(SetFault::Overload),
        SetFault::NoMemory => MachineFault::NoRow(ChoiceFault::NoMemory),
    }
}

// The set of these workers and weights, if there is a weight for each real task of the ledger and every lag is zero.
fn new_set(
    alloc: Global,
    ledger: &Columns,
    segment: u32,
    workers: u32,
    weights: &[(u32, u32)],
) -> Result<TaskSet, MachineFault>
    ensures count { OnOk result (length weights.now ≡ ledger.now.set.real) }
    ensures level { OnOk result (unlevel ledger.now ≡ None) }
    ensures set { IfOk result (λ set. Accepts workers weights.now set) }
    ensures err { IfErr result (λ f. f ≢ no_memory → new_fault ledger.now segment workers weights.now ≡ Some f) }
{
    if weights.len() != ledger.real() {
        return Err(MachineFault::WrongCount);
    }
    if let Some(task) = ledger.first_unlevel() {
        return Err(MachineFault::NotLevel { task });
    }
    match TaskSet::new(alloc, workers, weights) {
        Ok(set) => Ok(set),
        Err(fault) => Err(fault_of(fault)),
    }
}

// How long a segment has to be for a set.
fn least_for(set: &TaskSet) -> u32
    ensures { result ≡ least_for set.now.workers set.now.real }
{
    let _total = set.total();
    (41 + 2096 * set.workers()).max(27 + 8 * set.real() as u32)
}

/// The set of these workers and weights, if it may come into force at a ledger of a store with segments of such a length.
pub fn new_epoch(
    alloc: Global,
    ledger: &Columns,
    segment: u32,
    workers: u32,
    weights: &[(u32, u32)],
) -> Result<NewEpoch, MachineFault>
    ensures accepted { OnOk result (new_fault ledger.now segment workers weights.now ≡ None) }
    ensures real { IfOk result (λ epoch. epoch.real ≡ ledger.now.set.real) }
    ensures set { IfOk result (λ epoch. epoch ≡ new_set ledger.now.set workers weights.now) }
    ensures err { IfErr result (λ f. f ≢ no_memory → new_fault ledger.now segment workers weights.now ≡ Some f) }
{
    let set = new_set(alloc, ledger, segment, workers, weights)?;
    set.is_of_its_tasks();
    let least = least_for(&set);
    if segment < least {
        return Err(MachineFault::SegmentTooSmall { least });
    }
    match Columns::zero(alloc, &set) {
        Ok(ledger) => Ok(NewEpoch { ledger }),
        Err(_) => Err(MachineFault::NoRow(ChoiceFault::NoMemory)),
    }
}
