//! Batches of slots, appended one by one and by the worked client.
ghost use Rattle.std.specs.Prelude.{◌≡◌, ◌<◌, ◌≤◌, List, length, map, IfSome};
ghost use Rattle.pfx_store.specs.Groups.{AreRecordsOf};
ghost use Rattle.pfx_machine.specs.Outcome.{outcome};
ghost use Rattle.pfx_machine.specs.declared.command.Command.{Command};
ghost use Rattle.pfx_record.specs.Records.{plain};

use crate::client::ten_calls;
use pfx_disk::Disk;
use pfx_jobs::job::Job;
use pfx_machine::{Command, State};
use pfx_record::Record;
use pfx_record_redo::apply_recorded;
use pfx_store::{Mark, Store, batch_of};
use std::alloc::Global;

/// The records of so many slots, after which the state goes on.
pub fn slots<J: Job>(alloc: Global, count: u32, state: &mut State<J>) -> Option<Vec<Record<J>>>
    ensures records { IfSome result (λ records. (H : List (Command J)) × AreRecordsOf J.kind state.old H (map plain records.items)
        × (state.new ≡ outcome J.kind state.old H)) }
    ensures count { IfSome result (λ records. length records.items ≡ count) }
{
    let mut records = Vec::new(alloc);
    for _slot in 0..count {
        let Ok(done) = apply_recorded(alloc, state, Command::Slot) else {
            return None;
        };
        if records.push(done.entry).is_err() {
            return None;
        }
    }
    Some(records)
}

/// A copy of a state, behind a pointer: a proof spells what a function holds itself at each of its steps.
fn copied<J: Job>(alloc: Global, state: &State<J>) -> Option<Box<State<J>>>
    ensures { IfSome result (λ copy. copy.value ≡ state.now) }
{
    Box::new(alloc, state.copy_of(alloc).ok()?).ok()
}

/// Appends a batch of so many slots.
pub fn append_slots<D: Disk, J: Job>(
    alloc: Global,
    count: u32,
    store: &mut Store<D, J>,
) -> Option<Mark>
    requires { (0 < count) × (count ≤ 16) }
{
    let mut ahead = copied(alloc, store.state())?;
    let records = slots(alloc, count, &mut ahead)?;
    let batch = batch_of(store.state(), records);
    store.append(&batch).ok()
}

/// The marks of two batches of so many slots, if both are appended by the ten calls.
pub fn append_both<D: Disk, J: Job>(
    alloc: Global,
    store: &mut Store<D, J>,
    first: u32,
    second: u32,
) -> Option<(Mark, Mark)>
    requires first { (0 < first) × (first ≤ 16) }
    requires second { (0 < second) × (second ≤ 16) }
{
    let mut ahead = copied(alloc, store.state())?;
    let one = batch_of(store.state(), slots(alloc, first, &mut ahead)?);
    let middle = copied(alloc, &ahead)?;
    let two = batch_of(&middle, slots(alloc, second, &mut ahead)?);
    ten_calls(store, &one, &two).ok()
}
