//! When new weights can come into force.

ghost use Rattle.pfx_program.specs.Level.{IsNextLevel};

use pfx_jobs::job::Job;
use pfx_machine::State;

/// The next slot at which no task is ahead or behind, idle ones too, whatever the tasks are by then: the first one from the slot to come
/// on that lies a whole number of hyperperiods behind the slot at which the weights came into force. Others may come before it.
pub fn level_slot<J: Job>(state: &State<J>) -> u64
    ensures { IsNextLevel state.now result }
{
    let _number = state.number();
    let hyper = u64::from(state.columns().hyper());
    let slot = state.slot();
    let over = (slot - state.from()) % hyper;
    if over == 0 {
        slot
    } else {
        slot + (hyper - over)
    }
}
