// Windows, slot by slot.
ghost use Rattle.std.specs.Prelude.{◌≡◌, ◌+◌, IfOk, IsTrue, map, length};
ghost use Rattle.std.specs.List.{range_with_len};
ghost use Rattle.pfx_replay_totals.specs.Adding.{IsOf, begun, more};
ghost use Rattle.pfx_replay_totals.specs.Figures.{figures};
ghost use Rattle.pfx_replay_totals.specs.Slots.{share_of, slot_of};
ghost use Rattle.pfx_replay_totals.specs.Windows.{Window as Slots, alone, joins, with_slot};
ghost use Rattle.pfx_replay_totals.specs.declared.choice.Choice.{Choice};

use crate::choice::{Choice, is_below};
use crate::share::SlotShare;
use crate::slot::SlotShares;
use crate::total::Total;
use crate::window::Window;
use std::alloc::{AllocError, Global};

/// No task's share: the weight and the lag are zero, and it got nothing.
const NO_SHARE: SlotShare = SlotShare {
    e: 0,
    p: 0,
    got: false,
    busy: false,
    lag: 0,
};

// A task's share of a slot.
fn share_of(slot: &SlotShares, task: usize) -> SlotShare
    ensures { result ≡ share_of (slot_of slot.now) task }
{
    match slot.shares.get(task) {
        None => NO_SHARE,
        Some(share) => *share,
    }
}

impl Window {
    /// The window of one slot.
    pub(crate) fn begin(alloc: Global, slot: &SlotShares) -> Result<Window, AllocError>
        ensures { IfOk result (IsOf (alone (slot_of slot.now))) }
    {
        let at = slot.at;
        let mut totals = Vec::with_capacity(alloc, slot.shares.len())?;
        for task in 0..slot.shares.len() {
            totals.push(Total::begin(at, task, slot.shares[task]))?;
        }
        Ok(Window {
            from: at,
            to: at + 1,
            since: slot.since,
            totals,
        })
    }

    /// Whether a slot joins the window.
    pub(crate) fn joins(&self, choice: Choice, slot: &SlotShares) -> bool
        ensures joins { (w : Slots) → IsOf w self.now → result ≡ joins choice w (slot_of slot.now) }
        ensures next { IsTrue result → slot.now.at ≡ self.now.to }
    {
        slot.at == self.to
            && slot.since == self.since
            && is_below(self.to - self.from, choice.every)
    }

    /// The window with a slot more, which is the next one.
    pub(crate) fn with(&self, alloc: Global, slot: &SlotShares) -> Result<Window, AllocError>
        requires { slot.now.at ≡ self.now.to }
        ensures { (w : Slots) → IsOf w self.now → IfOk result (IsOf (with_slot w (slot_of slot.now))) }
    {
        let mut totals = Vec::with_capacity(alloc, self.totals.len())?;
        for task in 0..self.totals.len() {
            totals.push(self.totals[task].with(share_of(slot, task)))?;
        }
        Ok(Window {
            from: self.from,
            to: slot.at + 1,
            since: self.since,
            totals,
        })
    }
}
