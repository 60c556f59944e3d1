// The totals of a task, slot by slot.
ghost use Rattle.std.specs.Prelude.{◌≡◌, ◌<◌, ◌≤◌, ◌+◌, ◌*◌, ◌^◌, ◌&&◌, not, pos};
ghost use Rattle.pfx_replay_totals.specs.Adding.{begun, more};
ghost use Rattle.pfx_replay_totals.specs.Figures.{due_of, figures, greater, lesser};
ghost use Rattle.pfx_replay_totals.specs.Kept.{IsShare};
ghost use Rattle.pfx_weights.specs.Rows.{one};

use crate::share::SlotShare;
use crate::total::Total;

/// The number one for what holds, else none.
pub(crate) fn one(holds: bool) -> u64
    ensures count { result ≡ one holds }
    ensures few { result ≤ 1 }
{
    if holds { 1 } else { 0 }
}

// Whether the task had an open job in the slot that it got.
fn is_used(share: SlotShare) -> bool
    ensures { result ≡ (share.got && share.busy) }
{
    share.got && share.busy
}

// Whether it had none.
fn is_wasted(share: SlotShare) -> bool
    ensures { result ≡ (share.got && not share.busy) }
{
    share.got && !share.busy
}

fn lesser(one: i64, other: i64) -> i64
    ensures { result ≡ lesser one other }
{
    if other < one { other } else { one }
}

fn greater(one: i64, other: i64) -> i64
    ensures { result ≡ greater one other }
{
    if one < other { other } else { one }
}

impl Total {
    /// The totals of a window of one slot.
    pub(crate) fn begin(at: u64, task: usize, share: SlotShare) -> Total
        requires early { at < 2 ^ 40 }
        requires kept { IsShare share }
        ensures { figures result ≡ begun at task share }
    {
        Total {
            from: at,
            to: at + 1,
            task,
            e: share.e,
            p: share.p,
            got: one(share.got),
            used: one(is_used(share)),
            wasted: one(is_wasted(share)),
            lag_least: share.lag,
            lag_greatest: share.lag,
            lag_end: share.lag,
        }
    }

    /// The totals with a slot more.
    pub(crate) fn with(&self, share: SlotShare) -> Total
        requires { self.now.to < 2 ^ 40 }
        ensures { figures result ≡ more (figures self.now) share }
    {
        Total {
            from: self.from,
            to: self.to + 1,
            task: self.task,
            e: self.e,
            p: self.p,
            got: self.got + one(share.got),
            used: self.used + one(is_used(share)),
            wasted: self.wasted + one(is_wasted(share)),
            lag_least: lesser(self.lag_least, share.lag),
            lag_greatest: greater(self.lag_greatest, share.lag),
            lag_end: share.lag,
        }
    }

    /// What the task was due in the window, over its period: its weight's numerator for each slot.
    pub fn due(&self) -> u64
        ensures due { result ≡ due_of (figures self.now) }
        ensures few { result < 2 ^ 60 }
    {
        let total = *self;
        u64::from(total.e) * (total.to - total.from)
    }

    // The same as a signed number.
    pub(crate) fn due_parts(&self) -> i64
        ensures { result ≡ pos (due_of (figures self.now)) }
    {
        self.due() as i64
    }
}
