//! What a set is.

ghost use Rattle.std.specs.Prelude.{◌≡◌, ◌≢◌, ◌<◌, ◌≤◌, ◌^◌, length, take};
ghost use Rattle.pfx_weights.specs.Sets.{demand};
ghost use Rattle.pfx_c.specs.Faults.{IsRefused, IsNamed};
ghost use Rattle.pfx_c.specs.Weights.{SetFails};
ghost use Rattle.pfx_c.specs.Sets.{HasTotal, IsShown};

use crate::faults::{name_task, number_of};
use crate::weights::{PfxWeight, set_of};
use pfx_weights::TaskSet;
use std::alloc::Global;

/// What is known of a set.
#[repr(C)]
#[derive(Clone, Copy)]
pub struct PfxSet {
    /// The hyperperiod in slots, 2 to 1,048,576: the least common multiple of the periods.
    pub hyper: u32,
    /// How many idle tasks the set is filled with, at most 128. They have the numbers after those of the weights.
    pub idle: u32,
    /// How many slots of a hyperperiod the weights take, over all workers: they sum to `load / hyper`.
    pub load: u64,
}

/// How many slots of a hyperperiod the real tasks take.
fn load_of(set: &TaskSet) -> u64
    ensures { result ≡ demand set.now.hyper (take set.now.real set.now.weights) }
{
    let _total = set.total();
    let hyper = set.hyper();
    let mut load = 0;
    for x in 0..set.real() {
        let weight = set.weight(x);
        load += u64::from(weight.0) * u64::from(hyper / weight.1);
    }
    load
}

/// Puts into `total` how many tasks the set has that is filled with idle ones: as many as a ledger of it has allocations.
///
/// The answer is 0, or the number of the set's refusal (11 to 17, or 90), and then `total` is as it was.
#[unsafe(no_mangle)]
pub extern "C" fn pfx_total(
    alloc: Global,
    workers: u32,
    weights: &[PfxWeight],
    total: &mut usize,
) -> u32
    ensures ok { result ≡ 0 → HasTotal workers weights.now total.new }
    ensures why { result ≢ 0 → IsRefused result (SetFails workers weights.now) }
    ensures kept { result ≢ 0 → total.new ≡ total.old }
{
    match set_of(alloc, workers, weights) {
        Ok(set) => {
            *total = set.total();
            0
        }
        Err(fault) => number_of(fault),
    }
}

/// Puts into `shown` what is known of the set.
///
/// The answer is 0, or the number of the set's refusal (11 to 17, or 90). Then `shown` is as it was, and so is `task`, unless
/// the refusal is one of a task's weight (14) or period (16), whose number goes there.
#[unsafe(no_mangle)]
pub extern "C" fn pfx_set(
    alloc: Global,
    workers: u32,
    weights: &[PfxWeight],
    shown: &mut PfxSet,
    task: &mut u16,
) -> u32
    ensures ok { result ≡ 0 → IsShown workers weights.now shown.new × (task.new ≡ task.old) }
    ensures why { result ≢ 0 → IsNamed result task.old task.new (SetFails workers weights.now) }
    ensures kept { result ≢ 0 → shown.new ≡ shown.old }
{
    match set_of(alloc, workers, weights) {
        Ok(set) => {
            let idle = set.total() - set.real();
            *shown = PfxSet {
                hyper: set.hyper(),
                idle: idle as u32,
                load: load_of(&set),
            };
            0
        }
        Err(fault) => {
            name_task(fault, task);
            number_of(fault)
        }
    }
}
