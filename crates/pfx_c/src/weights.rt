//! Weights as callers lay them out, and the set that they make.

ghost use Rattle.std.specs.Prelude.{◌≡◌, IfOk, IfErr};
ghost use Rattle.pfx_weights.specs.Sets.{Accepts};
ghost use Rattle.pfx_c.specs.Weights.{pairs_of, SetFails};

use pfx_choice_refusals::set_fault;
use pfx_fault::Fault;
use pfx_weights::{SetFault, TaskSet};
use std::alloc::{AllocError, Global};

/// A task of weight e/p: it is due e of every p slots, with `1 <= e < p`.
#[repr(C)]
#[derive(Clone, Copy)]
pub struct PfxWeight {
    /// How many slots the task is due.
    pub e: u32,
    /// Of how many.
    pub p: u32,
}

/// The weights as pairs.
fn pairs_of(alloc: Global, weights: &[PfxWeight]) -> Result<Vec<(u32, u32)>, AllocError>
    ensures { IfOk result (λ v. v.items ≡ pairs_of weights.now) }
{
    weights.iter().map(|w| (w.e, w.p)).collect(alloc)
}

/// How many weights a set has at the most.
const MOST: usize = 1024;

/// The set of so many workers and these weights.
pub fn set_of(alloc: Global, workers: u32, weights: &[PfxWeight]) -> Result<TaskSet, Fault>
    ensures ok { IfOk result (λ s. Accepts workers (pairs_of weights.now) s) }
    ensures why { IfErr result (SetFails workers weights.now) }
{
    // So that what is copied is bounded whatever a caller passes.
    if weights.len() > MOST {
        return Err(set_fault(SetFault::TooManyTasks));
    }
    let Ok(pairs) = pairs_of(alloc, weights) else {
        return Err(set_fault(SetFault::NoMemory));
    };
    match TaskSet::new(alloc, workers, &pairs) {
        Ok(set) => Ok(set),
        Err(fault) => Err(set_fault(fault)),
    }
}
