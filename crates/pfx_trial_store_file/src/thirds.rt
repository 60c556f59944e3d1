//! Three tasks of 2/3 on two workers.

use pfx_kinds::any::AnyJob;
use pfx_machine::State;
use pfx_weights::TaskSet;
use std::alloc::Global;

/// The set.
pub fn thirds(alloc: Global) -> Option<TaskSet> {
    TaskSet::new(alloc, 2, &[(2, 3), (2, 3), (2, 3)]).ok()
}

/// A state behind a pointer: a proof spells what a function holds itself at each of its steps.
pub type Held = Box<State<AnyJob>>;

/// Its state before any command.
pub fn new_state(alloc: Global) -> Option<Held> {
    Box::new(alloc, State::new(alloc, &thirds(alloc)?, 8192).ok()?).ok()
}
