//! What each command works with.

use crate::traces::{Traces, Watched, output_of};
use std::alloc::Global;

/// The process that a command runs in: the system that it calls, the memory that it may take, and the traces that it leaves.
#[derive(Clone, Copy)]
pub(crate) struct Process<'a> {
    /// The system.
    pub(crate) rt: &'a HostRuntime,
    /// The memory.
    pub(crate) alloc: Global,
    /// What is left for what is said after the command.
    pub(crate) traces: &'a Traces,
}

impl<'a> Process<'a> {
    /// Standard output, of which is kept why a write of it failed.
    pub(crate) fn output(self) -> Watched<'a> {
        output_of(self.rt, &self.traces.failed)
    }
}
