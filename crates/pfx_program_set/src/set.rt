//! What a set file says.

ghost use Rattle.std.specs.Prelude.{◌≡◌, IfOk};
ghost use Rattle.pfx_program_set.specs.SetFile.{weights_of};
ghost use Rattle.pfx_program_set.specs.Views.{set_view};

use std::alloc::{AllocError, Global};

/// A task of a set file. It asks for `e` of every `p` slots.
#[derive(Debug, Drop)]
pub struct NamedTask {
    /// 1 to 32 ASCII letters, digits, `_` or `-`, unlike the other tasks' names.
    pub name: String,
    /// The slots in a period, as the file has them.
    pub e: u32,
    /// The period in slots, as the file has it.
    pub p: u32,
}

/// What a set file says. The numbers are as the file has them, lawful or not.
#[derive(Debug, Drop)]
pub struct SetText {
    /// How many tasks run in a slot.
    pub workers: u32,
    /// The size in bytes of a segment of the journal.
    pub segment: u32,
    /// The tasks, in the file's order.
    pub tasks: Vec<NamedTask>,
}

impl SetText {
    /// The weights e and p of the tasks, in the file's order. Fails only if memory runs out.
    pub fn weights(&self, alloc: Global) -> Result<Vec<(u32, u32)>, AllocError>
        ensures { IfOk result (λ v. v.items ≡ weights_of (set_view self.now)) }
    {
        let mut weights = Vec::new(alloc);
        for task in self.tasks.iter() {
            weights.push((task.e, task.p))?;
        }
        Ok(weights)
    }
}
