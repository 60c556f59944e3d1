//! Weights as they were given.

ghost use Rattle.std.specs.Prelude.{◌≡◌, IfOk};

use std::alloc::{AllocError, Global};
use std::marker::Model;

/// Weights e/p as they were given, one for each task in the order of the tasks, with nothing tested. Contracts see them as
/// their list: two with the same weights are equal, whatever room they have.
#[derive(Debug, Drop)]
pub struct Weights {
    items: Vec<(u32, u32)>,
}

impl Model for Weights {
    ghost use Rattle.std.specs.Prelude.{List, ℕ};

    ghost Value = { List (ℕ × ℕ) };

    ghost view = { λ w. w.items.items };
}

impl Weights {
    /// These weights, (e, p) each. Any list will do: `TaskSet::new` tells whether it is one of a set.
    pub fn new(items: Vec<(u32, u32)>) -> Weights
        ensures { result ≡ items.items }
    {
        Weights { items }
    }

    /// The weights, in the order of the tasks.
    pub fn as_slice(&self) -> &[(u32, u32)]
        ensures { result.now ≡ self.now }
    {
        &self.items
    }

    /// The same weights, in memory of their own. An error comes only if an allocation failed.
    pub fn copy_of(&self, alloc: Global) -> Result<Weights, AllocError>
        ensures { IfOk result (λ copy. copy ≡ self.now) }
    {
        let items = Vec::from_slice(alloc, &self.items)?;
        Ok(Weights { items })
    }
}
