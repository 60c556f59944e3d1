//! A key that was found, kept.

ghost use Rattle.std.specs.Prelude.{◌≡◌, ◌<◌};
ghost use Rattle.pfx_symbols.specs.Keys.{key_behind};

use crate::keys::Key;

/// A key that was found: that of what is behind the end of a task's next subtask, which stays the same while the task rests. It is
/// kept with what it is of, so that any one serves any task.
#[derive(Clone, Copy)]
pub struct KeptKey {
    pub(crate) e: u32,
    pub(crate) p: u32,
    pub(crate) v: u32,
    pub(crate) rounds: u32,
    pub(crate) key: Key,
    ghost is: { 0 < v → key ≡ key_behind rounds e p v },
}

impl KeptKey {
    /// The one of no task.
    pub fn none() -> KeptKey {
        KeptKey {
            e: 0,
            p: 0,
            v: 0,
            rounds: 0,
            key: Key {
                number: 0,
                whole: false,
            },
        }
    }
}
