// What was due and got in windows of slots, as far as they were seen.
use crate::choice::Choice;
use crate::window::Window;

/// What each task was due and got in windows of slots: the totals of the window that isn't closed yet.
#[derive(Drop)]
pub struct Totals {
    /// Which slots are asked for.
    pub choice: Choice,
    /// The window that isn't closed yet, if a slot was seen that is asked for.
    pub(crate) current: Option<Window>,
}
