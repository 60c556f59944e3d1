// What was found of records.
use crate::jobs::PlainState;
use crate::verdict::Difference;

/// The state after records that are what their commands do, or the first that isn't.
#[derive(Drop)]
pub enum Judged<J> {
    /// All are, and this is the state after them.
    Agrees(PlainState<J>),
    /// The one of this number isn't.
    Differs { number: u64, what: Difference },
}
