// What came of a part of a history.
use pfx_replay::Difference;

/// The state behind a part of a history that agrees, or the first number that differs, and what differs there.
#[derive(Drop)]
pub enum Folded<S> {
    /// All of it agrees, and this is the state behind it.
    Agrees(S),
    /// At the command of this number it doesn't, and at none before.
    Differs { number: u64, what: Difference },
}
