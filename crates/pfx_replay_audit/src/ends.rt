// Where the fold of a log, and of a whole history, ends.
use pfx_log::LogPlace;
use pfx_replay::Difference;

/// What came of a log, and of those before it.
#[derive(Drop)]
pub enum LogEnd<S> {
    /// All agrees, and this is the state at the log's end, and the place there.
    Agrees { state: S, place: LogPlace },
    /// At the command of this number it doesn't, and at none before.
    Differs { number: u64, what: Difference },
}

/// What came of a whole history.
#[derive(Clone, Copy)]
pub enum HistoryEnd {
    /// All agrees, up to this number; the last log ends at this place, which has its last number and its head.
    Agrees { number: u64, log: LogPlace },
    /// At the command of this number it doesn't, and at none before.
    Differs { number: u64, what: Difference },
}
