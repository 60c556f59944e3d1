//! What is noted for a client's pass, and for the flusher's share.
use crate::faults::BookFault;
use pfx_fault::Cause;
use pfx_machine::{Command, Reply};
use pfx_record::Record;

/// That the flusher had given up, as a client was told.
#[derive(Clone, Copy, Debug, PartialEq, Eq)]
pub struct Loss {
    /// The number of the last mark: the commands up to it are durable, and no others.
    pub marked: u64,
    /// Why it gave up.
    pub cause: Cause,
}

/// One note. The first four kinds are noted for passes, the others for the share.
#[derive(Drop)]
pub enum Note<J> {
    /// A command was accepted: its number, itself, and its reply.
    Accepted(u64, Command<J>, Reply),
    /// A command was refused: the last number before it, itself, and why.
    Refused(u64, Command<J>, BookFault),
    /// A receipt was given: for this number, with its mark's clock.
    Receipt(u64, u64),
    /// A client was told that the flusher had given up, why, and behind which mark.
    Lost(Loss),
    /// The flusher took these records, of which the first has this number.
    Took(u64, Vec<Record<J>>),
    /// All commands up to this number count as durable, since this clock of the disk.
    Marked(u64, u64),
    /// The flusher gave up.
    Failed(Cause),
}
