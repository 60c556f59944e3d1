//! Why the program ends early.

use thiserror::Error;

/// Why the program ends early.
#[derive(Clone, Copy, Debug, Error)]
pub enum Failure {
    /// The file can't be opened, read or locked.
    #[error("the file can't be opened, or another process has it")]
    NoFile,
    /// What the file has is no store, or no store could be made in it.
    #[error("there is no store in the file, and none could be made")]
    NoStore,
    /// The machine refuses a command, which changes nothing: the last slot or number is after the store, say.
    #[error("a command is refused")]
    Refused,
    /// The disk has failed: the command may be durable, and the store has to be opened again.
    #[error("the store has failed: what was printed is durable")]
    NotDurable,
    /// An allocation failed.
    #[error("an allocation failed")]
    NoMemory,
    /// Standard output takes nothing.
    #[error("standard output takes nothing")]
    NoOutput,
}
