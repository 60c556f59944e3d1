//! A store's file on a disk: the calls that write it, and what survives a stop at any moment of them.
//!
//! What a file's bytes mean stands in `pfx_store_image`, if contents are left open. Here `StoreFile` keeps a disk, where
//! the file's parts lie and how its gates stand, and makes the writers' calls. `Holds` says that it does so rightly: each
//! image that the disk may leave is one of the store at its state. Each call's contract says that the store holds again
//! if the call succeeds; that what survived before survives at every moment of the call, whatever it answers; and,
//! of an append, that from its return on each image has the frame.
//!
//! What that rests on, and no change may lose:
//! 1. A frame is written behind a closed gate, with the next closed gate behind it, and synced before its gate is opened.
//! 2. A turn comes only if the segment that frames go to has one, and no checkpoint is in progress.
//! 3. How the gates of the checkpoint area and the segment that aren't in use stand is known before anything is written behind them:
//!    a closed gate is never written closed again. After a call of the disk that failed nothing is known, and the file is
//!    broken until it is opened again.
//! 4. A checkpoint holds the state at the turn. The sync of its first step leaves no image with that checkpoint area's gate open
//!    while pieces are written; the first sync of its last step leaves none without the whole body before the gate opens.
//!
//! Why it is so:
//! - **Writing a checkpoint is the store's file's**: `pfx_checkpoint` spells states and has no disk. How far the writing is says
//!   `Checkpoint::Writing` of `pfx_store_file`, whose `tend` takes its first, middle and last steps (`begin`, `write_piece`, `finish`).
//! - **A layout has room by its type** (more than nine bytes a segment), so the codec gives headers that nobody reads the greater of
//!   their length and ten; headers that are read have 2,137 bytes at least.
//! - **How far a checkpoint is is one type** (`Checkpoint`): ended, pending, or writing, with how many bytes stand behind its gate. Three
//!   fields could say that one was begun that isn't in progress; what the proofs had to exclude can't be written any more.
//! - **The lengths of a file's parts stand once**, with where each part lies (`Sizes`): a place that a call writes and the place that an
//!   opening reads are the same function's answer, and places are changed field by field, never copied whole.
//! - **Calls are counted by definitions over the places** (`append_calls`, `calls_left`), so that a bound for every append follows from
//!   them by arithmetic, and a caller sees how many steps are left.
#![tactic(auto)]

mod appending;
mod checkpoint;
mod faults;
mod file;
pub mod laws;
mod places;
mod progress;
mod sizes;
mod turning;

pub use checkpoint::{PIECE, Tended};
pub use faults::StoreFault;
pub use file::StoreFile;
pub use places::Places;
pub use progress::Checkpoint;
pub use sizes::Sizes;
