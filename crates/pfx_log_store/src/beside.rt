// A store, its log, and the frames that the log doesn't have yet.
//
// Why it is so:
// - **A segment's frames are copied in memory, and become a block when the segment is left** (`pfx_log_store`), not when it is used
//   again, and they aren't read back: a front's disk refuses reads. Then the log ends where the next checkpoint will. That a file's
//   frames behind the log's end are the very ones that the log hasn't is `pfx_events_base`'s law over a codec that takes no other frames. One
//   segment's frames stand in memory.
ghost use Rattle.std.specs.Prelude.{◌≡◌, ◌≤◌, ◌+◌, length, false, vec_capacity};
ghost use Rattle.pfx_log_store.specs.Fitting.{FitsIn};

use pfx_disk::Disk;
use pfx_jobs::job::Job;
use pfx_log::LogFile;
use pfx_store::Store;

/// A store beside its log, with the frames that the store has and the log hasn't. They are of the segment that frames go to, and have
/// room in memory up to its end; so has the block that they become.
#[derive(Drop)]
pub struct LoggedStore<D: Disk, L: Disk, J: Job> {
    /// The store.
    pub store: Store<D, J>,
    /// The log.
    pub log: LogFile<L>,
    /// The frames behind the log's last block, one behind the other.
    pub copy: Vec<u8>,
    /// Room for the block.
    pub block: Vec<u8>,
    /// Whether the log couldn't be brought up: then a keeper does nothing any more.
    pub stopped: bool,
    ghost fits: { store.file.broken ≡ false → FitsIn (length copy.items) store.file.places },
    ghost short: { length copy.items ≤ store.file.places.sizes.segment },
    ghost room: { store.file.places.sizes.segment ≤ vec_capacity copy },
    ghost block_room: { 57 + store.file.places.sizes.segment ≤ vec_capacity block },
}
