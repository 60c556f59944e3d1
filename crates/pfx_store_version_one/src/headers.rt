// Headers, read.
ghost use Rattle.pfx_store_header.specs.Answers.{Reads};
ghost use Rattle.pfx_store_header.specs.Headers.{read_header};
ghost use Rattle.pfx_store_version_one.specs.Format.{old_version};

use pfx_store_header::{HeaderFault, read_header_of};
use pfx_weights::TaskSet;
use std::alloc::Global;

/// The version that the header tells.
pub const VERSION: u8 = 1;

/// The task set and the segment's length, in bytes, of the header at the front of the bytes, or why there is none: a header of
/// another version is `WrongVersion`.
pub fn read_header(alloc: Global, bytes: &[u8]) -> Result<(TaskSet, u32), HeaderFault>
    ensures { Reads (read_header old_version bytes.now) result }
{
    read_header_of(alloc, VERSION, bytes)
}
