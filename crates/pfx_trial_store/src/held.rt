//! What disks hold.

use pfx_disk::Disk;
use std::alloc::Global;

/// All bytes of the disk, by two calls.
pub fn held<D: Disk>(alloc: Global, disk: &mut D) -> Option<Vec<u8>> {
    let n = disk.len().ok()?;
    let mut out = Vec::new(alloc);
    out.resize(n, 0).ok()?;
    disk.read(0, &mut out).ok()?;
    Some(out)
}
