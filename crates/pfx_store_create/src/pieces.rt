// Writing all of a new file but its first gate.
ghost use Rattle.std.specs.Prelude.{◌+◌, ◌-◌, ◌∷◌, []};
ghost use Rattle.pfx_store_file.specs.Tending.{pieces};
ghost use Rattle.pfx_store_create.specs.Attempts.{CanBeWritten, IsNextPiece, WritesPiece, WritesUnopened};
ghost use Rattle.pfx_store_create.specs.Creating.{Beginning, StaysClosed, len_of};

use crate::bytes::{file_len, fill};
use pfx_disk::{DeviceFailed, Disk};
use pfx_store_file::PIECE;

// Writes the piece that begins at this place, the disk's end.
fn write_piece<D: Disk>(
    disk: &mut D,
    head: &[u8],
    body: &[u8],
    first: &[u8],
    segment: usize,
    at: usize,
) -> Result<(), DeviceFailed>
    requires { IsNextPiece head.now body.now first.now segment at (D.view disk.old) }
    ensures { WritesPiece head.now body.now first.now segment at (D.view disk.old) (D.view disk.new) result }
{
    let mut bytes = [0; PIECE];
    let n = PIECE.min(file_len(head, body, segment) - at);
    let piece = &mut bytes[..n];
    fill(head, body, first, segment, at, piece);
    disk.write_at(at, piece)
}

// Writes all bytes behind the first one, onto a disk that holds that one.
fn write_pieces<D: Disk>(
    disk: &mut D,
    head: &[u8],
    body: &[u8],
    first: &[u8],
    segment: usize,
) -> Result<(), DeviceFailed>
    requires { CanBeWritten head.now body.now first.now segment (0 ∷ []) (D.view disk.old) }
    ensures { WritesUnopened (pieces (len_of head.now body.now segment - 1)) StaysClosed head.now body.now first.now segment
        (D.view disk.old) (D.view disk.new) result }
{
    let count = (file_len(head, body, segment) - 1).div_ceil(PIECE);
    for i in 0..count {
        write_piece(disk, head, body, first, segment, 1 + i * PIECE)?;
    }
    Ok(())
}

/// Writes a new file with its first gate closed onto an empty disk: a byte and a sync, and the pieces after it, which
/// aren't synced.
pub fn write_unopened<D: Disk>(
    disk: &mut D,
    head: &[u8],
    body: &[u8],
    first: &[u8],
    segment: usize,
) -> Result<(), DeviceFailed>
    requires { CanBeWritten head.now body.now first.now segment [] (D.view disk.old) }
    ensures { WritesUnopened (2 + pieces (len_of head.now body.now segment - 1)) Beginning head.now body.now first.now segment
        (D.view disk.old) (D.view disk.new) result }
{
    disk.write_at(0, &[0])?;
    disk.sync()?;
    write_pieces(disk, head, body, first, segment)
}
