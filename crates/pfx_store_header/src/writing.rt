//! A header as bytes.

ghost use Rattle.std.specs.Prelude.{◌≡◌, ◌+◌, ◌≤◌, ◌++◌, length, take};
ghost use Rattle.byteorder.specs.Endian.{little_bytes};
ghost use Rattle.pfx_weights.specs.Bytes.{weight_bytes};
ghost use Rattle.pfx_store_header.specs.Headers.{header_len, header_bytes, front_bytes, this_version};

use crate::sizes::FRONT;
use byteorder::{ByteOrder, LittleEndian};
use pfx_disk::GATE_OPEN;
use pfx_weights::TaskSet;

/// An open gate and the letters of a store.
pub(crate) const MARK: [u8; 9] = [GATE_OPEN, b'P', b'F', b'X', b'S', b'T', b'O', b'R', b'E'];

/// The version of stores that are written and read.
pub(crate) const VERSION: u8 = 2;

/// Writes a number of two bytes at a place.
fn put_u16(out: &mut [u8], at: usize, number: u16)
    requires { at + 2 ≤ length out.old }
    ensures front { take (at + 2) out.new ≡ take at out.old ++ little_bytes 2 number }
    ensures long { length out.new ≡ length out.old }
{
    LittleEndian::write_u16(&mut out[at..at + 2], number);
}

/// Writes a number of four bytes at a place.
fn put_u32(out: &mut [u8], at: usize, number: u32)
    requires { at + 4 ≤ length out.old }
    ensures front { take (at + 4) out.new ≡ take at out.old ++ little_bytes 4 number }
    ensures long { length out.new ≡ length out.old }
{
    LittleEndian::write_u32(&mut out[at..at + 4], number);
}

/// Writes what comes before the tasks.
fn put_front(set: &TaskSet, segment: u32, out: &mut [u8])
    requires { 17 ≤ length out.old }
    ensures front { take 17 out.new ≡ front_bytes this_version (record { set = set.now; segment = segment }) }
    ensures long { length out.new ≡ length out.old }
{
    let _total = set.total();
    out[..9].copy_from_slice(&MARK);
    out[9] = VERSION;
    out[10] = set.workers() as u8;
    put_u16(out, 11, set.real() as u16);
    put_u32(out, 13, segment);
}

/// Writes a task at a place.
fn put_task(out: &mut [u8], at: usize, weight: (u32, u32))
    requires { at + 8 ≤ length out.old }
    ensures front { take (at + 8) out.new ≡ take at out.old ++ weight_bytes weight }
    ensures long { length out.new ≡ length out.old }
{
    put_u32(out, at, weight.0);
    put_u32(out, at + 4, weight.1);
}

/// Writes the header of a set and of segments of so many bytes, which fills the bytes: as many as `header_len` says. It
/// takes no memory. What `check_segment` passes is read again.
pub fn write_header(set: &TaskSet, segment: u32, out: &mut [u8])
    requires { length out.old ≡ header_len set.now }
    ensures { out.new ≡ header_bytes this_version (record { set = set.now; segment = segment }) }
{
    let _total = set.total();
    put_front(set, segment, out);
    for task in 0..set.real() {
        put_task(out, FRONT + 8 * task, set.weight(task));
    }
}
