//! A caller's places.

ghost use Rattle.std.specs.Prelude.{◌≡◌, ◌+◌, ◌≤◌, ◌++◌, length, take, drop};

use pfx_weights::Row;

/// Puts a row into the places from this one on.
pub fn put_row(row: &Row, at: usize, places: &mut [u16])
    requires { at + length row.now ≤ length places.old }
    ensures { places.new ≡ take at places.old ++ row.now ++ drop (at + length row.now) places.old }
{
    let end = at + row.len();
    places[at..end].copy_from_slice(row.as_slice());
}
