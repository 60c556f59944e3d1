//! Text that grows at its end.

ghost use Rattle.std.specs.Prelude.{◌≡◌, ◌++◌, OnOk};
ghost use Rattle.std.specs.Fmt.{decimal};
ghost use Rattle.pfx_program_draw.specs.Text.{with_number, move_to, line_to, across_to, down_to};

use std::alloc::{AllocError, Global};

/// Puts bytes at the end of a text.
pub(crate) fn put_bytes(text: &mut Vec<u8>, bytes: &[u8]) -> Result<(), AllocError>
    ensures { OnOk result (text.new.items ≡ text.old.items ++ bytes.now) }
{
    text.extend_from_slice(bytes)?;
    Ok(())
}

/// Puts a number in decimal digits at the end of a text.
pub(crate) fn put_number(alloc: Global, text: &mut Vec<u8>, n: u64) -> Result<(), AllocError>
    ensures { OnOk result (text.new.items ≡ text.old.items ++ decimal n) }
{
    let digits = n.to_string(alloc)?;
    put_bytes(text, digits.as_bytes())
}

/// Puts words and a number after them.
pub(crate) fn put_with_number(
    alloc: Global,
    text: &mut Vec<u8>,
    words: &str,
    n: u64,
) -> Result<(), AllocError>
    ensures { OnOk result (text.new.items ≡ text.old.items ++ with_number words.now n) }
{
    put_bytes(text, words.as_bytes())?;
    put_number(alloc, text, n)
}

/// Puts the step of a path to a point, with nothing drawn.
pub(crate) fn put_move(alloc: Global, text: &mut Vec<u8>, x: u64, y: u64) -> Result<(), AllocError>
    ensures { OnOk result (text.new.items ≡ text.old.items ++ move_to x y) }
{
    put_with_number(alloc, text, "M", x)?;
    put_with_number(alloc, text, " ", y)
}

/// Puts a straight line to a point.
pub(crate) fn put_line(alloc: Global, text: &mut Vec<u8>, x: u64, y: u64) -> Result<(), AllocError>
    ensures { OnOk result (text.new.items ≡ text.old.items ++ line_to x y) }
{
    put_with_number(alloc, text, "L", x)?;
    put_with_number(alloc, text, " ", y)
}

/// Puts a line across.
pub(crate) fn put_across(alloc: Global, text: &mut Vec<u8>, x: u64) -> Result<(), AllocError>
    ensures { OnOk result (text.new.items ≡ text.old.items ++ across_to x) }
{
    put_with_number(alloc, text, "H", x)
}

/// Puts a line down or up.
pub(crate) fn put_down(alloc: Global, text: &mut Vec<u8>, y: u64) -> Result<(), AllocError>
    ensures { OnOk result (text.new.items ≡ text.old.items ++ down_to y) }
{
    put_with_number(alloc, text, "V", y)
}
