//! The line that the program prints for a refusal.

ghost use Rattle.std.specs.Prelude.{OnOk};
ghost use Rattle.std.specs.Io.KnownBytes.{Appends};
ghost use Rattle.pfx_fault.specs.Line.{fault_line};

use crate::Fault;
use std::io;
use std::io::Write;

/// Writes the line of a refusal, as `pfx: error 14 BadWeight task=2` and a line feed. An `Err` is
/// the writer's own.
pub fn put_fault<W: Write>(output: &mut W, fault: Fault) -> io::Result<()>
    ensures { OnOk result (Appends (W.contents output.old) (W.contents output.new) (fault_line fault)) }
{
    write!(output, "pfx: error {fault}\n")
}
