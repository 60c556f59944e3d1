//! The lines of further faults.

ghost use Rattle.std.specs.Prelude.{OnOk};
ghost use Rattle.std.specs.Io.KnownBytes.{Appends};
ghost use Rattle.pfx_program_check.specs.Faults.{also_line};

use pfx_fault::Fault;
use std::io;
use std::io::Write;

/// Writes the line of a further fault, as `pfx: also 17 Overload` and a line feed. An `Err` is the writer's own.
pub fn put_also<W: Write>(output: &mut W, fault: Fault) -> io::Result<()>
    ensures { OnOk result (Appends (W.contents output.old) (W.contents output.new) (also_line fault)) }
{
    write!(output, "pfx: also {fault}\n")
}
