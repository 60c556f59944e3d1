//! Writing the lines of a run.

ghost use Rattle.std.specs.Prelude.{◌≡◌, Some, OnOk, IfOk, IfErr};
ghost use Rattle.std.specs.Io.KnownBytes.{Appends};
ghost use Rattle.pfx_program.specs.Answers.{reply_line, refused_line};
ghost use Rattle.pfx_program.specs.Running.{LineFails};

use crate::OutputForm;
use crate::answers::{refused_line, reply_line};
use crate::printer::Printer;
use pfx_fault::Fault;
use pfx_machine::Reply;
use std::alloc::Global;

pub(crate) fn put_text<W: Printer<E>, E>(
    output: &mut W,
    engine: &E,
    text: &str,
) -> Result<(), Fault>
    requires allowed { W.allows engine.now (W.contents output.old) text.now }
    ensures ok { OnOk result (Appends (W.contents output.old) (W.contents output.new) text.now) }
    ensures err { IfErr result (LineFails text.now (W.contents output.old) (W.contents output.new)) }
{
    put_bytes(output, engine, text.as_bytes())
}

pub(crate) fn put_bytes<W: Printer<E>, E>(
    output: &mut W,
    engine: &E,
    bytes: &[u8],
) -> Result<(), Fault>
    requires allowed { W.allows engine.now (W.contents output.old) bytes.now }
    ensures ok { OnOk result (Appends (W.contents output.old) (W.contents output.new) bytes.now) }
    ensures err { IfErr result (LineFails bytes.now (W.contents output.old) (W.contents output.new)) }
{
    match output.print(engine, bytes) {
        Ok(()) => Ok(()),
        Err(_) => Err(Fault::OutputFailed),
    }
}

pub(crate) fn put_reply<W: Printer<E>, E>(
    alloc: Global,
    form: OutputForm,
    output: &mut W,
    engine: &E,
    number: u64,
    said: &Reply,
) -> Result<(), Fault>
    requires allowed { W.allows engine.now (W.contents output.old) (reply_line form number said.now) }
    ensures ok { OnOk result (Appends (W.contents output.old) (W.contents output.new) (reply_line form number said.now)) }
    ensures err { IfErr result (LineFails (reply_line form number said.now) (W.contents output.old) (W.contents output.new)) }
{
    match reply_line(alloc, form, number, said) {
        Ok(line) => put_text(output, engine, line.as_str()),
        Err(_) => Err(Fault::NoMemory),
    }
}

pub(crate) fn put_refused<W: Printer<E>, E>(
    alloc: Global,
    form: OutputForm,
    output: &mut W,
    engine: &E,
    fault: Fault,
) -> Result<(), Fault>
    requires allowed { W.allows engine.now (W.contents output.old) (refused_line form fault) }
    ensures ok { OnOk result (Appends (W.contents output.old) (W.contents output.new) (refused_line form fault)) }
    ensures err { IfErr result (LineFails (refused_line form fault) (W.contents output.old) (W.contents output.new)) }
{
    match refused_line(alloc, form, fault) {
        Ok(line) => put_text(output, engine, line.as_str()),
        Err(_) => Err(Fault::NoMemory),
    }
}

/// Writes the line of a refusal, and gives back why.
pub(crate) fn refuse<W: Printer<E>, E>(
    alloc: Global,
    form: OutputForm,
    output: &mut W,
    engine: &E,
    fault: Fault,
) -> Result<Option<Fault>, Fault>
    requires allowed { W.allows engine.now (W.contents output.old) (refused_line form fault) }
    ensures ok { OnOk result (Appends (W.contents output.old) (W.contents output.new) (refused_line form fault)) }
    ensures told { IfOk result (λ why. why ≡ Some fault) }
    ensures err { IfErr result (LineFails (refused_line form fault) (W.contents output.old) (W.contents output.new)) }
{
    put_refused(alloc, form, output, engine, fault)?;
    Ok(Some(fault))
}
