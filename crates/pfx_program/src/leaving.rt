//! The line of the ledger that a plan leaves.
//!
//! Why it is so:
//! - **A plan is as long as its callers want, a call of it isn't**: `--ledger` prints the ledger that the last slot leaves, as `--at`
//!   takes it, and a law says that a plan in such parts has the lines of the whole one. The line comes only if it is asked for, since
//!   whoever reads a plan reads slots, and only behind a whole plan: from the ledger at which a plan ends early no plan goes on.

ghost use Rattle.std.specs.Prelude.{◌≡◌, Some, IfOk, IfErr, OnOk, string_bytes};
ghost use Rattle.std.specs.Io.KnownBytes.{Appends};
ghost use Rattle.serde_json.specs.View.{view};
ghost use Rattle.pfx_program.specs.Leaving.{ledger_text, ledger_object, ledger_line, closing};
ghost use Rattle.pfx_program.specs.Running.{LineFails};

use crate::OutputForm;
use crate::objects::object_line;
use crate::output::put;
use pfx_columns::Columns;
use pfx_fault::Fault;
use serde_json::{Value, json};
use std::alloc::{AllocError, Global};
use std::io::Write;

// The slot, and behind it each allocation, with its sign before it.
fn ledger_text(alloc: Global, columns: &Columns) -> Result<String, AllocError>
    ensures { IfOk result (λ s. string_bytes s ≡ ledger_text columns.now) }
{
    let mut text = columns.slot().to_string(alloc)?;
    let mut sign = ":";
    for x in 0..columns.total() {
        text.push_str(sign)?;
        let number = columns.alloc(x).to_string(alloc)?;
        text.push_str(number.as_str())?;
        sign = ",";
    }
    Ok(text)
}

fn ledger_object(alloc: Global, text: String) -> Result<Value, AllocError>
    ensures { IfOk result (λ v. view v ≡ ledger_object (string_bytes text)) }
{
    json!(in alloc; {"ledger": text})
}

fn ledger_line(alloc: Global, form: OutputForm, columns: &Columns) -> Result<String, AllocError>
    ensures { IfOk result (λ s. string_bytes s ≡ ledger_line form columns.now) }
{
    let mut text = ledger_text(alloc, columns)?;
    match form {
        OutputForm::Text => {
            text.push_str("\n")?;
            Ok(text)
        }
        OutputForm::Json => {
            let object = ledger_object(alloc, text)?;
            object_line(alloc, &object)
        }
    }
}

/// Writes what stands behind a plan's lines: the line of the ledger, if it is asked for.
pub(crate) fn put_closing<W: Write>(
    alloc: Global,
    form: OutputForm,
    leaving: bool,
    columns: &Columns,
    output: &mut W,
) -> Result<(), Fault>
    ensures ok { OnOk result (Appends (W.contents output.old) (W.contents output.new) (closing form leaving (Some columns.now))) }
    ensures err { IfErr result (LineFails (closing form leaving (Some columns.now)) (W.contents output.old) (W.contents output.new)) }
{
    if !leaving {
        return Ok(());
    }
    let Ok(line) = ledger_line(alloc, form, columns) else {
        return Err(Fault::NoMemory);
    };
    match put(output, line.as_bytes()) {
        Ok(()) => Ok(()),
        Err(_) => Err(Fault::OutputFailed),
    }
}
