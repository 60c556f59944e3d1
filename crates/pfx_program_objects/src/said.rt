//! What is said on standard error.

ghost use Rattle.std.specs.Prelude.{◌≡◌, IfOk, option_map, string_bytes};
ghost use Rattle.serde_json.specs.View.{view};
ghost use Rattle.pfx_program.specs.Objects.{object_line};
ghost use Rattle.pfx_program_objects.specs.Said.{error_object, also_object, warning_object};

use crate::notes::note_or_null;
use pfx_fault::Fault;
use pfx_program::{fault_object, object_line};
use pfx_program_explain::NoteLines;
use serde_json::{Value, json};
use std::alloc::{AllocError, Global};

fn error_object(alloc: Global, fault: Fault, note: Option<&NoteLines>) -> Result<Value, AllocError>
    ensures { IfOk result (λ v. view v ≡ error_object fault (option_map (λ n. n.now) note.entry)) }
{
    let error = fault_object(alloc, fault)?;
    let note = note_or_null(alloc, note)?;
    json!(in alloc; {"error": error, "note": note})
}

/// The line of a refusal and of its note: `{"error":{"fields":{"task":2},"name":"BadWeight","number":14},"note":..}`, whose note has the
/// keys `change`, `more` and `what`, or is null. An error comes only if an allocation failed, as of each line here.
pub fn error_line(
    alloc: Global,
    fault: Fault,
    note: Option<&NoteLines>,
) -> Result<String, AllocError>
    ensures { IfOk result (λ s. string_bytes s ≡ object_line (error_object fault (option_map (λ n. n.now) note.entry))) }
{
    let object = error_object(alloc, fault, note)?;
    object_line(alloc, &object)
}

fn also_object(alloc: Global, fault: Fault, note: Option<&NoteLines>) -> Result<Value, AllocError>
    ensures { IfOk result (λ v. view v ≡ also_object fault (option_map (λ n. n.now) note.entry)) }
{
    let also = fault_object(alloc, fault)?;
    let note = note_or_null(alloc, note)?;
    json!(in alloc; {"also": also, "note": note})
}

/// The line of a further fault of a set, with the key `also` in the place of `error`.
pub fn also_line(
    alloc: Global,
    fault: Fault,
    note: Option<&NoteLines>,
) -> Result<String, AllocError>
    ensures { IfOk result (λ s. string_bytes s ≡ object_line (also_object fault (option_map (λ n. n.now) note.entry))) }
{
    let object = also_object(alloc, fault, note)?;
    object_line(alloc, &object)
}

fn warning_object(alloc: Global, words: &str, note: Option<&NoteLines>) -> Result<Value, AllocError>
    ensures { IfOk result (λ v. view v ≡ warning_object words.now (option_map (λ n. n.now) note.entry)) }
{
    let note = note_or_null(alloc, note)?;
    json!(in alloc; {"warning": words, "note": note})
}

/// The line of a warning: `{"note":..,"warning":"a record was refused"}`.
pub fn warning_line(
    alloc: Global,
    words: &str,
    note: Option<&NoteLines>,
) -> Result<String, AllocError>
    ensures { IfOk result (λ s. string_bytes s ≡ object_line (warning_object words.now (option_map (λ n. n.now) note.entry))) }
{
    let object = warning_object(alloc, words, note)?;
    object_line(alloc, &object)
}
