//! Notes as JSON.

ghost use Rattle.std.specs.Prelude.{◌≡◌, IfOk, option_map, string_bytes};
ghost use Rattle.serde_json.specs.View.{view};
ghost use Rattle.pfx_program_objects.specs.Said.{text_or_null, note_object, note_or_null};

use pfx_program_explain::NoteLines;
use serde_json::{Value, json};
use std::alloc::{AllocError, Global};

fn text_or_null(alloc: Global, text: &Option<String>) -> Result<Value, AllocError>
    ensures { IfOk result (λ v. view v ≡ text_or_null (option_map (λ s. string_bytes s) text.now)) }
{
    match text {
        Some(text) => Ok(Value::String(String::from_str(alloc, text.as_str())?)),
        None => Ok(Value::Null),
    }
}

fn note_object(alloc: Global, note: &NoteLines) -> Result<Value, AllocError>
    ensures { IfOk result (λ v. view v ≡ note_object note.now) }
{
    let change = text_or_null(alloc, &note.change)?;
    let more = text_or_null(alloc, &note.more)?;
    json!(in alloc; {"change": change, "more": more, "what": note.what.as_str()})
}

/// A note, or null where there is none.
pub(crate) fn note_or_null(alloc: Global, note: Option<&NoteLines>) -> Result<Value, AllocError>
    ensures { IfOk result (λ v. view v ≡ note_or_null (option_map (λ n. n.now) note.entry)) }
{
    match note {
        Some(note) => note_object(alloc, note),
        None => Ok(Value::Null),
    }
}
