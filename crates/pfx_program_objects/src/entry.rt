//! What a fault means.

ghost use Rattle.std.specs.Prelude.{◌≡◌, IfOk, string_bytes};
ghost use Rattle.serde_json.specs.View.{view};
ghost use Rattle.pfx_program.specs.Objects.{object_line};
ghost use Rattle.pfx_program_objects.specs.Said.{entry_object};

use pfx_program::object_line;
use pfx_program_explain::Entry;
use serde_json::{Value, json};
use std::alloc::{AllocError, Global};

fn entry_object(alloc: Global, entry: Entry) -> Result<Value, AllocError>
    ensures { IfOk result (λ v. view v ≡ entry_object entry) }
{
    let fault = entry.fault;
    json!(in alloc; {"number": fault.number(), "name": fault.name(), "status": fault.status(), "text": entry.text})
}

/// The line of an entry: `{"name":"BadWeight","number":14,"status":3,"text":".."}`, whose text is the one that `put_entry` writes below
/// its first line. An error comes only if an allocation failed.
pub fn entry_line(alloc: Global, entry: Entry) -> Result<String, AllocError>
    ensures { IfOk result (λ s. string_bytes s ≡ object_line (entry_object entry)) }
{
    let object = entry_object(alloc, entry)?;
    object_line(alloc, &object)
}
