// What is said of a store that was migrated.
ghost use Rattle.std.specs.Prelude.{◌≡◌, false, IfOk, string_bytes};
ghost use Rattle.serde_json.specs.View.{view};
ghost use Rattle.serde_json.specs.Written.{has_float};
ghost use Rattle.pfx_store_migrate.specs.Lines.{migrated_object, migrated_text};

use serde_json::{Value, json};
use std::alloc::{AllocError, Global};

/// The line of a store that begins at the state of this number: `migrated 4` and a line feed. An error comes only if an allocation failed.
pub fn migrated_text(alloc: Global, number: u64) -> Result<String, AllocError>
    ensures { IfOk result (λ s. string_bytes s ≡ migrated_text number) }
{
    format!(in alloc; "migrated {number}\n")
}

/// The same as an object of JSON: `{"migrated":4}`. An error comes only if an allocation failed.
pub fn migrated_object(alloc: Global, number: u64) -> Result<Value, AllocError>
    ensures object { IfOk result (λ v. view v ≡ migrated_object number) }
    ensures whole { IfOk result (λ v. has_float (view v) ≡ false) }
{
    json!(in alloc; {"migrated": number})
}
