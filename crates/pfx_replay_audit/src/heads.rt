// What is said of a log's last head.
ghost use Rattle.std.specs.Prelude.{◌≡◌, false, Some, IfOk, string_bytes};
ghost use Rattle.serde_json.specs.View.{view};
ghost use Rattle.serde_json.specs.Written.{has_float};
ghost use Rattle.pfx_replay_audit.specs.Heads.{head_line, head_object, head_text};

use serde_json::{Value, json};
use std::alloc::{AllocError, Global};
use std::fmt;
use std::fmt::{Display, Formatter};

// `head 3772 9f86..`
#[derive(Clone, Copy)]
struct Head<'a> {
    number: u64,
    digits: &'a str,
}

impl Display for Head<'_> {
    ghost output = { λ h. Some (head_line h.number h.digits.now) };

    fn fmt<W: fmt::Write>(&self, f: &mut Formatter<W>) -> fmt::Result {
        write!(f, "head {} {}\n", self.number, self.digits)
    }
}

/// The line of a log's last number and its last head: `head 3772 9f86..`, with 64 hex digits, and a line feed. An error comes only if an
/// allocation failed.
pub fn head_text(alloc: Global, number: u64, head: &[u8; 32]) -> Result<String, AllocError>
    ensures { IfOk result (λ s. string_bytes s ≡ head_text number head.now) }
{
    let digits = hex::encode(alloc, *head)?;
    let head = Head {
        number,
        digits: digits.as_str(),
    };
    head.to_string(alloc)
}

/// The same as an object of JSON: `{"head":"9f86..","number":3772}`. An error comes only if an allocation failed.
pub fn head_object(alloc: Global, number: u64, head: &[u8; 32]) -> Result<Value, AllocError>
    ensures object { IfOk result (λ v. view v ≡ head_object number head.now) }
    ensures whole { IfOk result (λ v. has_float (view v) ≡ false) }
{
    let digits = hex::encode(alloc, *head)?;
    json!(in alloc; {"head": digits, "number": number})
}
