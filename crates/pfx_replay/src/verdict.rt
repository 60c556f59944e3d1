// What a replay finds, and the line or the object that says it.
ghost use Rattle.std.specs.Prelude.{◌≡◌, Some, false, IfOk, OnOk};
ghost use Rattle.std.specs.Io.KnownBytes.{Appends};
ghost use Rattle.serde_json.specs.View.{view};
ghost use Rattle.serde_json.specs.Written.{has_float};
ghost use Rattle.pfx_replay.specs.Lines.{difference_name, verdict_text, verdict_line, difference_object, verdict_object};

use serde_json::{Value, json};
use std::alloc::{AllocError, Global};
use std::fmt::{Display, Formatter};
use std::io::Write;
use std::{fmt, io};

/// What differs first.
#[derive(Clone, Copy, Debug, PartialEq, Eq)]
pub enum Difference {
    /// A recorded row isn't PF's.
    Row,
    /// A recorded state of a job isn't the one after its quantum.
    State,
    /// A recorded answer isn't of the next unit that its task was given.
    Answer,
    /// A checkpoint doesn't hold the state after the commands up to its number.
    Checkpoint,
}

impl Display for Difference {
    ghost output = { λ what. Some (difference_name what) };

    fn fmt<W: fmt::Write>(&self, f: &mut Formatter<W>) -> fmt::Result {
        f.write_str(match self {
            Difference::Row => "Row",
            Difference::State => "State",
            Difference::Answer => "Answer",
            Difference::Checkpoint => "Checkpoint",
        })
    }
}

/// What a replay finds. It is shown as `agrees 6` or as `differs 3 State`.
#[derive(Clone, Copy, Debug, PartialEq, Eq)]
pub enum Verdict {
    /// All that is recorded is what the commands do, up to this number.
    Agrees { number: u64 },
    /// At the command of this number it isn't, and at none before.
    Differs { number: u64, what: Difference },
}

impl Display for Verdict {
    ghost output = { λ verdict. Some (verdict_text verdict) };

    fn fmt<W: fmt::Write>(&self, f: &mut Formatter<W>) -> fmt::Result {
        match self {
            Verdict::Agrees { number } => write!(f, "agrees {number}"),
            Verdict::Differs { number, what } => write!(f, "differs {number} {what}"),
        }
    }
}

/// Writes the line of a verdict: what it is shown as, and a line feed. An `Err` is the writer's own.
pub fn put_verdict<W: Write>(output: &mut W, verdict: Verdict) -> io::Result<()>
    ensures { OnOk result (Appends (W.contents output.old) (W.contents output.new) (verdict_line verdict)) }
{
    write!(output, "{verdict}\n")
}

fn difference_object(alloc: Global, number: u64, what: Difference) -> Result<Value, AllocError>
    ensures { IfOk result (λ v. view v ≡ difference_object number what) }
{
    let what = what.to_string(alloc)?;
    json!(in alloc; {"number": number, "what": what})
}

/// A verdict as an object of JSON: `{"agrees":6}` or `{"differs":{"number":3,"what":"State"}}`. An error comes only if an allocation
/// failed.
pub fn verdict_object(alloc: Global, verdict: Verdict) -> Result<Value, AllocError>
    ensures object { IfOk result (λ v. view v ≡ verdict_object verdict) }
    ensures whole { IfOk result (λ v. has_float (view v) ≡ false) }
{
    match verdict {
        Verdict::Agrees { number } => json!(in alloc; {"agrees": number}),
        Verdict::Differs { number, what } => {
            let difference = difference_object(alloc, number, what)?;
            json!(in alloc; {"differs": difference})
        }
    }
}
