//! Weights as a record says them.

ghost use Rattle.std.specs.Prelude.{◌≡◌, IfOk, is_some, option_map};
ghost use Rattle.pfx_program_script.specs.Weights.{number_within, weight_in, weights_in, said_weights};

use pfx_kinds_decimal::number_in;
use std::alloc::{AllocError, Global};

/// The number that 1 to 10 digits write, or 0 in place of one above 4,294,967,295, which no weight and no set has.
pub(crate) fn number_within(text: &str) -> Option<u32>
    ensures { result ≡ number_within text.now }
{
    let number = number_in(10, text.as_bytes())?;
    if number <= 4_294_967_295 {
        Some(number as u32)
    } else {
        Some(0)
    }
}

// The weight of `E/P`.
fn weight_in(text: &str) -> Option<(u32, u32)>
    ensures { result ≡ weight_in text.now }
{
    let (share, period) = text.split_once('/')?;
    let share = number_within(share)?;
    let period = number_within(period)?;
    Some((share, period))
}

/// Whether a text is one weight or more, with single spaces between them.
pub(crate) fn says_weights(text: &str) -> bool
    ensures { result ≡ is_some (weights_in text.now) }
{
    for part in text.split(' ') {
        if weight_in(part).is_none() {
            return false;
        }
    }
    true
}

fn weights_in(alloc: Global, text: &str) -> Result<Option<Vec<(u32, u32)>>, AllocError>
    ensures { IfOk result (λ r. option_map (λ v. v.items) r ≡ weights_in text.now) }
{
    let mut weights = Vec::new(alloc);
    for part in text.split(' ') {
        match weight_in(part) {
            Some(weight) => weights.push(weight)?,
            None => return Ok(None),
        }
    }
    Ok(Some(weights))
}

/// The weights that the text of a `reweigh` says, (e, p) each: `E/P E/P ..`, with 0 in place of a number above 4,294,967,295.
/// A text of another form says none. An error comes only if an allocation failed.
pub fn said_weights(alloc: Global, text: &str) -> Result<Vec<(u32, u32)>, AllocError>
    ensures { IfOk result (λ weights. weights.items ≡ said_weights text.now) }
{
    match weights_in(alloc, text)? {
        Some(weights) => Ok(weights),
        None => Ok(Vec::new(alloc)),
    }
}
