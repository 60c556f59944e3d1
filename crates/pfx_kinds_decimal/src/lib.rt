//! Numbers as users write them: some decimal digits and nothing else.
//!
//! What it keeps true: a text of 1 to so many ASCII digits has the number that they write, leading zeros or not; any
//! other text, an empty one or one with a sign or a space too, has none. It takes no memory.
#![tactic(auto)]

mod numeral;

pub use numeral::number_in;
