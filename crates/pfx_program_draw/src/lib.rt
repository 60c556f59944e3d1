//! A plan as a picture: the text of an SVG.
//!
//! What it keeps true: the picture is `draw_text` of `specs/Drawing.antt`, a stated function of the set's names, of the ledger
//! with which the plan begins, and of the plan's rows, and these are the rows of proportionate progress. It is made of whole
//! numbers alone. A lane a task: `bars` has the runs of slots in which it runs, `lags` what it is due less what it got, `line`
//! the line of that, `lane` all of a lane; `frame` has what stands round the lanes, `sizes` where all of it stands, and
//! `phrases` the words between the numbers. `start` reads a set and a ledger as `pfx plan` does, `run` draws what was read.
//! `laws` says of the lags that are drawn that they are the ledgers' own.
//!
//! Why it is so:
//! - **Whole numbers alone**, so that a picture is a stated function of the set and the ledger, the same on every machine: a lag is
//!   rounded to the pixel towards none, a quarter of a slot downwards.
//! - **What is drawn for each number below another is `each`**, and greatest numbers `most`: so each loop's invariant says how far `each`
//!   has come, and one lemma serves them all.
//! - **Dark pages are a style of a few rules** that set other colours by those that the elements name, so nothing else of a picture
//!   differs.
#![tactic(auto)]

mod bars;
mod drawing;
mod frame;
mod lags;
mod lane;
pub mod laws;
mod line;
mod phrases;
mod picture;
mod sizes;
mod start;
mod text;

pub use drawing::{DrawFault, draw};
pub use picture::run_draw;
pub use start::read_start;
