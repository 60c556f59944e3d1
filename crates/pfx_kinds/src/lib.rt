//! The four kinds of job: a count, an elementary cellular automaton on a ring, a search for a needle in a text, and the last answer to
//! a unit that another program does.
//!
//! Each kind is a struct of its own, whose type keeps its numbers in range: Count, Rule and Scan with `Job`, Own without, as it takes no
//! step. `AnyJob` is any of the four, and a `Job`. The first byte of an encoding tells the kind: 1 for a Count, 2 for a Rule, 3 for a
//! Scan, 4 for an Own. `AnyJob::start` makes a job of its kind's name, a goal and a text, and says what is wrong with them.
//!
//! What a step means stands in `specs/`, apart from the code: a Rule's cells are told one by one there, and stepped 64
//! at a time here. `laws` has what holds of whole runs.
//!
//! Why it is so:
//! - **An encoding is read by reading its numbers, testing them, writing them again and comparing all 128 bytes.** So only encodings are
//!   read, by construction, and no rule about padding can be forgotten.
//! - **A decoded Scan may claim any number of places found, up to those examined.** That it counts real ones is promised for scans that
//!   were started, since bytes can't show it.
//! - **An own job's first and last byte are its kind.** The last byte of the other kinds is 0, so no changed byte of one of their states
//!   makes it one. The two bytes before it are 0, and the five before them are the slot of the weights that its number counts in.
//! - **What new weights leave unanswered stays so**: its task's allocation is gone, so nothing tells any more how many units those were.
//!   A driver answers all before it asks for new weights.
//! - **A unit's number is a goal, so a script writes it with at most ten digits**, though the kind holds numbers below 2^40. A task of
//!   weight near one that runs a unit a second comes to eleven digits after 317 years.
//! - **A board's word for an own job is `own`**: it has no step left, and `done` would say that of work that goes on.
//! - **A number in a job's data may have leading zeros** within its length, and no sign. A scan's text may hold colons: the first one
//!   ends the needle.
//! - **Byte 0 is no kind**, so that zeros are never a state.
//! - **Fields of a job are public to read**, and a ghost field keeps their ranges; there are no accessors that repeat a field.
#![tactic(auto)]

pub mod any;
pub mod count;
pub mod laws;
pub mod own;
mod ring;
pub mod rule;
pub mod scan;
pub mod start;
pub mod units;
