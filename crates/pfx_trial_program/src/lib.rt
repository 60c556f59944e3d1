//! Trials of the texts and the program: what `pfx_kinds_decimal`, `pfx_program_script`, `pfx_program_set`, `pfx_fault`, `pfx_program_args` and
//! `pfx_program` read and print, and what a failing reader or writer leaves.
//!
//! - `numerals`: texts and their numbers.
//! - `set_text`: set files as users write them, and texts that aren't one.
//! - `script`: scripts as users write them.
//! - `fault`: the refusals as a reader of the output sees them.
//! - `words`: words as a shell passes them, and the texts that answer them.
//! - `notes`: what stands below a fault's line, and what is said of each fault.
//! - `objects`: the same as JSON.
//! - `program`: plans of whole set files.
//! - `runs`, `scripts`: scripts over a state in memory.
//! - `reweighs`: those that give tasks new weights.
//! - `shown`: what is printed of a new store, of a state as its board, and of its jobs.
//! - `jobs`: scripts that show what jobs have computed.
//! - `long`: long scripts and plans, a slow writer, and the reading of a store's set.
//! - `windows`: scripts whose slots are run several at once, up to a refusal or a writer that fails.
//! - `refused_sets`, `torn`: set files that are refused, and a reader that fails, for the others.
//!
//! `check` names the case that doesn't hold. Tables of cases are texts, a case a line, where a proof needn't look into them.
#![tactic(auto)]

#[cfg(test)]
mod check;
#[cfg(test)]
mod fault;
#[cfg(test)]
mod jobs;
#[cfg(test)]
mod long;
#[cfg(test)]
mod notes;
#[cfg(test)]
mod numerals;
#[cfg(test)]
mod objects;
#[cfg(test)]
mod program;
#[cfg(test)]
mod refused_sets;
#[cfg(test)]
mod reports;
#[cfg(test)]
mod reweighs;
#[cfg(test)]
mod runs;
#[cfg(test)]
mod script;
#[cfg(test)]
mod scripts;
#[cfg(test)]
mod set_text;
#[cfg(test)]
mod shown;
#[cfg(test)]
mod torn;
#[cfg(test)]
mod windows;
#[cfg(test)]
mod words;
