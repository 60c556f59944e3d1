//! Trials of the ledger, the choice, the jobs and the machine: what `pfx_weights`, `pfx_symbols`, `pfx_lanes`, `pfx_columns`, `pfx_choice`,
//! `pfx_jobs`, `pfx_kinds`, `pfx_kinds_walk`, `pfx_machine` and `pfx_machine_feasible` do with values from outside, and beside plain
//! programs.
//!
//! - `weights`: worked task sets and rows, and the faults of sets.
//! - `symbols`: worked symbols, classes and ranks, and the comparison by gaps beside the walk.
//! - `lanes`: sixteen tasks at a time, beside plain loops.
//! - `columns`: worked ledgers, and the columns beside `records`, a list of one record a task.
//! - `choice`: worked plans, and the choice beside `plain`, the choice by counting; `many`: the same for sets of more than 16 tasks,
//!   which are chosen by places.
//! - `kinds`: worked jobs of the three kinds, their encodings, and the quanta of `pfx_jobs`.
//! - `walk`: a job kind of one's own.
//! - `machine`: worked commands, slots in parts, and boards.
//! - `reweighing`: worked sets with new weights.
//! - `lists`: the machine beside the plain programs, on many lists.
//! - `endless`: whole hyperperiods of sets.
#![tactic(auto)]

#[cfg(test)]
mod choice;
#[cfg(test)]
mod columns;
#[cfg(test)]
mod endless;
#[cfg(test)]
mod kinds;
#[cfg(test)]
mod lanes;
#[cfg(test)]
mod lists;
#[cfg(test)]
mod machine;
#[cfg(test)]
mod many;
#[cfg(test)]
mod plain;
#[cfg(test)]
mod records;
#[cfg(test)]
mod reweighing;
#[cfg(test)]
mod symbols;
#[cfg(test)]
mod walk;
#[cfg(test)]
mod weights;
