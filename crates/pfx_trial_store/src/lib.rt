//! Tests of durable stores, of new weights in them, of older ones that are made into stores of this version, and of replays, in a crate
//! of their own so that the tested crates are proved once, without them.
//!
//! | Module | Tests |
//! |---|---|
//! | `batches` | batches of slots, for the tests of stores |
//! | `beginnings` | `pfx_store`: stores that begin at a state of their own, stopped while they are made, and on disks that fail |
//! | `client` | a worked client of `pfx_store`: each mark is kept through ten calls, proved |
//! | `epochs` | `pfx_store`: files with frames of new weights, stopped after each call, and once more |
//! | `failing` | `pfx_store_migrate`: each call of either disk fails in turn, and memory is refused, once more, and answered then |
//! | `journal` | `pfx_store`: the file of a new store, frames in it, and files and disks that are refused |
//! | `layouts` | `pfx_store`: what the header of a file tells, whole or damaged |
//! | `marks` | `pfx_store`: batches of 2 and of 16 slots with turns in their midst, stops after each call, and the worked client |
//! | `migrating` | `pfx_store_migrate`: what is made of a file, which files are refused, and a stop after each call |
//! | `old` | a file of version 1, written down, and the state that it stands for |
//! | `replays` | `pfx_replay`: what a replay says of whole files, and of files with changed bytes |
//! | `reweighing` | `pfx_store_engine`: new weights between slots, opened again, stopped after each call, and with a turn for their frame |
//! | `scripts` | `pfx_store_engine`: scripts over stores, on disks in memory, in a file, and on ones that fail |
//! | `stops` | `pfx_store_engine`: stops after each call, and where frames go |
//! | `turns` | `pfx_store_engine`: turns and checkpoints, and stops after each call of sixty slots |
//! | `walks` | `pfx_store`: jobs of a kind that only its user knows, stopped after each call and recovered from a checkpoint |
//! | `wide` | `pfx_store`: a file of as many tasks as there may be, in whose segments the frame of new weights just has room |
//! | `windows` | `pfx_store_engine`: scripts whose slots share frames, on disks in memory, on ones that fail, and stopped after each call |
//!
//! A case is a plain `bool`; `check`, `check_at` and `check_pair` name the one that doesn't hold.
#![tactic(auto)]

pub mod batches;
#[cfg(test)]
mod beginnings;
#[cfg(test)]
mod check;
pub mod client;
#[cfg(test)]
mod engines;
#[cfg(test)]
mod epochs;
#[cfg(test)]
mod failing;
#[cfg(test)]
mod held;
#[cfg(test)]
mod journal;
#[cfg(test)]
mod layouts;
#[cfg(test)]
mod marks;
#[cfg(test)]
mod migrating;
#[cfg(test)]
mod old;
#[cfg(test)]
mod replays;
#[cfg(test)]
mod reweighing;
#[cfg(test)]
mod scripts;
#[cfg(test)]
mod stops;
#[cfg(test)]
mod turns;
#[cfg(test)]
mod walks;
#[cfg(test)]
mod wide;
#[cfg(test)]
mod windows;
