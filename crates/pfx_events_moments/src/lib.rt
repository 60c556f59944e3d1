//! A store on a disk that tells its calls: what holds at each moment of that list, while the store is at work.
//!
//! `tied` of `pfx_events` says that the store's calls are events of a world. Over a `Chronicle` the disk is what its list of calls says, so
//! whatever holds of each image that a stop may leave in that world holds of each beginning of the list: within a call too, and
//! whatever the call answers.
#![tactic(auto)]

pub mod logs;
pub mod moments;
