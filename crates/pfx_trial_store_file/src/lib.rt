//! Tests of disks, of a store's bytes, of files of them and of logs, in a crate of their own so that the tested crates are proved once,
//! without them.
//!
//! | Module | Tests |
//! |---|---|
//! | `disk`, `held` | `pfx_disk`: what each disk holds, what stops and faults leave, and the held call |
//! | `segment` | `pfx_segment`: frames behind gates |
//! | `recovery` | `pfx_store_image`: its laws at concrete types |
//! | `store` | `pfx_store_file`: appends, turns and checkpoints of small files |
//! | `toy`, `opening` | `pfx_store_recover`: small files of a format of its own |
//! | `creating` | `pfx_store_create`: new files |
//! | `record` | `pfx_record`: batches as bytes, and bytes that are none |
//! | `thirds` | what the modules below begin with |
//! | `checkpoint` | `pfx_checkpoint`: states as bytes |
//! | `whole` | `pfx_checkpoint`: states with their sets as bytes |
//! | `header` | `pfx_store_header`: headers as bytes |
//! | `effect` | `pfx_record_redo`: records taken over by states |
//! | `format` | `pfx_store_format`: frames that lead from state to state |
//! | `logs`, `log_vector` | `pfx_log`: what is written and read, and each refusal; each byte of a log of three blocks changed; a log that another program wrote |
//! | `log_stops` | `pfx_log`: a stop at each call, twice, and each call failing |
//!
//! A case is a plain `bool`; `check`, `check_at` and `check_pair` name the one that doesn't hold.
#![tactic(auto)]

#[cfg(test)]
mod check;
#[cfg(test)]
mod checkpoint;
#[cfg(test)]
mod creating;
#[cfg(test)]
mod disk;
#[cfg(test)]
mod effect;
#[cfg(test)]
mod format;
#[cfg(test)]
mod header;
#[cfg(test)]
mod held;
#[cfg(test)]
mod log_stops;
#[cfg(test)]
mod log_vector;
#[cfg(test)]
mod logs;
#[cfg(test)]
mod opening;
#[cfg(test)]
mod record;
#[cfg(test)]
mod recovery;
#[cfg(test)]
mod segment;
#[cfg(test)]
mod store;
#[cfg(test)]
mod thirds;
#[cfg(test)]
mod toy;
#[cfg(test)]
mod whole;
