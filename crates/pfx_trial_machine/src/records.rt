//! The ledger as a list of records, a plain program that goes over the tasks one by one.

use pfx_symbols::Class;
use pfx_weights::{Row, TaskSet};
use std::alloc::Global;
use std::cmp::Ordering;

/// What the ledger keeps of one task: its weight e/p, the slots that it got, and for the slot to come its lag's numerator
/// and its phase.
#[derive(Clone, Copy)]
pub struct Record {
    pub e: i64,
    pub p: i64,
    pub alloc: u64,
    pub lag: i64,
    pub phase: i64,
}

/// The records of a set before slot 0.
pub fn start(alloc: Global, set: &TaskSet) -> Option<Vec<Record>> {
    let mut records = Vec::new(alloc);
    for x in 0..set.total() {
        let (e, p) = set.weight(x);
        records
            .push(Record {
                e: i64::from(e),
                p: i64::from(p),
                alloc: 0,
                lag: 0,
                phase: 0,
            })
            .ok()?;
    }
    Some(records)
}

/// The lag one slot later, in which the task ran or rested.
fn next_lag(record: &Record, ran: bool) -> i64 {
    let taken = if ran { record.p } else { 0 };
    record.lag.wrapping_add(record.e).wrapping_sub(taken)
}

/// The record one slot later.
fn next(record: &Record, ran: bool) -> Record {
    let reach = record.phase.wrapping_add(record.e);
    let over = if reach < record.p { 0 } else { record.p };
    Record {
        e: record.e,
        p: record.p,
        alloc: record.alloc.wrapping_add(u64::from(ran)),
        lag: next_lag(record, ran),
        phase: reach.wrapping_sub(over),
    }
}

/// Gives each task of the row one slot. If the first task that wouldn't be fair then is this one, nothing changes.
pub fn advance(records: &mut [Record], row: &Row) -> Option<u16> {
    let mut x = 0u16;
    for record in &*records {
        let lag = next_lag(record, row.holds(x));
        if lag.saturating_abs() >= record.p {
            return Some(x);
        }
        x = x.wrapping_add(1);
    }
    x = 0;
    for record in records {
        *record = next(record, row.holds(x));
        x = x.wrapping_add(1);
    }
    None
}

/// The class of a task at the slot to come.
pub fn class(record: &Record) -> Class {
    let symbol = record.phase.wrapping_add(record.e).cmp(&record.p);
    match (record.lag.cmp(&0), symbol) {
        (Ordering::Greater, Ordering::Equal | Ordering::Greater) => Class::Urgent,
        (Ordering::Less, Ordering::Less | Ordering::Equal) => Class::Tnegru,
        _ => Class::Contending,
    }
}
