// Batches, and which of them there are.
ghost use Rattle.std.specs.Prelude.{◌≡◌, ◌==◌, ◌&&◌, ◌^◌, nat_lt, length, IsTrue};
ghost use Rattle.std.specs.List.{list_all};
ghost use Rattle.pfx_record.specs.Batches.{batch_fits, batch_of, counts_fit};
ghost use Rattle.pfx_record.specs.Records.{is_small, plain, record_fits, rises_from, takes_weights, tasks_of};

use crate::form::Form;
use crate::record::{Place, Record};

/// The records of 1 to 16 commands with consecutive numbers, from 1 to 2^48 - 1. Its type keeps that, that every row has as
/// many tasks as there are workers, 1 to 64, in strictly rising order, and that new weights are alone in their batch, one
/// for each real task.
#[derive(Drop)]
pub struct Batch<J> {
    /// How many tasks each row has.
    pub workers: u32,
    /// How many tasks are real.
    pub real: u32,
    /// The number of the first command.
    pub first: u64,
    /// What the commands did, in the order of their numbers.
    pub records: Vec<Record<J>>,
    ghost fits: { IsTrue (batch_fits workers real (batch_of first records.items)) },
}

impl<J> Batch<J> {
    /// The batch of these records, if `fits` says that they are one.
    pub fn new(workers: u32, real: u32, first: u64, records: Vec<Record<J>>) -> Batch<J>
        requires { IsTrue (batch_fits workers real (batch_of first records.items)) }
        ensures workers { result.workers ≡ workers }
        ensures real { result.real ≡ real }
        ensures first { result.first ≡ first }
        ensures records { result.records ≡ records }
    {
        Batch {
            workers,
            real,
            first,
            records,
        }
    }
}

// Whether a row has so many tasks, in strictly rising order.
fn row_fits<J>(workers: u32, row: &[Place<J>]) -> bool
    ensures { result ≡ ((length row.now == workers) && rises_from 0 (tasks_of row.now)) }
{
    if row.len() != workers as usize {
        return false;
    }
    let mut low: u32 = 0;
    for place in row {
        let task = place.task;
        if u32::from(task) < low {
            return false;
        }
        low = u32::from(task) + 1;
    }
    true
}

// Whether new weights may stand where a record has this form.
pub(crate) fn takes_weights(form: Form) -> bool
    ensures { result ≡ takes_weights form }
{
    form.alone && (0 < form.real && form.real <= 1024)
}

// Whether both numbers of a weight are of 32 bits.
fn is_small(weight: (u32, u32)) -> bool
    ensures { result ≡ is_small weight }
{
    weight.0 <= u32::MAX && weight.1 <= u32::MAX
}

// Whether all weights are.
fn are_small(weights: &[(u32, u32)]) -> bool
    ensures { result ≡ list_all is_small weights.now }
{
    for weight in weights {
        if !is_small(*weight) {
            return false;
        }
    }
    true
}

// Whether there are so many weights.
fn weights_fit(real: u32, workers: u8, weights: &[(u32, u32)]) -> bool
    ensures { result ≡ ((length weights.now == real) && (nat_lt workers 256 && list_all is_small weights.now)) }
{
    weights.len() == real as usize && (workers <= 255 && are_small(weights))
}

/// Whether a record has a spelling of this form: its tasks are below 2^16, a row has as many as there are workers, in
/// strictly rising order, and new weights are alone, one for each real task, of which there are 1 to 1,024.
pub fn record_fits<J>(form: Form, entry: &Record<J>) -> bool
    ensures { result ≡ record_fits form (plain entry.now) }
{
    match entry {
        Record::Submit { task, job: _ } => *task <= 65535,
        Record::Slot { row } => row_fits(form.workers, row),
        Record::Withdraw { task } => *task <= 65535,
        Record::Reweigh { workers, weights } => {
            takes_weights(form) && weights_fit(form.real, *workers, weights.as_slice())
        }
    }
}

/// Whether so many rows and commands are in range: 1 to 64 workers, 1 to 16 commands, numbers from 1 to 2^48 - 1.
pub fn counts_fit(workers: u32, first: u64, count: u64) -> bool
    ensures { result ≡ counts_fit workers first count }
{
    0 < workers
        && workers <= 64
        && 0 < count
        && count <= 16
        && 0 < first
        && first <= (1 << 48) - count
}

/// Whether records are a batch that begins with this number, if rows have so many tasks and so many tasks are real: 1 to 16
/// records, numbers from 1 to 2^48 - 1, 1 to 64 workers, rows of strictly rising tasks, and new weights alone.
pub fn fits<J>(workers: u32, real: u32, first: u64, records: &[Record<J>]) -> bool
    ensures { result ≡ batch_fits workers real (batch_of first records.now) }
{
    if !counts_fit(workers, first, records.len() as u64) {
        return false;
    }
    let alone = records.len() == 1;
    let form = Form {
        workers,
        real,
        alone,
    };
    for entry in records {
        if !record_fits(form, entry) {
            return false;
        }
    }
    true
}
