// Writing a batch.
ghost use Rattle.std.specs.Prelude.{◌≡◌, ◌≤◌, ◌<◌, ◌+◌, ◌*◌, ◌^◌, ◌++◌, ◌∷◌, [], length, map, vec_len, vec_capacity, IsTrue};
ghost use Rattle.pfx_weights.specs.Bytes.{weight_bytes};
ghost use Rattle.pfx_record.specs.Begins.{joined};
ghost use Rattle.pfx_record.specs.Batches.{batch_bytes, batch_most, batch_of, all_fit};
ghost use Rattle.pfx_record.specs.Records.{place_bytes, plain, record_bytes, record_fits, records_bytes, row_bytes, state_bytes};

use crate::batch::Batch;
use crate::numbers::{push_u16, push_u32, push_u64};
use crate::record::{FULL_PLACE, GIVEN, Place, Record, WEIGHT};
use pfx_disk::GATE_OPEN;
use pfx_jobs::job::Job;
use pfx_segment::frame::FRAME_HEAD;

// What the pushes write stands behind what was there, and takes no memory if there is room.
fn push_byte(out: &mut Vec<u8>, byte: u8)
    requires { vec_len out.old + 1 ≤ vec_capacity out.old }
    ensures items { out.new.items ≡ out.old.items ++ byte ∷ [] }
    ensures len { vec_len out.new ≡ vec_len out.old + 1 }
    ensures room { vec_capacity out.old ≤ vec_capacity out.new }
{
    out.push_reserved(byte);
}

fn push_job<J: Job>(out: &mut Vec<u8>, job: &J)
    requires { vec_len out.old + 128 ≤ vec_capacity out.old }
    ensures items { out.new.items ≡ out.old.items ++ J.kind.spelling job.now }
    ensures len { vec_len out.new ≡ vec_len out.old + 128 }
    ensures room { vec_capacity out.old ≤ vec_capacity out.new }
{
    let mut bytes = [0; 128];
    job.encode(&mut bytes);
    let _ = out.extend_from_slice(&bytes);
}

fn push_place<J: Job>(out: &mut Vec<u8>, place: &Place<J>)
    requires { vec_len out.old + length (place_bytes J.kind place.now) ≤ vec_capacity out.old }
    ensures items { out.new.items ≡ out.old.items ++ place_bytes J.kind place.now }
    ensures room { vec_capacity out.old ≤ vec_capacity out.new }
{
    push_u16(out, place.task);
    match &place.state {
        None => push_byte(out, 0),
        Some(job) => {
            push_byte(out, 1);
            push_job(out, job);
        }
    }
}

fn push_row<J: Job>(out: &mut Vec<u8>, row: &[Place<J>])
    requires { vec_len out.old + length (row_bytes J.kind row.now) ≤ vec_capacity out.old }
    ensures items { out.new.items ≡ out.old.items ++ row_bytes J.kind row.now }
    ensures room { vec_capacity out.old ≤ vec_capacity out.new }
{
    for place in row {
        push_place(out, place);
    }
}

#[tactic(auto, unfolding(crate::specs::Numbers::number_bytes))]
fn push_weight(out: &mut Vec<u8>, weight: (u32, u32))
    requires { vec_len out.old + 8 ≤ vec_capacity out.old }
    ensures items { out.new.items ≡ out.old.items ++ weight_bytes weight }
    ensures len { vec_len out.new ≡ vec_len out.old + 8 }
    ensures room { vec_capacity out.old ≤ vec_capacity out.new }
{
    push_u32(out, weight.0);
    push_u32(out, weight.1);
}

fn push_weights(out: &mut Vec<u8>, weights: &[(u32, u32)])
    requires { vec_len out.old + length (joined weight_bytes weights.now) ≤ vec_capacity out.old }
    ensures items { out.new.items ≡ out.old.items ++ joined weight_bytes weights.now }
    ensures room { vec_capacity out.old ≤ vec_capacity out.new }
{
    for weight in weights {
        push_weight(out, *weight);
    }
}

fn push_record<J: Job>(out: &mut Vec<u8>, entry: &Record<J>)
    requires { vec_len out.old + length (record_bytes J.kind (plain entry.now)) ≤ vec_capacity out.old }
    ensures items { out.new.items ≡ out.old.items ++ record_bytes J.kind (plain entry.now) }
    ensures room { vec_capacity out.old ≤ vec_capacity out.new }
{
    match entry {
        Record::Submit { task, job } => {
            push_byte(out, 1);
            push_u16(out, *task);
            push_job(out, job);
        }
        Record::Slot { row } => {
            push_byte(out, 2);
            push_row(out, row);
        }
        Record::Withdraw { task } => {
            push_byte(out, 3);
            push_u16(out, *task);
        }
        Record::Reweigh { workers, weights } => {
            push_byte(out, 4);
            push_byte(out, *workers);
            push_weights(out, weights.as_slice());
        }
    }
}

fn push_records<J: Job>(out: &mut Vec<u8>, records: &[Record<J>])
    requires { vec_len out.old + length (records_bytes J.kind (map plain records.now)) ≤ vec_capacity out.old }
    ensures items { out.new.items ≡ out.old.items ++ records_bytes J.kind (map plain records.now) }
    ensures room { vec_capacity out.old ≤ vec_capacity out.new }
{
    for entry in records {
        push_record(out, entry);
    }
}

fn place_len<J: Job>(place: &Place<J>) -> usize
    ensures value { result ≡ length (place_bytes J.kind place.now) }
    ensures bound { result ≤ 131 }
{
    match &place.state {
        None => 3,
        Some(_) => FULL_PLACE,
    }
}

fn row_len<J: Job>(row: &[Place<J>]) -> usize
    requires { length (row_bytes J.kind row.now) < 2 ^ 32 }
    ensures { result ≡ length (row_bytes J.kind row.now) }
{
    let mut len = 0;
    for place in row {
        len += place_len(place);
    }
    len
}

fn record_len<J: Job>(entry: &Record<J>) -> usize
    requires { length (record_bytes J.kind (plain entry.now)) < 2 ^ 32 }
    ensures { result ≡ length (record_bytes J.kind (plain entry.now)) }
{
    match entry {
        Record::Submit { task: _, job: _ } => GIVEN,
        Record::Slot { row } => 1 + row_len(row),
        Record::Withdraw { task: _ } => 3,
        Record::Reweigh {
            workers: _,
            weights,
        } => 2 + WEIGHT * weights.as_slice().len(),
    }
}

fn records_len<J: Job>(records: &[Record<J>]) -> usize
    requires { length (records_bytes J.kind (map plain records.now)) < 2 ^ 32 }
    ensures { result ≡ length (records_bytes J.kind (map plain records.now)) }
{
    let mut len = 0;
    for entry in records {
        len += record_len(entry);
    }
    len
}

/// How many bytes a batch has at the most if rows have so many tasks and so many tasks are real: the head, and either 16
/// slots, each with a tag and a state for each task, or a tag, the workers and a weight for each real task.
pub fn batch_most(workers: u32, real: u32) -> usize
    ensures { result ≡ batch_most workers real }
{
    let rows = 16 * (1 + FULL_PLACE * workers as usize);
    FRAME_HEAD + rows.max(2 + WEIGHT * real as usize)
}

/// How many bytes the batch's spelling has.
pub fn batch_len<J: Job>(batch: &Batch<J>) -> usize
    ensures value { result ≡ length (batch_bytes J.kind (batch_of batch.now.first batch.now.records.items)) }
    ensures bound { result ≤ batch_most batch.now.workers batch.now.real }
{
    FRAME_HEAD + records_len(&batch.records)
}

/// Appends the batch's spelling to a vector that has room for it, and takes no memory.
#[tactic(auto, unfolding(crate::specs::Batches::batch_bytes))]
pub fn write_batch<J: Job>(batch: &Batch<J>, out: &mut Vec<u8>)
    requires { vec_len out.old + length (batch_bytes J.kind (batch_of batch.now.first batch.now.records.items))
        ≤ vec_capacity out.old }
    ensures spelled { out.new.items ≡ out.old.items
        ++ batch_bytes J.kind (batch_of batch.now.first batch.now.records.items) }
    ensures room { vec_capacity out.old ≤ vec_capacity out.new }
{
    let len = records_len(&batch.records);
    push_byte(out, GATE_OPEN);
    push_u32(out, len as u32);
    push_u64(out, batch.first);
    push_u16(out, batch.records.len() as u16);
    push_records(out, &batch.records);
}
