//! Batches as the bytes of their frames, and bytes that are no frame.

use crate::check::{check, check_at};
use pfx_jobs::job::{Job, are_same};
use pfx_kinds::any::AnyJob;
use pfx_record::laws::one_spelling;
use pfx_record::{
    Batch, BatchFault, Form, FramePart, Place, Record, batch_len, fits, read_batch, read_head,
    read_next, write_batch,
};
use pfx_weights::Weights;
use std::alloc::Global;

/// A frame of one slot whose row is the tasks 0 and 1, without jobs.
static ONE_SLOT: [u8; 22] = [
    0xC3, 7, 0, 0, 0, 1, 0, 0, 0, 0, 0, 0, 0, 1, 0, 2, 0, 0, 0, 1, 0, 0,
];

/// Whether the batch's bytes are these.
fn is_spelled(alloc: Global, batch: &Batch<AnyJob>, wanted: &[u8]) -> bool {
    let Ok(mut bytes) = Vec::with_capacity(alloc, batch_len(batch)) else {
        return false;
    };
    write_batch(batch, &mut bytes);
    bytes.as_slice() == wanted
}

/// The slot of two tasks, the first one with this job's state.
fn slot_of(
    alloc: Global,
    first: u16,
    state: Option<AnyJob>,
    second: u16,
) -> Option<Record<AnyJob>> {
    let mut row = Vec::with_capacity(alloc, 2).ok()?;
    row.push_reserved(Place { task: first, state });
    row.push_reserved(Place {
        task: second,
        state: None,
    });
    Some(Record::Slot { row })
}

/// The batch of two workers with these records.
fn batch_from(first: u64, records: Vec<Record<AnyJob>>) -> Option<Batch<AnyJob>> {
    if fits(2, 0, first, &records) {
        Some(Batch::new(2, 0, first, records))
    } else {
        None
    }
}

/// The batch of two workers with this one record.
fn batch_of_one(alloc: Global, first: u64, record: Record<AnyJob>) -> Option<Batch<AnyJob>> {
    let mut records = Vec::with_capacity(alloc, 1).ok()?;
    records.push_reserved(record);
    batch_from(first, records)
}

/// Whether the bytes are read as so many records from this number on, all the bytes, and are written so again.
fn is_read_whole(alloc: Global, bytes: &[u8], first: u64, records: usize) -> bool {
    match read_batch::<AnyJob>(alloc, 2, 0, bytes) {
        Ok((read, taken)) => {
            read.first == first
                && taken == bytes.len()
                && read.records.len() == records
                && is_spelled(alloc, &read, bytes)
        }
        Err(_) => false,
    }
}

fn one_slot_is_written(alloc: Global) -> Option<bool> {
    let record = slot_of(alloc, 0, None, 1)?;
    let batch = batch_of_one(alloc, 1, record)?;
    Some(is_spelled(alloc, &batch, &ONE_SLOT))
}

#[test]
fn a_slot_without_jobs(rt: HostRuntime) {
    let alloc = rt.alloc();
    check(&rt, one_slot_is_written(alloc) == Some(true), "written");
    check(&rt, is_read_whole(alloc, &ONE_SLOT, 1, 1), "read");
    one_spelling::<AnyJob>();
}

/// The job `110:00000001` with three steps to go, after its first one.
fn rule_110() -> Option<AnyJob> {
    let mut job = AnyJob::start("rule", 3, b"110:00000001").ok()?;
    if !job.is_done() {
        job.step();
    }
    Some(job)
}

/// The frame of a slot with that job, all but the zeros within the job's state.
fn slot_with_a_job(alloc: Global) -> Option<Vec<u8>> {
    let mut bytes = Vec::new(alloc);
    bytes
        .extend_from_slice(&[0xC3, 0x87, 0, 0, 0, 2, 0, 0, 0, 0, 0, 0, 0, 1, 0])
        .ok()?;
    bytes
        .extend_from_slice(&[2, 0, 0, 1, 2, 2, 0, 0, 0, 0x6E, 8, 0, 3])
        .ok()?;
    bytes.extend_from_slice(&[0; 119]).ok()?;
    bytes.extend_from_slice(&[1, 0, 0]).ok()?;
    Some(bytes)
}

fn slot_with_a_job_is_written(alloc: Global, wanted: &[u8]) -> Option<bool> {
    let record = slot_of(alloc, 0, Some(rule_110()?), 1)?;
    let batch = batch_of_one(alloc, 2, record)?;
    Some(batch_len(&batch) == 150 && is_spelled(alloc, &batch, wanted))
}

#[test]
fn a_slot_with_a_job(rt: HostRuntime) {
    let alloc = rt.alloc();
    let wanted = slot_with_a_job(alloc).unwrap_or(Vec::new(alloc));
    check(&rt, wanted.len() == 150, "long");
    check(
        &rt,
        slot_with_a_job_is_written(alloc, &wanted) == Some(true),
        "written",
    );
    check(&rt, is_read_whole(alloc, &wanted, 2, 1), "read");
}

/// The bytes of a job given, a job taken away and a slot, at the last numbers that commands have.
fn three_records_written(alloc: Global) -> Option<Vec<u8>> {
    let mut records = Vec::with_capacity(alloc, 3).ok()?;
    records.push_reserved(Record::Submit {
        task: 513,
        job: AnyJob::start("count", 5, b"10").ok()?,
    });
    records.push_reserved(Record::Withdraw { task: 2 });
    records.push_reserved(slot_of(alloc, 1, None, 65535)?);
    let batch = batch_from((1 << 48) - 3, records)?;
    let mut bytes = Vec::with_capacity(alloc, batch_len(&batch)).ok()?;
    write_batch(&batch, &mut bytes);
    Some(bytes)
}

fn has_three_records(bytes: &[u8]) -> bool {
    bytes.len() == 15 + 131 + 3 + 7
        && bytes.get(15..22) == Some([1, 1, 2, 1, 5, 0, 0].as_slice())
        && bytes.get(146..) == Some([3, 2, 0, 2, 1, 0, 0, 255, 255, 0].as_slice())
}

/// Whether the record gives the job `10` of five steps to task 513.
fn is_submitted(record: &Record<AnyJob>) -> bool {
    let Ok(count) = AnyJob::start("count", 5, b"10") else {
        return false;
    };
    match record {
        Record::Submit { task, job } => *task == 513 && are_same(job, &count),
        _ => false,
    }
}

fn are_read_as_three(alloc: Global, bytes: &[u8]) -> bool {
    match read_batch::<AnyJob>(alloc, 2, 0, bytes) {
        Ok((read, taken)) => match read.records.first() {
            Some(record) => { read.first == (1 << 48) - 3 && taken == 156 && is_submitted(record) }
            None => false,
        },
        Err(_) => false,
    }
}

// Three records, read back from the front of more bytes.
#[test]
fn three_records(rt: HostRuntime) {
    let alloc = rt.alloc();
    let mut bytes = three_records_written(alloc).unwrap_or(Vec::new(alloc));
    check(&rt, has_three_records(&bytes), "written");
    check(&rt, bytes.push(0).is_ok(), "a byte behind them");
    check(&rt, are_read_as_three(alloc, &bytes), "read");
}

/// Whether the bytes begin with a row of two tasks, which takes 7 of them.
fn is_row_of_two(alloc: Global, bytes: &[u8]) -> bool {
    let form = Form {
        workers: 2,
        real: 0,
        alone: true,
    };
    match read_next::<AnyJob>(alloc, form, bytes) {
        Ok(Some((Record::Slot { row }, 7))) => row.len() == 2,
        _ => false,
    }
}

// The head and the record of a frame, each read by itself.
#[test]
fn a_head_and_a_record(rt: HostRuntime) {
    let alloc = rt.alloc();
    let is_head = match read_head(2, &ONE_SLOT) {
        Some(head) => head.len == 7 && head.first == 1 && head.count == 1,
        None => false,
    };
    check(&rt, is_head, "head");
    check(&rt, read_head(2, &ONE_SLOT[..21]).is_none(), "21 bytes");
    check(&rt, is_row_of_two(alloc, &ONE_SLOT[15..]), "record");
    check(&rt, !is_row_of_two(alloc, &ONE_SLOT[16..]), "no tag");
}

/// The fault of the bytes, with the place.
fn fault_of(alloc: Global, bytes: &[u8]) -> Option<BatchFault> {
    read_batch::<AnyJob>(alloc, 2, 0, bytes).err()
}

/// Whether the bytes are no frame.
fn is_no_frame(alloc: Global, bytes: &[u8]) -> bool {
    let what = FramePart::Frame;
    fault_of(alloc, bytes) == Some(BatchFault::Damaged { at: 0, what })
}

/// Whether the bytes are a frame whose record at this place is none.
fn is_no_record(alloc: Global, bytes: &[u8], at: usize) -> bool {
    let what = FramePart::Record;
    fault_of(alloc, bytes) == Some(BatchFault::Damaged { at, what })
}

/// The frame of one slot with one byte changed.
fn with_byte(at: usize, byte: u8) -> [u8; 22] {
    let mut bytes = ONE_SLOT;
    if at < 22 {
        bytes[at] = byte;
    }
    bytes
}

/// The frame of one slot with this number, whose bytes are given.
fn with_number(number: &[u8; 8]) -> [u8; 22] {
    let mut bytes = ONE_SLOT;
    bytes[5..13].copy_from_slice(number);
    bytes
}

#[test]
fn faulty_heads(rt: HostRuntime) {
    let alloc = rt.alloc();
    check(&rt, is_no_frame(alloc, &[]), "no bytes");
    check(&rt, is_no_frame(alloc, &ONE_SLOT[..14]), "14 bytes");
    check(&rt, is_no_frame(alloc, &ONE_SLOT[..21]), "21 bytes");
    // The gate, the number 0, the count 0 and 17.
    for (at, byte) in [(0, 0xC2), (5, 0), (13, 0), (13, 17)] {
        check_at(&rt, is_no_frame(alloc, &with_byte(at, byte)), "byte", at);
    }
    let past = with_number(&[0, 0, 0, 0, 0, 0, 1, 0]);
    check(&rt, is_no_frame(alloc, &past), "the number 2^48");
    let last = with_number(&[255, 255, 255, 255, 255, 255, 0, 0]);
    check(&rt, fault_of(alloc, &last).is_none(), "the number 2^48 - 1");
}

fn is_no_row_of_three(alloc: Global) -> bool {
    let what = FramePart::Record;
    read_batch::<AnyJob>(alloc, 3, 0, &ONE_SLOT).err() == Some(BatchFault::Damaged { at: 15, what })
}

fn is_left_over(alloc: Global) -> Option<bool> {
    let mut longer = Vec::new(alloc);
    longer.extend_from_slice(&with_byte(1, 8)).ok()?;
    longer.push(0).ok()?;
    Some(is_no_record(alloc, &longer, 22))
}

fn is_no_state(alloc: Global) -> Option<bool> {
    let mut submit = Vec::new(alloc);
    submit
        .extend_from_slice(&[0xC3, 131, 0, 0, 0, 1, 0, 0, 0, 0, 0, 0, 0, 1, 0, 1, 0, 0])
        .ok()?;
    submit.extend_from_slice(&[0; 128]).ok()?;
    Some(is_no_record(alloc, &submit, 15))
}

#[test]
fn faulty_records(rt: HostRuntime) {
    let alloc = rt.alloc();
    // Other tags, another flag, a job that isn't there, rows that don't rise, a record that is missing.
    for (at, byte, place) in [
        (15, 4, 15),
        (15, 5, 15),
        (18, 2, 15),
        (18, 1, 15),
        (16, 1, 15),
        (16, 2, 15),
        (13, 2, 22),
    ] {
        let holds = is_no_record(alloc, &with_byte(at, byte), place);
        check_at(&rt, holds, "byte", at);
    }
    check(&rt, is_no_row_of_three(alloc), "a row of two of three");
    check(&rt, is_left_over(alloc) == Some(true), "a byte left over");
    check(&rt, is_no_record(alloc, &with_byte(1, 6), 15), "cut off");
    check(&rt, is_no_state(alloc) == Some(true), "no encoding");
}

/// The frame of command 4: from then on there is one worker, and each of three real tasks has the weight 1/3.
static NEW_WEIGHTS: [u8; 41] = [
    0xC3, 0x1A, 0, 0, 0, 4, 0, 0, 0, 0, 0, 0, 0, 1, 0, 4, 1, 1, 0, 0, 0, 3, 0, 0, 0, 1, 0, 0, 0, 3,
    0, 0, 0, 1, 0, 0, 0, 3, 0, 0, 0,
];

/// That record.
fn new_weights(alloc: Global) -> Option<Record<AnyJob>> {
    let weights = Vec::from_array(alloc, [(1, 3), (1, 3), (1, 3)]).ok()?;
    Some(Record::Reweigh {
        workers: 1,
        weights: Weights::new(weights),
    })
}

fn new_weights_are_written(alloc: Global) -> Option<bool> {
    let mut records = Vec::new(alloc);
    records.push(new_weights(alloc)?).ok()?;
    if !fits(2, 3, 4, &records) {
        return None;
    }
    let batch = Batch::new(2, 3, 4, records);
    Some(is_spelled(alloc, &batch, &NEW_WEIGHTS))
}

/// Whether new weights are a batch with another record, or where another number of tasks is real.
fn are_new_weights_elsewhere(alloc: Global) -> Option<bool> {
    let mut records = Vec::new(alloc);
    records.push(new_weights(alloc)?).ok()?;
    let other = fits(2, 0, 4, &records) || fits(2, 2, 4, &records) || fits(2, 4, 4, &records);
    records.push(Record::Withdraw { task: 0 }).ok()?;
    Some(other || fits(2, 3, 4, &records))
}

/// Whether the bytes are read as that record, all of them, and are written so again.
fn are_new_weights(alloc: Global, bytes: &[u8]) -> bool {
    match read_batch::<AnyJob>(alloc, 2, 3, bytes) {
        Ok((read, taken)) => {
            read.first == 4 && taken == bytes.len() && is_spelled(alloc, &read, bytes)
        }
        Err(_) => false,
    }
}

/// Whether so many real tasks make the frame's record faulty, at this place.
fn are_faulty(alloc: Global, real: u32, bytes: &[u8], at: usize) -> bool {
    let what = FramePart::Record;
    read_batch::<AnyJob>(alloc, 2, real, bytes).err() == Some(BatchFault::Damaged { at, what })
}

#[test]
fn weights_for_three_tasks(rt: HostRuntime) {
    let alloc = rt.alloc();
    let written = new_weights_are_written(alloc);
    check(&rt, written == Some(true), "written");
    let elsewhere = are_new_weights_elsewhere(alloc);
    check(&rt, elsewhere == Some(false), "nowhere else");
    check(&rt, are_new_weights(alloc, &NEW_WEIGHTS), "read");
    check(&rt, are_faulty(alloc, 0, &NEW_WEIGHTS, 15), "none is real");
    check(&rt, are_faulty(alloc, 2, &NEW_WEIGHTS, 33), "two are real");
    check(&rt, are_faulty(alloc, 4, &NEW_WEIGHTS, 15), "four are real");
    let mut two = NEW_WEIGHTS;
    two[13] = 2;
    check(&rt, are_faulty(alloc, 3, &two, 15), "one of two");
}

/// So many times task 7's job taken away.
fn withdraws(alloc: Global, number: usize) -> Vec<Record<AnyJob>> {
    let mut records = Vec::new(alloc);
    for _ in 0..number {
        let _ = records.push(Record::Withdraw { task: 7 });
    }
    records
}

/// Whether so many records are there, and whether they are a batch is as wanted.
fn is_batch_of(alloc: Global, number: usize, wanted: bool) -> bool {
    let records = withdraws(alloc, number);
    records.len() == number && fits(2, 0, 1, &records) == wanted
}

/// Whether 16 records are a batch as wanted.
fn are_16_batch(alloc: Global, workers: u32, first: u64, wanted: bool) -> bool {
    let records = withdraws(alloc, 16);
    records.len() == 16 && fits(workers, 0, first, &records) == wanted
}

/// Whether the slot of two tasks is a batch of two workers as wanted, and none of one or three.
fn is_row_as(alloc: Global, first: u16, second: u16, wanted: bool) -> bool {
    let mut records = Vec::new(alloc);
    let Some(record) = slot_of(alloc, first, None, second) else {
        return false;
    };
    if records.push(record).is_err() {
        return false;
    }
    fits(2, 0, 1, &records) == wanted && !fits(1, 0, 1, &records) && !fits(3, 0, 1, &records)
}

#[test]
fn what_is_a_batch(rt: HostRuntime) {
    let alloc = rt.alloc();
    check(&rt, is_batch_of(alloc, 0, false), "no record");
    for number in 1..17 {
        check_at(&rt, is_batch_of(alloc, number, true), "records", number);
    }
    check(&rt, is_batch_of(alloc, 17, false), "17 records");
    let last = (1 << 48) - 16;
    check(&rt, are_16_batch(alloc, 64, last, true), "last numbers");
    check(
        &rt,
        are_16_batch(alloc, 2, last + 1, false),
        "past the last",
    );
    check(&rt, are_16_batch(alloc, 2, 0, false), "the number 0");
    check(&rt, are_16_batch(alloc, 0, 1, false), "no workers");
    check(&rt, are_16_batch(alloc, 65, 1, false), "65 workers");
    check(&rt, is_row_as(alloc, 0, 1, true), "a rising row");
    check(&rt, is_row_as(alloc, 1, 0, false), "a falling row");
    check(&rt, is_row_as(alloc, 3, 3, false), "a task twice");
}
