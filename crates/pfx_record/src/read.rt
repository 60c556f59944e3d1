// Reading a batch.
ghost use Rattle.std.specs.Prelude.{◌≡◌, ◌≤◌, ◌<◌, ◌+◌, ◌^◌, ℕ, length, drop, map, IfOk, IfErr, IfSome, IfNone, IsTrue};
ghost use Rattle.byteorder.specs.Endian.{little_number};
ghost use Rattle.pfx_record.specs.Batches.{batch_of};
ghost use Rattle.pfx_record.specs.Begins.{Begins};
ghost use Rattle.pfx_record.specs.Numbers.{number_bytes};
ghost use Rattle.pfx_record.specs.Records.{plain};
ghost use Rattle.pfx_record.specs.Reading.{AreRecords, IsBatch, IsDamaged, IsHead, IsRecord, NoBatch, NoRecord, OnDamage, StopAt};

use crate::batch::{Batch, counts_fit};
use crate::faults::{BatchFault, FramePart};
use crate::form::Form;
use crate::numbers::{u16_at, u32_at, u64_at};
use crate::read_record::read_record;
use crate::record::Record;
use pfx_disk::GATE_OPEN;
use pfx_jobs::job::Job;
use pfx_segment::frame::{COUNT_AT, FIRST_AT, FRAME_HEAD, LENGTH_AT};
use std::alloc::{AllocError, Global};

/// The head of a frame.
#[derive(Drop)]
pub struct FrameHead {
    /// How long its records are.
    pub len: u32,
    /// The number of its first command.
    pub first: u64,
    /// How many commands it has.
    pub count: u16,
}

/// What a frame's head says, whatever that is. Heads are read here alone; how long a frame is, its own crate tells too.
pub fn head_of(bytes: &[u8]) -> FrameHead
    requires { FRAME_HEAD ≤ length bytes.now }
    ensures len_at { Begins (drop 1 bytes.now) (number_bytes 4 result.len) }
    ensures first_at { Begins (drop 5 bytes.now) (number_bytes 8 result.first) }
    ensures count_at { Begins (drop 13 bytes.now) (number_bytes 2 result.count) }
    ensures first { result.first ≡ little_number 8 (drop 5 bytes.now) }
    ensures count { result.count ≡ little_number 2 (drop 13 bytes.now) }
{
    let len = u32_at(bytes, LENGTH_AT);
    let first = u64_at(bytes, FIRST_AT);
    let count = u16_at(bytes, COUNT_AT);
    FrameHead { len, first, count }
}

/// The head that bytes begin with, if they are as long as the frame.
pub fn read_head(workers: u32, bytes: &[u8]) -> Option<FrameHead>
    ensures found { IfSome result (λ head. IsHead workers bytes.now head.len head.first head.count) }
    ensures none { IfNone result ((len first count : ℕ) → IsHead workers bytes.now len first count → ⊥) }
{
    if bytes.len() < FRAME_HEAD {
        return None;
    }
    if bytes[0] != GATE_OPEN {
        return None;
    }
    let head = head_of(bytes);
    if bytes.len() - FRAME_HEAD < head.len as usize {
        return None;
    }
    if !counts_fit(workers, head.first, u64::from(head.count)) {
        return None;
    }
    Some(head)
}

/// The record of this form that bytes begin with, and how many bytes it takes.
pub fn read_next<J: Job>(
    alloc: Global,
    form: Form,
    bytes: &[u8],
) -> Result<Option<(Record<J>, usize)>, AllocError>
    requires { form.workers ≤ 64 }
    ensures found { IfOk result (λ read. IfSome read (λ f. IsRecord J.kind form bytes.now (plain f.0) f.1)) }
    ensures none { IfOk result (λ read. IfNone read (NoRecord J.kind form bytes.now)) }
{
    read_record(alloc, form, bytes)
}

// So many records, which fill the body.
fn read_records<J: Job>(
    alloc: Global,
    form: Form,
    count: u16,
    body: &[u8],
) -> Result<Vec<Record<J>>, BatchFault>
    requires few { form.workers ≤ 64 }
    requires short { 15 + length body.now < 2 ^ 64 }
    ensures found { IfOk result (λ records.
        AreRecords J.kind form body.now count (map plain records.items)) }
    ensures stops { IfErr result (λ fault. OnDamage fault (StopAt J.kind form body.now count)) }
{
    let mut records = Vec::with_capacity(alloc, usize::from(count))?;
    let mut at = 0;
    for i in 0..count {
        match read_record(alloc, form, &body[at..])? {
            None => {
                return Err(BatchFault::Damaged {
                    at: FRAME_HEAD + at,
                    what: FramePart::Record,
                });
            }
            Some((record, taken)) => {
                at += taken;
                records.push_reserved(record);
            }
        }
    }
    if at < body.len() {
        return Err(BatchFault::Damaged {
            at: FRAME_HEAD + at,
            what: FramePart::Record,
        });
    }
    Ok(records)
}

/// The batch that bytes begin with, if rows have so many tasks and so many tasks are real, and how many bytes it takes.
///
/// `Damaged` says that the bytes begin with no batch. Its place is 0, with `Frame`, where they begin with no head of a
/// frame or are shorter than it says; else, with `Record`, that of the first record that is faulty or missing, or of
/// the first byte that is left over behind the last one.
pub fn read_batch<J: Job>(
    alloc: Global,
    workers: u32,
    real: u32,
    bytes: &[u8],
) -> Result<(Batch<J>, usize), BatchFault>
    ensures found { IfOk result (λ read.
        IsBatch J.kind workers real bytes.now (batch_of read.0.first read.0.records.items) read.1) }
    ensures workers { IfOk result (λ read. read.0.workers ≡ workers) }
    ensures real { IfOk result (λ read. read.0.real ≡ real) }
    ensures none { IfErr result (λ fault. OnDamage fault (λ at what. NoBatch J.kind workers real bytes.now)) }
    ensures place { IfErr result (λ fault. OnDamage fault (IsDamaged J.kind workers real bytes.now)) }
{
    match read_head(workers, bytes) {
        None => Err(BatchFault::Damaged {
            at: 0,
            what: FramePart::Frame,
        }),
        Some(head) => {
            let end = FRAME_HEAD + head.len as usize;
            let form = Form {
                workers,
                real,
                alone: head.count == 1,
            };
            match read_records(alloc, form, head.count, &bytes[FRAME_HEAD..end]) {
                Err(fault) => Err(fault),
                Ok(records) => {
                    let batch = Batch {
                        workers,
                        real,
                        first: head.first,
                        records,
                    };
                    Ok((batch, end))
                }
            }
        }
    }
}
