// Reading one record.
ghost use Rattle.std.specs.Prelude.{◌≡◌, ◌≤◌, ◌<◌, ◌+◌, ◌*◌, ◌^◌, length, drop, slice_index, IfOk, IfSome, IfNone};
ghost use Rattle.pfx_weights.specs.Bytes.{weight_of, weights_of};
ghost use Rattle.pfx_record.specs.Begins.{Begins};
ghost use Rattle.pfx_record.specs.Records.{place_bytes, plain, ran};
ghost use Rattle.pfx_record.specs.Reading.{IsRecord, NoRecord};
ghost use Rattle.pfx_record.specs.declared.form.Form.{Form};

use crate::batch::takes_weights;
use crate::form::Form;
use crate::numbers::{u16_at, u32_at};
use crate::record::{FULL_PLACE, GIVEN, Place, Record, WEIGHT};
use pfx_jobs::job::Job;
use pfx_weights::Weights;
use std::alloc::{AllocError, Global};

// The state that stands at this place.
fn state_at<J: Job>(bytes: &[u8], at: usize) -> Option<J>
    requires { at + 128 ≤ length bytes.now }
    ensures found { IfSome result (λ s. Begins (drop at bytes.now) (J.kind.spelling s)) }
    ensures none { IfNone result ((s : J) → Begins (drop at bytes.now) (J.kind.spelling s) → ⊥) }
{
    let mut state = [0; 128];
    state.copy_from_slice(&bytes[at..at + 128]);
    J::decode(&state).ok()
}

// A task of a row, from this number on, and how many bytes it takes.
fn place_at<J: Job>(bytes: &[u8], at: usize, low: u32) -> Option<(Place<J>, usize)>
    requires { at ≤ length bytes.now }
    ensures low { IfSome result (λ found. low ≤ found.0.task) }
    ensures small { IfSome result (λ found. found.0.task < 2 ^ 16) }
    ensures inside { IfSome result (λ found. at + found.1 ≤ length bytes.now) }
    ensures found { IfSome result (λ found. Begins (drop at bytes.now) (place_bytes J.kind found.0)) }
    ensures long { IfSome result (λ found. found.1 ≡ length (place_bytes J.kind found.0)) }
    ensures none { IfNone result ((place : Place J) → low ≤ place.task → place.task < 2 ^ 16
        → Begins (drop at bytes.now) (place_bytes J.kind place) → ⊥) }
{
    if bytes.len() - at < 3 {
        return None;
    }
    let task = u16_at(bytes, at);
    if u32::from(task) < low {
        return None;
    }
    if bytes[at + 2] == 0 {
        return Some((Place { task, state: None }, 3));
    }
    if bytes[at + 2] != 1 {
        return None;
    }
    if bytes.len() - at < FULL_PLACE {
        return None;
    }
    match state_at(bytes, at + 3) {
        None => None,
        Some(state) => {
            let state = Some(state);
            Some((Place { task, state }, FULL_PLACE))
        }
    }
}

// The record of a slot, if the bytes have its tag, and how many bytes it takes.
fn read_row<J: Job>(
    alloc: Global,
    form: Form,
    bytes: &[u8],
) -> Result<Option<(Vec<Place<J>>, usize)>, AllocError>
    requires some { 0 < length bytes.now }
    requires tag { slice_index bytes.now 0 ≡ 2 }
    requires few { form.workers ≤ 64 }
    ensures found { IfOk result (λ read. IfSome read (λ f.
        IsRecord J.kind form bytes.now (ran f.0.items) f.1)) }
    ensures none { IfOk result (λ read. IfNone read (NoRecord J.kind form bytes.now)) }
{
    let workers = form.workers;
    let mut row = Vec::with_capacity(alloc, workers as usize)?;
    let mut at = 1;
    let mut low: u32 = 0;
    for i in 0..workers {
        match place_at(bytes, at, low) {
            None => return Ok(None),
            Some((place, taken)) => {
                at += taken;
                low = u32::from(place.task) + 1;
                row.push_reserved(place);
            }
        }
    }
    Ok(Some((row, at)))
}

// The record of a job given, if the bytes have its tag, and how many bytes it takes.
fn read_submit<J: Job>(bytes: &[u8]) -> Option<(Record<J>, usize)>
    requires some { 0 < length bytes.now }
    requires tag { slice_index bytes.now 0 ≡ 1 }
    ensures found { (form : Form) → IfSome result (λ f. IsRecord J.kind form bytes.now (plain f.0) f.1) }
    ensures none { (form : Form) → IfNone result (NoRecord J.kind form bytes.now) }
{
    if bytes.len() < GIVEN {
        return None;
    }
    let task = u16_at(bytes, 1);
    match state_at(bytes, 3) {
        None => None,
        Some(job) => Some((Record::Submit { task, job }, GIVEN)),
    }
}

// The record of a job taken away, if the bytes have its tag, and how many bytes it takes.
fn read_withdraw<J: Job>(bytes: &[u8]) -> Option<(Record<J>, usize)>
    requires some { 0 < length bytes.now }
    requires tag { slice_index bytes.now 0 ≡ 3 }
    ensures found { (form : Form) → IfSome result (λ f. IsRecord J.kind form bytes.now (plain f.0) f.1) }
    ensures none { (form : Form) → IfNone result (NoRecord J.kind form bytes.now) }
{
    if bytes.len() < 3 {
        return None;
    }
    let task = u16_at(bytes, 1);
    Some((Record::Withdraw { task }, 3))
}

// The weight that stands at this place.
fn weight_at(bytes: &[u8], at: usize) -> (u32, u32)
    requires { at + 8 ≤ length bytes.now }
    ensures { result ≡ weight_of (drop at bytes.now) }
{
    (u32_at(bytes, at), u32_at(bytes, at + 4))
}

// So many weights, behind the tag and the workers.
fn weights_at(alloc: Global, real: u32, bytes: &[u8]) -> Result<Vec<(u32, u32)>, AllocError>
    requires { 2 + 8 * real ≤ length bytes.now }
    ensures { IfOk result (λ weights. weights.items ≡ weights_of real (drop 2 bytes.now)) }
{
    let count = real as usize;
    let mut weights = Vec::with_capacity(alloc, count)?;
    for task in 0..count {
        weights.push(weight_at(bytes, 2 + WEIGHT * task))?;
    }
    Ok(weights)
}

// The record of new weights, if the bytes have its tag, and how many bytes it takes.
fn read_reweigh<J: Job>(
    alloc: Global,
    form: Form,
    bytes: &[u8],
) -> Result<Option<(Record<J>, usize)>, AllocError>
    requires some { 0 < length bytes.now }
    requires tag { slice_index bytes.now 0 ≡ 4 }
    ensures found { IfOk result (λ read. IfSome read (λ f. IsRecord J.kind form bytes.now (plain f.0) f.1)) }
    ensures none { IfOk result (λ read. IfNone read (NoRecord J.kind form bytes.now)) }
{
    if !takes_weights(form) {
        return Ok(None);
    }
    let long = 2 + WEIGHT * form.real as usize;
    if bytes.len() < long {
        return Ok(None);
    }
    let workers = bytes[1];
    let weights = Weights::new(weights_at(alloc, form.real, bytes)?);
    Ok(Some((Record::Reweigh { workers, weights }, long)))
}

/// The record of this form that the bytes begin with, and how many bytes it takes. Rows have 64 tasks at the most. `None` if they
/// begin with none; `AllocError` only if an allocation failed.
pub fn read_record<J: Job>(
    alloc: Global,
    form: Form,
    bytes: &[u8],
) -> Result<Option<(Record<J>, usize)>, AllocError>
    requires { form.workers ≤ 64 }
    ensures found { IfOk result (λ read. IfSome read (λ f. IsRecord J.kind form bytes.now (plain f.0) f.1)) }
    ensures none { IfOk result (λ read. IfNone read (NoRecord J.kind form bytes.now)) }
{
    if bytes.is_empty() {
        return Ok(None);
    }
    match bytes[0] {
        1 => Ok(read_submit(bytes)),
        2 => match read_row(alloc, form, bytes)? {
            Some((row, taken)) => Ok(Some((Record::Slot { row }, taken))),
            None => Ok(None),
        },
        3 => Ok(read_withdraw(bytes)),
        4 => read_reweigh(alloc, form, bytes),
        _ => Ok(None),
    }
}
