// Frames, read and taken over.
ghost use Rattle.std.specs.Prelude.{◌≡◌, ◌≤◌, ◌<◌, ◌+◌, ◌^◌, ℕ, length, drop, IfOk, IsTrue, IsFalse, Some, None};
ghost use Rattle.byteorder.specs.Endian.{little_number};
ghost use Rattle.pfx_store_format.specs.Frames.{number_after, state_after};
ghost use Rattle.pfx_store_format.specs.Taking.{AreTaken, AreWrong};

use crate::idle::{idle_len, pass_idle};
use byteorder::{ByteOrder, LittleEndian};
use pfx_jobs::job::Job;
use pfx_machine::State;
use pfx_record::{Form, head_of, read_head, read_next};
use pfx_record_redo::apply_reweigh;
use pfx_segment::frame::FRAME_HEAD;
use std::alloc::{AllocError, Global};

/// The number of eight bytes, the lowest first.
pub fn number_of(bytes: &[u8; 8]) -> u64
    ensures { result ≡ little_number 8 bytes.now }
{
    LittleEndian::read_u64(bytes)
}

/// The number of a frame's last command, or `None` if its head isn't right after this number: there are 1 to 16
/// commands, the first has the next number, and none has one above 2^48 - 1.
#[tactic(auto, unfolding(crate::specs::Frames::number_after))]
pub fn number_after(last: u64, frame: &[u8]) -> Option<u64>
    requires { last < 2 ^ 48 }
    ensures { result ≡ number_after last frame.now }
{
    if frame.len() < FRAME_HEAD {
        return None;
    }
    let head = head_of(frame);
    if head.count == 0 || head.count > 16 {
        return None;
    }
    if head.first != last + 1 {
        return None;
    }
    let next = last + u64::from(head.count);
    if next >= 1 << 48 { None } else { Some(next) }
}

// Takes over so many records, which fill the body. If one isn't right where it comes, or they don't fill it, the answer is
// `false`, and the state is that after those before.
fn take_records<J: Job>(
    alloc: Global,
    state: &mut State<J>,
    form: Form,
    count: u16,
    body: &[u8],
) -> Result<bool, AllocError>
    requires few { form.workers ≤ 64 }
    ensures taken { IfOk result (λ right. IsTrue right → AreTaken J.kind form body.now count state.old state.new) }
    ensures wrong { IfOk result (λ right. IsFalse right → AreWrong J.kind form body.now count state.old) }
{
    let mut at = 0;
    for i in 0..count {
        if pass_idle(state, form, &body[at..]) {
            at += idle_len(form.workers);
            continue;
        }
        match read_next(alloc, form, &body[at..])? {
            None => return Ok(false),
            Some((entry, taken)) => {
                let right = apply_reweigh(alloc, state, &entry)?;
                if !right {
                    return Ok(false);
                }
                at += taken;
            }
        }
    }
    if at < body.len() {
        return Ok(false);
    }
    Ok(true)
}

/// Takes over a frame. If its head isn't right after the state's number, or a record of it isn't right where it comes, the
/// answer is `false`, and the state is that of the records before. An error comes only if an allocation failed.
pub fn apply_frame<J: Job>(
    alloc: Global,
    state: &mut State<J>,
    frame: &[u8],
) -> Result<bool, AllocError>
    ensures taken { IfOk result (λ right. IsTrue right → state_after J.kind state.old frame.now ≡ Some state.new) }
    ensures wrong { IfOk result (λ right. IsFalse right → state_after J.kind state.old frame.now ≡ None) }
{
    match number_after(state.number(), frame) {
        None => return Ok(false),
        Some(_) => (),
    }
    let _total = state.columns().total();
    let workers = state.columns().workers();
    let real = state.columns().real() as u32;
    match read_head(workers, frame) {
        None => Ok(false),
        Some(head) => {
            let end = FRAME_HEAD + head.len as usize;
            if end != frame.len() {
                return Ok(false);
            }
            let form = Form {
                workers,
                real,
                alone: head.count == 1,
            };
            take_records(alloc, state, form, head.count, &frame[FRAME_HEAD..end])
        }
    }
}
