// The state that a log begins at, read.
ghost use Rattle.std.specs.Prelude.{◌≡◌, ◌≤◌, length, IfOk};
ghost use Rattle.pfx_checkpoint.specs.Whole.{read_whole, whole_len};
ghost use Rattle.pfx_replay_audit.specs.Starts.{is_long, read_start, real_in, segment_in, state_in};

use byteorder::{ByteOrder, LittleEndian};
use pfx_checkpoint::{CheckpointFault, read_whole, whole_len};
use pfx_jobs::job::Job;
use pfx_machine::State;
use std::alloc::{AllocError, Global};

/// The version of a store's file whose states and frames are audited.
const STORE_VERSION: u8 = 2;

/// How many bytes a state has beside those of a checkpoint area: how long a segment of the store is.
const SEGMENT: usize = 4;

/// How many bytes each real task takes.
const EACH: usize = 145;

// How many real tasks a state of so many bytes has.
fn real_in(len: usize) -> usize
    ensures { result ≡ real_in len }
{
    len.saturating_sub(whole_len(0) + SEGMENT) / EACH
}

// Whether there are just as many bytes as the state of some real tasks takes.
fn is_long(len: usize) -> bool
    ensures { result ≡ is_long len }
{
    let real = real_in(len);
    real <= 1024 && len == whole_len(real) + SEGMENT
}

// How many bytes a segment of the store has.
fn segment_in(bytes: &[u8]) -> u32
    requires { 4 ≤ length bytes.now }
    ensures { result ≡ segment_in bytes.now }
{
    LittleEndian::read_u32(&bytes[bytes.len() - SEGMENT..])
}

// The state of so many real tasks, or `None` if the bytes are none's.
fn whole_in<J: Job>(
    alloc: Global,
    real: usize,
    segment: u32,
    bytes: &[u8],
) -> Result<Option<State<J>>, AllocError>
    requires few { real ≤ 1024 }
    requires long { length bytes.now ≡ whole_len real }
    ensures { IfOk result (λ state. state ≡ read_whole J.kind real segment bytes.now) }
{
    match read_whole(alloc, real, segment, bytes) {
        Ok(state) => Ok(Some(state)),
        Err(CheckpointFault::Damaged) => Ok(None),
        Err(CheckpointFault::NoMemory) => Err(AllocError),
    }
}

// The state that these bytes are, or `None` if they are none.
fn state_in<J: Job>(alloc: Global, bytes: &[u8]) -> Result<Option<State<J>>, AllocError>
    ensures { IfOk result (λ state. state ≡ state_in J.kind bytes.now) }
{
    if !is_long(bytes.len()) {
        return Ok(None);
    }
    let body = &bytes[..bytes.len() - SEGMENT];
    whole_in(alloc, real_in(bytes.len()), segment_in(bytes), body)
}

/// The state that a log with this store's version and these bytes begins at, or `None` if it is of another version, or the bytes are no
/// state's: those of a checkpoint area, and behind them, in four bytes, how long a segment of the store is. An error comes only if an
/// allocation failed.
pub fn read_start<J: Job>(
    alloc: Global,
    version: u8,
    bytes: &[u8],
) -> Result<Option<State<J>>, AllocError>
    ensures { IfOk result (λ state. state ≡ read_start J.kind version bytes.now) }
{
    if version != STORE_VERSION {
        return Ok(None);
    }
    state_in(alloc, bytes)
}
