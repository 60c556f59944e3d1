//! A state as bytes.

ghost use Rattle.std.specs.Prelude.{◌≡◌, ◌+◌, ◌≤◌, ◌<◌, ◌*◌, ◌∷◌, ◌++◌, length, take, Some};
ghost use Rattle.byteorder.specs.Endian.{little_bytes};
ghost use Rattle.pfx_columns.specs.Ledgers.{total};
ghost use Rattle.pfx_checkpoint.specs.Spelling.{job_bytes, front_bytes, state_bytes, place_of, state_len};

use byteorder::{ByteOrder, LittleEndian};
use pfx_jobs::job::Job;
use pfx_machine::State;
use pfx_weights::TaskSet;

/// How many bytes the numbers at the front of a state take: the last command's, and the slot.
pub(crate) const FRONT: usize = 16;

/// How many bytes the place of a job takes: a flag, and the job in 128.
pub(crate) const FLAGGED: usize = 129;

/// How many bytes a real task takes: its allocations in eight, and the place of its job.
pub(crate) const REAL: usize = 137;

/// Where a task begins, if so many are real.
pub(crate) fn place_of(real: usize, task: usize) -> usize
    requires real { real ≤ 1024 }
    requires few { task ≤ 1152 }
    ensures { result ≡ place_of real task }
{
    if task < real {
        FRONT + REAL * task
    } else {
        FRONT + REAL * real + 8 * (task - real)
    }
}

/// How many bytes the states of a set take: 16, 137 for each real task and 8 for each idle one.
pub fn state_len(set: &TaskSet) -> usize
    ensures { result ≡ state_len set.now }
{
    let _total = set.total();
    place_of(set.real(), set.total())
}

/// How many bytes a state takes: those of its set.
pub fn frozen_len<J: Job>(state: &State<J>) -> usize
    ensures { result ≡ state_len state.now.ledger.set }
{
    let _number = state.number();
    let _total = state.columns().total();
    place_of(state.columns().real(), state.columns().total())
}

/// Writes a number at a place.
pub(crate) fn put_number(bytes: &mut [u8], at: usize, number: u64)
    requires { at + 8 ≤ length bytes.old }
    ensures front { take (at + 8) bytes.new ≡ take at bytes.old ++ little_bytes 8 number }
    ensures long { length bytes.new ≡ length bytes.old }
{
    LittleEndian::write_u64(&mut bytes[at..at + 8], number);
}

/// Writes a flag and 128 bytes at a place.
fn put_flagged(bytes: &mut [u8], at: usize, flag: u8, spelled: &[u8; 128])
    requires { at + 129 ≤ length bytes.old }
    ensures front { take (at + 129) bytes.new ≡ take at bytes.old ++ flag ∷ spelled.now }
    ensures long { length bytes.new ≡ length bytes.old }
{
    bytes[at] = flag;
    bytes[at + 1..at + FLAGGED].copy_from_slice(spelled);
}

/// Writes a task's job at its place: a flag and 128 bytes.
fn put_job<J: Job>(bytes: &mut [u8], at: usize, place: &Option<J>)
    requires { at + 129 ≤ length bytes.old }
    ensures front { take (at + 129) bytes.new ≡ take at bytes.old ++ job_bytes J.kind (Some place.now) }
    ensures long { length bytes.new ≡ length bytes.old }
{
    let mut spelled = [0; 128];
    match place {
        Some(job) => {
            job.encode(&mut spelled);
            put_flagged(bytes, at, 1, &spelled);
        }
        None => put_flagged(bytes, at, 0, &spelled),
    }
}

/// Writes one task, where those before it stand.
fn put_task<J: Job>(state: &State<J>, task: usize, bytes: &mut [u8])
    requires within { task < total state.now.ledger }
    requires long { length bytes.old ≡ state_len state.now.ledger.set }
    requires front { take (place_of state.now.ledger.set.real task) bytes.old ≡ front_bytes J.kind state.now task }
    ensures front { take (place_of state.now.ledger.set.real (task + 1)) bytes.new ≡ front_bytes J.kind state.now (task + 1) }
    ensures long { length bytes.new ≡ length bytes.old }
{
    let _number = state.number();
    let _total = state.columns().total();
    let at = place_of(state.columns().real(), task);
    put_number(bytes, at, state.columns().alloc(task));
    if task < state.columns().real() {
        put_job(bytes, at + 8, &state.jobs()[task]);
    }
}

/// Writes the state, which fills the bytes: as many as `frozen_len` says. It takes no memory.
pub fn freeze<J: Job>(state: &State<J>, bytes: &mut [u8])
    requires { length bytes.old ≡ state_len state.now.ledger.set }
    ensures { bytes.new ≡ state_bytes J.kind state.now }
{
    let _number = state.number();
    put_number(bytes, 0, state.number());
    put_number(bytes, 8, state.columns().slot());
    for task in 0..state.columns().total() {
        put_task(state, task, bytes);
    }
}
