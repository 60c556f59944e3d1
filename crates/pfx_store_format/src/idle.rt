// Slots in which no task has a state recorded, as those of stores without jobs: their rows are read without a list of places.
ghost use Rattle.std.specs.Prelude.{◌≡◌, ◌≤◌, ◌+◌, ◌*◌, slice_get, not, IsTrue, IsFalse};
ghost use Rattle.std.specs.List.{list_all};
ghost use Rattle.pfx_machine.specs.Jobs.{is_busy};
ghost use Rattle.pfx_record.specs.Reading.{IsRecord};
ghost use Rattle.pfx_record.specs.Records.{ran};
ghost use Rattle.pfx_store_format.specs.Idle.{idle, idle_len, IsPassed};

use byteorder::{ByteOrder, LittleEndian};
use pfx_jobs::job::Job;
use pfx_machine::{State, is_busy};
use pfx_record::Form;
use pfx_weights::Row;

/// How many bytes the record of such a slot takes.
pub(crate) fn idle_len(workers: u32) -> usize
    ensures { result ≡ idle_len workers }
{
    1 + 3 * workers as usize
}

// Whether the bytes begin with a slot's record in which no task has a state, whose row then becomes the given one.
fn read_idle<J: Job>(form: Form, bytes: &[u8], row: &mut Row) -> bool
    requires few { form.workers ≤ 64 }
    ensures { IsTrue result → IsRecord J.kind form bytes.now (ran (idle row.new)) (idle_len form.workers) }
{
    if bytes.len() < idle_len(form.workers) || bytes[0] != 2 {
        return false;
    }
    let count = form.workers as usize;
    let mut tasks = [0; 64];
    let mut low: u32 = 0;
    for i in 0..count {
        let at = 1 + 3 * i;
        let task = LittleEndian::read_u16(&bytes[at..]);
        if u32::from(task) < low || bytes[at + 2] != 0 {
            return false;
        }
        tasks[i] = task;
        low = u32::from(task) + 1;
    }
    row.set(&tasks[..count]);
    true
}

// Whether none of these tasks has an unfinished job.
fn are_idle<J: Job>(jobs: &[Option<J>], tasks: &[u16]) -> bool
    ensures { result ≡ list_all (λ task. not (is_busy J.kind (slice_get jobs.now task))) tasks.now }
{
    for task in tasks {
        if is_busy(jobs, *task) {
            return false;
        }
    }
    true
}

/// Takes over the slot's record that the bytes begin with, if no task of its row has a state, and it is right at the state.
/// Else nothing changes.
pub(crate) fn pass_idle<J: Job>(state: &mut State<J>, form: Form, bytes: &[u8]) -> bool
    requires few { form.workers ≤ 64 }
    ensures taken { IsTrue result → IsPassed J.kind form bytes.now state.old state.new }
    ensures kept { IsFalse result → state.new ≡ state.old }
{
    let _total = state.columns().total();
    if state.number() >= (1 << 48) - 1 {
        return false;
    }
    let mut row = Row::empty();
    if !read_idle::<J>(form, bytes, &mut row) {
        return false;
    }
    if !are_idle(state.jobs(), row.as_slice()) {
        return false;
    }
    if !state.pass_row(&row) {
        return false;
    }
    state.count();
    true
}
