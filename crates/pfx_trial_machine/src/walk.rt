//! Worked walks, a job kind of one's own.

use pfx_jobs::job::{Job, JobFault, are_same};
use pfx_jobs::quantum::{Done, Quantum};
use pfx_kinds_walk::walk::Walk;

fn encoded(job: &Walk) -> [u8; 128] {
    let mut bytes = [0; 128];
    job.encode(&mut bytes);
    bytes
}

/// Whether the walk has a step to take, and then stands so.
fn steps_to(walk: &mut Walk, left: u32, seed: u64, place: u64) -> bool {
    if walk.is_done() {
        return false;
    }
    walk.step();
    walk.left() == left && walk.seed == seed && walk.place == place
}

/// The first of three steps that doesn't lead where it should, 4 if the walk isn't done after them, and 0 if all is
/// right.
fn first_wrong_step() -> u32 {
    let mut walk = Walk::new(3, 0);
    if !steps_to(&mut walk, 2, 1442695040888963407, u64::MAX) {
        return 1;
    }
    if !steps_to(&mut walk, 1, 1876011003808476466, u64::MAX - 1) {
        return 2;
    }
    if !steps_to(&mut walk, 0, 11166244414315200793, u64::MAX) {
        return 3;
    }
    if walk.is_done() { 0 } else { 4 }
}

/// The numbers drawn are those of the published generator from 0 on.
#[test]
fn walks(rt: HostRuntime) {
    let wrong = first_wrong_step();
    assert!(rt; wrong == 0, "step {wrong}");
}

/// Whether the walk's encoding is 200 and then the bytes from 1 to 12, followed by zeros.
fn is_written_in_order(bytes: &[u8; 128]) -> bool {
    for (i, byte) in bytes.iter().enumerate() {
        let want = match i {
            0 => 200,
            1..=12 => i,
            _ => 0,
        };
        if usize::from(*byte) != want {
            return false;
        }
    }
    true
}

/// Whether the encoding, changed to this value at a byte, is read where it should be, as what is written so.
fn is_read_rightly(bytes: &[u8; 128], at: usize, value: u8) -> bool {
    if at >= 128 {
        return false;
    }
    let mut changed = *bytes;
    changed[at] = value;
    match Walk::decode(&changed) {
        Ok(walk) => (0 < at && at < 21 || changed == *bytes) && encoded(&walk) == changed,
        Err(fault) => (at == 0 || 21 <= at) && fault == JobFault::BadState,
    }
}

/// Each byte of an encoding is set to each value: if it is past the numbers, or the first byte, no other value is
/// read.
#[test]
fn reads_encodings_alone(rt: HostRuntime) {
    let bytes = encoded(&Walk::new(0x04030201, 0x0c0b0a0908070605));
    assert!(rt; is_written_in_order(&bytes));
    for at in 0..128usize {
        for value in 0..=255u8 {
            assert!(rt; is_read_rightly(&bytes, at, value), "{value} at {at}");
        }
    }
}

/// Whether the result of the walk's step has the quantum's numbers, and the walk before and after it.
fn is_result(done: &Done<Walk>, walk: &Walk) -> bool {
    done.number == 7
        && done.slot == 5
        && done.task == 2
        && are_same(&done.before, walk)
        && done.after.left == 0
        && done.after.seed == 10481999410520546993
        && done.after.place == 1
}

/// Whether a walk's step gives its result, which answers its quantum.
fn runs_one() -> bool {
    let walk = Walk::new(1, 42);
    let done = Quantum::new(7, 5, 2, walk.copy_of()).run();
    is_result(&done, &walk) && done.answers(&Quantum::new(7, 5, 2, walk))
}

#[test]
fn runs_a_quantum(rt: HostRuntime) {
    assert!(rt; runs_one());
}
