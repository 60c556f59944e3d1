//! A device that fails in the first append: clients are told, and the store has what it had.

use crate::answers::{is_number, is_refused};
use crate::fronts::{Ended, have_looked};
use crate::service::{Ask, Service};
use crate::sessions::{Session, Visit, alone, on_disk};
use crate::stores::{SEGMENT, memory};
use pfx_book::note::Loss;
use pfx_disk::FaultDisk;
use pfx_fault::Cause;
use pfx_front::faults::CallFault;
use std::alloc::Global;
use std::sync::Wait;
use std::thread::Threads;
use std::time::Clock;

/// The first sync of the first append, after the calls that make the file.
const FIRST_SYNC: u64 = 12;

/// Whether a slot is answered, its receipt refused for the device, and the next slot too.
fn is_told<F: Service, R: Wait>(rt: &R, alloc: Global, front: &F, pass: &mut F::Pass) -> bool {
    let failed = CallFault::StoreFailed {
        marked: 0,
        cause: Cause::Device,
    };
    let told = Loss {
        marked: 0,
        cause: Cause::Device,
    };
    let slot = front.asks(rt, alloc, pass, Ask::Slot);
    let lost = front.settle(rt, pass) == Some(Err(failed));
    let next = front.asks(rt, alloc, pass, Ask::Slot);
    is_number(&slot, 1) && lost && is_refused(&next, failed) && front.lost(pass) == Some(told)
}

/// Whether the client is told.
pub fn visit<F: Service, R: Wait>(rt: &R, alloc: Global, front: &F) -> Option<Visit<F::Pass>> {
    let mut pass = front.admit(rt)?;
    let told = is_told(rt, alloc, front, &mut pass);
    alone(alloc, told, pass)
}

/// Whether the store has nothing but what it began with, and the reader saw that.
pub fn has_ended(ended: &Ended) -> bool {
    let failed = ended.failure == Some(Cause::Device) && ended.broken;
    have_looked(&ended.looked, 1) && failed && ended.number == 0 && ended.marked == 0
}

/// Whether a client of a store whose device fails is told.
fn is_failed<R: Threads + Wait + Clock + Copy + Drop + Send + Sync + 'static>(
    rt: R,
    alloc: Global,
) -> Option<bool> {
    let disk = FaultDisk::new(memory(alloc)?, FIRST_SYNC);
    on_disk(rt, alloc, disk, SEGMENT, Session::Lost)
}

#[test]
fn a_client_is_told_that_the_device_failed(rt: HostRuntime) {
    assert!(rt; is_failed(rt, rt.alloc()) == Some(true));
}
