use crate::channels::{Deed, in_channels};
use crate::quanta::{is_dealt, is_result, is_run, quantum};
use pfx_crew::channel::ChannelDesk;
use pfx_crew::desk::Desk;
use pfx_crew::lane::{Berth, Quay};
use pfx_jobs::quantum::{Done, Quantum};
use pfx_kinds::any::AnyJob;
use std::alloc::Global;
use std::sync::Wait;

/// Whether the next result is that of this task's quantum.
fn is_collected<K: Desk<Quantum<AnyJob>, Done<AnyJob>>, R: Wait>(
    rt: &R,
    desk: &K,
    seat: &mut K::Seat,
    task: u16,
) -> bool {
    match desk.collect(rt, seat) {
        Some(done) => is_result(&done, task),
        None => false,
    }
}

/// Two seats at one desk: one deals two quanta, the other takes them, runs them and hands them back, in order.
pub fn exchange<K: Desk<Quantum<AnyJob>, Done<AnyJob>>, R: Wait>(rt: &R, desk: &K) -> bool
where
    K::Seat: Drop,
{
    let (Ok(mut mine), Ok(mut theirs)) = (desk.seat(rt), desk.seat(rt)) else {
        return false;
    };
    is_dealt(rt, desk, &mut mine, 0)
        && is_dealt(rt, desk, &mut mine, 1)
        && is_run(rt, desk, &mut theirs)
        && is_run(rt, desk, &mut theirs)
        && is_collected(rt, desk, &mut mine, 0)
        && is_collected(rt, desk, &mut mine, 1)
}

/// The quantum of task 7, if it is brought and given back.
fn given_back<K: Desk<Quantum<AnyJob>, Done<AnyJob>>, R: Wait>(
    rt: &R,
    desk: &K,
    seat: &mut K::Seat,
) -> Option<Quantum<AnyJob>> {
    desk.deal(rt, seat, quantum(1, 0, 7, b"20")?).err()
}

/// Whether its result is brought and given back.
fn is_given_back<K: Desk<Quantum<AnyJob>, Done<AnyJob>>, R: Wait>(
    rt: &R,
    desk: &K,
    seat: &mut K::Seat,
    one: Quantum<AnyJob>,
) -> bool {
    match desk.hand_back(rt, seat, one.run()) {
        Ok(()) => false,
        Err(done) => done.task == 7,
    }
}

/// Whether the desk, once it is closed, gives back what is brought and has nothing to give.
fn gives_nothing<K: Desk<Quantum<AnyJob>, Done<AnyJob>>, R: Wait>(
    rt: &R,
    desk: &K,
    seat: &mut K::Seat,
) -> bool {
    desk.close(rt, seat);
    let Some(back) = given_back(rt, desk, seat) else {
        return false;
    };
    back.task == 7
        && desk.next(rt, seat).is_none()
        && is_given_back(rt, desk, seat, back)
        && desk.collect(rt, seat).is_none()
}

/// A closed desk gives nothing, though a quantum lies on it; and again when it is closed once more.
pub fn closed<K: Desk<Quantum<AnyJob>, Done<AnyJob>>, R: Wait>(rt: &R, desk: &K) -> bool
where
    K::Seat: Drop,
{
    let Ok(mut seat) = desk.seat(rt) else {
        return false;
    };
    is_dealt(rt, desk, &mut seat, 5)
        && gives_nothing(rt, desk, &mut seat)
        && gives_nothing(rt, desk, &mut seat)
}

/// Whether a desk of channels tells that it is closed just behind a close.
fn tells_of_a_close<Q: Drop, D: Drop, R: Wait>(rt: &R, desk: ChannelDesk<Q, D>) -> bool {
    let Ok(mut seat) = desk.seat(rt) else {
        return false;
    };
    let before = desk.is_closed();
    desk.close(rt, &mut seat);
    !before && desk.is_closed()
}

/// The same of a desk of numbers.
fn is_told<R: Wait>(rt: &R, alloc: Global) -> bool {
    match ChannelDesk::<u32, u32>::new(alloc) {
        Ok(desk) => tells_of_a_close(rt, desk),
        Err(_) => false,
    }
}

/// Whether what is put in at two places of a lane comes out in order, then the end, as often as it is asked for.
fn ends<R: Wait>(rt: &R, one: &mut Berth<u32>, other: &mut Berth<u32>) -> bool {
    let put = one.put(rt, 5).is_ok() && other.put(rt, 6).is_ok();
    one.end(rt);
    let taken = other.take(rt) == Some(5) && one.take(rt) == Some(6);
    put && taken && one.take(rt).is_none() && other.take(rt).is_none() && one.take(rt).is_none()
}

/// Whether a lane with two places ends for both.
fn quay_ends<R: Wait>(rt: &R, alloc: Global) -> bool {
    let Ok(quay) = Quay::<u32>::new(alloc, 4) else {
        return false;
    };
    match (quay.berth(rt), quay.berth(rt)) {
        (Ok(mut one), Ok(mut other)) => ends(rt, &mut one, &mut other),
        _ => false,
    }
}

/// Whether what is put in at one place comes out at another one made of it.
fn berth_leads_on<R: Wait>(rt: &R, alloc: Global) -> bool {
    let Ok(mut one) = Berth::<u32>::new(alloc, 1) else {
        return false;
    };
    let put = one.put(rt, 8).is_ok();
    match one.another() {
        Ok(mut other) => put && other.take(rt) == Some(8),
        Err(_) => false,
    }
}

#[test]
fn quanta_go_out_and_results_come_back(rt: HostRuntime) {
    assert!(rt; in_channels(&rt, rt.alloc(), Deed::Exchange));
}

#[test]
fn a_closed_desk_gives_nothing(rt: HostRuntime) {
    assert!(rt; in_channels(&rt, rt.alloc(), Deed::Close));
    assert!(rt; is_told(&rt, rt.alloc()));
}

#[test]
fn a_lane_ends_for_all(rt: HostRuntime) {
    assert!(rt; quay_ends(&rt, rt.alloc()));
    assert!(rt; berth_leads_on(&rt, rt.alloc()));
}
