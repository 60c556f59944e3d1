//! The run of the trials, asked by two clients in turn: each waits for each receipt, or all is asked first.

use crate::folds::COMMANDS;
use crate::service::Service;
use pfx_disk::Latch;
use pfx_front::faults::CallFault;
use std::alloc::Global;
use std::sync::Wait;

/// What both clients came to.
#[derive(Drop)]
pub struct Asked {
    /// The number and the clock of each receipt, as they came.
    pub receipts: Vec<(u64, u64)>,
    /// Why each client had no more receipts.
    pub faults: [Option<CallFault>; 2],
    /// Whether each was answered by its commands' numbers, and by its fault from then on.
    pub stay: bool,
}

/// What a client came to.
#[derive(Drop)]
struct Visit<P: Drop> {
    pass: P,
    // Why it had no more receipts.
    fault: Option<CallFault>,
    // Whether all was answered as it should be, and by that fault from then on.
    stays: bool,
}

/// Notes why a client isn't served.
fn lose<P: Drop>(visit: &mut Visit<P>, fault: CallFault) {
    let is_same = visit.fault.is_none() || visit.fault == Some(fault);
    visit.stays = visit.stays && is_same;
    visit.fault = Some(fault);
}

/// Waits for the receipt of the command of this number.
fn settle<F: Service, R: Wait>(
    rt: &R,
    front: &F,
    visit: &mut Visit<F::Pass>,
    number: u64,
    receipts: &mut Vec<(u64, u64)>,
) {
    match front.settle(rt, &mut visit.pass, number) {
        None => visit.stays = false,
        Some(Ok(receipt)) => {
            let is_noted = receipts.push(receipt).is_ok();
            visit.stays = visit.stays && is_noted && visit.fault.is_none();
        }
        Some(Err(fault)) => lose(visit, fault),
    }
}

/// Asks the command of this number. Whether it is answered.
fn ask<F: Service, R: Wait>(
    rt: &R,
    alloc: Global,
    front: &F,
    visit: &mut Visit<F::Pass>,
    number: u64,
) -> bool {
    match front.asks(rt, alloc, &mut visit.pass, number) {
        None => {
            visit.stays = false;
            false
        }
        Some(Ok(given)) => {
            visit.stays = visit.stays && visit.fault.is_none() && given == number;
            true
        }
        Some(Err(fault)) => {
            lose(visit, fault);
            false
        }
    }
}

/// A client that has asked nothing.
fn visitor<F: Service, R: Wait>(rt: &R, front: &F) -> Option<Visit<F::Pass>> {
    Some(Visit {
        pass: front.admit(rt)?,
        fault: None,
        stays: true,
    })
}

/// A client's turn in a run in which each waits for each receipt.
fn ask_and_settle<F: Service, R: Wait>(
    rt: &R,
    alloc: Global,
    front: &F,
    visit: &mut Visit<F::Pass>,
    number: u64,
    receipts: &mut Vec<(u64, u64)>,
) {
    if ask(rt, alloc, front, visit, number) {
        settle(rt, front, visit, number, receipts);
    }
}

/// Asks all commands, each behind the receipt of the one before it: those with odd numbers are the first client's.
fn ask_in_turn<F: Service, R: Wait>(
    rt: &R,
    alloc: Global,
    front: &F,
    one: &mut Visit<F::Pass>,
    two: &mut Visit<F::Pass>,
    receipts: &mut Vec<(u64, u64)>,
) {
    for number in 1..COMMANDS + 1 {
        if number % 2 == 1 {
            ask_and_settle(rt, alloc, front, one, number, receipts);
        } else {
            ask_and_settle(rt, alloc, front, two, number, receipts);
        }
    }
}

/// Asks all commands of a front whose disk is held, and releases it: then the clients wait for their receipts.
fn ask_held<F: Service, R: Wait>(
    rt: &R,
    alloc: Global,
    front: &F,
    one: &mut Visit<F::Pass>,
    two: &mut Visit<F::Pass>,
    receipts: &mut Vec<(u64, u64)>,
    latch: &Latch,
) {
    for number in 1..COMMANDS + 1 {
        if number % 2 == 1 {
            ask(rt, alloc, front, one, number);
        } else {
            ask(rt, alloc, front, two, number);
        }
    }
    latch.release();
    for number in 1..COMMANDS + 1 {
        if number % 2 == 1 {
            settle(rt, front, one, number, receipts);
        } else {
            settle(rt, front, two, number, receipts);
        }
    }
}

/// Two passes.
fn both<P: Drop>(alloc: Global, one: P, other: P) -> Option<Vec<P>> {
    let mut passes = Vec::new(alloc);
    passes.push(one).ok()?;
    passes.push(other).ok()?;
    Some(passes)
}

/// What two clients of a front come to, and their passes. If its disk is held, this is the latch.
pub fn ask_by_two<F: Service, R: Wait>(
    rt: &R,
    alloc: Global,
    front: &F,
    latch: Option<&Latch>,
) -> Option<(Asked, Vec<F::Pass>)> {
    let mut one = visitor(rt, front)?;
    let mut two = visitor(rt, front)?;
    let mut receipts = Vec::new(alloc);
    match latch {
        Some(latch) => ask_held(rt, alloc, front, &mut one, &mut two, &mut receipts, latch),
        None => ask_in_turn(rt, alloc, front, &mut one, &mut two, &mut receipts),
    }
    let asked = Asked {
        receipts,
        faults: [one.fault, two.fault],
        stay: one.stays && two.stays,
    };
    Some((asked, both(alloc, two.pass, one.pass)?))
}
