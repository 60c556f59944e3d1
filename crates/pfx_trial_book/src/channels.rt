//! What is done at a desk of channels, which is made here alone: a proof spells its type with those of the quanta and of their results.

use crate::crew::{Serves, is_served};
use crate::desk::{closed, exchange};
use pfx_crew::channel::ChannelDesk;
use pfx_crew::desk::Desk;
use pfx_jobs::quantum::{Done, Quantum};
use pfx_kinds::any::AnyJob;
use std::alloc::Global;
use std::sync::Wait;
use std::thread::Threads;

/// What is done at a desk.
#[derive(Clone, Copy)]
pub enum Deed {
    /// Two seats exchange quanta and results.
    Exchange,
    /// It is closed while a quantum lies on it.
    Close,
    /// It holds back the result of task 0.
    Hold(Serves),
}

/// Whether a desk is right, whatever is done at it.
fn is_right<K: Desk<Quantum<AnyJob>, Done<AnyJob>> + Drop + Sync, R: Threads + Wait + Sync>(
    rt: &R,
    desk: K,
    deed: Deed,
) -> bool
where
    K::Seat: Drop + Send,
{
    match deed {
        Deed::Exchange => exchange(rt, &desk),
        Deed::Close => closed(rt, &desk),
        Deed::Hold(serves) => is_served(rt, desk, serves),
    }
}

/// The same of a desk of channels.
pub fn in_channels<R: Threads + Wait + Sync>(rt: &R, alloc: Global, deed: Deed) -> bool {
    match ChannelDesk::<Quantum<AnyJob>, Done<AnyJob>>::new(alloc) {
        Ok(desk) => is_right(rt, desk, deed),
        Err(_) => false,
    }
}
