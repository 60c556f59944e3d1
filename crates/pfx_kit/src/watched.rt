//! A desk whose calls a watch is told of.

use pfx_crew::desk::Desk;
use std::alloc::AllocError;
use std::sync::Wait;

/// Who is told of a desk's calls, each by the thread that makes the call. A call goes on once the watch returns.
pub trait DeskWatch<D> {
    /// A quantum is about to be dealt.
    fn deals(&self) {}

    /// A result is about to be handed back.
    fn hands_back(&self, _done: &D) {}

    /// It was handed back, or came back because it can't be.
    fn handed_back(&self) {}

    /// A result is about to be collected. Whether none is, as if there were none.
    fn hides(&self) -> bool {
        false
    }

    /// The desk is about to be closed.
    fn closes(&self) {}
}

/// Such a desk, over another one.
#[derive(Drop)]
pub struct WatchedDesk<K: Drop, W: Drop> {
    desk: K,
    watch: W,
}

impl<K: Drop, W: Drop> WatchedDesk<K, W> {
    /// Over this desk, with this watch.
    pub fn new(desk: K, watch: W) -> WatchedDesk<K, W> {
        WatchedDesk { desk, watch }
    }

    /// The watch.
    pub fn watch(&self) -> &W {
        &self.watch
    }
}

impl<Q, D, K: Desk<Q, D> + Drop, W: DeskWatch<D> + Drop> Desk<Q, D> for WatchedDesk<K, W> {
    type Seat = K::Seat;

    ghost dealt = { K.dealt };

    ghost took = { K.took };

    ghost handed = { K.handed };

    ghost collected = { K.collected };

    fn seat<R: Wait>(&self, rt: &R) -> Result<K::Seat, AllocError> {
        self.desk.seat(rt)
    }

    fn deal<R: Wait>(&self, rt: &R, seat: &mut K::Seat, quantum: Q) -> Result<(), Q> {
        self.watch.deals();
        self.desk.deal(rt, seat, quantum)
    }

    fn next<R: Wait>(&self, rt: &R, seat: &mut K::Seat) -> Option<Q> {
        self.desk.next(rt, seat)
    }

    fn hand_back<R: Wait>(&self, rt: &R, seat: &mut K::Seat, done: D) -> Result<(), D> {
        self.watch.hands_back(&done);
        let handed = self.desk.hand_back(rt, seat, done);
        self.watch.handed_back();
        handed
    }

    fn collect<R: Wait>(&self, rt: &R, seat: &mut K::Seat) -> Option<D> {
        if self.watch.hides() {
            return None;
        }
        self.desk.collect(rt, seat)
    }

    fn close<R: Wait>(&self, rt: &R, seat: &mut K::Seat) {
        self.watch.closes();
        self.desk.close(rt, seat)
    }
}
