//! The crew: a desk at which the quanta of a slot are dealt and their results handed back, the workers at it, and the
//! gathering of the results.
//!
//! A `Desk` is shared by reference. Each thread has a seat at it, which contracts see as the lists of what it dealt, took,
//! handed back and collected: a call adds its one message to its own seat's list, and to no other. A `worker` takes quanta
//! and hands back their results until the desk is closed; which kind of job it runs it doesn't know. `gather` puts a result
//! at its quantum's place, whatever the order in which results arrive, and refuses one that isn't of the slot.
//!
//! That a message arrives, or that a call returns, no contract says: a desk's calls may wait. What a lane of a
//! `ChannelDesk` does promise is that what its seats took out and what is inside is, counted, what they put in.
//!
//! Why it is so:
//! - **A desk is generic in what it carries** (`Desk<Q, D>`), not in the kind of job: a trait over a kind can't name its quanta in what
//!   it says of seats. So a desk, and what a seat knows, have nothing of a kind in them, and `worker` is over any kind.
//! - **A desk's contract doesn't say when it is closed.** A seat knows its own lists, and no clause could tell from them that another
//!   seat closed the desk; so a desk that always answers that it is closed satisfies the trait, and that a desk serves is tested.
//! - **A worker's contract is about what it took and handed back**, not about when it stops: a function that may wait promises nothing of
//!   returning. That it goes on until the desk is closed is tested.
#![tactic(auto)]

pub mod balance;
pub mod channel;
pub mod desk;
pub mod gathering;
pub mod lane;
pub mod laws;
pub mod work;
