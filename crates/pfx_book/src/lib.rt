//! The book: the session of a store's clients, as the value that lies under a lock. No call waits.
//!
//! A book holds the machine's state, each command that was accepted or refused with the number of the client's pass, the open
//! slot, the records that wait for the flusher, the mark, and whether the flusher has given up. Each of its calls is one event
//! of the world in `pfx_events_world/specs/Session.antt`, in that world's own words, or changes nothing there.
//!
//! What its type keeps:
//! 1. the session is legal: each command stands there with the number, the reply or the refusal that it has to have after
//!    those before it, and the accepted ones lead from the start to the state;
//! 2. the records that the flusher took, and then those that wait, are those of the accepted commands;
//! 3. the mark is at most what was taken, and what is accepted at most 64 beyond the mark; each receipt is of a number up to
//!    one of the flusher's marks, with that mark's clock;
//! 4. an open slot is the state's, and has room for its entry, so that it can always be sealed.
//!
//! Of a value under a lock a client knows nothing but this. So each client has a `Pass` and the flusher a `Share`, whose lists
//! the book's keeper knows: once all passes are back, `Book::gathered` says that the session is the merge of their entries.
//!
//! Why it is so:
//! - **What is accepted or refused is an entry of the caller's pass**: that is a clause of `ask_of`, over the book itself, and not of the
//!   function that waits for the lock, whose contract can't speak of what is under it. Nor can that of `close`: how many passes a front
//!   has given out is under its lock, so `PassOut` says of some number what is missing of it.
#![tactic(auto)]

pub mod book;
pub mod closing;
mod copies;
pub mod faults;
mod flushing;
mod line;
pub mod name;
pub mod note;
mod room;
mod slots;
mod trying;
