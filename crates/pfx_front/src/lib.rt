//! The front: many callers at one store, a flusher that alone owns what keeps it, and workers that run quanta.
//!
//! Under one lock lies a book: the session of the store's clients. A call takes the lock, asks the book, and is answered before
//! anything is durable; the reply isn't an acknowledgement. The flusher takes the next commands as a batch, appends it to the
//! store with no lock held, publishes the board after it, and marks it; `settled` waits for the mark, and its receipt is the
//! acknowledgement: a reader of the board that is told of it shows that command at least. A Slot's quanta
//! are run between two lockings, by the workers or by the thread that called.
//!
//! What keeps the store is a `BatchKeeper`: the store itself, at which `start` begins a front and `close` ends one, or one beside a log, for
//! which there are `start_kept` and `close_kept`.
//!
//! - `name`: whose front it is, its lists, and what it began with.
//! - `faults`: why calls fail.
//! - `monitor`: the book's lock, and what threads wait for.
//! - `appending`: appends a batch, with what new weights take of memory.
//! - `flusher`: takes batches, appends, publishes and marks them; between batches, and while nothing waits, it works on the checkpoint.
//! - `gathering`: how long the flusher waits for those whom it has just woken.
//! - `calls`: `Front` with `pass`, `call` and `settled`.
//! - `start`: a front with its threads.
//! - `sole`: what a client knows that is the only one: its answers are the machine's, and the board and a copy of their state.
//! - `before`: how often the disk had failed when it began.
//! - `durable`: what is durable at a moment of the disk and has been since earlier ones, and the acknowledgement that carries it out of the lock.
//! - `marking`: the list of the marks, which is kept in proofs alone.
//! - `closing`: the end: all threads joined, and what session and store have come to.
//!
//! What tokens carry: clients know what happened to their pass, and the flusher what happened to its share. The lists that they
//! prove against are the book's, so `close` can say of the whole session what its calls had answered, and of the store what its
//! receipts had promised. Who waits sleeps, but for a seat of the crew, which looks for a message for some turns before, and no
//! lock is held during a call of the disk or a step of a job.
//!
//! Why it is so:
//! - **A front is generic over what keeps its store** (`pfx_store::BatchKeeper`): a store, or one beside a log, which no command begins a
//!   front at yet. The flusher can make no call but the keeper's. `start` and `close` are those of a plain store, with the contracts that
//!   they had; `start_kept` and `close_kept`, of which they are made, take and give back any keeper whose disk tells its calls.
#![tactic(auto)]

mod appending;
pub mod before;
pub mod calls;
pub mod closing;
pub mod durable;
pub mod faults;
pub mod flusher;
mod gathering;
pub mod marking;
pub mod monitor;
pub mod name;
pub mod sole;
pub mod start;
