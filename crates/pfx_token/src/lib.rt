//! What outlives a lock: tokens that bring lists home, and beginnings of a list that only grows.
//!
//! Of a value under a lock a caller knows nothing but what its type keeps. So facts are carried beside the lock, in values
//! without bytes whose meaning exists in proofs alone:
//!
//! - `tokens`: a keeper knows a list for each token that it has issued. What is noted reaches a token's own list and the
//!   keeper's at once, so whenever the two meet, the lists agree. If the keeper lies under a lock, a token that was
//!   out with a thread brings home what was noted for it.
//! - `past`: a list that only grows. A `Past` is a beginning of it, which may be copied, shared and compared with another:
//!   the shorter one begins the longer.
//!
//! No call waits, and none fails, but for the memory of the first one. Nothing here says who notes what, nor when.
//!
//! Why it is so:
//! - **Tokens are built on `atomic_table`, growing lists on `logbook`**, and neither waits, fails nor takes memory, except for the
//!   keeper's first allocation: a call under a lock is sure to return.
//! - **A name is a trait without type parameters** (`Room`, `Naming`), since only at such a trait can a call pick what the name stands
//!   for. What bears one name belongs together.
//! - **A prefix may be copied, a token may not.** For each token's number there is one token, so what it brings is all that was noted for
//!   it; a `Past` only says that the list got that far.
//! - **Prefixes are compared by their counts.** Two of them are of one list, so the shorter one is a prefix of the longer.
#![tactic(auto)]

pub mod growing;
pub mod past;
pub mod seats;
pub mod tokens;
