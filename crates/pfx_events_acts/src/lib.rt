//! What the acts of a store's file leave at each of their moments.
//!
//! An append, a turn and each step of a checkpoint is a list of calls of a disk and a file after them, over any codec; these
//! lists stand in `pfx_store_file`, whose calls say that they make them. `specs/Files.antt` says what stands in each image of a
//! file. `proofs/Stepping.antt` proves of each act that, from a file of a state on, every image that a stop may leave before,
//! between or within its calls is one of that state or of the state after the act, and that after its last call all images
//! are of the latter.
//!
//! Why it is so:
//! - **A disk's calls are stated by contents and images**, not by a count: counts are in clauses of their own. So an opening is its sync;
//!   a read leaves nothing. They are stated of a store that has a certain file, whatever its state, so that they compose without one; and
//!   that they are the world's is shown by functions that run the real call (`pfx_events::tied`), not by a law over lists alone.
#![tactic(auto)]
