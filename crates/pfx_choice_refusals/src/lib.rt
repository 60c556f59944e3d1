//! The program's fault for each refusal of a task set, of a ledger and of a slot.
//!
//! What it keeps true: each refusal has one fault, which names the same task and the same numbers. The program, and the
//! calls from other languages, tell a refusal by it.
//!
//! Why it is so:
//! - **The machine's faults hold the choice's, and the book's the machine's** (`MachineFault::NoRow`, `BookFault::Machine`), and copy
//!   none of their cases but one: that memory doesn't suffice is a fault of the book's own, since it refuses no command for good. What the
//!   refusal of a set, a ledger or a slot is to the program stands once, in `pfx_choice_refusals`, for the program and for the calls from
//!   other languages.
#![tactic(auto)]

mod faults;

pub use faults::{choice_fault, ledger_fault, set_fault};
