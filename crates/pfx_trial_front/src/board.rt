//! Tests of the board by itself.
//!
//! | Module | Tests |
//! |---|---|
//! | `line` | batches of one record, after which the state that they lead to is published |
//! | `showing` | what readers see before and after publications, and when the writer is gone |
//! | `racing` | a reader that is told, beside a thread that publishes |

mod line;
mod racing;
mod showing;
