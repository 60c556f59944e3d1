//! The command line of `pfx`: which request its words make, and the texts of its help.
//!
//! What it keeps true: the command is exactly `pfx_app` of `specs/Commands.antt`; the request of
//! words that it takes is one stated function of them, `asked` of `specs/Requests.antt`; words that
//! it takes are refused only if memory runs out, and other words are refused always, by an error
//! whose text says what was expected. `--help` and `--version` come as such an error too, whose exit
//! status is 0; that of a wrong word is 2.
//!
//! Why it is so:
//! - **Words follow clap**: `--` ends the options, a count may begin with `+`. A word that isn't UTF-8 is a usage fault.
#![tactic(auto)]

mod arguments;
mod audit;
mod check;
mod draw;
mod explain;
mod head;
mod init;
pub mod laws;
mod migrate;
mod plan;
mod program;
mod replay;
mod request;
mod run;
mod show;
mod status;

pub use program::read_words;
pub use request::{AuditForm, Request};
