//! Tests of tokens, growing lists, the crew and the book, in a crate of their own so that the tested crates are proved once, without them.
//!
//! | Module | Tests |
//! |---|---|
//! | `tokens` | `pfx_token`: tokens that bring lists home |
//! | `past` | `pfx_token`: beginnings of a list that only grows |
//! | `quanta` | quanta of jobs that count, and what is done with them at a desk |
//! | `gathering` | `pfx_crew`: results in every order, and the results that are refused |
//! | `desk` | `pfx_crew`: a desk of channels, and what a closed one answers |
//! | `channels` | what is done at a desk of channels |
//! | `holding` | a watch over a desk that holds a result back |
//! | `crew` | `pfx_crew`: two workers at a desk that wants both |
//! | `states` | states that books begin with |
//! | `asking` | calls of a book whose premises are tested first |
//! | `flusher` | a share with the number of the last command that it took |
//! | `service`, `answers` | a book and its flusher as the sessions see them, and whether clients are answered as they should be |
//! | `sessions` | the session of each module below, and the book at which it is held |
//! | `worked` | two Submits and a slot of two quanta, with results that are refused |
//! | `calls` | each call once, through the life of a book |
//! | `refusals` | each refusal by its name |
//! | `full` | a session of 1,048,576 commands, which accepts no more |
//! | `flushing` | batches, marks, receipts, and a flusher that gives up |
//! | `closing` | passes that come back, in order and out of order |
//! | `reweighing` | new weights among other commands |
//! | `memory` | calls that are refused memory, and again |
#![tactic(auto)]

#[cfg(test)]
mod answers;
#[cfg(test)]
mod asking;
#[cfg(test)]
mod calls;
#[cfg(test)]
mod channels;
#[cfg(test)]
mod closing;
#[cfg(test)]
mod crew;
#[cfg(test)]
mod desk;
#[cfg(test)]
mod flusher;
#[cfg(test)]
mod flushing;
#[cfg(test)]
mod full;
#[cfg(test)]
mod gathering;
#[cfg(test)]
mod holding;
#[cfg(test)]
mod memory;
#[cfg(test)]
mod past;
#[cfg(test)]
mod quanta;
#[cfg(test)]
mod refusals;
#[cfg(test)]
mod reweighing;
#[cfg(test)]
mod service;
#[cfg(test)]
mod sessions;
#[cfg(test)]
mod states;
#[cfg(test)]
mod tokens;
#[cfg(test)]
mod worked;
