//! What `bench/crew` measures: rounds of quanta that are dealt to workers and gathered, beside the same on one thread.
//!
//! `pfx_bench_crew crew ROUNDS QUANTA WORKERS TURNS` deals that many quanta a round over a desk of channels to that many
//! workers, each of which takes so many turns of plain arithmetic besides the quantum's step, and gathers the results.
//! `pfx_bench_crew alone ROUNDS QUANTA TURNS` does the same work on the calling thread. Each prints a sum over what was
//! gathered, by which another program's result is compared, and on standard error how many nanoseconds it took.
#![tactic(auto)]

mod busy;
mod rounds;

use crate::busy::Busy;
use crate::rounds::{Bench, crew, rounds_alone};
use pfx_crew::channel::ChannelDesk;
use pfx_kit::watched::WatchedDesk;
use std::alloc::Global;
use std::env;
use std::process::ExitCode;
use std::sync::Wait;
use std::test::Fail;
use std::thread::Threads;
use std::time::{Clock, Instant};

fn number(words: &[String], at: usize) -> Result<u64, Fail> {
    let word = words.get(at).ok_or(
        "crew ROUNDS QUANTA WORKERS TURNS, or alone ROUNDS QUANTA TURNS",
    )?;
    Ok(word.parse::<u64>()?)
}

/// The sum over what was gathered, and how many nanoseconds it took.
fn measure<R: Threads + Wait + Clock + Sync>(
    rt: &R,
    alloc: Global,
    words: &[String],
) -> Result<(u64, u128), Fail> {
    let mode = words.get(1).ok_or("crew or alone")?;
    let (rounds, quanta) = (number(words, 2)?, number(words, 3)?);
    let mut bench = Bench::new(alloc, quanta).ok_or("memory")?;
    let start = Instant::now(rt)?;
    let sum = if mode.as_str() == "alone" {
        rounds_alone(&mut bench, rounds, number(words, 4)?).ok_or("a round")?
    } else {
        let desk = WatchedDesk::new(ChannelDesk::new(alloc)?, Busy::new(number(words, 5)?));
        crew(rt, alloc, &desk, &mut bench, rounds, number(words, 4)?).ok_or("a round")?
    };
    Ok((sum, start.elapsed(rt)?.as_nanos()))
}

fn main(rt: HostRuntime) -> Result<ExitCode, Fail> {
    let words = env::args(&rt)?.collect::<Vec<String>>(rt.alloc())?;
    let (sum, took) = measure(&rt, rt.alloc(), words.as_slice())?;
    println!(&rt; "{sum}")?;
    eprintln!(&rt; "{took}")?;
    Ok(ExitCode::from(0))
}
