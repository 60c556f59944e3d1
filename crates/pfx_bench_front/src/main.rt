//! What `bench/front` measures, `bench/front_kills` stops and `bench/refused_front` refuses memory: clients at one store.
//!
//! `pfx_bench_front FILE CLIENTS WORKERS COMMANDS [print]` makes a store of three tasks of 2/3 on two workers in an empty or
//! missing file, gives each task a rule of 512 cells, and starts a front with that many workers, 65,535 at the most. Up to 63
//! clients, each with a pass and a thread of its own, run so many slots each, and wait for the receipt of each slot before they
//! run the next. With `print` each receipt's number is written to standard output as a line of its own, at once. Then the front is
//! closed, and the store's last number and how many receipts there were are printed. `pfx_bench_front resume FILE ..` does the
//! same with the store that is in the file.
//!
//! `pfx_bench_front session FILE` makes one session with every kind of call in an empty or missing file, and writes what each
//! was answered: `bench/refused_front` refuses memory to it.
//!
//! What the slots took, in nanoseconds, is printed on standard error. The status is 1 if a call fails, if the store or
//! the receipts aren't what the clients asked for, and if a session doesn't come to its end; 2 if the words are wrong.
#![tactic(auto)]

mod clients;
mod failures;
mod files;
mod serve;
mod session;
mod stores;
mod words;

use crate::files::locked;
use crate::serve::{Outcome, serve_file};
use crate::session::session;
use crate::stores::{JobDesk, made, opened};
use crate::words::{Words, read_words, session_file};
use pfx_crew::channel::ChannelDesk;
use pfx_disk::FileDisk;
use pfx_front::name::Names;
use std::alloc::Global;
use std::env;
use std::io::Print;
use std::process::ExitCode;
use std::sync::Wait;
use std::test::Fail;
use std::thread::Threads;
use std::time::Clock;

/// The exit status of words that the program doesn't take.
const USAGE: u8 = 2;

/// The clients' work on the store of a disk, or on a new one there.
fn work<R: Threads + Wait + Clock + Print + Copy + Drop + Send + Sync + 'static>(
    rt: R,
    alloc: Global,
    disk: FileDisk,
    words: &Words<'_>,
) -> Result<Outcome, Fail> {
    let store = if words.resumed {
        opened(alloc, disk)?
    } else {
        made(alloc, disk)?
    };
    let desk: JobDesk = ChannelDesk::new(alloc)?;
    let names = Names::new(alloc)?;
    Ok(serve_file(rt, alloc, names, store, desk, words.plan)?)
}

fn main(rt: HostRuntime) -> Result<ExitCode, Fail> {
    let alloc = rt.alloc();
    let given = env::args(&rt)?.collect::<Vec<String>>(alloc)?;
    if let Some(file) = session_file(given.as_slice()) {
        let is_ended = session(rt, alloc, locked(&rt, file)?);
        return Ok(ExitCode::from(if is_ended { 0 } else { 1 }));
    }
    let Some(words) = read_words(given.as_slice()) else {
        eprintln!(&rt;
            "usage: pfx_bench_front [resume] FILE CLIENTS WORKERS COMMANDS [print], or session FILE"
        )?;
        return Ok(ExitCode::from(USAGE));
    };
    let disk = locked(&rt, words.file)?;
    let outcome = work(rt, alloc, disk, &words)?;
    println!(&rt; "closed {}, {} receipts", outcome.number, outcome.receipts)?;
    eprintln!(&rt; "{}", outcome.nanos)?;
    Ok(ExitCode::from(0))
}
