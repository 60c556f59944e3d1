//! The whole of a program that embeds the durable store: three tasks of 2/3 share two workers, and each run goes on where the last
//! one left off, however that ended once it had made the store.
//!
//! `pfx_store_example FILE` makes the store if FILE is empty or missing, and gives each task a sum of the numbers up to 1,000, which is
//! a kind of job of this program's own (`sum`); else it opens the store that FILE has. Then it runs ten slots, prints the row of
//! each once the slot is durable, and at last how each task stands. The status is 1 if the file, the store or standard output
//! fails, and 2 if the words are wrong.
#![tactic(auto)]

mod failure;
mod slots;
mod store;
mod sum;

use crate::failure::Failure;
use crate::slots::{print_tasks, run_slots, submit_all};
use crate::store::{locked, store_in};
use pfx_store_engine::DurableEngine;
use std::alloc::Global;
use std::env;
use std::process::ExitCode;

/// Runs ten slots of the store in a file.
fn run(rt: &HostRuntime, alloc: Global, path: &str) -> Result<(), Failure> {
    let store = store_in(alloc, locked(rt, path)?)?;
    let Ok(mut engine) = DurableEngine::new(alloc, store) else {
        return Err(Failure::NoMemory);
    };
    submit_all(alloc, &mut engine)?;
    run_slots(rt, alloc, &mut engine)?;
    print_tasks(rt, alloc, &engine)
}

fn main(rt: HostRuntime) -> ExitCode {
    let alloc = rt.alloc();
    let given = match env::args(&rt) {
        Ok(args) => args.collect::<Vec<String>>(alloc),
        Err(_) => return ExitCode::from(2),
    };
    let path = match &given {
        Ok(words) if words.len() == 2 => words[1].as_str(),
        _ => return ExitCode::from(2),
    };
    match run(&rt, alloc, path) {
        Ok(()) => ExitCode::from(0),
        Err(failure) => {
            let _told = eprintln!(&rt; "pfx_store_example: {failure}");
            ExitCode::from(1)
        }
    }
}
