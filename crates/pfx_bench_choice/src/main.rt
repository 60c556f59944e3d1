//! What `bench/run` measures of the proved crates.
//!
//! `pfx_bench_choice plan SLOTS WORKERS E/P E/P ..` plans that many slots of a set, and `pfx_bench_choice rule STEPS WIDTH` takes that
//! many steps of rule 110 on a ring. `pfx_bench_choice advance SLOTS WORKERS E/P ..` plans 16 slots of a set and then adds their rows
//! to the ledger, over and over; with `classes` in place of `advance` it takes the classes of all tasks eight times before each. Each
//! prints a sum over what it made, by which another program's result is compared, and on standard error how many
//! nanoseconds it took.
//!
//! Why it is so:
//! - **A second crate for measuring** (`pfx_bench_choice`) calls the same functions as the program, so that a benchmark measures what is proved
//!   and shipped, and its Rust twin is plain code with no contracts.
#![tactic(auto)]

ghost use Rattle.std.specs.Prelude.{◌≡◌, length};
ghost use Rattle.pfx_columns.specs.Ledgers.{total};

use pfx_choice::{Chooser, give, plan as plan_rows};
use pfx_columns::Columns;
use pfx_jobs::job::Job;
use pfx_kinds::any::AnyJob;
use pfx_lanes::classify;
use pfx_weights::{Row, TaskSet};
use std::alloc::Global;
use std::env;
use std::process::ExitCode;
use std::test::Fail;
use std::time::Instant;

/// One more row in the sum over all rows.
fn mixed(sum: u64, row: &Row) -> u64 {
    let mut sum = sum;
    for x in row {
        sum = sum
            .wrapping_mul(31)
            .wrapping_add(u64::from(*x))
            .wrapping_add(1);
    }
    sum
}

/// The weight that a word `E/P` names.
fn weight(word: &str) -> Result<(u32, u32), Fail> {
    let (e, p) = word.split_once('/').ok_or("a weight is E/P")?;
    Ok((e.parse::<u32>()?, p.parse::<u32>()?))
}

/// The sum over the rows of the first slots of a set.
fn plan(alloc: Global, ledger: &mut Columns, slots: u64) -> Result<u64, Fail> {
    let mut chooser = Chooser::new(alloc);
    let mut row = Row::empty();
    let mut sum = 0;
    for _slot in 0..slots {
        chooser.choose_into(ledger, &mut row)?;
        give(ledger, &row);
        sum = mixed(sum, &row);
    }
    Ok(sum)
}

/// Takes the class of each task for the slot to come.
fn take_classes(ledger: &Columns, out: &mut [u8])
    requires { length out.old ≡ total ledger.now }
{
    let _total = ledger.total();
    classify(
        ledger.lags(),
        ledger.phases(),
        ledger.es(),
        ledger.ps(),
        out,
    );
}

/// The class of one task for the slot to come, if all are taken, eight times over.
fn class_of_one(ledger: &Columns, out: &mut [u8]) -> Result<u64, Fail> {
    for _again in 0..8 {
        if out.len() == ledger.total() {
            take_classes(ledger, out);
        }
    }
    let x = ledger.slot() % 16;
    Ok(u64::from(*out.get(x as usize).ok_or("16 tasks")?))
}

/// Adds the rows to the ledger.
fn add_rows(
    ledger: &mut Columns,
    rows: &[Row],
    out: &mut [u8],
    classes: bool,
) -> Result<u64, Fail> {
    let mut sum = 0u64;
    for row in rows {
        if classes {
            sum = sum.wrapping_mul(3).wrapping_add(class_of_one(ledger, out)?);
        }
        if !ledger.fits(row) || ledger.slot() >= 1 << 39 {
            return Err("a row that fits")?;
        }
        ledger.advance(row)?;
    }
    Ok(sum)
}

/// The sum over what is made of so many slots, sixteen rows over and over.
fn advance(alloc: Global, ledger: &mut Columns, slots: u64, classes: bool) -> Result<u64, Fail> {
    let copy = ledger.copy_of(alloc)?;
    let rows = plan_rows(alloc, copy, 16).map_err(|_| "sixteen rows")?;
    let mut out = vec![in alloc; 0u8; ledger.total()]?;
    let mut sum = 0u64;
    for _turn in 0..slots / 16 {
        sum = sum
            .wrapping_mul(31)
            .wrapping_add(add_rows(ledger, &rows, &mut out, classes)?);
    }
    Ok(sum.wrapping_add(ledger.slot()))
}

/// The sum over the bytes of a job after its steps.
fn run(job: &mut AnyJob, steps: u64) -> u64 {
    for _step in 0..steps {
        if !job.is_done() {
            job.step();
        }
    }
    let mut bytes = [0; 128];
    job.encode(&mut bytes);
    let mut sum = 0u64;
    for byte in &bytes {
        sum = sum
            .wrapping_mul(31)
            .wrapping_add(u64::from(*byte))
            .wrapping_add(1);
    }
    sum
}

/// Rule 110 on a ring of this width, with one cell set.
fn rule(alloc: Global, steps: u64, width: usize) -> Result<AnyJob, Fail> {
    let mut text = String::new(alloc);
    text.push_str("110:")?;
    for _cell in 1..width {
        text.push('0')?;
    }
    text.push('1')?;
    Ok(AnyJob::start("rule", steps, text.as_bytes())?)
}

fn measure(rt: &HostRuntime, words: &[String]) -> Result<(), Fail> {
    let alloc = rt.alloc();
    let [_program, mode, count, rest @ ..] = words else {
        return Err("plan, advance or classes SLOTS WORKERS E/P .., or rule STEPS WIDTH")?;
    };
    let count = count.parse::<u64>()?;
    let [number, weights @ ..] = rest else {
        return Err("a number of workers or cells")?;
    };
    if mode.as_str() == "rule" {
        let mut job = rule(alloc, count, number.parse::<usize>()?)?;
        let start = Instant::now(rt)?;
        let sum = run(&mut job, count);
        let took = start.elapsed(rt)?;
        println!(rt; "{sum}")?;
        eprintln!(rt; "{}", took.as_nanos())?;
        return Ok(());
    }
    let mut tasks = Vec::new(alloc);
    for word in weights {
        tasks.push(weight(word.as_str())?)?;
    }
    let set = TaskSet::new(alloc, number.parse::<u32>()?, &tasks)?;
    let mut ledger = Columns::zero(alloc, &set)?;
    let start = Instant::now(rt)?;
    let sum = match mode.as_str() {
        "plan" => plan(alloc, &mut ledger, count)?,
        "advance" => advance(alloc, &mut ledger, count, false)?,
        _ => advance(alloc, &mut ledger, count, true)?,
    };
    let took = start.elapsed(rt)?;
    println!(rt; "{sum}")?;
    eprintln!(rt; "{}", took.as_nanos())?;
    Ok(())
}

fn main(rt: HostRuntime) -> Result<ExitCode, Fail> {
    let words = env::args(&rt)?.collect::<Vec<String>>(rt.alloc())?;
    measure(&rt, words.as_slice())?;
    Ok(ExitCode::from(0))
}
