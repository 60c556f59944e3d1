//! The program `pfx`.
//!
//! It does what its words ask for, over the system's own files. Where that fails it prints one fault line on standard
//! error and ends with the fault's exit status: 3 if the set, the ledger or the plan is refused, 4 if the store is or
//! its disk failed, 5 if memory ran out, 7 if the script has a record without form, 8 if a file or an output
//! failed. Help and version end with 0, words that it doesn't take with 2, a replay or an audit that finds a difference with 6, a
//! strict run with a refused record with 7. Below the fault line at most three lines say where the mistake stands, what is
//! wrong and what to change. If the output's reader has gone nothing is said, and the status is 8.
//!
//! Why it is so:
//! - **`-` is standard input by its descriptor**, not by `/dev/stdin`, which opens a file anew, from its beginning, and can't open a
//!   socket.
//! - **The places of the three standard streams are taken first**, by `/dev/null`: a store that was opened while standard output was
//!   closed would have got its place, and the lines with it.
//! - **Why `init` can't make its file is what the system said at that try**, kept beside the fault. The note makes no file of its own to
//!   find out: another `init` might have opened it meanwhile.
//! - **A closed pipe is told from other failures by the writer**, which sees the system's error; the proved code knows one fault for all.
#![tactic(auto)]

ghost use Rattle.std.specs.Prelude.{◌≡◌};
ghost use Rattle.pfx_fault.specs.Refusals.{status_of};

mod audit;
mod check;
mod draw;
mod explain;
mod files;
mod head;
mod log;
mod migrate;
mod notes;
mod plan;
mod process;
mod progress;
mod replay;
mod run;
mod store;
mod tell;
mod tips;
mod traces;
mod watcher;

use crate::audit::{Found, audit};
use crate::check::{check, refused_by_all};
use crate::draw::draw;
use crate::explain::explain;
use crate::files::taken_streams;
use crate::head::head;
use crate::migrate::migrate_store;
use crate::plan::plan;
use crate::process::Process;
use crate::replay::replay;
use crate::run::{Asked, run};
use crate::store::{init, show, status};
use crate::tell::{form_of, is_closed, tell, warn};
use crate::tips::{of_fault, of_words};
use crate::traces::Traces;
use crate::watcher::Sought;
use clap::Error;
use clap::error::ErrorKind;
use pfx_fault::{Fault, put_fault};
use pfx_program_args::{Request, read_words};
use std::alloc::Global;
use std::io::Write;
use std::process::ExitCode;
use std::sync::Wait;
use std::thread::Threads;
use std::time::Clock;
use std::{env, io};

/// The exit status of words that the program doesn't take.
const USAGE: u8 = 2;

/// The exit status of a replay or an audit that finds a difference.
const DIFFERS: u8 = 6;

/// The exit status of a strict run that ends at a refused record.
const REFUSED: u8 = 7;

/// What is said of a picture that would be too large.
const TOO_LARGE: &str =
    "more than 262144 slots over the lanes of all tasks; draw fewer, and further ones with --at";

/// What is said of an older log without a new one.
const NO_NEW_LOG: &str = "--after is for a new log\n\n  tip: name the new one too, by --log NEW";

/// What is said of the number of a record that isn't there.
const NO_RECORD: &str = "the history has no command of this number";

/// What is said of a word that is no text.
const NO_TEXT: &str =
    "a word isn't UTF-8 text\n\n  tip: a file is named by UTF-8 text alone; rename it, or reach it by a link whose name is such a text";

// Prints the fault's line. If standard error fails too, the status still tells.
fn failed(rt: &HostRuntime, fault: Fault) -> u8
    ensures { result ≡ status_of fault }
{
    let _ = put_fault(&mut rt.stderr(), fault);
    fault.status()
}

// Says what is wrong with the words, where no parse does.
fn refused(rt: &HostRuntime, alloc: Global, why: &str) -> u8
    ensures { result ≡ 2 }
{
    let said = format!(in alloc; "error: {why}\n\nFor more information, try '--help'.\n");
    let _ = match &said {
        Ok(said) => rt.stderr().write_all(said.as_bytes()),
        Err(_) => rt.stderr().write_all(b"error: no memory\n"),
    };
    USAGE
}

// The same of a word that names no fault.
fn unexplained(rt: &HostRuntime, alloc: Global, word: &str) -> u8
    ensures { result ≡ 2 }
{
    match of_fault(alloc, word) {
        Ok(why) => refused(rt, alloc, why.as_str()),
        Err(_) => refused(rt, alloc, "no fault has this number or name"),
    }
}

// Answers words that ask for nothing to be done: by the help, the version or what was expected.
fn answered(rt: &HostRuntime, alloc: Global, words: &[&str], error: &Error) -> u8 {
    if error.kind() == ErrorKind::OutOfMemory {
        return failed(rt, Fault::NoMemory);
    }
    if error.use_stderr()
        && let Ok(message) = error.to_string(alloc)
        && let Ok(said) = of_words(alloc, words, message.as_str())
    {
        let _ = rt.stderr().write_all(said.as_bytes());
        return error.exit_code() as u8;
    }
    match error.print(rt) {
        Err(gone) if gone.kind() == io::ErrorKind::BrokenPipe =>
            return Fault::OutputFailed.status(),
        Err(_) if !error.use_stderr() => return failed(rt, Fault::OutputFailed),
        _ => {}
    }
    error.exit_code() as u8
}

// Runs a script, if that is asked for, and answers the exit status if nothing fails; `None` if it isn't.
fn ran<R: Threads + Wait + Clock + Copy + Drop + Send + Sync + 'static>(
    process: Process<'_>,
    threads: R,
    request: &Request<'_>,
) -> Result<Option<u8>, Fault> {
    let Request::Run {
        file,
        script,
        workers,
        batch,
        log,
        after,
        strict,
        ..
    } = request
    else {
        return Ok(None);
    };
    if after.is_some() && log.is_none() {
        return Ok(Some(refused(process.rt, process.alloc, NO_NEW_LOG)));
    }
    let asked = Asked {
        workers: *workers,
        batch: *batch,
        log: *log,
        after: *after,
        strict: *strict,
        form: form_of(request),
    };
    run(process, threads, file, script, asked)?;
    let is_refused = *strict && process.traces.has_refused();
    Ok(Some(if is_refused { REFUSED } else { 0 }))
}

// The exit status of what was compared with what it should be.
fn compared(agrees: bool) -> u8 {
    if agrees { 0 } else { DIFFERS }
}

// Does what is asked for of a history, and answers the exit status if nothing fails; `None` if nothing is asked of one.
fn looked_back(process: Process<'_>, request: &Request<'_>) -> Result<Option<u8>, Fault> {
    let form = form_of(request);
    match request {
        Request::Replay { file, .. } => {
            let agrees = replay(process, file, form)?;
            Ok(Some(compared(agrees)))
        }
        Request::Audit {
            logs,
            every,
            from,
            to,
            number,
            form,
        } => {
            let asked = Sought {
                every: *every,
                from: *from,
                to: *to,
                number: *number,
                form: *form,
            };
            Ok(Some(match audit(process, logs, asked)? {
                Found::Agrees => 0,
                Found::Differs => DIFFERS,
                Found::Nothing => refused(process.rt, process.alloc, NO_RECORD),
            }))
        }
        Request::Head { log, .. } => {
            head(process, log, form)?;
            Ok(Some(0))
        }
        _ => Ok(None),
    }
}

// Does what is asked for, and answers the exit status if nothing fails.
fn carried_out<R: Threads + Wait + Clock + Copy + Drop + Send + Sync + 'static>(
    process: Process<'_>,
    threads: R,
    request: &Request<'_>,
) -> Result<u8, Fault> {
    if let Some(status) = looked_back(process, request)? {
        return Ok(status);
    }
    if let Some(status) = ran(process, threads, request)? {
        return Ok(status);
    }
    let form = form_of(request);
    match request {
        Request::Plan {
            set,
            slots,
            at,
            ledger,
            ..
        } => plan(process, set, *at, *slots, *ledger, form)?,
        Request::Init { set, file, at, .. } => init(process, set, file, *at, form)?,
        Request::Status { file, .. } => status(process, file, form)?,
        Request::Show { file, task, .. } => show(process, file, *task, form)?,
        Request::Draw { set, slots, at } => {
            if !draw(process, set, *at, *slots)? {
                return Ok(refused(process.rt, process.alloc, TOO_LARGE));
            }
        }
        Request::Check { set, .. } => {
            if let Err(refusal) = check(process, set, form) {
                return Ok(refused_by_all(process, request, &refusal));
            }
        }
        Request::Explain { fault, .. } => {
            if !explain(process, fault, form)? {
                return Ok(unexplained(process.rt, process.alloc, fault));
            }
        }
        Request::Migrate { old, new, .. } => migrate_store(process, old, new, form)?,
        Request::Run { .. }
        | Request::Replay { .. }
        | Request::Audit { .. }
        | Request::Head { .. } => {}
    }
    Ok(0)
}

fn done<R: Threads + Wait + Clock + Copy + Drop + Send + Sync + 'static>(
    rt: &HostRuntime,
    threads: R,
    alloc: Global,
    words: &[&str],
) -> u8 {
    let request = match read_words(alloc, words) {
        Ok(Some(request)) => request,
        Ok(None) => return refused(rt, alloc, "the words ask for nothing"),
        Err(error) => return answered(rt, alloc, words, &error),
    };
    let traces = Traces::new();
    let process = Process {
        rt,
        alloc,
        traces: &traces,
    };
    match carried_out(process, threads, &request) {
        Ok(status) => {
            if status == 0 || status == REFUSED {
                warn(process, &request);
            }
            status
        }
        Err(fault) if is_closed(&traces, fault) => fault.status(),
        Err(fault) => {
            tell(process, &request, fault);
            fault.status()
        }
    }
}

// The program's words.
fn given(rt: &HostRuntime, alloc: Global) -> io::Result<Vec<String>> {
    let words = env::args(rt)?;
    Ok(words.collect(alloc)?)
}

fn main(rt: HostRuntime) -> ExitCode {
    let alloc = rt.alloc();
    let _streams = taken_streams(&rt);
    let given = match given(&rt, alloc) {
        Ok(given) => given,
        Err(error) if error.kind() == io::ErrorKind::OutOfMemory => {
            return ExitCode::from(failed(&rt, Fault::NoMemory));
        }
        Err(_) => return ExitCode::from(refused(&rt, alloc, NO_TEXT)),
    };
    let mut words = Vec::new(alloc);
    for word in given.iter() {
        if words.push(word.as_str()).is_err() {
            return ExitCode::from(failed(&rt, Fault::NoMemory));
        }
    }
    ExitCode::from(done(&rt, rt, alloc, words.as_slice()))
}
