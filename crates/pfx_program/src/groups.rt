//! Records that stand ready together, whose commands share a call of the engine.
//!
//! Why it is so:
//! - **Records share a commit where they stand ready, and not by an option.** A peer that sends one record and waits sees what it saw;
//!   one that sends several at once waits for two syncs and not for two each. A group has only records that give a task a job or take one
//!   away, of one task each: so whether an answer is of the next unit can be tested before any of the group is carried out, and is the
//!   same behind the others. What shows a state, and Slots, end a group.

ghost use Rattle.std.specs.Prelude.{◌≡◌, ◌+◌, ◌-◌, ◌≤◌, ◌<◌, ◌^◌, false, length, IfOk, IfErr, OnOk};
ghost use Rattle.std.specs.Io.KnownBytes.{Appends};
ghost use Rattle.csv.specs.Records.{fields_of, AllText};
ghost use Rattle.pfx_program.specs.Groups.{touches, Avoid, HasNotFailed, IsBehind, IsGiven, IsJoining, IsStill, ToldFail, group_refusals, group_steps, told_count, told_line, told_refusals, told_text};
ghost use Rattle.pfx_program.specs.Reports.{IsAdded};
ghost use Rattle.pfx_program.specs.Printing.{MayPrint, MayTell};
ghost use Rattle.pfx_store_engine.specs.Promises.{IsSame};
ghost use Rattle.pfx_program.specs.Running.{run_of, Carried, Stopped};
ghost use Rattle.pfx_program.specs.Script.{commands_of};
ghost use Rattle.pfx_store_engine.specs.Sharing.{AreChanges};

use crate::OutputForm;
use crate::faults::machine_fault;
use crate::grants::{is_next, started};
use crate::printer::Printer;
use crate::report::Report;
use crate::writing::{put_reply, refuse};
use csv::StringRecord;
use pfx_fault::Fault;
use pfx_kinds::any::AnyJob;
use pfx_machine::Command;
use pfx_program_script::{Script, Verb, read_verb};
use pfx_store_engine::{Engine, Told};
use std::alloc::Global;
use std::io::Read;

/// What stands behind a group.
#[derive(Drop)]
pub(crate) enum Behind {
    /// No further record that is ready.
    Nothing,
    /// A record that doesn't join, in the row.
    Record,
    /// The script's end.
    End,
    /// A record that wasn't read.
    Unread(Fault),
    /// A record for which the engine failed.
    Failed(Fault),
}

/// The commands of a group, and what stands behind it.
#[derive(Drop)]
pub(crate) struct Gathered {
    pub(crate) group: Vec<Command<AnyJob>>,
    pub(crate) behind: Behind,
}

// Whether a record may join a group.
#[derive(Drop)]
enum Joining {
    // By this command.
    Joins(Command<AnyJob>),
    // It may not.
    Apart,
    // The engine failed.
    Failed(Fault),
}

// Whether a command is of the task.
fn touches(command: &Command<AnyJob>, task: u16) -> bool
    ensures { result ≡ touches task command.now }
{
    match command {
        Command::Submit { task: other, .. } => *other == task,
        Command::Withdraw { task: other } => *other == task,
        Command::Slot => true,
        Command::Reweigh { .. } => true,
    }
}

// Whether some command of a group is of the task.
fn has_task(group: &[Command<AnyJob>], task: u16) -> bool
    ensures { result ≡ false → Avoid task group.now }
{
    for command in group {
        if touches(command, task) {
            return true;
        }
    }
    false
}

// Whether a job for a task joins a group; an answer, only if it is of the next unit that the task was given.
fn joining_job<E: Engine<AnyJob>>(
    alloc: Global,
    task: u16,
    mut job: AnyJob,
    engine: &mut E,
) -> Joining
    ensures joins { IsGiven E.promise.faults (E.promise.state engine.old) task job result }
    ensures settled { HasNotFailed result → E.promise.settled engine.old → E.promise.settled engine.new }
    ensures same { IsSame E.promise engine.old engine.new }
{
    match is_next(alloc, task, &mut job, engine) {
        Ok(true) => Joining::Joins(Command::Submit { task, job }),
        Ok(false) => Joining::Apart,
        Err(fault) => Joining::Failed(fault),
    }
}

// Whether the record that was read joins a group of less than `most` commands: it gives a job to a task that no command of the group
// is of, or takes one away, so that what it asks for is the same behind them as before.
fn joining_row<E: Engine<AnyJob>>(
    alloc: Global,
    row: &StringRecord,
    most: u32,
    group: &[Command<AnyJob>],
    engine: &mut E,
) -> Joining
    requires text { AllText (fields_of row.now) }
    ensures joins { IsJoining E.promise.faults (E.promise.state engine.old) most group.now (fields_of row.now) result }
    ensures settled { HasNotFailed result → E.promise.settled engine.old → E.promise.settled engine.new }
    ensures same { IsSame E.promise engine.old engine.new }
{
    if group.len() >= most as usize {
        return Joining::Apart;
    }
    match read_verb(row) {
        Some(
            Verb::Submit {
                task,
                kind,
                goal,
                text,
            },
        ) if !has_task(group, task) => match started(kind, goal, text) {
            Ok(job) => joining_job(alloc, task, job, engine),
            Err(_) => Joining::Apart,
        },
        Some(Verb::Withdraw { task }) if !has_task(group, task) => {
            Joining::Joins(Command::Withdraw { task })
        }
        _ => Joining::Apart,
    }
}

/// Reads the next record and, as long as they join it, those that stand ready behind it, up to `most`: their commands, none of
/// which was carried out, and what stands behind them. Only the first one is waited for.
pub(crate) fn gather<R: Read + Drop, E: Engine<AnyJob>>(
    alloc: Global,
    script: &mut Script<R>,
    row: &mut StringRecord,
    most: u32,
    engine: &mut E,
) -> Gathered
    ensures behind { IsBehind E.promise.faults (E.promise.state engine.old) script.old script.new (fields_of row.new) result.group.items result.behind }
    ensures changes { AreChanges result.group.items }
    ensures few { length result.group.items ≤ most }
    ensures settled { IsStill result.behind → E.promise.settled engine.old → E.promise.settled engine.new }
    ensures same { IsSame E.promise engine.old engine.new }
    ensures counts { script.new.place < 2 ^ 64 }
    ensures places { script.old.place + length result.group.items < 2 ^ 64 }
{
    let mut group = Vec::new(alloc);
    'records: loop {
        match script.next(row) {
            Ok(true) => {}
            Ok(false) => return Gathered {
                group,
                behind: Behind::End,
            },
            Err(fault) => return Gathered {
                group,
                behind: Behind::Unread(fault),
            },
        }
        match joining_row(alloc, row, most, &group, engine) {
            Joining::Apart => return Gathered {
                group,
                behind: Behind::Record,
            },
            Joining::Failed(fault) => return Gathered {
                group,
                behind: Behind::Failed(fault),
            },
            Joining::Joins(command) => if group.push(command).is_err() {
                return Gathered {
                    group,
                    behind: Behind::Failed(Fault::NoMemory),
                };
            },
        }
        if group.len() >= most as usize || !script.has_ready() {
            return Gathered {
                group,
                behind: Behind::Nothing,
            };
        }
    }
}

// Prints what commands were told, and reports of them. `from` is the place of the record before the first one's.
fn put_told<W: Printer<E>, E>(
    alloc: Global,
    from: u64,
    report: &mut Report,
    form: OutputForm,
    output: &mut W,
    engine: &E,
    told: &[Told],
) -> Result<(), Fault>
    requires may { MayTell W.allows engine.now (W.contents output.old) (told_line form) (told_text form) told.now }
    requires room { report.old.accepted + length told.now ≤ 1048576 }
    requires places { from + length told.now < 2 ^ 64 }
    requires few { report.old.refused ≤ from }
    ensures ok { OnOk result (Appends (W.contents output.old) (W.contents output.new) (told_text form told.now)) }
    ensures counts { OnOk result (IsAdded report.old (told_count told.now) (told_refusals (from + 1) told.now) report.new) }
    ensures err { IfErr result (ToldFail form told.now (W.contents output.old) (W.contents output.new)) }
{
    let mut at = from;
    for entry in told {
        at += 1;
        match entry {
            Ok((number, reply)) => {
                put_reply(alloc, form, output, engine, *number, reply)?;
                report.accepted += 1;
            }
            Err(fault) => {
                let why = refuse(alloc, form, output, engine, machine_fault(*fault))?;
                report.note(at, why);
            }
        }
    }
    Ok(())
}

/// Carries the commands of a group out in one call of the engine, prints their lines once all that were accepted are kept, and reports
/// of them. `from` is the place of the record before the first one's.
pub(crate) fn run_group<W: Printer<E>, E: Engine<AnyJob>>(
    alloc: Global,
    group: Vec<Command<AnyJob>>,
    from: u64,
    report: &mut Report,
    form: OutputForm,
    output: &mut W,
    engine: &mut E,
) -> Result<(), Fault>
    requires changes { AreChanges group.items }
    requires few { length group.items ≤ 16 }
    requires room { length group.items ≤ 1048576 - report.old.accepted }
    requires places { from + length group.items < 2 ^ 64 }
    requires refused { report.old.refused ≤ from }
    requires may { MayPrint E.promise W.allows engine.old (W.contents output.old) (group_steps (run_of E.promise form engine.old report.old.accepted) group.items) }
    ensures ok { OnOk result (Carried E.promise (group_steps (run_of E.promise form engine.old report.old.accepted) group.items) engine.old engine.new
        (W.contents output.old) (W.contents output.new)) }
    ensures counts { OnOk result (IsAdded report.old (length (commands_of (group_steps (run_of E.promise form engine.old report.old.accepted) group.items)))
        (group_refusals (from + 1) (group_steps (run_of E.promise form engine.old report.old.accepted) group.items)) report.new) }
    ensures err { IfErr result (Stopped E.promise (length group.items) ⊥ (group_steps (run_of E.promise form engine.old report.old.accepted) group.items)
        engine.old engine.new (W.contents output.old) (W.contents output.new)) }
{
    if group.is_empty() {
        return Ok(());
    }
    let told = engine.all(alloc, group)?;
    put_told(alloc, from, report, form, output, engine, &told)
}
