//! `pfx run`, over any engine.
//!
//! Why it is so:
//! - **How many are tried at once is the caller's number, and is part of what a run ends with** (`Stopped`): with 1, which is the
//!   program's if the words don't say, a failure leaves one command in doubt, as without batches. The only cost of a larger number is
//!   that more commands after the printed ones are in doubt, and that lines come later.
//! - **What a script's weights take of memory is asked for before the count of commands is looked at**: a run that has none left ends as
//!   NoMemory though its next line would be SessionFull.
//! - **A script's run is a course of steps**, each with its lines and its command: what was printed and what was carried out are two
//!   lengths of one list. The engine of a store shows the store's state, the durable one, so that a failed command leaves it; whether
//!   that command survives is left open. An engine promises its faults for the state before the call: so an invented number is refused.
//! - **`run_script` takes the script and not its reader**, so that its contract can say that InputFailed comes only if reading has
//!   failed.
//! - **One record is a public call** (`run_record`), so that its contract says what was written when a record is answered and that the
//!   other records are left. What is left is stated of the script, whose reader may hold bytes that it was given: that it isn't asked for
//!   more too early is a matter of the reader's code, and tested.

ghost use Rattle.std.specs.Prelude.{◌≡◌, Some, None, ◌+◌, ◌-◌, ◌<◌, ◌≤◌, ◌^◌, ◌∷◌, [], length, max, IfOk, IfErr, OnOk};
ghost use Rattle.std.specs.Io.KnownBytes.{Appends};
ghost use Rattle.pfx_program_script.specs.Verbs.{said_by};
ghost use Rattle.pfx_program_script.specs.Weights.{said_weights};
ghost use Rattle.pfx_machine.specs.declared.command.Command.TheVariants.{Reweigh};
ghost use Rattle.pfx_fault.specs.declared.refusals.Fault.TheVariants as fault;
ghost use Rattle.pfx_program.specs.Answers.{reply_line, refused_line, settled_line, closed_line};
ghost use Rattle.pfx_program.specs.Script.{Step, at_start, command_step, slot_steps, text_of, job_by, submitted, jobs_step, verb_steps, shown, board_of};
ghost use Rattle.pfx_program.specs.Script.{refusal_of, commands_of};
ghost use Rattle.pfx_program.specs.Jobs.{shown_jobs};
ghost use Rattle.csv.specs.Records.{fields_of, AllText};
ghost use Rattle.pfx_program.specs.OneRecord.{Answers, IsUnanswered, RowDone, RowFails};
ghost use Rattle.pfx_program.specs.Printing.{MayPrint, MayRun, MayTell, line_of, lines_of};
ghost use Rattle.pfx_store_engine.specs.Promises.{IsSame, IsEngineFault, Shows};
ghost use Rattle.pfx_program_script.specs.Verbs.{Said, verb_of};
ghost use Rattle.pfx_program.specs.Running.{run_of, ran_steps, LineFails, LinesFail, Carried, Slotted, Stopped, Runs};
ghost use Rattle.pfx_kinds.specs.AnyKind.{any_kind};

use crate::OutputForm;
use crate::answers::{board_shown, closed_line, settled_line};
use crate::faults::{machine_fault, start_fault};
use crate::grants::{is_next, started};
use crate::groups::{Behind, Gathered, gather, run_group};
use crate::printer::Printer;
use crate::report::{AtRefusal, Report, Run};
use crate::show::shown;
use crate::writing::{put_bytes, put_refused, put_reply, put_text, refuse};
use csv::StringRecord;
use pfx_fault::Fault;
use pfx_kinds::any::AnyJob;
use pfx_kinds::start::JobStartFault;
use pfx_machine::{Board, Command, Reply, State};
use pfx_program_script::{Script, Verb, read_verb, said_weights};
use pfx_store_engine::{Engine, EngineFault};
use pfx_weights::Weights;
use std::alloc::Global;
use std::io::Read;

/// The most commands that one run accepts.
const MOST: u32 = 1_048_576;

// Carries a command out and prints its line; why it was refused, if it was.
fn run_command<W: Printer<E>, E: Engine<AnyJob>>(
    alloc: Global,
    command: Command<AnyJob>,
    accepted: &mut u32,
    form: OutputForm,
    output: &mut W,
    engine: &mut E,
) -> Result<Option<Fault>, Fault>
    requires may { MayPrint E.promise W.allows engine.old (W.contents output.old) (command_step (run_of E.promise form engine.old accepted.old) command ∷ []) }
    ensures ok { OnOk result (Carried E.promise (command_step (run_of E.promise form engine.old accepted.old) command ∷ []) engine.old engine.new
        (W.contents output.old) (W.contents output.new)) }
    ensures told { IfOk result (λ why. why ≡ refusal_of (command_step (run_of E.promise form engine.old accepted.old) command ∷ [])) }
    ensures counts { OnOk result
        (accepted.new ≡ accepted.old + length (commands_of (command_step (run_of E.promise form engine.old accepted.old) command ∷ []))) }
    ensures err { IfErr result (Stopped E.promise 1 ⊥ (command_step (run_of E.promise form engine.old accepted.old) command ∷ []) engine.old engine.new
        (W.contents output.old) (W.contents output.new)) }
{
    if *accepted >= MOST {
        put_refused(alloc, form, output, engine, Fault::SessionFull)?;
        return Ok(Some(Fault::SessionFull));
    }
    match engine.ask(alloc, command) {
        Ok((number, said)) => {
            *accepted += 1;
            put_reply(alloc, form, output, engine, number, &said)?;
            Ok(None)
        }
        Err(EngineFault::Refused(fault)) => {
            let fault = machine_fault(fault);
            put_refused(alloc, form, output, engine, fault)?;
            Ok(Some(fault))
        }
        Err(EngineFault::Failed(fault)) => Err(fault),
    }
}

// Prints the lines of Slots.
fn put_replies<W: Printer<E>, E>(
    alloc: Global,
    form: OutputForm,
    output: &mut W,
    engine: &E,
    said: &[(u64, Reply)],
) -> Result<(), Fault>
    requires may { MayTell W.allows engine.now (W.contents output.old) (line_of form) (lines_of form) said.now }
    ensures ok { OnOk result (Appends (W.contents output.old) (W.contents output.new) (text_of (ran_steps form said.now))) }
    ensures err { IfErr result (LinesFail form said.now (W.contents output.old) (W.contents output.new)) }
{
    for entry in said {
        put_reply(alloc, form, output, engine, entry.0, &entry.1)?;
    }
    Ok(())
}

// Carries out some of the slots that are left, as many as the batch has at the most, and prints their lines: how many, and if
// there are none, why the first one is refused.
fn run_batch<W: Printer<E>, E: Engine<AnyJob>>(
    alloc: Global,
    left: u32,
    run: Run,
    accepted: &mut u32,
    output: &mut W,
    engine: &mut E,
) -> Result<(u32, Option<Fault>), Fault>
    requires left { 0 < left }
    requires may { MayPrint E.promise W.allows engine.old (W.contents output.old) (slot_steps (run_of E.promise run.form engine.old accepted.old) left) }
    ensures ok { IfOk result (λ went. Slotted E.promise run.form left went.0 went.1 accepted.old engine.old engine.new (W.contents output.old) (W.contents output.new)) }
    ensures counts { IfOk result (λ went. accepted.new ≡ accepted.old + went.0) }
    ensures err { IfErr result (Stopped E.promise run.batch ⊥ (slot_steps (run_of E.promise run.form engine.old accepted.old) left) engine.old engine.new
        (W.contents output.old) (W.contents output.new)) }
{
    if *accepted >= MOST {
        put_refused(alloc, run.form, output, engine, Fault::SessionFull)?;
        return Ok((0, Some(Fault::SessionFull)));
    }
    match engine.slots(alloc, left.min(run.batch).min(MOST - *accepted)) {
        Ok(said) => {
            let ran = said.len() as u32;
            *accepted += ran;
            put_replies(alloc, run.form, output, engine, &said)?;
            Ok((ran, None))
        }
        Err(EngineFault::Refused(fault)) => {
            let fault = machine_fault(fault);
            put_refused(alloc, run.form, output, engine, fault)?;
            Ok((0, Some(fault)))
        }
        Err(EngineFault::Failed(fault)) => Err(fault),
    }
}

// Runs so many slots, some in each call of the engine, up to the first one that is refused; why it is, if one is.
fn run_slots<W: Printer<E>, E: Engine<AnyJob>>(
    alloc: Global,
    count: u32,
    run: Run,
    accepted: &mut u32,
    output: &mut W,
    engine: &mut E,
) -> Result<Option<Fault>, Fault>
    requires may { MayPrint E.promise W.allows engine.old (W.contents output.old) (slot_steps (run_of E.promise run.form engine.old accepted.old) count) }
    ensures ok { OnOk result (Carried E.promise (slot_steps (run_of E.promise run.form engine.old accepted.old) count) engine.old engine.new
        (W.contents output.old) (W.contents output.new)) }
    ensures counts { OnOk result (accepted.new ≡ accepted.old + length (commands_of (slot_steps (run_of E.promise run.form engine.old accepted.old) count))) }
    ensures told { IfOk result (λ why. why ≡ refusal_of (slot_steps (run_of E.promise run.form engine.old accepted.old) count)) }
    ensures err { IfErr result (Stopped E.promise run.batch ⊥ (slot_steps (run_of E.promise run.form engine.old accepted.old) count) engine.old engine.new
        (W.contents output.old) (W.contents output.new)) }
{
    let mut left = count;
    while left > 0 {
        let (ran, why) = run_batch(alloc, left, run, accepted, output, engine)?;
        if ran == 0 {
            return Ok(why);
        }
        left -= ran;
    }
    Ok(None)
}

// Gives a job to the task; an answer only if it is of the next unit that the task was given. Why it is refused, if it is.
fn run_submit<W: Printer<E>, E: Engine<AnyJob>>(
    alloc: Global,
    task: u16,
    job: Result<AnyJob, JobStartFault>,
    accepted: &mut u32,
    form: OutputForm,
    output: &mut W,
    engine: &mut E,
) -> Result<Option<Fault>, Fault>
    requires may { MayPrint E.promise W.allows engine.old (W.contents output.old) (submitted (run_of E.promise form engine.old accepted.old) task job ∷ []) }
    ensures ok { OnOk result (Carried E.promise (submitted (run_of E.promise form engine.old accepted.old) task job ∷ []) engine.old engine.new
        (W.contents output.old) (W.contents output.new)) }
    ensures counts { OnOk result
        (accepted.new ≡ accepted.old + length (commands_of (submitted (run_of E.promise form engine.old accepted.old) task job ∷ []))) }
    ensures told { IfOk result (λ why. why ≡ refusal_of (submitted (run_of E.promise form engine.old accepted.old) task job ∷ [])) }
    ensures err { IfErr result (Stopped E.promise 1 ⊥ (submitted (run_of E.promise form engine.old accepted.old) task job ∷ []) engine.old engine.new
        (W.contents output.old) (W.contents output.new)) }
{
    match job {
        Ok(mut job) => {
            if !is_next(alloc, task, &mut job, engine)? {
                return refuse(alloc, form, output, engine, Fault::NotNext { task });
            }
            run_command(
                alloc,
                Command::Submit { task, job },
                accepted,
                form,
                output,
                engine,
            )
        }
        Err(fault) => refuse(alloc, form, output, engine, start_fault(fault)),
    }
}

// Gives the tasks the weights that a text says. Why they are refused, if they are.
fn run_reweigh<W: Printer<E>, E: Engine<AnyJob>>(
    alloc: Global,
    workers: u32,
    text: &str,
    accepted: &mut u32,
    form: OutputForm,
    output: &mut W,
    engine: &mut E,
) -> Result<Option<Fault>, Fault>
    requires may { MayPrint E.promise W.allows engine.old (W.contents output.old)
        (command_step (run_of E.promise form engine.old accepted.old) (Reweigh workers (said_weights text.now)) ∷ []) }
    ensures ok { OnOk result (Carried E.promise (command_step (run_of E.promise form engine.old accepted.old) (Reweigh workers (said_weights text.now)) ∷ [])
        engine.old engine.new (W.contents output.old) (W.contents output.new)) }
    ensures counts { OnOk result (accepted.new ≡ accepted.old
        + length (commands_of (command_step (run_of E.promise form engine.old accepted.old) (Reweigh workers (said_weights text.now)) ∷ []))) }
    ensures told { IfOk result (λ why. why
        ≡ refusal_of (command_step (run_of E.promise form engine.old accepted.old) (Reweigh workers (said_weights text.now)) ∷ [])) }
    ensures err { IfErr result (Stopped E.promise 1 ⊥ (command_step (run_of E.promise form engine.old accepted.old) (Reweigh workers (said_weights text.now)) ∷ [])
        engine.old engine.new (W.contents output.old) (W.contents output.new)) }
{
    let Ok(weights) = said_weights(alloc, text) else {
        return Err(Fault::NoMemory);
    };
    let weights = Weights::new(weights);
    run_command(
        alloc,
        Command::Reweigh { workers, weights },
        accepted,
        form,
        output,
        engine,
    )
}

fn run_settle<W: Printer<E>, E: Engine<AnyJob>>(
    alloc: Global,
    form: OutputForm,
    output: &mut W,
    engine: &mut E,
) -> Result<(), Fault>
    requires may { MayPrint E.promise W.allows engine.old (W.contents output.old) (shown (settled_line form (E.promise.state engine.old).number) ∷ []) }
    ensures ok { OnOk result (Carried E.promise (shown (settled_line form (E.promise.state engine.old).number) ∷ []) engine.old engine.new
        (W.contents output.old) (W.contents output.new)) }
    ensures err { IfErr result (Stopped E.promise 1 ⊥ (shown (settled_line form (E.promise.state engine.old).number) ∷ []) engine.old engine.new
        (W.contents output.old) (W.contents output.new)) }
{
    let number = engine.settled(alloc)?;
    match settled_line(alloc, form, number) {
        Ok(line) => put_text(output, engine, line.as_str()),
        Err(_) => Err(Fault::NoMemory),
    }
}

// The board and a copy of the engine's state, once every accepted command is kept.
fn looked<E: Engine<AnyJob>>(alloc: Global, engine: &mut E) -> Result<(Board, State<AnyJob>), Fault>
    ensures shows { IfOk result (λ found. Shows any_kind (E.promise.state engine.old) found.0) }
    ensures copies { IfOk result (λ found. found.1 ≡ E.promise.state engine.old) }
    ensures settled { OnOk result (E.promise.settled engine.new) }
    ensures same { IsSame E.promise engine.old engine.new }
    ensures fails { IfErr result (IsEngineFault E.promise.faults (E.promise.state engine.old)) }
{
    let board = engine.status(alloc)?;
    let state = engine.state(alloc)?;
    Ok((board, state))
}

/// Prints the board of the engine's state, once every accepted command is kept: `board 4 slot 3`, and a line for each
/// task; or as JSON one object. Any fault is the writer's, the memory's or the engine's: a beginning of the board is printed then.
pub fn run_status<W: Printer<E>, E: Engine<AnyJob>>(
    alloc: Global,
    form: OutputForm,
    output: &mut W,
    engine: &mut E,
) -> Result<(), Fault>
    requires may { MayPrint E.promise W.allows engine.old (W.contents output.old) (shown (board_of form (E.promise.state engine.old)) ∷ []) }
    ensures ok { OnOk result
        (Carried E.promise (shown (board_of form (E.promise.state engine.old)) ∷ []) engine.old engine.new (W.contents output.old) (W.contents output.new)) }
    ensures settled { OnOk result (E.promise.settled engine.new) }
    ensures err { IfErr result (Stopped E.promise 1 ⊥ (shown (board_of form (E.promise.state engine.old)) ∷ []) engine.old engine.new
        (W.contents output.old) (W.contents output.new)) }
{
    let (board, state) = looked(alloc, engine)?;
    match board_shown(alloc, form, &board, state.jobs()) {
        Ok(text) => put_text(output, engine, text.as_str()),
        Err(_) => Err(Fault::NoMemory),
    }
}

// Prints what the jobs of the engine's state have computed, or the job of one task, once every accepted command is kept. Why it doesn't, if
// the task has none.
fn run_jobs<W: Printer<E>, E: Engine<AnyJob>>(
    alloc: Global,
    task: Option<u16>,
    form: OutputForm,
    output: &mut W,
    engine: &mut E,
) -> Result<Option<Fault>, Fault>
    requires may { MayPrint E.promise W.allows engine.old (W.contents output.old) (jobs_step form (shown_jobs form (E.promise.state engine.old).jobs task) ∷ []) }
    ensures ok { OnOk result (Carried E.promise (jobs_step form (shown_jobs form (E.promise.state engine.old).jobs task) ∷ []) engine.old engine.new
        (W.contents output.old) (W.contents output.new)) }
    ensures told { IfOk result (λ why. why ≡ refusal_of (jobs_step form (shown_jobs form (E.promise.state engine.old).jobs task) ∷ [])) }
    ensures settled { OnOk result (E.promise.settled engine.new) }
    ensures err { IfErr result (Stopped E.promise 1 ⊥ (jobs_step form (shown_jobs form (E.promise.state engine.old).jobs task) ∷ []) engine.old engine.new
        (W.contents output.old) (W.contents output.new)) }
{
    let state = engine.state(alloc)?;
    match shown(alloc, form, &state, task) {
        Ok(text) => {
            put_bytes(output, engine, text.as_slice())?;
            Ok(None)
        }
        Err(fault) => match fault {
            Fault::NoMemory => Err(fault),
            _ => refuse(alloc, form, output, engine, fault),
        },
    }
}

// Ends a run that has this report.
fn close<W: Printer<E>, E: Engine<AnyJob>>(
    alloc: Global,
    report: Report,
    form: OutputForm,
    output: &mut W,
    engine: &mut E,
) -> Result<Report, Fault>
    requires may { MayPrint E.promise W.allows engine.old (W.contents output.old) (shown (closed_line form (E.promise.state engine.old).number) ∷ []) }
    ensures ok { OnOk result (Carried E.promise (shown (closed_line form (E.promise.state engine.old).number) ∷ []) engine.old engine.new
        (W.contents output.old) (W.contents output.new)) }
    ensures settled { OnOk result (E.promise.settled engine.new) }
    ensures same { IfOk result (λ told. told ≡ report) }
    ensures err { IfErr result (Stopped E.promise 1 ⊥ (shown (closed_line form (E.promise.state engine.old).number) ∷ []) engine.old engine.new
        (W.contents output.old) (W.contents output.new)) }
{
    let last = engine.settled(alloc)?;
    match closed_line(alloc, form, last) {
        Ok(line) => {
            put_text(output, engine, line.as_str())?;
            Ok(report)
        }
        Err(_) => Err(Fault::NoMemory),
    }
}

// Carries out what a record asks for. Why it is refused, if it is.
fn run_verb<W: Printer<E>, E: Engine<AnyJob>>(
    alloc: Global,
    verb: Verb<'_>,
    run: Run,
    accepted: &mut u32,
    output: &mut W,
    engine: &mut E,
) -> Result<Option<Fault>, Fault>
    requires may { MayPrint E.promise W.allows engine.old (W.contents output.old) (verb_steps (run_of E.promise run.form engine.old accepted.old) (said_by verb)) }
    ensures ok { OnOk result (Carried E.promise (verb_steps (run_of E.promise run.form engine.old accepted.old) (said_by verb.entry)) engine.old engine.new
        (W.contents output.old) (W.contents output.new)) }
    ensures counts { OnOk result
        (accepted.new ≡ accepted.old + length (commands_of (verb_steps (run_of E.promise run.form engine.old accepted.old) (said_by verb.entry)))) }
    ensures told { IfOk result (λ why. why ≡ refusal_of (verb_steps (run_of E.promise run.form engine.old accepted.old) (said_by verb.entry))) }
    ensures err { IfErr result (Stopped E.promise run.batch ⊥ (verb_steps (run_of E.promise run.form engine.old accepted.old) (said_by verb.entry))
        engine.old engine.new (W.contents output.old) (W.contents output.new)) }
{
    match verb {
        Verb::Submit {
            task,
            kind,
            goal,
            text,
        } => {
            let job = started(kind, goal, text);
            run_submit(alloc, task, job, accepted, run.form, output, engine)
        }
        Verb::Slot { count } => run_slots(alloc, count, run, accepted, output, engine),
        Verb::Withdraw { task } => {
            run_command(
                alloc,
                Command::Withdraw { task },
                accepted,
                run.form,
                output,
                engine,
            )
        }
        Verb::Settle => {
            run_settle(alloc, run.form, output, engine)?;
            Ok(None)
        }
        Verb::Status => {
            run_status(alloc, run.form, output, engine)?;
            Ok(None)
        }
        Verb::Show { task } => run_jobs(alloc, task, run.form, output, engine),
        Verb::Reweigh { workers, weights } => {
            run_reweigh(alloc, workers, weights, accepted, run.form, output, engine)
        }
    }
}

// Carries out what the record asks for that was read, and prints its lines. `at` is its place. Why it is refused, if it is.
fn run_row<W: Printer<E>, E: Engine<AnyJob>>(
    alloc: Global,
    at: u64,
    row: &StringRecord,
    run: Run,
    accepted: &mut u32,
    output: &mut W,
    engine: &mut E,
) -> Result<Option<Fault>, Fault>
    requires text { AllText (fields_of row.now) }
    requires may { (verb : Said) → verb_of (fields_of row.now) ≡ Some verb
        → MayPrint E.promise W.allows engine.old (W.contents output.old) (verb_steps (run_of E.promise run.form engine.old accepted.old) verb) }
    ensures done { IfOk result (λ why. RowDone E.promise run.form (fields_of row.now) why accepted.old accepted.new engine.old engine.new
        (W.contents output.old) (W.contents output.new)) }
    ensures fails { IfErr result (RowFails E.promise run.form run.batch (fields_of row.now) at accepted.old engine.old engine.new (W.contents output.old) (W.contents output.new)) }
{
    let Some(verb) = read_verb(row) else {
        return Err(Fault::BadScript { at });
    };
    run_verb(alloc, verb, run, accepted, output, engine)
}

/// Reads the next record of a script, carries out what it asks for and prints its lines: `true` if there is a record,
/// `false` if none is left, and then nothing is done. `row` is the memory of a record, `accepted` counts the commands of a
/// run: after 1,048,576 of them each further one is refused as SessionFull. `run.batch` and `run.form` are as `run_script` has them; what
/// else `run` says is of several records.
///
/// With `true` exactly the record's text was written, each line once its command was kept, and of the records none
/// after it was read: the script has them left. So a record is answered before the next one is waited for.
///
/// `BadScript` has the place of a record without form, for which nothing is done; other faults come as from `run_script`.
pub fn run_record<R: Read + Drop, W: Printer<E>, E: Engine<AnyJob>>(
    alloc: Global,
    script: &mut Script<R>,
    row: &mut StringRecord,
    run: Run,
    accepted: &mut u32,
    output: &mut W,
    engine: &mut E,
) -> Result<bool, Fault>
    requires may { MayRun E.promise W.allows run.form AtRefusal.GoOn script.old accepted.old engine.old (W.contents output.old) }
    ensures answers { IfOk result (λ more. Answers E.promise run.form script.old more script.new accepted.old accepted.new engine.old engine.new
        (W.contents output.old) (W.contents output.new)) }
    ensures fails { IfErr result
        (IsUnanswered E.promise run.form run.batch script.old script.new accepted.old engine.old engine.new (W.contents output.old) (W.contents output.new)) }
    ensures counts { script.new.place < 2 ^ 64 }
{
    if !script.next(row)? {
        return Ok(false);
    }
    let at = script.place();
    run_row(alloc, at, row, run, accepted, output, engine)?;
    Ok(true)
}

// How many records may share a call: none if the first refusal ends the run, so that none behind it is carried out.
fn together(at_refusal: AtRefusal, group: u32, accepted: u32) -> u32
    ensures group { result ≤ group }
    ensures room { result ≤ 1048576 - accepted }
    ensures ends { at_refusal ≡ AtRefusal.End → result ≡ 0 }
{
    match at_refusal {
        AtRefusal::GoOn => group.min(MOST.saturating_sub(accepted)),
        AtRefusal::End => 0,
    }
}

/// Runs the records of a script that are left over an engine: prints a line for each command, in the script's order, and
/// `closed` with the last number at the end, once every accepted command is kept.
///
/// The engine is asked for up to `run.batch` slots of a record in one call. Records that give tasks jobs or take jobs away
/// share a call, up to `run.group` of them, as long as the next one stands ready and is of a task that none before it is
/// of: none is waited for before those that were read are answered. What is printed is the same for each batch and each group: a
/// line is printed once its command is kept, and the commands of a call are all kept before the first of their lines.
/// By `run.form` lines are text, as `2 ran 0: 0 1`, or objects of JSON, as `{"did":"ran","number":2,"slot":0,"tasks":[0,1]}`.
///
/// A command that is refused has a line `refused`, takes no number and changes nothing, and the script goes on or, if `run.at_refusal` says so,
/// ends there; a record of slots ends with its first refusal. After 1,048,576 accepted commands each further one is refused as
/// SessionFull. The report counts the commands that were accepted and the records that were refused, and has the first of these, with
/// its place, counted from 1 at the script's begin. `BadScript` tells the place, counted from 1, of the first record that has no form; the lines before it
/// are printed, and its commands stand. After any other fault whole lines are printed, but for the writer's own, and the
/// command of each of them is carried out and kept; of as many commands more as the batch or the group has it isn't known:
/// `InputFailed` says that the script's reading failed, `OutputFailed` that the writer did, and all others come from the
/// memory or the engine.
pub fn run_script<R: Read + Drop, W: Printer<E>, E: Engine<AnyJob>>(
    alloc: Global,
    script: &mut Script<R>,
    run: Run,
    output: &mut W,
    engine: &mut E,
) -> Result<Report, Fault>
    requires may { MayRun E.promise W.allows run.form run.at_refusal script.old 0 engine.old (W.contents output.old) }
    ensures { Runs E.promise run.form run.at_refusal (max run.batch run.group) script.old script.new.failed engine.old engine.new
        (W.contents output.old) (W.contents output.new) result }
{
    let mut row = StringRecord::new(alloc);
    let mut report = Report::new();
    'groups: loop {
        let most = together(run.at_refusal, run.group, report.accepted);
        let from = script.place();
        let Gathered {
            group: commands,
            behind,
        } = gather(alloc, script, &mut row, most, engine);
        if let Behind::Failed(fault) = behind {
            return Err(fault);
        }
        run_group(alloc, commands, from, &mut report, run.form, output, engine)?;
        match behind {
            Behind::Nothing => {}
            Behind::Record => {
                let at = script.place();
                let accepted = &mut report.accepted;
                let why = run_row(alloc, at, &row, run, accepted, output, engine)?;
                report.note(at, why);
                if why.is_some() && run.at_refusal == AtRefusal::End {
                    return close(alloc, report, run.form, output, engine);
                }
            }
            Behind::End => return close(alloc, report, run.form, output, engine),
            Behind::Unread(fault) | Behind::Failed(fault) => return Err(fault),
        }
    }
}
