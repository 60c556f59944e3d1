//! What an audit sees of a history's records: their totals, or the one record that is sought.

ghost use Rattle.std.specs.Prelude.{⊤};

use crate::files::fault_of;
use crate::progress::Told;
use pfx_fault::Fault;
use pfx_kinds::any::AnyJob;
use pfx_machine::State;
use pfx_program::object_line;
use pfx_program_args::AuditForm;
use pfx_record::Record;
use pfx_replay::{PlainState, apply_all};
use pfx_replay_audit::Watch;
use pfx_replay_totals::{Choice, Total, Totals, put_csv, put_csv_head, put_total, total_object};
use std::alloc::{AllocError, Global};
use std::io::Write;
use std::mem;

/// What is sought in a history.
#[derive(Clone, Copy)]
pub(crate) struct Sought {
    /// How many slots a window has at the most.
    pub(crate) every: Option<u32>,
    /// The first slot of the first window.
    pub(crate) from: Option<u64>,
    /// The slot behind the last window.
    pub(crate) to: Option<u64>,
    /// The number of the record that is sought alone.
    pub(crate) number: Option<u64>,
    /// How it is printed.
    pub(crate) form: AuditForm,
}

impl Sought {
    // The slots that are asked for.
    fn choice(self) -> Choice {
        Choice {
            from: self.from.unwrap_or(0),
            to: self.to,
            every: match self.every {
                Some(every) => Some(u64::from(every)),
                None => None,
            },
        }
    }
}

/// What sees the records of a history, and prints totals or the record that is sought.
#[derive(Drop)]
pub(crate) struct Watcher<'a, W> {
    alloc: Global,
    asked: Sought,
    output: W,
    totals: Totals,
    counted: Told<'a, ()>,
    is_found: bool,
    failed: Option<Fault>,
}

// The line of totals, in the form that is asked for.
fn put_row(
    alloc: Global,
    text: &mut Vec<u8>,
    form: AuditForm,
    total: &Total,
) -> Result<(), AllocError> {
    let put = match form {
        AuditForm::Text => put_total(text, total),
        AuditForm::Csv => put_csv(text, total),
        AuditForm::Json => {
            let line = object_line(alloc, &total_object(alloc, total)?)?;
            text.extend_from_slice(line.as_bytes())?;
            return Ok(());
        }
    };
    match put {
        Ok(()) => Ok(()),
        Err(_) => Err(AllocError),
    }
}

impl<'a, W: Write> Watcher<'a, W> {
    /// One that has seen nothing yet, and prints on this writer.
    pub(crate) fn new(
        rt: &'a HostRuntime,
        alloc: Global,
        asked: Sought,
        output: W,
    ) -> Watcher<'a, W> {
        Watcher {
            alloc,
            asked,
            output,
            totals: Totals::new(asked.choice()),
            counted: Told::new(rt, alloc, (), "records", None),
            is_found: false,
            failed: None,
        }
    }

    /// Prints what stands before all lines: the columns' names, if the lines are CSV.
    pub(crate) fn begin(&mut self) -> Result<(), Fault> {
        if self.asked.form != AuditForm::Csv || self.asked.number.is_some() {
            return Ok(());
        }
        match put_csv_head(&mut self.output) {
            Ok(()) => Ok(()),
            Err(error) => Err(fault_of(&error, Fault::OutputFailed)),
        }
    }

    // Prints a text. Where that fails it is kept.
    fn print(&mut self, text: &[u8]) -> Result<(), AllocError> {
        match self.output.write_all(text) {
            Ok(()) => Ok(()),
            Err(error) => {
                self.failed = Some(fault_of(&error, Fault::OutputFailed));
                Err(AllocError)
            }
        }
    }

    // Prints the totals of a window.
    fn print_rows(&mut self, rows: &[Total]) -> Result<(), AllocError> {
        if rows.is_empty() {
            return Ok(());
        }
        let mut text = Vec::new(self.alloc);
        for row in rows {
            put_row(self.alloc, &mut text, self.asked.form, row)?;
        }
        self.print(&text)
    }

    /// Prints the totals of the last window.
    pub(crate) fn end(&mut self) -> Result<(), Fault> {
        if self.asked.number.is_some() {
            return Ok(());
        }
        let totals = mem::replace(&mut self.totals, Totals::new(self.asked.choice()));
        let rows = totals.end(self.alloc);
        match self.print_rows(&rows) {
            Ok(()) => Ok(()),
            Err(_) => Err(self.failed().unwrap_or(Fault::NoMemory)),
        }
    }

    /// Takes the line of progress away.
    pub(crate) fn clear(&mut self) {
        self.counted.clear();
    }

    /// Whether it has seen the record that is sought, if one is.
    pub(crate) fn is_found(&self) -> bool {
        self.asked.number.is_none() || self.is_found
    }

    /// Why it couldn't print, if that is so.
    pub(crate) fn failed(&self) -> Option<Fault> {
        self.failed
    }
}

// The tasks of a record, with this between them; a row's are those that ran.
fn tasks_text(alloc: Global, entry: &Record<AnyJob>, between: char) -> Result<String, AllocError> {
    let mut text = String::new(alloc);
    match entry {
        Record::Submit { task, .. } => text = task.to_string(alloc)?,
        Record::Withdraw { task } => text = task.to_string(alloc)?,
        Record::Reweigh { .. } => {}
        Record::Slot { row } => {
            for (i, place) in row.iter().enumerate() {
                if i > 0 {
                    text.push(between)?;
                }
                text.push_str(place.task.to_string(alloc)?.as_str())?;
            }
        }
    }
    Ok(text)
}

// What a command did, in one word.
fn did(entry: &Record<AnyJob>) -> &'static str {
    match entry {
        Record::Submit { .. } => "submitted",
        Record::Slot { .. } => "ran",
        Record::Withdraw { .. } => "withdrawn",
        Record::Reweigh { .. } => "reweighed",
    }
}

// The line of a record, as `record 12 ran 0 1`, or the object of it.
fn record_line(
    alloc: Global,
    json: bool,
    before: &PlainState<AnyJob>,
    entry: &Record<AnyJob>,
) -> Result<String, AllocError> {
    let number = before.number.saturating_add(1);
    let did = did(entry);
    if json {
        let tasks = tasks_text(alloc, entry, ',')?;
        return format!(in alloc;
            "{{\"record\":{{\"did\":\"{did}\",\"number\":{number},\"tasks\":[{tasks}]}}}}\n"
        );
    }
    let tasks = tasks_text(alloc, entry, ' ')?;
    format!(in alloc; "record {number} {did} {tasks}\n")
}

impl<W: Write> Watcher<'_, W> {
    // Sees one record, and the state before it.
    fn look(
        &mut self,
        alloc: Global,
        before: &PlainState<AnyJob>,
        entry: &Record<AnyJob>,
    ) -> Result<(), AllocError> {
        self.counted.count(1);
        match self.asked.number {
            None => {
                let rows = self.totals.see(alloc, before, entry)?;
                self.print_rows(&rows)
            }
            Some(number) => {
                if number.checked_sub(1) == Some(before.number) {
                    self.is_found = true;
                    let json = self.asked.form == AuditForm::Json;
                    let text = record_line(alloc, json, before, entry)?;
                    return self.print(text.as_bytes());
                }
                Ok(())
            }
        }
    }
}

impl<W: Write> Watch<AnyJob> for Watcher<'_, W> {
    ghost sees = { λ old s records new. ⊤ };

    fn see(
        &mut self,
        alloc: Global,
        state: &State<AnyJob>,
        records: &[Record<AnyJob>],
    ) -> Result<(), AllocError> {
        let mut state = state.copy_of(alloc)?;
        for i in 0..records.len() {
            let before = PlainState::of(alloc, &state)?;
            self.look(alloc, &before, &records[i])?;
            let _ = apply_all(alloc, &mut state, &records[i..i + 1])?;
        }
        Ok(())
    }
}
