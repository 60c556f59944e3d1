//! A plan and what jobs have computed, as JSON.
//!
//! Why it is so:
//! - **An object has its keys in alphabetical order and no space**, since `serde_json` keeps the members of an object sorted: so what is
//!   printed is a function of the object alone, and a clause says it by that crate's own definition of compact text.

ghost use Rattle.std.specs.Prelude.{◌≡◌, ◌<◌, ◌+◌, ◌∷◌, [], IfOk, false, map, string_bytes};
ghost use Rattle.serde_json.specs.Data.{string};
ghost use Rattle.serde_json.specs.View.{view};
ghost use Rattle.serde_json.specs.Written.{has_float};
ghost use Rattle.pfx_program_set.specs.Views.{task_view};
ghost use Rattle.pfx_kinds.specs.Cells.{cell_at};
ghost use Rattle.pfx_program.specs.Cells.{cells_text};
ghost use Rattle.pfx_program.specs.Lines.{name_of};
ghost use Rattle.pfx_program.specs.Objects.{object_line, slot_object, count_object, rule_object, scan_object, own_object, job_object};

use pfx_kinds::any::AnyJob;
use pfx_kinds::count::Count;
use pfx_kinds::own::Own;
use pfx_kinds::rule::{CELL_BYTES, Rule};
use pfx_kinds::scan::Scan;
use pfx_program_set::NamedTask;
use serde_json::{Value, json};
use std::alloc::{AllocError, Global};
use std::str;

/// The line of an object without a float. An error comes only if an allocation failed.
pub fn object_line(alloc: Global, value: &Value) -> Result<String, AllocError>
    requires whole { has_float (view value.now) ≡ false }
    ensures { IfOk result (λ s. string_bytes s ≡ object_line (view value.now)) }
{
    let mut line = value.to_string(alloc)?;
    line.push_str("\n")?;
    Ok(line)
}

fn name_of(alloc: Global, tasks: &[NamedTask], task: u16) -> Result<String, AllocError>
    ensures { IfOk result (λ s. string_bytes s ≡ name_of (map task_view tasks.now) task) }
{
    let place = task as usize;
    if place < tasks.len() {
        return String::from_str(alloc, tasks[place].name.as_str());
    }
    let idle = place - tasks.len();
    format!(in alloc; "*{idle}")
}

fn names_of(alloc: Global, tasks: &[NamedTask], row: &[u16]) -> Result<Vec<Value>, AllocError>
    ensures { IfOk result (λ v. map view v.items ≡ map string (map (name_of (map task_view tasks.now)) row.now)) }
{
    let mut names = Vec::new(alloc);
    for task in row {
        let name = name_of(alloc, tasks, *task)?;
        names.push(Value::String(name))?;
    }
    Ok(names)
}

// The object of a slot and its row.
fn slot_object(
    alloc: Global,
    tasks: &[NamedTask],
    slot: u64,
    row: &[u16],
) -> Result<Value, AllocError>
    ensures { IfOk result (λ v. view v ≡ slot_object slot (map (name_of (map task_view tasks.now)) row.now)) }
{
    let names = names_of(alloc, tasks, row)?;
    json!(in alloc; {"slot": slot, "run": names})
}

pub(crate) fn slot_line(
    alloc: Global,
    tasks: &[NamedTask],
    slot: u64,
    row: &[u16],
) -> Result<String, AllocError>
    ensures { IfOk result (λ s. string_bytes s ≡ object_line (slot_object slot (map (name_of (map task_view tasks.now)) row.now))) }
{
    let object = slot_object(alloc, tasks, slot, row)?;
    object_line(alloc, &object)
}

// A cell as a digit.
fn cell_digit(cells: &[u8; CELL_BYTES], i: usize) -> &'static str
    requires { i < 512 }
    ensures { result.now ≡ (48 + cell_at cells.now i) ∷ [] }
{
    let bit = cells[i / 8] >> (7 - i % 8) & 1;
    if bit == 0 { "0" } else { "1" }
}

#[tactic(auto, using(crate::proofs::JobLines::cells_more))]
fn cells_of(alloc: Global, cells: &[u8; CELL_BYTES], width: usize) -> Result<String, AllocError>
    requires { width < 513 }
    ensures { IfOk result (λ s. string_bytes s ≡ cells_text cells.now 0 width) }
{
    let mut text = String::new(alloc);
    for i in 0..width {
        text.push_str(cell_digit(cells, i))?;
    }
    Ok(text)
}

fn count_object(alloc: Global, task: usize, job: &Count) -> Result<Value, AllocError>
    ensures { IfOk result (λ v. view v ≡ count_object task job.now) }
{
    json!(in alloc; {"task": task, "job": "count", "left": job.left, "value": job.value})
}

fn rule_object(alloc: Global, task: usize, job: &Rule) -> Result<Value, AllocError>
    ensures { IfOk result (λ v. view v ≡ rule_object task job.now) }
{
    let cells = cells_of(alloc, &job.cells, usize::from(job.width))?;
    json!(in alloc; {"task": task, "job": "rule", "left": job.left, "rule": job.number, "cells": cells})
}

// A needle's bytes are printable, so only memory can fail.
fn scan_object(alloc: Global, task: usize, job: &Scan) -> Result<Value, AllocError>
    ensures { IfOk result (λ v. view v ≡ scan_object task job.now) }
{
    let Ok(needle) = str::from_utf8(job.needle()) else {
        return Err(AllocError);
    };
    json!(in alloc; {"task": task, "job": "scan", "left": job.left, "found": job.found, "of": needle})
}

// An answer's bytes are visible ASCII, so only memory can fail.
fn own_object(alloc: Global, task: usize, job: &Own) -> Result<Value, AllocError>
    ensures { IfOk result (λ v. view v ≡ own_object task job.now) }
{
    let Ok(answer) = str::from_utf8(job.answer()) else {
        return Err(AllocError);
    };
    if job.since == 0 {
        return json!(in alloc; {"task": task, "job": "own", "answered": job.answered, "text": answer});
    }
    json!(in alloc; {"task": task, "job": "own", "answered": job.answered, "since": job.since, "text": answer})
}

fn job_object(alloc: Global, task: usize, job: &AnyJob) -> Result<Value, AllocError>
    ensures { IfOk result (λ v. view v ≡ job_object task job.now) }
{
    match job {
        AnyJob::Count(job) => count_object(alloc, task, job),
        AnyJob::Rule(job) => rule_object(alloc, task, job),
        AnyJob::Scan(job) => scan_object(alloc, task, job),
        AnyJob::Own(job) => own_object(alloc, task, job),
    }
}

pub(crate) fn job_line(alloc: Global, task: usize, job: &AnyJob) -> Result<String, AllocError>
    ensures { IfOk result (λ s. string_bytes s ≡ object_line (job_object task job.now)) }
{
    let object = job_object(alloc, task, job)?;
    object_line(alloc, &object)
}
