//! The picture of a plan.

ghost use Rattle.std.specs.Prelude.{◌≡◌, ◌++◌, ◌≤◌, ◌<◌, OnOk, IfOk, IfErr, IsTrue, ◌↔◌, length, map};
ghost use Rattle.pfx_columns.specs.Ledgers.{total};
ghost use Rattle.pfx_program_set.specs.Views.{task_view};
ghost use Rattle.pfx_program.specs.Lines.{name_of};
ghost use Rattle.pfx_program_draw.specs.Drawing.{course_of, marks_of, letters, digits, sizes_of, lane_of, lanes_of, framed, draw_text, IsDrawing, IsTooLarge};
ghost use Rattle.pfx_program_draw.specs.Drawing.{DrawFails};
ghost use Rattle.pfx_program_draw.specs.Each.{most};
ghost use Rattle.pfx_program_draw.specs.Lags.{IsCourse};
ghost use Rattle.pfx_program_draw.specs.Sizes.{IsDrawable};

use crate::frame::{put_dashes, put_foot, put_grid, put_head, title};
use crate::lags::{Course, greater};
use crate::lane::{Lane, put_lane};
use crate::sizes::{PictureSizes, sizes_for};
use crate::text::{put_bytes, put_number};
use pfx_choice::{ChoiceFault, PlanFault, plan};
use pfx_columns::Columns;
use pfx_program_set::NamedTask;
use pfx_weights::Row;
use std::alloc::{AllocError, Global};

/// Why a plan isn't drawn.
#[derive(Clone, Copy, Debug)]
pub enum DrawFault {
    /// No slots are asked for, more than 1,440, or more than 262,144 over the lanes of all tasks.
    TooLarge,
    /// This slot has no row, for this cause.
    NoRow { slot: u64, cause: ChoiceFault },
    /// An allocation failed.
    NoMemory,
}

fn put_name(
    alloc: Global,
    text: &mut Vec<u8>,
    tasks: &[NamedTask],
    x: usize,
) -> Result<(), AllocError>
    ensures { OnOk result (text.new.items ≡ text.old.items ++ name_of (map task_view tasks.now) x) }
{
    if x < tasks.len() {
        return put_bytes(text, tasks[x].name.as_bytes());
    }
    text.push(b'*')?;
    put_number(alloc, text, (x - tasks.len()) as u64)
}

fn name(alloc: Global, tasks: &[NamedTask], x: usize) -> Result<Vec<u8>, AllocError>
    ensures { IfOk result (λ v. v.items ≡ name_of (map task_view tasks.now) x) }
{
    let mut text = Vec::new(alloc);
    put_name(alloc, &mut text, tasks, x)?;
    Ok(text)
}

fn letters(alloc: Global, tasks: &[NamedTask], x: usize) -> Result<u64, AllocError>
    ensures { IfOk result (λ n. n ≡ letters (map task_view tasks.now) x) }
{
    let name = name(alloc, tasks, x)?;
    Ok(name.len() as u64)
}

fn digits(alloc: Global, ledger: &Columns, x: usize) -> Result<u64, AllocError>
    requires { x < length ledger.now.set.weights }
    ensures { IfOk result (λ n. n ≡ digits ledger.now x) }
{
    let (_, p) = ledger.weight(x);
    let mut text = Vec::new(alloc);
    put_number(alloc, &mut text, u64::from(p))?;
    Ok(text.len() as u64)
}

#[tactic(auto, using(crate::proofs::Pieces::most_more, crate::proofs::Pieces::most_none))]
fn most_letters(alloc: Global, tasks: &[NamedTask], total: usize) -> Result<u64, AllocError>
    ensures { IfOk result (λ n. n ≡ most (letters (map task_view tasks.now)) total) }
{
    let mut most = 0;
    for x in 0..total {
        most = greater(most, letters(alloc, tasks, x)?);
    }
    Ok(most)
}

#[tactic(auto, using(crate::proofs::Pieces::most_more, crate::proofs::Pieces::most_none))]
fn most_digits(alloc: Global, ledger: &Columns) -> Result<u64, AllocError>
    ensures { IfOk result (λ n. n ≡ most (digits ledger.now) (total ledger.now)) }
{
    let mut most = 0;
    for x in 0..ledger.total() {
        most = greater(most, digits(alloc, ledger, x)?);
    }
    Ok(most)
}

fn sizes_of(
    alloc: Global,
    tasks: &[NamedTask],
    ledger: &Columns,
    slots: u64,
) -> Result<PictureSizes, AllocError>
    requires { slots ≤ 1440 }
    ensures is { IfOk result (λ s. s ≡ sizes_of (map task_view tasks.now) ledger.now slots) }
    ensures drawable { IfOk result IsDrawable }
{
    let total = ledger.total();
    let letters = most_letters(alloc, tasks, total)?;
    let digits = most_digits(alloc, ledger)?;
    Ok(sizes_for(
        ledger.slot(),
        slots,
        total as u64,
        letters.min(64),
        digits.min(64),
    ))
}

#[tactic(auto, using(crate::proofs::Courses::course_is))]
fn course_of(ledger: &Columns, x: usize) -> Course
    requires { x < length ledger.now.set.weights }
    ensures is { result ≡ course_of ledger.now x }
    ensures course { IsCourse result }
{
    let _total = ledger.total();
    let (e, p) = ledger.weight(x);
    Course {
        e: u64::from(e),
        p: u64::from(p),
        slot: ledger.slot(),
        alloc: ledger.alloc(x),
    }
}

fn marks_of(alloc: Global, rows: &[Row], x: u16) -> Result<Vec<u64>, AllocError>
    ensures marks { IfOk result (λ v. v.items ≡ marks_of rows.now x) }
    ensures count { IfOk result (λ v. length v.items ≡ length rows.now) }
{
    let mut marks = Vec::new(alloc);
    for row in rows {
        marks.push(u64::from(row.holds(x)))?;
    }
    Ok(marks)
}

fn put_lane_of(
    alloc: Global,
    text: &mut Vec<u8>,
    s: PictureSizes,
    tasks: &[NamedTask],
    ledger: &Columns,
    rows: &[Row],
    x: usize,
) -> Result<(), AllocError>
    requires drawable { IsDrawable s }
    requires within { x < length ledger.now.set.weights }
    requires limit { length rows.now ≤ 1440 }
    ensures { OnOk result (text.new.items ≡ text.old.items ++ lane_of s (map task_view tasks.now) ledger.now rows.now x) }
{
    let _total = ledger.total();
    let name = name(alloc, tasks, x)?;
    let course = course_of(ledger, x);
    let marks = marks_of(alloc, rows, x as u16)?;
    let real = ledger.real() as u64;
    let lane = Lane {
        x: x as u64,
        name: name.as_slice(),
        course,
        marks: marks.as_slice(),
    };
    put_lane(alloc, text, s, real, lane)
}

#[tactic(auto, using(crate::proofs::Pieces::each_more, crate::proofs::Pieces::each_begins))]
fn put_lanes(
    alloc: Global,
    text: &mut Vec<u8>,
    s: PictureSizes,
    tasks: &[NamedTask],
    ledger: &Columns,
    rows: &[Row],
) -> Result<(), AllocError>
    requires drawable { IsDrawable s }
    requires limit { length rows.now ≤ 1440 }
    ensures { OnOk result (text.new.items ≡ text.old.items ++ lanes_of s (map task_view tasks.now) ledger.now rows.now) }
{
    for x in 0..ledger.total() {
        put_lane_of(alloc, text, s, tasks, ledger, rows, x)?;
    }
    Ok(())
}

fn framed(
    alloc: Global,
    s: PictureSizes,
    name: &str,
    tasks: &[NamedTask],
    ledger: &Columns,
    rows: &[Row],
) -> Result<Vec<u8>, AllocError>
    requires drawable { IsDrawable s }
    requires limit { length rows.now ≤ 1440 }
    ensures { IfOk result (λ v. v.items ≡ framed s name.now (map task_view tasks.now) ledger.now rows.now) }
{
    let _total = ledger.total();
    let hyper = u64::from(ledger.hyper());
    let real = ledger.real() as u64;
    let title = title(alloc, s, name, real, u64::from(ledger.workers()))?;
    let mut text = Vec::new(alloc);
    put_head(alloc, &mut text, s, title.as_slice())?;
    put_grid(alloc, &mut text, s)?;
    put_dashes(alloc, &mut text, s, hyper)?;
    put_lanes(alloc, &mut text, s, tasks, ledger, rows)?;
    put_foot(alloc, &mut text, s, hyper)?;
    Ok(text)
}

fn drawn(
    alloc: Global,
    name: &str,
    tasks: &[NamedTask],
    ledger: &Columns,
    rows: &[Row],
) -> Result<Vec<u8>, AllocError>
    requires { length rows.now ≤ 1440 }
    ensures { IfOk result (λ v. v.items ≡ draw_text name.now (map task_view tasks.now) ledger.now rows.now) }
{
    let sizes = sizes_of(alloc, tasks, ledger, rows.len() as u64)?;
    framed(alloc, sizes, name, tasks, ledger, rows)
}

fn is_too_large(lanes: usize, slots: u64) -> bool
    requires { lanes ≤ 1152 }
    ensures { IsTrue result ↔ IsTooLarge lanes slots }
{
    slots == 0 || slots > 1440 || lanes as u64 * slots > 1 << 18
}

/// The picture of the plan of `slots` slots from a ledger on, as the text of an SVG: a lane for each task, whose name is
/// that of `tasks`, or `*j` for idle task `j`; in it a bar in each slot in which the task runs, and its lag.
///
/// It is `draw_text` of the rows of proportionate progress. `name` stands in the title if it is a name as tasks have
/// them. `TooLarge` comes first: for no slots, for more than 1,440, and if tasks times slots are above 2^18; `NoRow`
/// if a slot has no row, as `plan` says; `NoMemory` if an allocation failed.
pub fn draw(
    alloc: Global,
    name: &str,
    tasks: &[NamedTask],
    ledger: Columns,
    slots: u64,
) -> Result<Vec<u8>, DrawFault>
    ensures ok { IfOk result (λ text. IsDrawing name.now (map task_view tasks.now) ledger slots text.items) }
    ensures err { IfErr result (DrawFails ledger slots) }
{
    if is_too_large(ledger.total(), slots) {
        return Err(DrawFault::TooLarge);
    }
    let Ok(first) = ledger.copy_of(alloc) else {
        return Err(DrawFault::NoMemory);
    };
    let rows = match plan(alloc, ledger, slots) {
        Ok(rows) => rows,
        Err(PlanFault::Doomed { slot, cause, .. }) => {
            return Err(DrawFault::NoRow { slot, cause });
        }
        Err(PlanFault::OutOfMemory) => return Err(DrawFault::NoMemory),
    };
    match drawn(alloc, name, tasks, &first, rows.as_slice()) {
        Ok(text) => Ok(text),
        Err(_) => Err(DrawFault::NoMemory),
    }
}
