//! A task's lane.
//!
//! Why it is so:
//! - **One lane per task**, not per worker: a row says which tasks run, not which worker runs them, names stay legible where colours end
//!   at eight, and the lag stands under the bars that it answers to.

ghost use Rattle.std.specs.Prelude.{◌≡◌, ◌++◌, ◌≤◌, ◌<◌, OnOk, length};
ghost use Rattle.pfx_program_draw.specs.Lags.{runs_in, IsCourse};
ghost use Rattle.pfx_program_draw.specs.Lane.{hue, colour, task_words, lag_words, shade, stroke, bars, across, bounds, base_line, area, lag_line, named};
ghost use Rattle.pfx_program_draw.specs.Lane.{weight_label, lag_label, tall_drawn, words_y, tall_written, level_ink, cells, all_cells, low_lane, lane_body};
ghost use Rattle.pfx_program_draw.specs.Lane.{lane};
ghost use Rattle.pfx_program_draw.specs.Sizes.{IsDrawable};

use crate::bars::{cell_track, put_bars, run_track};
use crate::lags::{Course, Summary, levels, put_lag, put_point_lag, summed};
use crate::line::put_lag_path;
use crate::phrases::{Phrase, put_phrase, put_phrase_number};
use crate::sizes::{PictureSizes, slots_end, width, y_at};
use crate::text::{put_across, put_bytes, put_down, put_move, put_number};
use std::alloc::{AllocError, Global};

/// A task's lane: the task's number, its name, its course up to the first slot, and the mark 1 for each slot in which it runs.
#[derive(Clone, Copy)]
pub(crate) struct Lane<'a> {
    pub(crate) x: u64,
    pub(crate) name: &'a [u8],
    pub(crate) course: Course,
    pub(crate) marks: &'a [u64],
}

fn hue(k: u64) -> Phrase
    ensures { result ≡ hue k }
{
    match k {
        0 => Phrase::Blue,
        1 => Phrase::Orange,
        2 => Phrase::Green,
        3 => Phrase::Pink,
        4 => Phrase::Sky,
        5 => Phrase::Vermilion,
        6 => Phrase::Black,
        _ => Phrase::Olive,
    }
}

fn colour(real: u64, x: u64) -> Phrase
    ensures { result ≡ colour real x }
{
    if x < real { hue(x % 8) } else { Phrase::Grey }
}

#[tactic(auto, unfolding(crate::specs::Lane::task_words))]
fn put_task_words(
    alloc: Global,
    text: &mut Vec<u8>,
    s: PictureSizes,
    name: &[u8],
    c: Course,
    m: Summary,
) -> Result<(), AllocError>
    ensures { OnOk result (text.new.items ≡ text.old.items ++ task_words s name.now c m) }
{
    put_phrase(text, Phrase::LaneTitle)?;
    put_bytes(text, name)?;
    put_phrase_number(alloc, text, Phrase::Comma, c.e)?;
    put_phrase_number(alloc, text, Phrase::Of, c.p)?;
    put_phrase_number(alloc, text, Phrase::Colon, m.runs)?;
    put_phrase_number(alloc, text, Phrase::Of, s.slots)?;
    put_phrase(text, Phrase::SlotsLag)
}

#[tactic(auto, unfolding(crate::specs::Lane::lag_words))]
fn put_lag_words(
    alloc: Global,
    text: &mut Vec<u8>,
    s: PictureSizes,
    c: Course,
    m: Summary,
) -> Result<(), AllocError>
    requires drawable { IsDrawable s }
    requires course { IsCourse c }
    requires few { m.runs ≤ 1440 }
    ensures { OnOk result (text.new.items ≡ text.old.items ++ lag_words s c m) }
{
    put_lag(alloc, text, c, s.slots, m.runs)?;
    put_phrase_number(alloc, text, Phrase::MostBehind, m.behind)?;
    put_phrase_number(alloc, text, Phrase::Over, c.p)?;
    put_phrase_number(alloc, text, Phrase::MostAhead, m.ahead)?;
    put_phrase_number(alloc, text, Phrase::Over, c.p)?;
    put_phrase(text, Phrase::TitleEnd)
}

fn put_shade(alloc: Global, text: &mut Vec<u8>, s: PictureSizes, x: u64) -> Result<(), AllocError>
    requires drawable { IsDrawable s }
    requires within { x ≤ 1152 }
    ensures { OnOk result (text.new.items ≡ text.old.items ++ shade s x) }
{
    if x % 2 == 0 {
        put_phrase_number(alloc, text, Phrase::ShadeY, y_at(s, x))?;
        put_phrase_number(alloc, text, Phrase::Width, width(s))?;
        put_phrase_number(alloc, text, Phrase::Height, s.heights.lane)?;
        put_phrase(text, Phrase::ShadeEnd)?;
    }
    Ok(())
}

fn put_stroke(alloc: Global, text: &mut Vec<u8>, ink: Phrase, wide: u64) -> Result<(), AllocError>
    ensures { OnOk result (text.new.items ≡ text.old.items ++ stroke ink wide) }
{
    put_phrase(text, Phrase::Stroke)?;
    put_phrase(text, ink)?;
    put_phrase_number(alloc, text, Phrase::StrokeWidth, wide)?;
    put_phrase(text, Phrase::PathEnd)
}

fn put_run_bars(
    alloc: Global,
    text: &mut Vec<u8>,
    s: PictureSizes,
    ink: Phrase,
    y: u64,
    marks: &[u64],
) -> Result<(), AllocError>
    requires drawable { IsDrawable s }
    requires y { y ≤ 65536 }
    requires limit { length marks.now ≤ 1440 }
    ensures { OnOk result (text.new.items ≡ text.old.items ++ bars s ink y marks.now) }
{
    put_phrase(text, Phrase::PathBegin)?;
    put_bars(alloc, text, s, run_track(s, y + s.heights.middle), marks, 1)?;
    put_stroke(alloc, text, ink, s.heights.bar)
}

fn put_across_all(
    alloc: Global,
    text: &mut Vec<u8>,
    s: PictureSizes,
    y: u64,
) -> Result<(), AllocError>
    requires { IsDrawable s }
    ensures { OnOk result (text.new.items ≡ text.old.items ++ across s y) }
{
    put_move(alloc, text, s.left, y)?;
    put_across(alloc, text, slots_end(s))
}

fn put_bounds(
    alloc: Global,
    text: &mut Vec<u8>,
    s: PictureSizes,
    base: u64,
) -> Result<(), AllocError>
    requires drawable { IsDrawable s }
    requires base { base ≤ 131072 }
    ensures { OnOk result (text.new.items ≡ text.old.items ++ bounds s base) }
{
    put_phrase(text, Phrase::PathBegin)?;
    put_across_all(alloc, text, s, base.saturating_sub(s.heights.lag))?;
    put_across_all(alloc, text, s, base + s.heights.lag)?;
    put_phrase(text, Phrase::BoundsEnd)
}

fn put_base_line(
    alloc: Global,
    text: &mut Vec<u8>,
    s: PictureSizes,
    base: u64,
) -> Result<(), AllocError>
    requires { IsDrawable s }
    ensures { OnOk result (text.new.items ≡ text.old.items ++ base_line s base) }
{
    put_phrase(text, Phrase::PathBegin)?;
    put_across_all(alloc, text, s, base)?;
    put_phrase(text, Phrase::BaseEnd)
}

fn put_area(
    alloc: Global,
    text: &mut Vec<u8>,
    s: PictureSizes,
    ink: Phrase,
    base: u64,
    path: &[u8],
) -> Result<(), AllocError>
    ensures { OnOk result (text.new.items ≡ text.old.items ++ area s ink base path.now) }
{
    put_phrase(text, Phrase::PathBegin)?;
    put_bytes(text, path)?;
    put_down(alloc, text, base)?;
    put_across(alloc, text, s.left)?;
    put_phrase(text, Phrase::AreaFill)?;
    put_phrase(text, ink)?;
    put_phrase(text, Phrase::AreaEnd)
}

fn put_lag_line(text: &mut Vec<u8>, s: PictureSizes, path: &[u8]) -> Result<(), AllocError>
    ensures { OnOk result (text.new.items ≡ text.old.items ++ lag_line s path.now) }
{
    put_phrase(text, Phrase::PathBegin)?;
    put_bytes(text, path)?;
    if s.widths.slot > 4 {
        put_phrase(text, Phrase::ThickEnd)
    } else {
        put_phrase(text, Phrase::ThinEnd)
    }
}

fn put_name(
    alloc: Global,
    text: &mut Vec<u8>,
    y: u64,
    size: Phrase,
    name: &[u8],
) -> Result<(), AllocError>
    ensures { OnOk result (text.new.items ≡ text.old.items ++ named y size name.now) }
{
    put_phrase_number(alloc, text, Phrase::NameY, y)?;
    put_phrase(text, size)?;
    put_bytes(text, name)?;
    put_phrase(text, Phrase::TextEnd)
}

fn put_weight_label(
    alloc: Global,
    text: &mut Vec<u8>,
    s: PictureSizes,
    y: u64,
    c: Course,
) -> Result<(), AllocError>
    ensures { OnOk result (text.new.items ≡ text.old.items ++ weight_label s y c) }
{
    put_phrase_number(alloc, text, Phrase::TextX, s.left.saturating_sub(10))?;
    put_phrase_number(alloc, text, Phrase::TextY, y)?;
    put_phrase(text, Phrase::WeightEnd)?;
    put_number(alloc, text, c.e)?;
    put_phrase_number(alloc, text, Phrase::Over, c.p)?;
    put_phrase(text, Phrase::TextEnd)
}

fn put_lag_label(
    alloc: Global,
    text: &mut Vec<u8>,
    s: PictureSizes,
    y: u64,
    c: Course,
    runs: u64,
) -> Result<(), AllocError>
    requires drawable { IsDrawable s }
    requires course { IsCourse c }
    requires few { runs ≤ 1440 }
    ensures { OnOk result (text.new.items ≡ text.old.items ++ lag_label s y c runs) }
{
    put_phrase_number(alloc, text, Phrase::TextX, slots_end(s) + 8)?;
    put_phrase_number(alloc, text, Phrase::TextY, y)?;
    put_phrase(text, Phrase::LagEnd)?;
    put_lag(alloc, text, c, s.slots, runs)?;
    put_phrase(text, Phrase::Space)?;
    put_point_lag(alloc, text, c, s.slots, runs)?;
    put_phrase(text, Phrase::TextEnd)
}

fn put_tall_drawn(
    alloc: Global,
    text: &mut Vec<u8>,
    s: PictureSizes,
    ink: Phrase,
    lane: Lane<'_>,
) -> Result<(), AllocError>
    requires drawable { IsDrawable s }
    requires within { lane.x ≤ 1152 }
    requires course { IsCourse lane.course }
    requires limit { length lane.marks.now ≤ 1440 }
    ensures { OnOk result (text.new.items ≡ text.old.items ++ tall_drawn s ink lane.entry.x lane.entry.course lane.entry.marks.now) }
{
    let top = y_at(s, lane.x);
    let base = top + s.heights.zero;
    let mut path = Vec::new(alloc);
    put_lag_path(alloc, &mut path, s, lane.course, base, lane.marks)?;
    put_shade(alloc, text, s, lane.x)?;
    put_run_bars(alloc, text, s, ink, top, lane.marks)?;
    put_bounds(alloc, text, s, base)?;
    put_base_line(alloc, text, s, base)?;
    put_area(alloc, text, s, ink, base, path.as_slice())?;
    put_lag_line(text, s, path.as_slice())
}

fn words_y(s: PictureSizes, x: u64) -> u64
    requires drawable { IsDrawable s }
    requires within { x ≤ 1152 }
    ensures { result ≡ words_y s x }
{
    y_at(s, x) + (4 + s.heights.lane / 2)
}

fn put_tall_written(
    alloc: Global,
    text: &mut Vec<u8>,
    s: PictureSizes,
    lane: Lane<'_>,
    runs: u64,
) -> Result<(), AllocError>
    requires few { runs ≤ 1440 }
    requires course { IsCourse lane.course }
    requires drawable { IsDrawable s }
    requires within { lane.x ≤ 1152 }
    ensures { OnOk result (text.new.items ≡ text.old.items ++ tall_written s lane.entry.x lane.entry.name.now lane.entry.course runs) }
{
    let y = words_y(s, lane.x);
    put_name(alloc, text, y, Phrase::NameEnd, lane.name)?;
    put_weight_label(alloc, text, s, y, lane.course)?;
    put_lag_label(alloc, text, s, y, lane.course, runs)
}

fn level_ink(k: u64) -> Phrase
    ensures { result ≡ level_ink k }
{
    match k {
        1 => Phrase::BehindQuarter,
        2 => Phrase::BehindHalf,
        3 => Phrase::BehindMost,
        4 => Phrase::AheadQuarter,
        5 => Phrase::AheadHalf,
        _ => Phrase::AheadMost,
    }
}

fn put_cells(
    alloc: Global,
    text: &mut Vec<u8>,
    s: PictureSizes,
    y: u64,
    marks: &[u64],
    k: u64,
) -> Result<(), AllocError>
    requires drawable { IsDrawable s }
    requires y { y ≤ 65536 }
    requires limit { length marks.now ≤ 1440 }
    ensures { OnOk result (text.new.items ≡ text.old.items ++ cells s y marks.now k) }
{
    put_phrase(text, Phrase::PathBegin)?;
    put_bars(alloc, text, s, cell_track(y + s.heights.middle), marks, k)?;
    put_stroke(alloc, text, level_ink(k), s.heights.lane)
}

fn put_all_cells(
    alloc: Global,
    text: &mut Vec<u8>,
    s: PictureSizes,
    y: u64,
    marks: &[u64],
) -> Result<(), AllocError>
    requires drawable { IsDrawable s }
    requires y { y ≤ 65536 }
    requires limit { length marks.now ≤ 1440 }
    ensures { OnOk result (text.new.items ≡ text.old.items ++ all_cells s y marks.now) }
{
    put_cells(alloc, text, s, y, marks, 1)?;
    put_cells(alloc, text, s, y, marks, 2)?;
    put_cells(alloc, text, s, y, marks, 3)?;
    put_cells(alloc, text, s, y, marks, 4)?;
    put_cells(alloc, text, s, y, marks, 5)?;
    put_cells(alloc, text, s, y, marks, 6)
}

fn put_low_lane(
    alloc: Global,
    text: &mut Vec<u8>,
    s: PictureSizes,
    lane: Lane<'_>,
) -> Result<(), AllocError>
    requires limit { length lane.marks.now ≤ 1440 }
    requires course { IsCourse lane.course }
    requires drawable { IsDrawable s }
    requires within { lane.x ≤ 1152 }
    ensures { OnOk result (text.new.items ≡ text.old.items ++ low_lane s lane.entry.x lane.entry.name.now lane.entry.course lane.entry.marks.now) }
{
    let top = y_at(s, lane.x);
    let levels = levels(alloc, lane.course, lane.marks)?;
    put_all_cells(alloc, text, s, top, levels.as_slice())?;
    put_run_bars(alloc, text, s, Phrase::Dark, top, lane.marks)?;
    put_name(alloc, text, top + 8, Phrase::SmallEnd, lane.name)
}

#[tactic(auto, unfolding(crate::specs::Lane::lane_body))]
fn put_body(
    alloc: Global,
    text: &mut Vec<u8>,
    s: PictureSizes,
    real: u64,
    lane: Lane<'_>,
    m: Summary,
) -> Result<(), AllocError>
    requires drawable { IsDrawable s }
    requires within { lane.x ≤ 1152 }
    requires course { IsCourse lane.course }
    requires limit { length lane.marks.now ≤ 1440 }
    requires few { m.runs ≤ 1440 }
    requires runs { m.runs ≡ runs_in lane.marks.now (length lane.marks.now) }
    ensures { OnOk result (text.new.items ≡ text.old.items ++ lane_body s real lane.entry.x lane.entry.name.now lane.entry.course lane.entry.marks.now) }
{
    if s.lanes <= 48 {
        put_tall_drawn(alloc, text, s, colour(real, lane.x), lane)?;
        put_tall_written(alloc, text, s, lane, m.runs)
    } else {
        put_low_lane(alloc, text, s, lane)
    }
}

/// Puts the lane of a task of a set with `real` real tasks.
#[tactic(auto, unfolding(crate::specs::Lane::lane))]
pub(crate) fn put_lane(
    alloc: Global,
    text: &mut Vec<u8>,
    s: PictureSizes,
    real: u64,
    task: Lane<'_>,
) -> Result<(), AllocError>
    requires drawable { IsDrawable s }
    requires within { task.x ≤ 1152 }
    requires course { IsCourse task.course }
    requires limit { length task.marks.now ≤ 1440 }
    ensures { OnOk result (text.new.items ≡ text.old.items ++ lane s real task.entry.x task.entry.name.now task.entry.course task.entry.marks.now) }
{
    let m = summed(task.course, task.marks);
    put_task_words(alloc, text, s, task.name, task.course, m)?;
    put_lag_words(alloc, text, s, task.course, m)?;
    put_body(alloc, text, s, real, task, m)?;
    put_phrase(text, Phrase::LaneEnd)
}
