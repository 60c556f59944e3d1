//! Bars along a lane.

ghost use Rattle.std.specs.Prelude.{◌≡◌, ◌++◌, ◌≤◌, ◌<◌, OnOk, length};
ghost use Rattle.pfx_program_draw.specs.Bars.{has, had, begins, ends, bar_piece, bars_path, run_track, cell_track};
ghost use Rattle.pfx_program_draw.specs.Sizes.{IsDrawable};

use crate::sizes::{PictureSizes, x_at};
use crate::text::{put_across, put_move};
use std::alloc::{AllocError, Global};

/// Where bars are drawn.
#[derive(Clone, Copy)]
pub struct Track {
    /// The line that is their middle.
    pub y: u64,
    /// How far each stays from the borders of its slots.
    pub gap: u64,
    /// Whether each slot has a bar of its own.
    pub apart: bool,
}

/// Whether a slot has the mark.
pub(crate) fn has(marks: &[u64], mark: u64, i: usize) -> bool
    ensures { result ≡ has marks.now mark i }
{
    i < marks.len() && marks[i] == mark
}

fn had(marks: &[u64], mark: u64, i: usize) -> bool
    ensures { result ≡ had marks.now mark i }
{
    0 < i && has(marks, mark, i - 1)
}

fn begins(track: Track, marks: &[u64], mark: u64, i: usize) -> bool
    ensures { result ≡ begins track marks.now mark i }
{
    has(marks, mark, i) && (track.apart || !had(marks, mark, i))
}

fn ends(track: Track, marks: &[u64], mark: u64, i: usize) -> bool
    requires { i < length marks.now }
    ensures { result ≡ ends track marks.now mark i }
{
    has(marks, mark, i) && (track.apart || !has(marks, mark, i + 1))
}

// What the `i`-th slot adds.
fn put_piece(
    alloc: Global,
    text: &mut Vec<u8>,
    s: PictureSizes,
    track: Track,
    marks: &[u64],
    mark: u64,
    i: usize,
) -> Result<(), AllocError>
    requires drawable { IsDrawable s }
    requires gap { track.gap ≤ 1 }
    requires limit { length marks.now ≤ 1440 }
    requires within { i < length marks.now }
    ensures { OnOk result (text.new.items ≡ text.old.items ++ bar_piece s track marks.now mark i) }
{
    if begins(track, marks, mark, i) {
        put_move(alloc, text, x_at(s, i as u64) + track.gap, track.y)?;
    }
    if ends(track, marks, mark, i) {
        let end = x_at(s, i as u64 + 1);
        put_across(alloc, text, end.saturating_sub(track.gap))?;
    }
    Ok(())
}

/// Puts the path of the bars of all slots that have a mark.
#[tactic(auto, using(crate::proofs::Pieces::each_more, crate::proofs::Pieces::each_begins))]
pub(crate) fn put_bars(
    alloc: Global,
    text: &mut Vec<u8>,
    s: PictureSizes,
    track: Track,
    marks: &[u64],
    mark: u64,
) -> Result<(), AllocError>
    requires drawable { IsDrawable s }
    requires gap { track.gap ≤ 1 }
    requires limit { length marks.now ≤ 1440 }
    ensures { OnOk result (text.new.items ≡ text.old.items ++ bars_path s track marks.now mark) }
{
    for i in 0..marks.len() {
        put_piece(alloc, text, s, track, marks, mark, i)?;
    }
    Ok(())
}

/// The track of the slots in which a task runs.
pub(crate) fn run_track(s: PictureSizes, y: u64) -> Track
    ensures is { result ≡ run_track s y }
    ensures gap { result.gap ≤ 1 }
{
    let gap = if s.widths.slot >= 4 { 1 } else { 0 };
    Track {
        y,
        gap,
        apart: s.widths.slot >= 9,
    }
}

/// The track of cells behind them.
pub(crate) fn cell_track(y: u64) -> Track
    ensures is { result ≡ cell_track y }
    ensures gap { result.gap ≤ 1 }
{
    Track {
        y,
        gap: 0,
        apart: false,
    }
}
