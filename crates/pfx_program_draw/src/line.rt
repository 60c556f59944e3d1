//! The line of a task's lag.

ghost use Rattle.std.specs.Prelude.{◌≡◌, ◌++◌, ◌≤◌, ◌<◌, OnOk, length};
ghost use Rattle.pfx_program_draw.specs.Lags.{IsCourse};
ghost use Rattle.pfx_program_draw.specs.Line.{lag_y, line_point, lag_path};
ghost use Rattle.pfx_program_draw.specs.Sizes.{IsDrawable};

use crate::lags::{Course, ahead_by, behind_by, counted};
use crate::sizes::{PictureSizes, x_at};
use crate::text::{put_line, put_move};
use std::alloc::{AllocError, Global};

#[tactic(auto, using(crate::proofs::Bounds::product_within))]
fn lag_y(s: PictureSizes, c: Course, base: u64, i: u64, k: u64) -> u64
    requires drawable { IsDrawable s }
    requires course { IsCourse c }
    requires base { base ≤ 131072 }
    requires slots { i ≤ 1440 }
    requires runs { k ≤ 1440 }
    ensures { result ≡ lag_y s c base i k }
{
    let below = base + ahead_by(c, i, k) * s.heights.lag / c.p;
    below.saturating_sub(behind_by(c, i, k) * s.heights.lag / c.p)
}

fn put_point(
    alloc: Global,
    text: &mut Vec<u8>,
    s: PictureSizes,
    c: Course,
    base: u64,
    i: u64,
    k: u64,
) -> Result<(), AllocError>
    requires drawable { IsDrawable s }
    requires course { IsCourse c }
    requires base { base ≤ 131072 }
    requires slots { i ≤ 1440 }
    requires runs { k ≤ 1440 }
    ensures { OnOk result (text.new.items ≡ text.old.items ++ line_point s c base i k) }
{
    put_line(alloc, text, x_at(s, i), lag_y(s, c, base, i, k))
}

/// Puts the path of the lag, from that before the first slot on, about the height `base` of no lag.
#[tactic(auto, using(crate::proofs::Pieces::each_more, crate::proofs::Pieces::each_begins, crate::proofs::Pieces::count_more, crate::proofs::Pieces::no_count))]
pub(crate) fn put_lag_path(
    alloc: Global,
    text: &mut Vec<u8>,
    s: PictureSizes,
    c: Course,
    base: u64,
    marks: &[u64],
) -> Result<(), AllocError>
    requires drawable { IsDrawable s }
    requires course { IsCourse c }
    requires base { base ≤ 131072 }
    requires limit { length marks.now ≤ 1440 }
    ensures { OnOk result (text.new.items ≡ text.old.items ++ lag_path s c base marks.now) }
{
    put_move(alloc, text, x_at(s, 0), lag_y(s, c, base, 0, 0))?;
    let mut k = 0;
    for i in 0..marks.len() {
        k = counted(k, marks, i);
        put_point(alloc, text, s, c, base, i as u64 + 1, k)?;
    }
    Ok(())
}
