// Totals as lines.
ghost use Rattle.std.specs.Prelude.{◌≡◌, Some, OnOk, pos};
ghost use Rattle.std.specs.Io.KnownBytes.{Appends};
ghost use Rattle.pfx_replay_totals.specs.Figures.{due_of, figures};
ghost use Rattle.pfx_replay_totals.specs.Lines.{counts_text, due_text, end_text, figures_line, figures_text, head_text, lags_text};

use crate::fractions::Ratio;
use crate::total::Total;
use std::fmt::{Display, Formatter};
use std::io::Write;
use std::{fmt, io};

/// What the task was due, over its period.
pub(crate) fn due_of(total: &Total) -> Ratio
    ensures parts { result.parts ≡ pos (due_of (figures total.now)) }
    ensures period { result.period ≡ total.now.p }
{
    Ratio::of(total.due_parts(), total.p)
}

/// The least of its lags.
pub(crate) fn least_of(total: &Total) -> Ratio
    ensures parts { result.parts ≡ total.now.lag_least }
    ensures period { result.period ≡ total.now.p }
{
    Ratio::of(total.lag_least, total.p)
}

/// The greatest.
pub(crate) fn greatest_of(total: &Total) -> Ratio
    ensures parts { result.parts ≡ total.now.lag_greatest }
    ensures period { result.period ≡ total.now.p }
{
    Ratio::of(total.lag_greatest, total.p)
}

/// The last.
pub(crate) fn last_of(total: &Total) -> Ratio
    ensures parts { result.parts ≡ total.now.lag_end }
    ensures period { result.period ≡ total.now.p }
{
    Ratio::of(total.lag_end, total.p)
}

/// What it was due, over its period.
#[derive(Clone, Copy)]
pub(crate) struct Due(pub(crate) Total);

#[tactic(auto, unfolding(crate::specs::Lines::due_text))]
impl Display for Due {
    ghost output = { λ t. Some (due_text (figures t.0)) };

    fn fmt<W: fmt::Write>(&self, f: &mut Formatter<W>) -> fmt::Result {
        let total = self.0;
        let due = due_of(&total);
        write!(f, "{due}")
    }
}

// The window and the task.
#[derive(Clone, Copy)]
struct Head(Total);

#[tactic(auto, unfolding(crate::specs::Lines::head_text))]
impl Display for Head {
    ghost output = { λ t. Some (head_text (figures t.0)) };

    fn fmt<W: fmt::Write>(&self, f: &mut Formatter<W>) -> fmt::Result {
        let total = self.0;
        write!(f, "{}..{} task {}", total.from, total.to, total.task)
    }
}

// How many slots it got.
#[derive(Clone, Copy)]
struct Counts(Total);

#[tactic(auto, unfolding(crate::specs::Lines::counts_text))]
impl Display for Counts {
    ghost output = { λ t. Some (counts_text (figures t.0)) };

    fn fmt<W: fmt::Write>(&self, f: &mut Formatter<W>) -> fmt::Result {
        let total = self.0;
        write!(
            f,
            "got {} used {} wasted {}",
            total.got, total.used, total.wasted
        )
    }
}

// Its lags.
#[derive(Clone, Copy)]
struct Lags(Total);

#[tactic(auto, unfolding(crate::specs::Lines::lags_text))]
impl Display for Lags {
    ghost output = { λ t. Some (lags_text (figures t.0)) };

    fn fmt<W: fmt::Write>(&self, f: &mut Formatter<W>) -> fmt::Result {
        let total = self.0;
        let least = least_of(&total);
        let greatest = greatest_of(&total);
        write!(f, "lag {least} to {greatest}")
    }
}

// Its last lag.
#[derive(Clone, Copy)]
struct End(Total);

#[tactic(auto, unfolding(crate::specs::Lines::end_text))]
impl Display for End {
    ghost output = { λ t. Some (end_text (figures t.0)) };

    fn fmt<W: fmt::Write>(&self, f: &mut Formatter<W>) -> fmt::Result {
        let total = self.0;
        let last = last_of(&total);
        write!(f, "at the end {last}")
    }
}

#[tactic(auto, unfolding(crate::specs::Lines::figures_text))]
impl Display for Total {
    ghost output = { λ t. Some (figures_text (figures t)) };

    fn fmt<W: fmt::Write>(&self, f: &mut Formatter<W>) -> fmt::Result {
        let total = *self;
        write!(
            f,
            "{} due {} {} {}, {}",
            Head(total),
            Due(total),
            Counts(total),
            Lags(total),
            End(total)
        )
    }
}

/// Writes the line of a task's totals of a window, as
/// `0..720 task 0 due 720/3 got 240 used 200 wasted 40 lag -1/3 to 2/3, at the end 0/3`.
/// An `Err` is the writer's own, as of each function here.
pub fn put_total<W: Write>(output: &mut W, total: &Total) -> io::Result<()>
    ensures { OnOk result (Appends (W.contents output.old) (W.contents output.new) (figures_line (figures total.now))) }
{
    write!(output, "{total}\n")
}
