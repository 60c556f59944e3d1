// Totals as rows of CSV.
ghost use Rattle.std.specs.Prelude.{◌≡◌, Some, OnOk, pos};
ghost use Rattle.std.specs.Io.KnownBytes.{Appends};
ghost use Rattle.pfx_replay_totals.specs.Figures.{due_of, figures};
ghost use Rattle.pfx_replay_totals.specs.Lines.{count_cells, csv_head, csv_line, decimal_cells, exact_cells, head_cells, lag_cells};

use crate::fractions::Decimal;
use crate::printing::{Due, due_of, greatest_of, last_of, least_of};
use crate::total::Total;
use std::fmt::{Display, Formatter};
use std::io::Write;
use std::{fmt, io};

// The window and the task.
#[derive(Clone, Copy)]
struct Head(Total);

#[tactic(auto, unfolding(crate::specs::Lines::head_cells))]
impl Display for Head {
    ghost output = { λ t. Some (head_cells (figures t.0)) };

    fn fmt<W: fmt::Write>(&self, f: &mut Formatter<W>) -> fmt::Result {
        let total = self.0;
        write!(f, "{},{},{},", total.from, total.to, total.task)
    }
}

// How many slots it got.
#[derive(Clone, Copy)]
struct Counts(Total);

#[tactic(auto, unfolding(crate::specs::Lines::count_cells))]
impl Display for Counts {
    ghost output = { λ t. Some (count_cells (figures t.0)) };

    fn fmt<W: fmt::Write>(&self, f: &mut Formatter<W>) -> fmt::Result {
        let total = self.0;
        write!(f, "{},{},,,{}", total.got, total.used, total.wasted)
    }
}

// Its lags.
#[derive(Clone, Copy)]
struct Lags(Total);

#[tactic(auto, unfolding(crate::specs::Lines::lag_cells))]
impl Display for Lags {
    ghost output = { λ t. Some (lag_cells (figures t.0)) };

    fn fmt<W: fmt::Write>(&self, f: &mut Formatter<W>) -> fmt::Result {
        let total = self.0;
        let least = least_of(&total);
        let greatest = greatest_of(&total);
        let last = last_of(&total);
        write!(f, "{least},{greatest},{last}")
    }
}

// What it was due, and its lags, with decimals.
#[derive(Clone, Copy)]
struct Decimals(Total);

#[tactic(auto, unfolding(crate::specs::Lines::decimal_cells))]
impl Display for Decimals {
    ghost output = { λ t. Some (decimal_cells (figures t.0)) };

    fn fmt<W: fmt::Write>(&self, f: &mut Formatter<W>) -> fmt::Result {
        let total = self.0;
        let due = Decimal::of(due_of(&total));
        let least = Decimal::of(least_of(&total));
        let greatest = Decimal::of(greatest_of(&total));
        let last = Decimal::of(last_of(&total));
        write!(f, "{due},{least},{greatest},{last}")
    }
}

// The columns of exact numbers.
#[derive(Clone, Copy)]
struct Exact(Total);

#[tactic(auto, unfolding(crate::specs::Lines::exact_cells))]
impl Display for Exact {
    ghost output = { λ t. Some (exact_cells (figures t.0)) };

    fn fmt<W: fmt::Write>(&self, f: &mut Formatter<W>) -> fmt::Result {
        let total = self.0;
        write!(
            f,
            "{},{},{},{}",
            Head(total),
            Due(total),
            Counts(total),
            Lags(total)
        )
    }
}

/// Writes the names of the columns of CSV, as a line.
pub fn put_csv_head<W: Write>(output: &mut W) -> io::Result<()>
    ensures { OnOk result (Appends (W.contents output.old) (W.contents output.new) csv_head) }
{
    write!(
        output,
        "from,to,place,owner,due,got,used,extra,lent,wasted,lag_least,lag_greatest,lag_end,\
         due_decimal,lag_least_decimal,lag_greatest_decimal,lag_end_decimal\n"
    )
}

/// Writes a task's totals of a window as a line of CSV: exact numbers, and behind them the due and the lags with six decimals, cut
/// towards zero. The columns owner, extra and lent are empty.
pub fn put_csv<W: Write>(output: &mut W, total: &Total) -> io::Result<()>
    ensures { OnOk result (Appends (W.contents output.old) (W.contents output.new) (csv_line (figures total.now))) }
{
    write!(output, "{},{}\n", Exact(*total), Decimals(*total))
}
