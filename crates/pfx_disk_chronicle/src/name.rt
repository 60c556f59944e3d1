//! Whose calls they are.
use std::marker::Brand;

/// Names a list of calls, and says what the disk held before the first of them.
pub trait Charted {
    ghost use Rattle.std.specs.Prelude.{ℕ, List};
    ghost use Rattle.logbook.specs.Pages.{Book};

    /// The list that is meant.
    ghost calls: { Book };

    /// The disk's clock before the first of them.
    ghost clock: { ℕ };

    /// How often the disk had failed.
    ghost failures: { ℕ };

    /// What the disk held.
    ghost image: { List ℕ };

    /// That it held that, and a stop would have left that alone. Of a disk that is honest this is shown; of a file it is the
    /// premise.
    ghost held: { Type 0 };
}

impl Charted for Brand {
    ghost use Rattle.std.specs.Prelude.{[]};

    ghost calls = { record { number = 0; log_name = 0; cells_name = 0 } };

    ghost clock = { 0 };

    ghost failures = { 0 };

    ghost image = { [] };

    ghost held = { Unit {0} };
}
