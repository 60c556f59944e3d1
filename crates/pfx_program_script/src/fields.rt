//! The numbers in a record's fields.

ghost use Rattle.std.specs.Prelude.{◌≡◌};
ghost use Rattle.pfx_program_script.specs.Verbs.{task_in, goal_in, count_in};

use pfx_kinds_decimal::number_in;

pub(crate) fn task_in(text: &str) -> Option<u16>
    ensures { result ≡ task_in text.now }
{
    let task = number_in(5, text.as_bytes())?;
    if task <= 65_535 {
        Some(task as u16)
    } else {
        None
    }
}

pub(crate) fn goal_in(text: &str) -> Option<u64>
    ensures { result ≡ goal_in text.now }
{
    if text.is_empty() {
        return Some(0);
    }
    number_in(10, text.as_bytes())
}

pub(crate) fn count_in(text: &str) -> Option<u32>
    ensures { result ≡ count_in text.now }
{
    if text.is_empty() {
        return Some(1);
    }
    let count = number_in(10, text.as_bytes())?;
    if 1 <= count && count <= 1_048_576 {
        Some(count as u32)
    } else {
        None
    }
}
