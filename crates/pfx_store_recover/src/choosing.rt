// Which of the two checkpoint areas is taken, and which of the two segments is read first.
ghost use Rattle.std.specs.Prelude.{◌≡◌, ◌≤◌, ◌<◌, ◌+◌, ◌^◌, ℕ, List, Ok, Err, MatchResult, if◌then◌else◌, ◌==◌, nat_lt, true, false};
ghost use Rattle.pfx_store_image.specs.Recovery.{taken, begun};
ghost use Rattle.pfx_store_recover.specs.Answers.{refusal_of};

use crate::faults::Refusal;
use pfx_fault::Part;

/// Which of two checkpoint areas, or of two segments, was chosen, and how the other stands.
#[derive(Clone, Copy)]
pub(crate) struct Choice {
    /// Whether it is the second.
    pub second: bool,
    /// Whether the other's gate stands open.
    pub other_open: bool,
    /// The number after the other's gate.
    pub other_number: u64,
}

impl Choice {
    ghost use Rattle.pfx_store_recover.specs.Choosing.{IsChoice};

    /// The choice of the second or the first of these two.
    pub(crate) fn of(is_second: bool, first: Numbered, second: Numbered) -> Choice
        ensures chosen { IsChoice is_second first second result }
    {
        let other = if is_second { first } else { second };
        Choice {
            second: is_second,
            other_open: other.open,
            other_number: other.number,
        }
    }

    /// Whether the other goes on after the command of this number.
    pub(crate) fn goes_on(&self, last: u64) -> bool
        requires { last < 2 ^ 48 }
        ensures { result ≡ (if self.now.other_open then (self.now.other_number == last + 1) else false) }
    {
        self.other_open && self.other_number == last + 1
    }

    /// Whether the other is closed, or begins no higher than at this number.
    pub(crate) fn is_passed(&self, last: u64) -> bool
        ensures { result ≡ (if self.now.other_open then nat_lt self.now.other_number (last + 1) else true) }
    {
        !self.other_open || self.other_number <= last
    }
}

/// A gate's place, how it stands, and the number after it.
#[derive(Clone, Copy)]
pub(crate) struct Numbered {
    pub at: usize,
    pub open: bool,
    pub number: u64,
}

/// The checkpoint area that is taken: the open one, or of two open ones the one with the greater number.
pub(crate) fn newer(first: Numbered, second: Numbered) -> Result<bool, Refusal>
    ensures { MatchResult result
        (λ b. taken first.at second.at first.open second.open first.number second.number ≡ Ok b)
        (λ e. taken first.at second.at first.open second.open first.number second.number ≡ Err (refusal_of e)) }
{
    if !first.open && !second.open {
        return Err(Refusal::Damaged {
            at: first.at,
            what: Part::Checkpoint,
        });
    }
    if !first.open || !second.open {
        return Ok(second.open);
    }
    if first.number == second.number {
        return Err(Refusal::Damaged {
            at: second.at,
            what: Part::Checkpoint,
        });
    }
    Ok(first.number < second.number)
}

/// The segment that is read first: the open one that begins with this number.
pub(crate) fn beginning(number: u64, first: Numbered, second: Numbered) -> Result<bool, Refusal>
    ensures { MatchResult result
        (λ b. begun first.at second.at first.open second.open number first.number second.number ≡ Ok b)
        (λ e. begun first.at second.at first.open second.open number first.number second.number
        ≡ Err (refusal_of e)) }
{
    if first.open && second.open && first.number == second.number {
        return Err(Refusal::Damaged {
            at: second.at,
            what: Part::Segment,
        });
    }
    if first.open && first.number == number {
        return Ok(false);
    }
    if second.open && second.number == number {
        return Ok(true);
    }
    Err(Refusal::Damaged {
        at: first.at,
        what: Part::Segment,
    })
}
