ghost use Rattle.std.specs.Prelude.{◌≡◌, ◌<◌, ◌↔◌, IsTrue, MatchResult, Some, None};
ghost use Rattle.pfx_jobs.specs.Kind.{Kind, Laws};

use thiserror::Error;

/// Why bytes give no job.
#[derive(Debug, Clone, Copy, PartialEq, Eq, Error)]
pub enum JobFault {
    /// No state of the kind is written as these 128 bytes.
    #[error("the bytes are no encoding of a job")]
    BadState,
}

/// A kind of job: a state that takes one step after another until none is left, and that fits in 128 bytes.
pub trait Job: Drop {
    /// What the kind means: the steps left, the state after a step, and the bytes of a state, both ways.
    ghost kind: { Kind Self };

    /// A copy, equal to its source.
    fn copy_of(&self) -> Self
        ensures { result ≡ self.now };

    /// How many steps are left.
    fn left(&self) -> u32
        ensures { result ≡ kind.left self.now };

    /// Whether no step is left.
    fn is_done(&self) -> bool
        ensures { IsTrue result ↔ (kind.left self.now ≡ 0) };

    /// Takes one step.
    fn step(&mut self)
        requires { 0 < kind.left self.old }
        ensures { self.new ≡ kind.stepped self.old };

    /// Writes the state.
    fn encode(&self, bytes: &mut [u8; 128])
        ensures { bytes.new ≡ kind.spelling self.now };

    /// The state that the bytes are the encoding of, or `BadState` if they are none.
    fn decode(bytes: &[u8; 128]) -> Result<Self, JobFault>
        ensures { MatchResult result (λ s. kind.decoded bytes.now ≡ Some s) (λ _. kind.decoded bytes.now ≡ None) };

    /// A step lowers the count of steps left, and only what is written is read, as the state that was written.
    ghost laws: { Laws kind };
}

/// Whether two states are the same, which their encodings tell.
pub fn are_same<J: Job>(one: &J, other: &J) -> bool
    ensures { IsTrue result ↔ (one.now ≡ other.now) }
{
    let mut left = [0; 128];
    let mut right = [0; 128];
    one.encode(&mut left);
    other.encode(&mut right);
    left == right
}
