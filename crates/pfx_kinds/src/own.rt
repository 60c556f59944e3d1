ghost use Rattle.std.specs.Prelude.{◌≡◌, ◌+◌, ◌<◌, ◌≤◌, ◌-◌, ◌++◌, IsTrue, MatchResult, Ok, Err, Some, None, length, replicate};
ghost use Rattle.std.specs.List.{list_all};
ghost use Rattle.pfx_kinds.specs.Scans.{are_zeros};
ghost use Rattle.pfx_kinds.specs.Owns.{own_fits, is_visible};
ghost use Rattle.pfx_kinds.specs.Starts.{own_start, own_of, is_answer};

use crate::start::JobStartFault;
use byteorder::{ByteOrder, LittleEndian};
use pfx_jobs::job::JobFault;

/// The first byte of an Own's encoding.
pub const OWN: u8 = 4;

/// The length of the longest answer.
pub const MOST_ANSWER: usize = 106;

/// What another program answered last of a task's units, which it does itself: the unit's number and a text. It takes no steps, so it is
/// no `Job` by itself: no call of `step` could meet its contract.
///
/// Its type keeps the number and the slot below 2^40, the length in range, and that the answer is of bytes 0x21 to 0x7E other than a quote, a
/// comma and a backslash.
#[derive(Debug, Drop)]
pub struct Own {
    /// The number of the unit that was answered last, 0 for none.
    pub answered: u64,
    /// The slot from which on the weights are in force that its units are counted in, below 2^40.
    pub since: u64,
    /// The length of the answer in bytes, 0 to 106.
    pub text_length: u8,
    /// The answer, followed by zeros.
    pub text: [u8; MOST_ANSWER],
    ghost fits: { IsTrue (own_fits answered since text_length text) },
}

/// Whether all bytes are 0.
fn are_zeros(bytes: &[u8]) -> bool
    ensures { result ≡ are_zeros bytes.now }
{
    bytes.iter().all(|byte| *byte == 0)
}

/// Whether all bytes are 0x21 to 0x7E, and none is a quote, a comma or a backslash.
fn are_visible(bytes: &[u8]) -> bool
    ensures { result ≡ list_all is_visible bytes.now }
{
    bytes.iter().all(|byte| 33 <= *byte
        && *byte <= 126
        && *byte != b'"'
        && *byte != b','
        && *byte != b'\\')
}

/// Whether these are the fields of an Own.
fn is_own(answered: u64, since: u64, text_length: u8, text: &[u8; MOST_ANSWER]) -> bool
    ensures { result ≡ own_fits answered since text_length text.now }
{
    answered < 1 << 40
        && since < 1 << 40
        && text_length <= MOST_ANSWER as u8
        && are_zeros(&text[text_length as usize..])
        && are_visible(&text[..text_length as usize])
}

/// Whether this is an answer.
fn is_answer(text: &[u8]) -> bool
    ensures { result ≡ is_answer text.now }
{
    text.len() <= MOST_ANSWER && are_visible(text)
}

/// The bytes, followed by zeros.
fn padded<const N: usize>(bytes: &[u8]) -> [u8; N]
    requires { length bytes.now ≤ N }
    ensures { result ≡ bytes.now ++ replicate (N - length bytes.now) 0 }
{
    let mut all = [0; N];
    all[..bytes.len()].copy_from_slice(bytes);
    all
}

impl Own {
    ghost use Rattle.pfx_kinds.specs.OwnKind.{answer_of, own_coding, own_from, own_kind};

    /// The answer of a unit.
    fn new(answered: u64, text: &[u8]) -> Own
        requires number { answered < 1099511627776 }
        requires answer { IsTrue (is_answer text.now) }
        ensures { own_coding.fields result ≡ own_of answered text.now }
    {
        Own {
            answered,
            since: 0,
            text_length: text.len() as u8,
            text: padded(text),
        }
    }

    /// The answer that the goal and the data give: the goal is the unit's number, below 2^40, and the data are at most 106 bytes 0x21
    /// to 0x7E without quote, comma and backslash. The unit is counted from slot 0 on. Another goal is `BadGoal`, whatever the data, and
    /// other data are `BadData`.
    pub fn start(goal: u64, text: &[u8]) -> Result<Own, JobStartFault>
        ensures { MatchResult result (λ s. own_start goal text.now ≡ Ok (own_coding.fields s)) (λ fault. own_start goal text.now ≡ Err fault) }
    {
        if goal >= 1 << 40 {
            return Err(JobStartFault::BadGoal);
        }
        if !is_answer(text) {
            return Err(JobStartFault::BadData);
        }
        Ok(Own::new(goal, text))
    }

    /// Counts the unit in the weights that are in force from this slot on.
    pub fn count_from(&mut self, since: u64)
        requires { since < 1099511627776 }
        ensures { self.new ≡ own_from since self.old }
    {
        self.since = since;
    }

    /// The answer.
    pub fn answer(&self) -> &[u8]
        ensures { result.now ≡ answer_of self.now }
    {
        &self.text[..self.text_length as usize]
    }

    /// A copy, equal to its source.
    pub(crate) fn copy_of(&self) -> Own
        ensures { result ≡ self.now }
    {
        Own {
            answered: self.answered,
            since: self.since,
            text_length: self.text_length,
            text: self.text,
        }
    }

    /// Writes the state.
    pub(crate) fn encode(&self, bytes: &mut [u8; 128])
        ensures { bytes.new ≡ own_kind.spelling self.now }
    {
        *bytes = [0; 128];
        bytes[0] = OWN;
        bytes[127] = OWN;
        LittleEndian::write_u64(&mut bytes[5..13], self.answered);
        bytes[13] = self.text_length;
        LittleEndian::write_uint(&mut bytes[120..125], self.since, 5);
        bytes[14..120].copy_from_slice(&self.text);
    }

    /// The state that the bytes are the encoding of, or `BadState` if they are none.
    pub(crate) fn decode(bytes: &[u8; 128]) -> Result<Own, JobFault>
        ensures { MatchResult result (λ s. own_kind.decoded bytes.now ≡ Some s) (λ _. own_kind.decoded bytes.now ≡ None) }
    {
        let answered = LittleEndian::read_u64(&bytes[5..]);
        let since = LittleEndian::read_uint(&bytes[120..], 5);
        let mut text = [0; MOST_ANSWER];
        text.copy_from_slice(&bytes[14..120]);
        if !is_own(answered, since, bytes[13], &text) {
            return Err(JobFault::BadState);
        }
        let read = Own {
            answered,
            since,
            text_length: bytes[13],
            text,
        };
        let mut spelled = [0; 128];
        read.encode(&mut spelled);
        if *bytes == spelled {
            Ok(read)
        } else {
            Err(JobFault::BadState)
        }
    }
}
