//! Scripts whose records are whole: each quote that opens a field closes it, and no record is too long.

ghost use Rattle.std.specs.Prelude.{◌≡◌, ◌≤◌, ◌<◌, ◌++◌, [], List, ℕ, length, take, nat_lt, true, false, option_map};
ghost use Rattle.pfx_program_script.specs.Whole.{is_over, is_quoted, in_field, at_field, behind_quote, mode_after, spot_with, after, whole, whole_of, whole_left, behind};

use crate::heard::Heard;
use std::io;
use std::io::Read;

/// How many bytes a record has at the most, its end too.
const LONGEST: u32 = 1 << 20;

/// What stands in the place of what isn't whole: a byte that no text has.
const NO_TEXT: u8 = 0xFF;

/// Where a byte of a script stands.
#[derive(Clone, Copy, Debug, PartialEq, Eq)]
pub(crate) enum Mode {
    /// At the script's front.
    Begin,
    /// Behind the first byte of a byte order mark.
    Mark,
    /// Behind the second one.
    MarkEnd,
    /// At a record's front, or between two.
    Start,
    /// At another field's front.
    Field,
    /// In a field without quotes.
    Plain,
    /// In a field that a quote has opened.
    Quoted,
    /// Behind a quote in it.
    Closing,
    /// Behind what isn't whole.
    Over,
}

/// Where a byte stands, and how many bytes of its record are before it.
#[derive(Clone, Copy, Debug, PartialEq, Eq)]
pub(crate) struct Spot {
    pub(crate) mode: Mode,
    len: u32,
}

fn is_over(mode: Mode) -> bool
    ensures { result ≡ is_over mode }
{
    match mode {
        Mode::Over => true,
        _ => false,
    }
}

fn is_quoted(mode: Mode) -> bool
    ensures { result ≡ is_quoted mode }
{
    match mode {
        Mode::Quoted => true,
        _ => false,
    }
}

fn in_field(byte: u8) -> Mode
    ensures { result ≡ in_field byte }
{
    if byte == b',' {
        Mode::Field
    } else if byte == b'\n' || byte == b'\r' {
        Mode::Start
    } else {
        Mode::Plain
    }
}

fn at_field(byte: u8) -> Mode
    ensures { result ≡ at_field byte }
{
    if byte == b'"' {
        Mode::Quoted
    } else {
        in_field(byte)
    }
}

fn behind_quote(byte: u8) -> Mode
    ensures { result ≡ behind_quote byte }
{
    if byte == b'"' {
        Mode::Quoted
    } else if byte == b',' || (byte == b'\n' || byte == b'\r') {
        in_field(byte)
    } else {
        Mode::Over
    }
}

fn mode_after(mode: Mode, byte: u8) -> Mode
    ensures { result ≡ mode_after mode byte }
{
    match mode {
        Mode::Begin if byte == 0xEF => Mode::Mark,
        Mode::Mark if byte == 0xBB => Mode::MarkEnd,
        Mode::MarkEnd if byte == 0xBF => Mode::Start,
        Mode::Begin | Mode::Start | Mode::Field => at_field(byte),
        Mode::Mark | Mode::MarkEnd | Mode::Plain => in_field(byte),
        Mode::Quoted if byte == b'"' => Mode::Closing,
        Mode::Quoted => Mode::Quoted,
        Mode::Closing => behind_quote(byte),
        Mode::Over => Mode::Over,
    }
}

fn spot_with(mode: Mode, len: u32) -> Spot
    ensures { result ≡ spot_with mode len }
{
    match mode {
        Mode::Start | Mode::Over => Spot { mode, len: 0 },
        _ if len < LONGEST => Spot { mode, len: len + 1 },
        _ => Spot {
            mode: Mode::Over,
            len: 0,
        },
    }
}

/// A script's front.
pub(crate) fn front() -> Spot
    ensures { result ≡ record { mode = Mode.Begin; len = 0 } }
{
    Spot {
        mode: Mode::Begin,
        len: 0,
    }
}

/// Where the byte behind this one stands.
#[tactic(auto, unfolding(crate::specs::Whole::after))]
pub(crate) fn after(spot: Spot, byte: u8) -> Spot
    ensures { result ≡ after spot byte }
{
    spot_with(mode_after(spot.mode, byte), spot.len)
}

// How many bytes there are before what isn't whole, and where what follows stands.
fn passed(spot: Spot, bytes: &[u8]) -> (usize, Spot)
    requires { is_over spot.mode ≡ false }
    ensures within { result.0 ≤ length bytes.now }
    ensures over { result.0 < length bytes.now → is_over result.1.mode ≡ true }
    ensures passes { (rest : List ℕ) → whole spot (bytes.now ++ rest) ≡ take result.0 bytes.now ++ behind (nat_lt result.0 (length bytes.now)) result.1 rest }
{
    let mut now = spot;
    'bytes: for i in 0..bytes.len() {
        now = after(now, bytes[i]);
        if is_over(now.mode) {
            return (i, now);
        }
    }
    (bytes.len(), now)
}

/// A script's bytes up to the first record that isn't whole: in which a quote opens a field and doesn't close it, or closes it in front of
/// more text, or which has more than 1,048,576 bytes. There the script ends with a byte that no text has, so that the record is refused.
/// A byte order mark in front is passed over.
#[derive(Drop)]
pub struct Whole<R: Read + Drop> {
    input: Heard<R>,
    spot: Spot,
}

impl<R: Read + Drop> Whole<R> {
    /// What is whole of a reader's bytes.
    pub fn new(input: R) -> Whole<R>
        ensures { whole_left R.remaining result ≡ option_map whole_of (R.remaining input) }
    {
        Whole {
            input: Heard::new(input),
            spot: front(),
        }
    }

    // What is given at the end of the bytes.
    #[tactic(auto, unfolding(crate::specs::Whole::whole))]
    fn end(&mut self, bytes: &mut [u8]) -> usize
        requires { 0 < length bytes.old }
        ensures same { self.new.input ≡ self.old.input }
        ensures given { result ≤ length bytes.new }
        ensures ends { whole self.old.spot [] ≡ take result bytes.new }
        ensures over { whole self.new.spot [] ≡ [] }
    {
        if !is_quoted(self.spot.mode) {
            return 0;
        }
        self.spot = Spot {
            mode: Mode::Over,
            len: 0,
        };
        bytes[0] = NO_TEXT;
        1
    }

    // What is given of so many bytes that were read.
    fn look(&mut self, bytes: &mut [u8], count: usize) -> usize
        requires on { is_over self.old.spot.mode ≡ false }
        requires read { (0 < count) × (count ≤ length bytes.old) }
        ensures same { self.new.input ≡ self.old.input }
        ensures given { (0 < result) × (result ≤ length bytes.new) }
        ensures passes { (rest : List ℕ) → whole self.old.spot (take count bytes.old ++ rest) ≡ take result bytes.new ++ whole self.new.spot rest }
    {
        let (kept, spot) = passed(self.spot, &bytes[..count]);
        self.spot = spot;
        if kept == count {
            return count;
        }
        bytes[kept] = NO_TEXT;
        kept + 1
    }
}

impl<R: Read + Drop> Read for Whole<R> {
    ghost use Rattle.std.specs.Prelude.{◌≡◌, true, OnErr};
    ghost use Rattle.std.specs.Io.{ReadsAtMost};
    ghost use Rattle.std.specs.Io.KnownBytes.{ReadConsumes};
    ghost use Rattle.pfx_program_script.specs.Whole.{whole_left};

    ghost remaining = { whole_left R.remaining };

    /// Gives what is whole of the bytes that come next. It fails only if the reader below does.
    fn read(&mut self, bytes: &mut [u8]) -> io::Result<usize>
        ensures bound { ReadsAtMost result bytes.new }
        ensures bytes { ReadConsumes (whole_left R.remaining self.old) (whole_left R.remaining self.new) result bytes.new }
        ensures fails { OnErr result (self.new.input.failed ≡ true) }
    {
        if bytes.is_empty() || is_over(self.spot.mode) {
            return Ok(0);
        }
        let count = self.input.read(bytes)?;
        if count == 0 {
            Ok(self.end(bytes))
        } else {
            Ok(self.look(bytes, count))
        }
    }
}
