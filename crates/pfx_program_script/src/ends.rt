//! How many records of a script have come to their ends.

ghost use Rattle.std.specs.Prelude.{◌≡◌};
ghost use Rattle.std.specs.List.{fold};
ghost use Rattle.pfx_program_script.specs.Ends.{at_front, ends_record, further};

use crate::whole::{Mode, Spot, after, front};

/// How far a script's bytes have gone: where the next one stands, and how many records have come to their ends.
#[derive(Clone, Copy, Debug, PartialEq, Eq)]
pub(crate) struct Gone {
    spot: Spot,
    pub(crate) ends: u64,
}

/// Before the first byte.
pub(crate) fn at_front() -> Gone
    ensures { result ≡ at_front }
{
    Gone {
        spot: front(),
        ends: 0,
    }
}

// Whether the byte between these two places ends a record: an empty line is none.
fn ends_record(before: Mode, behind: Mode) -> bool
    ensures { result ≡ ends_record before behind }
{
    match behind {
        Mode::Start => match before {
            Mode::Field | Mode::Plain | Mode::Closing => true,
            _ => false,
        },
        _ => false,
    }
}

fn further(so_far: Gone, byte: u8) -> Gone
    ensures { result ≡ further so_far byte }
{
    let spot = after(so_far.spot, byte);
    let ends = if ends_record(so_far.spot.mode, spot.mode) && so_far.ends < u64::MAX {
        so_far.ends + 1
    } else {
        so_far.ends
    };
    Gone { spot, ends }
}

/// How far these bytes go behind those before them.
pub(crate) fn gone_by(so_far: Gone, bytes: &[u8]) -> Gone
    ensures { result ≡ fold further so_far bytes.now }
{
    let mut now = so_far;
    'bytes: for i in 0..bytes.len() {
        now = further(now, bytes[i]);
    }
    now
}
