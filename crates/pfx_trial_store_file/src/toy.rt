//! The format of small files.
ghost use Rattle.std.specs.Prelude.{◌≡◌, ◌<◌, ℕ, slice_index};
ghost use Rattle.pfx_trial_store_file.specs.SmallCodec.{small_codec, is_small, small};

use pfx_store_file::Sizes;
use pfx_store_recover::{Format, HeadFault, Refusal};
use std::alloc::{AllocError, Global};
use std::marker::Model;

/// The format of small files.
#[derive(Drop)]
pub struct Toy;

/// The state of a small file, which contracts see as its number and its sum.
#[derive(Drop)]
pub struct Tally {
    number: u64,
    sum: u64,
}

impl Model for Tally {
    ghost Value = { ℕ × ℕ };

    ghost view = { λ s. (s.number, s.sum) };

    ghost invariant = { λ s. (s.number < 200) × (s.sum < 100) };
}

impl Tally {
    pub fn number(&self) -> u64
        ensures { result ≡ self.now.0 }
    {
        self.number
    }

    pub fn sum(&self) -> u64
        ensures { result ≡ self.now.1 }
    {
        self.sum
    }
}

/// The byte at this place, or 0 behind the end.
fn byte(bytes: &[u8], place: usize) -> u64
    ensures value { result ≡ slice_index bytes.now place }
    ensures bound { result < 256 }
{
    bytes.get(place).copied().unwrap_or(0) as u64
}

/// The state, if its number and its sum are small enough.
fn state_of(number: u64, sum: u64) -> Option<Tally>
    ensures { result ≡ small number sum }
{
    if number < 200 && sum < 100 {
        Some(Tally { number, sum })
    } else {
        None
    }
}

impl Format for Toy {
    ghost use Rattle.pfx_trial_store_file.specs.SmallLaws.{laws_hold, bounds_hold};

    type Header = u8;

    type State = Tally;

    ghost codec = { small_codec };

    ghost fits = { is_small };

    ghost HEAD_MOST = { 2 };

    const HEAD_MOST: usize = 2;

    fn read_head(_alloc: Global, bytes: &[u8]) -> Result<u8, HeadFault> {
        if bytes.len() < 2 {
            return Err(HeadFault::Refused(Refusal::NotAStore));
        }
        if bytes[0] == 1 {
            Ok(bytes[1])
        } else {
            Err(HeadFault::Refused(Refusal::WrongVersion { version: bytes[0] }))
        }
    }

    fn sizes(header: &u8) -> Sizes {
        let room = *header as usize;
        Sizes {
            head: 2,
            body: 8,
            segment: 10 + room,
        }
    }

    fn area_number(bytes: &[u8; 8]) -> u64 {
        bytes[0] as u64
    }

    fn read_state(_alloc: Global, _header: &u8, bytes: &[u8]) -> Result<Option<Tally>, AllocError> {
        Ok(state_of(byte(bytes, 0), byte(bytes, 1)))
    }

    fn number(state: &Tally) -> u64 {
        state.number
    }

    fn segment_number(bytes: &[u8; 8]) -> u64 {
        bytes[0] as u64
    }

    fn after(last: u64, frame: &[u8]) -> Option<u64> {
        if byte(frame, 5) != last + 1 || last + 1 >= 200 {
            return None;
        }
        Some(last + 1)
    }

    fn apply(_alloc: Global, state: &mut Tally, frame: &[u8]) -> Result<bool, AllocError> {
        let added = byte(frame, 15);
        if byte(frame, 5) != state.number + 1 || added == 0 {
            return Ok(false);
        }
        match state_of(state.number + 1, state.sum + added) {
            Some(next) => {
                *state = next;
                Ok(true)
            }
            None => Ok(false),
        }
    }

    fn encode(_header: &u8, state: &Tally, out: &mut [u8]) {
        out[0] = state.number as u8;
        out[1] = state.sum as u8;
    }

    ghost laws = { laws_hold };

    ghost bounds = { bounds_hold };
}
