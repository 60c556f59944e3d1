ghost use Rattle.std.specs.Prelude.{◌≡◌, IsTrue};
ghost use Rattle.pfx_kinds_walk.specs.Walks.{walk_fits, drawn, moved};

use byteorder::{ByteOrder, LittleEndian};
use pfx_jobs::job::{Job, JobFault};

/// The first byte of a Walk's encoding.
pub const WALK: u8 = 200;

/// A pseudo-random walk on the line of all 64-bit places, whose ends meet.
#[derive(Debug, Drop)]
pub struct Walk {
    /// How many steps are left.
    pub left: u32,
    /// The number that was drawn last.
    pub seed: u64,
    /// The place.
    pub place: u64,
    ghost fits: { IsTrue (walk_fits left seed place) },
}

impl Walk {
    /// A walk of so many steps from place 0 on.
    pub fn new(left: u32, seed: u64) -> Walk
        ensures left { result.left ≡ left }
        ensures seed { result.seed ≡ seed }
        ensures place { result.place ≡ 0 }
    {
        Walk {
            left,
            seed,
            place: 0,
        }
    }
}

/// The number that is drawn after a number.
fn drawn(seed: u64) -> u64
    ensures { result ≡ drawn seed }
{
    seed.wrapping_mul(6364136223846793005)
        .wrapping_add(1442695040888963407)
}

/// The place after a step from a place, by the number drawn.
fn moved(place: u64, drawn: u64) -> u64
    ensures { result ≡ moved place drawn }
{
    if drawn >> 63 == 1 {
        place.wrapping_add(1)
    } else {
        place.wrapping_sub(1)
    }
}

impl Job for Walk {
    ghost use Rattle.pfx_kinds_walk.specs.WalkKind.{walk_kind, walk_laws};

    ghost kind = { walk_kind };

    fn copy_of(&self) -> Walk {
        Walk {
            left: self.left,
            seed: self.seed,
            place: self.place,
        }
    }

    fn left(&self) -> u32 {
        self.left
    }

    fn is_done(&self) -> bool {
        self.left == 0
    }

    fn step(&mut self) {
        let seed = drawn(self.seed);
        let place = moved(self.place, seed);
        self.left -= 1;
        self.seed = seed;
        self.place = place;
    }

    fn encode(&self, bytes: &mut [u8; 128]) {
        *bytes = [0; 128];
        bytes[0] = WALK;
        LittleEndian::write_u32(&mut bytes[1..5], self.left);
        LittleEndian::write_u64(&mut bytes[5..13], self.seed);
        LittleEndian::write_u64(&mut bytes[13..21], self.place);
    }

    fn decode(bytes: &[u8; 128]) -> Result<Walk, JobFault> {
        let read = Walk {
            left: LittleEndian::read_u32(&bytes[1..]),
            seed: LittleEndian::read_u64(&bytes[5..]),
            place: LittleEndian::read_u64(&bytes[13..]),
        };
        let mut spelled = [0; 128];
        read.encode(&mut spelled);
        if *bytes == spelled {
            Ok(read)
        } else {
            Err(JobFault::BadState)
        }
    }

    ghost laws = { walk_laws };
}
