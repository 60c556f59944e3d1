//! The program's own kind of job, as `docs/JOB_KINDS.md` tells it: the sum of the numbers from 1 on.

ghost use Rattle.std.specs.Prelude.{◌≡◌, IsTrue};
ghost use Rattle.pfx_store_example.specs.Sums.{sum_fits, summed};

use byteorder::{ByteOrder, LittleEndian};
use pfx_jobs::job::{Job, JobFault};

/// The first byte of a sum's encoding.
const SUM: u8 = 201;

/// The sum of the numbers from 1 on, the greatest first: each step adds one of them.
#[derive(Drop)]
pub struct Sum {
    /// How many numbers are left, which is the one that comes next.
    pub left: u32,
    /// The sum so far, of which numbers of 64 bits keep what fits.
    pub total: u64,
    ghost fits: { IsTrue (sum_fits left total) },
}

impl Sum {
    /// The sum of the numbers from 1 to this one, none of which is added yet.
    pub fn new(left: u32) -> Sum
        ensures left { result.left ≡ left }
        ensures total { result.total ≡ 0 }
    {
        Sum { left, total: 0 }
    }
}

/// The sum with a number more.
fn summed(total: u64, number: u32) -> u64
    ensures { result ≡ summed total number }
{
    total.wrapping_add(u64::from(number))
}

impl Job for Sum {
    ghost use Rattle.pfx_store_example.specs.SumKind.{sum_kind, sum_laws};

    ghost kind = { sum_kind };

    fn copy_of(&self) -> Sum {
        Sum {
            left: self.left,
            total: self.total,
        }
    }

    fn left(&self) -> u32 {
        self.left
    }

    fn is_done(&self) -> bool {
        self.left == 0
    }

    fn step(&mut self) {
        self.total = summed(self.total, self.left);
        self.left -= 1;
    }

    fn encode(&self, bytes: &mut [u8; 128]) {
        *bytes = [0; 128];
        bytes[0] = SUM;
        LittleEndian::write_u32(&mut bytes[1..5], self.left);
        LittleEndian::write_u64(&mut bytes[5..13], self.total);
    }

    fn decode(bytes: &[u8; 128]) -> Result<Sum, JobFault> {
        let read = Sum {
            left: LittleEndian::read_u32(&bytes[1..]),
            total: LittleEndian::read_u64(&bytes[5..]),
        };
        let mut spelled = [0; 128];
        read.encode(&mut spelled);
        if *bytes == spelled {
            Ok(read)
        } else {
            Err(JobFault::BadState)
        }
    }

    ghost laws = { sum_laws };
}
