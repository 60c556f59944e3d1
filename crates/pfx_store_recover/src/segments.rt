// The segment that is read first.
ghost use Rattle.std.specs.Prelude.{◌≡◌, ◌≤◌, ◌<◌, ◌+◌, ◌^◌, ℕ, List, Ok, IfOk};
ghost use Rattle.pfx_store_image.specs.Recovery.{segment_begun};
ghost use Rattle.pfx_store_file.specs.Sizes.{total_len};
ghost use Rattle.pfx_store_recover.specs.Answers.{Gives};
ghost use Rattle.pfx_store_recover.specs.Choosing.{IsSegment};
ghost use Rattle.pfx_store_recover.specs.Looking.{Reaches, ReadsKept};

use crate::choosing::{Choice, beginning};
use crate::faults::OpenFault;
use crate::format::Format;
use crate::gates::read_gate;
use crate::outline::Outline;
use pfx_disk::Disk;

/// The segment that begins with this number, by two calls of the disk.
pub(crate) fn find_segment<F: Format, D: Disk>(
    disk: &mut D,
    file: &Outline<F>,
    number: u64,
) -> Result<Choice, OpenFault>
    requires inside { Reaches (total_len file.now.sizes) (D.view disk.old) }
    ensures { ReadsKept (D.view disk.old) (D.view disk.new) result (λ bytes.
        Gives (IsSegment F.codec file.now.header bytes) (segment_begun F.codec file.now.header bytes number) result) }
{
    let low = file.sizes.segment_at(false);
    let high = file.sizes.segment_at(true);
    let low_gate = read_gate(disk, low)?;
    let high_gate = read_gate(disk, high)?;
    let first = low_gate.numbered(low, F::segment_number(&low_gate.bytes));
    let second = high_gate.numbered(high, F::segment_number(&high_gate.bytes));
    let is_second = beginning(number, first, second)?;
    Ok(Choice::of(is_second, first, second))
}
