// The checkpoint area that is taken, and the state in it.
ghost use Rattle.std.specs.Prelude.{◌≡◌, ◌≤◌, ◌<◌, ◌+◌, ◌^◌, ℕ, List, Ok};
ghost use Rattle.pfx_store_image.specs.Recovery.{area_taken};
ghost use Rattle.pfx_store_file.specs.Sizes.{total_len};
ghost use Rattle.pfx_store_recover.specs.Answers.{Gives};
ghost use Rattle.pfx_store_recover.specs.Choosing.{IsArea};
ghost use Rattle.pfx_store_recover.specs.Finding.{ReadsState};
ghost use Rattle.pfx_store_recover.specs.Looking.{Reaches, ReadsKept};

use crate::choosing::{Choice, newer};
use crate::faults::{OpenFault, Refusal};
use crate::format::Format;
use crate::gates::read_gate;
use crate::outline::Outline;
use pfx_disk::Disk;
use pfx_fault::Part;
use std::alloc::Global;

/// The checkpoint area that is taken, by two calls of the disk.
pub(crate) fn take_area<F: Format, D: Disk>(
    disk: &mut D,
    file: &Outline<F>,
) -> Result<Choice, OpenFault>
    requires inside { Reaches (total_len file.now.sizes) (D.view disk.old) }
    ensures { ReadsKept (D.view disk.old) (D.view disk.new) result (λ bytes.
        Gives (IsArea F.codec file.now.header bytes) (area_taken F.codec file.now.header bytes) result) }
{
    let low = file.sizes.area_at(false);
    let high = file.sizes.area_at(true);
    let low_gate = read_gate(disk, low)?;
    let high_gate = read_gate(disk, high)?;
    let first = low_gate.numbered(low, F::area_number(&low_gate.bytes));
    let second = high_gate.numbered(high, F::area_number(&high_gate.bytes));
    let is_second = newer(first, second)?;
    Ok(Choice::of(is_second, first, second))
}

/// The state in a checkpoint area, by one call of the disk.
pub(crate) fn read_area<F: Format, D: Disk>(
    alloc: Global,
    disk: &mut D,
    file: &Outline<F>,
    second: bool,
) -> Result<F::State, OpenFault>
    requires inside { Reaches (total_len file.now.sizes) (D.view disk.old) }
    ensures { ReadsState F.codec F.fits file.now.header second (D.view disk.old) (D.view disk.new) result }
{
    let at = file.sizes.area_at(second);
    let mut body = vec![in alloc; 0; file.sizes.body]?;
    disk.read(at + 1, &mut body)?;
    match F::read_state(alloc, &file.header, &body)? {
        Some(state) => Ok(state),
        None => Err(OpenFault::Refused(Refusal::Damaged {
            at,
            what: Part::Checkpoint,
        })),
    }
}
