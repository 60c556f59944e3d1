// A synced disk, read in the order of the tests.
ghost use Rattle.std.specs.Prelude.{◌≡◌, ◌≤◌, ◌<◌, ◌+◌, ◌^◌, ℕ, List, length, IfOk};
ghost use Rattle.pfx_disk.specs.Disk.{IsHonest};
ghost use Rattle.pfx_store_image.specs.Recovery.{area_taken, segment_begun, from_frames, from_state, from_area, found, on_ok};
ghost use Rattle.pfx_store_file.specs.Sizes.{total_len};
ghost use Rattle.pfx_store_recover.specs.Answers.{Gives, IsRead};
ghost use Rattle.pfx_store_recover.specs.Choosing.{IsArea, IsSegment};
ghost use Rattle.pfx_store_recover.specs.Finding.{CanBeHeld, IsFound, IsHeldState, ReadsContents};
ghost use Rattle.pfx_store_recover.specs.Looking.{OnlyReads, Reaches, ReadsKept};
ghost use Rattle.pfx_store_recover.specs.Walking.{StandIn, Fill, frames_of};

use crate::areas::{read_area, take_area};
use crate::contents::{Base, Contents, read_double, read_single};
use crate::faults::{OpenFault, Refusal};
use crate::format::Format;
use crate::frames::read_frames;
use crate::outline::Outline;
use crate::segments::find_segment;
use crate::walked::Walked;
use pfx_disk::Disk;
use pfx_fault::Part;
use pfx_store_image::SEGMENT_HEAD;
use std::alloc::Global;

// The segments, after the checkpoint area's state: the heads of the one that begins behind it, and those of the other one, if that
// goes on after it; and then all records.
fn read_segments<F: Format, D: Disk>(
    alloc: Global,
    disk: &mut D,
    file: &Outline<F>,
    base: Base<F>,
) -> Result<Contents<F>, OpenFault>
    requires inside { Reaches (total_len file.now.sizes) (D.view disk.old) }
    requires state { IsHeldState F.codec F.fits file.now.header base.state }
    ensures { ReadsContents F.codec F.fits file.now.header (D.view disk.old) (D.view disk.new) result (λ bytes.
        IsArea F.codec file.now.header bytes base.area (area_taken F.codec file.now.header bytes)
        → Gives (λ c. IsFound F.codec file.now.header bytes c.places c.state c.middle)
        (from_state F.codec file.now.header bytes base.area.second base.state) result) }
{
    let number = F::number(&base.state);
    let segment = find_segment(disk, file, number + 1)?;
    let at = file.sizes.segment_at(segment.second);
    let end = at + file.sizes.segment;
    let walked = read_frames::<F, D>(alloc, disk, at + SEGMENT_HEAD, end, number)?;
    if !segment.goes_on(walked.last) {
        return read_single(alloc, file, base, segment, walked);
    }
    let at = file.sizes.segment_at(!segment.second);
    let end = at + file.sizes.segment;
    let next = read_frames::<F, D>(alloc, disk, at + SEGMENT_HEAD, end, walked.last)?;
    read_double(alloc, file, base, segment.second, walked, next)
}

// The checkpoint area that is taken, and what follows on it.
fn read_contents<F: Format, D: Disk>(
    alloc: Global,
    disk: &mut D,
    file: &Outline<F>,
) -> Result<Contents<F>, OpenFault>
    requires inside { Reaches (total_len file.now.sizes) (D.view disk.old) }
    ensures { ReadsContents F.codec F.fits file.now.header (D.view disk.old) (D.view disk.new) result (λ bytes.
        Gives (λ c. IsFound F.codec file.now.header bytes c.places c.state c.middle)
        (on_ok (area_taken F.codec file.now.header bytes) (from_area F.codec file.now.header bytes)) result) }
{
    let area = take_area(disk, file)?;
    let state = read_area(alloc, disk, file, area.second)?;
    read_segments(alloc, disk, file, Base { area, state })
}

// The header, of a file of this length.
fn read_header<F: Format, D: Disk>(
    alloc: Global,
    disk: &mut D,
    len: usize,
) -> Result<F::Header, OpenFault>
    requires inside { Reaches len (D.view disk.old) }
    ensures { ReadsKept (D.view disk.old) (D.view disk.new) result (λ bytes.
        len ≡ length bytes → Gives IsRead (F.codec.read_head bytes) result) }
{
    let mut front = vec![in alloc; 0; len.min(F::HEAD_MOST)]?;
    disk.read(0, &mut front)?;
    Ok(F::read_head(alloc, &front)?)
}

/// What a disk holds. It is synced first, so that a stop leaves what is read.
pub(crate) fn read_file<F: Format, D: Disk>(
    alloc: Global,
    disk: &mut D,
) -> Result<(Outline<F>, Contents<F>), OpenFault>
    ensures call { OnlyReads (D.view disk.old) (D.view disk.new) result }
    ensures holds { IfOk result (λ r. CanBeHeld F.codec F.fits r.0.header r.1.places r.1.state (D.view disk.old) (D.view disk.new)) }
    ensures exact { IsHonest (D.view disk.old) → Gives
        (λ r. IsFound F.codec r.0.header (D.view disk.old).contents r.1.places r.1.state r.1.middle)
        (found F.codec (D.view disk.old).contents) result }
{
    disk.sync()?;
    let len = disk.len()?;
    let header = read_header::<F, D>(alloc, disk, len)?;
    let sizes = F::sizes(&header);
    if len != sizes.file_len() {
        return Err(OpenFault::Refused(Refusal::Damaged {
            at: len,
            what: Part::Length,
        }));
    }
    let file = Outline { header, sizes };
    let contents = read_contents(alloc, disk, &file)?;
    Ok((file, contents))
}
