// The records of one segment or of two, if the heads of all frames are right.
ghost use Rattle.std.specs.Prelude.{◌≡◌, ◌≤◌, ◌<◌, ◌+◌, ◌^◌, ℕ, List, not};
ghost use Rattle.pfx_store_image.specs.Layout.{segment_at, segment_end, IsOpenAt};
ghost use Rattle.pfx_store_image.specs.Recovery.{area_taken, segment_begun, from_one, from_two};
ghost use Rattle.pfx_store_file.specs.Checkpoints.{written};
ghost use Rattle.pfx_store_recover.specs.Answers.{Gives};
ghost use Rattle.pfx_store_recover.specs.Choosing.{IsArea, IsSegment};
ghost use Rattle.pfx_store_recover.specs.Finding.{ComeAfter, IsFound, MakesContents};
ghost use Rattle.pfx_store_recover.specs.Walking.{StandIn, AreInUse, Fill, frames_of};

use crate::choosing::Choice;
use crate::faults::{OpenFault, Refusal};
use crate::format::Format;
use crate::outline::Outline;
use crate::records::replay_frames;
use crate::walked::Walked;
use pfx_fault::Part;
use pfx_store_file::{Checkpoint, Places};
use pfx_store_image::SEGMENT_HEAD;
use std::alloc::Global;

/// The checkpoint area that is taken, and the state that it holds.
#[derive(Drop)]
pub(crate) struct Base<F: Format> {
    pub area: Choice,
    pub state: F::State,
}

/// What a file holds.
#[derive(Drop)]
pub(crate) struct Contents<F: Format> {
    /// Where its parts lie.
    pub places: Places,
    /// Its state.
    pub state: F::State,
    /// If two segments were read, the body of a checkpoint area that holds the state between them.
    pub middle: Option<Vec<u8>>,
}

// The places of a file whose frames go to this segment.
fn places_of<F: Format>(
    file: &Outline<F>,
    area: Choice,
    checkpoint: Checkpoint,
    second: bool,
    segment_open: bool,
    gate: usize,
) -> Places
    requires inside { gate < segment_end (F.codec.layout file.now.header) second }
    requires unwritten { written checkpoint ≡ 0 }
    ensures { AreInUse (F.codec.layout file.now.header) area.second area.other_open checkpoint second
        segment_open gate result }
{
    let sizes = file.sizes;
    Places {
        sizes,
        area: area.second,
        segment: second,
        checkpoint,
        gate,
        end: sizes.segment_at(second) + sizes.segment,
        area_open: area.other_open,
        segment_open,
    }
}

/// The records of one segment, and the test of the segment that isn't read.
pub(crate) fn read_single<F: Format>(
    alloc: Global,
    file: &Outline<F>,
    base: Base<F>,
    segment: Choice,
    walked: Walked,
) -> Result<Contents<F>, OpenFault>
    requires { ComeAfter F.codec F.fits file.now.header base.state segment.second walked }
    ensures { MakesContents F.codec F.fits file.now.header result (λ bytes.
        IsArea F.codec file.now.header bytes base.area (area_taken F.codec file.now.header bytes)
        → (n : ℕ)
        → IsSegment F.codec file.now.header bytes segment (segment_begun F.codec file.now.header bytes n)
        → (frames : List (List ℕ)) → Fill frames (frames_of walked)
        → Gives (λ c. IsFound F.codec file.now.header bytes c.places c.state c.middle)
        (from_one F.codec file.now.header bytes base.area.second base.state segment.second frames walked.last) result) }
{
    let Base { area, state } = base;
    let first = file.sizes.segment_at(segment.second) + SEGMENT_HEAD;
    let reached = replay_frames::<F>(alloc, first, state, walked.frames())?;
    if !segment.is_passed(walked.last) {
        return Err(OpenFault::Refused(Refusal::Damaged {
            at: file.sizes.segment_at(!segment.second),
            what: Part::Segment,
        }));
    }
    Ok(Contents {
        places: places_of(
            file,
            area,
            Checkpoint::Ended,
            segment.second,
            segment.other_open,
            walked.gate,
        ),
        state: reached,
        middle: None,
    })
}

/// The records of two segments, of which this one is read first.
pub(crate) fn read_double<F: Format>(
    alloc: Global,
    file: &Outline<F>,
    base: Base<F>,
    second: bool,
    before: Walked,
    walked: Walked,
) -> Result<Contents<F>, OpenFault>
    requires before { ComeAfter F.codec F.fits file.now.header base.state second before }
    requires stand { StandIn (F.codec.layout file.now.header) (not second) walked }
    ensures { MakesContents F.codec F.fits file.now.header result (λ bytes.
        IsArea F.codec file.now.header bytes base.area (area_taken F.codec file.now.header bytes)
        → IsOpenAt (segment_at (F.codec.layout file.now.header) second) bytes
        → (first next : List (List ℕ)) → Fill first (frames_of before) → Fill next (frames_of walked)
        → Gives (λ c. IsFound F.codec file.now.header bytes c.places c.state c.middle)
        (from_two F.codec file.now.header bytes base.area.second base.state second first next) result) }
{
    let Base { area, state } = base;
    let first = file.sizes.segment_at(second) + SEGMENT_HEAD;
    let next = file.sizes.segment_at(!second) + SEGMENT_HEAD;
    let between = replay_frames::<F>(alloc, first, state, before.frames())?;
    let mut middle = vec![in alloc; 0; file.sizes.body]?;
    F::encode(&file.header, &between, &mut middle);
    let reached = replay_frames::<F>(alloc, next, between, walked.frames())?;
    Ok(Contents {
        places: places_of(file, area, Checkpoint::Pending, !second, true, walked.gate),
        state: reached,
        middle: Some(middle),
    })
}
