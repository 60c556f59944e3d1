// What a store's file has of a history.
ghost use Rattle.std.specs.Prelude.{◌≡◌, ◌+◌, ◌++◌, ◌∷◌, [], ℕ, List, false, length, map, not, true, Err, IfErr, IfOk, MatchOption, MatchResult, OnOk};
ghost use Rattle.pfx_disk.specs.Disk.{HasFailed, IsHonest};
ghost use Rattle.pfx_store_format.specs.Format.{format, layout};
ghost use Rattle.pfx_machine.specs.Plain.{Plain};
ghost use Rattle.pfx_store_recover.specs.Answers.{IsRefusal};
ghost use Rattle.pfx_record.specs.Records.{plain};
ghost use Rattle.pfx_segment.specs.Frames.{AreFrames};
ghost use Rattle.pfx_segment.specs.Reading.{views};
ghost use Rattle.pfx_store_file.specs.Checkpoints.{in_progress};
ghost use Rattle.pfx_store_file.specs.Sizes.{HasSizes, total_len};
ghost use Rattle.pfx_store_recover.specs.Looking.{Looks, Reaches, ReadsKept};
ghost use Rattle.pfx_store_image.specs.Layout.{file_len, segment_at};
ghost use Rattle.pfx_store_image.specs.Recovery.{recovered};
ghost use Rattle.pfx_store_image.specs.Store.{IsStore, Parts};
ghost use Rattle.pfx_replay.specs.Reading.{IsNoRefusal};
ghost use Rattle.pfx_replay.specs.Stated.{plain_of};
ghost use Rattle.pfx_replay.specs.Trails.{records_behind};
ghost use Rattle.pfx_replay_audit.specs.Files.{IsOfFile, IsOfParts, area_state, with_state};

use pfx_disk::{Disk, GATE_OPEN};
use pfx_fault::Part;
use pfx_jobs::job::Job;
use pfx_machine::State;
use pfx_record::Record;
use pfx_replay::{PlainState, file_frames, read_image, records_behind, state_in};
use pfx_store::{FileFormat, FileHeader};
use pfx_store_file::Places;
use pfx_store_recover::{Format, OpenFault, OpenedFile, Refusal, open};
use std::alloc::{AllocError, Global};

/// What a store's file has of a history: the states that it holds, and its records.
#[derive(Drop)]
pub struct FileHistory<J> {
    /// The states in its checkpoint areas, and the one that it stands for.
    pub marks: Vec<PlainState<J>>,
    /// The number of the checkpoint in use, behind which the records begin.
    pub begin: u64,
    /// The records behind it.
    pub records: Vec<Record<J>>,
}

// The state in a checkpoint area, if its gate is open and it holds one.
fn area_state<J: Job>(
    alloc: Global,
    header: &FileHeader,
    image: &[u8],
    second: bool,
) -> Result<Option<State<J>>, AllocError>
    requires { length image.now ≡ file_len (layout header.now) }
    ensures { IfOk result (λ state. state ≡ area_state J.kind header.now second image.now) }
{
    let sizes = FileFormat::<J>::sizes(header);
    let at = sizes.area_at(second);
    if image[at] != GATE_OPEN {
        return Ok(None);
    }
    state_in::<FileFormat<J>>(alloc, header, image, at, sizes.body)
}

// Puts a state's numbers behind others.
fn put_mark<J: Job>(
    alloc: Global,
    marks: &mut Vec<PlainState<J>>,
    state: &State<J>,
) -> Result<(), AllocError>
    ensures { OnOk result (map plain_of marks.new.items ≡ map plain_of marks.old.items ++ state.now ∷ []) }
{
    marks.push(PlainState::of(alloc, state)?)?;
    Ok(())
}

// The numbers of these states, the first of them if there is one.
fn marks_of<J: Job>(
    alloc: Global,
    other: &Option<State<J>>,
    base: &State<J>,
    last: &State<J>,
) -> Result<Vec<PlainState<J>>, AllocError>
    ensures { IfOk result (λ marks. map plain_of marks.items ≡ with_state other.now (base.now ∷ last.now ∷ [])) }
{
    let mut marks = Vec::new(alloc);
    if let Some(state) = other {
        put_mark(alloc, &mut marks, state)?;
    }
    put_mark(alloc, &mut marks, base)?;
    put_mark(alloc, &mut marks, last)?;
    Ok(marks)
}

// The states that a file holds, of which this is in the checkpoint area in use, and the last is what the file stands for.
fn marks_in<J: Job>(
    alloc: Global,
    header: &FileHeader,
    image: &[u8],
    area: bool,
    base: &State<J>,
    last: &State<J>,
) -> Result<Vec<PlainState<J>>, AllocError>
    requires { length image.now ≡ file_len (layout header.now) }
    ensures { IfOk result (λ marks. map plain_of marks.items
        ≡ with_state (area_state J.kind header.now (not area) image.now) (base.now ∷ last.now ∷ [])) }
{
    let other = area_state(alloc, header, image, !area)?;
    marks_of(alloc, &other, base, last)
}

// The records behind the checkpoint in use, or `None` if a frame doesn't fit.
fn records_in<J: Job>(
    alloc: Global,
    header: &FileHeader,
    image: &[u8],
    segment: bool,
    turned: bool,
    base: &State<J>,
) -> Result<Option<Vec<Record<J>>>, AllocError>
    requires { length image.now ≡ file_len (layout header.now) }
    ensures { IfOk result (λ found. (before frames : List (List ℕ))
        → (turned ≡ false → before ≡ [])
        → (turned ≡ true → AreFrames (segment_at (layout header.now) (not segment) + 9)
        (segment_at (layout header.now) (not segment) + (layout header.now).segment) before image.now)
        → AreFrames (segment_at (layout header.now) segment + 9) (segment_at (layout header.now) segment + (layout header.now).segment) frames image.now
        → MatchOption found ⊥ (λ all. map plain all.items ≡ records_behind J.kind base.now (before ++ frames))) }
{
    let Some(frames) = file_frames::<J>(alloc, header, image, segment, turned)? else {
        return Ok(None);
    };
    let records = records_behind(alloc, base, &frames)?;
    Ok(Some(records))
}

// What a file with these places has, or `None` if the bytes aren't those of a store's file.
fn history_in<J: Job>(
    alloc: Global,
    header: &FileHeader,
    state: &State<J>,
    image: &[u8],
    area: bool,
    segment: bool,
    turned: bool,
) -> Result<Option<FileHistory<J>>, AllocError>
    requires { length image.now ≡ file_len (layout header.now) }
    ensures { IfOk result (λ found. (p : Parts (Plain J)) → IsStore (format J.kind) header.now p state.now image.now
        → p.area ≡ area → p.segment ≡ segment → p.turned ≡ turned
        → MatchOption found ⊥ (IsOfParts J.kind header.now p state.now image.now)) }
{
    let sizes = FileFormat::<J>::sizes(header);
    let at = sizes.area_at(area);
    let Some(base) = state_in::<FileFormat<J>>(alloc, header, image, at, sizes.body)? else {
        return Ok(None);
    };
    let begin = base.number();
    let marks = marks_in(alloc, header, image, area, &base, state)?;
    let Some(records) = records_in(alloc, header, image, segment, turned, &base)? else {
        return Ok(None);
    };
    Ok(Some(FileHistory {
        marks,
        begin,
        records,
    }))
}

// What the file of a disk that was opened has, with this header, these places and this state.
fn history_on<J: Job, D: Disk>(
    alloc: Global,
    disk: &mut D,
    header: &FileHeader,
    places: &Places,
    state: &State<J>,
) -> Result<FileHistory<J>, OpenFault>
    requires sized { HasSizes (layout header.now) places.now.sizes }
    requires inside { Reaches (total_len places.now.sizes) (D.view disk.old) }
    ensures { ReadsKept (D.view disk.old) (D.view disk.new) result (λ bytes. (p : Parts (Plain J))
        → IsStore (format J.kind) header.now p state.now bytes
        → p.area ≡ places.now.area → p.segment ≡ places.now.segment → p.turned ≡ in_progress places.now.checkpoint
        → MatchResult result (IsOfParts J.kind header.now p state.now bytes) IsNoRefusal) }
{
    let image = read_image(alloc, disk, places.sizes.file_len())?;
    let turned = places.checkpoint.in_progress();
    match history_in::<J>(
        alloc,
        header,
        state,
        &image,
        places.area,
        places.segment,
        turned,
    )? {
        Some(history) => Ok(history),
        None => Err(OpenFault::Refused(Refusal::Damaged {
            at: 0,
            what: Part::Checkpoint,
        })),
    }
}

/// Reads what a store's file has of a history. The disk comes back.
///
/// If the file isn't a store's, it is refused as `open` refuses it. The file is in memory for the time of the call, and nothing is written.
pub fn read_file<J: Job, D: Disk>(
    alloc: Global,
    disk: D,
) -> Result<(FileHistory<J>, D), (OpenFault, D)>
    ensures file { IsHonest (D.view disk) → IfOk result (λ r. IsOfFile J.kind (D.view disk).contents r.0) }
    ensures refused { IsHonest (D.view disk) → IfErr result (λ e. IsRefusal e.0 (λ refusal.
        recovered (format J.kind) (D.view disk).contents ≡ Err refusal)) }
    ensures device { IfErr result (λ e. e.0 ≡ OpenFault.Device → HasFailed (D.view disk) (D.view e.1)) }
    ensures looks { MatchResult result (λ r. Looks (D.view disk) (D.view r.1)) (λ e. Looks (D.view disk) (D.view e.1)) }
{
    let OpenedFile {
        file,
        header,
        state,
        ..
    } = match open::<FileFormat<J>, D>(alloc, disk) {
        Ok(opened) => opened,
        Err(fault) => return Err(fault),
    };
    let places = file.places;
    let mut disk = file.into_disk();
    match history_on::<J, D>(alloc, &mut disk, &header, &places, &state) {
        Ok(history) => Ok((history, disk)),
        Err(fault) => Err((fault, disk)),
    }
}
