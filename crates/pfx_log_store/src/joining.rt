// The frames that a store's file has behind the last number of a log.
//
// Why it is so:
// - **Opening beside a log reads the segments once more** for the frames that the log hasn't: recovery gives the state behind them and
//   not the frames. They are the very bytes of the file, so a log that was brought up after a stop has what it would have had without
//   one.
ghost use Rattle.std.specs.Prelude.{◌≡◌, ◌≤◌, ◌<◌, ◌+◌, ◌^◌, ℕ, List, length, IfErr, IfOk, MatchResult, Ok, Err, if◌then◌else◌, not};
ghost use Rattle.pfx_disk.specs.Disk.{HasFailed, IsHonest};
ghost use Rattle.pfx_store_format.specs.Format.{format};
ghost use Rattle.pfx_store_header.specs.Headers.{Header};
ghost use Rattle.pfx_machine.specs.Plain.{Plain};
ghost use Rattle.pfx_store_recover.specs.Answers.{IsRefusal};
ghost use Rattle.pfx_store_recover.specs.Looking.{Looks, OnlyReads, Reaches};
ghost use Rattle.pfx_store_image.specs.Layout.{first_at};
ghost use Rattle.pfx_store_image.specs.Recovery.{found, found_of};
ghost use Rattle.pfx_store_image.specs.Store.{Parts};
ghost use Rattle.pfx_segment.specs.Frames.{AreFrames};
ghost use Rattle.pfx_store_file.specs.Checkpoints.{in_progress};
ghost use Rattle.pfx_store_file.specs.Holding.{ArePlaces};
ghost use Rattle.pfx_store_file.specs.Sizes.{total_len};
ghost use Rattle.pfx_log_store.specs.Behind.{all_frames};
ghost use Rattle.pfx_log_store.specs.Joining.{AreBehind, Gathering, Gathers, IsJoinFault, IsOfFile, gathered_more, gathering, none_behind};
ghost use Rattle.byteorder.specs.Endian.{little_number};

use pfx_disk::Disk;
use pfx_fault::Part;
use pfx_jobs::job::Job;
use pfx_log::AppendFault;
use pfx_segment::read_one;
use pfx_store_file::{Places, StoreFile};
use pfx_store_format::{number_after, number_of};
use pfx_store_image::SEGMENT_HEAD;
use pfx_store_recover::{OpenFault, Refusal};
use std::alloc::{AllocError, Global};
use thiserror::Error;

/// Why a store doesn't go on beside a log.
#[derive(Clone, Copy, Debug, PartialEq, Eq, Error)]
pub enum JoinFault {
    /// The file isn't read.
    #[error("{0}")]
    File(OpenFault),
    /// The file has no frames that begin behind the log's last number.
    #[error("the log ends with command {log}, and the file has no frame behind it: see {file}")]
    LogGap { log: u64, file: u64 },
    /// The frames that the log hasn't can't be appended to it.
    #[error("{0}")]
    Log(AppendFault),
}

impl From<OpenFault> for JoinFault {
    ghost use Rattle.pfx_log_store.specs.declared.joining.JoinFault.TheVariants.{File};

    ghost from_gives = { λ fault e. e ≡ File fault };

    fn from(fault: OpenFault) -> Self {
        JoinFault::File(fault)
    }
}

/// Frames that were gathered on the way over a file: those from some number on, one behind the other.
#[derive(Drop)]
pub(crate) struct Gathered {
    /// The frames.
    pub frames: Vec<u8>,
    /// The number behind which they begin.
    pub begin: u64,
    /// The number of the last frame that was passed.
    pub number: u64,
}

impl Gathered {
    // With a frame more, whose last number is this one.
    fn with_frame(self, last: u64, next: u64, frame: &[u8]) -> Result<Gathered, AllocError>
        ensures { IfOk result (λ g. gathering g ≡ gathered_more last next frame.now (gathering self)) }
    {
        let Gathered {
            mut frames,
            begin,
            number: _,
        } = self;
        if begin < last {
            return Ok(Gathered {
                frames,
                begin: next,
                number: next,
            });
        }
        frames.extend_from_slice(frame)?;
        Ok(Gathered {
            frames,
            begin,
            number: next,
        })
    }
}

// The number before the one that a segment at this place begins with.
fn number_before<D: Disk>(disk: &mut D, at: usize) -> Result<u64, OpenFault>
    requires inside { Reaches (at + SEGMENT_HEAD) (D.view disk.old) }
    requires place { at + SEGMENT_HEAD < 2 ^ 64 }
    ensures call { OnlyReads (D.view disk.old) (D.view disk.new) result }
    ensures small { IfOk result (λ number. number < 2 ^ 48) }
    ensures exact { IsHonest (D.view disk.old) → (n : ℕ) → n < 2 ^ 48 → little_number 8 (first_at at (D.view disk.old).contents) ≡ n + 1
        → MatchResult result (λ number. number ≡ n) (λ e. IsRefusal e (λ refusal. ⊥)) }
{
    let mut bytes = [0; 8];
    disk.read(at + 1, &mut bytes)?;
    let next = number_of(&bytes);
    if next == 0 || next > 1 << 48 {
        return Err(OpenFault::Refused(Refusal::Damaged {
            at,
            what: Part::Segment,
        }));
    }
    Ok(next - 1)
}

// The frames of a segment from this gate on, gathered behind those before.
fn gather<J: Job, D: Disk>(
    alloc: Global,
    disk: &mut D,
    first: usize,
    end: usize,
    last: u64,
    before: Gathered,
) -> Result<Gathered, OpenFault>
    requires order { first < end }
    requires inside { Reaches end (D.view disk.old) }
    requires number { before.number < 2 ^ 48 }
    ensures call { OnlyReads (D.view disk.old) (D.view disk.new) result }
    ensures small { IfOk result (λ g. g.number < 2 ^ 48) }
    ensures exact { IsHonest (D.view disk.old) → (frames : List (List ℕ)) → (next : Gathering)
        → AreFrames first end frames (D.view disk.old).contents → Gathers (format J.kind) last (gathering before) frames next
        → MatchResult result (λ g. gathering g ≡ next) (λ e. IsRefusal e (λ refusal. ⊥)) }
{
    let mut gate = first;
    let mut so_far = before;
    'walk: loop {
        let Some(frame) = read_one(alloc, disk, gate, end)? else {
            return Ok(so_far);
        };
        let Some(next) = number_after(so_far.number, &frame) else {
            return Err(OpenFault::Refused(Refusal::Damaged {
                at: gate,
                what: Part::Frame,
            }));
        };
        so_far = so_far.with_frame(last, next, &frame)?;
        gate += frame.len();
    }
}

// Which segment is read first.
fn first_segment(places: &Places) -> bool
    ensures { result ≡ (if in_progress places.now.checkpoint then not places.now.segment else places.now.segment) }
{
    if places.checkpoint.in_progress() {
        return !places.segment;
    }
    places.segment
}

// The frames of a file with these places, gathered from the first that is read on.
fn gather_file<J: Job, D: Disk>(
    alloc: Global,
    disk: &mut D,
    places: Places,
    last: u64,
) -> Result<Gathered, OpenFault>
    requires inside { Reaches (total_len places.sizes) (D.view disk.old) }
    ensures call { OnlyReads (D.view disk.old) (D.view disk.new) result }
    ensures exact { IsHonest (D.view disk.old) → (h : Header) → (p : Parts (Plain J)) → (s : Plain J)
        → found (format J.kind) (D.view disk.old).contents ≡ Ok (found_of h p s) → ArePlaces (format J.kind) h p places
        → MatchResult result (λ g. Gathers (format J.kind) last (none_behind p.base.number) (all_frames p) (gathering g))
        (λ e. IsRefusal e (λ refusal. ⊥)) }
{
    let at = places.sizes.segment_at(first_segment(&places));
    let number = number_before(disk, at)?;
    let none = Gathered {
        frames: Vec::new(alloc),
        begin: number,
        number,
    };
    let before = gather::<J, D>(
        alloc,
        disk,
        at + SEGMENT_HEAD,
        at + places.sizes.segment,
        last,
        none,
    )?;
    if !places.checkpoint.in_progress() {
        return Ok(before);
    }
    let at = places.sizes.segment_at(places.segment);
    gather::<J, D>(
        alloc,
        disk,
        at + SEGMENT_HEAD,
        at + places.sizes.segment,
        last,
        before,
    )
}

/// The frames that an opened file has behind the last number of a log, one behind the other: those that the log hasn't. Its segments are
/// read once more, and nothing is written.
///
/// `LogGap` says that there are none: the file begins behind that number or ends before it, or a frame has it within; `file` is the
/// number behind which the file's next frames begin, or its last number if it ends before. `Log` never comes. `File` comes only if the
/// disk failed, or an allocation.
pub fn frames_behind<J: Job, D: Disk>(
    alloc: Global,
    file: &mut StoreFile<D>,
    last: u64,
) -> Result<Vec<u8>, JoinFault>
    ensures looks { Looks (D.view file.old.disk) (D.view file.new.disk) }
    ensures file { (file.new.places ≡ file.old.places) × (file.new.broken ≡ file.old.broken) }
    ensures filed { IfErr result IsOfFile }
    ensures device { result ≡ Err (JoinFault.File OpenFault.Device) → HasFailed (D.view file.old.disk) (D.view file.new.disk) }
    // They are those of the file that was found, with these places.
    ensures exact { IsHonest (D.view file.old.disk) → (h : Header) → (p : Parts (Plain J)) → (s : Plain J)
        → found (format J.kind) (D.view file.old.disk).contents ≡ Ok (found_of h p s) → ArePlaces (format J.kind) h p file.old.places
        → MatchResult result (λ bytes. AreBehind (format J.kind) p.base.number (all_frames p) last bytes.items)
        (λ e. IsJoinFault (format J.kind) p.base.number (all_frames p) last e) }
{
    let gathered = gather_file::<J, D>(alloc, &mut file.disk, file.places, last)?;
    if gathered.begin != last {
        return Err(JoinFault::LogGap {
            log: last,
            file: gathered.begin,
        });
    }
    Ok(gathered.frames)
}
