// Making a store.
ghost use Rattle.std.specs.Prelude.{◌≡◌, ◌<◌, [], length, vec_capacity, IfOk, IfErr, MatchResult};
ghost use Rattle.pfx_checkpoint.specs.Whole.{whole_bytes};
ghost use Rattle.pfx_disk.specs.Disk.{IsHonest, Leaves, Same};
ghost use Rattle.pfx_store_create.specs.Attempts.{IsNoneOrMade};
ghost use Rattle.pfx_store_format.specs.Format.{format};
ghost use Rattle.pfx_store_header.specs.Headers.{IsSegmentSize, header_bytes, this_version};
ghost use Rattle.pfx_machine.specs.Plain.{empty};
ghost use Rattle.pfx_store.specs.Stores.{as_store};
ghost use Rattle.pfx_store.specs.Working.{IsBegun, IsDurable, IsMaking, IsNew, IsUnmade, MakesStore};
ghost use Rattle.pfx_store.specs.Making.{CanBegin, IsBeforeAnyCall, IsPrepared, IsSizeFault, header_of, making_calls};

use crate::appending::start_behind;
use crate::format::FileHeader;
use crate::journal::Journal;
use crate::opening::longest_frame;
use crate::store::Store;
use pfx_checkpoint::{freeze_whole, whole_len};
use pfx_disk::Disk;
use pfx_jobs::job::Job;
use pfx_machine::State;
use pfx_store_create::{CreateFault, create_file};
use pfx_store_header::{SegmentSizeFault, check_segment, header_len, write_header};
use pfx_weights::TaskSet;
use std::alloc::{AllocError, Global};
use thiserror::Error;

/// Why a store isn't made.
#[derive(Clone, Copy, Debug, PartialEq, Eq, Error)]
pub enum InitFault {
    /// The segment has fewer bytes than the longest batch needs: at least this many.
    #[error("a segment has at least {least} bytes")]
    SegmentTooSmall { least: u32 },
    /// The segment has more than 16,777,216 bytes.
    #[error("a segment has at most 16777216 bytes")]
    SegmentTooLarge,
    /// The disk holds bytes already. Nothing was written.
    #[error("the disk isn't empty")]
    NotEmpty,
    /// The disk failed. Any part of the file may have been written.
    #[error("the disk failed")]
    Device,
    /// An allocation failed. Nothing was written.
    #[error("out of memory")]
    NoMemory,
}

// Tests the length of a segment for a set.
fn check_size(set: &TaskSet, segment: u32) -> Result<(), InitFault>
    ensures { MatchResult result (λ _. IsSegmentSize set.now.workers segment)
        (λ fault. IsSizeFault set.now.workers segment fault × IsBeforeAnyCall fault) }
{
    match check_segment(set, segment) {
        Ok(()) => Ok(()),
        Err(SegmentSizeFault::SegmentTooSmall { least }) => {
            Err(InitFault::SegmentTooSmall { least })
        }
        Err(SegmentSizeFault::SegmentTooLarge) => Err(InitFault::SegmentTooLarge),
    }
}

// The bytes of the header of a store that begins at a state of the set.
fn head_of<J: Job>(alloc: Global, set: &TaskSet, state: &State<J>) -> Result<Vec<u8>, AllocError>
    requires { state.now.ledger.set ≡ set.now }
    ensures { IfOk result (λ head. head.items ≡ header_bytes this_version (header_of state.now)) }
{
    let mut head = vec![in alloc; 0; header_len(set)]?;
    write_header(set, state.segment(), &mut head);
    Ok(head)
}

// The bytes of the state with its set.
fn frozen<J: Job>(alloc: Global, state: &State<J>) -> Result<Vec<u8>, AllocError>
    ensures { IfOk result (λ body. body.items ≡ whole_bytes J.kind state.now) }
{
    let _total = state.columns().total();
    let mut body = vec![in alloc; 0; whole_len(state.columns().real())]?;
    freeze_whole(state, &mut body);
    Ok(body)
}

// Makes the file, if all that it takes is there.
fn placed<D: Disk, J: Job>(
    disk: D,
    state: State<J>,
    head: &[u8],
    spelled: Vec<u8>,
    frame: Vec<u8>,
) -> Result<Journal<D, J>, (InitFault, D)>
    requires { IsPrepared J.kind state head.now spelled.items (vec_capacity frame) }
    ensures { MakesStore D.view J.kind state disk (as_store result) }
{
    let segment = state.segment() as usize;
    let start = start_behind(state.number());
    let first = &start[..8];
    match create_file::<D, FileHeader, State<J>>(disk, head, &spelled, first, segment) {
        Ok(file) => Ok(Journal {
            file,
            state,
            spelled,
            frame,
        }),
        Err((CreateFault::Device, disk)) => Err((InitFault::Device, disk)),
        Err((CreateFault::NotEmpty, disk)) => Err((InitFault::NotEmpty, disk)),
    }
}

// Makes the journal that begins at a state of the set.
fn made<D: Disk, J: Job>(
    alloc: Global,
    disk: D,
    set: &TaskSet,
    state: State<J>,
) -> Result<Journal<D, J>, (InitFault, D)>
    requires { CanBegin set.now state }
    ensures { MakesStore D.view J.kind state disk (as_store result) }
{
    let _number = state.number();
    let Ok(head) = head_of(alloc, set, &state) else {
        return Err((InitFault::NoMemory, disk));
    };
    let Ok(spelled) = frozen(alloc, &state) else {
        return Err((InitFault::NoMemory, disk));
    };
    let _total = state.columns().total();
    let real = state.columns().real() as u32;
    let longest = longest_frame(state.columns().workers(), real);
    let Ok(frame) = Vec::with_capacity(alloc, longest) else {
        return Err((InitFault::NoMemory, disk));
    };
    placed(disk, state, &head, spelled, frame)
}

// Makes the journal of a set at its empty state.
fn made_empty<D: Disk, J: Job>(
    alloc: Global,
    disk: D,
    set: &TaskSet,
    segment: u32,
) -> Result<Journal<D, J>, (InitFault, D)>
    requires { IsSegmentSize set.now.workers segment }
    ensures { MakesStore D.view J.kind (empty set.now segment) disk (as_store result) }
{
    let Ok(state) = State::new(alloc, set, segment) else {
        return Err((InitFault::NoMemory, disk));
    };
    made(alloc, disk, set, state)
}

impl<D: Disk, J: Job> Store<D, J> {
    /// Makes the store of a set on an empty disk, with segments of this many bytes, at its empty state. With a fault the
    /// disk comes back.
    ///
    /// The faults come in this order: those of the segment's length; `NoMemory`, with nothing written; `NotEmpty`, with
    /// nothing written; `Device`.
    pub fn init(
        alloc: Global,
        disk: D,
        set: &TaskSet,
        segment: u32,
    ) -> Result<Store<D, J>, (InitFault, D)>
        ensures unmade { IfErr result (λ e. IsUnmade D.view set.now.workers segment disk e) }

        // It makes a store on an empty disk alone, and leaves one that holds bytes as it was.
        ensures vacant { IsHonest (D.view disk) → MatchResult result (λ _. (D.view disk).contents ≡ [])
            (λ e. 0 < length (D.view disk).contents → Leaves Same (D.view disk) (D.view e.1)) }

        // Six calls, and one for each 4,096 bytes behind the first.
        ensures calls { IsMaking D.view (making_calls set.now segment) disk result }
        ensures made { IfOk result (λ store. IsNew set.now segment store) }

        // From the return on each image is recovered to the state.
        ensures durable { IsHonest (D.view disk) → IfOk result (λ store.
            IsDurable J.kind store.file.broken store.state (D.view store.file.disk)) }

        // If the disk was empty since some moment, each image since then is no store's, or the empty state's: at every
        // moment of the call, whatever it answers.
        ensures recovers { IsHonest (D.view disk) → MatchResult result
            (λ store. IsNoneOrMade (format J.kind) (empty set.now segment) (D.view disk) (D.view store.file.disk))
            (λ e. IsNoneOrMade (format J.kind) (empty set.now segment) (D.view disk) (D.view e.1)) }
    {
        match check_size(set, segment) {
            Err(fault) => Err((fault, disk)),
            Ok(()) => match made_empty(alloc, disk, set, segment) {
                Ok(journal) => Ok(Store { journal }),
                Err(refused) => Err(refused),
            },
        }
    }

    /// Makes the store that begins at a state, on an empty disk: a store of the state's set, with segments of as many bytes as the
    /// state says, whose first command gets the number after the state's. With a fault the disk comes back.
    ///
    /// The faults come in the order that `init` has. A state with the last number, 2^48 - 1, makes a store that takes no command.
    pub fn begin(
        alloc: Global,
        disk: D,
        set: &TaskSet,
        state: State<J>,
    ) -> Result<Store<D, J>, (InitFault, D)>
        requires { state.ledger.set ≡ set.now }
        ensures unmade { IfErr result (λ e. IsUnmade D.view state.ledger.set.workers state.segment disk e) }

        // It makes a store on an empty disk alone, and leaves one that holds bytes as it was.
        ensures vacant { IsHonest (D.view disk) → MatchResult result (λ _. (D.view disk).contents ≡ [])
            (λ e. 0 < length (D.view disk).contents → Leaves Same (D.view disk) (D.view e.1)) }

        // Six calls, and one for each 4,096 bytes behind the first.
        ensures calls { IsMaking D.view (making_calls state.ledger.set state.segment) disk result }
        ensures made { IfOk result (λ store. IsBegun state store) }

        // From the return on each image is recovered to the state.
        ensures durable { IsHonest (D.view disk) → IfOk result (λ store.
            IsDurable J.kind store.file.broken store.state (D.view store.file.disk)) }

        // If the disk was empty since some moment, each image since then is no store's, or the state's: at every moment of
        // the call, whatever it answers.
        ensures recovers { IsHonest (D.view disk) → MatchResult result
            (λ store. IsNoneOrMade (format J.kind) state (D.view disk) (D.view store.file.disk))
            (λ e. IsNoneOrMade (format J.kind) state (D.view disk) (D.view e.1)) }
    {
        match check_size(set, state.segment()) {
            Err(fault) => Err((fault, disk)),
            Ok(()) => match made(alloc, disk, set, state) {
                Ok(journal) => Ok(Store { journal }),
                Err(refused) => Err(refused),
            },
        }
    }
}
