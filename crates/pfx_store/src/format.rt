// The format, as those who open files take it.
ghost use Rattle.std.specs.Prelude.{◌≡◌};
ghost use Rattle.pfx_store_format.specs.Format.{format, IsOf};
ghost use Rattle.pfx_store_header.specs.declared.sizes.TheConstants.{HEADER_MOST};

use pfx_checkpoint::{freeze_whole, whole_len};
use pfx_fault::Part;
use pfx_jobs::job::Job;
use pfx_machine::State;
use pfx_store_file::Sizes;
use pfx_store_format::{apply_frame, number_after, number_of, read_area};
use pfx_store_header::{HEADER_MOST, HeaderFault, header_len, read_header};
use pfx_store_recover::{Format, HeadFault, Refusal};
use pfx_weights::TaskSet;
use std::alloc::{AllocError, Global};
use std::marker::{Model, PhantomData};

/// The header of a store's file: a task set, and how many bytes a segment has.
#[derive(Drop)]
pub struct FileHeader {
    set: TaskSet,
    segment: u32,
}

impl Model for FileHeader {
    ghost use Rattle.pfx_store_header.specs.Headers.{Header, IsHeader};

    ghost Value = { Header };

    ghost view = { λ h. record { set = h.set; segment = h.segment } };

    ghost invariant = { λ h. IsHeader (record { set = h.set; segment = h.segment }) };
}

impl FileHeader {
    ghost use Rattle.pfx_store_header.specs.Headers.{IsHeader};

    /// The task set.
    pub fn set(&self) -> &TaskSet
        ensures set { result.now ≡ self.now.set }
        ensures header { IsHeader self.now }
    {
        &self.set
    }

    /// How many bytes a segment has.
    pub fn segment(&self) -> u32
        ensures { result ≡ self.now.segment }
    {
        self.segment
    }
}

/// The format of the files of stores whose jobs are of this kind.
#[derive(Drop)]
pub struct FileFormat<J: Job> {
    kind: PhantomData<J>,
}

impl<J: Job> Format for FileFormat<J> {
    ghost use Rattle.pfx_store_format.proofs.Keeping.{format_laws, format_bounds};

    type Header = FileHeader;

    type State = State<J>;

    ghost codec = { format J.kind };

    ghost fits = { IsOf };

    ghost HEAD_MOST = { HEADER_MOST };

    const HEAD_MOST: usize = HEADER_MOST;

    fn read_head(alloc: Global, bytes: &[u8]) -> Result<FileHeader, HeadFault> {
        match read_header(alloc, bytes) {
            Ok((set, segment)) => Ok(FileHeader { set, segment }),
            Err(HeaderFault::NotAStore) => Err(HeadFault::Refused(Refusal::NotAStore)),
            Err(HeaderFault::WrongVersion { version }) => {
                Err(HeadFault::Refused(Refusal::WrongVersion { version }))
            }
            Err(HeaderFault::Damaged) => Err(HeadFault::Refused(Refusal::Damaged {
                at: 0,
                what: Part::Header,
            })),
            Err(HeaderFault::NoMemory) => Err(HeadFault::NoMemory),
        }
    }

    fn sizes(header: &FileHeader) -> Sizes {
        let set = header.set();
        let _total = set.total();
        Sizes {
            head: header_len(set),
            body: whole_len(set.real()),
            segment: header.segment() as usize,
        }
    }

    fn area_number(bytes: &[u8; 8]) -> u64 {
        number_of(bytes)
    }

    fn read_state(
        alloc: Global,
        header: &FileHeader,
        bytes: &[u8],
    ) -> Result<Option<State<J>>, AllocError> {
        read_area(alloc, &header.set, header.segment, bytes)
    }

    fn number(state: &State<J>) -> u64 {
        state.number()
    }

    fn segment_number(bytes: &[u8; 8]) -> u64 {
        number_of(bytes)
    }

    fn after(last: u64, frame: &[u8]) -> Option<u64> {
        number_after(last, frame)
    }

    fn apply(alloc: Global, state: &mut State<J>, frame: &[u8]) -> Result<bool, AllocError> {
        apply_frame(alloc, state, frame)
    }

    fn encode(_header: &FileHeader, state: &State<J>, out: &mut [u8]) {
        let _number = state.number();
        freeze_whole(state, out);
    }

    ghost laws = { format_laws J.kind J.laws };

    ghost bounds = { format_bounds J.kind J.laws };
}
