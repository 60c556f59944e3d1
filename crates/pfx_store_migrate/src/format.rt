// The format, as those who open files take it.
ghost use Rattle.std.specs.Prelude.{◌≡◌};
ghost use Rattle.pfx_store_header.specs.declared.sizes.TheConstants.{HEADER_MOST};
ghost use Rattle.pfx_store_version_one.specs.Format.{format_1, IsOf};

use crate::header::OldHeader;
use pfx_checkpoint::{freeze, state_len};
use pfx_fault::Part;
use pfx_jobs::job::Job;
use pfx_machine::State;
use pfx_store_file::Sizes;
use pfx_store_format::{number_after, number_of};
use pfx_store_header::{HEADER_MOST, HeaderFault, header_len};
use pfx_store_recover::{Format, HeadFault, Refusal};
use pfx_store_version_one::{apply_frame, read_area, read_header};
use std::alloc::{AllocError, Global};
use std::marker::PhantomData;

/// The format of version 1 of the files of stores whose jobs are of this kind.
#[derive(Drop)]
pub struct OldFormat<J: Job> {
    kind: PhantomData<J>,
}

impl<J: Job> Format for OldFormat<J> {
    ghost use Rattle.pfx_store_version_one.proofs.Keeping.{format_laws, format_bounds};

    type Header = OldHeader;

    type State = State<J>;

    ghost codec = { format_1 J.kind };

    ghost fits = { IsOf };

    ghost HEAD_MOST = { HEADER_MOST };

    const HEAD_MOST: usize = HEADER_MOST;

    fn read_head(alloc: Global, bytes: &[u8]) -> Result<OldHeader, HeadFault> {
        match read_header(alloc, bytes) {
            Ok((set, segment)) => Ok(OldHeader { set, segment }),
            Err(HeaderFault::NotAStore) => Err(HeadFault::Refused(Refusal::NotAStore)),
            Err(HeaderFault::WrongVersion { version }) => {
                Err(HeadFault::Refused(Refusal::WrongVersion { version }))
            }
            Err(HeaderFault::Damaged) => Err(HeadFault::Refused(Refusal::Damaged {
                at: 0,
                what: Part::Header,
            })),
            Err(HeaderFault::NoMemory) => Err(HeadFault::NoMemory),
        }
    }

    fn sizes(header: &OldHeader) -> Sizes {
        let set = header.set();
        let _total = set.total();
        Sizes {
            head: header_len(set),
            body: state_len(set),
            segment: header.segment() as usize,
        }
    }

    fn area_number(bytes: &[u8; 8]) -> u64 {
        number_of(bytes)
    }

    fn read_state(
        alloc: Global,
        header: &OldHeader,
        bytes: &[u8],
    ) -> Result<Option<State<J>>, AllocError> {
        read_area(alloc, &header.set, header.segment, bytes)
    }

    fn number(state: &State<J>) -> u64 {
        state.number()
    }

    fn segment_number(bytes: &[u8; 8]) -> u64 {
        number_of(bytes)
    }

    fn after(last: u64, frame: &[u8]) -> Option<u64> {
        number_after(last, frame)
    }

    fn apply(alloc: Global, state: &mut State<J>, frame: &[u8]) -> Result<bool, AllocError> {
        apply_frame(alloc, state, frame)
    }

    fn encode(_header: &OldHeader, state: &State<J>, out: &mut [u8]) {
        let _number = state.number();
        freeze(state, out);
    }

    ghost laws = { format_laws J.kind J.laws };

    ghost bounds = { format_bounds J.kind J.laws };
}
