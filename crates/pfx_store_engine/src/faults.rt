//! The program's fault for each fault of a store's file.

ghost use Rattle.std.specs.Prelude.{◌≡◌};
ghost use Rattle.pfx_store_engine.specs.Faults.{fault_of_init, fault_of_open, fault_of_size};

use pfx_fault::Fault;
use pfx_store::InitFault;
use pfx_store_header::SegmentSizeFault;
use pfx_store_recover::{OpenFault, Refusal};

/// The fault of a segment's length, with the least that it may have.
pub fn size_fault(fault: SegmentSizeFault) -> Fault
    ensures { result ≡ fault_of_size fault }
{
    match fault {
        SegmentSizeFault::SegmentTooSmall { least } => Fault::SegmentTooSmall { least },
        SegmentSizeFault::SegmentTooLarge => Fault::SegmentTooLarge,
    }
}

/// The fault of a store that isn't made.
pub fn init_fault(fault: InitFault) -> Fault
    ensures { result ≡ fault_of_init fault }
{
    match fault {
        InitFault::SegmentTooSmall { least } => Fault::SegmentTooSmall { least },
        InitFault::SegmentTooLarge => Fault::SegmentTooLarge,
        InitFault::NotEmpty => Fault::NotEmpty,
        InitFault::Device => Fault::Device,
        InitFault::NoMemory => Fault::NoMemory,
    }
}

/// The fault of a store that isn't opened. The place of a damage is a byte of the file, counted from 0.
pub fn open_fault(fault: OpenFault) -> Fault
    ensures { result ≡ fault_of_open fault }
{
    match fault {
        OpenFault::Refused(Refusal::NotAStore) => Fault::NotAStore,
        OpenFault::Refused(Refusal::WrongVersion { version }) => Fault::WrongVersion { version },
        OpenFault::Refused(Refusal::Damaged { at, what }) => Fault::Damaged {
            at: at as u64,
            what,
        },
        OpenFault::Device => Fault::Device,
        OpenFault::NoMemory => Fault::NoMemory,
    }
}
