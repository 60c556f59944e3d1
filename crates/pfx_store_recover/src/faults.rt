// Why a file isn't opened.
ghost use Rattle.std.specs.Prelude.{◌≡◌};
ghost use Rattle.pfx_store_recover.specs.declared.faults.OpenFault.TheVariants.{Device, NoMemory, Refused};

use pfx_disk::DeviceFailed;
use pfx_fault::Part;
use pfx_segment::ReadFault;
use std::alloc::{AllocError, AllocFailed};
use thiserror::Error;

/// Why a file isn't a store's: the first test that fails.
#[derive(Clone, Copy, Debug, PartialEq, Eq, Error)]
pub enum Refusal {
    /// It is too short, its first gate is closed, or other letters stand behind it.
    #[error("not a store")]
    NotAStore,
    /// It is a store of a version that isn't known.
    #[error("a store of version {version}")]
    WrongVersion { version: u8 },
    /// The part at this offset is damaged.
    #[error("the file is damaged at {at}")]
    Damaged { at: usize, what: Part },
}

/// Why no header is read.
#[derive(Clone, Copy, Debug, PartialEq, Eq, Error)]
pub enum HeadFault {
    /// There is none.
    #[error("{0}")]
    Refused(Refusal),
    /// An allocation failed.
    #[error("out of memory")]
    NoMemory,
}

/// Why a file isn't opened.
#[derive(Clone, Copy, Debug, PartialEq, Eq, Error)]
pub enum OpenFault {
    /// It isn't a store's file.
    #[error("{0}")]
    Refused(Refusal),
    /// The disk failed.
    #[error("the disk failed")]
    Device,
    /// An allocation failed.
    #[error("out of memory")]
    NoMemory,
}

impl From<Refusal> for OpenFault {
    ghost from_gives = { λ refusal e. e ≡ Refused refusal };

    fn from(refusal: Refusal) -> Self {
        OpenFault::Refused(refusal)
    }
}

impl From<HeadFault> for OpenFault {
    ghost use Rattle.pfx_store_recover.specs.Answers.{of_head};

    ghost from_gives = { λ fault e. e ≡ of_head fault };

    fn from(fault: HeadFault) -> Self {
        match fault {
            HeadFault::Refused(refusal) => OpenFault::Refused(refusal),
            HeadFault::NoMemory => OpenFault::NoMemory,
        }
    }
}

impl From<ReadFault> for OpenFault {
    ghost use Rattle.pfx_store_recover.specs.Answers.{of_frame};

    ghost from_gives = { λ fault e. e ≡ of_frame fault };

    fn from(fault: ReadFault) -> Self {
        match fault {
            ReadFault::NoMemory => OpenFault::NoMemory,
            ReadFault::Device => OpenFault::Device,
            ReadFault::Damaged { at } => OpenFault::Refused(Refusal::Damaged {
                at,
                what: Part::Frame,
            }),
        }
    }
}

impl From<DeviceFailed> for OpenFault {
    ghost from_gives = { λ _ e. e ≡ Device };

    fn from(_: DeviceFailed) -> Self {
        OpenFault::Device
    }
}

impl From<AllocError> for OpenFault {
    ghost from_gives = { λ _ e. e ≡ NoMemory };

    fn from(_: AllocError) -> Self {
        OpenFault::NoMemory
    }
}

impl<T: Drop> From<AllocFailed<T>> for OpenFault {
    ghost from_gives = { λ _ e. e ≡ NoMemory };

    fn from(_: AllocFailed<T>) -> Self {
        OpenFault::NoMemory
    }
}
