// Why a call of a store's file does nothing, or breaks it.
ghost use Rattle.std.specs.Prelude.{◌≡◌};
ghost use Rattle.pfx_store_file.specs.declared.faults.StoreFault.TheVariants.{Device};

use pfx_disk::DeviceFailed;
use thiserror::Error;

/// Why a store's file isn't written.
#[derive(Clone, Copy, Debug, PartialEq, Eq, Error)]
pub enum StoreFault {
    /// The disk failed. Any part of the call may have been done, and the file is broken.
    #[error("the disk failed")]
    Device,
    /// The disk failed in an earlier call. The file has to be opened again.
    #[error("the disk failed before; the store has to be opened again")]
    Broken,
    /// The frame doesn't fit into the current segment.
    #[error("the frame doesn't fit into the segment")]
    NoRoom,
}

impl From<DeviceFailed> for StoreFault {
    ghost from_gives = { λ _ e. e ≡ Device };

    fn from(_: DeviceFailed) -> Self {
        StoreFault::Device
    }
}
