// Why a new file isn't made.
ghost use Rattle.std.specs.Prelude.{◌≡◌};
ghost use Rattle.pfx_store_create.specs.declared.fault.CreateFault.TheVariants.{Device};

use pfx_disk::DeviceFailed;
use thiserror::Error;

/// Why a new file isn't made.
#[derive(Clone, Copy, Debug, PartialEq, Eq, Error)]
pub enum CreateFault {
    /// The disk failed. Any part of the file may have been written.
    #[error("the disk failed")]
    Device,
    /// The disk holds bytes already. Nothing was written.
    #[error("the disk isn't empty")]
    NotEmpty,
}

impl From<DeviceFailed> for CreateFault {
    ghost from_gives = { λ _ e. e ≡ Device };

    fn from(_: DeviceFailed) -> Self {
        CreateFault::Device
    }
}
