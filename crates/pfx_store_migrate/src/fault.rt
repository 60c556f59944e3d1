// Why a store isn't migrated.
use pfx_store::InitFault;
use pfx_store_recover::OpenFault;
use thiserror::Error;

/// Why a store of version 1 isn't made into one of this version.
#[derive(Clone, Copy, Debug, PartialEq, Eq, Error)]
pub enum MigrateFault {
    /// The old file isn't read. The new disk wasn't asked anything.
    #[error("{0}")]
    Old(OpenFault),
    /// The new file isn't made.
    #[error("{0}")]
    New(InitFault),
}
