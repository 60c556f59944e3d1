// Why a log isn't made, read or written.
ghost use Rattle.std.specs.Prelude.{◌≡◌};
ghost use Rattle.pfx_log.specs.declared.faults.AppendFault.TheVariants.{Device as DeviceIs, NoMemory as NoMemoryIs};
ghost use Rattle.pfx_log.specs.declared.faults.CreateLogFault.TheVariants.{Device as NoDevice, NoMemory as NoRoom};
ghost use Rattle.pfx_log.specs.declared.faults.LogFault.TheVariants.{NoMemory, Device};

use pfx_disk::DeviceFailed;
use std::alloc::{AllocError, AllocFailed};
use thiserror::Error;

/// What of a log is damaged.
#[derive(Clone, Copy, Debug, PartialEq, Eq, Error)]
pub enum Damage {
    /// The header: its state has fewer than 8 bytes, or the bytes end before it does.
    #[error("header")]
    Header,
    /// The bytes end before a block does, or with no closed gate behind the last one.
    #[error("block")]
    Block,
    /// A block doesn't begin with the next number, or ends before it begins.
    #[error("number")]
    Number,
    /// The head behind a block isn't that of the bytes up to there.
    #[error("head")]
    Head,
}

/// Why a log isn't read.
#[derive(Clone, Copy, Debug, PartialEq, Eq, Error)]
pub enum LogFault {
    /// An allocation failed.
    #[error("out of memory")]
    NoMemory,
    /// The disk failed.
    #[error("the disk failed")]
    Device,
    /// There are fewer than 15 bytes, the first gate is closed, or other letters stand behind it.
    #[error("not a log")]
    NotALog,
    /// It is a log of a version that isn't known.
    #[error("a log of version {version}")]
    WrongVersion { version: u8 },
    /// The part that begins at this offset is damaged.
    #[error("the log is damaged at {at}: {what}")]
    Damaged { at: usize, what: Damage },
    /// The state, at 0, or the frames of the block whose gate stands here have more than 16,777,216 bytes.
    #[error("the part of the log at {at} is too long")]
    TooLong { at: usize },
}

impl From<DeviceFailed> for LogFault {
    ghost from_gives = { λ _ e. e ≡ Device };

    fn from(_: DeviceFailed) -> Self {
        LogFault::Device
    }
}

impl From<AllocError> for LogFault {
    ghost from_gives = { λ _ e. e ≡ NoMemory };

    fn from(_: AllocError) -> Self {
        LogFault::NoMemory
    }
}

impl<T: Drop> From<AllocFailed<T>> for LogFault {
    ghost from_gives = { λ _ e. e ≡ NoMemory };

    fn from(_: AllocFailed<T>) -> Self {
        LogFault::NoMemory
    }
}

/// Why a log isn't made.
#[derive(Clone, Copy, Debug, PartialEq, Eq, Error)]
pub enum CreateLogFault {
    /// An allocation failed. No call of the disk was made.
    #[error("out of memory")]
    NoMemory,
    /// The disk failed. Any part of the log may have been written.
    #[error("the disk failed")]
    Device,
    /// The disk holds bytes already. Nothing was written.
    #[error("the disk isn't empty")]
    NotEmpty,
}

impl From<DeviceFailed> for CreateLogFault {
    ghost from_gives = { λ _ e. e ≡ NoDevice };

    fn from(_: DeviceFailed) -> Self {
        CreateLogFault::Device
    }
}

impl From<AllocError> for CreateLogFault {
    ghost from_gives = { λ _ e. e ≡ NoRoom };

    fn from(_: AllocError) -> Self {
        CreateLogFault::NoMemory
    }
}

/// Why a block isn't appended.
#[derive(Clone, Copy, Debug, PartialEq, Eq, Error)]
pub enum AppendFault {
    /// An allocation failed. No call of the disk was made.
    #[error("out of memory")]
    NoMemory,
    /// The disk failed. Any part of the block may have been written, and the log is broken.
    #[error("the disk failed")]
    Device,
    /// The disk failed in an earlier call. The log has to be opened again.
    #[error("the disk failed before; the log has to be opened again")]
    Broken,
    /// The first number isn't the next one, or the last one is below it. Nothing was done.
    #[error("the block doesn't begin with the next number")]
    Gap,
    /// The frames have more than 16,777,216 bytes. Nothing was done.
    #[error("the block's frames are too long")]
    TooLong,
    /// The log has 2^62 bytes or more. Nothing was done.
    #[error("the log is full")]
    Full,
}

impl From<DeviceFailed> for AppendFault {
    ghost from_gives = { λ _ e. e ≡ DeviceIs };

    fn from(_: DeviceFailed) -> Self {
        AppendFault::Device
    }
}

impl From<AllocError> for AppendFault {
    ghost from_gives = { λ _ e. e ≡ NoMemoryIs };

    fn from(_: AllocError) -> Self {
        AppendFault::NoMemory
    }
}
