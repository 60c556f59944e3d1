//! What fields of refusals name by a word.

ghost use Rattle.std.specs.Prelude.{Some};
ghost use Rattle.pfx_fault.specs.Fields.{part_name, cause_name};

use std::fmt;
use std::fmt::{Display, Formatter};

/// A part of a store file.
#[derive(Clone, Copy, Debug, PartialEq, Eq)]
pub enum Part {
    /// The file's header: its letters, its version, the set and the segment size.
    Header,
    /// The file's length.
    Length,
    /// A checkpoint area.
    Checkpoint,
    /// A segment's gate or first number.
    Segment,
    /// A frame's head.
    Frame,
    /// A frame's records.
    Record,
}

impl Display for Part {
    ghost output = { λ part. Some (part_name part) };

    fn fmt<W: fmt::Write>(&self, f: &mut Formatter<W>) -> fmt::Result {
        f.write_str(match self {
            Part::Header => "Header",
            Part::Length => "Length",
            Part::Checkpoint => "Checkpoint",
            Part::Segment => "Segment",
            Part::Frame => "Frame",
            Part::Record => "Record",
        })
    }
}

/// Why a store has failed.
#[derive(Clone, Copy, Debug, PartialEq, Eq)]
pub enum Cause {
    /// The disk failed.
    Device,
    /// An allocation failed.
    Memory,
    /// The disk of the log beside the store failed.
    Log,
}

impl Display for Cause {
    ghost output = { λ cause. Some (cause_name cause) };

    fn fmt<W: fmt::Write>(&self, f: &mut Formatter<W>) -> fmt::Result {
        f.write_str(match self {
            Cause::Device => "Device",
            Cause::Memory => "Memory",
            Cause::Log => "Log",
        })
    }
}
