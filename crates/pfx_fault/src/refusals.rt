//! What the program refuses, and why.

ghost use Rattle.std.specs.Prelude.{Some, ◌≡◌};
ghost use Rattle.pfx_fault.specs.Refusals.{refusal, number_of, name_of, status_of};
ghost use Rattle.pfx_fault.specs.Line.{fields_text, fault_text, refused_text};

use crate::fields::{Cause, Part};
use std::error::Error;
use std::fmt;
use std::fmt::{Display, Formatter};

/// A refusal of the program.
///
/// It is shown as its number, its name and ` field=value` for each field in order, as in
/// `21 TooManyUrgent urgent=3 m=2`. Tasks are numbered from 0 in the order of the set file.
#[derive(Clone, Copy, Debug, PartialEq, Eq)]
pub enum Fault {
    /// The text isn't a set file.
    BadSet,
    /// The set has no task.
    NoTasks,
    /// The set has more than 1,024 tasks.
    TooManyTasks,
    /// The workers aren't 1 to 64.
    BadWorkers,
    /// This task's weight e/p isn't between 0 and 1.
    BadWeight { task: u16 },
    /// At this task the common multiple of the periods passes 1,048,576.
    HyperperiodTooLarge { task: u16 },
    /// The weights sum to more than the workers.
    Overload,
    /// The segment can't hold a greatest batch; this is the least size in bytes.
    SegmentTooSmall { least: u32 },
    /// The segment is above 16,777,216 bytes.
    SegmentTooLarge,
    /// More tasks have to run in the slot than there are workers.
    TooManyUrgent { urgent: u32, m: u32 },
    /// Fewer tasks may run in the slot than there are workers.
    TooFewEligible { eligible: u32, m: u32 },
    /// The last slot that can be numbered is reached.
    SlotLimit,
    /// This task's lag isn't strictly between -1 and 1.
    OutOfRange { task: u16 },
    /// The allocations don't sum to the workers' slots.
    WrongSum,
    /// The text isn't a ledger of the set: a slot below 2^40 and an allocation for each task.
    BadLedger,
    /// The task isn't one of the set's real tasks.
    NoSuchTask { task: u16 },
    /// The task has an unfinished job.
    TaskBusy { task: u16 },
    /// The task has no job.
    NoJob { task: u16 },
    /// The last number that a command can have is reached.
    NumberLimit,
    /// This task's lag isn't zero, so no new weights come into force. It may be an idle task.
    NotLevel { task: u16 },
    /// There is not one new weight for each task.
    WrongCount,
    /// There is no kind of job of this name.
    BadKind,
    /// The goal is out of the kind's range.
    BadGoal,
    /// The data isn't in the kind's form.
    BadData,
    /// The answer isn't of the next unit that the task was given.
    NotNext { task: u16 },
    /// The file isn't a store.
    NotAStore,
    /// This part of the store file, at this offset, is damaged.
    Damaged { at: u64, what: Part },
    /// The disk failed in this call.
    Device,
    /// The disk failed in an earlier call; the store is to be opened again.
    Broken,
    /// The store is of another version than 2.
    WrongVersion { version: u8 },
    /// A store can't be made in a file that isn't empty.
    NotEmpty,
    /// The frame doesn't fit into its segment.
    NoRoom,
    /// Another process has the store open.
    Busy,
    /// The store has failed, with the commands up to this number kept.
    StoreFailed { marked: u64, cause: Cause },
    /// 1,048,576 commands were accepted in this run.
    SessionFull,
    /// A thread can't be started.
    NoThread,
    /// The script's record at this place, counted from 1, has no form of a record.
    BadScript { at: u64 },
    /// A file can't be opened or read.
    InputFailed,
    /// The output can't be written.
    OutputFailed,
    /// The log ends with the first number, and the store's file begins behind the second: the commands in between are in neither.
    LogGap { log: u64, file: u64 },
    /// The file isn't a log.
    NotALog,
    /// The part of the log at this offset is damaged.
    LogDamaged { at: u64 },
    /// The log is of another version than 1.
    WrongLogVersion { version: u8 },
    /// An allocation failed.
    NoMemory,
}

impl Fault {
    /// The refusal's number, as fault lines print it.
    pub fn number(&self) -> u8
        ensures { result ≡ number_of self.now }
    {
        match self {
            Fault::BadSet => 10,
            Fault::NoTasks => 11,
            Fault::TooManyTasks => 12,
            Fault::BadWorkers => 13,
            Fault::BadWeight { .. } => 14,
            Fault::HyperperiodTooLarge { .. } => 16,
            Fault::Overload => 17,
            Fault::SegmentTooSmall { .. } => 19,
            Fault::SegmentTooLarge => 20,
            Fault::TooManyUrgent { .. } => 21,
            Fault::TooFewEligible { .. } => 22,
            Fault::SlotLimit => 23,
            Fault::OutOfRange { .. } => 24,
            Fault::WrongSum => 25,
            Fault::BadLedger => 26,
            Fault::NoSuchTask { .. } => 31,
            Fault::TaskBusy { .. } => 32,
            Fault::NoJob { .. } => 33,
            Fault::NumberLimit => 34,
            Fault::NotLevel { .. } => 35,
            Fault::WrongCount => 36,
            Fault::BadKind => 41,
            Fault::BadGoal => 42,
            Fault::BadData => 43,
            Fault::NotNext { .. } => 45,
            Fault::NotAStore => 51,
            Fault::Damaged { .. } => 52,
            Fault::Device => 53,
            Fault::Broken => 54,
            Fault::WrongVersion { .. } => 55,
            Fault::NotEmpty => 56,
            Fault::NoRoom => 57,
            Fault::Busy => 58,
            Fault::StoreFailed { .. } => 61,
            Fault::SessionFull => 64,
            Fault::NoThread => 68,
            Fault::BadScript { .. } => 71,
            Fault::InputFailed => 72,
            Fault::OutputFailed => 73,
            Fault::LogGap { .. } => 74,
            Fault::NotALog => 75,
            Fault::LogDamaged { .. } => 76,
            Fault::WrongLogVersion { .. } => 77,
            Fault::NoMemory => 90,
        }
    }

    /// The refusal's name, as fault lines print it.
    pub fn name(&self) -> &'static str
        ensures { result.now ≡ name_of self.now }
    {
        match self {
            Fault::BadSet => "BadSet",
            Fault::NoTasks => "NoTasks",
            Fault::TooManyTasks => "TooManyTasks",
            Fault::BadWorkers => "BadWorkers",
            Fault::BadWeight { .. } => "BadWeight",
            Fault::HyperperiodTooLarge { .. } => "HyperperiodTooLarge",
            Fault::Overload => "Overload",
            Fault::SegmentTooSmall { .. } => "SegmentTooSmall",
            Fault::SegmentTooLarge => "SegmentTooLarge",
            Fault::TooManyUrgent { .. } => "TooManyUrgent",
            Fault::TooFewEligible { .. } => "TooFewEligible",
            Fault::SlotLimit => "SlotLimit",
            Fault::OutOfRange { .. } => "OutOfRange",
            Fault::WrongSum => "WrongSum",
            Fault::BadLedger => "BadLedger",
            Fault::NoSuchTask { .. } => "NoSuchTask",
            Fault::TaskBusy { .. } => "TaskBusy",
            Fault::NoJob { .. } => "NoJob",
            Fault::NumberLimit => "NumberLimit",
            Fault::NotLevel { .. } => "NotLevel",
            Fault::WrongCount => "WrongCount",
            Fault::BadKind => "BadKind",
            Fault::BadGoal => "BadGoal",
            Fault::BadData => "BadData",
            Fault::NotNext { .. } => "NotNext",
            Fault::NotAStore => "NotAStore",
            Fault::Damaged { .. } => "Damaged",
            Fault::Device => "Device",
            Fault::Broken => "Broken",
            Fault::WrongVersion { .. } => "WrongVersion",
            Fault::NotEmpty => "NotEmpty",
            Fault::NoRoom => "NoRoom",
            Fault::Busy => "Busy",
            Fault::StoreFailed { .. } => "StoreFailed",
            Fault::SessionFull => "SessionFull",
            Fault::NoThread => "NoThread",
            Fault::BadScript { .. } => "BadScript",
            Fault::InputFailed => "InputFailed",
            Fault::OutputFailed => "OutputFailed",
            Fault::LogGap { .. } => "LogGap",
            Fault::NotALog => "NotALog",
            Fault::LogDamaged { .. } => "LogDamaged",
            Fault::WrongLogVersion { .. } => "WrongLogVersion",
            Fault::NoMemory => "NoMemory",
        }
    }

    /// The exit status with which the program ends: 3 if a set or a plan is refused, 4 where a
    /// command, the store or its log is, 7 if the script has no form, 8 if a file or an output
    /// failed, 5 if memory ran out.
    pub fn status(&self) -> u8
        ensures { result ≡ status_of self.now }
    {
        match self.number() {
            0..=26 => 3,
            27..=70 => 4,
            71 => 7,
            72..=73 => 8,
            74..=77 => 4,
            _ => 5,
        }
    }
}

impl Error for Fault {}

impl Display for Fault {
    ghost output = { λ fault. Some (fault_text fault) };

    fn fmt<W: fmt::Write>(&self, f: &mut Formatter<W>) -> fmt::Result {
        write!(f, "{} {}{}", self.number(), self.name(), Fields(*self))
    }
}

/// A refusal of one command, after which the commands go on: shown as `refused 32 TaskBusy task=0`.
#[derive(Clone, Copy, Debug, PartialEq, Eq)]
pub struct Refused(pub Fault);

impl Display for Refused {
    ghost output = { λ refused. Some (refused_text refused.0) };

    fn fmt<W: fmt::Write>(&self, f: &mut Formatter<W>) -> fmt::Result {
        write!(f, "refused {}", self.0)
    }
}

// The fields of a refusal, as ` task=2`.
#[derive(Clone, Copy)]
struct Fields(Fault);

impl Display for Fields {
    ghost output = { λ fields. Some (fields_text (refusal fields.0).fields) };

    fn fmt<W: fmt::Write>(&self, f: &mut Formatter<W>) -> fmt::Result {
        match self.0 {
            Fault::BadWeight { task }
            | Fault::HyperperiodTooLarge { task }
            | Fault::OutOfRange { task }
            | Fault::NoSuchTask { task }
            | Fault::TaskBusy { task }
            | Fault::NoJob { task }
            | Fault::NotLevel { task }
            | Fault::NotNext { task } => write!(f, " task={task}"),
            Fault::SegmentTooSmall { least } => write!(f, " least={least}"),
            Fault::TooManyUrgent { urgent, m } => write!(f, " urgent={urgent} m={m}"),
            Fault::TooFewEligible { eligible, m } => write!(f, " eligible={eligible} m={m}"),
            Fault::Damaged { at, what } => write!(f, " at={at} what={what}"),
            Fault::WrongVersion { version } | Fault::WrongLogVersion { version } => write!(
                f,
                " version={version}"
            ),
            Fault::StoreFailed { marked, cause } => write!(f, " marked={marked} cause={cause}"),
            Fault::BadScript { at } | Fault::LogDamaged { at } => write!(f, " at={at}"),
            Fault::LogGap { log, file } => write!(f, " log={log} file={file}"),
            _ => Ok(()),
        }
    }
}
