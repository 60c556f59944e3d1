//! What a command leaves for what is said after it: the text of the set that it read, why its output failed, what a script's run counted.

use crate::files::Source;
use pfx_disk::FileDisk;
use pfx_fault::Fault;
use pfx_program::Report;
use std::alloc::Global;
use std::cell::{Cell, OnceCell};
use std::io;
use std::io::{Error, ErrorKind, Printer, Read, Write};

/// How many bytes a set has at the most.
const LONGEST_SET: u64 = 1 << 24;

/// A store that wasn't made, whose file was new.
#[derive(Clone, Copy)]
pub(crate) struct Unmade {
    /// How many bytes it needs; 0 if that isn't known.
    pub(crate) needed: u64,
    /// Whether the file couldn't be taken away.
    pub(crate) is_left: bool,
}

/// What was read of a set.
#[derive(Drop)]
pub(crate) struct SetRead {
    /// Its text; empty if there was no room for it.
    text: Vec<u8>,
    /// Whether it is longer than sets are.
    is_long: bool,
}

/// What a command leaves.
#[derive(Drop)]
pub(crate) struct Traces {
    /// What was read of its set, once that was read.
    set: OnceCell<SetRead>,
    /// The store that wasn't made.
    pub(crate) unmade: Cell<Option<Unmade>>,
    /// Why the file of a new store couldn't be opened or made.
    pub(crate) unopened: Cell<Option<ErrorKind>>,
    /// Why the log beside a store couldn't be opened or made.
    pub(crate) unopened_log: Cell<Option<ErrorKind>>,
    /// Whether what failed is the log beside a store.
    pub(crate) at_log: Cell<bool>,
    /// Which path of a history what failed is at, counted from 0.
    pub(crate) at_part: Cell<usize>,
    /// What the system said of the last call of a store's disk that failed.
    pub(crate) device: Cell<Option<Error>>,
    /// Why the last write of its output failed.
    pub(crate) failed: Cell<Option<ErrorKind>>,
    /// What a run of a script has counted, once it went well.
    pub(crate) report: Cell<Option<Report>>,
    /// The next slot, by the store at the end, at which no task is ahead or behind.
    pub(crate) level: Cell<Option<u64>>,
}

impl Traces {
    pub(crate) fn new() -> Traces {
        Traces {
            set: OnceCell::new(),
            unmade: Cell::new(None),
            unopened: Cell::new(None),
            unopened_log: Cell::new(None),
            at_log: Cell::new(false),
            at_part: Cell::new(0),
            device: Cell::new(None),
            failed: Cell::new(None),
            report: Cell::new(None),
            level: Cell::new(None),
        }
    }

    /// Keeps what was read of a set. A command reads one set at the most.
    pub(crate) fn keep_set(&self, read: SetRead) {
        let _ = self.set.set(read);
    }

    /// The text of the set that was read; empty if there is none.
    pub(crate) fn set_text(&self) -> &[u8] {
        match self.set.get() {
            Some(read) => read.text.as_slice(),
            None => b"",
        }
    }

    /// Whether the set is longer than sets are.
    pub(crate) fn is_set_long(&self) -> bool {
        match self.set.get() {
            Some(read) => read.is_long,
            None => false,
        }
    }

    /// Keeps what the system said of a disk's last failure, if there was one.
    pub(crate) fn keep_said(&self, disk: &FileDisk) {
        self.device.set(disk.said());
    }

    /// Keeps what a run of a script answers.
    pub(crate) fn keep_report(&self, answer: Result<Report, Fault>) -> Result<(), Fault> {
        self.report.set(Some(answer?));
        Ok(())
    }

    /// Whether a run of a script went well and had a refused record.
    pub(crate) fn has_refused(&self) -> bool {
        match self.report.get() {
            Some(report) => report.refused > 0,
            None => false,
        }
    }
}

/// Standard output, of which is kept why a write of it failed.
#[derive(Drop)]
pub(crate) struct Watched<'a> {
    printer: Printer<'a, HostRuntime>,
    failed: &'a Cell<Option<ErrorKind>>,
}

/// Standard output.
pub(crate) fn output_of<'a>(
    rt: &'a HostRuntime,
    failed: &'a Cell<Option<ErrorKind>>,
) -> Watched<'a> {
    Watched {
        printer: io::writer(rt),
        failed,
    }
}

impl Write for Watched<'_> {
    fn write(&mut self, bytes: &[u8]) -> io::Result<usize> {
        let written = self.printer.write(bytes);
        if let Err(error) = &written {
            self.failed.set(Some(error.kind()));
        }
        written
    }

    fn flush(&mut self) -> io::Result<()> {
        self.printer.flush()
    }
}

/// A set's source, whose bytes are kept as they are read. If there is no room for all of them, none are. One that is too long fails.
#[derive(Drop)]
pub(crate) struct KeptSource {
    source: Source,
    read: SetRead,
    len: u64,
    whole: bool,
}

impl KeptSource {
    /// The set of this source, of which nothing is read yet.
    pub(crate) fn new(alloc: Global, source: Source) -> KeptSource {
        KeptSource {
            source,
            read: SetRead {
                text: Vec::new(alloc),
                is_long: false,
            },
            len: 0,
            whole: true,
        }
    }

    /// What was read of it.
    pub(crate) fn into_read(self) -> SetRead {
        let KeptSource { read, .. } = self;
        read
    }
}

impl Read for KeptSource {
    fn read(&mut self, bytes: &mut [u8]) -> io::Result<usize> {
        let count = self.source.read(bytes)?;
        self.len = self.len.saturating_add(count as u64);
        if self.len > LONGEST_SET {
            self.read.is_long = true;
            return Err(Error::new(ErrorKind::FileTooLarge, "the set is too long"));
        }
        if self.whole && self.read.text.extend_from_slice(&bytes[..count]).is_err() {
            self.read.text.clear();
            self.whole = false;
        }
        Ok(count)
    }
}
