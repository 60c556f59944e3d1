//! A line on standard error that tells how far the output has come.

ghost use Rattle.std.specs.Prelude.{◌≡◌};

use std::alloc::{AllocError, Global};
use std::io;
use std::io::{IsTerminal, Write};
use std::time::{Duration, Instant};

/// How many bytes the line takes, with the blanks behind it.
const WIDTH: usize = 60;

/// What is written over it in the end.
const BLANKS: &[u8] = b"\r                                                           \r";

/// What is known of the output so far.
#[derive(Clone, Copy)]
struct Course {
    lines: u64,
    begun: Instant,
    told: Instant,
}

/// A writer whose lines are counted. If standard error is a terminal and standard output isn't, their number is told there
/// once a second, in place: nobody would see that anything goes on.
#[derive(Drop)]
pub(crate) struct Told<'a, W> {
    rt: &'a HostRuntime,
    alloc: Global,
    output: W,
    what: &'a str,
    of: Option<u32>,
    course: Option<Course>,
}

// The course of an output at its begin, if somebody is to be told of it.
fn begun(rt: &HostRuntime) -> Option<Course> {
    if !rt.stderr().is_terminal() || rt.stdout().is_terminal() {
        return None;
    }
    match Instant::now(rt) {
        Ok(begun) => Some(Course {
            lines: 0,
            begun,
            told: begun,
        }),
        Err(_) => None,
    }
}

// A number with a comma before each third digit from behind.
fn put_grouped(alloc: Global, text: &mut String, number: u64) -> Result<(), AllocError> {
    let digits = number.to_string(alloc)?;
    for (i, digit) in digits.as_bytes().iter().enumerate() {
        if i > 0 && (digits.len() - i) % 3 == 0 {
            text.push(',')?;
        }
        text.push(char::from(*digit))?;
    }
    Ok(())
}

// The line, as `slots 41,000 of 1,048,576, 640/s`.
fn line_of(
    alloc: Global,
    what: &str,
    lines: u64,
    of: Option<u32>,
    time: Duration,
) -> Result<String, AllocError> {
    let mut text = String::from_str(alloc, "\r")?;
    text.push_str(what)?;
    text.push(' ')?;
    put_grouped(alloc, &mut text, lines)?;
    if let Some(all) = of {
        text.push_str(" of ")?;
        put_grouped(alloc, &mut text, u64::from(all))?;
    }
    text.push_str(", ")?;
    put_grouped(alloc, &mut text, lines / time.as_secs().max(1))?;
    text.push_str("/s")?;
    for _ in text.len()..WIDTH {
        text.push(' ')?;
    }
    Ok(text)
}

impl<'a, W> Told<'a, W> {
    /// A writer whose lines are slots, or whatever is said, of as many if that is known.
    pub(crate) fn new(
        rt: &'a HostRuntime,
        alloc: Global,
        output: W,
        what: &'a str,
        of: Option<u32>,
    ) -> Told<'a, W> {
        Told {
            rt,
            alloc,
            output,
            what,
            of,
            course: begun(rt),
        }
    }

    /// Counts lines, and tells of them if a second has gone by.
    pub(crate) fn count(&mut self, lines: u64)
        ensures { self.new.output ≡ self.old.output }
    {
        let Some(mut course) = self.course else {
            return;
        };
        course.lines = course.lines.saturating_add(lines);
        if let Ok(now) = Instant::now(self.rt) {
            if now.duration_since(course.told).as_secs() >= 1 {
                course.told = now;
                let time = now.duration_since(course.begun);
                if let Ok(text) = line_of(self.alloc, self.what, course.lines, self.of, time) {
                    let _ = self.rt.stderr().write(text.as_bytes());
                }
            }
        }
        self.course = Some(course);
    }

    /// Takes the line away.
    pub(crate) fn clear(&mut self) {
        let Some(course) = self.course else {
            return;
        };
        if course.told > course.begun {
            let _ = self.rt.stderr().write(BLANKS);
        }
    }
}

impl<W: Write> Write for Told<'_, W> {
    ghost contents = { λ told. W.contents told.output };

    fn write(&mut self, bytes: &[u8]) -> io::Result<usize> {
        let written = self.output.write(bytes)?;
        if self.course.is_some() {
            let lines = bytes.iter().take(written).filter(|b| **b == b'\n').count();
            self.count(lines as u64);
        }
        Ok(written)
    }

    fn flush(&mut self) -> io::Result<()> {
        self.output.flush()
    }
}
