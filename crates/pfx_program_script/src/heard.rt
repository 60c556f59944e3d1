//! A reader, whether it has failed, and how many records it has given to their ends.

ghost use Rattle.std.specs.Prelude.{◌≡◌, false};

use crate::ends::{Gone, at_front, gone_by};
use std::io;
use std::io::Read;

/// A reader of which is known whether its last answer was an error, and how far the bytes that it gave have gone.
#[derive(Drop)]
pub(crate) struct Heard<R: Read + Drop> {
    input: R,
    failed: bool,
    gone: Gone,
}

impl<R: Read + Drop> Heard<R> {
    /// A reader that wasn't asked yet.
    pub(crate) fn new(input: R) -> Heard<R>
        ensures input { result.input ≡ input }
        ensures well { result.failed ≡ false }
        ensures none { result.gone.ends ≡ 0 }
    {
        Heard {
            input,
            failed: false,
            gone: at_front(),
        }
    }

    /// Whether the last answer was an error.
    pub(crate) fn has_failed(&self) -> bool
        ensures { result ≡ self.now.failed }
    {
        self.failed
    }

    /// How many records were given to their ends.
    pub(crate) fn ends(&self) -> u64
        ensures { result ≡ self.now.gone.ends }
    {
        self.gone.ends
    }
}

impl<R: Read + Drop> Read for Heard<R> {
    ghost use Rattle.std.specs.Prelude.{◌≡◌, true, false, take, IfOk, OnOk, OnErr};
    ghost use Rattle.std.specs.List.{fold};
    ghost use Rattle.std.specs.Io.{ReadsAtMost};
    ghost use Rattle.std.specs.Io.KnownBytes.{ReadConsumes};
    ghost use Rattle.pfx_program_script.specs.Ends.{further};
    ghost use Rattle.pfx_program_script.specs.Heard.{heard_left};

    ghost remaining = { heard_left R.remaining };

    fn read(&mut self, bytes: &mut [u8]) -> io::Result<usize>
        ensures bound { ReadsAtMost result bytes.new }
        ensures bytes { ReadConsumes (heard_left R.remaining self.old) (heard_left R.remaining self.new) result bytes.new }
        ensures answers { OnOk result (self.new.failed ≡ false) }
        ensures fails { OnErr result (self.new.failed ≡ true) }
        ensures ends { IfOk result (λ count. self.new.gone ≡ fold further self.old.gone (take count bytes.new)) }
    {
        let answer = self.input.read(bytes);
        self.failed = answer.is_err();
        if let Ok(count) = &answer {
            self.gone = gone_by(self.gone, &bytes[..*count]);
        }
        answer
    }
}
