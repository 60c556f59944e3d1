//! What a run prints on.
//!
//! Why it is so:
//! - **A run prints on a `Printer`, which is told the engine with each text.** What a clause says of a result can't speak of the moments
//!   before it, and a line that left too early can't be called back. So what is printed on asks for what has to be true then, and the run
//!   proves it at each line, for every printer; a plain writer is one that asks for nothing, so callers owe nothing new. What a run's
//!   caller owes (`MayRun`) speaks of the course alone, not of how the run gets there.

ghost use Rattle.std.specs.Prelude.{OnOk, OnErr, ⊤};
ghost use Rattle.std.specs.Io.KnownBytes.{Appends};
ghost use Rattle.pfx_program.specs.Output.{AppendsFront};

use crate::output::{Failed, put};
use std::io::Write;

/// What a run prints on. A text is handed over together with the engine whose answer it is, so that what prints may say what has to be
/// true by then: that what the text tells is kept. Every writer is one, and asks for nothing.
pub trait Printer<E> {
    ghost use Rattle.std.specs.Prelude.{ℕ, List, Option};

    /// What was written, as far as it is known.
    ghost contents: { Self → Option (List ℕ) };

    /// When a text may be printed: by this engine, behind what was written.
    ghost allows: { E → Option (List ℕ) → List ℕ → Type 0 };

    /// Writes a text, or a beginning of it if it fails.
    fn print(&mut self, engine: &E, text: &[u8]) -> Result<(), Failed>
        requires allowed { allows engine.now (contents self.old) text.now }
        ensures ok { OnOk result (Appends (contents self.old) (contents self.new) text.now) }
        ensures err { OnErr result (AppendsFront (contents self.old) (contents self.new) text.now) };
}

impl<E, W: Write> Printer<E> for W {
    ghost contents = { λ output. W.contents output };

    ghost allows = { λ engine was text. ⊤ };

    fn print(&mut self, _engine: &E, text: &[u8]) -> Result<(), Failed> {
        put(self, text)
    }
}
