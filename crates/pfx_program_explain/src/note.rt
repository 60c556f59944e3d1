//! Notes.

ghost use Rattle.std.specs.Prelude.{◌≡◌, ◌++◌, IfOk, OnOk, map, option_map, string_bytes};
ghost use Rattle.pfx_program_explain.specs.Notes.{shown_byte, note_line, further_line, note_text};

use std::alloc::{AllocError, Global};

/// What is said below the line of a fault or of a warning: at most three lines.
#[derive(Debug, Drop)]
pub struct NoteLines {
    /// Where the mistake stands, and what is wrong there.
    pub what: String,
    /// What to change.
    pub change: Option<String>,
    /// What is good to know beside.
    pub more: Option<String>,
}

fn shown_byte(byte: u8) -> u8
    ensures { result ≡ shown_byte byte }
{
    if byte < 32 || byte == 127 { b'?' } else { byte }
}

fn shown(alloc: Global, text: &str) -> Result<Vec<u8>, AllocError>
    ensures { IfOk result (λ v. v.items ≡ map shown_byte text.now) }
{
    text.as_bytes()
        .iter()
        .map(|byte| shown_byte(*byte))
        .collect(alloc)
}

fn put_line(alloc: Global, lines: &mut Vec<u8>, text: &str) -> Result<(), AllocError>
    ensures { OnOk result (lines.new.items ≡ lines.old.items ++ note_line text.now) }
{
    let line = shown(alloc, text)?;
    lines.extend_from_slice(b"  ")?;
    lines.extend_from_slice(line.as_slice())?;
    lines.extend_from_slice(b"\n")
}

fn put_further(alloc: Global, lines: &mut Vec<u8>, text: &Option<String>) -> Result<(), AllocError>
    ensures { OnOk result (lines.new.items ≡ lines.old.items ++ further_line (option_map (λ s. string_bytes s) text.now)) }
{
    match text {
        Some(text) => put_line(alloc, lines, text.as_str()),
        None => Ok(()),
    }
}

impl NoteLines {
    /// The note's lines, each with two spaces in front and a line feed after. Within a line there is none: bytes that aren't seen are
    /// shown as question marks. Fails only if memory runs out.
    pub fn text(&self, alloc: Global) -> Result<Vec<u8>, AllocError>
        ensures { IfOk result (λ v. v.items ≡ note_text (string_bytes self.now.what) (option_map (λ s. string_bytes s) self.now.change)
            (option_map (λ s. string_bytes s) self.now.more)) }
    {
        let mut lines = Vec::new(alloc);
        put_line(alloc, &mut lines, self.what.as_str())?;
        put_further(alloc, &mut lines, &self.change)?;
        put_further(alloc, &mut lines, &self.more)?;
        Ok(lines)
    }
}
