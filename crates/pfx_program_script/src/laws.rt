//! Laws of the definitions: what they say of scripts as people write them.

ghost use Rattle.std.specs.Prelude.{◌≡◌, ◌++◌, Bool, List};
ghost use Rattle.pfx_program_script.specs.Quoting.{Field, AreShort, IsShort, IsUnmarked, mark, script_text};
ghost use Rattle.pfx_program_script.specs.Whole.{whole_of};

/// A script of lines whose quotes close, each in front of a comma or of the line's end, and of which none is too long, is whole as it is:
/// nothing of it is taken away, and nothing is put to it. A byte order mark in front changes nothing.
pub fn short_lines_are_whole()
    ensures plain { (cr : Bool) (records : List (List Field)) (last : List Field) → AreShort records → IsShort last
        → IsUnmarked (script_text cr records last) → whole_of (script_text cr records last) ≡ script_text cr records last }
    ensures marked { (cr : Bool) (records : List (List Field)) (last : List Field) → AreShort records → IsShort last
        → whole_of (mark ++ script_text cr records last) ≡ mark ++ script_text cr records last }
{}
