//! Where things stand in the text of a set file. It is read line by line, as files are written: what stands in the brackets of an
//! array or a table of one line, or below a text of several lines, isn't found.

/// A place in a text: the line and the column, each from 1. A column counts characters.
#[derive(Clone, Copy, PartialEq, Eq)]
pub(crate) struct Place {
    pub(crate) line: usize,
    pub(crate) column: usize,
}

/// Which table a line is in.
#[derive(Clone, Copy, PartialEq, Eq)]
pub(crate) enum Within {
    /// In none.
    Top,
    /// In the task of this number.
    Task(usize),
    /// In another one.
    Other,
}

// How many characters begin in the bytes.
fn characters(bytes: &[u8]) -> usize {
    let mut count: usize = 0;
    for byte in bytes {
        if *byte & 0xC0 != 0x80 {
            count = count.saturating_add(1);
        }
    }
    count
}

fn column_at(line: &str, offset: usize) -> usize {
    let bytes = line.as_bytes();
    characters(&bytes[..offset.min(bytes.len())]).saturating_add(1)
}

/// The place after so many bytes of a text.
pub(crate) fn place_at(text: &[u8], offset: usize) -> Place {
    let front = &text[..offset.min(text.len())];
    let mut line: usize = 1;
    let mut start: usize = 0;
    for (i, byte) in front.iter().enumerate() {
        if *byte == b'\n' {
            line = line.saturating_add(1);
            start = i + 1;
        }
    }
    Place {
        line,
        column: characters(&front[start.min(front.len())..]).saturating_add(1),
    }
}

/// The place of the first line after so many bytes of a text that isn't empty.
pub(crate) fn line_behind(text: &[u8], offset: usize) -> Place {
    let mut at = offset.min(text.len());
    for byte in &text[at..] {
        if *byte != b'\n' && *byte != b'\r' {
            break;
        }
        at = at.saturating_add(1);
    }
    place_at(text, at)
}

/// A text without a byte order mark in front.
pub(crate) fn without_mark(text: &[u8]) -> &[u8] {
    match text {
        [0xEF, 0xBB, 0xBF, rest @ ..] => rest,
        _ => text,
    }
}

fn unquoted(key: &str) -> &str {
    let key = key.trim();
    match key.strip_prefix('"') {
        Some(rest) => rest.strip_suffix('"').unwrap_or(key),
        None => key,
    }
}

// The name in the brackets of a table's line, and whether there are two of them.
fn header(line: &str) -> Option<(&str, bool)> {
    let line = line.trim();
    if let Some(rest) = line.strip_prefix("[[") {
        let (name, _) = rest.split_once(']')?;
        return Some((unquoted(name), true));
    }
    let rest = line.strip_prefix('[')?;
    let (name, _) = rest.split_once(']')?;
    Some((unquoted(name), false))
}

// The table of the lines after this one, and how many tasks there were.
fn after(line: &str, within: Within, tasks: usize) -> (Within, usize) {
    match header(line) {
        Some(("task", true)) => (Within::Task(tasks), tasks.saturating_add(1)),
        Some(_) => (Within::Other, tasks),
        None => (within, tasks),
    }
}

// Whether the text has texts of several lines.
fn is_plain(text: &str) -> bool {
    !text.contains("\"\"\"") && !text.contains("'''")
}

/// The places of a key and of its value, where they stand in this table.
pub(crate) fn places_of(text: &str, wanted: Within, key: &str) -> Option<(Place, Place)> {
    if !is_plain(text) {
        return None;
    }
    let mut within = Within::Top;
    let mut tasks: usize = 0;
    let mut number: usize = 0;
    for line in text.lines() {
        number = number.saturating_add(1);
        (within, tasks) = after(line, within, tasks);
        if within == wanted
            && let Some((front, value)) = line.split_once('=')
            && unquoted(front) == key
        {
            let spaces = line.len().saturating_sub(line.trim_start().len());
            let rest = line.len().saturating_sub(value.trim_start().len());
            let key_place = Place {
                line: number,
                column: column_at(line, spaces),
            };
            let value_place = Place {
                line: number,
                column: column_at(line, rest),
            };
            return Some((key_place, value_place));
        }
    }
    None
}

/// The place of the line that begins a table, by its name; of the one with this number from 0.
pub(crate) fn header_place(text: &str, name: &str, number: usize) -> Option<Place> {
    if !is_plain(text) {
        return None;
    }
    let mut found: usize = 0;
    let mut at: usize = 0;
    for line in text.lines() {
        at = at.saturating_add(1);
        if let Some((here, _)) = header(line)
            && here == name
        {
            if found == number {
                let spaces = line.len().saturating_sub(line.trim_start().len());
                return Some(Place {
                    line: at,
                    column: column_at(line, spaces),
                });
            }
            found = found.saturating_add(1);
        }
    }
    None
}

/// A name that is shown for a path: `-` is standard input.
pub(crate) fn shown_path(path: &str) -> &str {
    if path == "-" { "standard input" } else { path }
}
