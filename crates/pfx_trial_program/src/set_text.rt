//! Set files as users write them, and texts that aren't one.

use pfx_fault::Fault;
use pfx_program_set::{SetText, is_name, read_set};
use std::alloc::Global;

const THREE: &str = "\u{feff}# Three tasks.
workers = 2
note = \"passed over\"

[[task]]
name = \"index\"
e = 2
p = 3

[[task]]
p = 4294967295
e = -1
name = \"A_b-9\"
color = \"red\"

[[task]]
name = \"0123456789abcdefghijABCDEFGHIJ_-\"
e = 4294967296
p = 9223372036854775807
";

/// Whether the tasks have these names.
fn has_names(set: &SetText, names: [&str; 3]) -> bool {
    for (task, name) in set.tasks.iter().zip(names) {
        if task.name.as_str() != name {
            return false;
        }
    }
    set.tasks.len() == 3
}

/// Whether the set's weights are these.
fn has_weights(alloc: Global, set: &SetText, expected: &[(u32, u32)]) -> bool {
    match set.weights(alloc) {
        Ok(weights) => weights.as_slice() == expected,
        Err(_) => false,
    }
}

/// Whether the set of three tasks is read as it stands.
fn reads_three(alloc: Global) -> bool {
    let Ok(set) = read_set(alloc, THREE.as_bytes()) else {
        return false;
    };
    set.workers == 2
        && set.segment == 1_048_576
        && has_names(&set, ["index", "A_b-9", "0123456789abcdefghijABCDEFGHIJ_-"])
        && has_weights(alloc, &set, &[(2, 3), (0, 4_294_967_295), (0, 0)])
}

#[test]
fn reads_the_set_as_it_stands(rt: HostRuntime) {
    assert!(rt; reads_three(rt.alloc()));
}

/// Whether a set is read with so many workers, this segment size and so many tasks.
fn reads(alloc: Global, text: &str, workers: u32, segment: u32, tasks: usize) -> bool {
    match read_set(alloc, text.as_bytes()) {
        Ok(set) => set.workers == workers && set.segment == segment && set.tasks.len() == tasks,
        Err(_) => false,
    }
}

/// Texts, with the workers, the segment size and the number of tasks that are read.
static FILLED: [(&str, u32, u32, usize); 4] = [
    ("workers = 70", 70, 1_048_576, 0),
    ("workers = 0\ntask = []\nsegment = 65536\n", 0, 65_536, 0),
    ("workers = -3\nsegment = -1\n", 0, 0, 0),
    (
        "task = [{name = \"a\", e = 1, p = 2}]\r\nworkers = 1\r\n",
        1,
        1_048_576,
        1,
    ),
];

#[test]
fn fills_in_what_is_missing(rt: HostRuntime) {
    for (text, workers, segment, tasks) in FILLED.iter() {
        assert!(rt;
            reads(rt.alloc(), text, *workers, *segment, *tasks),
            "{text}"
        );
    }
}

static NO_SETS: [&str; 21] = [
    "",
    "workers",
    "workers = ",
    "workers = \"2\"",
    "workers = 2.0",
    "workers = true",
    "workers = 1\nworkers = 1",
    "workers = 9223372036854775808",
    "workers = 1\nsegment = \"65536\"",
    "workers = 1\ntask = 3",
    "workers = 1\ntask = [3]",
    "workers = 1\n[task]\nname = \"a\"\ne = 1\np = 2",
    "workers = 1\n[[task]]\ne = 1\np = 2",
    "workers = 1\n[[task]]\nname = \"a\"\np = 2",
    "workers = 1\n[[task]]\nname = \"a\"\ne = 1",
    "workers = 1\n[[task]]\nname = \"a\"\ne = 1.5\np = 2",
    "workers = 1\n[[task]]\nname = \"\"\ne = 1\np = 2",
    "workers = 1\n[[task]]\nname = \"a b\"\ne = 1\np = 2",
    "workers = 1\n[[task]]\nname = \"\u{e4}\"\ne = 1\np = 2",
    "workers = 1\n[[task]]\nname = \"0123456789abcdefghijABCDEFGHIJ_-x\"\ne = 1\np = 2",
    "workers = 1\ntask = [{name = \"a\", e = 1, p = 2}, {name = \"b\", e = 1, p = 2}, {name = \"a\", e = 1, p = 3}]",
];

/// Whether the bytes are refused as no set.
fn is_refused(alloc: Global, bytes: &[u8]) -> bool {
    match read_set(alloc, bytes) {
        Ok(_) => false,
        Err(fault) => fault == Fault::BadSet,
    }
}

#[test]
fn refuses_what_is_no_set(rt: HostRuntime) {
    for text in NO_SETS.iter() {
        assert!(rt; is_refused(rt.alloc(), text.as_bytes()), "{text}");
    }
    assert!(rt; is_refused(rt.alloc(), b"workers = 1 # caf\xe9"), "no text");
}

/// Texts, and whether they are names.
static NAMES: [(&str, bool); 7] = [
    ("x", true),
    ("Index_2-b", true),
    ("abcdefghijklmnopqrstuvwxyz012345", true),
    ("abcdefghijklmnopqrstuvwxyz0123456", false),
    ("", false),
    ("two words", false),
    ("a:b", false),
];

#[test]
fn tells_names_from_other_texts(rt: HostRuntime) {
    for (name, right) in NAMES.iter() {
        assert!(rt; is_name(name) == *right, "{name}");
    }
}
