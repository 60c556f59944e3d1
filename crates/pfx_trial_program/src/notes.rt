//! Notes as a user reads them: each fault has its entry, and what stands below a fault's line.

use pfx_fault::Fault;
use pfx_program_explain::{NoteLines, entry_named, put_entry};
use pfx_program_notes::{
    FirstRefusal, NamedFile, Stands, Trouble, input_note, output_note, passed_over_note,
    record_note, refused_note, script_note, set_note, store_note, trouble_note,
};
use std::alloc::{AllocError, Global};

/// The numbers of the faults, as USAGE has them.
static NUMBERS: [u8; 37] = [
    10, 11, 12, 13, 14, 16, 17, 19, 20, 21, 22, 23, 24, 25, 26, 31, 32, 33, 34, 41, 42, 43, 51, 52,
    53, 54, 55, 56, 57, 58, 61, 64, 68, 71, 72, 73, 90,
];

/// Whether the fault of this number has an entry, under its number and under its name.
fn is_explained(alloc: Global, number: u8) -> bool {
    let Ok(word) = number.to_string(alloc) else {
        return false;
    };
    let Some(entry) = entry_named(word.as_str()) else {
        return false;
    };
    match entry_named(entry.fault.name()) {
        Some(same) => entry.fault.number() == number && same.fault == entry.fault,
        None => false,
    }
}

#[test]
fn explains_each_fault(rt: HostRuntime) {
    for number in NUMBERS.iter() {
        assert!(rt; is_explained(rt.alloc(), *number), "{number}");
    }
    for word in ["", "9", "014", "badweight", "15", "BadWeight task=2"] {
        assert!(rt; entry_named(word).is_none(), "{word}");
    }
}

/// Whether the entry begins so.
fn begins(alloc: Global, word: &str, front: &[u8]) -> bool {
    let mut text = Vec::new(alloc);
    match entry_named(word) {
        Some(entry) => put_entry(&mut text, entry).is_ok() && text.as_slice().starts_with(front),
        None => false,
    }
}

#[test]
fn prints_an_entry(rt: HostRuntime) {
    assert!(rt;
        begins(
            rt.alloc(),
            "BadWeight",
            b"14 BadWeight, status 3\n\nThe weight e/p of this task"
        )
    );
}

/// Whether these are the note's lines.
fn says(alloc: Global, note: Result<Option<NoteLines>, AllocError>, lines: &str) -> bool {
    match note {
        Ok(Some(note)) => match note.text(alloc) {
            Ok(text) => text.as_slice() == lines.as_bytes(),
            Err(_) => false,
        },
        _ => false,
    }
}

/// Whether these are the note's lines.
fn tells(alloc: Global, note: Result<NoteLines, AllocError>, lines: &str) -> bool {
    match note {
        Ok(note) => says(alloc, Ok(Some(note)), lines),
        Err(_) => false,
    }
}

#[test]
fn says_what_is_wrong_with_a_set(rt: HostRuntime) {
    let text = b"workers = 2\n\n[[task]]\nname = \"big\"\ne =  3\np = 3\n";
    let note = set_note(
        rt.alloc(),
        "a.toml",
        text,
        None,
        Fault::BadWeight { task: 0 },
    );
    let lines = "  a.toml:5:6: task 0 \"big\" has e = 3, p = 3
  A weight e/p is below 1: make e smaller than p, or take the task and one worker out of the set.\n";
    assert!(rt; says(rt.alloc(), note, lines));
    let note = set_note(rt.alloc(), "-", b"workers = 0\n", None, Fault::BadWorkers);
    let lines = "  standard input:1:11: `workers` is 0
  Workers are the tasks that run at once: write a number from 1 to 64.\n";
    assert!(rt; says(rt.alloc(), note, lines));
}

#[test]
fn says_what_is_wrong_with_a_script(rt: HostRuntime) {
    let text = b"slot,,,1,\n\nslot 3\nsubmit,9,count,3,\nslot,,,2,\n";
    let note = script_note(rt.alloc(), "a.csv", text, 2);
    let lines = "  a.csv:3:1: record 2 has 1 field, `slot 3`, and a record has five
  Write it as slot,,,COUNT, and leave fields that aren't used empty, with their commas.\n";
    assert!(rt; says(rt.alloc(), note, lines));
    let note = record_note(rt.alloc(), "-", 3);
    let lines = "  standard input: record 3 has no form of a record
  A record has five fields, VERB,TASK,KIND,GOAL,DATA, as submit,0,count,5, or slot,,,3, with unused ones empty.\n";
    assert!(rt; says(rt.alloc(), note, lines));
    let first = FirstRefusal {
        at: 2,
        fault: Fault::NoJob { task: 0 },
        refused: 3,
    };
    let note = refused_note(rt.alloc(), "a.csv", b"slot,,,2,\nwithdraw,0,,,\n", first);
    let lines = "  a.csv:2:1: record 2 was refused: 33 NoJob task=0
  Take away or show only what is there: pfx status says job=open or job=done of a task that has one.
  2 more records were refused.\n";
    assert!(rt; tells(rt.alloc(), note, lines));
}

/// Whether this is said of a script's record.
fn says_of(alloc: Global, text: &[u8], place: u64, lines: &str) -> bool {
    says(alloc, script_note(alloc, "a.csv", text, place), lines)
}

#[test]
fn says_how_jobs_are_shown(rt: HostRuntime) {
    let lines = "  a.csv:1:1: record 1 has 1 field, `show 2`, and a record has five
  Write it as show,TASK,,, and leave fields that aren't used empty, with their commas.\n";
    assert!(rt; says_of(rt.alloc(), b"show 2\n", 1, lines));
    let lines = "  a.csv:1:1: record 1 has the task `a`, and a task is a number, 0 to 65535
  A task is its number, 0 for the set's first one: pfx status has it in front of each line.\n";
    assert!(rt; says_of(rt.alloc(), b"show,a,,,\n", 1, lines));
    let lines = "  a.csv:2:1: record 2 has a field that its verb doesn't use
  Write it as show,TASK,,, with the fields between the commas empty.\n";
    assert!(rt; says_of(rt.alloc(), b"show,,,,\nshow,0,,1,\n", 2, lines));
}

#[test]
fn says_how_new_weights_are_given(rt: HostRuntime) {
    let lines = "  a.csv:1:1: record 1 has 1 field, `reweigh 2`, and a record has five
  Write it as reweigh,,,WORKERS,E/P E/P .. and leave fields that aren't used empty, with their commas.\n";
    assert!(rt; says_of(rt.alloc(), b"reweigh 2\n", 1, lines));
    let lines = "  a.csv:1:1: record 1 has a field that its verb doesn't use
  Write it as reweigh,,,WORKERS,E/P E/P .. with the fields between the commas empty.\n";
    assert!(rt; says_of(rt.alloc(), b"reweigh,0,,2,1/3\n", 1, lines));
    let lines =
        "  a.csv:1:1: record 1 has the workers ``, and workers are a number of 1 to 10 digits
  Workers are the tasks that run at once: write a number from 1 to 64.\n";
    assert!(rt; says_of(rt.alloc(), b"reweigh,,,,1/3\n", 1, lines));
    let lines =
        "  a.csv:2:1: record 2 has the weights `1/3;1/3`, and a weight is E/P, two numbers of 1 to 10 digits
  Write one for each task in the order of the set, with single spaces between them, as 1/3 2/3.\n";
    let text = b"reweigh,,,2,1/3\nreweigh,,,2,1/3;1/3\n";
    assert!(rt; says_of(rt.alloc(), text, 2, lines));
}

#[test]
fn says_what_to_do_about_refused_weights(rt: HostRuntime) {
    let text = b"slot,,,,\nreweigh,,,2,1/3\n";
    let first = FirstRefusal {
        at: 2,
        fault: Fault::NotLevel { task: 0 },
        refused: 1,
    };
    let note = refused_note(rt.alloc(), "a.csv", text, first);
    let lines = "  a.csv:2:1: record 2 was refused: 35 NotLevel task=0
  Run slots until every lag is 0: pfx status has them, and at each multiple of the hyperperiod behind the last new weights all are.\n";
    assert!(rt; tells(rt.alloc(), note, lines));
}

/// A record that is refused because a task has no job.
fn jobless(at: u64) -> FirstRefusal {
    FirstRefusal {
        at,
        fault: Fault::NoJob { task: 2 },
        refused: 1,
    }
}

/// Whether the record at this place of a script, and in this line, is said to be refused.
fn tells_refused(alloc: Global, text: &[u8], place: u64) -> bool {
    let note = refused_note(alloc, "a.csv", text, jobless(place));
    let lines = format!(in alloc;
        "  a.csv:{place}:1: record {place} was refused: 33 NoJob task=2
  Take away or show only what is there: pfx status says job=open or job=done of a task that has one.\n"
    );
    match lines {
        Ok(lines) => tells(alloc, note, lines.as_str()),
        Err(_) => false,
    }
}

#[test]
fn finds_a_refused_record_behind_jobs_that_were_shown(rt: HostRuntime) {
    let first = b"show,,,,\nshow,2,,,\n";
    assert!(rt; tells_refused(rt.alloc(), first, 2), "none or some");
    let given = b"submit,0,count,9,\nshow,,,,\nslot,,,2,\nshow,2,,,\nslot,,,,\n";
    assert!(rt; tells_refused(rt.alloc(), given, 4), "a job was given");
    let unsure = b"show,,,,\nstatus,,,,\nwithdraw,1,,,\nwithdraw,2,,,\n";
    assert!(rt; tells_refused(rt.alloc(), unsure, 3), "the first");
    assert!(rt; tells_refused(rt.alloc(), unsure, 4), "the second");
    let either = b"show,,,,\nshow,1,,,\nshow,2,,,\n";
    assert!(rt; tells_refused(rt.alloc(), either, 2), "one of two");
    assert!(rt; tells_refused(rt.alloc(), either, 3), "the other");
}

#[test]
fn tells_the_place_of_a_record_whose_text_is_not_at_hand(rt: HostRuntime) {
    let note = refused_note(rt.alloc(), "-", b"", jobless(7));
    let lines = "  standard input: record 7 was refused: 33 NoJob task=2
  Take away or show only what is there: pfx status says job=open or job=done of a task that has one.\n";
    assert!(rt; tells(rt.alloc(), note, lines));
}

#[test]
fn says_what_to_do_with_another_version(rt: HostRuntime) {
    let rows = [
        (
            1,
            "  store a.pfx: it is of version 1, and this program reads version 2
  pfx migrate OLD NEW makes a store of this version from it.\n",
        ),
        (
            5,
            "  store a.pfx: it is of version 5, and this program reads version 2
  Use the program that made it. Nothing is changed in it.\n",
        ),
    ];
    for (version, lines) in rows {
        let note = store_note(rt.alloc(), "a.pfx", None, Fault::WrongVersion { version });
        assert!(rt; says(rt.alloc(), note, lines), "{version}");
    }
    let note = trouble_note(rt.alloc(), "a.pfx", Trouble::Current);
    let lines = "  store a.pfx: it is of version 2, as this program's stores are
  Use it as it is: only a store of version 1 has to be migrated.\n";
    assert!(rt; says(rt.alloc(), note, lines));
}

#[test]
fn says_what_is_wrong_with_a_file(rt: HostRuntime) {
    let note = store_note(rt.alloc(), "a\nb", None, Fault::NotEmpty);
    let lines = "  store a?b: the file isn't empty
  Name another file; or delete this one, if nothing in it is wanted.\n";
    assert!(rt; says(rt.alloc(), note, lines));
    let note = input_note(rt.alloc(), NamedFile::Script, "a.csv", "no such file", true);
    let lines = "  script a.csv: no such file
  Name a file that can be read, or - for standard input.\n";
    assert!(rt; says(rt.alloc(), note, lines));
    let note = output_note(rt.alloc(), "no space is left", Stands::Run);
    let lines = "  standard output: no space is left
  What was carried out stands: pfx status says how far a store has come.\n";
    assert!(rt; says(rt.alloc(), note, lines));
}

#[test]
fn warns_of_keys(rt: HostRuntime) {
    let text = b"workers = 2\nseed = 4\n[[task]]\nname = \"a\"\nweigth = 3\n";
    let note = passed_over_note(rt.alloc(), "a.toml", text);
    let lines = "  a.toml:2:1: `seed` is no key of a set, and is passed over
  A set has the keys workers and segment and tables [[task]]; a task has name, e and p.
  One more key is passed over.\n";
    assert!(rt; says(rt.alloc(), note, lines));
    assert!(rt;
        matches!(
            passed_over_note(rt.alloc(), "a.toml", b"workers = 2\n"),
            Ok(None)
        )
    );
}
