//! Worked jobs of the four kinds, and their encodings.

ghost use Rattle.std.specs.Prelude.{◌≤◌};

use pfx_jobs::job::{Job, JobFault, are_same};
use pfx_jobs::quantum::{Done, Quantum};
use pfx_kinds::any::AnyJob;
use pfx_kinds::start::JobStartFault;

/// The bytes, followed by zeros.
fn with_zeros(front: &[u8]) -> [u8; 128] {
    let mut bytes = [0; 128];
    for (byte, from) in bytes.iter_mut().zip(front) {
        *byte = *from;
    }
    bytes
}

fn encoded(job: &AnyJob) -> [u8; 128] {
    let mut bytes = [0; 128];
    job.encode(&mut bytes);
    bytes
}

/// Whether the job is written as these bytes, followed by zeros.
fn is_written(job: &AnyJob, front: &[u8]) -> bool {
    encoded(job) == with_zeros(front)
}

fn run(job: &mut AnyJob, steps: u32) {
    for _ in 0..steps {
        if !job.is_done() {
            job.step();
        }
    }
}

/// `ab:abcab` at its start.
fn scan_vector() -> [u8; 128] {
    let mut bytes = with_zeros(&[3, 4, 0, 0, 0, 5, 2, 0, 0x61, 0x62, 0x63, 0x61, 0x62]);
    bytes[72] = 0x61;
    bytes[73] = 0x62;
    bytes
}

/// `a::a:` at its start.
fn colons_vector() -> [u8; 128] {
    let mut bytes = with_zeros(&[3, 3, 0, 0, 0, 3, 1, 0, b':', b'a', b':']);
    bytes[72] = b'a';
    bytes
}

/// `s=500;ck=9f2c`, the answer of unit 258: between the answer and the last byte all are 0, the five that are kept for an epoch's start too.
fn own_vector() -> [u8; 128] {
    let mut bytes = with_zeros(b"\x04\0\0\0\0\x02\x01\0\0\0\0\0\0\x0ds=500;ck=9f2c");
    bytes[127] = 4;
    bytes
}

/// Whether a job that is started so is written as these bytes.
fn starts_as(kind: &str, goal: u64, text: &[u8], want: &[u8; 128]) -> bool {
    match AnyJob::start(kind, goal, text) {
        Ok(job) => encoded(&job) == *want,
        Err(_) => false,
    }
}

#[test]
fn starts_and_encodes(rt: HostRuntime) {
    let count = with_zeros(&[1, 5, 0, 0, 0, 0x0a, 0, 0, 0, 0, 0, 0, 0]);
    assert!(rt; starts_as("count", 5, b"10", &count), "count");
    assert!(rt; starts_as("scan", 0, b"ab:abcab", &scan_vector()), "scan");
    let empty = with_zeros(&[1, 1]);
    assert!(rt; starts_as("count", 1, b"", &empty), "empty");
    assert!(rt; starts_as("scan", 0, b"a::a:", &colons_vector()), "colons");
    assert!(rt;
        starts_as("own", 258, b"s=500;ck=9f2c", &own_vector()),
        "own"
    );
}

/// Whether rule 110 has so many steps left after so many, and these cells.
fn rule_after(steps: u32, left: u8, cells: u8) -> bool {
    let Ok(mut job) = AnyJob::start("rule", 3, b"110:00000001") else {
        return false;
    };
    run(&mut job, steps);
    is_written(&job, &[2, left, 0, 0, 0, 0x6e, 8, 0, cells]) && job.is_done() == (left == 0)
}

#[test]
fn steps_a_rule(rt: HostRuntime) {
    let rows = [
        (0, 3, 0b0000_0001),
        (1, 2, 0b0000_0011),
        (2, 1, 0b0000_0111),
        (3, 0, 0b0000_1101),
    ];
    for (steps, left, cells) in rows {
        assert!(rt; rule_after(steps, left, cells), "{left} left");
    }
}

/// Whether of the cells just cell `at` is set.
fn is_lone_cell(cells: &[u8], at: usize) -> bool {
    for (i, byte) in cells.iter().enumerate() {
        let want = if i == at / 8 { 0x80 >> (at % 8) } else { 0 };
        if *byte != want {
            return false;
        }
    }
    true
}

/// Whether the rule of this number takes a lone first cell to cell `at`, on a ring of this width.
fn moves(width: usize, number: [u8; 3], at: usize) -> bool {
    let mut text = [b'0'; 516];
    text[0] = number[0];
    text[1] = number[1];
    text[2] = number[2];
    text[3] = b':';
    text[4] = b'1';
    let Some(text) = text.get(..width.saturating_add(4)) else {
        return false;
    };
    let Ok(mut job) = AnyJob::start("rule", 1, text) else {
        return false;
    };
    run(&mut job, 1);
    let bytes = encoded(&job);
    is_lone_cell(&bytes[8..72], at)
}

/// Whether under rule 90 a lone cell becomes two after 64 steps, 64 to its left and to its right.
fn spreads() -> bool {
    let mut text = [b'0'; 515];
    text[0] = b'9';
    text[2] = b':';
    text[3 + 256] = b'1';
    let Ok(mut job) = AnyJob::start("rule", 64, &text) else {
        return false;
    };
    run(&mut job, 64);
    let mut want = with_zeros(&[2, 0, 0, 0, 0, 90, 0, 2]);
    want[8 + 24] = 0x80;
    want[8 + 40] = 0x80;
    encoded(&job) == want
}

/// Rule 240 takes the left neighbour, so that all cells move one to the right; rule 170 takes the right one. Rule 90
/// adds both modulo 2, so that after 2^k steps a lone cell has become two, 2^k to its left and to its right.
#[test]
fn steps_across_words(rt: HostRuntime) {
    for width in [3usize, 8, 63, 64, 65, 127, 128, 511, 512] {
        assert!(rt; moves(width, *b"240", 1), "240, width {width}");
        assert!(rt; moves(width, *b"170", width - 1), "170, width {width}");
    }
    assert!(rt; spreads());
}

/// Whether a scan of this data goes over so many places and finds so many.
fn finds(text: &[u8], places: u32, found: u8) -> bool {
    let Ok(mut job) = AnyJob::start("scan", 0, text) else {
        return false;
    };
    if job.left() != places {
        return false;
    }
    run(&mut job, places);
    let bytes = encoded(&job);
    job.is_done() && bytes[7] == found
}

#[test]
fn finds_all_places(rt: HostRuntime) {
    let table: [(&[u8], u32, u8); 5] = [
        (b"ab:abcab", 4, 2),
        (b"aa:aaaa", 3, 3),
        (b"b:aab", 3, 1),
        (b"abc:abc", 1, 1),
        (b"ba:aaaab", 4, 0),
    ];
    for (text, places, found) in table {
        assert!(rt; finds(text, places, found), "{found} of {places} places");
    }
}

/// Whether a job is started so, or refused for this fault.
fn is_answered(kind: &str, goal: u64, text: &[u8], want: Option<JobStartFault>) -> bool {
    match AnyJob::start(kind, goal, text) {
        Ok(_) => want.is_none(),
        Err(fault) => want == Some(fault),
    }
}

/// A kind's name, a goal and the data.
type Start = (&'static str, u64, &'static [u8]);

/// Starts that give a job.
static STARTED: [Start; 7] = [
    ("count", 4294967295, b"4294967295"),
    ("count", 1, b"0000000007"),
    ("rule", 4294967295, b"255:000"),
    ("rule", 1, b"000:010"),
    ("scan", 0, b" :~ ~"),
    ("own", 0, b""),
    ("own", 1099511627775, b"!#+-[]~"),
];

/// Starts of no kind, whatever goal and data they have.
static NO_KINDS: [Start; 4] = [
    ("sum", 0, b"x"),
    ("", 1, b""),
    ("Count", 1, b""),
    ("counts", 1, b""),
];

/// Starts with a goal that the kind hasn't, whatever data they have.
static BAD_GOALS: [Start; 6] = [
    ("count", 0, b"x"),
    ("count", 4294967296, b"4294967295"),
    ("rule", 0, b"x"),
    ("rule", 4294967296, b"255:000"),
    ("scan", 1, b"x"),
    ("own", 1099511627776, b"a,b"),
];

/// A kind's name, a goal that it has, and data that it hasn't.
static BAD_DATA: [(&str, u64, &[&[u8]]); 4] = [
    ("count", 1, &[b"4294967296", b"00000000007", b"+7", b"7 "]),
    (
        "rule",
        1,
        &[b"256:000", b"0000:010", b":010", b"1:01", b"1:012", b"1010"],
    ),
    (
        "scan",
        0,
        &[
            b"abc:ab",
            b":ab",
            b"ab",
            b"a:b\x1fa",
            b"a:b\x7fa",
            b"\x1f:ba",
        ],
    ),
    (
        "own",
        1,
        &[b"a b", b"a\"b", b"a,b", b"a\\b", b"a\x7f", b"\xe9", b"\x1f"],
    ),
];

#[test]
fn refuses_in_order(rt: HostRuntime) {
    for (starts, want) in [
        (STARTED.as_slice(), None),
        (NO_KINDS.as_slice(), Some(JobStartFault::BadKind)),
        (BAD_GOALS.as_slice(), Some(JobStartFault::BadGoal)),
    ] {
        for (at, (kind, goal, text)) in starts.iter().enumerate() {
            assert!(rt;
                is_answered(kind, *goal, text, want),
                "row {at}, {kind} {goal}"
            );
        }
    }
    for (kind, goal, texts) in BAD_DATA.as_slice() {
        for (at, text) in texts.iter().enumerate() {
            assert!(rt;
                is_answered(kind, *goal, text, Some(JobStartFault::BadData)),
                "{kind} {goal}, data {at}"
            );
        }
    }
}

/// Whether rule 1 is started on a ring of 512 cells, and refused on one of 513.
fn takes_512_cells() -> bool {
    let mut ring = [b'1'; 515];
    ring[1] = b':';
    is_answered("rule", 1, &ring[..514], None)
        && is_answered("rule", 1, &ring, Some(JobStartFault::BadData))
}

/// Whether a needle of 16 bytes is searched in a text of 64, and not in one of 65.
fn takes_64_bytes() -> bool {
    let mut search = [b'a'; 83];
    search[16] = b':';
    is_answered("scan", 0, &search[..81], None)
        && is_answered("scan", 0, &search[..82], Some(JobStartFault::BadData))
}

/// Whether a needle of 17 bytes is refused.
fn refuses_17_bytes() -> bool {
    let mut search = [b'a'; 83];
    search[17] = b':';
    is_answered("scan", 0, &search[..82], Some(JobStartFault::BadData))
}

/// Whether an answer of 106 bytes is taken, and not one of 107.
fn takes_106_bytes() -> bool {
    let answer = [b'a'; 107];
    is_answered("own", 0, &answer[..106], None)
        && is_answered("own", 0, &answer, Some(JobStartFault::BadData))
}

#[test]
fn takes_the_greatest_data(rt: HostRuntime) {
    assert!(rt; takes_106_bytes());
    assert!(rt; takes_512_cells());
    assert!(rt; takes_64_bytes());
    assert!(rt; refuses_17_bytes());
}

fn is_printable(byte: u8) -> bool {
    32 <= byte && byte <= 126
}

fn is_visible(byte: u8) -> bool {
    33 <= byte && byte <= 126 && byte != b'"' && byte != b',' && byte != b'\\'
}

/// The eight bytes behind the count of steps, as a number.
fn number_in(bytes: &[u8; 128]) -> u64 {
    u64::from_le_bytes([
        bytes[5], bytes[6], bytes[7], bytes[8], bytes[9], bytes[10], bytes[11], bytes[12],
    ])
}

/// Whether the format names the bytes the encoding of a count with so many steps left.
fn is_count(bytes: &[u8; 128], left: u32) -> bool {
    let value = number_in(bytes);
    value < 1 << 63
        && value + u64::from(left) < 1 << 63
        && bytes[13..].iter().all(|byte| *byte == 0)
}

/// Whether the format names the bytes the encoding of a ring of cells.
fn is_ring(bytes: &[u8; 128]) -> bool {
    let width = bytes[6] as usize + 256 * (bytes[7] as usize);
    if width < 3 || width > 512 {
        return false;
    }
    for i in width..512 {
        if bytes[8 + i / 8] & (1 << (7 - i % 8)) != 0 {
            return false;
        }
    }
    bytes[72..].iter().all(|byte| *byte == 0)
}

/// Whether a text of so many bytes and a needle of so many stand in an encoding, and nothing else.
fn has_text(bytes: &[u8; 128], text: usize, needle: usize) -> bool
    requires { (text ≤ 64) × (needle ≤ 16) }
{
    bytes[8..8 + text].iter().all(|byte| is_printable(*byte))
        && bytes[72..72 + needle]
            .iter()
            .all(|byte| is_printable(*byte) && *byte != b':')
        && bytes[8 + text..72].iter().all(|byte| *byte == 0)
        && bytes[72 + needle..].iter().all(|byte| *byte == 0)
}

/// Whether the format names the bytes the encoding of a search with so many steps left.
fn is_search(bytes: &[u8; 128], left: u32) -> bool {
    let (a, b) = (bytes[5] as usize, bytes[6] as usize);
    if a < 1 || a > 64 || b < 1 || b > 16 || b > a {
        return false;
    }
    let (left, places) = (u64::from(left), (a - b + 1) as u64);
    left <= places && bytes[7] as u64 <= places - left && has_text(bytes, a, b)
}

/// Whether the format names the bytes the encoding of a job that other programs do.
fn is_own(bytes: &[u8; 128], left: u32) -> bool {
    let length = bytes[13] as usize;
    left == 0
        && number_in(bytes) < 1 << 40
        && length <= 106
        && bytes[14..14 + length].iter().all(|byte| is_visible(*byte))
        && bytes[14 + length..120].iter().all(|byte| *byte == 0)
        && bytes[125..127].iter().all(|byte| *byte == 0)
        && bytes[127] == 4
}

/// Whether the format names the bytes an encoding.
fn is_encoding(bytes: &[u8; 128]) -> bool {
    let left = u32::from_le_bytes([bytes[1], bytes[2], bytes[3], bytes[4]]);
    match bytes[0] {
        1 => is_count(bytes, left),
        2 => is_ring(bytes),
        3 => is_search(bytes, left),
        4 => is_own(bytes, left),
        _ => false,
    }
}

/// Whether the bytes are read if they are an encoding, as a job that is written as they are, and else are refused.
fn is_read_rightly(bytes: &[u8; 128]) -> bool {
    match AnyJob::decode(bytes) {
        Ok(job) => is_encoding(bytes) && encoded(&job) == *bytes,
        Err(fault) => !is_encoding(bytes) && fault == JobFault::BadState,
    }
}

/// The first byte of which some value isn't read rightly, 128 if there is none. Each is set to each value.
fn first_misread(vector: &[u8; 128]) -> usize {
    for at in 0..128usize {
        for value in 0..=255u8 {
            let mut bytes = *vector;
            bytes[at] = value;
            if !is_read_rightly(&bytes) {
                return at;
            }
        }
    }
    128
}

/// `first_misread` for the longest needle and text, 0 if they make no job.
fn first_misread_of_whole() -> usize {
    let text = b"0123456789abcdef:0123456789abcdef0123456789abcdef0123456789abcdef0123456789abcdef";
    match AnyJob::start("scan", 0, text) {
        Ok(job) => first_misread(&encoded(&job)),
        Err(_) => 0,
    }
}

/// Each byte of each vector is set to each value.
#[test]
fn decodes_encodings_alone(rt: HostRuntime) {
    let count = first_misread(&with_zeros(&[1, 5, 0, 0, 0, 0x0a]));
    assert!(rt; count == 128, "count, byte {count}");
    let rule = first_misread(&with_zeros(&[2, 2, 0, 0, 0, 0x6e, 8, 0, 3]));
    assert!(rt; rule == 128, "rule, byte {rule}");
    let scan = first_misread(&scan_vector());
    assert!(rt; scan == 128, "scan, byte {scan}");
    let own = first_misread(&own_vector());
    assert!(rt; own == 128, "own, byte {own}");
    let whole = first_misread_of_whole();
    assert!(rt; whole == 128, "whole scan, byte {whole}");
}

/// Whether the result of a count's first step has the quantum's numbers, and the job before and after it.
fn is_result(done: &Done<AnyJob>, job: &AnyJob) -> bool {
    done.number == 9
        && done.slot == 4
        && done.task == 3
        && are_same(&done.before, job)
        && !are_same(&done.after, job)
        && is_written(&done.after, &[1, 1, 0, 0, 0, 8])
}

/// Whether the result answers the quantum of this task and slot.
fn answers(done: &Done<AnyJob>, slot: u64, task: u16, job: &AnyJob) -> bool {
    !job.is_done() && done.answers(&Quantum::new(9, slot, task, job.copy_of()))
}

/// Whether a count's first step gives its result, which answers its own quantum and no other.
fn runs_one() -> bool {
    let Ok(job) = AnyJob::start("count", 2, b"7") else {
        return false;
    };
    if job.is_done() {
        return false;
    }
    let done = Quantum::new(9, 4, 3, job.copy_of()).run();
    is_result(&done, &job)
        && answers(&done, 4, 3, &job)
        && !answers(&done, 4, 2, &job)
        && !answers(&done, 5, 3, &job)
}

#[test]
fn runs_a_quantum(rt: HostRuntime) {
    assert!(rt; runs_one());
}
