//! Texts and their numbers.

use pfx_kinds_decimal::number_in;

/// The most digits, texts and their numbers.
static ROWS: [(usize, &str, Option<u64>); 16] = [
    (1, "0", Some(0)),
    (13, "1099511627775", Some(1_099_511_627_775)),
    (13, "0000000000001", Some(1)),
    (13, "00000000000001", None),
    (19, "9999999999999999999", Some(9_999_999_999_999_999_999)),
    (5, "65536", Some(65_536)),
    (5, "", None),
    (5, "-1", None),
    (5, "+1", None),
    (5, " 1", None),
    (5, "1 ", None),
    (5, "1a", None),
    (5, "1:", None),
    (5, "/", None),
    (0, "", None),
    (0, "1", None),
];

#[test]
fn reads_numbers(rt: HostRuntime) {
    for (most, text, number) in ROWS.iter() {
        let right = number_in(*most, text.as_bytes()) == *number;
        assert!(rt; right, "{text} in {most} digits");
    }
}
