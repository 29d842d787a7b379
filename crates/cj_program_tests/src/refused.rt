//! Command lines that are refused, and why, beside those that are just taken.
use crate::lines::{Case, fault_of, first_wrong, name_of};
use crate::usage_faults::{
    BAD_CELLS, BAD_CERT, BAD_FROM, BAD_MINUTES, BAD_OBJECTS, BAD_ORIGINATOR, BAD_PRIMARIES,
    BAD_REPORT, BAD_SEED, BAD_SIZES, BAD_SUFFIX, BAD_THRESHOLD, BAD_TO, BAD_VERSION, BAD_WITHIN,
    BAD_WORKERS, WORDS,
};
use std::panic::Expect;

const BAD_SUFFIXES: [Case; 11] = [
    ("screen . --suffix -x", WORDS),
    ("screen . --suffix --as-hermite3", WORDS),
    ("screen . --suffix=", WORDS),
    ("screen . --suffix ", WORDS),
    ("screen . --suffix", WORDS),
    ("screen . --suffix abcdefghijklmnopqrstu", BAD_SUFFIX),
    ("screen . --suffix /", BAD_SUFFIX),
    ("screen . --suffix=.oem/", BAD_SUFFIX),
    ("screen . --suffix=.o\tem", BAD_SUFFIX),
    ("screen . --suffix .oem\x7f", BAD_SUFFIX),
    ("screen . --suffix .é", BAD_SUFFIX),
];

#[test]
fn suffixes_that_are_not_taken(rt: HostRuntime) {
    assert_eq!(rt;
        first_wrong(rt.alloc(), BAD_SUFFIXES.as_slice()).expect(&rt, "no fault"),
        None
    );
}

#[test]
fn a_suffix_has_no_space(rt: HostRuntime) {
    assert_eq!(rt;
        fault_of(rt.alloc(), "screen . --suffix", b"a b").expect(&rt, "no fault"),
        BAD_SUFFIX
    );
}

const TWICE: [Case; 5] = [
    ("screen . --suffix x --suffix y", WORDS),
    ("screen . --suffix=x --suffix x", WORDS),
    ("screen . --as-hermite3 --as-hermite3", WORDS),
    ("screen . --as-hermite3 --cells 1 --as-hermite3", WORDS),
    ("screen . --sizes a --sizes a", WORDS),
];

#[test]
fn an_option_stands_once(rt: HostRuntime) {
    assert_eq!(rt;
        first_wrong(rt.alloc(), TWICE.as_slice()).expect(&rt, "no fault"),
        None
    );
}

const FLAGS: [Case; 9] = [
    ("screen . --as-hermite3", None),
    ("screen . --as-hermite3 --threshold 1", None),
    ("screen . --threshold=1 --as-hermite3", None),
    ("screen . --as-hermite3=1", WORDS),
    ("screen . --as-hermite3=", WORDS),
    ("screen . --as-hermite3 1", WORDS),
    ("screen . --as-hermite3 1 --threshold 1", WORDS),
    ("screen . --threshold --as-hermite3", WORDS),
    ("screen --as-hermite3", WORDS),
];

#[test]
fn a_flag_stands_alone(rt: HostRuntime) {
    assert_eq!(rt;
        first_wrong(rt.alloc(), FLAGS.as_slice()).expect(&rt, "no fault"),
        None
    );
}

const NAMES: [Case; 5] = [
    ("screen . --as-hermite", WORDS),
    ("screen . --as-hermite33", WORDS),
    ("screen . --As-Hermite3", WORDS),
    ("screen . --suffi x", WORDS),
    ("screen . --suffixes x", WORDS),
];

#[test]
fn a_name_is_matched_whole(rt: HostRuntime) {
    assert_eq!(rt;
        first_wrong(rt.alloc(), NAMES.as_slice()).expect(&rt, "no fault"),
        None
    );
}

const ORDER: [Case; 11] = [
    // Of several wrong values that of the first option of the table.
    ("screen . --cells 0 --suffix /", BAD_SUFFIX),
    ("screen . --cells 0 --suffix x", BAD_CELLS),
    ("screen . --suffix / --to x", BAD_TO),
    ("screen . --sizes / --cells 0", BAD_CELLS),
    ("screen . --suffix / --from x", BAD_FROM),
    ("screen . --suffix / --threshold 0", BAD_THRESHOLD),
    (
        "screen . --suffix / --from 2025-01-01T00:00:01 --to 2025-01-01T00:00:00",
        BAD_TO,
    ),
    // The words before every value.
    ("screen . --suffix / --as-hermite3=1", WORDS),
    ("screen . --suffix / --suffix /", WORDS),
    ("screen . --threshold 0 --suffix", WORDS),
    ("screen . --threshold 0 --unknown 1", WORDS),
];

#[test]
fn words_come_first_and_then_the_first_option_of_the_table(rt: HostRuntime) {
    assert_eq!(rt;
        first_wrong(rt.alloc(), ORDER.as_slice()).expect(&rt, "no fault"),
        None
    );
}

const SIZES: [Case; 5] = [
    ("screen . --sizes ~", None),
    ("screen . --sizes sizes.txt", None),
    ("screen . --sizes a/b", BAD_SIZES),
    ("screen . --sizes a\x7f", BAD_SIZES),
    ("screen . --sizes=", WORDS),
];

#[test]
fn files_of_sizes(rt: HostRuntime) {
    assert_eq!(rt;
        first_wrong(rt.alloc(), SIZES.as_slice()).expect(&rt, "no fault"),
        None
    );
}

const PRIMARIES: [Case; 9] = [
    ("screen . --primaries fleet.txt", None),
    ("check . --primaries=fleet.txt --report screen.report", None),
    ("rewrite . --primaries fleet.txt --brief", None),
    ("thin . --primaries fleet.txt", WORDS),
    ("selfrun --primaries fleet.txt", WORDS),
    (
        "screen . --primaries fleet.txt --primaries fleet.txt",
        WORDS,
    ),
    ("screen . --primaries a/b", BAD_PRIMARIES),
    ("screen . --sizes a/b --primaries a/b", BAD_SIZES),
    (
        "screen . --primaries fleet.txt --cert-version 2",
        BAD_VERSION,
    ),
];

#[test]
fn files_of_primaries(rt: HostRuntime) {
    assert_eq!(rt;
        first_wrong(rt.alloc(), PRIMARIES.as_slice()).expect(&rt, "no fault"),
        None
    );
}

#[test]
fn a_file_of_sizes_is_named_by_two_hundred_bytes_at_most(rt: HostRuntime) {
    let alloc = rt.alloc();
    for (count, expected) in [(200, None), (201, BAD_SIZES)] {
        let name = name_of(alloc, count).expect(&rt, "no fault");
        assert_eq!(rt;
            fault_of(alloc, "screen . --sizes", &name).expect(&rt, "no fault"),
            expected
        );
    }
}

const TEXTS: [Case; 14] = [
    ("check . --cert ~", None),
    ("check . --cert=!", None),
    ("check . --cert a/b", BAD_CERT),
    ("check . --cert=", WORDS),
    ("check . --cert é", BAD_CERT),
    ("screen . --originator a", None),
    ("screen . --originator=-", None),
    ("screen . --originator _9Z", None),
    ("screen . --originator a.b", BAD_ORIGINATOR),
    ("screen . --originator=a=b", BAD_ORIGINATOR),
    ("screen . --originator é", BAD_ORIGINATOR),
    ("screen . --originator -", WORDS),
    (
        "screen . --originator abcdefghijabcdefghijabcdefghijabcdefghij",
        None,
    ),
    (
        "screen . --originator abcdefghijabcdefghijabcdefghijabcdefghijk",
        BAD_ORIGINATOR,
    ),
];

#[test]
fn certificates_and_originators(rt: HostRuntime) {
    assert_eq!(rt;
        first_wrong(rt.alloc(), TEXTS.as_slice()).expect(&rt, "no fault"),
        None
    );
}

#[test]
fn a_certificate_is_named_by_two_hundred_bytes_at_most(rt: HostRuntime) {
    let alloc = rt.alloc();
    for (count, expected) in [(200, None), (201, BAD_CERT)] {
        let name = name_of(alloc, count).expect(&rt, "no fault");
        assert_eq!(rt;
            fault_of(alloc, "check . --cert", &name).expect(&rt, "no fault"),
            expected
        );
    }
    assert_eq!(rt;
        fault_of(alloc, "check . --cert", b"a b").expect(&rt, "no fault"),
        BAD_CERT
    );
}

const REPORTS: [Case; 15] = [
    ("check . --report ~", None),
    ("check . --report=screen.report --cert-dir c", None),
    ("check . --report a/b", BAD_REPORT),
    ("check . --report a\x7f", BAD_REPORT),
    ("check . --report=", WORDS),
    ("check . --report", WORDS),
    ("check . --report x --report x", WORDS),
    // Of a check alone.
    ("screen . --report x", WORDS),
    ("rewrite . --report x", WORDS),
    ("generate . --report x", WORDS),
    ("selfrun --report x", WORDS),
    // Behind the file of sizes, and before a directory.
    ("check . --report / --cert /", BAD_CERT),
    ("check . --report / --sizes /", BAD_SIZES),
    ("check . --report / --cert-dir \x7f", BAD_REPORT),
    ("check . --reports x", WORDS),
];

#[test]
fn reports(rt: HostRuntime) {
    let alloc = rt.alloc();
    assert_eq!(rt;
        first_wrong(alloc, REPORTS.as_slice()).expect(&rt, "no fault"),
        None
    );
    for (count, expected) in [(200, None), (201, BAD_REPORT)] {
        let name = name_of(alloc, count).expect(&rt, "no fault");
        assert_eq!(rt;
            fault_of(alloc, "check . --report", &name).expect(&rt, "no fault"),
            expected
        );
    }
}

const COMMANDS: [Case; 39] = [
    ("screen . --cert x", WORDS),
    ("screen . --seed 1", WORDS),
    ("screen . --objects 1", WORDS),
    ("screen . --minutes 1", WORDS),
    ("check . --workers 1", WORDS),
    ("generate . --workers 1", WORDS),
    ("check . --originator x", WORDS),
    ("check . --cells 1", WORDS),
    ("check . --seed 1", WORDS),
    ("check . --threshold 0", BAD_THRESHOLD),
    ("check . --from x", BAD_FROM),
    ("check . --to x", BAD_TO),
    ("check . --suffix /", BAD_SUFFIX),
    ("check . --sizes /", BAD_SIZES),
    ("check . --cert x --cert x", WORDS),
    ("check", WORDS),
    ("check --cert x", WORDS),
    ("rewrite . --cells 1", WORDS),
    ("rewrite . --cert-version 2", WORDS),
    ("rewrite", WORDS),
    ("rewrite . --cert /", BAD_CERT),
    ("check . --cert-version 1", WORDS),
    ("selfrun --cert-version 1", WORDS),
    ("screen . --cert-version 1 --cert-version 1", WORDS),
    ("generate . --threshold 5", WORDS),
    ("generate . --cells 5", WORDS),
    ("generate . --as-hermite3", WORDS),
    ("generate . --sizes x", WORDS),
    ("generate", WORDS),
    ("generate --seed 1", WORDS),
    ("generate .x --objects 1 --objects 2", WORDS),
    ("selfrun .", WORDS),
    ("selfrun --suffix .oem", WORDS),
    ("selfrun --from 2025-01-01T00:00:00", WORDS),
    ("selfrun --cert x", WORDS),
    ("selfrun --originator x", WORDS),
    ("generates .", WORDS),
    ("Check .", WORDS),
    ("", WORDS),
];

#[test]
fn each_command_has_its_own_options(rt: HostRuntime) {
    assert_eq!(rt;
        first_wrong(rt.alloc(), COMMANDS.as_slice()).expect(&rt, "no fault"),
        None
    );
}

const RELATIVE: [Case; 15] = [
    ("screen . --rtn", None),
    ("screen . --rtn --threshold 1", None),
    ("screen . --threshold=1 --rtn --as-hermite3", None),
    ("screen . --rtn=1", WORDS),
    ("screen . --rtn=", WORDS),
    ("screen . --rtn 1", WORDS),
    ("screen . --cells --rtn", WORDS),
    ("screen . --rtn --rtn", WORDS),
    ("screen . --rtn --cells 0", BAD_CELLS),
    // Of a screening alone.
    ("check . --rtn", WORDS),
    ("rewrite . --rtn", WORDS),
    ("generate . --rtn", WORDS),
    ("selfrun --rtn", WORDS),
    ("thin . --rtn", WORDS),
    ("screen . --RTN", WORDS),
];

#[test]
fn the_relative_state(rt: HostRuntime) {
    assert_eq!(rt;
        first_wrong(rt.alloc(), RELATIVE.as_slice()).expect(&rt, "no fault"),
        None
    );
}

const THINNING: [Case; 31] = [
    ("thin . --within 1", None),
    ("thin . --within=1000", None),
    ("thin . --within 01", None),
    ("thin . --within 0", BAD_WITHIN),
    ("thin . --within 1001", BAD_WITHIN),
    ("thin . --within 18446744073709551617", BAD_WITHIN),
    ("thin . --within 1.5", BAD_WITHIN),
    ("thin . --within=", WORDS),
    ("thin . --within 1 --within 1", WORDS),
    ("thin . --suffix / --within 0", BAD_SUFFIX),
    ("thin . --within 0 --suffix x", BAD_WITHIN),
    ("thin . --suffix x --suffix x", WORDS),
    ("thin . --as-hermite3 --as-hermite3", WORDS),
    (
        "thin . --as-hermite3 --within 3 --suffix=.txt --out r",
        None,
    ),
    ("thin", WORDS),
    ("thin --within 1", WORDS),
    // Options of others.
    ("thin . --threshold 5", WORDS),
    ("thin . --from 2025-01-01T00:00:00", WORDS),
    ("thin . --to 2025-01-01T00:00:00", WORDS),
    ("thin . --sizes x", WORDS),
    ("thin . --workers 1", WORDS),
    ("thin . --cells 1", WORDS),
    ("thin . --originator x", WORDS),
    ("thin . --cert x", WORDS),
    ("thin . --cert-version 1", WORDS),
    ("thin . --seed 1", WORDS),
    ("screen . --within 1", WORDS),
    ("check . --within 1", WORDS),
    ("rewrite . --within 1", WORDS),
    ("generate . --within 1", WORDS),
    ("selfrun --within 1", WORDS),
];

#[test]
fn fewer_nodes(rt: HostRuntime) {
    assert_eq!(rt;
        first_wrong(rt.alloc(), THINNING.as_slice()).expect(&rt, "no fault"),
        None
    );
}

const RANGES: [Case; 32] = [
    ("screen . --threshold 1000000", None),
    ("screen . --threshold 1000001", BAD_THRESHOLD),
    ("screen . --threshold 00000000000000000005", None),
    ("screen . --threshold 000000000000000000005", BAD_THRESHOLD),
    ("screen . --threshold=+5", BAD_THRESHOLD),
    ("screen . --cells 4000001", BAD_CELLS),
    ("screen . --workers 0", BAD_WORKERS),
    ("screen . --workers 17", BAD_WORKERS),
    ("selfrun --workers=x", BAD_WORKERS),
    ("screen . --from x --workers 0", BAD_WORKERS),
    ("screen . --threshold 0 --workers 0", BAD_THRESHOLD),
    ("generate . --seed 18446744073709551616", BAD_SEED),
    ("generate . --seed 99999999999999999999", BAD_SEED),
    ("generate . --seed 000000000000000000001", BAD_SEED),
    ("generate . --seed=-1", BAD_SEED),
    ("generate . --objects 0", BAD_OBJECTS),
    ("generate . --objects 2001", BAD_OBJECTS),
    ("generate . --minutes 0", BAD_MINUTES),
    ("generate . --minutes 1441", BAD_MINUTES),
    ("generate . --minutes 1x", BAD_MINUTES),
    // Of several wrong values that of the first option of the table, and the words before every value.
    ("generate . --minutes 0 --objects 0", BAD_OBJECTS),
    ("generate . --objects 0 --seed x", BAD_SEED),
    ("selfrun --seed x --cells 0", BAD_CELLS),
    ("selfrun --cells 0 --threshold 0", BAD_THRESHOLD),
    ("selfrun --seed x --sizes y", WORDS),
    ("check . --sizes / --cert /", BAD_CERT),
    ("screen . --cells 0 --originator .", BAD_ORIGINATOR),
    ("screen . --cert-version 02", None),
    ("screen . --cert-version 0", BAD_VERSION),
    ("screen . --cert-version 3", BAD_VERSION),
    ("screen . --cert-version x --sizes /", BAD_SIZES),
    ("rewrite . --sizes / --cert /", BAD_CERT),
];

#[test]
fn the_ranges_of_values_and_their_order(rt: HostRuntime) {
    assert_eq!(rt;
        first_wrong(rt.alloc(), RANGES.as_slice()).expect(&rt, "no fault"),
        None
    );
}
