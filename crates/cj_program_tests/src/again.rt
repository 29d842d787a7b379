//! Command lines of a screening again, and of updates.
ghost use Rattle.std.specs.Prelude.{◌≡◌, false, is_some, true};

use crate::lines::{Case, fault_of, first_wrong, words};
use crate::usage_faults::{
    BAD_CELLS, BAD_CERT, BAD_OUT, BAD_REPORT, BAD_SIZES, BAD_SUFFIX, BAD_TO, BAD_UPDATE,
    BAD_VERSION, WORDS,
};
use cj_base::{Limits, Tick};
use cj_epoch::read_epoch;
use cj_formats::{CertFormat, CertVersion};
use cj_words::{
    Checking, Command, Opt, Rescreening, Screening, Settings, option_name, read_command,
};
use std::panic::Expect;

fn tick(text: &[u8]) -> Tick {
    read_epoch(text).unwrap_or(Tick::FIRST)
}

/// The settings of a window of a minute.
fn a_minute() -> Settings<'static>
    ensures begins { is_some result.from ≡ true }
    ensures ends { is_some result.to ≡ true }
    ensures usual { result.large ≡ false }
{
    Settings {
        threshold: 5000,
        from: Some(tick(b"2025-01-01T00:00:00")),
        to: Some(tick(b"2025-01-01T00:01:00")),
        suffix: b".oem",
        as_hermite3: false,
        sizes: None,
        primaries: None,
        coverage: false,
        must_cover: false,
        large: false,
        limits: Limits::USUAL,
    }
}

#[test]
fn what_is_asked_of_a_screening_again(rt: HostRuntime) {
    let cases = [
        (
            "rescreen . --from 2025-01-01T00:00:00 --to 2025-01-01T00:01:00",
            Rescreening {
                screening: Screening {
                    settings: a_minute(),
                    workers: 1,
                    originator: b"CONJ",
                    cells: 4_000_000,
                    format: CertFormat::Full(CertVersion::One),
                    rtn: false,
                },
                update: b".new",
                changed: false,
            },
        ),
        (
            "rescreen . --changed --update=~ --to 2025-01-01T00:01:00 --workers 16 --out r --from 2025-01-01T00:00:00",
            Rescreening {
                screening: Screening {
                    settings: a_minute(),
                    workers: 16,
                    originator: b"CONJ",
                    cells: 4_000_000,
                    format: CertFormat::Full(CertVersion::One),
                    rtn: false,
                },
                update: b"~",
                changed: true,
            },
        ),
        (
            "rescreen . --rtn --cert-version 2 --originator ME --cells 7 --from 2025-01-01T00:00:00 --to 2025-01-01T00:01:00 --update .oem.new --warnings --all-faults",
            Rescreening {
                screening: Screening {
                    settings: a_minute(),
                    workers: 1,
                    originator: b"ME",
                    cells: 7,
                    format: CertFormat::Full(CertVersion::Two),
                    rtn: true,
                },
                update: b".oem.new",
                changed: false,
            },
        ),
    ];
    for (line, expected) in cases {
        let words = words(rt.alloc(), line).expect(&rt, "no fault");
        assert_eq!(rt;
            read_command(&words),
            Ok(Command::Rescreen(expected)),
            "{line}"
        );
    }
}

#[test]
fn what_is_asked_of_updates_of_a_certificate(rt: HostRuntime) {
    let checking = Checking {
        settings: Settings {
            threshold: 5000,
            from: None,
            to: None,
            suffix: b".oem",
            as_hermite3: false,
            sizes: None,
            primaries: None,
            coverage: false,
            must_cover: false,
            large: false,
            limits: Limits::USUAL,
        },
        certificate: b"screen.cert",
        report: None,
        update: Some(b".new"),
        brief: false,
    };
    let check = words(rt.alloc(), "check . --update .new").expect(&rt, "no fault");
    assert_eq!(rt; read_command(&check), Ok(Command::Check(checking)));
    let rewrite = words(rt.alloc(), "rewrite . --update=.new").expect(&rt, "no fault");
    assert_eq!(rt; read_command(&rewrite), Ok(Command::Rewrite(checking)));
    assert_eq!(rt; option_name(Opt::Update), b"--update".as_slice());
    assert_eq!(rt; option_name(Opt::Changed), b"--changed".as_slice());
}

const ENDS: [Case; 9] = [
    (
        "rescreen . --from 2025-01-01T00:00:00 --to 2025-01-01T00:00:00",
        None,
    ),
    ("rescreen .", WORDS),
    ("rescreen . --from 2025-01-01T00:00:00", WORDS),
    ("rescreen . --to 2025-01-01T00:00:00", WORDS),
    (
        "rescreen --from 2025-01-01T00:00:00 --to 2025-01-01T00:00:00",
        WORDS,
    ),
    (
        "rescreen . --from 2025-01-01T00:00:01 --to 2025-01-01T00:00:00",
        BAD_TO,
    ),
    // The words before every value.
    ("rescreen . --threshold 0", WORDS),
    ("rescreen . --from x --suffix /", WORDS),
    (
        "rescreened . --from 2025-01-01T00:00:00 --to 2025-01-01T00:00:00",
        WORDS,
    ),
];

#[test]
fn both_ends_of_the_window_are_given(rt: HostRuntime) {
    assert_eq!(rt;
        first_wrong(rt.alloc(), ENDS.as_slice()).expect(&rt, "no fault"),
        None
    );
}

const CHANGED: [Case; 8] = [
    (
        "rescreen . --from 2025-01-01T00:00:00 --to 2025-01-01T00:00:00 --changed --cells 1",
        None,
    ),
    (
        "rescreen . --from 2025-01-01T00:00:00 --to 2025-01-01T00:00:00 --changed=1",
        WORDS,
    ),
    (
        "rescreen . --from 2025-01-01T00:00:00 --to 2025-01-01T00:00:00 --changed --changed",
        WORDS,
    ),
    (
        "rescreen . --from 2025-01-01T00:00:00 --to 2025-01-01T00:00:00 --changed --rtn",
        WORDS,
    ),
    (
        "rescreen . --from 2025-01-01T00:00:00 --to 2025-01-01T00:00:00 --originator x --changed",
        WORDS,
    ),
    (
        "rescreen . --from 2025-01-01T00:00:00 --to 2025-01-01T00:00:00 --changed --cert-version 1",
        WORDS,
    ),
    ("screen . --changed", WORDS),
    ("check . --changed", WORDS),
];

#[test]
fn what_changed_is_told_alone(rt: HostRuntime) {
    assert_eq!(rt;
        first_wrong(rt.alloc(), CHANGED.as_slice()).expect(&rt, "no fault"),
        None
    );
}

const UPDATES: [Case; 27] = [
    ("check . --update ~", None),
    (
        "check . --update=.new --report screen.report --cert-dir c",
        None,
    ),
    ("check . --update .oem", BAD_UPDATE),
    ("check . --update .new --suffix .new", BAD_UPDATE),
    ("check . --suffix .new", None),
    ("check . --update a/b", BAD_UPDATE),
    ("check . --update abcdefghijklmnopqrst", None),
    ("check . --update abcdefghijklmnopqrstu", BAD_UPDATE),
    ("check . --update=", WORDS),
    ("check . --update", WORDS),
    ("check . --update x --update x", WORDS),
    ("rewrite . --update .oem", BAD_UPDATE),
    ("rewrite . --update .oem1 --out r", None),
    (
        "rescreen . --from 2025-01-01T00:00:00 --to 2025-01-01T00:00:00 --update .oem",
        BAD_UPDATE,
    ),
    // Where it is left out it is the suffix all the same.
    (
        "rescreen . --from 2025-01-01T00:00:00 --to 2025-01-01T00:00:00 --suffix .new",
        BAD_UPDATE,
    ),
    (
        "rescreen . --from 2025-01-01T00:00:00 --to 2025-01-01T00:00:00 --suffix .new --update .oem",
        None,
    ),
    // Of other commands.
    ("screen . --update .new", WORDS),
    ("thin . --update .new", WORDS),
    ("generate . --update .new", WORDS),
    ("selfrun --update .new", WORDS),
    // Behind the version of a certificate, and before the report and the directories.
    ("check . --update / --sizes /", BAD_SIZES),
    ("check . --update / --cert /", BAD_CERT),
    ("check . --update / --suffix /", BAD_SUFFIX),
    ("check . --report / --update /", BAD_UPDATE),
    ("check . --report / --update .new", BAD_REPORT),
    (
        "rescreen . --from 2025-01-01T00:00:00 --to 2025-01-01T00:00:00 --update / --cert-version 3",
        BAD_VERSION,
    ),
    (
        "rescreen . --from 2025-01-01T00:00:00 --to 2025-01-01T00:00:00 --out \x7f --update /",
        BAD_UPDATE,
    ),
];

#[test]
fn the_names_of_updates(rt: HostRuntime) {
    let alloc = rt.alloc();
    assert_eq!(rt;
        first_wrong(alloc, UPDATES.as_slice()).expect(&rt, "no fault"),
        None
    );
    assert_eq!(rt;
        fault_of(alloc, "check . --update", b"a b").expect(&rt, "no fault"),
        BAD_UPDATE
    );
}

const OTHERS: [Case; 5] = [
    (
        "rescreen . --from 2025-01-01T00:00:00 --to 2025-01-01T00:00:00 --out \x7f",
        BAD_OUT,
    ),
    (
        "rescreen . --from 2025-01-01T00:00:00 --to 2025-01-01T00:00:00 --cells 0",
        BAD_CELLS,
    ),
    (
        "rescreen . --from 2025-01-01T00:00:00 --to 2025-01-01T00:00:00 --cert x",
        WORDS,
    ),
    (
        "rescreen . --from 2025-01-01T00:00:00 --to 2025-01-01T00:00:00 --within 1",
        WORDS,
    ),
    (
        "rescreen . --from 2025-01-01T00:00:00 --to 2025-01-01T00:00:00 --report x",
        WORDS,
    ),
];

#[test]
fn else_it_has_the_options_of_a_screening(rt: HostRuntime) {
    assert_eq!(rt;
        first_wrong(rt.alloc(), OTHERS.as_slice()).expect(&rt, "no fault"),
        None
    );
}
