//! What command lines ask for.
use crate::lines::words;
use cj_base::{Limits, Tick};
use cj_epoch::read_epoch;
use cj_formats::{CertFormat, CertVersion};
use cj_words::{
    Checking, Command, LARGE, Opt, Recipe, Screening, Selfrun, Settings, Thinning, UsageFault,
    limits_of, most_certificate_bytes, most_told, option_name, read_command,
};
use std::alloc::{AllocError, Global};
use std::panic::Expect;

/// The tick that an epoch says.
fn tick(text: &[u8]) -> Tick {
    read_epoch(text).unwrap_or(Tick::FIRST)
}

/// Whether a command line asks for files whose names end with this suffix.
fn asks_for(alloc: Global, line: &str, suffix: &[u8]) -> Result<bool, AllocError> {
    let words = words(alloc, line)?;
    match read_command(&words) {
        Ok(Command::Screen(screening)) => Ok(screening.settings.suffix == suffix),
        _ => Ok(false),
    }
}

/// The settings where all options are left out.
const USUAL: Settings = Settings {
    threshold: 5000,
    from: None,
    to: None,
    suffix: b".oem",
    as_hermite3: false,
    sizes: None,
    primaries: None,
    coverage: false,
    must_cover: false,
    large: false,
    limits: Limits::USUAL,
};

const USUAL_RECIPE: Recipe = Recipe {
    seed: 1,
    objects: 50,
    minutes: 120,
};

#[test]
fn what_is_left_out(rt: HostRuntime) {
    let cases = [
        (
            "screen .",
            Command::Screen(Screening {
                settings: USUAL,
                workers: 1,
                originator: b"CONJ",
                cells: 4_000_000,
                format: CertFormat::Full(CertVersion::One),
                rtn: false,
            }),
        ),
        (
            "check .",
            Command::Check(Checking {
                settings: USUAL,
                certificate: b"screen.cert",
                report: None,
                update: None,
                brief: false,
            }),
        ),
        (
            "rewrite .",
            Command::Rewrite(Checking {
                settings: USUAL,
                certificate: b"screen.cert",
                report: None,
                update: None,
                brief: false,
            }),
        ),
        ("generate .", Command::Generate(USUAL_RECIPE)),
        (
            "thin .",
            Command::Thin(Thinning {
                suffix: b".oem",
                as_hermite3: false,
                within: 1,
            }),
        ),
        (
            "selfrun",
            Command::Selfrun(Selfrun {
                threshold: 5000,
                workers: 1,
                cells: 4_000_000,
                recipe: USUAL_RECIPE,
            }),
        ),
    ];
    for (line, expected) in cases {
        let words = words(rt.alloc(), line).expect(&rt, "no fault");
        assert_eq!(rt; read_command(&words), Ok(expected), "{line}");
    }
}

#[test]
fn all_that_can_be_asked_of_a_screening(rt: HostRuntime) {
    let line =
        "screen . --cert-version 2 --rtn --cells 9 --sizes r.txt --originator=MY_site-1 --workers 16 --as-hermite3 \
        --to 2025-01-01T00:00:01 --from=2025-001T00:00:00Z --suffix .txt --threshold=7";
    let words = words(rt.alloc(), line).expect(&rt, "no fault");
    let screening = Screening {
        settings: Settings {
            threshold: 7,
            from: Some(tick(b"2025-01-01T00:00:00")),
            to: Some(tick(b"2025-01-01T00:00:01")),
            suffix: b".txt",
            as_hermite3: true,
            sizes: Some(b"r.txt"),
            primaries: None,
            coverage: false,
            must_cover: false,
            large: false,
            limits: Limits::USUAL,
        },
        workers: 16,
        originator: b"MY_site-1",
        cells: 9,
        format: CertFormat::Full(CertVersion::Two),
        rtn: true,
    };
    assert_eq!(rt; read_command(&words), Ok(Command::Screen(screening)));
}

#[test]
fn all_that_can_be_asked_of_a_check(rt: HostRuntime) {
    let line =
        "check . --report=other.report --sizes=r.txt --cert other.cert --suffix .txt --as-hermite3 --threshold 1000000";
    let words = words(rt.alloc(), line).expect(&rt, "no fault");
    let checking = Checking {
        settings: Settings {
            threshold: 1_000_000,
            from: None,
            to: None,
            suffix: b".txt",
            as_hermite3: true,
            sizes: Some(b"r.txt"),
            primaries: None,
            coverage: false,
            must_cover: false,
            large: false,
            limits: Limits::USUAL,
        },
        certificate: b"other.cert",
        report: Some(b"other.report"),
        update: None,
        brief: false,
    };
    assert_eq!(rt; read_command(&words), Ok(Command::Check(checking)));
}

#[test]
fn all_that_can_be_asked_of_a_thinning(rt: HostRuntime) {
    let cases = [
        (
            "thin . --within 1000 --as-hermite3 --out r --suffix=.txt",
            Thinning {
                suffix: b".txt",
                as_hermite3: true,
                within: 1000,
            },
        ),
        (
            "thin . --within=01",
            Thinning {
                suffix: b".oem",
                as_hermite3: false,
                within: 1,
            },
        ),
        (
            "thin . --suffix .thin --within 00000000000000000070",
            Thinning {
                suffix: b".thin",
                as_hermite3: false,
                within: 70,
            },
        ),
    ];
    for (line, thinning) in cases {
        let words = words(rt.alloc(), line).expect(&rt, "no fault");
        assert_eq!(rt; read_command(&words), Ok(Command::Thin(thinning)), "{line}");
    }
}

/// Command lines, and the suffix for which each asks.
const SUFFIXES: [(&str, &[u8]); 9] = [
    // In one word and in two.
    ("screen . --suffix=.txt", b".txt"),
    ("screen . --suffix .txt", b".txt"),
    ("screen . --suffix=a=b", b"a=b"),
    ("screen . --suffix a=b", b"a=b"),
    // One that looks like an option.
    ("screen . --suffix=-x", b"-x"),
    ("screen . --suffix=--as-hermite3", b"--as-hermite3"),
    // From one byte to twenty, each printable.
    ("screen . --suffix m", b"m"),
    (
        "screen . --suffix abcdefghijklmnopqrst",
        b"abcdefghijklmnopqrst",
    ),
    ("screen . --suffix=!.0~", b"!.0~"),
];

#[test]
fn suffixes_that_are_taken(rt: HostRuntime) {
    for (line, suffix) in &SUFFIXES {
        assert!(rt;
            asks_for(rt.alloc(), line, suffix).expect(&rt, "no fault"),
            "{line}"
        );
    }
}

#[test]
fn what_is_asked_of_coverage(rt: HostRuntime) {
    let cases = [
        ("screen . --coverage", true, false),
        ("screen . --must-cover", false, true),
        ("screen . --must-cover --coverage", true, true),
        ("check . --coverage --report r", true, false),
        (
            "rescreen . --coverage --from 2025-01-01T00:00:00 --must-cover --to 2025-01-01T00:01:00 --changed",
            true,
            true,
        ),
    ];
    for (line, coverage, must_cover) in cases {
        let words = words(rt.alloc(), line).expect(&rt, "no fault");
        let settings = match read_command(&words) {
            Ok(Command::Screen(screening)) => screening.settings,
            Ok(Command::Check(checking)) => checking.settings,
            Ok(Command::Rescreen(rescreening)) => rescreening.screening.settings,
            _ => USUAL,
        };
        assert_eq!(rt; settings.coverage, coverage, "{line}");
        assert_eq!(rt; settings.must_cover, must_cover, "{line}");
    }
    for line in [
        "check . --coverage",
        "check . --must-cover",
        "rewrite . --coverage",
        "selfrun --coverage",
        "thin . --must-cover",
        "screen . --coverage=yes",
        "screen . --coverage --coverage",
    ] {
        let words = words(rt.alloc(), line).expect(&rt, "no fault");
        assert_eq!(rt; read_command(&words), Err(UsageFault::Words), "{line}");
    }
}

#[test]
fn a_certificate_is_written_in_brief_where_that_is_asked(rt: HostRuntime) {
    let cases = [
        ("screen .", CertFormat::Full(CertVersion::One)),
        (
            "screen . --cert-version 1",
            CertFormat::Full(CertVersion::One),
        ),
        (
            "screen . --cert-version=2",
            CertFormat::Full(CertVersion::Two),
        ),
        ("screen . --brief", CertFormat::Brief),
        ("screen . --rtn --brief --out new", CertFormat::Brief),
        (
            "rescreen . --from 2025-01-01T00:00:00 --brief --to 2025-01-01T00:01:00",
            CertFormat::Brief,
        ),
        (
            "rescreen . --from 2025-01-01T00:00:00 --to 2025-01-01T00:01:00",
            CertFormat::Full(CertVersion::One),
        ),
    ];
    for (line, format) in cases {
        let words = words(rt.alloc(), line).expect(&rt, "no fault");
        let asked = match read_command(&words) {
            Ok(Command::Screen(screening)) => Some(screening.format),
            Ok(Command::Rescreen(rescreening)) => Some(rescreening.screening.format),
            _ => None,
        };
        assert_eq!(rt; asked, Some(format), "{line}");
    }
}

#[test]
fn a_certificate_is_read_in_brief_where_that_is_asked(rt: HostRuntime) {
    let cases = [
        ("check .", false),
        ("check . --report screen.report", false),
        ("check . --brief", true),
        ("check . --update .new --brief --cert a.cert", true),
        ("rewrite .", false),
        ("rewrite . --brief", true),
        ("rewrite . --brief --out new", true),
    ];
    for (line, brief) in cases {
        let words = words(rt.alloc(), line).expect(&rt, "no fault");
        let asked = match read_command(&words) {
            Ok(Command::Check(checking) | Command::Rewrite(checking)) => Some(checking.brief),
            _ => None,
        };
        assert_eq!(rt; asked, Some(brief), "{line}");
    }
}

#[test]
fn where_nothing_may_be_asked_in_brief(rt: HostRuntime) {
    for line in [
        "generate . --brief",
        "selfrun --brief",
        "thin . --brief",
        "screen . --brief=yes",
        "screen . --brief yes",
        "screen . --brief --brief",
        "check . --brief --brief",
        "check . --brief --cert-version 2",
        "rescreen . --from 2025-01-01T00:00:00 --to 2025-01-01T00:01:00 --changed --brief",
        "rescreen . --brief",
    ] {
        let words = words(rt.alloc(), line).expect(&rt, "no fault");
        assert_eq!(rt; read_command(&words), Err(UsageFault::Words), "{line}");
    }
}

/// Command lines that ask for a certificate in brief and for a version of one, and the first option whose value is out of its range.
const BRIEF_IN_A_VERSION: [(&str, Opt); 6] = [
    ("screen . --brief --cert-version 1", Opt::CertVersion),
    ("screen . --cert-version 2 --brief", Opt::CertVersion),
    ("screen . --brief --cert-version 3", Opt::CertVersion),
    // It is told where the version stands in the order of the options: behind these, and before those.
    ("screen . --brief --cert-version 1 --sizes /", Opt::Sizes),
    ("screen . --brief --cert-version 1 --cells 0", Opt::Cells),
    (
        "rescreen . --from 2025-01-01T00:00:00 --to 2025-01-01T00:01:00 --update / --brief --cert-version 1",
        Opt::CertVersion,
    ),
];

#[test]
fn no_version_is_asked_beside_a_certificate_in_brief(rt: HostRuntime) {
    for (line, option) in BRIEF_IN_A_VERSION {
        let words = words(rt.alloc(), line).expect(&rt, "no fault");
        let due = Err(UsageFault::Value { option });
        assert_eq!(rt; read_command(&words), due, "{line}");
    }
}

/// The settings of a run over a whole sky where all other options are left out.
const OVER_A_SKY: Settings = Settings {
    threshold: 5000,
    from: None,
    to: None,
    suffix: b".oem",
    as_hermite3: false,
    sizes: None,
    primaries: None,
    coverage: false,
    must_cover: false,
    large: true,
    limits: LARGE,
};

#[test]
fn a_whole_sky_is_asked_of_a_screening_and_of_a_check(rt: HostRuntime) {
    let screening = Command::Screen(Screening {
        settings: OVER_A_SKY,
        workers: 1,
        originator: b"CONJ",
        cells: 400_000_000,
        format: CertFormat::Brief,
        rtn: false,
    });
    let checking = Command::Check(Checking {
        settings: OVER_A_SKY,
        certificate: b"screen.cert",
        report: None,
        update: None,
        brief: true,
    });
    let cases = [
        ("screen . --large", screening),
        ("screen . --brief --large", screening),
        ("screen . --large --cells 400000000", screening),
        ("check . --large", checking),
        ("check . --large --brief", checking),
    ];
    for (line, due) in cases {
        let words = words(rt.alloc(), line).expect(&rt, "no fault");
        assert_eq!(rt; read_command(&words), Ok(due), "{line}");
    }
    assert_eq!(rt; option_name(Opt::Large), b"--large".as_slice());
}

/// The settings of a run over pairs with a primary where all other options are left out.
const OVER_PRIMARIES: Settings = Settings {
    threshold: 5000,
    from: None,
    to: None,
    suffix: b".oem",
    as_hermite3: false,
    sizes: None,
    primaries: Some(b"fleet.txt"),
    coverage: false,
    must_cover: false,
    large: false,
    limits: Limits::USUAL,
};

#[test]
fn primaries_are_asked_of_a_screening_and_of_a_check(rt: HostRuntime) {
    let screening = Command::Screen(Screening {
        settings: OVER_PRIMARIES,
        workers: 1,
        originator: b"CONJ",
        cells: 4_000_000,
        format: CertFormat::Brief,
        rtn: false,
    });
    let checking = Command::Check(Checking {
        settings: OVER_PRIMARIES,
        certificate: b"screen.cert",
        report: None,
        update: None,
        brief: true,
    });
    let cases = [
        ("screen . --primaries fleet.txt", screening),
        ("screen . --primaries=fleet.txt --brief", screening),
        ("check . --primaries fleet.txt", checking),
        ("check . --brief --primaries=fleet.txt", checking),
    ];
    for (line, due) in cases {
        let words = words(rt.alloc(), line).expect(&rt, "no fault");
        assert_eq!(rt; read_command(&words), Ok(due), "{line}");
    }
    assert_eq!(rt; option_name(Opt::Primaries), b"--primaries".as_slice());
}

#[test]
fn how_much_a_run_over_a_whole_sky_may_take(rt: HostRuntime) {
    let large = Limits {
        objects: 50_000,
        nodes: 64_000_000,
        object_slots: 64_000_000,
        leaves: 400_000_000,
    };
    assert_eq!(rt; limits_of(true), large);
    assert_eq!(rt; most_told(true), 80_000_000);
    assert_eq!(rt; most_certificate_bytes(true), 4_294_967_290);
    let usual = Limits {
        objects: 2_000,
        nodes: 2_000_000,
        object_slots: 4_000_000,
        leaves: 4_000_000,
    };
    assert_eq!(rt; limits_of(false), usual);
    assert_eq!(rt; most_told(false), 4_000_000);
    assert_eq!(rt; most_certificate_bytes(false), 1_073_741_824);
}

/// Command lines over a whole sky, or of more cells than others have, and what is wrong with them.
const LARGE_FAULTS: [(&str, UsageFault); 14] = [
    ("rescreen . --large", UsageFault::Words),
    (
        "rescreen . --from 2025-01-01T00:00:00 --to 2025-01-01T00:01:00 --large",
        UsageFault::Words,
    ),
    ("rewrite . --large", UsageFault::Words),
    ("rewrite . --brief --large", UsageFault::Words),
    ("generate . --large", UsageFault::Words),
    ("selfrun --large", UsageFault::Words),
    ("thin . --large", UsageFault::Words),
    ("screen . --large --large", UsageFault::Words),
    ("check . --large=1", UsageFault::Words),
    ("screen . --large 1", UsageFault::Words),
    (
        "screen . --large --cert-version 1",
        UsageFault::Value {
            option: Opt::CertVersion,
        },
    ),
    (
        "screen . --cert-version 3 --large --brief",
        UsageFault::Value {
            option: Opt::CertVersion,
        },
    ),
    (
        "screen . --large --cells 400000001 --cert-version 1",
        UsageFault::Value { option: Opt::Cells },
    ),
    (
        "screen . --brief --cells 4000001",
        UsageFault::Value { option: Opt::Cells },
    ),
];

#[test]
fn what_is_not_asked_over_a_whole_sky(rt: HostRuntime) {
    for (line, fault) in LARGE_FAULTS {
        let words = words(rt.alloc(), line).expect(&rt, "no fault");
        assert_eq!(rt; read_command(&words), Err(fault), "{line}");
    }
}

#[test]
fn the_names_of_fault_lines(rt: HostRuntime) {
    assert_eq!(rt; option_name(Opt::Suffix), b"--suffix".as_slice());
    assert_eq!(rt; option_name(Opt::AsHermite3), b"--as-hermite3".as_slice());
    assert_eq!(rt; option_name(Opt::Sizes), b"--sizes".as_slice());
    assert_eq!(rt; option_name(Opt::Cert), b"--cert".as_slice());
    assert_eq!(rt; option_name(Opt::Originator), b"--originator".as_slice());
    assert_eq!(rt; option_name(Opt::Seed), b"--seed".as_slice());
    assert_eq!(rt; option_name(Opt::Objects), b"--objects".as_slice());
    assert_eq!(rt; option_name(Opt::Minutes), b"--minutes".as_slice());
    assert_eq!(rt; option_name(Opt::Report), b"--report".as_slice());
    assert_eq!(rt; option_name(Opt::Out), b"--out".as_slice());
    assert_eq!(rt; option_name(Opt::CertDir), b"--cert-dir".as_slice());
    assert_eq!(rt; option_name(Opt::Rtn), b"--rtn".as_slice());
    assert_eq!(rt; option_name(Opt::Within), b"--within".as_slice());
    assert_eq!(rt; option_name(Opt::Coverage), b"--coverage".as_slice());
    assert_eq!(rt; option_name(Opt::MustCover), b"--must-cover".as_slice());
    assert_eq!(rt; option_name(Opt::Brief), b"--brief".as_slice());
}

#[test]
fn what_a_catalogue_is_made_of(rt: HostRuntime) {
    let line = "generate . --minutes 1 --seed=18446744073709551615 --objects 02000";
    let given = words(rt.alloc(), line).expect(&rt, "no fault");
    let asked = Recipe {
        seed: u64::MAX,
        objects: 2000,
        minutes: 1,
    };
    assert_eq!(rt; read_command(&given), Ok(Command::Generate(asked)));
}

#[test]
fn how_a_catalogue_is_screened(rt: HostRuntime) {
    let words = words(
        rt.alloc(),
        "selfrun --cells 9 --minutes 1440 --threshold=7 --seed 0 --workers=4",
    )
    .expect(&rt, "no fault");
    let recipe = Recipe {
        seed: 0,
        objects: 50,
        minutes: 1440,
    };
    let selfrun = Selfrun {
        threshold: 7,
        workers: 4,
        cells: 9,
        recipe,
    };
    assert_eq!(rt; read_command(&words), Ok(Command::Selfrun(selfrun)));
}
