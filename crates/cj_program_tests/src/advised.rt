//! What a person is told behind a fault line.
use crate::lines::words;
use cj_advice::{
    Advice, Cause, EVERY, FileReason, LimitCause, OPTIONS, VERBS, advice_on, cause_named, cause_of,
    cause_word, explanation, hint_on_files, hint_text, known_causes_text, list_of_causes,
    nearest_option, range_of,
};
use cj_base::{Limits, Tick};
use cj_epoch::EpochFault;
use cj_formats::{CertCause, CheckCause, OemCause, PrimariesCause, SizesCause};
use cj_host::{Notice, asked_notice, notice_text};
use cj_io::Name;
use cj_kvn::KvnCause;
use cj_status::{CertificateCause, FileCause, LimitFault, Status};
use cj_words::{LARGE, Opt, UsageFault, Verb, is_known, most_told, option_name};
use std::alloc::{AllocError, Global};
use std::panic::Expect;

/// Whether no line is longer than 78 bytes, and each is of printable ASCII.
fn fits(text: &[u8]) -> bool {
    text.split(|b| *b == b'\n').all(|line| {
        line.len() <= 78 && line.iter().all(|b| 32 <= *b && *b <= 126)
    })
}

/// Whether a text is not empty and ends with a line feed.
fn is_of_lines(text: &[u8]) -> bool {
    match text {
        [.., last] => *last == b'\n',
        [] => false,
    }
}

/// Whether a text has another in it.
fn has(text: &[u8], part: &[u8]) -> bool {
    text.windows(part.len().max(1)).any(|found| found == part)
}

fn is_told_fitly(advice: &Advice) -> bool {
    !advice.means.is_empty()
        && advice.means.len() <= 54
        && !advice.helps.is_empty()
        && advice.helps.len() <= 72
        && is_of_lines(advice.more.as_bytes())
        && is_of_lines(advice.wrong.as_bytes())
        && is_of_lines(advice.right.as_bytes())
        && advice.wrong != advice.right
}

/// `EVERY` has every cause that there is: a clause of `cause_named` says so.
#[test]
fn each_cause_has_a_text_of_its_own(rt: HostRuntime) {
    for (place, cause) in EVERY.iter().enumerate() {
        let advice = advice_on(*cause);
        assert!(rt; is_told_fitly(&advice), "{cause:?}");
        let text = explanation(rt.alloc(), *cause).expect(&rt, "no fault");
        assert!(rt; is_of_lines(&text) && fits(&text), "{cause:?}");
        assert!(rt; text.starts_with(cause_word(*cause)), "{cause:?}");
        for other in EVERY.iter().skip(place + 1) {
            assert!(rt; advice_on(*other) != advice, "{cause:?} {other:?}");
            assert!(rt;
                advice_on(*other).more != advice.more,
                "{cause:?} {other:?}"
            );
        }
    }
}

#[test]
fn a_cause_is_found_by_what_a_fault_line_prints(rt: HostRuntime) {
    for cause in &EVERY {
        assert_eq!(rt; cause_named(cause_word(*cause)), Some(*cause));
    }
    let found: [(&[u8], Cause); 6] = [
        (b"Words", Cause::Words),
        (b"Value", Cause::Value),
        (
            b"Epoch SecondSixty",
            Cause::File(FileReason::Oem(OemCause::Epoch(EpochFault::SecondSixty))),
        ),
        (
            b"Sizes Kvn NoLineForm",
            Cause::File(FileReason::Sizes(SizesCause::Kvn(KvnCause::NoLineForm))),
        ),
        (
            b"Primaries Twice",
            Cause::File(FileReason::Primaries(PrimariesCause::Twice)),
        ),
        (b"Window", Cause::Limit(LimitCause::Window)),
    ];
    for (word, cause) in &found {
        assert_eq!(rt; cause_named(word), Some(*cause));
    }
    let unknown: [&[u8]; 7] = [
        b"",
        b"words",
        b"Epoch",
        b"Value --to",
        b"Form",
        b"Frames",
        b"Frame ",
    ];
    for word in &unknown {
        assert_eq!(rt; cause_named(word), None);
    }
}

#[test]
fn all_causes_are_listed(rt: HostRuntime) {
    let text = list_of_causes(rt.alloc()).expect(&rt, "no fault");
    assert!(rt; is_of_lines(&text) && fits(&text));
    assert_eq!(rt; text.split(|b| *b == b'\n').count(), EVERY.len() + 1);
    let known = known_causes_text(rt.alloc()).expect(&rt, "no fault");
    assert!(rt; is_of_lines(&known) && fits(&known));
    for cause in &EVERY {
        assert!(rt; has(&text, cause_word(*cause)));
        assert!(rt; has(&known, cause_word(*cause)));
    }
}

/// The hint behind the fault line of these words.
fn hint_of(alloc: Global, line: &str) -> Result<Vec<u8>, AllocError> {
    let words = words(alloc, line)?;
    hint_text(alloc, &Status::Usage(UsageFault::Words), Some(&words))
}

const SLIPS: [(&str, &[u8]); 34] = [
    (
        "screen . --treshold 1000",
        b"hint: --treshold is no option of screen; nearest: --threshold\nhint: conj screen --help lists its options\n",
    ),
    (
        "screen . --threshold=5 --sufix=.txt",
        b"hint: --sufix is no option of screen; nearest: --suffix\nhint: conj screen --help lists its options\n",
    ),
    (
        "check . --certdir results",
        b"hint: --certdir is no option of check; nearest: --cert-dir\nhint: conj check --help lists its options\n",
    ),
    (
        "check . --reports x",
        b"hint: --reports is no option of check; nearest: --report\nhint: conj check --help lists its options\n",
    ),
    (
        "screen . --as-hermite",
        b"hint: --as-hermite is no option of screen; nearest: --as-hermite3\nhint: conj screen --help lists its options\n",
    ),
    (
        "generate . --object 5",
        b"hint: --object is no option of generate; nearest: --objects\nhint: conj generate --help lists its options\n",
    ),
    (
        "screen . --cert x",
        b"hint: --cert is no option of screen; nearest: --cells\nhint: it is an option of check, rewrite\n",
    ),
    (
        "selfrun -seed 5",
        b"hint: -seed is no option of selfrun; nearest: --seed\nhint: conj selfrun --help lists its options\n",
    ),
    (
        "rescreen . --to 2025-01-01T00:00:00",
        b"hint: rescreen wants --from\nhint: old and new files are screened over one window: give --from and --to\n",
    ),
    (
        "rescreen . --from 2025-01-01T00:00:00 --to 2025-01-01T00:00:00 --rtn --changed",
        b"hint: --rtn does not stand beside --changed\nhint: changed pairs alone have no messages and no certificate\n",
    ),
    (
        "rescreen . --from 2025-01-01T00:00:00 --to 2025-01-01T00:00:00 --changed --brief",
        b"hint: --brief does not stand beside --changed\nhint: changed pairs alone have no messages and no certificate\n",
    ),
    (
        "check . --brief=1",
        b"hint: --brief has no value\nhint: write it alone\n",
    ),
    (
        "screen . --large=1",
        b"hint: --large has no value\nhint: write it alone\n",
    ),
    (
        "rewrite . --large",
        b"hint: --large is no option of rewrite; nearest: --from\nhint: it is an option of screen, check\n",
    ),
    (
        "rescreen . --changed=1",
        b"hint: --changed has no value\nhint: write it alone\n",
    ),
    (
        "screen . --suffix x --suffix y",
        b"hint: --suffix stands twice\nhint: leave one of the two out\n",
    ),
    (
        "screen . --as-hermite3 --cells 1 --as-hermite3",
        b"hint: --as-hermite3 stands twice\nhint: leave one of the two out\n",
    ),
    (
        "screen . --threshold",
        b"hint: --threshold lacks its value: one that begins with - is joined by =\nhint: --threshold is a whole number of metres from 1 to 1000000\n",
    ),
    (
        "screen . --originator --as-hermite3",
        b"hint: --originator lacks its value: one that begins with - is joined by =\nhint: --originator is 1 to 40 letters, digits, _ and -\n",
    ),
    (
        "check . --cert=",
        b"hint: --cert lacks its value: one that begins with - is joined by =\nhint: --cert is a name of 1 to 200 bytes: printable ASCII, no blank, no /\n",
    ),
    (
        "screen . --as-hermite3=1",
        b"hint: --as-hermite3 has no value\nhint: write it alone\n",
    ),
    (
        "screen . --rtn=1",
        b"hint: --rtn has no value\nhint: write it alone\n",
    ),
    (
        "check . --rtn",
        b"hint: --rtn is no option of check; nearest: --to\nhint: it is an option of screen, rescreen\n",
    ),
    (
        "thin . --sizes x",
        b"hint: --sizes is no option of thin; nearest: --suffix\nhint: it is an option of screen, check, rewrite, rescreen\n",
    ),
    (
        "thin . --within",
        b"hint: --within lacks its value: one that begins with - is joined by =\nhint: --within is a whole number of metres from 1 to 1000\n",
    ),
    (
        "screen my files",
        b"hint: files stands where an option should, which begins with --\nhint: a name or a time with a blank in it is one word in quotes\n",
    ),
    (
        "selfrun . --seed 1",
        b"hint: . stands where an option should, which begins with --\nhint: selfrun has no directory: it works in memory\n",
    ),
    (
        "screen --threshold 5",
        b"hint: screen wants a directory behind it, before its options\nhint: as in conj screen samples/crossing\n",
    ),
    (
        "thin --within 5",
        b"hint: thin wants a directory behind it, before its options\nhint: as in conj thin samples/crossing\n",
    ),
    (
        "rewrite",
        b"hint: rewrite wants a directory behind it, before its options\nhint: as in conj rewrite samples/crossing\n",
    ),
    (
        "scren .",
        b"hint: scren is no command\nhint: screen, rescreen, check, rewrite, generate, selfrun or thin; conj --help\n",
    ),
    (
        "screen . --help",
        b"hint: --help stands alone, or behind a command alone\nhint: as in conj --help and conj screen --help\n",
    ),
    (
        "--explain Epoch Form",
        b"hint: --explain stands alone, or before one cause\nhint: two words are one in quotes: conj --explain \"Epoch Form\"\n",
    ),
    (
        "screen . --a-very-long-option-without-meaning\x07 1",
        b"hint: --a-very-long-opti.. is no option of screen; nearest: --originator\nhint: conj screen --help lists its options\n",
    ),
];

#[test]
fn what_is_wrong_with_words_is_told(rt: HostRuntime) {
    for (line, due) in &SLIPS {
        let hint = hint_of(rt.alloc(), line).expect(&rt, "no fault");
        assert_eq!(rt; hint.as_slice(), *due, "{line}");
        assert!(rt; fits(&hint), "{line}");
    }
}

#[test]
fn words_that_are_not_there_or_not_text_are_told(rt: HostRuntime) {
    let alloc = rt.alloc();
    let status = Status::Usage(UsageFault::Words);
    let none = hint_text(alloc, &status, Some(&[])).expect(&rt, "no fault");
    assert!(rt; none.starts_with(b"hint: a command is wanted\n"));
    let unread = hint_text(alloc, &status, None).expect(&rt, "no fault");
    assert!(rt; unread.starts_with(b"hint: a word of the command line is not UTF-8\n"));
}

#[test]
fn limits_are_told_as_they_are(rt: HostRuntime) {
    let (usual, large) = (Limits::USUAL, LARGE);
    let told = [
        (
            advice_on(Cause::Limit(LimitCause::Objects)).means,
            u64::from(usual.objects),
            u64::from(large.objects),
        ),
        (
            advice_on(Cause::Limit(LimitCause::Nodes)).means,
            usual.nodes,
            large.nodes,
        ),
        (
            advice_on(Cause::Limit(LimitCause::Slots)).means,
            usual.object_slots,
            large.object_slots,
        ),
        (range_of(Opt::Cells).means, usual.leaves, large.leaves),
    ];
    for (text, usual, large) in &told {
        let number = format!(in rt.alloc(); " {usual}").expect(&rt, "no fault");
        assert!(rt; has(text.as_bytes(), number.as_bytes()), "{text}");
        let number = format!(in rt.alloc(); " {large}").expect(&rt, "no fault");
        assert!(rt; has(text.as_bytes(), number.as_bytes()), "{text}");
    }
    let told = advice_on(Cause::Limit(LimitCause::Told)).means;
    let number = format!(in rt.alloc(); " {}", most_told(true)).expect(&rt, "no fault");
    assert!(rt; has(told.as_bytes(), number.as_bytes()), "{told}");
}

#[test]
fn each_option_has_its_range(rt: HostRuntime) {
    for option in &OPTIONS {
        let range = range_of(*option);
        assert!(rt; range.means.as_bytes().starts_with(option_name(*option)));
        let status = Status::Usage(UsageFault::Value { option: *option });
        let hint = hint_text(rt.alloc(), &status, None).expect(&rt, "no fault");
        assert!(rt; is_of_lines(&hint) && fits(&hint), "{option:?}");
        assert!(rt; has(&hint, range.means.as_bytes()), "{option:?}");
        for verb in &VERBS {
            let nearest = nearest_option(option_name(*option), *verb);
            if is_known(option_name(*option), *verb) {
                assert_eq!(rt; nearest, *option);
            }
            assert!(rt; is_known(option_name(nearest), *verb));
        }
    }
}

/// A status whose fault line tells this cause.
fn status_of(alloc: Global, cause: Cause) -> Result<Status, AllocError> {
    let status = match cause {
        Cause::Words => Status::Usage(UsageFault::Words),
        Cause::Value => Status::Usage(UsageFault::Value {
            option: Opt::Threshold,
        }),
        Cause::File(reason) => Status::BadFile {
            file: Name::copy_of(alloc, b"a.oem")?,
            line: 1,
            cause: cause_for(reason),
        },
        Cause::Certificate(cause) => Status::NotAccepted { line: 5, cause },
        Cause::Limit(limit) => Status::Limit(fault_of(alloc, limit)?),
        Cause::ReadFault => Status::ReadFault,
        Cause::WriteFault => Status::WriteFault,
        Cause::OutOfMemory => Status::OutOfMemory,
    };
    Ok(status)
}

fn cause_for(reason: FileReason) -> FileCause {
    match reason {
        FileReason::Oem(cause) => FileCause::Oem(cause),
        FileReason::MixedFrames => FileCause::MixedFrames,
        FileReason::Sizes(cause) => FileCause::Sizes(cause),
        FileReason::NoSizes => FileCause::NoSizes,
        FileReason::Primaries(cause) => FileCause::Primaries(cause),
        FileReason::NoPrimaries => FileCause::NoPrimaries,
        FileReason::Uncovered => FileCause::Uncovered {
            micros: Tick::FIRST.micros,
        },
    }
}

fn fault_of(alloc: Global, limit: LimitCause) -> Result<LimitFault, AllocError> {
    let fault = match limit {
        LimitCause::Objects => LimitFault::Objects { count: 2001 },
        LimitCause::FileBytes => LimitFault::FileBytes {
            file: Name::copy_of(alloc, b"a.oem")?,
        },
        LimitCause::Nodes => LimitFault::Nodes { count: 2_000_001 },
        LimitCause::Window => LimitFault::Window { length: 1 },
        LimitCause::Slots => LimitFault::Slots { count: 4_000_001 },
        LimitCause::Cells => LimitFault::Cells { limit: 1 },
        LimitCause::Told => LimitFault::Told { limit: 80_000_000 },
    };
    Ok(fault)
}

/// The two lines that tell what is meant and what helps.
fn lines_of(alloc: Global, means: &str, helps: &str) -> Result<String, AllocError> {
    format!(in alloc; "hint: {means}\nhint: {helps}\n")
}

/// Where a value is out of its range, the hint is that of the option; where words are not, and are of the grammar, that of the cause.
#[test]
fn each_cause_has_its_hint(rt: HostRuntime) {
    let alloc = rt.alloc();
    let words = words(alloc, "screen .").expect(&rt, "no fault");
    for cause in &EVERY {
        let status = status_of(alloc, *cause).expect(&rt, "no fault");
        assert_eq!(rt; cause_of(&status), Some(*cause));
        let hint = hint_text(alloc, &status, Some(&words)).expect(&rt, "no fault");
        assert!(rt; is_of_lines(&hint) && fits(&hint), "{cause:?}");
        let advice = advice_on(*cause).hint();
        let due = if *cause == Cause::Value {
            range_of(Opt::Threshold)
        } else {
            advice
        };
        let due = lines_of(alloc, due.means, due.helps).expect(&rt, "no fault");
        assert_eq!(rt; hint.as_slice(), due.as_bytes(), "{cause:?}");
    }
    assert_eq!(rt; cause_of(&Status::Ok), None);
}

#[test]
fn behind_several_files_each_cause_is_pointed_to(rt: HostRuntime) {
    let alloc = rt.alloc();
    for cause in &EVERY {
        let status = status_of(alloc, *cause).expect(&rt, "no fault");
        let hint = hint_on_files(alloc, &status).expect(&rt, "no fault");
        assert!(rt; is_of_lines(&hint) && fits(&hint), "{cause:?}");
        assert!(rt; has(&hint, cause_word(*cause)), "{cause:?}");
    }
    let cause = Cause::File(FileReason::Oem(OemCause::Epoch(EpochFault::Form)));
    let status = status_of(alloc, cause).expect(&rt, "no fault");
    let hint = hint_on_files(alloc, &status).expect(&rt, "no fault");
    let due = b"hint: these are the first faults of their files; mending one may show another
hint: conj --explain \"Epoch Form\" says what helps, and so for each
";
    assert_eq!(rt; hint.as_slice(), due.as_slice());
}

const HEADERS: [(u32, &[u8]); 3] = [
    (2, b"hint: the window is not that"),
    (3, b"hint: the threshold is not that"),
    (4, b"hint: the number of objects is not that"),
];

#[test]
fn a_header_is_told_by_its_line(rt: HostRuntime) {
    for (line, front) in HEADERS {
        let status = Status::NotAccepted {
            line,
            cause: CertificateCause::Refused(CheckCause::Header),
        };
        let hint = hint_text(rt.alloc(), &status, None).expect(&rt, "no fault");
        assert!(rt; hint.starts_with(front), "{line}");
        assert!(rt; is_of_lines(&hint) && fits(&hint), "{line}");
        assert_eq!(rt; hint.split(|b| *b == b'\n').count(), 3, "{line}");
    }
}

/// The certificate in brief that a run wrote with `--brief` has a first line of no version that is read without it.
#[test]
fn a_version_that_is_not_read_is_told_at_the_first_line(rt: HostRuntime) {
    for (line, due) in [
        (
            1,
            b"hint: the certificate is of no version that is read here
hint: give --brief where the run had it, else take the certificate anew
"
                .as_slice(),
        ),
        (
            2,
            b"hint: no line of a certificate may stand here so
hint: take the certificate anew from who made it: it is not as written
"
                .as_slice(),
        ),
    ] {
        let status = Status::NotAccepted {
            line,
            cause: CertificateCause::Text(CertCause::Form),
        };
        let hint = hint_text(rt.alloc(), &status, None).expect(&rt, "no fault");
        assert!(rt; is_of_lines(&hint) && fits(&hint), "{line}");
        assert_eq!(rt; hint.as_slice(), due, "{line}");
    }
}

/// The option behind this one where values are judged: a new option has to be given its place here, or nothing compiles.
fn option_behind(option: Opt) -> Option<Opt> {
    match option {
        Opt::Threshold => Some(Opt::Workers),
        Opt::Workers => Some(Opt::From),
        Opt::From => Some(Opt::To),
        Opt::To => Some(Opt::Suffix),
        Opt::Suffix => Some(Opt::Cert),
        Opt::Cert => Some(Opt::Originator),
        Opt::Originator => Some(Opt::Cells),
        Opt::Cells => Some(Opt::Seed),
        Opt::Seed => Some(Opt::Objects),
        Opt::Objects => Some(Opt::Minutes),
        Opt::Minutes => Some(Opt::AsHermite3),
        Opt::AsHermite3 => Some(Opt::Sizes),
        Opt::Sizes => Some(Opt::Primaries),
        Opt::Primaries => Some(Opt::CertVersion),
        Opt::CertVersion => Some(Opt::Update),
        Opt::Update => Some(Opt::Changed),
        Opt::Changed => Some(Opt::Report),
        Opt::Report => Some(Opt::Out),
        Opt::Out => Some(Opt::CertDir),
        Opt::CertDir => Some(Opt::Rtn),
        Opt::Rtn => Some(Opt::Coverage),
        Opt::Coverage => Some(Opt::MustCover),
        Opt::MustCover => Some(Opt::Brief),
        Opt::Brief => Some(Opt::Within),
        Opt::Within => Some(Opt::Warnings),
        Opt::Warnings => Some(Opt::AllFaults),
        Opt::AllFaults => Some(Opt::Large),
        Opt::Large => None,
    }
}

/// The command behind this one; the same of a new command.
fn verb_behind(verb: Verb) -> Option<Verb> {
    match verb {
        Verb::Screen => Some(Verb::Check),
        Verb::Check => Some(Verb::Generate),
        Verb::Generate => Some(Verb::Selfrun),
        Verb::Selfrun => Some(Verb::Rewrite),
        Verb::Rewrite => Some(Verb::Thin),
        Verb::Thin => Some(Verb::Rescreen),
        Verb::Rescreen => None,
    }
}

#[test]
fn no_option_and_no_command_is_left_out(rt: HostRuntime) {
    let mut due = Some(Opt::Threshold);
    for option in &OPTIONS {
        assert_eq!(rt; due, Some(*option));
        due = option_behind(*option);
    }
    assert_eq!(rt; due, None);
    let mut due = Some(Verb::Screen);
    for verb in &VERBS {
        assert_eq!(rt; due, Some(*verb));
        due = verb_behind(*verb);
    }
    assert_eq!(rt; due, None);
}

const NOTICES: [(&str, Option<Notice>); 22] = [
    ("--help", Some(Notice::Help)),
    ("-h", Some(Notice::Help)),
    ("--version", Some(Notice::Version)),
    ("--explain", Some(Notice::Causes)),
    ("screen --help", Some(Notice::CommandHelp(Verb::Screen))),
    ("check -h", Some(Notice::CommandHelp(Verb::Check))),
    ("generate --help", Some(Notice::CommandHelp(Verb::Generate))),
    ("selfrun -h", Some(Notice::CommandHelp(Verb::Selfrun))),
    ("rewrite --help", Some(Notice::CommandHelp(Verb::Rewrite))),
    ("rewrite --version", Some(Notice::Version)),
    ("thin --help", Some(Notice::CommandHelp(Verb::Thin))),
    ("rescreen --help", Some(Notice::CommandHelp(Verb::Rescreen))),
    ("--explain Words", Some(Notice::Explanation(Cause::Words))),
    ("--explain words", Some(Notice::NoCause)),
    ("--explain --help", Some(Notice::NoCause)),
    ("--explain Epoch Form", None),
    ("--help screen", None),
    ("screen . --help", None),
    ("screen --help .", None),
    ("--help --help", None),
    ("fly --help", None),
    ("-v", None),
];

#[test]
fn what_is_shown_in_place_of_a_run(rt: HostRuntime) {
    for (line, due) in &NOTICES {
        let words = words(rt.alloc(), line).expect(&rt, "no fault");
        assert_eq!(rt; asked_notice(&words), *due, "{line}");
    }
    assert_eq!(rt; asked_notice(&[]), None);
}

/// How often a text has a line that begins to tell of this option.
fn entries_of(text: &[u8], option: Opt) -> usize {
    let name = option_name(option);
    text.split(|b| *b == b'\n')
        .filter(|line| match line.strip_prefix(b"  ".as_slice()) {
            Some(told) => match told.strip_prefix(name) {
                Some([next, ..]) => *next == b' ',
                _ => false,
            },
            None => false,
        })
        .count()
}

#[test]
fn the_help_of_a_command_has_its_options_alone(rt: HostRuntime) {
    let all = notice_text(rt.alloc(), Notice::Help).expect(&rt, "no fault");
    assert!(rt; is_of_lines(&all) && fits(&all));
    for option in &OPTIONS {
        assert_eq!(rt; entries_of(&all, *option), 1, "{option:?}");
    }
    for verb in &VERBS {
        let text = notice_text(rt.alloc(), Notice::CommandHelp(*verb)).expect(&rt, "no fault");
        assert!(rt; is_of_lines(&text) && fits(&text), "{verb:?}");
        for option in &OPTIONS {
            let due = if is_known(option_name(*option), *verb) {
                1
            } else {
                0
            };
            assert_eq!(rt; entries_of(&text, *option), due, "{verb:?} {option:?}");
        }
    }
}

const GENERATE_HELP: &[u8] = b"\
Usage: conj generate DIR [OPTIONS]

generate writes a made-up catalogue into DIR, which has to be there, one
ephemeris for each object.

Options, in any order, each at most once:
  --out NEW           the directory that is made for the results, which are
                      there together or not at all; nothing may have its name
                      yet (default: they are put into DIR, in place of those
                      of an earlier run)
  --seed N            what the objects are drawn from (default 1)
  --objects N         how many objects, 1 to 2000 (default 50)
  --minutes N         how many minutes they cover, 1 to 1440 (default 120)
";

const THIN_HELP: &[u8] = b"\
Usage: conj thin DIR [OPTIONS]

thin writes each ephemeris of DIR with fewer nodes, a.oem as DIR/a.oem.thin.
At each microsecond the object has a place where it had one, and that is
within a stated length of where it was. It prints the numbers of files, of
nodes read and of nodes kept.

Options, in any order, each at most once:
  --suffix TEXT       how names of ephemerides end, 1 to 20 bytes (default
                      .oem)
  --as-hermite3       take a file that declares another interpolation, or
                      none, by the cubic through its nodes: the result is of
                      these cubics, not of the curves that the files mean
  --out NEW           the directory that is made for the results, which are
                      there together or not at all; nothing may have its name
                      yet (default: they are put into DIR, in place of those
                      of an earlier run)
  --within METRES     how far an object may be from where it was, 1 to 1000
                      (default 1)
";

#[test]
fn the_help_of_a_command_and_the_version_as_they_are_shown(rt: HostRuntime) {
    for (verb, help) in [(Verb::Generate, GENERATE_HELP), (Verb::Thin, THIN_HELP)] {
        let text = notice_text(rt.alloc(), Notice::CommandHelp(verb)).expect(&rt, "no fault");
        assert_eq!(rt; text.as_slice(), help);
    }
    let text = notice_text(rt.alloc(), Notice::Version).expect(&rt, "no fault");
    assert!(rt; text.starts_with(b"conj 0.1.0\n"));
    for name in [
        b"502.0-B-2".as_slice(),
        b"508.0-B-1".as_slice(),
        b"KVN".as_slice(),
        b"CONJ-CERT 1, 2 and 3".as_slice(),
        b"CONJ-REPORT 1".as_slice(),
        b"CONJ-CHANGED 1".as_slice(),
    ] {
        assert!(rt; has(&text, name));
    }
}
