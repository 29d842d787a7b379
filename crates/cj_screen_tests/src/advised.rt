//! What a cause shows as refused is refused with it, and what it shows as taken is taken: certificates, reports and command lines.
use crate::certificates::RESTING;
use crate::primaries::THREE;
use crate::runs::{file, run, told};
use crate::scenes::{COVERED, CROSSING, Scene, files_of};
use cj_advice::{Advice, Cause, EVERY, FileReason, LimitCause, advice_on, cause_word};
use cj_formats::CheckCause;
use cj_io::FileBytes;
use cj_status::CertificateCause;
use std::alloc::{AllocError, Global};
use std::panic::Expect;
use std::sync::Wait;
use std::thread::Threads;

/// The files of a screening, its words, and those of a check of what it puts.
#[derive(Clone, Copy)]
struct Checked {
    scene: Scene,
    screen: &'static str,
    check: &'static str,
}

const AT_REST: Checked = Checked {
    scene: RESTING,
    screen: "screen .",
    check: "check .",
};

const IN_VERSION_2: Checked = Checked {
    screen: "screen . --cert-version 2",
    ..AT_REST
};

const BESIDE_A_REPORT: Checked = Checked {
    scene: COVERED,
    screen: "screen .",
    check: "check . --report screen.report",
};

/// Three objects at rest, the first of which is a primary.
const OF_A_FLEET: Checked = Checked {
    scene: THREE,
    screen: "screen . --primaries fleet.txt",
    check: "check . --primaries fleet.txt",
};

/// The one tick at which two crossing objects are 1 km apart, within the threshold.
const AT_THE_CROSSING: Checked = Checked {
    scene: CROSSING,
    screen: "screen . --from 2025-01-01T00:00:30 --to 2025-01-01T00:00:30",
    check: "check . --from 2025-01-01T00:00:30 --to 2025-01-01T00:00:30",
};

/// One at which they are 6.4 km apart, beyond it.
const BEFORE_THE_CROSSING: Checked = Checked {
    scene: CROSSING,
    screen: "screen . --from 2025-01-01T00:00:29.4 --to 2025-01-01T00:00:29.4",
    check: "check . --from 2025-01-01T00:00:29.4 --to 2025-01-01T00:00:29.4",
};

/// By which check a cause is shown, none where a command line shows it.
fn check_of(cause: CertificateCause) -> Option<Checked> {
    match cause {
        CertificateCause::NoFile | CertificateCause::NoReport => None,
        CertificateCause::Text(_) => Some(AT_REST),
        CertificateCause::Report => Some(BESIDE_A_REPORT),
        CertificateCause::Refused(cause) => match cause {
            CheckCause::SizeOf => Some(IN_VERSION_2),
            CheckCause::PrimaryOf => Some(OF_A_FLEET),
            CheckCause::NotNear => Some(BEFORE_THE_CROSSING),
            CheckCause::NotBand => Some(AT_THE_CROSSING),
            CheckCause::Header
            | CheckCause::ShellOf
            | CheckCause::BoxOf
            | CheckCause::Untiled
            | CheckCause::Stranger
            | CheckCause::NotFar => Some(AT_REST),
        },
    }
}

/// The text with the first place of some lines exchanged for others, and whether it has such a place.
fn exchanged(
    alloc: Global,
    text: &[u8],
    right: &[u8],
    wrong: &[u8],
) -> Result<(Vec<u8>, bool), AllocError> {
    let length = right.len().max(1);
    let Some(at) = text.windows(length).position(|part| part == right) else {
        return Ok((Vec::from_slice(alloc, text)?, false));
    };
    let end = at.saturating_add(right.len());
    let mut changed = Vec::from_slice(alloc, text.get(..at).unwrap_or(b""))?;
    changed.extend_from_slice(wrong)?;
    changed.extend_from_slice(text.get(end..).unwrap_or(b""))?;
    Ok((changed, true))
}

/// What a check tells of the outputs of a screening where what is right in one of them is exchanged for what is wrong, and empty where neither
/// has it.
fn told_of<R: Threads + Wait + Sync>(
    rt: &R,
    alloc: Global,
    checked: Checked,
    right: &[u8],
    wrong: &[u8],
) -> Result<Vec<u8>, AllocError> {
    let ran = run(rt, alloc, checked.screen, files_of(alloc, checked.scene)?)?;
    let (certificate, is_there) = exchanged(alloc, &ran.certificate, right, wrong)?;
    let (report, is_in_report) = exchanged(alloc, &ran.report, right, wrong)?;
    if !is_there && !is_in_report {
        return Ok(Vec::new(alloc));
    }
    let mut files = files_of(alloc, checked.scene)?;
    files.push(file(alloc, b"screen.cert", &certificate)?)?;
    files.push(file(alloc, b"screen.report", &report)?)?;
    told(rt, alloc, checked.check, files)
}

/// Whether a fault line ends with the words of a cause.
fn tells(alloc: Global, line: &[u8], cause: Cause) -> Result<bool, AllocError> {
    let mut end = Vec::from_slice(alloc, b": ")?;
    end.extend_from_slice(cause_word(cause))?;
    end.push(b'\n')?;
    Ok(line.ends_with(&end))
}

#[test]
fn what_is_shown_of_certificates_is_refused_with_the_cause(rt: HostRuntime) {
    let alloc = rt.alloc();
    for cause in &EVERY {
        let Cause::Certificate(of_certificate) = *cause else {
            continue;
        };
        let Some(checked) = check_of(of_certificate) else {
            continue;
        };
        let advice = advice_on(*cause);
        let right = advice.right.as_bytes();
        let line = told_of(&rt, alloc, checked, right, advice.wrong.as_bytes()).expect(
            &rt, "no fault",
        );
        assert!(rt;
            tells(alloc, &line, *cause).expect(&rt, "no fault"),
            "{cause:?}"
        );
        let line = told_of(&rt, alloc, checked, right, right).expect(&rt, "no fault");
        assert_eq!(rt; line.as_slice(), b"ACCEPTED\n".as_slice(), "{cause:?}");
    }
}

/// The words of a command line that an example shows.
fn words_of(line: &'static str) -> &'static str {
    let words = line.strip_suffix("\n").unwrap_or(line);
    words.strip_prefix("conj ").unwrap_or(words)
}

/// The resting objects with what a screening of them puts.
fn certified<R: Threads + Wait + Sync>(
    rt: &R,
    alloc: Global,
) -> Result<Vec<FileBytes>, AllocError> {
    let ran = run(rt, alloc, "screen .", files_of(alloc, RESTING)?)?;
    let mut files = files_of(alloc, RESTING)?;
    files.push(file(alloc, b"screen.cert", &ran.certificate)?)?;
    files.push(file(alloc, b"screen.report", &ran.report)?)?;
    Ok(files)
}

/// The crossing objects with a file of sizes and one of primaries.
fn sized(alloc: Global) -> Result<Vec<FileBytes>, AllocError> {
    let mut files = files_of(alloc, CROSSING)?;
    files.push(file(alloc, b"sizes.txt", b"2025-001A 1.5\n")?)?;
    files.push(file(alloc, b"fleet.txt", b"2025-001A\n")?)?;
    Ok(files)
}

/// What is told where the words of an example run over these files.
fn told_by<R: Threads + Wait + Sync>(
    rt: &R,
    alloc: Global,
    line: &'static str,
    files: Vec<FileBytes>,
) -> Result<Vec<u8>, AllocError> {
    told(rt, alloc, words_of(line), files)
}

#[test]
fn command_lines_that_are_shown_are_refused_with_the_cause(rt: HostRuntime) {
    let alloc = rt.alloc();
    for cause in [CertificateCause::NoFile, CertificateCause::NoReport] {
        let cause = Cause::Certificate(cause);
        let Advice { wrong, right, .. } = advice_on(cause);
        let files = certified(&rt, alloc).expect(&rt, "no fault");
        let line = told_by(&rt, alloc, wrong, files).expect(&rt, "no fault");
        assert!(rt;
            tells(alloc, &line, cause).expect(&rt, "no fault"),
            "{cause:?}"
        );
        let files = certified(&rt, alloc).expect(&rt, "no fault");
        let line = told_by(&rt, alloc, right, files).expect(&rt, "no fault");
        assert_eq!(rt; line.as_slice(), b"ACCEPTED\n".as_slice(), "{cause:?}");
    }
    let lines: [(Cause, &[u8]); 5] = [
        (
            Cause::File(FileReason::NoSizes),
            b"conj: radii.txt: line 0: NoSizes\n",
        ),
        (
            Cause::File(FileReason::NoPrimaries),
            b"conj: ours.txt: line 0: NoPrimaries\n",
        ),
        (Cause::Words, b"conj: usage: Words\n"),
        (Cause::Value, b"conj: usage: Value --threshold\n"),
        (Cause::Limit(LimitCause::Cells), b"conj: limit: Cells 10\n"),
    ];
    for (cause, due) in &lines {
        let Advice { wrong, right, .. } = advice_on(*cause);
        let files = sized(alloc).expect(&rt, "no fault");
        let line = told_by(&rt, alloc, wrong, files).expect(&rt, "no fault");
        assert_eq!(rt; line.as_slice(), *due, "{cause:?}");
        let files = sized(alloc).expect(&rt, "no fault");
        let line = told_by(&rt, alloc, right, files).expect(&rt, "no fault");
        assert!(rt; line.starts_with(b"OBJECTS 2\n"), "{cause:?}");
    }
    let Advice { wrong, right, .. } = advice_on(Cause::Limit(LimitCause::Window));
    let line = told_by(&rt, alloc, wrong, Vec::new(alloc)).expect(&rt, "no fault");
    assert_eq!(rt;
        line.as_slice(),
        b"conj: limit: Window 2678400000000\n".as_slice()
    );
    let line = told_by(&rt, alloc, right, Vec::new(alloc)).expect(&rt, "no fault");
    assert!(rt; line.starts_with(b"OBJECTS 0\n"));
}
