//! Folders that are screened again, where some files are updates of others.
ghost use Rattle.std.specs.Prelude.{◌≡◌, ◌≤◌, length, true};

use crate::runs::{are_named, file, is_told, output_of, run_at, told};
use crate::scenes::{COVARIANCE, Content, GCRF, Scene, files_of};
use cj_base::Tick;
use cj_io::FileBytes;
use std::alloc::{AllocError, Global};
use std::panic::Expect;
use std::sync::Wait;
use std::thread::Threads;

const MINUTE: &str = "--from 2025-01-01T00:00:00 --to 2025-01-01T00:01:00";

const A: Content = Content::Minute("7000 -225 0 0 7.5 0", "7000 225 0 0 7.5 0", &[]);

const B: Content = Content::Minute("7001 0 -225 0 0 7.5", "7001 0 225 0 0 7.5", &[]);

/// Another orbit of the second object, which the first meets too.
const B_MOVED: Content = Content::Minute("7002 0 -225 0 0 7.5", "7002 0 225 0 0 7.5", &[]);

/// A third object, which meets both others.
const C: Content = Content::Minute("7003 0 225 0 0 -7.5", "7003 0 -225 0 0 -7.5", &[]);

/// An object that meets none.
const FAR: Content = Content::Rest("42164 0 0");

const EMPTY: Content = Content::Text("");

const A_COVERED: Content = Content::Covered(
    "7000 -225 0 0 7.5 0",
    "7000 225 0 0 7.5 0",
    &[],
    COVARIANCE,
);

const A_NAMED: Content = Content::Minute(
    "7000 -225 0 0 7.5 0",
    "7000 225 0 0 7.5 0",
    &[(5, b"OBJECT_NAME = ANOTHER")],
);

/// The same orbit of an object of which the file of sizes tells nothing.
const A_UNSIZED: Content = Content::Minute(
    "7000 -225 0 0 7.5 0",
    "7000 225 0 0 7.5 0",
    &[(6, b"OBJECT_ID = 2024-009Z")],
);

const SIZES: Content = Content::Text("2025-001A 1.5\n");

/// The primary is the object of another designator than the others.
const FLEET: Content = Content::Text("2024-009Z\n");

/// A folder with updates, the updated folder, options of both, and how many pairs are kept and unchanged.
#[derive(Clone, Copy)]
struct Case {
    folder: Scene,
    updated: Scene,
    options: &'static str,
    kept: u64,
}

/// The crossing, and an object that meets neither.
const WITH_THIRD: Scene = &[("a.oem", A), ("b.oem", B), ("c.oem.new", FAR)];

const ADDED: Case = Case {
    folder: WITH_THIRD,
    updated: &[("a.oem", A), ("b.oem", B), ("c.oem", FAR)],
    options: "",
    kept: 1,
};

const CASES: [Case; 18] = [
    ADDED,
    // One is taken away.
    Case {
        folder: &[("a.oem", A), ("b.oem", B), ("b.oem.new", EMPTY)],
        updated: &[("a.oem", A)],
        options: "",
        kept: 0,
    },
    // One is replaced.
    Case {
        folder: &[
            ("a.oem", A),
            ("b.oem", B),
            ("b.oem.new", B_MOVED),
            ("c.oem", C),
        ],
        updated: &[("a.oem", A), ("b.oem", B_MOVED), ("c.oem", C)],
        options: "",
        kept: 1,
    },
    // One is added that meets the others.
    Case {
        folder: &[("a.oem", A), ("b.oem", B), ("c.oem.new", C)],
        updated: &[("a.oem", A), ("b.oem", B), ("c.oem", C)],
        options: "",
        kept: 1,
    },
    // One is added, one replaced, one taken away.
    Case {
        folder: &[
            ("a.oem", A),
            ("a0.oem.new", C),
            ("b.oem", B),
            ("b.oem.new", B_MOVED),
            ("c.oem", C),
            ("c.oem.new", EMPTY),
            ("d.oem", B),
        ],
        updated: &[
            ("a.oem", A),
            ("a0.oem", C),
            ("b.oem", B_MOVED),
            ("d.oem", B),
        ],
        options: "",
        kept: 1,
    },
    // Nothing changes: there is no update, or one that says the same.
    Case {
        folder: &[("a.oem", A), ("b.oem", B), ("c.oem", C)],
        updated: &[("a.oem", A), ("b.oem", B), ("c.oem", C)],
        options: "",
        kept: 3,
    },
    Case {
        folder: &[("a.oem", A), ("b.oem", B), ("b.oem.new", B), ("c.oem", C)],
        updated: &[("a.oem", A), ("b.oem", B), ("c.oem", C)],
        options: "",
        kept: 3,
    },
    // A covariance alone, a name alone, a size alone.
    Case {
        folder: &[
            ("a.oem", A),
            ("a.oem.new", A_COVERED),
            ("b.oem", B),
            ("c.oem", C),
        ],
        updated: &[("a.oem", A_COVERED), ("b.oem", B), ("c.oem", C)],
        options: "",
        kept: 1,
    },
    Case {
        folder: &[
            ("a.oem", A),
            ("a.oem.new", A_NAMED),
            ("b.oem", B),
            ("c.oem", C),
        ],
        updated: &[("a.oem", A_NAMED), ("b.oem", B), ("c.oem", C)],
        options: "",
        kept: 1,
    },
    Case {
        folder: &[
            ("a.oem", A),
            ("a.oem.new", A_UNSIZED),
            ("b.oem", B),
            ("c.oem", C),
            ("sizes.txt", SIZES),
        ],
        updated: &[
            ("a.oem", A_UNSIZED),
            ("b.oem", B),
            ("c.oem", C),
            ("sizes.txt", SIZES),
        ],
        options: " --sizes sizes.txt",
        kept: 1,
    },
    // A file of sizes is no update, though it is named like one.
    Case {
        folder: &[("a.oem", A), ("b.oem", B), ("b.oem.new", SIZES)],
        updated: &[("a.oem", A), ("b.oem", B), ("b.oem.new", SIZES)],
        options: " --sizes b.oem.new",
        kept: 1,
    },
    // Pairs with a primary alone are kept.
    Case {
        folder: &[
            ("a.oem", A_UNSIZED),
            ("b.oem", B),
            ("c.oem", C),
            ("fleet.txt", FLEET),
        ],
        updated: &[
            ("a.oem", A_UNSIZED),
            ("b.oem", B),
            ("c.oem", C),
            ("fleet.txt", FLEET),
        ],
        options: " --primaries fleet.txt",
        kept: 2,
    },
    Case {
        folder: &[
            ("a.oem", A_UNSIZED),
            ("b.oem", B),
            ("b.oem.new", B_MOVED),
            ("c.oem", C),
            ("c.oem~", FLEET),
        ],
        updated: &[
            ("a.oem", A_UNSIZED),
            ("b.oem", B_MOVED),
            ("c.oem", C),
            ("c.oem~", FLEET),
        ],
        options: " --primaries c.oem~",
        kept: 1,
    },
    // Of several updates of a name the last counts; of several files of a name the first is updated.
    Case {
        folder: &[
            ("a.oem", A),
            ("b.oem", B),
            ("b.oem.new", C),
            ("b.oem.new", B_MOVED),
        ],
        updated: &[("a.oem", A), ("b.oem", B_MOVED)],
        options: "",
        kept: 0,
    },
    Case {
        folder: &[("a.oem", A), ("a.oem", B), ("a.oem.new", C)],
        updated: &[("a.oem", C), ("a.oem", B)],
        options: "",
        kept: 0,
    },
    Case {
        folder: &[("a.oem", A), ("a.oem", B), ("a.oem.new", EMPTY)],
        updated: &[("a.oem", B)],
        options: "",
        kept: 0,
    },
    // Whatever the folder holds, it may be updates alone.
    Case {
        folder: &[("a.oem.new", A), ("b.oem.new", B)],
        updated: &[("a.oem", A), ("b.oem", B)],
        options: " --cert-version 2",
        kept: 0,
    },
    Case {
        folder: &[],
        updated: &[],
        options: "",
        kept: 0,
    },
];

/// What a command puts, where it ends well.
fn outputs_of<R: Threads + Wait + Sync>(
    rt: &R,
    alloc: Global,
    command: &str,
    case: &Case,
    more: &str,
    scene: Scene,
) -> Result<Vec<FileBytes>, AllocError> {
    let options = case.options;
    let line = format!(in alloc; "{command} . {MINUTE}{options}{more}")?;
    let (end, shelf) = run_at(
        rt,
        alloc,
        line.as_str(),
        files_of(alloc, scene)?,
        Tick::FIRST,
    )?;
    let mut outputs = Vec::new(alloc);
    if end.number == 0 {
        for output in shelf.written() {
            outputs.push(file(alloc, output.name.as_slice(), output.bytes.as_slice())?)?;
        }
    }
    Ok(outputs)
}

/// Whether these are the outputs of a screening, and behind the summary the number of pairs that are kept and unchanged.
fn are_screened(
    alloc: Global,
    outputs: &[FileBytes],
    screened: &[FileBytes],
    kept: u64,
) -> Result<bool, AllocError> {
    let line = format!(in alloc; "KEPT {kept}\n")?;
    let mut summary = Vec::from_slice(alloc, output_of(screened, b"-"))?;
    summary.extend_from_slice(line.as_bytes())?;
    let others = screened.len().saturating_sub(1);
    Ok(
        !screened.is_empty()
            && outputs.len() == screened.len()
            && outputs.iter().zip(screened).take(others).all(|(output, other)| {
                output.name == other.name && output.bytes == other.bytes
            })
            && output_of(outputs, b"-") == summary.as_slice(),
    )
}

/// The place of the first case that so many workers do not screen again as the updated folder is screened.
fn first_other<R: Threads + Wait + Sync>(
    rt: &R,
    alloc: Global,
    workers: &str,
) -> Result<Option<usize>, AllocError> {
    for (place, case) in CASES.iter().enumerate() {
        let screened = outputs_of(rt, alloc, "screen", case, "", case.updated)?;
        let outputs = outputs_of(rt, alloc, "rescreen", case, workers, case.folder)?;
        if !are_screened(alloc, &outputs, &screened, case.kept)? {
            return Ok(Some(place));
        }
    }
    Ok(None)
}

#[test]
fn what_is_put_is_that_of_the_updated_files(rt: HostRuntime) {
    let alloc = rt.alloc();
    assert_eq!(rt; first_other(&rt, alloc, "").expect(&rt, "no fault"), None);
}

#[test]
fn several_workers_put_the_same(rt: HostRuntime) {
    let alloc = rt.alloc();
    assert_eq!(rt;
        first_other(&rt, alloc, " --workers 4").expect(&rt, "no fault"),
        None
    );
}

/// What `rescreen` of a folder with these further options tells.
fn told_again<R: Threads + Wait + Sync>(
    rt: &R,
    alloc: Global,
    scene: Scene,
    options: &str,
) -> Result<Vec<u8>, AllocError> {
    let line = format!(in alloc; "rescreen . {MINUTE}{options}")?;
    told(rt, alloc, line.as_str(), files_of(alloc, scene)?)
}

#[test]
fn summaries_of_added_and_removed_files(rt: HostRuntime) {
    let alloc = rt.alloc();
    let added = told_again(&rt, alloc, ADDED.folder, "").expect(&rt, "no fault");
    assert_eq!(rt;
        added.as_slice(),
        b"OBJECTS 3
PAIRS 3
PARTED 2
TOUCHING 1
ROOTS 1
SPLITS 48
LEAVES 49
FAR 22
NEAR 27
UNDECIDED 0
ENCOUNTERS 1
MESSAGES 0
KEPT 1
"
            .as_slice()
    );
    let removed = told_again(&rt, alloc, CASES[1].folder, "").expect(&rt, "no fault");
    assert_eq!(rt;
        removed.as_slice(),
        b"OBJECTS 1
PAIRS 0
PARTED 0
TOUCHING 0
ROOTS 0
SPLITS 0
LEAVES 0
FAR 0
NEAR 0
UNDECIDED 0
ENCOUNTERS 0
MESSAGES 0
KEPT 0
"
            .as_slice()
    );
}

/// A folder, options, and what is told.
type Refusal = (Scene, &'static str, &'static [u8]);

const BAD: Content = Content::One(&[(15, b"2025-01-01T00:00:00 7000 X 0 0 0 0")]);

const BAD_SIZES: Content = Content::Text("no size at all\n");

const REFUSALS: [Refusal; 8] = [
    // The leaves of the base files are limited, and those of the updated files.
    (WITH_THIRD, " --cells 48", b"conj: limit: Cells 48\n"),
    (
        &[("a.oem", A), ("b.oem", B), ("b.oem.new", EMPTY)],
        " --cells 48",
        b"conj: limit: Cells 48\n",
    ),
    (
        &[("a.oem", A), ("b.oem.new", B)],
        " --cells 48",
        b"conj: limit: Cells 48\n",
    ),
    // A base file before an update, this before the file of sizes; an update is told under its own name.
    (
        &[
            ("a.oem", BAD),
            ("b.oem", B),
            ("b.oem.new", BAD),
            ("s.txt", BAD_SIZES),
        ],
        " --sizes s.txt",
        b"conj: a.oem: line 15: Number\n",
    ),
    (
        &[
            ("a.oem", A),
            ("b.oem", B),
            ("b.oem.new", BAD),
            ("s.txt", BAD_SIZES),
        ],
        " --sizes s.txt",
        b"conj: b.oem.new: line 15: Number\n",
    ),
    // One that does not count is not read.
    (
        &[("a.oem", A), ("b.oem.new", BAD), ("b.oem.new", EMPTY)],
        " --cells 1",
        b"OBJECTS 1
PAIRS 0
PARTED 0
TOUCHING 0
ROOTS 0
SPLITS 0
LEAVES 0
FAR 0
NEAR 0
UNDECIDED 0
ENCOUNTERS 0
MESSAGES 0
KEPT 0
",
    ),
    // The frame is that of the first file, though an update replaces it.
    (
        &[
            ("a.oem", A),
            (
                "a.oem.new",
                Content::Minute("7000 -225 0 0 7.5 0", "7000 225 0 0 7.5 0", &[GCRF]),
            ),
        ],
        "",
        b"conj: a.oem.new: line 0: MixedFrames\n",
    ),
    // No leaf is new.
    (
        &[("a.oem", A), ("b.oem", B)],
        " --changed --cells 1",
        b"OBJECTS 2\nENCOUNTERS 0\nKEPT 1\n",
    ),
];

/// The place of the first refusal that is told otherwise.
fn first_told<R: Threads + Wait + Sync>(
    rt: &R,
    alloc: Global,
) -> Result<Option<usize>, AllocError> {
    for (place, (scene, options, due)) in REFUSALS.iter().enumerate() {
        let told = told_again(rt, alloc, scene, options)?;
        if told.as_slice() != *due {
            return Ok(Some(place));
        }
    }
    Ok(None)
}

#[test]
fn causes_come_in_order(rt: HostRuntime) {
    let alloc = rt.alloc();
    assert_eq!(rt; first_told(&rt, alloc).expect(&rt, "no fault"), None);
}

/// The files of a folder, and behind them what `rescreen` puts of it.
fn with_outputs<R: Threads + Wait + Sync>(
    rt: &R,
    alloc: Global,
    case: &Case,
) -> Result<Vec<FileBytes>, AllocError> {
    let mut files = files_of(alloc, case.folder)?;
    for output in outputs_of(rt, alloc, "rescreen", case, "", case.folder)? {
        files.push(output)?;
    }
    Ok(files)
}

#[test]
fn what_is_put_is_accepted_where_it_lies(rt: HostRuntime) {
    let alloc = rt.alloc();
    let line = format!(in alloc; "check . {MINUTE} --update .new --report screen.report").expect(
        &rt, "no fault",
    );
    let base = format!(in alloc; "check . {MINUTE}").expect(&rt, "no fault");
    for case in [&CASES[2], &CASES[3], &CASES[4]] {
        let files = with_outputs(&rt, alloc, case).expect(&rt, "no fault");
        let accepted = is_told(&rt, alloc, line.as_str(), files, b"ACCEPTED\n");
        assert!(rt; accepted.expect(&rt, "no fault"));
        let files = with_outputs(&rt, alloc, case).expect(&rt, "no fault");
        let other = is_told(&rt, alloc, base.as_str(), files, b"ACCEPTED\n");
        assert!(rt; !other.expect(&rt, "no fault"));
    }
}

/// The report of changed pairs of files with these names, with these encounters.
fn changed_report(alloc: Global, files: [&str; 3], spans: &str) -> Result<Vec<u8>, AllocError> {
    let mut text = Vec::from_slice(
        alloc,
        b"CONJ-CHANGED 1
WINDOW 2025-01-01T00:00:00.000000 2025-01-01T00:01:00.000000
THRESHOLD 5000000000000
",
    )?;
    for (place, name) in files.iter().enumerate() {
        let number = place + 1;
        let object = format!(in alloc; "OBJECT {number}\nFILE {name}\nID 2025-001A\nNAME SAT A\n")?;
        text.extend_from_slice(object.as_bytes())?;
    }
    text.extend_from_slice(spans.as_bytes())?;
    text.extend_from_slice(b"END\n")?;
    Ok(text)
}

/// What stands in a report behind its objects.
fn encounters_in(report: &[u8]) -> &[u8] {
    let front = b"ENCOUNTER ";
    match report
        .windows(front.len())
        .position(|part| part == front.as_slice())
    {
        Some(at) => &report[at..],
        None => b"END\n",
    }
}

/// Whether a line begins so.
fn begins(line: &[u8], front: &[u8]) -> bool
    ensures { result ≡ true → length front.now ≤ length line.now }
{
    line.len() >= front.len() && &line[..front.len()] == front
}

/// Of the encounters of a report those of other pairs than the first two objects, with their numbers one less.
fn without_first_pair(alloc: Global, encounters: &[u8]) -> Result<Vec<u8>, AllocError> {
    let mut text = Vec::new(alloc);
    let mut wanted = true;
    for line in encounters.split_inclusive(|byte| *byte == b'\n') {
        if begins(line, b"ENCOUNTER ") {
            wanted = !begins(line, b"ENCOUNTER 1 1 2 ");
        }
        if begins(line, b"ENCOUNTER 2 ") {
            text.extend_from_slice(b"ENCOUNTER 1 ")?;
            text.extend_from_slice(&line[12..])?;
        } else if begins(line, b"ENCOUNTER 3 ") {
            text.extend_from_slice(b"ENCOUNTER 2 ")?;
            text.extend_from_slice(&line[12..])?;
        } else if wanted || begins(line, b"END") {
            text.extend_from_slice(line)?;
        }
    }
    Ok(text)
}

#[test]
fn the_pairs_that_changed_are_told_alone(rt: HostRuntime) {
    let alloc = rt.alloc();
    let case = &CASES[3];
    let whole = outputs_of(&rt, alloc, "screen", case, "", case.updated).expect(&rt, "no fault");
    let report = output_of(&whole, b"screen.report");
    for workers in ["", " --workers 4"] {
        let options = format!(in alloc; " --changed{workers}").expect(&rt, "no fault");
        let outputs = outputs_of(
            &rt,
            alloc,
            "rescreen",
            case,
            options.as_str(),
            case.folder,
        ).expect(&rt, "no fault");
        assert!(rt; are_named(&outputs, &["changed.report", "-"]));
        assert_eq!(rt;
            output_of(&outputs, b"-"),
            b"OBJECTS 3\nENCOUNTERS 2\nKEPT 1\n".as_slice()
        );
        let changed = output_of(&outputs, b"changed.report");
        let due = without_first_pair(alloc, encounters_in(report)).expect(&rt, "no fault");
        assert_eq!(rt; encounters_in(changed), due.as_slice());
    }
}

#[test]
fn the_report_of_changed_pairs_has_a_title_of_its_own(rt: HostRuntime) {
    let alloc = rt.alloc();
    let outputs = outputs_of(&rt, alloc, "rescreen", &ADDED, " --changed", ADDED.folder).expect(
        &rt, "no fault",
    );
    let due = changed_report(alloc, ["a.oem", "b.oem", "c.oem"], "").expect(&rt, "no fault");
    assert_eq!(rt; output_of(&outputs, b"changed.report"), due.as_slice());
    assert_eq!(rt;
        output_of(&outputs, b"-"),
        b"OBJECTS 3\nENCOUNTERS 0\nKEPT 1\n".as_slice()
    );
}
