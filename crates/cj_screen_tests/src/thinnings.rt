//! Files that are put with fewer nodes.
use crate::catalogues::{files_of as copies_of, made_by};
use crate::failures::is_front;
use crate::runs::{end_failing, file, is_told, output_of, run_at, told};
use crate::scenes::{
    Change, Content, GCRF, OF_DEGREE_SEVEN, OF_ONE_ELEMENT, Scene, base_text, copies, files_of,
};
use cj_base::{Limits, Tick};
use cj_inputs::read_alone;
use cj_io::{CalmFolder, CalmShelf, FileBytes, MemShelf, OpenGate};
use cj_samples::{HEAD, append_lines};
use cj_status::fault_text;
use cj_words::Thinning;
use std::alloc::{AllocError, Global};
use std::panic::Expect;
use std::sync::Wait;
use std::thread::Threads;

/// The first of the two tracks that cross, with a node in the middle.
const ON_A_LINE: Content = Content::Nodes(
    &[],
    "2025-01-01T00:00:00 7000 -225 0 0 7.5 0
2025-01-01T00:00:30 7000 0 0 0 7.5 0
2025-01-01T00:01:00 7000 225 0 0 7.5 0
",
);

/// The second.
const ACROSS: Content = Content::Minute("7001 0 -225 0 0 7.5", "7001 0 225 0 0 7.5", &[]);

const ON_A_LINE_THIN: &str = "CCSDS_OEM_VERS = 2.0
CREATION_DATE = 1972-01-01T00:00:00.000000
ORIGINATOR = CONJ
META_START
OBJECT_NAME = SAT A
OBJECT_ID = 2025-001A
CENTER_NAME = EARTH
REF_FRAME = EME2000
TIME_SYSTEM = UTC
START_TIME = 2025-01-01T00:00:00.000000
STOP_TIME = 2025-01-01T00:01:00.000000
INTERPOLATION = HERMITE
INTERPOLATION_DEGREE = 3
META_STOP
2025-01-01T00:00:00.000000 7000.000000000000 -225.000000000000 0.000000000000 0.000000000000 7.500000000000 0.000000000000
2025-01-01T00:01:00.000000 7000.000000000000 225.000000000000 0.000000000000 0.000000000000 7.500000000000 0.000000000000
";

/// At rest, two metres away in the middle.
const AWAY: Content = Content::Nodes(
    &[],
    "2025-01-01T00:00:00 7000 0 0 0 0 0
2025-01-01T00:00:30 7000.002 0 0 0 0 0
2025-01-01T00:01:00 7000 0 0 0 0 0
",
);

const AWAY_WHOLE: &str = "CCSDS_OEM_VERS = 2.0
CREATION_DATE = 1972-01-01T00:00:00.000000
ORIGINATOR = CONJ
META_START
OBJECT_NAME = SAT A
OBJECT_ID = 2025-001A
CENTER_NAME = EARTH
REF_FRAME = EME2000
TIME_SYSTEM = UTC
START_TIME = 2025-01-01T00:00:00.000000
STOP_TIME = 2025-01-01T00:01:00.000000
INTERPOLATION = HERMITE
INTERPOLATION_DEGREE = 3
META_STOP
2025-01-01T00:00:00.000000 7000.000000000000 0.000000000000 0.000000000000 0.000000000000 0.000000000000 0.000000000000
2025-01-01T00:00:30.000000 7000.002000000000 0.000000000000 0.000000000000 0.000000000000 0.000000000000 0.000000000000
2025-01-01T00:01:00.000000 7000.000000000000 0.000000000000 0.000000000000 0.000000000000 0.000000000000 0.000000000000
";

const AT_REST: &str = "CCSDS_OEM_VERS = 2.0
CREATION_DATE = 1972-01-01T00:00:00.000000
ORIGINATOR = CONJ
META_START
OBJECT_NAME = SAT A
OBJECT_ID = 2025-001A
CENTER_NAME = EARTH
REF_FRAME = EME2000
TIME_SYSTEM = UTC
START_TIME = 2025-01-01T00:00:00.000000
STOP_TIME = 2025-01-01T00:01:00.000000
INTERPOLATION = HERMITE
INTERPOLATION_DEGREE = 3
META_STOP
2025-01-01T00:00:00.000000 7000.000000000000 0.000000000000 0.000000000000 0.000000000000 0.000000000000 0.000000000000
2025-01-01T00:01:00.000000 7000.000000000000 0.000000000000 0.000000000000 0.000000000000 0.000000000000 0.000000000000
";

/// At rest in the other frame, useable for a part of the minute, with a covariance.
const COVERED_IN_GCRF: Content = Content::Covered(
    "7001 0 0 0 0 0",
    "7001 0 0 0 0 0",
    &[
        (5, b"OBJECT_NAME = SAT B"),
        (6, b"OBJECT_ID = 2025-002A"),
        GCRF,
        (
            11,
            b"STOP_TIME = 2025-01-01T00:01:00\nUSEABLE_START_TIME = 2025-01-01T00:00:10\nUSEABLE_STOP_TIME = 2025-01-01T00:00:30",
        ),
    ],
    OF_ONE_ELEMENT,
);

const COVERED_IN_GCRF_THIN: &str = "CCSDS_OEM_VERS = 2.0
CREATION_DATE = 1972-01-01T00:00:00.000000
ORIGINATOR = CONJ
META_START
OBJECT_NAME = SAT B
OBJECT_ID = 2025-002A
CENTER_NAME = EARTH
REF_FRAME = GCRF
TIME_SYSTEM = UTC
START_TIME = 2025-01-01T00:00:10.000000
STOP_TIME = 2025-01-01T00:00:30.000000
INTERPOLATION = HERMITE
INTERPOLATION_DEGREE = 3
META_STOP
2025-01-01T00:00:00.000000 7001.000000000000 0.000000000000 0.000000000000 0.000000000000 0.000000000000 0.000000000000
2025-01-01T00:01:00.000000 7001.000000000000 0.000000000000 0.000000000000 0.000000000000 0.000000000000 0.000000000000
COVARIANCE_START
EPOCH = 2025-01-01T00:00:00.000000
COV_REF_FRAME = RTN
1.0E+00
0.0E+00 0.0E+00
0.0E+00 0.0E+00 0.0E+00
0.0E+00 0.0E+00 0.0E+00 0.0E+00
0.0E+00 0.0E+00 0.0E+00 0.0E+00 0.0E+00
0.0E+00 0.0E+00 0.0E+00 0.0E+00 0.0E+00 0.0E+00
COVARIANCE_STOP
";

/// A command line, the files, and the outputs that are put of them.
struct Whole {
    line: &'static str,
    scene: Scene,
    outputs: &'static [(&'static str, &'static str)],
}

const WHOLE: [Whole; 6] = [
    Whole {
        line: "thin .",
        scene: &[("a.oem", ON_A_LINE)],
        outputs: &[("a.oem.thin", ON_A_LINE_THIN), ("-", "THINNED 1 3 2\n")],
    },
    Whole {
        line: "thin . --within 1",
        scene: &[("a.oem", AWAY)],
        outputs: &[("a.oem.thin", AWAY_WHOLE), ("-", "THINNED 1 3 3\n")],
    },
    Whole {
        line: "thin . --within 3",
        scene: &[("a.oem", AWAY)],
        outputs: &[("a.oem.thin", AT_REST), ("-", "THINNED 1 3 2\n")],
    },
    // In byte order of names, of two frames; another file is not taken.
    Whole {
        line: "thin . --within=3",
        scene: &[
            ("b.oem", COVERED_IN_GCRF),
            ("a.oem.thin", Content::Text("no ephemeris\n")),
            ("a.oem", AWAY),
        ],
        outputs: &[
            ("a.oem.thin", AT_REST),
            ("b.oem.thin", COVERED_IN_GCRF_THIN),
            ("-", "THINNED 2 5 4\n"),
        ],
    },
    Whole {
        line: "thin . --suffix .sat",
        scene: &[("a.sat", ON_A_LINE), ("a.oem", AWAY)],
        outputs: &[("a.sat.thin", ON_A_LINE_THIN), ("-", "THINNED 1 3 2\n")],
    },
    Whole {
        line: "thin .",
        scene: &[],
        outputs: &[("-", "THINNED 0 0 0\n")],
    },
];

/// Whether just these are the outputs.
fn are_outputs(outputs: &[FileBytes], due: &[(&str, &str)]) -> bool {
    outputs.len() == due.len()
        && outputs.iter().zip(due).all(|(output, (name, bytes))| {
            output.name.as_slice() == name.as_bytes() && output.bytes.as_slice() == bytes.as_bytes()
        })
}

/// The place of the first command line that puts something else.
fn first_other<R: Threads + Wait + Sync>(
    rt: &R,
    alloc: Global,
    cases: &[Whole],
) -> Result<Option<usize>, AllocError> {
    for (place, case) in cases.iter().enumerate() {
        let files = files_of(alloc, case.scene)?;
        let (end, shelf) = run_at(rt, alloc, case.line, files, Tick::FIRST)?;
        if end.number != 0 || !are_outputs(shelf.written(), case.outputs) {
            return Ok(Some(place));
        }
    }
    Ok(None)
}

#[test]
fn each_file_is_put_with_fewer_nodes_and_then_they_are_counted(rt: HostRuntime) {
    assert_eq!(rt;
        first_other(&rt, rt.alloc(), WHOLE.as_slice()).expect(&rt, "no fault"),
        None
    );
}

/// In one place, with half a metre a second in the middle: 2.2 m away between the nodes, and at each node not at all.
const IN_PASSING: Content = Content::Nodes(
    &[],
    "2025-01-01T00:00:00 7000 0 0 0 0 0
2025-01-01T00:00:30 7000 0 0 0 0.0005 0
2025-01-01T00:01:00 7000 0 0 0 0 0
",
);

/// 0.9 m to one side and then to the other: a step over both stands for them, and one over the first does not.
const TO_BOTH_SIDES: Content = Content::Nodes(
    &[],
    "2025-01-01T00:00:00 7000 0 0 0 0 0
2025-01-01T00:00:20 7000 -0.0009 0 0 0 0
2025-01-01T00:00:40 7000 0.0009 0 0 0 0
2025-01-01T00:01:00 7000 0 0 0 0 0
",
);

/// A metre away in the middle, and a nanometre more.
const A_METRE: Content = Content::Nodes(
    &[],
    "2025-01-01T00:00:00 7000 0 0 0 0 0
2025-01-01T00:00:30 7000 0.001 0 0 0 0
2025-01-01T00:01:00 7000 0 0 0 0 0
",
);

const MORE_THAN_A_METRE: Content = Content::Nodes(
    &[],
    "2025-01-01T00:00:00 7000 0 0 0 0 0
2025-01-01T00:00:30 7000 0.001000000001 0 0 0 0
2025-01-01T00:01:00 7000 0 0 0 0 0
",
);

/// At rest for an hour, and for two seconds more.
const TO_AN_HOUR: &[Change] = &[(11, b"STOP_TIME = 2025-01-01T01:00:00")];

const AN_HOUR: Content = Content::Nodes(
    TO_AN_HOUR,
    "2025-01-01T00:00:00 7000 0 0 0 0 0
2025-01-01T00:30:00 7000 0 0 0 0 0
2025-01-01T01:00:00 7000 0 0 0 0 0
",
);

const MORE_THAN_AN_HOUR: Content = Content::Nodes(
    TO_AN_HOUR,
    "2025-01-01T00:00:00 7000 0 0 0 0 0
2025-01-01T00:30:01 7000 0 0 0 0 0
2025-01-01T01:00:02 7000 0 0 0 0 0
",
);

/// A node that is refused.
const REFUSED: Content = Content::One(&[(15, b"2025-01-01T00:00:00 7000 X 0 0 0 0")]);

/// A command line, the files, and what is told.
type Told = (&'static str, Scene, &'static [u8]);

const TOLD: [Told; 16] = [
    (
        "thin . --within 2",
        &[("a.oem", IN_PASSING)],
        b"THINNED 1 3 3\n",
    ),
    (
        "thin . --within 3",
        &[("a.oem", IN_PASSING)],
        b"THINNED 1 3 2\n",
    ),
    ("thin .", &[("a.oem", TO_BOTH_SIDES)], b"THINNED 1 4 4\n"),
    (
        "thin . --within 2",
        &[("a.oem", TO_BOTH_SIDES)],
        b"THINNED 1 4 2\n",
    ),
    (
        "thin . --within 01",
        &[("a.oem", A_METRE)],
        b"THINNED 1 3 2\n",
    ),
    (
        "thin .",
        &[("a.oem", MORE_THAN_A_METRE)],
        b"THINNED 1 3 3\n",
    ),
    (
        "thin . --within 1000",
        &[("a.oem", AN_HOUR)],
        b"THINNED 1 3 2\n",
    ),
    (
        "thin . --within 1000",
        &[("a.oem", MORE_THAN_AN_HOUR)],
        b"THINNED 1 3 3\n",
    ),
    ("thin . --as-hermite3", OF_DEGREE_SEVEN, b"THINNED 2 4 4\n"),
    (
        "thin .",
        OF_DEGREE_SEVEN,
        b"conj: a.oem: line 14: Interpolation\n",
    ),
    // The first file that is refused, by name, is told, and nothing is put.
    (
        "thin .",
        &[("c.oem", REFUSED), ("b.oem", REFUSED), ("a.oem", AWAY)],
        b"conj: b.oem: line 15: Number\n",
    ),
    (
        "thin . --within 0",
        &[("a.oem", AWAY)],
        b"conj: usage: Value --within\n",
    ),
    (
        "thin . --within 1001",
        &[("a.oem", AWAY)],
        b"conj: usage: Value --within\n",
    ),
    (
        "thin . --threshold 5",
        &[("a.oem", AWAY)],
        b"conj: usage: Words\n",
    ),
    (
        "thin . --sizes x",
        &[("a.oem", AWAY)],
        b"conj: usage: Words\n",
    ),
    ("thin . --rtn", &[("a.oem", AWAY)], b"conj: usage: Words\n"),
];

/// The place of the first command line of which something else is told.
fn first_wrong<R: Threads + Wait + Sync>(
    rt: &R,
    alloc: Global,
    cases: &[Told],
) -> Result<Option<usize>, AllocError> {
    for (place, (line, scene, due)) in cases.iter().enumerate() {
        if !is_told(rt, alloc, line, files_of(alloc, scene)?, due)? {
            return Ok(Some(place));
        }
    }
    Ok(None)
}

#[test]
fn nodes_go_where_the_others_stand_for_them(rt: HostRuntime) {
    assert_eq!(rt;
        first_wrong(&rt, rt.alloc(), TOLD.as_slice()).expect(&rt, "no fault"),
        None
    );
}

/// A file of a node each second on a line, so many.
fn each_second(alloc: Global, count: u8) -> Result<Vec<FileBytes>, AllocError> {
    let mut text = Vec::new(alloc);
    append_lines(&mut text, 0, HEAD.as_slice(), &[])?;
    for second in 0..count {
        let (minute, rest) = (second / 60, second % 60);
        let (tens, ones) = (rest / 10, rest % 10);
        let line = format!(in alloc;
            "2025-01-01T00:0{minute}:{tens}{ones} 7000 {second} 0 0 1 0\n"
        )?;
        text.extend_from_slice(line.as_bytes())?;
    }
    let mut files = Vec::new(alloc);
    files.push(file(alloc, b"a.oem", &text)?)?;
    Ok(files)
}

#[test]
fn a_step_goes_over_64_pieces(rt: HostRuntime) {
    let files = each_second(rt.alloc(), 67).expect(&rt, "no fault");
    assert!(rt;
        is_told(&rt, rt.alloc(), "thin .", files, b"THINNED 1 67 3\n").expect(&rt, "no fault")
    );
}

/// Two files that are put with fewer nodes.
const BOTH: Scene = &[("a.oem", ON_A_LINE), ("b.oem", ACROSS)];

/// How a run goes to its folder: for the list, and for the bytes and the end of each of two files.
const CALLS: u64 = 5;

/// How a run ends where this call of its folder fails, and how many outputs it puts.
fn end_at_call<R: Threads + Wait + Sync>(
    rt: &R,
    alloc: Global,
    call: u64,
) -> Result<(u8, usize), AllocError> {
    let mut shelf = CalmShelf::new(alloc);
    let calls = Vec::from_array(alloc, [call])?;
    let end = end_failing(
        rt,
        alloc,
        "thin .",
        files_of(alloc, BOTH)?,
        calls,
        &mut shelf,
    )?;
    Ok((end.number, shelf.written().len()))
}

#[test]
fn nothing_is_put_where_the_folder_fails(rt: HostRuntime) {
    for call in 1..CALLS + 1 {
        let ended = end_at_call(&rt, rt.alloc(), call).expect(&rt, "no fault");
        assert_eq!(rt; ended, (4, 0));
    }
    let ended = end_at_call(&rt, rt.alloc(), CALLS + 1).expect(&rt, "no fault");
    assert_eq!(rt; ended, (0, 3));
}

/// How a run ends whose put with this number fails, and whether those before it stand whole.
fn end_at_put<R: Threads + Wait + Sync>(
    rt: &R,
    alloc: Global,
    due: &[FileBytes],
    whole: usize,
) -> Result<(u8, bool), AllocError> {
    let puts = Vec::from_array(alloc, [(whole as u64).saturating_add(1)])?;
    let mut shelf = MemShelf::new(alloc, puts);
    let files = files_of(alloc, BOTH)?;
    let end = end_failing(rt, alloc, "thin .", files, Vec::new(alloc), &mut shelf)?;
    Ok((end.number, is_front(shelf.written(), due, whole)))
}

#[test]
fn the_files_before_a_put_that_fails_stand_whole(rt: HostRuntime) {
    let alloc = rt.alloc();
    let files = files_of(alloc, BOTH).expect(&rt, "no fault");
    let (end, calm) = run_at(&rt, alloc, "thin .", files, Tick::FIRST).expect(&rt, "no fault");
    assert_eq!(rt; end.number, 0);
    for whole in 0..3 {
        let ended = end_at_put(&rt, alloc, calm.written(), whole).expect(&rt, "no fault");
        assert_eq!(rt; ended, (5, true));
    }
    let ended = end_at_put(&rt, alloc, calm.written(), 3).expect(&rt, "no fault");
    assert_eq!(rt; ended, (0, true));
}

/// What the first line of a command puts, screened by the second.
fn screened_thin<R: Threads + Wait + Sync>(
    rt: &R,
    alloc: Global,
    thin: &str,
    screen: &str,
    files: Vec<FileBytes>,
) -> Result<Vec<u8>, AllocError> {
    let (_, thinned) = run_at(rt, alloc, thin, files, Tick::FIRST)?;
    let files = copies_of(alloc, thinned.written())?;
    let (_, shelf) = run_at(rt, alloc, screen, files, Tick::FIRST)?;
    Vec::from_slice(alloc, output_of(shelf.written(), b"screen.report"))
}

#[test]
fn what_is_put_is_read_again_and_screened(rt: HostRuntime) {
    let alloc = rt.alloc();
    let files = files_of(alloc, BOTH).expect(&rt, "no fault");
    let report = screened_thin(&rt, alloc, "thin .", "screen . --suffix .thin", files).expect(
        &rt, "no fault",
    );
    assert!(rt;
        report.as_slice().ends_with(
            b"
ENCOUNTER 1 1 2 NEAR 2025-01-01T00:00:30.000000 1000000000000 NOCOV
SPAN NEAR 2025-01-01T00:00:29.538120 2025-01-01T00:00:30.461880
END
"
        )
    );
}

/// A span of an encounter of a report: its two objects, its first and its last microsecond.
#[derive(Clone, Copy)]
struct Met<'r> {
    first_object: &'r [u8],
    second_object: &'r [u8],
    first: &'r [u8],
    last: &'r [u8],
}

impl Met<'_> {
    /// Whether it is of the same objects, and has all microseconds of another.
    fn covers(&self, other: &Met<'_>) -> bool {
        let is_first = self.first_object == other.first_object;
        let is_second = self.second_object == other.second_object;
        let begins = self.first <= other.first;
        let ends = other.last <= self.last;
        is_first && is_second && begins && ends
    }
}

/// The spans of the encounters of a report.
fn spans<'r>(alloc: Global, report: &'r [u8]) -> Result<Vec<Met<'r>>, AllocError> {
    let mut met = Vec::new(alloc);
    let (mut first_object, mut second_object) = (b"".as_slice(), b"".as_slice());
    for line in report.split(|b| *b == b'\n') {
        let words: Vec<&[u8]> = line.split(|b| *b == b' ').collect(alloc)?;
        if words.len() > 3 && words[0] == b"ENCOUNTER".as_slice() {
            first_object = words[2];
            second_object = words[3];
        }
        if words.len() > 3 && words[0] == b"SPAN".as_slice() {
            met.push(Met {
                first_object,
                second_object,
                first: words[2],
                last: words[3],
            })?;
        }
    }
    Ok(met)
}

/// Whether a span stands within one of others.
fn is_covered(one: &Met<'_>, others: &[Met<'_>]) -> bool {
    for other in others {
        if other.covers(one) {
            return true;
        }
    }
    false
}

/// Whether each span of a report stands within one of another report, and there is one.
fn are_covered(alloc: Global, report: &[u8], other: &[u8]) -> Result<bool, AllocError> {
    let met = spans(alloc, report)?;
    let others = spans(alloc, other)?;
    for one in &met {
        if !is_covered(one, &others) {
            return Ok(false);
        }
    }
    Ok(!met.is_empty())
}

const CATALOGUE: &str = "generate . --seed 1 --objects 10 --minutes 20";

#[test]
fn encounters_of_a_catalogue_beyond_twice_the_length_are_found_with_fewer_nodes(rt: HostRuntime) {
    let alloc = rt.alloc();
    let files = made_by(&rt, alloc, CATALOGUE).expect(&rt, "no fault");
    let told = told(&rt, alloc, "thin . --within 10", files).expect(&rt, "no fault");
    assert!(rt; told.as_slice().starts_with(b"THINNED 10 210 "));
    assert!(rt; told.as_slice() != b"THINNED 10 210 210\n".as_slice());
    let files = made_by(&rt, alloc, CATALOGUE).expect(&rt, "no fault");
    let (_, shelf) = run_at(
        &rt,
        alloc,
        "screen . --threshold 999979",
        files,
        Tick::FIRST,
    )
    .expect(&rt, "no fault");
    let files = made_by(&rt, alloc, CATALOGUE).expect(&rt, "no fault");
    let thin = screened_thin(
        &rt,
        alloc,
        "thin . --within 10",
        "screen . --suffix .thin --threshold 1000000",
        files,
    )
    .expect(&rt, "no fault");
    let report = output_of(shelf.written(), b"screen.report");
    assert!(rt; are_covered(alloc, report, &thin).expect(&rt, "no fault"));
}

#[test]
fn the_limit_of_objects_is_told(rt: HostRuntime) {
    let alloc = rt.alloc();
    let files = copies(alloc, 2001, b"").expect(&rt, "no fault");
    assert!(rt;
        is_told(&rt, alloc, "thin .", files, b"conj: limit: Objects 2001\n").expect(&rt, "no fault")
    );
}

/// What is told of two files of two nodes each where so many objects and nodes may be, or how many nodes they have.
fn nodes_within(alloc: Global, objects: u32, nodes: u64) -> Result<Vec<u8>, AllocError> {
    let files = copies(alloc, 2, &base_text(alloc)?)?;
    if files.len() > 2 || objects > 2 || nodes > 4 {
        return Ok(Vec::new(alloc));
    }
    let limits = Limits {
        objects,
        nodes,
        object_slots: 1,
        leaves: 1,
    };
    let thinning = Thinning {
        suffix: b".oem",
        as_hermite3: false,
        within: 1,
    };
    match read_alone(
        alloc,
        &OpenGate,
        &mut CalmFolder::new(files),
        &thinning,
        limits,
    ) {
        Ok(lone) => Ok(format!(in alloc; "{}", lone.nodes)?.into_bytes()),
        Err(status) => fault_text(alloc, &status),
    }
}

#[test]
fn the_limit_of_nodes_is_told_and_may_be_reached(rt: HostRuntime) {
    for (objects, nodes, due) in [
        (2, 4, b"4".as_slice()),
        (2, 3, b"conj: limit: Nodes 4\n".as_slice()),
        (2, 1, b"conj: limit: Nodes 2\n".as_slice()),
        (1, 4, b"conj: limit: Objects 2\n".as_slice()),
    ] {
        let told = nodes_within(rt.alloc(), objects, nodes).expect(&rt, "no fault");
        assert_eq!(rt; told.as_slice(), due);
    }
}
