//! Whether certificates in brief are accepted, and at which line and why they are not, of objects at rest over a minute and one tick.
ghost use Rattle.std.specs.Prelude.{◌≡◌, ◌-◌, ◌^◌, ◌<◌};
ghost use Rattle.cj_brief.specs.Certificates.{line_count, plain_brief};
ghost use Rattle.cj_case.specs.Primaries.{marks_of};
ghost use Rattle.cj_samples.specs.Moments.{IsPlace};
ghost use Rattle.cj_track.specs.declared.frame.Frame.TheVariants.{Eme2000};
ghost use Rattle.cj_track.specs.Segments.{node_count};

use cj_brief::BriefCertificate;
use cj_brief_checker::check_in_brief;
use cj_case::{Primaries, Problem, Sizes, Tracks};
use cj_cert_text::read_brief;
use cj_checker::Answer;
use cj_formats::CheckCause;
use cj_samples::{problem_of, rest, seconds, track_of};
use cj_track::{Track, Vec3};
use std::alloc::Global;
use std::panic::Expect;
use std::process::Abort;
use std::thread::Threads;

/// An object at rest, so many kilometres further out than 7,000 km, and so many beside.
fn resting(rt: &impl Abort, alloc: Global, out: u8, beside: u8) -> Track
    ensures frame { result.frame ≡ Eme2000 }
    ensures nodes { node_count result.segments ≡ 2 }
{
    let segment = rest(alloc, 0, 60, place(out, beside)).expect(rt, "no fault");
    track_of(alloc, segment).expect(rt, "no fault")
}

pub fn place(out: u8, beside: u8) -> Vec3
    ensures { IsPlace result }
{
    Vec3 {
        x: (7_000 + i64::from(out)) * 1_000_000_000_000,
        y: i64::from(beside) * 1_000_000_000_000,
        z: 0,
    }
}

/// Two objects exactly the threshold of 5 km apart.
fn at_threshold(rt: &impl Abort, alloc: Global) -> Problem {
    let a = resting(rt, alloc, 0, 0);
    let b = resting(rt, alloc, 5, 0);
    problem_of(alloc, a, b).expect(rt, "no fault")
}

/// Two objects 4 km apart on each of two axes, which is more than 5 km.
fn far_and_touching(rt: &impl Abort, alloc: Global) -> Problem {
    let a = resting(rt, alloc, 0, 0);
    let b = resting(rt, alloc, 4, 4);
    problem_of(alloc, a, b).expect(rt, "no fault")
}

/// Three objects, each two of which are near.
fn three(rt: &impl Abort, alloc: Global) -> Problem {
    three_by(rt, alloc, Primaries::all())
}

/// The same, of which some are primaries.
pub fn three_by(rt: &impl Abort, alloc: Global, primaries: Primaries) -> Problem
    requires { marks_of primaries 3 ≡ 3 }
{
    let tracks = vec![in alloc;
        resting(rt, alloc, 0, 0),
        resting(rt, alloc, 1, 0),
        resting(rt, alloc, 2, 0),
    ];
    Problem {
        tracks: Tracks::new(tracks.expect(rt, "no fault")),
        window: seconds(0, 60),
        threshold: 5_000_000_000_000,
        sizes: Sizes::new(vec![in alloc; 0, 0, 0].expect(rt, "no fault")),
        primaries,
    }
}

/// Where the certificate of a text is refused, if it is, by one worker and by three. A text that is none is refused at line 0, for a box, and
/// so is one that they do not find alike.
pub fn refusal<R: Threads + Sync>(
    rt: &R,
    alloc: Global,
    problem: &Problem,
    text: &[u8],
) -> Option<(u32, CheckCause)> {
    let none = Some((0, CheckCause::BoxOf));
    if 10_000 < text.len() {
        return none;
    }
    let Ok(cert) = read_brief(alloc, text) else {
        return none;
    };
    let alone = refusal_by(rt, alloc, problem, &cert, 1);
    let shared = refusal_by(rt, alloc, problem, &cert, 3);
    if alone == shared { alone } else { none }
}

/// The same of a certificate, by so many workers.
fn refusal_by<R: Threads + Sync>(
    rt: &R,
    alloc: Global,
    problem: &Problem,
    cert: &BriefCertificate,
    workers: u32,
) -> Option<(u32, CheckCause)>
    requires { line_count (plain_brief cert.now) < 2 ^ 32 - 5 }
{
    match check_in_brief(rt, alloc, problem, cert, workers) {
        Ok(Answer::Accepted) => None,
        Ok(Answer::Refused { line, cause }) => Some((line, cause)),
        Err(_) => Some((0, CheckCause::BoxOf)),
    }
}

/// A text of some parts.
pub fn text_of(rt: &impl Abort, alloc: Global, head: &[u8], cells: &[u8]) -> Vec<u8> {
    let mut text = Vec::new(alloc);
    text.extend_from_slice(head).expect(rt, "no fault");
    text.extend_from_slice(cells).expect(rt, "no fault");
    text.extend_from_slice(b"END\n").expect(rt, "no fault");
    text
}

/// The lines before the cells, which begin at line 9.
const AT_THRESHOLD: &[u8] = b"CONJ-CERT 3
WINDOW 1735689600000000 1735689660000000
THRESHOLD 5000000000000
OBJECTS 2
SIZE 1 0
SIZE 2 0
SHELL 1 7000000000000000 7000000000000000
SHELL 2 7005000000000000 7005000000000000
";

/// The cells of the two objects, and where they are refused.
const NEAR_CELLS: [(&[u8], Option<(u32, CheckCause)>); 14] = [
    (
        b"CELL 1 2 1735689600000000 1735689659999999 N\nCELL 1 2 1735689660000000 1735689660000000 N\n",
        None,
    ),
    // In two cells.
    (
        b"CELL 1 2 1735689600000000 1735689629999999 N\nCELL 1 2 1735689630000000 1735689659999999 N\nCELL 1 2 1735689660000000 1735689660000000 N\n",
        None,
    ),
    // Left out: both, the first, the last.
    (b"", Some((9, CheckCause::Untiled))),
    (
        b"CELL 1 2 1735689660000000 1735689660000000 N\n",
        Some((9, CheckCause::Untiled)),
    ),
    (
        b"CELL 1 2 1735689600000000 1735689659999999 N\n",
        Some((10, CheckCause::Untiled)),
    ),
    // Exchanged.
    (
        b"CELL 1 2 1735689660000000 1735689660000000 N\nCELL 1 2 1735689600000000 1735689659999999 N\n",
        Some((9, CheckCause::Untiled)),
    ),
    // Doubled: the first, the last.
    (
        b"CELL 1 2 1735689600000000 1735689659999999 N\nCELL 1 2 1735689600000000 1735689659999999 N\nCELL 1 2 1735689660000000 1735689660000000 N\n",
        Some((10, CheckCause::Stranger)),
    ),
    (
        b"CELL 1 2 1735689600000000 1735689659999999 N\nCELL 1 2 1735689660000000 1735689660000000 N\nCELL 1 2 1735689660000000 1735689660000000 N\n",
        Some((11, CheckCause::Stranger)),
    ),
    // Begun, and not ended.
    (
        b"CELL 1 2 1735689600000000 1735689629999999 N\nCELL 1 2 1735689660000000 1735689660000000 N\n",
        Some((10, CheckCause::Untiled)),
    ),
    (
        b"CELL 1 2 1735689600000000 1735689629999999 N\n",
        Some((10, CheckCause::Untiled)),
    ),
    // Across the end of a slot.
    (
        b"CELL 1 2 1735689600000000 1735689660000000 N\n",
        Some((9, CheckCause::Stranger)),
    ),
    // One tick too late.
    (
        b"CELL 1 2 1735689600000001 1735689659999999 N\nCELL 1 2 1735689660000000 1735689660000000 N\n",
        Some((9, CheckCause::Untiled)),
    ),
    // Another pair, and a kind that is not so.
    (
        b"CELL 1 3 1735689600000000 1735689659999999 N\n",
        Some((9, CheckCause::Untiled)),
    ),
    (
        b"CELL 1 2 1735689600000000 1735689659999999 F\nCELL 1 2 1735689660000000 1735689660000000 N\n",
        Some((9, CheckCause::NotFar)),
    ),
];

/// The lines before the cells of the objects that are far. The second shell is wider than it need be.
const FAR: &[u8] = b"CONJ-CERT 3
WINDOW 1735689600000000 1735689660000000
THRESHOLD 5000000000000
OBJECTS 2
SIZE 1 0
SIZE 2 0
SHELL 1 7000000000000000 7000000000000000
SHELL 2 7004000000000000 7005000000000000
";

/// The cells of the objects that are far, and where they are refused.
const FAR_CELLS: [(&[u8], Option<(u32, CheckCause)>); 7] = [
    (b"", None),
    (
        b"CELL 1 2 1735689600000000 1735689659999999 F\nCELL 1 2 1735689660000000 1735689660000000 F\n",
        None,
    ),
    (b"CELL 1 2 1735689600000000 1735689659999999 F\n", None),
    (b"CELL 1 2 1735689660000000 1735689660000000 F\n", None),
    // What is begun is not left out.
    (
        b"CELL 1 2 1735689600000000 1735689629999999 F\nCELL 1 2 1735689660000000 1735689660000000 F\n",
        Some((10, CheckCause::Untiled)),
    ),
    (
        b"CELL 1 2 1735689600000000 1735689659999999 U\n",
        Some((9, CheckCause::NotBand)),
    ),
    (
        b"CELL 1 2 1735689660000000 1735689660000000 N\n",
        Some((9, CheckCause::NotNear)),
    ),
];

/// The lines before the cells of three objects, which begin at line 11.
const THREE: &[u8] = b"CONJ-CERT 3
WINDOW 1735689600000000 1735689660000000
THRESHOLD 5000000000000
OBJECTS 3
SIZE 1 0
SIZE 2 0
SIZE 3 0
SHELL 1 7000000000000000 7000000000000000
SHELL 2 7001000000000000 7001000000000000
SHELL 3 7002000000000000 7002000000000000
";

const BY_SLOT: &[u8] = b"CELL 1 2 1735689600000000 1735689659999999 N
CELL 1 3 1735689600000000 1735689659999999 N
CELL 2 3 1735689600000000 1735689659999999 N
CELL 1 2 1735689660000000 1735689660000000 N
CELL 1 3 1735689660000000 1735689660000000 N
CELL 2 3 1735689660000000 1735689660000000 N
";

const BY_PAIR: &[u8] = b"CELL 1 2 1735689600000000 1735689659999999 N
CELL 1 2 1735689660000000 1735689660000000 N
CELL 1 3 1735689600000000 1735689659999999 N
CELL 1 3 1735689660000000 1735689660000000 N
CELL 2 3 1735689600000000 1735689659999999 N
CELL 2 3 1735689660000000 1735689660000000 N
";

/// Lines before the cells, and where they are refused.
const HEADS: [(&[u8], Option<(u32, CheckCause)>); 9] = [
    (
        b"CONJ-CERT 3\nWINDOW 1735689600000000 1735689660000001\nTHRESHOLD 5000000000000\nOBJECTS 2\n",
        Some((2, CheckCause::Header)),
    ),
    (
        b"CONJ-CERT 3\nWINDOW 1735689600000000 1735689660000000\nTHRESHOLD 5000000000001\nOBJECTS 2\n",
        Some((3, CheckCause::Header)),
    ),
    (
        b"CONJ-CERT 3\nWINDOW 1735689600000000 1735689660000000\nTHRESHOLD 5000000000000\nOBJECTS 3\n",
        Some((4, CheckCause::Header)),
    ),
    (
        b"CONJ-CERT 3\nWINDOW 1735689600000000 1735689660000000\nTHRESHOLD 5000000000000\nOBJECTS 2\n",
        Some((5, CheckCause::SizeOf)),
    ),
    (
        b"CONJ-CERT 3\nWINDOW 1735689600000000 1735689660000000\nTHRESHOLD 5000000000000\nOBJECTS 2\nSIZE 1 0\nSIZE 2 1\n",
        Some((6, CheckCause::SizeOf)),
    ),
    (
        b"CONJ-CERT 3\nWINDOW 1735689600000000 1735689660000000\nTHRESHOLD 5000000000000\nOBJECTS 2\nSIZE 1 0\nSIZE 2 0\n",
        Some((7, CheckCause::ShellOf)),
    ),
    (
        b"CONJ-CERT 3\nWINDOW 1735689600000000 1735689660000000\nTHRESHOLD 5000000000000\nOBJECTS 2\nSIZE 1 0\nSIZE 2 0\nSHELL 1 7000000000000001 7000000000000001\n",
        Some((7, CheckCause::ShellOf)),
    ),
    (
        b"CONJ-CERT 3\nWINDOW 1735689600000000 1735689660000000\nTHRESHOLD 5000000000000\nOBJECTS 2\nSIZE 1 0\nSIZE 2 0\nSHELL 1 7000000000000000 7000000000000000\nSHELL 2 NONE\n",
        Some((8, CheckCause::ShellOf)),
    ),
    (
        b"CONJ-CERT 3\nWINDOW 1735689600000000 1735689660000000\nTHRESHOLD 5000000000000\nOBJECTS 2\nSIZE 1 0\nSIZE 2 0\nSHELL 1 7000000000000000 7000000000000000\nSHELL 2 7005000000000000 7005000000000000\nSHELL 2 7005000000000000 7005000000000000\n",
        Some((9, CheckCause::ShellOf)),
    ),
];

#[test]
fn cells_in_brief_tile_what_is_near(rt: HostRuntime) {
    let alloc = rt.alloc();
    let problem = at_threshold(&rt, alloc);
    for (cells, refused) in &NEAR_CELLS {
        let text = text_of(&rt, alloc, AT_THRESHOLD, cells);
        assert_eq!(rt; refusal(&rt, alloc, &problem, &text), *refused);
    }
}

#[test]
fn what_is_far_throughout_may_be_left_out(rt: HostRuntime) {
    let alloc = rt.alloc();
    let problem = far_and_touching(&rt, alloc);
    for (cells, refused) in &FAR_CELLS {
        let text = text_of(&rt, alloc, FAR, cells);
        assert_eq!(rt; refusal(&rt, alloc, &problem, &text), *refused);
    }
}

#[test]
fn cells_in_brief_stand_slot_by_slot(rt: HostRuntime) {
    let alloc = rt.alloc();
    let problem = three(&rt, alloc);
    let by_slot = text_of(&rt, alloc, THREE, BY_SLOT);
    assert_eq!(rt; refusal(&rt, alloc, &problem, &by_slot), None);
    let by_pair = text_of(&rt, alloc, THREE, BY_PAIR);
    assert_eq!(rt;
        refusal(&rt, alloc, &problem, &by_pair),
        Some((12, CheckCause::Untiled))
    );
}

#[test]
fn what_is_said_of_the_run_and_its_objects_comes_first(rt: HostRuntime) {
    let alloc = rt.alloc();
    let problem = at_threshold(&rt, alloc);
    for (head, refused) in &HEADS {
        let text = text_of(&rt, alloc, head, b"");
        assert_eq!(rt; refusal(&rt, alloc, &problem, &text), *refused);
    }
}

/// An object at rest, so many kilometres on the other side of y = 0, where two of the stripes of the checker's sweep meet.
fn beyond(rt: &impl Abort, alloc: Global, before: u8) -> Track
    ensures frame { result.frame ≡ Eme2000 }
    ensures nodes { node_count result.segments ≡ 2 }
{
    let p = Vec3 {
        x: 7_000_000_000_000_000,
        y: -i64::from(before) * 1_000_000_000_000,
        z: 0,
    };
    let segment = rest(alloc, 0, 60, p).expect(rt, "no fault");
    track_of(alloc, segment).expect(rt, "no fault")
}

/// The lines before the cells, which begin at line 9, with shells that are wider than they need be.
const ASTRIDE: &[u8] = b"CONJ-CERT 3
WINDOW 1735689600000000 1735689660000000
THRESHOLD 5000000000000
OBJECTS 2
SIZE 1 0
SIZE 2 0
SHELL 1 7000000000000000 7001000000000000
SHELL 2 7000000000000000 7001000000000000
";

#[test]
fn objects_on_both_sides_of_a_stripe_are_a_candidate(rt: HostRuntime) {
    let alloc = rt.alloc();
    for before in [1, 5] {
        let a = beyond(&rt, alloc, before);
        let b = resting(&rt, alloc, 0, 0);
        let problem = problem_of(alloc, a, b).expect(&rt, "no fault");
        let (cells, _) = NEAR_CELLS[0];
        let text = text_of(&rt, alloc, ASTRIDE, cells);
        assert_eq!(rt; refusal(&rt, alloc, &problem, &text), None);
        let none = text_of(&rt, alloc, ASTRIDE, b"");
        assert_eq!(rt;
            refusal(&rt, alloc, &problem, &none),
            Some((9, CheckCause::Untiled))
        );
    }
}
