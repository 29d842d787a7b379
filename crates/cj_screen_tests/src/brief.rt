//! Certificates in brief, which are of version 3: written, checked and rewritten where that is asked.
use crate::certificates::{AT_REST, RESTING, is_certified};
use crate::runs::{is_told, output_of, run_at, with_certificate};
use crate::scenes::{CROSSING, Content, Scene, files_of};
use crate::versions::{AT_REST_2, changed};
use crate::workers::are_equal;
use cj_base::Tick;
use std::alloc::{AllocError, Global};
use std::panic::Expect;
use std::sync::Wait;
use std::thread::Threads;

/// The certificate of the two objects at rest in brief.
pub const AT_REST_3: &[u8] = b"CONJ-CERT 3
WINDOW 1735689600000000 1735689660000000
THRESHOLD 5000000000000
OBJECTS 2
SIZE 1 0
SIZE 2 0
SHELL 1 7000000000000000 7000000000000000
SHELL 2 7005000000000000 7005000000000000
CELL 1 2 1735689600000000 1735689659999999 N
CELL 1 2 1735689660000000 1735689660000000 N
END
";

/// Two objects at rest whose boxes are four kilometres apart along two axes, so that they touch, and whose distance is more than five.
pub const FAR: Scene = &[
    ("a.oem", Content::Rest("0 0 8000")),
    ("b.oem", Content::Rest("4 4 7999.999")),
];

/// Their certificate in brief, which leaves out both of their roots.
pub const FAR_3: &[u8] = b"CONJ-CERT 3
WINDOW 1735689600000000 1735689660000000
THRESHOLD 5000000000000
OBJECTS 2
SIZE 1 0
SIZE 2 0
SHELL 1 8000000000000000 8000000000000000
SHELL 2 8000001000000000 8000001000000000
END
";

/// The same with cells for both.
const FAR_3_TOLD: &[u8] = b"CONJ-CERT 3
WINDOW 1735689600000000 1735689660000000
THRESHOLD 5000000000000
OBJECTS 2
SIZE 1 0
SIZE 2 0
SHELL 1 8000000000000000 8000000000000000
SHELL 2 8000001000000000 8000001000000000
CELL 1 2 1735689600000000 1735689659999999 F
CELL 1 2 1735689660000000 1735689660000000 F
END
";

const ACCEPTED: &[u8] = b"ACCEPTED\n";

#[test]
fn certificates_are_written_in_brief(rt: HostRuntime) {
    let alloc = rt.alloc();
    for (scene, text) in [(RESTING, AT_REST_3), (FAR, FAR_3)] {
        assert!(rt;
            is_certified(&rt, alloc, "screen . --brief", scene, text).expect(&rt, "no fault")
        );
        let line = "screen . --workers 3 --brief";
        assert!(rt; is_certified(&rt, alloc, line, scene, text).expect(&rt, "no fault"));
    }
}

/// Whether a check of a certificate of these objects tells this.
fn is_checked<R: Threads + Wait + Sync>(
    rt: &R,
    alloc: Global,
    line: &str,
    scene: Scene,
    text: &[u8],
    due: &[u8],
) -> Result<bool, AllocError> {
    let files = with_certificate(alloc, files_of(alloc, scene)?, text)?;
    is_told(rt, alloc, line, files, due)
}

const NO_FORM: &[u8] = b"conj: not accepted: line 1: Text Form\n";

#[test]
fn certificates_are_read_in_brief_where_that_is_asked(rt: HostRuntime) {
    let alloc = rt.alloc();
    let cases = [
        ("check . --brief", RESTING, AT_REST_3, ACCEPTED),
        ("check . --brief", FAR, FAR_3, ACCEPTED),
        ("check . --brief", FAR, FAR_3_TOLD, ACCEPTED),
        // One in full is read with the option and without it.
        ("check . --brief", RESTING, AT_REST, ACCEPTED),
        ("check . --brief", RESTING, AT_REST_2, ACCEPTED),
        ("check .", RESTING, AT_REST, ACCEPTED),
        ("check .", RESTING, AT_REST_3, NO_FORM),
        ("check .", FAR, FAR_3, NO_FORM),
    ];
    for (line, scene, text, due) in cases {
        assert!(rt;
            is_checked(&rt, alloc, line, scene, text, due).expect(&rt, "no fault"),
            "{line}"
        );
    }
}

/// The number of a line of the certificate of the objects at rest, another line in its place, and what is told then.
const DAMAGES: [(usize, &[u8], &[u8]); 8] = [
    (
        1,
        b"CONJ-CERT 4",
        b"conj: not accepted: line 1: Text Form\n",
    ),
    (
        2,
        b"WINDOW 1735689600000000 1735689660000001",
        b"conj: not accepted: line 2: Header\n",
    ),
    (6, b"SIZE 2 1", b"conj: not accepted: line 6: SizeOf\n"),
    (
        8,
        b"BOX 1 0 1 7000000000000000 7000000000000000 0 0 0 0",
        b"conj: not accepted: line 8: Text Form\n",
    ),
    // The first root is left out, and is not far throughout.
    (9, b"", b"conj: not accepted: line 9: Untiled\n"),
    // The last one is.
    (10, b"", b"conj: not accepted: line 10: Untiled\n"),
    // What is left of the first root is left out behind its first ticks.
    (
        9,
        b"CELL 1 2 1735689600000000 1735689650000000 N",
        b"conj: not accepted: line 10: Untiled\n",
    ),
    // A cell that begins within a root is none of its first ticks.
    (
        9,
        b"CELL 1 2 1735689600000001 1735689659999999 N",
        b"conj: not accepted: line 9: Untiled\n",
    ),
];

#[test]
fn damages_of_a_certificate_in_brief_are_told(rt: HostRuntime) {
    let alloc = rt.alloc();
    for (number, other, due) in DAMAGES {
        let text = changed(alloc, AT_REST_3, number, other).expect(&rt, "no fault");
        let line = "check . --brief";
        assert!(rt;
            is_checked(&rt, alloc, line, RESTING, &text, due).expect(&rt, "no fault"),
            "{number}"
        );
    }
}

/// Whether all that a screening puts but for the certificate is the same in brief as in full, and a check accepts its report.
fn are_others_alike<R: Threads + Wait + Sync>(
    rt: &R,
    alloc: Global,
    scene: Scene,
) -> Result<bool, AllocError> {
    let (_, full) = run_at(rt, alloc, "screen .", files_of(alloc, scene)?, Tick::FIRST)?;
    let line = "screen . --brief";
    let (_, brief) = run_at(rt, alloc, line, files_of(alloc, scene)?, Tick::FIRST)?;
    let mut alike = full.written().len() == brief.written().len();
    for output in full.written() {
        let name = output.name.as_slice();
        if name != b"screen.cert".as_slice() {
            alike = alike && output_of(brief.written(), name) == output.bytes.as_slice();
        }
    }
    let mut files = files_of(alloc, scene)?;
    for name in [b"screen.cert".as_slice(), b"screen.report".as_slice()] {
        files.push(crate::runs::file(alloc, name, output_of(brief.written(), name))?)?;
    }
    let line = "check . --brief --report screen.report";
    Ok(alike && is_told(rt, alloc, line, files, ACCEPTED)?)
}

#[test]
fn all_else_is_as_in_full(rt: HostRuntime) {
    for scene in [RESTING, FAR, CROSSING] {
        assert!(rt; are_others_alike(&rt, rt.alloc(), scene).expect(&rt, "no fault"));
    }
}

/// Whether a run puts the same outputs by this line as by another.
fn puts_the_same<R: Threads + Wait + Sync>(
    rt: &R,
    alloc: Global,
    line: &str,
    other: &str,
    scene: Scene,
) -> Result<bool, AllocError> {
    let (end, one) = run_at(rt, alloc, line, files_of(alloc, scene)?, Tick::FIRST)?;
    let (_, two) = run_at(rt, alloc, other, files_of(alloc, scene)?, Tick::FIRST)?;
    Ok(end.number == 0 && are_equal(one.written(), two.written()))
}

/// What is found slab by slab is what is found from lists of all leaves.
#[test]
fn a_whole_sky_is_screened_as_in_brief(rt: HostRuntime) {
    let alloc = rt.alloc();
    for scene in [RESTING, FAR, CROSSING] {
        for line in [
            "screen . --large",
            "screen . --workers 2 --large",
            "screen . --workers 3 --large",
            "screen . --workers 16 --large",
        ] {
            assert!(rt;
                puts_the_same(&rt, alloc, line, "screen . --brief", scene).expect(&rt, "no fault"),
                "{line}"
            );
        }
    }
}

#[test]
fn one_in_brief_is_rewritten_as_it_is(rt: HostRuntime) {
    let alloc = rt.alloc();
    let cases: [(&str, &[u8], &[u8], &[u8]); 4] = [
        ("rewrite . --brief", AT_REST_3, AT_REST_3, b"REWRITTEN\n"),
        ("rewrite . --brief", AT_REST, AT_REST_2, b"REWRITTEN\n"),
        ("rewrite . --brief", AT_REST_2, AT_REST_2, b"REWRITTEN\n"),
        ("rewrite .", AT_REST_3, b"", b""),
    ];
    for (line, text, due, told) in cases {
        let files = files_of(alloc, RESTING).expect(&rt, "no fault");
        let files = with_certificate(alloc, files, text).expect(&rt, "no fault");
        let (_, shelf) = run_at(&rt, alloc, line, files, Tick::FIRST).expect(&rt, "no fault");
        let outputs = shelf.written();
        assert_eq!(rt; output_of(outputs, b"screen.cert2"), due, "{line}");
        assert_eq!(rt; output_of(outputs, b"-"), told, "{line}");
    }
}
