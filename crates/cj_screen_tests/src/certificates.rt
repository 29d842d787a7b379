//! The certificates of runs.
use crate::runs::certificate_of;
use crate::scenes::{Content, SHARING_ONE_TICK, Scene, files_of};
use std::alloc::{AllocError, Global};
use std::panic::Expect;
use std::sync::Wait;
use std::thread::Threads;

/// Two objects that rest at the threshold from each other.
pub const RESTING: Scene = &[
    ("a.oem", Content::Rest("7000 0 0")),
    ("b.oem", Content::Rest("7005 0 0")),
];

/// Their certificate in version 1.
pub const AT_REST: &[u8] = b"CONJ-CERT 1
WINDOW 1735689600000000 1735689660000000
THRESHOLD 5000000000000
OBJECTS 2
SHELL 1 7000000000000000 7000000000000000
SHELL 2 7005000000000000 7005000000000000
BOX 1 0 7000000000000000 7000000000000000 0 0 0 0
BOX 1 1 7000000000000000 7000000000000000 0 0 0 0
BOX 2 0 7005000000000000 7005000000000000 0 0 0 0
BOX 2 1 7005000000000000 7005000000000000 0 0 0 0
CELL 1 2 1735689600000000 1735689659999999 N
CELL 1 2 1735689660000000 1735689660000000 N
END
";

/// The files of a run, and its certificate.
type Certified = (Scene, &'static [u8]);

const CERTIFICATES: [Certified; 3] = [
    (
        &[],
        b"CONJ-CERT 1
WINDOW 63072000000000 63072000000000
THRESHOLD 5000000000000
OBJECTS 0
END
",
    ),
    (RESTING, AT_REST),
    (
        SHARING_ONE_TICK,
        b"CONJ-CERT 1
WINDOW 1735689600000000 1735689660000000
THRESHOLD 5000000000000
OBJECTS 2
SHELL 1 7000000000000000 7000000000000000
SHELL 2 7005000000000000 7005000000000000
BOX 1 0 7000000000000000 7000000000000000 0 0 0 0
BOX 2 0 7005000000000000 7005000000000000 0 0 0 0
BOX 2 1 7005000000000000 7005000000000000 0 0 0 0
CELL 1 2 1735689630000000 1735689630000000 N
END
",
    ),
];

/// Whether a run of a command line over a folder puts this certificate.
pub fn is_certified<R: Threads + Wait + Sync>(
    rt: &R,
    alloc: Global,
    line: &str,
    scene: Scene,
    certificate: &[u8],
) -> Result<bool, AllocError> {
    let put = certificate_of(rt, alloc, line, files_of(alloc, scene)?)?;
    Ok(put.as_slice() == certificate)
}

/// The place of the first case with another certificate.
fn first_other<R: Threads + Wait + Sync>(
    rt: &R,
    alloc: Global,
    cases: &[Certified],
) -> Result<Option<usize>, AllocError> {
    for (place, (scene, certificate)) in cases.iter().enumerate() {
        if !is_certified(rt, alloc, "screen .", scene, certificate)? {
            return Ok(Some(place));
        }
    }
    Ok(None)
}

#[test]
fn whole_certificates(rt: HostRuntime) {
    assert_eq!(rt;
        first_other(&rt, rt.alloc(), CERTIFICATES.as_slice()).expect(&rt, "no fault"),
        None
    );
}
