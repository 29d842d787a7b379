//! Small certificates in brief, their texts, and how these are read again.
ghost use Rattle.std.specs.Prelude.{◌≤◌};

use cj_base::{Tick, Window};
use cj_brief::BriefCertificate;
use cj_case::{Kind, Pair, Shell};
use cj_cert::{CellLine, ShellLine, SizeOfLine};
use cj_cert_text::{CertCause, CertFault, brief_text, read_brief, read_cert};
use std::alloc::{AllocError, Global};
use std::panic::Expect;
use std::process::Abort;

/// The certificate of an empty folder.
const EMPTY: &[u8] = b"CONJ-CERT 3
WINDOW 63072000000000 63072000000000
THRESHOLD 5000000000000
OBJECTS 0
END
";

/// Two objects at rest, exactly the threshold of 5 km apart, for a minute.
pub const AT_REST: &[u8] = b"CONJ-CERT 3
WINDOW 1735689600000000 1735689660000000
THRESHOLD 5000000000000
OBJECTS 2
SIZE 1 0
SIZE 2 0
SHELL 1 7000000000000000 7000000000000000
SHELL 2 7005000000000000 7005000000000000
CELL 1 2 1735689600000000 1735689659999999 N
CELL 1 2 1735689660000000 1735689660000000 N
END
";

/// The same with a box behind the shells.
const WITH_A_BOX: &[u8] = b"CONJ-CERT 3
WINDOW 1735689600000000 1735689660000000
THRESHOLD 5000000000000
OBJECTS 2
SIZE 1 0
SIZE 2 0
SHELL 1 7000000000000000 7000000000000000
SHELL 2 7005000000000000 7005000000000000
BOX 1 0 1 7000000000000000 7000000000000000 0 0 0 0
CELL 1 2 1735689600000000 1735689659999999 N
CELL 1 2 1735689660000000 1735689660000000 N
END
";

/// The last object that there can be.
const LAST_OBJECT: &[u8] = b"CONJ-CERT 3
WINDOW 63072000000000 63072000000000
THRESHOLD 5000000000000
OBJECTS 65535
SIZE 65535 0
PRIMARY 65535
SHELL 2001 NONE
CELL 65534 65535 63072000000000 63072000000000 U
END
";

const TOO_MANY_OBJECTS: &[u8] = b"CONJ-CERT 3
WINDOW 63072000000000 63072000000000
THRESHOLD 5000000000000
OBJECTS 65536
END
";

const BEHIND_THE_LAST_OBJECT: &[u8] = b"CONJ-CERT 3
WINDOW 63072000000000 63072000000000
THRESHOLD 5000000000000
OBJECTS 65535
SHELL 65536 NONE
END
";

/// Lines behind the number of objects, which stand from line 5 on, and their first fault.
const PRIMARIES: [(&[u8], Option<(u32, CertCause)>); 9] = [
    (b"SIZE 1 0\nPRIMARY 2\nPRIMARY 1\nSHELL 1 NONE\n", None),
    (b"PRIMARY 65535\n", None),
    (b"PRIMARY 0\n", Some((5, CertCause::Range))),
    (b"PRIMARY 65536\n", Some((5, CertCause::Range))),
    (b"PRIMARY\n", Some((5, CertCause::Form))),
    (b"PRIMARY 1 2\n", Some((5, CertCause::Form))),
    (b"PRIMARY 1 NONE\n", Some((5, CertCause::Form))),
    (b"PRIMARY 1\nSIZE 1 0\n", Some((6, CertCause::Form))),
    (b"SHELL 1 NONE\nPRIMARY 1\n", Some((6, CertCause::Form))),
];

const FIRST: Tick = Tick {
    micros: 1_735_689_600_000_000,
};

const LAST: Tick = Tick {
    micros: 1_735_689_660_000_000,
};

fn empty(alloc: Global) -> BriefCertificate {
    BriefCertificate {
        window: Window {
            first: Tick::FIRST,
            last: Tick::FIRST,
        },
        threshold: 5_000_000_000_000,
        objects: 0,
        sizes: Vec::new(alloc),
        primaries: Vec::new(alloc),
        shells: Vec::new(alloc),
        cells: Vec::new(alloc),
    }
}

fn at_rest_on(object: u32, radius: u64) -> ShellLine {
    ShellLine {
        object,
        shell: Some(Shell {
            lo: radius,
            hi: radius,
        }),
    }
}

fn near(first: Tick, last: Tick) -> CellLine
    requires { first.micros ≤ last.micros }
{
    CellLine {
        pair: Pair { a: 0, b: 1 },
        first,
        last,
        kind: Kind::Near,
    }
}

fn at_rest(alloc: Global) -> Result<BriefCertificate, AllocError> {
    let before_last = Tick {
        micros: LAST.micros - 1,
    };
    Ok(BriefCertificate {
        window: Window {
            first: FIRST,
            last: LAST,
        },
        threshold: 5_000_000_000_000,
        objects: 2,
        sizes: vec![in alloc;
            SizeOfLine { object: 0, size: 0 },
            SizeOfLine { object: 1, size: 0 },
        ]?,
        primaries: Vec::new(alloc),
        shells: vec![in alloc;
            at_rest_on(0, 7_000_000_000_000_000),
            at_rest_on(1, 7_005_000_000_000_000),
        ]?,
        cells: vec![in alloc; near(FIRST, before_last), near(LAST, LAST)]?,
    })
}

fn of_last_object(alloc: Global) -> Result<BriefCertificate, AllocError> {
    Ok(BriefCertificate {
        window: Window {
            first: Tick::FIRST,
            last: Tick::FIRST,
        },
        threshold: 5_000_000_000_000,
        objects: 65_535,
        sizes: vec![in alloc;
            SizeOfLine {
                object: 65_534,
                size: 0,
            },
        ]?,
        primaries: vec![in alloc; 65_534]?,
        shells: vec![in alloc;
            ShellLine {
                object: 2_000,
                shell: None,
            },
        ]?,
        cells: vec![in alloc;
            CellLine {
                pair: Pair {
                    a: 65_533,
                    b: 65_534,
                },
                first: Tick::FIRST,
                last: Tick::FIRST,
                kind: Kind::Undecided,
            },
        ]?,
    })
}

#[test]
fn certificates_in_brief_have_their_texts(rt: HostRuntime) {
    let alloc = rt.alloc();
    assert_eq!(rt;
        brief_text(&rt, alloc, &empty(alloc), 1)
            .expect(&rt, "no fault")
            .as_slice(),
        EMPTY
    );
    assert_eq!(rt;
        brief_text(&rt, alloc, &at_rest(alloc).expect(&rt, "no fault"), 4)
            .expect(&rt, "no fault")
            .as_slice(),
        AT_REST
    );
}

#[test]
fn what_is_printed_in_brief_is_read_again(rt: HostRuntime) {
    let alloc = rt.alloc();
    assert_eq!(rt; read_brief(alloc, EMPTY), Ok(empty(alloc)));
    assert_eq!(rt;
        read_brief(alloc, AT_REST),
        Ok(at_rest(alloc).expect(&rt, "no fault"))
    );
}

#[test]
fn each_version_has_a_reader_of_its_own(rt: HostRuntime) {
    let alloc = rt.alloc();
    assert_eq!(rt;
        read_cert(alloc, AT_REST),
        Err(CertFault::At {
            line: 1,
            cause: CertCause::Form,
        })
    );
    assert_eq!(rt;
        read_brief(alloc, crate::certificates::AT_REST_2),
        Err(CertFault::At {
            line: 1,
            cause: CertCause::Form,
        })
    );
    assert_eq!(rt;
        read_brief(alloc, WITH_A_BOX),
        Err(CertFault::At {
            line: 9,
            cause: CertCause::Form,
        })
    );
}

/// The first fault of a text of these lines behind the number of objects.
fn fault_of(rt: &impl Abort, alloc: Global, lines: &[u8]) -> Option<(u32, CertCause)> {
    let mut text = Vec::new(alloc);
    text.extend_from_slice(
        b"CONJ-CERT 3\nWINDOW 63072000000000 63072000000000\nTHRESHOLD 1\nOBJECTS 2\n",
    ).expect(rt, "no fault");
    text.extend_from_slice(lines).expect(rt, "no fault");
    text.extend_from_slice(b"END\n").expect(rt, "no fault");
    if text.len() > 1_000 {
        return None;
    }
    match read_brief(alloc, &text) {
        Err(CertFault::At { line, cause }) => Some((line, cause)),
        _ => None,
    }
}

#[test]
fn primaries_stand_between_sizes_and_shells(rt: HostRuntime) {
    let alloc = rt.alloc();
    for (lines, wanted) in &PRIMARIES {
        assert_eq!(rt; fault_of(&rt, alloc, lines), *wanted);
    }
}

#[test]
fn objects_go_up_to_sixty_five_thousand(rt: HostRuntime) {
    let alloc = rt.alloc();
    assert_eq!(rt;
        read_brief(alloc, LAST_OBJECT),
        Ok(of_last_object(alloc).expect(&rt, "no fault"))
    );
    assert_eq!(rt;
        brief_text(
            &rt,
            alloc,
            &of_last_object(alloc).expect(&rt, "no fault"),
            1
        )
        .expect(&rt, "no fault")
        .as_slice(),
        LAST_OBJECT
    );
    assert_eq!(rt;
        read_brief(alloc, TOO_MANY_OBJECTS),
        Err(CertFault::At {
            line: 4,
            cause: CertCause::Range,
        })
    );
    assert_eq!(rt;
        read_brief(alloc, BEHIND_THE_LAST_OBJECT),
        Err(CertFault::At {
            line: 5,
            cause: CertCause::Range,
        })
    );
}
