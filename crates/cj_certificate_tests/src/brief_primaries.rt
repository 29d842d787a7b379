//! Certificates in brief of cases with primaries: whose pairs they tell, and where they are refused, of three objects at rest, each two of which are near.
ghost use Rattle.std.specs.Prelude.{◌≡◌};
ghost use Rattle.cj_case.specs.Primaries.{marks_of};

use crate::brief_checks::{refusal, text_of, three_by};
use cj_case::Primaries;
use cj_formats::CheckCause;
use std::alloc::Global;
use std::panic::Expect;
use std::process::Abort;

/// What is said of the run, before the primaries, which begin at line 8.
const SIZES: &[u8] = b"CONJ-CERT 3
WINDOW 1735689600000000 1735689660000000
THRESHOLD 5000000000000
OBJECTS 3
SIZE 1 0
SIZE 2 0
SIZE 3 0
";

const SHELLS: &[u8] = b"SHELL 1 7000000000000000 7000000000000000
SHELL 2 7001000000000000 7001000000000000
SHELL 3 7002000000000000 7002000000000000
";

/// The cells of the pairs of the first object.
const OF_THE_FIRST: &[u8] = b"CELL 1 2 1735689600000000 1735689659999999 N
CELL 1 3 1735689600000000 1735689659999999 N
CELL 1 2 1735689660000000 1735689660000000 N
CELL 1 3 1735689660000000 1735689660000000 N
";

const OF_THE_SECOND: &[u8] = b"CELL 1 2 1735689600000000 1735689659999999 N
CELL 2 3 1735689600000000 1735689659999999 N
CELL 1 2 1735689660000000 1735689660000000 N
CELL 2 3 1735689660000000 1735689660000000 N
";

const OF_ALL: &[u8] = b"CELL 1 2 1735689600000000 1735689659999999 N
CELL 1 3 1735689600000000 1735689659999999 N
CELL 2 3 1735689600000000 1735689659999999 N
CELL 1 2 1735689660000000 1735689660000000 N
CELL 1 3 1735689660000000 1735689660000000 N
CELL 2 3 1735689660000000 1735689660000000 N
";

/// A pair with a primary is left out in the first slot, or in the second.
const LEFT_OUT: [&[u8]; 2] = [
    b"CELL 1 2 1735689600000000 1735689659999999 N
CELL 1 2 1735689660000000 1735689660000000 N
CELL 1 3 1735689660000000 1735689660000000 N
",
    b"CELL 1 2 1735689600000000 1735689659999999 N
CELL 1 3 1735689600000000 1735689659999999 N
CELL 1 2 1735689660000000 1735689660000000 N
",
];

/// A text with these lines of primaries and cells.
fn with(rt: &impl Abort, alloc: Global, primaries: &[u8], cells: &[u8]) -> Vec<u8> {
    let mut head = Vec::new(alloc);
    head.extend_from_slice(SIZES).expect(rt, "no fault");
    head.extend_from_slice(primaries).expect(rt, "no fault");
    head.extend_from_slice(SHELLS).expect(rt, "no fault");
    text_of(rt, alloc, &head, cells)
}

/// The primaries that are marked of the three.
fn marked(rt: &impl Abort, alloc: Global, first: bool, second: bool, third: bool) -> Primaries
    ensures { marks_of result 3 ≡ 3 }
{
    Primaries::marked(vec![in alloc; first, second, third].expect(rt, "no fault"))
}

#[test]
fn pairs_with_a_primary_are_told(rt: HostRuntime) {
    let alloc = rt.alloc();
    let first = three_by(&rt, alloc, marked(&rt, alloc, true, false, false));
    let text = with(&rt, alloc, b"PRIMARY 1\n", OF_THE_FIRST);
    assert_eq!(rt; refusal(&rt, alloc, &first, &text), None);
    let second = three_by(&rt, alloc, marked(&rt, alloc, false, true, false));
    let text = with(&rt, alloc, b"PRIMARY 2\n", OF_THE_SECOND);
    assert_eq!(rt; refusal(&rt, alloc, &second, &text), None);
    let none = three_by(&rt, alloc, marked(&rt, alloc, false, false, false));
    let text = with(&rt, alloc, b"", b"");
    assert_eq!(rt; refusal(&rt, alloc, &none, &text), None);
}

#[test]
fn with_two_primaries_of_three_each_pair_is_told(rt: HostRuntime) {
    let alloc = rt.alloc();
    let two = three_by(&rt, alloc, marked(&rt, alloc, true, false, true));
    let text = with(&rt, alloc, b"PRIMARY 1\nPRIMARY 3\n", OF_ALL);
    assert_eq!(rt; refusal(&rt, alloc, &two, &text), None);
    let all = three_by(&rt, alloc, marked(&rt, alloc, true, true, true));
    let text = with(&rt, alloc, b"PRIMARY 1\nPRIMARY 2\nPRIMARY 3\n", OF_ALL);
    assert_eq!(rt; refusal(&rt, alloc, &all, &text), None);
}

#[test]
fn a_pair_of_two_secondaries_is_a_stranger(rt: HostRuntime) {
    let alloc = rt.alloc();
    let first = three_by(&rt, alloc, marked(&rt, alloc, true, false, false));
    let text = with(&rt, alloc, b"PRIMARY 1\n", OF_ALL);
    assert_eq!(rt;
        refusal(&rt, alloc, &first, &text),
        Some((14, CheckCause::Stranger))
    );
}

#[test]
fn a_pair_with_a_primary_is_not_left_out(rt: HostRuntime) {
    let alloc = rt.alloc();
    let first = three_by(&rt, alloc, marked(&rt, alloc, true, false, false));
    for (cells, line) in LEFT_OUT.iter().zip([13, 15].iter()) {
        let text = with(&rt, alloc, b"PRIMARY 1\n", cells);
        assert_eq!(rt;
            refusal(&rt, alloc, &first, &text),
            Some((*line, CheckCause::Untiled))
        );
    }
}

/// Lines of primaries, and where they are refused where the first and the third object are primaries.
const PRIMARIES: [(&[u8], Option<(u32, CheckCause)>); 6] = [
    (b"", Some((8, CheckCause::PrimaryOf))),
    (b"PRIMARY 1\n", Some((9, CheckCause::PrimaryOf))),
    (b"PRIMARY 2\nPRIMARY 3\n", Some((8, CheckCause::PrimaryOf))),
    (b"PRIMARY 3\nPRIMARY 1\n", Some((8, CheckCause::PrimaryOf))),
    (
        b"PRIMARY 1\nPRIMARY 2\nPRIMARY 3\n",
        Some((9, CheckCause::PrimaryOf)),
    ),
    (
        b"PRIMARY 1\nPRIMARY 3\nPRIMARY 3\n",
        Some((10, CheckCause::PrimaryOf)),
    ),
];

#[test]
fn the_primaries_are_those_that_are_named(rt: HostRuntime) {
    let alloc = rt.alloc();
    let two = three_by(&rt, alloc, marked(&rt, alloc, true, false, true));
    for (primaries, refused) in &PRIMARIES {
        let text = with(&rt, alloc, primaries, OF_ALL);
        assert_eq!(rt; refusal(&rt, alloc, &two, &text), *refused);
    }
    let all = three_by(&rt, alloc, Primaries::all());
    let text = with(&rt, alloc, b"PRIMARY 1\n", OF_THE_FIRST);
    assert_eq!(rt;
        refusal(&rt, alloc, &all, &text),
        Some((8, CheckCause::PrimaryOf))
    );
}
