//! Certificates in brief over several slots: where they are refused does not hang on how many workers share the slots.
ghost use Rattle.std.specs.Prelude.{◌≡◌};
ghost use Rattle.cj_track.specs.declared.frame.Frame.TheVariants.{Eme2000};
ghost use Rattle.cj_track.specs.Segments.{node_count};

use crate::brief_checks::{place, refusal, text_of};
use cj_case::{Primaries, Problem, Sizes, Tracks};
use cj_formats::CheckCause;
use cj_samples::{rest, seconds, track_of};
use cj_track::Track;
use std::alloc::Global;
use std::panic::Expect;
use std::process::Abort;

/// An object at rest for four minutes, so many kilometres further out than 7,000 km, and so many beside.
fn resting(rt: &impl Abort, alloc: Global, out: u8, beside: u8) -> Track
    ensures frame { result.frame ≡ Eme2000 }
    ensures nodes { node_count result.segments ≡ 2 }
{
    let segment = rest(alloc, 0, 240, place(out, beside)).expect(rt, "no fault");
    track_of(alloc, segment).expect(rt, "no fault")
}

/// Two objects over four minutes and one tick: five slots.
fn two(rt: &impl Abort, alloc: Global, out: u8, beside: u8) -> Problem {
    let tracks = vec![in alloc; resting(rt, alloc, 0, 0), resting(rt, alloc, out, beside)];
    Problem {
        tracks: Tracks::new(tracks.expect(rt, "no fault")),
        window: seconds(0, 240),
        threshold: 5_000_000_000_000,
        sizes: Sizes::new(vec![in alloc; 0, 0].expect(rt, "no fault")),
        primaries: Primaries::all(),
    }
}

/// The lines before the cells, which begin at line 9, of objects at the threshold.
const AT_THRESHOLD: &[u8] = b"CONJ-CERT 3
WINDOW 1735689600000000 1735689840000000
THRESHOLD 5000000000000
OBJECTS 2
SIZE 1 0
SIZE 2 0
SHELL 1 7000000000000000 7000000000000000
SHELL 2 7005000000000000 7005000000000000
";

/// The cells of the five slots; those of the second and the fourth with a kind that is not so; and one before and one behind the window.
const LINES: [&[u8]; 9] = [
    b"CELL 1 2 1735689600000000 1735689659999999 N\n",
    b"CELL 1 2 1735689660000000 1735689719999999 N\n",
    b"CELL 1 2 1735689720000000 1735689779999999 N\n",
    b"CELL 1 2 1735689780000000 1735689839999999 N\n",
    b"CELL 1 2 1735689840000000 1735689840000000 N\n",
    b"CELL 1 2 1735689660000000 1735689719999999 F\n",
    b"CELL 1 2 1735689780000000 1735689839999999 F\n",
    b"CELL 1 2 1735689540000000 1735689599999999 N\n",
    b"CELL 1 2 1735689900000000 1735689959999999 N\n",
];

/// Some of these lines, and where they are refused.
const CELLS: [(&[usize], Option<(u32, CheckCause)>); 14] = [
    (&[0, 1, 2, 3, 4], None),
    // Kinds that are not so.
    (&[0, 5, 2, 3, 4], Some((10, CheckCause::NotFar))),
    (&[0, 1, 2, 6, 4], Some((12, CheckCause::NotFar))),
    (&[0, 5, 2, 6, 4], Some((10, CheckCause::NotFar))),
    // Left out, also before another failure and behind one.
    (&[0, 1, 3, 4], Some((11, CheckCause::Untiled))),
    (&[0, 1, 6, 4], Some((11, CheckCause::Untiled))),
    (&[0, 5, 3, 4], Some((10, CheckCause::NotFar))),
    (&[0, 1, 2, 3], Some((13, CheckCause::Untiled))),
    // Exchanged, and in another order.
    (&[0, 1, 3, 2, 4], Some((11, CheckCause::Untiled))),
    (&[4, 0, 1, 2, 3], Some((9, CheckCause::Untiled))),
    (&[1, 2, 3, 4, 0], Some((9, CheckCause::Untiled))),
    // Doubled, before the window, and behind it.
    (&[0, 1, 1, 2, 3, 4], Some((11, CheckCause::Stranger))),
    (&[7, 0, 1, 2, 3, 4], Some((9, CheckCause::Stranger))),
    (&[0, 1, 2, 3, 4, 8], Some((14, CheckCause::Stranger))),
];

/// The lines before the cells of objects that are far.
const FAR: &[u8] = b"CONJ-CERT 3
WINDOW 1735689600000000 1735689840000000
THRESHOLD 5000000000000
OBJECTS 2
SIZE 1 0
SIZE 2 0
SHELL 1 7000000000000000 7000000000000000
SHELL 2 7004000000000000 7005000000000000
";

/// Cells of objects that are far in each slot, and where they are refused.
const FAR_CELLS: [(&[usize], Option<(u32, CheckCause)>); 4] = [
    (&[], None),
    (&[5, 6], None),
    (&[6, 5], Some((10, CheckCause::Stranger))),
    (&[5, 3], Some((10, CheckCause::NotNear))),
];

/// Some of the lines, one behind another.
fn cells_of(rt: &impl Abort, alloc: Global, numbers: &[usize]) -> Vec<u8> {
    let mut cells = Vec::new(alloc);
    for number in numbers {
        if let Some(line) = LINES.get(*number) {
            cells.extend_from_slice(line).expect(rt, "no fault");
        }
    }
    cells
}

#[test]
fn slots_are_gone_over_in_order(rt: HostRuntime) {
    let alloc = rt.alloc();
    let problem = two(&rt, alloc, 5, 0);
    for (numbers, refused) in &CELLS {
        let text = text_of(&rt, alloc, AT_THRESHOLD, &cells_of(&rt, alloc, numbers));
        assert_eq!(rt; refusal(&rt, alloc, &problem, &text), *refused);
    }
}

#[test]
fn slots_that_are_far_may_be_left_out(rt: HostRuntime) {
    let alloc = rt.alloc();
    let problem = two(&rt, alloc, 4, 4);
    for (numbers, refused) in &FAR_CELLS {
        let text = text_of(&rt, alloc, FAR, &cells_of(&rt, alloc, numbers));
        assert_eq!(rt; refusal(&rt, alloc, &problem, &text), *refused);
    }
}
