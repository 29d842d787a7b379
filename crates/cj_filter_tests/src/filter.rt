ghost use Rattle.std.specs.Prelude.{◌≡◌, ◌≤◌, All, IfOk, length};
ghost use Rattle.cj_base.specs.Bounds.{MOST_OBJECTS};
ghost use Rattle.cj_case.specs.CaseLimits.{MAX_SIZE};

use cj_base::Window;
use cj_case::{Pair, Primaries, Shell};
use cj_samples::{AT_7000, AT_7100, along_y, rest, seconds, track_of_two};
use cj_sieve::{ShelledObjects, count_kept, kept_pairs, parted, shell};
use cj_track::Track;
use cj_walk::TrackWalk;
use std::alloc::{AllocError, Global};
use std::panic::Expect;
use std::process::Abort;
use std::thread::Threads;

/// 5 km in nm.
const THRESHOLD: u64 = 5_000_000_000_000;

/// A shell without thickness.
fn thin(radius: u64) -> Shell {
    Shell {
        lo: radius,
        hi: radius,
    }
}

/// The shell of a track in a window, none where it has no state there.
fn shell_in(track: &Track, window: Window) -> Option<Shell> {
    let walk = TrackWalk::new(track, window)?;
    Some(shell(walk))
}

/// At rest at 7,100 km for 20 seconds, from then on at 7,000 km until second 40.
#[test]
fn a_shell_goes_round_the_segments_of_its_seconds(rt: HostRuntime) {
    let alloc = rt.alloc();
    let one = rest(alloc, 0, 20, AT_7100).expect(&rt, "no fault");
    let other = rest(alloc, 20, 40, AT_7000).expect(&rt, "no fault");
    let track = track_of_two(alloc, one, other).expect(&rt, "no fault");
    let low = Some(thin(7_000_000_000_000_000));
    let high = Some(thin(7_100_000_000_000_000));
    let both = Some(Shell {
        lo: 7_000_000_000_000_000,
        hi: 7_100_000_000_000_000,
    });
    for (ticks, expected) in [
        (seconds(0, 60), both),
        (seconds(19, 20), both),
        (seconds(0, 19), high),
        (seconds(20, 20), low),
        (seconds(40, 60), low),
        (seconds(41, 60), None),
        (seconds(30, 10), None),
    ] {
        assert_eq!(rt; shell_in(&track, ticks), expected);
    }
}

#[test]
fn a_gap_between_segments_is_passed_over(rt: HostRuntime) {
    let alloc = rt.alloc();
    let one = rest(alloc, 0, 20, AT_7100).expect(&rt, "no fault");
    let other = rest(alloc, 40, 60, AT_7000).expect(&rt, "no fault");
    let track = track_of_two(alloc, one, other).expect(&rt, "no fault");
    let both = Some(Shell {
        lo: 7_000_000_000_000_000,
        hi: 7_100_000_000_000_000,
    });
    assert_eq!(rt; shell_in(&track, seconds(0, 120)), both);
    assert_eq!(rt; shell_in(&track, seconds(21, 39)), None);
}

/// The coefficients against the origin have their least part, 48,989,875 km², in the middle, and their greatest, 49,050,625 km²,
/// at both ends.
#[test]
fn the_shell_of_a_moving_track_holds_its_ends(rt: HostRuntime) {
    let track = along_y(rt.alloc()).expect(&rt, "no fault");
    assert_eq!(rt;
        shell_in(&track, seconds(0, 60)),
        Some(Shell {
            lo: 6999276748350503,
            hi: 7003615137912706
        })
    );
}

/// A low and a geostationary shell; shells at the threshold, one nanometre beyond it, and over one another; the greatest ends.
#[test]
fn shells_are_parted_beyond_the_threshold(rt: HostRuntime) {
    let low = thin(7_000_000_000_000_000);
    let wide = Shell {
        lo: 6_000_000_000_000_000,
        hi: 8_000_000_000_000_000,
    };
    for (a, b, expected) in [
        (low, thin(42_164_000_000_000_000), true),
        (low, thin(7_005_000_000_000_000), false),
        (low, thin(7_005_000_000_000_001), true),
        (low, wide, false),
        (thin(u64::MAX), thin(u64::MAX), false),
        (thin(u64::MAX), thin(0), true),
    ] {
        assert_eq!(rt; parted(a, b, THRESHOLD), expected);
        assert_eq!(rt; parted(b, a, THRESHOLD), expected);
    }
}

#[test]
fn kept_pairs_come_in_order(rt: HostRuntime) {
    let low = Some(thin(7_000_000_000_000_000));
    let near = Some(thin(7_005_000_000_000_000));
    let high = Some(thin(42_164_000_000_000_000));
    let shells = [low, None, near, high, low, None];
    let expected = [
        Pair { a: 0, b: 2 },
        Pair { a: 0, b: 4 },
        Pair { a: 2, b: 4 },
    ];
    let kept = kept_pairs(rt.alloc(), &shells, &[0; 6], &Primaries::all(), THRESHOLD).expect(
        &rt, "no fault",
    );
    assert_eq!(rt; kept.as_slice(), expected.as_slice());
    assert!(rt;
        kept_pairs(rt.alloc(), &[], &[], &Primaries::all(), THRESHOLD)
            .expect(&rt, "no fault")
            .is_empty()
    );
}

/// The shells of so many objects at 7,000 and 7,100 km in turn.
fn shells_in_turn(alloc: Global, count: u32) -> Result<Vec<Option<Shell>>, AllocError>
    ensures { IfOk result (λ shells. length shells.items ≡ count) }
{
    let mut shells = Vec::new(alloc);
    for object in 0..count {
        let radius = if object % 2 == 0 {
            7_000_000_000_000_000
        } else {
            7_100_000_000_000_000
        };
        shells.push(Some(thin(radius)))?;
    }
    Ok(shells)
}

/// The sizes of so many points.
fn points(alloc: Global, count: u32) -> Result<Vec<u64>, AllocError>
    ensures len { IfOk result (λ sizes. length sizes.items ≡ count) }
    ensures small { IfOk result (λ sizes. All (λ size. size ≤ MAX_SIZE) sizes.items) }
{
    let mut sizes = Vec::new(alloc);
    for _ in 0..count {
        sizes.push(0)?;
    }
    Ok(sizes)
}

/// How many pairs are kept of so many points in turn, counted by so many workers.
fn kept_in_turn<R: Threads + Sync>(
    rt: &R,
    alloc: Global,
    count: u32,
    workers: u32,
) -> Result<u64, AllocError>
    requires { count ≤ MOST_OBJECTS }
{
    let shells = shells_in_turn(alloc, count)?;
    let sizes = points(alloc, count)?;
    let objects = ShelledObjects {
        shells: &shells,
        sizes: &sizes,
        primaries: &Primaries::all(),
        thr: THRESHOLD,
    };
    count_kept(rt, alloc, &objects, workers)
}

/// Of 1,001 objects 501 are low, which make 125,250 pairs, and 500 high, which make 124,750.
#[test]
fn kept_pairs_are_counted_alike_by_any_number_of_workers(rt: HostRuntime) {
    let alloc = rt.alloc();
    for (objects, expected) in [
        (0, 0),
        (1, 0),
        (2, 0),
        (3, 1),
        (4, 2),
        (5, 4),
        (1_001, 250_000),
    ] {
        for workers in [1, 2, 3, 16] {
            assert_eq!(rt;
                kept_in_turn(&rt, alloc, objects, workers).expect(&rt, "no fault"),
                expected
            );
        }
    }
}

/// The pairs of three objects, the second of them three metres beyond the threshold from the others.
fn kept_with(alloc: Global, sizes: &[u64; 3]) -> Result<Vec<Pair>, AllocError>
    requires { All (λ size. size ≤ MAX_SIZE) sizes.now }
{
    let low = Some(thin(7_000_000_000_000_000));
    let high = Some(thin(7_005_003_000_000_000));
    kept_pairs(
        alloc,
        &[low, high, low],
        sizes,
        &Primaries::all(),
        THRESHOLD,
    )
}

/// The radii of two objects bridge three metres, or a nanometre less than that.
#[test]
fn sizes_keep_a_pair_beyond_the_threshold(rt: HostRuntime) {
    let alloc = rt.alloc();
    let first = Pair { a: 0, b: 1 };
    let same = Pair { a: 0, b: 2 };
    let last = Pair { a: 1, b: 2 };
    let without = kept_with(alloc, &[0, 0, 0]).expect(&rt, "no fault");
    assert_eq!(rt; without.as_slice(), [same].as_slice());
    let both = kept_with(alloc, &[1_500_000_000, 1_500_000_000, 0]).expect(&rt, "no fault");
    assert_eq!(rt; both.as_slice(), [first, same].as_slice());
    let less = kept_with(alloc, &[1_499_999_999, 1_500_000_000, 1_500_000_000]).expect(
        &rt, "no fault",
    );
    assert_eq!(rt; less.as_slice(), [same, last].as_slice());
    let greatest = kept_with(alloc, &[1_000_000_000_000, 0, 1_000_000_000_000]).expect(
        &rt, "no fault",
    );
    assert_eq!(rt; greatest.as_slice(), [first, same, last].as_slice());
}
