//! The ticks of a window that a track covers.
use cj_base::{Tick, Window};
use cj_coverage::{count_uncovered, covered_spans, first_uncovered};
use cj_samples::{AT_7000, crossing, rest, seconds, tick, track_of, track_of_two, window};
use cj_track::Track;
use std::alloc::{AllocError, Global};
use std::panic::Expect;

/// At rest in the first half minute, and from 45 s to the end of the minute.
fn with_a_gap(alloc: Global) -> Result<Track, AllocError> {
    track_of_two(
        alloc,
        rest(alloc, 0, 30, AT_7000)?,
        rest(alloc, 45, 60, AT_7000)?,
    )
}

/// At rest in each half of the minute, of which both have the tick in its middle.
fn without_a_gap(alloc: Global) -> Result<Track, AllocError> {
    track_of_two(
        alloc,
        rest(alloc, 0, 30, AT_7000)?,
        rest(alloc, 30, 60, AT_7000)?,
    )
}

#[test]
fn a_gap_parts_spans(rt: HostRuntime) {
    let alloc = rt.alloc();
    let track = with_a_gap(alloc).expect(&rt, "no fault");
    let cases: [(Window, &[Window]); 7] = [
        (seconds(0, 60), &[seconds(0, 30), seconds(45, 60)]),
        (
            window(1, 50_000_000),
            &[window(1, 30_000_000), window(45_000_000, 50_000_000)],
        ),
        (window(30_000_000, 44_999_999), &[seconds(30, 30)]),
        (window(30_000_001, 44_999_999), &[]),
        (window(30_000_001, 45_000_000), &[seconds(45, 45)]),
        (seconds(61, 70), &[]),
        (seconds(20, 10), &[]),
    ];
    for (ticks, due) in cases {
        let spans = covered_spans(alloc, &track, ticks).expect(&rt, "no fault");
        assert_eq!(rt; spans.as_slice(), due, "{ticks:?}");
    }
}

#[test]
fn segments_that_share_a_tick_are_one_span(rt: HostRuntime) {
    let alloc = rt.alloc();
    let track = without_a_gap(alloc).expect(&rt, "no fault");
    let spans = covered_spans(alloc, &track, seconds(0, 90)).expect(&rt, "no fault");
    assert_eq!(rt; spans.as_slice(), [seconds(0, 60)].as_slice());
}

#[test]
fn the_first_tick_that_is_missing(rt: HostRuntime) {
    let alloc = rt.alloc();
    let track = with_a_gap(alloc).expect(&rt, "no fault");
    let cases: [(Window, Option<Tick>); 7] = [
        (seconds(0, 60), Some(tick(30_000_001))),
        (seconds(0, 30), None),
        (window(0, 30_000_001), Some(tick(30_000_001))),
        (window(40_000_000, 60_000_000), Some(tick(40_000_000))),
        (seconds(45, 60), None),
        (seconds(45, 61), Some(tick(60_000_001))),
        (seconds(61, 60), None),
    ];
    for (ticks, due) in cases {
        assert_eq!(rt; first_uncovered(&track, ticks), due, "{ticks:?}");
    }
    let one = rest(alloc, 10, 20, AT_7000).expect(&rt, "no fault");
    let one = track_of(alloc, one).expect(&rt, "no fault");
    assert_eq!(rt; first_uncovered(&one, seconds(0, 20)), Some(tick(0)));
    assert_eq!(rt; first_uncovered(&one, seconds(10, 20)), None);
}

#[test]
fn objects_that_cover_a_window_are_not_counted(rt: HostRuntime) {
    let mut problem = crossing(rt.alloc()).expect(&rt, "no fault");
    assert_eq!(rt; count_uncovered(&problem), 0);
    problem.window = seconds(0, 61);
    assert_eq!(rt; count_uncovered(&problem), 2);
}
