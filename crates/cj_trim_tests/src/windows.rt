use crate::texts::{micros_after, track_of};
use cj_oem::OemFault;
use cj_samples::window;
use cj_trim::trim;
use std::alloc::Global;
use std::panic::Expect;

/// The microseconds of a second.
const SECOND: u32 = 1_000_000;

const MINUTE: u32 = 60 * SECOND;

/// A useable span, a window, what is left of the span, and the nodes that stay, in microseconds after the start of 2025.
struct Case {
    start: &'static [u8],
    stop: &'static [u8],
    window: (u32, u32),
    span: (u32, u32),
    nodes: &'static [u32],
}

/// A node each minute from the first to the third.
const NODES: &[&[u8]] = &[
    b"2025-01-01T00:01:00 7000 0 0 0 7.5 0",
    b"2025-01-01T00:02:00 7000 450 0 0 7.5 0",
    b"2025-01-01T00:03:00 7000 900 0 0 7.5 0",
];

const START: &[u8] = b"START_TIME = 2025-01-01T00:01:00";

const STOP: &[u8] = b"STOP_TIME = 2025-01-01T00:03:00";

/// Useable ten seconds less at both ends.
const LATER_START: &[u8] = b"START_TIME = 2025-01-01T00:01:10";

const EARLIER_STOP: &[u8] = b"STOP_TIME = 2025-01-01T00:02:50";

const ALL: &[u32] = &[MINUTE, 2 * MINUTE, 3 * MINUTE];

const FIRST_TWO: &[u32] = &[MINUTE, 2 * MINUTE];

const LAST_TWO: &[u32] = &[2 * MINUTE, 3 * MINUTE];

const CASES: [Case; 16] = [
    // The window ends at a node: the one that follows stays.
    Case {
        start: START,
        stop: STOP,
        window: (MINUTE + 30 * SECOND, 2 * MINUTE),
        span: (MINUTE + 30 * SECOND, 2 * MINUTE),
        nodes: ALL,
    },
    // It ends just before the node.
    Case {
        start: START,
        stop: STOP,
        window: (MINUTE + 30 * SECOND, 2 * MINUTE - 1),
        span: (MINUTE + 30 * SECOND, 2 * MINUTE - 1),
        nodes: FIRST_TWO,
    },
    // It begins at a node, and just before.
    Case {
        start: START,
        stop: STOP,
        window: (2 * MINUTE, 2 * MINUTE + 30 * SECOND),
        span: (2 * MINUTE, 2 * MINUTE + 30 * SECOND),
        nodes: LAST_TWO,
    },
    Case {
        start: START,
        stop: STOP,
        window: (2 * MINUTE - 1, 2 * MINUTE + 30 * SECOND),
        span: (2 * MINUTE - 1, 2 * MINUTE + 30 * SECOND),
        nodes: ALL,
    },
    // It has one tick: at a node, and at the last.
    Case {
        start: START,
        stop: STOP,
        window: (2 * MINUTE, 2 * MINUTE),
        span: (2 * MINUTE, 2 * MINUTE),
        nodes: LAST_TWO,
    },
    Case {
        start: START,
        stop: STOP,
        window: (3 * MINUTE, 3 * MINUTE),
        span: (3 * MINUTE, 3 * MINUTE),
        nodes: LAST_TWO,
    },
    // It goes beyond the last node, and before the first.
    Case {
        start: START,
        stop: STOP,
        window: (3 * MINUTE, 4 * MINUTE),
        span: (3 * MINUTE, 3 * MINUTE),
        nodes: LAST_TWO,
    },
    Case {
        start: START,
        stop: STOP,
        window: (0, MINUTE),
        span: (MINUTE, MINUTE),
        nodes: FIRST_TWO,
    },
    // It holds all.
    Case {
        start: START,
        stop: STOP,
        window: (0, 4 * MINUTE),
        span: (MINUTE, 3 * MINUTE),
        nodes: ALL,
    },
    // No tick of it is useable: it comes later, or earlier.
    Case {
        start: START,
        stop: STOP,
        window: (3 * MINUTE + 1, 4 * MINUTE),
        span: (MINUTE, MINUTE),
        nodes: FIRST_TWO,
    },
    Case {
        start: START,
        stop: STOP,
        window: (0, MINUTE - 1),
        span: (MINUTE, MINUTE),
        nodes: FIRST_TWO,
    },
    // It has no ticks.
    Case {
        start: START,
        stop: STOP,
        window: (2 * MINUTE, 2 * MINUTE - 1),
        span: (MINUTE, MINUTE),
        nodes: FIRST_TWO,
    },
    // The useable span ends before the last node, and begins after the first.
    Case {
        start: LATER_START,
        stop: EARLIER_STOP,
        window: (0, 4 * MINUTE),
        span: (MINUTE + 10 * SECOND, 2 * MINUTE + 50 * SECOND),
        nodes: ALL,
    },
    Case {
        start: LATER_START,
        stop: EARLIER_STOP,
        window: (MINUTE, MINUTE + 10 * SECOND),
        span: (MINUTE + 10 * SECOND, MINUTE + 10 * SECOND),
        nodes: FIRST_TWO,
    },
    Case {
        start: LATER_START,
        stop: EARLIER_STOP,
        window: (MINUTE, MINUTE + 9 * SECOND),
        span: (MINUTE + 10 * SECOND, MINUTE + 10 * SECOND),
        nodes: FIRST_TWO,
    },
    Case {
        start: LATER_START,
        stop: EARLIER_STOP,
        window: (2 * MINUTE + 51 * SECOND, 3 * MINUTE),
        span: (MINUTE + 10 * SECOND, MINUTE + 10 * SECOND),
        nodes: FIRST_TWO,
    },
];

/// Whether what is left in a case is as it says.
fn is_as_told(alloc: Global, case: &Case) -> Result<bool, OemFault> {
    let track = track_of(alloc, case.start, case.stop, NODES)?;
    let left = trim(alloc, &track, window(case.window.0, case.window.1))?;
    let [segment] = left.segments.as_slice() else {
        return Ok(false);
    };
    let span = (micros_after(segment.first), micros_after(segment.last));
    let nodes = segment.nodes.as_slice();
    Ok(
        span == (u64::from(case.span.0), u64::from(case.span.1))
            && nodes.len() == case.nodes.len()
            && nodes.iter().zip(case.nodes.iter()).all(|(node, micros)| micros_after(node.at)
                == u64::from(*micros)),
    )
}

/// The number of the first case in which something else is left.
fn first_wrong(alloc: Global, cases: &[Case]) -> Result<Option<usize>, OemFault> {
    for (i, case) in cases.iter().enumerate() {
        if !is_as_told(alloc, case)? {
            return Ok(Some(i));
        }
    }
    Ok(None)
}

#[test]
fn the_nodes_round_each_tick_of_the_window_stay(rt: HostRuntime) {
    assert_eq!(rt;
        first_wrong(rt.alloc(), CASES.as_slice()).expect(&rt, "no fault"),
        None
    );
}
