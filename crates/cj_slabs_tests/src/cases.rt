//! Cases in the first minutes of 2025, by a threshold of 5 km.
ghost use Rattle.std.specs.Prelude.{◌≡◌, ◌≤◌, length};
ghost use Rattle.cj_case.specs.Primaries.{marks_of};
ghost use Rattle.cj_samples.specs.Moments.{IsPlace, tick_of};
ghost use Rattle.cj_track.specs.declared.frame.Frame.TheVariants.{Eme2000};
ghost use Rattle.cj_track.specs.Segments.{node_count};

use cj_case::{Primaries, Problem, Sizes, Tracks};
use cj_samples::{along_y, along_z, rest, seconds, track_of};
use cj_track::{Track, Vec3};
use std::alloc::Global;
use std::panic::Expect;
use std::process::Abort;

/// So many seconds have five slots, the last of which has ten seconds and a tick.
pub const FIVE_SLOTS: u8 = 250;

/// A place so many kilometres further out than 7,000 km, and so many beside.
fn place(out: u8, beside: u8) -> Vec3
    ensures { IsPlace result }
{
    Vec3 {
        x: (7_000 + i64::from(out)) * 1_000_000_000_000,
        y: i64::from(beside) * 1_000_000_000_000,
        z: 0,
    }
}

/// An object at rest there.
pub fn resting(rt: &impl Abort, alloc: Global, out: u8, beside: u8) -> Track
    ensures frame { result.frame ≡ Eme2000 }
    ensures nodes { node_count result.segments ≡ 2 }
{
    let segment = rest(alloc, 0, FIVE_SLOTS, place(out, beside)).expect(rt, "no fault");
    track_of(alloc, segment).expect(rt, "no fault")
}

/// No objects, over so many seconds.
pub fn none(rt: &impl Abort, alloc: Global, last: u8) -> Problem {
    Problem {
        tracks: Tracks::new(Vec::new(alloc)),
        window: seconds(0, last),
        threshold: 5_000_000_000_000,
        sizes: Sizes::new(Vec::new(alloc)),
        primaries: Primaries::all(),
    }
}

/// Two points, over so many seconds.
pub fn two(rt: &impl Abort, alloc: Global, a: Track, b: Track, last: u8) -> Problem
    requires frame { a.frame ≡ b.frame }
    requires few_of_a { node_count a.segments ≤ 4 }
    requires few_of_b { node_count b.segments ≤ 4 }
{
    Problem {
        tracks: Tracks::new(vec![in alloc; a, b].expect(rt, "no fault")),
        window: seconds(0, last),
        threshold: 5_000_000_000_000,
        sizes: Sizes::new(vec![in alloc; 0, 0].expect(rt, "no fault")),
        primaries: Primaries::all(),
    }
}

/// Two points that cross at right angles, one kilometre apart, over so many seconds.
pub fn crossing(rt: &impl Abort, alloc: Global, last: u8) -> Problem {
    let a = along_y(alloc).expect(rt, "no fault");
    let b = along_z(alloc).expect(rt, "no fault");
    two(rt, alloc, a, b, last)
}

/// Three points within a kilometre from each other, one that touches them and is far, and two that cross them, over five slots.
pub fn several(rt: &impl Abort, alloc: Global) -> Problem {
    let tracks = vec![in alloc;
        resting(rt, alloc, 0, 0),
        resting(rt, alloc, 1, 0),
        along_y(alloc).expect(rt, "no fault"),
        resting(rt, alloc, 0, 1),
        along_z(alloc).expect(rt, "no fault"),
        resting(rt, alloc, 4, 4),
    ];
    Problem {
        tracks: Tracks::new(tracks.expect(rt, "no fault")),
        window: seconds(0, FIVE_SLOTS),
        threshold: 5_000_000_000_000,
        sizes: Sizes::new(vec![in alloc; 0, 0, 0, 0, 0, 0].expect(rt, "no fault")),
        primaries: Primaries::all(),
    }
}

/// Three points within two kilometres from each other, some of which are primaries, over five slots.
pub fn three(rt: &impl Abort, alloc: Global, primaries: Primaries) -> Problem
    requires { marks_of primaries 3 ≡ 3 }
{
    let tracks = vec![in alloc;
        resting(rt, alloc, 0, 0),
        resting(rt, alloc, 1, 0),
        resting(rt, alloc, 0, 1),
    ];
    Problem {
        tracks: Tracks::new(tracks.expect(rt, "no fault")),
        window: seconds(0, FIVE_SLOTS),
        threshold: 5_000_000_000_000,
        sizes: Sizes::new(vec![in alloc; 0, 0, 0].expect(rt, "no fault")),
        primaries,
    }
}
