//! Cases of one to four objects in the first minute of 2025, by a threshold of 5 km: two that pass each other, and some that are far from all.
ghost use Rattle.std.specs.Prelude.{◌≡◌, ◌≤◌, length};
ghost use Rattle.cj_case.specs.CaseLimits.{MAX_SIZE};
ghost use Rattle.cj_samples.specs.Moments.{tick_of};
ghost use Rattle.cj_track.specs.declared.frame.Frame.TheVariants.{Eme2000};
ghost use Rattle.cj_track.specs.Segments.{node_count};

use cj_base::Text;
use cj_case::{Primaries, Problem, Sizes, Tracks};
use cj_samples::{AT_7000, along_y, along_z, rest, seconds, track_of};
use cj_track::{Track, Vec3};
use std::alloc::Global;
use std::panic::Expect;
use std::process::Abort;

/// An object of these cases.
#[derive(Clone, Copy)]
pub enum Object {
    /// Passes along y.
    AlongY,
    /// Passes along z, one kilometre from the other.
    AlongZ,
    /// At rest where the first one passes at 30 s.
    Resting,
    /// At rest in a geostationary distance.
    Distant,
    /// The first one under another name.
    Renamed,
}

/// A size.
#[derive(Clone, Copy)]
pub enum Size {
    Point,
    Nanometre,
    Kilometre,
}

/// A size in nm.
fn in_nm(size: Size) -> u64
    ensures { result ≤ MAX_SIZE }
{
    match size {
        Size::Point => 0,
        Size::Nanometre => 1,
        Size::Kilometre => 1_000_000_000_000,
    }
}

/// The objects of a case.
#[derive(Clone, Copy)]
pub enum Objects {
    One(Object),
    Two(Object, Object),
    /// Two, the first of which has a size.
    Sized(Object, Object, Size),
    Three(Object, Object, Object),
}

/// A place 42,164 km from the Earth's center.
const AT_42164: Vec3 = Vec3 {
    x: 42_164_000_000_000_000,
    y: 0,
    z: 0,
};

/// The first object under another name.
#[tactic(auto, unfolding(cj_track::specs::Labels::is_label))]
fn renamed(rt: &impl Abort, alloc: Global) -> Track
    ensures frame { result.frame ≡ Eme2000 }
    ensures nodes { node_count result.segments ≡ 2 }
{
    let track = along_y(alloc).expect(rt, "no fault");
    Track {
        file: track.file,
        name: Text::copy_of(alloc, b"SAT B").expect(rt, "no fault"),
        id: track.id,
        frame: track.frame,
        segments: track.segments,
    }
}

/// The track of an object.
pub fn track(rt: &impl Abort, alloc: Global, object: Object) -> Track
    ensures frame { result.frame ≡ Eme2000 }
    ensures nodes { node_count result.segments ≡ 2 }
{
    match object {
        Object::AlongY => along_y(alloc).expect(rt, "no fault"),
        Object::AlongZ => along_z(alloc).expect(rt, "no fault"),
        Object::Resting => {
            let segment = rest(alloc, 0, 60, AT_7000).expect(rt, "no fault");
            track_of(alloc, segment).expect(rt, "no fault")
        }
        Object::Distant => {
            let segment = rest(alloc, 0, 60, AT_42164).expect(rt, "no fault");
            track_of(alloc, segment).expect(rt, "no fault")
        }
        Object::Renamed => renamed(rt, alloc),
    }
}

/// A case of one object.
pub fn one(rt: &impl Abort, alloc: Global, a: Object) -> Problem
    ensures first { result.window.first.micros ≡ tick_of 0 }
    ensures last { result.window.last.micros ≡ tick_of 60000000 }
    ensures threshold { result.threshold ≡ 5000000000000 }
    ensures objects { length result.tracks ≡ 1 }
{
    Problem {
        tracks: Tracks::new(vec![in alloc; track(rt, alloc, a)].expect(rt, "no fault")),
        window: seconds(0, 60),
        threshold: 5_000_000_000_000,
        sizes: Sizes::new(vec![in alloc; 0].expect(rt, "no fault")),
        primaries: Primaries::all(),
    }
}

/// A case of two objects, the first of which has a size.
pub fn sized(rt: &impl Abort, alloc: Global, a: Object, b: Object, size: Size) -> Problem
    ensures first { result.window.first.micros ≡ tick_of 0 }
    ensures last { result.window.last.micros ≡ tick_of 60000000 }
    ensures threshold { result.threshold ≡ 5000000000000 }
    ensures objects { length result.tracks ≡ 2 }
{
    let tracks = vec![in alloc; track(rt, alloc, a), track(rt, alloc, b)];
    Problem {
        tracks: Tracks::new(tracks.expect(rt, "no fault")),
        window: seconds(0, 60),
        threshold: 5_000_000_000_000,
        sizes: Sizes::new(vec![in alloc; in_nm(size), 0].expect(rt, "no fault")),
        primaries: Primaries::all(),
    }
}

/// A case of two points.
pub fn two(rt: &impl Abort, alloc: Global, a: Object, b: Object) -> Problem
    ensures first { result.window.first.micros ≡ tick_of 0 }
    ensures last { result.window.last.micros ≡ tick_of 60000000 }
    ensures threshold { result.threshold ≡ 5000000000000 }
    ensures objects { length result.tracks ≡ 2 }
{
    sized(rt, alloc, a, b, Size::Point)
}

/// A case of three points.
pub fn three(rt: &impl Abort, alloc: Global, a: Object, b: Object, c: Object) -> Problem
    ensures first { result.window.first.micros ≡ tick_of 0 }
    ensures last { result.window.last.micros ≡ tick_of 60000000 }
    ensures threshold { result.threshold ≡ 5000000000000 }
    ensures objects { length result.tracks ≡ 3 }
{
    let tracks = vec![in alloc;
        track(rt, alloc, a),
        track(rt, alloc, b),
        track(rt, alloc, c),
    ];
    Problem {
        tracks: Tracks::new(tracks.expect(rt, "no fault")),
        window: seconds(0, 60),
        threshold: 5_000_000_000_000,
        sizes: Sizes::new(vec![in alloc; 0, 0, 0].expect(rt, "no fault")),
        primaries: Primaries::all(),
    }
}

/// The case of some objects.
pub fn case_of(rt: &impl Abort, alloc: Global, objects: Objects) -> Problem
    ensures first { result.window.first.micros ≡ tick_of 0 }
    ensures last { result.window.last.micros ≡ tick_of 60000000 }
    ensures threshold { result.threshold ≡ 5000000000000 }
{
    match objects {
        Objects::One(a) => one(rt, alloc, a),
        Objects::Two(a, b) => two(rt, alloc, a, b),
        Objects::Sized(a, b, size) => sized(rt, alloc, a, b, size),
        Objects::Three(a, b, c) => three(rt, alloc, a, b, c),
    }
}
