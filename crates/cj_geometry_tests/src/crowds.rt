//! As many objects as a case may have, whatever limits a run is given.
ghost use Rattle.std.specs.Prelude.{◌≡◌, ◌*◌, ◌≤◌, All, IfOk, length};
ghost use Rattle.cj_base.specs.Bounds.{MOST_OBJECTS};
ghost use Rattle.cj_case.specs.CaseLimits.{node_total};
ghost use Rattle.cj_track.specs.declared.frame.Frame.TheVariants.{Eme2000};
ghost use Rattle.cj_track.specs.Segments.{node_count};

use cj_case::{Primaries, Problem, Sizes, Tracks};
use cj_samples::{rest, seconds, track_of};
use cj_track::{Track, Vec3};
use std::alloc::{AllocError, Global};
use std::panic::Expect;

/// An object at rest, with two nodes.
fn object(alloc: Global) -> Result<Track, AllocError>
    ensures frame { IfOk result (λ track. track.frame ≡ Eme2000) }
    ensures nodes { IfOk result (λ track. node_count track.segments ≡ 2) }
{
    let place = Vec3 {
        x: 7_000_000_000_000_000,
        y: 0,
        z: 0,
    };
    track_of(alloc, rest(alloc, 0, 59, place)?)
}

/// So many of them.
fn objects(alloc: Global, count: u32) -> Result<Vec<Track>, AllocError>
    ensures many { IfOk result (λ tracks. length tracks.items ≡ count) }
    ensures frames { IfOk result (λ tracks. All (λ track. track.frame ≡ Eme2000) tracks.items) }
    ensures nodes { IfOk result (λ tracks. node_total tracks.items ≡ 2 * count) }
{
    let mut tracks = Vec::new(alloc);
    for _ in 0..count {
        let track = object(alloc)?;
        tracks.push(track)?;
    }
    Ok(tracks)
}

/// A case of so many points at rest, over a minute. By its contract it has up to 65,535 of them, and no more.
fn crowd(alloc: Global, count: u32) -> Result<Problem, AllocError>
    requires { count ≤ MOST_OBJECTS }
    ensures { IfOk result (λ problem. length problem.tracks ≡ count) }
{
    let tracks = Tracks::new(objects(alloc, count)?);
    let sizes = Sizes::new(vec![in alloc; 0; count as usize]?);
    Ok(Problem {
        tracks,
        window: seconds(0, 59),
        threshold: 5_000_000_000_000,
        sizes,
        primaries: Primaries::all(),
    })
}

/// One more object than the usual limit of a run.
#[test]
fn a_case_has_more_objects_than_the_usual_limit(rt: HostRuntime) {
    let problem = crowd(rt.alloc(), 2_001).expect(&rt, "no fault");
    assert_eq!(rt; problem.tracks.as_slice().len(), 2_001);
}
