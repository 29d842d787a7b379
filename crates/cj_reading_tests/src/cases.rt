use cj_samples::{crossing, second};
use std::panic::Expect;
use std::process::Abort;

#[test]
fn the_points_cross_one_kilometre_apart(rt: HostRuntime) {
    let problem = crossing(rt.alloc()).expect(&rt, "no fault");
    let mut places = Vec::new(rt.alloc());
    for track in problem.tracks.as_slice() {
        for segment in track.segments.as_slice() {
            for node in segment.nodes.as_slice() {
                places
                    .push((node.at, node.p.x, node.p.y, node.p.z))
                    .expect(&rt, "no fault");
            }
        }
    }
    let half = 225_000_000_000_000;
    let wanted = [
        (second(0), 7_000_000_000_000_000, -half, 0),
        (second(60), 7_000_000_000_000_000, half, 0),
        (second(0), 7_001_000_000_000_000, 0, -half),
        (second(60), 7_001_000_000_000_000, 0, half),
    ];
    assert_eq!(rt; places.as_slice(), wanted.as_slice());
}
