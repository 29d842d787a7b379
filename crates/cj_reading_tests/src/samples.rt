use cj_samples::{AT_7000, AT_7005, Change, append_lines, rest, second, track_of_two};
use std::panic::Expect;
use std::process::Abort;

#[test]
fn a_track_at_rest_has_the_nodes_of_its_segments(rt: HostRuntime) {
    let alloc = rt.alloc();
    let one = rest(alloc, 0, 30, AT_7000).expect(&rt, "no fault");
    let other = rest(alloc, 30, 60, AT_7005).expect(&rt, "no fault");
    let track = track_of_two(alloc, one, other).expect(&rt, "no fault");
    let mut places = Vec::new(alloc);
    for segment in track.segments.as_slice() {
        for node in segment.nodes.as_slice() {
            places.push((node.at, node.p.x)).expect(&rt, "no fault");
        }
    }
    let wanted = [
        (second(0), AT_7000.x),
        (second(30), AT_7000.x),
        (second(30), AT_7005.x),
        (second(60), AT_7005.x),
    ];
    assert_eq!(rt; places.as_slice(), wanted.as_slice());
}

#[test]
fn a_line_is_changed_by_its_number(rt: HostRuntime) {
    let alloc = rt.alloc();
    let mut text = Vec::new(alloc);
    let changes: [Change; 3] = [(2, b"X"), (3, b"Y"), (5, b"Z")];
    append_lines(&mut text, 2, &[b"A", b"B", b"C"], changes.as_slice()).expect(&rt, "no fault");
    assert_eq!(rt; text.as_slice(), b"Y\nB\nZ\n".as_slice());
}
