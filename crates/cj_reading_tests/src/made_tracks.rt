use cj_gen::catalogue_tracks;
use std::panic::Expect;

#[test]
fn fifty_tracks_over_two_hours(rt: HostRuntime) {
    let tracks = catalogue_tracks(rt.alloc(), 0, 50, 120).expect(&rt, "no fault");
    assert_eq!(rt; tracks.len(), 50);
    let track = tracks.last().ok_or("no track").expect(&rt, "no fault");
    assert_eq!(rt; track.file.as_slice(), b"GEN00050.oem".as_slice());
    assert_eq!(rt; track.id.as_slice(), b"GEN-00050".as_slice());
    let segment = track
        .segments
        .as_slice()
        .first()
        .ok_or("no segment")
        .expect(&rt, "no fault");
    assert_eq!(rt; segment.first.micros, 1_735_689_600_000_000);
    assert_eq!(rt; segment.last.micros, 1_735_696_800_000_000);
    assert_eq!(rt; segment.nodes.as_slice().len(), 121);
    assert_eq!(rt; segment.matrices.as_slice().len(), 1);
    let node = segment
        .nodes
        .as_slice()
        .last()
        .ok_or("no node")
        .expect(&rt, "no fault");
    assert_eq!(rt; node.p.x, -3_883_725_000_000_000);
    assert_eq!(rt; node.v.z, -4_007_633_000_000);
}
