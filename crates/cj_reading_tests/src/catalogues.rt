use cj_gen::catalogue;
use std::panic::Expect;

/// What the seed 0 gives for one object over one minute.
const ONE: &[u8] = b"CCSDS_OEM_VERS = 2.0
CREATION_DATE = 2025-01-01T00:00:00
ORIGINATOR = CONJ
META_START
OBJECT_NAME = GEN 00001
OBJECT_ID = GEN-00001
CENTER_NAME = EARTH
REF_FRAME = EME2000
TIME_SYSTEM = UTC
START_TIME = 2025-01-01T00:00:00
STOP_TIME = 2025-01-01T00:01:00
INTERPOLATION = HERMITE
INTERPOLATION_DEGREE = 3
META_STOP
2025-01-01T00:00:00 -6846.731 -391.509 -939.621 1.094164 -2.830597 -6.793433
2025-01-01T00:01:00 -6766.893 -560.413 -1344.990 1.566206 -2.797590 -6.714216
COVARIANCE_START
EPOCH = 2025-01-01T00:00:00
COV_REF_FRAME = RTN
1E-4
0 1E-4
0 0 1E-4
0 0 0 1E-10
0 0 0 0 1E-10
0 0 0 0 0 1E-10
COVARIANCE_STOP
";

#[test]
fn one_object_over_one_minute(rt: HostRuntime) {
    let files = catalogue(rt.alloc(), 0, 1, 1).expect(&rt, "no fault");
    assert_eq!(rt; files.len(), 1);
    let file = files.first().ok_or("no file").expect(&rt, "no fault");
    assert_eq!(rt; file.name.as_slice(), b"GEN00001.oem".as_slice());
    assert_eq!(rt; file.bytes.as_slice(), ONE);
}

/// Whether a text has this line.
fn has_line(text: &[u8], line: &[u8]) -> bool {
    text.split(|b| *b == b'\n').any(|l| l == line)
}

#[test]
fn fifty_objects_over_two_hours(rt: HostRuntime) {
    let files = catalogue(rt.alloc(), 0, 50, 120).expect(&rt, "no fault");
    assert_eq!(rt; files.len(), 50);
    let file = files.last().ok_or("no file").expect(&rt, "no fault");
    assert_eq!(rt; file.name.as_slice(), b"GEN00050.oem".as_slice());
    let text = file.bytes.as_slice();
    assert!(rt; text.starts_with(b"CCSDS_OEM_VERS = 2.0\n"));
    assert!(rt; text.ends_with(b"\nCOVARIANCE_STOP\n"));
    let first = b"2025-01-01T00:00:00 5259.530 1264.344 4334.894 -4.853728 1.582971 5.427329";
    let last = b"2025-01-01T02:00:00 -3883.725 1607.721 5512.189 -6.171930 -1.168893 -4.007633";
    assert!(rt; has_line(text, b"OBJECT_ID = GEN-00050"));
    assert!(rt; has_line(text, b"STOP_TIME = 2025-01-01T02:00:00"));
    assert!(rt; has_line(text, first));
    assert!(rt; has_line(text, last));
}
