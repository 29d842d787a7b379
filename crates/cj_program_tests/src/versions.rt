//! The formats of a certificate, by the numbers of their versions.
use cj_formats::{CertFormat, CertVersion};

#[test]
fn two_numbers_are_those_of_versions(rt: HostRuntime) {
    let cases = [
        (0, None),
        (1, Some(CertVersion::One)),
        (2, Some(CertVersion::Two)),
        (3, None),
        (u64::MAX, None),
    ];
    for (number, expected) in cases {
        assert_eq!(rt; CertVersion::from_number(number), expected, "{number}");
    }
}

#[test]
fn a_version_has_its_number_and_its_range_of_objects(rt: HostRuntime) {
    assert_eq!(rt; CertVersion::One.number(), 1);
    assert_eq!(rt; CertVersion::Two.number(), 2);
    assert_eq!(rt; CertVersion::One.most_objects(), 2_000);
    assert_eq!(rt; CertVersion::Two.most_objects(), 2_000);
}

#[test]
fn a_format_has_the_number_of_its_version_and_its_range_of_objects(rt: HostRuntime) {
    let cases = [
        (CertFormat::Full(CertVersion::One), 1, 2_000),
        (CertFormat::Full(CertVersion::Two), 2, 2_000),
        (CertFormat::Brief, 3, 65_535),
    ];
    for (format, number, most_objects) in cases {
        assert_eq!(rt; format.number(), number);
        assert_eq!(rt; format.most_objects(), most_objects);
    }
}
