use cj_kvn::{has_digits_alone, number_from_digits};

#[test]
fn digits_write_their_number(rt: HostRuntime) {
    assert_eq!(rt; number_from_digits(b""), 0);
    assert_eq!(rt; number_from_digits(b"7"), 7);
    assert_eq!(rt; number_from_digits(b"0190"), 190);
    assert_eq!(rt; number_from_digits(b"999999"), 999_999);
}

#[test]
fn other_bytes_are_no_digits(rt: HostRuntime) {
    let texts: [(&[u8], bool); 7] = [
        (b"", true),
        (b"0", true),
        (b"0123456789", true),
        (b"/", false),
        (b":", false),
        (b"12a", false),
        (b" 12", false),
    ];
    for (text, alone) in &texts {
        assert_eq!(rt; has_digits_alone(text), *alone);
    }
}
