use cj_kvn::{NumFault, read_scaled};
use std::panic::Expect;

#[test]
fn kilometres_are_rounded_to_nanometres(rt: HostRuntime) {
    assert_eq!(rt;
        read_scaled(b"7000.0000000000005", 12),
        Ok(7_000_000_000_000_001)
    );
    assert_eq!(rt;
        read_scaled(b"-7000.0000000000005", 12),
        Ok(-7_000_000_000_000_001)
    );
    assert_eq!(rt; read_scaled(b"1E3", 12), Ok(1_000_000_000_000_000));
    assert_eq!(rt; read_scaled(b"4e-13", 12), Ok(0));
    assert_eq!(rt; read_scaled(b"5e-13", 12), Ok(1));
    assert_eq!(rt; read_scaled(b"E5", 12), Err(NumFault::NotNumber));
    assert_eq!(rt; read_scaled(b"1e40", 12), Err(NumFault::TooLarge));
}

#[test]
fn forms_of_a_number(rt: HostRuntime) {
    let numbers: [(&[u8], i128); 10] = [
        (b"5.", 500),
        (b".5", 50),
        (b"+5", 500),
        (b"-.5e+1", -500),
        (b"007", 700),
        (b"1e0001", 1000),
        (b"12E-1", 120),
        (b"-0", 0),
        (b"0e9999", 0),
        (b"1e-9999", 0),
    ];
    for (text, value) in &numbers {
        assert_eq!(rt; read_scaled(text, 2), Ok(*value));
    }
}

#[test]
fn texts_that_are_no_numbers(rt: HostRuntime) {
    let texts: [&[u8]; 20] = [
        b"", b"+", b"-", b".", b"-.", b"e5", b".e5", b"1e", b"1e+", b"1E-", b"1e12345", b"1e00001",
        b"1e5e5", b"1e5.0", b"1.2.3", b"--5", b"+-5", b" 1", b"1 ", b"0x10",
    ];
    for text in &texts {
        assert_eq!(rt; read_scaled(text, 12), Err(NumFault::NotNumber));
    }
}

#[test]
fn the_greatest_size(rt: HostRuntime) {
    let greatest = 1_000_000_000_000_000_000_000_000_000_000_000_000;
    assert_eq!(rt; read_scaled(b"1e24", 12), Ok(greatest));
    assert_eq!(rt; read_scaled(b"-1e24", 12), Ok(-greatest));
    let below_half = b"1000000000000000000000000.0000000000004999";
    assert_eq!(rt; read_scaled(below_half, 12), Ok(greatest));
    let half = b"1000000000000000000000000.0000000000005";
    assert_eq!(rt; read_scaled(half, 12), Err(NumFault::TooLarge));
    assert_eq!(rt; read_scaled(b"1e9999", 0), Err(NumFault::TooLarge));
}

#[test]
fn thousands_of_digits(rt: HostRuntime) {
    let mut small = vec![in rt.alloc(); b'0'; 3000].expect(&rt, "no fault");
    small.extend_from_slice(b".").expect(&rt, "no fault");
    small
        .extend_from_slice([b'0'; 3000].as_slice())
        .expect(&rt, "no fault");
    small.extend_from_slice(b"25e3001").expect(&rt, "no fault");
    assert_eq!(rt; read_scaled(small.as_slice(), 0), Ok(3));
    let mut large = vec![in rt.alloc(); b'9'; 3000].expect(&rt, "no fault");
    large.extend_from_slice(b"e-2990").expect(&rt, "no fault");
    assert_eq!(rt; read_scaled(large.as_slice(), 0), Ok(10_000_000_000));
}
