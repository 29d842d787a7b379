use cj_kvn::{NumFault, decimal_text, read_decimal};
use std::panic::Expect;

#[test]
fn a_covariance_in_square_metres(rt: HostRuntime) {
    let kilometres = read_decimal(b"3.3313494e-04").expect(&rt, "no fault");
    assert_eq!(rt; (kilometres.digits, kilometres.exponent), (33_313_494, -11));
    let metres = kilometres.shift(6);
    assert_eq!(rt;
        decimal_text(metres).as_slice(),
        b"3.3313494E+02".as_slice()
    );
}

#[test]
fn texts_of_decimals(rt: HostRuntime) {
    let texts: [(&[u8], &[u8]); 8] = [
        (b"0", b"0.0E+00"),
        (b"-0.000e5", b"0.0E+00"),
        (b"1000000", b"1.0E+06"),
        (b"-125", b"-1.25E+02"),
        (b"0.5", b"5.0E-01"),
        (b"1e-99", b"1.0E-99"),
        (b"9.99999999999999999e99", b"9.99999999999999999E+99"),
        (b"12345678901234567.8", b"1.23456789012345678E+16"),
    ];
    for (text, printed) in &texts {
        let value = read_decimal(text).expect(&rt, "no fault");
        assert_eq!(rt; decimal_text(value).as_slice(), *printed);
    }
}

#[test]
fn eighteen_digits_count(rt: HostRuntime) {
    let half = read_decimal(b"1234567890123456785").expect(&rt, "no fault");
    assert_eq!(rt; (half.digits, half.exponent), (123_456_789_012_345_679, 1));
    let below_half = read_decimal(b"-1234567890123456784.999").expect(&rt, "no fault");
    assert_eq!(rt;
        (below_half.digits, below_half.exponent),
        (123_456_789_012_345_678, 1)
    );
    let carried = read_decimal(b"999999999999999999.5").expect(&rt, "no fault");
    assert_eq!(rt; (carried.digits, carried.exponent), (1, 18));
}

#[test]
fn the_least_and_the_greatest_decimal(rt: HostRuntime) {
    let below = read_decimal(b"9.999999999999999999e-100").expect(&rt, "no fault");
    assert_eq!(rt; (below.digits, below.exponent), (0, 0));
    assert_eq!(rt;
        read_decimal(b"9.999999999999999999e99"),
        Err(NumFault::TooLarge)
    );
    assert_eq!(rt; read_decimal(b"1e100"), Err(NumFault::TooLarge));
    assert_eq!(rt; read_decimal(b"1e"), Err(NumFault::NotNumber));
}
