//! Sums, products, fractions and roots by their numbers.
ghost use Rattle.std.specs.Prelude.{◌≡◌, ◌≤ℤ◌};

use cj_interval::{Divisor, Span, isqrt_down, isqrt_up};

fn span(lo: i128, hi: i128) -> Span
    requires { lo ≤ℤ hi }
    ensures lower { result.lo ≡ lo }
    ensures upper { result.hi ≡ hi }
{
    Span { lo, hi }
}

#[test]
fn ends_of_sums_differences_and_products(rt: HostRuntime) {
    let first = span(-2, 3);
    let second = span(-5, 4);
    assert_eq!(rt; first.add(second), span(-7, 7));
    assert_eq!(rt; first.sub(second), span(-6, 8));
    assert_eq!(rt; first.mul(second), span(-15, 12));
    assert_eq!(rt; second.mul(second), span(-20, 25));
    assert_eq!(rt; span(2, 3).mul(span(4, 5)), span(8, 15));
    assert_eq!(rt; span(2, 3).mul(span(-5, -4)), span(-15, -8));
    assert_eq!(rt; span(-3, -2).mul(span(4, 5)), span(-15, -8));
    assert_eq!(rt; span(-3, -2).mul(span(-5, -4)), span(8, 15));
    assert_eq!(rt; first.scale(20), span(-40, 60));
}

#[test]
fn levels_round_outward(rt: HostRuntime) {
    assert_eq!(rt; span(-1, 0).lerp(span(1, 2), 1, 3, 1), span(-1, 1));
    assert_eq!(rt; span(3, 3).lerp(span(6, 6), 1, 3, 1), span(4, 4));
    assert_eq!(rt; Span::between(7, 7, 0, 2, 3), span(2, 3));
    assert_eq!(rt; Span::between(-7, -7, 0, 2, 3), span(-3, -2));
}

#[test]
fn fractions_round_down_and_up(rt: HostRuntime) {
    let end: i64 = 1 << 59;
    let hour = 3_600_000_000;
    for (of, at, a, b, down, up) in [
        (1, 0, 5, -9, 5, 5),
        (1, 1, -end, end, end, end),
        (3, 0, 7, 8, 7, 7),
        (3, 1, 0, 1, 0, 1),
        (3, 1, 0, -1, -1, 0),
        (3, 2, 1, 2, 1, 2),
        (3, 3, -end, end, end, end),
        (
            3,
            1,
            -end,
            end,
            -192_153_584_101_141_163,
            -192_153_584_101_141_162,
        ),
        (hour, 0, -end, end, -end, -end),
        (hour, 1, -end, end, 320_255_973 - end, 320_255_974 - end),
        (hour, hour / 2, -end, end, 0, 0),
        (
            hour,
            hour - 1,
            -end,
            end,
            end - 320_255_974,
            end - 320_255_973,
        ),
        (hour, hour, end, -end, -end, -end),
    ] {
        assert!(rt;
            0 < of && of <= hour && at <= of && -end <= a && a <= end && -end <= b && b <= end
        );
        let fraction = Divisor::new(7).like(of).fraction(at);
        assert_eq!(rt; fraction.down(a, b), down, "down {at} of {of}");
        assert_eq!(rt; fraction.up(a, b), up, "up {at} of {of}");
    }
}

#[test]
fn roots_of_squares_and_of_their_neighbours(rt: HostRuntime) {
    let most = 1 << 63;
    for (square, down, up) in [
        (0, 0, 0),
        (1, 1, 1),
        (2, 1, 2),
        (3, 1, 2),
        (4, 2, 2),
        (10_u128.pow(30) - 1, 10_u64.pow(15) - 1, 10_u64.pow(15)),
        (10_u128.pow(30), 10_u64.pow(15), 10_u64.pow(15)),
        (
            2 * 10_u128.pow(30),
            1_414_213_562_373_095,
            1_414_213_562_373_096,
        ),
        ((1 << 126) - 1, most - 1, most),
        (1 << 126, most, most),
    ] {
        assert!(rt; square <= 1 << 126);
        assert_eq!(rt; isqrt_down(square), down, "down {square}");
        assert_eq!(rt; isqrt_up(square), up, "up {square}");
    }
}
