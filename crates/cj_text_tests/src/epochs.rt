use cj_base::{Tick, Window};
use cj_epoch::{EpochFault, epoch_text, leap_between, read_epoch};
use std::panic::Expect;

#[test]
fn writes_epochs(rt: HostRuntime) {
    assert_eq!(rt;
        epoch_text(Tick::FIRST).as_slice(),
        b"1972-01-01T00:00:00.000000".as_slice()
    );
    assert_eq!(rt;
        epoch_text(Tick::LAST).as_slice(),
        b"2099-12-31T23:59:59.999999".as_slice()
    );
    let leap_day = Tick::nearest(951_868_799_000_007);
    assert_eq!(rt;
        epoch_text(leap_day).as_slice(),
        b"2000-02-29T23:59:59.000007".as_slice()
    );
}

fn reads(text: &[u8]) -> Result<u64, EpochFault> {
    Ok(read_epoch(text)?.micros)
}

#[test]
fn reads_both_forms(rt: HostRuntime) {
    assert_eq!(rt; reads(b"2025-001T00:00:00Z"), Ok(1_735_689_600_000_000));
    assert_eq!(rt;
        reads(b"2024-366T23:59:59.999999"),
        Ok(1_735_689_599_999_999)
    );
    assert_eq!(rt;
        reads(b"2025-01-01T00:00:00.1234560"),
        Ok(1_735_689_600_123_456)
    );
    assert_eq!(rt; reads(b"1972-01-01T00:00:00"), Ok(63_072_000_000_000));
    assert_eq!(rt;
        reads(b"2099-12-31T23:59:59.9999990000Z"),
        Ok(4_102_444_799_999_999)
    );
    assert_eq!(rt; reads(b"2000-02-29T12:34:56.5Z"), Ok(951_827_696_500_000));
    assert_eq!(rt; reads(b"2024-060T00:00:00"), Ok(1_709_164_800_000_000));
}

#[test]
fn a_text_of_no_form_is_refused_first(rt: HostRuntime) {
    let form = Err(EpochFault::Form);
    assert_eq!(rt; reads(b"2025-01-01T00:00:00."), form);
    assert_eq!(rt; reads(b"2025-01-01T00:00:00.Z"), form);
    assert_eq!(rt; reads(b"2025-01-01T00:00:00.1234567ZZ"), form);
    assert_eq!(rt; reads(b"2025-01-01T00:00:00,5"), form);
    assert_eq!(rt; reads(b"2025-13-01 00:00:00"), form);
    assert_eq!(rt; reads(b"2025-13-01T00:00:60.x"), form);
    assert_eq!(rt; reads(b"2025-0001T00:00:00"), form);
    assert_eq!(rt; reads(b"2025-01-01T00:00"), form);
}

#[test]
fn a_moment_that_does_not_exist_is_refused_next(rt: HostRuntime) {
    let range = Err(EpochFault::Range);
    assert_eq!(rt; reads(b"1971-12-31T23:59:60"), range);
    assert_eq!(rt; reads(b"2100-02-28T00:00:00"), range);
    assert_eq!(rt; reads(b"2023-02-29T00:00:60"), range);
    assert_eq!(rt; reads(b"2024-02-30T00:00:00"), range);
    assert_eq!(rt; reads(b"2025-00-01T00:00:00"), range);
    assert_eq!(rt; reads(b"2025-366T00:00:00"), range);
    assert_eq!(rt; reads(b"2025-000T00:00:00"), range);
    assert_eq!(rt; reads(b"2025-01-01T24:00:00"), range);
    assert_eq!(rt; reads(b"2025-01-01T00:60:60"), range);
    assert_eq!(rt; reads(b"2025-01-01T00:00:61.0000001"), range);
}

#[test]
fn second_sixty_comes_before_decimals_that_are_too_fine(rt: HostRuntime) {
    assert_eq!(rt;
        reads(b"2016-12-31T23:59:60.0000001"),
        Err(EpochFault::SecondSixty)
    );
    assert_eq!(rt;
        reads(b"2025-01-01T00:00:00.1234567"),
        Err(EpochFault::TooFine)
    );
    assert_eq!(rt;
        reads(b"2025-01-01T00:00:00.12345600000010Z"),
        Err(EpochFault::TooFine)
    );
}

#[test]
fn a_leap_second_lies_before_the_first_tick_of_the_next_day(rt: HostRuntime) {
    let before_2017 = Tick::nearest(1_483_228_799_999_999);
    let new_year_2017 = Tick::nearest(1_483_228_800_000_000);
    assert!(rt; leap_between(before_2017, new_year_2017));
    assert!(rt; !leap_between(new_year_2017, Tick::LAST));
    assert!(rt; !leap_between(new_year_2017, before_2017));
    let before_july_1972 = Tick::nearest(78_796_799_999_999);
    assert!(rt; !leap_between(Tick::FIRST, before_july_1972));
    assert!(rt; leap_between(before_july_1972, before_2017));
}

#[test]
fn a_window_has_both_its_ends(rt: HostRuntime) {
    let first = Tick::new(1_735_689_600_000_000)
        .ok_or("no tick")
        .expect(&rt, "no fault");
    let last = Tick::new(1_735_689_600_000_009)
        .ok_or("no tick")
        .expect(&rt, "no fault");
    let window = Window { first, last };
    assert_eq!(rt; window.ticks(), 10);
    assert!(rt; window.contains(first) && window.contains(last));
    let turned = Window {
        first: last,
        last: first,
    };
    assert_eq!(rt; turned.ticks(), 0);
    assert!(rt; !turned.contains(first));
    assert_eq!(rt; Tick::new(4_102_444_800_000_000), None);
}
