ghost use Rattle.std.specs.Prelude.{◌≡◌, ◌<◌};
ghost use Rattle.cj_base.specs.Calendar.{civil_of};
ghost use Rattle.cj_epoch.specs.Reading.{reading_of};
ghost use Rattle.cj_epoch.specs.Written as spec;
ghost use Rattle.cj_epoch.specs.Written.{epoch_of};

use crate::days::date_after;
use cj_base::{DAY, HOUR, MINUTE, SECOND, Tick};

/// A tick as text, in the form `YYYY-MM-DDThh:mm:ss.ffffff`.
pub fn epoch_text(at: Tick) -> [u8; 26]
    ensures exact { result ≡ epoch_of at.micros }
    ensures read_again { reading_of result ≡ Ok at.micros }
{
    let [y1, y2, y3, y4, dash1, m1, m2, dash2, d1, d2] = date_text((at.micros / DAY) as u32);
    let [h1, h2, colon1, n1, n2, colon2, s1, s2] = clock_text(at.micros);
    let [f1, f2, f3, f4, f5, f6] = six((at.micros % SECOND) as u32);
    [
        y1, y2, y3, y4, dash1, m1, m2, dash2, d1, d2, b'T', h1, h2, colon1, n1, n2, colon2, s1, s2,
        b'.', f1, f2, f3, f4, f5, f6,
    ]
}

/// The date of the day that comes so many days after 1 January 1970, as `YYYY-MM-DD`.
fn date_text(days: u32) -> [u8; 10]
    requires { days < 47_482 }
    ensures { result ≡ spec.date_text (civil_of days) }
{
    let date = date_after(days);
    let year = date.year as u32;
    let [y1, y2] = two(year / 100);
    let [y3, y4] = two(year);
    let [m1, m2] = two(date.month as u32);
    let [d1, d2] = two(date.day as u32);
    [y1, y2, y3, y4, b'-', m1, m2, b'-', d1, d2]
}

/// The time of the day, as `hh:mm:ss`.
fn clock_text(micros: u64) -> [u8; 8]
    ensures { result ≡ spec.clock_text micros }
{
    let [h1, h2] = two((micros / HOUR % 24) as u32);
    let [m1, m2] = two((micros / MINUTE % 60) as u32);
    let [s1, s2] = two((micros / SECOND % 60) as u32);
    [h1, h2, b':', m1, m2, b':', s1, s2]
}

/// The last six digits of a number.
fn six(number: u32) -> [u8; 6]
    ensures { result ≡ spec.six number }
{
    let [d1, d2] = two(number / 10_000);
    let [d3, d4] = two(number / 100);
    let [d5, d6] = two(number);
    [d1, d2, d3, d4, d5, d6]
}

/// The last two digits of a number.
fn two(number: u32) -> [u8; 2]
    ensures { result ≡ spec.two number }
{
    [b'0' + (number / 10 % 10) as u8, b'0' + (number % 10) as u8]
}
