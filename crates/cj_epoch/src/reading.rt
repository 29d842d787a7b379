ghost use Rattle.std.specs.Prelude.{◌≡◌, ◌<◌, ◌≤◌, length, IsTrue, MatchOption, IfOk, IfSome};
ghost use Rattle.std.specs.Char.{is_ascii_digit};
ghost use Rattle.std.specs.Io.BufRead.{strip_last};
ghost use Rattle.std.specs.List.{list_all};
ghost use Rattle.cj_epoch.specs.Picture as pictures;
ghost use Rattle.cj_epoch.specs.Reading as spec;
ghost use Rattle.cj_epoch.specs.Reading.{CALENDAR, ORDINAL, Gives, reading_of, calendar_reading, ordinal_reading, moment_of, second_at};
ghost use Rattle.cj_base.specs.Ticks.{IsTickDay};

use crate::days::{day_at_date, day_at_ordinal};
use crate::digits::{are_zeros, raised};
use crate::fault::EpochFault;
use crate::picture::begins_like;
use cj_base::{DAY, SECOND, Tick};
use cj_kvn::{has_digits_alone, number_from_digits};

/// The tick that an epoch text says, in one of the forms `YYYY-MM-DDThh:mm:ss` and `YYYY-DDDThh:mm:ss`, with decimals of the
/// second and `Z` behind it or not.
///
/// # Errors
///
/// The first fault in the order of `EpochFault`.
#[tactic(auto, unfolding(crate::specs::Reading::reading_of))]
pub fn read_epoch(text: &[u8]) -> Result<Tick, EpochFault>
    ensures { Gives result (reading_of text.now) }
{
    if begins_like(b"YYYY-MM-DDThh:mm:ss", text) {
        read_calendar(text)
    } else if begins_like(b"YYYY-DDDThh:mm:ss", text) {
        read_ordinal(text)
    } else {
        Err(EpochFault::Form)
    }
}

/// A text that begins like `YYYY-MM-DDThh:mm:ss`.
fn read_calendar(text: &[u8]) -> Result<Tick, EpochFault>
    requires like { IsTrue (pictures.begins_like CALENDAR text.now) }
    requires long { 19 ≤ length text.now }
    ensures { Gives result (calendar_reading text.now) }
{
    let day = day_at_date(
        number_from_digits(&text[..4]),
        number_from_digits(&text[5..7]),
        number_from_digits(&text[8..10]),
    );
    let second = second_of_day(
        number_from_digits(&text[11..13]),
        number_from_digits(&text[14..16]),
        number_from_digits(&text[17..19]),
    );
    moment(day, second, &text[19..])
}

/// A text that begins like `YYYY-DDDThh:mm:ss`.
fn read_ordinal(text: &[u8]) -> Result<Tick, EpochFault>
    requires like { IsTrue (pictures.begins_like ORDINAL text.now) }
    requires long { 17 ≤ length text.now }
    ensures { Gives result (ordinal_reading text.now) }
{
    let day = day_at_ordinal(
        number_from_digits(&text[..4]),
        number_from_digits(&text[5..8]),
    );
    let second = second_of_day(
        number_from_digits(&text[9..11]),
        number_from_digits(&text[12..14]),
        number_from_digits(&text[15..17]),
    );
    moment(day, second, &text[17..])
}

/// The seconds from midnight to a time of the day.
fn second_of_day(hour: u32, minute: u32, second: u32) -> Result<u32, EpochFault>
    ensures value { result ≡ second_at hour minute second }
    ensures range { IfOk result (λ s. s < 86_400) }
{
    if hour > 23 || minute > 59 || second > 60 {
        return Err(EpochFault::Range);
    }
    if second == 60 {
        return Err(EpochFault::SecondSixty);
    }
    Ok((hour * 60 + minute) * 60 + second)
}

/// The tick on that day, if there is such a day, at that second, if there is such a second, and the decimals behind it.
fn moment(
    day: Option<u32>,
    second: Result<u32, EpochFault>,
    ending: &[u8],
) -> Result<Tick, EpochFault>
    requires days { IfSome day IsTickDay }
    requires seconds { IfOk second (λ s. s < 86_400) }
    ensures { Gives result (moment_of day second ending.now) }
{
    let decimals = decimals_of(ending).ok_or(EpochFault::Form)?;
    let day = day.ok_or(EpochFault::Range)?;
    let second = second?;
    let micros = micros_of(decimals)?;
    Ok(Tick {
        micros: u64::from(day) * DAY + u64::from(second) * SECOND + u64::from(micros),
    })
}

/// The decimals of the second, where nothing stands behind them but perhaps a `Z`.
fn decimals_of(ending: &[u8]) -> Option<&[u8]>
    ensures value { MatchOption result (spec.decimals_of ending.now ≡ None) (λ d. spec.decimals_of ending.now ≡ Some d.now) }
    ensures all { IfSome result (λ d. IsTrue (list_all is_ascii_digit d.now)) }
{
    match without_zulu(ending) {
        [] => Some(&[]),
        [b'.', digits @ ..] if !digits.is_empty() && has_digits_alone(digits) => Some(digits),
        _ => None,
    }
}

/// A text without the `Z` at its end.
fn without_zulu(text: &[u8]) -> &[u8]
    ensures { result.now ≡ strip_last 90 text.now }
{
    match text {
        [front @ .., b'Z'] => front,
        _ => text,
    }
}

/// The microseconds that decimals of a second say, where each digit past the sixth is 0.
fn micros_of(decimals: &[u8]) -> Result<u32, EpochFault>
    requires { IsTrue (list_all is_ascii_digit decimals.now) }
    ensures value { result ≡ spec.micros_of decimals.now }
    ensures range { IfOk result (λ m. m < 1_000_000) }
{
    let (six, rest) = decimals.split_at(decimals.len().min(6));
    if are_zeros(rest) {
        Ok(raised(number_from_digits(six), 6 - six.len()))
    } else {
        Err(EpochFault::TooFine)
    }
}
