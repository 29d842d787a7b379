ghost use Rattle.std.specs.Prelude.{◌≡◌, ◌+◌, ◌≤◌, pos, ◌≤ℤ◌, IfSome};
ghost use Rattle.jiff_core.specs.Calendar.{day_count};
ghost use Rattle.cj_base.specs.Calendar as spec;
ghost use Rattle.cj_base.specs.Calendar.{civil_of};
ghost use Rattle.cj_base.specs.Ticks.{IsTickDay};

use jiff_core::civil::Date;

/// The days from the first day that `Date` has to 1 January 1970.
const DAYS_BEFORE_1970: u32 = 4_371_587;

/// The date that many days after 1 January 1970, up to the year 2099.
pub fn date_after(days: u32) -> Date
    requires { days ≤ 47_481 }
    ensures year { result.year ≡ pos (civil_of days).year }
    ensures month { result.month ≡ (civil_of days).month }
    ensures day { result.day ≡ (civil_of days).day }
{
    Date::from_days_since_min(days + DAYS_BEFORE_1970)
}

/// The days from 1 January 1970 to a date, if the calendar has it in the years of ticks.
pub fn day_at_date(year: u32, month: u32, day: u32) -> Option<u32>
    ensures value { result ≡ spec.day_at_date year month day }
    ensures range { IfSome result IsTickDay }
{
    if !is_year(year) || month > 12 || day > 31 {
        return None;
    }
    match Date::new(year as i16, month as i8, day as i8) {
        Ok(date) => Some(days_before(date)),
        Err(_) => None,
    }
}

/// The days from 1 January 1970 to the day with this place in its year, counted from 1, if the year is so long.
pub fn day_at_ordinal(year: u32, day: u32) -> Option<u32>
    ensures value { result ≡ spec.day_at_ordinal year day }
    ensures range { IfSome result IsTickDay }
{
    if !is_year(year) || day > 366 {
        return None;
    }
    match Date::from_day_of_year(year as i16, day as i16) {
        Ok(date) => Some(days_before(date)),
        Err(_) => None,
    }
}

/// The years of ticks.
fn is_year(year: u32) -> bool
    ensures { result ≡ spec.is_year year }
{
    1972 <= year && year <= 2099
}

/// The days from 1 January 1970 to a date in the years of ticks.
fn days_before(date: Date) -> u32
    requires low { pos 1972 ≤ℤ date.year }
    requires high { date.year ≤ℤ pos 2099 }
    ensures value { result + 4_371_953 ≡ day_count date.year date.month date.day }
    ensures range { IsTickDay result }
{
    date.days_since_min() - DAYS_BEFORE_1970
}
