//! Days counted from 1 January 1970, as years, months and days.
ghost use Rattle.std.specs.Prelude.{◌≡◌, ◌+◌, ◌-◌, ◌<◌, ◌≤◌};
ghost use Rattle.httpdate.specs.Calendar as calendar;

/// How many days lie between 1 January 1601, behind a year that ended a cycle of 400, and 1 January 1970.
const DAYS_1601_TO_1970: u32 = 134_774;

/// Whether February has 29 days: in every fourth year, but of the centuries only in every fourth.
fn is_leap_year(year: u16) -> bool
    ensures { result ≡ calendar.is_leap_year year }
{
    year % 4 == 0 && (year % 100 != 0 || year % 400 == 0)
}

fn days_in_year(year: u16) -> u32
    ensures { result ≡ calendar.days_in_year year }
{
    if is_leap_year(year) { 366 } else { 365 }
}

fn days_in_month(year: u16, month: u8) -> u32
    ensures { result ≡ calendar.days_in_month year month }
{
    match month {
        2 => { if is_leap_year(year) { 29 } else { 28 } }
        4 | 6 | 9 | 11 => 30,
        _ => 31,
    }
}

/// How many days lie between 1 January 1970 and that of this year.
fn days_before(year: u16) -> u32
    requires low { 1970 ≤ year }
    requires high { year ≤ 9999 }
    ensures { result ≡ calendar.days_of_years (year - 1970) }
{
    let past = u32::from(year) - 1601;
    past * 365 + past / 4 - past / 100 + past / 400 - DAYS_1601_TO_1970
}

/// The year of a day, and how many days of it lie before that day.
fn year_of(day: u32) -> (u16, u32)
    requires { day < 2_932_897 }
    ensures low { 1970 ≤ result.0 }
    ensures high { result.0 ≤ 9999 }
    ensures within { result.1 < calendar.days_in_year result.0 }
    ensures value { calendar.days_of_years (result.0 - 1970) + result.1 ≡ day }
{
    // A year has 366 days at most, so this one has begun.
    let earliest = 1970 + (day / 366) as u16;
    let mut left = day - days_before(earliest);
    'years: for year in earliest..9999 {
        let days = days_in_year(year);
        if left < days {
            return (year, left);
        }
        left -= days;
    }
    (9999, left)
}

/// The date of a day: its year, its month and its day in it.
pub(crate) fn date_of(day: u32) -> (u16, u8, u8)
    requires { day < 2_932_897 }
    ensures civil { calendar.IsCivilDate result.0 result.1 result.2 }
    ensures value { calendar.days_from_civil result.0 result.1 result.2 ≡ day }
{
    let (year, day_of_year) = year_of(day);
    let mut left = day_of_year;
    'months: for month in 1..12 {
        let days = days_in_month(year, month);
        if left < days {
            return (year, month, left as u8 + 1);
        }
        left -= days;
    }
    (year, 12, left as u8 + 1)
}
