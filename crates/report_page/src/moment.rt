//! Moments as dates.
ghost use Rattle.std.specs.Prelude.{◌≡◌, ◌≤◌, ◌<◌, Some, cond};
ghost use Rattle.report_page.specs.Moment.{date_of, date_text, days_before_month, days_before_year, is_leap, moment_text};
ghost use Rattle.report_page.specs.Moment.{month_of, time_text, two_digits, year_of};

use std::fmt;

/// A moment in nanoseconds from the first of January 1970, UTC. It prints to the second, as `2026-11-29 05:07:09 UTC`.
#[derive(Clone, Copy)]
pub(crate) struct Moment(pub u64);

impl fmt::Display for Moment {
    ghost output = { λ moment. Some (moment_text moment.0) };

    #[tactic(auto, unfolding(crate::specs::Moment::moment_text))]
    fn fmt<W: fmt::Write>(&self, f: &mut fmt::Formatter<W>) -> fmt::Result {
        let second = self.0 / 1_000_000_000;
        let date = date_of(second / 86_400);
        let time = Time(second % 86_400);
        write!(f, "{date} {time} UTC")
    }
}

/// A date: its year, its month from 1 and its day of the month from 1.
#[derive(Clone, Copy)]
struct Date {
    year: u64,
    month: u64,
    day: u64,
}

impl fmt::Display for Date {
    ghost output = { λ date. Some (date_text date) };

    #[tactic(auto, unfolding(crate::specs::Moment::date_text))]
    fn fmt<W: fmt::Write>(&self, f: &mut fmt::Formatter<W>) -> fmt::Result {
        let year = self.year;
        let month = TwoDigits(self.month);
        let day = TwoDigits(self.day);
        write!(f, "{year}-{month}-{day}")
    }
}

/// The date of a day, by the number of days from the first of January 1970 to it.
#[tactic(auto, unfolding(crate::specs::Moment::date_of))]
fn date_of(day: u64) -> Date
    requires { day < 1000000000 }
    ensures { result ≡ date_of day }
{
    let year = year_of(day);
    let leap = is_leap(year);
    let rest = day.saturating_sub(days_before_year(year));
    let month = month_of(leap, rest);
    Date {
        year,
        month: month + 1,
        day: rest.saturating_sub(days_before_month(leap, month)) + 1,
    }
}

/// The time of a second of a day.
#[derive(Clone, Copy)]
struct Time(u64);

impl fmt::Display for Time {
    ghost output = { λ time. Some (time_text time.0) };

    #[tactic(auto, unfolding(crate::specs::Moment::time_text))]
    fn fmt<W: fmt::Write>(&self, f: &mut fmt::Formatter<W>) -> fmt::Result {
        let hour = TwoDigits(self.0 / 3600);
        let minute = TwoDigits(self.0 / 60 % 60);
        let second = TwoDigits(self.0 % 60);
        write!(f, "{hour}:{minute}:{second}")
    }
}

/// A number below 100 in two digits.
#[derive(Clone, Copy)]
struct TwoDigits(u64);

impl fmt::Display for TwoDigits {
    ghost output = { λ number. Some (two_digits number.0) };

    fn fmt<W: fmt::Write>(&self, f: &mut fmt::Formatter<W>) -> fmt::Result {
        let tens = self.0 / 10;
        let ones = self.0 % 10;
        write!(f, "{tens}{ones}")
    }
}

/// Whether a year has a 29th of February.
fn is_leap(year: u64) -> bool
    ensures { result ≡ is_leap year }
{
    year % 4 == 0 && (year % 100 != 0 || year % 400 == 0)
}

/// The days from the first of January 1970 to that of a year, from 1970 to 2600.
fn days_before_year(year: u64) -> u64
    requires { (1970 ≤ year) × (year ≤ 2600) }
    ensures { result ≡ days_before_year year }
{
    365 * (year - 1970) + (year - 1969) / 4 - (year - 1901) / 100 + (year - 1601) / 400
}

/// One where this is so, and else nothing.
fn one_if(so: bool) -> u64
    ensures { result ≡ cond so 1 0 }
{
    if so { 1 } else { 0 }
}

/// The year of a day.
fn year_of(day: u64) -> u64
    ensures year { result ≡ year_of day }
    ensures range { (1970 ≤ result) × (result ≤ 2600) }
{
    let mut years = 0;
    for index in 0..600 {
        years += one_if(days_before_year(1971 + index) <= day);
    }
    1970 + years
}

/// The days of a year before each of its months, where it is no leap year.
const DAYS_BEFORE: [u64; 12] = [0, 31, 59, 90, 120, 151, 181, 212, 243, 273, 304, 334];

/// The days of a year before a month, by its number from 0.
fn days_before_month(leap: bool, month: u64) -> u64
    requires { month < 12 }
    ensures { result ≡ days_before_month leap month }
{
    let days = DAYS_BEFORE[month as usize];
    if leap && month >= 2 { days + 1 } else { days }
}

/// The month of a day of a year, from 0.
fn month_of(leap: bool, day: u64) -> u64
    ensures month { result ≡ month_of leap day }
    ensures range { result < 12 }
{
    let mut months = 0;
    for index in 0..11 {
        months += one_if(days_before_month(leap, 1 + index) <= day);
    }
    months
}
