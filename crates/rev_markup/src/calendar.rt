//! Moments of the Unix clock, as a reader sees them: in UTC.
ghost use Rattle.std.specs.Prelude.{◌≡◌, ◌≤◌, ◌<◌, ◌+◌, ◌-◌, ◌++◌, OnOk};
ghost use Rattle.rev_markup.specs.Calendar as rule;

use crate::numbers::{put_plain, put_two};
use std::alloc::AllocError;

/// The seconds of a day.
const DAY: u32 = 86400;

/// A day of the calendar.
#[derive(Clone, Copy, Debug, PartialEq, Eq)]
pub struct Date {
    pub year: u32,
    /// From 1, and so is the day.
    pub month: u32,
    pub day: u32,
}

// Whether a year has a 29th of February.
fn is_leap(year: u32) -> bool
    ensures { result ≡ rule.is_leap year }
{
    year % 4 == 0 && (year % 100 != 0 || year % 400 == 0)
}

// How many days a year has.
fn year_days(year: u32) -> u32
    ensures { result ≡ rule.year_days year }
{
    if is_leap(year) { 366 } else { 365 }
}

// How many days a month of a year has.
fn month_days(year: u32, month: u32) -> u32
    ensures { result ≡ rule.month_days year month }
{
    if month == 2 {
        if is_leap(year) { 29 } else { 28 }
    } else if month == 4 || month == 6 || month == 9 || month == 11 {
        30
    } else {
        31
    }
}

/// A day of a year, from 0 on.
#[derive(Clone, Copy)]
struct DayOfYear {
    year: u32,
    day: u32,
}

// The year of a day, counted from 0 on 1970-01-01, and which day of the year it is.
fn year_of(day: u32) -> DayOfYear
    requires { day < 50000 }
    ensures count { rule.days_of_years (result.year - 1970) + result.day ≡ day }
    ensures years { 1970 ≤ result.year }
    ensures within { result.day < rule.year_days result.year }
{
    let mut year = 1970;
    let mut rest = day;
    'years: while rest >= year_days(year) {
        rest -= year_days(year);
        year += 1;
    }
    DayOfYear { year, day: rest }
}

// The date of a day of a year.
fn date_in(of: DayOfYear) -> Date
    requires { of.day < rule.year_days of.year }
    ensures year { result.year ≡ of.year }
    ensures count { rule.days_of_months of.year (result.month - 1) + (result.day - 1) ≡ of.day }
    ensures month_first { 1 ≤ result.month }
    ensures month_last { result.month ≤ 12 }
    ensures day_first { 1 ≤ result.day }
    ensures day_last { result.day ≤ rule.month_days of.year result.month }
{
    let mut month = 1;
    let mut rest = of.day;
    'months: while month < 12 && rest >= month_days(of.year, month) {
        rest -= month_days(of.year, month);
        month += 1;
    }
    Date {
        year: of.year,
        month,
        day: rest + 1,
    }
}

/// The date of a day, counted from 0 on 1970-01-01.
pub fn date_of(day: u32) -> Date
    requires { day < 50000 }
    ensures { rule.IsDateOf day result }
{
    date_in(year_of(day))
}

/// Puts the time of day of a second of the Unix clock, in UTC.
pub fn put_time_of_day(out: &mut Vec<u8>, second: u32) -> Result<(), AllocError>
    ensures { OnOk result (out.new.items ≡ out.old.items ++ rule.time_text second) }
{
    let in_day = second % DAY;
    put_two(out, u64::from(in_day / 3600))?;
    out.extend_from_slice(b":")?;
    put_two(out, u64::from(in_day / 60 % 60))?;
    out.extend_from_slice(b":")?;
    put_two(out, u64::from(in_day % 60))
}

// Puts a date.
fn put_date(out: &mut Vec<u8>, date: Date) -> Result<(), AllocError>
    ensures { OnOk result (out.new.items ≡ out.old.items ++ rule.date_text date) }
{
    put_plain(out, u64::from(date.year))?;
    out.extend_from_slice(b"-")?;
    put_two(out, u64::from(date.month))?;
    out.extend_from_slice(b"-")?;
    put_two(out, u64::from(date.day))
}

/// Puts date and time of a second of the Unix clock, in UTC.
pub fn put_moment(out: &mut Vec<u8>, second: u32) -> Result<(), AllocError>
    ensures { OnOk result (rule.IsMoment second out.old.items out.new.items) }
{
    put_date(out, date_of(second / DAY))?;
    out.extend_from_slice(b" ")?;
    put_time_of_day(out, second)?;
    out.extend_from_slice(b" UTC")
}
