//! `Day`, a day of the calendar, and the last day of a pledge's period.

ghost use Rattle.jiff_core.specs.Calendar.{IsEpochDay};
ghost use Rattle.jiff_core.specs.Date.{epoch_day};
ghost use Rattle.jiff_span.specs.Months.{add_months, IsShiftable};
ghost use Rattle.pawn_terms.specs.Calendar.{Civil, last_request_day, final_day, IsDayNumber, IsRequestDay, IsRequestCivil};
ghost use Rattle.pawn_terms.specs.Calendar.{civil_of, day_number, six_months, later_of, period_end, day_text};
ghost use Rattle.pawn_terms.specs.Calendar.{civil_text, IsWritable, digit};
ghost use Rattle.std.specs.Int.{IsInRange};
ghost use Rattle.std.specs.Prelude.{◌≡◌, ◌↔◌, ℕ, ◌+◌, ◌≤◌, ◌<◌, ◌/◌, pos, ◌≤ℤ◌, unsigned_abs, IsOk, IfOk, IsSome};
ghost use Rattle.std.specs.Prelude.{IfSome, IfNone, codes};

use crate::limits::{FINAL_DAY, FIRST_DAY};
use jiff::ToSpan;
use jiff::civil::Date;
use jiff_core::civil;
use std::error::Error;
use std::fmt;
use std::marker::Model;

/// The error for a text or number that names no day, or a day that is out of range.
#[derive(Clone, Copy, Debug, PartialEq, Eq)]
pub struct BadDay;

impl BadDay {
    /// The code of the fault in replies.
    pub fn code(self) -> u16
        ensures value { result ≡ 101 }
    {
        101
    }

    /// The name of the fault in replies.
    pub fn name(self) -> &'static str
        ensures value { result.now ≡ codes "BadDay" }
    {
        "BadDay"
    }
}

impl fmt::Display for BadDay {
    ghost use Rattle.std.specs.Prelude.{Some, codes};

    ghost output = { λ fault. Some (codes "BadDay") };

    fn fmt<W: fmt::Write>(&self, f: &mut fmt::Formatter<W>) -> fmt::Result {
        f.write_str(self.name())
    }
}

impl Error for BadDay {}

/// A day from 2000-01-01 to 2299-12-31. In contracts the value is the day number, counted from 1970-01-01.
#[derive(Clone, Copy, PartialEq, Eq, PartialOrd, Ord)]
pub struct Day {
    number: u32,
}

impl Model for Day {
    ghost Value = { ℕ };

    ghost view = { λ d. d.number };

    ghost invariant = { λ d. IsDayNumber d.number };

    ghost inverse = { λ n. record { number = n } };
}

impl Day {
    /// The days since 1970-01-01.
    pub fn number(self) -> i32
        ensures value { result ≡ pos self }
        ensures in_range { IsDayNumber self }
    {
        self.number as i32
    }

    /// The days since 1970-01-01, as an unsigned number.
    pub fn count(self) -> u32
        ensures value { result ≡ self }
        ensures in_range { IsDayNumber self }
    {
        self.number
    }

    /// The day with this number, counted from 1970-01-01. `BadDay` if it is not from 2000-01-01 to 2299-12-31.
    pub fn of_number(number: i32) -> Result<Day, BadDay>
        ensures ok { IfOk result (λ d. pos d ≡ number) }
        ensures succeeds { IsOk result ↔ ((n : ℕ) × (number ≡ pos n) × IsDayNumber n) }
    {
        if number < FIRST_DAY as i32 || number > FINAL_DAY as i32 {
            return Err(BadDay);
        }
        Ok(Day {
            number: number as u32,
        })
    }

    /// The day `days` days later, which must not be after 2299-12-31.
    pub fn plus_days(self, days: u32) -> Day
        requires within { self + days ≤ final_day }
        ensures value { result ≡ self + days }
    {
        Day {
            number: self.number + days,
        }
    }

    /// The day of a `jiff` date, which must be from 2000-01-01 to 2299-12-31.
    fn of_date(date: civil::Date) -> Day
        requires low { pos 10957 ≤ℤ epoch_day date }
        requires high { epoch_day date ≤ℤ pos 120529 }
        ensures number { pos result ≡ epoch_day date }
    {
        Day {
            number: date.to_unix_epoch_day() as u32,
        }
    }

    /// The day as a `jiff` date.
    fn date(self) -> civil::Date
        ensures value { epoch_day result ≡ pos self }
        ensures in_range { IsDayNumber self }
    {
        civil::Date::from_unix_epoch_day(self.number as i64).unwrap()
    }

    /// The day of a year, a month and a day of the month. `BadDay` if the calendar has no such day, or it is not from
    /// 2000-01-01 to 2199-12-31.
    pub fn from_ymd(year: u16, month: u8, day: u8) -> Result<Day, BadDay>
        ensures succeeds { IsOk result ↔ IsRequestCivil (record { year = year; month = month; day = day }) }
        ensures value { IfOk result (λ d. civil_of d ≡ record { year = year; month = month; day = day }) }
        ensures number { IfOk result (λ d. d ≡ day_number (record { year = year; month = month; day = day })) }
        ensures in_range { IfOk result IsRequestDay }
    {
        if year < 2000 || year > 2199 || month > 12 || day > 31 {
            return Err(BadDay);
        }
        match Date::new(year as i16, month as i8, day as i8) {
            Ok(date) => Ok(Day::of_date(date.to_plain())),
            Err(_) => Err(BadDay),
        }
    }

    /// The day that a text such as `2024-01-31` names, in exactly this form. `BadDay` for any other text, and for a day
    /// that is not from 2000-01-01 to 2199-12-31.
    pub fn of_text(text: &[u8]) -> Result<Day, BadDay>
        ensures ok { IfOk result (λ d. (text.now ≡ day_text d) × IsRequestDay d) }
        ensures succeeds { IsOk result ↔ ((n : ℕ) × IsRequestDay n × (text.now ≡ day_text n)) }
    {
        match civil_in(text) {
            Some((year, month, day)) => Day::from_ymd(year, month, day),
            None => Err(BadDay),
        }
    }

    /// The text of the day, such as `2024-01-31`.
    pub fn text(self) -> [u8; 10]
        ensures value { result ≡ day_text self }
    {
        date_text(self.date())
    }

    /// The same day six calendar months later, or the last day of that month if it is shorter. This day must not be
    /// after 2199-12-31.
    pub fn six_months_after(self) -> Day
        requires within { self ≤ last_request_day }
        ensures value { result ≡ six_months self }
    {
        Day::of_date(six_months_on(self.date()))
    }

    /// The later of this day and `other`; this day if `other` is `None`.
    fn later_of(self, other: Option<Day>) -> Day
        ensures value { result ≡ later_of self other }
    {
        match other {
            Some(day) if day > self => day,
            _ => self,
        }
    }
}

/// The text of a `jiff` date, such as `2024-01-31`. The year must not be negative.
fn date_text(date: civil::Date) -> [u8; 10]
    requires year { pos 0 ≤ℤ date.year }
    ensures value { result ≡ civil_text (record { year = unsigned_abs date.year; month = date.month; day = date.day }) }
{
    let year = date.year as u32;
    let month = date.month as u32;
    let day = date.day as u32;
    [
        digit_of(year / 1000),
        digit_of(year / 100),
        digit_of(year / 10),
        digit_of(year),
        b'-',
        digit_of(month / 10),
        digit_of(month),
        b'-',
        digit_of(day / 10),
        digit_of(day),
    ]
}

/// The ASCII character of the last decimal digit of a number.
fn digit_of(number: u32) -> u8
    ensures value { result ≡ digit number }
{
    b'0' + (number % 10) as u8
}

/// The year, month and day of a text such as `2024-01-31`, whether or not the calendar has that day. Returns `None` for
/// a text of any other form.
fn civil_in(text: &[u8]) -> Option<(u16, u8, u8)>
    ensures some { IfSome result (λ p. text.now ≡ civil_text (record { year = p.0; month = p.1; day = p.2 })) }
    ensures writable { IfSome result (λ p. IsWritable (record { year = p.0; month = p.1; day = p.2 })) }
    ensures none { IfNone result ((c : Civil) → IsWritable c → text.now ≡ civil_text c → ⊥) }
{
    if text.len() != 10 {
        return None;
    }
    if text[4] != b'-' {
        return None;
    }
    if text[7] != b'-' {
        return None;
    }
    let century = two_digits(text[0], text[1])?;
    let years = two_digits(text[2], text[3])?;
    let month = two_digits(text[5], text[6])?;
    let day = two_digits(text[8], text[9])?;
    Some((century as u16 * 100 + years as u16, month, day))
}

/// The number that two ASCII digits form, or `None` if one of them is not a digit.
fn two_digits(tens: u8, ones: u8) -> Option<u8>
    ensures value { IfSome result (λ n. (n < 100) × (tens ≡ digit (n / 10)) × (ones ≡ digit n)) }
    ensures digits { IsSome result ↔ (IsInRange 48 57 tens × IsInRange 48 57 ones) }
{
    if tens.is_ascii_digit() && ones.is_ascii_digit() {
        Some((tens - b'0') * 10 + (ones - b'0'))
    } else {
        None
    }
}

/// The date six months later, as `jiff` computes it.
fn six_months_on(date: civil::Date) -> civil::Date
    requires year { IsShiftable date (pos 6) }
    requires day { IsEpochDay (add_months date (pos 6)) }
    ensures number { epoch_day result ≡ add_months date (pos 6) }
{
    Date::from_plain(date)
        .checked_add(6i64.months())
        .unwrap()
        .to_plain()
}

/// The last day of a pledge's period: the latest of the day six months after the pledge was taken, the agreed end, and
/// the end of the last extension. `taken` must not be after 2199-12-31.
pub fn last_day(taken: Day, agreed: Option<Day>, extended: Option<Day>) -> Day
    requires within { taken ≤ last_request_day }
    ensures value { result ≡ period_end taken agreed extended }
{
    taken.six_months_after().later_of(agreed).later_of(extended)
}
