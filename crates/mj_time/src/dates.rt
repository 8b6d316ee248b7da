//! Dates as mail writes them.
ghost use Rattle.std.specs.Prelude.{◌≡◌, ◌<◌, ◌≤◌, ◌+◌, ◌/◌, ◌%◌, pos, ◌≤ℤ◌, unsigned_abs, IfOk, length};
ghost use Rattle.std.specs.List.{flat_map};
ghost use Rattle.jiff_core.specs.Date.{epoch_day, weekday_of};
ghost use Rattle.jiff.specs.Types.{Date as CivilDate};
ghost use Rattle.jiff_core.specs.Weekday.{monday_zero};
ghost use Rattle.mj_time.specs.DateText.{two_digits, weekday_name, month_name, line_of, day_number, second_of_day, date_text_of, date_text_on};

use jiff::ToSpan;
use jiff::civil::{Date, Weekday, date};
use std::alloc::{AllocError, Global};

/// The bytes of a date text.
const DATE_TEXT_LEN: usize = 31;

/// The milliseconds of a day.
const DAY: u64 = 86_400_000;

/// A number below 100 in two digits.
fn two_digits(n: u32) -> [u8; 2]
    requires { n < 100 }
    ensures { result ≡ two_digits n }
{
    [b'0' + (n / 10) as u8, b'0' + (n % 10) as u8]
}

/// The name of a day of the week.
fn weekday_name(weekday: Weekday) -> &'static [u8]
    ensures { result.now ≡ weekday_name (monday_zero weekday) }
{
    match weekday {
        Weekday::Monday => b"Mon",
        Weekday::Tuesday => b"Tue",
        Weekday::Wednesday => b"Wed",
        Weekday::Thursday => b"Thu",
        Weekday::Friday => b"Fri",
        Weekday::Saturday => b"Sat",
        Weekday::Sunday => b"Sun",
    }
}

/// The name of a month, where January is 1.
fn month_name(month: u8) -> &'static [u8]
    requires from { 1 ≤ month }
    requires to { month ≤ 12 }
    ensures { result.now ≡ month_name month }
{
    match month {
        1 => b"Jan",
        2 => b"Feb",
        3 => b"Mar",
        4 => b"Apr",
        5 => b"May",
        6 => b"Jun",
        7 => b"Jul",
        8 => b"Aug",
        9 => b"Sep",
        10 => b"Oct",
        11 => b"Nov",
        _ => b"Dec",
    }
}

/// The pieces in a row.
fn joined(alloc: Global, pieces: &[&[u8]]) -> Result<Vec<u8>, AllocError>
    ensures { IfOk result (λ text. text.items ≡ flat_map (λ piece. piece.now) pieces.now) }
{
    let mut text = Vec::with_capacity(alloc, DATE_TEXT_LEN)?;
    for piece in pieces {
        text.extend_from_slice(piece)?;
    }
    Ok(text)
}

/// The date of the day with this number from 1970-01-01 on.
fn date_at(day: u64) -> Date
    requires { day ≤ 2_932_896 }
    ensures { epoch_day result ≡ pos day }
{
    date(1970, 1, 1).checked_add((day as i64).days()).unwrap()
}

/// The numbers of a date and a time.
#[derive(Clone, Copy)]
struct Parts {
    year: u32,
    month: u8,
    day: u32,
    second: u32,
}

/// The date text of a weekday, a date and the seconds since its midnight.
fn line(alloc: Global, weekday: Weekday, parts: Parts) -> Result<Vec<u8>, AllocError>
    requires year { parts.year < 10_000 }
    requires month_from { 1 ≤ parts.month }
    requires month_to { parts.month ≤ 12 }
    requires day { parts.day < 100 }
    requires second { parts.second < 86_400 }
    ensures { IfOk result (λ text. text.items
        ≡ line_of (monday_zero weekday) parts.year parts.month parts.day parts.second) }
{
    joined(
        alloc,
        &[
            weekday_name(weekday),
            b", ",
            &two_digits(parts.day),
            b" ",
            month_name(parts.month),
            b" ",
            &two_digits(parts.year / 100),
            &two_digits(parts.year % 100),
            b" ",
            &two_digits(parts.second / 3_600),
            b":",
            &two_digits(parts.second / 60 % 60),
            b":",
            &two_digits(parts.second % 60),
            b" +0000",
        ],
    )
}

/// The numbers of a date from 1970 on, and of the seconds since its midnight.
#[tactic(auto, using(crate::proofs::Civil::late_year_of))]
fn parts_of(date: Date, second: u32) -> Parts
    requires { pos 0 ≤ℤ epoch_day date }
    ensures year { result.year ≡ unsigned_abs date.year }
    ensures year_small { result.year < 10_000 }
    ensures month { result.month ≡ date.month }
    ensures day { result.day ≡ date.day }
    ensures second { result.second ≡ second }
{
    Parts {
        year: u32::from(date.year().unsigned_abs()),
        month: date.month() as u8,
        day: date.day() as u32,
        second,
    }
}

/// The date text of a moment (RFC 5322, section 3.3), as `Mon, 01 Jan 2024 00:00:00 +0000`: 31
/// bytes, the day with two digits, in UTC. The moment is in milliseconds since
/// 1970-01-01T00:00:00Z and before the year 10000; its milliseconds are dropped.
pub fn date_text(alloc: Global, moment: u64) -> Result<Vec<u8>, AllocError>
    requires { moment < 253_402_300_800_000 }
    ensures text { IfOk result (λ text. text.items ≡ date_text_of moment) }
    // The same by the calendar: the date is the one whose day number is the moment's.
    ensures civil { IfOk result (λ text. (d : CivilDate) → epoch_day d ≡ pos (day_number moment)
        → text.items ≡ date_text_on d moment) }
{
    let date = date_at(moment / DAY);
    let second = (moment / 1_000 % 86_400) as u32;
    line(alloc, date.weekday(), parts_of(date, second))
}
