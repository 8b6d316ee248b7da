//! Moments in the form `YYYY-MM-DDTHH:MM:SSZ`.
ghost use Rattle.std.specs.Prelude.{◌≡◌, ◌<◌, ◌≤◌, ◌^◌, ◌-◌, ◌+◌, ◌*◌, ◌≤ℤ◌, pos, length, is_some, IsTrue, IfSome, IfOk};
ghost use Rattle.jiff_core.specs.Date.{epoch_day, IsYmd};
ghost use Rattle.mj_time.specs.Moment.{fields_of, field, has_separators, is_date, is_time, is_in_range, milliseconds_at, moment_of};
ghost use Rattle.mj_time.specs.Fields.{HasFewDigits};

use jiff::civil::Date;
use mj_delays::numeral;
use thiserror::Error;

/// Why a text gives no moment.
#[derive(Clone, Copy, Debug, PartialEq, Eq, Error)]
pub enum MomentFault {
    /// The text has another form, or there is no such date or time.
    #[error("not a moment")]
    Bad,
    /// The year isn't one from 1970 to 2100. The form, the date and the time are judged first.
    #[error("the year is out of range")]
    OutOfRange,
    /// Memory ran out. Reading a moment takes none, so it never answers this.
    #[error("out of memory")]
    Memory,
}

/// The numbers of a moment's text.
#[derive(Clone, Copy)]
struct Fields {
    year: u32,
    month: u32,
    day: u32,
    hour: u32,
    minute: u32,
    second: u32,
}

/// Whether the text has the form's length and its separators.
fn has_separators(text: &[u8]) -> bool
    ensures { result ≡ has_separators text.now }
{
    text.len() == 20
        && text[4] == b'-'
        && text[7] == b'-'
        && text[10] == b'T'
        && text[13] == b':'
        && text[16] == b':'
        && text[19] == b'Z'
}

/// The number that the digits from one place up to another spell.
fn field(text: &[u8], from: usize, to: usize) -> Option<u32>
    requires in_order { from ≤ to }
    requires within { to ≤ length text.now }
    ensures value { result ≡ field text.now from to }
    ensures small { IfSome result (λ n. n < 10 ^ (to - from)) }
{
    numeral(&text[from..to])
}

/// The numbers of a text that has the form.
#[tactic(auto, unfolding(crate::specs::Moment::fields_of))]
fn read_fields(text: &[u8]) -> Option<Fields>
    ensures value { result ≡ fields_of text.now }
    ensures small { IfSome result HasFewDigits }
{
    if !has_separators(text) {
        return None;
    }
    let year = field(text, 0, 4)?;
    let month = field(text, 5, 7)?;
    let day = field(text, 8, 10)?;
    let hour = field(text, 11, 13)?;
    let minute = field(text, 14, 16)?;
    let second = field(text, 17, 19)?;
    Some(Fields {
        year,
        month,
        day,
        hour,
        minute,
        second,
    })
}

/// The date of the numbers, if the calendar has it.
fn date_of(fields: &Fields) -> Option<Date>
    requires { HasFewDigits fields.now }
    ensures exists { is_some result ≡ is_date fields.now }
    ensures date { IfSome result (IsYmd (pos fields.now.year) (pos fields.now.month) (pos fields.now.day)) }
{
    Date::new(fields.year as i16, fields.month as i8, fields.day as i8).ok()
}

/// Whether a clock shows the time.
fn is_time(fields: &Fields) -> bool
    ensures { result ≡ is_time fields.now }
{
    fields.hour < 24 && fields.minute < 60 && fields.second < 60
}

/// Whether the year is one from 1970 to 2100.
fn is_in_range(fields: &Fields) -> bool
    ensures { result ≡ is_in_range fields.now }
{
    fields.year >= 1970 && fields.year <= 2100
}

/// The number of a day, from 1970-01-01 on.
fn day_number(date: Date) -> u64
    requires { pos 0 ≤ℤ epoch_day date }
    ensures value { pos result ≡ epoch_day date }
    ensures bound { result ≤ 2_932_896 }
{
    date.to_plain().to_unix_epoch_day() as u64
}

/// The moment of a date and time.
#[tactic(auto, using(crate::proofs::Days::not_negative, crate::proofs::Days::epoch_day_is))]
fn milliseconds_at(date: Date, fields: &Fields) -> u64
    requires date { IsYmd (pos fields.now.year) (pos fields.now.month) (pos fields.now.day) date }
    requires time { IsTrue (is_time fields.now) }
    requires late { IsTrue (is_in_range fields.now) }
    ensures value { result ≡ milliseconds_at fields.now }
    ensures bound { result < 4_133_980_800_000 }
{
    let day = day_number(date);
    let second = fields.hour * 3_600 + fields.minute * 60 + fields.second;
    (day * 86_400 + u64::from(second)) * 1_000
}

/// The moment that a text of exactly the form `YYYY-MM-DDTHH:MM:SSZ` spells, in milliseconds since
/// 1970-01-01T00:00:00Z, on the Gregorian calendar and with seconds from 00 to 59.
///
/// `Bad` is a text of another form, or one with a date or a time that there isn't. `OutOfRange` is a
/// year outside 1970 to 2100.
pub fn read_moment(text: &[u8]) -> Result<u64, MomentFault>
    // The moment, or why there is none, by what the text says alone.
    ensures exact { result ≡ moment_of text.now }
    // The year 2101 begins then.
    ensures bound { IfOk result (λ moment. moment < 4_133_980_800_000) }
{
    let fields = read_fields(text).ok_or(MomentFault::Bad)?;
    let date = date_of(&fields).ok_or(MomentFault::Bad)?;
    if !is_time(&fields) {
        return Err(MomentFault::Bad);
    }
    if !is_in_range(&fields) {
        return Err(MomentFault::OutOfRange);
    }
    Ok(milliseconds_at(date, &fields))
}
