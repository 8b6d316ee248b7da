//! Numbers in the arguments of matchers.
ghost use Rattle.std.specs.Prelude.{◌≡◌, ◌^◌, ◌<◌, ◌≤◌, true, if◌then◌else◌, Some, None, length, IfSome};
ghost use Rattle.std.specs.List.{list_all};
ghost use Rattle.std.specs.Char.{is_ascii_digit};
ghost use Rattle.std.specs.Str.Parse.{digits_value};
ghost use Rattle.mj_config_walk.specs.Values.{Gives};
ghost use Rattle.mj_config_walk.specs.Arguments.{count, digits, last, size, unit, without_unit};

use mj_config_walk::{PlanKind, Refusal};

/// The number that 1 to so many decimal digits spell, and None for any other text.
pub(crate) fn digits(most: usize, text: &[u8]) -> Option<u64>
    requires { most ≤ 18 }
    ensures value { result ≡ digits most text.now }
    ensures small { IfSome result (λ n. n < 10 ^ most) }
{
    if text.is_empty() || text.len() > most {
        return None;
    }
    value_of_digits(text)
}

/// The number of a text that isn't too long, if it is of digits alone.
fn value_of_digits(text: &[u8]) -> Option<u64>
    requires { length text.now ≤ 18 }
    ensures value { result ≡ (if list_all is_ascii_digit text.now then Some (digits_value 10 text.now) else None) }
    ensures small { IfSome result (λ n. n < 10 ^ length text.now) }
{
    if are_digits(text) {
        Some(value_of(text))
    } else {
        None
    }
}

fn are_digits(text: &[u8]) -> bool
    ensures { result ≡ list_all is_ascii_digit text.now }
{
    text.iter().all(|byte| byte.is_ascii_digit())
}

fn value_of(text: &[u8]) -> u64
    requires short { length text.now ≤ 18 }
    requires digits { list_all is_ascii_digit text.now ≡ true }
    ensures value { result ≡ digits_value 10 text.now }
    ensures small { result < 10 ^ length text.now }
{
    let mut value = 0;
    for byte in text {
        value = value * 10 + u64::from(*byte - b'0');
    }
    value
}

/// How many bytes a unit stands for; any other byte is none.
fn unit(byte: u8) -> u64
    ensures value { result ≡ unit byte }
    ensures least { 1 ≤ result }
    ensures most { result ≤ 1_048_576 }
{
    match byte {
        b'k' => 1_024,
        b'm' => 1_048_576,
        _ => 1,
    }
}

/// The unit at the end of a text.
fn last_unit(text: &[u8]) -> u64
    ensures value { result ≡ unit (last text.now) }
    ensures most { result ≤ 1_048_576 }
{
    match text.last() {
        Some(last) => unit(*last),
        None => 1,
    }
}

/// The text without the unit at its end.
fn without_unit(text: &[u8]) -> &[u8]
    ensures { result.now ≡ without_unit text.now }
{
    match text.split_last() {
        Some((last, rest)) if unit(*last) != 1 => rest,
        _ => text,
    }
}

/// A number of bytes: 1 to 9 digits, and maybe `k` or `m`.
pub(crate) fn size(text: &[u8]) -> Result<u64, Refusal>
    ensures { Gives result (size text.now) }
{
    match digits(9, without_unit(text)) {
        Some(number) => Ok(number * last_unit(text)),
        None => Err(Refusal::Kind(PlanKind::BadArgument)),
    }
}

/// A count from 1 to 9,999.
pub(crate) fn count(text: &[u8]) -> Result<u32, Refusal>
    ensures { Gives result (count text.now) }
{
    match digits(9, text) {
        Some(number) if number >= 1 && number <= 9_999 => Ok(number as u32),
        _ => Err(Refusal::Kind(PlanKind::BadArgument)),
    }
}
