//! Numbers in fields.
ghost use Rattle.std.specs.Prelude.{◌≡◌, ◌≤◌, ◌<◌, ◌^◌, true, length};
ghost use Rattle.std.specs.List.{list_all};
ghost use Rattle.std.specs.Char.{is_ascii_digit};
ghost use Rattle.std.specs.Str.Parse.{digits_value};
ghost use Rattle.mj_container.specs.Matching.{is_long_numeral};
ghost use Rattle.mj_match.specs.Conditions.{long_number};

/// The most digits of a number.
const MOST_DIGITS: usize = 18;

/// The number that 1 to 18 decimal digits spell; `None` for any other text.
pub(crate) fn long_number(text: &[u8]) -> Option<u64>
    ensures { result ≡ long_number text.now }
{
    if is_long_numeral(text) {
        Some(value_of(text))
    } else {
        None
    }
}

fn is_long_numeral(text: &[u8]) -> bool
    ensures { result ≡ is_long_numeral text.now }
{
    let digits = text.len();
    if digits < 1 || digits > MOST_DIGITS {
        return false;
    }
    are_digits(text)
}

fn are_digits(text: &[u8]) -> bool
    ensures { result ≡ list_all is_ascii_digit text.now }
{
    text.iter().all(|byte| byte.is_ascii_digit())
}

fn value_of(text: &[u8]) -> u64
    requires short { length text.now ≤ 18 }
    requires digits { list_all is_ascii_digit text.now ≡ true }
    ensures { result ≡ digits_value 10 text.now }
{
    let mut value = 0;
    for byte in text {
        value = value * 10 + u64::from(*byte - b'0');
    }
    value
}
