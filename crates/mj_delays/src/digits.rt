//! Numerals of decimal digits.
ghost use Rattle.std.specs.Prelude.{◌≡◌, ◌≤◌, ◌<◌, ◌^◌, true, IfSome, length};
ghost use Rattle.std.specs.List.{list_all};
ghost use Rattle.std.specs.Char.{is_ascii_digit};
ghost use Rattle.std.specs.Str.Parse.{digits_value};
ghost use Rattle.mj_delays.specs.Digits.{is_numeral, numeral_of};

/// Whether each byte is a decimal digit.
fn are_digits(text: &[u8]) -> bool
    ensures { result ≡ list_all is_ascii_digit text.now }
{
    text.iter().all(|byte| byte.is_ascii_digit())
}

/// Whether the text is a numeral of 1 to 9 digits.
fn is_numeral(text: &[u8]) -> bool
    ensures { result ≡ is_numeral text.now }
{
    let digits = text.len();
    if digits < 1 || digits > 9 {
        return false;
    }
    are_digits(text)
}

/// The number that a numeral spells.
fn value_of(text: &[u8]) -> u32
    requires short { length text.now ≤ 9 }
    requires digits { list_all is_ascii_digit text.now ≡ true }
    ensures value { result ≡ digits_value 10 text.now }
    ensures small { result < 1_000_000_000 }
    ensures by_digits { result < 10 ^ length text.now }
{
    let mut value = 0;
    for byte in text {
        value = value * 10 + u32::from(*byte - b'0');
    }
    value
}

/// The number that 1 to 9 decimal digits spell, and None for any other text.
pub fn numeral(text: &[u8]) -> Option<u32>
    ensures value { result ≡ numeral_of text.now }
    ensures small { IfSome result (λ n. n < 1_000_000_000) }
    ensures by_digits { IfSome result (λ n. n < 10 ^ length text.now) }
{
    if is_numeral(text) {
        Some(value_of(text))
    } else {
        None
    }
}
