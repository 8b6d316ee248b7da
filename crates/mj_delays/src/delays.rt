//! Entries of delay texts: `attempts * delay unit`.
ghost use Rattle.std.specs.Prelude.{◌≡◌, ◌+◌, ◌*◌, ◌<◌, ◌≤◌, IfSome, length, take, drop};
ghost use Rattle.std.specs.List.{list_any, prefix_len};
ghost use Rattle.std.specs.Char.{is_ascii_digit};
ghost use Rattle.mj_terms.specs.Text.{same_text};
ghost use Rattle.mj_delays.specs.Delays.{unit_of, delay_in, attempts_in, entry_of};

use crate::digits::numeral;
use crate::texts::{place_of, trimmed};

/// An entry of a delay text: how many attempts wait this long, in milliseconds.
#[derive(Clone, Copy)]
pub(crate) struct Entry {
    pub(crate) attempts: u32,
    pub(crate) delay: u64,
}

/// Whether the name is one of these, without regard to ASCII case.
fn is_one_of(names: &[&str], name: &[u8]) -> bool
    ensures { result ≡ list_any (λ known. same_text name.now known.now) names.now }
{
    names
        .iter()
        .any(|known| name.eq_ignore_ascii_case(known.as_bytes()))
}

/// How many milliseconds a unit has.
#[tactic(auto, unfolding(crate::specs::Delays::unit_of))]
fn unit_millis(name: &[u8]) -> Option<u64>
    ensures value { result ≡ unit_of name.now }
    ensures small { IfSome result (λ unit. unit ≤ 86_400_000) }
{
    if is_one_of(
        &["", "ms", "msec", "msecs", "millisecond", "milliseconds"],
        name,
    ) {
        Some(1)
    } else if is_one_of(&["s", "sec", "secs", "second", "seconds"], name) {
        Some(1_000)
    } else if is_one_of(&["m", "min", "mins", "minute", "minutes"], name) {
        Some(60_000)
    } else if is_one_of(&["h", "hour", "hours"], name) {
        Some(3_600_000)
    } else if is_one_of(&["d", "day", "days"], name) {
        Some(86_400_000)
    } else {
        None
    }
}

/// How many decimal digits the text begins with.
fn digits_in_front(text: &[u8]) -> usize
    ensures value { result ≡ prefix_len is_ascii_digit text.now }
    ensures within { result ≤ length text.now }
{
    text.iter().take_while(|byte| byte.is_ascii_digit()).count()
}

/// The delay that a text without blanks round it spells, in milliseconds.
#[tactic(auto, unfolding(crate::specs::Delays::delay_in))]
fn read_delay(text: &[u8]) -> Option<u64>
    ensures { result ≡ delay_in text.now }
{
    let digits = digits_in_front(text);
    let number = numeral(&text[..digits])?;
    let unit = unit_millis(trimmed(&text[digits..]))?;
    Some(u64::from(number) * unit)
}

/// The attempts that a text without blanks round it spells, at least 1.
#[tactic(auto, unfolding(crate::specs::Delays::attempts_in))]
fn read_attempts(text: &[u8]) -> Option<u32>
    ensures value { result ≡ attempts_in text.now }
    ensures some { IfSome result (λ n. 1 ≤ n) }
    ensures small { IfSome result (λ n. n < 1_000_000_000) }
{
    let number = numeral(text)?;
    if number == 0 { None } else { Some(number) }
}

/// The entry that a text between two commas spells, if it spells one.
#[tactic(auto, unfolding(crate::specs::Delays::entry_by))]
pub(crate) fn read_entry(text: &[u8]) -> Option<Entry>
    ensures value { result ≡ entry_of text.now }
    ensures some { IfSome result (λ e. 1 ≤ e.attempts) }
    ensures small { IfSome result (λ e. e.attempts < 1_000_000_000) }
{
    match place_of(text, b'*') {
        None => {
            let delay = read_delay(trimmed(text))?;
            Some(Entry { attempts: 1, delay })
        }
        Some(star) => {
            let attempts = read_attempts(trimmed(&text[..star]))?;
            let delay = read_delay(trimmed(&text[star + 1..]))?;
            Some(Entry { attempts, delay })
        }
    }
}
