//! Ends of fields, counted up to 63 bytes at a time by masks of a block of 64.
ghost use Rattle.std.specs.Prelude.{◌≡◌, ◌+◌, ◌≤◌, length, drop};
ghost use Rattle.mj_head_lines.specs.Ends.{begins_blank, field_ends};

use crate::plain::masks_of;

/// How many fields end in the text: how many LFs of it have no space and no tab right behind them (RFC 5322, 2.2.3). It is
/// found up to 63 bytes at a time.
pub fn count_field_ends(text: &[u8]) -> usize
    ensures { result ≡ field_ends text.now }
{
    let mut count = 0;
    let mut rest = text;
    while rest.len() >= 64 {
        count += ends_in_block(rest) as usize;
        rest = &rest[63..];
    }
    count + ends_in_tail(rest)
}

/// How many fields end among the first 63 bytes.
#[inline(always)]
fn ends_in_block(text: &[u8]) -> u32
    requires { 64 ≤ length text.now }
    ensures { field_ends text.now ≡ result + field_ends (drop 63 text.now) }
{
    let masks = masks_of(text);
    let behind = masks.lf << 1;
    (behind & !masks.blank).count_ones()
}

/// The same, byte by byte.
fn ends_in_tail(text: &[u8]) -> usize
    ensures { result ≡ field_ends text.now }
{
    let mut count = 0;
    let mut rest = text;
    while let Some((byte, behind)) = rest.split_first() {
        count += usize::from(*byte == b'\n' && !begins_with_blank(behind));
        rest = behind;
    }
    count
}

fn begins_with_blank(text: &[u8]) -> bool
    ensures { result ≡ begins_blank text.now }
{
    match text.first() {
        Some(b) => *b == b' ' || *b == b'\t',
        None => false,
    }
}
