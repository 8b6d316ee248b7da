//! Plain lines: how much of a block of 64 bytes can be taken as it stands, by masks of its bytes.
ghost use Rattle.std.specs.Prelude.{◌≡◌, ℕ, ◌<◌, ◌≤◌, length, true, false, not, ◌&&◌, ◌==◌};
ghost use Rattle.mj_terms.specs.Text.{is_blank};
ghost use Rattle.mj_head_lines.specs.Lines.{is_name_byte};
ghost use Rattle.mj_head_lines.specs.Plain.{ArePlain, ArePlainEnds, AreMasks, Marks, ShowsFaults, begins_line, any_to, has_bit};

use std::simd::prelude::*;

/// Which of the 64 bytes of a block are which: bit k of a mask stands for byte k.
#[derive(Clone, Copy)]
pub(crate) struct Masks {
    pub(crate) lf: u64,
    cr: u64,
    colon: u64,
    pub(crate) blank: u64,
    name: u64,
}

#[inline(always)]
fn marks_of(block: u8x64, byte: u8) -> u64
    ensures { Marks (λ b. b == byte) block result }
{
    block.simd_eq(u8x64::splat(byte)).to_bitmask()
}

#[inline(always)]
fn marks_of_blanks(block: u8x64) -> u64
    ensures { Marks is_blank block result }
{
    (block.simd_eq(u8x64::splat(b' ')) | block.simd_eq(u8x64::splat(b'\t'))).to_bitmask()
}

#[inline(always)]
fn marks_of_name_bytes(block: u8x64) -> u64
    ensures { Marks is_name_byte block result }
{
    let printable = block.simd_ge(u8x64::splat(33)) & block.simd_le(u8x64::splat(126));
    (printable & block.simd_ne(u8x64::splat(b':'))).to_bitmask()
}

#[inline(always)]
pub(crate) fn masks_of(text: &[u8]) -> Masks
    requires { 64 ≤ length text.now }
    ensures { AreMasks text.now result }
{
    let block = u8x64::from_slice(text);
    Masks {
        lf: marks_of(block, b'\n'),
        cr: marks_of(block, b'\r'),
        colon: marks_of(block, b':'),
        blank: marks_of_blanks(block),
        name: marks_of_name_bytes(block),
    }
}

/// Where lines begin: at the front, and behind each of these ends.
#[inline(always)]
fn starts(ends: u64) -> u64
    ensures { (k : ℕ) → k < 64 → has_bit result k ≡ begins_line ends k }
{
    (ends << 1) | 1
}

/// The places right behind those runs of set bits in which a bit of `from` stands.
#[inline(always)]
fn behind_runs(runs: u64, from: u64) -> u64
    ensures { (start end : ℕ) → start < end → end < 64
        → has_bit from start ≡ true
        → ((k : ℕ) → start ≤ k → k < end → has_bit runs k ≡ true)
        → has_bit runs end ≡ false
        → has_bit result end ≡ true }
{
    // The sum carries from such a bit to the end of the run.
    runs.wrapping_add(runs & from) & !runs
}

/// Bits that tell of lines that aren't plain: each such line has one, at its LF or before.
#[inline(always)]
fn faults(masks: Masks) -> u64
    ensures { ShowsFaults masks result }
{
    let starts = starts(masks.lf);
    let bare = masks.lf & !(masks.cr << 1);
    let nameless = starts & !masks.name & !masks.blank;
    let unended = behind_runs(masks.name, starts) & !masks.colon;
    bare | nameless | unended
}

/// The bits of the mask that stand before each bit of `stop`.
#[inline(always)]
fn bits_before(mask: u64, stop: u64) -> u64
    ensures { (k : ℕ) → k < 64 → has_bit result k ≡ (has_bit mask k && not (any_to stop k)) }
{
    mask & !stop & stop.wrapping_sub(1)
}

/// The LFs of the plain lines at the front of a block.
#[inline(always)]
fn plain_ends(text: &[u8]) -> u64
    requires { 64 ≤ length text.now }
    ensures { ArePlainEnds text.now result }
{
    let masks = masks_of(text);
    bits_before(masks.lf, faults(masks))
}

/// How many bytes at the front are whole plain lines, and how many lines these are (RFC 5322, 2.2). A
/// plain line ends with CRLF and has no other LF; it begins with a space or a tab, or it has a name
/// right before its first colon. At most the first 64 bytes are looked at, and none where there are
/// fewer; that no further plain line stands among them is left open.
pub fn plain_lines(text: &[u8]) -> (usize, u32)
    ensures within { result.0 ≤ length text.now }
    ensures short { result.0 ≤ 64 }
    ensures lines { ArePlain text.now result.0 result.1 }
{
    if text.len() < 64 {
        return (0, 0);
    }
    let ends = plain_ends(text);
    (64 - ends.leading_zeros() as usize, ends.count_ones())
}
