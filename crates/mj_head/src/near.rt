//! A byte that is likely to stand near.
ghost use Rattle.bstr.specs.Find.{IsFirstByte, is_byte};

use bstr::ByteSlice;

/// How many bytes are looked at one by one.
const NEAR: usize = 8;

/// The first index of the byte. Where it is near, a call is spared that would cost more than the look at a few bytes.
#[inline(always)]
pub(crate) fn find_near(text: &[u8], byte: u8) -> Option<usize>
    ensures { IsFirstByte (is_byte byte) text.now result }
{
    let near = text.len().min(NEAR);
    for place in 0..near {
        if text[place] == byte {
            return Some(place);
        }
    }
    let rest = &text[near..];
    let place = rest.find_byte(byte)?;
    Some(near + place)
}
