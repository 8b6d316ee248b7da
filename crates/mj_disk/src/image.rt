ghost use Rattle.std.specs.Prelude.{◌≡◌, ◌<◌, ◌≤◌, true, false, [], ◌∷◌, length, get_or, IfOk};
ghost use Rattle.mj_disk.specs.Media.{IsOutside};
ghost use Rattle.mj_disk.specs.Tape.{ranges, IsKept};

use crate::DiskCall;
use mj_fields::Memory;
use std::alloc::Global;

/// Draws the numbers that decide an image: `s` becomes s times 1,664,525 plus 1,013,904,223 modulo 2^32, and its
/// high 16 bits are drawn.
#[derive(Drop)]
pub struct Draws {
    pub s: u32,
}

impl Draws {
    pub fn draw(&mut self) -> u32 {
        self.s = self.s.wrapping_mul(1_664_525).wrapping_add(1_013_904_223);
        self.s >> 16
    }
}

/// A disk that a crash tears: the calls since the last sync, the bytes as they read, those of the last sync, and
/// the least length.
#[derive(Drop)]
pub struct Torn<'a> {
    pub calls: &'a [DiskCall],
    pub bytes: &'a [u8],
    pub synced: &'a [u8],
    pub least: u64,
}

/// The byte at the place, or the byte 0 where there is none.
fn byte_at(bytes: &[u8], place: u64) -> u8
    ensures { result ≡ get_or bytes.now place 0 }
{
    bytes.get(place as usize).copied().unwrap_or(0)
}

fn touches(call: &DiskCall, place: u64) -> bool
    ensures { IsOutside (ranges (call.now ∷ [])) place → result ≡ false }
{
    match call {
        DiskCall::Write { at, bytes } => *at <= place && place - *at < bytes.len() as u64,
        DiskCall::Cut { .. } | DiskCall::Sync => false,
    }
}

/// Whether none of the calls wrote at the place.
fn is_outside(calls: &[DiskCall], place: u64) -> bool
    ensures { IsOutside (ranges calls.now) place → result ≡ true }
{
    let mut rest = calls;
    while let [call, after @ ..] = rest {
        if touches(call, place) {
            return false;
        }
        rest = after;
    }
    true
}

/// The byte at a place that the disk doesn't leave as it is: the last synced one, the one that reads, or a drawn
/// one.
fn loose_byte(torn: &Torn<'_>, number: u32, draws: &mut Draws, place: u64) -> u8 {
    let choice = match number {
        0 | 1 => number,
        _ => draws.draw() % 3,
    };
    match choice {
        0 => byte_at(torn.synced, place),
        1 => byte_at(torn.bytes, place),
        _ => (draws.draw() & 0xFF) as u8,
    }
}

fn image_byte(torn: &Torn<'_>, number: u32, draws: &mut Draws, place: u64) -> u8
    ensures { place < torn.now.least → IsOutside (ranges torn.now.calls.now) place → result ≡ get_or torn.now.bytes.now place 0 }
{
    let is_settled = place < torn.least && is_outside(torn.calls, place);
    if is_settled {
        byte_at(torn.bytes, place)
    } else {
        loose_byte(torn, number, draws, place)
    }
}

/// The bytes of the image of this number, so many of them.
pub fn torn_bytes(
    alloc: Global,
    torn: &Torn<'_>,
    number: u32,
    draws: &mut Draws,
    size: u64,
) -> Result<Vec<u8>, Memory>
    ensures size { IfOk result (λ v. length v.items ≡ size) }
    ensures kept { IfOk result (λ v. IsKept torn.now.calls.now torn.now.bytes.now torn.now.least v.items) }
{
    let mut image = Vec::with_capacity(alloc, size as usize)?;
    for place in 0..size {
        image.push(image_byte(torn, number, draws, place))?;
    }
    Ok(image)
}
