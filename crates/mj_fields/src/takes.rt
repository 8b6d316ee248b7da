ghost use Rattle.std.specs.Prelude.{◌≡◌, ◌-◌, ◌≤◌, length, take, drop, option_map, IfSome};
ghost use Rattle.std.specs.Int.{w8, w16, w32, w64, to_le_bytes};
ghost use Rattle.mj_fields.specs.Fields.{number_at, with_length, string_at};

/// The number of one byte at a place, and the place behind it; `None` exactly where no byte stands there.
pub fn take_u8(bytes: &[u8], at: usize) -> Option<(u8, usize)>
    requires { at ≤ length bytes.now }
    ensures value { result ≡ number_at w8 bytes.now at }
    // The bytes between the places are those that `put_u8` puts.
    ensures written { IfSome result (λ found. take 1 (drop at bytes.now) ≡ to_le_bytes w8 found.0) }
{
    let v = *bytes.get(at)?;
    Some((v, at + 1))
}

/// The number of two bytes at a place, and the place behind it; `None` exactly where fewer bytes stand there.
pub fn take_u16(bytes: &[u8], at: usize) -> Option<(u16, usize)>
    requires { at ≤ length bytes.now }
    ensures value { result ≡ number_at w16 bytes.now at }
    ensures written { IfSome result (λ found. take 2 (drop at bytes.now) ≡ to_le_bytes w16 found.0) }
{
    let field = bytes[at..].first_chunk::<2>()?;
    Some((u16::from_le_bytes(*field), at + 2))
}

/// The number of four bytes at a place, and the place behind it; `None` exactly where fewer bytes stand there.
pub fn take_u32(bytes: &[u8], at: usize) -> Option<(u32, usize)>
    requires { at ≤ length bytes.now }
    ensures value { result ≡ number_at w32 bytes.now at }
    ensures written { IfSome result (λ found. take 4 (drop at bytes.now) ≡ to_le_bytes w32 found.0) }
{
    let field = bytes[at..].first_chunk::<4>()?;
    Some((u32::from_le_bytes(*field), at + 4))
}

/// The number of eight bytes at a place, and the place behind it; `None` exactly where fewer bytes stand there.
pub fn take_u64(bytes: &[u8], at: usize) -> Option<(u64, usize)>
    requires { at ≤ length bytes.now }
    ensures value { result ≡ number_at w64 bytes.now at }
    ensures written { IfSome result (λ found. take 8 (drop at bytes.now) ≡ to_le_bytes w64 found.0) }
{
    let field = bytes[at..].first_chunk::<8>()?;
    Some((u64::from_le_bytes(*field), at + 8))
}

/// The string that stands at a place behind its length in four bytes, and the place behind it; `None` exactly
/// where fewer bytes stand there than the length and the string have.
pub fn take_bytes(bytes: &[u8], at: usize) -> Option<(&[u8], usize)>
    requires { at ≤ length bytes.now }
    ensures value { option_map (λ found. (found.0.now, found.1)) result ≡ string_at bytes.now at }
    ensures written { IfSome result (λ found. take (found.1 - at) (drop at bytes.now) ≡ with_length found.0.now) }
{
    let (count, from) = take_u32(bytes, at)?;
    let end = from + count as usize;
    if end > bytes.len() {
        return None;
    }
    Some((&bytes[from..end], end))
}
