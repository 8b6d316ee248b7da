ghost use Rattle.std.specs.Prelude.{◌≡◌, ◌++◌, ◌≤◌, ℕ, List, Some, length, OnOk, OnErr};
ghost use Rattle.std.specs.Int.{w8, w16, w32, w64, to_le_bytes};
ghost use Rattle.mj_fields.specs.Fields.{number_at, with_length, string_at};

use crate::{Bytes, Memory};

/// Puts a number of one byte at the end. Without room for it the bytes stay.
pub fn put_u8(out: &mut Bytes, v: u8) -> Result<(), Memory>
    ensures ok { OnOk result (out.new ≡ out.old ++ to_le_bytes w8 v) }
    // Whatever is put behind it, it is read again where it was put.
    ensures back { (rest : List ℕ) → OnOk result (number_at w8 (out.new ++ rest) (length out.old) ≡ Some (v, length out.new)) }
    ensures err { OnErr result (out.new ≡ out.old) }
{
    out.extend(&v.to_le_bytes())
}

/// Puts a number of two bytes at the end, the low byte first. Without room for it the bytes stay.
pub fn put_u16(out: &mut Bytes, v: u16) -> Result<(), Memory>
    ensures ok { OnOk result (out.new ≡ out.old ++ to_le_bytes w16 v) }
    ensures back { (rest : List ℕ) → OnOk result (number_at w16 (out.new ++ rest) (length out.old) ≡ Some (v, length out.new)) }
    ensures err { OnErr result (out.new ≡ out.old) }
{
    out.extend(&v.to_le_bytes())
}

/// Puts a number of four bytes at the end, the low byte first. Without room for it the bytes stay.
pub fn put_u32(out: &mut Bytes, v: u32) -> Result<(), Memory>
    ensures ok { OnOk result (out.new ≡ out.old ++ to_le_bytes w32 v) }
    ensures back { (rest : List ℕ) → OnOk result (number_at w32 (out.new ++ rest) (length out.old) ≡ Some (v, length out.new)) }
    ensures err { OnErr result (out.new ≡ out.old) }
{
    out.extend(&v.to_le_bytes())
}

/// Puts a number of eight bytes at the end, the low byte first. Without room for it the bytes stay.
pub fn put_u64(out: &mut Bytes, v: u64) -> Result<(), Memory>
    ensures ok { OnOk result (out.new ≡ out.old ++ to_le_bytes w64 v) }
    ensures back { (rest : List ℕ) → OnOk result (number_at w64 (out.new ++ rest) (length out.old) ≡ Some (v, length out.new)) }
    ensures err { OnErr result (out.new ≡ out.old) }
{
    out.extend(&v.to_le_bytes())
}

/// Puts the length of a string in four bytes and the string at the end. Without room for both the bytes stay.
pub fn put_bytes(out: &mut Bytes, v: &[u8]) -> Result<(), Memory>
    requires { length v.now ≤ 134217728 }
    ensures ok { OnOk result (out.new ≡ out.old ++ with_length v.now) }
    ensures back { (rest : List ℕ) → OnOk result (string_at (out.new ++ rest) (length out.old) ≡ Some (v.now, length out.new)) }
    ensures err { OnErr result (out.new ≡ out.old) }
{
    out.extend_two(&(v.len() as u32).to_le_bytes(), v)
}
