//! Texts without regard to ASCII case.
ghost use Rattle.std.specs.Prelude.{◌≡◌, fold};
ghost use Rattle.std.specs.Str.{str_to_ascii_lowercase};
ghost use Rattle.std.specs.Hash as fed;
ghost use Rattle.mj_terms.specs.Text.{same_text};

use std::hash::Hasher;

/// Whether the two texts are the same without regard to ASCII case.
pub fn same(a: &[u8], b: &[u8]) -> bool
    ensures { result ≡ same_text a.now b.now }
{
    a.eq_ignore_ascii_case(b)
}

/// Feeds a text to a hasher, its length and then its bytes in ASCII lower case: texts that are the same feed the same.
pub fn hash<H: Hasher>(text: &[u8], state: &mut H)
    ensures { state.new ≡ fold H.write state.old (fed.slice fed.u8 (str_to_ascii_lowercase text.now)) }
{
    state.write_usize(text.len());
    for byte in text {
        state.write_u8(byte.to_ascii_lowercase());
    }
}
