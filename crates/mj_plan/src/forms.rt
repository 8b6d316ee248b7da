//! The forms of the texts of a configuration.
ghost use Rattle.std.specs.Prelude.{◌≡◌};
ghost use Rattle.std.specs.List.{list_all};
ghost use Rattle.std.specs.Char.{is_ascii_digit};
ghost use Rattle.mj_plan.specs.Forms.{has_length, is_attribute_byte, is_attribute_name, is_attribute_value, is_line, is_name_byte, is_printable, is_processor_name, is_reply_code, is_repository, is_visible};

/// The state in which all processing of a mail ends.
pub const GHOST: &[u8] = b"ghost";

/// Whether a text names a processor: 1 to 64 letters, digits, `-`, `_` and `.`.
pub fn is_processor_name(text: &[u8]) -> bool
    ensures { result ≡ is_processor_name text.now }
{
    let formed = are_name_bytes(text);
    has_length(text, 1, 64) && formed
}

/// Whether a text may be the value of a header field, a prefix or a message: 1 to 512 bytes 32 to 126.
pub fn is_line(text: &[u8]) -> bool
    ensures { result ≡ is_line text.now }
{
    let formed = are_printable(text);
    has_length(text, 1, 512) && formed
}

/// Whether a text names a mail attribute: 1 to 255 bytes 33 to 126 without comma and semicolon.
pub fn is_attribute_name(text: &[u8]) -> bool
    ensures { result ≡ is_attribute_name text.now }
{
    let formed = are_attribute_bytes(text);
    has_length(text, 1, 255) && formed
}

/// Whether a text may be the value of a mail attribute: at most 4,096 bytes 32 to 126.
pub fn is_attribute_value(text: &[u8]) -> bool
    ensures { result ≡ is_attribute_value text.now }
{
    let formed = are_printable(text);
    has_length(text, 0, 4_096) && formed
}

/// Whether a text names a repository: 1 to 255 bytes 33 to 126.
pub fn is_repository(text: &[u8]) -> bool
    ensures { result ≡ is_repository text.now }
{
    let formed = are_visible(text);
    has_length(text, 1, 255) && formed
}

/// Whether a text is a reply code: three digits (RFC 5321, 4.2).
pub fn is_reply_code(text: &[u8]) -> bool
    ensures { result ≡ is_reply_code text.now }
{
    let formed = are_digits(text);
    has_length(text, 3, 3) && formed
}

fn has_length(text: &[u8], least: usize, most: usize) -> bool
    ensures { result ≡ has_length least most text.now }
{
    least <= text.len() && text.len() <= most
}

fn are_printable(text: &[u8]) -> bool
    ensures { result ≡ list_all is_printable text.now }
{
    text.iter().all(|&b| is_printable(b))
}

fn are_visible(text: &[u8]) -> bool
    ensures { result ≡ list_all is_visible text.now }
{
    text.iter().all(|&b| is_visible(b))
}

fn are_name_bytes(text: &[u8]) -> bool
    ensures { result ≡ list_all is_name_byte text.now }
{
    text.iter().all(|&b| is_name_byte(b))
}

fn are_attribute_bytes(text: &[u8]) -> bool
    ensures { result ≡ list_all is_attribute_byte text.now }
{
    text.iter().all(|&b| is_attribute_byte(b))
}

fn are_digits(text: &[u8]) -> bool
    ensures { result ≡ list_all is_ascii_digit text.now }
{
    text.iter().all(u8::is_ascii_digit)
}

fn is_printable(b: u8) -> bool
    ensures { result ≡ is_printable b }
{
    (32..=126).contains(&b)
}

fn is_visible(b: u8) -> bool
    ensures { result ≡ is_visible b }
{
    (33..=126).contains(&b)
}

fn is_name_byte(b: u8) -> bool
    ensures { result ≡ is_name_byte b }
{
    b.is_ascii_alphanumeric() || b == b'-' || b == b'_' || b == b'.'
}

fn is_attribute_byte(b: u8) -> bool
    ensures { result ≡ is_attribute_byte b }
{
    is_visible(b) && b != b',' && b != b';'
}
