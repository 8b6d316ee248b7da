//! The lines of a text.
ghost use Rattle.std.specs.Prelude.{◌≡◌, ◌<◌, length, take};
ghost use Rattle.bstr.specs.Text.{no_cr};
ghost use Rattle.mj_head.specs.Reading.{IsFirstLine};

use bstr::ByteSlice;

/// The line without the carriage return at its end, if it has one.
fn without_cr(line: &[u8]) -> &[u8]
    ensures { result.now ≡ no_cr line.now }
{
    let n = line.len();
    if n == 0 || line[n - 1] != b'\r' {
        return line;
    }
    &line[..n - 1]
}

/// The first line of bytes, of which there is at least one, without its end, and the bytes behind it. A line ends at LF,
/// and one CR right before that LF belongs to the line end; the last line may end with the bytes.
pub fn first_line(bytes: &[u8]) -> (&[u8], &[u8])
    requires { 0 < length bytes.now }
    ensures first { IsFirstLine bytes.now result.0.now result.1.now }
    ensures front { take (length result.0.now) bytes.now ≡ result.0.now }
    ensures shorter { length result.1.now < length bytes.now }
{
    match bytes.find_byte(b'\n') {
        Some(end) => (without_cr(&bytes[..end]), &bytes[end + 1..]),
        None => (bytes, &bytes[bytes.len()..]),
    }
}
