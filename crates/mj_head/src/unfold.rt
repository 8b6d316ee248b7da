//! Raw bodies on one line.
ghost use Rattle.std.specs.Prelude.{◌≡◌, ◌<◌, ◌++◌, List, ℕ, length, IfOk, IfSome, OnOk, MatchOption, if◌then◌else◌};
ghost use Rattle.mj_terms.specs.Text.{trim_front, trimmed};
ghost use Rattle.mj_head.specs.Fields.{without_crlf};
ghost use Rattle.mj_head.specs.Reading.{line_to};

use crate::read::trim_end_blanks;
use bstr::ByteSlice;
use std::alloc::{AllocError, Global};

/// The text without the blanks at its front.
fn without_blanks_at_front(text: &[u8]) -> &[u8]
    ensures { result.now ≡ trim_front text.now }
{
    match text.find_not_byteset(b" \t") {
        Some(first) => &text[first..],
        None => &text[text.len()..],
    }
}

/// The text without the blanks, spaces and tabs, at both its ends.
pub fn trim_blanks(text: &[u8]) -> &[u8]
    ensures { result.now ≡ trimmed text.now }
{
    trim_end_blanks(without_blanks_at_front(text))
}

/// The line whose LF stands at this place, without the CRLF at its end, or with the bare LF.
fn line_to(body: &[u8], end: usize) -> &[u8]
    requires { end < length body.now }
    ensures { result.now ≡ line_to body.now end }
{
    if end > 0 && body[end - 1] == b'\r' {
        return &body[..end - 1];
    }
    &body[..end + 1]
}

/// The first line, without the CRLF at its end, and what stands behind it; `None` where no LF does.
fn split_line(body: &[u8]) -> Option<(&[u8], &[u8])>
    ensures cases { MatchOption result (without_crlf body.now ≡ body.now)
        (λ parts. without_crlf body.now ≡ parts.0.now ++ without_crlf parts.1.now) }
    ensures shorter { IfSome result (λ parts. length parts.1.now < length body.now) }
{
    let end = body.find_byte(b'\n')?;
    let line = line_to(body, end);
    Some((line, &body[end + 1..]))
}

/// The part, without the blanks at its front where it is the first.
fn trimmed_first(is_first: bool, part: &[u8]) -> &[u8]
    ensures { result.now ≡ (if is_first then trim_front part.now else part.now) }
{
    if is_first {
        without_blanks_at_front(part)
    } else {
        part
    }
}

/// Adds a part at the end of a text that begins with no blank, so that it still begins with none.
fn push_trimmed(text: &mut Vec<u8>, part: &[u8]) -> Result<(), AllocError>
    requires { trim_front text.old.items ≡ text.old.items }
    ensures trimmed { trim_front text.new.items ≡ text.new.items }
    ensures same { OnOk result ((rest : List ℕ)
        → trim_front (text.new.items ++ rest) ≡ trim_front (text.old.items ++ part.now ++ rest)) }
{
    let part = trimmed_first(text.is_empty(), part);
    text.extend_from_slice(part)
}

/// The raw body without its CRLFs (RFC 5322, 2.2.3), and without blanks at both ends.
pub(crate) fn unfold(alloc: Global, body: &[u8]) -> Result<Vec<u8>, AllocError>
    ensures { IfOk result (λ text. text.items ≡ trimmed (without_crlf body.now)) }
{
    let mut text = Vec::new(alloc);
    let mut rest = body;
    while let Some((line, behind)) = split_line(rest) {
        push_trimmed(&mut text, line)?;
        rest = behind;
    }
    push_trimmed(&mut text, rest)?;
    let len = trim_end_blanks(&text).len();
    text.truncate(len);
    Ok(text)
}
