//! Reading a head line by line.
ghost use Rattle.std.specs.Prelude.{◌≡◌, ◌+◌, ◌<◌, ◌≤◌, [], ◌∷◌, ◌++◌, true, false, length, take, Option, OnOk, IfOk, IfErr, MatchOption, IsTrue, ◌↔◌, ◌==◌, None};
ghost use Rattle.std.specs.List.{list_all, list_any};
ghost use Rattle.mj_terms.specs.Answers.{GivesBy};
ghost use Rattle.mj_terms.specs.Text.{trim_back};
ghost use Rattle.mj_head.specs.Head.{Gives, fields_in, told, written, is_head, lines, body_place, head_lines, form_fault, is_continuation, is_field, is_field_name, is_name_byte, is_raw_body, begins_blank, before_colon, after_colon, head_of};
ghost use Rattle.mj_head.specs.Fields.{is_field_value};
ghost use Rattle.mj_head_lines.specs.Plain.{ArePlain};
ghost use Rattle.mj_head.specs.Reading.{IsFault, BeginsField, ReadsLines, fault_from, empty_line_len};

use crate::cursor::{Cursor, WRITTEN_LIMIT};
use crate::fault::HeadFault;
use crate::head::Head;
use crate::line::first_line;
use bstr::ByteSlice;
use mj_head_lines::plain_lines;
use std::alloc::{AllocError, Global};

/// Whether the bytes have the form of a field's name: one or more bytes 33 to 126 other than the
/// colon (RFC 5322, 2.2).
pub fn is_field_name(name: &[u8]) -> bool
    ensures { result ≡ is_field_name name.now }
{
    let named = are_name_bytes(name);
    !name.is_empty() && named
}

/// Whether the bytes may be the value of a field that is added: they hold neither CR nor LF.
pub fn is_field_value(value: &[u8]) -> bool
    ensures { result ≡ is_field_value value.now }
{
    value.iter().all(|&b| b != b'\r' && b != b'\n')
}

/// Whether a name and a raw body are a field's: each LF of the body stands between a CR and a blank.
pub(crate) fn is_field(name: &[u8], body: &[u8]) -> bool
    ensures { result ≡ is_field (name.now, body.now) }
{
    let folded = is_raw_body(body);
    is_field_name(name) && folded
}

fn is_raw_body(body: &[u8]) -> bool
    ensures { result ≡ is_raw_body body.now }
{
    let mut before = b':';
    let mut rest = body;
    while let Some((byte, behind)) = rest.split_first() {
        let folds = before == b'\r' && begins_with_blank(behind);
        if *byte == b'\n' && !folds {
            return false;
        }
        before = *byte;
        rest = behind;
    }
    true
}

fn are_name_bytes(name: &[u8]) -> bool
    ensures { result ≡ list_all is_name_byte name.now }
{
    name.iter().all(|&b| is_name_byte(b))
}

fn is_name_byte(b: u8) -> bool
    ensures { result ≡ is_name_byte b }
{
    (33..=126).contains(&b) && b != b':'
}

pub(crate) fn begins_with_blank(bytes: &[u8]) -> bool
    ensures { result ≡ begins_blank bytes.now }
{
    match bytes.first() {
        Some(b) => *b == b' ' || *b == b'\t',
        None => false,
    }
}

/// The text without the blanks, spaces and tabs, at its end.
pub fn trim_end_blanks(text: &[u8]) -> &[u8]
    ensures { result.now ≡ trim_back text.now }
{
    match text.rfind_not_byteset(b" \t") {
        Some(last) => &text[..last + 1],
        None => &text[..0],
    }
}

/// What stands before the first colon, and what stands behind it.
fn split_at_colon(line: &[u8]) -> Option<(&[u8], &[u8])>
    ensures { MatchOption result (list_any (λ b. b == 58) line.now ≡ false)
        (λ parts. (list_any (λ b. b == 58) line.now ≡ true)
        × (before_colon line.now ≡ parts.0.now) × (after_colon line.now ≡ parts.1.now)) }
{
    let colon = line.find_byte(b':')?;
    Some((&line[..colon], &line[colon + 1..]))
}

/// How many bytes at the front may stand in a name.
fn name_len(line: &[u8]) -> usize
    ensures within { result ≤ length line.now }
    ensures name { list_all is_name_byte (take result line.now) ≡ true }
{
    let mut len = 0;
    while len < line.len() && is_name_byte(line[len]) {
        len += 1;
    }
    len
}

/// The name of the field that a line begins, and what follows the colon.
fn field_parts(line: &[u8], number: u32) -> Result<(&[u8], &[u8]), HeadFault>
    requires { is_continuation line.now ≡ true → number ≡ 1 }
    ensures parts { IfOk result (λ parts. BeginsField number line.now parts.0.now parts.1.now) }
    ensures short { IfOk result (λ parts.
        length parts.0.now + length parts.1.now < length line.now) }
    ensures fault { IfErr result (λ fault. IsFault fault (form_fault number line.now)) }
{
    let end = name_len(line);
    if end > 0 && end < line.len() && line[end] == b':' {
        return Ok((&line[..end], &line[end + 1..]));
    }
    spaced_parts(line, number)
}

/// Does what `field_parts` says, also where blanks stand before the colon.
fn spaced_parts(line: &[u8], number: u32) -> Result<(&[u8], &[u8]), HeadFault>
    requires { is_continuation line.now ≡ true → number ≡ 1 }
    ensures parts { IfOk result (λ parts. BeginsField number line.now parts.0.now parts.1.now) }
    ensures short { IfOk result (λ parts.
        length parts.0.now + length parts.1.now < length line.now) }
    ensures fault { IfErr result (λ fault. IsFault fault (form_fault number line.now)) }
{
    if begins_with_blank(line) {
        return Err(HeadFault::ContinuationFirst { line: number });
    }
    let Some((front, value)) = split_at_colon(line) else {
        return Err(HeadFault::NoColon { line: number });
    };
    let name = trim_end_blanks(front);
    if !is_field_name(name) {
        return Err(HeadFault::BadName { line: number });
    }
    Ok((name, value))
}

/// How many bytes the empty line at the front has, or 0 where none stands there.
fn empty_line_len(bytes: &[u8]) -> usize
    ensures { result ≡ empty_line_len bytes.now }
{
    match bytes {
        [b'\n', ..] => 1,
        [b'\r', b'\n', ..] => 2,
        _ => 0,
    }
}

/// Whether no line of the head stands at the front: an empty line does, or nothing.
fn is_head_over(bytes: &[u8]) -> bool
    ensures { result ≡ (length (head_lines (lines bytes.now)) == 0) }
{
    let empty = empty_line_len(bytes);
    bytes.is_empty() || empty > 0
}

/// Puts a field's first line, of which these are the name and what follows the colon, at the end.
fn put_first_line(
    text: &mut Vec<u8>,
    bytes: &[u8],
    line: &[u8],
    name: &[u8],
    value: &[u8],
) -> Result<(), AllocError>
    requires front { take (length line.now) bytes.now ≡ line.now }
    requires whole { length name.now + length value.now + 1 ≡ length line.now
        → line.now ≡ name.now ++ 58 ∷ value.now }
    requires short { length name.now + length value.now < length line.now }
    ensures { OnOk result (text.new.items
        ≡ text.old.items ++ ((name.now ++ 58 ∷ value.now) ++ 13 ∷ 10 ∷ [])) }
{
    // Without blanks before the colon the line is this already.
    if name.len() + value.len() + 1 == line.len() {
        return put_line(text, bytes, line);
    }
    text.extend_from_slice(name)?;
    text.extend_from_slice(b":")?;
    text.extend_from_slice(value)?;
    text.extend_from_slice(b"\r\n")
}

/// Puts the line at the front of the bytes, and CRLF, at the end.
fn put_line(text: &mut Vec<u8>, bytes: &[u8], line: &[u8]) -> Result<(), AllocError>
    requires { take (length line.now) bytes.now ≡ line.now }
    ensures { OnOk result (text.new.items ≡ text.old.items ++ (line.now ++ 13 ∷ 10 ∷ [])) }
{
    if has_crlf_at(bytes, line.len()) {
        return text.extend_from_slice(&bytes[..line.len() + 2]);
    }
    text.extend_from_slice(line)?;
    text.extend_from_slice(b"\r\n")
}

/// Whether CRLF stands at this place.
fn has_crlf_at(bytes: &[u8], place: usize) -> bool
    ensures { result ≡ true → take (place + 2) bytes.now ≡ take place bytes.now ++ 13 ∷ 10 ∷ [] }
{
    let rest = bytes.len().saturating_sub(place);
    rest > 1 && bytes[place] == b'\r' && bytes[place + 1] == b'\n'
}

/// Reads the line at the front, which continues a field, and puts what it adds to the written form at
/// the end of the text.
fn read_continuation<'a>(text: &mut Vec<u8>, cursor: Cursor<'a>) -> Result<Cursor<'a>, HeadFault>
    requires some { (length (head_lines (lines cursor.rest.now)) == 0) ≡ false }
    requires begins { begins_blank cursor.rest.now ≡ true }
    requires later { 1 < cursor.line }
    ensures lines { IfOk result (λ next. ReadsLines text.old.items text.new.items cursor.entry next) }
    ensures shorter { IfOk result (λ next. length next.rest.now < length cursor.entry.rest.now) }
    ensures fault { IfErr result (λ fault. IsFault fault (fault_from cursor.entry)) }
{
    let (line, rest) = first_line(cursor.rest);
    let next = cursor.behind(rest, line.len() + 2)?;
    put_line(text, cursor.rest, line)?;
    Ok(next)
}

/// Reads the line at the front, which begins a field or has a fault, and puts what it adds to the
/// written form at the end of the text.
fn read_beginning<'a>(text: &mut Vec<u8>, cursor: Cursor<'a>) -> Result<Cursor<'a>, HeadFault>
    requires some { (length (head_lines (lines cursor.rest.now)) == 0) ≡ false }
    requires begins { begins_blank cursor.rest.now ≡ true → cursor.line ≡ 1 }
    ensures lines { IfOk result (λ next. ReadsLines text.old.items text.new.items cursor.entry next) }
    ensures shorter { IfOk result (λ next. length next.rest.now < length cursor.entry.rest.now) }
    ensures fault { IfErr result (λ fault. IsFault fault (fault_from cursor.entry)) }
{
    let (line, rest) = first_line(cursor.rest);
    let (name, value) = field_parts(line, cursor.line)?;
    let next = cursor.behind(rest, name.len() + value.len() + 3)?;
    put_first_line(text, cursor.rest, line, name, value)?;
    Ok(next)
}

/// Reads the line at the front, and puts what it adds to the written form at the end of the text.
/// After an error a part of it may stand there.
fn read_line<'a>(text: &mut Vec<u8>, cursor: Cursor<'a>) -> Result<Cursor<'a>, HeadFault>
    requires { (length (head_lines (lines cursor.rest.now)) == 0) ≡ false }
    ensures lines { IfOk result (λ next. ReadsLines text.old.items text.new.items cursor.entry next) }
    ensures shorter { IfOk result (λ next. length next.rest.now < length cursor.entry.rest.now) }
    ensures fault { IfErr result (λ fault. IsFault fault (fault_from cursor.entry)) }
{
    if cursor.line > 1 && begins_with_blank(cursor.rest) {
        read_continuation(text, cursor)
    } else {
        read_beginning(text, cursor)
    }
}

/// Reads the plain lines at the front, which have so many bytes, and puts them at the end of the text
/// as they are.
fn read_plain<'a>(
    text: &mut Vec<u8>,
    cursor: Cursor<'a>,
    len: usize,
    count: u32,
) -> Result<Cursor<'a>, HeadFault>
    requires within { len ≤ length cursor.rest.now }
    requires plain { ArePlain cursor.rest.now len count }
    requires some { 0 < count }
    requires later { 1 < cursor.line }
    requires short { cursor.written + len ≤ 65536 }
    ensures lines { IfOk result (λ next. ReadsLines text.old.items text.new.items cursor.entry next) }
    ensures shorter { IfOk result (λ next. length next.rest.now < length cursor.entry.rest.now) }
    ensures fault { IfErr result (λ fault. IsFault fault (fault_from cursor.entry)) }
{
    text.extend_from_slice(&cursor.rest[..len])?;
    Ok(cursor.past(len, count))
}

/// Reads the plain lines at the front, or else the one line there, and puts what is read at the end
/// of the text in its written form. After an error a part of it may stand there.
fn read_lines<'a>(text: &mut Vec<u8>, cursor: Cursor<'a>) -> Result<Cursor<'a>, HeadFault>
    requires { (length (head_lines (lines cursor.rest.now)) == 0) ≡ false }
    ensures lines { IfOk result (λ next. ReadsLines text.old.items text.new.items cursor.entry next) }
    ensures shorter { IfOk result (λ next. length next.rest.now < length cursor.entry.rest.now) }
    ensures fault { IfErr result (λ fault. IsFault fault (fault_from cursor.entry)) }
{
    let (len, count) = plain_lines(cursor.rest);
    // The first line may continue nothing, and the fault of a line that passes the limit has its
    // number: both are read by themselves.
    if count > 0 && cursor.line > 1 && len <= WRITTEN_LIMIT - cursor.written {
        read_plain(text, cursor, len, count)
    } else {
        read_line(text, cursor)
    }
}

/// Reads the head at the front of the bytes: its fields, and where the body begins (RFC 5322, 2.2).
///
/// A line ends at LF, and one CR right before that LF belongs to the line end; the last line may end
/// with the bytes. The first empty line ends the head, and the body begins behind it; without one all
/// is head. A line that begins with a space or a tab continues the field before it. A field's name
/// is what stands before the first colon, less the blanks right before the colon, and its raw body
/// is what follows the colon, with CRLF between its lines. The fault is the first line's that has one.
pub fn read_head(alloc: Global, bytes: &[u8]) -> Result<(Head, usize), HeadFault>
    ensures exact { Gives result (head_of bytes.now) }
    ensures place { IfOk result (λ read. read.1 ≤ length bytes.now) }
{
    let (text, place) = read_text(alloc, bytes)?;
    Ok((Head::of(alloc, text)?, place))
}

/// The same, with the head as its written form.
fn read_text(alloc: Global, bytes: &[u8]) -> Result<(Vec<u8>, usize), HeadFault>
    ensures exact { GivesBy told (λ read. (fields_in read.0.items, read.1)) result (head_of bytes.now) }
    ensures same { IfOk result (λ read. written (fields_in read.0.items) ≡ read.0.items) }
    ensures head { IfOk result (λ read. is_head (fields_in read.0.items) ≡ true) }
    ensures place { IfOk result (λ read. read.1 ≤ length bytes.now) }
{
    // Room for the longest head at once, of which what isn't used is given back.
    let mut text = Vec::with_capacity(alloc, bytes.len().min(WRITTEN_LIMIT))?;
    let mut cursor = Cursor::new(bytes);
    while !is_head_over(cursor.rest) {
        cursor = read_lines(&mut text, cursor)?;
    }
    text.shrink_to_fit();
    let place = bytes.len() - cursor.rest.len() + empty_line_len(cursor.rest);
    Ok((text, place))
}
