//! Plain lines at the front of a text.
use crate::texts::{assert_so, stretched};
use mj_head_lines::plain_lines;
use std::alloc::{AllocError, Global};
use std::process::Abort;
use std::test::Fail;

/// The text with bytes of an unfinished line behind it, so many bytes in all.
fn padded(alloc: Global, text: &[u8], len: usize) -> Result<Vec<u8>, AllocError> {
    stretched(alloc, text, b'x', len.saturating_sub(text.len()))
}

/// How far the plain lines of the padded text go, and how many they are.
fn found(alloc: Global, text: &[u8], len: usize) -> Result<(usize, u32), AllocError> {
    Ok(plain_lines(&padded(alloc, text, len)?))
}

/// Texts, how far their plain lines go, and how many they are.
const LINES: [(&str, (usize, u32)); 18] = [
    ("a:b\r\nc:d\r\nX-Y: z\r\n", (18, 3)),
    ("a:b\r\n c\r\n\td\r\n", (13, 3)),
    (" \r\n\t\r\na:\r\n", (10, 3)),
    ("", (0, 0)),
    ("\r\na:b\r\n", (0, 0)),
    ("\na:b\r\n", (0, 0)),
    ("a:b\r\n\r\nc:d\r\n", (5, 1)),
    ("a:b\r\n\nc:d\r\n", (5, 1)),
    ("a:b\r\nc:d\ne:f\r\n", (5, 1)),
    ("a:b\r\nnone\r\nc:d\r\n", (5, 1)),
    ("a:b\r\n:d\r\n", (5, 1)),
    ("a:b\r\nc :d\r\n", (5, 1)),
    ("a:b\r\nc\x7f:d\r\n", (5, 1)),
    ("!:a\r\n~:b\r\n", (10, 2)),
    ("a:b\rc\r\nd:\r\r\n", (12, 2)),
    ("a:b:c\r\nd::\r\n", (12, 2)),
    ("a:b\r\nc:d", (5, 1)),
    ("a:b\r\nc:d\r", (5, 1)),
];

/// The same of texts with bytes that are no UTF-8.
const OTHER_BYTES: [(&[u8], (usize, u32)); 2] = [
    (b"a:b\r\nc\xe9:d\r\n", (5, 1)),
    (b"a:\xe9\r\nc:\x00\r\n", (10, 2)),
];

#[test]
fn takes_plain_lines(rt: HostRuntime) -> Result<(), Fail> {
    for (text, want) in LINES {
        assert_so(&rt, found(rt.alloc(), text.as_bytes(), 64)? == want, text);
    }
    for (text, want) in OTHER_BYTES {
        assert_so(&rt, found(rt.alloc(), text, 64)? == want, "other bytes");
    }
    Ok(())
}

/// Twelve lines of five bytes, and one more as far as the end of the block.
const FULL: &[u8] =
    b"a:b\r\na:b\r\na:b\r\na:b\r\na:b\r\na:b\r\na:b\r\na:b\r\na:b\r\na:b\r\na:b\r\na:b\r\nc:\r\n";

fn check_blocks(rt: &impl Abort) {
    assert_so(rt, plain_lines(FULL) == (64, 13), "a full block");
    assert_so(rt, plain_lines(&FULL[..63]) == (0, 0), "a byte less");
    assert_so(
        rt,
        plain_lines(&FULL[1..]) == (0, 0),
        "a byte less in front",
    );
}

#[test]
fn takes_whole_blocks(rt: HostRuntime) -> Result<(), Fail> {
    check_blocks(&rt);
    assert_so(
        &rt,
        found(rt.alloc(), &FULL[..62], 100)? == (60, 12),
        "over a block",
    );
    Ok(())
}
