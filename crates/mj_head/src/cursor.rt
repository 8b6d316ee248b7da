//! A place between two lines of a head.
ghost use Rattle.std.specs.Prelude.{◌≡◌, ◌+◌, ◌*◌, ◌<◌, ◌≤◌, length, drop, IfOk, IfErr};

use crate::fault::HeadFault;

/// The greatest length of a head's written form, in bytes.
pub(crate) const WRITTEN_LIMIT: usize = 65_536;

/// A place between two lines of a head.
#[derive(Clone, Copy)]
pub(crate) struct Cursor<'a> {
    /// The bytes from here on.
    pub(crate) rest: &'a [u8],
    /// The number of the next line, from 1.
    pub(crate) line: u32,
    /// How many bytes the lines before have in the written form.
    pub(crate) written: usize,
    ghost short: { written ≤ 65536 },
    ghost counted: { 3 * line ≤ written + 3 },
    ghost begun: { 1 ≤ line },
}

impl<'a> Cursor<'a> {
    /// The place before the first line.
    pub(crate) fn new(bytes: &'a [u8]) -> Cursor<'a>
        ensures rest { result.rest.now ≡ bytes.now }
        ensures line { result.line ≡ 1 }
        ensures written { result.written ≡ 0 }
    {
        Cursor {
            rest: bytes,
            line: 1,
            written: 0,
        }
    }

    /// The place behind the next line, which has `added` bytes in the written form.
    pub(crate) fn behind(self, rest: &'a [u8], added: usize) -> Result<Cursor<'a>, HeadFault>
        requires { 3 ≤ added }
        ensures rest { IfOk result (λ next. next.rest.now ≡ rest.now) }
        ensures line { IfOk result (λ next. next.line ≡ self.entry.line + 1) }
        ensures written { IfOk result (λ next. next.written ≡ self.entry.written + added) }
        ensures short { IfOk result (λ next. next.written ≤ 65536) }
        ensures fault { IfErr result (λ fault. fault ≡ HeadFault.TooLong self.entry.line) }
        ensures long { IfErr result (λ _. 65536 < self.entry.written + added) }
    {
        if added > WRITTEN_LIMIT - self.written {
            return Err(HeadFault::TooLong { line: self.line });
        }
        Ok(Cursor {
            rest,
            line: self.line + 1,
            written: self.written + added,
        })
    }

    /// The place behind so many bytes, which are so many lines and are written as they stand.
    pub(crate) fn past(self, len: usize, count: u32) -> Cursor<'a>
        requires within { len ≤ length self.rest.now }
        requires short { self.written + len ≤ 65536 }
        requires counted { 3 * count ≤ len }
        ensures rest { result.rest.now ≡ drop len self.entry.rest.now }
        ensures line { result.line ≡ self.entry.line + count }
        ensures written { result.written ≡ self.entry.written + len }
    {
        Cursor {
            rest: &self.rest[len..],
            line: self.line + count,
            written: self.written + len,
        }
    }
}
