ghost use Rattle.std.specs.Prelude.{◌≡◌, ◌++◌, true, IfOk, IfSome, OnOk};
ghost use Rattle.std.proofs.Common.{rules};
ghost use Rattle.std.specs.Cmp.Rules.{comparing, hashing};
ghost use Rattle.std.specs.Hash as fed;
ghost use Rattle.std.specs.List.{list_all};
ghost use Rattle.std.specs.Option.{option_copied};
ghost use Rattle.mj_mail.specs.Reply.{Gives, behind_space, class_of, code_in, code_text, code_zeros, is_code, is_printable, is_reply, is_reply_text, reply_of, reply_text, same_reply, text_in};

use crate::put_number;
use mj_fields::{Bytes, Memory};
use std::alloc::Global;
use std::hash::{Hash, Hasher};

/// The most bytes of a reply's text.
pub const MAX_REPLY_TEXT: usize = 512;

/// What a host answers at an attempt to deliver a mail to one recipient: a code of three digits and a text (RFC 5321,
/// 4.2).
#[derive(Debug, Drop)]
pub struct Reply {
    /// 200 to 299, 400 to 499 or 500 to 599.
    pub code: u16,
    /// At most 512 bytes of printable ASCII and spaces.
    pub text: Bytes,
}

/// What a reply says of its recipient (RFC 5321, 4.2.1).
#[derive(Clone, Copy, Debug, PartialEq, Eq)]
pub enum Class {
    /// 2yz: the host took the mail.
    Success,
    /// 4yz: it didn't, and may take it later.
    Transient,
    /// 5yz: it didn't, and won't.
    Permanent,
}

/// Why a text is no reply.
#[derive(Clone, Copy, Debug, PartialEq, Eq)]
pub enum ReplyFault {
    /// It has another form.
    BadReply,
    /// Memory ran out.
    Memory,
}

impl From<Memory> for ReplyFault {
    ghost use Rattle.std.specs.Prelude.{◌≡◌};
    ghost use Rattle.mj_mail.specs.declared.reply.ReplyFault.TheVariants.{Memory as NoRoom};

    ghost from_gives = { λ _ fault. fault ≡ NoRoom };

    fn from(_: Memory) -> ReplyFault {
        ReplyFault::Memory
    }
}

impl Reply {
    /// The reply that a text spells: three digits, of which the first is 2, 4 or 5, alone or followed by a space and at
    /// most [`MAX_REPLY_TEXT`] bytes 32 to 126. Exactly any other text is `BadReply`.
    pub fn read(alloc: Global, bytes: &[u8]) -> Result<Reply, ReplyFault>
        ensures exact { Gives result (reply_of bytes.now) }
        ensures form { IfOk result (λ reply. is_reply reply ≡ true) }
    {
        let place = bytes.len().min(3);
        match (code_in(&bytes[..place]), text_in(&bytes[place..])) {
            (Some(code), Some(text)) => Ok(Reply {
                code,
                text: Bytes::from_slice(alloc, text)?,
            }),
            _ => Err(ReplyFault::BadReply),
        }
    }

    /// What the reply says of its recipient, by its code alone.
    #[tactic(auto, unfolding(crate::specs::Reply::class_of))]
    pub fn class(&self) -> Class
        ensures { result ≡ class_of self.now.code }
    {
        if self.code < 400 {
            Class::Success
        } else if self.code < 500 {
            Class::Transient
        } else {
            Class::Permanent
        }
    }

    /// Puts the reply at the end of a text: its code in three digits at least, and a space and its text where there is one.
    pub fn put(&self, alloc: Global, out: &mut Bytes) -> Result<(), Memory>
        ensures { OnOk result (out.new ≡ out.old ++ reply_text self.now) }
    {
        self.put_code(alloc, out)?;
        put_behind_space(out, self.text.as_slice())
    }

    /// Puts the code at the end of a text, in three digits at least.
    pub fn put_code(&self, alloc: Global, out: &mut Bytes) -> Result<(), Memory>
        ensures { OnOk result (out.new ≡ out.old ++ code_text self.now.code) }
    {
        out.extend(zeros(self.code))?;
        put_number(alloc, out, u64::from(self.code))
    }

    /// An equal value with room of its own.
    pub fn copy(&self, alloc: Global) -> Result<Reply, Memory>
        ensures { IfOk result (λ reply. reply ≡ self.now) }
    {
        Ok(Reply {
            code: self.code,
            text: self.text.copy(alloc)?,
        })
    }
}

/// Two replies are the same where their codes and their texts are.
impl PartialEq for Reply {
    ghost eq = { same_reply };

    ghost laws = { Prim.search (comparing, rules) };

    fn eq(&self, other: &Reply) -> bool {
        self.code == other.code && self.text.as_slice() == other.text.as_slice()
    }
}

impl Eq for Reply {
    ghost laws = { Prim.search (comparing, rules) };
}

impl Hash for Reply {
    ghost hash_input = { λ reply. fed.u16 reply.code ++ fed.slice fed.u8 reply.text };

    ghost respects_eq = { Prim.search (hashing, rules) };

    fn hash<H: Hasher>(&self, state: &mut H) {
        self.code.hash(state);
        self.text.as_slice().hash(state);
    }
}

/// The code that three digits spell.
#[tactic(auto, unfolding(crate::specs::Reply::code_in))]
fn code_in(digits: &[u8]) -> Option<u16>
    ensures value { result ≡ code_in digits.now }
    ensures form { IfSome result (λ code. is_code code ≡ true) }
{
    let [a, b, c] = digits else {
        return None;
    };
    if !matches!(*a, b'2' | b'4' | b'5') || !b.is_ascii_digit() || !c.is_ascii_digit() {
        return None;
    }
    Some(u16::from(*a - b'0') * 100 + u16::from(*b - b'0') * 10 + u16::from(*c - b'0'))
}

/// The text of a reply, by what stands behind its code.
#[tactic(auto, unfolding(crate::specs::Reply::text_in))]
fn text_in(rest: &[u8]) -> Option<&[u8]>
    ensures value { option_copied result ≡ text_in rest.now }
    ensures form { IfSome result (λ text. is_reply_text text.now ≡ true) }
{
    match rest {
        [] => Some(rest),
        [b' ', text @ ..] if is_text(text) => Some(text),
        _ => None,
    }
}

/// Whether this is the text of a reply.
fn is_text(text: &[u8]) -> bool
    ensures { result ≡ is_reply_text text.now }
{
    text.len() <= MAX_REPLY_TEXT && are_printable(text)
}

fn are_printable(text: &[u8]) -> bool
    ensures { result ≡ list_all is_printable text.now }
{
    text.iter().all(|b| matches!(*b, 32..=126))
}

fn zeros(code: u16) -> &'static [u8]
    ensures { result.now ≡ code_zeros code }
{
    if code < 10 {
        b"00"
    } else if code < 100 {
        b"0"
    } else {
        b""
    }
}

fn put_behind_space(out: &mut Bytes, text: &[u8]) -> Result<(), Memory>
    ensures { OnOk result (out.new ≡ out.old ++ behind_space text.now) }
{
    if text.is_empty() {
        return Ok(());
    }
    out.push(b' ')?;
    out.extend(text)
}
