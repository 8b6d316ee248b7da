//! Whether bytes have the form of a local part or of a domain. Nothing here allocates.
ghost use Rattle.std.specs.Prelude.{◌≡◌, ◌≢◌, ℕ, ◌<◌, true, false, length, slice_index, OnOk, IfErr, IfSome, IfNone, OnSome};
ghost use Rattle.std.specs.List.{list_all, list_any, before_last, after_last};
ghost use Rattle.mj_address.specs.Grammar.{is_atom_byte, is_atom, is_dot_atom, is_label_byte, is_label, is_dotted_labels, ends_without_hyphen, IsLocal, IsDomain};
ghost use Rattle.mj_address.specs.Reading.{is_at, local_of, domain_of, spelled};

use crate::fault::AddressFault;

/// The signs of an atom beside letters and digits (RFC 5322, 3.2.3).
const ATOM_SIGNS: &[u8; 19] = b"!#$%&'*+-/=?^_`{|}~";

/// The greatest length of a label (RFC 1035, 2.3.4).
const LONGEST_LABEL: usize = 63;

/// The greatest length of a local part (RFC 5321, 4.5.3.1.1).
const LONGEST_LOCAL: usize = 64;

/// The greatest length of a domain (RFC 5321, 4.5.3.1.2).
const LONGEST_DOMAIN: usize = 255;

fn is_atom_byte(byte: u8) -> bool
    ensures { result ≡ is_atom_byte byte }
{
    byte.is_ascii_alphanumeric() || ATOM_SIGNS.contains(&byte)
}

fn are_atom_bytes(piece: &[u8]) -> bool
    ensures { result ≡ list_all is_atom_byte piece.now }
{
    piece.iter().all(|byte| is_atom_byte(*byte))
}

fn is_atom(piece: &[u8]) -> bool
    ensures { result ≡ is_atom piece.now }
{
    !piece.is_empty() && are_atom_bytes(piece)
}

/// Whether the text is atoms joined by single dots.
pub fn is_dot_atom(text: &[u8]) -> bool
    ensures { result ≡ is_dot_atom text.now }
{
    text.split(|byte| *byte == b'.').all(|piece| is_atom(piece))
}

fn is_label_byte(byte: u8) -> bool
    ensures { result ≡ is_label_byte byte }
{
    byte.is_ascii_alphanumeric() || byte == b'-'
}

fn are_label_bytes(piece: &[u8]) -> bool
    ensures { result ≡ list_all is_label_byte piece.now }
{
    piece.iter().all(|byte| is_label_byte(*byte))
}

fn ends_without_hyphen(piece: &[u8]) -> bool
    requires { 0 < length piece.now }
    ensures { result ≡ ends_without_hyphen piece.now }
{
    piece[0] != b'-' && piece[piece.len() - 1] != b'-'
}

fn is_label(piece: &[u8]) -> bool
    ensures { result ≡ is_label piece.now }
{
    !piece.is_empty()
        && piece.len() <= LONGEST_LABEL
        && ends_without_hyphen(piece)
        && are_label_bytes(piece)
}

/// Whether the text is labels joined by single dots.
pub fn is_dotted_labels(text: &[u8]) -> bool
    ensures { result ≡ is_dotted_labels text.now }
{
    text.split(|byte| *byte == b'.')
        .all(|piece| is_label(piece))
}

/// Refuses a text that is no domain, with its fault.
pub fn judge_domain(text: &[u8]) -> Result<(), AddressFault>
    ensures ok { OnOk result (domain_of text.now ≡ Ok text.now) }
    ensures form { OnOk result (IsDomain text.now) }
    ensures err { IfErr result (λ fault. domain_of text.now ≡ Err fault) }
{
    if text.len() > LONGEST_DOMAIN {
        return Err(AddressFault::DomainTooLong);
    }
    if !is_dotted_labels(text) {
        return Err(AddressFault::BadDomain);
    }
    Ok(())
}

/// Refuses a text that is no local part, with its fault.
pub fn judge_local(text: &[u8]) -> Result<(), AddressFault>
    ensures ok { OnOk result (local_of text.now ≡ Ok text.now) }
    ensures form { OnOk result (IsLocal text.now) }
    ensures err { IfErr result (λ fault. local_of text.now ≡ Err fault) }
{
    if text.len() > LONGEST_LOCAL {
        return Err(AddressFault::LocalTooLong);
    }
    if !is_dot_atom(text) {
        return Err(AddressFault::BadLocal);
    }
    Ok(())
}

// The place of the last `@`.
fn last_at(text: &[u8]) -> Option<usize>
    ensures found { IfSome result (λ place. (place < length text.now) × (slice_index text.now place ≡ 64)) }
    ensures last { IfSome result (λ place. (k : ℕ) → place < k → k < length text.now → slice_index text.now k ≢ 64) }
    ensures none { IfNone result ((k : ℕ) → k < length text.now → slice_index text.now k ≢ 64) }
{
    text.iter().rposition(|byte| *byte == b'@')
}

/// The text before and behind the last `@`, if there is one.
pub fn split_at_last_at(text: &[u8]) -> Option<(&[u8], &[u8])>
    ensures none { IfNone result (list_any is_at text.now ≡ false) }
    ensures found { OnSome result (list_any is_at text.now ≡ true) }
    ensures local { IfSome result (λ parts. parts.0.now ≡ before_last is_at text.now) }
    ensures domain { IfSome result (λ parts. parts.1.now ≡ after_last is_at text.now) }
    ensures whole { IfSome result (λ parts. text.now ≡ spelled (parts.0.now, parts.1.now)) }
{
    let place = last_at(text)?;
    Some((&text[..place], &text[place + 1..]))
}
