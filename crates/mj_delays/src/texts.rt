//! Parts of texts: round a separator, and without the blanks round them.
ghost use Rattle.std.specs.Prelude.{◌≡◌, ◌==◌, ◌+◌, ◌<◌, take, drop, length, IfSome, position};
ghost use Rattle.mj_terms.specs.Text.{is_blank, trim_front, trim_back, trimmed};

/// Whether a byte is a space or a tab.
fn is_blank(byte: u8) -> bool
    ensures { result ≡ is_blank byte }
{
    byte == b' ' || byte == b'\t'
}

/// The text without the blanks at its front.
fn trim_front(mut text: &[u8]) -> &[u8]
    ensures { result.now ≡ trim_front text.entry.now }
{
    while let Some((first, rest)) = text.split_first() {
        if !is_blank(*first) {
            return text;
        }
        text = rest;
    }
    text
}

/// The text without the blanks at its end.
#[tactic(auto, using(crate::proofs::Trims::blank_last, crate::proofs::Trims::other_last))]
fn trim_back(mut text: &[u8]) -> &[u8]
    ensures { result.now ≡ trim_back text.entry.now }
{
    while let Some((last, rest)) = text.split_last() {
        if !is_blank(*last) {
            return text;
        }
        text = rest;
    }
    text
}

/// The text without the blanks at its front and at its end.
pub(crate) fn trimmed(text: &[u8]) -> &[u8]
    ensures { result.now ≡ trimmed text.now }
{
    trim_back(trim_front(text))
}

/// Where a text is cut at a byte: the place of the first such byte.
pub(crate) fn place_of(text: &[u8], separator: u8) -> Option<usize>
    ensures value { result ≡ position (λ b. b == separator) text.now }
    ensures within { IfSome result (λ place. place < length text.now) }
{
    text.iter().position(|byte| *byte == separator)
}
