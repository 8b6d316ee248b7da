//! The words of a text, with spaces between them.
ghost use Rattle.std.specs.Prelude.{◌≡◌, ◌==◌, ◌∷◌, [], false, slice_index, MatchOption};
ghost use Rattle.mj_config_walk.specs.Arguments.{words};

use mj_config_values::cut;

/// The text without the spaces at its front.
fn without_spaces(mut text: &[u8]) -> &[u8]
    ensures same { words result.now ≡ words text.entry.now }
    ensures front { (slice_index result.now 0 == 32) ≡ false }
{
    while let Some((first, rest)) = text.split_first() {
        if *first != b' ' {
            return text;
        }
        text = rest;
    }
    text
}

/// The first word of a text, and the text behind it.
#[tactic(auto, using(mj_config_walk::proofs::Spaces::first_word))]
pub(crate) fn next_word(text: &[u8]) -> Option<(&[u8], &[u8])>
    ensures { MatchOption result (words text.now ≡ []) (λ read. words text.now ≡ read.0.now ∷ words read.1.now) }
{
    let text = without_spaces(text);
    if text.is_empty() {
        return None;
    }
    match cut(b' ', text) {
        (word, Some(rest)) => Some((word, rest)),
        (word, None) => Some((word, b"")),
    }
}
