//! A field of a head.
ghost use Rattle.std.specs.Prelude.{◌≡◌};
ghost use Rattle.mj_terms.specs.Text.{same_text};
ghost use Rattle.mj_head.specs.Fields.{is_named};

use std::marker::Model;

/// A field of a head: its name and its raw body, which is what follows the colon, with CRLF between
/// its lines (RFC 5322, 2.2). It borrows both from the head. Contracts see the pair of both.
#[derive(Debug, Drop)]
pub struct Field<'a> {
    pub(crate) name: &'a [u8],
    pub(crate) body: &'a [u8],
}

impl<'a> Model for Field<'a> {
    ghost use Rattle.std.specs.Prelude.{ℕ, List};

    ghost Value = { List ℕ × List ℕ };

    ghost view = { λ field. (field.name.now, field.body.now) };
}

impl<'a> Field<'a> {
    /// The name, as it is spelled.
    pub fn name(&self) -> &'a [u8]
        ensures { result.now ≡ self.now.0 }
    {
        self.name
    }

    /// The raw body: what follows the colon, with CRLF between its lines.
    pub fn body(&self) -> &'a [u8]
        ensures { result.now ≡ self.now.1 }
    {
        self.body
    }

    /// Whether the field has this name, without regard to ASCII case.
    pub fn is_named(&self, name: &[u8]) -> bool
        ensures { result ≡ is_named name.now self.now }
    {
        is_same_name(self.name(), name)
    }
}

/// Whether these are the same name, without regard to ASCII case.
pub(crate) fn is_same_name(name: &[u8], other: &[u8]) -> bool
    ensures { result ≡ same_text name.now other.now }
{
    name.eq_ignore_ascii_case(other)
}
