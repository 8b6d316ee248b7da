//! The forms that texts have.
ghost use Rattle.std.specs.Prelude.{◌≡◌};
ghost use Rattle.mj_config_walk.specs.Values.{Gives, formed};
ghost use Rattle.mj_config_values.specs.Forms.{has_form};

use mj_config_walk::{PlanKind, Refusal};
use mj_fields::Bytes;
use mj_head::is_field_name;
use mj_plan::{
    is_attribute_name, is_attribute_value, is_line, is_processor_name, is_reply_code, is_repository,
};
use std::alloc::Global;

/// The forms that texts of a configuration have.
#[derive(Clone, Copy, Debug, PartialEq, Eq)]
pub enum TextForm {
    /// At least one byte.
    Filled,
    /// The value of a header field, a prefix or a message.
    Line,
    ProcessorName,
    Repository,
    AttributeName,
    AttributeValue,
    FieldName,
    ReplyCode,
}

impl TextForm {
    /// Whether the text has this form.
    pub fn holds(self, text: &[u8]) -> bool
        ensures { result ≡ has_form self text.now }
    {
        match self {
            TextForm::Filled => !text.is_empty(),
            TextForm::Line => is_line(text),
            TextForm::ProcessorName => is_processor_name(text),
            TextForm::Repository => is_repository(text),
            TextForm::AttributeName => is_attribute_name(text),
            TextForm::AttributeValue => is_attribute_value(text),
            TextForm::FieldName => is_field_name(text),
            TextForm::ReplyCode => is_reply_code(text),
        }
    }
}

/// A copy of a text of this form. A text of another form is `BadArgument`.
pub fn formed(alloc: Global, form: TextForm, text: &[u8]) -> Result<Bytes, Refusal>
    ensures { Gives result (formed (has_form form) text.now) }
{
    if !form.holds(text) {
        return Err(Refusal::Kind(PlanKind::BadArgument));
    }
    Ok(Bytes::from_slice(alloc, text)?)
}
