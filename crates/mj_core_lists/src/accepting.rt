//! Whether a mail may be accepted.
ghost use Rattle.std.specs.Prelude.{◌≡◌};
ghost use Rattle.std.specs.List.{list_all};
ghost use Rattle.mj_address.specs.Short.{is_short};
ghost use Rattle.mj_mail.specs.Rules.{has_recipients, is_acceptable, is_short_sender};

use mj_address::{Address, Recipients};
use mj_mail::{MAX_BODY, MAX_HEAD, MAX_RECIPIENTS, NewMail};

/// Whether the mail may be accepted: it has a recipient, its addresses are short, and it keeps the limits.
pub fn is_acceptable(mail: &NewMail) -> bool
    ensures { result ≡ is_acceptable mail.now }
{
    has_recipients(&mail.recipients)
        && are_short(mail.recipients.as_slice())
        && is_short_sender(&mail.sender)
        && mail.head.written_len() <= MAX_HEAD
        && mail.body.len() <= MAX_BODY
}

fn has_recipients(recipients: &Recipients) -> bool
    ensures { result ≡ has_recipients recipients.now }
{
    let count = recipients.len();
    1 <= count && count <= MAX_RECIPIENTS
}

fn are_short(addresses: &[Address]) -> bool
    ensures { result ≡ list_all is_short addresses.now }
{
    addresses.iter().all(is_short)
}

fn is_short_sender(sender: &Option<Address>) -> bool
    ensures { result ≡ is_short_sender sender.now }
{
    match sender {
        Some(address) => is_short(address),
        None => true,
    }
}

fn is_short(address: &Address) -> bool
    ensures { result ≡ is_short address.now }
{
    let local = address.local().len();
    let domain = address.domain().as_slice().len();
    local <= 64 && domain <= 255
}
