//! What a mailet answers.
ghost use Rattle.std.specs.Prelude.{◌≡◌, []};
ghost use Rattle.mj_container.specs.Serving.{Gives, fails as fails_of, goes as goes_of, passed as passed_of};

use mj_container::{Onward, ServeError, Served, Unserved};
use mj_fields::{Bytes, Items};
use mj_mail::Mail;
use std::alloc::Global;

/// The answer that a mail goes somewhere, or ends, with no fact and no other mail beside it. It takes no memory, and is never an
/// `Err`.
pub fn goes(alloc: Global, onward: Onward) -> Result<Served, ServeError>
    ensures { Gives result (goes_of onward) }
{
    Ok(Served {
        facts: Items::new(alloc),
        children: Items::new(alloc),
        onward,
    })
}

/// The answer that a mailet fails for the reason of this text, with the mail as it is given: `Failed`, or `Memory` where there is no
/// room for the text. It is never an `Ok`.
pub fn fails(alloc: Global, text: &[u8], mail: Mail) -> Result<Served, ServeError>
    ensures { Gives result (fails_of text.now mail) }
{
    let text = Bytes::from_slice(alloc, text)?;
    Err(ServeError::Failed(Unserved { mail, text }))
}

/// Where a mail goes behind a mailet that sends a copy of it: on to the next step with `pass_through`, and else nowhere.
pub fn passed(pass_through: bool, mail: Mail) -> Onward
    ensures { result ≡ passed_of pass_through mail }
{
    if pass_through {
        Onward::GoOn(mail)
    } else {
        Onward::End
    }
}
