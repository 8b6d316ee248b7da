//! The keys of rows, and those that a look-up asks for.
ghost use Rattle.std.specs.Prelude.{◌≡◌, IfOk};
ghost use Rattle.std.proofs.Common.{◌∙◌};
ghost use Rattle.std.specs.Option.{option_copied, option_eq};
ghost use Rattle.mj_answers.specs.contracts.keys.KeysEq.TheImpl.Laws.{laws-law};
ghost use Rattle.mj_answers.specs.contracts.keys.KeysHash.TheImpl.Laws.{respects_eq-law};
ghost use Rattle.mj_answers.specs.Places.{asked_fed, keys_asked, keys_of, same_keys};

use crate::row::Row;
use indexmap::Equivalent;
use mj_address::{Address, Domain};
use mj_fields::Memory;
use std::alloc::Global;

/// The keys that a row has. Two are the same where they have the same keys, each the same without regard to ASCII case.
#[derive(Debug, Drop, PartialEq, Eq, Hash)]
pub struct Keys {
    host: Option<Domain>,
    recipient: Option<Address>,
    attempt: Option<u32>,
}

impl Keys {
    /// The keys of a row, copied.
    pub fn of_row(alloc: Global, row: &Row) -> Result<Keys, Memory>
        ensures { IfOk result (λ keys. keys ≡ keys_of row.now) }
    {
        Ok(Keys {
            host: copied_host(alloc, &row.host)?,
            recipient: copied_recipient(alloc, &row.recipient)?,
            attempt: row.attempt,
        })
    }
}

fn copied_host(alloc: Global, host: &Option<Domain>) -> Result<Option<Domain>, Memory>
    ensures { IfOk result (λ copy. copy ≡ host.now) }
{
    match host {
        Some(host) => Ok(Some(host.copy(alloc)?)),
        None => Ok(None),
    }
}

fn copied_recipient(alloc: Global, recipient: &Option<Address>) -> Result<Option<Address>, Memory>
    ensures { IfOk result (λ copy. copy ≡ recipient.now) }
{
    match recipient {
        Some(recipient) => Ok(Some(recipient.copy(alloc)?)),
        None => Ok(None),
    }
}

/// The keys that a look-up asks for, borrowed.
#[derive(Clone, Copy, PartialEq, Eq, Hash)]
pub struct Asked<'a> {
    pub host: Option<&'a Domain>,
    pub recipient: Option<&'a Address>,
    pub attempt: Option<u32>,
}

impl Equivalent<Keys> for Asked<'_> {
    ghost equivalent = { λ asked. same_keys (keys_asked asked) };

    ghost respects_hash = { λ asked keys same. asked_fed asked ∙ respects_eq-law (keys_asked asked) keys same };

    ghost respects_eq = { λ asked. laws-law.congr (keys_asked asked) };

    fn equivalent(&self, keys: &Keys) -> bool {
        is_asked(self.host, &keys.host)
            && is_asked(self.recipient, &keys.recipient)
            && self.attempt == keys.attempt
    }
}

/// Whether a key is the one that is asked for, or both are missing.
fn is_asked<T: Eq>(asked: Option<&T>, key: &Option<T>) -> bool
    ensures { result ≡ option_eq T.eq (option_copied asked.entry) key.now }
{
    match (asked, key) {
        (Some(asked), Some(key)) => *asked == *key,
        (None, None) => true,
        _ => false,
    }
}
