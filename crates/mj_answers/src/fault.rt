//! What can be wrong with a table of answers.
ghost use Rattle.std.specs.Prelude.{◌≡◌};
ghost use Rattle.mj_answers.specs.Faults.{fault_at};
ghost use Rattle.mj_answers.specs.declared.fault.AnswersFault.TheVariants as fault;
ghost use Rattle.mj_answers.specs.declared.fault.Refusal.TheVariants as refusal;

use mj_fields::Memory;
use std::alloc::{AllocError, AllocFailed};

/// What is wrong with a table of answers.
#[derive(Clone, Copy, Debug, PartialEq, Eq)]
pub enum AnswersKind {
    /// The file has more than 1,048,576 bytes.
    TooLarge,
    /// The bytes are no TOML document.
    NotToml,
    /// There are more than 10,000 rows.
    TooMany,
    /// A value has another type than its key wants, `attempt` isn't from 1 to 1,000, or there is no `reply`.
    WrongType,
    /// `host` is no domain.
    BadHost,
    /// `recipient` is no address.
    BadAddress,
    /// `reply` is no reply.
    BadReply,
}

/// Why there is no table: the kind of the first fault, with the number of its row, from 1, or 0 where it is in none.
#[derive(Clone, Copy, Debug, PartialEq, Eq)]
pub enum AnswersFault {
    Refused { kind: AnswersKind, row: u32 },
    /// Memory ran out.
    Memory,
}

/// Why a part of a table says nothing.
#[derive(Clone, Copy, Debug, PartialEq, Eq)]
pub enum Refusal {
    Kind(AnswersKind),
    Memory,
}

impl From<Memory> for Refusal {
    ghost from_gives = { λ _ given. given ≡ refusal.Memory };

    fn from(_: Memory) -> Refusal {
        Refusal::Memory
    }
}

impl From<AllocError> for Refusal {
    ghost from_gives = { λ _ given. given ≡ refusal.Memory };

    fn from(_: AllocError) -> Refusal {
        Refusal::Memory
    }
}

impl<T: Drop> From<AllocFailed<T>> for Refusal {
    ghost from_gives = { λ _ given. given ≡ refusal.Memory };

    fn from(_: AllocFailed<T>) -> Refusal {
        Refusal::Memory
    }
}

impl From<Memory> for AnswersFault {
    ghost from_gives = { λ _ given. given ≡ fault.Memory };

    fn from(_: Memory) -> AnswersFault {
        AnswersFault::Memory
    }
}

impl<T: Drop> From<AllocFailed<T>> for AnswersFault {
    ghost from_gives = { λ _ given. given ≡ fault.Memory };

    fn from(_: AllocFailed<T>) -> AnswersFault {
        AnswersFault::Memory
    }
}

/// The fault in the row of this number, or in none where that is 0.
pub(crate) fn fault_at(refusal: Refusal, row: u32) -> AnswersFault
    ensures { result ≡ fault_at refusal row }
{
    match refusal {
        Refusal::Kind(kind) => AnswersFault::Refused { kind, row },
        Refusal::Memory => AnswersFault::Memory,
    }
}
