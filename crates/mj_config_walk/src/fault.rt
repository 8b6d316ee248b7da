//! What can be wrong with a configuration.
ghost use Rattle.std.specs.Prelude.{◌≡◌};
ghost use Rattle.mj_config_walk.specs.declared.fault.Refusal.TheVariants as refusal;
ghost use Rattle.mj_config_walk.specs.declared.fault.PlanFault.TheVariants as fault;

use mj_fields::Memory;
use std::alloc::{AllocError, AllocFailed};

/// What is wrong with a configuration.
#[derive(Clone, Copy, Debug, PartialEq, Eq)]
pub enum PlanKind {
    /// There is no configuration file. `read_plan` never answers it.
    NoFile,
    /// The file has more than 1,048,576 bytes.
    TooLarge,
    /// The bytes are no TOML document.
    NotToml,
    /// A key that has to be there is missing.
    Missing,
    /// A value has another type than its key wants.
    WrongType,
    /// A text that should be an address, a local part or a domain isn't one.
    BadAddress,
    /// `start` is no moment.
    BadMoment,
    /// There is no processor `root`.
    NoRoot,
    /// There is no processor `error`.
    NoError,
    /// A processor or a remote delivery has the name of an earlier one.
    Twice,
    /// A processor has a name that stands for something else.
    ReservedState,
    /// There is no such mailet.
    UnknownClass,
    /// There is no such matcher.
    UnknownMatcher,
    /// A value or an argument has another form than it should.
    BadArgument,
    /// There is no such processor.
    UnknownProcessor,
    /// A composite matcher stands inside 16 others.
    TooDeep,
    /// There are more of something than may be.
    TooMany,
}

/// Why there is no plan: the kind of the first fault, with the number of its processor and of its step, from 1, or 0
/// where it is in none.
#[derive(Clone, Copy, Debug, PartialEq, Eq)]
pub enum PlanFault {
    Refused {
        kind: PlanKind,
        processor: u32,
        step: u32,
    },
    /// Memory ran out.
    Memory,
}

/// Why a part of a configuration says nothing.
#[derive(Clone, Copy, Debug, PartialEq, Eq)]
pub enum Refusal {
    Kind(PlanKind),
    Memory,
}

impl From<Memory> for Refusal {
    ghost from_gives = { λ _ fault. fault ≡ refusal.Memory };

    fn from(_: Memory) -> Refusal {
        Refusal::Memory
    }
}

impl From<AllocError> for Refusal {
    ghost from_gives = { λ _ fault. fault ≡ refusal.Memory };

    fn from(_: AllocError) -> Refusal {
        Refusal::Memory
    }
}

impl<T: Drop> From<AllocFailed<T>> for Refusal {
    ghost from_gives = { λ _ fault. fault ≡ refusal.Memory };

    fn from(_: AllocFailed<T>) -> Refusal {
        Refusal::Memory
    }
}

impl From<Memory> for PlanFault {
    ghost from_gives = { λ _ answer. answer ≡ fault.Memory };

    fn from(_: Memory) -> PlanFault {
        PlanFault::Memory
    }
}

impl<T: Drop> From<AllocFailed<T>> for PlanFault {
    ghost from_gives = { λ _ answer. answer ≡ fault.Memory };

    fn from(_: AllocFailed<T>) -> PlanFault {
        PlanFault::Memory
    }
}
