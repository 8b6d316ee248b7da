use mj_fields::{Bytes, Memory};

/// The most mappings that are followed from one address.
pub const MAX_ROUNDS: usize = 10;

/// The most addresses that one address becomes, equal ones counted.
pub const MAX_RESULTS: usize = 500;

/// Why an address has no expansion.
#[derive(Debug, Drop)]
pub enum RewriteFault {
    /// A mapping says that mail for it fails with this text.
    ErrorMapping { text: Bytes },
    /// More than [`MAX_ROUNDS`] mappings follow each other.
    TooDeep,
    /// It becomes more than [`MAX_RESULTS`] addresses.
    TooMany,
    /// Want of memory.
    Memory,
}

impl From<Memory> for RewriteFault {
    ghost use Rattle.std.specs.Prelude.{◌≡◌};
    ghost use Rattle.mj_container.specs.declared.rewrite_fault.RewriteFault.TheVariants.{Memory as NoRoom};

    ghost from_gives = { λ _ fault. fault ≡ NoRoom };

    fn from(_: Memory) -> RewriteFault {
        RewriteFault::Memory
    }
}
