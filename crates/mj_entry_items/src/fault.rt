use mj_address::AddressFault;
use mj_fields::Memory;
use std::alloc::AllocError;

/// Why bytes weren't read as an entry.
#[derive(Clone, Copy, Debug, PartialEq, Eq)]
pub enum EntryFault {
    /// No entry has this form.
    Bad,
    /// Memory ran out.
    Memory,
}

impl From<Memory> for EntryFault {
    ghost use Rattle.std.specs.Prelude.{◌≡◌};
    ghost use Rattle.mj_entry_items.specs.declared.fault.EntryFault.TheVariants.{Memory as NoRoom};

    ghost from_gives = { λ _ fault. fault ≡ NoRoom };

    fn from(_: Memory) -> EntryFault {
        EntryFault::Memory
    }
}

impl From<AddressFault> for EntryFault {
    ghost use Rattle.std.specs.Prelude.{◌≡◌};
    ghost use Rattle.mj_entry_items.specs.Faults.{fault_by};

    ghost from_gives = { λ below fault. fault ≡ fault_by below };

    fn from(below: AddressFault) -> EntryFault {
        match below {
            AddressFault::Memory => EntryFault::Memory,
            _ => EntryFault::Bad,
        }
    }
}

impl From<AllocError> for EntryFault {
    ghost use Rattle.std.specs.Prelude.{◌≡◌};
    ghost use Rattle.mj_entry_items.specs.declared.fault.EntryFault.TheVariants.{Memory as NoRoom};

    ghost from_gives = { λ _ fault. fault ≡ NoRoom };

    fn from(_: AllocError) -> EntryFault {
        EntryFault::Memory
    }
}
