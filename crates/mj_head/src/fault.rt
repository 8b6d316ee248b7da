//! What can be wrong with a head.
ghost use Rattle.std.specs.Prelude.{◌≡◌};
ghost use Rattle.mj_head.specs.declared.fault.HeadFault.TheVariants.{Memory};

use std::alloc::{AllocError, AllocFailed};
use thiserror::Error;

/// Why bytes have no head. Lines count from 1; of several faults it is the first line's, and there
/// the first in this order (RFC 5322, 2.2).
#[derive(Clone, Copy, Debug, PartialEq, Eq, Error)]
pub enum HeadFault {
    /// The first line begins with a space or a tab, and there is no field that it could continue.
    #[error("line {line} continues no field")]
    ContinuationFirst { line: u32 },
    /// A line that begins a field has no colon.
    #[error("line {line} has no colon")]
    NoColon { line: u32 },
    /// What stands before the colon, less the blanks right before it, is empty or has a byte other
    /// than 33 to 126.
    #[error("line {line} has no name of a field")]
    BadName { line: u32 },
    /// With this line the written form has more than 65,536 bytes.
    #[error("the head is too long at line {line}")]
    TooLong { line: u32 },
    /// Memory ran out.
    #[error("out of memory")]
    Memory,
}

impl From<AllocError> for HeadFault {
    ghost from_gives = { λ _ fault. fault ≡ Memory };

    fn from(_error: AllocError) -> HeadFault {
        HeadFault::Memory
    }
}

impl<T: Drop> From<AllocFailed<T>> for HeadFault {
    ghost from_gives = { λ _ fault. fault ≡ Memory };

    fn from(_error: AllocFailed<T>) -> HeadFault {
        HeadFault::Memory
    }
}
