ghost use Rattle.std.specs.Prelude.{◌≡◌};
ghost use Rattle.mj_match.specs.declared.match_error.MatchError.TheVariants.{Memory};

use mj_fields::Memory;

/// Why a matcher has no truth for a mail.
#[derive(Clone, Copy, Debug, PartialEq, Eq)]
pub enum MatchError {
    /// The condition of this number fails. The conditions of a matcher count from 1, from the left.
    Failed { condition: u32 },
    /// Memory ran out. It says nothing of the matcher.
    Memory,
}

impl From<Memory> for MatchError {
    ghost from_gives = { λ _ error. error ≡ Memory };

    fn from(_: Memory) -> MatchError {
        MatchError::Memory
    }
}
