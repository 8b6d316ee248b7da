//! What becomes of a recipient by its reply.
ghost use Rattle.std.specs.Prelude.{◌≡◌};
ghost use Rattle.mj_remote.specs.Fates.{meets as meets_of};

use mj_mail::Class;

/// What becomes of a recipient after an attempt (RFC 5321, 4.2.1 and 4.5.4).
#[derive(Clone, Copy, Debug, PartialEq, Eq)]
pub enum Fate {
    /// The host took the mail.
    Served,
    /// The host refused it for good, or this was the last attempt.
    GivenUp,
    /// The host may take it at the next attempt.
    TriedAgain,
}

impl Fate {
    /// Whether a reply of this class means this fate, where a next attempt comes after this delay, if one comes.
    pub fn meets(self, delay: Option<u64>, class: Class) -> bool
        ensures { result ≡ meets_of self delay class }
    {
        match (self, class) {
            (Fate::Served, Class::Success) | (Fate::GivenUp, Class::Permanent) => true,
            (Fate::GivenUp, Class::Transient) => delay.is_none(),
            (Fate::TriedAgain, Class::Transient) => delay.is_some(),
            _ => false,
        }
    }
}
