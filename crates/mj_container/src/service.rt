use mj_fields::{Bytes, Items, Memory};
use mj_mail::{Fact, Mail};

/// Where a mail goes after its service.
#[derive(Drop)]
pub enum Onward {
    /// To the next step.
    GoOn(Mail),
    /// To the processor of this name; with the state `ghost` it ends.
    Leave { mail: Mail, state: Bytes },
    /// Nowhere: the mailet has taken it.
    End,
}

/// What a mailet made of a mail: facts, mails that keep its name, and where it goes.
#[derive(Drop)]
pub struct Served {
    pub facts: Items<Fact>,
    pub children: Items<Mail>,
    pub onward: Onward,
}

/// A mail whose mailet failed, as it was, and the text of the failure.
#[derive(Drop)]
pub struct Unserved {
    pub mail: Mail,
    pub text: Bytes,
}

/// Why a mailet gave nothing.
#[derive(Drop)]
pub enum ServeError {
    Failed(Unserved),
    /// Want of memory.
    Memory,
}

impl From<Memory> for ServeError {
    ghost use Rattle.std.specs.Prelude.{◌≡◌};
    ghost use Rattle.mj_container.specs.declared.service.ServeError.TheVariants.{Memory as NoRoom};

    ghost from_gives = { λ _ error. error ≡ NoRoom };

    fn from(_: Memory) -> ServeError {
        ServeError::Memory
    }
}
