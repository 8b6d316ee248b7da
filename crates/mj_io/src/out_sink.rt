ghost use Rattle.std.specs.Prelude.{◌≡◌, None};

use crate::warning::warn;
use crate::{Failed, Sink};
use std::io;
use std::io::ErrorKind;
use std::marker::Model;

/// Standard output. It tells nothing, and counts each write that the system refuses. Contracts see it as that
/// count. Each of these has a line on standard error.
#[derive(Drop)]
pub struct OutSink<E> {
    rt: E,
    faults: u64,
}

impl<E> Model for OutSink<E> {
    ghost use Rattle.std.specs.Prelude.{ℕ};

    ghost Value = { ℕ };

    ghost view = { λ s. s.faults };
}

impl<E: Print + Eprint + Drop> OutSink<E> {
    /// Standard output of this runtime, without a fault yet. Takes no memory.
    pub fn make(rt: E) -> OutSink<E>
        ensures { result ≡ 0 }
    {
        OutSink { rt, faults: 0 }
    }
}

/// What is left of a piece after one write. A write that takes no byte is an error.
fn write_some<'a, E: Print>(rt: &E, rest: &'a [u8]) -> io::Result<&'a [u8]> {
    match rt.write_some(rest) {
        Ok(0) => Err(io::Error::from(ErrorKind::WriteZero)),
        Ok(n) => Ok(&rest[n..]),
        Err(e) if e.kind() == ErrorKind::Interrupted => Ok(rest),
        Err(e) => Err(e),
    }
}

fn write_whole<E: Print>(rt: &E, piece: &[u8]) -> io::Result<()> {
    let mut rest = piece;
    for _ in 0..u64::MAX {
        if rest.is_empty() {
            return Ok(());
        }
        rest = write_some(rt, rest)?;
    }
    Err(io::Error::from(ErrorKind::Interrupted))
}

impl<E: Print + Eprint + Drop> Sink for OutSink<E> {
    ghost told = { λ _. None };

    ghost faults = { λ s. s };

    fn write(&mut self, piece: &[u8]) -> Result<(), Failed> {
        match write_whole(&self.rt, piece) {
            Ok(()) => Ok(()),
            Err(e) => {
                warn(&self.rt, "standard output", &e);
                self.faults = self.faults.saturating_add(1);
                Err(Failed)
            }
        }
    }
}
