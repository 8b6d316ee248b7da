ghost use Rattle.std.specs.Prelude.{◌≡◌, None};

use crate::{Failed, Wire};
use std::alloc::Global;
use std::fs::OpenOptions;
use std::io::Write;
use std::marker::Model;
use std::{fs, io, rt};

/// The folder of the wires' files.
const FOLDER: &str = "var";

/// A file `var/wire-<number>.log`, to whose end each call appends one line. It tells nothing, and counts each
/// line that the system refuses or that finds no room. Contracts see it as that count.
#[derive(Drop)]
pub struct LogWire<E> {
    rt: E,
    number: u32,
    faults: u64,
}

impl<E> Model for LogWire<E> {
    ghost use Rattle.std.specs.Prelude.{ℕ};

    ghost Value = { ℕ };

    ghost view = { λ w. w.faults };
}

impl<E: rt::Files + AllocGlobal + Drop> LogWire<E> {
    /// The file of this number under the folder in which the program runs, without a fault yet. The file and
    /// its folder are made by the first call. Takes no memory.
    pub fn make(rt: E, number: u32) -> LogWire<E>
        ensures { result ≡ 0 }
    {
        LogWire {
            rt,
            number,
            faults: 0,
        }
    }
}

/// Appends the line with its end, by one write where the system takes it whole.
fn append_line<E: rt::Files>(alloc: Global, rt: &E, number: u32, line: &[u8]) -> io::Result<()> {
    let path = format!(in alloc; "{FOLDER}/wire-{number}.log")?;
    let mut text = Vec::with_capacity(alloc, line.len() + 1)?;
    text.extend_from_slice(line)?;
    text.push(b'\n')?;
    fs::create_dir_all(rt, FOLDER)?;
    let mut file = OpenOptions::new()
        .append(true)
        .create(true)
        .open(rt, path.as_str())?;
    file.write_all(&text)
}

impl<E: rt::Files + AllocGlobal + Drop> Wire for LogWire<E> {
    ghost told = { λ _. None };

    ghost faults = { λ w. w };

    fn present(&mut self, line: &[u8]) -> Result<(), Failed> {
        if append_line(self.rt.alloc(), &self.rt, self.number, line).is_ok() {
            return Ok(());
        }
        self.faults = self.faults.saturating_add(1);
        Err(Failed)
    }
}
