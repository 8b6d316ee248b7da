//! The program `james`: it hands the words of the command line, the working folder and standard output to the top
//! call, and ends with its status.
#![tactic(auto)]

ghost use Rattle.std.specs.Prelude.{◌≡◌, true};
ghost use Rattle.mj_engine.specs.Top.{is_status};

use mj_engine::james_one;
use mj_fields::Memory;
use mj_io::{FolderFiles, OutSink};
use std::env;
use std::io::ErrorKind;
use std::process::ExitCode;
use std::rt::Env;

/// The status for want of memory.
const MEMORY: u8 = 12;

/// The words behind the program's name. Words that aren't all text can't be had; then there are none, which the top
/// call refuses.
fn words_of<R: Env + AllocGlobal>(rt: &R) -> Result<Vec<String>, Memory> {
    let mut words = Vec::new(rt.alloc());
    match env::args(rt) {
        Ok(args) => {
            for word in args.skip(1) {
                words.push(word)?;
            }
            Ok(words)
        }
        Err(e) if e.kind() == ErrorKind::OutOfMemory => Err(Memory),
        Err(_) => Ok(words),
    }
}

/// Does what the words ask in the working folder, and answers the status with which the program ends.
fn james(rt: HostRuntime) -> u8
    ensures status { is_status result ≡ true }
{
    let Ok(words) = words_of(&rt) else {
        return MEMORY;
    };
    let mut files = FolderFiles::make(rt);
    let mut out = OutSink::make(rt);
    james_one(rt.alloc(), &words, &mut files, &mut out)
}

fn main(rt: HostRuntime) -> ExitCode {
    ExitCode::from(james(rt))
}
