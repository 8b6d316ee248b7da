//! Reads the configuration of the working folder as TOML, and does nothing with it. `bench/bench.py` measures the
//! reading of a whole configuration against this. The status is 0 where there is such a file and it is a TOML document,
//! and else 1.
#![tactic(auto)]

ghost use Rattle.std.specs.Prelude.{◌≡◌, true, false, None, Ok, IsSome};
ghost use Rattle.std.specs.Str.{IsUtf8};
ghost use Rattle.toml.specs.Parse.{parse_document};

use mj_fields::Memory;
use mj_io::{Files, FolderFiles};
use std::alloc::Global;
use std::process::ExitCode;

const CONFIGURATION: &str = "conf/mailetcontainer.toml";

/// One byte more than a configuration may have.
const ROOM: usize = 1_048_577;

/// Whether the bytes are a TOML document.
fn is_document(alloc: Global, bytes: &[u8]) -> Result<bool, Memory>
    ensures yes { result ≡ Ok true → IsUtf8 bytes.now × IsSome (parse_document bytes.now) }
    ensures no { result ≡ Ok false → IsUtf8 bytes.now → parse_document bytes.now ≡ None }
{
    match toml::table_from_slice(alloc, bytes) {
        Ok(_) => Ok(true),
        Err(e) => {
            if e.is_memory() {
                Err(Memory)
            } else {
                Ok(false)
            }
        }
    }
}

fn main(rt: HostRuntime) -> ExitCode {
    let alloc = rt.alloc();
    let mut files = FolderFiles::make(rt);
    let Ok(Some(file)) = files.read(alloc, CONFIGURATION, ROOM) else {
        return ExitCode::FAILURE;
    };
    match is_document(alloc, file.as_slice()) {
        Ok(true) => ExitCode::SUCCESS,
        _ => ExitCode::FAILURE,
    }
}
