//! Writes and reads entries of a journal, by the words of the command line:
//!
//! - `write COUNT SHAPE` makes an Accept of a shape, sees that what it is written to is read to an entry of the same bytes, and
//!   writes it `COUNT` times. The shapes are `body N`, a body of `N` bytes, `fields N LENGTH`, a head of `N` fields that has
//!   `LENGTH` bytes together, and `recipients N`.
//! - `read COUNT SHAPE` does the same, but reads the bytes `COUNT` times.
//! - `mutate SEED COUNT` reads `COUNT` payloads that a generator makes: random bytes, and entries with some bytes changed, cut out or
//!   doubled. It writes each that is an entry, and prints how many were entries, how many were bad, and how many entries were
//!   written to other bytes.
//!
//! `bench/bench.py` measures the first two. The status is 0 where all was done and no bytes differed, and else 1.
#![tactic(auto)]

ghost use Rattle.std.specs.Prelude.{◌≡◌, true, IfOk};
ghost use Rattle.mj_entry_write.specs.Whole.{is_whole};

mod accepts;
mod payloads;
mod rounds;
mod seeds;

use crate::accepts::{with_body, with_fields, with_recipients};
use crate::payloads::judge_all;
use crate::rounds::{read_again, write_again};
use mj_mail::Entry;
use mj_record::EntryFault;
use std::alloc::Global;
use std::process::ExitCode;
use std::rt::Env;
use std::{env, io};

/// The entry of the shape that these words say. Other words are `Bad`.
fn entry_of(alloc: Global, words: &[String]) -> Result<Entry, EntryFault>
    ensures { IfOk result (λ entry. is_whole entry ≡ true) }
{
    match words {
        [shape, n] if shape.as_str() == "body" => with_body(alloc, number(n)? as usize),
        [shape, n] if shape.as_str() == "recipients" => with_recipients(alloc, number(n)?),
        [shape, n, len] if shape.as_str() == "fields" => {
            with_fields(alloc, number(n)?, number(len)?)
        }
        _ => Err(EntryFault::Bad),
    }
}

fn number(word: &String) -> Result<u64, EntryFault> {
    word.as_str().parse::<u64>().map_err(|_| EntryFault::Bad)
}

/// Writes the entry of this shape so many times.
fn writes(alloc: Global, shape: &[String], count: u64) -> Result<(), EntryFault> {
    let entry = entry_of(alloc, shape)?;
    write_again(alloc, &entry, count)
}

/// Reads the entry of this shape so many times.
fn reads(alloc: Global, shape: &[String], count: u64) -> Result<(), EntryFault> {
    let entry = entry_of(alloc, shape)?;
    read_again(alloc, &entry, count)
}

/// Prints what so many payloads of a seed are, and says whether each entry was written to its bytes again.
fn mutates(rt: &(impl Print + AllocGlobal), seed: u64, count: u64) -> bool {
    let Ok(judged) = judge_all(rt.alloc(), seed, count) else {
        return false;
    };
    let printed = println!(rt;
        "{} entries, {} bad, {} differed",
        judged.entries, judged.bad, judged.differed
    );
    printed.is_ok() && judged.differed == 0
}

/// Whether the words were understood, and all was done.
fn does(rt: &(impl Print + AllocGlobal), words: &[String]) -> Result<bool, EntryFault> {
    let alloc = rt.alloc();
    match words {
        [word, count, shape @ ..] if word.as_str() == "write" => {
            writes(alloc, shape, number(count)?)?;
            Ok(true)
        }
        [word, count, shape @ ..] if word.as_str() == "read" => {
            reads(alloc, shape, number(count)?)?;
            Ok(true)
        }
        [word, seed, count] if word.as_str() == "mutate" => {
            Ok(mutates(rt, number(seed)?, number(count)?))
        }
        _ => Ok(false),
    }
}

/// The words behind the program's name.
fn words_of<E: Env + AllocGlobal>(rt: &E) -> io::Result<Vec<String>> {
    let mut words = Vec::new(rt.alloc());
    for word in env::args(rt)?.skip(1) {
        words.push(word)?;
    }
    Ok(words)
}

fn main(rt: HostRuntime) -> ExitCode {
    let Ok(words) = words_of(&rt) else {
        return ExitCode::FAILURE;
    };
    match does(&rt, &words) {
        Ok(true) => ExitCode::SUCCESS,
        _ => ExitCode::FAILURE,
    }
}
