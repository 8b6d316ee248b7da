//! Adds payloads to the log on a file, or opens logs on files, by the words of the command line:
//!
//! - `append FILE LENGTH COUNT GROUP` adds `COUNT` groups of `GROUP` payloads of `LENGTH` bytes, each group at once, and one payload by
//!   itself where a group is one.
//! - `open FILE..` opens each log, and prints how many payloads it has and how long its file is then, or why it was refused.
//! - `read FILE..` does the same, and prints of each payload its length and a number that its bytes give.
//!
//! `bench/bench.py` measures the first two, and `bench/journals.py` compares what `read` prints with `tools/journal`. The status is 0
//! where all was done, and else 1.
#![tactic(auto)]

ghost use Rattle.std.specs.Prelude.{◌≡◌, ◌<◌, ◌≤◌, length, IfOk, OnOk};
ghost use Rattle.mj_log.specs.FrameLaws.{AllShort};
ghost use Rattle.mj_log.specs.Log.{texts};

use mj_disk::{Disk, FileDisk};
use mj_log::{Log, LogFault};
use std::alloc::{AllocError, Global};
use std::os::unix::fs::FileExt;
use std::process::ExitCode;
use std::rt::Env;
use std::{env, io, rt};

/// The greatest length that a file may reach.
const LIMIT: u64 = 1 << 40;

/// The most bytes of a payload.
const MAX_PAYLOAD: usize = 134_217_728;

/// What `append` is asked for.
#[derive(Clone, Copy)]
struct Amount {
    length: usize,
    count: u64,
    group: usize,
}

fn amount_of(length: &str, count: &str, group: &str) -> Option<Amount> {
    Some(Amount {
        length: length.parse::<usize>().ok()?,
        count: count.parse::<u64>().ok()?,
        group: group.parse::<usize>().ok()?,
    })
}

/// The log on the file of a path.
fn open<E: rt::Files + AllocGlobal + Drop>(
    rt: E,
    path: &str,
) -> Result<Log<FileDisk<'_, E>>, LogFault>
where
    E::File: FileExt,
{
    let alloc = rt.alloc();
    match Log::reopen(alloc, FileDisk::at(rt, path), LIMIT) {
        Ok(log) => Ok(log),
        Err(refused) => Err(refused.fault),
    }
}

/// A payload of so many bytes.
fn payload_of(alloc: Global, len: usize) -> Result<Vec<u8>, AllocError>
    ensures { IfOk result (λ payload. length payload.items ≡ len) }
{
    vec![in alloc; b'x'; len]
}

/// Adds a payload of so many bytes to a group.
#[tactic(auto, using(crate::proofs::Short::short_pushed))]
fn push_payload(alloc: Global, group: &mut Vec<Vec<u8>>, len: usize) -> Result<(), AllocError>
    requires few { len ≤ 134217728 }
    requires short { AllShort (texts group.old.items) }
    ensures { OnOk result (AllShort (texts group.new.items)) }
{
    group.push(payload_of(alloc, len)?)?;
    Ok(())
}

fn group_of(alloc: Global, amount: Amount) -> Result<Vec<Vec<u8>>, AllocError>
    requires { amount.length ≤ 134217728 }
    ensures { IfOk result (λ group. AllShort (texts group.items)) }
{
    let mut group = Vec::new(alloc);
    for _ in 0..amount.group {
        push_payload(alloc, &mut group, amount.length)?;
    }
    Ok(group)
}

fn append_one<D: Disk + Drop>(log: &mut Log<D>, payload: &[u8]) -> Result<u64, LogFault>
    requires { length payload.now ≤ 134217728 }
{
    if log.prepare(payload.len()).is_err() {
        return Err(LogFault::Memory);
    }
    log.append(payload)
}

fn append_each<D: Disk + Drop>(log: &mut Log<D>, payload: &[u8], count: u64) -> Result<(), LogFault>
    requires { length payload.now ≤ 134217728 }
{
    for _ in 0..count {
        append_one(log, payload)?;
    }
    Ok(())
}

fn append_groups<D: Disk + Drop>(
    log: &mut Log<D>,
    group: &[Vec<u8>],
    count: u64,
) -> Result<(), LogFault>
    requires { AllShort (texts group.now) }
{
    for _ in 0..count {
        log.append_all(group)?;
    }
    Ok(())
}

fn append_to<D: Disk + Drop>(
    alloc: Global,
    log: &mut Log<D>,
    amount: Amount,
) -> Result<(), LogFault>
    requires { amount.length ≤ 134217728 }
{
    if amount.group == 1 {
        let payload = payload_of(alloc, amount.length).map_err(|_| LogFault::Memory)?;
        return append_each(log, &payload, amount.count);
    }
    let group = group_of(alloc, amount).map_err(|_| LogFault::Memory)?;
    append_groups(log, &group, amount.count)
}

/// Adds the payloads, and says whether all were added.
fn append<E: rt::Files + AllocGlobal + Clone + Drop>(rt: E, path: &str, amount: Amount) -> bool
where
    E::File: FileExt,
{
    if amount.length > MAX_PAYLOAD {
        return false;
    }
    let alloc = rt.alloc();
    match open(rt, path) {
        Ok(mut log) => append_to(alloc, &mut log, amount).is_ok(),
        Err(_) => false,
    }
}

/// A number that tells bytes from others: the number whose digits they are, at base 31, below 2^32.
fn sum_of(bytes: &[u8]) -> u32 {
    let mut sum = 0u32;
    for &byte in bytes {
        sum = sum.wrapping_mul(31).wrapping_add(u32::from(byte));
    }
    sum
}

fn print_payload<D: Disk + Drop>(rt: &impl Print, log: &mut Log<D>, number: u64) -> io::Result<()>
    requires { number < length log.old.places }
    ensures { log.new.places ≡ log.old.places }
{
    let len = log.payload_len(number);
    match log.payload(number) {
        Ok(payload) => {
            let sum = sum_of(payload.as_slice());
            print!(rt; " {len}:{sum}")
        }
        Err(fault) => print!(rt; " {len}:{fault:?}"),
    }
}

fn print_payloads<D: Disk + Drop>(rt: &impl Print, log: &mut Log<D>) -> io::Result<()> {
    for number in 0..log.count() {
        print_payload(rt, log, number)?;
    }
    Ok(())
}

/// Opens a log, and prints a line, with its payloads where that is wanted.
fn show<E: rt::Files + AllocGlobal + Print + Clone + Drop>(
    rt: &E,
    path: &str,
    payloads: bool,
) -> io::Result<()>
where
    E::File: FileExt,
{
    match open(rt.clone()?, path) {
        Ok(mut log) => {
            let count = log.count();
            print!(rt; "{count}")?;
            if payloads {
                print_payloads(rt, &mut log)?;
            }
            match log.into_disk().length() {
                Ok(length) => println!(rt; " {length}"),
                Err(_) => println!(rt),
            }
        }
        Err(fault) => println!(rt; "{fault:?}"),
    }
}

/// Shows each log, and says whether all lines were printed.
fn show_all<E: rt::Files + AllocGlobal + Print + Clone + Drop>(
    rt: &E,
    paths: &[String],
    payloads: bool,
) -> bool
where
    E::File: FileExt,
{
    for path in paths {
        if show(rt, path.as_str(), payloads).is_err() {
            return false;
        }
    }
    true
}

/// Whether the words were understood, and all was done.
fn does<E: rt::Files + AllocGlobal + Print + Clone + Drop>(rt: E, words: &[String]) -> bool
where
    E::File: FileExt,
{
    match words {
        [word, paths @ ..] if word.as_str() == "open" => show_all(&rt, paths, false),
        [word, paths @ ..] if word.as_str() == "read" => show_all(&rt, paths, true),
        [word, path, length, count, group] if word.as_str() == "append" => {
            match amount_of(length.as_str(), count.as_str(), group.as_str()) {
                Some(amount) => append(rt, path.as_str(), amount),
                None => false,
            }
        }
        _ => false,
    }
}

/// The words behind the program's name.
fn words_of<E: Env + AllocGlobal>(rt: &E) -> io::Result<Vec<String>> {
    let mut words = Vec::new(rt.alloc());
    for word in env::args(rt)?.skip(1) {
        words.push(word)?;
    }
    Ok(words)
}

fn main(rt: HostRuntime) -> ExitCode {
    match words_of(&rt) {
        Ok(words) if does(rt, &words) => ExitCode::SUCCESS,
        _ => ExitCode::FAILURE,
    }
}
