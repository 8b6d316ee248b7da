//! Payloads that a generator makes, and what becomes of them.
ghost use Rattle.std.specs.Prelude.{◌≡◌, ◌<◌, ◌≤◌, length, IfSome};

use crate::rounds::is_same;
use crate::seeds::SEEDS;
use mj_fields::Memory;
use mj_record::EntryFault;
use std::alloc::Global;

/// Random numbers that a seed gives: the upper bits of a linear congruential generator.
#[derive(Debug, Drop)]
struct Source {
    state: u64,
}

/// How many payloads were entries, how many none, and how many entries were written to other bytes.
#[derive(Clone, Copy)]
pub(crate) struct Judged {
    pub(crate) entries: u64,
    pub(crate) bad: u64,
    pub(crate) differed: u64,
}

impl Source {
    /// The next number, below the limit.
    fn below(&mut self, limit: usize) -> usize
        requires { 1 ≤ limit }
        ensures { result < limit }
    {
        self.state = self
            .state
            .wrapping_mul(6_364_136_223_846_793_005)
            .wrapping_add(1_442_695_040_888_963_407);
        (self.state >> 33) as usize % limit
    }

    fn byte(&mut self) -> u8 {
        self.below(256) as u8
    }
}

/// Up to 63 random bytes.
fn random(alloc: Global, source: &mut Source) -> Result<Vec<u8>, Memory> {
    let mut bytes = Vec::new(alloc);
    for _ in 0..source.below(64) {
        bytes.push(source.byte())?;
    }
    Ok(bytes)
}

/// Puts another byte at a place.
fn change(bytes: &mut Vec<u8>, source: &mut Source)
    requires { 1 ≤ length bytes.old.items }
    ensures { length bytes.new.items ≡ length bytes.old.items }
{
    let at = source.below(bytes.len());
    bytes[at] = source.byte();
}

/// Puts a small number where a count or a length may stand: at the first byte from a place on that three zeros follow.
fn recount(bytes: &mut Vec<u8>, source: &mut Source)
    requires { 1 ≤ length bytes.old.items }
{
    let from = source.below(bytes.len());
    if let Some(at) = place_of_count(bytes, from) {
        bytes[at] = source.below(16) as u8;
    }
}

fn place_of_count(bytes: &[u8], from: usize) -> Option<usize>
    ensures { IfSome result (λ at. at < length bytes.now) }
{
    for at in from..bytes.len() {
        if bytes[at..].get(1..4) == Some(b"\0\0\0".as_slice()) {
            return Some(at);
        }
    }
    None
}

/// The same with some bytes cut out, or with some of them twice.
fn spliced(alloc: Global, bytes: &[u8], source: &mut Source) -> Result<Vec<u8>, Memory>
    requires { 1 ≤ length bytes.now }
{
    let (one, other) = (source.below(bytes.len()), source.below(bytes.len()));
    let mut spliced = Vec::from_slice(alloc, &bytes[..one])?;
    spliced.extend_from_slice(&bytes[other..])?;
    Ok(spliced)
}

/// An entry with a change.
fn mutated(alloc: Global, source: &mut Source) -> Result<Vec<u8>, Memory> {
    let mut bytes = Vec::from_slice(alloc, SEEDS[source.below(SEEDS.len())])?;
    if bytes.is_empty() {
        return Ok(bytes);
    }
    match source.below(4) {
        0 => change(&mut bytes, source),
        1 => recount(&mut bytes, source),
        2 => return spliced(alloc, &bytes, source),
        _ => {
            change(&mut bytes, source);
            recount(&mut bytes, source);
        }
    }
    Ok(bytes)
}

/// A payload: one in five is random.
fn payload(alloc: Global, source: &mut Source) -> Result<Vec<u8>, Memory> {
    if source.below(5) == 0 {
        return random(alloc, source);
    }
    mutated(alloc, source)
}

/// Counts what a payload is.
fn judge(alloc: Global, bytes: &[u8], judged: &mut Judged) -> Result<(), Memory> {
    match is_same(alloc, bytes) {
        Ok(true) => judged.entries = judged.entries.saturating_add(1),
        Ok(false) => judged.differed = judged.differed.saturating_add(1),
        Err(EntryFault::Bad) => judged.bad = judged.bad.saturating_add(1),
        Err(EntryFault::Memory) => return Err(Memory),
    }
    Ok(())
}

/// What so many payloads are that this seed gives.
pub(crate) fn judge_all(alloc: Global, seed: u64, count: u64) -> Result<Judged, Memory> {
    let mut source = Source { state: seed };
    let mut judged = Judged {
        entries: 0,
        bad: 0,
        differed: 0,
    };
    for _ in 0..count {
        let bytes = payload(alloc, &mut source)?;
        judge(alloc, &bytes, &mut judged)?;
    }
    Ok(judged)
}
