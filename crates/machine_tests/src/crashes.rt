//! A crash at each place between the events of two mails and two workers.
use crate::events::Word::{Accept, Attempt, Claim, Close, Commit, Crash, Reopen};
use crate::events::{Word, assert_reports, assert_so, name};
use crate::sites::{SPOOL, TRANSPORT, happened};
use mj_core::Machine;
use mj_fields::Memory;
use std::alloc::{AllocError, Global};
use std::process::Abort;
use std::test::Fail;

/// What two workers do.
const EVENTS: [Word; 21] = [
    Accept(0),
    Accept(1),
    Close,
    Claim(0, &[1]),
    Claim(1, &[2]),
    Commit(1),
    Claim(1, &[2, 1]),
    Commit(0),
    Claim(0, &[1, 1]),
    Commit(1),
    Commit(0),
    Claim(0, &[2, 1, 1]),
    Claim(1, &[1, 1, 1]),
    Attempt(1),
    Attempt(0),
    Commit(1),
    // A retry, before its moment and while a claim is out.
    Claim(1, &[1, 1, 1, 1]),
    Commit(0),
    Claim(0, &[1, 1, 1, 1]),
    Attempt(0),
    Commit(0),
];

/// At how many claims hosts were called that stand before the event of each place, and behind the last one.
const CALLED: [u64; 22] = [
    0, 0, 0, 0, 0, 0, 0, 0, 0, 0, 0, 0, 0, 0, 1, 2, 1, 1, 0, 0, 1, 0,
];

/// What one thread reports that carries each mail alone.
const REPORT: &str = "1/1#1 deposit mailbox/ann@example.org ann@example.org 23
1/1/1#1 retry example.net dan@example.net 2 1704067500000
1/1/1/1#1 sent example.net dan@example.net 250 OK
2/1/1#1 sent remote.test dora@remote.test 250 OK
";

/// The names of all mails.
const NAMES: [&[u32]; 7] = [
    &[1],
    &[1, 1],
    &[1, 1, 1],
    &[1, 1, 1, 1],
    &[2],
    &[2, 1],
    &[2, 1, 1],
];

/// The names of the mails for hosts.
const SENT: [&[u32]; 3] = [&[1, 1, 1], &[1, 1, 1, 1], &[2, 1, 1]];

/// Both workers go on with what they have, and one of them takes each mail that is next.
fn put_round(words: &mut Vec<Word>) -> Result<(), AllocError> {
    for name in NAMES {
        words.extend_from_slice(&[Attempt(1), Commit(1), Claim(0, name), Attempt(0), Commit(0)])?;
    }
    Ok(())
}

/// All events, with a crash before the event of this place, and then what is left.
fn with_crash(alloc: Global, place: usize) -> Result<Vec<Word>, AllocError> {
    let place = place.min(EVENTS.len());
    let mut words = Vec::from_slice(alloc, &EVENTS[..place])?;
    words.extend_from_slice(&[Crash, Reopen])?;
    words.extend_from_slice(&EVENTS[place..])?;
    words.extend_from_slice(&[Accept(0), Accept(1), Close])?;
    for _ in 0..NAMES.len() {
        put_round(&mut words)?;
    }
    Ok(words)
}

/// How often hosts were called.
fn calls(alloc: Global, machine: &Machine) -> Result<u64, Memory> {
    let mut calls: u64 = 0;
    for sent in SENT {
        calls = calls.saturating_add(machine.attempts(&name(alloc, sent)?));
    }
    Ok(calls)
}

/// Fails where a machine hasn't the report, or didn't call hosts three times and so often beside it.
fn assert_calls(
    rt: &(impl Abort + AllocGlobal),
    machine: &Machine,
    called: u64,
) -> Result<(), Fail> {
    assert_reports(rt, machine, REPORT)?;
    let calls = calls(rt.alloc(), machine)?;
    assert_so(rt, calls == called.saturating_add(3), "calls");
    Ok(())
}

fn assert_crashed(
    rt: &(impl Abort + AllocGlobal),
    words: &[Word],
    called: u64,
) -> Result<(), Fail> {
    let machine = happened(rt.alloc(), &[(SPOOL, TRANSPORT)], words)?;
    assert_calls(rt, &machine, called)
}

#[test]
fn crash_at_each_place(rt: HostRuntime) -> Result<(), Fail> {
    for (place, called) in CALLED.iter().enumerate() {
        let words = with_crash(rt.alloc(), place)?;
        assert_crashed(&rt, &words, *called)?;
    }
    Ok(())
}
