//! Short runs, and what is passed over in them.
use crate::events::Word::{
    Accept, Advance, Attempt, Claim, Close, Commit, Crash, Reopen, Setup, Stop,
};
use crate::events::{Word, assert_history, assert_so, assert_wire, name};
use crate::sites::{IN, Parts, SPOOL, TRANSPORT, happened};
use mj_core::Machine;
use std::process::Abort;
use std::test::Fail;

const ROOT: &[u32] = &[1];

const CHILD: &[u32] = &[1, 1];

const SENT: &[u32] = &[1, 1, 1];

const AGAIN: &[u32] = &[1, 1, 1, 1];

const OTHER: &[u32] = &[2];

const OTHER_CHILD: &[u32] = &[2, 1];

/// A run: what it shows, its events, and what its entries are at the end.
type Run = (&'static str, &'static [Word], &'static str);

/// Runs where each mail is deposited.
const DEPOSITS: [Run; 8] = [
    (
        "a claim that a crash ends is claimed again",
        &[
            Accept(0),
            Close,
            Claim(0, ROOT),
            Crash,
            Reopen,
            Close,
            Claim(1, ROOT),
            Commit(1),
        ],
        "setup 0.mail 1 ",
    ),
    (
        "a mail that is claimed isn't claimed by another worker",
        &[
            Accept(0),
            Close,
            Claim(0, ROOT),
            Crash,
            Reopen,
            Close,
            Claim(1, ROOT),
            Claim(2, ROOT),
            Commit(2),
            Commit(1),
        ],
        "setup 0.mail 1 ",
    ),
    (
        "the claim of a mail that isn't next",
        &[
            Accept(0),
            Accept(1),
            Claim(0, OTHER),
            Commit(0),
            Claim(0, ROOT),
            Claim(1, OTHER),
            Commit(1),
            Commit(0),
        ],
        "setup 0.mail 1.mail 2 1 ",
    ),
    (
        "a worker above those that there are",
        &[
            Accept(0),
            Claim(16, ROOT),
            Commit(16),
            Claim(15, ROOT),
            Commit(15),
        ],
        "setup 0.mail 1 ",
    ),
    (
        "a file that was accepted, and a closed intake",
        &[
            Accept(0),
            Accept(0),
            Close,
            Accept(1),
            Crash,
            Reopen,
            Accept(0),
            Accept(1),
        ],
        "setup 0.mail 1.mail ",
    ),
    (
        "nothing happens behind a stop but a crash",
        &[
            Accept(0),
            Claim(0, ROOT),
            Stop(1),
            Accept(1),
            Commit(0),
            Claim(1, ROOT),
            Setup,
            Reopen,
            Crash,
            Accept(1),
        ],
        "setup 0.mail ",
    ),
    (
        "a crash ends a stop",
        &[
            Accept(0),
            Claim(0, ROOT),
            Stop(0),
            Crash,
            Reopen,
            Claim(1, ROOT),
            Commit(1),
        ],
        "setup 0.mail 1 ",
    ),
    (
        "no next configuration, and no attempt at a mail in a processor",
        &[
            Accept(0),
            Setup,
            Claim(0, ROOT),
            Attempt(0),
            Commit(0),
            Setup,
        ],
        "setup 0.mail 1 ",
    ),
];

/// Runs where mail for other hosts is sent, and the first attempt is put off.
const SENDINGS: [Run; 6] = [
    (
        "an attempt that a crash followed is made again",
        &[
            Accept(0),
            Close,
            Claim(0, ROOT),
            Commit(0),
            Claim(0, CHILD),
            Commit(0),
            Claim(0, SENT),
            Attempt(0),
            Crash,
            Reopen,
            Close,
            Claim(0, SENT),
            Attempt(0),
            Commit(0),
        ],
        "setup 0.mail 1 1/1 1/1/1 ",
    ),
    (
        "no commit without an attempt since the claim",
        &[
            Accept(0),
            Close,
            Claim(0, ROOT),
            Commit(0),
            Claim(0, CHILD),
            Commit(0),
            Claim(0, SENT),
            Attempt(0),
            Crash,
            Reopen,
            Close,
            Claim(0, SENT),
            Commit(0),
        ],
        "setup 0.mail 1 1/1 ",
    ),
    (
        "a retry isn't claimed before its moment while a claim is out",
        &[
            Accept(0),
            Accept(1),
            Close,
            Claim(0, ROOT),
            Commit(0),
            Claim(1, OTHER),
            Claim(0, CHILD),
            Commit(0),
            Claim(0, SENT),
            Attempt(0),
            Commit(0),
            Claim(0, AGAIN),
            Attempt(0),
            Commit(0),
        ],
        "setup 0.mail 1.mail 1 1/1 1/1/1 ",
    ),
    (
        "nor while the intake is open",
        &[
            Accept(0),
            Claim(0, ROOT),
            Commit(0),
            Claim(0, CHILD),
            Commit(0),
            Claim(0, SENT),
            Attempt(0),
            Commit(0),
            Claim(0, AGAIN),
            Attempt(0),
            Commit(0),
        ],
        "setup 0.mail 1 1/1 1/1/1 ",
    ),
    (
        "its moment comes",
        &[
            Accept(0),
            Accept(1),
            Claim(0, ROOT),
            Commit(0),
            Claim(1, OTHER),
            Claim(0, CHILD),
            Commit(0),
            Claim(0, SENT),
            Attempt(0),
            Commit(0),
            Advance(1_704_067_499_999),
            Claim(0, AGAIN),
            Advance(1_704_067_500_000),
            Claim(0, AGAIN),
            Attempt(0),
            Commit(0),
        ],
        "setup 0.mail 1.mail 1 1/1 1/1/1 1/1/1/1 ",
    ),
    (
        "nothing else is left",
        &[
            Accept(0),
            Close,
            Claim(0, ROOT),
            Commit(0),
            Claim(0, CHILD),
            Commit(0),
            Claim(0, SENT),
            Attempt(0),
            Commit(0),
            Claim(1, OTHER_CHILD),
            Claim(0, AGAIN),
            Attempt(0),
            Commit(0),
        ],
        "setup 0.mail 1 1/1 1/1/1 1/1/1/1 ",
    ),
];

/// The lines of the attempts of the last of these.
const LINES: &str = "1/1/1 1 example.net dan@example.net\n1/1/1/1 2 example.net dan@example.net\n";

/// Fails where a run has other entries.
fn assert_run(
    rt: &(impl Abort + AllocGlobal),
    parts: Parts,
    &(case, words, want): &Run,
) -> Result<(), Fail> {
    let machine = happened(rt.alloc(), &[parts], words)?;
    assert_history(rt, &machine, want, case)
}

fn assert_runs(rt: &(impl Abort + AllocGlobal), parts: Parts, runs: &[Run]) -> Result<(), Fail> {
    for run in runs {
        assert_run(rt, parts, run)?;
    }
    Ok(())
}

/// Fails where the mail that is sent first was attempted another time.
fn assert_attempts(
    rt: &(impl Abort + AllocGlobal),
    &(case, words, _): &Run,
    want: u64,
) -> Result<(), Fail> {
    let machine = happened(rt.alloc(), &[(SPOOL, TRANSPORT)], words)?;
    assert_attempted(rt, &machine, want, case)
}

fn assert_attempted(
    rt: &(impl Abort + AllocGlobal),
    machine: &Machine,
    want: u64,
    case: &str,
) -> Result<(), Fail> {
    let made = machine.attempts(&name(rt.alloc(), SENT)?);
    assert_so(rt, made == want, case);
    Ok(())
}

#[test]
fn deposits(rt: HostRuntime) -> Result<(), Fail> {
    assert_runs(&rt, (SPOOL, IN), &DEPOSITS)
}

#[test]
fn sendings(rt: HostRuntime) -> Result<(), Fail> {
    assert_runs(&rt, (SPOOL, TRANSPORT), &SENDINGS)
}

#[test]
fn attempts_are_counted(rt: HostRuntime) -> Result<(), Fail> {
    for (run, want) in SENDINGS.iter().zip([2, 1, 1, 1, 1, 1]) {
        assert_attempts(&rt, run, want)?;
    }
    Ok(())
}

#[test]
fn lines_of_attempts(rt: HostRuntime) -> Result<(), Fail> {
    let machine = happened(rt.alloc(), &[(SPOOL, TRANSPORT)], SENDINGS[5].1)?;
    assert_wire(&rt, &machine, LINES)
}
