//! Changes of the configuration while mails wait.
use crate::events::Word::{Accept, Claim, Commit, Crash, Reopen, Setup};
use crate::events::{Word, assert_history, assert_reports};
use crate::sites::{IN, LATER, NEW, Parts, SPOOL, TRANSPORT, happened};
use mj_core::Machine;
use std::process::Abort;
use std::test::Fail;

/// The mail that is accepted first takes its step before the configuration changes, and the other one after it.
const BETWEEN: &[Word] = &[
    Accept(0),
    Accept(1),
    Claim(0, &[1]),
    Setup,
    Commit(0),
    Setup,
    Setup,
    Claim(0, &[2]),
    Crash,
    Reopen,
    Claim(1, &[2]),
    Commit(1),
];

const OF_BETWEEN: &str = "setup 0.mail 1.mail 1 setup 2 ";

const OLD_AND_NEW: &str = "1#1 deposit file://var/mail/in ann@example.org,dan@example.net 23
2#1 deposit file://var/mail/new dora@remote.test 20
";

/// A mail waits for a processor that the next configuration hasn't.
const STRANDED: &[Word] = &[
    Accept(0),
    Claim(0, &[1]),
    Commit(0),
    Setup,
    Claim(0, &[1, 1]),
    Commit(0),
];

/// Fails where these events have other entries, or another report.
fn assert_changed(
    rt: &(impl Abort + AllocGlobal),
    all: &[Parts],
    words: &[Word],
    (entries, report): (&str, &str),
) -> Result<(), Fail> {
    let machine = happened(rt.alloc(), all, words)?;
    assert_both(rt, &machine, entries, report)
}

fn assert_both(
    rt: &(impl Abort + AllocGlobal),
    machine: &Machine,
    entries: &str,
    report: &str,
) -> Result<(), Fail> {
    assert_history(rt, machine, entries, "entries")?;
    assert_reports(rt, machine, report)
}

#[test]
fn each_mail_by_the_configuration_in_force(rt: HostRuntime) -> Result<(), Fail> {
    assert_changed(
        &rt,
        &[(SPOOL, IN), (LATER, NEW)],
        BETWEEN,
        (OF_BETWEEN, OLD_AND_NEW),
    )
}

#[test]
fn no_change_that_strands_a_mail(rt: HostRuntime) -> Result<(), Fail> {
    assert_changed(
        &rt,
        &[(SPOOL, TRANSPORT), (SPOOL, IN)],
        STRANDED,
        (
            "setup 0.mail 1 1/1 ",
            "1/1#1 deposit mailbox/ann@example.org ann@example.org 23\n",
        ),
    )
}
