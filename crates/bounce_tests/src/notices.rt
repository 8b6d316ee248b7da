//! Notices, byte for byte.
ghost use Rattle.std.specs.Prelude.{◌+◌, ◌<◌, ◌^◌, IsTrue};

use crate::rows::{assert_so, failures, is_text, mail, plan, shown};
use mj_bounce::{bounce_mail, postmaster_mail};
use mj_fields::Bytes;
use mj_mail::{Failure, Mail};
use mj_plan::Plan;
use std::alloc::Global;
use std::test::Fail;

/// A mail file and when its mail is due, what is said of it, and the notice behind its recipient: nothing where there is none.
struct Case {
    name: &'static str,
    file: &'static [u8],
    due: u64,
    said: &'static str,
    notice: &'static str,
}

/// Failures, and the notice to the sender. The first one has 346 bytes.
const BOUNCES: [Case; 4] = [
    Case {
        name: "one failure",
        file: b"MAIL FROM:<ann@example.org>\r\nRCPT TO:<d3@example.net>\r\nDATA\r\nSubject: one\r\n\r\n",
        due: 1_704_067_200_000,
        said: "d3@example.net 550 no such user",
        notice: "ann@example.org
From: postmaster@example.org
To: ann@example.org
Subject: Undelivered mail returned to sender
Date: Mon, 01 Jan 2024 00:00:00 +0000
Auto-Submitted: auto-replied

This is the mail system at mx.example.org.

Your message could not be delivered to:

<d3@example.net>: 550 no such user

The head of your message follows.

Subject: one
",
    },
    Case {
        name: "a null sender",
        file: b"MAIL FROM:<>\r\nRCPT TO:<d3@example.net>\r\nDATA\r\nSubject: one\r\n\r\n",
        due: 1_704_067_200_000,
        said: "d3@example.net 550 no such user",
        notice: "",
    },
    Case {
        name: "two failures, and a folded field",
        file: b"MAIL FROM:<Ann.Lee@Mail.Example.COM>\r\nRCPT TO:<d3@example.net>\r\nDATA\r\nReceived: by a\r\n (b)\r\nSubject:two\r\n\r\nbody",
        due: 951_827_696_789,
        said: "Zed@example.net 550 5.1.1 no such user\nann@EXAMPLE.com timed out",
        notice: "Ann.Lee@Mail.Example.COM
From: postmaster@example.org
To: Ann.Lee@Mail.Example.COM
Subject: Undelivered mail returned to sender
Date: Tue, 29 Feb 2000 12:34:56 +0000
Auto-Submitted: auto-replied

This is the mail system at mx.example.org.

Your message could not be delivered to:

<Zed@example.net>: 550 5.1.1 no such user
<ann@EXAMPLE.com>: timed out

The head of your message follows.

Received: by a
 (b)
Subject:two
",
    },
    Case {
        name: "no failure, and the last date",
        file: b"MAIL FROM:<ann@example.org>\r\nRCPT TO:<d3@example.net>\r\nDATA\r\n",
        due: 253_402_300_799_999,
        said: "",
        notice: "ann@example.org
From: postmaster@example.org
To: ann@example.org
Subject: Undelivered mail returned to sender
Date: Fri, 31 Dec 9999 23:59:59 +0000
Auto-Submitted: auto-replied

This is the mail system at mx.example.org.

Your message could not be delivered to:


The head of your message follows.

",
    },
];

/// An error, and the notice to the postmaster.
const TROUBLES: [Case; 2] = [
    Case {
        name: "an error",
        file: b"MAIL FROM:<ann@example.org>\r\nRCPT TO:<d3@example.net>\r\nDATA\r\nSubject: one\r\n\r\n",
        due: 1_704_067_200_000,
        said: "processor root step 2: no such state",
        notice: "postmaster@example.org
From: postmaster@example.org
To: postmaster@example.org
Subject: Notice to the postmaster
Date: Mon, 01 Jan 2024 00:00:00 +0000
Auto-Submitted: auto-replied

This is the mail system at mx.example.org.

Error: processor root step 2: no such state

The head of your message follows.

Subject: one
",
    },
    Case {
        name: "a null sender, and no error",
        file: b"MAIL FROM:<>\r\nRCPT TO:<d3@example.net>\r\nDATA\r\n\r\n",
        due: 0,
        said: "",
        notice: "postmaster@example.org
From: postmaster@example.org
To: postmaster@example.org
Subject: Notice to the postmaster
Date: Thu, 01 Jan 1970 00:00:00 +0000
Auto-Submitted: auto-replied

This is the mail system at mx.example.org.

Error:\x20

The head of your message follows.

",
    },
];

/// Whether a notice about the mail can be made: it has room for one hop more, and a date before the year 10000.
fn can_be_answered(mail: &Mail) -> bool
    ensures hops { IsTrue result → mail.now.hops + 1 < 2 ^ 32 }
    ensures due { IsTrue result → mail.now.due < 253_402_300_800_000 }
{
    mail.hops < u32::MAX && mail.due < 253_402_300_800_000
}

/// The notice to the sender as a text, of nothing where there is none.
fn bounced(alloc: Global, plan: &Plan, mail: &Mail, failed: &[Failure]) -> Result<Vec<u8>, Fail> {
    if !can_be_answered(mail) {
        return Ok(Vec::from_slice(alloc, b"no notice")?);
    }
    match bounce_mail(alloc, plan, mail, failed)? {
        Some(notice) => shown(alloc, &notice, mail),
        None => Ok(Vec::new(alloc)),
    }
}

fn is_bounced(alloc: Global, plan: &Plan, case: &Case) -> Result<bool, Fail> {
    let failed = failures(alloc, case.said)?;
    let mail = mail(alloc, case.file, case.due)?;
    let text = bounced(alloc, plan, &mail, &failed)?;
    is_text(alloc, &text, case.notice)
}

#[test]
fn notices_to_the_sender(rt: HostRuntime) -> Result<(), Fail> {
    let plan = plan(rt.alloc())?;
    for case in &BOUNCES {
        assert_so(&rt, is_bounced(rt.alloc(), &plan, case)?, case.name);
    }
    Ok(())
}

/// The notice to the postmaster as a text.
fn noted(alloc: Global, plan: &Plan, mail: &Mail) -> Result<Vec<u8>, Fail> {
    if !can_be_answered(mail) {
        return Ok(Vec::from_slice(alloc, b"no notice")?);
    }
    let notice = postmaster_mail(alloc, plan, mail)?;
    shown(alloc, &notice, mail)
}

fn is_noted(alloc: Global, plan: &Plan, case: &Case) -> Result<bool, Fail> {
    let mut mail = mail(alloc, case.file, case.due)?;
    mail.error = Bytes::from_slice(alloc, case.said.as_bytes())?;
    let text = noted(alloc, plan, &mail)?;
    is_text(alloc, &text, case.notice)
}

#[test]
fn notices_to_the_postmaster(rt: HostRuntime) -> Result<(), Fail> {
    let plan = plan(rt.alloc())?;
    for case in &TROUBLES {
        assert_so(&rt, is_noted(rt.alloc(), &plan, case)?, case.name);
    }
    Ok(())
}
