//! What becomes of mail for other hosts.
use crate::runs::{MAIL, SPOOL, assert_so, ends, site};
use mj_fields::Memory;
use std::alloc::Global;
use std::process::Abort;
use std::test::Fail;

/// Local mail is delivered, mail for other hosts is sent, and what nobody is to get is kept.
const TRANSPORT: &str = r#"
[[processor]]
name = "root"
[[processor.step]]
match = "All"
class = "ToProcessor"
processor = "transport"

[[processor]]
name = "transport"
[[processor.step]]
match = "RecipientIsLocal"
class = "LocalDelivery"
[[processor.step]]
match = "HostIsLocal"
class = "ToProcessor"
processor = "error"
[[processor.step]]
match = "All"
class = "RemoteDelivery"
delayTime = "2*5 minutes, 1 hour"
maxRetries = 5
"#;

const KEPT: &str = r#"
[[processor]]
name = "error"
[[processor.step]]
match = "All"
class = "ToRepository"
repositoryPath = "file://var/mail/error"
"#;

/// What is sent back goes to this processor.
const BOUNCES: &str = r#"bounceProcessor = "bounces"

[[processor]]
name = "bounces"
[[processor.step]]
match = "RemoteDeliveryFailedWithSMTPCode=550"
class = "ToRepository"
repositoryPath = "gone"
[[processor.step]]
match = "IsRemoteDeliveryTemporaryError"
class = "ToRepository"
repositoryPath = "late"
[[processor.step]]
match = "All"
class = "ToRepository"
repositoryPath = "other"
"#;

const GHOST: &str = "bounceProcessor = \"ghost\"\n";

const GATEWAY: &str = "gateway = \"Relay.example.net\"\n";

const THREE: &str =
    "MAIL FROM:<cara@example.net>\r\nRCPT TO:<ann@example.org>\r\nRCPT TO:<dan@example.net>\r\nRCPT TO:<zoe@example.org>\r\nDATA\r\nSubject: one\r\n\r\nhello\r\n";

const OF_THREE: &str = "1/1#1 deposit mailbox/ann@example.org ann@example.org 23
1/1/1#1 deposit file://var/mail/error zoe@example.org 23
1/1/2#1 sent example.net dan@example.net 250 OK
";

/// A message with folded fields and others that a program wrote.
const WHOLE: &str =
    "MAIL FROM:<cara@example.net>\r\nRCPT TO:<ann@example.org>\r\nRCPT TO:<dan@example.net>\r\nDATA\r\nReceived: from a.test by mx.example.org; Mon, 01 Jan 2024 00:00:00 +0000\r\nFrom: Cara <cara@example.net>\r\nTo: Ann <ann@example.org>,\r\n dan@example.net\r\nSubject: =?UTF-8?Q?Gr=C3=BC=C3=9Fe?=\r\nMessage-ID: <1@example.net>\r\nMIME-Version: 1.0\r\nContent-Type: text/plain; charset=utf-8\r\n\r\nhello\r\n";

const OF_WHOLE: &str = "1/1#1 deposit mailbox/ann@example.org ann@example.org 287
1/1/1#1 sent example.net dan@example.net 250 OK
";

const DAN: &str =
    "MAIL FROM:<cara@example.net>\r\nRCPT TO:<dan@example.net>\r\nDATA\r\nSubject: one\r\n\r\nhello\r\n";

const BUSY: &str = "[[answer]]\nrecipient = \"dan@example.net\"\nreply = \"450 busy\"\n";

/// Each retry is due so long after the attempt before it, and the last one is a notice.
const OF_BUSY: &str = "1/1/1#1 retry example.net dan@example.net 2 1704067500000
1/1/1/1#1 retry example.net dan@example.net 3 1704067800000
1/1/1/1/1#1 retry example.net dan@example.net 4 1704071400000
1/1/1/1/1/1#1 retry example.net dan@example.net 5 1704075000000
1/1/1/1/1/1/1#1 retry example.net dan@example.net 6 1704078600000
1/1/1/1/1/1/1/1#1 bounce dan@example.net
1/1/1/1/1/1/1/1/1/1/1#1 sent example.net cara@example.net 250 OK
";

const MIXED: &str =
    "MAIL FROM:<ann@example.org>\r\nRCPT TO:<d1@example.net>\r\nRCPT TO:<d2@example.net>\r\nRCPT TO:<d3@example.net>\r\nDATA\r\nSubject: one\r\n\r\nhello\r\n";

const MIXED_FROM_NULL: &str =
    "MAIL FROM:<>\r\nRCPT TO:<d1@example.net>\r\nRCPT TO:<d2@example.net>\r\nRCPT TO:<d3@example.net>\r\nDATA\r\nSubject: one\r\n\r\nhello\r\n";

const ONE_EACH: &str =
    "[[answer]]\nrecipient = \"d2@example.net\"\nattempt = 1\nreply = \"450 busy\"\n[[answer]]\nrecipient = \"d3@example.net\"\nreply = \"550 no such user\"\n";

const OF_MIXED: &str = "1/1/1#1 sent example.net d1@example.net 250 OK
1/1/1#2 bounce d3@example.net
1/1/1#3 retry example.net d2@example.net 2 1704067500000
1/1/1/1/1#1 deposit mailbox/ann@example.org ann@example.org 346
1/1/1/2#1 sent example.net d2@example.net 250 OK
";

const OF_MIXED_FROM_NULL: &str = "1/1/1#1 sent example.net d1@example.net 250 OK
1/1/1#2 dropped noreturnpath d3@example.net
1/1/1#3 retry example.net d2@example.net 2 1704067500000
1/1/1/1#1 sent example.net d2@example.net 250 OK
";

const TWO_FAIL: &str =
    "MAIL FROM:<cara@example.net>\r\nRCPT TO:<d1@example.net>\r\nRCPT TO:<d2@example.net>\r\nDATA\r\nSubject: one\r\n\r\nhello\r\n";

const TWO_REPLIES: &str =
    "[[answer]]\nrecipient = \"d1@example.net\"\nreply = \"550 no\"\n[[answer]]\nrecipient = \"d2@example.net\"\nreply = \"551 moved\"\n";

const OF_TWO_REPLIES: &str = "1/1/1/1#1 deposit gone d1@example.net 23
1/1/1/2#1 deposit other d2@example.net 23
";

const ONE_REPLY: &str = "[[answer]]\nreply = \"550 no\"\n";

const OF_ONE_REPLY: &str = "1/1/1/1#1 deposit gone d1@example.net,d2@example.net 23\n";

const OF_GHOST: &str = "1/1/1#1 dropped discarded d1@example.net,d2@example.net\n";

/// Recipients at two hosts, of which one is spelled twice.
const HOSTS: &str =
    "MAIL FROM:<cara@example.net>\r\nRCPT TO:<a@X.test>\r\nRCPT TO:<b@y.test>\r\nRCPT TO:<c@x.TEST>\r\nDATA\r\nSubject: one\r\n\r\nhello\r\n";

const OF_HOSTS: &str = "1/1/1#1 sent X.test a@X.test 250 OK
1/1/1#2 sent X.test c@x.TEST 250 OK
1/1/2#1 sent y.test b@y.test 250 OK
";

const OF_GATEWAY: &str = "1/1/1#1 sent Relay.example.net a@X.test 250 OK
1/1/1#2 sent Relay.example.net b@y.test 220 taken
1/1/1#3 sent Relay.example.net c@x.TEST 250 OK
";

/// The gateway takes it for this recipient in words of its own; the recipient's host isn't asked.
const RELAYED: &str =
    "[[answer]]\nhost = \"y.test\"\nreply = \"550 no\"\n[[answer]]\nhost = \"relay.EXAMPLE.net\"\nrecipient = \"B@y.test\"\nreply = \"220 taken\"\n";

/// What stands behind the step of remote delivery, the mail, the table of answers, and the report.
const SENT: [(&str, &str, &str, &str); 10] = [
    ("", THREE, "", OF_THREE),
    ("", WHOLE, "", OF_WHOLE),
    ("", DAN, BUSY, OF_BUSY),
    ("", MIXED, ONE_EACH, OF_MIXED),
    ("", MIXED_FROM_NULL, ONE_EACH, OF_MIXED_FROM_NULL),
    (BOUNCES, TWO_FAIL, TWO_REPLIES, OF_TWO_REPLIES),
    (BOUNCES, TWO_FAIL, ONE_REPLY, OF_ONE_REPLY),
    (GHOST, TWO_FAIL, TWO_REPLIES, OF_GHOST),
    ("", HOSTS, "", OF_HOSTS),
    (GATEWAY, HOSTS, RELAYED, OF_GATEWAY),
];

/// Whether a run over the mail and the table writes this, with these lines behind the step of remote delivery.
fn reports(
    alloc: Global,
    behind: &str,
    mail: &str,
    answers: &str,
    report: &str,
) -> Result<bool, Memory> {
    let configuration = format!(in alloc; "{SPOOL}{TRANSPORT}{behind}{KEPT}")?;
    let mut files = site(alloc, configuration.as_str(), answers, mail)?;
    ends(alloc, &["run"], &mut files, 0, (0, report))
}

#[test]
fn sends_retries_and_bounces(rt: HostRuntime) -> Result<(), Fail> {
    for (behind, mail, answers, report) in SENT {
        assert_so(
            &rt,
            reports(rt.alloc(), behind, mail, answers, report)?,
            report,
        );
    }
    Ok(())
}

/// A table that is refused, and the line that says why.
const REFUSED: [(&str, &str); 3] = [
    (
        "[[answer]]\nreply = \"354 go\"\n",
        "fault answers BadReply 1\n",
    ),
    ("[[answer]\n", "fault answers NotToml 0\n"),
    (
        "[[answer]]\nreply = \"250\"\n[[answer]]\nhost = \"-\"\nreply = \"250\"\n",
        "fault answers BadHost 2\n",
    ),
];

/// Whether a run with this table ends with status 4 and this line.
fn is_refused(alloc: Global, answers: &str, line: &str) -> Result<bool, Memory> {
    let configuration = format!(in alloc; "{SPOOL}{TRANSPORT}{KEPT}")?;
    let mut files = site(alloc, configuration.as_str(), answers, MAIL)?;
    ends(alloc, &["run"], &mut files, 0, (4, line))
}

#[test]
fn refuses_a_table_of_answers(rt: HostRuntime) -> Result<(), Fail> {
    for (answers, line) in REFUSED {
        assert_so(&rt, is_refused(rt.alloc(), answers, line)?, line);
    }
    Ok(())
}
