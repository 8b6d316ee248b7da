//! What becomes of a mail for one host by each mix of replies, at each of three attempts.
use crate::runs::{SPOOL, assert_so, ends, site};
use mj_fields::Memory;
use std::alloc::Global;
use std::process::Abort;
use std::test::Fail;

/// Mail for another host is sent to it, and tried again twice. What is local is a notice.
const FRONT: &str = r#"
[[processor]]
name = "root"
[[processor.step]]
match = "RecipientIsLocal"
class = "Null"
[[processor.step]]
match = "All"
class = "RemoteDelivery"
delayTime = "1 minute"
maxRetries = 2
"#;

/// What is given up goes to this processor.
const BOUNCES: &str = r#"bounceProcessor = "bounces"
[[processor]]
name = "bounces"
[[processor.step]]
match = "RemoteDeliveryFailedWithSMTPCode=550"
class = "ToRepository"
repositoryPath = "gone"
[[processor.step]]
match = "IsRemoteDeliveryTemporaryError"
class = "ToRepository"
repositoryPath = "late"
"#;

const BACK: &str = "[[processor]]\nname = \"error\"\n";

/// The host takes `s`, puts `t` off each time, and refuses `p`, from the attempt on that a row names; before it, it puts all off.
const WAIT: [&str; 3] = [
    "",
    "[[answer]]\nattempt = 1\nreply = \"450 wait\"\n",
    "[[answer]]\nattempt = 1\nreply = \"450 wait\"\n[[answer]]\nattempt = 2\nreply = \"450 wait\"\n",
];

const ANSWERS: &str =
    "[[answer]]\nrecipient = \"t@x.test\"\nreply = \"451 later\"\n[[answer]]\nrecipient = \"p@x.test\"\nreply = \"550 no\"\n";

/// For each mix of recipients and each attempt at which they get these replies first, the report. The sender is told.
const TOLD: &str = "s at 1
1/1#1 sent x.test s@x.test 250 OK

s at 2
1/1#1 retry x.test s@x.test 2 1704067260000
1/1/1#1 sent x.test s@x.test 250 OK

s at 3
1/1#1 retry x.test s@x.test 2 1704067260000
1/1/1#1 retry x.test s@x.test 3 1704067320000
1/1/1/1#1 sent x.test s@x.test 250 OK

t at 1
1/1#1 retry x.test t@x.test 2 1704067260000
1/1/1#1 retry x.test t@x.test 3 1704067320000
1/1/1/1#1 bounce t@x.test
1/1/1/1/1#1 dropped discarded ann@example.org

t at 2
1/1#1 retry x.test t@x.test 2 1704067260000
1/1/1#1 retry x.test t@x.test 3 1704067320000
1/1/1/1#1 bounce t@x.test
1/1/1/1/1#1 dropped discarded ann@example.org

t at 3
1/1#1 retry x.test t@x.test 2 1704067260000
1/1/1#1 retry x.test t@x.test 3 1704067320000
1/1/1/1#1 bounce t@x.test
1/1/1/1/1#1 dropped discarded ann@example.org

p at 1
1/1#1 bounce p@x.test
1/1/1#1 dropped discarded ann@example.org

p at 2
1/1#1 retry x.test p@x.test 2 1704067260000
1/1/1#1 bounce p@x.test
1/1/1/1#1 dropped discarded ann@example.org

p at 3
1/1#1 retry x.test p@x.test 2 1704067260000
1/1/1#1 retry x.test p@x.test 3 1704067320000
1/1/1/1#1 bounce p@x.test
1/1/1/1/1#1 dropped discarded ann@example.org

st at 1
1/1#1 sent x.test s@x.test 250 OK
1/1#2 retry x.test t@x.test 2 1704067260000
1/1/1#1 retry x.test t@x.test 3 1704067320000
1/1/1/1#1 bounce t@x.test
1/1/1/1/1#1 dropped discarded ann@example.org

st at 2
1/1#1 retry x.test s@x.test,t@x.test 2 1704067260000
1/1/1#1 sent x.test s@x.test 250 OK
1/1/1#2 retry x.test t@x.test 3 1704067320000
1/1/1/1#1 bounce t@x.test
1/1/1/1/1#1 dropped discarded ann@example.org

st at 3
1/1#1 retry x.test s@x.test,t@x.test 2 1704067260000
1/1/1#1 retry x.test s@x.test,t@x.test 3 1704067320000
1/1/1/1#1 sent x.test s@x.test 250 OK
1/1/1/1#2 bounce t@x.test
1/1/1/1/1#1 dropped discarded ann@example.org

sp at 1
1/1#1 sent x.test s@x.test 250 OK
1/1#2 bounce p@x.test
1/1/1#1 dropped discarded ann@example.org

sp at 2
1/1#1 retry x.test s@x.test,p@x.test 2 1704067260000
1/1/1#1 sent x.test s@x.test 250 OK
1/1/1#2 bounce p@x.test
1/1/1/1#1 dropped discarded ann@example.org

sp at 3
1/1#1 retry x.test s@x.test,p@x.test 2 1704067260000
1/1/1#1 retry x.test s@x.test,p@x.test 3 1704067320000
1/1/1/1#1 sent x.test s@x.test 250 OK
1/1/1/1#2 bounce p@x.test
1/1/1/1/1#1 dropped discarded ann@example.org

tp at 1
1/1#1 bounce p@x.test
1/1#2 retry x.test t@x.test 2 1704067260000
1/1/1#1 dropped discarded ann@example.org
1/1/2#1 retry x.test t@x.test 3 1704067320000
1/1/2/1#1 bounce t@x.test
1/1/2/1/1#1 dropped discarded ann@example.org

tp at 2
1/1#1 retry x.test t@x.test,p@x.test 2 1704067260000
1/1/1#1 bounce p@x.test
1/1/1#2 retry x.test t@x.test 3 1704067320000
1/1/1/1#1 dropped discarded ann@example.org
1/1/1/2#1 bounce t@x.test
1/1/1/2/1#1 dropped discarded ann@example.org

tp at 3
1/1#1 retry x.test t@x.test,p@x.test 2 1704067260000
1/1/1#1 retry x.test t@x.test,p@x.test 3 1704067320000
1/1/1/1#1 bounce t@x.test,p@x.test
1/1/1/1/1#1 dropped discarded ann@example.org

stp at 1
1/1#1 sent x.test s@x.test 250 OK
1/1#2 bounce p@x.test
1/1#3 retry x.test t@x.test 2 1704067260000
1/1/1#1 dropped discarded ann@example.org
1/1/2#1 retry x.test t@x.test 3 1704067320000
1/1/2/1#1 bounce t@x.test
1/1/2/1/1#1 dropped discarded ann@example.org

stp at 2
1/1#1 retry x.test s@x.test,t@x.test,p@x.test 2 1704067260000
1/1/1#1 sent x.test s@x.test 250 OK
1/1/1#2 bounce p@x.test
1/1/1#3 retry x.test t@x.test 3 1704067320000
1/1/1/1#1 dropped discarded ann@example.org
1/1/1/2#1 bounce t@x.test
1/1/1/2/1#1 dropped discarded ann@example.org

stp at 3
1/1#1 retry x.test s@x.test,t@x.test,p@x.test 2 1704067260000
1/1/1#1 retry x.test s@x.test,t@x.test,p@x.test 3 1704067320000
1/1/1/1#1 sent x.test s@x.test 250 OK
1/1/1/1#2 bounce t@x.test,p@x.test
1/1/1/1/1#1 dropped discarded ann@example.org";

/// The same from the null sender.
const FROM_NULL: &str = "s at 1
1/1#1 sent x.test s@x.test 250 OK

s at 2
1/1#1 retry x.test s@x.test 2 1704067260000
1/1/1#1 sent x.test s@x.test 250 OK

s at 3
1/1#1 retry x.test s@x.test 2 1704067260000
1/1/1#1 retry x.test s@x.test 3 1704067320000
1/1/1/1#1 sent x.test s@x.test 250 OK

t at 1
1/1#1 retry x.test t@x.test 2 1704067260000
1/1/1#1 retry x.test t@x.test 3 1704067320000
1/1/1/1#1 dropped noreturnpath t@x.test

t at 2
1/1#1 retry x.test t@x.test 2 1704067260000
1/1/1#1 retry x.test t@x.test 3 1704067320000
1/1/1/1#1 dropped noreturnpath t@x.test

t at 3
1/1#1 retry x.test t@x.test 2 1704067260000
1/1/1#1 retry x.test t@x.test 3 1704067320000
1/1/1/1#1 dropped noreturnpath t@x.test

p at 1
1/1#1 dropped noreturnpath p@x.test

p at 2
1/1#1 retry x.test p@x.test 2 1704067260000
1/1/1#1 dropped noreturnpath p@x.test

p at 3
1/1#1 retry x.test p@x.test 2 1704067260000
1/1/1#1 retry x.test p@x.test 3 1704067320000
1/1/1/1#1 dropped noreturnpath p@x.test

st at 1
1/1#1 sent x.test s@x.test 250 OK
1/1#2 retry x.test t@x.test 2 1704067260000
1/1/1#1 retry x.test t@x.test 3 1704067320000
1/1/1/1#1 dropped noreturnpath t@x.test

st at 2
1/1#1 retry x.test s@x.test,t@x.test 2 1704067260000
1/1/1#1 sent x.test s@x.test 250 OK
1/1/1#2 retry x.test t@x.test 3 1704067320000
1/1/1/1#1 dropped noreturnpath t@x.test

st at 3
1/1#1 retry x.test s@x.test,t@x.test 2 1704067260000
1/1/1#1 retry x.test s@x.test,t@x.test 3 1704067320000
1/1/1/1#1 sent x.test s@x.test 250 OK
1/1/1/1#2 dropped noreturnpath t@x.test

sp at 1
1/1#1 sent x.test s@x.test 250 OK
1/1#2 dropped noreturnpath p@x.test

sp at 2
1/1#1 retry x.test s@x.test,p@x.test 2 1704067260000
1/1/1#1 sent x.test s@x.test 250 OK
1/1/1#2 dropped noreturnpath p@x.test

sp at 3
1/1#1 retry x.test s@x.test,p@x.test 2 1704067260000
1/1/1#1 retry x.test s@x.test,p@x.test 3 1704067320000
1/1/1/1#1 sent x.test s@x.test 250 OK
1/1/1/1#2 dropped noreturnpath p@x.test

tp at 1
1/1#1 dropped noreturnpath p@x.test
1/1#2 retry x.test t@x.test 2 1704067260000
1/1/1#1 retry x.test t@x.test 3 1704067320000
1/1/1/1#1 dropped noreturnpath t@x.test

tp at 2
1/1#1 retry x.test t@x.test,p@x.test 2 1704067260000
1/1/1#1 dropped noreturnpath p@x.test
1/1/1#2 retry x.test t@x.test 3 1704067320000
1/1/1/1#1 dropped noreturnpath t@x.test

tp at 3
1/1#1 retry x.test t@x.test,p@x.test 2 1704067260000
1/1/1#1 retry x.test t@x.test,p@x.test 3 1704067320000
1/1/1/1#1 dropped noreturnpath t@x.test,p@x.test

stp at 1
1/1#1 sent x.test s@x.test 250 OK
1/1#2 dropped noreturnpath p@x.test
1/1#3 retry x.test t@x.test 2 1704067260000
1/1/1#1 retry x.test t@x.test 3 1704067320000
1/1/1/1#1 dropped noreturnpath t@x.test

stp at 2
1/1#1 retry x.test s@x.test,t@x.test,p@x.test 2 1704067260000
1/1/1#1 sent x.test s@x.test 250 OK
1/1/1#2 dropped noreturnpath p@x.test
1/1/1#3 retry x.test t@x.test 3 1704067320000
1/1/1/1#1 dropped noreturnpath t@x.test

stp at 3
1/1#1 retry x.test s@x.test,t@x.test,p@x.test 2 1704067260000
1/1/1#1 retry x.test s@x.test,t@x.test,p@x.test 3 1704067320000
1/1/1/1#1 sent x.test s@x.test 250 OK
1/1/1/1#2 dropped noreturnpath t@x.test,p@x.test";

/// The same where a processor gets what is given up.
const SENT_BACK: &str = "s at 1
1/1#1 sent x.test s@x.test 250 OK

s at 2
1/1#1 retry x.test s@x.test 2 1704067260000
1/1/1#1 sent x.test s@x.test 250 OK

s at 3
1/1#1 retry x.test s@x.test 2 1704067260000
1/1/1#1 retry x.test s@x.test 3 1704067320000
1/1/1/1#1 sent x.test s@x.test 250 OK

t at 1
1/1#1 retry x.test t@x.test 2 1704067260000
1/1/1#1 retry x.test t@x.test 3 1704067320000
1/1/1/1/1#1 deposit late t@x.test 23

t at 2
1/1#1 retry x.test t@x.test 2 1704067260000
1/1/1#1 retry x.test t@x.test 3 1704067320000
1/1/1/1/1#1 deposit late t@x.test 23

t at 3
1/1#1 retry x.test t@x.test 2 1704067260000
1/1/1#1 retry x.test t@x.test 3 1704067320000
1/1/1/1/1#1 deposit late t@x.test 23

p at 1
1/1/1#1 deposit gone p@x.test 23

p at 2
1/1#1 retry x.test p@x.test 2 1704067260000
1/1/1/1#1 deposit gone p@x.test 23

p at 3
1/1#1 retry x.test p@x.test 2 1704067260000
1/1/1#1 retry x.test p@x.test 3 1704067320000
1/1/1/1/1#1 deposit gone p@x.test 23

st at 1
1/1#1 sent x.test s@x.test 250 OK
1/1#2 retry x.test t@x.test 2 1704067260000
1/1/1#1 retry x.test t@x.test 3 1704067320000
1/1/1/1/1#1 deposit late t@x.test 23

st at 2
1/1#1 retry x.test s@x.test,t@x.test 2 1704067260000
1/1/1#1 sent x.test s@x.test 250 OK
1/1/1#2 retry x.test t@x.test 3 1704067320000
1/1/1/1/1#1 deposit late t@x.test 23

st at 3
1/1#1 retry x.test s@x.test,t@x.test 2 1704067260000
1/1/1#1 retry x.test s@x.test,t@x.test 3 1704067320000
1/1/1/1#1 sent x.test s@x.test 250 OK
1/1/1/1/1#1 deposit late t@x.test 23

sp at 1
1/1#1 sent x.test s@x.test 250 OK
1/1/1#1 deposit gone p@x.test 23

sp at 2
1/1#1 retry x.test s@x.test,p@x.test 2 1704067260000
1/1/1#1 sent x.test s@x.test 250 OK
1/1/1/1#1 deposit gone p@x.test 23

sp at 3
1/1#1 retry x.test s@x.test,p@x.test 2 1704067260000
1/1/1#1 retry x.test s@x.test,p@x.test 3 1704067320000
1/1/1/1#1 sent x.test s@x.test 250 OK
1/1/1/1/1#1 deposit gone p@x.test 23

tp at 1
1/1#1 retry x.test t@x.test 2 1704067260000
1/1/1#1 deposit gone p@x.test 23
1/1/2#1 retry x.test t@x.test 3 1704067320000
1/1/2/1/1#1 deposit late t@x.test 23

tp at 2
1/1#1 retry x.test t@x.test,p@x.test 2 1704067260000
1/1/1#1 retry x.test t@x.test 3 1704067320000
1/1/1/1#1 deposit gone p@x.test 23
1/1/1/2/1#1 deposit late t@x.test 23

tp at 3
1/1#1 retry x.test t@x.test,p@x.test 2 1704067260000
1/1/1#1 retry x.test t@x.test,p@x.test 3 1704067320000
1/1/1/1/1#1 deposit late t@x.test 23
1/1/1/1/2#1 deposit gone p@x.test 23

stp at 1
1/1#1 sent x.test s@x.test 250 OK
1/1#2 retry x.test t@x.test 2 1704067260000
1/1/1#1 deposit gone p@x.test 23
1/1/2#1 retry x.test t@x.test 3 1704067320000
1/1/2/1/1#1 deposit late t@x.test 23

stp at 2
1/1#1 retry x.test s@x.test,t@x.test,p@x.test 2 1704067260000
1/1/1#1 sent x.test s@x.test 250 OK
1/1/1#2 retry x.test t@x.test 3 1704067320000
1/1/1/1#1 deposit gone p@x.test 23
1/1/1/2/1#1 deposit late t@x.test 23

stp at 3
1/1#1 retry x.test s@x.test,t@x.test,p@x.test 2 1704067260000
1/1/1#1 retry x.test s@x.test,t@x.test,p@x.test 3 1704067320000
1/1/1/1#1 sent x.test s@x.test 250 OK
1/1/1/1/1#1 deposit late t@x.test 23
1/1/1/1/2#1 deposit gone p@x.test 23";

/// The sender, what stands behind the step of remote delivery, and the rows.
const TABLES: [(&str, &str, &str); 3] = [
    ("ann@example.org", "", TOLD),
    ("", "", FROM_NULL),
    ("ann@example.org", BOUNCES, SENT_BACK),
];

/// The mail from this sender to these recipients, a letter each.
fn mail_to(alloc: Global, sender: &str, letters: &str) -> Result<String, Memory> {
    let mut mail = format!(in alloc; "MAIL FROM:<{sender}>\r\n")?;
    for letter in letters.chars() {
        mail.push_str("RCPT TO:<")?;
        mail.push(letter)?;
        mail.push_str("@x.test>\r\n")?;
    }
    mail.push_str("DATA\r\nSubject: one\r\n\r\nhello\r\n")?;
    Ok(mail)
}

/// The table of answers by which the host puts all off before this attempt.
fn answers_from(alloc: Global, attempt: &str) -> Result<String, Memory> {
    let wait = match attempt {
        "1" => WAIT[0],
        "2" => WAIT[1],
        _ => WAIT[2],
    };
    Ok(format!(in alloc; "{wait}{ANSWERS}")?)
}

/// Whether a run ends with the report of a row, whose first line names the recipients and the attempt.
fn settles(alloc: Global, sender: &str, behind: &str, row: &str) -> Result<bool, Memory> {
    let Some((head, report)) = row.split_once('\n') else {
        return Ok(false);
    };
    let Some((letters, attempt)) = head.split_once(" at ") else {
        return Ok(false);
    };
    let configuration = format!(in alloc; "{SPOOL}{FRONT}{behind}{BACK}")?;
    reports(
        alloc,
        configuration.as_str(),
        (sender, letters, attempt),
        report,
    )
}

/// Whether a run over this configuration writes this report of the mail.
fn reports(
    alloc: Global,
    configuration: &str,
    (sender, letters, attempt): (&str, &str, &str),
    report: &str,
) -> Result<bool, Memory> {
    let mail = mail_to(alloc, sender, letters)?;
    let answers = answers_from(alloc, attempt)?;
    let report = format!(in alloc; "{report}\n")?;
    let mut files = site(alloc, configuration, answers.as_str(), mail.as_str())?;
    ends(alloc, &["run"], &mut files, 0, (0, report.as_str()))
}

#[test]
fn settles_each_mix_of_replies(rt: HostRuntime) -> Result<(), Fail> {
    for (sender, behind, rows) in TABLES {
        for row in rows.split("\n\n") {
            assert_so(&rt, settles(rt.alloc(), sender, behind, row)?, row);
        }
    }
    Ok(())
}
