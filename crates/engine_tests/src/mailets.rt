//! What each mailet makes of a mail.
use crate::runs::{MAIL, assert_so, ends, folder};
use mj_fields::Memory;
use std::alloc::Global;
use std::process::Abort;
use std::test::Fail;

/// What stands in front of the steps of `root`: two local hosts, and mappings.
const FRONT: &str = r#"[spool]
host_name = "mx.example.org"
postmaster = "postmaster@example.org"
local_hosts = ["example.org", "example.com"]
local_users = ["ann", "bob", "postmaster"]
start = "2024-01-01T00:00:00Z"

[[rewrite]]
from = "staff@example.org"
to = ["bob@example.org", "ann@example.org"]
[[rewrite]]
domain = "old.test"
to_domain = "new.test"
[[rewrite]]
from = "gone@example.org"
error = "5.1.6 moved away"
[[rewrite]]
from = "ping@example.org"
to = ["pong@example.org"]
[[rewrite]]
from = "pong@example.org"
to = ["ping@example.org"]

[[processor]]
name = "root"
step = [
"#;

/// What stands behind them: a last step that deposits what comes to it, and the processor `error`, which does so too.
const BACK: &str = r#"
{ match = "All", class = "ToRepository", repositoryPath = "rest" }
]
[[processor]]
name = "error"
step = [{ match = "All", class = "ToRepository", repositoryPath = "error" }]
"#;

/// What becomes of a mail: steps of `root`, a line with `=`, and what is written. An empty line ends a row.
const OF_MAIL: &str = r#"{ match = "All", class = "SetMimeHeader", name = "X-A", value = "1" },
{ match = "All", class = "AddSubjectPrefix", subjectPrefix = "[x]" },
=
1#1 deposit rest ann@example.org 35

{ match = "RecipientIs=ann@example.org", class = "Forward", forwardTo = "bob@example.org", passThrough = true },
=
1#1 deposit rest ann@example.org 23
1/1#1 deposit rest bob@example.org 23

{ match = "RecipientIs=ann@example.org", class = "Forward", forwardTo = "bob@example.org", passThrough = false },
=
1/1#1 deposit rest bob@example.org 23

{ match = "RecipientIs=ann@example.org", class = "Forward", forwardTo = "Bob@example.org, eve@example.net, bob@EXAMPLE.org" },
=
1/1#1 deposit rest Bob@example.org,eve@example.net 23

{ match = "RecipientIs=ann@example.org", class = "SetMimeHeader", name = "X-A", value = "1" },
{ match = "RecipientIs=ann@example.org", class = "SetMailAttribute", attributes = { seen = "yes" } },
{ match = "RecipientIs=ann@example.org", class = "Forward", forwardTo = "bob@example.org" },
{ match = "HasMailAttribute=seen", class = "ToRepository", repositoryPath = "a" },
=
1/1#1 deposit a bob@example.org 31

{ match = "All", class = "SetMailAttribute", attributes = { seen = "yes" } },
{ match = "HasMailAttributeWithValue=seen,yes", class = "ToRepository", repositoryPath = "a" },
=
1#1 deposit a ann@example.org 23

{ match = "All", class = "SetMailAttribute", attributes = { seen = "yes" } },
{ match = "All", class = "SetMailAttribute", attributes = { other = "yes", seen = "no" } },
{ match = "HasMailAttributeWithValue=seen,yes", class = "ToRepository", repositoryPath = "a" },
{ match = "HasMailAttributeWithValue=seen,no", class = "ToRepository", repositoryPath = "b" },
=
1#1 deposit b ann@example.org 23

{ match = "All", class = "SetMailAttribute", attributes = { other = "yes", seen = "yes" } },
{ match = "All", class = "RemoveMailAttribute", name = "none, seen" },
{ match = "HasMailAttributeWithValue=seen,yes", class = "ToRepository", repositoryPath = "a" },
{ match = "HasMailAttributeWithValue=other,yes", class = "ToRepository", repositoryPath = "b" },
=
1#1 deposit b ann@example.org 23

{ match = "All", class = "SetMailAttribute", attributes = { seen = "yes" } },
{ match = "All", class = "RemoveMailAttribute", name = "Seen" },
{ match = "HasMailAttributeWithValue=seen,yes", class = "ToRepository", repositoryPath = "a" },
=
1#1 deposit a ann@example.org 23

{ match = "All", class = "SetMailAttribute", attributes = { other = "yes", seen = "yes" } },
{ match = "All", class = "RemoveAllMailAttributes" },
{ match = "HasMailAttribute=seen", class = "ToRepository", repositoryPath = "a" },
{ match = "HasMailAttribute=other", class = "ToRepository", repositoryPath = "b" },
=
1#1 deposit rest ann@example.org 23

{ match = "All", class = "SetMailAttribute", attributes = {
    a00 = "", a01 = "", a02 = "", a03 = "", a04 = "", a05 = "", a06 = "", a07 = "", a08 = "", a09 = "", a10 = "", a11 = "", a12 = "", a13 = "", a14 = "",
    a15 = "", a16 = "", a17 = "", a18 = "", a19 = "", a20 = "", a21 = "", a22 = "", a23 = "", a24 = "", a25 = "", a26 = "", a27 = "", a28 = "", a29 = "",
    a30 = "", a31 = "", a32 = "", a33 = "", a34 = "", a35 = "", a36 = "", a37 = "", a38 = "", a39 = "", a40 = "", a41 = "", a42 = "", a43 = "", a44 = "",
    a45 = "", a46 = "", a47 = "", a48 = "", a49 = "", a50 = "", a51 = "", a52 = "", a53 = "", a54 = "", a55 = "", a56 = "", a57 = "", a58 = "", a59 = "",
} },
{ match = "All", class = "SetMailAttribute", attributes = {
    b00 = "", b01 = "", b02 = "", b03 = "", b04 = "", b05 = "", b06 = "", b07 = "", b08 = "", b09 = "", b10 = "", b11 = "", b12 = "", b13 = "", b14 = "",
    b15 = "", b16 = "", b17 = "", b18 = "", b19 = "", b20 = "", b21 = "", b22 = "", b23 = "", b24 = "", b25 = "", b26 = "", b27 = "", b28 = "", b29 = "",
    b30 = "", b31 = "", b32 = "", b33 = "", b34 = "", b35 = "", b36 = "", b37 = "", b38 = "", b39 = "", b40 = "", b41 = "", b42 = "", b43 = "", b44 = "",
    b45 = "", b46 = "", b47 = "", b48 = "", b49 = "", b50 = "", b51 = "", b52 = "", b53 = "", b54 = "", b55 = "", b56 = "", b57 = "", b58 = "", b59 = "",
} },
=
1/1#1 deposit error ann@example.org 23

{ match = "All", class = "SetMailAttribute", attributes = {
    a00 = "", a01 = "", a02 = "", a03 = "", a04 = "", a05 = "", a06 = "", a07 = "", a08 = "", a09 = "", a10 = "", a11 = "", a12 = "", a13 = "", a14 = "",
    a15 = "", a16 = "", a17 = "", a18 = "", a19 = "", a20 = "", a21 = "", a22 = "", a23 = "", a24 = "", a25 = "", a26 = "", a27 = "", a28 = "", a29 = "",
    a30 = "", a31 = "", a32 = "", a33 = "", a34 = "", a35 = "", a36 = "", a37 = "", a38 = "", a39 = "", a40 = "", a41 = "", a42 = "", a43 = "", a44 = "",
    a45 = "", a46 = "", a47 = "", a48 = "", a49 = "", a50 = "", a51 = "", a52 = "", a53 = "", a54 = "", a55 = "", a56 = "", a57 = "", a58 = "", a59 = "",
} },
{ match = "All", onMailetException = "ignore", class = "SetMailAttribute", attributes = {
    b00 = "", b01 = "", b02 = "", b03 = "", b04 = "", b05 = "", b06 = "", b07 = "", b08 = "", b09 = "", b10 = "", b11 = "", b12 = "", b13 = "", b14 = "",
    b15 = "", b16 = "", b17 = "", b18 = "", b19 = "", b20 = "", b21 = "", b22 = "", b23 = "", b24 = "", b25 = "", b26 = "", b27 = "", b28 = "", b29 = "",
    b30 = "", b31 = "", b32 = "", b33 = "", b34 = "", b35 = "", b36 = "", b37 = "", b38 = "", b39 = "", b40 = "", b41 = "", b42 = "", b43 = "", b44 = "",
    b45 = "", b46 = "", b47 = "", b48 = "", b49 = "", b50 = "", b51 = "", b52 = "", b53 = "", b54 = "", b55 = "", b56 = "", b57 = "", b58 = "", b59 = "",
} },
{ match = "HasMailAttribute=b00", class = "ToRepository", repositoryPath = "b" },
{ match = "HasMailAttribute=a59", class = "ToRepository", repositoryPath = "a" },
=
1#1 deposit a ann@example.org 23

{ match = "All", class = "SetMailAttribute", attributes = { color = "red" } },
{ match = "All", class = "MailAttributesToMimeHeaders", simplemapping = ["taste;X-Taste", "color;X-Color"] },
{ match = "HasHeader=X-Color=red", class = "ToRepository", repositoryPath = "a" },
=
1#1 deposit a ann@example.org 37

{ match = "All", class = "RemoveMimeHeader", name = "X-A, subject" },
=
1#1 deposit rest ann@example.org 9

{ match = "All", class = "ToRepository", repositoryPath = "a", passThrough = true },
{ match = "All", class = "ToRepository", repositoryPath = "b", passThrough = false },
=
1#1 deposit a ann@example.org 23
1#2 deposit b ann@example.org 23

{ match = "RecipientIs=ann@example.org", class = "Bounce" },
=
1#1 bounce ann@example.org
1#2 deposit rest ann@example.org 23
1/1#1 deposit rest cara@example.net 339

{ match = "RecipientIs=ann@example.org", class = "Bounce", message = "550 no such user", passThrough = false },
=
1#1 bounce ann@example.org
1/1#1 deposit rest cara@example.net 348

{ match = "RecipientIs=ann@example.org", class = "NotifyPostmaster" },
=
1#1 deposit rest ann@example.org 23
1/1#1 deposit rest postmaster@example.org 272

{ match = "RecipientIs=ann@example.org", class = "NotifyPostmaster", passThrough = false },
=
1/1#1 deposit rest postmaster@example.org 272

{ match = "All", class = "RemoteDelivery" },
=
1/1#1 sent example.org ann@example.org 250 OK"#;

/// A mail to two at one host, and what becomes of it.
const TWO: &str =
    "MAIL FROM:<cara@example.net>\r\nRCPT TO:<Ann@Example.org>\r\nRCPT TO:<bob@example.org>\r\nDATA\r\nSubject: one\r\n\r\nhello\r\n";

const OF_TWO: &str = r#"{ match = "All", class = "RecipientToLowerCase" },
=
1#1 deposit rest ann@Example.org,bob@example.org 23

{ match = "All", class = "LocalDelivery" },
=
1#1 deposit mailbox/ann@example.org Ann@Example.org 23
1#2 deposit mailbox/bob@example.org bob@example.org 23

{ match = "RecipientIs=bob@example.org", class = "Forward", forwardTo = "ann@example.net", passThrough = true },
=
1#1 deposit rest bob@example.org 23
1#2 deposit rest Ann@Example.org 23
1/1#1 deposit rest ann@example.net 23"#;

/// A mail from the null sender.
const FROM_NULL: &str =
    "MAIL FROM:<>\r\nRCPT TO:<ann@example.org>\r\nDATA\r\nSubject: one\r\n\r\nhello\r\n";

const OF_NULL: &str = r#"{ match = "RecipientIs=ann@example.org", class = "Bounce" },
=
1#1 dropped noreturnpath ann@example.org
1#2 deposit rest ann@example.org 23

{ match = "RecipientIs=ann@example.org", class = "Bounce", passThrough = false },
=
1#1 dropped noreturnpath ann@example.org"#;

/// A mail to the postmasters of three hosts, of which two are local.
const POSTMASTERS: &str =
    "MAIL FROM:<cara@example.net>\r\nRCPT TO:<PostMaster@example.org>\r\nRCPT TO:<postmaster@elsewhere.test>\r\nRCPT TO:<POSTMASTER@Example.com>\r\nDATA\r\nSubject: one\r\n\r\nhello\r\n";

const OF_POSTMASTERS: &str = r#"{ match = "All", class = "PostmasterAlias" },
=
1#1 deposit rest postmaster@example.org,postmaster@elsewhere.test 23"#;

/// Mails to recipients with mappings: to addresses and to a domain, to an error, and to each other.
const MAPPED: &str =
    "MAIL FROM:<cara@example.net>\r\nRCPT TO:<Bob@example.org>\r\nRCPT TO:<staff@example.org>\r\nRCPT TO:<Zed@old.test>\r\nDATA\r\nSubject: one\r\n\r\nhello\r\n";

const OF_MAPPED: &str = r#"{ match = "All", class = "RecipientRewriteTable" },
=
1#1 deposit rest Bob@example.org,ann@example.org,Zed@new.test 23

{ match = "RecipientIs=staff@example.org", class = "RecipientRewriteTable" },
=
1#1 deposit rest bob@example.org,ann@example.org 23
1#2 deposit rest Bob@example.org,Zed@old.test 23"#;

const GONE: &str =
    "MAIL FROM:<cara@example.net>\r\nRCPT TO:<zed@old.test>\r\nRCPT TO:<gone@example.org>\r\nDATA\r\nSubject: one\r\n\r\nhello\r\n";

const OF_GONE: &str = r#"{ match = "All", class = "RecipientRewriteTable" },
=
1/1#1 deposit error zed@old.test,gone@example.org 23

{ match = "All", class = "RecipientRewriteTable", onMailetException = "ignore" },
=
1#1 deposit rest zed@old.test,gone@example.org 23"#;

const ROUND: &str =
    "MAIL FROM:<cara@example.net>\r\nRCPT TO:<zed@old.test>\r\nRCPT TO:<ping@example.org>\r\nDATA\r\nSubject: one\r\n\r\nhello\r\n";

const OF_ROUND: &str = r#"{ match = "All", class = "RecipientRewriteTable" },
=
1/1#1 deposit error zed@old.test,ping@example.org 23"#;

/// A mail with two fields of each name.
const TWICE: &str =
    "MAIL FROM:<cara@example.net>\r\nRCPT TO:<ann@example.org>\r\nDATA\r\nsubject: one two\r\nReceived: a\r\nSubject: one\r\nRECEIVED: b\r\n\r\nhello\r\n";

const OF_TWICE: &str = r#"{ match = "All", class = "RemoveMimeHeader", name = "received" },
=
1#1 deposit rest ann@example.org 41

{ match = "All", class = "AddSubjectPrefix", subjectPrefix = "[x]" },
{ match = "SubjectIs=[x] one two", class = "ToRepository", repositoryPath = "a" },
=
1#1 deposit a ann@example.org 71"#;

/// Mails without a Subject, with one of nothing, with one of blanks, with one on two lines, and with one that has a CR.
const NO_SUBJECT: &str =
    "MAIL FROM:<cara@example.net>\r\nRCPT TO:<ann@example.org>\r\nDATA\r\nX-A: 1\r\n\r\nhello\r\n";

const EMPTY: &str =
    "MAIL FROM:<cara@example.net>\r\nRCPT TO:<ann@example.org>\r\nDATA\r\nSubject:\r\n\r\nhello\r\n";

const BLANK: &str =
    "MAIL FROM:<cara@example.net>\r\nRCPT TO:<ann@example.org>\r\nDATA\r\nSubject: \t\r\n \r\n\r\nhello\r\n";

const FOLDED: &str =
    "MAIL FROM:<cara@example.net>\r\nRCPT TO:<ann@example.org>\r\nDATA\r\nSubject: one\r\n two\r\n\r\nhello\r\n";

const WITH_CR: &str =
    "MAIL FROM:<cara@example.net>\r\nRCPT TO:<ann@example.org>\r\nDATA\r\nSubject: one\rtwo\r\n\r\nhello\r\n";

/// A Subject that is added, one that is the prefix alone, and one that has a text behind it.
const ADDED: &str = r#"{ match = "All", class = "AddSubjectPrefix", subjectPrefix = "[x]" },
{ match = "SubjectIs=[x]", class = "ToRepository", repositoryPath = "a" },
=
1#1 deposit a ann@example.org 31"#;

const ALONE: &str = r#"{ match = "All", class = "AddSubjectPrefix", subjectPrefix = "[x]" },
{ match = "SubjectIs=[x]", class = "ToRepository", repositoryPath = "a" },
=
1#1 deposit a ann@example.org 23"#;

const IN_FRONT: &str = r#"{ match = "All", class = "AddSubjectPrefix", subjectPrefix = "[x]" },
{ match = "SubjectIs=[x] one two", class = "ToRepository", repositoryPath = "a" },
=
1#1 deposit a ann@example.org 31"#;

/// A mail, and what becomes of it.
const MAILS: [(&str, &str); 13] = [
    (MAIL, OF_MAIL),
    (FROM_NULL, OF_NULL),
    (TWO, OF_TWO),
    (POSTMASTERS, OF_POSTMASTERS),
    (MAPPED, OF_MAPPED),
    (GONE, OF_GONE),
    (ROUND, OF_ROUND),
    (TWICE, OF_TWICE),
    (NO_SUBJECT, ADDED),
    (EMPTY, ALONE),
    (BLANK, ALONE),
    (FOLDED, IN_FRONT),
    (WITH_CR, IN_FRONT),
];

/// Whether a run over the mail and a configuration with these steps writes this.
fn reports(alloc: Global, mail: &str, steps: &str, report: &str) -> Result<bool, Memory> {
    let configuration = format!(in alloc; "{FRONT}{steps}{BACK}")?;
    let report = format!(in alloc; "{report}\n")?;
    let mut files = folder(alloc, configuration.as_str(), ("mails/a.mail", mail), 0)?;
    ends(alloc, &["run"], &mut files, 0, (0, report.as_str()))
}

/// Fails at a row that the mail doesn't keep to.
fn check_rows(rt: &(impl Abort + AllocGlobal), mail: &str, rows: &str) -> Result<(), Fail> {
    for row in rows.split("\n\n") {
        let (steps, report) = match row.split_once("\n=\n") {
            Some(parts) => parts,
            None => (row, ""),
        };
        assert_so(rt, reports(rt.alloc(), mail, steps, report)?, row);
    }
    Ok(())
}

#[test]
fn serves_mails(rt: HostRuntime) -> Result<(), Fail> {
    for (mail, rows) in MAILS {
        check_rows(&rt, mail, rows)?;
    }
    Ok(())
}

/// A mail whose head is one field: this text, and so many bytes behind it.
fn long_mail(alloc: Global, front: &str, bytes: usize) -> Result<String, Memory> {
    let text = "a".repeat(alloc, bytes)?;
    Ok(format!(in alloc;
        "MAIL FROM:<cara@example.net>\r\nRCPT TO:<ann@example.org>\r\nDATA\r\n{front}{text}\r\n\r\nhello\r\n"
    )?)
}

/// What becomes of one whose head has room for eight bytes more.
const OF_LONG: &str = r#"{ match = "All", class = "SetMimeHeader", name = "X-A", value = "1" },
=
1#1 deposit rest ann@example.org 65545

{ match = "All", class = "SetMimeHeader", name = "X-A", value = "12" },
=
1/1#1 deposit error ann@example.org 65537

{ match = "All", class = "AddSubjectPrefix", subjectPrefix = "[x]" },
=
1/1#1 deposit error ann@example.org 65537

{ match = "All", class = "SetMailAttribute", attributes = { color = "red" } },
{ match = "All", class = "MailAttributesToMimeHeaders", simplemapping = ["color;X-Color"] },
=
1/1#1 deposit error ann@example.org 65537

{ match = "All", class = "SetMimeHeader", name = "X-A", value = "12", onMailetException = "ignore" },
{ match = "All", class = "AddSubjectPrefix", subjectPrefix = "[x]", onMailetException = "ignore" },
=
1#1 deposit rest ann@example.org 65537"#;

/// What becomes of one with a long Subject, which is folded and has a bare CR.
const OF_LONG_SUBJECT: &str =
    r#"{ match = "All", class = "AddSubjectPrefix", subjectPrefix = "[x]" },
{ match = "SubjectStartsWith=[x] one two a", class = "ToRepository", repositoryPath = "a" },
=
1#1 deposit a ann@example.org 60032"#;

#[test]
fn changes_long_heads(rt: HostRuntime) -> Result<(), Fail> {
    let alloc = rt.alloc();
    let mail = long_mail(alloc, "X-Long: ", 65_518)?;
    check_rows(&rt, mail.as_str(), OF_LONG)?;
    let mail = long_mail(alloc, "Subject: one\rtwo\r\n ", 60_000)?;
    check_rows(&rt, mail.as_str(), OF_LONG_SUBJECT)
}
