//! Mails that are split, and routes of failures.
use crate::runs::{ERROR, MAIL, SPOOL, assert_so, ends, folder};
use mj_fields::Memory;
use std::alloc::Global;
use std::test::Fail;

/// Five recipients at four hosts.
const FIVE: &str =
    "MAIL FROM:<cara@example.net>\r\nRCPT TO:<r1@a.test>\r\nRCPT TO:<r2@c.test>\r\nRCPT TO:<r3@b.test>\r\nRCPT TO:<r4@d.test>\r\nRCPT TO:<r5@a.test>\r\nDATA\r\nSubject: one\r\n\r\nhello\r\n";

/// Two recipients at two hosts.
const TWO: &str =
    "MAIL FROM:<cara@example.net>\r\nRCPT TO:<r1@a.test>\r\nRCPT TO:<r2@b.test>\r\nDATA\r\nSubject: one\r\n\r\nhello\r\n";

/// A score that is no number.
const HIGH: &str =
    "MAIL FROM:<cara@example.net>\r\nRCPT TO:<ann@example.org>\r\nDATA\r\nX-Score: high\r\n\r\nhello\r\n";

/// A step that deposits what it takes.
const X: &str = "class = \"ToRepository\"\nrepositoryPath = \"x\"\n";

const Y: &str = "class = \"ToRepository\"\nrepositoryPath = \"y\"\n";

/// The front of a step that takes the scores above 5, of one that takes all, and of one whose matcher has a condition that fails.
const SCORED: &str = "[[processor.step]]\nmatch = \"CompareNumericHeaderValue=X-Score > 5\"\n";

const ALL: &str = "[[processor.step]]\nmatch = \"All\"\n";

const FAILING: &str = "[[processor.step]]\nmatch = { Or = [\"HostIs=a.test\", \"Fail\"] }\n";

/// The front of the processors.
const ROOT: &str = "[[processor]]\nname = \"root\"\n";

/// What the row looks at, the parts of the configuration behind `[spool]`, the mail, and the report.
const SPLITS: [(&str, &[&str], &str, &str); 12] = [
    (
        "not one of two hosts",
        &[
            ROOT,
            "[[processor.step]]\nmatch = { Not = [ { Or = [\"HostIs=a.test\", \"HostIs=b.test\"] } ] }\n",
            X,
            ALL,
            Y,
            ERROR,
        ],
        FIVE,
        "1#1 deposit x r2@c.test,r4@d.test 23\n1#2 deposit y r1@a.test,r3@b.test,r5@a.test 23\n",
    ),
    (
        "no number, and none matches",
        &[
            ROOT,
            SCORED,
            "onMatchException = \"nomatch\"\n",
            X,
            ALL,
            Y,
            ERROR,
        ],
        HIGH,
        "1#1 deposit y ann@example.org 24\n",
    ),
    (
        "no number, and all match",
        &[
            ROOT,
            SCORED,
            "onMatchException = \"matchall\"\n",
            X,
            ALL,
            Y,
            ERROR,
        ],
        HIGH,
        "1#1 deposit x ann@example.org 24\n",
    ),
    (
        "no number, and the mail leaves",
        &[
            ROOT,
            SCORED,
            "onMatchException = \"error\"\n",
            X,
            ALL,
            Y,
            ERROR,
            ALL,
            X,
        ],
        HIGH,
        "1/1#1 deposit x ann@example.org 24\n",
    ),
    (
        "no number, and no route",
        &[ROOT, SCORED, X, ALL, Y, ERROR, ALL, Y],
        HIGH,
        "1/1#1 deposit y ann@example.org 24\n",
    ),
    (
        "a failing mailet is ignored",
        &[
            ROOT,
            ALL,
            "class = \"Fail\"\nonMailetException = \"ignore\"\n",
            ALL,
            X,
            ERROR,
        ],
        MAIL,
        "1#1 deposit x ann@example.org 23\n",
    ),
    (
        "a failing mailet lets the mail leave",
        &[ROOT, ALL, "class = \"Fail\"\n", ALL, X, ERROR, ALL, Y],
        MAIL,
        "1/1#1 deposit y ann@example.org 23\n",
    ),
    (
        "a failing mailet drops the mail",
        &[
            ROOT,
            ALL,
            "class = \"Fail\"\nonMailetException = \"ghost\"\n",
            ALL,
            X,
            ERROR,
        ],
        MAIL,
        "1#1 dropped discarded ann@example.org\n",
    ),
    (
        "a composite fails with one of its children",
        &[ROOT, FAILING, "onMatchException = \"matchall\"\n", X, ERROR],
        MAIL,
        "1#1 deposit x ann@example.org 23\n",
    ),
    (
        "one is discarded, and one falls off",
        &[
            ROOT,
            "[[processor.step]]\nmatch = \"HostIs=a.test\"\nclass = \"Null\"\n",
            ERROR,
        ],
        TWO,
        "1#1 dropped discarded r1@a.test\n1#2 felloff root r2@b.test\n",
    ),
    (
        "what is taken comes first, and each child has its number",
        &[
            ROOT,
            "[[processor.step]]\nmatch = \"HostIs=b.test\"\nclass = \"ToProcessor\"\nprocessor = \"error\"\n",
            "[[processor.step]]\nmatch = \"HostIs=a.test\"\nclass = \"ToProcessor\"\nprocessor = \"error\"\n",
            ERROR,
            ALL,
            X,
        ],
        TWO,
        "1/1#1 deposit x r2@b.test 23\n1/2#1 deposit x r1@a.test 23\n",
    ),
    (
        "the postmaster is told of a failure",
        &[
            ROOT,
            "[[processor.step]]\nmatch = \"RecipientIs=ann@example.org\"\nclass = \"Fail\"\ntext = \"boom\"\n",
            ALL,
            X,
            "[[processor]]\nname = \"error\"\n",
            ALL,
            "class = \"NotifyPostmaster\"\npassThrough = false\n",
        ],
        MAIL,
        "1/1/1#1 deposit x postmaster@example.org 299\n",
    ),
];

/// Whether a run over a configuration of these parts and this mail writes this report.
fn reports(alloc: Global, parts: &[&str], mail: &str, report: &str) -> Result<bool, Memory> {
    let mut configuration = String::from_str(alloc, SPOOL)?;
    for part in parts {
        configuration.push_str(part)?;
    }
    let mut files = folder(alloc, configuration.as_str(), ("mails/a.mail", mail), 0)?;
    ends(alloc, &["run"], &mut files, 0, (0, report))
}

#[test]
fn splits_mails(rt: HostRuntime) -> Result<(), Fail> {
    for (case, parts, mail, report) in SPLITS {
        assert_so(&rt, reports(rt.alloc(), parts, mail, report)?, case);
    }
    Ok(())
}
