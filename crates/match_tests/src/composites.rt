//! Composites, and which of several failures counts.
use crate::rows::{check_rows, mail_of};
use std::test::Fail;

/// A mail to two local recipients and another one.
const MAIL: &str =
    "MAIL FROM:<>\nRCPT TO:<ann@example.org>\nRCPT TO:<bob@example.com>\nRCPT TO:<dan@other.net>\nDATA\nX-Word: five\nX-Five: 5\n\n";

const COMPOSITES: &str = r#"110 { And = ["HostIsLocal"] }
010 { And = ["HostIsLocal", "UserIs=bob,dan"] }
000 { And = ["All", "HostIsLocal", "IsSingleRecipient"] }
110 { Or = ["HostIsLocal"] }
101 { Or = ["UserIs=dan", "HostIs=example.org"] }
000 { Or = ["UserIs=eve", "IsSingleRecipient"] }
001 { Not = ["HostIsLocal"] }
010 { Not = ["HostIs=example.org", "UserIs=dan"] }
111 { Not = ["UserIs=eve", "IsSingleRecipient"] }
101 { Xor = ["HostIsLocal", "UserIs=bob,dan"] }
000 { Xor = ["All", "All"] }
111 { Xor = ["IsSingleRecipient", "All"] }
010 { And = [{ Not = ["UserIs=dan"] }, { Or = ["HostIs=other.net", "UserIs=bob"] }] }
001 { Not = [{ Not = [{ Not = ["HostIsLocal"] }] }] }
100 { Or = ["CompareNumericHeaderValue=X-Five > 5", "UserIs=ann"] }
"#;

#[test]
fn composites(rt: HostRuntime) -> Result<(), Fail> {
    check_rows(&rt, &mail_of(rt.alloc(), MAIL, &[])?, COMPOSITES)
}

const FAILURES: &str = r#"!1 { And = ["Fail", "CompareNumericHeaderValue=X-Word > 1"] }
!1 { And = ["CompareNumericHeaderValue=X-Word > 1", "Fail"] }
!2 { And = ["CompareNumericHeaderValue=X-Five > 1", "Fail"] }
!2 { And = ["CompareNumericHeaderValue=X-None > 1", "Fail"] }
!3 { Or = ["All", { Not = ["All", "Fail"] }, "Fail"] }
!3 { Or = ["All", { Not = [{ And = ["All"] }] }, "CompareNumericHeaderValue=X-Word = 5"] }
!1 { Not = ["Fail"] }
!3 { Xor = [{ And = ["All", "All"] }, "CompareNumericHeaderValue=X-Word < 1"] }
"#;

#[test]
fn first_failures(rt: HostRuntime) -> Result<(), Fail> {
    check_rows(&rt, &mail_of(rt.alloc(), MAIL, &[])?, FAILURES)
}
