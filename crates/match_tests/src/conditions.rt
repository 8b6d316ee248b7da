//! Each condition, where it holds and where it doesn't.
use crate::rows::{check_rows, mail_of};
use std::test::Fail;

/// A mail of a null sender to one recipient, with no field. It has 7 bytes.
const ONE: &str = "MAIL FROM:<>\nRCPT TO:<ann@example.org>\nDATA\n\nhello";

/// What conditions say of it.
const OF_ONE: &str = r#"1 "All"
1 "RecipientIs=ann@example.org"
0 "RecipientIs=bob@example.com,dan@other.net"
1 "RecipientIsLocal"
1 "HostIs=example.com,EXAMPLE.org"
0 "HostIs=other.net"
1 "HostIsLocal"
1 "UserIs=Ann"
0 "UserIs=an"
0 "SenderIs=cara@example.net"
0 "SenderHostIs=example.net"
1 "SenderIsNull"
1 "SizeGreaterThan=6"
0 "SizeGreaterThan=7"
0 "SizeGreaterThan=1k"
0 "SubjectIs=hello"
0 "SubjectStartsWith=h"
0 "HasHeader=Subject"
0 "HasHeader=Subject="
0 "HasMailAttribute=color"
0 "HasMailAttributeWithValue=color,red"
0 "RelayLimit=1"
1 "IsSingleRecipient"
0 "TooManyRecipients=1"
0 "CompareNumericHeaderValue=X-Score < 5"
0 "CompareNumericHeaderValue=X-Score >= 0"
0 "IsRemoteDeliveryPermanentError"
0 "IsRemoteDeliveryTemporaryError"
0 "RemoteDeliveryFailedWithSMTPCode=550"
!1 "Fail"
"#;

/// Another mail to one recipient, of a sender and with fields.
const OTHER: &str =
    "MAIL FROM:<Cara@Example.net>\nRCPT TO:<dan@other.net>\nDATA\nReceived: b\nsubject: Hello\n world\nRECEIVED: a\nX-Score: 5\nX-Word: five\n\nhello";

/// What conditions say of it with the attributes of a delivery that failed for good.
const OF_OTHER: &str = r#"0 "RecipientIs=ann@example.org"
1 "RecipientIs=Dan@Other.net"
0 "RecipientIsLocal"
1 "HostIs=Other.net"
0 "HostIsLocal"
0 "UserIs=ann"
1 "SenderIs=cara@example.net"
1 "SenderHostIs=EXAMPLE.NET"
0 "SenderIsNull"
1 "SubjectIs=Hello world"
1 "SubjectStartsWith=Hello"
1 "HasHeader=x-score"
1 "HasHeader=X-Score=5"
1 "HasMailAttribute=color"
1 "HasMailAttributeWithValue=color,red"
1 "RelayLimit=2"
0 "RelayLimit=3"
1 "CompareNumericHeaderValue=X-Score >= 5"
0 "CompareNumericHeaderValue=X-Score > 5"
!1 "CompareNumericHeaderValue=X-Word = 5"
1 "IsRemoteDeliveryPermanentError"
0 "IsRemoteDeliveryTemporaryError"
1 "RemoteDeliveryFailedWithSMTPCode=550"
"#;

/// A mail to three recipients, with fields and three hops.
const THREE: &str =
    "MAIL FROM:<Cara@Example.net>\nRCPT TO:<ANN@Example.ORG>\nRCPT TO:<bob@example.com>\nRCPT TO:<dan@other.net>\nDATA\nReceived: c\nReceived: b\nsubject: Hello\n world\nRECEIVED: a\nSubject: no\nX-Empty:\n\nhello";

/// The attributes of a mail whose delivery has failed for good.
const FOR_GOOD: [(&str, &str); 3] = [
    ("color", "red"),
    ("delivery-error-code", "550"),
    ("is-delivery-permanent-error", "true"),
];

/// What conditions say of it with these attributes.
const OF_THREE: &str = r#"111 "All"
100 "RecipientIs=ann@example.org"
011 "RecipientIs=eve@a.test,Bob@EXAMPLE.com,dan@other.net"
000 "RecipientIs=ann@example.com"
001 "RecipientIs=a@a,b@a,c@a,d@a,e@a,f@a,g@a,h@a,i@a,Dan@Other.net"
001 "RecipientIs=a@a,b@a,c@a,d@a,e@a,f@a,g@a,Dan@Other.net"
001 "RecipientIs=Dan@Other.net,dan@OTHER.net,a@a,b@a,c@a,d@a,e@a,f@a,g@a"
110 "RecipientIsLocal"
100 "HostIs=example.org"
011 "HostIs=OTHER.net,example.com"
000 "HostIs=net"
001 "HostIs=a,b,c,d,e,f,g,h,i,Other.net"
001 "HostIs=a,b,c,d,Other.net,OTHER.net,e,f,g,h"
000 "HostIs=a,b,c,d,e,f,g,h,i"
110 "HostIsLocal"
100 "UserIs=ann"
011 "UserIs=BOB,dan"
001 "UserIs=a,b,c,d,e,f,g,h,i,Dan"
001 "UserIs=Dan,b,c,d,e,f,g,h"
001 "UserIs=a,b,c,d,e,f,g,h,i,Dan,DAN"
000 "UserIs=dan@other.net"
111 "SenderIs=cara@example.net"
000 "SenderIs=ann@example.org"
111 "SenderHostIs=EXAMPLE.NET"
000 "SenderHostIs=example.org"
000 "SenderIsNull"
111 "SizeGreaterThan=7"
000 "SizeGreaterThan=1k"
111 "SubjectIs=Hello world"
000 "SubjectIs=hello world"
000 "SubjectIs=Hello"
000 "SubjectIs=no"
111 "SubjectStartsWith=Hello"
111 "SubjectStartsWith=Hello world"
000 "SubjectStartsWith=Hello world."
000 "SubjectStartsWith=ello"
111 "HasHeader=SUBJECT"
111 "HasHeader=X-Empty"
111 "HasHeader=X-Empty="
000 "HasHeader=X-Emp"
111 "HasHeader=Subject=Hello world"
000 "HasHeader=Subject=no"
111 "HasMailAttribute=color"
000 "HasMailAttribute=Color"
111 "HasMailAttributeWithValue=color, red"
000 "HasMailAttributeWithValue=color,Red"
111 "RelayLimit=3"
000 "RelayLimit=4"
000 "IsSingleRecipient"
111 "TooManyRecipients=2"
000 "TooManyRecipients=3"
111 "IsRemoteDeliveryPermanentError"
000 "IsRemoteDeliveryTemporaryError"
111 "RemoteDeliveryFailedWithSMTPCode=550"
000 "RemoteDeliveryFailedWithSMTPCode=551"
!1 "Fail"
"#;

/// A mail of a null sender to three recipients, with numbers and without a subject.
const NULL: &str =
    "MAIL FROM:<>\nRCPT TO:<dan@other.net>\nRCPT TO:<eve@other.net>\nRCPT TO:<ann@other.net>\nDATA\nX-Score: 5\nX-Word: five\n\nhello";

/// What conditions say of it with the attributes of a delivery that failed for now.
const OF_NULL: &str = r#"000 "RecipientIsLocal"
000 "HostIsLocal"
000 "UserIs=bob"
000 "SenderIs=cara@example.net"
000 "SenderHostIs=example.net"
111 "SenderIsNull"
000 "SubjectIs=Hello world"
000 "SubjectStartsWith=H"
000 "HasHeader=Subject"
000 "HasMailAttribute=color"
000 "HasMailAttributeWithValue=color,red"
000 "RelayLimit=1"
111 "CompareNumericHeaderValue=X-Score >= 5"
000 "CompareNumericHeaderValue=X-Score > 5"
!1 "CompareNumericHeaderValue=X-Word = 5"
000 "IsRemoteDeliveryPermanentError"
111 "IsRemoteDeliveryTemporaryError"
000 "RemoteDeliveryFailedWithSMTPCode=550"
"#;

/// The attributes of a mail whose delivery has failed for now, and of one with an error of another text.
const FOR_NOW: [(&str, &str); 1] = [("is-delivery-permanent-error", "false")];

const FOR_NEITHER: [(&str, &str); 1] = [("is-delivery-permanent-error", "True")];

const OF_FOR_NOW: &str = r#"0 "IsRemoteDeliveryPermanentError"
1 "IsRemoteDeliveryTemporaryError"
0 "RemoteDeliveryFailedWithSMTPCode=550"
"#;

const OF_NEITHER: &str = r#"0 "IsRemoteDeliveryPermanentError"
0 "IsRemoteDeliveryTemporaryError"
"#;

#[test]
fn one_recipient(rt: HostRuntime) -> Result<(), Fail> {
    check_rows(&rt, &mail_of(rt.alloc(), ONE, &[])?, OF_ONE)?;
    check_rows(&rt, &mail_of(rt.alloc(), OTHER, &FOR_GOOD)?, OF_OTHER)
}

#[test]
fn three_recipients(rt: HostRuntime) -> Result<(), Fail> {
    check_rows(&rt, &mail_of(rt.alloc(), THREE, &FOR_GOOD)?, OF_THREE)?;
    check_rows(&rt, &mail_of(rt.alloc(), NULL, &FOR_NOW)?, OF_NULL)
}

#[test]
fn failed_deliveries(rt: HostRuntime) -> Result<(), Fail> {
    check_rows(&rt, &mail_of(rt.alloc(), ONE, &FOR_NOW)?, OF_FOR_NOW)?;
    check_rows(&rt, &mail_of(rt.alloc(), ONE, &FOR_NEITHER)?, OF_NEITHER)
}
