//! Fields that are numbers, and fields that are none.
use crate::rows::{check_rows, mail_of};
use std::test::Fail;

/// A mail of fields with numbers and without.
const MAIL: &str =
    "MAIL FROM:<>\nRCPT TO:<ann@example.org>\nDATA\nX-Five: 5\nX-Zeros:\t005 \nX-Folded:\n 5\nX-Most: 999999999999999999\nX-Empty:\nX-Long: 0000000000000000005\nX-Plus: +5\nX-Minus: -5\nX-Apart: 5 5\nX-Cut: 5\n 5\nX-Half: 5.0\nX-Word: five\nX-First: five\nX-First: 5\n\n";

const ROWS: &str = r#"0 "CompareNumericHeaderValue=X-Five < 5"
1 "CompareNumericHeaderValue=X-Five < 6"
0 "CompareNumericHeaderValue=X-Five <= 4"
1 "CompareNumericHeaderValue=X-Five <= 5"
1 "CompareNumericHeaderValue=X-Five = 5"
1 "CompareNumericHeaderValue=X-Five == 05"
0 "CompareNumericHeaderValue=X-Five == 6"
1 "CompareNumericHeaderValue=X-Five >= 5"
0 "CompareNumericHeaderValue=X-Five >= 6"
1 "CompareNumericHeaderValue=X-Five > 4"
0 "CompareNumericHeaderValue=X-Five > 5"
1 "CompareNumericHeaderValue=x-five = 5"
1 "CompareNumericHeaderValue=X-Zeros = 5"
1 "CompareNumericHeaderValue=X-Folded = 5"
1 "CompareNumericHeaderValue=X-Most = 999999999999999999"
1 "CompareNumericHeaderValue=X-Most > 999999999999999998"
0 "CompareNumericHeaderValue=X-None = 5"
!1 "CompareNumericHeaderValue=X-Empty = 5"
!1 "CompareNumericHeaderValue=X-Long = 5"
!1 "CompareNumericHeaderValue=X-Plus = 5"
!1 "CompareNumericHeaderValue=X-Minus < 5"
!1 "CompareNumericHeaderValue=X-Apart >= 0"
!1 "CompareNumericHeaderValue=X-Cut >= 0"
!1 "CompareNumericHeaderValue=X-Half = 5"
!1 "CompareNumericHeaderValue=X-Word = 5"
!1 "CompareNumericHeaderValue=X-First = 5"
"#;

#[test]
fn numbers_in_fields(rt: HostRuntime) -> Result<(), Fail> {
    check_rows(&rt, &mail_of(rt.alloc(), MAIL, &[])?, ROWS)
}
