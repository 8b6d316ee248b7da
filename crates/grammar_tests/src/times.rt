//! Worked moments and dates, with answers from the rules, and short hostile texts.
use crate::texts::assert_so;
use mj_time::{MomentFault, date_text, read_moment};
use std::alloc::{AllocError, Global};
use std::process::Abort;

const MOMENTS: [(&str, u64); 5] = [
    ("1970-01-01T00:00:00Z", 0),
    ("1970-01-01T00:00:01Z", 1_000),
    ("2000-02-29T23:59:59Z", 951_868_799_000),
    ("2024-02-29T12:34:56Z", 1_709_210_096_000),
    ("2100-12-31T23:59:59Z", 4_133_980_799_000),
];

const OUT_OF_RANGE: [&str; 3] = [
    "2101-01-01T00:00:00Z",
    "1969-12-31T23:59:59Z",
    "0000-01-01T00:00:00Z",
];

const BAD: [&str; 12] = [
    "2024-02-30T00:00:00Z",
    "2100-02-29T00:00:00Z",
    "2101-02-29T00:00:00Z",
    "2024-00-01T00:00:00Z",
    "2024-13-01T00:00:00Z",
    "2024-01-01T24:00:00Z",
    "2024-01-01T00:00:60Z",
    "2024-01-01T00:00:00z",
    "2024-01-01t00:00:00Z",
    "2024-1-01T00:00:00Z",
    "2024-01-01T00:00:00Z ",
    "",
];

fn assert_refused(rt: &impl Abort, texts: &[&str], fault: MomentFault) {
    for text in texts {
        assert_so(rt, read_moment(text.as_bytes()) == Err(fault), text);
    }
}

#[test]
fn moments(rt: HostRuntime) {
    for (text, moment) in MOMENTS {
        assert_so(&rt, read_moment(text.as_bytes()) == Ok(moment), text);
    }
    assert_refused(&rt, &OUT_OF_RANGE, MomentFault::OutOfRange);
    assert_refused(&rt, &BAD, MomentFault::Bad);
}

fn is_date_text(alloc: Global, moment: u64, want: &[u8]) -> Result<bool, AllocError> {
    if moment >= 253_402_300_800_000 {
        return Ok(false);
    }
    let text = date_text(alloc, moment)?;
    Ok(text.as_slice() == want)
}

const DATES: [(u64, &str); 6] = [
    (0, "Thu, 01 Jan 1970 00:00:00 +0000"),
    (1_704_067_200_000, "Mon, 01 Jan 2024 00:00:00 +0000"),
    (951_782_400_000, "Tue, 29 Feb 2000 00:00:00 +0000"),
    (1_709_251_199_000, "Thu, 29 Feb 2024 23:59:59 +0000"),
    (4_107_542_399_999, "Sun, 28 Feb 2100 23:59:59 +0000"),
    (253_402_300_799_999, "Fri, 31 Dec 9999 23:59:59 +0000"),
];

#[test]
fn date_texts(rt: HostRuntime) {
    for (moment, text) in DATES {
        let is_so = is_date_text(rt.alloc(), moment, text.as_bytes()) == Ok(true);
        assert_so(&rt, is_so, text);
    }
}
