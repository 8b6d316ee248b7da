//! Worked lists of delays, with answers from the rules, and short hostile texts.
use crate::texts::assert_so;
use mj_delays::{Schedule, ScheduleFault};
use std::alloc::Global;
use std::process::Abort;
use std::test::Fail;

/// Six hours.
const HOURS: u64 = 21_600_000;

/// Whether the schedule has these delays, and none behind them.
fn has(schedule: &Schedule, delays: &[u64]) -> bool {
    for attempt in 1..=101 {
        if schedule.delay_after(attempt) != delays.get(attempt as usize - 1).copied() {
            return false;
        }
    }
    schedule.len() == delays.len()
}

fn lists(alloc: Global, text: &[u8], max_retries: u32, delays: &[u64]) -> bool {
    if text.len() > 100 {
        return false;
    }
    match Schedule::read(alloc, Some(text), max_retries) {
        Ok(schedule) => has(&schedule, delays),
        Err(_) => false,
    }
}

/// A text, the greatest number of retries, and the delays.
const LISTS: [(&str, u32, &[u64]); 7] = [
    ("1 s, 2 s, 3 s", 1, &[1_000, 2_000, 3_000]),
    ("5", 1, &[5]),
    (
        "2*5 minutes, 1 hour",
        5,
        &[300_000, 300_000, 3_600_000, 3_600_000, 3_600_000],
    ),
    ("\t2 *\t1D ,0MSECS ", 0, &[86_400_000, 86_400_000, 0]),
    ("000000001*7 days", 2, &[604_800_000, 604_800_000]),
    ("1h,1Min", 3, &[3_600_000, 60_000, 60_000]),
    ("999 milliseconds", 0, &[999]),
];

#[test]
fn lists_of_delays(rt: HostRuntime) {
    for (text, max_retries, delays) in LISTS {
        assert_so(
            &rt,
            lists(rt.alloc(), text.as_bytes(), max_retries, delays),
            text,
        );
    }
}

/// Whether the schedule without a text and a copy of it have these delays.
fn lists_without_a_text(alloc: Global, max_retries: u32, delays: &[u64]) -> Result<bool, Fail> {
    let schedule = Schedule::read(alloc, None, max_retries)?;
    let copy = schedule.copy(alloc)?;
    Ok(has(&schedule, delays) && has(&copy, delays))
}

/// The greatest number of retries, and the delays without a text.
const WITHOUT_A_TEXT: [(&str, u32, &[u64]); 3] = [
    ("five retries", 5, &[HOURS; 5]),
    ("no retry", 0, &[HOURS]),
    ("100 retries", 100, &[HOURS; 100]),
];

#[test]
fn delays_without_a_text(rt: HostRuntime) -> Result<(), Fail> {
    for (case, max_retries, delays) in WITHOUT_A_TEXT {
        assert_so(
            &rt,
            lists_without_a_text(rt.alloc(), max_retries, delays)?,
            case,
        );
    }
    let fault = Schedule::read(rt.alloc(), None, 101).err();
    assert_so(&rt, fault == Some(ScheduleFault::TooMany), "101 retries");
    Ok(())
}

fn is_refused(alloc: Global, text: &[u8], fault: ScheduleFault) -> bool {
    text.len() <= 100 && Schedule::read(alloc, Some(text), 1).err() == Some(fault)
}

fn assert_refused(rt: &(impl Abort + AllocGlobal), texts: &[&str], fault: ScheduleFault) {
    for text in texts {
        assert_so(rt, is_refused(rt.alloc(), text.as_bytes(), fault), text);
    }
}

/// Texts whose first entry is bad.
const BAD_FIRST: [&str; 13] = [
    "0*5 s",
    "",
    " \t",
    ",",
    "1*",
    "*1",
    "1 1",
    "1 fortnight",
    "1234567890",
    "1234567890*1",
    "1*2*3",
    "-1",
    "1 s\n",
];

/// Texts whose second entry is.
const BAD_SECOND: [&str; 2] = ["1,", "1,,2"];

#[test]
fn faults_of_delay_texts(rt: HostRuntime) {
    assert_refused(&rt, &BAD_FIRST, ScheduleFault::BadDelay { place: 1 });
    assert_refused(&rt, &BAD_SECOND, ScheduleFault::BadDelay { place: 2 });
    assert_refused(&rt, &["604800001"], ScheduleFault::TooLong { place: 1 });
    assert_refused(
        &rt,
        &["1 s, 8 days", "999999999*1, 8 d, x"],
        ScheduleFault::TooLong { place: 2 },
    );
    assert_refused(
        &rt,
        &["101*1 s", "999999999*1, 999999999*1"],
        ScheduleFault::TooMany,
    );
}
