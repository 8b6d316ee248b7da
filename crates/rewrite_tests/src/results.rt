//! How many results there may be.
use crate::plans::{assert_resolved, assert_rewritten, plan_of, rewritten};
use mj_plan::Plan;
use std::alloc::{AllocError, Global};
use std::process::Abort;
use std::test::Fail;

/// Mappings of `fewer` to five others, of `more` to these and one address beside them, and of each of the five to a
/// hundred addresses: all the same, or no two.
fn mappings(alloc: Global, are_same: bool) -> Result<Vec<u8>, AllocError> {
    let mut text = Vec::from_slice(
        alloc,
        b"rewrite = [\n{ from = \"fewer@example.org\", to = [\"g0@example.org\", \"g1@example.org\", \"g2@example.org\", \"g3@example.org\", \"g4@example.org\"] },\n{ from = \"more@example.org\", to = [\"fewer@example.org\", \"zed@example.org\"] },\n",
    )?;
    for group in b"01234" {
        text.extend_from_slice(b"{ from = \"g")?;
        text.push(*group)?;
        text.extend_from_slice(b"@example.org\", to = [")?;
        hundred(&mut text, if are_same { b'x' } else { *group })?;
        text.extend_from_slice(b"] },\n")?;
    }
    text.extend_from_slice(b"]\n")?;
    Ok(text)
}

/// Appends a hundred addresses: no two the same where the group is a digit.
fn hundred(text: &mut Vec<u8>, group: u8) -> Result<(), AllocError> {
    for tens in b"0123456789" {
        for ones in b"0123456789" {
            text.extend_from_slice(b"\"r")?;
            text.push(group)?;
            if group != b'x' {
                text.push(*tens)?;
                text.push(*ones)?;
            }
            text.extend_from_slice(b"@example.net\", ")?;
        }
    }
    Ok(())
}

/// 500 equal results, and the 501st.
const EQUAL: [(&str, &str); 2] = [
    ("fewer@example.org", "rx@example.net"),
    ("more@example.org", "!TooMany"),
];

/// The 501st recipient.
const DIFFERENT: [(&str, &str); 1] = [("fewer@example.org zed@example.org", "!TooMany")];

/// How many addresses the text lists.
fn count(text: &[u8]) -> usize {
    text.iter().filter(|byte| **byte == b'@').count()
}

/// Fails unless 500 recipients are taken, and 501 aren't.
fn assert_counts(rt: &(impl Abort + AllocGlobal), plan: &Plan) -> Result<(), Fail> {
    let fewer = rewritten(rt.alloc(), plan, "fewer@example.org R000@example.net")?;
    assert!(rt; count(&fewer) == 500, "500 recipients");
    assert_rewritten(rt, plan, &DIFFERENT)
}

#[test]
fn equal_results(rt: HostRuntime) -> Result<(), Fail> {
    let mappings = mappings(rt.alloc(), true)?;
    let plan = plan_of(rt.alloc(), &mappings)?;
    assert_resolved(&rt, &plan, &EQUAL)
}

#[test]
fn different_results(rt: HostRuntime) -> Result<(), Fail> {
    let mappings = mappings(rt.alloc(), false)?;
    let plan = plan_of(rt.alloc(), &mappings)?;
    assert_counts(&rt, &plan)
}
