//! The texts of failures.
ghost use Rattle.std.specs.Prelude.{◌≡◌, IfOk};
ghost use Rattle.mj_container.specs.Running.{failed_at as failed_at_of};
ghost use Rattle.mj_container.specs.Verdict.{matcher_failed as matcher_failed_of};

use mj_fields::{Bytes, Memory};
use mj_mail::put_number;
use std::alloc::Global;

/// Why a mail left whose matcher failed at the condition of this number.
pub fn matcher_failed(alloc: Global, condition: u32) -> Result<Bytes, Memory>
    ensures { IfOk result (λ text. text ≡ matcher_failed_of condition) }
{
    let mut text = Bytes::from_slice(alloc, b"matcher failed at condition ")?;
    put_number(alloc, &mut text, u64::from(condition))?;
    Ok(text)
}

/// Where and why a mail left by a failure: the processor of this name, the number of the step, and the reason.
pub fn failed_at(alloc: Global, name: &[u8], number: u64, reason: &[u8]) -> Result<Bytes, Memory>
    ensures { IfOk result (λ text. text ≡ failed_at_of name.now number reason.now) }
{
    let mut text = Bytes::from_slice(alloc, b"processor ")?;
    text.extend(name)?;
    text.extend(b" step ")?;
    put_number(alloc, &mut text, number)?;
    text.extend(b": ")?;
    text.extend(reason)?;
    Ok(text)
}
