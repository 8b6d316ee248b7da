ghost use Rattle.std.specs.Prelude.{◌≡◌, ◌+◌, ◌*◌, ◌/◌, ◌%◌, ◌<◌, ◌≤◌, ◌^◌, ◌++◌, ◌∷◌, [], length, vec_len, vec_capacity, IfOk, OnOk};
ghost use Rattle.mj_log.specs.FrameLaws.{AllShort, chain, framed};
ghost use Rattle.mj_log.specs.Log.{texts};
ghost use Rattle.mj_log.specs.Places.{gates_of};
ghost use Rattle.mj_log.specs.View.{joined, spread, need_of};

use std::alloc::{AllocError, Global};

/// Puts bytes at the end of what has room for them.
fn extend_frame(frame: &mut Vec<u8>, bytes: &[u8])
    requires { vec_len frame.old + length bytes.now ≤ vec_capacity frame.old }
    ensures items { frame.new.items ≡ frame.old.items ++ bytes.now }
    ensures len { vec_len frame.new ≡ vec_len frame.old + length bytes.now }
    ensures capacity { vec_capacity frame.old ≤ vec_capacity frame.new }
{
    if frame.extend_from_slice(bytes).is_err() {
        unreachable!();
    }
}

/// Puts places at the end of a list that has room for them.
pub fn extend_places(places: &mut Vec<u64>, more: &[u64])
    requires { vec_len places.old + length more.now ≤ vec_capacity places.old }
    ensures items { places.new.items ≡ places.old.items ++ more.now }
    ensures len { vec_len places.new ≡ vec_len places.old + length more.now }
    ensures capacity { vec_capacity places.old ≤ vec_capacity places.new }
{
    if places.extend_from_slice(more).is_err() {
        unreachable!();
    }
}

/// Makes this a payload with its length before it, and a closed gate. It has room for them.
pub fn fill_frame(frame: &mut Vec<u8>, payload: &[u8])
    requires short { length payload.now ≤ 134217728 }
    requires room { length payload.now + 5 ≤ vec_capacity frame.old }
    ensures items { frame.new.items ≡ chain payload.now [] }
    ensures capacity { vec_capacity frame.old ≤ vec_capacity frame.new }
{
    let size = payload.len();
    frame.clear();
    frame.push_reserved((size % 256) as u8);
    frame.push_reserved((size / 256 % 256) as u8);
    frame.push_reserved((size / 65536 % 256) as u8);
    frame.push_reserved((size / 16_777_216 % 256) as u8);
    extend_frame(frame, payload);
    frame.push_reserved(0);
}

/// An open gate, its length and the payload for each payload, and a closed gate.
pub fn open_frames(alloc: Global, payloads: &[Vec<u8>]) -> Result<Vec<u8>, AllocError>
    requires { AllShort (texts payloads.now) }
    ensures { IfOk result (λ all. all.items ≡ joined (texts payloads.now) ++ 0 ∷ []) }
{
    let mut all = Vec::new(alloc);
    for payload in payloads {
        push_frame(&mut all, payload)?;
    }
    all.push(0)?;
    Ok(all)
}

fn push_frame(all: &mut Vec<u8>, payload: &[u8]) -> Result<(), AllocError>
    ensures { OnOk result (all.new.items ≡ all.old.items ++ 1 ∷ framed payload.now) }
{
    let size = payload.len();
    all.push(1)?;
    all.push((size % 256) as u8)?;
    all.push((size / 256 % 256) as u8)?;
    all.push((size / 65536 % 256) as u8)?;
    all.push((size / 16_777_216 % 256) as u8)?;
    all.extend_from_slice(payload)
}

/// The length of the file with these payloads behind the end, up to the last value of its type.
pub fn need_of(end: u64, payloads: &[Vec<u8>]) -> u64
    requires { end < 2 ^ 63 }
    ensures { result ≡ need_of end (texts payloads.now) }
{
    let mut need = end + 1;
    for payload in payloads {
        need = need.saturating_add(5 + payload.len() as u64);
    }
    need
}

/// The places of the gates of these payloads, of which the first stands at the end.
pub fn gates_of(alloc: Global, end: u64, payloads: &[Vec<u8>]) -> Result<Vec<u64>, AllocError>
    requires { end + spread (texts payloads.now) < 2 ^ 63 }
    ensures { IfOk result (λ gates. gates.items ≡ gates_of end (texts payloads.now)) }
{
    let mut gates = Vec::with_capacity(alloc, payloads.len())?;
    let mut at = end;
    for payload in payloads {
        gates.push(at)?;
        at += 5 + payload.len() as u64;
    }
    Ok(gates)
}
