use crate::rows::assert_so;
use mj_fields::Memory;
use mj_mail::{Name, name_text};
use std::alloc::Global;
use std::test::Fail;

/// The tenth child of the second child of the mail of number 7.
pub(crate) fn grandchild(alloc: Global) -> Result<Name, Memory> {
    Name::first(alloc, 7).child(2)?.child(10)
}

#[test]
fn names_are_printed_with_their_path(rt: HostRuntime) -> Result<(), Fail> {
    let name = grandchild(rt.alloc())?;
    let copy = name.copy(rt.alloc())?;
    let text = name_text(rt.alloc(), &copy)?;
    assert_so(&rt, text.as_slice() == b"7/2/10".as_slice(), "a grandchild");
    Ok(())
}
