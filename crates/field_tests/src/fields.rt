use mj_fields::{
    Bytes, Memory, put_bytes, put_u8, put_u16, put_u32, put_u64, take_bytes, take_u8, take_u16,
    take_u32, take_u64,
};
use std::alloc::Global;
use std::test::Fail;

/// One field of each kind, in the order of the puts below.
const RECORD: &[u8] = b"\x07\x34\x12\x78\x56\x34\x12\xEF\xCD\xAB\x89\x67\x45\x23\x01\x03\0\0\0abc";

fn record(alloc: Global) -> Result<Bytes, Memory> {
    let mut record = Bytes::new(alloc);
    put_u8(&mut record, 7)?;
    put_u16(&mut record, 0x1234)?;
    put_u32(&mut record, 0x1234_5678)?;
    put_u64(&mut record, 0x0123_4567_89AB_CDEF)?;
    put_bytes(&mut record, b"abc")?;
    Ok(record)
}

#[test]
fn fields_stand_one_behind_the_other(rt: HostRuntime) -> Result<(), Fail> {
    assert_eq!(rt; record(rt.alloc())?.as_slice(), RECORD);
    // whether each field has its value, and the next its place
    let found = [
        take_u8(RECORD, 0) == Some((7, 1)),
        take_u16(RECORD, 1) == Some((0x1234, 3)),
        take_u32(RECORD, 3) == Some((0x1234_5678, 7)),
        take_u64(RECORD, 7) == Some((0x0123_4567_89AB_CDEF, 15)),
        take_bytes(RECORD, 15) == Some((b"abc", 22)),
    ];
    assert_eq!(rt; found, [true; 5]);
    Ok(())
}

/// A front of the record, and whether each field still stands in it.
const FRONTS: [(usize, [bool; 5]); 9] = [
    (22, [true, true, true, true, true]),
    (21, [true, true, true, true, false]),
    (18, [true, true, true, true, false]),
    (15, [true, true, true, true, false]),
    (14, [true, true, true, false, false]),
    (7, [true, true, true, false, false]),
    (6, [true, true, false, false, false]),
    (2, [true, false, false, false, false]),
    (0, [false, false, false, false, false]),
];

fn standing(front: &[u8]) -> [bool; 5] {
    [
        take_u8(front, 0).is_some(),
        take_u16(front, front.len().min(1)).is_some(),
        take_u32(front, front.len().min(3)).is_some(),
        take_u64(front, front.len().min(7)).is_some(),
        take_bytes(front, front.len().min(15)).is_some(),
    ]
}

#[test]
fn too_few_bytes_are_no_field(rt: HostRuntime) {
    for (len, want) in FRONTS {
        let front = RECORD.get(..len).unwrap_or(RECORD);
        assert_eq!(rt; standing(front), want, "of {len} bytes");
    }
}
