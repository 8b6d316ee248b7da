use crate::logs::{FAR, ONE, add, add_together, has_payload};
use mj_disk::{Disk, FileDisk};
use mj_log::{Log, LogFault};
use std::test::Fail;
use std::{fs, io};

const PATH: &str = "folder/journal";

/// Makes the file anew with these bytes.
fn put_file(rt: HostRuntime, bytes: &[u8]) -> io::Result<()> {
    fs::create_dir_all(&rt, "folder")?;
    fs::write(&rt, PATH, bytes)
}

fn open(rt: HostRuntime) -> Result<Log<FileDisk<'static, HostRuntime>>, LogFault> {
    match Log::reopen(rt.alloc(), FileDisk::at(rt, PATH), FAR) {
        Ok(log) => Ok(log),
        Err(refused) => Err(refused.fault),
    }
}

/// The count of payloads in the file, if the last of them is this.
fn count_up_to(rt: HostRuntime, last: &[u8]) -> Result<Option<u64>, LogFault> {
    let mut log = open(rt)?;
    let count = log.count();
    if has_payload(&mut log, count.saturating_sub(1), last)? {
        Ok(Some(count))
    } else {
        Ok(None)
    }
}

fn add_x(rt: HostRuntime) -> Result<u64, LogFault> {
    let mut log = open(rt)?;
    add(&mut log, b"x")
}

fn add_three(rt: HostRuntime) -> Result<u64, LogFault> {
    let mut log = open(rt)?;
    add_together(rt.alloc(), &mut log, true)
}

#[test]
fn a_real_file_is_opened_again(rt: HostRuntime) -> Result<(), Fail> {
    put_file(rt, b"")?;
    assert!(rt; add_x(rt) == Ok(0));
    assert_eq!(rt; fs::read(&rt, PATH)?.as_slice(), ONE);
    assert!(rt; add_three(rt) == Ok(1) && count_up_to(rt, b"three") == Ok(Some(4)));
    Ok(())
}

#[test]
fn a_real_file_is_mended(rt: HostRuntime) -> Result<(), Fail> {
    let tails: [&[u8]; 2] = [
        b"MJSPOOL1\x01\x01\0\0\0x\0torn",
        b"MJSPOOL1\x01\x01\0\0\0x\0\x05\0\0\0a",
    ];
    for bytes in tails {
        put_file(rt, bytes)?;
        assert!(rt; count_up_to(rt, b"x") == Ok(Some(1)));
        assert_eq!(rt; fs::read(&rt, PATH)?.as_slice(), ONE);
    }
    Ok(())
}

#[test]
fn a_real_file_is_refused(rt: HostRuntime) -> Result<(), Fail> {
    let broken: &[u8] = b"MJSPOOL1\x01\x02\0\0\0x";
    put_file(rt, broken)?;
    assert!(rt; add_x(rt) == Err(LogFault::Damaged { number: 0 }));
    assert_eq!(rt; fs::read(&rt, PATH)?.as_slice(), broken);
    Ok(())
}

#[test]
fn a_folder_is_no_disk(rt: HostRuntime) -> Result<(), Fail> {
    fs::create_dir_all(&rt, "folder")?;
    let mut folder = FileDisk::at(rt, "folder");
    let failed = folder.length().is_err();
    assert!(rt; failed && folder.faults() == 1);
    Ok(())
}
