ghost use Rattle.std.specs.Prelude.{◌≡◌, IfOk};
ghost use Rattle.std.specs.List.{flat_map};

use mj_fields::{Bytes, Items, Memory};
use std::alloc::Global;
use std::process::Abort;
use std::test::Fail;

/// A type that reaches itself through a list.
#[derive(Drop)]
struct Folder {
    name: Bytes,
    inside: Items<Folder>,
}

/// A struct of lists inside a list.
#[derive(Drop)]
struct Labels {
    all: Items<Bytes>,
}

fn put_names(folder: &Folder, out: &mut Bytes) -> Result<(), Memory> {
    out.extend(folder.name.as_slice())?;
    for inner in folder.inside.as_slice() {
        put_names(inner, out)?;
    }
    Ok(())
}

fn joined(alloc: Global, labels: &Labels) -> Result<Bytes, Memory>
    ensures { IfOk result (λ text. text ≡ flat_map (λ label. label) labels.now.all) }
{
    let mut text = Bytes::new(alloc);
    for label in labels.all.as_slice() {
        text.extend(label.as_slice())?;
    }
    Ok(text)
}

fn copied(alloc: Global, list: &Items<Bytes>) -> Result<Items<Bytes>, Memory>
    ensures { IfOk result (λ copies. copies ≡ list.now) }
{
    let mut copies = Items::new(alloc);
    for item in list.as_slice() {
        copies.push(item.copy(alloc)?)?;
    }
    Ok(copies)
}

fn named(alloc: Global, name: &[u8], inside: Items<Folder>) -> Result<Folder, Memory> {
    Ok(Folder {
        name: Bytes::from_slice(alloc, name)?,
        inside,
    })
}

fn folder_of_one(alloc: Global) -> Result<Folder, Memory> {
    let mut inside = Items::new(alloc);
    inside.push(named(alloc, b"new", Items::new(alloc))?)?;
    named(alloc, b"mail/", inside)
}

fn names(alloc: Global, folder: &Folder) -> Result<Bytes, Memory> {
    let mut names = Bytes::new(alloc);
    put_names(folder, &mut names)?;
    Ok(names)
}

fn two_labels(alloc: Global) -> Result<Items<Bytes>, Memory> {
    let mut all = Items::new(alloc);
    all.push(Bytes::from_slice(alloc, b"a")?)?;
    all.push(Bytes::from_slice(alloc, b"bc")?)?;
    Ok(all)
}

fn copied_labels(alloc: Global) -> Result<Labels, Memory> {
    Ok(Labels {
        all: copied(alloc, &two_labels(alloc)?)?,
    })
}

fn assert_text(rt: &impl Abort, text: Bytes, want: &[u8]) {
    assert_eq!(rt; text.as_slice(), want);
}

#[test]
fn lists_inside_structs_and_inside_themselves(rt: HostRuntime) -> Result<(), Fail> {
    let alloc = rt.alloc();
    assert_text(&rt, names(alloc, &folder_of_one(alloc)?)?, b"mail/new");
    assert_text(&rt, joined(alloc, &copied_labels(alloc)?)?, b"abc");
    Ok(())
}

fn three_bytes(alloc: Global) -> Result<Bytes, Memory> {
    let mut bytes = Bytes::from_vec(Vec::new(alloc));
    bytes.push(b'x')?;
    bytes.extend(b"yz")?;
    Ok(bytes)
}

fn copied_vec(alloc: Global, bytes: &Bytes) -> Result<Vec<u8>, Memory> {
    Ok(bytes.copy(alloc)?.into_vec())
}

fn two_items(alloc: Global) -> Result<Items<u32>, Memory> {
    let mut items = Items::from_vec(Vec::new(alloc));
    items.push(7)?;
    items.push(8)?;
    Ok(items)
}

fn check_items(rt: &impl Abort, mut items: Items<u32>) {
    let found = [items.get(1).copied(), items.get(2).copied(), items.pop()];
    assert_eq!(rt; found, [Some(8), None, Some(8)]);
    assert_eq!(rt; items.len(), 1);
    assert_eq!(rt; items.into_vec().as_slice(), [7].as_slice());
}

#[test]
fn small_calls(rt: HostRuntime) -> Result<(), Fail> {
    let alloc = rt.alloc();
    assert!(rt; Bytes::from_vec(Vec::new(alloc)).is_empty());
    assert!(rt; Items::<u32>::from_vec(Vec::new(alloc)).is_empty());
    check_items(&rt, two_items(alloc)?);
    let bytes = three_bytes(alloc)?;
    assert_eq!(rt; bytes.len(), 3);
    assert_eq!(rt; copied_vec(alloc, &bytes)?.as_slice(), b"xyz".as_slice());
    Ok(())
}
