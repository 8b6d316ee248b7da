ghost use Rattle.std.specs.Prelude.{◌≡◌, [], ◌∷◌, map, IfOk, OnOk};
ghost use Rattle.std.specs.List.{zip};
ghost use Rattle.mj_groups.specs.Groups.{grouped};
ghost use Rattle.mj_groups.specs.Members.{with_item};

use indexmap::IndexSet;
use std::alloc::{AllocError, Global};
use std::hash::Hash;

/// For each different key, in the order of its first mention, its items, in order. Of equal keys the first stands in the
/// answer. Each pair costs one look-up by hash. Where memory runs out all are dropped.
pub fn grouped<K: Eq + Hash + Drop, X: Drop>(
    alloc: Global,
    pairs: Vec<(K, X)>,
) -> Result<Vec<(K, Vec<X>)>, AllocError>
    ensures { IfOk result (λ groups. map (λ group. (group.0, group.1.items)) groups.items ≡ grouped K.eq pairs.items) }
{
    let mut keys = IndexSet::new(alloc);
    let mut lists = Vec::new(alloc);
    for (key, item) in pairs {
        let (index, _) = keys.insert_full(key)?;
        put(alloc, &mut lists, index, item)?;
    }
    beside(alloc, keys, lists)
}

/// Each key beside its list.
fn beside<K: Eq + Hash + Drop, X: Drop>(
    alloc: Global,
    keys: IndexSet<K>,
    lists: Vec<Vec<X>>,
) -> Result<Vec<(K, Vec<X>)>, AllocError>
    ensures { IfOk result (λ groups. groups.items ≡ zip keys.keys lists.items) }
{
    let mut groups = Vec::with_capacity(alloc, lists.len())?;
    for (key, list) in keys.into_iter().zip(lists) {
        groups.push((key, list))?;
    }
    Ok(groups)
}

/// Puts an item at the end of the list of this number, or in a list of its own behind all where none has it.
fn put<X: Drop>(
    alloc: Global,
    lists: &mut Vec<Vec<X>>,
    index: usize,
    item: X,
) -> Result<(), AllocError>
    ensures { OnOk result (map (λ list. list.items) lists.new.items ≡ with_item index item (map (λ list. list.items) lists.old.items)) }
{
    if let Some(list) = lists.get_mut(index) {
        list.push(item)?;
        return Ok(());
    }
    lists.push(only(alloc, item)?)?;
    Ok(())
}

/// A list of this item.
fn only<X: Drop>(alloc: Global, item: X) -> Result<Vec<X>, AllocError>
    ensures { IfOk result (λ list. list.items ≡ item ∷ []) }
{
    let mut list = Vec::new(alloc);
    list.push(item)?;
    Ok(list)
}
