//! Making blocks.

ghost use Rattle.std.specs.Prelude.{◌≡◌, ◌<◌, ◌≤◌, ◌++◌, map, filter, take, drop, length, IfOk, OnOk};
ghost use Rattle.list_laws.specs.Lists.{Rises};
ghost use Rattle.sorted_blocks.specs.Blocks.{join, AreFilled, AreHalfFull, with_item, is_below, is_above};

use sorted_lists::Keyed;
use std::alloc::Global;
use wl_octets::{Memory, Row, Shared, share_all};

/// How many items are put into a block.
const BLOCK: usize = 64;

/// How many there are at most: a block of more is cut in two.
const LARGEST_BLOCK: usize = 2 * BLOCK;

/// Puts parts at the end, shared.
pub(crate) fn push_shares<T: Drop>(
    shares: &mut Vec<Shared<T>>,
    parts: &[Shared<T>],
) -> Result<(), Memory>
    ensures { OnOk result (shares.new.items ≡ shares.old.items ++ parts.now) }
{
    for part in parts {
        shares.push(part.share()?)?;
    }
    Ok(())
}

/// Puts a block of these items at the end, shared one by one.
fn push_items<T: Drop>(
    alloc: Global,
    blocks: &mut Vec<Shared<Row<Shared<T>>>>,
    items: &[Shared<T>],
) -> Result<(), Memory>
    requires { 0 < length items.now }
    ensures items { OnOk result (join blocks.new.items ≡ join blocks.old.items ++ items.now) }
    ensures filled { AreFilled blocks.old.items → OnOk result (AreFilled blocks.new.items) }
    ensures half { AreHalfFull blocks.old.items → 64 ≤ length items.now
        → OnOk result (AreHalfFull blocks.new.items) }
{
    let block = share_all(alloc, items)?;
    Ok(blocks.push(Shared::new(alloc, block)?)?)
}

/// Puts these items at the end as a block, or as two where they are more than a block may have.
pub(crate) fn push_block<T: Drop>(
    alloc: Global,
    blocks: &mut Vec<Shared<Row<Shared<T>>>>,
    items: &[Shared<T>],
) -> Result<(), Memory>
    requires { 0 < length items.now }
    ensures items { OnOk result (join blocks.new.items ≡ join blocks.old.items ++ items.now) }
    ensures filled { AreFilled blocks.old.items → OnOk result (AreFilled blocks.new.items) }
    ensures half { AreHalfFull blocks.old.items → 64 ≤ length items.now
        → OnOk result (AreHalfFull blocks.new.items) }
{
    if items.len() <= LARGEST_BLOCK {
        return push_items(alloc, blocks, items);
    }
    let (front, back) = items.split_at(BLOCK);
    push_items(alloc, blocks, front)?;
    push_items(alloc, blocks, back)
}

/// The first block of items, and the others.
fn split_block<T>(items: &[T]) -> (&[T], &[T])
    requires { 0 < length items.now }
    ensures all { items.now ≡ result.0.now ++ result.1.now }
    ensures filled { 0 < length result.0.now }
    ensures shorter { length result.1.now < length items.now }
{
    items.split_at(BLOCK.min(items.len()))
}

/// Blocks of these items, shared one by one.
pub(crate) fn fill<T: Drop>(
    alloc: Global,
    items: &[Shared<T>],
) -> Result<Vec<Shared<Row<Shared<T>>>>, Memory>
    ensures items { IfOk result (λ v. join v.items ≡ items.now) }
    ensures filled { IfOk result (λ v. AreFilled v.items) }
{
    let mut blocks = Vec::with_capacity(alloc, items.len() / BLOCK)?;
    let mut rest = items;
    while !rest.is_empty() {
        let (block, others) = split_block(rest);
        push_items(alloc, &mut blocks, block)?;
        rest = others;
    }
    Ok(blocks)
}

/// How many of the items have keys below this one, by binary search.
fn count_below<T: Keyed>(items: &[Shared<T>], key: &[u8]) -> usize
    requires { Rises (map T.key items.now) }
    ensures bound { result ≤ length items.now }
    ensures below { take result items.now ≡ filter (is_below T.key key.now) items.now }
{
    items.partition_point(|item| item.part().key().cmp(&key).is_lt())
}

/// How many of the items have keys not above this one, by binary search.
fn count_up_to<T: Keyed>(items: &[Shared<T>], key: &[u8]) -> usize
    requires { Rises (map T.key items.now) }
    ensures bound { result ≤ length items.now }
    ensures above { drop result items.now ≡ filter (is_above T.key key.now) items.now }
{
    items.partition_point(|item| !item.part().key().cmp(&key).is_gt())
}

/// The items with this one, in the place of the one of its key where there is one.
pub(crate) fn block_with<T: Keyed + Drop>(
    alloc: Global,
    items: &[Shared<T>],
    item: T,
) -> Result<Vec<Shared<T>>, Memory>
    requires { Rises (map T.key items.now) }
    ensures { IfOk result (λ v. v.items ≡ with_item T.key item items.now) }
{
    let (front, _) = items.split_at(count_below(items, item.key()));
    let (_, back) = items.split_at(count_up_to(items, item.key()));
    let mut all = Vec::with_capacity(alloc, items.len().saturating_add(1))?;
    push_shares(&mut all, front)?;
    all.push(Shared::new(alloc, item)?)?;
    push_shares(&mut all, back)?;
    Ok(all)
}
