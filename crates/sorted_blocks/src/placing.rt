//! Where a key stands among blocks.

ghost use Rattle.std.specs.Prelude.{◌≡◌, ◌-◌, ◌≤◌, suc, map, take, drop, length};
ghost use Rattle.list_laws.specs.Lists.{Rises};
ghost use Rattle.sorted_blocks.specs.Blocks.{join, AreFilled};
ghost use Rattle.sorted_blocks.specs.Places.{begins_up_to, block_in, IsPlace};

use sorted_lists::Keyed;
use wl_octets::{Row, Shared};

/// Whether the first item's key is not above this one, or there is none.
fn begins_up_to<T: Keyed>(items: &[Shared<T>], key: &[u8]) -> bool
    ensures { result ≡ begins_up_to T.key key.now items.now }
{
    match items.first() {
        Some(item) => !item.part().key().cmp(&key).is_gt(),
        None => true,
    }
}

/// How many of the blocks begin at keys not above this one, by binary search.
fn count_up_to<T: Keyed>(blocks: &[Shared<Row<Shared<T>>>], key: &[u8]) -> usize
    requires filled { AreFilled blocks.now }
    requires rises { Rises (map T.key (join blocks.now)) }
    ensures within { result ≤ length blocks.now }
    ensures place { IsPlace T.key key.now (result - 1) blocks.now }
{
    blocks.partition_point(|block| begins_up_to(block.part().as_slice(), key))
}

/// The place of the block in which a key stands, where one has it: keys in the blocks before are below it, and in those
/// after it above it.
pub(crate) fn place_of<T: Keyed>(blocks: &[Shared<Row<Shared<T>>>], key: &[u8]) -> usize
    requires filled { AreFilled blocks.now }
    requires rises { Rises (map T.key (join blocks.now)) }
    ensures within { result ≤ length blocks.now }
    ensures place { IsPlace T.key key.now result blocks.now }
{
    count_up_to(blocks, key).saturating_sub(1)
}

/// The blocks before a place, the items of the block there, or none, and the blocks after.
#[derive(Clone, Copy)]
pub(crate) struct Parts<'a, T> {
    pub front: &'a [Shared<Row<Shared<T>>>],
    pub block: &'a [Shared<T>],
    pub back: &'a [Shared<Row<Shared<T>>>],
}

/// The parts of the blocks at this place.
pub(crate) fn parts_at<T>(blocks: &[Shared<Row<Shared<T>>>], place: usize) -> Parts<'_, T>
    requires { place ≤ length blocks.now }
    ensures prefix { result.front.now ≡ take place blocks.now }
    ensures block { result.block.now ≡ block_in place blocks.now }
    ensures back { result.back.now ≡ drop (suc place) blocks.now }
{
    let (front, rest) = blocks.split_at(place);
    match rest.split_first() {
        Some((block, back)) => Parts {
            front,
            block: block.part().as_slice(),
            back,
        },
        None => Parts {
            front,
            block: &[],
            back: &[],
        },
    }
}
