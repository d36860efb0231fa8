//! Lists by ascending key, in blocks.

ghost use Rattle.std.specs.Prelude.{◌≡◌, [], map, option_map, IfOk};
ghost use Rattle.list_laws.specs.Lists.{Rises};
ghost use Rattle.list_laws.specs.Keys.{item_at};
ghost use Rattle.sorted_blocks.specs.Blocks.{with_item, join};

use crate::making::{block_with, fill, push_block, push_shares};
use crate::placing::{parts_at, place_of};
use sorted_lists::{Keyed, find_by_key};
use std::alloc::Global;
use std::marker::Model;
use wl_octets::{Memory, Row, Shared, share_all};

/// A list, by ascending key where a call asks for that. A contract sees the list itself.
#[derive(Drop)]
pub struct SortedBlocks<T> {
    /// None of them is empty.
    blocks: Vec<Shared<Row<Shared<T>>>>,
}

impl<T> Model for SortedBlocks<T> {
    ghost use Rattle.std.specs.Prelude.{List};
    ghost use Rattle.std.specs.Coded.{coded_list};
    ghost use Rattle.sorted_blocks.specs.Blocks.{join, AreFilled};

    ghost Value = { List T };

    ghost coded = { coded_list T.code };

    ghost view = { λ b. join b.blocks.items };

    ghost invariant = { λ b. AreFilled b.blocks.items };
}

impl<T> SortedBlocks<T> {
    /// The empty list. It takes no memory.
    pub fn empty(alloc: Global) -> SortedBlocks<T>
        ensures { result ≡ [] }
    {
        SortedBlocks {
            blocks: Vec::new(alloc),
        }
    }

    /// The blocks, one after the other.
    pub fn blocks(&self) -> &[Shared<Row<Shared<T>>>]
        ensures { join result.now ≡ self.now }
    {
        self.blocks.as_slice()
    }
}

impl<T: Drop> SortedBlocks<T> {
    /// A list of these items, shared one by one.
    pub fn of(alloc: Global, items: &[Shared<T>]) -> Result<SortedBlocks<T>, Memory>
        ensures { IfOk result (λ b. b ≡ items.now) }
    {
        let blocks = fill(alloc, items)?;
        Ok(SortedBlocks { blocks })
    }

    /// The same list, which shares the blocks.
    pub fn share(&self, alloc: Global) -> Result<SortedBlocks<T>, Memory>
        ensures { IfOk result (λ b. b ≡ self.now) }
    {
        let blocks = share_all(alloc, self.blocks.as_slice())?.into_vec();
        Ok(SortedBlocks { blocks })
    }

    /// The items without blocks, shared one by one.
    #[tactic(auto, using(crate::proofs::BlockOfKey::join_more))]
    pub fn to_row(&self, alloc: Global) -> Result<Row<Shared<T>>, Memory>
        ensures { IfOk result (λ r. r ≡ self.now) }
    {
        let mut items = Vec::new(alloc);
        for block in self.blocks.as_slice() {
            push_shares(&mut items, block.part().as_slice())?;
        }
        Ok(Row::from_vec(items))
    }
}

impl<T: Keyed> SortedBlocks<T> {
    /// The item of this key. It takes no memory, and is found by binary search.
    pub fn find(&self, key: &[u8]) -> Option<&Shared<T>>
        requires { Rises (map T.key self.now) }
        ensures { option_map (λ x. x.now) result ≡ item_at T.key self.now key.now }
    {
        let blocks = self.blocks.as_slice();
        let parts = parts_at(blocks, place_of(blocks, key));
        find_by_key(parts.block, key)
    }
}

impl<T: Keyed + Drop> SortedBlocks<T> {
    /// The list with this item, in the place of the one of its key where there is one. All blocks but one are shared.
    pub fn with(&self, alloc: Global, item: T) -> Result<SortedBlocks<T>, Memory>
        requires { Rises (map T.key self.now) }
        ensures value { IfOk result (λ b. b ≡ with_item T.key item self.now) }
        ensures rises { IfOk result (λ b. Rises (map T.key b)) }
    {
        let blocks = self.blocks.as_slice();
        let parts = parts_at(blocks, place_of(blocks, item.key()));
        let block = block_with(alloc, parts.block, item)?;
        let mut blocks = Vec::with_capacity(alloc, blocks.len().saturating_add(2))?;
        push_shares(&mut blocks, parts.front)?;
        push_block(alloc, &mut blocks, block.as_slice())?;
        push_shares(&mut blocks, parts.back)?;
        Ok(SortedBlocks { blocks })
    }
}
