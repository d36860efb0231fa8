ghost use Rattle.std.specs.Prelude.{ℕ, List, map, IfOk};
ghost use Rattle.list_laws.specs.Lists.{Rises};

use sorted_blocks::SortedBlocks;
use sorted_lists::Keyed;
use std::alloc::Global;
use std::test::Fail;
use wl_octets::{Memory, Octets};

/// How many words are put: more than fit into four blocks.
const MANY: u32 = 600;

/// A word, which is its own key, with a number.
#[derive(Drop)]
struct Word {
    text: Octets,
    number: u32,
}

impl Keyed for Word {
    ghost key = { λ w. w.text };

    fn key(&self) -> &[u8] {
        self.text.as_slice()
    }
}

/// The word of a number: its bytes, the highest first.
fn make_word(alloc: Global, number: u32) -> Result<Word, Memory> {
    let text = Octets::from_slice(alloc, &number.to_be_bytes())?;
    Ok(Word { text, number })
}

/// The words of the numbers below 600, put in steps of this size round a circle.
fn many(alloc: Global, step: u32) -> Result<SortedBlocks<Word>, Memory>
    ensures { IfOk result (λ l. Rises (map (λ w. w.text) l)) }
{
    let mut list = SortedBlocks::empty(alloc);
    let mut number: u32 = 0;
    for _ in 0..MANY {
        list = list.with(alloc, make_word(alloc, number)?)?;
        number = (number.wrapping_add(step)) % MANY;
    }
    Ok(list)
}

/// Whether the word of a number is there, and has this number.
fn has(list: &SortedBlocks<Word>, key: u32, number: u32) -> bool
    requires { Rises (map (λ w. w.text) list.now) }
{
    match list.find(&key.to_be_bytes()) {
        Some(word) => word.part().number == number,
        None => false,
    }
}

/// How many of the numbers below 600 are found.
fn count_found(list: &SortedBlocks<Word>) -> u32
    requires { Rises (map (λ w. w.text) list.now) }
{
    let mut count: u32 = 0;
    for number in 0..MANY {
        if has(list, number, number) {
            count = count.saturating_add(1);
        }
    }
    count
}

#[test]
fn all_are_found_however_they_come(rt: HostRuntime) -> Result<(), Fail> {
    for (step, blocks) in [(1, 9), (599, 9), (7, 6)] {
        let list = many(rt.alloc(), step)?;
        assert_eq!(rt;
            (count_found(&list), list.to_row(rt.alloc())?.len()),
            (600, 600)
        );
        assert!(rt; !has(&list, 600, 600));
        // A block of more than 128 is cut into one of 64 and the others.
        assert_eq!(rt; list.blocks().len(), blocks);
    }
    Ok(())
}

#[test]
fn a_changed_copy_leaves_the_list(rt: HostRuntime) -> Result<(), Fail> {
    let list = many(rt.alloc(), 1)?;
    let mut other = make_word(rt.alloc(), 300)?;
    other.number = 7;
    let changed = list.with(rt.alloc(), other)?;
    assert!(rt; has(&changed, 300, 7) && has(&list, 300, 300) && has(&changed, 301, 301));
    assert_eq!(rt; changed.to_row(rt.alloc())?.len(), 600);
    Ok(())
}

#[test]
fn the_same_items_in_blocks(rt: HostRuntime) -> Result<(), Fail> {
    let list = many(rt.alloc(), 7)?;
    let items = list.to_row(rt.alloc())?;
    let again = SortedBlocks::of(rt.alloc(), items.as_slice())?;
    let shared = list.share(rt.alloc())?;
    assert_eq!(rt;
        (again.blocks().len(), shared.blocks().len()),
        (10, list.blocks().len())
    );
    assert_eq!(rt; again.to_row(rt.alloc())?.len(), 600);
    Ok(())
}
