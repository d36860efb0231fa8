//! When asks come due. For each block of asks there is a second before which none of them is due, so that a block is
//! passed over by one comparison until one of its asks may be due.

ghost use Rattle.std.specs.Prelude.{◌≡◌, ◌≤◌, ◌<◌, ◌++◌, ℕ, min, nat_le, take, drop, map, filter, length, IfOk, OnOk};
ghost use Rattle.std.specs.List.{AllByRecursion};
ghost use Rattle.list_laws.specs.Lists.{Rises};
ghost use Rattle.wl_entry.specs.Fitness.{is_half_over};
ghost use Rattle.wl_entry.specs.Keys.{ask_key, svid_key};
ghost use Rattle.svid_cache.specs.Caches.{is_due};
ghost use Rattle.svid_cache.specs.Queue.{half_second, due_second, first_second, NotBefore, OthersNotBefore, AllBegunBy, Filed, NoneBelow, IsLatest, last_second, clear_second};

use crate::kept::{due_at, find_kept};
use sorted_blocks::SortedBlocks;
use sorted_lists::place_by_key;
use std::alloc::Global;
use wl_entry::{Ask, Signed, Svid};
use wl_octets::{Memory, Octets, Row};

/// The first second at which half of its time has passed.
fn half_time(signed: &Signed) -> u64
    ensures second { result ≡ half_second signed.now }
    ensures exact { signed.now.not_before ≤ signed.now.not_after → (now : ℕ)
        → is_half_over now signed.now ≡ nat_le result now }
{
    let half = (signed.not_before as u128 + signed.not_after as u128 + 1) / 2;
    half.min(signed.not_after as u128) as u64
}

/// The second from which on it is to be replaced, once it has begun.
fn renewal_time(signed: &Signed, renew_before: u64) -> u64
    ensures { result ≡ due_second renew_before signed.now }
{
    if signed.not_before < renew_before {
        0
    } else {
        half_time(signed)
    }
}

/// The first second at which the ask is due, once its SVID has begun.
#[tactic(auto, unfolding(crate::specs::Queue::first_second))]
fn due_time(svids: &SortedBlocks<Svid>, ask: &Ask, renew_before: u64) -> u64
    requires { Rises (map svid_key svids.now) }
    ensures { result ≡ first_second renew_before svids.now ask.now }
{
    match find_kept(svids, ask) {
        Some(svid) => renewal_time(&svid.part().signed, renew_before),
        None => 0,
    }
}

/// The first second at which one of the asks is due, once the SVIDs have begun.
fn block_time(asks: &[Ask], svids: &SortedBlocks<Svid>, renew_before: u64) -> u64
    requires { Rises (map svid_key svids.now) }
    ensures fits { AllByRecursion (NotBefore renew_before svids.now result) asks.now }
    ensures exact { IsLatest last_second (λ s. AllByRecursion (NotBefore renew_before svids.now s) asks.now) result }
{
    let mut first = u64::MAX;
    for ask in asks {
        first = first.min(due_time(svids, ask, renew_before));
    }
    first
}

/// The first block of asks, and the others.
#[tactic(auto, using(std::proofs::lemmas::List::take_all, std::proofs::lemmas::List::drop_all))]
fn split_block(asks: &[Ask], size: usize) -> (&[Ask], &[Ask])
    ensures block { result.0.now ≡ take size asks.now }
    ensures others { result.1.now ≡ drop size asks.now }
{
    if size < asks.len() {
        asks.split_at(size)
    } else {
        (asks, &[])
    }
}

/// A second for each block of asks.
pub(crate) fn file_all(
    alloc: Global,
    size: usize,
    asks: &[Ask],
    svids: &SortedBlocks<Svid>,
    renew_before: u64,
) -> Result<Vec<u64>, Memory>
    requires size { 0 < size }
    requires rises { Rises (map svid_key svids.now) }
    ensures { IfOk result (λ v. Filed (NotBefore renew_before svids.now) size v.items asks.now) }
{
    let mut firsts = Vec::with_capacity(alloc, asks.len() / size)?;
    let mut rest = asks;
    while !rest.is_empty() {
        let (block, others) = split_block(rest, size);
        firsts.push(block_time(block, svids, renew_before))?;
        rest = others;
    }
    Ok(firsts)
}

/// The blocks' seconds, with a new one for the block in which the ask of this entry stands.
pub(crate) fn refile(
    alloc: Global,
    size: usize,
    firsts: &[u64],
    asks: &[Ask],
    svids: &SortedBlocks<Svid>,
    renew_before: u64,
    id: &Octets,
) -> Result<Vec<u64>, Memory>
    requires size { 0 < size }
    requires asks { Rises (map ask_key asks.now) }
    requires svids { Rises (map svid_key svids.now) }
    requires others { Filed (OthersNotBefore renew_before id.now svids.now) size firsts.now asks.now }
    ensures { IfOk result (λ v. Filed (NotBefore renew_before svids.now) size v.items asks.now) }
{
    let mut anew = Vec::from_slice(alloc, firsts)?;
    let Some(place) = place_by_key(asks, id.as_slice()) else {
        return Ok(anew);
    };
    let block = place / size;
    let (_, rest) = asks.split_at(block * size);
    let (block_asks, _) = split_block(rest, size);
    anew[block] = block_time(block_asks, svids, renew_before);
    Ok(anew)
}

/// The second, or 0 where it has come.
fn clear(first: u64, now: u64) -> u64
    ensures { result ≡ clear_second now first }
{
    if first <= now { 0 } else { first }
}

/// Lets each block count as due whose second has come. It takes no memory.
pub(crate) fn clear_until(firsts: &mut [u64], now: u64)
    ensures { firsts.new ≡ map (clear_second now) firsts.old }
{
    for first in firsts.iter_mut() {
        *first = clear(*first, now);
    }
}

/// The least of the seconds.
pub(crate) fn least(firsts: &[u64]) -> u64
    ensures fits { NoneBelow result firsts.now }
    ensures exact { IsLatest last_second (λ s. NoneBelow s firsts.now) result }
{
    let mut least = u64::MAX;
    for first in firsts {
        least = least.min(*first);
    }
    least
}

/// Adds those of the asks that are due.
fn push_due(
    alloc: Global,
    due: &mut Vec<Ask>,
    asks: &[Ask],
    svids: &SortedBlocks<Svid>,
    renew_before: u64,
    now: u64,
) -> Result<(), Memory>
    requires { Rises (map svid_key svids.now) }
    ensures { OnOk result (due.new.items ≡ due.old.items ++ filter (is_due renew_before now svids.now) asks.now) }
{
    for ask in asks {
        if due_at(svids, ask, renew_before, now) {
            due.push(ask.copy(alloc)?)?;
        }
    }
    Ok(())
}

/// Adds those asks of a block that are due. Nothing is looked for where its second has not come.
fn push_block(
    alloc: Global,
    due: &mut Vec<Ask>,
    first: u64,
    block: &[Ask],
    svids: &SortedBlocks<Svid>,
    renew_before: u64,
    now: u64,
) -> Result<(), Memory>
    requires rises { Rises (map svid_key svids.now) }
    requires begun { AllBegunBy now svids.now }
    requires fits { AllByRecursion (NotBefore renew_before svids.now first) block.now }
    ensures { OnOk result (due.new.items ≡ due.old.items ++ filter (is_due renew_before now svids.now) block.now) }
{
    if now < first {
        return Ok(());
    }
    push_due(alloc, due, block, svids, renew_before, now)
}

/// The asks that are due, where each of them is looked at.
pub(crate) fn due_among(
    alloc: Global,
    asks: &[Ask],
    svids: &SortedBlocks<Svid>,
    renew_before: u64,
    now: u64,
) -> Result<Row<Ask>, Memory>
    requires { Rises (map svid_key svids.now) }
    ensures { IfOk result (λ r. r ≡ filter (is_due renew_before now svids.now) asks.now) }
{
    let mut due = Vec::new(alloc);
    push_due(alloc, &mut due, asks, svids, renew_before, now)?;
    Ok(Row::from_vec(due))
}

/// The asks that are due, where all SVIDs have begun. A block whose second has not come is passed over.
pub(crate) fn due_of(
    alloc: Global,
    size: usize,
    firsts: &[u64],
    asks: &[Ask],
    svids: &SortedBlocks<Svid>,
    renew_before: u64,
    now: u64,
) -> Result<Row<Ask>, Memory>
    requires rises { Rises (map svid_key svids.now) }
    requires begun { AllBegunBy now svids.now }
    requires filed { Filed (NotBefore renew_before svids.now) size firsts.now asks.now }
    ensures { IfOk result (λ r. r ≡ filter (is_due renew_before now svids.now) asks.now) }
{
    let mut due = Vec::new(alloc);
    let mut rest = asks;
    for first in firsts {
        let (block, others) = split_block(rest, size);
        push_block(alloc, &mut due, *first, block, svids, renew_before, now)?;
        rest = others;
    }
    Ok(Row::from_vec(due))
}
