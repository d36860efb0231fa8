//! Kept SVIDs.

ghost use Rattle.std.specs.Prelude.{◌≡◌, ◌≤◌, not, Some, map, filter, IfOk, option_map, option_copied};
ghost use Rattle.std.specs.List.{list_any};
ghost use Rattle.list_laws.specs.Lists.{Rises};
ghost use Rattle.wl_entry.specs.Keys.{ask_key, svid_key};
ghost use Rattle.wl_entry.specs.Same.{same_ask};
ghost use Rattle.sorted_blocks.specs.Blocks.{join};
ghost use Rattle.svid_cache.specs.Caches.{only, is_listed, kept_for, keeps, is_due, lasts, unless_older};
ghost use Rattle.svid_cache.specs.Queue.{NoneEndsBefore, AllBegunBy, IsLatest, IsEarliest, last_second};

use crate::asks::lists;
use crate::install::Installed;
use sorted_blocks::SortedBlocks;
use std::alloc::Global;
use wl_entry::{Ask, Signed, Svid};
use wl_octets::{Memory, Row, Shared};

/// The SVID, where it was signed for this ask.
fn signed_for<'a>(svid: &'a Shared<Svid>, ask: &Ask) -> Option<&'a Shared<Svid>>
    ensures { option_map (λ s. s.now) result ≡ only (λ s. same_ask s.ask ask.now) (Some svid.now) }
{
    if svid.part().ask == *ask {
        Some(svid)
    } else {
        None
    }
}

/// The SVID that is kept for an ask.
#[tactic(auto, using(crate::proofs::KeyTests::kept_found))]
pub(crate) fn find_kept<'a>(svids: &'a SortedBlocks<Svid>, ask: &Ask) -> Option<&'a Shared<Svid>>
    requires { Rises (map svid_key svids.now) }
    ensures { option_map (λ s. s.now) result ≡ kept_for svids.now ask.now }
{
    match svids.find(ask.entry_id.as_slice()) {
        Some(svid) => signed_for(svid, ask),
        None => None,
    }
}

/// Whether this very SVID is kept already.
#[tactic(auto, unfolding(crate::specs::Caches::keeps))]
pub(crate) fn keeps(svids: &SortedBlocks<Svid>, svid: &Svid) -> bool
    requires { Rises (map svid_key svids.now) }
    ensures { result ≡ keeps svids.now svid.now }
{
    match find_kept(svids, &svid.ask) {
        Some(kept) => kept.part().signed == svid.signed,
        None => false,
    }
}

/// Whether an ask is due.
#[tactic(auto, unfolding(crate::specs::Caches::is_due))]
pub(crate) fn due_at(svids: &SortedBlocks<Svid>, ask: &Ask, renew_before: u64, now: u64) -> bool
    requires { Rises (map svid_key svids.now) }
    ensures { result ≡ is_due renew_before now svids.now ask.now }
{
    match find_kept(svids, ask) {
        Some(svid) => {
            let signed = &svid.part().signed;
            !signed.is_wanted(renew_before, now) || signed.is_due(now)
        }
        None => true,
    }
}

/// The SVIDs whose ask is among these.
pub(crate) fn share_listed(
    alloc: Global,
    svids: &[Shared<Svid>],
    asks: &[Ask],
) -> Result<Vec<Shared<Svid>>, Memory>
    requires { Rises (map ask_key asks.now) }
    ensures { IfOk result (λ v. v.items ≡ filter (λ s. is_listed asks.now s.ask) svids.now) }
{
    let mut shared = Vec::with_capacity(alloc, svids.len())?;
    for svid in svids {
        if lists(asks, &svid.part().ask) {
            shared.push(svid.share()?)?;
        }
    }
    Ok(shared)
}

/// The SVIDs that have not expired.
pub(crate) fn share_lasting(
    alloc: Global,
    svids: &[Shared<Svid>],
    now: u64,
) -> Result<Vec<Shared<Svid>>, Memory>
    ensures { IfOk result (λ v. v.items ≡ filter (lasts now) svids.now) }
{
    let mut shared = Vec::with_capacity(alloc, svids.len())?;
    for svid in svids {
        if now < svid.part().signed.not_after {
            shared.push(svid.share()?)?;
        }
    }
    Ok(shared)
}

/// Whether one of the SVIDs has expired.
pub(crate) fn any_ended(svids: &[Shared<Svid>], now: u64) -> bool
    ensures { result ≡ list_any (λ s. not (lasts now s)) svids.now }
{
    svids.iter().any(|svid| svid.part().signed.not_after <= now)
}

/// Whether one of the SVIDs in these blocks has expired.
pub(crate) fn any_ended_in(blocks: &[Shared<Row<Shared<Svid>>>], now: u64) -> bool
    ensures { result ≡ list_any (λ block. list_any (λ s. not (lasts now s)) block) blocks.now }
{
    blocks
        .iter()
        .any(|block| any_ended(block.part().as_slice(), now))
}

/// The first second at which one of the SVIDs has expired, or this one if it is earlier.
fn first_end(svids: &[Shared<Svid>], other: u64) -> u64
    ensures ends { NoneEndsBefore result svids.now }
    ensures other { result ≤ other }
    ensures exact { IsLatest other (λ s. NoneEndsBefore s svids.now) result }
{
    let mut first = other;
    for svid in svids {
        first = first.min(svid.part().signed.not_after);
    }
    first
}

/// The first second at which one of the SVIDs in these blocks has expired.
pub(crate) fn first_end_in(blocks: &[Shared<Row<Shared<Svid>>>]) -> u64
    ensures ends { NoneEndsBefore result (join blocks.now) }
    ensures exact { IsLatest last_second (λ s. NoneEndsBefore s (join blocks.now)) result }
{
    let mut first = u64::MAX;
    for block in blocks {
        first = first_end(block.part().as_slice(), first);
    }
    first
}

/// The last second at which one of the SVIDs begins, or this one if it is later.
fn last_begin(svids: &[Shared<Svid>], other: u64) -> u64
    ensures begun { AllBegunBy result svids.now }
    ensures other { other ≤ result }
    ensures exact { IsEarliest other (λ s. AllBegunBy s svids.now) result }
{
    let mut last = other;
    for svid in svids {
        last = last.max(svid.part().signed.not_before);
    }
    last
}

/// The last second at which one of the SVIDs in these blocks begins.
pub(crate) fn last_begin_in(blocks: &[Shared<Row<Shared<Svid>>>]) -> u64
    ensures begun { AllBegunBy result (join blocks.now) }
    ensures exact { IsEarliest 0 (λ s. AllBegunBy s (join blocks.now)) result }
{
    let mut last = 0;
    for block in blocks {
        last = last_begin(block.part().as_slice(), last);
    }
    last
}

/// Whether the kept one is still wanted, and ends later or at the same second. One that was signed before the second
/// `renew_before` or begins after now gives way to any new one, also to one that ends earlier: else each new one would
/// be refused while the kept one is asked for again.
pub(crate) fn judge_end(
    kept: Option<&Shared<Svid>>,
    signed: &Signed,
    renew_before: u64,
    now: u64,
) -> Installed
    ensures { result ≡ unless_older renew_before now signed.now (option_copied kept.entry) }
{
    let Some(kept) = kept else {
        return Installed::Kept;
    };
    let kept = &kept.part().signed;
    if kept.is_wanted(renew_before, now) && signed.not_after <= kept.not_after {
        Installed::Older(kept.not_after)
    } else {
        Installed::Kept
    }
}
