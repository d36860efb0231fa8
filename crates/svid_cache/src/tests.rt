//! Asks, due times, what is kept and what is not.

ghost use Rattle.std.specs.Prelude.{◌<◌, ◌^◌, length, map, IfOk};
ghost use Rattle.list_laws.specs.Lists.{Rises};
ghost use Rattle.wl_entry.specs.Keys.{ask_key};

use crate::kept::last_begin_in;
use crate::queue::{due_of, file_all};
use crate::{Cache, Installed, KeptSvids, Timetable};
use sorted_blocks::SortedBlocks;
use spiffe_id::SpiffeId;
use std::alloc::Global;
use std::test::Fail;
use wl_entry::{Ask, Signed, Svid, Unfit};
use wl_octets::{Memory, Octets, Row};

/// The ask of an entry with this id and no DNS name.
fn ask(alloc: Global, id: &[u8]) -> Result<Ask, Fail> {
    Ok(Ask {
        entry_id: Octets::from_slice(alloc, id)?,
        spiffe_id: SpiffeId::parse(alloc, b"spiffe://a.b/w")?,
        dns_names: Row::empty(alloc),
        ttl: 3600,
    })
}

/// The one ask as a list.
fn alone(alloc: Global, ask: Ask) -> Result<Row<Ask>, Memory>
    ensures rises { IfOk result (λ r. Rises (map ask_key r)) }
    ensures at_most { IfOk result (λ r. length r < 2 ^ 32) }
{
    let mut asks = Vec::new(alloc);
    asks.push(ask)?;
    Ok(Row::from_vec(asks))
}

/// A cache that has the ask of the entry `e1`.
fn cache(alloc: Global) -> Result<Cache, Fail> {
    let mut cache = Cache::start(alloc);
    let asks = alone(alloc, ask(alloc, b"e1")?)?;
    cache.sync(alloc, asks, 0)?;
    Ok(cache)
}

/// An SVID for the ask of an entry with this id.
fn svid(alloc: Global, id: &[u8], not_before: u64, not_after: u64) -> Result<Svid, Fail> {
    Ok(Svid {
        ask: ask(alloc, id)?,
        signed: Signed {
            chain: Octets::from_slice(alloc, b"c")?,
            key: Octets::from_slice(alloc, b"k")?,
            not_before,
            not_after,
        },
    })
}

/// What a cache says then to an SVID for the ask of an entry with this id, from 100 to 200.
fn said(alloc: Global, cache: &mut Cache, id: &[u8], now: u64) -> Result<Installed, Fail> {
    let svid = svid(alloc, id, 100, 200)?;
    Ok(cache.install(alloc, svid, now)?)
}

/// A cache that keeps an SVID for its ask, from 100 until then.
fn keeping(alloc: Global, until: u64) -> Result<Cache, Fail> {
    let mut cache = cache(alloc)?;
    let svid = svid(alloc, b"e1", 100, until)?;
    let _ = cache.install(alloc, svid, 100)?;
    Ok(cache)
}

/// How many asks are due.
fn count_due(alloc: Global, cache: &Cache, now: u64) -> Result<usize, Fail> {
    Ok(cache.due(alloc, now)?.len())
}

#[test]
fn the_ask_is_due(rt: HostRuntime) -> Result<(), Fail> {
    let cache = cache(rt.alloc())?;
    let ask = ask(rt.alloc(), b"e1")?;
    let due = cache.due(rt.alloc(), 100)?;
    assert!(rt; due.as_slice() == [ask].as_slice());
    Ok(())
}

#[test]
fn cache_calls(rt: HostRuntime) -> Result<(), Fail> {
    let mut cache = cache(rt.alloc())?;
    let first = said(rt.alloc(), &mut cache, b"e1", 100)?;
    assert!(rt; first == Installed::Kept && cache.svids().len() == 1);
    let second = said(rt.alloc(), &mut cache, b"e1", 100)?;
    assert!(rt; second == Installed::Older(200) && cache.svids().len() == 1);
    Ok(())
}

/// How many asks are due then, where the SVID ends at the first time.
fn count_due_at(alloc: Global, until: u64, now: u64) -> Result<usize, Fail> {
    let cache = keeping(alloc, until)?;
    count_due(alloc, &cache, now)
}

#[test]
fn first_due_second(rt: HostRuntime) -> Result<(), Fail> {
    let cases = [(200, 149, 0), (200, 150, 1), (201, 150, 0), (201, 151, 1)];
    for (until, now, count) in cases {
        assert_eq!(rt; count_due_at(rt.alloc(), until, now)?, count);
    }
    Ok(())
}

#[test]
fn due_and_sweep(rt: HostRuntime) -> Result<(), Fail> {
    let mut cache = keeping(rt.alloc(), 200)?;
    assert!(rt; cache.sweep(199) == 0 && cache.sweep(200) == 1 && cache.svids().len() == 0);
    assert_eq!(rt; count_due(rt.alloc(), &cache, 149)?, 1);
    Ok(())
}

#[test]
fn first_end(rt: HostRuntime) -> Result<(), Fail> {
    let fresh = cache(rt.alloc())?;
    let cache = keeping(rt.alloc(), 200)?;
    assert!(rt; !fresh.has_ended(u64::MAX) && !cache.has_ended(199) && cache.has_ended(200));
    Ok(())
}

/// How many asks of the entries `e1` and `e2` are due, in blocks of this size; 0 while an SVID has not begun.
fn count_in_blocks(alloc: Global, size: usize, cache: &Cache, now: u64) -> Result<usize, Fail>
    requires { 0 < size }
{
    let svids = SortedBlocks::of(alloc, cache.svids())?;
    let begins = last_begin_in(svids.blocks());
    if now < begins {
        return Ok(0);
    }
    let asks = vec![in alloc; ask(alloc, b"e1")?, ask(alloc, b"e2")?]?;
    let firsts = file_all(alloc, size, asks.as_slice(), &svids, 0)?;
    Ok(due_of(
        alloc,
        size,
        firsts.as_slice(),
        asks.as_slice(),
        &svids,
        0,
        now,
    )?
    .len())
}

#[test]
fn blocks_of_asks(rt: HostRuntime) -> Result<(), Fail> {
    let cache = keeping(rt.alloc(), 200)?;
    let not_due = count_in_blocks(rt.alloc(), 1, &cache, 149)?;
    let due = count_in_blocks(rt.alloc(), 1, &cache, 150)?;
    let in_one = count_in_blocks(rt.alloc(), 2, &cache, 149)?;
    assert_eq!(rt; (not_due, due, in_one), (1, 2, 1));
    Ok(())
}

#[test]
fn refused_identities(rt: HostRuntime) -> Result<(), Fail> {
    let mut cache = cache(rt.alloc())?;
    let unknown = said(rt.alloc(), &mut cache, b"e2", 100)?;
    let over = said(rt.alloc(), &mut cache, b"e1", 200)?;
    assert!(rt; unknown == Installed::NoSuchAsk && over == Installed::Unfit(Unfit::Expired));
    assert_eq!(rt; cache.svids().len(), 0);
    Ok(())
}

/// A cache has the ask of the entry with another time to live.
fn change(alloc: Global, cache: &mut Cache) -> Result<(), Fail> {
    let mut changed = ask(alloc, b"e1")?;
    changed.ttl = 60;
    let asks = alone(alloc, changed)?;
    Ok(cache.sync(alloc, asks, 0)?)
}

/// How many SVIDs and asks a cache has, and whether it lists the first ask of the entry.
fn counts(alloc: Global, cache: &Cache) -> Result<(usize, usize, bool), Fail> {
    let ask = ask(alloc, b"e1")?;
    Ok((cache.svids().len(), cache.asks().len(), cache.lists(&ask)))
}

#[test]
fn other_asks(rt: HostRuntime) -> Result<(), Fail> {
    let mut cache = keeping(rt.alloc(), 200)?;
    let copy = cache.copy(rt.alloc())?;
    change(rt.alloc(), &mut cache)?;
    assert_eq!(rt; counts(rt.alloc(), &cache)?, (0, 1, false));
    assert_eq!(rt; counts(rt.alloc(), &copy)?, (1, 1, true));
    Ok(())
}

/// An identity that is kept, from its first second to its end; the `renew_before` of the document that comes then; and
/// an identity that is offered at a time. What is due and what is said.
#[derive(Clone, Copy)]
struct Renewal {
    kept: (u64, u64),
    renew_before: u64,
    now: u64,
    is_due: bool,
    offered: (u64, u64),
    is_taken: bool,
    is_due_after: bool,
}

/// Renewals of a row, in its order.
const RENEWED_ROOT: [Renewal; 5] = [
    // signed at the very second, or after it: nothing is to be renewed
    Renewal {
        kept: (100, 300),
        renew_before: 100,
        now: 150,
        is_due: false,
        offered: (150, 250),
        is_taken: false,
        is_due_after: false,
    },
    Renewal {
        kept: (100, 300),
        renew_before: 0,
        now: 150,
        is_due: false,
        offered: (150, 301),
        is_taken: true,
        is_due_after: false,
    },
    // signed before it: due, and replaced by one that ends earlier
    Renewal {
        kept: (100, 300),
        renew_before: 150,
        now: 150,
        is_due: true,
        offered: (150, 250),
        is_taken: true,
        is_due_after: false,
    },
    // the signer still dates it back: taken, and due again
    Renewal {
        kept: (100, 300),
        renew_before: 150,
        now: 150,
        is_due: true,
        offered: (149, 299),
        is_taken: true,
        is_due_after: true,
    },
    // the very same
    Renewal {
        kept: (100, 300),
        renew_before: 101,
        now: 150,
        is_due: true,
        offered: (100, 300),
        is_taken: true,
        is_due_after: true,
    },
];

/// Renewals after the clock was two hours ahead.
const CLOCK_WENT_BACK: [Renewal; 4] = [
    // signed while it was ahead: due at once, and replaced by one that ends earlier
    Renewal {
        kept: (7300, 7500),
        renew_before: 0,
        now: 100,
        is_due: true,
        offered: (100, 300),
        is_taken: true,
        is_due_after: false,
    },
    // the last second before it begins, and the first of it
    Renewal {
        kept: (101, 301),
        renew_before: 0,
        now: 100,
        is_due: true,
        offered: (100, 300),
        is_taken: true,
        is_due_after: false,
    },
    Renewal {
        kept: (100, 300),
        renew_before: 0,
        now: 100,
        is_due: false,
        offered: (100, 300),
        is_taken: false,
        is_due_after: false,
    },
    // the signer's clock is ahead by a second: taken, and due again
    Renewal {
        kept: (7300, 7500),
        renew_before: 0,
        now: 100,
        is_due: true,
        offered: (101, 301),
        is_taken: true,
        is_due_after: true,
    },
];

/// Whether a renewal goes as it says, and the identity that was offered is kept where it is taken, else the first.
fn goes_as_said(alloc: Global, row: &Renewal) -> Result<bool, Fail> {
    let mut cache = cache(alloc)?;
    let kept = svid(alloc, b"e1", row.kept.0, row.kept.1)?;
    let _ = cache.install(alloc, kept, row.kept.0)?;
    let asks = alone(alloc, ask(alloc, b"e1")?)?;
    cache.sync(alloc, asks, row.renew_before)?;
    let due = count_due(alloc, &cache, row.now)?;
    let offered = svid(alloc, b"e1", row.offered.0, row.offered.1)?;
    let said = cache.install(alloc, offered, row.now)?;
    let after = count_due(alloc, &cache, row.now)?;
    let stays = if row.is_taken { row.offered } else { row.kept };
    let last = svid(alloc, b"e1", stays.0, stays.1)?;
    let is_kept = match cache.svids() {
        [one] => *one.part() == last,
        _ => false,
    };
    Ok(
        (said == Installed::Kept) == row.is_taken
            && (due == 1) == row.is_due
            && (after == 1) == row.is_due_after
            && is_kept,
    )
}

#[test]
fn renewed_root(rt: HostRuntime) -> Result<(), Fail> {
    for row in RENEWED_ROOT {
        assert!(rt; goes_as_said(rt.alloc(), &row)?);
    }
    Ok(())
}

#[test]
fn clock_went_back(rt: HostRuntime) -> Result<(), Fail> {
    for row in CLOCK_WENT_BACK {
        assert!(rt; goes_as_said(rt.alloc(), &row)?);
    }
    Ok(())
}

/// A cache, and a timetable that is to keep the same SVIDs for the same asks.
#[derive(Drop)]
struct Both {
    cache: Cache,
    kept: KeptSvids,
}

/// Both without asks.
fn start_both(alloc: Global) -> Result<Both, Memory> {
    let none = SortedBlocks::empty(alloc);
    Ok(Both {
        cache: Cache::start(alloc),
        kept: Timetable::start(alloc).prepare_sync(alloc, &none, Row::empty(alloc), 0)?,
    })
}

/// Both take the one ask, and the second since which its SVID has to be signed.
fn sync_both(alloc: Global, both: &mut Both, renew_before: u64) -> Result<(), Fail> {
    let asks = alone(alloc, ask(alloc, b"e1")?)?;
    let same = alone(alloc, ask(alloc, b"e1")?)?;
    both.cache.sync(alloc, asks, renew_before)?;
    both.kept = both
        .kept
        .table
        .prepare_sync(alloc, &both.kept.svids, same, renew_before)?;
    Ok(())
}

/// Both take an SVID from 100 until then, and whether they say the same of it.
fn install_both(alloc: Global, both: &mut Both, until: u64, now: u64) -> Result<bool, Fail> {
    let one = svid(alloc, b"e1", 100, until)?;
    let same = svid(alloc, b"e1", 100, until)?;
    let said = both.cache.install(alloc, one, now)?;
    let (next, other) = both
        .kept
        .table
        .prepare_install(alloc, &both.kept.svids, same, now)?;
    if let Some(next) = next {
        both.kept = next;
    }
    Ok(said == other)
}

/// Both let go of what has expired.
fn sweep_both(alloc: Global, both: &mut Both, now: u64) -> Result<(), Fail> {
    let _ = both.cache.sweep(now);
    both.kept = both.kept.table.prepare_sweep(alloc, &both.kept.svids, now)?;
    Ok(())
}

/// Whether both have the same SVIDs, and the same asks are due.
fn are_same(alloc: Global, both: &Both, now: u64) -> Result<bool, Fail> {
    let svids = both.kept.svids().to_row(alloc)?;
    let due = both.kept.due(alloc, now)?;
    let same = both.cache.due(alloc, now)?;
    Ok(svids.as_slice() == both.cache.svids() && due.as_slice() == same.as_slice())
}

#[test]
fn a_timetable_keeps_what_a_cache_does(rt: HostRuntime) -> Result<(), Fail> {
    let mut both = start_both(rt.alloc())?;
    sync_both(rt.alloc(), &mut both, 0)?;
    for (until, now) in [(200, 100), (150, 100), (300, 120), (300, 300)] {
        assert!(rt; install_both(rt.alloc(), &mut both, until, now)?);
        assert!(rt; are_same(rt.alloc(), &both, now)? && are_same(rt.alloc(), &both, 200)?);
    }
    sync_both(rt.alloc(), &mut both, 101)?;
    assert!(rt; are_same(rt.alloc(), &both, 99)? && are_same(rt.alloc(), &both, 120)?);
    sweep_both(rt.alloc(), &mut both, 300)?;
    assert!(rt; are_same(rt.alloc(), &both, 300)? && both.cache.svids().is_empty());
    Ok(())
}
