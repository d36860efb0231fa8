//! Indexes and their changes.

use spiffe_id::SpiffeId;
use std::alloc::{AllocGlobal, Global};
use std::test::Fail;
use wl_entry::Entry;
use wl_match::*;
use wl_octets::{Memory, Octets, Row, Shared};
use wl_selector::{Selector, Selectors};

/// The set of these selectors.
fn set(alloc: Global, texts: &[&[u8]]) -> Result<Selectors, Fail> {
    let mut items = Vec::new(alloc);
    for text in texts {
        items.push(Selector::parse(alloc, text)?)?;
    }
    Ok(Selectors::from_list(alloc, items, 64)?)
}

/// An entry of this id and these selectors.
fn entry(alloc: Global, id: &[u8], texts: &[&[u8]]) -> Result<Shared<Entry>, Fail> {
    let entry = Entry {
        id: Octets::from_slice(alloc, id)?,
        spiffe_id: SpiffeId::parse(alloc, b"spiffe://a.b/w")?,
        selectors: set(alloc, texts)?,
        federates_with: Row::empty(alloc),
        dns_names: Row::empty(alloc),
        ttl: 3600,
        hint: Octets::empty(alloc),
    };
    match Shared::new(alloc, entry) {
        Ok(share_posting) => Ok(share_posting),
        Err((_, Memory)) => Err(Fail::from("no memory")),
    }
}

/// Whether a caller with these selectors is entitled to the entries at these places.
fn entitles(alloc: Global, index: &Index, texts: &[&[u8]], expected: &[u32]) -> Result<bool, Fail> {
    let places = index.entitled(alloc, &set(alloc, texts)?)?;
    Ok(places.as_slice() == expected)
}

/// The index of an entry.
fn index_of(alloc: Global, entry: Shared<Entry>) -> Result<Index, Memory> {
    Index::build(alloc, &[entry])
}

/// Makes changes of an index with few entries.
fn change(alloc: Global, index: &mut Index, changes: &[Change]) -> Result<(), Fail> {
    if index.entries().len() > 10 || changes.len() > 10 {
        return Err(Fail::from("too many"));
    }
    Ok(index.change(alloc, changes)?)
}

#[test]
fn index_calls(rt: HostRuntime) -> Result<(), Fail> {
    let alloc = rt.alloc();
    let uid = b"unix:uid:1".as_slice();
    let mut index = index_of(alloc, entry(alloc, b"e1", &[uid])?)?;
    assert!(rt; entitles(alloc, &index, &[uid], &[0])?);
    let gone = Change::Remove(Octets::from_slice(alloc, b"e1")?);
    change(alloc, &mut index, &[gone])?;
    assert!(rt; entitles(alloc, &index, &[uid], &[])?);
    Ok(())
}

/// Puts of three entries, of which one has no selector.
fn three_puts(alloc: Global) -> Result<Vec<Change>, Fail> {
    let (a, b) = (b"k:a".as_slice(), b"k:b".as_slice());
    let mut changes = Vec::new(alloc);
    changes.push(Change::Put(entry(alloc, b"e1", &[a])?))?;
    changes.push(Change::Put(entry(alloc, b"e4", &[])?))?;
    changes.push(Change::Put(entry(alloc, b"e2", &[a, b])?))?;
    Ok(changes)
}

/// Four entries, which share selectors.
fn four(alloc: Global) -> Result<Index, Fail> {
    let mut index = index_of(alloc, entry(alloc, b"e3", &[b"k:b", b"k:c"])?)?;
    change(alloc, &mut index, three_puts(alloc)?.as_slice())?;
    Ok(index)
}

#[test]
fn places_rise(rt: HostRuntime) -> Result<(), Fail> {
    let alloc = rt.alloc();
    let index = four(alloc)?;
    let (a, b, c) = (b"k:a".as_slice(), b"k:b".as_slice(), b"k:c".as_slice());
    let table: [(&[&[u8]], &[u32]); 6] = [
        (&[], &[3]),
        (&[a], &[0, 3]),
        (&[b], &[3]),
        (&[a, b], &[0, 1, 3]),
        (&[b, c], &[2, 3]),
        (&[c, b, a], &[0, 1, 2, 3]),
    ];
    for (texts, expected) in table {
        assert!(rt; entitles(alloc, &index, texts, expected)?);
    }
    Ok(())
}

/// The index after changes of one with few entries.
fn changed(alloc: Global, index: &Index, changes: &[Change]) -> Result<Index, Fail> {
    if index.entries().len() > 10 || changes.len() > 10 {
        return Err(Fail::from("too many"));
    }
    Ok(index.changed(alloc, changes)?)
}

/// An entry takes the place of another one, one is gone, and so is one that wasn't there.
fn three_changes(alloc: Global) -> Result<Vec<Change>, Fail> {
    let mut changes = Vec::new(alloc);
    changes.push(Change::Put(entry(alloc, b"e1", &[b"k:d"])?))?;
    changes.push(Change::Remove(Octets::from_slice(alloc, b"e4")?))?;
    changes.push(Change::Remove(Octets::from_slice(alloc, b"e9")?))?;
    Ok(changes)
}

#[test]
fn an_entry_is_replaced(rt: HostRuntime) -> Result<(), Fail> {
    let alloc = rt.alloc();
    let index = four(alloc)?;
    let callers = [b"k:b".as_slice(), b"k:d".as_slice()];
    let after = changed(alloc, &index, three_changes(alloc)?.as_slice())?;
    assert_eq!(rt; after.entries().len(), 3);
    assert!(rt; entitles(alloc, &after, &callers, &[0])?);
    assert!(rt; entitles(alloc, &index, &callers, &[3])?);
    Ok(())
}

/// The index after a sync to this one entry.
fn synced_to(alloc: Global, index: &Index, entry: Shared<Entry>) -> Result<Index, Memory> {
    index.synced(alloc, &[entry])
}

#[test]
fn a_sync_takes_other_entries(rt: HostRuntime) -> Result<(), Fail> {
    let alloc = rt.alloc();
    let index = four(alloc)?;
    let (a, b) = (b"k:a".as_slice(), b"k:b".as_slice());
    let after = synced_to(alloc, &index, entry(alloc, b"e2", &[a])?)?;
    assert!(rt; entitles(alloc, &after, &[a], &[0])?);
    assert!(rt; entitles(alloc, &after, &[b], &[])?);
    assert!(rt; entitles(alloc, &index, &[a], &[0, 3])?);
    Ok(())
}
