//! The worked rows of selectors, and sets.

use std::alloc::Global;
use std::cmp::Ordering;
use std::process::Abort;
use std::test::Fail;
use wl_selector::*;

/// Asserts that a text has this fault, or none and then is the selector.
fn reads(rt: &impl Abort, alloc: Global, text: &[u8], fault: Option<SelectorFault>) {
    match Selector::parse(alloc, text) {
        Ok(selector) => {
            assert_eq!(rt; fault, None);
            assert_eq!(rt; selector.as_bytes(), text);
        }
        Err(found) => assert_eq!(rt; fault, Some(found)),
    }
}

#[test]
fn selector_faults(rt: HostRuntime) {
    let alloc = rt.alloc();
    reads(&rt, alloc, b"unix:uid:1", None);
    reads(&rt, alloc, b"unix", Some(SelectorFault::NoColon));
    reads(&rt, alloc, b":a", Some(SelectorFault::EmptyKind));
    reads(&rt, alloc, b"a:", Some(SelectorFault::EmptyValue));
    reads(&rt, alloc, b"", Some(SelectorFault::NoColon));
    reads(&rt, alloc, b":", Some(SelectorFault::EmptyKind));
    reads(&rt, alloc, b"a::", None);
    reads(&rt, alloc, b"a:\xff", Some(SelectorFault::NotUtf8));
    reads(&rt, alloc, b"\xff", Some(SelectorFault::NotUtf8));
    reads(&rt, alloc, b"a:\xc3\xa9", None);
}

/// The set of these texts, at most three of them.
fn set(alloc: Global, texts: &[&[u8]]) -> Result<Selectors, Fail> {
    let mut items = Vec::new(alloc);
    for text in texts {
        items.push(Selector::parse(alloc, text)?)?;
    }
    Ok(Selectors::from_list(alloc, items, 3)?)
}

/// How many selectors a set of two has, or its fault, where so many may stand in it.
fn set_within(alloc: Global, limit: u32) -> Result<Result<usize, SelectorsFault>, Fail> {
    let mut items = Vec::new(alloc);
    items.push(Selector::parse(alloc, b"a:1")?)?;
    items.push(Selector::parse(alloc, b"b:1")?)?;
    match Selectors::from_list(alloc, items, limit) {
        Ok(selectors) => Ok(Ok(selectors.as_slice().len())),
        Err(fault) => Ok(Err(fault)),
    }
}

#[test]
fn selectors_limit(rt: HostRuntime) -> Result<(), Fail> {
    assert!(rt; set_within(rt.alloc(), 1)? == Err(SelectorsFault::TooMany(2)));
    assert!(rt; set_within(rt.alloc(), 2)? == Ok(2));
    Ok(())
}

/// Whether a set has these texts, in their order.
fn has_texts(set: &Selectors, texts: &[&[u8]]) -> bool {
    let mut count: usize = 0;
    for (selector, text) in set.as_slice().iter().zip(texts) {
        if selector.as_bytes() != *text {
            return false;
        }
        count = count.wrapping_add(1);
    }
    count == texts.len() && count == set.as_slice().len()
}

#[test]
fn sets_in_order(rt: HostRuntime) -> Result<(), Fail> {
    let mixed = set(rt.alloc(), &[b"b:1", b"a:2", b"b:1"])?;
    assert!(rt; has_texts(&mixed, &[b"a:2", b"b:1"]));
    Ok(())
}

/// Whether two lists of texts are the same set.
fn are_same(alloc: Global, texts: &[&[u8]], others: &[&[u8]]) -> Result<bool, Fail> {
    let one = set(alloc, texts)?;
    let other = set(alloc, others)?;
    Ok(one == other)
}

#[test]
fn equal_sets(rt: HostRuntime) -> Result<(), Fail> {
    assert!(rt; are_same(rt.alloc(), &[b"b:1", b"a:2", b"b:1"], &[b"a:2", b"b:1"])?);
    assert!(rt; !are_same(rt.alloc(), &[b"b:1", b"a:2"], &[b"a:2"])?);
    Ok(())
}

#[test]
fn copy_of_a_set(rt: HostRuntime) -> Result<(), Fail> {
    let texts = set(rt.alloc(), &[b"b:1", b"a:2"])?;
    let copy = texts.copy(rt.alloc())?;
    assert!(rt; copy == texts);
    Ok(())
}

/// How two selectors are ordered.
fn order(alloc: Global, text: &[u8], other: &[u8]) -> Result<Ordering, Fail> {
    let one = Selector::parse(alloc, text)?;
    let other = Selector::parse(alloc, other)?;
    Ok(one.cmp(&other))
}

#[test]
fn selectors_in_order(rt: HostRuntime) -> Result<(), Fail> {
    assert_eq!(rt; order(rt.alloc(), b"a:2", b"b:1")?, Ordering::Less);
    Ok(())
}

/// Whether one list of texts is a subset of another.
fn is_within(alloc: Global, texts: &[&[u8]], others: &[&[u8]]) -> Result<bool, Fail> {
    let part = set(alloc, texts)?;
    let all = set(alloc, others)?;
    Ok(part.is_subset(&all))
}

const ALL: &[&[u8]] = &[b"a:1", b"b:1", b"c:1"];

static SUBSETS: [(&[&[u8]], &[&[u8]], bool); 7] = [
    (&[], &[], true),
    (&[], ALL, true),
    (&[b"b:1"], ALL, true),
    (ALL, ALL, true),
    (ALL, &[b"b:1"], false),
    (&[b"b:2"], ALL, false),
    (&[b"b:1"], &[], false),
];

#[test]
fn subsets(rt: HostRuntime) -> Result<(), Fail> {
    for (texts, others, wanted) in &SUBSETS {
        assert!(rt; is_within(rt.alloc(), texts, others)? == *wanted);
    }
    Ok(())
}
