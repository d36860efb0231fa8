//! The worked rows of ids and names.

use spiffe_id::*;
use std::alloc::Global;
use std::cmp::Ordering;
use std::process::Abort;
use std::test::Fail;

/// Asserts that a text has this fault, or none and then is the id.
fn reads_id(rt: &impl Abort, alloc: Global, text: &[u8], fault: Option<IdFault>) {
    match SpiffeId::parse(alloc, text) {
        Ok(id) => {
            assert_eq!(rt; fault, None);
            assert_eq!(rt; id.as_bytes(), text);
        }
        Err(found) => assert_eq!(rt; fault, Some(found)),
    }
}

/// Asserts that a text has this fault, or none and then is the name.
fn reads_name(rt: &impl Abort, alloc: Global, text: &[u8], fault: Option<IdFault>) {
    match TrustDomain::parse(alloc, text) {
        Ok(name) => {
            assert_eq!(rt; fault, None);
            assert_eq!(rt; name.as_bytes(), text);
        }
        Err(found) => assert_eq!(rt; fault, Some(found)),
    }
}

#[test]
fn id_faults(rt: HostRuntime) {
    let alloc = rt.alloc();
    reads_id(&rt, alloc, b"spiffe://a.b", None);
    reads_id(
        &rt,
        alloc,
        b"spiffe://a.b/",
        Some(IdFault::EmptySegment(12)),
    );
    reads_id(
        &rt,
        alloc,
        b"spiffe://a.b/a//b",
        Some(IdFault::EmptySegment(14)),
    );
    reads_id(&rt, alloc, b"spiffe://A.b", Some(IdFault::DomainByte(9)));
    reads_id(
        &rt,
        alloc,
        b"spiffe://a.b/../x",
        Some(IdFault::DotSegment(12)),
    );
    reads_id(&rt, alloc, b"spiffe://a.b/%41", Some(IdFault::PathByte(13)));
    reads_id(&rt, alloc, b"spiffe:///x", Some(IdFault::EmptyDomain));
    reads_id(&rt, alloc, b"SPIFFE://a.b", Some(IdFault::NotSpiffe));
    reads_id(&rt, alloc, b"", Some(IdFault::NotSpiffe));
}

#[test]
fn id_order_of_faults(rt: HostRuntime) {
    let alloc = rt.alloc();
    reads_id(&rt, alloc, b"spiffe://", Some(IdFault::EmptyDomain));
    reads_id(&rt, alloc, b"spiffe:/", Some(IdFault::NotSpiffe));
    reads_id(&rt, alloc, b"spiffe://a_b-c.0/A-Z_.z/...", None);
    reads_id(
        &rt,
        alloc,
        b"spiffe://a.b/a/.",
        Some(IdFault::DotSegment(14)),
    );
    reads_id(
        &rt,
        alloc,
        b"spiffe://a.b/./%",
        Some(IdFault::DotSegment(12)),
    );
    reads_id(&rt, alloc, b"spiffe://a.b/%/.", Some(IdFault::PathByte(13)));
    reads_id(&rt, alloc, b"spiffe://a@b/", Some(IdFault::DomainByte(10)));
    reads_id(&rt, alloc, b"spiffe://a:1", Some(IdFault::DomainByte(10)));
}

#[test]
fn id_length(rt: HostRuntime) -> Result<(), Fail> {
    let alloc = rt.alloc();
    let mut text = b"spiffe://a.b/".to_vec(alloc)?;
    for _ in 0..2035 {
        text.push(b'a')?;
    }
    reads_id(&rt, alloc, text.as_slice(), None);
    text.push(b'a')?;
    reads_id(&rt, alloc, text.as_slice(), Some(IdFault::TooLong(2049)));
    Ok(())
}

#[test]
fn domain_faults(rt: HostRuntime) {
    let alloc = rt.alloc();
    reads_name(&rt, alloc, b"a.b", None);
    reads_name(&rt, alloc, b"", Some(IdFault::EmptyDomain));
    reads_name(&rt, alloc, b"A", Some(IdFault::DomainByte(0)));
    reads_name(&rt, alloc, b"a/b", Some(IdFault::DomainByte(1)));
}

#[test]
fn domain_length(rt: HostRuntime) -> Result<(), Fail> {
    let alloc = rt.alloc();
    let mut text = b"spiffe://".to_vec(alloc)?;
    for _ in 0..255 {
        text.push(b'a')?;
    }
    reads_id(&rt, alloc, text.as_slice(), None);
    text.push(b'A')?;
    reads_id(&rt, alloc, text.as_slice(), Some(IdFault::TooLong(256)));
    Ok(())
}

/// Whether a text is an id with this trust domain name and this path.
fn has_parts(alloc: Global, text: &[u8], domain: &[u8], path: &[u8]) -> Result<bool, Fail> {
    let id = SpiffeId::parse(alloc, text)?;
    Ok(id.domain() == domain && id.path() == path)
}

#[test]
fn parts_of_ids(rt: HostRuntime) -> Result<(), Fail> {
    assert!(rt; has_parts(rt.alloc(), b"spiffe://a.b/c/d", b"a.b", b"/c/d")?);
    assert!(rt; has_parts(rt.alloc(), b"spiffe://a.b", b"a.b", b"")?);
    Ok(())
}

#[test]
fn copy_of_an_id(rt: HostRuntime) -> Result<(), Fail> {
    let id = SpiffeId::parse(rt.alloc(), b"spiffe://a.b/c")?;
    let copy = id.copy(rt.alloc())?;
    assert!(rt; copy == id);
    Ok(())
}

/// How two ids are ordered.
fn order_of_ids(alloc: Global, first: &[u8], second: &[u8]) -> Result<Ordering, Fail> {
    let first = SpiffeId::parse(alloc, first)?;
    let second = SpiffeId::parse(alloc, second)?;
    Ok(first.cmp(&second))
}

#[test]
fn ids_in_order(rt: HostRuntime) -> Result<(), Fail> {
    let order = order_of_ids(rt.alloc(), b"spiffe://a.b", b"spiffe://a.b/c/d")?;
    assert_eq!(rt; order, Ordering::Less);
    Ok(())
}

#[test]
fn copy_of_a_name(rt: HostRuntime) -> Result<(), Fail> {
    let name = TrustDomain::parse(rt.alloc(), b"a")?;
    let copy = name.copy(rt.alloc())?;
    assert!(rt; copy == name);
    Ok(())
}

/// How two names are ordered, and whether they are equal.
fn order_of_names(alloc: Global, first: &[u8], second: &[u8]) -> Result<(Ordering, bool), Fail> {
    let first = TrustDomain::parse(alloc, first)?;
    let second = TrustDomain::parse(alloc, second)?;
    Ok((first.cmp(&second), first == second))
}

#[test]
fn names_in_order(rt: HostRuntime) -> Result<(), Fail> {
    assert!(rt; order_of_names(rt.alloc(), b"a", b"b")? == (Ordering::Less, false));
    assert!(rt; order_of_names(rt.alloc(), b"b", b"a")? == (Ordering::Greater, false));
    Ok(())
}
