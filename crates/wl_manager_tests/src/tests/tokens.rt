//! Tokens that are kept and found.

use super::documents::{DOC, HINTED, OTHER_ID, RENEWED};
use spiffe_id::SpiffeId;
use std::alloc::{AllocGlobal, Global};
use std::process::Abort;
use wl_entry::{Ask, Free, JwtToken, JwtUnfit};
use wl_manager::{Keeping, Manager};
use wl_octets::{Octets, Row};

/// The ask of the worked document's entry.
fn worked_ask(rt: &impl Abort, alloc: Global) -> Ask {
    Ask {
        entry_id: Octets::from_slice(alloc, b"e1").expect(rt, "memory"),
        spiffe_id: SpiffeId::parse(alloc, b"spiffe://a.b/w").expect(rt, "an id"),
        dns_names: Row::empty(alloc),
        ttl: 3600,
    }
}

fn texts(rt: &impl Abort, alloc: Global, names: &[&[u8]]) -> Vec<Octets> {
    let mut list = Vec::new(alloc);
    for name in names {
        let text = Octets::from_slice(alloc, name).expect(rt, "memory");
        list.push(text).expect(rt, "memory");
    }
    list
}

fn start(rt: &impl Abort, alloc: Global, document: &[u8]) -> Manager<Free> {
    Manager::start(alloc, document).expect(rt, "a document")
}

/// Hands in a token of these bytes, from 100 to 200, and asserts what becomes of it.
fn keep(
    rt: &impl Abort,
    alloc: Global,
    manager: &mut Manager<Free>,
    names: &[&[u8]],
    now: u64,
    due: Keeping,
) {
    let ask = worked_ask(rt, alloc);
    let audience = texts(rt, alloc, names);
    let token = JwtToken {
        token: Octets::from_slice(alloc, b"t").expect(rt, "memory"),
        issued_at: 100,
        expires_at: 200,
    };
    let kept = manager.keep_token(alloc, &ask, audience.as_slice(), token, now);
    assert!(rt; kept.expect(rt, "memory") == due);
}

/// Asserts whether the token is found.
fn find(
    rt: &impl Abort,
    alloc: Global,
    manager: &Manager<Free>,
    names: &[&[u8]],
    now: u64,
    is_there: bool,
) {
    let ask = worked_ask(rt, alloc);
    let audience = texts(rt, alloc, names);
    let found = manager
        .token(alloc, &ask, audience.as_slice(), now)
        .expect(rt, "memory");
    match found {
        Some(found) => assert!(rt; is_there && found.token.as_slice() == b"t".as_slice()),
        None => assert!(rt; !is_there),
    }
}

#[test]
fn manager_tokens(rt: HostRuntime) {
    let alloc = rt.alloc();
    let mut manager = start(&rt, alloc, DOC);
    find(&rt, alloc, &manager, &[b"x"], 149, false);
    keep(&rt, alloc, &mut manager, &[b"x", b"y"], 100, Keeping::Kept);
    find(&rt, alloc, &manager, &[b"y", b"x", b"x"], 149, true);
    find(&rt, alloc, &manager, &[b"y", b"x", b"x"], 150, false);
}

/// Asserts whether a token that is kept for one audience is found after a document was read.
fn stays_after(rt: &impl Abort, alloc: Global, document: &[u8], is_there: bool) {
    let mut manager = start(rt, alloc, DOC);
    keep(rt, alloc, &mut manager, &[b"x"], 100, Keeping::Kept);
    let _ = manager.sync(alloc, document).expect(rt, "a document");
    find(rt, alloc, &manager, &[b"x"], 149, is_there);
}

/// A document of another ask drops the token; one with a later `renew_before` (row renewed_root) hides it.
#[test]
fn documents_drop_tokens(rt: HostRuntime) {
    let rows = [
        (DOC, true),
        (HINTED, true),
        (OTHER_ID, false),
        (RENEWED, false),
    ];
    for (document, is_there) in rows {
        stays_after(&rt, rt.alloc(), document, is_there);
    }
}

/// A token that was issued in the future isn't found (row clock_went_back).
#[test]
fn tokens_of_a_clock_ahead(rt: HostRuntime) {
    let alloc = rt.alloc();
    let mut manager = start(&rt, alloc, DOC);
    keep(&rt, alloc, &mut manager, &[b"x"], 100, Keeping::Kept);
    for (now, is_there) in [(0, false), (99, false), (100, true)] {
        find(&rt, alloc, &manager, &[b"x"], now, is_there);
    }
}

/// Asserts what becomes of a token that is handed in first.
fn keep_first(
    rt: &impl Abort,
    alloc: Global,
    document: &[u8],
    names: &[&[u8]],
    now: u64,
    due: Keeping,
) {
    let mut manager = start(rt, alloc, document);
    keep(rt, alloc, &mut manager, names, now, due);
}

#[test]
fn tokens_are_refused(rt: HostRuntime) {
    let long: &[u8] = &[b'x'; 2048];
    let longer: &[u8] = &[b'y'; 2049];
    let cases: [(&[u8], &[&[u8]], u64, Keeping); 4] = [
        (DOC, &[b"x"], 200, Keeping::Unfit(JwtUnfit::Expired)),
        (OTHER_ID, &[b"x"], 100, Keeping::NoSuchAsk),
        (DOC, &[long, longer], 100, Keeping::AudienceLong(4097)),
        (DOC, &[long, long, longer], 199, Keeping::AudienceLong(4097)),
    ];
    for (document, names, now, due) in cases {
        keep_first(&rt, rt.alloc(), document, names, now, due);
    }
}
