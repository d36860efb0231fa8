//! What callers see of publications, and what their calls are answered.

use super::{DOC, TWO, octets};
use spiffe_id::SpiffeId;
use std::alloc::AllocGlobal;
use std::process::Abort;
use wl_entry::{Free, Signed};
use wl_octets::{Octets, Row, Shared};
use wl_selector::{Selector, Selectors};
use wl_snapshot::{Answer, Method3, Snapshot, View, answer, jwt_asks, view, view_of};
use wl_store::{Claim, Store, Ticket, abandon_all};

/// The own bundles of both kinds, the X.509 bundle of a federated domain, and both of a domain that is foreign.
const KEYS: &str =
    r#"{"version":1,"trust_domain":"a.b","bundles":[{"trust_domain":"a.b","x509":"Aw==","jwks":"{}"},{"trust_domain":"c.d","x509":"BA=="},{"trust_domain":"g.h","x509":"BQ==","jwks":"{}"}],"entries":[{"id":"e1","spiffe_id":"spiffe://a.b/w","selectors":["unix:uid:1"],"federates_with":["c.d","e.f"]}]}"#;

/// The first ticket, where there is one; the others are given up.
fn first_ticket(rt: &(impl AllocGlobal + Abort), tickets: Row<Ticket>) -> Ticket {
    let mut items = tickets.into_vec();
    if items.is_empty() {
        panic!(rt; "no ticket");
    }
    let first = items.remove(0);
    abandon_all(Row::from_vec(items));
    first
}

/// Keeps the identity of DOC for the first entry.
fn keep_first(rt: &(impl AllocGlobal + Abort), store: &mut Store<Free>) {
    let claimed = store.claim(rt.alloc(), 100);
    let Claim { swept: _, tickets } = claimed.expect(rt, "memory");
    let ticket = first_ticket(rt, tickets);
    let signed = Signed {
        chain: octets(rt, b"\x01"),
        key: octets(rt, b"\x02"),
        not_before: 100,
        not_after: 200,
    };
    store
        .signed(rt.alloc(), ticket, signed, 100)
        .expect(rt, "memory");
}

/// The publication of this document in which the first entry has its identity.
fn published(rt: &(impl AllocGlobal + Abort), document: &str) -> Shared<Snapshot> {
    let mut store = Store::<Free>::start(rt.alloc(), document.as_bytes()).expect(rt, "a document");
    keep_first(rt, &mut store);
    store.snapshot().share().expect(rt, "memory")
}

/// The set of this selector.
fn selectors(rt: &(impl AllocGlobal + Abort), text: &[u8]) -> Selectors {
    let mut items = Vec::new(rt.alloc());
    let selector = Selector::parse(rt.alloc(), text).expect(rt, "a selector");
    items.push(selector).expect(rt, "memory");
    Selectors::from_list(rt.alloc(), items, 256).expect(rt, "a set")
}

/// What a caller with this selector sees of a document.
fn view_on(rt: &(impl AllocGlobal + Abort), document: &str, selector: &[u8]) -> View {
    let snapshot = published(rt, document);
    let selectors = selectors(rt, selector);
    view(rt.alloc(), snapshot.part(), &selectors).expect(rt, "memory")
}

/// What a call is answered on a document.
fn answered(
    rt: &(impl AllocGlobal + Abort),
    document: &str,
    selector: &[u8],
    method: Method3,
) -> Answer {
    let view = view_on(rt, document, selector);
    answer(rt.alloc(), method, &view).expect(rt, "memory")
}

/// The message of an answer.
fn message_of(rt: &(impl AllocGlobal + Abort), answer: Answer) -> Octets {
    match answer {
        Answer::Message(message) => message,
        _ => panic!(rt; "no message"),
    }
}

/// Asserts that a call of `unix:uid:1` gets this message on a document.
fn gets(rt: &(impl AllocGlobal + Abort), document: &str, method: Method3, message: &[u8]) {
    let given = message_of(rt, answered(rt, document, b"unix:uid:1", method));
    assert_eq!(rt; given.as_slice(), message);
}

#[test]
fn view_answers_svids(rt: HostRuntime) {
    let message = b"\x0a\x19\x0a\x0espiffe://a.b/w\x12\x01\x01\x1a\x01\x02\x22\x01\x03";
    gets(&rt, DOC, Method3::X509Svid, message);
}

#[test]
fn view_answers_bundles(rt: HostRuntime) {
    let message =
        b"\x12\x11\x0a\x0cspiffe://a.b\x12\x01\x03\x12\x11\x0a\x0cspiffe://c.d\x12\x01\x04";
    gets(&rt, KEYS, Method3::X509Bundles, message);
}

#[test]
fn view_answers_jwt_bundles(rt: HostRuntime) {
    let message = b"\x0a\x12\x0a\x0cspiffe://a.b\x12\x02{}";
    gets(&rt, KEYS, Method3::JwtBundles, message);
}

#[test]
fn view_answers_denied(rt: HostRuntime) {
    let answer = answered(&rt, DOC, b"unix:uid:2", Method3::X509Svid);
    assert!(rt; matches!(&answer, Answer::Denied));
}

#[test]
fn view_answers_wait(rt: HostRuntime) {
    let answer = answered(&rt, TWO, b"unix:uid:1", Method3::X509Svid);
    assert!(rt; matches!(&answer, Answer::Wait));
}

/// A selector, an id or none, and how many tokens are asked for.
const ASKS: [(&[u8], &[u8], usize); 4] = [
    (b"unix:uid:1", b"", 1),
    (b"unix:uid:2", b"", 0),
    (b"unix:uid:1", b"spiffe://a.b/w", 1),
    (b"unix:uid:1", b"spiffe://a.b/v", 0),
];

/// Asserts how many tokens a call of a caller with this selector asks for on DOC, where it names this id, or none if it
/// is empty.
fn asks_for(rt: &(impl AllocGlobal + Abort), selector: &[u8], id: &[u8], count: usize) {
    let view = view_on(rt, DOC, selector);
    let wanted = if id.is_empty() {
        jwt_asks(rt.alloc(), &view, None)
    } else {
        let id = SpiffeId::parse(rt.alloc(), id).expect(rt, "an id");
        jwt_asks(rt.alloc(), &view, Some(&id))
    };
    let wanted = wanted.expect(rt, "memory");
    assert_eq!(rt; wanted.len(), count);
}

#[test]
fn view_asks(rt: HostRuntime) {
    for (selector, id, count) in &ASKS {
        asks_for(&rt, selector, id, *count);
    }
}

/// The view that is made of the first entry.
fn first_alone(rt: &(impl AllocGlobal + Abort), snapshot: &Snapshot) -> View {
    if snapshot.entries.part().len() == 0 {
        panic!(rt; "no entry");
    }
    view_of(rt.alloc(), snapshot, &[0]).expect(rt, "memory")
}

#[test]
fn view_by_places(rt: HostRuntime) {
    let snapshot = published(&rt, TWO);
    let view = first_alone(&rt, snapshot.part());
    assert_eq!(rt; view.held.len(), 1);
}
