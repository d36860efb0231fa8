//! Documents at the limits and just past them, and what a document says.

use crate::tests::{are_read_as, outcome};
use spiffe_id::TrustDomain;
use std::alloc::Global;
use std::process::Abort;
use std::string::ToString;
use wl_document::*;

const COUNTS: &str = r#"
[4, 1, 0, 0, 0, 0, 0]:{"version":1,"trust_domain":"a.b","entries":[],"bundles":[<0,*1023>0]}
[12, 0, 0, 3, 0, 1025, 0]:{"version":1,"trust_domain":"a.b","entries":[],"bundles":[<0,*1024>0]}
[4, 2, 0, 0, 0, 0, 0]:{"version":1,"trust_domain":"a.b","bundles":[{"trust_domain":"a.b","x509":"Aw=="}],"entries":[<0,*9999>0]}
[12, 0, 0, 4, 0, 10001, 0]:{"version":1,"trust_domain":"a.b","bundles":[0],"entries":[<0,*10000>0]}
[4, 3, 0, 0, 0, 0, 0]:{"version":1,"trust_domain":"a.b","bundles":[{"trust_domain":"a.b","x509":"Aw=="}],"entries":[],"svids":[<0,*9999>0]}
[12, 0, 0, 5, 0, 10001, 0]:{"version":1,"trust_domain":"a.b","bundles":[0],"entries":[0],"svids":[<0,*10000>0]}
[0, 0, 0, 0, 0, 0, 0]:{"version":1,"trust_domain":"a.b","bundles":[{"trust_domain":"a.b","x509":"Aw=="}],"entries":[{"id":"e","spiffe_id":"spiffe://a.b","selectors":[<"u:1",*63>"u:1"]}]}
[12, 2, 0, 3, 0, 65, 0]:{"version":1,"trust_domain":"a.b","bundles":[{"trust_domain":"a.b","x509":"Aw=="}],"entries":[{"id":"e","spiffe_id":"spiffe://a.b","selectors":[<"u",*64>"u:1"]}]}
[12, 2, 0, 4, 0, 65, 0]:{"version":1,"trust_domain":"a.b","bundles":[{"trust_domain":"a.b","x509":"Aw=="}],"entries":[{"id":"e","spiffe_id":"spiffe://a.b","selectors":["u:1"],"federates_with":[<"c.d",*64>5]}]}
[12, 2, 0, 5, 0, 65, 0]:{"version":1,"trust_domain":"a.b","bundles":[{"trust_domain":"a.b","x509":"Aw=="}],"entries":[{"id":"e","spiffe_id":"spiffe://a.b","selectors":["u:1"],"dns_names":[<"x",*64>5]}]}
[4, 2, 0, 5, 63, 0, 0]:{"version":1,"trust_domain":"a.b","bundles":[{"trust_domain":"a.b","x509":"Aw=="}],"entries":[{"id":"e","spiffe_id":"spiffe://a.b","selectors":["u:1"],"dns_names":[<"x",*63>5]}]}
"#;

#[test]
fn counts(rt: HostRuntime) {
    are_read_as(&rt, rt.alloc(), "", COUNTS, "");
}

const LENGTHS: &str = r#"
[3, 0, 0, 3, 0, 0, 0]:{"version":1,"trust_domain":"<a*255>"}
[5, 0, 0, 2, 0, 1, 256]:{"version":1,"trust_domain":"<a*256>"}
[3, 2, 0, 2, 0, 0, 0]:{"version":1,"trust_domain":"a.b","bundles":[{"trust_domain":"a.b","x509":"Aw=="}],"entries":[{"id":"<e*128>"}]}
[4, 2, 0, 1, 0, 0, 0]:{"version":1,"trust_domain":"a.b","bundles":[{"trust_domain":"a.b","x509":"Aw=="}],"entries":[{"id":"<e*129>"}]}
[3, 2, 0, 3, 0, 0, 0]:{"version":1,"trust_domain":"a.b","bundles":[{"trust_domain":"a.b","x509":"Aw=="}],"entries":[{"id":"e","spiffe_id":"spiffe://a.b/<a*2035>"}]}
[5, 2, 0, 2, 0, 1, 2049]:{"version":1,"trust_domain":"a.b","bundles":[{"trust_domain":"a.b","x509":"Aw=="}],"entries":[{"id":"e","spiffe_id":"spiffe://a.b/<a*2036>"}]}
[0, 0, 0, 0, 0, 0, 0]:{"version":1,"trust_domain":"a.b","bundles":[{"trust_domain":"a.b","x509":"Aw=="}],"entries":[{"id":"e","spiffe_id":"spiffe://a.b","selectors":["u:1"],"dns_names":["x","<x*253>"]}]}
[4, 2, 0, 5, 1, 0, 0]:{"version":1,"trust_domain":"a.b","bundles":[{"trust_domain":"a.b","x509":"Aw=="}],"entries":[{"id":"e","spiffe_id":"spiffe://a.b","selectors":["u:1"],"dns_names":["x","<x*254>"]}]}
[0, 0, 0, 0, 0, 0, 0]:{"version":2,"trust_domain":"a.b","bundles":[{"trust_domain":"a.b","x509":"Aw=="}],"entries":[{"id":"e","spiffe_id":"spiffe://a.b","selectors":["u:1"],"hint":"<é*512>"}]}
[13, 2, 0, 7, 0, 1025, 0]:{"version":2,"trust_domain":"a.b","bundles":[{"trust_domain":"a.b","x509":"Aw=="}],"entries":[{"id":"e","spiffe_id":"spiffe://a.b","selectors":["u:1"],"hint":"<é*512>e"}]}
[0, 0, 0, 0, 0, 0, 0]:{"version":1,"trust_domain":"a.b","bundles":[{"trust_domain":"a.b","x509":"Aw=="}],"entries":[{"id":"e","spiffe_id":"spiffe://a.b","selectors":["u:1"],"hint":"<é*513>"}]}
[0, 0, 0, 0, 0, 0, 0]:{"version":1,"trust_domain":"a.b","entries":[],"bundles":[{"trust_domain":"a.b","x509":"<AAAAAAAAAAAAAAAAAAAAAAAAAAAAAAAAAAAAAAAAAAAAAAAAAAAAAAAAAAAAAAAAAAAAAAAAAAAAAAAAAAAAAAAAAAAAAAAAAAAA*13981>AA=="}]}
[13, 1, 0, 2, 0, 1048577, 0]:{"version":1,"trust_domain":"a.b","entries":[],"bundles":[{"trust_domain":"a.b","x509":"<AAAAAAAAAAAAAAAAAAAAAAAAAAAAAAAAAAAAAAAAAAAAAAAAAAAAAAAAAAAAAAAAAAAAAAAAAAAAAAAAAAAAAAAAAAAAAAAAAAAA*13981>AAA="}]}
[13, 1, 0, 3, 0, 1048577, 0]:{"version":1,"trust_domain":"a.b","entries":[],"bundles":[{"trust_domain":"a.b","jwks":"<xxxxxxxxxxxxxxxxx*61681>"}]}
[13, 0, 0, 0, 0, 16777217, 0]:<                                                                                                 *172961>
"#;

#[test]
fn lengths(rt: HostRuntime) {
    are_read_as(&rt, rt.alloc(), "", LENGTHS, "");
}

static DOCUMENT: &str =
    r#"{"version":1,"trust_domain":"a.b","bundles":[{"trust_domain":"a.b","x509":"Aw=="}],"entries":[{"id":"e1","spiffe_id":"spiffe://a.b/w","selectors":["unix:uid:1"]}],"svids":[{"entry":"e1","chain":"AQ==","key":"Ag==","not_before":100,"not_after":200}]}"#;

fn state_of(rt: &impl Abort, alloc: Global, document: &str) -> AuthorityState {
    read_state(alloc, document.as_bytes(), None).expect(rt, "a state")
}

/// Asserts how many bundles, entries and signed identities a state has.
fn has(rt: &impl Abort, state: &AuthorityState, counts: [usize; 3]) {
    let found = [state.bundles.len(), state.entries.len(), state.svids.len()];
    assert_eq!(rt; found, counts);
}

#[test]
fn state_of_document(rt: HostRuntime) {
    let state = state_of(&rt, rt.alloc(), DOCUMENT);
    assert_eq!(rt; state.domain.as_bytes(), b"a.b".as_slice());
    has(&rt, &state, [1, 1, 1]);
    drop(state);
}

/// Asserts the second since which identities have to be signed, in a document that ends with these members.
fn is_renewed_before(rt: &impl Abort, alloc: Global, members: &str, wanted: u64) {
    let front =
        r#"{"version":1,"trust_domain":"a.b","bundles":[{"trust_domain":"a.b","x509":"Aw=="}],"entries":[]"#;
    let document = format!(in alloc; "{front}{members}").expect(rt, "memory");
    let state = state_of(rt, alloc, document.as_str());
    assert_eq!(rt; state.renew_before, wanted);
    drop(state);
}

#[test]
fn renewals(rt: HostRuntime) {
    for (members, wanted) in [
        ("}", 0),
        (r#","renew_before":0}"#, 0),
        (r#","renew_before":1700000000}"#, 1700000000),
        (r#","renew_before":18446744073709551615}"#, u64::MAX),
        (r#","renew_before":7,"renew_before":8}"#, 8),
    ] {
        is_renewed_before(&rt, rt.alloc(), members, wanted);
    }
}

fn is_of(rt: &impl Abort, alloc: Global, own: &str, wanted: [usize; 7]) {
    let own = TrustDomain::parse(alloc, own.as_bytes()).expect(rt, "a domain");
    let found = outcome(rt, alloc, DOCUMENT.as_bytes(), Some(&own));
    assert_eq!(rt; found, wanted);
}

#[test]
fn own_domains(rt: HostRuntime) {
    for (name, wanted) in [
        ("a.b", [0; 7]),
        ("a.c", [9, 0, 0, 2, 0, 0, 0]),
        ("a.bc", [9, 0, 0, 2, 0, 0, 0]),
    ] {
        is_of(&rt, rt.alloc(), name, wanted);
    }
}

/// The same state, by ascending keys, with what may be left out.
static ORDERED: &str =
    r#"{"version":2,"trust_domain":"b","bundles":[{"trust_domain":"a","x509":"","jwks":""},{"trust_domain":"b","x509":"Aw==","jwks":""},{"trust_domain":"c","x509":"","jwks":"{}"}],"entries":[{"id":"e10","spiffe_id":"spiffe://b/w","selectors":["u:1"],"federates_with":[],"dns_names":[],"ttl":3600,"hint":""},{"id":"e2","spiffe_id":"spiffe://b","selectors":["u:1","u:2"],"federates_with":["c","a"],"dns_names":["y","x"],"ttl":60,"hint":"h"}],"svids":[{"entry":"e2","chain":"","key":"","not_before":0,"not_after":0},{"entry":"z","chain":"AQ==","key":"Ag==","not_before":1,"not_after":2}],"renew_before":0}"#;

static UNORDERED: &str =
    r#"{"version":2,"trust_domain":"b","bundles":[{"trust_domain":"c","jwks":"{}"},{"trust_domain":"b","x509":"Aw=="},{"trust_domain":"a"}],"entries":[{"id":"e2","spiffe_id":"spiffe://b","selectors":["u:2","u:1","u:2"],"federates_with":["c","a"],"dns_names":["y","x"],"ttl":60,"hint":"h"},{"id":"e10","spiffe_id":"spiffe://b/w","selectors":["u:1"]}],"svids":[{"entry":"z","chain":"AQ==","key":"Ag==","not_before":1,"not_after":2},{"entry":"e2","chain":"","key":"","not_before":0,"not_after":0}]}"#;

fn are_same(rt: &impl Abort, state: &AuthorityState, other: &AuthorityState) {
    assert!(rt; state.domain == other.domain);
    assert!(rt; state.bundles == other.bundles);
    assert!(rt; state.entries == other.entries);
    assert!(rt; state.svids == other.svids);
    assert_eq!(rt; state.renew_before, other.renew_before);
}

#[test]
fn order_of_state(rt: HostRuntime) {
    let state = state_of(&rt, rt.alloc(), UNORDERED);
    let ordered = state_of(&rt, rt.alloc(), ORDERED);
    are_same(&rt, &state, &ordered);
    drop(state);
    drop(ordered);
}

#[test]
fn copies(rt: HostRuntime) {
    let state = state_of(&rt, rt.alloc(), UNORDERED);
    let copy = state.copy(rt.alloc()).expect(&rt, "memory");
    are_same(&rt, &state, &copy);
    drop(state);
    drop(copy);
}

fn put(rt: &impl Abort, text: &mut String, part: &str) {
    text.push_str(part).expect(rt, "memory");
}

/// Writes so many items, which differ in one number.
fn put_items(rt: &impl Abort, text: &mut String, count: u32, front: &str, back: &str) {
    for number in 0..count {
        if number > 0 {
            put(rt, text, ",");
        }
        let digits = number.to_string(*text.allocator()).expect(rt, "memory");
        put(rt, text, front);
        put(rt, text, digits.as_str());
        put(rt, text, back);
    }
}

/// A document with as many bundles, entries and signed identities as one may have.
fn largest_document(rt: &impl Abort, alloc: Global) -> String {
    let mut text = String::new(alloc);
    put(
        rt,
        &mut text,
        r#"{"version":1,"trust_domain":"d0","bundles":["#,
    );
    put_items(
        rt,
        &mut text,
        1_024,
        r#"{"trust_domain":"d"#,
        r#"","x509":"Aw=="}"#,
    );
    put(rt, &mut text, r#"],"entries":["#);
    let entry = r#"{"spiffe_id":"spiffe://d0/w","selectors":["u:1"],"id":"e"#;
    put_items(rt, &mut text, 10_000, entry, r#""}"#);
    put(rt, &mut text, r#"],"svids":["#);
    let svid = r#"{"chain":"AQ==","key":"Ag==","not_before":1,"not_after":2,"entry":"e"#;
    put_items(rt, &mut text, 10_000, svid, r#""}"#);
    put(rt, &mut text, "]}");
    text
}

#[test]
fn largest(rt: HostRuntime) {
    let document = largest_document(&rt, rt.alloc());
    let state = state_of(&rt, rt.alloc(), document.as_str());
    has(&rt, &state, [1_024, 10_000, 10_000]);
    drop(state);
}
