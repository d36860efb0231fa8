//! Documents with one fault each, at every field.

use spiffe_id::{IdFault, TrustDomain};
use std::alloc::Global;
use std::process::Abort;
use wl_document::*;

/// A fault by its numbers: its own, its place as part, index, field and item, and its count, or the number of the
/// fault of an id with its own number; 0 where there is none.
type Numbers = [usize; 7];

fn at(number: usize, p: &Place, first: usize, second: usize) -> Numbers {
    let (index, item) = (p.index as usize, p.item as usize);
    [
        number,
        p.part as usize,
        index,
        p.field as usize,
        item,
        first,
        second,
    ]
}

fn with_id(p: &Place, fault: &IdFault) -> Numbers {
    match fault {
        IdFault::TooLong(n) => at(5, p, 1, *n),
        IdFault::NotSpiffe => at(5, p, 2, 0),
        IdFault::EmptyDomain => at(5, p, 3, 0),
        IdFault::DomainByte(byte) => at(5, p, 4, *byte),
        IdFault::EmptySegment(byte) => at(5, p, 5, *byte),
        IdFault::PathByte(byte) => at(5, p, 6, *byte),
        IdFault::DotSegment(byte) => at(5, p, 7, *byte),
        IdFault::Memory => at(5, p, 8, 0),
    }
}

fn numbers_of(fault: &DocFault) -> Numbers {
    match fault {
        DocFault::NotJson => [1, 0, 0, 0, 0, 0, 0],
        DocFault::Version => [2, 0, 0, 0, 0, 0, 0],
        DocFault::Missing(p) => at(3, p, 0, 0),
        DocFault::Kind(p) => at(4, p, 0, 0),
        DocFault::Id(p, fault) => with_id(p, fault),
        DocFault::Selector(p) => at(6, p, 0, 0),
        DocFault::NoSelectors(p) => at(7, p, 0, 0),
        DocFault::Duplicate(p) => at(8, p, 0, 0),
        DocFault::ForeignDomain(p) => at(9, p, 0, 0),
        DocFault::Base64(p) => at(10, p, 0, 0),
        DocFault::NoOwnBundle => [11, 0, 0, 0, 0, 0, 0],
        DocFault::TooMany(p, n) => at(12, p, *n, 0),
        DocFault::TooLong(p, n) => at(13, p, *n, 0),
        DocFault::Memory => [14, 0, 0, 0, 0, 0, 0],
    }
}

/// What reading this document of the own domain, if one is given, comes to: the numbers of its fault, or else
/// only zeros.
pub(crate) fn outcome(
    rt: &impl Abort,
    alloc: Global,
    document: &[u8],
    own: Option<&TrustDomain>,
) -> Numbers {
    match read_state(alloc, document, own) {
        Ok(_) => [0; 7],
        Err(DocFault::Memory) => panic!(rt; "memory"),
        Err(fault) => numbers_of(&fault),
    }
}

fn put(rt: &impl Abort, out: &mut String, text: &str) {
    out.push_str(text).expect(rt, "memory");
}

/// Puts what stands between `<` and `>` after the others, so many times as the number after its `*` says.
fn put_repeated(rt: &impl Abort, out: &mut String, text: &str) {
    let (part, times) = text.rsplit_once('*').expect(rt, "a number of times");
    for _ in 0..times.parse::<u32>().expect(rt, "a number") {
        put(rt, out, part);
    }
}

/// Puts a text after the others, in which a part `<PART*TIMES>` may stand.
fn put_text(rt: &impl Abort, out: &mut String, text: &str) {
    match text.split_once('<') {
        None => put(rt, out, text),
        Some((front, rest)) => {
            let (repeated, back) = rest.split_once('>').expect(rt, "an end");
            put(rt, out, front);
            put_repeated(rt, out, repeated);
            put(rt, out, back);
        }
    }
}

/// Asserts what a document comes to: a row has the numbers of its outcome, a colon, and what stands between two texts.
fn is_read_as(rt: &impl Abort, alloc: Global, front: &str, row: &str, back: &str) {
    let (_, text) = row.split_once("]:").expect(rt, "numbers");
    let mut document = String::new(alloc);
    put(rt, &mut document, front);
    put_text(rt, &mut document, text);
    put(rt, &mut document, back);
    let found = outcome(rt, alloc, document.as_bytes(), None);
    let found = format!(in alloc; "{found:?}:{text}").expect(rt, "memory");
    assert_eq!(rt; found.as_str(), row);
}

/// Asserts what each document comes to, between these two texts: a line is a row.
pub(crate) fn are_read_as(rt: &impl Abort, alloc: Global, front: &str, rows: &str, back: &str) {
    for row in rows.trim().lines() {
        is_read_as(rt, alloc, front, row, back);
    }
}

const TOPS: &str = r#"
[1, 0, 0, 0, 0, 0, 0]:
[1, 0, 0, 0, 0, 0, 0]:{
[1, 0, 0, 0, 0, 0, 0]:{}}
[4, 0, 0, 0, 0, 0, 0]:[]
[4, 0, 0, 0, 0, 0, 0]:null
[3, 0, 0, 1, 0, 0, 0]:{}
[4, 0, 0, 1, 0, 0, 0]:{"version":"1"}
[4, 0, 0, 1, 0, 0, 0]:{"version":null}
[4, 0, 0, 1, 0, 0, 0]:{"version":1.0}
[4, 0, 0, 1, 0, 0, 0]:{"version":1e0}
[4, 0, 0, 1, 0, 0, 0]:{"version":-1}
[4, 0, 0, 1, 0, 0, 0]:{"version":-0}
[4, 0, 0, 1, 0, 0, 0]:{"version":18446744073709551616}
[2, 0, 0, 0, 0, 0, 0]:{"version":18446744073709551615}
[2, 0, 0, 0, 0, 0, 0]:{"version":0}
[2, 0, 0, 0, 0, 0, 0]:{"version":3}
[3, 0, 0, 2, 0, 0, 0]:{"version":1}
[3, 0, 0, 2, 0, 0, 0]:{"version":2}
[3, 0, 0, 2, 0, 0, 0]:{"version":3,"version":2}
[4, 0, 0, 2, 0, 0, 0]:{"version":1,"trust_domain":7}
[4, 0, 0, 2, 0, 0, 0]:{"version":1,"trust_domain":null}
[5, 0, 0, 2, 0, 3, 0]:{"version":1,"trust_domain":""}
[5, 0, 0, 2, 0, 4, 2]:{"version":1,"trust_domain":"a.B"}
[3, 0, 0, 3, 0, 0, 0]:{"version":1,"trust_domain":"a.b"}
[4, 0, 0, 3, 0, 0, 0]:{"version":1,"trust_domain":"a.b","bundles":{}}
[3, 0, 0, 4, 0, 0, 0]:{"version":1,"trust_domain":"a.b","bundles":[]}
[3, 0, 0, 4, 0, 0, 0]:{"version":1,"trust_domain":"a.b","bundles":[5]}
[4, 0, 0, 4, 0, 0, 0]:{"version":1,"trust_domain":"a.b","bundles":[],"entries":null}
[4, 0, 0, 5, 0, 0, 0]:{"version":1,"trust_domain":"a.b","bundles":[],"entries":[],"svids":null}
[4, 0, 0, 5, 0, 0, 0]:{"version":1,"trust_domain":"a.b","bundles":[],"entries":[],"svids":"x"}
[4, 0, 0, 5, 0, 0, 0]:{"version":1,"trust_domain":"a.b","renew_before":null,"bundles":[],"entries":[],"svids":null}
[4, 0, 0, 6, 0, 0, 0]:{"version":1,"trust_domain":"a.b","bundles":[5],"entries":[5],"svids":[5],"renew_before":null}
[4, 0, 0, 6, 0, 0, 0]:{"version":2,"trust_domain":"a.b","bundles":[],"entries":[],"renew_before":"1"}
[4, 0, 0, 6, 0, 0, 0]:{"version":2,"trust_domain":"a.b","bundles":[],"entries":[],"renew_before":1.0}
[4, 0, 0, 6, 0, 0, 0]:{"version":2,"trust_domain":"a.b","bundles":[],"entries":[],"renew_before":-1}
[4, 0, 0, 6, 0, 0, 0]:{"version":2,"trust_domain":"a.b","bundles":[],"entries":[],"renew_before":18446744073709551616}
[11, 0, 0, 0, 0, 0, 0]:{"version":1,"trust_domain":"a.b","bundles":[],"entries":[],"renew_before":18446744073709551615}
[11, 0, 0, 0, 0, 0, 0]:{"version":1,"trust_domain":"a.b","bundles":[],"entries":[]}
[11, 0, 0, 0, 0, 0, 0]:{"version":1,"trust_domain":"a.b","bundles":[],"entries":[5]}
[0, 0, 0, 0, 0, 0, 0]:{"version":1,"trust_domain":"a.b","bundles":[{"trust_domain":"a.b","x509":"Aw=="}],"entries":[]}
[0, 0, 0, 0, 0, 0, 0]:{"version":2,"x":[],"trust_domain":"a.b","bundles":[{"trust_domain":"a.b","x509":"Aw==","y":0}],"entries":[],"svids":[]}
"#;

#[test]
fn tops(rt: HostRuntime) {
    let found = outcome(&rt, rt.alloc(), b"\xff{}", None);
    assert_eq!(rt; found, [1, 0, 0, 0, 0, 0, 0]);
    are_read_as(&rt, rt.alloc(), "", TOPS, "");
}

const BUNDLES_FRONT: &str = r#"{"version":1,"trust_domain":"a.b","bundles":["#;

const BUNDLES_BACK: &str = r#"],"entries":[{"id":1}]}"#;

/// Where no bundle has a fault, the id of the entry has one.
const BUNDLES: &str = r#"
[4, 1, 0, 0, 0, 0, 0]:5
[4, 1, 0, 0, 0, 0, 0]:null
[4, 1, 1, 0, 0, 0, 0]:{"trust_domain":"c.d"},[]
[3, 1, 0, 1, 0, 0, 0]:{}
[4, 1, 0, 1, 0, 0, 0]:{"trust_domain":[]}
[5, 1, 0, 1, 0, 3, 0]:{"trust_domain":""}
[5, 1, 1, 1, 0, 4, 1]:{"trust_domain":"a.b"},{"trust_domain":"c/d"}
[8, 1, 2, 1, 0, 0, 0]:{"trust_domain":"a.b"},{"trust_domain":"c.d"},{"trust_domain":"a.b"}
[8, 1, 1, 1, 0, 0, 0]:{"trust_domain":"a.b"},{"trust_domain":"a.b","x509":5}
[4, 1, 0, 2, 0, 0, 0]:{"trust_domain":"a.b","x509":5}
[4, 1, 0, 2, 0, 0, 0]:{"trust_domain":"a.b","x509":null}
[10, 1, 0, 2, 0, 0, 0]:{"trust_domain":"a.b","x509":"Aw"}
[10, 1, 0, 2, 0, 0, 0]:{"trust_domain":"a.b","x509":"Aw="}
[10, 1, 0, 2, 0, 0, 0]:{"trust_domain":"a.b","x509":"Ax=="}
[10, 1, 0, 2, 0, 0, 0]:{"trust_domain":"a.b","x509":"A_=="}
[10, 1, 0, 2, 0, 0, 0]:{"trust_domain":"a.b","x509":"Aw==\n"}
[4, 1, 0, 3, 0, 0, 0]:{"trust_domain":"a.b","x509":"Aw==","jwks":{}}
[10, 1, 0, 2, 0, 0, 0]:{"trust_domain":"a.b","x509":"A","jwks":{}}
[11, 0, 0, 0, 0, 0, 0]:{"trust_domain":"a.b"}
[11, 0, 0, 0, 0, 0, 0]:{"trust_domain":"a.b","x509":""}
[11, 0, 0, 0, 0, 0, 0]:{"trust_domain":"a.b","jwks":"{}"}
[11, 0, 0, 0, 0, 0, 0]:{"trust_domain":"c.d","x509":"Aw=="}
[11, 0, 0, 0, 0, 0, 0]:{"trust_domain":"c.d","x509":"Aw=="},{"trust_domain":"a.b","x509":""}
[4, 1, 1, 0, 0, 0, 0]:{"trust_domain":"a.b"},5
[4, 2, 0, 1, 0, 0, 0]:{"trust_domain":"a.b","x509":"Aw=="}
[4, 2, 0, 1, 0, 0, 0]:{"trust_domain":"a.b","x509":"++//"}
[4, 2, 0, 1, 0, 0, 0]:{"trust_domain":"c.d"},{"trust_domain":"a.b","x509":"Aw=="},{"trust_domain":"b.c"}
[4, 2, 0, 1, 0, 0, 0]:{"trust_domain":"a.b","x509":"Aw==","jwks":"{}"}
"#;

#[test]
fn bundles(rt: HostRuntime) {
    are_read_as(&rt, rt.alloc(), BUNDLES_FRONT, BUNDLES, BUNDLES_BACK);
}

const ENTRIES_FRONT: &str =
    r#"{"version":2,"trust_domain":"a.b","bundles":[{"trust_domain":"a.b","x509":"Aw=="}],"entries":["#;

const ENTRIES_BACK: &str = r#"],"svids":[5]}"#;

/// Where no entry has a fault, the first signed identity has one.
const ENTRIES: &str = r#"
[4, 2, 0, 0, 0, 0, 0]:5
[4, 2, 0, 0, 0, 0, 0]:[]
[3, 2, 0, 1, 0, 0, 0]:{}
[4, 2, 0, 1, 0, 0, 0]:{"id":7}
[4, 2, 0, 1, 0, 0, 0]:{"id":null}
[4, 2, 0, 1, 0, 0, 0]:{"id":""}
[4, 2, 0, 1, 0, 0, 0]:{"id":"a b"}
[4, 2, 0, 1, 0, 0, 0]:{"id":"a/b"}
[4, 2, 0, 1, 0, 0, 0]:{"id":"é"}
[3, 2, 0, 2, 0, 0, 0]:{"id":"e"}
[3, 2, 0, 2, 0, 0, 0]:{"id":"Az09._-"}
[4, 2, 0, 2, 0, 0, 0]:{"id":"e","spiffe_id":7}
[5, 2, 0, 2, 0, 2, 0]:{"id":"e","spiffe_id":""}
[5, 2, 0, 2, 0, 2, 0]:{"id":"e","spiffe_id":"SPIFFE://a.b"}
[5, 2, 0, 2, 0, 3, 0]:{"id":"e","spiffe_id":"spiffe:///w"}
[5, 2, 0, 2, 0, 4, 9]:{"id":"e","spiffe_id":"spiffe://A.b/w"}
[5, 2, 0, 2, 0, 5, 12]:{"id":"e","spiffe_id":"spiffe://a.b/"}
[5, 2, 0, 2, 0, 6, 14]:{"id":"e","spiffe_id":"spiffe://a.b/w%"}
[5, 2, 0, 2, 0, 7, 14]:{"id":"e","spiffe_id":"spiffe://a.b/w/.."}
[5, 2, 0, 2, 0, 7, 14]:{"id":"e","spiffe_id":"spiffe://c.d/w/.."}
[9, 2, 0, 2, 0, 0, 0]:{"id":"e","spiffe_id":"spiffe://a.bc/w"}
[9, 2, 0, 2, 0, 0, 0]:{"id":"e","spiffe_id":"spiffe://c.d"}
[3, 2, 0, 3, 0, 0, 0]:{"id":"e","spiffe_id":"spiffe://a.b"}
[4, 2, 0, 3, 0, 0, 0]:{"id":"e","spiffe_id":"spiffe://a.b","selectors":"u:1"}
[7, 2, 0, 3, 0, 0, 0]:{"id":"e","spiffe_id":"spiffe://a.b","selectors":[]}
[4, 2, 0, 3, 1, 0, 0]:{"id":"e","spiffe_id":"spiffe://a.b","selectors":["u:1",5]}
[6, 2, 0, 3, 2, 0, 0]:{"id":"e","spiffe_id":"spiffe://a.b","selectors":["u:1","u:2","u"]}
[6, 2, 0, 3, 0, 0, 0]:{"id":"e","spiffe_id":"spiffe://a.b","selectors":[":u"]}
[6, 2, 0, 3, 0, 0, 0]:{"id":"e","spiffe_id":"spiffe://a.b","selectors":["u:"]}
[4, 3, 0, 0, 0, 0, 0]:{"id":"e","spiffe_id":"spiffe://a.b","selectors":["u:1"]}
[4, 3, 0, 0, 0, 0, 0]:{"id":"e","spiffe_id":"spiffe://a.b","selectors":["u:1","u:1"]}
"#;

#[test]
fn entries(rt: HostRuntime) {
    are_read_as(&rt, rt.alloc(), ENTRIES_FRONT, ENTRIES, ENTRIES_BACK);
}

const EXTRAS_FRONT: &str =
    r#"{"version":2,"trust_domain":"a.b","bundles":[{"trust_domain":"a.b","x509":"Aw=="}],"entries":[{"id":"d","spiffe_id":"spiffe://a.b","selectors":["u:1"]},{"id":"e","spiffe_id":"spiffe://a.b/w","selectors":["u:1"]"#;

const EXTRAS_BACK: &str = "}]}";

/// The further members of the second entry.
const EXTRAS: &str = r#"
[0, 0, 0, 0, 0, 0, 0]:
[4, 2, 1, 4, 0, 0, 0]:,"federates_with":"c.d"
[4, 2, 1, 4, 0, 0, 0]:,"federates_with":null
[4, 2, 1, 4, 1, 0, 0]:,"federates_with":["c.d",5]
[5, 2, 1, 4, 1, 3, 0]:,"federates_with":["c.d",""]
[5, 2, 1, 4, 2, 4, 1]:,"federates_with":["c.d","e.f","g h"]
[0, 0, 0, 0, 0, 0, 0]:,"federates_with":["c.d","a.b","c.d"]
[4, 2, 1, 5, 0, 0, 0]:,"dns_names":{}
[4, 2, 1, 5, 2, 0, 0]:,"dns_names":["x","y",null]
[4, 2, 1, 5, 1, 0, 0]:,"dns_names":["x",""]
[4, 2, 1, 4, 0, 0, 0]:,"dns_names":[],"federates_with":[5]
[4, 2, 1, 6, 0, 0, 0]:,"ttl":"60"
[4, 2, 1, 6, 0, 0, 0]:,"ttl":0
[4, 2, 1, 6, 0, 0, 0]:,"ttl":-1
[4, 2, 1, 6, 0, 0, 0]:,"ttl":60.5
[4, 2, 1, 6, 0, 0, 0]:,"ttl":31536001
[4, 2, 1, 6, 0, 0, 0]:,"ttl":4294967297
[4, 2, 1, 6, 0, 0, 0]:,"ttl":null
[0, 0, 0, 0, 0, 0, 0]:,"ttl":31536000
[0, 0, 0, 0, 0, 0, 0]:,"ttl":1
[4, 2, 1, 7, 0, 0, 0]:,"hint":5
[4, 2, 1, 7, 0, 0, 0]:,"hint":null
[4, 2, 1, 6, 0, 0, 0]:,"hint":5,"ttl":0
[0, 0, 0, 0, 0, 0, 0]:,"hint":"internal"
[8, 2, 2, 1, 0, 0, 0]:},{"id":"e"
[8, 2, 2, 1, 0, 0, 0]:},{"id":"d","spiffe_id":5
[3, 2, 2, 2, 0, 0, 0]:},{"id":"f"
"#;

#[test]
fn extras(rt: HostRuntime) {
    are_read_as(&rt, rt.alloc(), EXTRAS_FRONT, EXTRAS, EXTRAS_BACK);
}

const SVIDS_FRONT: &str =
    r#"{"version":1,"trust_domain":"a.b","bundles":[{"trust_domain":"a.b","x509":"Aw=="}],"entries":[],"svids":["#;

const SVIDS_BACK: &str = "]}";

const SVIDS: &str = r#"
[4, 3, 0, 0, 0, 0, 0]:5
[3, 3, 0, 1, 0, 0, 0]:{}
[4, 3, 0, 1, 0, 0, 0]:{"entry":[]}
[4, 3, 0, 1, 0, 0, 0]:{"entry":""}
[4, 3, 0, 1, 0, 0, 0]:{"entry":"e:1"}
[3, 3, 0, 2, 0, 0, 0]:{"entry":"e"}
[4, 3, 0, 2, 0, 0, 0]:{"entry":"e","chain":5}
[10, 3, 0, 2, 0, 0, 0]:{"entry":"e","chain":"AQ"}
[3, 3, 0, 3, 0, 0, 0]:{"entry":"e","chain":"AQ=="}
[4, 3, 0, 3, 0, 0, 0]:{"entry":"e","chain":"AQ==","key":null}
[10, 3, 0, 3, 0, 0, 0]:{"entry":"e","chain":"AQ==","key":"Ag==Ag=="}
[3, 3, 0, 4, 0, 0, 0]:{"entry":"e","chain":"AQ==","key":"Ag=="}
[4, 3, 0, 4, 0, 0, 0]:{"entry":"e","chain":"AQ==","key":"Ag==","not_before":"1"}
[4, 3, 0, 4, 0, 0, 0]:{"entry":"e","chain":"AQ==","key":"Ag==","not_before":-5}
[4, 3, 0, 4, 0, 0, 0]:{"entry":"e","chain":"AQ==","key":"Ag==","not_before":0.5}
[3, 3, 0, 5, 0, 0, 0]:{"entry":"e","chain":"AQ==","key":"Ag==","not_before":1}
[4, 3, 0, 5, 0, 0, 0]:{"entry":"e","chain":"AQ==","key":"Ag==","not_before":1,"not_after":{}}
[4, 3, 0, 5, 0, 0, 0]:{"entry":"e","chain":"AQ==","key":"Ag==","not_before":1,"not_after":18446744073709551616}
[0, 0, 0, 0, 0, 0, 0]:{"entry":"e","chain":"AQ==","key":"Ag==","not_before":1,"not_after":18446744073709551615}
[0, 0, 0, 0, 0, 0, 0]:{"entry":"e","chain":"","key":"","not_before":2,"not_after":1}
[8, 3, 1, 1, 0, 0, 0]:{"entry":"e","chain":"","key":"","not_before":2,"not_after":1},{"entry":"e"}
[0, 0, 0, 0, 0, 0, 0]:{"entry":"e","chain":"","key":"","not_before":2,"not_after":1},{"entry":"d","chain":"","key":"","not_before":0,"not_after":0}
[3, 3, 1, 2, 0, 0, 0]:{"entry":"e","chain":"","key":"","not_before":2,"not_after":1},{"entry":"f"}
[4, 3, 1, 0, 0, 0, 0]:{"entry":"e","chain":"","key":"","not_before":2,"not_after":1},null
"#;

#[test]
fn svids(rt: HostRuntime) {
    are_read_as(&rt, rt.alloc(), SVIDS_FRONT, SVIDS, SVIDS_BACK);
}
