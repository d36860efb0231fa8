//! Previews of megabytes, and of as many entries as a document may have.

use super::{ran, source};
use std::alloc::AllocGlobal;
use std::process::Abort;
use std::string::{String, ToString};
use std::sync::Wait;
use std::thread::Threads;
use wl_agent::status::{DONE, TOO_LONG};
use wl_edge::MemorySink;
use wl_octets::Row;

fn put(rt: &(impl AllocGlobal + Abort), text: &mut String, more: &str) {
    text.push_str(more).expect(rt, "memory");
}

/// Writes so many items, which differ in one number.
fn put_items(
    rt: &(impl AllocGlobal + Abort),
    text: &mut String,
    count: u32,
    front: &str,
    back: &str,
) {
    for number in 0..count {
        if number > 0 {
            put(rt, text, ",");
        }
        put(rt, text, front);
        let digits = number.to_string(rt.alloc()).expect(rt, "memory");
        put(rt, text, digits.as_str());
        put(rt, text, back);
    }
}

/// The end of a bundle whose X.509 part has three times `groups` bytes and one more.
fn bundle_end(rt: &(impl AllocGlobal + Abort), groups: u32) -> String {
    let mut text = String::new(rt.alloc());
    put(rt, &mut text, r#"","x509":""#);
    for _ in 0..groups {
        put(rt, &mut text, "AAAA");
    }
    put(rt, &mut text, r#"AA=="}"#);
    text
}

/// A document of the domain `d0` with so many bundles, at least one, of so many bytes, and so many entries of one
/// selector, each with its SVID.
fn document_of(rt: &(impl AllocGlobal + Abort), size: &Size) -> String {
    let mut text = String::new(rt.alloc());
    let end = bundle_end(rt, size.groups);
    put(
        rt,
        &mut text,
        r#"{"version":1,"trust_domain":"d0","bundles":["#,
    );
    put_items(
        rt,
        &mut text,
        size.bundles,
        r#"{"trust_domain":"d"#,
        end.as_str(),
    );
    put(rt, &mut text, r#"],"entries":["#);
    put_items(
        rt,
        &mut text,
        size.entries,
        r#"{"spiffe_id":"spiffe://d0/w","selectors":["unix:uid:1"],"id":"e"#,
        r#""}"#,
    );
    put(rt, &mut text, r#"],"svids":["#);
    put_items(
        rt,
        &mut text,
        size.entries,
        r#"{"chain":"AQ==","key":"Ag==","not_before":100,"not_after":200,"entry":"e"#,
        r#""}"#,
    );
    put(rt, &mut text, "]}");
    text
}

/// A preview of such a document, with the status and how many bytes it writes.
struct Size {
    groups: u32,
    bundles: u32,
    entries: u32,
    status: u8,
    written: usize,
}

/// Bundles of 1,048,576 bytes in three and in four SVIDs, and as many bundles, entries and SVIDs as a document may have.
const SIZES: [Size; 3] = [
    Size {
        groups: 349_525,
        bundles: 1,
        entries: 3,
        status: DONE,
        written: 6_291_641,
    },
    Size {
        groups: 349_525,
        bundles: 1,
        entries: 4,
        status: TOO_LONG,
        written: 0,
    },
    Size {
        groups: 0,
        bundles: 1_024,
        entries: 10_000,
        status: DONE,
        written: 520_011,
    },
];

/// Asserts how `preview` on such a document ends, and how many bytes it writes.
fn ends_long(rt: &(impl AllocGlobal + Abort + Threads + Wait + Sync), size: &Size) {
    let document = document_of(rt, size);
    let input = source(rt, document.as_bytes(), 65_536, &[]);
    let output = MemorySink::start(
        rt.alloc(),
        1_000,
        8_000_000,
        1_000_000,
        Row::empty(rt.alloc()),
    );
    let output = output.expect(rt, "memory");
    let (status, output) = ran(rt, &["preview", "unix:uid:1"], input, output);
    let found = (status, output.bytes().len());
    assert_eq!(rt; found, (size.status, size.written), "{}", size.entries);
}

#[test]
fn long_previews(rt: HostRuntime) {
    for size in &SIZES {
        ends_long(&rt, size);
    }
}
