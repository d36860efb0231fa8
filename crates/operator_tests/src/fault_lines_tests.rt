//! Fault lines as sentences, and other lines.

use fault_lines::explain_text;
use std::alloc::AllocGlobal;
use std::process::Abort;

/// A line, and what is written for it.
type Case = (&'static str, &'static str);

/// The faults of a document, each with each kind of place that it has, and those of an id.
const DOCUMENTS: [Case; 29] = [
    ("fault document 1", "document: is not JSON"),
    ("fault document 2", "version: is neither 1 nor 2"),
    ("fault document 3 0 0 2 0", "trust_domain: is missing"),
    (
        "fault document 3 2 17 3 0",
        "entries[17].selectors: is missing",
    ),
    (
        "fault document 4 0 0 0 0",
        "document: is of the wrong kind or out of range",
    ),
    (
        "fault document 4 0 0 6 0",
        "renew_before: is of the wrong kind or out of range",
    ),
    (
        "fault document 4 3 9999 5 0",
        "svids[9999].not_after: is of the wrong kind or out of range",
    ),
    (
        "fault document 4 2 0 5 0",
        "entries[0].dns_names: the list or its first item is of the wrong kind or out of range",
    ),
    (
        "fault document 4 2 0 5 2",
        "entries[0].dns_names[2]: is of the wrong kind or out of range",
    ),
    (
        "fault document 5 2 0 2 0 1 2049",
        "entries[0].spiffe_id: has 2049 bytes, more than a SPIFFE ID (2048) or a trust domain name (255) may have",
    ),
    (
        "fault document 5 2 0 2 0 2",
        "entries[0].spiffe_id: does not begin with spiffe://",
    ),
    (
        "fault document 5 0 0 2 0 3",
        "trust_domain: has no trust domain name",
    ),
    (
        "fault document 5 2 0 2 0 4 9",
        "entries[0].spiffe_id: byte 9 may not stand in a trust domain name",
    ),
    (
        "fault document 5 2 0 4 0 4 0",
        "entries[0].federates_with[0]: byte 0 may not stand in a trust domain name",
    ),
    (
        "fault document 5 2 1 2 0 5 12",
        "entries[1].spiffe_id: the segment at byte 12 is empty",
    ),
    (
        "fault document 5 2 1 2 0 6 13",
        "entries[1].spiffe_id: byte 13 may not stand in a path segment",
    ),
    (
        "fault document 5 2 1 2 0 7 12",
        "entries[1].spiffe_id: the segment at byte 12 is . or ..",
    ),
    (
        "fault document 5 1 0 1 0 8",
        "bundles[0].trust_domain: memory ran out",
    ),
    (
        "fault document 6 2 0 3 0",
        "entries[0].selectors[0]: is not a selector",
    ),
    (
        "fault document 7 2 0 3 0",
        "entries[0].selectors: has no selector",
    ),
    (
        "fault document 8 2 1 1 0",
        "entries[1].id: was given before",
    ),
    (
        "fault document 8 3 1 1 0",
        "svids[1].entry: was given before",
    ),
    (
        "fault document 9 2 0 2 0",
        "entries[0].spiffe_id: is of another trust domain",
    ),
    (
        "fault document 10 3 0 2 0",
        "svids[0].chain: is not standard base64 with padding",
    ),
    (
        "fault document 11",
        "bundles: the own trust domain has no X.509 bundle",
    ),
    (
        "fault document 12 0 0 3 0 1025",
        "bundles: has 1025 items, more than its limit",
    ),
    (
        "fault document 13 1 2 3 0 1048577",
        "bundles[2].jwks: has 1048577 bytes, more than its limit",
    ),
    (
        "fault document 13 2 0 7 0 1025",
        "entries[0].hint: has 1025 bytes, more than its limit",
    ),
    ("fault document 14", "document: memory ran out"),
];

const CONFIGS: [Case; 25] = [
    ("fault config 1", "configuration: is not JSON"),
    ("fault config 2", "version: is not 1"),
    ("fault config 3 0 0 2 0", "upstream or document: is missing"),
    (
        "fault config 4 0 0 4 0",
        "poll_seconds: is of the wrong kind or out of range",
    ),
    (
        "fault config 4 4 1 3 0",
        "sockets[1].selectors: the list or its first item is of the wrong kind or out of range",
    ),
    (
        "fault config 4 0 0 6 0",
        "signers: is of the wrong kind or out of range",
    ),
    (
        "fault config 4 0 0 7 0",
        "log: is of the wrong kind or out of range",
    ),
    ("fault config 5 0 0 8 0", "metrics: is empty"),
    (
        "fault config 4 4 1 4 0",
        "sockets[1].owner: is of the wrong kind or out of range",
    ),
    (
        "fault config 4 4 1 5 0",
        "sockets[1].group: is of the wrong kind or out of range",
    ),
    (
        "fault config 4 4 1 6 0",
        "sockets[1].mode: is of the wrong kind or out of range",
    ),
    (
        "fault config 4 4 1 7 0",
        "sockets[1].uids: the list or its first item is of the wrong kind or out of range",
    ),
    (
        "fault config 4 4 1 7 2",
        "sockets[1].uids[2]: is of the wrong kind or out of range",
    ),
    (
        "fault config 7 4 1 7 0 65",
        "sockets[1].uids: comes to 65, more than its limit",
    ),
    (
        "fault config 7 4 2 8 0 65600",
        "sockets[2].connections: comes to 65600, more than its limit",
    ),
    (
        "fault config 3 4 0 1 0",
        "sockets[0].path or tcp: is missing",
    ),
    (
        "fault config 4 4 1 9 0",
        "sockets[1].tcp: is of the wrong kind or out of range",
    ),
    (
        "fault config 4 4 1 10 0",
        "sockets[1].connections_per_uid: is of the wrong kind or out of range",
    ),
    ("fault config 8 4 1 9 0", "sockets[1].tcp: was given before"),
    ("fault config 5 4 0 1 0", "sockets[0].path or tcp: is empty"),
    (
        "fault config 6 4 0 3 1",
        "sockets[0].selectors[1]: is not a selector",
    ),
    (
        "fault config 7 4 2 2 0 33",
        "sockets[2].workers: comes to 33, more than its limit",
    ),
    (
        "fault config 8 4 1 1 0",
        "sockets[1].path or tcp: was given before",
    ),
    (
        "fault config 9 1048577",
        "configuration: has 1048577 bytes, more than its limit",
    ),
    ("fault config 10", "configuration: memory ran out"),
];

const SCRIPTS: [Case; 6] = [
    (
        "fault script 1 3",
        "line 3: has the wrong words, or stands where it may not",
    ),
    ("fault script 2 1", "line 1: begins with no event's word"),
    ("fault script 3 2", "line 2: names no connection"),
    (
        "fault script 4 18446744073709551615",
        "line 18446744073709551615: has a word that is not hexadecimal",
    ),
    (
        "fault script 5 16777217",
        "script: has 16777217 bytes, more than its limit",
    ),
    ("fault script 6", "script: memory ran out"),
];

/// Lines that are no fault lines.
const OTHERS: [&str; 14] = [
    "",
    "fault",
    "fault document",
    "fault document 0",
    "fault document 15",
    "fault document 9 2 0 2",
    "fault document 9 2 0 2 0 1",
    "fault document 5 2 0 2 0 4",
    "fault document 01",
    "fault document  1",
    "fault document 1 ",
    "fault script 4 18446744073709551616",
    "fault other 1",
    "ok entries=2 bundles=2 svids=2",
];

/// Asserts that this line becomes that one.
fn becomes(rt: &(impl AllocGlobal + Abort), line: &str, wanted: &str) {
    let found = explain_text(rt.alloc(), line.as_bytes()).expect(rt, "memory");
    assert_eq!(rt; found.as_slice(), wanted.as_bytes(), "{line}");
}

/// Asserts that the line of each case becomes the other.
fn become_so(rt: &(impl AllocGlobal + Abort), cases: &[Case]) {
    for (line, wanted) in cases {
        becomes(rt, line, wanted);
    }
}

#[test]
fn sentences(rt: HostRuntime) {
    become_so(&rt, &DOCUMENTS);
    become_so(&rt, &CONFIGS);
    become_so(&rt, &SCRIPTS);
}

#[test]
fn other_lines(rt: HostRuntime) {
    for line in &OTHERS {
        becomes(&rt, line, line);
    }
}

#[test]
fn lines_in_order(rt: HostRuntime) {
    let text = "a\nfault document 2\n\nfault script 6\nb\n";
    let wanted = "a\nversion: is neither 1 nor 2\n\nscript: memory ran out\nb\n";
    becomes(&rt, text, wanted);
}
