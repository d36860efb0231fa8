//! Runs over a host in memory, with their statuses and what they write.

mod long_previews;
mod replays;
mod serving;
mod simulations;
mod views;
mod words;

use std::alloc::AllocGlobal;
use std::process::Abort;
use std::string::String;
use std::sync::Wait;
use std::thread::Threads;
use wl_agent::{Host, run};
use wl_edge::{MemorySink, MemorySource, OpenGate};
use wl_octets::{Octets, Row};
use wl_serve::MemoryHost;

const DOC: &str =
    r#"{"version":1,"trust_domain":"a.b","bundles":[{"trust_domain":"a.b","x509":"Aw=="}],"entries":[{"id":"e1","spiffe_id":"spiffe://a.b/w","selectors":["unix:uid:1"]}],"svids":[{"entry":"e1","chain":"AQ==","key":"Ag==","not_before":100,"not_after":200}]}"#;

/// What DOC's caller is written, 64 digits and a newline.
const ONE: &str = "000000001b0a190a0e7370696666653a2f2f612e622f771201011a0102220103\n";

const USAGE: &str = "usage: agentd preview|check|replay|simulate|serve\n";

/// A caller and a document, with the status and the text that are due.
struct Case {
    words: &'static [&'static str],
    document: &'static str,
    status: u8,
    text: &'static str,
}

fn word_list(rt: &(impl AllocGlobal + Abort), words: &[&str]) -> Vec<String> {
    let mut list = Vec::new(rt.alloc());
    for word in words {
        let word = String::from_str(rt.alloc(), word).expect(rt, "memory");
        list.push(word).expect(rt, "memory");
    }
    list
}

fn octets(rt: &(impl AllocGlobal + Abort), bytes: &[u8]) -> Octets {
    Octets::from_slice(rt.alloc(), bytes).expect(rt, "memory")
}

fn numbers(rt: &(impl AllocGlobal + Abort), numbers: &[u64]) -> Row<u64> {
    Row::from_vec(Vec::from_slice(rt.alloc(), numbers).expect(rt, "memory"))
}

/// A source of these bytes, of which this many come at once, whose reads of these numbers fail.
fn source(
    rt: &(impl AllocGlobal + Abort),
    bytes: &[u8],
    step: usize,
    failing: &[u64],
) -> MemorySource {
    MemorySource::start(octets(rt, bytes), step, numbers(rt, failing))
}

/// A sink that takes this many bytes at once, whose writes of these numbers fail.
fn sink(rt: &(impl AllocGlobal + Abort), step: usize, failing: &[u64]) -> MemorySink {
    MemorySink::start(rt.alloc(), 1_000, 100_000, step, numbers(rt, failing)).expect(rt, "memory")
}

/// The status of a run of these words, and the sink to which it wrote.
fn run_over(
    rt: &(impl AllocGlobal + Abort + Threads + Wait + Sync),
    words: &[&str],
    input: MemorySource,
    output: MemorySink,
    binder: MemoryHost<OpenGate>,
) -> (u8, MemorySink) {
    let words = word_list(rt, words);
    let mut host = Host {
        input,
        output,
        binder,
        parts: None,
    };
    let status = run(rt, rt.alloc(), words.as_slice(), &mut host);
    let Host { output, .. } = host;
    (status, output)
}

/// The same over a host that prepares nothing.
fn ran(
    rt: &(impl AllocGlobal + Abort + Threads + Wait + Sync),
    words: &[&str],
    input: MemorySource,
    output: MemorySink,
) -> (u8, MemorySink) {
    run_over(rt, words, input, output, MemoryHost::start(None))
}

/// Asserts how a run over this document ends.
fn ends(
    rt: &(impl AllocGlobal + Abort + Threads + Wait + Sync),
    words: &[&str],
    document: &str,
    status: u8,
    text: &str,
) {
    let input = source(rt, document.as_bytes(), 64, &[]);
    let (found, output) = ran(rt, words, input, sink(rt, 1_000, &[]));
    assert_eq!(rt; found, status, "{document}");
    assert_eq!(rt; output.bytes(), text.as_bytes(), "{document}");
}

/// Asserts how the run of each case ends.
fn all_end(rt: &(impl AllocGlobal + Abort + Threads + Wait + Sync), cases: &[Case]) {
    for case in cases {
        ends(rt, case.words, case.document, case.status, case.text);
    }
}

const PREVIEWS: [Case; 12] = [
    Case {
        words: &["preview", "unix:uid:1"],
        document: DOC,
        status: 0,
        text: ONE,
    },
    Case {
        words: &["preview", "--", "unix:uid:1"],
        document: DOC,
        status: 0,
        text: ONE,
    },
    Case {
        words: &["preview", "unix:uid:2"],
        document: DOC,
        status: 4,
        text: "",
    },
    // every selector of the entry is asked for
    Case {
        words: &["preview", "unix:uid:1"],
        document: BOTH,
        status: 4,
        text: "",
    },
    Case {
        words: &["preview", "unix:gid:2", "unix:uid:1", "unix:gid:2"],
        document: BOTH,
        status: 0,
        text: ONE,
    },
    // one of two entries lacks its SVID
    Case {
        words: &["preview", "unix:uid:1"],
        document: TWO,
        status: 5,
        text: "",
    },
    // a federated bundle, and none of an entry to which the caller is not entitled
    Case {
        words: &["preview", "unix:uid:1"],
        document: FEDERATED,
        status: 0,
        text: FEDERATED_TEXT,
    },
    Case {
        words: &["preview", "unix:uid:1"],
        document: FOREIGN,
        status: 0,
        text: FEDERATED_TEXT,
    },
    // the hint of version 2, which version 1 does not know
    Case {
        words: &["preview", "unix:uid:1"],
        document: HINT,
        status: 0,
        text: HINT_TEXT,
    },
    Case {
        words: &["preview", "unix:uid:1"],
        document: HINT_OF_1,
        status: 0,
        text: ONE,
    },
    // an identity that is not fit at its own first second is not kept
    Case {
        words: &["preview", "unix:uid:1"],
        document: UNFIT,
        status: 5,
        text: "",
    },
    Case {
        words: &["preview", "unix:uid:1"],
        document: "{",
        status: 3,
        text: "fault document 1\n",
    },
];

const CHECKS: [Case; 8] = [
    Case {
        words: &["check"],
        document: DOC,
        status: 0,
        text: "ok entries=1 bundles=1 svids=1\n",
    },
    Case {
        words: &["check"],
        document: "{",
        status: 3,
        text: "fault document 1\n",
    },
    Case {
        words: &["check"],
        document: "{\"version\":3}",
        status: 3,
        text: "fault document 2\n",
    },
    Case {
        words: &["check"],
        document: "{\"version\":2}",
        status: 3,
        text: "fault document 3 0 0 2 0\n",
    },
    Case {
        words: &["check"],
        document: "{\"version\":1}",
        status: 3,
        text: "fault document 3 0 0 2 0\n",
    },
    Case {
        words: &["check"],
        document: WRONG_ID,
        status: 3,
        text: "fault document 5 2 0 2 0 4 9\n",
    },
    Case {
        words: &["check", "--"],
        document: "",
        status: 3,
        text: "fault document 1\n",
    },
    Case {
        words: &["check", "x"],
        document: DOC,
        status: 2,
        text: USAGE,
    },
];

const BOTH: &str =
    r#"{"version":1,"trust_domain":"a.b","bundles":[{"trust_domain":"a.b","x509":"Aw=="}],"entries":[{"id":"e1","spiffe_id":"spiffe://a.b/w","selectors":["unix:uid:1","unix:gid:2"]}],"svids":[{"entry":"e1","chain":"AQ==","key":"Ag==","not_before":100,"not_after":200}]}"#;

const TWO: &str =
    r#"{"version":1,"trust_domain":"a.b","bundles":[{"trust_domain":"a.b","x509":"Aw=="}],"entries":[{"id":"e1","spiffe_id":"spiffe://a.b/w","selectors":["unix:uid:1"]},{"id":"e2","spiffe_id":"spiffe://a.b/w","selectors":["unix:uid:1"]}],"svids":[{"entry":"e1","chain":"AQ==","key":"Ag==","not_before":100,"not_after":200}]}"#;

const FEDERATED: &str =
    r#"{"version":1,"trust_domain":"a.b","bundles":[{"trust_domain":"a.b","x509":"Aw=="},{"trust_domain":"c.d","x509":"BA=="}],"entries":[{"id":"e1","spiffe_id":"spiffe://a.b/w","selectors":["unix:uid:1"],"federates_with":["c.d","e.f"]}],"svids":[{"entry":"e1","chain":"AQ==","key":"Ag==","not_before":100,"not_after":200}]}"#;

const FOREIGN: &str =
    r#"{"version":1,"trust_domain":"a.b","bundles":[{"trust_domain":"g.h","x509":"BQ=="},{"trust_domain":"a.b","x509":"Aw=="},{"trust_domain":"c.d","x509":"BA=="}],"entries":[{"id":"e2","spiffe_id":"spiffe://a.b/v","selectors":["unix:uid:2"],"federates_with":["g.h"]},{"id":"e1","spiffe_id":"spiffe://a.b/w","selectors":["unix:uid:1"],"federates_with":["c.d","e.f"]}],"svids":[{"entry":"e1","chain":"AQ==","key":"Ag==","not_before":100,"not_after":200}]}"#;

const FEDERATED_TEXT: &str =
    "000000002e0a190a0e7370696666653a2f2f612e622f771201011a01022201031a110a0c7370696666653a2f2f632e64120104\n";

const HINT: &str =
    r#"{"version":2,"trust_domain":"a.b","bundles":[{"trust_domain":"a.b","x509":"Aw=="}],"entries":[{"id":"e1","spiffe_id":"spiffe://a.b/w","selectors":["unix:uid:1"],"hint":"internal"}],"svids":[{"entry":"e1","chain":"AQ==","key":"Ag==","not_before":100,"not_after":200}]}"#;

const HINT_OF_1: &str =
    r#"{"version":1,"trust_domain":"a.b","bundles":[{"trust_domain":"a.b","x509":"Aw=="}],"entries":[{"id":"e1","spiffe_id":"spiffe://a.b/w","selectors":["unix:uid:1"],"hint":"internal"}],"svids":[{"entry":"e1","chain":"AQ==","key":"Ag==","not_before":100,"not_after":200}]}"#;

const HINT_TEXT: &str =
    "00000000250a230a0e7370696666653a2f2f612e622f771201011a01022201032a08696e7465726e616c\n";

const UNFIT: &str =
    r#"{"version":1,"trust_domain":"a.b","bundles":[{"trust_domain":"a.b","x509":"Aw=="}],"entries":[{"id":"e1","spiffe_id":"spiffe://a.b/w","selectors":["unix:uid:1"]}],"svids":[{"entry":"e1","chain":"AQ==","key":"Ag==","not_before":200,"not_after":200}]}"#;

const WRONG_ID: &str =
    r#"{"version":1,"trust_domain":"a.b","bundles":[{"trust_domain":"a.b","x509":"Aw=="}],"entries":[{"id":"e1","spiffe_id":"spiffe://A.b/w","selectors":["unix:uid:1"]}]}"#;

#[test]
fn previews(rt: HostRuntime) {
    all_end(&rt, &PREVIEWS);
}

#[test]
fn checks(rt: HostRuntime) {
    all_end(&rt, &CHECKS);
}

/// Asserts how a preview of DOC ends, of which the reads or writes of these numbers fail, ten bytes a write.
fn ends_failing(
    rt: &(impl AllocGlobal + Abort + Threads + Wait + Sync),
    read: u64,
    write: u64,
    status: u8,
    text: &[u8],
) {
    let input = source(rt, DOC.as_bytes(), 64, &[read]);
    let (found, output) = ran(
        rt,
        &["preview", "unix:uid:1"],
        input,
        sink(rt, 10, &[write]),
    );
    assert_eq!(rt; found, status);
    assert_eq!(rt; output.bytes(), text);
}

#[test]
fn failing_second_read(rt: HostRuntime) {
    ends_failing(&rt, 1, 1_000, 6, b"");
}

#[test]
fn failing_first_write(rt: HostRuntime) {
    ends_failing(&rt, 1_000, 0, 7, b"");
}

#[test]
fn failing_third_write(rt: HostRuntime) {
    ends_failing(&rt, 1_000, 2, 7, b"000000001b0a190a0e73");
}
