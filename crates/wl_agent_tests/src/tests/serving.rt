//! The one call over a host in memory: `serve`, and a command beside it.

use super::{DOC, ONE, USAGE, numbers, octets, run_over, sink, source, word_list};
use std::alloc::AllocGlobal;
use std::process::Abort;
use std::sync::Wait;
use std::thread::Threads;
use wl_agent::config_path;
use wl_edge::{ListenerPlan, OpenGate, Script};
use wl_octets::{Octets, Row};
use wl_serve::{HostPlan, MemoryHost, SeatPlan};

const CONFIG: &str =
    r#"{"version":1,"upstream":"/u","signer":"/s","sockets":[{"path":"/a","workers":2,"selectors":["unix:uid:1"]}]}"#;

const TWO_SOCKETS: &str =
    r#"{"version":1,"upstream":"/u","signer":"/s","sockets":[{"path":"/a","selectors":["unix:uid:1"]},{"path":"/b","selectors":["unix:uid:1"]}]}"#;

/// Words, the input, the first document, and the calls that fail, by their numbers from 0; with what is due.
#[derive(Clone, Copy, Drop)]
struct Case {
    words: &'static [&'static str],
    input: &'static str,
    document: &'static str,
    reads: &'static [u64],
    writes: &'static [u64],
    pulls: &'static [u64],
    accepts: &'static [u64],
    waits: &'static [u64],
    status: u8,
    text: &'static str,
}

/// A configuration of one socket, whose listener gives its end at once. No call fails.
const SERVED: Case = Case {
    words: &["serve", "agent.json"],
    input: CONFIG,
    document: DOC,
    reads: &[],
    writes: &[],
    pulls: &[],
    accepts: &[],
    waits: &[],
    status: 0,
    text: "",
};

const CASES: [Case; 15] = [
    SERVED,
    Case {
        words: &["serve", "--", "-x"],
        ..SERVED
    },
    Case {
        words: &["preview", "unix:uid:1"],
        input: DOC,
        text: ONE,
        ..SERVED
    },
    Case {
        words: &["serve"],
        status: 2,
        text: USAGE,
        ..SERVED
    },
    Case {
        words: &["serve", "-x"],
        status: 2,
        text: USAGE,
        ..SERVED
    },
    Case {
        words: &["serve", "a", "b"],
        status: 2,
        text: USAGE,
        ..SERVED
    },
    Case {
        input: "{",
        status: 3,
        text: "fault config 1\n",
        ..SERVED
    },
    Case {
        input: r#"{"version":1,"upstream":"/u","signer":"/s","sockets":[{"path":"","selectors":["a:b"]}]}"#,
        status: 3,
        text: "fault config 5 4 0 1 0\n",
        ..SERVED
    },
    // a document in place of a configuration
    Case {
        words: &["serve", "/x"],
        input: DOC,
        status: 3,
        text: "fault config 3 0 0 2 0\n",
        ..SERVED
    },
    Case {
        document: "{",
        status: 3,
        text: "fault document 1\n",
        ..SERVED
    },
    Case {
        reads: &[0],
        status: 6,
        ..SERVED
    },
    Case {
        input: "{",
        writes: &[0],
        status: 7,
        ..SERVED
    },
    Case {
        pulls: &[0],
        status: 9,
        ..SERVED
    },
    Case {
        accepts: &[0],
        status: 10,
        ..SERVED
    },
    Case {
        input: TWO_SOCKETS,
        status: 10,
        ..SERVED
    },
];

/// A seat whose listener gives no link.
fn seat(rt: &(impl AllocGlobal + Abort), case: &Case) -> SeatPlan {
    let alloc = rt.alloc();
    SeatPlan {
        listener: ListenerPlan {
            links: Row::empty(alloc),
            idle: Row::empty(alloc),
            failing: numbers(rt, case.accepts),
            answers: 8,
        },
        selectors: Script::start(Row::empty(alloc), Row::empty(alloc)),
        times: Row::empty(alloc),
        failing: numbers(rt, case.waits),
    }
}

fn documents(rt: &(impl AllocGlobal + Abort), case: &Case) -> Script<Octets> {
    let document = octets(rt, case.document.as_bytes());
    let answers = vec![in rt.alloc(); document].expect(rt, "memory");
    Script::start(Row::from_vec(answers), numbers(rt, case.pulls))
}

fn binder(rt: &(impl AllocGlobal + Abort), case: &Case) -> MemoryHost<OpenGate> {
    let alloc = rt.alloc();
    let seats = vec![in alloc; seat(rt, case)].expect(rt, "memory");
    MemoryHost::start(Some(HostPlan {
        documents: documents(rt, case),
        tokens: Script::start(Row::empty(alloc), Row::empty(alloc)),
        identities: Script::start(Row::empty(alloc), Row::empty(alloc)),
        puller_times: Row::empty(alloc),
        keeper_times: Row::empty(alloc),
        signer_times: Row::empty(alloc),
        gate: OpenGate,
        is_shut: false,
        seats,
    }))
}

/// Asserts how the run of a case ends.
fn serves_so(rt: &(impl AllocGlobal + Abort + Threads + Wait + Sync), case: &Case) {
    let input = source(rt, case.input.as_bytes(), 64, case.reads);
    let output = sink(rt, 1_000, case.writes);
    let (status, output) = run_over(rt, case.words, input, output, binder(rt, case));
    assert_eq!(rt; status, case.status, "{}", case.input);
    assert_eq!(rt; output.bytes(), case.text.as_bytes(), "{}", case.input);
}

#[test]
fn serves(rt: HostRuntime) {
    for case in &CASES {
        serves_so(&rt, case);
    }
}

#[test]
fn names_of_configurations(rt: HostRuntime) {
    let words = word_list(&rt, &["serve", "agent.json"]);
    assert_eq!(rt; config_path(words.as_slice()), Some("agent.json"));
    let words = word_list(&rt, &["check"]);
    assert!(rt; config_path(words.as_slice()).is_none());
}
