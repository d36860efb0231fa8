//! What the client program says of the bytes that a connection wrote which was served what the program sends.

use super::outside::plan;
use super::serve_well;
use std::alloc::{AllocGlobal, Global};
use std::process::Abort;
use std::string::String;
use std::sync::Wait;
use wl_control::control;
use wl_edge::{MemoryLink, MemorySink};
use wl_octets::Row;

/// The words, and what the program writes.
const CALLS: [(&[&str], &[u8]); 4] = [
    (
        &["fetch", "x509"],
        b"svid spiffe://a.b/w chain=01 key=02 bundle=03 hint=\n",
    ),
    (&["fetch", "jwt", "x"], b"jwt spiffe://a.b/w t hint=\n"),
    (&["health"], b"serving\n"),
    (&["health-watch", "1"], b"serving\n"),
];

fn words_of(rt: &impl Abort, alloc: Global, texts: &[&str]) -> Vec<String> {
    let mut words = Vec::new(alloc);
    for text in texts {
        let word = String::from_str(alloc, text).expect(rt, "memory");
        words.push(word).expect(rt, "memory");
    }
    words
}

/// Makes a call over a link that gives these bytes and then its end: the program's status, the link, and what it wrote.
fn call<R: Wait + Abort>(
    rt: &R,
    alloc: Global,
    words: &[String],
    gives: &[u8],
) -> (u8, MemoryLink, MemorySink) {
    let plan = plan(alloc, &[&[gives]]).expect(rt, "memory");
    let mut link = MemoryLink::start(alloc, plan).expect(rt, "memory");
    let sink = MemorySink::start(alloc, 8, 4_096, usize::MAX, Row::empty(alloc));
    let mut sink = sink.expect(rt, "memory");
    let status = control(rt, alloc, words, &mut link, &mut sink);
    (status, link, sink)
}

/// Asserts what the program writes over the bytes of a connection that was served what the program sends before any answer.
fn call_served<R: Wait + Abort>(rt: &R, alloc: Global, texts: &[&str], text: &[u8]) {
    let words = words_of(rt, alloc, texts);
    let (_, unanswered, _) = call(rt, alloc, words.as_slice(), b"");
    let plan = plan(alloc, &[&[unanswered.took()]]).expect(rt, "memory");
    let (_, served) = serve_well(rt, alloc, plan);
    let (status, _, sink) = call(rt, alloc, words.as_slice(), served.took());
    assert_eq!(rt; status, 0);
    assert_eq!(rt; sink.bytes(), text);
}

#[test]
fn the_client_program_is_answered(rt: HostRuntime) {
    for (words, text) in CALLS {
        call_served(&rt, rt.alloc(), words, text);
    }
}
