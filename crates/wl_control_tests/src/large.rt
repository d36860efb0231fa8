//! What is asked for as often or as long as it may be.

use crate::samples::{answer_with, bytes_of, joined, message_frame, put};
use crate::scenes::{link_of, sink_of, try_run, words_of};
use pb_wire::put_bytes;
use std::alloc::Global;
use std::process::Abort;
use wl_control::{control, keep, status};
use wl_octets::Octets;

/// The line of `SVID`.
const LINE: &[u8] = b"svid spiffe://a.b/w chain=01 key=02 bundle=03 hint=\n";

/// An SVID of a message.
const ITEM: &[u8] = b"\x0a\x19\x0a\x0espiffe://a.b/w\x12\x01\x01\x1a\x01\x02\x22\x01\x03";

/// These bytes, so many times.
fn repeated(rt: &impl Abort, alloc: Global, bytes: &[u8], times: usize) -> Octets {
    let mut out = Octets::empty(alloc);
    for _ in 0..times {
        put(rt, &mut out, bytes);
    }
    out
}

/// Asserts that so many messages are watched, and their lines.
fn are_watched(rt: &impl Abort, alloc: Global, count: usize, words: &str) {
    let svid = bytes_of(rt, alloc, "SVID");
    let mut bytes = bytes_of(rt, alloc, "BEGUN");
    let svids = repeated(rt, alloc, svid.as_slice(), count);
    put(rt, &mut bytes, svids.as_slice());
    let lines = repeated(rt, alloc, LINE, count);
    let list = words_of(rt, alloc, words);
    let mut link = link_of(rt, alloc, bytes);
    let mut sink = sink_of(rt, alloc, 10, 65_536);
    let got = control(rt, alloc, list.as_slice(), &mut link, &mut sink);
    assert_eq!(rt; got, status::DONE, "of {words}");
    assert_eq!(rt; sink.bytes(), lines.as_slice(), "of {words}");
}

#[test]
fn many_messages_are_watched(rt: HostRuntime) {
    for (count, words) in [
        (1, "watch 1"),
        (3, "watch 3"),
        (4, "watch 4"),
        (64, "watch 64"),
        (1_000, "watch +1000"),
    ] {
        are_watched(&rt, rt.alloc(), count, words);
    }
}

fn push_word(rt: &impl Abort, words: &mut Vec<String>, word: String) {
    words.push(word).expect(rt, "memory");
}

/// This text and then so many letters.
fn lengthened(rt: &impl Abort, alloc: Global, text: &str, letter: char, count: usize) -> String {
    let mut word = String::from_str(alloc, text).expect(rt, "memory");
    for _ in 0..count {
        word.push(letter).expect(rt, "memory");
    }
    word
}

/// The words `fetch jwt` and so many audiences of so many bytes, and the longest id, of 2,048 bytes, if it is wanted.
fn words_for(
    rt: &impl Abort,
    alloc: Global,
    count: usize,
    len: usize,
    with_id: bool,
) -> Vec<String> {
    let mut words = words_of(rt, alloc, "fetch jwt");
    for _ in 0..count {
        push_word(rt, &mut words, lengthened(rt, alloc, "", 'a', len));
    }
    if with_id {
        push_word(rt, &mut words, lengthened(rt, alloc, "--id", 'a', 0));
        push_word(
            rt,
            &mut words,
            lengthened(rt, alloc, "spiffe://a.b/", 'w', 2_035),
        );
    }
    words
}

/// How many bytes a client sends that asks for so many audiences of so many bytes, and has an id or not: the opening holds
/// each audience with its key and its length, and the id; an acknowledgement and two windows follow it.
fn count_sent(count: usize, len: usize, with_id: bool) -> usize {
    let key = if len < 128 { 2 } else { 3 };
    let id = if with_id { 3 + 2_048 } else { 0 };
    let rest = 24 + 9 + 9 + 0x67 + 9 + 5 + id + 9 + 26;
    len.saturating_add(key)
        .saturating_mul(count)
        .saturating_add(rest)
}

/// Asserts the status of a call for so many audiences of so many bytes, its lines, and how many bytes it sends.
fn are_asked_for(
    rt: &impl Abort,
    alloc: Global,
    (count, len, with_id): (usize, usize, bool),
    status: u8,
) {
    let words = words_for(rt, alloc, count, len, with_id);
    let mut link = link_of(rt, alloc, bytes_of(rt, alloc, "BEGUN + TOKEN + FINE"));
    let mut sink = sink_of(rt, alloc, 10, 65_536);
    let got = control(rt, alloc, words.as_slice(), &mut link, &mut sink);
    let (line, sent) = if status == status::DONE {
        (
            b"jwt spiffe://a.b/w t hint=\n".as_slice(),
            count_sent(count, len, with_id),
        )
    } else {
        (b"".as_slice(), 0)
    };
    assert_eq!(rt; got, status, "of {count} by {len}");
    assert_eq!(rt; sink.bytes(), line, "of {count} by {len}");
    assert_eq!(rt; link.took().len(), sent, "of {count} by {len}");
}

#[test]
fn many_audiences_are_asked_for(rt: HostRuntime) {
    // So many audiences of so many bytes, whether with the longest id, and the status.
    for (call, status) in [
        ((1, 1, false), status::DONE),
        ((3, 200, false), status::DONE),
        ((4, 20, false), status::DONE),
        ((64, 1, false), status::DONE),
        ((64, 200, false), status::DONE),
        ((1, 1, true), status::DONE),
        ((64, 200, true), status::DONE),
        ((65, 1, false), status::USAGE),
        ((1, 201, false), status::USAGE),
    ] {
        are_asked_for(&rt, rt.alloc(), call, status);
    }
}

/// Asserts the lines of a message with so many SVIDs.
fn come_in_one_message(rt: &impl Abort, alloc: Global, count: usize) {
    let message = repeated(rt, alloc, ITEM, count);
    let lines = repeated(rt, alloc, LINE, count);
    let bytes = answer_with(rt, alloc, message.as_slice(), "nothing");
    try_run(
        rt,
        alloc,
        "fetch x509",
        bytes,
        status::DONE,
        lines.as_slice(),
    );
}

#[test]
fn many_svids_come_in_one_message(rt: HostRuntime) {
    for count in [1, 2, 3, 64, 100] {
        come_in_one_message(&rt, rt.alloc(), count);
    }
}

/// So many bytes of this value.
fn filled(rt: &impl Abort, alloc: Global, byte: u8, len: usize) -> Octets {
    Octets::from_vec(Vec::from_elem(alloc, byte, len).expect(rt, "memory"))
}

/// How many bytes the bundle of the longest message has.
const BUNDLE_LEN: usize = 4_194_294;

/// An `X509SVIDResponse` of 4,194,304 bytes: one SVID that has a bundle alone.
fn longest_message(rt: &impl Abort, alloc: Global) -> Octets {
    let bundle = filled(rt, alloc, b'3', BUNDLE_LEN);
    let head = b"\x0a\xfb\xff\xff\x01\x22\xf6\xff\xff\x01";
    joined(rt, alloc, &[head, bundle.as_slice()])
}

/// Its line.
fn longest_line(rt: &impl Abort, alloc: Global) -> Octets {
    let digits = filled(rt, alloc, b'3', 2 * BUNDLE_LEN);
    joined(
        rt,
        alloc,
        &[b"svid  chain= key= bundle=", digits.as_slice(), b" hint=\n"],
    )
}

#[test]
fn the_longest_message_is_written(rt: HostRuntime) {
    let alloc = rt.alloc();
    let message = longest_message(&rt, alloc);
    assert_eq!(rt; message.len(), 4_194_304);
    let bytes = answer_with(&rt, alloc, message.as_slice(), "nothing");
    let line = longest_line(&rt, alloc);
    let words = words_of(&rt, alloc, "fetch x509");
    let mut link = link_of(&rt, alloc, bytes);
    let mut sink = sink_of(&rt, alloc, 10, 10_000_000);
    let got = control(&rt, alloc, words.as_slice(), &mut link, &mut sink);
    assert_eq!(rt; got, status::DONE);
    assert!(rt; sink.bytes() == line.as_slice());
}

/// An `X509SVIDResponse` whose chain is one SEQUENCE of so many bytes, below 16,777,216.
fn message_of_chain(rt: &impl Abort, alloc: Global, len: usize) -> Vec<u8> {
    let size = u32::try_from(len).unwrap_or(u32::MAX).to_be_bytes();
    let content = filled(rt, alloc, 5, len);
    let head = [48, 131, size[1], size[2], size[3]];
    let chain = joined(rt, alloc, &[&head, content.as_slice()]);
    let mut item = Vec::new(alloc);
    put_bytes(&mut item, 2, chain.as_slice()).expect(rt, "memory");
    let mut message = Vec::new(alloc);
    put_bytes(&mut message, 1, item.as_slice()).expect(rt, "memory");
    message
}

/// Asserts that a message is kept whose chain has so many bytes.
fn is_kept(rt: &impl Abort, alloc: Global, len: usize) {
    let message = message_of_chain(rt, alloc, len);
    let bytes = answer_with(rt, alloc, message.as_slice(), "nothing");
    let frame = message_frame(rt, alloc, message.as_slice());
    let mut link = link_of(rt, alloc, bytes);
    let mut sink = sink_of(rt, alloc, 10, 10_000_000);
    let got = keep(alloc, 1, &mut link, &mut sink);
    assert_eq!(rt; got, status::DONE, "of {len}");
    assert!(rt; sink.bytes() == frame.as_slice(), "of {len}");
}

#[test]
fn long_messages_are_kept(rt: HostRuntime) {
    for len in [1_000, 65_536, 4_000_000] {
        is_kept(&rt, rt.alloc(), len);
    }
}
