use output_parts::Output;
use std::alloc::{AllocGlobal, Global};
use std::process::Abort;
use wl_octets::{Octets, Shared};

const HEAD: [u8; 9] = *b"the head ";

fn message(rt: &impl Abort, alloc: Global) -> Shared<Octets> {
    let bytes = Octets::from_slice(alloc, b"0123456789").expect(rt, "memory");
    match Shared::new(alloc, bytes) {
        Ok(message) => message,
        Err(_) => panic!(rt; "no memory"),
    }
}

/// Own bytes, a frame with part of a message, another one right after it, and own bytes again.
fn sample(rt: &impl Abort, alloc: Global) -> Output {
    let message = message(rt, alloc);
    let mut out = Output::empty(alloc);
    out.push_slice(b"first ").expect(rt, "memory");
    let again = message.share().expect(rt, "an owner");
    out.push_frame(HEAD, again, 2, 3).expect(rt, "memory");
    out.push_frame(HEAD, message, 8, 100).expect(rt, "memory");
    out.push_slice(b" last").expect(rt, "memory");
    out
}

const SAMPLE: &[u8] = b"first the head 234the head 89 last";

#[test]
fn all_bytes_in_order(rt: HostRuntime) {
    let alloc = rt.alloc();
    let out = sample(&rt, alloc);
    assert_eq!(rt; out.len(), SAMPLE.len());
    assert!(rt; out.lends() && out.as_plain().is_none());
    let bytes = out.into_octets(alloc).expect(&rt, "memory");
    assert_eq!(rt; bytes.as_slice(), SAMPLE);
}

/// Whether a copy from this place on, into so much room, has what is due and nothing more.
fn copies_right(out: &Output, start: usize, room: usize) -> bool {
    let mut lent = [b'-'; 40];
    let (into, rest) = lent.split_at_mut(room.min(40));
    let count = out.copy_from(start, into);
    let due = SAMPLE.split_at(start.min(SAMPLE.len())).1;
    let (copied, left) = into.split_at(count);
    due.starts_with(copied)
        && (left.is_empty() || count == due.len())
        && rest.starts_with(b"-") == (room < 40)
}

/// From places within each part, into rooms that end within each.
#[test]
fn copies(rt: HostRuntime) {
    let out = sample(&rt, rt.alloc());
    let cases = [
        (0, 0),
        (0, 4),
        (0, 11),
        (0, 35),
        (0, 40),
        (3, 5),
        (6, 9),
        (8, 20),
        (16, 3),
        (17, 18),
        (20, 13),
        (32, 40),
        (35, 5),
        (36, 5),
    ];
    for (start, room) in cases {
        assert!(rt; copies_right(&out, start, room), "{start}, {room}");
    }
}

/// Whether what is left to send stays the same, once pieces among the first so many bytes are let go.
fn lets_go(out: Output, sent: usize) -> bool {
    let mut out = out;
    let left = out.let_go(sent);
    let mut lent = [0; 40];
    let count = out.copy_from(left, &mut lent);
    lent.split_at(count).0 == SAMPLE.split_at(sent.min(SAMPLE.len())).1
}

#[test]
fn let_go(rt: HostRuntime) {
    for sent in [0, 5, 6, 17, 18, 19, 29, 30, 35] {
        assert!(rt; lets_go(sample(&rt, rt.alloc()), sent), "{sent}");
    }
}

#[test]
fn plain_and_cleared(rt: HostRuntime) {
    let mut out = sample(&rt, rt.alloc());
    let left = out.let_go(SAMPLE.len() - 5);
    assert_eq!(rt; left, 0);
    assert_eq!(rt; out.as_plain(), Some(b" last".as_slice()));
    let out = out.cleared();
    assert!(rt; out.len() == 0 && !out.lends());
    assert_eq!(rt; out.as_plain(), Some(b"".as_slice()));
}
