//! What is as large as it may be: an ask, a message, a header block, a list of SVIDs.

use crate::tests::{HEAD, hear};
use grpc_wire::Method;
use hpack::HpackFault;
use std::alloc::Global;
use std::process::Abort;
use wl_client::*;
use wl_octets::{Octets, Row};

/// The longest payload of a frame.
const FRAME_LEN: u32 = 16_384;

/// The longest message of a response.
const MESSAGE_LEN: u32 = 4_194_304;

/// An SVID of a message: its id, a chain, a key and a bundle.
const SVID: &[u8] = b"\x0a\x19\x0a\x0espiffe://a.b/w\x12\x01\x01\x1a\x01\x02\x22\x01\x03";

fn put(rt: &impl Abort, out: &mut Octets, bytes: &[u8]) {
    out.push_slice(bytes).expect(rt, "memory");
}

/// So many bytes of this value.
fn filled(rt: &impl Abort, alloc: Global, byte: u8, len: u32) -> Octets {
    Octets::from_vec(Vec::from_elem(alloc, byte, len as usize).expect(rt, "memory"))
}

/// Puts a frame of stream 1 after the others: so many bytes of this value.
fn put_frame(rt: &impl Abort, alloc: Global, out: &mut Octets, kind: u8, byte: u8, len: u32) {
    let [_, high, middle, low] = len.to_be_bytes();
    put(rt, out, &[high, middle, low, kind, 0, 0, 0, 0, 1]);
    put(rt, out, filled(rt, alloc, byte, len).as_slice());
}

/// DATA of a message of so many bytes `m`, in frames that are as long as they may be.
fn put_long_message(rt: &impl Abort, alloc: Global, out: &mut Octets, len: u32) {
    put(rt, out, b"\x00\x00\x05\x00\x00\x00\x00\x00\x01\x00");
    put(rt, out, &len.to_be_bytes());
    for _ in 0..len / FRAME_LEN {
        put_frame(rt, alloc, out, 0, b'm', FRAME_LEN);
    }
    if len % FRAME_LEN > 0 {
        put_frame(rt, alloc, out, 0, b'm', len % FRAME_LEN);
    }
}

/// Asks with a message of so many bytes, at most 16,000.
fn ask(rt: &impl Abort, alloc: Global, len: u32) {
    let message = filled(rt, alloc, 7, len);
    assert!(rt; message.len() <= 16_000);
    let client = Client::start(alloc, Method::X509Svid, message.as_slice()).expect(rt, "memory");
    // The preface, SETTINGS, the head, and DATA with the prefix and the message.
    let front = 24 + 9 + 9 + 0x68 + 9 + 5;
    assert_eq!(rt; client.opening().len(), front + message.len());
    assert!(rt; client.opening().ends_with(message.as_slice()));
}

#[test]
fn the_longest_ask_is_made(rt: HostRuntime) {
    for len in [0, 64, 65, 1_000, 16_000] {
        ask(&rt, rt.alloc(), len);
    }
}

/// Asserts that what was heard is a head and a message of so many bytes `m`.
fn are_heard(rt: &impl Abort, told: &[Heard], len: u32) {
    match told {
        [_, Heard::Message(message)] => {
            assert_eq!(rt; message.len(), len as usize, "of {len}");
            assert!(rt;
                message.as_slice().iter().all(|byte| *byte == b'm'),
                "of {len}"
            );
        }
        _ => panic!(rt; "no message of {len}"),
    }
}

/// Hears a message of so many bytes, in pieces of this length.
fn hear_message(rt: &impl Abort, alloc: Global, len: u32, piece: usize) {
    let mut bytes = Octets::from_slice(alloc, HEAD).expect(rt, "memory");
    put_long_message(rt, alloc, &mut bytes, len);
    let mut out = Octets::empty(alloc);
    let mut told = Row::empty(alloc);
    let met = hear(rt, alloc, bytes.as_slice(), piece, &mut out, &mut told);
    assert_eq!(rt; met, None, "of {len} by {piece}");
    are_heard(rt, told.as_slice(), len);
}

#[test]
fn long_messages_are_heard(rt: HostRuntime) {
    for (len, piece) in [
        (1_024, 1),
        (1_025, 100),
        (16_380, 7),
        (100_000, 4_096),
        (MESSAGE_LEN - 1, 65_536),
        (MESSAGE_LEN, 1_000_000),
        (MESSAGE_LEN, 10_000),
    ] {
        hear_message(&rt, rt.alloc(), len, piece);
    }
}

/// A header block of so many frames of 16,384 bytes that isn't whole, and then one of so many bytes.
fn block(rt: &impl Abort, alloc: Global, frames: u32, more: u32) -> Octets {
    let mut bytes = Octets::empty(alloc);
    put_frame(rt, alloc, &mut bytes, 1, 0x88, FRAME_LEN);
    for _ in 1..frames {
        put_frame(rt, alloc, &mut bytes, 9, 0x88, FRAME_LEN);
    }
    put_frame(rt, alloc, &mut bytes, 9, 0x88, more);
    bytes
}

/// Hears a header block.
fn hear_block(rt: &impl Abort, alloc: Global, bytes: &[u8], fault: Option<ClientFault>, why: &str) {
    for piece in [1_000, 1_000_000] {
        let mut out = Octets::empty(alloc);
        let mut told = Row::empty(alloc);
        let met = hear(rt, alloc, bytes, piece, &mut out, &mut told);
        assert_eq!(rt; met, fault, "of {why}");
        assert_eq!(rt; told.len(), 0, "of {why}");
    }
}

#[test]
fn header_blocks_are_bounded(rt: HostRuntime) {
    let fault = ClientFault::Header(HpackFault::ListTooLong);
    // 64 frames of 16,384 bytes are 1,048,576; then no byte, or one more.
    for (frames, more, fault, why) in [
        (1, 1, None, "16,385 bytes"),
        (63, FRAME_LEN, None, "64 frames"),
        (64, 0, None, "64 frames and an empty one"),
        (64, 1, Some(fault), "a byte too much"),
        (63, FRAME_LEN - 1, None, "a byte less"),
    ] {
        let bytes = block(&rt, rt.alloc(), frames, more);
        hear_block(&rt, rt.alloc(), bytes.as_slice(), fault, why);
    }
}

/// Reads a message of so many SVIDs.
fn read_svids(rt: &impl Abort, alloc: Global, count: usize) {
    let mut message = Octets::empty(alloc);
    for _ in 0..count {
        put(rt, &mut message, SVID);
    }
    let read = decode_x509(alloc, message.as_slice()).expect(rt, "a response");
    assert_eq!(rt; read.svids.len(), count);
    for svid in read.svids.as_slice() {
        assert_eq!(rt; svid.spiffe_id.as_slice(), b"spiffe://a.b/w".as_slice());
        assert_eq!(rt; svid.bundle.as_slice(), b"\x03".as_slice());
    }
    drop(read);
}

#[test]
fn many_svids_are_read(rt: HostRuntime) {
    for count in [0, 1, 2, 3, 64, 1_000] {
        read_svids(&rt, rt.alloc(), count);
    }
}
