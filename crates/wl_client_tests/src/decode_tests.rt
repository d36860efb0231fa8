use pb_wire::{FieldFault, WireFault};
use std::alloc::Global;
use std::process::Abort;
use wl_client::*;
use wl_octets::{Octets, Row};
use workload_proto as proto;
use workload_proto::{encode_jwt, encode_x509, size_jwt, size_x509};

/// Asserts the fields of an SVID: its id, its chain, its key, its bundle and its hint.
fn is_svid(rt: &impl Abort, svid: &X509Item<'_>, fields: [&[u8]; 5]) {
    let [spiffe_id, chain, key, bundle, hint] = fields;
    assert_eq!(rt; svid.spiffe_id.as_slice(), spiffe_id);
    assert_eq!(rt; svid.chain.as_slice(), chain);
    assert_eq!(rt; svid.key.as_slice(), key);
    assert_eq!(rt; svid.bundle.as_slice(), bundle);
    assert_eq!(rt; svid.hint.as_slice(), hint);
}

/// Asserts the key and the value of an item of a map.
fn is_item(rt: &impl Abort, item: &MapItem<'_>, key: &[u8], value: &[u8]) {
    assert_eq!(rt; item.key.as_slice(), key);
    assert_eq!(rt; item.value.as_slice(), value);
}

#[test]
fn responses_are_read(rt: HostRuntime) {
    let bytes = b"\x0a\x19\x0a\x0espiffe://a.b/w\x12\x01\x01\x1a\x01\x02\x22\x01\x03";
    let message = decode_x509(rt.alloc(), bytes).expect(&rt, "a response");
    match message.svids.as_slice() {
        [svid] => is_svid(
            &rt,
            svid,
            [b"spiffe://a.b/w", b"\x01", b"\x02", b"\x03", b""],
        ),
        _ => panic!(rt; "it has one SVID"),
    }
    assert_eq!(rt; message.federated.len(), 0);
    drop(message);
}

fn text(rt: &impl Abort, alloc: Global, bytes: &[u8]) -> Octets {
    Octets::from_slice(alloc, bytes).expect(rt, "memory")
}

fn put_svid(rt: &impl Abort, alloc: Global, svids: &mut Row<proto::X509Item>, name: &[u8]) {
    let pushed = svids.push(proto::X509Item {
        spiffe_id: text(rt, alloc, name),
        chain: text(rt, alloc, b"\xff\x00"),
        key: text(rt, alloc, b""),
        bundle: text(rt, alloc, name),
        hint: text(rt, alloc, b"h"),
    });
    assert!(rt; pushed.is_ok());
}

fn put_item(rt: &impl Abort, alloc: Global, items: &mut Row<proto::MapItem>, name: &[u8]) {
    let pushed = items.push(proto::MapItem {
        key: text(rt, alloc, name),
        value: text(rt, alloc, b"\xfe"),
    });
    assert!(rt; pushed.is_ok());
}

const NAMES: [&[u8]; 3] = [b"a", b"bc", b""];

/// A message with an SVID and a federated bundle of each name, encoded.
fn encoded(rt: &impl Abort, alloc: Global) -> Octets {
    let mut svids = Row::empty(alloc);
    let mut federated = Row::empty(alloc);
    for name in NAMES {
        put_svid(rt, alloc, &mut svids, name);
        put_item(rt, alloc, &mut federated, name);
    }
    let message = proto::X509Response { svids, federated };
    assert_eq!(rt; size_x509(&message), 65);
    let bytes = encode_x509(alloc, &message).expect(rt, "memory");
    drop(message);
    bytes
}

/// Asserts that a message has an SVID and a federated bundle of each name.
fn are_as_encoded(rt: &impl Abort, read: &X509Response<'_>) {
    let counts = (read.svids.len(), read.federated.len());
    assert_eq!(rt; counts, (NAMES.len(), NAMES.len()));
    for (svid, name) in read.svids.as_slice().iter().zip(NAMES) {
        is_svid(rt, svid, [name, b"\xff\x00", b"", name, b"h"]);
    }
    for (item, name) in read.federated.as_slice().iter().zip(NAMES) {
        is_item(rt, item, name, b"\xfe");
    }
}

#[test]
fn what_is_encoded_is_read(rt: HostRuntime) {
    let alloc = rt.alloc();
    let bytes = encoded(&rt, alloc);
    let read = decode_x509(alloc, bytes.as_slice()).expect(&rt, "a response");
    are_as_encoded(&rt, &read);
    assert!(rt; decode_x509(alloc, bytes.as_slice()).ok() == Some(read));
}

/// A message with one token, encoded.
fn encoded_token(rt: &impl Abort, alloc: Global) -> Octets {
    let mut svids = Row::empty(alloc);
    let pushed = svids.push(proto::JwtItem {
        spiffe_id: text(rt, alloc, b"a"),
        svid: text(rt, alloc, b"t.t.t"),
        hint: text(rt, alloc, b""),
    });
    assert!(rt; pushed.is_ok());
    let message = proto::JwtResponse { svids };
    assert_eq!(rt; size_jwt(&message), 12);
    let bytes = encode_jwt(alloc, &message).expect(rt, "memory");
    drop(message);
    bytes
}

/// Asserts that a message has that token alone.
fn is_token(rt: &impl Abort, read: &JwtResponse<'_>) {
    match read.svids.as_slice() {
        [svid] => {
            assert_eq!(rt; svid.spiffe_id.as_slice(), b"a".as_slice());
            assert_eq!(rt; svid.svid.as_slice(), b"t.t.t".as_slice());
            assert_eq!(rt; svid.hint.len(), 0);
        }
        _ => panic!(rt; "it has one SVID"),
    }
}

#[test]
fn tokens_are_read(rt: HostRuntime) {
    let alloc = rt.alloc();
    let bytes = encoded_token(&rt, alloc);
    let read = decode_jwt(alloc, bytes.as_slice()).expect(&rt, "a response");
    is_token(&rt, &read);
    assert!(rt; decode_jwt(alloc, bytes.as_slice()).ok() == Some(read));
}

#[test]
fn the_last_value_stands(rt: HostRuntime) {
    // an unknown field, a key twice, an empty item, `crl` of any bytes, and a map item without a value
    let bytes =
        b"\x0a\x0c\x0a\x01a\x1a\x01k\x1a\x02kk\x30\x05\x0a\x00\x12\x01\xff\x1a\x03\x0a\x01d\x20\x01";
    let message = decode_x509(rt.alloc(), bytes).expect(&rt, "a response");
    match (message.svids.as_slice(), message.federated.as_slice()) {
        ([first, second], [item]) => {
            is_svid(&rt, first, [b"a", b"", b"kk", b"", b""]);
            is_svid(&rt, second, [b"", b"", b"", b"", b""]);
            is_item(&rt, item, b"d", b"");
        }
        _ => panic!(rt; "it has two SVIDs and one item"),
    }
    drop(message);
}

#[test]
fn other_bytes_are_refused(rt: HostRuntime) {
    let alloc = rt.alloc();
    let table: [(&[u8], FieldFault); 9] = [
        (b"\x08\x01", FieldFault::FieldKind(1)),
        (b"\x10\x01", FieldFault::FieldKind(2)),
        (b"\x1d\x00\x00\x00\x00", FieldFault::FieldKind(3)),
        (b"\x0b", FieldFault::Wire(WireFault::WireKind(0))),
        // the places in an SVID are its own
        (
            b"\x0a\x02\x0a\x05",
            FieldFault::Wire(WireFault::Truncated(1)),
        ),
        (b"\x0a\x03\x0a\x01\xff", FieldFault::NotUtf8(1)),
        (b"\x0a\x03\x2a\x01\xff", FieldFault::NotUtf8(5)),
        (b"\x0a\x02\x10\x01", FieldFault::FieldKind(2)),
        (b"\x1a\x03\x0a\x01\xff", FieldFault::NotUtf8(1)),
    ];
    for (bytes, fault) in table {
        let found = decode_x509(alloc, bytes).err();
        assert!(rt; found == Some(fault), "of {bytes:?}");
    }
}

#[test]
fn other_bytes_of_tokens_are_refused(rt: HostRuntime) {
    let alloc = rt.alloc();
    let table: [(&[u8], FieldFault); 3] = [
        (b"\x08\x01", FieldFault::FieldKind(1)),
        (b"\x0a\x03\x12\x01\xff", FieldFault::NotUtf8(2)),
        (b"\x0a\x03\x1a\x01\xff", FieldFault::NotUtf8(3)),
    ];
    for (bytes, fault) in table {
        let found = decode_jwt(alloc, bytes).err();
        assert!(rt; found == Some(fault), "of {bytes:?}");
    }
}

#[test]
fn states_are_read(rt: HostRuntime) {
    let table: [(&[u8], Result<u64, FieldFault>); 6] = [
        (b"", Ok(0)),
        (b"\x08\x01", Ok(1)),
        (b"\x08\x01\x12\x01x\x08\x03", Ok(3)),
        (
            b"\x08\xff\xff\xff\xff\xff\xff\xff\xff\xff\x01",
            Ok(u64::MAX),
        ),
        (b"\x0a\x01x", Err(FieldFault::FieldKind(1))),
        (b"\x08", Err(FieldFault::Wire(WireFault::Truncated(1)))),
    ];
    for (bytes, want) in table {
        assert_eq!(rt; decode_state(bytes), want, "of {bytes:?}");
    }
}
