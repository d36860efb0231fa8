use pb_wire::WireFault;
use std::alloc::Global;
use std::test::*;
use wl_octets::{Memory, Octets, Row};
use workload_proto::*;

/// A map with these items.
fn map_of(alloc: Global, items: &[(&str, &[u8])]) -> Result<Row<MapItem>, Memory> {
    let mut map = Row::empty(alloc);
    for (key, value) in items {
        map.push(MapItem {
            key: Octets::from_slice(alloc, key.as_bytes())?,
            value: Octets::from_slice(alloc, value)?,
        })?;
    }
    Ok(map)
}

/// SVIDs of these ids, chains, keys, bundles and hints.
fn x509_svids(alloc: Global, items: &[[&[u8]; 5]]) -> Result<Row<X509Item>, Memory> {
    let mut svids = Row::empty(alloc);
    for item in items {
        svids.push(X509Item {
            spiffe_id: Octets::from_slice(alloc, item[0])?,
            chain: Octets::from_slice(alloc, item[1])?,
            key: Octets::from_slice(alloc, item[2])?,
            bundle: Octets::from_slice(alloc, item[3])?,
            hint: Octets::from_slice(alloc, item[4])?,
        })?;
    }
    Ok(svids)
}

/// Tokens of these ids, with these hints.
fn jwt_svids(alloc: Global, items: &[[&[u8]; 3]]) -> Result<Row<JwtItem>, Memory> {
    let mut svids = Row::empty(alloc);
    for item in items {
        svids.push(JwtItem {
            spiffe_id: Octets::from_slice(alloc, item[0])?,
            svid: Octets::from_slice(alloc, item[1])?,
            hint: Octets::from_slice(alloc, item[2])?,
        })?;
    }
    Ok(svids)
}

#[test]
fn empty_messages(rt: HostRuntime) -> Result<(), Fail> {
    let alloc = rt.alloc();
    let x509 = X509Response {
        svids: Row::empty(alloc),
        federated: Row::empty(alloc),
    };
    assert_eq!(rt; size_x509(&x509), 0);
    assert_eq!(rt; encode_x509(alloc, &x509)?.len(), 0);
    let bundles = BundlesResponse {
        bundles: Row::empty(alloc),
    };
    assert_eq!(rt; size_bundles(&bundles), 0);
    assert_eq!(rt; encode_bundles(alloc, &bundles)?.len(), 0);
    let jwt_bundles = JwtBundlesResponse {
        bundles: Row::empty(alloc),
    };
    assert_eq!(rt; size_jwt_bundles(&jwt_bundles), 0);
    assert_eq!(rt; encode_jwt_bundles(alloc, &jwt_bundles)?.len(), 0);
    let jwt = JwtResponse {
        svids: Row::empty(alloc),
    };
    assert_eq!(rt; size_jwt(&jwt), 0);
    assert_eq!(rt; encode_jwt(alloc, &jwt)?.len(), 0);
    Ok(())
}

#[test]
fn bundle_messages(rt: HostRuntime) -> Result<(), Fail> {
    let alloc = rt.alloc();
    let x509 = BundlesResponse {
        bundles: map_of(alloc, &[("spiffe://a.b", &[3])])?,
    };
    assert_eq!(rt; size_bundles(&x509), 19);
    assert_eq!(rt;
        encode_bundles(alloc, &x509)?.as_slice(),
        b"\x12\x11\x0a\x0cspiffe://a.b\x12\x01\x03".as_slice()
    );
    let jwt = JwtBundlesResponse {
        bundles: map_of(alloc, &[("spiffe://a.b", &[3])])?,
    };
    assert_eq!(rt; size_jwt_bundles(&jwt), 19);
    assert_eq!(rt;
        encode_jwt_bundles(alloc, &jwt)?.as_slice(),
        b"\x0a\x11\x0a\x0cspiffe://a.b\x12\x01\x03".as_slice()
    );
    assert_eq!(rt; map_item_size(1, 12, &[3]), 19);
    Ok(())
}

// The bytes below are those of `protoc` (tests/vectors/protobuf/vectors.sh).

#[test]
fn x509_as_protoc_writes_it(rt: HostRuntime) -> Result<(), Fail> {
    let alloc = rt.alloc();
    let svids = x509_svids(
        alloc,
        &[
            [b"spiffe://a.b/w", &[1, 2], &[3], &[4], b"internal"],
            [b"spiffe://a.b/x", &[5], &[], &[6], &[]],
            [&[], &[], &[], &[], &[]],
        ],
    )?;
    let federated = map_of(alloc, &[("spiffe://c.d", &[7, 8]), ("spiffe://e.f", &[])])?;
    let message = X509Response { svids, federated };
    let bytes =
        b"\x0a$\x0a\x0espiffe://a.b/w\x12\x02\x01\x02\x1a\x01\x03\x22\x01\x04*\x08internal\x0a\x16\x0a\x0espiffe://a.b/x\x12\x01\x05\x22\x01\x06\x0a\x00\x1a\x12\x0a\x0cspiffe://c.d\x12\x02\x07\x08\x1a\x10\x0a\x0cspiffe://e.f\x12\x00";
    assert_eq!(rt; size_x509(&message), bytes.len() as u64);
    assert_eq!(rt; encode_x509(alloc, &message)?.as_slice(), bytes.as_slice());
    assert_eq!(rt;
        x509_item_size(b"spiffe://a.b/w", &[1, 2], &[3], &[4], b"internal"),
        38
    );
    Ok(())
}

#[test]
fn others_as_protoc_writes_them(rt: HostRuntime) -> Result<(), Fail> {
    let alloc = rt.alloc();
    let bundles = BundlesResponse {
        bundles: map_of(alloc, &[("spiffe://a.b", &[1]), ("spiffe://c.d", &[2])])?,
    };
    let bytes = b"\x12\x11\x0a\x0cspiffe://a.b\x12\x01\x01\x12\x11\x0a\x0cspiffe://c.d\x12\x01\x02";
    assert_eq!(rt; size_bundles(&bundles), bytes.len() as u64);
    assert_eq!(rt;
        encode_bundles(alloc, &bundles)?.as_slice(),
        bytes.as_slice()
    );
    let bundles = JwtBundlesResponse {
        bundles: map_of(alloc, &[("spiffe://a.b", b"{}"), ("spiffe://c.d", &[])])?,
    };
    let bytes = b"\x0a\x12\x0a\x0cspiffe://a.b\x12\x02{}\x0a\x10\x0a\x0cspiffe://c.d\x12\x00";
    assert_eq!(rt; size_jwt_bundles(&bundles), bytes.len() as u64);
    assert_eq!(rt;
        encode_jwt_bundles(alloc, &bundles)?.as_slice(),
        bytes.as_slice()
    );
    let svids = jwt_svids(
        alloc,
        &[
            [b"spiffe://a.b/w", b"e30.e30.AA", b"internal"],
            [b"spiffe://a.b/x", b"e30.e30.AQ", &[]],
        ],
    )?;
    let message = JwtResponse { svids };
    let bytes =
        b"\x0a&\x0a\x0espiffe://a.b/w\x12\x0ae30.e30.AA\x1a\x08internal\x0a\x1c\x0a\x0espiffe://a.b/x\x12\x0ae30.e30.AQ";
    assert_eq!(rt; size_jwt(&message), bytes.len() as u64);
    assert_eq!(rt; encode_jwt(alloc, &message)?.as_slice(), bytes.as_slice());
    assert_eq!(rt;
        jwt_item_size(b"spiffe://a.b/w", b"e30.e30.AA", b"internal"),
        40
    );
    Ok(())
}

#[test]
fn requests_are_read(rt: HostRuntime) -> Result<(), Fail> {
    let table: [(&[u8], &[&[u8]], &[u8]); 6] = [
        (b"", &[], b""),
        (b"\x0a\x01x", &[b"x"], b""),
        // the last id stands
        (b"\x0a\x01x\x12\x03abc\x12\x00", &[b"x"], b""),
        // a longer form of 1 as a length
        (b"\x0a\x81\x00x", &[b"x"], b""),
        // as `protoc` writes them
        (
            b"\x0a\x03one\x0a\x00\x0a\x06zw\xc3\xb6lf\x12\x0espiffe://a.b/w",
            &[b"one", b"", b"zw\xc3\xb6lf"],
            b"spiffe://a.b/w",
        ),
        (
            b"\x0a\x03one\x0a\x03two\x12\x0espiffe://a.b/w\x18\xff\xff\xff\xff\xff\xff\xff\xff\xff\x01!\x01\x00\x00\x00\x00\x00\x00\x00-\x02\x00\x00\x00\x82\x01\x01\xff\xf8\xff\xff\xff\x0f\x01",
            &[b"one", b"two"],
            b"spiffe://a.b/w",
        ),
    ];
    for (bytes, audience, id) in table {
        let request = match decode_jwt_request(rt.alloc(), bytes) {
            Ok(request) => request,
            Err(_) => return Err(Fail::from("it is a request")),
        };
        assert_eq!(rt; request.spiffe_id.as_slice(), id, "of {bytes:?}");
        assert_eq!(rt; request.audience.len(), audience.len(), "of {bytes:?}");
        for (got, want) in request.audience.as_slice().iter().zip(audience) {
            assert_eq!(rt; got.as_slice(), *want, "of {bytes:?}");
        }
    }
    Ok(())
}

#[test]
fn requests_are_refused(rt: HostRuntime) {
    let table: [(&[u8], ProtoFault); 9] = [
        (b"\x08\x01", ProtoFault::FieldKind(1)),
        (b"\x0a\x01\xff", ProtoFault::NotUtf8(1)),
        (b"\x15\x01\x02\x03\x04", ProtoFault::FieldKind(2)),
        (b"\x12\x02\xc3\x28", ProtoFault::NotUtf8(2)),
        // a group, which the usual parsers skip
        (b"\x1b\x1c", ProtoFault::Wire(WireFault::WireKind(0))),
        (
            b"\x0a\x01x\x12\x05abc",
            ProtoFault::Wire(WireFault::Truncated(4)),
        ),
        // the first one counts
        (b"\x08\x01\x0a\x01\xff\x00", ProtoFault::FieldKind(1)),
        (b"\x0a\x01\xff\x08\x01", ProtoFault::NotUtf8(1)),
        // a field is judged once it was read whole
        (b"\x08\x80", ProtoFault::Wire(WireFault::Truncated(1))),
    ];
    for (bytes, fault) in table {
        assert!(rt;
            decode_jwt_request(rt.alloc(), bytes).err() == Some(fault),
            "of {bytes:?}"
        );
    }
}

#[test]
fn empty_requests(rt: HostRuntime) {
    let table: [(&[u8], Result<(), ProtoFault>); 6] = [
        (b"", Ok(())),
        (b"\x08\x01", Ok(())),
        (b"\x0a\x01\xff\x12\x00", Ok(())),
        (b"\x0b", Err(ProtoFault::Wire(WireFault::WireKind(0)))),
        (
            b"\x08\x01\x10",
            Err(ProtoFault::Wire(WireFault::Truncated(3))),
        ),
        (b"\x08\x01\x00", Err(ProtoFault::Wire(WireFault::Number(2)))),
    ];
    for (bytes, want) in table {
        assert_eq!(rt; decode_empty(bytes), want, "of {bytes:?}");
    }
}

/// 64 audiences are read, and 64 SVIDs written.
#[test]
fn sixty_four_items(rt: HostRuntime) -> Result<(), Fail> {
    let alloc = rt.alloc();
    let mut bytes = Vec::new(alloc);
    for _ in 0..64 {
        bytes.extend_from_slice(b"\x0a\x01x")?;
    }
    match decode_jwt_request(alloc, bytes.as_slice()) {
        Ok(request) => assert_eq!(rt; request.audience.len(), 64),
        Err(_) => return Err(Fail::from("it is a request")),
    }
    let items: [[&[u8]; 5]; 64] = [[b"i", b"c", b"k", b"b", b""]; 64];
    let response = X509Response {
        svids: x509_svids(alloc, &items)?,
        federated: Row::empty(alloc),
    };
    assert_eq!(rt; size_x509(&response), 64 * 14);
    assert_eq!(rt; encode_x509(alloc, &response)?.len(), 64 * 14);
    Ok(())
}
