use pb_wire::WireFault;
use std::test::*;
use wl_health::*;

// The bytes of the messages are those of `protoc` (tests/vectors/protobuf/vectors.sh).

#[test]
fn states_are_written(rt: HostRuntime) -> Result<(), Fail> {
    for (state, bytes) in [(1, [8, 1]), (2, [8, 2]), (3, [8, 3])] {
        assert_eq!(rt;
            encode_health(rt.alloc(), state)?.as_slice(),
            bytes.as_slice(),
            "of {state}"
        );
    }
    Ok(())
}

#[test]
fn requests_are_read(rt: HostRuntime) -> Result<(), Fail> {
    let table: [(&[u8], &[u8]); 6] = [
        (b"", b""),
        (b"\x0a\x01x", b"x"),
        (b"\x0a\x11SpiffeWorkloadAPI", b"SpiffeWorkloadAPI"),
        (b"\x0a\x01x\x0a\x02yz", b"yz"),
        (b"\x0a\x01x\x0a\x00", b""),
        (b"\x10\x01\x0a\x01x\x1a\x01\xff", b"x"),
    ];
    for (bytes, want) in table {
        match decode_health(rt.alloc(), bytes) {
            Ok(service) => assert_eq!(rt; service.as_slice(), want, "of {bytes:?}"),
            Err(_) => return Err(Fail::from("it is a request")),
        }
    }
    Ok(())
}

#[test]
fn requests_are_refused(rt: HostRuntime) {
    let table: [(&[u8], HealthFault); 6] = [
        (b"\x08\x01", HealthFault::FieldKind(1)),
        (b"\x0a\x01\xff", HealthFault::NotUtf8(1)),
        (b"\x0b", HealthFault::Wire(WireFault::WireKind(0))),
        (b"\x0a\x02x", HealthFault::Wire(WireFault::Truncated(1))),
        (b"\x0a\x01x\x0d\x00\x00\x00\x00", HealthFault::FieldKind(1)),
        (b"\x0a\x01\xff\x08\x01", HealthFault::NotUtf8(1)),
    ];
    for (bytes, fault) in table {
        assert!(rt;
            decode_health(rt.alloc(), bytes).err() == Some(fault),
            "of {bytes:?}"
        );
    }
}

#[test]
fn states_of_services(rt: HostRuntime) {
    let api = b"SpiffeWorkloadAPI".as_slice();
    let table: [(&[u8], bool, bool, u32); 7] = [
        (b"", true, true, 1),
        (b"", false, false, 1),
        (api, false, true, 1),
        (api, true, true, 2),
        (api, false, false, 2),
        (b"x", false, true, 3),
        (b"SpiffeWorkloadAP", false, true, 3),
    ];
    for (service, empty, whole, want) in table {
        assert_eq!(rt; state(service, empty, whole), want, "of {service:?}");
    }
}
