use pb_wire::*;
use std::test::*;

#[test]
fn numbers_are_written(rt: HostRuntime) -> Result<(), Fail> {
    let table: [(u64, &[u8]); 7] = [
        (0, &[0x00]),
        (1, &[0x01]),
        (127, &[0x7f]),
        (128, &[0x80, 0x01]),
        (150, &[0x96, 0x01]),
        (300, &[0xac, 0x02]),
        (
            u64::MAX,
            &[0xff, 0xff, 0xff, 0xff, 0xff, 0xff, 0xff, 0xff, 0xff, 0x01],
        ),
    ];
    for (value, want) in table {
        let mut out = Vec::new(rt.alloc());
        put_varint(&mut out, value).ok().ok_or("there is memory")?;
        assert_eq!(rt; out.as_slice(), want, "of {value}");
        assert_eq!(rt; size_of_varint(value), want.len(), "of {value}");
    }
    Ok(())
}

#[test]
fn fields_are_written(rt: HostRuntime) -> Result<(), Fail> {
    let mut out = Vec::new(rt.alloc());
    put_bytes(&mut out, 1, &[2]).ok().ok_or("there is memory")?;
    assert_eq!(rt; out.as_slice(), [0x0a, 0x01, 0x02].as_slice());
    assert_eq!(rt; size_of_bytes(1, 1), 3);
    put_head(&mut out, 16, 300).ok().ok_or("there is memory")?;
    assert_eq!(rt;
        out.as_slice(),
        [0x0a, 0x01, 0x02, 0x82, 0x01, 0xac, 0x02].as_slice()
    );
    Ok(())
}

#[test]
fn fields_are_read(rt: HostRuntime) {
    let bytes: [u8; 36] = [
        0x08, 0x96, 0x01, // 1: 150
        0x12, 0x02, 0x68, 0x69, // 2: "hi"
        0x19, 1, 0, 0, 0, 0, 0, 0, 0x80, // 3: eight bytes
        0x25, 2, 0, 0, 0, // 4: four bytes
        0xf8, 0xff, 0xff, 0xff, 0x0f, 0x80, 0x00, // 536,870,911: 0 in two bytes
        0x0a, 0x00, // 1: nothing
        0x80, 0x80, 0x04, 0x07, 0x01, 0x02,
    ];
    let table = [
        (0, 1, Value::Varint(150), 3),
        (3, 2, Value::Span { from: 5, len: 2 }, 7),
        (7, 3, Value::Eight(0x8000_0000_0000_0001), 16),
        (16, 4, Value::Four(2), 21),
        (21, 536_870_911, Value::Varint(0), 28),
        (28, 1, Value::Span { from: 30, len: 0 }, 30),
        (30, 8192, Value::Varint(7), 34),
    ];
    for (at, number, value, next) in table {
        assert!(rt; at < bytes.len());
        assert_eq!(rt;
            read_field(&bytes, at),
            Ok(Field {
                number,
                value,
                next
            }),
            "at {at}"
        );
    }
    assert_eq!(rt;
        Value::Span { from: 5, len: 2 }.content(&bytes),
        Some(b"hi".as_slice())
    );
    assert_eq!(rt; Value::Four(2).content(&bytes), None);
    for (at, text) in [
        (3, Ok(b"hi".as_slice())),
        (16, Err(FieldFault::FieldKind(4))),
        (28, Ok(b"".as_slice())),
    ] {
        assert!(rt; at < bytes.len());
        match read_field(&bytes, at) {
            Ok(field) => assert_eq!(rt; field.text(&bytes), text, "at {at}"),
            Err(_) => assert!(rt; false, "at {at}"),
        }
    }
}

#[test]
fn faults_are_told(rt: HostRuntime) {
    let table: [(&[u8], WireFault); 16] = [
        (&[0x80], WireFault::Truncated(0)),
        (&[0x0b], WireFault::WireKind(0)),
        (&[0x0c], WireFault::WireKind(0)),
        (&[0x0e], WireFault::WireKind(0)),
        (&[0x0f], WireFault::WireKind(0)),
        (&[0x00], WireFault::Number(0)),
        (&[0x03], WireFault::Number(0)),
        (&[0x80, 0x80, 0x80, 0x80, 0x10], WireFault::Number(0)),
        (
            &[0x80, 0x80, 0x80, 0x80, 0x80, 0x80, 0x80, 0x80, 0x80, 0x02],
            WireFault::VarintLong(0),
        ),
        (
            &[
                0x08, 0x80, 0x80, 0x80, 0x80, 0x80, 0x80, 0x80, 0x80, 0x80, 0x02,
            ],
            WireFault::VarintLong(1),
        ),
        (
            &[0x08, 0x80, 0x80, 0x80, 0x80, 0x80, 0x80, 0x80, 0x80, 0x80],
            WireFault::Truncated(1),
        ),
        (&[0x08], WireFault::Truncated(1)),
        (&[0x09, 0, 0, 0, 0, 0, 0, 0], WireFault::Truncated(1)),
        (&[0x0d, 0, 0, 0], WireFault::Truncated(1)),
        (&[0x0a, 0x02, 0x68], WireFault::Truncated(1)),
        (&[0x8a, 0x00, 0x80], WireFault::Truncated(2)),
    ];
    for (bytes, fault) in table {
        assert!(rt; !bytes.is_empty());
        assert_eq!(rt; read_field(bytes, 0), Err(fault), "of {bytes:?}");
    }
}
