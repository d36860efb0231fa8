use std::test::*;
use svid_forms::split;

#[test]
fn values_end_where_their_length_says(rt: HostRuntime) -> Result<(), Fail> {
    let alloc = rt.alloc();
    // So many values, or none where the bytes are no such values (ITU-T X.690, 8.1.3).
    let table: [(&[u8], Option<usize>); 14] = [
        (b"", Some(0)),
        (b"\x30\x00", Some(1)),
        (b"\x30\x01\x05\x30\x00", Some(2)),
        (b"\x30\x81\x02\x05\x00", Some(1)),
        (b"\x30\x82\x00\x01\x05\x30\x00\x30\x00", Some(3)),
        (b"\x30\x83\x00\x00\x01\x05", Some(1)),
        (b"\x30", None),
        (b"\x30\x01", None),
        (b"\x30\x01\x05\x05", None),
        (b"\x31\x00", None),
        (b"\x30\x80\x00\x00", None),
        (b"\x30\x82\x01", None),
        (b"\x30\x84\x00\x00\x00\x01\x05", None),
        (b"\x30\x82\x01\x00\x05", None),
    ];
    for (bytes, count) in table {
        let found = split(alloc, bytes)?;
        assert_eq!(rt; found.map(|parts| parts.len()), count, "of {bytes:?}");
    }
    Ok(())
}
