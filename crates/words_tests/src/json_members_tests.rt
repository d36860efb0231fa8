//! Which values are of which kind, and which bytes are JSON.

use json_members::*;
use std::alloc::Global;
use std::test::Fail;

/// What a lack is here.
#[derive(Clone, Copy, Debug, PartialEq, Eq)]
enum Lack {
    Absent,
    OtherKind,
}

/// Each value, and the first kind of object, text, number and array that it is.
#[test]
fn kinds(rt: HostRuntime) -> Result<(), Fail> {
    let alloc: Global = rt.alloc();
    for (text, wanted) in [
        ("{}", "object"),
        ("\"\"", "text"),
        ("0", "number"),
        ("18446744073709551615", "number"),
        ("[]", "array"),
        ("null", ""),
        ("true", ""),
        ("-1", ""),
        ("1.0", ""),
        ("18446744073709551616", ""),
    ] {
        let Some(value) = json_value(alloc, text.as_bytes())? else {
            panic!(rt; "{text} is JSON");
        };
        let is_object = object_at(Lack::OtherKind, &value) == Ok(());
        let is_text = text_at(Lack::OtherKind, &value).is_ok();
        let is_number = number_at(Lack::OtherKind, &value).is_ok();
        let is_array = array_at(Lack::OtherKind, &value).is_ok();
        assert_eq!(rt; is_object, wanted == "object", "{text}");
        assert_eq!(rt; is_text, wanted == "text", "{text}");
        assert_eq!(rt; is_number, wanted == "number", "{text}");
        assert_eq!(rt; is_array, wanted == "array", "{text}");
    }
    Ok(())
}

/// Members by their names: the last of equal ones, and none of a value that isn't an object.
#[test]
fn members(rt: HostRuntime) -> Result<(), Fail> {
    let alloc: Global = rt.alloc();
    for (text, name, wanted) in [
        ("{\"a\":1,\"b\":2}", "b", Ok(2)),
        ("{\"a\":1,\"a\":3}", "a", Ok(3)),
        ("{\"a\":\"1\"}", "a", Err(Lack::OtherKind)),
        ("{\"a\":1}", "c", Err(Lack::Absent)),
        ("[1]", "a", Err(Lack::Absent)),
    ] {
        let Some(value) = json_value(alloc, text.as_bytes())? else {
            panic!(rt; "{text} is JSON");
        };
        let found = match required(Lack::Absent, name, &value) {
            Ok(member) => number_at(Lack::OtherKind, member),
            Err(lack) => Err(lack),
        };
        assert_eq!(rt; found, wanted, "{text}");
    }
    Ok(())
}

/// Bytes that aren't JSON: broken, and not in UTF-8.
#[test]
fn no_json(rt: HostRuntime) -> Result<(), Fail> {
    let alloc: Global = rt.alloc();
    for bytes in [b"".as_slice(), b"{", b"[1,]", b"\"\xFF\""] {
        assert!(rt; json_value(alloc, bytes)?.is_none());
    }
    Ok(())
}
