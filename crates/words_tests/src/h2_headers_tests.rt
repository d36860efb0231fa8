use h2_headers::{are_well_formed_trailers, is_named, is_well_formed_head};
use std::alloc::Global;
use std::test::Fail;
use wl_octets::{Header, Memory, Octets, Row};

/// A field, from its name, a space and its value.
fn field(alloc: Global, text: &[u8]) -> Result<Header, Memory> {
    let (name, value) = match text.iter().position(|byte| *byte == b' ') {
        Some(at) => (&text[..at], &text[at + 1..]),
        None => (text, text),
    };
    Ok(Header {
        name: Octets::from_slice(alloc, name)?,
        value: Octets::from_slice(alloc, value)?,
    })
}

/// A header list, whose fields are parted by bars.
fn list(alloc: Global, text: &[u8]) -> Result<Row<Header>, Memory> {
    let mut headers = Row::empty(alloc);
    for part in text.split(|byte| *byte == b'|') {
        headers.push(field(alloc, part)?)?;
    }
    Ok(headers)
}

/// Heads as clients send them, and the rules' last good cases.
#[test]
fn good_heads(rt: HostRuntime) -> Result<(), Fail> {
    for text in [
        ":method POST|:scheme http|:path /a",
        ":path /a|:authority |:scheme |:method ",
        ":method POST|:scheme http|:path /SpiffeWorkloadAPI/FetchX509SVID|:authority localhost|content-type application/grpc|user-agent grpc-go/1.64.0|te trailers|grpc-timeout 9S|workload.spiffe.io true",
        ":scheme http|:method POST|:path /a|:authority unix%3A%2Ftmp%2Fa.sock|te trailers|content-type application/grpc|user-agent grpc-python/1.64.1 grpc-c/41.0.0 (linux; chttp2)|grpc-accept-encoding identity, deflate, gzip|workload.spiffe.io true",
        ":authority localhost|:method POST|:path /a|:scheme http|grpc-accept-encoding identity,deflate,gzip|accept-encoding identity|user-agent grpc-node-js/1.10.9|content-type application/grpc|te trailers",
        ":method CONNECT|:scheme http|:path /a|x \u{80}\u{ff}|x |!~ a b\tc",
    ] {
        assert!(rt;
            is_well_formed_head(list(rt.alloc(), text.as_bytes())?.as_slice()),
            "{text}"
        );
    }
    Ok(())
}

/// Each case of a malformed head.
#[test]
fn malformed_heads(rt: HostRuntime) -> Result<(), Fail> {
    for text in [
        "x y",
        ":scheme http|:path /a",
        ":method POST|:path /a",
        ":method POST|:scheme http",
        ":method POST|:scheme http|:path ",
        ":method POST|:method POST|:scheme http|:path /a",
        ":method POST|:scheme http|:scheme http|:path /a",
        ":method POST|:scheme http|:path /a|:path /a",
        ":method POST|:scheme http|:path /a|:authority a|:authority a",
        ":method POST|:scheme http|:path /a|:status 200",
        ":method POST|:scheme http|:path /a|:protocol websocket",
        ":method POST|:scheme http|:path /a|: a",
        ":method POST|:scheme http|x y|:path /a",
        ":method POST|:scheme http|:path /a|x y|:authority a",
        "x y|:method POST|:scheme http|:path /a",
        ":method CONNECT|:authority a:1",
    ] {
        assert!(rt;
            !is_well_formed_head(list(rt.alloc(), text.as_bytes())?.as_slice()),
            "{text}"
        );
    }
    Ok(())
}

/// Each case of a malformed field, in a head and in trailers.
#[test]
fn malformed_fields(rt: HostRuntime) -> Result<(), Fail> {
    let start = ":method POST|:scheme http|:path /a|";
    for text in [
        " a",
        "a\u{7f} a",
        "a\u{e9} a",
        "a\ta a",
        "Te trailers",
        "aZ a",
        "a:b a",
        "::a a",
        "a a\0",
        "a a\nb",
        "a a\rb",
        "a  a",
        "a \ta",
        "a a ",
        "a a\t",
        "a  ",
        "connection close",
        "proxy-connection a",
        "keep-alive a",
        "transfer-encoding chunked",
        "upgrade h2c",
        "te gzip",
        "te Trailers",
        "te ",
    ] {
        let trailers = list(rt.alloc(), text.as_bytes())?;
        assert!(rt; !are_well_formed_trailers(trailers.as_slice()), "{text}");
        let mut head = list(rt.alloc(), start.as_bytes())?;
        assert!(rt; head.len() == 4);
        let _ = head.remove(3);
        assert!(rt; is_well_formed_head(head.as_slice()));
        let _ = head.push(field(rt.alloc(), text.as_bytes())?);
        assert!(rt; head.len() == 4);
        assert!(rt; !is_well_formed_head(head.as_slice()), "{text}");
    }
    Ok(())
}

#[test]
fn trailers(rt: HostRuntime) -> Result<(), Fail> {
    for (text, good) in [
        ("grpc-status 0|te trailers", true),
        ("a b|a b", true),
        (":path /a", false),
        ("a b|:status 200", false),
        ("a b|te gzip", false),
    ] {
        let headers = list(rt.alloc(), text.as_bytes())?;
        assert_eq!(rt;
            are_well_formed_trailers(headers.as_slice()),
            good,
            "{text}"
        );
    }
    assert!(rt; are_well_formed_trailers(&[]));
    Ok(())
}

#[test]
fn names(rt: HostRuntime) -> Result<(), Fail> {
    let header = field(rt.alloc(), b"te trailers")?;
    assert!(rt; is_named(&header, b"te"));
    assert!(rt; !is_named(&header, b"t"));
    assert!(rt; !is_named(&header, b"trailers"));
    Ok(())
}
