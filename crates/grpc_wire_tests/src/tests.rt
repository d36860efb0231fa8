use grpc_wire::*;
use std::alloc::Global;
use std::test::Fail;
use wl_octets::{Header, Memory, Octets, Row};

/// A field, from its name, a space and its value.
fn field(alloc: Global, text: &[u8]) -> Result<Header, Memory> {
    let (name, value) = match text.iter().position(|byte| *byte == b' ') {
        Some(at) => (&text[..at], &text[at + 1..]),
        None => (text, text),
    };
    Ok(Header {
        name: Octets::from_slice(alloc, name)?,
        value: Octets::from_slice(alloc, value)?,
    })
}

/// A header list, whose fields are parted by bars.
fn list(alloc: Global, text: &str) -> Result<Row<Header>, Memory> {
    let mut headers = Row::empty(alloc);
    for part in text.as_bytes().split(|byte| *byte == b'|') {
        headers.push(field(alloc, part)?)?;
    }
    Ok(headers)
}

fn has_fields(alloc: Global, fields: &Row<Header>, text: &str) -> Result<bool, Memory> {
    Ok(*fields == list(alloc, text)?)
}

/// What the heads below begin with.
const SECURE: &str =
    ":method POST|:scheme http|:path /SpiffeWorkloadAPI/FetchX509SVID|content-type application/grpc|workload.spiffe.io true";

/// Heads in the forms of grpc-go, grpc-python, node, grpc-java, tonic and Envoy, and the six paths.
#[test]
fn heads_of_calls(rt: HostRuntime) -> Result<(), Fail> {
    for (text, method) in [
        (SECURE, Method::X509Svid),
        (
            ":method POST|:scheme http|:path /SpiffeWorkloadAPI/FetchX509SVID|:authority localhost|content-type application/grpc|user-agent grpc-go/1.64.0|te trailers|grpc-timeout 9S|workload.spiffe.io true",
            Method::X509Svid,
        ),
        (
            ":scheme http|:path /SpiffeWorkloadAPI/FetchX509Bundles|:method POST|:authority localhost|te trailers|content-type application/grpc|user-agent grpc-python/1.64.1 grpc-c/41.0.0 (linux; chttp2)|grpc-accept-encoding identity, deflate, gzip|workload.spiffe.io true",
            Method::X509Bundles,
        ),
        (
            ":authority localhost|:method POST|:path /SpiffeWorkloadAPI/FetchJWTBundles|:scheme http|workload.spiffe.io true|grpc-accept-encoding identity,deflate,gzip|accept-encoding identity|user-agent grpc-node-js/1.10.9|content-type application/grpc|te trailers",
            Method::JwtBundles,
        ),
        (
            ":method POST|:scheme http|:path /SpiffeWorkloadAPI/FetchJWTSVID|content-type application/grpc+proto|grpc-encoding identity|workload.spiffe.io true",
            Method::JwtSvid,
        ),
        (
            ":authority localhost|:path /SpiffeWorkloadAPI/FetchX509SVID|:method POST|:scheme http|content-type application/grpc|te trailers|user-agent grpc-java-netty/1.64.0|workload.spiffe.io true|grpc-accept-encoding gzip",
            Method::X509Svid,
        ),
        (
            ":method POST|:scheme http|:authority localhost|:path /SpiffeWorkloadAPI/FetchJWTSVID|te trailers|content-type application/grpc|workload.spiffe.io true|user-agent tonic/0.12.1",
            Method::JwtSvid,
        ),
        (
            ":method POST|:path /SpiffeWorkloadAPI/FetchX509Bundles|:authority spire_agent|:scheme http|te trailers|content-type application/grpc|workload.spiffe.io true|x-envoy-internal true|x-forwarded-for 10.0.0.1|grpc-timeout 250m",
            Method::X509Bundles,
        ),
        (
            ":method POST|:scheme http|:path /grpc.health.v1.Health/Check|content-type application/grpc",
            Method::HealthCheck,
        ),
        (
            ":method POST|:scheme http|:path /grpc.health.v1.Health/Watch|content-type application/grpc|workload.spiffe.io false",
            Method::HealthWatch,
        ),
    ] {
        let headers = list(rt.alloc(), text)?;
        assert_eq!(rt;
            judge_head(headers.as_slice()),
            HeadVerdict::Call(method),
            "{text}"
        );
    }
    Ok(())
}

/// Each case of the verdict, and which one decides where two apply.
#[test]
fn refused_heads(rt: HostRuntime) -> Result<(), Fail> {
    for (text, refusal) in [
        (":method GET|:scheme http|:path /a", Refusal::BadMethod),
        (":method post|:scheme http|:path /a", Refusal::BadMethod),
        (":method CONNECT|:scheme http|:path /a", Refusal::BadMethod),
        (":method POST|:scheme http|:path /a", Refusal::BadContent),
        (
            ":method POST|:scheme http|:path /a|content-type text/plain",
            Refusal::BadContent,
        ),
        (
            ":method POST|:scheme http|:path /a|content-type application/grp",
            Refusal::BadContent,
        ),
        (
            ":method POST|:scheme http|:path /a|content-type application/grpc|content-type application/grpc",
            Refusal::BadContent,
        ),
        (
            ":method POST|:scheme http|:path /a|content-type application/grpc",
            Refusal::UnknownPath,
        ),
        (
            ":method POST|:scheme http|:path /SpiffeWorkloadAPI/ValidateJWTSVID|content-type application/grpc|grpc-encoding gzip",
            Refusal::UnknownPath,
        ),
        (
            ":method POST|:scheme http|:path /SpiffeWorkloadAPI/FetchX509SVID/|content-type application/grpc",
            Refusal::UnknownPath,
        ),
        (
            ":method POST|:scheme http|:path /SpiffeWorkloadAPI/FetchX509SVID|content-type application/grpc|grpc-encoding gzip",
            Refusal::Compressed,
        ),
        (
            ":method POST|:scheme http|:path /grpc.health.v1.Health/Check|content-type application/grpc|grpc-encoding identity|grpc-encoding Identity",
            Refusal::Compressed,
        ),
        (
            ":method POST|:scheme http|:path /SpiffeWorkloadAPI/FetchX509SVID|content-type application/grpc",
            Refusal::Insecure,
        ),
        (
            ":method POST|:scheme http|:path /SpiffeWorkloadAPI/FetchX509Bundles|content-type application/grpc|workload.spiffe.io false",
            Refusal::Insecure,
        ),
        (
            ":method POST|:scheme http|:path /SpiffeWorkloadAPI/FetchJWTBundles|content-type application/grpc|workload.spiffe.io True",
            Refusal::Insecure,
        ),
        (
            ":method POST|:scheme http|:path /SpiffeWorkloadAPI/FetchJWTSVID|content-type application/grpc|workload.spiffe.io true|workload.spiffe.io true",
            Refusal::Insecure,
        ),
    ] {
        let headers = list(rt.alloc(), text)?;
        assert_eq!(rt;
            judge_head(headers.as_slice()),
            HeadVerdict::Refused(refusal),
            "{text}"
        );
    }
    Ok(())
}

#[test]
fn malformed_heads(rt: HostRuntime) -> Result<(), Fail> {
    for end in [
        "Workload.spiffe.io true",
        ":method GET",
        ":status 200",
        "connection close",
        "te gzip",
    ] {
        let mut headers = list(rt.alloc(), SECURE)?;
        let _ = headers.push(field(rt.alloc(), end.as_bytes())?);
        assert_eq!(rt; headers.len(), 6);
        assert_eq!(rt;
            judge_head(headers.as_slice()),
            HeadVerdict::Malformed,
            "{end}"
        );
    }
    assert_eq!(rt; judge_head(&[]), HeadVerdict::Malformed);
    Ok(())
}

/// The statuses and texts, and the header lists that say them.
#[test]
fn refusals(rt: HostRuntime) -> Result<(), Fail> {
    let alloc = rt.alloc();
    for (refusal, fields) in [
        (Refusal::BadMethod, ":status 405"),
        (Refusal::BadContent, ":status 415"),
        (
            Refusal::UnknownPath,
            "grpc-status 12|grpc-message unknown method",
        ),
        (
            Refusal::Compressed,
            "grpc-status 12|grpc-message compression is not supported",
        ),
        (
            Refusal::Insecure,
            "grpc-status 3|grpc-message security header missing from request",
        ),
        (
            Refusal::Flag,
            "grpc-status 13|grpc-message invalid message flag",
        ),
        (
            Refusal::LongRequest,
            "grpc-status 8|grpc-message request message too long",
        ),
        (
            Refusal::Count,
            "grpc-status 13|grpc-message request must hold one message",
        ),
        (
            Refusal::Undecodable,
            "grpc-status 13|grpc-message request message cannot be decoded",
        ),
        (
            Refusal::NoAudience,
            "grpc-status 3|grpc-message audience must be specified",
        ),
        (
            Refusal::BadId,
            "grpc-status 3|grpc-message spiffe id is not valid",
        ),
        (
            Refusal::NoIdentity,
            "grpc-status 7|grpc-message no identity issued",
        ),
        (
            Refusal::LongResponse,
            "grpc-status 8|grpc-message response message too long",
        ),
        (
            Refusal::Unsigned,
            "grpc-status 14|grpc-message jwt-svid cannot be signed",
        ),
        (
            Refusal::Unattested,
            "grpc-status 14|grpc-message caller cannot be attested",
        ),
        (
            Refusal::UnknownService,
            "grpc-status 5|grpc-message unknown service",
        ),
    ] {
        let told = refusal_fields(alloc, refusal, false)?;
        assert!(rt; has_fields(alloc, &told, fields)?, "{fields}");
    }
    let alone = refusal_fields(alloc, Refusal::Insecure, true)?;
    assert!(rt;
        has_fields(
            alloc,
            &alone,
            ":status 200|content-type application/grpc|grpc-status 3|grpc-message security header missing from request"
        )?
    );
    let http = refusal_fields(alloc, Refusal::BadContent, true)?;
    assert!(rt; has_fields(alloc, &http, ":status 415")?);
    Ok(())
}

#[test]
fn message_cutting(rt: HostRuntime) -> Result<(), Fail> {
    let alloc = rt.alloc();
    let mut messages = Messages::start(alloc, 32_768);
    let mut cut = Row::empty(alloc);
    assert_eq!(rt;
        messages.feed(alloc, &[0, 0, 0, 0, 1, 0xff], &mut cut),
        Ok(())
    );
    assert_eq!(rt; cut.len(), 1);
    assert!(rt;
        cut.get(0)
            .is_some_and(|message| message.as_slice() == [0xff].as_slice())
    );
    assert_eq!(rt;
        messages.feed(alloc, &[2], &mut cut),
        Err(MessageFault::Flag(2))
    );
    assert_eq!(rt;
        messages.feed(alloc, &[], &mut cut),
        Err(MessageFault::Flag(2))
    );
    assert_eq!(rt; cut.len(), 1);
    assert_eq!(rt; messages.rest(), 0);
    Ok(())
}

/// What a body of two messages, one empty, and the start of a third gives, in pieces of each length.
#[test]
fn pieces_of_each_length(rt: HostRuntime) -> Result<(), Fail> {
    let alloc = rt.alloc();
    let body = [0, 0, 0, 0, 3, 7, 8, 9, 0, 0, 0, 0, 0, 0, 0, 0, 0, 2, 5];
    for length in 1..body.len() + 1 {
        let mut messages = Messages::start(alloc, 3);
        let mut cut = Row::empty(alloc);
        for piece in body.chunks(length) {
            assert_eq!(rt; messages.feed(alloc, piece, &mut cut), Ok(()), "{length}");
        }
        assert_eq!(rt; cut.len(), 2, "{length}");
        assert!(rt;
            cut.get(0)
                .is_some_and(|message| message.as_slice() == [7, 8, 9].as_slice())
        );
        assert!(rt;
            cut.get(1)
                .is_some_and(|message| message.as_slice().is_empty())
        );
        assert_eq!(rt; messages.rest(), 6, "{length}");
    }
    Ok(())
}

/// The faults, each at the byte that has it.
#[test]
fn faults_of_messages(rt: HostRuntime) -> Result<(), Fail> {
    let alloc = rt.alloc();
    let mut cut = Row::empty(alloc);
    for (limit, body, fault) in [
        (32_768, [1, 0, 0, 0, 0], MessageFault::Flag(1)),
        (32_768, [0, 0, 0, 0x80, 1], MessageFault::TooLong(32_769)),
        (0, [0, 0, 0, 0, 1], MessageFault::TooLong(1)),
        (
            0x8000_0000,
            [0, 0x80, 0, 0, 1],
            MessageFault::TooLong(0x8000_0001),
        ),
        (
            4,
            [0, 0xff, 0xff, 0xff, 0xff],
            MessageFault::TooLong(0xffff_ffff),
        ),
    ] {
        let mut messages = Messages::start(alloc, limit);
        assert_eq!(rt; messages.feed(alloc, &body, &mut cut), Err(fault));
        let mut bytewise = Messages::start(alloc, limit);
        let mut last = Ok(());
        for byte in body.chunks(1) {
            last = bytewise.feed(alloc, byte, &mut cut);
        }
        assert_eq!(rt; last, Err(fault));
    }
    assert_eq!(rt; cut.len(), 0);
    assert_eq!(rt; judge_prefix(32_768, &[0, 0, 0, 0x80, 0]), Ok(Some(32_768)));
    assert_eq!(rt; judge_prefix(0, &[0, 0, 0, 0]), Ok(None));
    assert_eq!(rt; judge_prefix(0, &[]), Ok(None));
    Ok(())
}

#[test]
fn message_writing(rt: HostRuntime) -> Result<(), Fail> {
    let alloc = rt.alloc();
    let mut out = Octets::empty(alloc);
    put_message(&mut out, &[0xff])?;
    assert_eq!(rt; out.as_slice(), [0, 0, 0, 0, 1, 0xff].as_slice());
    put_message(&mut out, &[])?;
    assert_eq!(rt;
        out.as_slice(),
        [0, 0, 0, 0, 1, 0xff, 0, 0, 0, 0, 0].as_slice()
    );
    let head = response_head(alloc)?;
    assert!(rt; has_fields(alloc, &head, ":status 200|content-type application/grpc")?);
    let ended = trailers(alloc, 0, b"", false)?;
    assert!(rt; has_fields(alloc, &ended, "grpc-status 0")?);
    Ok(())
}

/// Percent-encoding outside space to tilde, and of the percent sign.
#[test]
fn escaped_texts(rt: HostRuntime) -> Result<(), Fail> {
    let alloc = rt.alloc();
    let ended = trailers(
        alloc,
        4_294_967_295,
        " ~%\u{1f}\u{7f}\n\u{fc}".as_bytes(),
        true,
    )?;
    assert!(rt;
        has_fields(
            alloc,
            &ended,
            ":status 200|content-type application/grpc|grpc-status 4294967295|grpc-message  ~%25%1F%7F%0A%C3%BC"
        )?
    );
    Ok(())
}

#[test]
fn methods(rt: HostRuntime) {
    assert_eq!(rt;
        Method::from_path(Method::JwtSvid.path()),
        Some(Method::JwtSvid)
    );
    assert_eq!(rt;
        Method::from_path(b"/SpiffeWorkloadAPI/FetchJWTSVID"),
        Some(Method::JwtSvid)
    );
    assert_eq!(rt; Method::from_path(b""), None);
    assert!(rt; Method::HealthWatch.is_health());
    assert!(rt; !Method::X509Svid.is_health());
    assert_eq!(rt;
        Refusal::Insecure.text(),
        "security header missing from request"
    );
}

/// A message of 4 MiB, in pieces of 16,384 bytes.
#[test]
fn long_message(rt: HostRuntime) -> Result<(), Fail> {
    let alloc = rt.alloc();
    let mut messages = Messages::start(alloc, 4_194_304);
    let mut cut = Row::empty(alloc);
    assert_eq!(rt;
        messages.feed(alloc, &message_prefix(4_194_304), &mut cut),
        Ok(())
    );
    let piece = vec![in alloc; 7u8; 16_384]?;
    for _ in 0..256 {
        assert_eq!(rt; cut.len(), 0);
        assert_eq!(rt; messages.feed(alloc, piece.as_slice(), &mut cut), Ok(()));
    }
    assert_eq!(rt; messages.rest(), 0);
    assert!(rt; cut.get(0).is_some_and(|message| message.len() == 4_194_304));
    Ok(())
}
