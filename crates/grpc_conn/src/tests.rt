ghost use Rattle.std.specs.Prelude.{◌<◌};

use crate::*;
use grpc_wire::{Method, Refusal};
use spiffe_id::SpiffeId;
use std::alloc::Global;
use std::test::Fail;
use wl_octets::{Header, Memory, Octets, Row};

/// A field, from its name, a space and its value.
fn field(alloc: Global, text: &[u8]) -> Result<Header, Memory> {
    let (name, value) = match text.iter().position(|byte| *byte == b' ') {
        Some(at) => (&text[..at], &text[at + 1..]),
        None => (text, text),
    };
    Ok(Header {
        name: Octets::from_slice(alloc, name)?,
        value: Octets::from_slice(alloc, value)?,
    })
}

/// A header list, whose fields are parted by bars.
fn list(alloc: Global, text: &str) -> Result<Row<Header>, Memory> {
    let mut headers = Row::empty(alloc);
    for part in text.as_bytes().split(|byte| *byte == b'|') {
        headers.push(field(alloc, part)?)?;
    }
    Ok(headers)
}

const X509: &str =
    ":method POST|:scheme http|:path /SpiffeWorkloadAPI/FetchX509SVID|content-type application/grpc|te trailers|workload.spiffe.io true";

const JWT: &str =
    ":method POST|:scheme http|:path /SpiffeWorkloadAPI/FetchJWTSVID|content-type application/grpc|workload.spiffe.io true";

const HEALTH: &str =
    ":method POST|:scheme http|:path /grpc.health.v1.Health/Check|content-type application/grpc";

/// What a call comes to whose body comes in pieces of this length, and after how many of its bytes.
fn verdict_of(
    alloc: Global,
    head: &str,
    body: &[u8],
    length: usize,
    ends: bool,
) -> Result<(CallEvent, usize), Memory>
    requires { 0 < length }
{
    let mut calls = Calls::start(alloc)?;
    let headers = list(alloc, head)?;
    let mut told = (
        calls.head(alloc, 1, headers.as_slice(), ends && body.is_empty())?,
        0,
    );
    let mut fed: usize = 0;
    for piece in body.chunks(length) {
        fed = fed.saturating_add(piece.len());
        let event = calls.body(alloc, 1, piece, ends && fed == body.len())?;
        if event.is_decided() {
            told = (event, fed);
        }
    }
    Ok(told)
}

/// The end of the piece, of pieces of this length, in which the byte before this place lies.
fn end_of_piece(at: usize, length: usize, end: usize) -> usize {
    let mut place: usize = 0;
    for _ in 0..end {
        if place < at {
            place = place.saturating_add(length);
        }
    }
    place.min(end)
}

/// Each case of the verdict on a body, at the byte that shows it, however the body is cut.
#[test]
fn refused_bodies(rt: HostRuntime) -> Result<(), Fail> {
    let alloc = rt.alloc();
    for (head, body, ends, at, refusal) in [
        (X509, b"\x01".as_slice(), false, 1, Refusal::Flag),
        (X509, b"\xff\0\0\x80\x01", true, 1, Refusal::Flag),
        (HEALTH, b"\0\0\0\x80\x01", false, 5, Refusal::LongRequest),
        (X509, b"\0\xff\xff\xff\xff\0", true, 5, Refusal::LongRequest),
        (X509, b"\0\0\0\0\0\0", false, 6, Refusal::Count),
        (JWT, b"\0\0\0\0\x03\x0a\x01x\x01", false, 9, Refusal::Count),
        (X509, b"", true, 0, Refusal::Count),
        (X509, b"\0", true, 1, Refusal::Count),
        (X509, b"\0\0\0\0", true, 4, Refusal::Count),
        (X509, b"\0\0\0\0\x02\x08", true, 6, Refusal::Count),
        (X509, b"\0\0\0\0\x01\x0b", true, 6, Refusal::Undecodable),
        (JWT, b"\0\0\0\0\x02\x08\x01", true, 7, Refusal::Undecodable),
        (
            JWT,
            b"\0\0\0\0\x03\x0a\x01\xff",
            true,
            8,
            Refusal::Undecodable,
        ),
        (
            HEALTH,
            b"\0\0\0\0\x03\x0a\x01\xff",
            true,
            8,
            Refusal::Undecodable,
        ),
        (JWT, b"\0\0\0\0\0", true, 5, Refusal::NoAudience),
        (JWT, b"\0\0\0\0\x03\x12\x01x", true, 8, Refusal::NoAudience),
        (
            JWT,
            b"\0\0\0\0\x06\x0a\x01x\x12\x01x",
            true,
            11,
            Refusal::BadId,
        ),
    ] {
        for length in 1..12 {
            let (event, when) = verdict_of(alloc, head, body, length, ends)?;
            assert!(rt; event == CallEvent::Refuse(refusal), "{body:?} by {length}");
            assert_eq!(rt;
                when,
                end_of_piece(at, length, body.len()),
                "{body:?} by {length}"
            );
        }
    }
    Ok(())
}

/// Whether a call whose body comes in pieces of each length is ready with this message and this request.
fn is_ready(
    alloc: Global,
    head: &str,
    body: &[u8],
    method: Method,
    request: &Request,
) -> Result<bool, Memory> {
    for length in 1..12 {
        let (event, when) = verdict_of(alloc, head, body, length, true)?;
        let CallEvent::Ready {
            method: called,
            message,
            request: said,
        } = event
        else {
            return Ok(false);
        };
        let is_message = match body {
            [_, _, _, _, _, rest @ ..] => message.as_slice() == rest,
            _ => false,
        };
        if when != body.len() || called != method || said != *request || !is_message {
            return Ok(false);
        }
    }
    Ok(true)
}

/// Whether a health check with this body is ready, for this service.
fn is_check_ready(alloc: Global, body: &[u8], service: &[u8]) -> Result<bool, Memory> {
    let service = Request::Health(Octets::from_slice(alloc, service)?);
    is_ready(alloc, HEALTH, body, Method::HealthCheck, &service)
}

#[test]
fn ready_calls(rt: HostRuntime) -> Result<(), Fail> {
    for body in [b"\0\0\0\0\0".as_slice(), b"\0\0\0\0\x02\x08\x01"] {
        assert!(rt; is_ready(rt.alloc(), X509, body, Method::X509Svid, &Request::Plain)?);
    }
    Ok(())
}

#[test]
fn ready_jwt_calls(rt: HostRuntime) -> Result<(), Fail> {
    let jwt = jwt_request(rt.alloc())?;
    let body = b"\0\0\0\0\x13\x0a\x01x\x12\x0espiffe://a.b/w";
    assert!(rt; is_ready(rt.alloc(), JWT, body, Method::JwtSvid, &jwt)?);
    Ok(())
}

#[test]
fn ready_checks(rt: HostRuntime) -> Result<(), Fail> {
    assert!(rt; is_check_ready(rt.alloc(), b"\0\0\0\0\x03\x0a\x01x", b"x")?);
    assert!(rt; is_check_ready(rt.alloc(), b"\0\0\0\0\0", b"")?);
    Ok(())
}

fn audiences(alloc: Global, names: &[&[u8]]) -> Result<Row<Octets>, Memory> {
    let mut audience = Row::empty(alloc);
    for name in names {
        audience.push(Octets::from_slice(alloc, name)?)?;
    }
    Ok(audience)
}

/// A request for an audience `x` and the id `spiffe://a.b/w`.
fn jwt_request(alloc: Global) -> Result<Request, Fail> {
    let id = Some(SpiffeId::parse(alloc, b"spiffe://a.b/w")?);
    Ok(Request::Jwt {
        audience: audiences(alloc, &[b"x"])?,
        id,
    })
}

/// What a head that the request doesn't end with comes to.
fn verdict_on(alloc: Global, head: &str) -> Result<CallEvent, Memory> {
    let mut calls = Calls::start(alloc)?;
    let headers = list(alloc, head)?;
    calls.head(alloc, 1, headers.as_slice(), false)
}

/// The two calls of the connection's worked examples: the first is refused with its head, whatever its body.
#[test]
fn call_verdicts(rt: HostRuntime) -> Result<(), Fail> {
    let alloc = rt.alloc();
    let insecure =
        ":method POST|:scheme http|:path /SpiffeWorkloadAPI/FetchX509SVID|:authority localhost|content-type application/grpc|te trailers";
    let (event, when) = verdict_of(alloc, insecure, b"\0\0\0\0\0", 1, true)?;
    assert!(rt; event == CallEvent::Refuse(Refusal::Insecure));
    assert_eq!(rt; when, 0);
    let secure =
        ":method POST|:scheme http|:path /SpiffeWorkloadAPI/FetchX509SVID|:authority localhost|content-type application/grpc|te trailers|workload.spiffe.io true";
    assert!(rt;
        is_ready(
            alloc,
            secure,
            b"\0\0\0\0\0",
            Method::X509Svid,
            &Request::Plain
        )?
    );
    Ok(())
}

/// Each refusal of a head, told at once, and nothing told of its body.
#[test]
fn head_refusals(rt: HostRuntime) -> Result<(), Fail> {
    let alloc = rt.alloc();
    for (head, refusal) in [
        (
            ":method GET|:scheme http|:path /SpiffeWorkloadAPI/FetchX509SVID|content-type application/grpc|workload.spiffe.io true",
            Refusal::BadMethod,
        ),
        (
            ":method POST|:scheme http|:path /SpiffeWorkloadAPI/FetchX509SVID|content-type text/plain|workload.spiffe.io true",
            Refusal::BadContent,
        ),
        (
            ":method POST|:scheme http|:path /SpiffeWorkloadAPI/FetchX509SVID|workload.spiffe.io true",
            Refusal::BadContent,
        ),
        (
            ":method POST|:scheme http|:path /SpiffeWorkloadAPI/ValidateJWTSVID|content-type application/grpc|workload.spiffe.io true",
            Refusal::UnknownPath,
        ),
        (
            ":method POST|:scheme http|:path /SpiffeWorkloadAPI/FetchX509SVID|content-type application/grpc|grpc-encoding gzip|workload.spiffe.io true",
            Refusal::Compressed,
        ),
        (
            ":method POST|:scheme http|:path /SpiffeWorkloadAPI/FetchX509SVID|content-type application/grpc",
            Refusal::Insecure,
        ),
        (
            ":method POST|:scheme http|:path /SpiffeWorkloadAPI/FetchX509SVID|content-type application/grpc|workload.spiffe.io true|workload.spiffe.io true",
            Refusal::Insecure,
        ),
        (
            ":method POST|:scheme http|:path /SpiffeWorkloadAPI/FetchJWTSVID|content-type application/grpc|workload.spiffe.io TRUE",
            Refusal::Insecure,
        ),
        (
            ":method POST|:scheme http|:path /SpiffeWorkloadAPI/FetchJWTBundles|content-type application/grpc|workload.spiffe.io ",
            Refusal::Insecure,
        ),
    ] {
        let (event, when) = verdict_of(alloc, head, b"\0\0\0\0\0\x01", 1, true)?;
        assert!(rt; event == CallEvent::Refuse(refusal), "{head}");
        assert_eq!(rt; when, 0);
    }
    for head in [
        ":method POST|:scheme http",
        ":method POST|:scheme http|:path /SpiffeWorkloadAPI/FetchX509SVID|content-type application/grpc|Workload.Spiffe.io true",
    ] {
        assert!(rt; verdict_on(alloc, head)? == CallEvent::Malformed, "{head}");
    }
    Ok(())
}

/// The fields of a head, of which the last is no pseudo-header.
const FIELDS: [&[u8]; 5] = [
    b":method POST",
    b":scheme http",
    b":path /grpc.health.v1.Health/Check",
    b":authority localhost",
    b"content-type application/grpc",
];

/// A head's fields in one of their 120 orders, and whether the pseudo-headers stand first.
fn in_order(alloc: Global, number: usize) -> Result<(Row<Header>, bool), Memory> {
    let mut left = vec![in alloc; 0usize, 1, 2, 3, 4]?;
    let mut headers = Row::empty(alloc);
    let mut choice = number;
    let mut is_last = false;
    for count in [5usize, 4, 3, 2, 1] {
        let at = choice % count;
        choice /= count;
        if at < left.len() {
            let place = left.remove(at);
            if place < FIELDS.len() {
                headers.push(field(alloc, FIELDS[place])?)?;
                is_last = place == 4;
            }
        }
    }
    Ok((headers, is_last))
}

/// Pseudo-headers may stand in any order, and not after another field.
#[test]
fn orders_of_a_head(rt: HostRuntime) -> Result<(), Fail> {
    let alloc = rt.alloc();
    let mut good: u32 = 0;
    for number in 0..120 {
        let (headers, is_last) = in_order(alloc, number)?;
        assert_eq!(rt; headers.len(), 5);
        let mut calls = Calls::start(alloc)?;
        let event = calls.head(alloc, 1, headers.as_slice(), false)?;
        let due = if is_last {
            CallEvent::Nothing
        } else {
            CallEvent::Malformed
        };
        assert!(rt; event == due, "{number}");
        good = good.saturating_add(u32::from(is_last));
    }
    assert_eq!(rt; good, 24);
    Ok(())
}

/// Heads in the forms of grpc-go, grpc-python, node, grpc-java, tonic and Envoy, on each of the six paths.
#[test]
fn heads_of_clients(rt: HostRuntime) -> Result<(), Fail> {
    let alloc = rt.alloc();
    for (head, method) in [
        (
            ":method POST|:scheme http|:path /SpiffeWorkloadAPI/FetchX509SVID|:authority localhost|content-type application/grpc|user-agent grpc-go/1.64.0|te trailers|grpc-timeout 9S|workload.spiffe.io true",
            Method::X509Svid,
        ),
        (
            ":scheme http|:path /SpiffeWorkloadAPI/FetchX509Bundles|:method POST|:authority localhost|te trailers|content-type application/grpc|user-agent grpc-python/1.64.1 grpc-c/41.0.0 (linux; chttp2)|grpc-accept-encoding identity, deflate, gzip|workload.spiffe.io true",
            Method::X509Bundles,
        ),
        (
            ":authority localhost|:method POST|:path /SpiffeWorkloadAPI/FetchJWTBundles|:scheme http|workload.spiffe.io true|grpc-accept-encoding identity,deflate,gzip|accept-encoding identity|user-agent grpc-node-js/1.10.9|content-type application/grpc|te trailers",
            Method::JwtBundles,
        ),
        (
            ":authority localhost|:path /SpiffeWorkloadAPI/FetchX509SVID|:method POST|:scheme http|content-type application/grpc|te trailers|user-agent grpc-java-netty/1.64.0|workload.spiffe.io true|grpc-accept-encoding gzip",
            Method::X509Svid,
        ),
        (
            ":method POST|:scheme http|:authority localhost|:path /SpiffeWorkloadAPI/FetchJWTBundles|te trailers|content-type application/grpc|workload.spiffe.io true|user-agent tonic/0.12.1",
            Method::JwtBundles,
        ),
        (
            ":method POST|:path /SpiffeWorkloadAPI/FetchX509Bundles|:authority spire_agent|:scheme http|te trailers|content-type application/grpc|workload.spiffe.io true|x-envoy-internal true|x-forwarded-for 10.0.0.1|grpc-timeout 250m",
            Method::X509Bundles,
        ),
    ] {
        assert!(rt;
            is_ready(alloc, head, b"\0\0\0\0\0", method, &Request::Plain)?,
            "{head}"
        );
    }
    let jwt =
        ":authority localhost|:method POST|:path /SpiffeWorkloadAPI/FetchJWTSVID|:scheme http|workload.spiffe.io true|grpc-accept-encoding identity,deflate,gzip|accept-encoding identity|user-agent grpc-node-js/1.10.9|content-type application/grpc|te trailers";
    let asked = Request::Jwt {
        audience: audiences(alloc, &[b"x", b"y"])?,
        id: None,
    };
    assert!(rt;
        is_ready(
            alloc,
            jwt,
            b"\0\0\0\0\x06\x0a\x01x\x0a\x01y",
            Method::JwtSvid,
            &asked
        )?
    );
    let watch =
        ":method POST|:scheme http|:path /grpc.health.v1.Health/Watch|:authority localhost|content-type application/grpc|user-agent grpc-go/1.64.0|te trailers";
    let service = Request::Health(Octets::from_slice(alloc, b"SpiffeWorkloadAPI")?);
    assert!(rt;
        is_ready(
            alloc,
            watch,
            b"\0\0\0\0\x13\x0a\x11SpiffeWorkloadAPI",
            Method::HealthWatch,
            &service
        )?
    );
    Ok(())
}

/// What a piece of a body comes to.
#[derive(Clone, Copy)]
enum Due {
    Nothing,
    /// A refusal by its flag.
    Flag,
    /// A call that is decided.
    Decided,
}

fn is_event(event: &CallEvent, due: Due) -> bool {
    match due {
        Due::Nothing => *event == CallEvent::Nothing,
        Due::Flag => *event == CallEvent::Refuse(Refusal::Flag),
        Due::Decided => event.is_decided(),
    }
}

/// Whether each of these pieces on these streams comes to what is due.
fn come_to(
    alloc: Global,
    calls: &mut Calls,
    pieces: &[(u32, &[u8], bool, Due)],
) -> Result<bool, Memory> {
    for (stream, piece, ends, due) in pieces {
        let event = calls.body(alloc, *stream, piece, *ends)?;
        if !is_event(&event, *due) {
            return Ok(false);
        }
    }
    Ok(true)
}

/// Whether a call begins with its head.
fn begins(alloc: Global, calls: &mut Calls, stream: u32) -> Result<bool, Memory> {
    let headers = list(alloc, X509)?;
    Ok(calls.head(alloc, stream, headers.as_slice(), false)? == CallEvent::Nothing)
}

/// The length of the message with which a call is ready, after these bytes and then zeros, a half of them at a time.
fn length_after(alloc: Global, calls: &mut Calls, start: &[u8]) -> Result<Option<usize>, Memory> {
    let half = vec![in alloc; 0u8; 16_382]?;
    let pieces = [
        (5, start, false, Due::Nothing),
        (5, half.as_slice(), false, Due::Nothing),
    ];
    if !come_to(alloc, calls, &pieces)? {
        return Ok(None);
    }
    match calls.body(alloc, 5, half.as_slice(), true)? {
        CallEvent::Ready {
            method: Method::X509Svid,
            message,
            ..
        } => Ok(Some(message.len())),
        _ => Ok(None),
    }
}

/// A message of the most bytes that a request may have: one unknown field.
#[test]
fn longest_request(rt: HostRuntime) -> Result<(), Fail> {
    let mut calls = Calls::start(rt.alloc())?;
    assert!(rt; begins(rt.alloc(), &mut calls, 5)?);
    let length = length_after(rt.alloc(), &mut calls, b"\0\0\0\x80\0\x7a\xfc\xff\x01")?;
    assert_eq!(rt; length, Some(32_768));
    Ok(())
}

const SIDE_BY_SIDE: [(u32, &[u8], bool, Due); 5] = [
    (1, b"\0\0", false, Due::Nothing),
    (3, b"\x01", false, Due::Flag),
    (3, b"\x01", true, Due::Nothing),
    (5, b"\x01", true, Due::Nothing),
    (1, b"\0\0\0", true, Due::Decided),
];

/// Two calls side by side, each told of its own bytes alone, and once.
#[test]
fn calls_side_by_side(rt: HostRuntime) -> Result<(), Fail> {
    let mut calls = Calls::start(rt.alloc())?;
    assert!(rt; begins(rt.alloc(), &mut calls, 1)? && begins(rt.alloc(), &mut calls, 3)?);
    assert!(rt; come_to(rt.alloc(), &mut calls, &SIDE_BY_SIDE)?);
    calls.gone(1);
    assert!(rt; come_to(rt.alloc(), &mut calls, &[(1, b"\x01", true, Due::Nothing)])?);
    Ok(())
}

/// Sixteen calls at once, each of which is then ready.
#[test]
fn sixteen_calls(rt: HostRuntime) -> Result<(), Fail> {
    let alloc = rt.alloc();
    let headers = list(alloc, X509)?;
    let mut calls = Calls::start(alloc)?;
    for number in 0..16 {
        assert!(rt;
            calls.head(alloc, 2 * number + 1, headers.as_slice(), false)? == CallEvent::Nothing
        );
    }
    for number in 0..16 {
        assert!(rt;
            calls
                .body(alloc, 2 * number + 1, b"\0\0\0\0\0", true)?
                .is_decided()
        );
    }
    Ok(())
}
