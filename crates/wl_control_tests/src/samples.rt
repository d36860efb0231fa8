//! What servers send, by name, and the bytes of a text.

use std::alloc::Global;
use std::process::Abort;
use wl_octets::Octets;

/// Frames by name: the length, the type, the flags, the stream and the payload, as `put_plain` reads them.
///
/// - `BEGUN`: the server's SETTINGS, its acknowledgement of the client's, and the head of an answer
/// - `SVID`: DATA of an `X509SVIDResponse` with one SVID
/// - `BUNDLES`: DATA of an `X509BundlesResponse` with a CRL and two bundles
/// - `TOKEN`: DATA of a `JWTSVIDResponse` with one token
/// - `SERVING`, `NOT_SERVING`, `UNKNOWN`: DATA of a `HealthCheckResponse`
/// - `FINE`: the trailers of status 0
/// - `REFUSED`: a refusal as the whole answer
/// - `X509_TWO`: DATA of an `X509SVIDResponse` with two SVIDs and a federated bundle, whose certificates are SEQUENCEs of a
///   few bytes; `X509_FRAME`: its message as a frame of gRPC
/// - `BUNDLES_TWO`: DATA of an `X509BundlesResponse` with two bundles
/// - `JWT_BUNDLES`: DATA of a `JWTBundlesResponse`
/// - `JWT_ONE`: DATA of a `JWTSVIDResponse`
/// - `NO_SVID`: DATA of an `X509SVIDResponse` with a federated bundle alone
const NAMES: &str = r#"
BEGUN 00000c.04.00.00000000.000300000010000600004000 000000.04.01.00000000 000014.01.04.00000001.880f1010'application/grpc'
SVID 000020.00.00.00000001.000000001b0a190a0e'spiffe://a.b/w'1201011a0102220103
BUNDLES 00002c.00.00.00000001.00000000270a010912100a0b'spiffe://a.'12010312100a0b'spiffe://b.'1201ab
TOKEN 00001a.00.00.00000001.00000000150a130a0e'spiffe://a.b/w'120174
SERVING 000007.00.00.00000001.00000000020801
NOT_SERVING 000007.00.00.00000001.00000000020802
UNKNOWN 000007.00.00.00000001.00000000020803
FINE 00000f.01.05.00000001.000b'grpc-status'0130
REFUSED 000044.01.05.00000001.880f1010'application/grpc'000b'grpc-status'0137000c'grpc-message'12'no identity issued'
X509_TWO 00006a.00.00.00000001.00000000650a290a0e'spiffe://a.b/w'1207300302010530001a033001092204308101072a036822310a210a0e'spiffe://a.b/x'120230001a0330010922063081010730001a150a0c'spiffe://c.d'12053003020105
BUNDLES_TWO 000034.00.00.00000001.000000002f12190a0c'spiffe://a.b'120930030201053081010712120a0c'spiffe://c.d'12023000
JWT_BUNDLES 000022.00.00.00000001.000000001d0a1b0a0c'spiffe://a.b'120b'{"keys":[]}'
JWT_ONE 00001e.00.00.00000001.00000000190a170a0e'spiffe://a.b/w'1205742e752e76
X509_FRAME 00000000650a290a0e'spiffe://a.b/w'1207300302010530001a033001092204308101072a036822310a210a0e'spiffe://a.b/x'120230001a0330010922063081010730001a150a0c'spiffe://c.d'12053003020105
NO_SVID 00001c.00.00.00000001.00000000171a150a0c'spiffe://c.d'12053003020105
nothing .
"#;

/// What a name stands for; what is no name, for itself.
fn meaning_of(part: &str) -> &str {
    for line in NAMES.lines() {
        if let Some((name, meaning)) = line.split_once(' ')
            && name == part
        {
            return meaning;
        }
    }
    part
}

/// Puts these bytes after the others.
pub fn put(rt: &impl Abort, out: &mut Octets, bytes: &[u8]) {
    out.push_slice(bytes).expect(rt, "memory");
}

/// Puts the bytes of hexadecimal digits, of which two are a byte, after the others. Dots and spaces say nothing.
fn put_digits(rt: &impl Abort, out: &mut Octets, digits: &str) {
    let mut high = None;
    for digit in digits.chars() {
        match (digit.to_digit(16), high) {
            (None, _) => assert!(rt; digit == '.' || digit == ' ', "no digit: {digits}"),
            (Some(value), None) => high = Some(value),
            (Some(value), Some(upper)) => {
                let byte = u8::try_from(upper.wrapping_mul(16).wrapping_add(value));
                put(rt, out, &[byte.expect(rt, "a byte")]);
                high = None;
            }
        }
    }
    assert!(rt; high.is_none(), "half a byte: {digits}");
}

/// Puts the bytes of a text after the others: between two `'` stand bytes as they are, and elsewhere hexadecimal digits.
fn put_plain(rt: &impl Abort, out: &mut Octets, text: &str) {
    let mut is_quoted = false;
    for part in text.split('\'') {
        if is_quoted {
            put(rt, out, part.as_bytes());
        } else {
            put_digits(rt, out, part);
        }
        is_quoted = !is_quoted;
    }
}

/// The bytes of names and texts, with ` + ` between two of them.
pub fn bytes_of(rt: &impl Abort, alloc: Global, parts: &str) -> Octets {
    let mut out = Octets::empty(alloc);
    for part in parts.split(" + ") {
        put_plain(rt, &mut out, meaning_of(part));
    }
    out
}

/// How many bytes the payload of a frame has at most.
const FRAME_LEN: usize = 16_384;

/// Puts DATA after the others, in frames that are as long as they may be.
fn put_data(rt: &impl Abort, out: &mut Octets, bytes: &[u8]) {
    for part in bytes.chunks(FRAME_LEN) {
        let size = (part.len() as u32).to_be_bytes();
        put(rt, out, &[size[1], size[2], size[3], 0, 0, 0, 0, 0, 1]);
        put(rt, out, part);
    }
}

/// A message as a frame of gRPC.
pub fn message_frame(rt: &impl Abort, alloc: Global, message: &[u8]) -> Octets {
    let len = u32::try_from(message.len()).unwrap_or(u32::MAX);
    joined(rt, alloc, &[b"\x00", &len.to_be_bytes(), message])
}

/// An answer: `BEGUN`, DATA of a message, and what these parts say.
pub fn answer_with(rt: &impl Abort, alloc: Global, message: &[u8], end: &str) -> Octets {
    let mut out = bytes_of(rt, alloc, "BEGUN");
    let frame = message_frame(rt, alloc, message);
    put_data(rt, &mut out, frame.as_slice());
    put(rt, &mut out, bytes_of(rt, alloc, end).as_slice());
    out
}

/// These parts, one after the other.
pub fn joined(rt: &impl Abort, alloc: Global, parts: &[&[u8]]) -> Octets {
    let mut out = Octets::empty(alloc);
    for part in parts {
        put(rt, &mut out, part);
    }
    out
}
