//! Tokens: for one id, and with what they say.

use crate::samples::{answer_with, bytes_of};
use crate::scenes::*;
use grpc_wire::Method;
use pb_wire::put_bytes;
use std::alloc::Global;
use std::process::Abort;
use wl_client::Client;
use wl_control::{control, status};
use wl_octets::Octets;

/// Words, and the `JWTSVIDRequest`. What stands after the first `--` is an audience.
const ASKS: &str = "
fetch jwt x | 0a0178
fetch jwt x --id spiffe://a.b/w | 0a0178120e'spiffe://a.b/w'
fetch --id=spiffe://a.b/w jwt x y | 0a01780a0179120e'spiffe://a.b/w'
fetch jwt --decode x --id spiffe://a.b y | 0a01780a0179120c'spiffe://a.b'
fetch jwt --json -- --id | 0a042d2d6964
fetch jwt -- --decode | 0a08'--decode'
";

/// Asserts that these words ask for tokens by this message, of at most 16,000 bytes.
fn asks_by(rt: &impl Abort, alloc: Global, words: &str, message: &[u8]) {
    assert!(rt; message.len() <= 16_000);
    let opening = Client::start(alloc, Method::JwtSvid, message).expect(rt, "memory");
    let list = words_of(rt, alloc, words);
    let mut link = link_of(rt, alloc, bytes_of(rt, alloc, "BEGUN + TOKEN + FINE"));
    let mut sink = sink_of(rt, alloc, 10, 65_536);
    let got = control(rt, alloc, list.as_slice(), &mut link, &mut sink);
    assert_eq!(rt; got, status::DONE, "of {words}");
    assert!(rt; link.took().starts_with(opening.opening()), "of {words}");
}

#[test]
fn one_id_is_asked_for(rt: HostRuntime) {
    for row in ASKS.trim().lines() {
        let (words, message) = row.split_once(" | ").expect(&rt, "a bar");
        let message = bytes_of(&rt, rt.alloc(), message);
        asks_by(&rt, rt.alloc(), words, message.as_slice());
    }
}

const UNFIT: &str = "
fetch jwt x --id
fetch jwt x --id w
fetch jwt x --id=
fetch jwt x --id spiffe://a.b/../w
fetch jwt x --id spiffe://a.b/w --id spiffe://a.b/w
fetch jwt --id spiffe://a.b/w
fetch jwt --id x
fetch jwt x --ID spiffe://a.b/w
fetch x509 --id spiffe://a.b/w
fetch x509 --decode
fetch jwt-bundles --decode
fetch jwt x --decode --decode
fetch jwt x --decode=1
fetch jwt x --decode --pem
watch 1 --decode
health --id spiffe://a.b/w
";

#[test]
fn options_that_fit_nothing(rt: HostRuntime) {
    fits_nothing(&rt, rt.alloc(), "BEGUN + TOKEN + FINE", "fetch jwt x --id ");
    fits_nothing(
        &rt,
        rt.alloc(),
        "BEGUN + TOKEN + FINE",
        "fetch jwt x --id spiffe://a.b/w\n",
    );
    fit_nothing(&rt, rt.alloc(), "BEGUN + TOKEN + FINE", UNFIT);
}

/// DATA of a `JWTSVIDResponse` with this token, in an answer.
fn answer_of(rt: &impl Abort, alloc: Global, token: &[u8]) -> Octets {
    let mut item = Vec::new(alloc);
    put_bytes(&mut item, 1, b"spiffe://a.b/w").expect(rt, "memory");
    put_bytes(&mut item, 2, token).expect(rt, "memory");
    let mut message = Vec::new(alloc);
    put_bytes(&mut message, 1, item.as_slice()).expect(rt, "memory");
    answer_with(rt, alloc, message.as_slice(), "FINE")
}

fn is_written(rt: &impl Abort, alloc: Global, words: &str, token: &[u8], line: &str) {
    let bytes = answer_of(rt, alloc, token);
    let text = format!(in alloc; "{line}\n").expect(rt, "memory");
    try_run(rt, alloc, words, bytes, status::DONE, text.as_bytes());
}

/// Asserts the line of a token, in words and as an object.
fn is_decoded(rt: &impl Abort, alloc: Global, scene: &str) {
    let (token, rest) = line_of(rt, scene.trim_start(), "token ");
    let (line, rest) = line_of(rt, rest, "line ");
    let (object, _) = line_of(rt, rest, "object ");
    let token = bytes_of(rt, alloc, token);
    is_written(rt, alloc, "fetch jwt x --decode", token.as_slice(), line);
    is_written(
        rt,
        alloc,
        "fetch jwt x --decode --json",
        token.as_slice(),
        object,
    );
}

/// Tokens with their lines and their objects, whose texts are those of Python's base64: {"a":"\\", NEWLINE "b":1} and
/// {"aud":["x"]}; and two that can't be decoded, of which one has a newline.
const DECODED: &str = r#"
token 'eyJhIjoiXFwiLAoiYiI6MX0.eyJhdWQiOlsieCJdfQ.c2ln'
line jwt spiffe://a.b/w eyJhIjoiXFwiLAoiYiI6MX0.eyJhdWQiOlsieCJdfQ.c2ln hint= head={"a":"\\\\", "b":1} claims={"aud":["x"]} signature=unverified
object {"svids":[{"spiffe_id":"spiffe://a.b/w","svid":"eyJhIjoiXFwiLAoiYiI6MX0.eyJhdWQiOlsieCJdfQ.c2ln","hint":"","head":{"a":"\\", "b":1},"claims":{"aud":["x"]},"signature_verified":false}]}

token 't.u.v'
line jwt spiffe://a.b/w t.u.v hint= undecodable signature=unverified
object {"svids":[{"spiffe_id":"spiffe://a.b/w","svid":"t.u.v","hint":"","head":null,"claims":null,"signature_verified":false}]}

token 'e30.e30.'0a'.'
line jwt spiffe://a.b/w e30.e30.\x0a. hint= undecodable signature=unverified
object {"svids":[{"spiffe_id":"spiffe://a.b/w","svid":"e30.e30.\u000a.","hint":"","head":null,"claims":null,"signature_verified":false}]}
"#;

#[test]
fn tokens_are_decoded(rt: HostRuntime) {
    for scene in DECODED.split("\n\n") {
        is_decoded(&rt, rt.alloc(), scene);
    }
}
