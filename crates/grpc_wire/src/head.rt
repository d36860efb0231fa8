//! The verdict on a call's head.

ghost use Rattle.std.specs.Prelude.{◌≡◌, codes};
ghost use Rattle.std.specs.List.{list_any};
ghost use Rattle.std.specs.Option.{option_copied};
ghost use Rattle.h2_headers.specs.Values.{only_value};
ghost use Rattle.grpc_wire.specs.Heads.{is_post, is_grpc, is_encoded, is_secure, method_at, method_verdict, head_verdict};

use crate::method::Method;
use crate::refusal::Refusal;
use h2_headers::{is_named, is_well_formed_head, value_once};
use wl_octets::Header;

/// What a call's head says.
#[derive(Clone, Copy, Debug, PartialEq, Eq)]
pub enum HeadVerdict {
    /// It is malformed (RFC 9113, section 8.1.1): the stream is reset with code 1.
    Malformed,
    /// The call ends, whatever its body says.
    Refused(Refusal),
    /// The call goes on, and its body decides.
    Call(Method),
}

/// The verdict on a call's head, by the first cause that applies: a malformed head, another method of HTTP than POST,
/// no content type of gRPC, no known path, compression, and a call of the Workload API without its security header.
/// It takes no memory.
#[tactic(auto, unfolding(crate::specs::Heads::head_verdict))]
pub fn judge_head(headers: &[Header]) -> HeadVerdict
    ensures { result ≡ head_verdict headers.now }
{
    if !is_well_formed_head(headers) {
        return HeadVerdict::Malformed;
    }
    if !has_post(headers) {
        return HeadVerdict::Refused(Refusal::BadMethod);
    }
    if !has_grpc(headers) {
        return HeadVerdict::Refused(Refusal::BadContent);
    }
    judge_method(called_method(headers), headers)
}

#[tactic(auto, unfolding(crate::specs::Heads::method_verdict))]
fn judge_method(method: Option<Method>, headers: &[Header]) -> HeadVerdict
    ensures { result ≡ method_verdict method headers.now }
{
    let Some(method) = method else {
        return HeadVerdict::Refused(Refusal::UnknownPath);
    };
    if is_compressed(headers) {
        return HeadVerdict::Refused(Refusal::Compressed);
    }
    if !method.is_health() && !has_security_header(headers) {
        return HeadVerdict::Refused(Refusal::Insecure);
    }
    HeadVerdict::Call(method)
}

fn has_post(headers: &[Header]) -> bool
    ensures { result ≡ is_post headers.now }
{
    value_once(headers, b":method").is_some_and(|value| value == b"POST".as_slice())
}

fn has_grpc(headers: &[Header]) -> bool
    ensures { result ≡ is_grpc headers.now }
{
    value_once(headers, b"content-type").is_some_and(|value| value.starts_with(b"application/grpc"))
}

/// The method that the head calls.
fn called_method(headers: &[Header]) -> Option<Method>
    ensures { result ≡ method_at (only_value (codes ":path") headers.now) }
{
    match value_once(headers, b":path") {
        Some(path) => Method::from_path(path),
        None => None,
    }
}

fn is_compressed(headers: &[Header]) -> bool
    ensures { result ≡ list_any is_encoded headers.now }
{
    headers.iter().any(|header| is_named(header, b"grpc-encoding")
        && header.value.as_slice() != b"identity".as_slice())
}

/// Whether the security header of the Workload API is there once and says `true`.
fn has_security_header(headers: &[Header]) -> bool
    ensures { result ≡ is_secure headers.now }
{
    value_once(headers, b"workload.spiffe.io").is_some_and(|value| value == b"true".as_slice())
}
