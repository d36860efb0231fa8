//! The call that a request makes.

ghost use Rattle.std.specs.Prelude.{◌≡◌, ◌≤◌, ◌++◌, length, IfOk, OnOk};
ghost use Rattle.std.specs.List.{flat_map};
ghost use Rattle.pb_wire.specs.Spelling.{field};
ghost use Rattle.workload_proto.specs.declared.field_number.TheConstants.{JWT_REQUEST_AUDIENCE};
ghost use Rattle.wl_control.specs.Words.{IsFit};
ghost use Rattle.wl_control.specs.Calls.{method_of, message_of, token_message, id_field, stream_of, answer_of, jwt_kind, asked_of};

use crate::asked::{Asked, Kind};
use crate::request::{Form, Request, TokenAsk, TokenForm};
use bundle_files::BundleKind;
use grpc_wire::Method;
use pb_wire::put_bytes;
use std::alloc::Global;
use wl_client::Client;
use wl_octets::{Memory, Octets};
use workload_proto::field_number;

/// The number of `service` in a `HealthCheckRequest` (grpc.health.v1).
const HEALTH_REQUEST_SERVICE: u32 = 1;

/// The method that is called.
pub(crate) fn method_of(request: &Request) -> Method
    ensures { result ≡ method_of request.now }
{
    match request {
        Request::FetchX509(_) | Request::Watch(_) | Request::Keep(_) => Method::X509Svid,
        Request::FetchBundles(_) | Request::KeepBundles(BundleKind::X509) => Method::X509Bundles,
        Request::FetchJwt(_) => Method::JwtSvid,
        Request::FetchJwtBundles(_) | Request::KeepBundles(BundleKind::Jwt) => Method::JwtBundles,
        Request::Health(_) => Method::HealthCheck,
        Request::HealthWatch(_) => Method::HealthWatch,
    }
}

/// So many messages of a stream.
fn stream_of(kind: Kind, left: u32) -> Asked
    ensures { result ≡ stream_of kind left }
{
    Asked {
        kind,
        left,
        awaits: false,
    }
}

/// The message of a unary call.
fn answer_of(kind: Kind) -> Asked
    ensures { result ≡ answer_of kind }
{
    Asked {
        kind,
        left: 1,
        awaits: true,
    }
}

fn jwt_kind(is_decoded: bool, form: TokenForm) -> Kind
    ensures { result ≡ jwt_kind is_decoded form }
{
    if is_decoded {
        Kind::DecodedJwt(form)
    } else {
        Kind::Jwt(form)
    }
}

/// What is asked for.
pub(crate) fn asked_of(request: &Request) -> Asked
    ensures { result ≡ asked_of request.now }
{
    match request {
        Request::FetchX509(form) => stream_of(Kind::X509(*form), 1),
        Request::FetchBundles(form) => stream_of(Kind::Bundles(*form), 1),
        Request::FetchJwt(ask) => answer_of(jwt_kind(ask.is_decoded, ask.form)),
        Request::FetchJwtBundles(form) => stream_of(Kind::JwtBundles(*form), 1),
        Request::Watch(count) => stream_of(Kind::X509(Form::Lines), *count),
        Request::Keep(count) => stream_of(Kind::X509Frame, *count),
        Request::KeepBundles(kind) => stream_of(Kind::BundlesFrame(*kind), 1),
        Request::Health(_) => answer_of(Kind::State),
        Request::HealthWatch(count) => stream_of(Kind::State, *count),
    }
}

/// The audiences of a `JWTSVIDRequest`.
fn put_audiences(out: &mut Vec<u8>, audiences: &[Octets]) -> Result<(), Memory>
    ensures { OnOk result (out.new.items ≡ out.old.items ++ flat_map (field JWT_REQUEST_AUDIENCE) audiences.now) }
{
    for audience in audiences {
        put_bytes(out, field_number::JWT_REQUEST_AUDIENCE, audience.as_slice())?;
    }
    Ok(())
}

/// The id of a `JWTSVIDRequest`, if it names one.
fn put_id(out: &mut Vec<u8>, id: &Option<Octets>) -> Result<(), Memory>
    ensures { OnOk result (out.new.items ≡ out.old.items ++ id_field id.now) }
{
    if let Some(id) = id {
        put_bytes(out, field_number::JWT_REQUEST_SPIFFE_ID, id.as_slice())?;
    }
    Ok(())
}

/// A `JWTSVIDRequest`.
#[tactic(auto, unfolding(crate::specs::Calls::token_message))]
fn put_token_ask(out: &mut Vec<u8>, ask: &TokenAsk) -> Result<(), Memory>
    ensures { OnOk result (out.new.items ≡ out.old.items ++ token_message ask.now) }
{
    put_audiences(out, ask.audiences.as_slice())?;
    put_id(out, &ask.id)
}

/// The message with which the method is called.
#[tactic(auto, using(crate::proofs::Messages::message_short), unfolding(crate::specs::Calls::message_of))]
pub(crate) fn message_of(alloc: Global, request: &Request) -> Result<Vec<u8>, Memory>
    requires { IsFit request.now }
    ensures value { IfOk result (λ message. message.items ≡ message_of request.now) }
    ensures short { IfOk result (λ message. length message.items ≤ 16000) }
{
    let mut message = Vec::new(alloc);
    match request {
        Request::FetchJwt(ask) => put_token_ask(&mut message, ask)?,
        Request::Health(service) => {
            if service.len() > 0 {
                put_bytes(&mut message, HEALTH_REQUEST_SERVICE, service.as_slice())?;
            }
        }
        Request::FetchX509(_)
        | Request::FetchBundles(_)
        | Request::FetchJwtBundles(_)
        | Request::Watch(_)
        | Request::Keep(_)
        | Request::KeepBundles(_)
        | Request::HealthWatch(_) => {}
    }
    Ok(message)
}
