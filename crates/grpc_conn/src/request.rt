//! What the message of a request says.

ghost use Rattle.std.specs.Prelude.{◌≡◌};
ghost use Rattle.grpc_conn.specs.Requests.{Reads, ReadsId, request_of, jwt_in, jwt_with_audience, named_id, health_in, plain_in};

use grpc_wire::{Method, Refusal};
use spiffe_id::{IdFault, SpiffeId};
use std::alloc::Global;
use wl_health::{HealthFault, decode_health};
use wl_octets::{Memory, Octets, Row};
use workload_proto::{JwtRequest, ProtoFault, decode_empty, decode_jwt_request};

/// What a request says.
#[derive(Drop, PartialEq)]
pub enum Request {
    /// Nothing: its message has no fields that are known.
    Plain,
    /// A FetchJWTSVID: its audiences, one at least, and the id that it names.
    Jwt {
        audience: Row<Octets>,
        id: Option<SpiffeId>,
    },
    /// A health call: the service that is asked for.
    Health(Octets),
}

/// Why a message is no request.
#[derive(Clone, Copy, Debug, PartialEq, Eq)]
pub(crate) enum RequestFault {
    Refused(Refusal),
    /// Memory ran out.
    Memory,
}

impl From<Memory> for RequestFault {
    ghost use Rattle.grpc_conn.specs.declared.request.RequestFault.{RequestFault};

    ghost from_gives = { λ given fault. fault ≡ RequestFault.Memory };

    fn from(_memory: Memory) -> RequestFault {
        RequestFault::Memory
    }
}

/// What a message says to this method.
#[tactic(auto, unfolding(crate::specs::Requests::request_of))]
pub(crate) fn read_request(
    alloc: Global,
    method: Method,
    message: &[u8],
) -> Result<Request, RequestFault>
    ensures { Reads result (request_of method message.now) }
{
    match method {
        Method::JwtSvid => read_jwt(alloc, message),
        Method::HealthCheck | Method::HealthWatch => read_health(alloc, message),
        Method::X509Svid | Method::X509Bundles | Method::JwtBundles => read_plain(message),
    }
}

fn read_plain(message: &[u8]) -> Result<Request, RequestFault>
    ensures { Reads result (plain_in message.now) }
{
    match decode_empty(message) {
        Ok(()) => Ok(Request::Plain),
        Err(_) => Err(RequestFault::Refused(Refusal::Undecodable)),
    }
}

fn read_health(alloc: Global, message: &[u8]) -> Result<Request, RequestFault>
    ensures { Reads result (health_in message.now) }
{
    match decode_health(alloc, message) {
        Ok(service) => Ok(Request::Health(service)),
        Err(HealthFault::Memory) => Err(RequestFault::Memory),
        Err(_) => Err(RequestFault::Refused(Refusal::Undecodable)),
    }
}

fn read_jwt(alloc: Global, message: &[u8]) -> Result<Request, RequestFault>
    ensures { Reads result (jwt_in message.now) }
{
    match decode_jwt_request(alloc, message) {
        Ok(request) => judge_jwt(alloc, request),
        Err(ProtoFault::Memory) => Err(RequestFault::Memory),
        Err(_) => Err(RequestFault::Refused(Refusal::Undecodable)),
    }
}

fn judge_jwt(alloc: Global, request: JwtRequest) -> Result<Request, RequestFault>
    ensures { Reads result (jwt_with_audience request) }
{
    if request.audience.as_slice().is_empty() {
        return Err(RequestFault::Refused(Refusal::NoAudience));
    }
    let id = read_id(alloc, request.spiffe_id.as_slice())?;
    Ok(Request::Jwt {
        audience: request.audience,
        id,
    })
}

/// The id that is named, if one is.
fn read_id(alloc: Global, text: &[u8]) -> Result<Option<SpiffeId>, RequestFault>
    ensures { ReadsId result (named_id text.now) }
{
    if text.is_empty() {
        return Ok(None);
    }
    match SpiffeId::parse(alloc, text) {
        Ok(id) => Ok(Some(id)),
        Err(IdFault::Memory) => Err(RequestFault::Memory),
        Err(_) => Err(RequestFault::Refused(Refusal::BadId)),
    }
}
