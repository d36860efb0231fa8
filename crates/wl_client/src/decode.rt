//! Responses from bytes.

ghost use Rattle.std.specs.Prelude.{◌≡◌, ℕ, Ok, Err, IfOk, MatchResult, None};
ghost use Rattle.pb_wire.specs.Strings.{Gives};
ghost use Rattle.wl_client.specs.declared.response.X509Response.{X509Response};
ghost use Rattle.wl_client.specs.declared.response.JwtResponse.{JwtResponse};
ghost use Rattle.wl_client.specs.declared.response.BundlesResponse.{BundlesResponse};
ghost use Rattle.wl_client.specs.declared.response.JwtBundlesResponse.{JwtBundlesResponse};
ghost use Rattle.wl_client.specs.Messages.{x509_of, SpellsX509, jwt_of, SpellsJwt, bundles_of, SpellsBundles, jwt_bundles_of, SpellsJwtBundles, state_of, state_wrong, state_more, SpellsState};

use crate::items::read_fields;
use crate::response::{BundlesResponse, JwtBundlesResponse, JwtResponse, X509Response};
use pb_wire::{Field, Value, read_field};
use std::alloc::Global;
use wl_octets::Row;
use workload_proto::ProtoFault;

/// The number of `status` in a `HealthCheckResponse` (grpc.health.v1).
const HEALTH_RESPONSE_STATUS: u32 = 1;

#[tactic(auto, unfolding(crate::specs::Messages::x509_of))]
fn read_x509(alloc: Global, bytes: &[u8]) -> Result<X509Response<'_>, ProtoFault>
    ensures { Gives result (x509_of bytes.now) }
{
    let nothing = X509Response {
        svids: Row::empty(alloc),
        federated: Row::empty(alloc),
    };
    read_fields(bytes, nothing)
}

/// What an `X509SVIDResponse` says, or the first fault in its bytes; the places of a fault in an SVID or in an item of
/// the map count from the start of that. Values of `crl` are dropped, and so are fields of other numbers. Its parts are
/// lent from the bytes; memory is taken for the lists alone.
pub fn decode_x509(alloc: Global, bytes: &[u8]) -> Result<X509Response<'_>, ProtoFault>
    // Which message, or which fault, it is.
    ensures value { Gives result (x509_of bytes.now) }
    // What is read is in the grammar, and what is in it is read, unless memory runs out.
    ensures found { IfOk result (λ m. SpellsX509 bytes.now m) }
    ensures only { (m : X509Response) → SpellsX509 bytes.now m → Gives result (Ok m) }
{
    read_x509(alloc, bytes)
}

#[tactic(auto, unfolding(crate::specs::Messages::jwt_of))]
fn read_jwt(alloc: Global, bytes: &[u8]) -> Result<JwtResponse<'_>, ProtoFault>
    ensures { Gives result (jwt_of bytes.now) }
{
    let nothing = JwtResponse {
        svids: Row::empty(alloc),
    };
    read_fields(bytes, nothing)
}

/// What a `JWTSVIDResponse` says, or the first fault in its bytes; the places of a fault in an SVID count from its start.
/// Fields of other numbers are dropped. Its parts are lent from the bytes; memory is taken for the list alone.
pub fn decode_jwt(alloc: Global, bytes: &[u8]) -> Result<JwtResponse<'_>, ProtoFault>
    // Which message, or which fault, it is.
    ensures value { Gives result (jwt_of bytes.now) }
    // What is read is in the grammar, and what is in it is read, unless memory runs out.
    ensures found { IfOk result (λ m. SpellsJwt bytes.now m) }
    ensures only { (m : JwtResponse) → SpellsJwt bytes.now m → Gives result (Ok m) }
{
    read_jwt(alloc, bytes)
}

#[tactic(auto, unfolding(crate::specs::Messages::bundles_of))]
fn read_bundles(alloc: Global, bytes: &[u8]) -> Result<BundlesResponse<'_>, ProtoFault>
    ensures { Gives result (bundles_of bytes.now) }
{
    let nothing = BundlesResponse {
        bundles: Row::empty(alloc),
    };
    read_fields(bytes, nothing)
}

/// What an `X509BundlesResponse` says, or the first fault in its bytes; the places of a fault in an item of the map count
/// from its start. Values of `crl` are dropped, and so are fields of other numbers. Its parts are lent from the bytes;
/// memory is taken for the list alone.
pub fn decode_bundles(alloc: Global, bytes: &[u8]) -> Result<BundlesResponse<'_>, ProtoFault>
    // Which message, or which fault, it is.
    ensures value { Gives result (bundles_of bytes.now) }
    // What is read is in the grammar, and what is in it is read, unless memory runs out.
    ensures found { IfOk result (λ m. SpellsBundles bytes.now m) }
    ensures only { (m : BundlesResponse) → SpellsBundles bytes.now m → Gives result (Ok m) }
{
    read_bundles(alloc, bytes)
}

#[tactic(auto, unfolding(crate::specs::Messages::jwt_bundles_of))]
fn read_jwt_bundles(alloc: Global, bytes: &[u8]) -> Result<JwtBundlesResponse<'_>, ProtoFault>
    ensures { Gives result (jwt_bundles_of bytes.now) }
{
    let nothing = JwtBundlesResponse {
        bundles: Row::empty(alloc),
    };
    read_fields(bytes, nothing)
}

/// What a `JWTBundlesResponse` says, or the first fault in its bytes; the places of a fault in an item of the map count
/// from its start. Fields of other numbers are dropped. Its parts are lent from the bytes; memory is taken for the list
/// alone.
pub fn decode_jwt_bundles(alloc: Global, bytes: &[u8]) -> Result<JwtBundlesResponse<'_>, ProtoFault>
    // Which message, or which fault, it is.
    ensures value { Gives result (jwt_bundles_of bytes.now) }
    // What is read is in the grammar, and what is in it is read, unless memory runs out.
    ensures found { IfOk result (λ m. SpellsJwtBundles bytes.now m) }
    ensures only { (m : JwtBundlesResponse) → SpellsJwtBundles bytes.now m → Gives result (Ok m) }
{
    read_jwt_bundles(alloc, bytes)
}

/// The state after one more field, where it was `before`.
#[tactic(auto, unfolding(crate::specs::Messages::state_wrong, crate::specs::Messages::state_more))]
fn take_state(field: &Field, before: u64) -> Result<u64, ProtoFault>
    ensures { MatchResult result
        (λ state. (state_wrong field.now ≡ None) × (state ≡ state_more before field.now))
        (λ e. state_wrong field.now ≡ Some e) }
{
    if field.number != HEALTH_RESPONSE_STATUS {
        return Ok(before);
    }
    match field.value {
        Value::Varint(state) => Ok(state),
        _ => Err(ProtoFault::FieldKind(field.number)),
    }
}

fn read_state(bytes: &[u8]) -> Result<u64, ProtoFault>
    ensures { result ≡ state_of bytes.now }
{
    let mut state = 0;
    let mut at = 0;
    while at < bytes.len() {
        let field = read_field(bytes, at)?;
        state = take_state(&field, state)?;
        at = field.next;
    }
    Ok(state)
}

/// The state that a `HealthCheckResponse` says, which is the last one in it or 0, or the first fault in its bytes. Fields
/// of other numbers are dropped. It takes no memory.
pub fn decode_state(bytes: &[u8]) -> Result<u64, ProtoFault>
    // Which state, or which fault, it is.
    ensures value { result ≡ state_of bytes.now }
    // What is read is in the grammar, and what is in it is read.
    ensures found { IfOk result (λ state. SpellsState bytes.now state) }
    ensures only { (state : ℕ) → SpellsState bytes.now state → result ≡ Ok state }
{
    read_state(bytes)
}
