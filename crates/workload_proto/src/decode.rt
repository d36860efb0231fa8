//! Requests from bytes (SPIFFE Workload API, `workload.proto`).

ghost use Rattle.std.specs.Prelude.{◌≡◌, ◌++◌, ◌∷◌, [], ℕ, List, Option, Some, None, Ok, IfOk, IfErr, OnOk, IsOk, MatchResult};
ghost use Rattle.pb_wire.specs.Message.{text_of, text_list, last_of};
ghost use Rattle.workload_proto.specs.declared.message.JwtRequest.{JwtRequest};
ghost use Rattle.pb_wire.specs.Strings.{fault_of, field_fault, Gives};
ghost use Rattle.workload_proto.specs.Requests.{is_jwt_field, SpellsJwtRequest, SpellsEmpty, IsWire, jwt_request_of, empty_of};
ghost use Rattle.workload_proto.specs.Steps.{StepFails, asked_more};

use crate::message::JwtRequest;
use crate::{ProtoFault, field_number};
use pb_wire::{Field, read_field};
use std::alloc::Global;
use wl_octets::{Octets, Row};

fn take_audience(
    alloc: Global,
    bytes: &[u8],
    field: &Field,
    audience: &mut Row<Octets>,
) -> Result<(), ProtoFault>
    ensures { MatchResult result
        (λ _. (fault_of (text_of bytes.now field.now) ≡ None)
        × (audience.new ≡ audience.old ++ text_list (text_of bytes.now field.now)))
        (λ e. StepFails e (fault_of (text_of bytes.now field.now))) }
{
    let text = field.text(bytes)?;
    audience.push(Octets::from_slice(alloc, text)?)?;
    Ok(())
}

fn take_id(alloc: Global, bytes: &[u8], field: &Field, id: &mut Octets) -> Result<(), ProtoFault>
    ensures { MatchResult result
        (λ _. (fault_of (text_of bytes.now field.now) ≡ None)
        × (id.new ≡ last_of id.old (text_list (text_of bytes.now field.now))))
        (λ e. StepFails e (fault_of (text_of bytes.now field.now))) }
{
    let text = field.text(bytes)?;
    *id = Octets::from_slice(alloc, text)?;
    Ok(())
}

#[tactic(auto, unfolding(pb_wire::specs::Strings::field_fault, crate::specs::Steps::asked_more))]
fn take_field(
    alloc: Global,
    bytes: &[u8],
    field: &Field,
    request: &mut JwtRequest,
) -> Result<(), ProtoFault>
    ensures { MatchResult result
        (λ _. (field_fault is_jwt_field bytes.now field.now ≡ None)
        × (request.new ≡ asked_more bytes.now request.old field.now))
        (λ e. StepFails e (field_fault is_jwt_field bytes.now field.now)) }
{
    match field.number {
        field_number::JWT_REQUEST_AUDIENCE => take_audience(
            alloc,
            bytes,
            field,
            &mut request.audience,
        ),
        field_number::JWT_REQUEST_SPIFFE_ID => take_id(alloc, bytes, field, &mut request.spiffe_id),
        _ => Ok(()),
    }
}

fn decode_jwt_request_inner(alloc: Global, bytes: &[u8]) -> Result<JwtRequest, ProtoFault>
    ensures { Gives result (jwt_request_of bytes.now) }
{
    let mut request = JwtRequest {
        audience: Row::empty(alloc),
        spiffe_id: Octets::empty(alloc),
    };
    let mut at = 0;
    while at < bytes.len() {
        let field = read_field(bytes, at)?;
        take_field(alloc, bytes, &field, &mut request)?;
        at = field.next;
    }
    Ok(request)
}

/// What a `JWTSVIDRequest` says: its audiences in their order and the last id, or the first fault in its bytes. Fields
/// of other numbers are skipped.
pub fn decode_jwt_request(alloc: Global, bytes: &[u8]) -> Result<JwtRequest, ProtoFault>
    // Which message, or which fault, it is.
    ensures value { Gives result (jwt_request_of bytes.now) }
    // What is read is spelled so, and what is spelled so is read, unless memory runs out.
    ensures found { IfOk result (λ m. SpellsJwtRequest bytes.now m) }
    ensures only { (m : JwtRequest) → SpellsJwtRequest bytes.now m → Gives result (Ok m) }
{
    // The public clauses follow from those of the inner call.
    decode_jwt_request_inner(alloc, bytes)
}

fn decode_empty_inner(bytes: &[u8]) -> Result<(), ProtoFault>
    ensures { result ≡ empty_of bytes.now }
{
    let mut at = 0;
    while at < bytes.len() {
        at = read_field(bytes, at)?.next;
    }
    Ok(())
}

/// Reads a request of which no field is known to its end. The first fault in its bytes, if there is one, is `Wire`.
pub fn decode_empty(bytes: &[u8]) -> Result<(), ProtoFault>
    // Whether it ends well, or which fault it has.
    ensures value { result ≡ empty_of bytes.now }
    ensures wire { IfErr result IsWire }
    // What is read is fields, and fields are read.
    ensures found { OnOk result (SpellsEmpty bytes.now) }
    ensures only { SpellsEmpty bytes.now → IsOk result }
{
    // The public clauses follow from those of the inner call.
    decode_empty_inner(bytes)
}
