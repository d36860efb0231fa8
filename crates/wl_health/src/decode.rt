//! A request from bytes.

ghost use Rattle.std.specs.Prelude.{◌≡◌, List, ℕ, Some, None, Ok, Err, IfOk, MatchResult};
ghost use Rattle.pb_wire.specs.Message.{text_in, last_of};
ghost use Rattle.pb_wire.specs.Strings.{field_fault, Gives};
ghost use Rattle.wl_health.specs.declared.field_number.TheConstants.{REQUEST_SERVICE};
ghost use Rattle.wl_health.specs.Messages.{is_service_field, service_of, SpellsService};

use crate::{HealthFault, field_number};
use pb_wire::{Field, read_field};
use std::alloc::Global;
use wl_octets::Octets;

/// The service after one more field, where it was `before`.
#[tactic(auto, unfolding(pb_wire::specs::Strings::field_fault))]
fn take_field<'a>(bytes: &'a [u8], field: &Field, before: &'a [u8]) -> Result<&'a [u8], HealthFault>
    ensures { MatchResult result
        (λ service. (field_fault is_service_field bytes.now field.now ≡ None)
        × (service.now ≡ last_of before.now (text_in REQUEST_SERVICE bytes.now field.now)))
        (λ e. field_fault is_service_field bytes.now field.now ≡ Some e) }
{
    if field.number != field_number::REQUEST_SERVICE {
        return Ok(before);
    }
    let text = field.text(bytes)?;
    Ok(text)
}

fn read_service(bytes: &[u8]) -> Result<&[u8], HealthFault>
    ensures { MatchResult result
        (λ service. service_of bytes.now ≡ Ok service.now)
        (λ e. service_of bytes.now ≡ Err e) }
{
    let mut service: &[u8] = &[];
    let mut at = 0;
    while at < bytes.len() {
        let field = read_field(bytes, at)?;
        service = take_field(bytes, &field, service)?;
        at = field.next;
    }
    Ok(service)
}

fn decode_health_inner(alloc: Global, bytes: &[u8]) -> Result<Octets, HealthFault>
    ensures { Gives result (service_of bytes.now) }
{
    let service = read_service(bytes)?;
    Ok(Octets::from_slice(alloc, service)?)
}

/// The service of a `HealthCheckRequest`, which is the last one in it or the empty one, or the first fault in its bytes.
/// Fields of other numbers are skipped.
pub fn decode_health(alloc: Global, bytes: &[u8]) -> Result<Octets, HealthFault>
    // Which service, or which fault, it is.
    ensures value { Gives result (service_of bytes.now) }
    // What is read is in the grammar, and what is in it is read, unless memory runs out.
    ensures found { IfOk result (λ service. SpellsService bytes.now service) }
    ensures only { (service : List ℕ) → SpellsService bytes.now service → Gives result (Ok service) }
{
    // The public clauses follow from those of the inner call.
    decode_health_inner(alloc, bytes)
}
