//! The header lists of answers.

ghost use Rattle.std.specs.Prelude.{◌≡◌, ◌++◌, ◌∷◌, [], IfOk, OnOk, decimal};
ghost use Rattle.grpc_wire.specs.Answers.{percent_encoded, field, response_fields, message_fields, status_fields, trailer_fields, refused_fields};

use crate::refusal::Refusal;
use percent_encoding::{AsciiSet, CONTROLS, ascii_set, percent_encode};
use std::alloc::Global;
use wl_octets::{Header, Memory, Octets, Row};

/// What is escaped in a `grpc-message`, beside all that isn't ASCII.
const ESCAPES: AsciiSet = ascii_set!(CONTROLS.add(b'%'));

/// What stands before the messages of an answer: `:status 200` and the content type of gRPC.
#[tactic(auto, unfolding(crate::specs::Answers::response_fields))]
pub fn response_head(alloc: Global) -> Result<Row<Header>, Memory>
    ensures { IfOk result (λ fields. fields ≡ response_fields) }
{
    let mut fields = Row::empty(alloc);
    add(
        alloc,
        &mut fields,
        b":status",
        Octets::from_slice(alloc, b"200")?,
    )?;
    let content = Octets::from_slice(alloc, b"application/grpc")?;
    add(alloc, &mut fields, b"content-type", content)?;
    Ok(fields)
}

/// What ends an answer: its status in decimal, and its text, escaped, if it isn't empty. Where they are the whole
/// answer (`only`), the response's head stands before them.
#[tactic(auto, unfolding(crate::specs::Answers::trailer_fields))]
pub fn trailers(alloc: Global, status: u32, text: &[u8], only: bool) -> Result<Row<Header>, Memory>
    ensures { IfOk result (λ fields. fields ≡ trailer_fields status text.now only) }
{
    let mut fields = if only {
        response_head(alloc)?
    } else {
        Row::empty(alloc)
    };
    add_status(alloc, &mut fields, status, text)?;
    Ok(fields)
}

fn add_status(
    alloc: Global,
    fields: &mut Row<Header>,
    status: u32,
    text: &[u8],
) -> Result<(), Memory>
    ensures { OnOk result (fields.new ≡ fields.old ++ status_fields status text.now) }
{
    add(alloc, fields, b"grpc-status", number(alloc, status)?)?;
    add_text(alloc, fields, text)?;
    Ok(())
}

fn add_text(alloc: Global, fields: &mut Row<Header>, text: &[u8]) -> Result<(), Memory>
    ensures { OnOk result (fields.new ≡ fields.old ++ message_fields text.now) }
{
    if text.is_empty() {
        return Ok(());
    }
    add(alloc, fields, b"grpc-message", escape(alloc, text)?)
}

/// What a refused call is answered, in the header list that ends its stream. A refusal of HTTP is `:status` alone, and is
/// the only list of its answer; `only` tells whether the others are too.
#[tactic(auto, unfolding(crate::specs::Answers::refused_fields))]
pub fn refusal_fields(alloc: Global, refusal: Refusal, only: bool) -> Result<Row<Header>, Memory>
    ensures { IfOk result (λ fields. fields ≡ refused_fields refusal only) }
{
    if !refusal.is_http() {
        return trailers(alloc, refusal.status(), refusal.text().as_bytes(), only);
    }
    let mut fields = Row::empty(alloc);
    add(
        alloc,
        &mut fields,
        b":status",
        number(alloc, refusal.status())?,
    )?;
    Ok(fields)
}

/// Puts a field after the others.
fn add(alloc: Global, fields: &mut Row<Header>, name: &[u8], value: Octets) -> Result<(), Memory>
    ensures { OnOk result (fields.new ≡ fields.old ++ field name.now value ∷ []) }
{
    let name = Octets::from_slice(alloc, name)?;
    fields.push(Header { name, value })?;
    Ok(())
}

/// A number in decimal.
fn number(alloc: Global, number: u32) -> Result<Octets, Memory>
    ensures { IfOk result (λ o. o ≡ decimal number) }
{
    let text = number.to_string(alloc)?;
    Ok(Octets::from_vec(text.into_bytes()))
}

/// A text as `grpc-message` has it.
fn escape(alloc: Global, text: &[u8]) -> Result<Octets, Memory>
    ensures { IfOk result (λ o. o ≡ percent_encoded text.now) }
{
    let mut percent_encoded = String::new(alloc);
    percent_encode(text, ESCAPES).append_to(&mut percent_encoded)?;
    Ok(Octets::from_vec(percent_encoded.into_bytes()))
}
