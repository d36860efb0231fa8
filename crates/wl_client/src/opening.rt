//! What a client sends first.

ghost use Rattle.std.specs.Prelude.{◌≡◌, ◌≤◌, ◌++◌, ◌∷◌, [], length, IfOk, OnOk};
ghost use Rattle.h2_frame.specs.Writing.{frame_encoding, payload_of};
ghost use Rattle.h2_wire.specs.declared.limit.TheConstants.{MAX_FRAME_SIZE};
ghost use Rattle.grpc_wire.specs.Answers.{field};
ghost use Rattle.wl_client.specs.Openings.{call_fields, settings_frame, head_frame, message_frame, opening_of};

use grpc_wire::{Method, PREFIX_LEN, put_message};
use h2_frame::{Body, Frame, put_frame};
use hpack::encode_plain;
use std::alloc::Global;
use wl_octets::{Header, Memory, Octets, Row};

/// The connection preface (RFC 9113, section 3.4).
const PREFACE: &[u8] = b"PRI * HTTP/2.0\r\n\r\nSM\r\n\r\n";

/// The one stream of a client.
pub(crate) const CALL_STREAM: u32 = 1;

/// The most bytes of a message that is asked with.
pub(crate) const MAX_MESSAGE_LEN: usize = 16_000;

/// Puts a field after the others.
fn add(alloc: Global, fields: &mut Row<Header>, name: &[u8], value: &[u8]) -> Result<(), Memory>
    ensures { OnOk result (fields.new ≡ fields.old ++ field name.now value.now ∷ []) }
{
    let name = Octets::from_slice(alloc, name)?;
    let value = Octets::from_slice(alloc, value)?;
    fields.push(Header { name, value })?;
    Ok(())
}

/// The head of a call.
#[tactic(auto, unfolding(crate::specs::Openings::call_fields))]
fn call_fields(alloc: Global, method: Method) -> Result<Row<Header>, Memory>
    ensures { IfOk result (λ fields. fields ≡ call_fields method) }
{
    let mut fields = Row::empty(alloc);
    add(alloc, &mut fields, b":method", b"POST")?;
    add(alloc, &mut fields, b":scheme", b"http")?;
    add(alloc, &mut fields, b":path", method.path())?;
    add(alloc, &mut fields, b":authority", b"localhost")?;
    add(alloc, &mut fields, b"content-type", b"application/grpc")?;
    add(alloc, &mut fields, b"te", b"trailers")?;
    add(alloc, &mut fields, b"workload.spiffe.io", b"true")?;
    Ok(fields)
}

fn put_settings(alloc: Global, out: &mut Octets) -> Result<(), Memory>
    ensures { OnOk result (out.new ≡ out.old ++ frame_encoding settings_frame) }
{
    let body = Body::Settings {
        pairs: Row::empty(alloc),
    };
    put_frame(out, &Frame { stream: 0, body })
}

#[tactic(auto, using(crate::proofs::Heads::head_fits))]
fn put_head(alloc: Global, out: &mut Octets, method: Method) -> Result<(), Memory>
    ensures { OnOk result (out.new ≡ out.old ++ frame_encoding (head_frame method)) }
{
    let fields = call_fields(alloc, method)?;
    let body = Body::Headers {
        block: encode_plain(alloc, fields.as_slice())?,
        ended: false,
        whole: true,
    };
    put_frame(
        out,
        &Frame {
            stream: CALL_STREAM,
            body,
        },
    )
}

#[tactic(auto, using(crate::proofs::Heads::framed_length))]
fn frame_message(alloc: Global, message: &[u8]) -> Result<Frame, Memory>
    requires { length message.now ≤ MAX_MESSAGE_LEN }
    ensures value { IfOk result (λ frame. frame ≡ message_frame message.now) }
    ensures fits { IfOk result (λ frame. length (payload_of frame.body) ≤ MAX_FRAME_SIZE) }
{
    let mut bytes = Octets::empty(alloc);
    put_message(&mut bytes, message)?;
    let size = (PREFIX_LEN + message.len()) as u32;
    Ok(Frame {
        stream: CALL_STREAM,
        body: Body::Bytes {
            bytes,
            size,
            ended: true,
        },
    })
}

/// The preface, SETTINGS with no pair, the head of this method's call, and the message as DATA that ends the request.
#[tactic(auto, unfolding(crate::specs::Openings::opening_of))]
pub(crate) fn opening(alloc: Global, method: Method, message: &[u8]) -> Result<Octets, Memory>
    requires { length message.now ≤ MAX_MESSAGE_LEN }
    ensures { IfOk result (λ o. o ≡ opening_of method message.now) }
{
    let mut out = Octets::from_slice(alloc, PREFACE)?;
    put_settings(alloc, &mut out)?;
    put_head(alloc, &mut out, method)?;
    put_frame(&mut out, &frame_message(alloc, message)?)?;
    Ok(out)
}
