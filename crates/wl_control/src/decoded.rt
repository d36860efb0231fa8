//! Tokens with what they say.

ghost use Rattle.std.specs.Prelude.{◌≡◌, ◌++◌, codes, OnOk};
ghost use Rattle.std.specs.List.{flat_map};
ghost use Rattle.wl_client.specs.Messages.{jwt_of};
ghost use Rattle.svid_forms.specs.Decoded.{decoded_json};
ghost use Rattle.wl_control.specs.Lines.{line_end, jwt_start, said_parts, said_part, decoded_line, decoded_lines, lines_by};
ghost use Rattle.wl_control.specs.Takings.{Writes};

use crate::escapes::put_escaped;
use crate::lines::put_jwt_start;
use jws_text::{Said, said_in};
use std::alloc::Global;
use svid_forms::put_decoded_json;
use wl_client::{JwtItem, decode_jwt};
use wl_octets::Memory;
use workload_proto::ProtoFault;

#[tactic(auto, unfolding(crate::specs::Lines::said_parts))]
fn put_said_parts(out: &mut Vec<u8>, head: &[u8], claims: &[u8]) -> Result<(), Memory>
    ensures { OnOk result (out.new.items ≡ out.old.items ++ said_parts head.now claims.now) }
{
    out.extend_from_slice(b" head=")?;
    put_escaped(out, head)?;
    out.extend_from_slice(b" claims=")?;
    put_escaped(out, claims)
}

/// What a token says, or that it can't be decoded.
fn put_said(out: &mut Vec<u8>, said: &Option<Said>) -> Result<(), Memory>
    ensures { OnOk result (out.new.items ≡ out.old.items ++ said_part said.now) }
{
    match said {
        Some(said) => put_said_parts(out, said.head.as_slice(), said.claims.as_slice()),
        None => {
            out.extend_from_slice(b" undecodable")?;
            Ok(())
        }
    }
}

/// The line of a token that says this.
fn put_decoded_as(out: &mut Vec<u8>, svid: &JwtItem, said: &Option<Said>) -> Result<(), Memory>
    ensures { OnOk result (out.new.items ≡ out.old.items ++ jwt_start svid.now ++ said_part said.now ++ codes " signature=unverified" ++ line_end) }
{
    put_jwt_start(out, svid)?;
    put_said(out, said)?;
    out.extend_from_slice(b" signature=unverified")?;
    out.push(b'\n')?;
    Ok(())
}

#[tactic(auto, unfolding(crate::specs::Lines::decoded_line))]
fn put_decoded(alloc: Global, out: &mut Vec<u8>, svid: &JwtItem) -> Result<(), Memory>
    ensures { OnOk result (out.new.items ≡ out.old.items ++ decoded_line svid.now) }
{
    let said = said_in(alloc, svid.svid.as_slice())?;
    put_decoded_as(out, svid, &said)
}

fn put_all_decoded(alloc: Global, out: &mut Vec<u8>, svids: &[JwtItem]) -> Result<(), Memory>
    ensures { OnOk result (out.new.items ≡ out.old.items ++ flat_map decoded_line svids.now) }
{
    for svid in svids {
        put_decoded(alloc, out, svid)?;
    }
    Ok(())
}

/// The lines of a `JWTSVIDResponse` whose tokens are decoded.
pub(crate) fn put_decoded_lines(
    alloc: Global,
    out: &mut Vec<u8>,
    message: &[u8],
) -> Result<(), ProtoFault>
    ensures { Writes (lines_by decoded_lines (jwt_of message.now)) result out.old.items out.new.items }
{
    let message = decode_jwt(alloc, message)?;
    put_all_decoded(alloc, out, message.svids.as_slice())?;
    Ok(())
}

/// The same as an object of JSON.
pub(crate) fn put_decoded_object(
    alloc: Global,
    out: &mut Vec<u8>,
    message: &[u8],
) -> Result<(), ProtoFault>
    ensures { Writes (lines_by decoded_json (jwt_of message.now)) result out.old.items out.new.items }
{
    let message = decode_jwt(alloc, message)?;
    put_decoded_json(alloc, out, &message)?;
    Ok(())
}
