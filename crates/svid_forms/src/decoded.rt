//! Tokens as JSON with what they say.

ghost use Rattle.std.specs.Prelude.{◌≡◌, ◌++◌, OnOk};
ghost use Rattle.svid_forms.specs.Json.{items_from, list_member};
ghost use Rattle.svid_forms.specs.Decoded.{raw_member, part_members, said_members, decoded_item, decoded_json};

use crate::json::{put_comma, put_jwt_members, put_opening};
use crate::names::Name;
use jws_text::{Said, said_in};
use std::alloc::Global;
use wl_client::{JwtItem, JwtResponse};
use wl_octets::Memory;

/// A member whose value is this text of JSON.
#[tactic(auto, unfolding(crate::specs::Decoded::raw_member))]
fn put_raw_member(out: &mut Vec<u8>, name: Name, text: &[u8]) -> Result<(), Memory>
    ensures { OnOk result (out.new.items ≡ out.old.items ++ raw_member name text.now) }
{
    put_opening(out, b',', name)?;
    out.extend_from_slice(text)?;
    Ok(())
}

#[tactic(auto, unfolding(crate::specs::Decoded::part_members))]
fn put_parts(out: &mut Vec<u8>, head: &[u8], claims: &[u8]) -> Result<(), Memory>
    ensures { OnOk result (out.new.items ≡ out.old.items ++ part_members head.now claims.now) }
{
    put_raw_member(out, Name::Head, head)?;
    put_raw_member(out, Name::Claims, claims)
}

fn put_said(out: &mut Vec<u8>, said: &Option<Said>) -> Result<(), Memory>
    ensures { OnOk result (out.new.items ≡ out.old.items ++ said_members said.now) }
{
    match said {
        Some(said) => put_parts(out, said.head.as_slice(), said.claims.as_slice()),
        None => put_parts(out, b"null", b"null"),
    }
}

#[tactic(auto, unfolding(crate::specs::Decoded::decoded_item))]
fn put_decoded_item(alloc: Global, out: &mut Vec<u8>, svid: &JwtItem) -> Result<(), Memory>
    ensures { OnOk result (out.new.items ≡ out.old.items ++ decoded_item svid.now) }
{
    let said = said_in(alloc, svid.svid.as_slice())?;
    put_jwt_members(out, svid)?;
    put_said(out, &said)?;
    put_raw_member(out, Name::SignatureVerified, b"false")?;
    out.push(b'}')?;
    Ok(())
}

fn put_decoded_items(alloc: Global, out: &mut Vec<u8>, svids: &[JwtItem]) -> Result<(), Memory>
    ensures { OnOk result (out.new.items ≡ out.old.items ++ items_from decoded_item 0 svids.now) }
{
    for (at, svid) in svids.iter().enumerate() {
        put_comma(out, at)?;
        put_decoded_item(alloc, out, svid)?;
    }
    Ok(())
}

#[tactic(auto, unfolding(crate::specs::Json::list_member))]
fn put_decoded_list(alloc: Global, out: &mut Vec<u8>, svids: &[JwtItem]) -> Result<(), Memory>
    ensures { OnOk result (out.new.items ≡ out.old.items ++ list_member decoded_item 123 Name.Svids svids.now) }
{
    put_opening(out, b'{', Name::Svids)?;
    out.push(b'[')?;
    put_decoded_items(alloc, out, svids)?;
    out.push(b']')?;
    Ok(())
}

/// The object of a `JWTSVIDResponse` and a newline, whose items have `head`, `claims` and `signature_verified` besides. The
/// first two are what the token says, or null where it can't be decoded; the last is false: nobody verified it.
#[tactic(auto, unfolding(crate::specs::Decoded::decoded_json))]
pub fn put_decoded_json(
    alloc: Global,
    out: &mut Vec<u8>,
    message: &JwtResponse,
) -> Result<(), Memory>
    ensures { OnOk result (out.new.items ≡ out.old.items ++ decoded_json message.now) }
{
    put_decoded_list(alloc, out, message.svids.as_slice())?;
    out.extend_from_slice(&[b'}', b'\n'])?;
    Ok(())
}
