//! Messages as JSON.

ghost use Rattle.std.specs.Prelude.{◌≡◌, ◌<◌, ◌==◌, ◌++◌, ◌∷◌, [], if◌then◌else◌, OnOk};
ghost use Rattle.svid_forms.specs.Json.{hex_digit, escaped_byte, escaped, text_value, bytes_value, opening, text_member, bytes_member, items_from, x509_item, jwt_members, jwt_item, map_item, list_member, map_member, x509_json, bundles_json, jwt_bundles_json, jwt_json};

use crate::names::{Name, text_of};
use base64::engine::general_purpose::STANDARD;
use std::alloc::Global;
use wl_client::{
    BundlesResponse, JwtBundlesResponse, JwtItem, JwtResponse, MapItem, X509Item, X509Response,
};
use wl_octets::Memory;

/// A digit of lower-case hexadecimal.
fn digit(value: u8) -> u8
    requires { value < 16 }
    ensures { result ≡ hex_digit value }
{
    if value < 10 { 48 + value } else { 87 + value }
}

/// A byte of a text.
#[tactic(auto, unfolding(crate::specs::Json::escaped_byte))]
fn put_escaped_byte(out: &mut Vec<u8>, byte: u8) -> Result<(), Memory>
    ensures { OnOk result (out.new.items ≡ out.old.items ++ escaped_byte byte) }
{
    if byte == b'"' || byte == b'\\' {
        out.extend_from_slice(&[b'\\', byte])?;
        return Ok(());
    }
    if byte >= 32 {
        out.push(byte)?;
        return Ok(());
    }
    out.extend_from_slice(b"\\u00")?;
    out.extend_from_slice(&[digit(byte / 16), digit(byte % 16)])?;
    Ok(())
}

/// A text as it stands between quotation marks in JSON.
#[tactic(auto, unfolding(crate::specs::Json::escaped))]
pub fn put_escaped(out: &mut Vec<u8>, text: &[u8]) -> Result<(), Memory>
    ensures { OnOk result (out.new.items ≡ out.old.items ++ escaped text.now) }
{
    for byte in text {
        put_escaped_byte(out, *byte)?;
    }
    Ok(())
}

#[tactic(auto, unfolding(crate::specs::Json::text_value))]
fn put_text(out: &mut Vec<u8>, text: &[u8]) -> Result<(), Memory>
    ensures { OnOk result (out.new.items ≡ out.old.items ++ text_value text.now) }
{
    out.push(b'"')?;
    put_escaped(out, text)?;
    out.push(b'"')?;
    Ok(())
}

#[tactic(auto, unfolding(crate::specs::Json::bytes_value))]
fn put_bytes(alloc: Global, out: &mut Vec<u8>, bytes: &[u8]) -> Result<(), Memory>
    ensures { OnOk result (out.new.items ≡ out.old.items ++ bytes_value bytes.now) }
{
    let text = STANDARD.encode(alloc, bytes)?;
    out.push(b'"')?;
    out.extend_from_slice(text.as_bytes())?;
    out.push(b'"')?;
    Ok(())
}

/// A brace or a comma, and a name.
#[tactic(auto, unfolding(crate::specs::Json::opening))]
pub(crate) fn put_opening(out: &mut Vec<u8>, lead: u8, name: Name) -> Result<(), Memory>
    ensures { OnOk result (out.new.items ≡ out.old.items ++ opening lead name) }
{
    out.extend_from_slice(&[lead, b'"'])?;
    out.extend_from_slice(text_of(name))?;
    out.extend_from_slice(&[b'"', b':'])?;
    Ok(())
}

#[tactic(auto, unfolding(crate::specs::Json::text_member))]
fn put_text_member(out: &mut Vec<u8>, lead: u8, name: Name, text: &[u8]) -> Result<(), Memory>
    ensures { OnOk result (out.new.items ≡ out.old.items ++ text_member lead name text.now) }
{
    put_opening(out, lead, name)?;
    put_text(out, text)
}

#[tactic(auto, unfolding(crate::specs::Json::bytes_member))]
fn put_bytes_member(
    alloc: Global,
    out: &mut Vec<u8>,
    lead: u8,
    name: Name,
    bytes: &[u8],
) -> Result<(), Memory>
    ensures { OnOk result (out.new.items ≡ out.old.items ++ bytes_member lead name bytes.now) }
{
    put_opening(out, lead, name)?;
    put_bytes(alloc, out, bytes)
}

/// The comma before an item that isn't the first.
pub(crate) fn put_comma(out: &mut Vec<u8>, at: usize) -> Result<(), Memory>
    ensures { OnOk result (out.new.items ≡ out.old.items ++ (if at == 0 then [] else 44 ∷ [])) }
{
    if at > 0 {
        out.push(b',')?;
    }
    Ok(())
}

#[tactic(auto, unfolding(crate::specs::Json::x509_item))]
fn put_x509_item(alloc: Global, out: &mut Vec<u8>, svid: &X509Item) -> Result<(), Memory>
    ensures { OnOk result (out.new.items ≡ out.old.items ++ x509_item svid.now) }
{
    put_text_member(out, b'{', Name::SpiffeId, svid.spiffe_id.as_slice())?;
    put_bytes_member(alloc, out, b',', Name::X509Svid, svid.chain.as_slice())?;
    put_bytes_member(alloc, out, b',', Name::X509SvidKey, svid.key.as_slice())?;
    put_bytes_member(alloc, out, b',', Name::Bundle, svid.bundle.as_slice())?;
    put_text_member(out, b',', Name::Hint, svid.hint.as_slice())?;
    out.push(b'}')?;
    Ok(())
}

#[tactic(auto, unfolding(crate::specs::Json::jwt_members))]
pub(crate) fn put_jwt_members(out: &mut Vec<u8>, svid: &JwtItem) -> Result<(), Memory>
    ensures { OnOk result (out.new.items ≡ out.old.items ++ jwt_members svid.now) }
{
    put_text_member(out, b'{', Name::SpiffeId, svid.spiffe_id.as_slice())?;
    put_text_member(out, b',', Name::Svid, svid.svid.as_slice())?;
    put_text_member(out, b',', Name::Hint, svid.hint.as_slice())?;
    Ok(())
}

#[tactic(auto, unfolding(crate::specs::Json::jwt_item))]
fn put_jwt_item(out: &mut Vec<u8>, svid: &JwtItem) -> Result<(), Memory>
    ensures { OnOk result (out.new.items ≡ out.old.items ++ jwt_item svid.now) }
{
    put_jwt_members(out, svid)?;
    out.push(b'}')?;
    Ok(())
}

#[tactic(auto, unfolding(crate::specs::Json::map_item))]
fn put_map_item(alloc: Global, out: &mut Vec<u8>, item: &MapItem) -> Result<(), Memory>
    ensures { OnOk result (out.new.items ≡ out.old.items ++ map_item item.now) }
{
    put_text(out, item.key.as_slice())?;
    out.push(b':')?;
    put_bytes(alloc, out, item.value.as_slice())
}

fn put_x509_items(alloc: Global, out: &mut Vec<u8>, svids: &[X509Item]) -> Result<(), Memory>
    ensures { OnOk result (out.new.items ≡ out.old.items ++ items_from x509_item 0 svids.now) }
{
    for (at, svid) in svids.iter().enumerate() {
        put_comma(out, at)?;
        put_x509_item(alloc, out, svid)?;
    }
    Ok(())
}

fn put_jwt_items(out: &mut Vec<u8>, svids: &[JwtItem]) -> Result<(), Memory>
    ensures { OnOk result (out.new.items ≡ out.old.items ++ items_from jwt_item 0 svids.now) }
{
    for (at, svid) in svids.iter().enumerate() {
        put_comma(out, at)?;
        put_jwt_item(out, svid)?;
    }
    Ok(())
}

fn put_map_items(alloc: Global, out: &mut Vec<u8>, items: &[MapItem]) -> Result<(), Memory>
    ensures { OnOk result (out.new.items ≡ out.old.items ++ items_from map_item 0 items.now) }
{
    for (at, item) in items.iter().enumerate() {
        put_comma(out, at)?;
        put_map_item(alloc, out, item)?;
    }
    Ok(())
}

#[tactic(auto, unfolding(crate::specs::Json::list_member))]
fn put_x509_list(alloc: Global, out: &mut Vec<u8>, svids: &[X509Item]) -> Result<(), Memory>
    ensures { OnOk result (out.new.items ≡ out.old.items ++ list_member x509_item 123 Name.Svids svids.now) }
{
    put_opening(out, b'{', Name::Svids)?;
    out.push(b'[')?;
    put_x509_items(alloc, out, svids)?;
    out.push(b']')?;
    Ok(())
}

#[tactic(auto, unfolding(crate::specs::Json::list_member))]
fn put_jwt_list(out: &mut Vec<u8>, svids: &[JwtItem]) -> Result<(), Memory>
    ensures { OnOk result (out.new.items ≡ out.old.items ++ list_member jwt_item 123 Name.Svids svids.now) }
{
    put_opening(out, b'{', Name::Svids)?;
    out.push(b'[')?;
    put_jwt_items(out, svids)?;
    out.push(b']')?;
    Ok(())
}

#[tactic(auto, unfolding(crate::specs::Json::map_member))]
fn put_map(
    alloc: Global,
    out: &mut Vec<u8>,
    lead: u8,
    name: Name,
    items: &[MapItem],
) -> Result<(), Memory>
    ensures { OnOk result (out.new.items ≡ out.old.items ++ map_member lead name items.now) }
{
    put_opening(out, lead, name)?;
    out.push(b'{')?;
    put_map_items(alloc, out, items)?;
    out.push(b'}')?;
    Ok(())
}

/// The object of an `X509SVIDResponse` and a newline: `svids` and `federated_bundles`.
#[tactic(auto, unfolding(crate::specs::Json::x509_json))]
pub fn put_x509_json(alloc: Global, out: &mut Vec<u8>, message: &X509Response) -> Result<(), Memory>
    ensures { OnOk result (out.new.items ≡ out.old.items ++ x509_json message.now) }
{
    put_x509_list(alloc, out, message.svids.as_slice())?;
    put_map(
        alloc,
        out,
        b',',
        Name::FederatedBundles,
        message.federated.as_slice(),
    )?;
    out.extend_from_slice(&[b'}', b'\n'])?;
    Ok(())
}

/// The object of an `X509BundlesResponse` and a newline: `bundles`.
#[tactic(auto, unfolding(crate::specs::Json::bundles_json))]
pub fn put_bundles_json(
    alloc: Global,
    out: &mut Vec<u8>,
    message: &BundlesResponse,
) -> Result<(), Memory>
    ensures { OnOk result (out.new.items ≡ out.old.items ++ bundles_json message.now) }
{
    put_map(alloc, out, b'{', Name::Bundles, message.bundles.as_slice())?;
    out.extend_from_slice(&[b'}', b'\n'])?;
    Ok(())
}

/// The object of a `JWTBundlesResponse` and a newline: `bundles`.
#[tactic(auto, unfolding(crate::specs::Json::jwt_bundles_json))]
pub fn put_jwt_bundles_json(
    alloc: Global,
    out: &mut Vec<u8>,
    message: &JwtBundlesResponse,
) -> Result<(), Memory>
    ensures { OnOk result (out.new.items ≡ out.old.items ++ jwt_bundles_json message.now) }
{
    put_map(alloc, out, b'{', Name::Bundles, message.bundles.as_slice())?;
    out.extend_from_slice(&[b'}', b'\n'])?;
    Ok(())
}

/// The object of a `JWTSVIDResponse` and a newline: `svids`.
#[tactic(auto, unfolding(crate::specs::Json::jwt_json))]
pub fn put_jwt_json(out: &mut Vec<u8>, message: &JwtResponse) -> Result<(), Memory>
    ensures { OnOk result (out.new.items ≡ out.old.items ++ jwt_json message.now) }
{
    put_jwt_list(out, message.svids.as_slice())?;
    out.extend_from_slice(&[b'}', b'\n'])?;
    Ok(())
}
