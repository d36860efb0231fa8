//! Items of messages to bytes.

ghost use Rattle.std.specs.Prelude.{◌≡◌, ◌≤◌, ◌^◌, ◌++◌, length, OnOk, OnErr};
ghost use Rattle.std.specs.List.{flat_map};
ghost use Rattle.list_laws.specs.Lists.{GainsFront};
ghost use Rattle.pb_wire.specs.declared.field.TheConstants.{MAX_FIELD_NUMBER};
ghost use Rattle.pb_wire.specs.Spelling.{optional_field};
ghost use Rattle.workload_proto.specs.Spelling.{spell_x509_item, spell_jwt_item, spell_map_item, x509_field, jwt_field, map_field};

use crate::field_number;
use crate::message::{JwtItem, MapItem, X509Item};
use crate::size::{jwt_content_size, map_content_size, x509_content_size};
use pb_wire::{put_bytes, put_head};
use wl_octets::Memory;

/// A field that is left out where it is empty.
fn put_optional(out: &mut Vec<u8>, number: u32, bytes: &[u8]) -> Result<(), Memory>
    requires least { 1 ≤ number }
    requires most { number ≤ MAX_FIELD_NUMBER }
    ensures ok { OnOk result (out.new.items ≡ out.old.items ++ optional_field number bytes.now) }
    ensures err { OnErr result (GainsFront (optional_field number bytes.now) out.old.items out.new.items) }
{
    if bytes.is_empty() {
        Ok(())
    } else {
        put_bytes(out, number, bytes)
    }
}

#[tactic(auto, unfolding(crate::specs::Spelling::spell_x509_item))]
fn put_x509_content(
    out: &mut Vec<u8>,
    spiffe_id: &[u8],
    chain: &[u8],
    key: &[u8],
    bundle: &[u8],
    hint: &[u8],
) -> Result<(), Memory>
    ensures ok { OnOk result (out.new.items ≡ out.old.items ++ spell_x509_item (record {
      spiffe_id = spiffe_id.now;
      chain = chain.now;
      key = key.now;
      bundle = bundle.now;
      hint = hint.now;
    })) }
    ensures err { OnErr result (GainsFront (spell_x509_item (record {
      spiffe_id = spiffe_id.now;
      chain = chain.now;
      key = key.now;
      bundle = bundle.now;
      hint = hint.now;
    })) out.old.items out.new.items) }
{
    put_optional(out, field_number::X509_SVID_SPIFFE_ID, spiffe_id)?;
    put_optional(out, field_number::X509_SVID_CHAIN, chain)?;
    put_optional(out, field_number::X509_SVID_KEY, key)?;
    put_optional(out, field_number::X509_SVID_BUNDLE, bundle)?;
    put_optional(out, field_number::X509_SVID_HINT, hint)
}

/// Writes one SVID of an `X509SVIDResponse`, with its tag and its length, after what `out` holds. So a response can be
/// written item by item, with no copy of its parts. After `Memory` a prefix of it was written.
#[tactic(auto, unfolding(crate::specs::Spelling::x509_field))]
pub fn put_x509_item(
    out: &mut Vec<u8>,
    spiffe_id: &[u8],
    chain: &[u8],
    key: &[u8],
    bundle: &[u8],
    hint: &[u8],
) -> Result<(), Memory>
    requires { length (x509_field (record {
      spiffe_id = spiffe_id.now;
      chain = chain.now;
      key = key.now;
      bundle = bundle.now;
      hint = hint.now;
    })) ≤ 2 ^ 31 }
    ensures ok { OnOk result (out.new.items ≡ out.old.items ++ x509_field (record {
      spiffe_id = spiffe_id.now;
      chain = chain.now;
      key = key.now;
      bundle = bundle.now;
      hint = hint.now;
    })) }
    ensures err { OnErr result (GainsFront (x509_field (record {
      spiffe_id = spiffe_id.now;
      chain = chain.now;
      key = key.now;
      bundle = bundle.now;
      hint = hint.now;
    })) out.old.items out.new.items) }
{
    let size = x509_content_size(spiffe_id, chain, key, bundle, hint);
    put_head(out, field_number::X509_RESPONSE_SVIDS, size)?;
    put_x509_content(out, spiffe_id, chain, key, bundle, hint)
}

#[tactic(auto, unfolding(crate::specs::Spelling::spell_map_item))]
fn put_map_content(out: &mut Vec<u8>, key: &[u8], value: &[u8]) -> Result<(), Memory>
    ensures ok { OnOk result (out.new.items ≡ out.old.items ++ spell_map_item (record {
      key = key.now;
      value = value.now;
    })) }
    ensures err { OnErr result (GainsFront (spell_map_item (record {
      key = key.now;
      value = value.now;
    })) out.old.items out.new.items) }
{
    put_bytes(out, field_number::MAP_ITEM_KEY, key)?;
    put_bytes(out, field_number::MAP_ITEM_VALUE, value)
}

/// Writes one item of the map with this field number, with its tag and its length, after what `out` holds. The map is
/// number 3 in an `X509SVIDResponse`, 2 in an `X509BundlesResponse`, 1 in a `JWTBundlesResponse`. After `Memory` a prefix
/// of it was written.
#[tactic(auto, unfolding(crate::specs::Spelling::map_field))]
pub fn put_map_item(out: &mut Vec<u8>, number: u32, key: &[u8], value: &[u8]) -> Result<(), Memory>
    requires least { 1 ≤ number }
    requires most { number ≤ MAX_FIELD_NUMBER }
    requires size { length (map_field number (record { key = key.now; value = value.now })) ≤ 2 ^ 31 }
    ensures ok { OnOk result (out.new.items ≡ out.old.items ++ map_field number (record {
      key = key.now;
      value = value.now;
    })) }
    ensures err { OnErr result (GainsFront (map_field number (record {
      key = key.now;
      value = value.now;
    })) out.old.items out.new.items) }
{
    let size = map_content_size(key.len(), value);
    put_head(out, number, size)?;
    put_map_content(out, key, value)
}

#[tactic(auto, unfolding(crate::specs::Spelling::spell_jwt_item))]
fn put_jwt_content(out: &mut Vec<u8>, item: &JwtItem) -> Result<(), Memory>
    ensures { OnOk result (out.new.items ≡ out.old.items ++ spell_jwt_item item.now) }
{
    put_optional(
        out,
        field_number::JWT_SVID_SPIFFE_ID,
        item.spiffe_id.as_slice(),
    )?;
    put_optional(out, field_number::JWT_SVID_SVID, item.svid.as_slice())?;
    put_optional(out, field_number::JWT_SVID_HINT, item.hint.as_slice())
}

#[tactic(auto, unfolding(crate::specs::Spelling::jwt_field))]
fn put_jwt_item(out: &mut Vec<u8>, item: &JwtItem) -> Result<(), Memory>
    requires { length (jwt_field item.now) ≤ 2 ^ 31 }
    ensures { OnOk result (out.new.items ≡ out.old.items ++ jwt_field item.now) }
{
    let size = jwt_content_size(
        item.spiffe_id.as_slice(),
        item.svid.as_slice(),
        item.hint.as_slice(),
    );
    put_head(out, field_number::JWT_RESPONSE_SVIDS, size)?;
    put_jwt_content(out, item)
}

fn put_x509(out: &mut Vec<u8>, item: &X509Item) -> Result<(), Memory>
    requires { length (x509_field item.now) ≤ 2 ^ 31 }
    ensures { OnOk result (out.new.items ≡ out.old.items ++ x509_field item.now) }
{
    put_x509_item(
        out,
        item.spiffe_id.as_slice(),
        item.chain.as_slice(),
        item.key.as_slice(),
        item.bundle.as_slice(),
        item.hint.as_slice(),
    )
}

fn put_map(out: &mut Vec<u8>, number: u32, item: &MapItem) -> Result<(), Memory>
    requires least { 1 ≤ number }
    requires most { number ≤ MAX_FIELD_NUMBER }
    requires size { length (map_field number item.now) ≤ 2 ^ 31 }
    ensures { OnOk result (out.new.items ≡ out.old.items ++ map_field number item.now) }
{
    put_map_item(out, number, item.key.as_slice(), item.value.as_slice())
}

pub(crate) fn put_x509_items(out: &mut Vec<u8>, svids: &[X509Item]) -> Result<(), Memory>
    requires { length (flat_map x509_field svids.now) ≤ 2 ^ 31 }
    ensures { OnOk result (out.new.items ≡ out.old.items ++ flat_map x509_field svids.now) }
{
    for svid in svids {
        put_x509(out, svid)?;
    }
    Ok(())
}

pub(crate) fn put_map_items(out: &mut Vec<u8>, number: u32, items: &[MapItem]) -> Result<(), Memory>
    requires least { 1 ≤ number }
    requires most { number ≤ MAX_FIELD_NUMBER }
    requires size { length (flat_map (map_field number) items.now) ≤ 2 ^ 31 }
    ensures { OnOk result (out.new.items ≡ out.old.items ++ flat_map (map_field number) items.now) }
{
    for item in items {
        put_map(out, number, item)?;
    }
    Ok(())
}

pub(crate) fn put_jwt_items(out: &mut Vec<u8>, svids: &[JwtItem]) -> Result<(), Memory>
    requires { length (flat_map jwt_field svids.now) ≤ 2 ^ 31 }
    ensures { OnOk result (out.new.items ≡ out.old.items ++ flat_map jwt_field svids.now) }
{
    for svid in svids {
        put_jwt_item(out, svid)?;
    }
    Ok(())
}
