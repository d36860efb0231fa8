//! How many bytes a message has in its encoding: a count of 64 bits that stands still at its end.

ghost use Rattle.std.specs.Prelude.{◌≡◌, ◌≤◌, ◌+◌, ◌*◌, ◌++◌, ℕ, List, length};
ghost use Rattle.std.specs.List.{flat_map};
ghost use Rattle.pb_wire.specs.Varint.{varint};
ghost use Rattle.pb_wire.specs.Spelling.{field, optional_field};
ghost use Rattle.workload_proto.specs.Spelling.{capped, spell_x509_item, spell_jwt_item, spell_map_item, spell_x509, spell_bundles, spell_jwt_bundles, spell_jwt, x509_field, jwt_field, map_field};

use crate::field_number;
use crate::message::{
    BundlesResponse, JwtBundlesResponse, JwtItem, JwtResponse, MapItem, X509Item, X509Response,
};
use pb_wire::size_of_varint;

/// The size of a field whose content has this size.
fn field_size(number: u32, len: u64) -> u64
    ensures { (content : List ℕ) → len ≡ capped (length content)
        → result ≡ capped (length (field number content)) }
{
    let head = size_of_varint(8 * u64::from(number) + 2) + size_of_varint(len);
    len.saturating_add(head as u64)
}

/// The size of a field that is left out where it is empty.
fn optional_size(number: u32, bytes: &[u8]) -> u64
    ensures { result ≡ capped (length (optional_field number bytes.now)) }
{
    if bytes.is_empty() {
        0
    } else {
        field_size(number, bytes.len() as u64)
    }
}

/// The size of an `X509SVID` without its tag and its length.
pub(crate) fn x509_content_size(
    spiffe_id: &[u8],
    chain: &[u8],
    key: &[u8],
    bundle: &[u8],
    hint: &[u8],
) -> u64
    ensures { result ≡ capped (length (spell_x509_item (record {
      spiffe_id = spiffe_id.now;
      chain = chain.now;
      key = key.now;
      bundle = bundle.now;
      hint = hint.now;
    }))) }
{
    let id = optional_size(field_number::X509_SVID_SPIFFE_ID, spiffe_id);
    let secrets = optional_size(field_number::X509_SVID_CHAIN, chain).saturating_add(optional_size(
        field_number::X509_SVID_KEY,
        key,
    ));
    let others = optional_size(field_number::X509_SVID_BUNDLE, bundle).saturating_add(optional_size(
        field_number::X509_SVID_HINT,
        hint,
    ));
    id.saturating_add(secrets).saturating_add(others)
}

/// The size of an item of a map without its tag and its length.
pub(crate) fn map_content_size(key_len: usize, value: &[u8]) -> u64
    ensures { (key : List ℕ) → length key ≡ key_len
        → result ≡ capped (length (spell_map_item (record { key = key; value = value.now }))) }
{
    field_size(field_number::MAP_ITEM_KEY, key_len as u64).saturating_add(field_size(
        field_number::MAP_ITEM_VALUE,
        value.len() as u64,
    ))
}

/// The size of a `JWTSVID` without its tag and its length.
pub(crate) fn jwt_content_size(spiffe_id: &[u8], svid: &[u8], hint: &[u8]) -> u64
    ensures { result ≡ capped (length (spell_jwt_item (record {
      spiffe_id = spiffe_id.now;
      svid = svid.now;
      hint = hint.now;
    }))) }
{
    let id = optional_size(field_number::JWT_SVID_SPIFFE_ID, spiffe_id);
    id.saturating_add(optional_size(field_number::JWT_SVID_SVID, svid))
        .saturating_add(optional_size(field_number::JWT_SVID_HINT, hint))
}

/// The size of one SVID in an `X509SVIDResponse`, with its tag and its length. A response has the sum of the sizes of
/// its items, so it can be counted before it is made.
#[tactic(auto, unfolding(crate::specs::Spelling::x509_field))]
pub fn x509_item_size(spiffe_id: &[u8], chain: &[u8], key: &[u8], bundle: &[u8], hint: &[u8]) -> u64
    ensures { result ≡ capped (length (x509_field (record {
      spiffe_id = spiffe_id.now;
      chain = chain.now;
      key = key.now;
      bundle = bundle.now;
      hint = hint.now;
    }))) }
{
    field_size(
        field_number::X509_RESPONSE_SVIDS,
        x509_content_size(spiffe_id, chain, key, bundle, hint),
    )
}

/// The size of one item in the map with this field number, with its tag and its length, where its key has `key_len`
/// bytes. The map is number 3 in an `X509SVIDResponse`, 2 in an `X509BundlesResponse`, 1 in a `JWTBundlesResponse`.
#[tactic(auto, unfolding(crate::specs::Spelling::map_field))]
pub fn map_item_size(number: u32, key_len: usize, value: &[u8]) -> u64
    ensures { (key : List ℕ) → length key ≡ key_len
        → result ≡ capped (length (map_field number (record { key = key; value = value.now }))) }
{
    field_size(number, map_content_size(key_len, value))
}

/// The size of one SVID in a `JWTSVIDResponse`, with its tag and its length.
#[tactic(auto, unfolding(crate::specs::Spelling::jwt_field))]
pub fn jwt_item_size(spiffe_id: &[u8], svid: &[u8], hint: &[u8]) -> u64
    ensures { result ≡ capped (length (jwt_field (record {
      spiffe_id = spiffe_id.now;
      svid = svid.now;
      hint = hint.now;
    }))) }
{
    field_size(
        field_number::JWT_RESPONSE_SVIDS,
        jwt_content_size(spiffe_id, svid, hint),
    )
}

fn x509_items_size(svids: &[X509Item]) -> u64
    ensures { result ≡ capped (length (flat_map x509_field svids.now)) }
{
    let mut size: u64 = 0;
    for svid in svids {
        size = size.saturating_add(x509_item_size(
            svid.spiffe_id.as_slice(),
            svid.chain.as_slice(),
            svid.key.as_slice(),
            svid.bundle.as_slice(),
            svid.hint.as_slice(),
        ));
    }
    size
}

fn map_items_size(number: u32, items: &[MapItem]) -> u64
    ensures { result ≡ capped (length (flat_map (map_field number) items.now)) }
{
    let mut size: u64 = 0;
    for item in items {
        size = size.saturating_add(map_item_size(number, item.key.len(), item.value.as_slice()));
    }
    size
}

fn jwt_items_size(svids: &[JwtItem]) -> u64
    ensures { result ≡ capped (length (flat_map jwt_field svids.now)) }
{
    let mut size: u64 = 0;
    for svid in svids {
        size = size.saturating_add(jwt_item_size(
            svid.spiffe_id.as_slice(),
            svid.svid.as_slice(),
            svid.hint.as_slice(),
        ));
    }
    size
}

/// The size of an `X509SVIDResponse`.
#[tactic(auto, unfolding(crate::specs::Spelling::spell_x509))]
pub fn size_x509(message: &X509Response) -> u64
    ensures { result ≡ capped (length (spell_x509 message.now)) }
{
    let svids = x509_items_size(message.svids.as_slice());
    let federated = map_items_size(
        field_number::X509_RESPONSE_FEDERATED_BUNDLES,
        message.federated.as_slice(),
    );
    svids.saturating_add(federated)
}

/// The size of an `X509BundlesResponse`.
#[tactic(auto, unfolding(crate::specs::Spelling::spell_bundles))]
pub fn size_bundles(message: &BundlesResponse) -> u64
    ensures { result ≡ capped (length (spell_bundles message.now)) }
{
    map_items_size(
        field_number::X509_BUNDLES_BUNDLES,
        message.bundles.as_slice(),
    )
}

/// The size of a `JWTBundlesResponse`.
#[tactic(auto, unfolding(crate::specs::Spelling::spell_jwt_bundles))]
pub fn size_jwt_bundles(message: &JwtBundlesResponse) -> u64
    ensures { result ≡ capped (length (spell_jwt_bundles message.now)) }
{
    map_items_size(
        field_number::JWT_BUNDLES_BUNDLES,
        message.bundles.as_slice(),
    )
}

/// The size of a `JWTSVIDResponse`.
#[tactic(auto, unfolding(crate::specs::Spelling::spell_jwt))]
pub fn size_jwt(message: &JwtResponse) -> u64
    ensures { result ≡ capped (length (spell_jwt message.now)) }
{
    jwt_items_size(message.svids.as_slice())
}
