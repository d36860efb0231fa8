//! The messages of a view, written item by item: no part is copied but into its message.

ghost use Rattle.std.specs.Prelude.{◌≡◌, ◌≤◌, ◌^◌, ◌++◌, List, codes, length, IfOk, OnOk};
ghost use Rattle.std.specs.List.{flat_map};
ghost use Rattle.workload_proto.specs.declared.field_number.TheConstants.{JWT_BUNDLES_BUNDLES, X509_BUNDLES_BUNDLES, X509_RESPONSE_FEDERATED_BUNDLES};
ghost use Rattle.workload_proto.specs.Spelling.{x509_field, map_field, spell_x509};
ghost use Rattle.wl_snapshot.specs.Answers.{x509_bundle, x509_items, federated_item, map_item, x509_map_item, jwks_map_item, x509_message, message_of};

use crate::answers::Method3;
use crate::views::{Held, View};
use sorted_lists::find_by_key;
use std::alloc::Global;
use wl_entry::Bundle;
use wl_octets::{Memory, Octets, Shared};
use workload_proto::{field_number, put_map_item, put_x509_item};

/// The X.509 bundle of the own domain, empty where there is none.
#[tactic(auto, unfolding(crate::specs::Answers::x509_bundle))]
pub(crate) fn own_bundle(view: &View) -> &[u8]
    ensures { result.now ≡ x509_bundle view.now view.now.domain }
{
    match find_by_key(view.bundles.as_slice(), view.domain.as_bytes()) {
        Some(bundle) => bundle.part().x509.as_slice(),
        None => &[],
    }
}

/// Writes an entry's `X509SVID`, where it has its SVID.
#[tactic(auto, unfolding(crate::specs::Answers::x509_items))]
fn put_svid(out: &mut Vec<u8>, own: &[u8], held: &Held) -> Result<(), Memory>
    requires { length (flat_map x509_field (x509_items own.now held.now)) ≤ 2 ^ 31 }
    ensures { OnOk result
        (out.new.items ≡ out.old.items ++ flat_map x509_field (x509_items own.now held.now)) }
{
    let Some(svid) = &held.svid else {
        return Ok(());
    };
    let entry = held.entry.part();
    let signed = &svid.part().signed;
    put_x509_item(
        out,
        entry.spiffe_id.as_bytes(),
        signed.chain.as_slice(),
        signed.key.as_slice(),
        own,
        entry.hint.as_slice(),
    )
}

fn put_svids(out: &mut Vec<u8>, own: &[u8], held: &[Held]) -> Result<(), Memory>
    requires { length (flat_map x509_field (flat_map (x509_items own.now) held.now)) ≤ 2 ^ 31 }
    ensures { OnOk result
        (out.new.items ≡ out.old.items ++ flat_map x509_field (flat_map (x509_items own.now) held.now)) }
{
    for one in held {
        put_svid(out, own, one)?;
    }
    Ok(())
}

/// A domain's id, which is a map's key.
fn domain_key(alloc: Global, domain: &[u8]) -> Result<Octets, Memory>
    ensures { IfOk result (λ o. o ≡ codes "spiffe://" ++ domain.now) }
{
    let mut key = Octets::from_slice(alloc, b"spiffe://")?;
    key.push_slice(domain)?;
    Ok(key)
}

/// Writes an item of the map of this number from the ids of domains, where its value is not empty.
fn put_item(
    alloc: Global,
    out: &mut Vec<u8>,
    number: u32,
    domain: &[u8],
    value: &[u8],
) -> Result<(), Memory>
    requires least { 1 ≤ number }
    requires most { number ≤ 3 }
    requires size { length (flat_map (map_field number) (map_item domain.now value.now)) ≤ 2 ^ 31 }
    ensures { OnOk result
        (out.new.items ≡ out.old.items ++ flat_map (map_field number) (map_item domain.now value.now)) }
{
    if value.is_empty() {
        return Ok(());
    }
    let key = domain_key(alloc, domain)?;
    put_map_item(out, number, key.as_slice(), value)
}

/// Writes a foreign domain's X.509 bundle.
#[tactic(auto, unfolding(crate::specs::Answers::federated_item))]
fn put_foreign(alloc: Global, out: &mut Vec<u8>, own: &[u8], bundle: &Bundle) -> Result<(), Memory>
    requires { length
        (flat_map (map_field X509_RESPONSE_FEDERATED_BUNDLES) (federated_item own.now bundle.now))
        ≤ 2 ^ 31 }
    ensures { OnOk result
        (out.new.items
        ≡ out.old.items
        ++ flat_map (map_field X509_RESPONSE_FEDERATED_BUNDLES) (federated_item own.now bundle.now)) }
{
    if bundle.domain.as_bytes() == own {
        return Ok(());
    }
    let domain = bundle.domain.as_bytes();
    put_item(
        alloc,
        out,
        field_number::X509_RESPONSE_FEDERATED_BUNDLES,
        domain,
        bundle.x509.as_slice(),
    )
}

fn put_federated(
    alloc: Global,
    out: &mut Vec<u8>,
    own: &[u8],
    bundles: &[Shared<Bundle>],
) -> Result<(), Memory>
    requires { length
        (flat_map (map_field X509_RESPONSE_FEDERATED_BUNDLES) (flat_map (federated_item own.now) bundles.now))
        ≤ 2 ^ 31 }
    ensures { OnOk result
        (out.new.items
        ≡ out.old.items
        ++ flat_map (map_field X509_RESPONSE_FEDERATED_BUNDLES)
        (flat_map (federated_item own.now) bundles.now)) }
{
    for bundle in bundles {
        put_foreign(alloc, out, own, bundle.part())?;
    }
    Ok(())
}

#[tactic(auto, unfolding(crate::specs::Answers::x509_map_item))]
fn put_x509_part(alloc: Global, out: &mut Vec<u8>, bundle: &Bundle) -> Result<(), Memory>
    requires { length (flat_map (map_field X509_BUNDLES_BUNDLES) (x509_map_item bundle.now)) ≤ 2 ^ 31 }
    ensures { OnOk result
        (out.new.items
        ≡ out.old.items ++ flat_map (map_field X509_BUNDLES_BUNDLES) (x509_map_item bundle.now)) }
{
    let domain = bundle.domain.as_bytes();
    put_item(
        alloc,
        out,
        field_number::X509_BUNDLES_BUNDLES,
        domain,
        bundle.x509.as_slice(),
    )
}

fn put_x509_bundles(
    alloc: Global,
    out: &mut Vec<u8>,
    bundles: &[Shared<Bundle>],
) -> Result<(), Memory>
    requires { length (flat_map (map_field X509_BUNDLES_BUNDLES) (flat_map x509_map_item bundles.now))
        ≤ 2 ^ 31 }
    ensures { OnOk result
        (out.new.items
        ≡ out.old.items ++ flat_map (map_field X509_BUNDLES_BUNDLES) (flat_map x509_map_item bundles.now)) }
{
    for bundle in bundles {
        put_x509_part(alloc, out, bundle.part())?;
    }
    Ok(())
}

#[tactic(auto, unfolding(crate::specs::Answers::jwks_map_item))]
fn put_jwks_part(alloc: Global, out: &mut Vec<u8>, bundle: &Bundle) -> Result<(), Memory>
    requires { length (flat_map (map_field JWT_BUNDLES_BUNDLES) (jwks_map_item bundle.now)) ≤ 2 ^ 31 }
    ensures { OnOk result
        (out.new.items
        ≡ out.old.items ++ flat_map (map_field JWT_BUNDLES_BUNDLES) (jwks_map_item bundle.now)) }
{
    let domain = bundle.domain.as_bytes();
    put_item(
        alloc,
        out,
        field_number::JWT_BUNDLES_BUNDLES,
        domain,
        bundle.jwks.as_slice(),
    )
}

fn put_jwks_bundles(
    alloc: Global,
    out: &mut Vec<u8>,
    bundles: &[Shared<Bundle>],
) -> Result<(), Memory>
    requires { length (flat_map (map_field JWT_BUNDLES_BUNDLES) (flat_map jwks_map_item bundles.now))
        ≤ 2 ^ 31 }
    ensures { OnOk result
        (out.new.items
        ≡ out.old.items ++ flat_map (map_field JWT_BUNDLES_BUNDLES) (flat_map jwks_map_item bundles.now)) }
{
    for bundle in bundles {
        put_jwks_part(alloc, out, bundle.part())?;
    }
    Ok(())
}

/// Writes `X509SVIDResponse` of a view.
#[tactic(auto, unfolding(crate::specs::Answers::x509_message, workload_proto::specs::Spelling::spell_x509))]
fn put_x509(alloc: Global, out: &mut Vec<u8>, view: &View) -> Result<(), Memory>
    requires { length (spell_x509 (x509_message view.now)) ≤ 2 ^ 31 }
    ensures { OnOk result (out.new.items ≡ out.old.items ++ spell_x509 (x509_message view.now)) }
{
    put_svids(out, own_bundle(view), view.held.as_slice())?;
    let own = view.domain.as_bytes();
    put_federated(alloc, out, own, view.bundles.as_slice())
}

/// Writes a method's message after what `out` holds.
#[tactic(auto, unfolding(crate::specs::Answers::message_of, crate::specs::Answers::bundles_message, crate::specs::Answers::jwt_bundles_message, workload_proto::specs::Spelling::spell_bundles, workload_proto::specs::Spelling::spell_jwt_bundles))]
pub(crate) fn put_message(
    alloc: Global,
    out: &mut Vec<u8>,
    method: Method3,
    view: &View,
) -> Result<(), Memory>
    requires { length (message_of method view.now) ≤ 2 ^ 31 }
    ensures { OnOk result (out.new.items ≡ out.old.items ++ message_of method view.now) }
{
    match method {
        Method3::X509Svid => put_x509(alloc, out, view),
        Method3::X509Bundles => put_x509_bundles(alloc, out, view.bundles.as_slice()),
        Method3::JwtBundles => put_jwks_bundles(alloc, out, view.bundles.as_slice()),
    }
}
