//! How many bytes a view's messages have, counted without making them: counts of 64 bits that stand still at their
//! end.

ghost use Rattle.std.specs.Prelude.{◌≡◌, List, length};
ghost use Rattle.std.specs.List.{flat_map};
ghost use Rattle.workload_proto.specs.declared.field_number.TheConstants.{JWT_BUNDLES_BUNDLES, X509_BUNDLES_BUNDLES, X509_RESPONSE_FEDERATED_BUNDLES};
ghost use Rattle.workload_proto.specs.Spelling.{capped, x509_field, map_field};
ghost use Rattle.wl_snapshot.specs.Answers.{x509_items, federated_item, map_item, x509_map_item, jwks_map_item, message_of};
ghost use Rattle.wl_snapshot.specs.declared.answers.Method3.TheVariants as Method3;

use crate::answers::Method3;
use crate::messages::own_bundle;
use crate::views::{Held, View};
use wl_entry::Bundle;
use wl_octets::Shared;
use workload_proto::{field_number, map_item_size, x509_item_size};

/// How many bytes `spiffe://` has.
const SCHEME: usize = 9;

#[tactic(auto, unfolding(crate::specs::Answers::x509_items))]
fn svid_size(own: &[u8], held: &Held) -> u64
    ensures { result ≡ capped (length (flat_map x509_field (x509_items own.now held.now))) }
{
    let entry = held.entry.part();
    match &held.svid {
        Some(svid) => x509_item_size(
            entry.spiffe_id.as_bytes(),
            svid.part().signed.chain.as_slice(),
            svid.part().signed.key.as_slice(),
            own,
            entry.hint.as_slice(),
        ),
        None => 0,
    }
}

fn svids_size(own: &[u8], held: &[Held]) -> u64
    ensures { result ≡ capped (length (flat_map x509_field (flat_map (x509_items own.now) held.now))) }
{
    let mut size: u64 = 0;
    for one in held {
        size = size.saturating_add(svid_size(own, one));
    }
    size
}

/// The size of an item in the map of this number, where its value is not empty.
fn item_size(number: u32, domain: &[u8], value: &[u8]) -> u64
    ensures { result ≡ capped (length (flat_map (map_field number) (map_item domain.now value.now))) }
{
    if value.is_empty() {
        0
    } else {
        map_item_size(number, SCHEME + domain.len(), value)
    }
}

#[tactic(auto, unfolding(crate::specs::Answers::federated_item))]
fn federated_item_size(own: &[u8], bundle: &Bundle) -> u64
    ensures { result
        ≡ capped
        (length (flat_map (map_field X509_RESPONSE_FEDERATED_BUNDLES) (federated_item own.now bundle.now))) }
{
    if bundle.domain.as_bytes() == own {
        0
    } else {
        item_size(
            field_number::X509_RESPONSE_FEDERATED_BUNDLES,
            bundle.domain.as_bytes(),
            bundle.x509.as_slice(),
        )
    }
}

fn federated_size(own: &[u8], bundles: &[Shared<Bundle>]) -> u64
    ensures { result
        ≡ capped
        (length
        (flat_map (map_field X509_RESPONSE_FEDERATED_BUNDLES)
        (flat_map (federated_item own.now) bundles.now))) }
{
    let mut size: u64 = 0;
    for bundle in bundles {
        size = size.saturating_add(federated_item_size(own, bundle.part()));
    }
    size
}

#[tactic(auto, unfolding(crate::specs::Answers::x509_map_item))]
fn x509_part_size(bundle: &Bundle) -> u64
    ensures { result
        ≡ capped (length (flat_map (map_field X509_BUNDLES_BUNDLES) (x509_map_item bundle.now))) }
{
    item_size(
        field_number::X509_BUNDLES_BUNDLES,
        bundle.domain.as_bytes(),
        bundle.x509.as_slice(),
    )
}

fn x509_bundles_size(bundles: &[Shared<Bundle>]) -> u64
    ensures { result
        ≡ capped (length (flat_map (map_field X509_BUNDLES_BUNDLES) (flat_map x509_map_item bundles.now))) }
{
    let mut size: u64 = 0;
    for bundle in bundles {
        size = size.saturating_add(x509_part_size(bundle.part()));
    }
    size
}

#[tactic(auto, unfolding(crate::specs::Answers::jwks_map_item))]
fn jwks_part_size(bundle: &Bundle) -> u64
    ensures { result ≡ capped (length (flat_map (map_field JWT_BUNDLES_BUNDLES) (jwks_map_item bundle.now))) }
{
    item_size(
        field_number::JWT_BUNDLES_BUNDLES,
        bundle.domain.as_bytes(),
        bundle.jwks.as_slice(),
    )
}

fn jwks_bundles_size(bundles: &[Shared<Bundle>]) -> u64
    ensures { result
        ≡ capped (length (flat_map (map_field JWT_BUNDLES_BUNDLES) (flat_map jwks_map_item bundles.now))) }
{
    let mut size: u64 = 0;
    for bundle in bundles {
        size = size.saturating_add(jwks_part_size(bundle.part()));
    }
    size
}

#[tactic(auto, unfolding(crate::specs::Answers::message_of, crate::specs::Answers::x509_message, workload_proto::specs::Spelling::spell_x509))]
fn x509_size(view: &View) -> u64
    ensures { result ≡ capped (length (message_of Method3.X509Svid view.now)) }
{
    let svids = svids_size(own_bundle(view), view.held.as_slice());
    svids.saturating_add(federated_size(view.domain.as_bytes(), view.bundles.as_slice()))
}

#[tactic(auto, unfolding(crate::specs::Answers::message_of, crate::specs::Answers::bundles_message, workload_proto::specs::Spelling::spell_bundles))]
fn bundles_size(view: &View) -> u64
    ensures { result ≡ capped (length (message_of Method3.X509Bundles view.now)) }
{
    x509_bundles_size(view.bundles.as_slice())
}

#[tactic(auto, unfolding(crate::specs::Answers::message_of, crate::specs::Answers::jwt_bundles_message, workload_proto::specs::Spelling::spell_jwt_bundles))]
fn jwt_bundles_size(view: &View) -> u64
    ensures { result ≡ capped (length (message_of Method3.JwtBundles view.now)) }
{
    jwks_bundles_size(view.bundles.as_slice())
}

/// The size of a method's message.
pub(crate) fn size_of(method: Method3, view: &View) -> u64
    ensures { result ≡ capped (length (message_of method view.now)) }
{
    match method {
        Method3::X509Svid => x509_size(view),
        Method3::X509Bundles => bundles_size(view),
        Method3::JwtBundles => jwt_bundles_size(view),
    }
}
