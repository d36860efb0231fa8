//! The bundles of a document.

ghost use Rattle.std.specs.Prelude.{◌≡◌, ℕ, ◌≤◌, length, map, IfOk};
ghost use Rattle.serde_json.specs.View.{view};
ghost use Rattle.wl_entry.specs.declared.limits.TheConstants.{MAX_BUNDLES};
ghost use Rattle.wl_document.specs.Checks.{Gives};
ghost use Rattle.wl_document.specs.Kept.{kept_has};
ghost use Rattle.wl_document.specs.Bundles.{x509_at, x509_of, bundle_name_of, bundle_domain_of, bundle_of};
ghost use Rattle.wl_document.specs.Walks.{kept_bundles};

use crate::fault::{DocFault, Place};
use crate::kept::{add, given};
use crate::names::{at_most, base64_at, domain_of, text_or_empty};
use json_members::object_at;
use serde_json::Value;
use spiffe_id::TrustDomain;
use std::alloc::Global;
use std::collections::BTreeMap;
use wl_entry::Bundle;
use wl_entry::limits::MAX_PART_LEN;
use wl_octets::Octets;

/// An X.509 bundle.
#[tactic(auto, unfolding(crate::specs::Bundles::x509_at))]
fn x509_at(alloc: Global, place: Place, value: &Value) -> Result<Octets, DocFault>
    ensures { Gives (λ o. o) result (x509_at place (view value.now)) }
{
    at_most(MAX_PART_LEN, place, base64_at(alloc, place, value)?)
}

/// The X.509 bundle of a bundle, empty where it is absent.
#[tactic(auto, unfolding(crate::specs::Bundles::x509_of))]
fn x509(alloc: Global, place: Place, value: &Value) -> Result<Octets, DocFault>
    ensures { Gives (λ o. o) result (x509_of place (view value.now)) }
{
    match value.get("x509") {
        Some(member) => x509_at(alloc, place, member),
        None => Ok(Octets::empty(alloc)),
    }
}

/// The domain of a bundle.
#[tactic(auto, unfolding(crate::specs::Bundles::bundle_name_of))]
fn bundle_name(alloc: Global, index: u32, value: &Value) -> Result<TrustDomain, DocFault>
    ensures { Gives (λ d. d) result (bundle_name_of index (view value.now)) }
{
    object_at(DocFault::Kind(Place::bundle(index, 0)), value)?;
    domain_of(alloc, Place::bundle(index, 1), "trust_domain", value)
}

/// A domain that no bundle before it has.
#[tactic(auto, unfolding(crate::specs::Bundles::bundle_domain_of))]
fn bundle_domain(
    alloc: Global,
    index: u32,
    before: &BTreeMap<Octets, Bundle>,
    value: &Value,
) -> Result<TrustDomain, DocFault>
    ensures { Gives (λ d. d) result (bundle_domain_of index (kept_has before.now.entries) (view value.now)) }
{
    let domain = bundle_name(alloc, index, value)?;
    let key = Octets::from_slice(alloc, domain.as_bytes())?;
    if given(before, &key) {
        return Err(DocFault::Duplicate(Place::bundle(index, 1)));
    }
    Ok(domain)
}

/// The bundle at this index, beside those before it.
#[tactic(auto, unfolding(crate::specs::Bundles::bundle_of))]
fn bundle(
    alloc: Global,
    index: u32,
    before: &BTreeMap<Octets, Bundle>,
    value: &Value,
) -> Result<Bundle, DocFault>
    ensures { Gives (λ b. b) result (bundle_of index (kept_has before.now.entries) (view value.now)) }
{
    let domain = bundle_domain(alloc, index, before, value)?;
    let x509 = x509(alloc, Place::bundle(index, 2), value)?;
    let jwks = text_or_empty(alloc, MAX_PART_LEN, Place::bundle(index, 3), "jwks", value)?;
    Ok(Bundle { domain, x509, jwks })
}

/// The bundles of an array, each at its domain.
pub(crate) fn bundles(alloc: Global, values: &[Value]) -> Result<BTreeMap<Octets, Bundle>, DocFault>
    requires { length values.now ≤ MAX_BUNDLES }
    ensures { Gives (λ m. m.entries) result (kept_bundles (map view values.now)) }
{
    let mut done = BTreeMap::new(alloc);
    let mut index: u32 = 0;
    for value in values {
        let bundle = bundle(alloc, index, &done, value)?;
        let key = Octets::from_slice(alloc, bundle.domain.as_bytes())?;
        add(&mut done, key, bundle)?;
        index += 1;
    }
    Ok(done)
}
