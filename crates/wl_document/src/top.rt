//! The members of the top.

ghost use Rattle.std.specs.Prelude.{◌≡◌, ℕ, ◌≤◌, Option, length, map, IfOk};
ghost use Rattle.std.specs.Option.{option_copied};
ghost use Rattle.serde_json.specs.View.{view};
ghost use Rattle.wl_entry.specs.declared.limits.TheConstants.{MAX_ENTRIES, MAX_BUNDLES};
ghost use Rattle.wl_document.specs.declared.limits.TheConstants.{MAX_SVIDS};
ghost use Rattle.wl_document.specs.Checks.{Gives};
ghost use Rattle.wl_document.specs.Documents.{version_of, is_own, top_domain_of, own_domain_of, lists_of, renew_before_of, top_of};

use crate::fault::{DocFault, Place};
use crate::limits::MAX_SVIDS;
use crate::members::{list_of, list_or_empty, number_of, number_or_zero};
use crate::names::{domain_of, same_bytes};
use json_members::object_at;
use serde_json::Value;
use spiffe_id::TrustDomain;
use std::alloc::Global;
use wl_entry::limits::{MAX_BUNDLES, MAX_ENTRIES};

/// The version of the document, 1 or 2.
#[tactic(auto, unfolding(crate::specs::Documents::version_of))]
fn version(value: &Value) -> Result<u64, DocFault>
    ensures { Gives (λ n. n) result (version_of (view value.now)) }
{
    let version = number_of(Place::top(1), "version", value)?;
    if version == 1 || version == 2 {
        Ok(version)
    } else {
        Err(DocFault::Version)
    }
}

/// The trust domain of the document.
#[tactic(auto, unfolding(crate::specs::Documents::top_domain_of))]
fn top_domain(alloc: Global, value: &Value) -> Result<TrustDomain, DocFault>
    ensures { Gives (λ d. d) result (top_domain_of (view value.now)) }
{
    domain_of(alloc, Place::top(2), "trust_domain", value)
}

/// Whether this is the own domain that was given, if any was.
fn is_own(own: Option<&TrustDomain>, domain: &TrustDomain) -> bool
    ensures { result ≡ is_own (option_copied own.entry) domain.now }
{
    match own {
        Some(own) => same_bytes(domain.as_bytes(), own.as_bytes()),
        None => true,
    }
}

/// The trust domain of the document, which is the own one that was given, if any was.
#[tactic(auto, unfolding(crate::specs::Documents::own_domain_of))]
fn own_domain(
    alloc: Global,
    own: Option<&TrustDomain>,
    value: &Value,
) -> Result<TrustDomain, DocFault>
    ensures { Gives (λ d. d) result (own_domain_of (option_copied own.entry) (view value.now)) }
{
    let domain = top_domain(alloc, value)?;
    if is_own(own, &domain) {
        Ok(domain)
    } else {
        Err(DocFault::ForeignDomain(Place::top(2)))
    }
}

/// The arrays of a document.
#[derive(Drop)]
pub(crate) struct Arrays<'a> {
    pub bundles: &'a [Value],
    pub entries: &'a [Value],
    pub svids: &'a [Value],
}

/// The arrays of a document.
#[tactic(auto, unfolding(crate::specs::Documents::lists_of))]
fn arrays_of(value: &Value) -> Result<Arrays, DocFault>
    ensures value { Gives (λ a. record {
      bundles = map view a.bundles.now;
      entries = map view a.entries.now;
      svids = map view a.svids.now;
    }) result (lists_of (view value.now)) }
    ensures bundles { IfOk result (λ a. length a.bundles.now ≤ MAX_BUNDLES) }
    ensures entries { IfOk result (λ a. length a.entries.now ≤ MAX_ENTRIES) }
    ensures svids { IfOk result (λ a. length a.svids.now ≤ MAX_SVIDS) }
{
    let bundles = list_of(MAX_BUNDLES, Place::top(3), "bundles", value)?;
    let entries = list_of(MAX_ENTRIES, Place::top(4), "entries", value)?;
    let svids = list_or_empty(MAX_SVIDS, Place::top(5), "svids", value)?;
    Ok(Arrays {
        bundles,
        entries,
        svids,
    })
}

/// The second since which identities and tokens have to be signed.
#[tactic(auto, unfolding(crate::specs::Documents::renew_before_of))]
fn renew_before_of(value: &Value) -> Result<u64, DocFault>
    ensures { Gives (λ n. n) result (renew_before_of (view value.now)) }
{
    number_or_zero(Place::top(6), "renew_before", value)
}

/// The members of the top.
#[derive(Drop)]
pub(crate) struct Head<'a> {
    pub version: u64,
    pub domain: TrustDomain,
    pub arrays: Arrays<'a>,
    pub renew_before: u64,
}

/// The members of the top.
#[tactic(auto, unfolding(crate::specs::Documents::top_of))]
pub(crate) fn head_of<'a>(
    alloc: Global,
    own: Option<&TrustDomain>,
    value: &'a Value,
) -> Result<Head<'a>, DocFault>
    ensures value { Gives (λ h. record {
      version = h.version;
      domain = h.domain;
      bundles = map view h.arrays.bundles.now;
      entries = map view h.arrays.entries.now;
      svids = map view h.arrays.svids.now;
      renew_before = h.renew_before;
    }) result (top_of (option_copied own.entry) (view value.now)) }
    ensures bundles { IfOk result (λ h. length h.arrays.bundles.now ≤ MAX_BUNDLES) }
    ensures entries { IfOk result (λ h. length h.arrays.entries.now ≤ MAX_ENTRIES) }
    ensures svids { IfOk result (λ h. length h.arrays.svids.now ≤ MAX_SVIDS) }
{
    object_at(DocFault::Kind(Place::top(0)), value)?;
    let version = version(value)?;
    let domain = own_domain(alloc, own, value)?;
    let arrays = arrays_of(value)?;
    let renew_before = renew_before_of(value)?;
    Ok(Head {
        version,
        domain,
        arrays,
        renew_before,
    })
}
