//! A document, read.

ghost use Rattle.std.specs.Prelude.{◌≡◌, ℕ, ◌≤◌, length, map, IfOk, IfErr};
ghost use Rattle.std.specs.Map.{values_of};
ghost use Rattle.std.specs.Option.{option_copied};
ghost use Rattle.serde_json.specs.View.{view};
ghost use Rattle.wl_entry.specs.declared.limits.TheConstants.{MAX_ENTRIES, MAX_BUNDLES};
ghost use Rattle.wl_document.specs.declared.limits.TheConstants.{MAX_SVIDS};
ghost use Rattle.json_members.specs.Members.{or_fault};
ghost use Rattle.json_members.specs.Texts.{value_of};
ghost use Rattle.wl_document.specs.Checks.{Gives};
ghost use Rattle.wl_entry.specs.Limits.{EntryWithin, BundleWithin};
ghost use Rattle.wl_document.specs.Kept.{kept_at, KeptWithin};
ghost use Rattle.wl_entry.specs.Keys.{bundle_key, entry_key};
ghost use Rattle.wl_document.specs.Svids.{doc_svid_key};
ghost use Rattle.wl_document.specs.States.{SvidWithin};
ghost use Rattle.wl_document.specs.Walks.{kept_own_bundles, kept_state};
ghost use Rattle.wl_document.specs.Documents.{has_x509, state_of, document_state};
ghost use Rattle.wl_document.specs.declared.fault.DocFault.TheVariants.{Memory, NotJson};

use crate::bundles::bundles;
use crate::entries::entries;
use crate::fault::{DocFault, Place};
use crate::kept::{find, values};
use crate::limits::DOCUMENT_LIMIT;
use crate::state::{AuthorityState, DocSvid};
use crate::svids::svids;
use crate::top::head_of;
use json_members::json_value;
use serde_json::Value;
use spiffe_id::TrustDomain;
use std::alloc::Global;
use std::collections::BTreeMap;
use wl_entry::{Bundle, Entry};
use wl_octets::{Octets, Row};

/// Whether the domain has an X.509 bundle that is not empty.
fn has_x509(kept: &BTreeMap<Octets, Bundle>, domain: &Octets) -> bool
    ensures { result ≡ has_x509 (kept_at kept.now.entries domain.now) }
{
    match find(kept, domain) {
        Some(bundle) => bundle.x509.len() != 0,
        None => false,
    }
}

/// The bundles, among which there has to be an X.509 bundle of the own domain.
#[tactic(auto, unfolding(crate::specs::Walks::kept_own_bundles))]
fn own_bundles(
    alloc: Global,
    own: &TrustDomain,
    values: &[Value],
) -> Result<BTreeMap<Octets, Bundle>, DocFault>
    requires { length values.now ≤ MAX_BUNDLES }
    ensures { Gives (λ m. m.entries) result (kept_own_bundles own.now (map view values.now)) }
{
    let bundles = bundles(alloc, values)?;
    let key = Octets::from_slice(alloc, own.as_bytes())?;
    if has_x509(&bundles, &key) {
        Ok(bundles)
    } else {
        Err(DocFault::NoOwnBundle)
    }
}

/// The JSON value of a document.
fn value(alloc: Global, document: &[u8]) -> Result<Value, DocFault>
    ensures { Gives view result (or_fault NotJson (value_of document.now)) }
{
    match json_value(alloc, document)? {
        Some(value) => Ok(value),
        None => Err(DocFault::NotJson),
    }
}

/// The state that a value's members name, by way of the maps.
#[tactic(auto, unfolding(crate::specs::Walks::kept_state))]
fn state_inner(
    alloc: Global,
    own: Option<&TrustDomain>,
    value: &Value,
) -> Result<AuthorityState, DocFault>
    ensures { Gives (λ s. s) result (kept_state (option_copied own.entry) (view value.now)) }
{
    let head = head_of(alloc, own, value)?;
    let bundles = own_bundles(alloc, &head.domain, head.arrays.bundles)?;
    let entries = entries(alloc, &head.domain, head.version, head.arrays.entries)?;
    let svids = svids(alloc, head.arrays.svids)?;
    state_from(
        alloc,
        head.domain,
        bundles,
        entries,
        svids,
        head.renew_before,
    )
}

/// The state that a value's members name.
fn state(
    alloc: Global,
    own: Option<&TrustDomain>,
    value: &Value,
) -> Result<AuthorityState, DocFault>
    ensures { Gives (λ s. s) result (state_of (option_copied own.entry) (view value.now)) }
{
    state_inner(alloc, own, value)
}

/// The state of these.
fn state_from(
    alloc: Global,
    domain: TrustDomain,
    bundles: BTreeMap<Octets, Bundle>,
    entries: BTreeMap<Octets, Entry>,
    svids: BTreeMap<Octets, DocSvid>,
    renew_before: u64,
) -> Result<AuthorityState, DocFault>
    requires bundles { KeptWithin bundle_key BundleWithin MAX_BUNDLES bundles.entries }
    requires entries { KeptWithin entry_key EntryWithin MAX_ENTRIES entries.entries }
    requires svids { KeptWithin doc_svid_key SvidWithin MAX_SVIDS svids.entries }
    ensures ok { IfOk result (λ s. s ≡ record {
      domain = domain;
      bundles = values_of bundles.entries;
      entries = values_of entries.entries;
      svids = values_of svids.entries;
      renew_before = renew_before;
    }) }
    ensures err { IfErr result (λ e. e ≡ Memory) }
{
    let bundles = values(alloc, bundles)?;
    let entries = values(alloc, entries)?;
    let svids = values(alloc, svids)?;
    Ok(AuthorityState {
        domain,
        bundles: Row::from_vec(bundles),
        entries: Row::from_vec(entries),
        svids: Row::from_vec(svids),
        renew_before,
    })
}

/// The state of a document, which has to be of the own trust domain where one is given. The first check that fails
/// is the fault.
#[tactic(auto, unfolding(crate::specs::Documents::document_state))]
pub fn read_state(
    alloc: Global,
    document: &[u8],
    own: Option<&TrustDomain>,
) -> Result<AuthorityState, DocFault>
    ensures { Gives (λ s. s) result (document_state (option_copied own.entry) document.now) }
{
    if document.len() > DOCUMENT_LIMIT {
        return Err(DocFault::TooLong(Place::top(0), document.len()));
    }
    let value = value(alloc, document)?;
    state(alloc, own, &value)
}
