//! The entries of a document.

ghost use Rattle.std.specs.Prelude.{◌≡◌, ℕ, ◌≤◌, length, map, IfOk};
ghost use Rattle.serde_json.specs.View.{view};
ghost use Rattle.wl_entry.specs.declared.limits.TheConstants.{MAX_ENTRIES, MAX_FEDERATED};
ghost use Rattle.wl_document.specs.Checks.{Gives};
ghost use Rattle.wl_document.specs.Kept.{kept_has};
ghost use Rattle.wl_document.specs.Entries.{selectors_of, federated_list_of, federates_with_of, dns_names_in, ttl_at, ttl_of, hint_of, extras_of, entry_name_of, entry_of};
ghost use Rattle.wl_document.specs.Walks.{kept_entries};

use crate::fault::{DocFault, Place};
use crate::kept::{add, given};
use crate::limits::{DEFAULT_TTL, MAX_TTL};
use crate::lists::{dns_names, federates, selectors};
use crate::members::{list_of, list_or_empty};
use crate::names::{id_of, name_of, text_or_empty};
use json_members::{number_at, object_at};
use serde_json::Value;
use spiffe_id::TrustDomain;
use std::alloc::Global;
use std::collections::BTreeMap;
use wl_entry::Entry;
use wl_entry::limits::{MAX_DNS_NAMES, MAX_FEDERATED, MAX_HINT_LEN, MAX_SELECTORS};
use wl_octets::{Octets, Row};
use wl_selector::{Selectors, SelectorsFault};

/// The selectors of an entry.
#[tactic(auto, unfolding(crate::specs::Entries::selectors_of))]
fn selectors_in(alloc: Global, place: Place, value: &Value) -> Result<Selectors, DocFault>
    ensures { Gives (λ s. s) result (selectors_of place (view value.now)) }
{
    let values = list_of(MAX_SELECTORS, place, "selectors", value)?;
    if values.is_empty() {
        return Err(DocFault::NoSelectors(place));
    }
    match Selectors::from_list(
        alloc,
        selectors(alloc, place, values)?,
        MAX_SELECTORS as u32,
    ) {
        Ok(selectors) => Ok(selectors),
        Err(SelectorsFault::TooMany(_)) => unreachable!(),
        Err(SelectorsFault::Memory) => Err(DocFault::Memory),
    }
}

/// The array of federated domains.
#[tactic(auto, unfolding(crate::specs::Entries::federated_list_of))]
fn federated_list(index: u32, value: &Value) -> Result<&[Value], DocFault>
    ensures value { Gives (λ v. map view v.now) result (federated_list_of index (view value.now)) }
    ensures at_most { IfOk result (λ v. length v.now ≤ MAX_FEDERATED) }
{
    list_or_empty(
        MAX_FEDERATED,
        Place::entry(index, 4),
        "federates_with",
        value,
    )
}

/// The federated domains of an entry.
#[tactic(auto, unfolding(crate::specs::Entries::federates_with_of))]
fn federates_with(alloc: Global, index: u32, value: &Value) -> Result<Row<TrustDomain>, DocFault>
    ensures { Gives (λ r. r) result (federates_with_of index (view value.now)) }
{
    let values = federated_list(index, value)?;
    let domains = federates(alloc, Place::entry(index, 4), values)?;
    Ok(Row::from_vec(domains))
}

/// The DNS names of an entry.
#[tactic(auto, unfolding(crate::specs::Entries::dns_names_in))]
fn dns_names_in(alloc: Global, index: u32, value: &Value) -> Result<Row<Octets>, DocFault>
    ensures { Gives (λ r. r) result (dns_names_in index (view value.now)) }
{
    let place = Place::entry(index, 5);
    let values = list_or_empty(MAX_DNS_NAMES, place, "dns_names", value)?;
    let names = dns_names(alloc, place, values)?;
    Ok(Row::from_vec(names))
}

/// A validity time in seconds.
#[tactic(auto, unfolding(crate::specs::Entries::ttl_at))]
fn ttl_at(place: Place, value: &Value) -> Result<u32, DocFault>
    ensures { Gives (λ n. n) result (ttl_at place (view value.now)) }
{
    let ttl = number_at(DocFault::Kind(place), value)?;
    if ttl == 0 || ttl > MAX_TTL {
        return Err(DocFault::Kind(place));
    }
    Ok(ttl as u32)
}

/// The validity time of an entry in seconds.
#[tactic(auto, unfolding(crate::specs::Entries::ttl_of))]
fn ttl(place: Place, value: &Value) -> Result<u32, DocFault>
    ensures { Gives (λ n. n) result (ttl_of place (view value.now)) }
{
    match value.get("ttl") {
        Some(member) => ttl_at(place, member),
        None => Ok(DEFAULT_TTL),
    }
}

/// The hint of an entry, which version 1 does not know.
#[tactic(auto, unfolding(crate::specs::Entries::hint_of))]
fn hint(alloc: Global, version: u64, place: Place, value: &Value) -> Result<Octets, DocFault>
    ensures { Gives (λ o. o) result (hint_of version place (view value.now)) }
{
    if version == 2 {
        text_or_empty(alloc, MAX_HINT_LEN, place, "hint", value)
    } else {
        Ok(Octets::empty(alloc))
    }
}

/// The fields of an entry that have a default.
#[derive(Drop)]
pub(crate) struct Extra {
    pub federates_with: Row<TrustDomain>,
    pub dns_names: Row<Octets>,
    pub ttl: u32,
    pub hint: Octets,
}

/// The fields of an entry that have a default.
#[tactic(auto, unfolding(crate::specs::Entries::extras_of))]
fn extras(alloc: Global, version: u64, index: u32, value: &Value) -> Result<Extra, DocFault>
    ensures { Gives (λ x. record {
      federates_with = x.federates_with;
      dns_names = x.dns_names;
      ttl = x.ttl;
      hint = x.hint;
    }) result (extras_of version index (view value.now)) }
{
    let federates_with = federates_with(alloc, index, value)?;
    let dns_names = dns_names_in(alloc, index, value)?;
    let ttl = ttl(Place::entry(index, 6), value)?;
    let hint = hint(alloc, version, Place::entry(index, 7), value)?;
    Ok(Extra {
        federates_with,
        dns_names,
        ttl,
        hint,
    })
}

/// An id that no entry before it has.
#[tactic(auto, unfolding(crate::specs::Entries::entry_name_of))]
fn entry_name(
    alloc: Global,
    index: u32,
    before: &BTreeMap<Octets, Entry>,
    value: &Value,
) -> Result<Octets, DocFault>
    ensures { Gives (λ o. o) result (entry_name_of index (kept_has before.now.entries) (view value.now)) }
{
    object_at(DocFault::Kind(Place::entry(index, 0)), value)?;
    let place = Place::entry(index, 1);
    let id = name_of(alloc, place, "id", value)?;
    if given(before, &id) {
        return Err(DocFault::Duplicate(place));
    }
    Ok(id)
}

/// The entry at this index, beside those before it.
#[tactic(auto, unfolding(crate::specs::Entries::entry_of))]
fn entry(
    alloc: Global,
    own: &TrustDomain,
    version: u64,
    index: u32,
    before: &BTreeMap<Octets, Entry>,
    value: &Value,
) -> Result<Entry, DocFault>
    ensures { Gives (λ e. e) result
        (entry_of own.now version index (kept_has before.now.entries) (view value.now)) }
{
    let id = entry_name(alloc, index, before, value)?;
    let spiffe_id = id_of(alloc, own, Place::entry(index, 2), "spiffe_id", value)?;
    let selectors = selectors_in(alloc, Place::entry(index, 3), value)?;
    let extras = extras(alloc, version, index, value)?;
    Ok(Entry {
        id,
        spiffe_id,
        selectors,
        federates_with: extras.federates_with,
        dns_names: extras.dns_names,
        ttl: extras.ttl,
        hint: extras.hint,
    })
}

/// The entries of an array, each at its id.
pub(crate) fn entries(
    alloc: Global,
    own: &TrustDomain,
    version: u64,
    values: &[Value],
) -> Result<BTreeMap<Octets, Entry>, DocFault>
    requires { length values.now ≤ MAX_ENTRIES }
    ensures { Gives (λ m. m.entries) result (kept_entries own.now version (map view values.now)) }
{
    let mut done = BTreeMap::new(alloc);
    let mut index: u32 = 0;
    for value in values {
        let entry = entry(alloc, own, version, index, &done, value)?;
        let key = entry.id.copy(alloc)?;
        add(&mut done, key, entry)?;
        index += 1;
    }
    Ok(done)
}
