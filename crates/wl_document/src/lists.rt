//! The arrays inside an entry.

ghost use Rattle.std.specs.Prelude.{◌≡◌, ℕ, ◌≤◌, length, map, IfOk};
ghost use Rattle.serde_json.specs.View.{view};
ghost use Rattle.wl_entry.specs.declared.limits.TheConstants.{MAX_SELECTORS, MAX_FEDERATED, MAX_DNS_NAMES};
ghost use Rattle.wl_document.specs.Checks.{Gives, selector_fault_at, no_selector_fault};
ghost use Rattle.wl_document.specs.Entries.{selector_of, selector_list_of, federated_of, federates_of, dns_name_of, dns_names_of};

use crate::fault::{DocFault, Place};
use crate::limits::MAX_DNS_NAME_LEN;
use crate::names::domain_at;
use json_members::text_at;
use serde_json::Value;
use spiffe_id::TrustDomain;
use std::alloc::Global;
use wl_octets::Octets;
use wl_selector::{Selector, SelectorFault};

/// The fault of a member whose text has this fault.
fn selector_fault_at(place: Place, fault: SelectorFault) -> DocFault
    ensures { result ≡ selector_fault_at place fault }
{
    match fault {
        SelectorFault::Memory => DocFault::Memory,
        _ => DocFault::Selector(place),
    }
}

/// The selector at this index of its array.
#[tactic(auto, unfolding(crate::specs::Entries::selector_of))]
fn selector(alloc: Global, place: Place, index: u32, value: &Value) -> Result<Selector, DocFault>
    ensures { Gives (λ s. s) result (selector_of place index (view value.now)) }
{
    let place = place.item(index);
    match Selector::parse(alloc, text_at(DocFault::Kind(place), value)?.as_bytes()) {
        Ok(selector) => Ok(selector),
        Err(fault) => Err(selector_fault_at(place, fault)),
    }
}

/// The selectors of an array.
pub(crate) fn selectors(
    alloc: Global,
    place: Place,
    values: &[Value],
) -> Result<Vec<Selector>, DocFault>
    requires { length values.now ≤ MAX_SELECTORS }
    ensures value { Gives (λ v. v.items) result (selector_list_of place (map view values.now)) }
    ensures at_most { IfOk result (λ v. length v.items ≤ length values.now) }
{
    let mut done = Vec::new(alloc);
    let mut index: u32 = 0;
    for value in values {
        let item = selector(alloc, place, index, value)?;
        done.push(item)?;
        index += 1;
    }
    Ok(done)
}

/// The federated domain at this index of its array.
#[tactic(auto, unfolding(crate::specs::Entries::federated_of))]
fn federated(
    alloc: Global,
    place: Place,
    index: u32,
    value: &Value,
) -> Result<TrustDomain, DocFault>
    ensures { Gives (λ d. d) result (federated_of place index (view value.now)) }
{
    domain_at(alloc, place.item(index), value)
}

/// The federated domains of an array.
pub(crate) fn federates(
    alloc: Global,
    place: Place,
    values: &[Value],
) -> Result<Vec<TrustDomain>, DocFault>
    requires { length values.now ≤ MAX_FEDERATED }
    ensures { Gives (λ v. v.items) result (federates_of place (map view values.now)) }
{
    let mut done = Vec::new(alloc);
    let mut index: u32 = 0;
    for value in values {
        let item = federated(alloc, place, index, value)?;
        done.push(item)?;
        index += 1;
    }
    Ok(done)
}

/// The DNS name at this index of its array.
#[tactic(auto, unfolding(crate::specs::Entries::dns_name_of))]
fn dns_name(alloc: Global, place: Place, index: u32, value: &Value) -> Result<Octets, DocFault>
    ensures { Gives (λ o. o) result (dns_name_of place index (view value.now)) }
{
    let place = place.item(index);
    let text = text_at(DocFault::Kind(place), value)?.as_bytes();
    if text.is_empty() || text.len() > MAX_DNS_NAME_LEN {
        return Err(DocFault::Kind(place));
    }
    Ok(Octets::from_slice(alloc, text)?)
}

/// The DNS names of an array.
pub(crate) fn dns_names(
    alloc: Global,
    place: Place,
    values: &[Value],
) -> Result<Vec<Octets>, DocFault>
    requires { length values.now ≤ MAX_DNS_NAMES }
    ensures { Gives (λ v. v.items) result (dns_names_of place (map view values.now)) }
{
    let mut done = Vec::new(alloc);
    let mut index: u32 = 0;
    for value in values {
        let item = dns_name(alloc, place, index, value)?;
        done.push(item)?;
        index += 1;
    }
    Ok(done)
}
