//! Members that are names, ids, bytes in base64 or texts with a limit.

ghost use Rattle.std.specs.Prelude.{◌≡◌, ℕ};
ghost use Rattle.std.specs.Str.{bytes_eq};
ghost use Rattle.std.specs.List.{list_all};
ghost use Rattle.serde_json.specs.View.{view};
ghost use Rattle.spiffe_id.specs.Grammar.{is_path_byte};
ghost use Rattle.spiffe_id.specs.Faults.{id_fault};
ghost use Rattle.wl_document.specs.Checks.{Gives, id_fault_at, no_id_fault};
ghost use Rattle.wl_document.specs.Members.{domain_at, domain_of, id_of, is_name, name_of, base64_at, base64_of, at_most, text_within, text_or_empty};

use crate::fault::{DocFault, Place};
use crate::members::text_of;
use base64::DecodeAllocError;
use base64::engine::general_purpose::STANDARD;
use json_members::{required, text_at};
use serde_json::Value;
use spiffe_id::{IdFault, SpiffeId, TrustDomain};
use std::alloc::Global;
use wl_entry::limits::MAX_ID_LEN;
use wl_octets::Octets;

/// The fault of a member whose text has this fault.
fn fault_at(place: Place, fault: IdFault) -> DocFault
    ensures { result ≡ id_fault_at place fault }
{
    match fault {
        IdFault::Memory => DocFault::Memory,
        fault => DocFault::Id(place, fault),
    }
}

/// The name of a trust domain.
#[tactic(auto, unfolding(crate::specs::Members::domain_at))]
pub(crate) fn domain_at(alloc: Global, place: Place, value: &Value) -> Result<TrustDomain, DocFault>
    ensures { Gives (λ d. d) result (domain_at place (view value.now)) }
{
    match TrustDomain::parse(alloc, text_at(DocFault::Kind(place), value)?.as_bytes()) {
        Ok(domain) => Ok(domain),
        Err(fault) => Err(fault_at(place, fault)),
    }
}

/// The name of a trust domain, which has to be there.
#[tactic(auto, unfolding(crate::specs::Members::domain_of))]
pub(crate) fn domain_of(
    alloc: Global,
    place: Place,
    name: &str,
    value: &Value,
) -> Result<TrustDomain, DocFault>
    ensures { Gives (λ d. d) result (domain_of place name.now (view value.now)) }
{
    domain_at(
        alloc,
        place,
        required(DocFault::Missing(place), name, value)?,
    )
}

/// Whether these are the same bytes.
pub(crate) fn same_bytes(a: &[u8], b: &[u8]) -> bool
    ensures { result ≡ bytes_eq a.now b.now }
{
    a == b
}

/// A SPIFFE ID.
fn parsed_id(alloc: Global, place: Place, text: &str) -> Result<SpiffeId, DocFault>
    ensures { Gives (λ i. i) result (no_id_fault place text.now (id_fault text.now)) }
{
    match SpiffeId::parse(alloc, text.as_bytes()) {
        Ok(id) => Ok(id),
        Err(fault) => Err(fault_at(place, fault)),
    }
}

/// A SPIFFE ID of the own trust domain, which has to be there.
#[tactic(auto, unfolding(crate::specs::Members::id_of))]
pub(crate) fn id_of(
    alloc: Global,
    own: &TrustDomain,
    place: Place,
    name: &str,
    value: &Value,
) -> Result<SpiffeId, DocFault>
    ensures { Gives (λ i. i) result (id_of own.now place name.now (view value.now)) }
{
    let id = parsed_id(alloc, place, text_of(place, name, value)?)?;
    if same_bytes(id.domain(), own.as_bytes()) {
        Ok(id)
    } else {
        Err(DocFault::ForeignDomain(place))
    }
}

/// Whether this byte may stand in a name.
fn is_name_byte(byte: u8) -> bool
    ensures { result ≡ is_path_byte byte }
{
    matches!(byte, b'a'..=b'z' | b'0'..=b'9' | b'.' | b'-' | b'_' | b'A'..=b'Z')
}

/// Whether these bytes may stand in a name.
fn are_name_bytes(text: &[u8]) -> bool
    ensures { result ≡ list_all is_path_byte text.now }
{
    text.iter().all(|byte| is_name_byte(*byte))
}

/// Whether this is the id of an entry.
fn is_name(text: &[u8]) -> bool
    ensures { result ≡ is_name text.now }
{
    !text.is_empty() && text.len() <= MAX_ID_LEN && are_name_bytes(text)
}

/// The id of an entry, which has to be there.
#[tactic(auto, unfolding(crate::specs::Members::name_of))]
pub(crate) fn name_of(
    alloc: Global,
    place: Place,
    name: &str,
    value: &Value,
) -> Result<Octets, DocFault>
    ensures { Gives (λ o. o) result (name_of place name.now (view value.now)) }
{
    let text = text_of(place, name, value)?;
    if is_name(text.as_bytes()) {
        Ok(Octets::from_slice(alloc, text.as_bytes())?)
    } else {
        Err(DocFault::Kind(place))
    }
}

/// Bytes in standard padded base64.
#[tactic(auto, unfolding(crate::specs::Members::base64_at))]
pub(crate) fn base64_at(alloc: Global, place: Place, value: &Value) -> Result<Octets, DocFault>
    ensures { Gives (λ o. o) result (base64_at place (view value.now)) }
{
    match STANDARD.decode(alloc, text_at(DocFault::Kind(place), value)?.as_bytes()) {
        Ok(bytes) => Ok(Octets::from_vec(bytes)),
        Err(DecodeAllocError::OutOfMemory) => Err(DocFault::Memory),
        Err(DecodeAllocError::DecodeError(_)) => Err(DocFault::Base64(place)),
    }
}

/// Bytes in standard padded base64, which have to be there.
#[tactic(auto, unfolding(crate::specs::Members::base64_of))]
pub(crate) fn base64_of(
    alloc: Global,
    place: Place,
    name: &str,
    value: &Value,
) -> Result<Octets, DocFault>
    ensures { Gives (λ o. o) result (base64_of place name.now (view value.now)) }
{
    base64_at(
        alloc,
        place,
        required(DocFault::Missing(place), name, value)?,
    )
}

/// The same bytes, where there are at most so many.
#[tactic(auto, unfolding(crate::specs::Members::at_most))]
pub(crate) fn at_most(limit: usize, place: Place, bytes: Octets) -> Result<Octets, DocFault>
    ensures { Gives (λ o. o) result (at_most limit place bytes) }
{
    let count = bytes.len();
    if count > limit {
        Err(DocFault::TooLong(place, count))
    } else {
        Ok(bytes)
    }
}

/// A text of at most so many bytes.
#[tactic(auto, unfolding(crate::specs::Members::text_within, crate::specs::Members::at_most))]
fn text_within(alloc: Global, limit: usize, place: Place, value: &Value) -> Result<Octets, DocFault>
    ensures { Gives (λ o. o) result (text_within limit place (view value.now)) }
{
    let text = text_at(DocFault::Kind(place), value)?.as_bytes();
    if text.len() > limit {
        Err(DocFault::TooLong(place, text.len()))
    } else {
        Ok(Octets::from_slice(alloc, text)?)
    }
}

/// A text of at most so many bytes, empty where it is absent.
#[tactic(auto, unfolding(crate::specs::Members::text_or_empty))]
pub(crate) fn text_or_empty(
    alloc: Global,
    limit: usize,
    place: Place,
    name: &str,
    value: &Value,
) -> Result<Octets, DocFault>
    ensures { Gives (λ o. o) result (text_or_empty limit place name.now (view value.now)) }
{
    match value.get(name) {
        Some(member) => text_within(alloc, limit, place, member),
        None => Ok(Octets::empty(alloc)),
    }
}
