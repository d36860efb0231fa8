//! Places in words.

ghost use Rattle.std.specs.Prelude.{◌≡◌, map, get_or, IfOk};
ghost use Rattle.fault_lines.specs.Names.{document_member, bundle_member, entry_member, svid_member, config_member, socket_member, item_name, document_place, config_place};

use crate::places::Place;
use crate::texts::around;
use std::alloc::Global;
use wl_octets::{Memory, Octets};

/// The name of the field of this number, from 0, or the other text where it has none.
fn name_at(names: &[&'static [u8]], field: u64, other: &'static [u8]) -> &'static [u8]
    ensures { result.now ≡ get_or (map (λ n. n.now) names.now) field other.now }
{
    match names.get(field as usize) {
        Some(name) => name,
        None => other,
    }
}

/// A member of a document.
#[tactic(auto, unfolding(crate::specs::Names::document_member))]
fn document_member(field: u64) -> &'static [u8]
    ensures { result.now ≡ document_member field }
{
    name_at(
        &[
            b"document",
            b"version",
            b"trust_domain",
            b"bundles",
            b"entries",
            b"svids",
            b"renew_before",
        ],
        field,
        b"?",
    )
}

/// A member of a bundle.
#[tactic(auto, unfolding(crate::specs::Names::bundle_member))]
fn bundle_member(field: u64) -> &'static [u8]
    ensures { result.now ≡ bundle_member field }
{
    name_at(&[b"", b".trust_domain", b".x509", b".jwks"], field, b".?")
}

/// A member of an entry.
#[tactic(auto, unfolding(crate::specs::Names::entry_member))]
fn entry_member(field: u64) -> &'static [u8]
    ensures { result.now ≡ entry_member field }
{
    name_at(
        &[
            b"",
            b".id",
            b".spiffe_id",
            b".selectors",
            b".federates_with",
            b".dns_names",
            b".ttl",
            b".hint",
        ],
        field,
        b".?",
    )
}

/// A member of a signed identity.
#[tactic(auto, unfolding(crate::specs::Names::svid_member))]
fn svid_member(field: u64) -> &'static [u8]
    ensures { result.now ≡ svid_member field }
{
    name_at(
        &[
            b"",
            b".entry",
            b".chain",
            b".key",
            b".not_before",
            b".not_after",
        ],
        field,
        b".?",
    )
}

/// A member of a configuration.
#[tactic(auto, unfolding(crate::specs::Names::config_member))]
fn config_member(field: u64) -> &'static [u8]
    ensures { result.now ≡ config_member field }
{
    name_at(
        &[
            b"configuration",
            b"version",
            b"upstream or document",
            b"signer",
            b"poll_seconds",
            b"sockets",
            b"signers",
            b"log",
            b"metrics",
            b"threads",
            b"stall_seconds",
            b"opening_seconds",
            b"memory_mib",
        ],
        field,
        b"?",
    )
}

/// A member of a socket.
#[tactic(auto, unfolding(crate::specs::Names::socket_member))]
fn socket_member(field: u64) -> &'static [u8]
    ensures { result.now ≡ socket_member field }
{
    name_at(
        &[
            b"",
            b".path or tcp",
            b".workers",
            b".selectors",
            b".owner",
            b".group",
            b".mode",
            b".uids",
            b".connections",
            b".tcp",
            b".connections_per_uid",
        ],
        field,
        b".?",
    )
}

/// `NAME[INDEX]` and a member of that item.
fn item_name(alloc: Global, array: &[u8], index: u64, member: &[u8]) -> Result<Octets, Memory>
    ensures { IfOk result (λ o. o ≡ item_name array.now index member.now) }
{
    let mut name = Octets::from_slice(alloc, array)?;
    name.push_slice(around(alloc, b"[", index, b"]")?.as_slice())?;
    name.push_slice(member)?;
    Ok(name)
}

/// A place in a document.
#[tactic(auto, unfolding(crate::specs::Names::document_place))]
pub(crate) fn document_place(alloc: Global, place: Place) -> Result<Octets, Memory>
    ensures { IfOk result (λ o. o ≡ document_place place) }
{
    match place.part {
        0 => Octets::from_slice(alloc, document_member(place.field)),
        1 => item_name(alloc, b"bundles", place.index, bundle_member(place.field)),
        2 => item_name(alloc, b"entries", place.index, entry_member(place.field)),
        3 => item_name(alloc, b"svids", place.index, svid_member(place.field)),
        _ => Octets::from_slice(alloc, b"?"),
    }
}

/// A place in a configuration.
#[tactic(auto, unfolding(crate::specs::Names::config_place))]
pub(crate) fn config_place(alloc: Global, place: Place) -> Result<Octets, Memory>
    ensures { IfOk result (λ o. o ≡ config_place place) }
{
    match place.part {
        0 => Octets::from_slice(alloc, config_member(place.field)),
        4 => item_name(alloc, b"sockets", place.index, socket_member(place.field)),
        _ => Octets::from_slice(alloc, b"?"),
    }
}
