//! The endpoints of an item of the array, whose names are new ones.

ghost use Rattle.std.specs.Prelude.{◌≡◌, ◌+◌, ◌<◌, ◌≤◌, length, codes, true, option_map, IfOk};
ghost use Rattle.std.specs.List.{AllByRecursion, list_any};
ghost use Rattle.std.specs.Str.{bytes_eq};
ghost use Rattle.serde_json.specs.Find.{get};
ghost use Rattle.serde_json.specs.View.{view};
ghost use Rattle.wl_config.specs.Checks.{Gives};
ghost use Rattle.wl_config.specs.SocketPlaces.{name_of, PlaceWithin};
ghost use Rattle.wl_config.specs.Endpoints.{is_plain, HasPlace, loopback_place_of, tcp_endpoint_of, endpoints_by, was_given, are_apart, are_new, naming_field, endpoints_of};
ghost use Rattle.wl_config.specs.declared.limits.TheConstants.{MAX_SOCKETS};

use crate::config::{SocketFact, SocketPlace};
use crate::fault::ConfigFault;
use crate::files::files;
use crate::guards::{absent, no_guard};
use crate::limits::{DEFAULT_CONNECTIONS, MAX_CONNECTIONS};
use crate::loopbacks::loopback;
use crate::members::number_or;
use crate::places::{socket_place, top_place};
use crate::uids::room_for;
use json_members::{object_at, text_at};
use serde_json::Value;
use std::alloc::Global;
use wl_octets::Octets;

/// Where a socket is to be.
#[derive(Drop)]
pub(crate) struct Endpoint {
    pub place: SocketPlace,
    /// The uid that its path has in place of the mark.
    pub uid: Option<u32>,
}

/// Whether its callers have no selector but those of `selectors`.
pub(crate) fn is_plain(end: &Endpoint) -> bool
    ensures { result ≡ is_plain end.now }
{
    matches!((&end.place, end.uid), (SocketPlace::Path { .. }, None))
}

/// The place of the address that this member is.
#[tactic(auto, unfolding(crate::specs::Endpoints::loopback_place_of))]
fn loopback_place(
    alloc: Global,
    index: u32,
    tcp: &Value,
    value: &Value,
) -> Result<SocketPlace, ConfigFault>
    ensures value { Gives (λ p. p) result (loopback_place_of index (view tcp.now) (view value.now)) }
    ensures within { IfOk result PlaceWithin }
{
    let fault = ConfigFault::Kind(socket_place(index, 9));
    let text = text_at(fault, tcp)?.as_bytes();
    let Some(address) = loopback(text) else {
        return Err(fault);
    };
    no_guard(index, value)?;
    absent(socket_place(index, 7), "uids", value)?;
    let place = socket_place(index, 10);
    let name = "connections_per_uid";
    let connections_per_uid = number_or(
        DEFAULT_CONNECTIONS,
        1,
        MAX_CONNECTIONS,
        place,
        name,
        value,
    )?;
    Ok(SocketPlace::Loopback {
        text: Octets::from_slice(alloc, text)?,
        address,
        connections_per_uid,
    })
}

/// The endpoint of the address that this member is, where the sockets before it are so many.
#[tactic(auto, unfolding(crate::specs::Endpoints::tcp_endpoint_of))]
fn tcp_endpoint(
    alloc: Global,
    index: u32,
    count: usize,
    tcp: &Value,
    value: &Value,
) -> Result<Vec<Endpoint>, ConfigFault>
    requires at_most { count ≤ MAX_SOCKETS }
    ensures value { Gives (λ v. v.items) result (tcp_endpoint_of index count (view tcp.now) (view value.now)) }
    ensures some { IfOk result (λ v. 0 < length v.items) }
    ensures at_most { IfOk result (λ v. count + length v.items ≤ MAX_SOCKETS) }
    ensures places { IfOk result (λ v. AllByRecursion HasPlace v.items) }
{
    let place = loopback_place(alloc, index, tcp, value)?;
    room_for(top_place(5), count, 1)?;
    let mut ends = Vec::new(alloc);
    ends.push(Endpoint { place, uid: None })?;
    Ok(ends)
}

/// The endpoints of an item: exactly one of `path` and `tcp` is there.
fn endpoints_by(
    alloc: Global,
    index: u32,
    count: usize,
    value: &Value,
) -> Result<Vec<Endpoint>, ConfigFault>
    requires at_most { count ≤ MAX_SOCKETS }
    ensures value { Gives (λ v. v.items) result (endpoints_by index count
        (get (codes "path") (view value.now)) (get (codes "tcp") (view value.now)) (view value.now)) }
    ensures some { IfOk result (λ v. 0 < length v.items) }
    ensures at_most { IfOk result (λ v. count + length v.items ≤ MAX_SOCKETS) }
    ensures places { IfOk result (λ v. AllByRecursion HasPlace v.items) }
{
    match (value.get("path"), value.get("tcp")) {
        (Some(path), None) => files(alloc, index, count, path, value),
        (None, Some(tcp)) => tcp_endpoint(alloc, index, count, tcp, value),
        _ => Err(ConfigFault::Missing(socket_place(index, 1))),
    }
}

/// Whether a socket before has this name.
#[tactic(auto, unfolding(crate::specs::Endpoints::was_given))]
fn was_given(before: &[SocketFact], name: &Octets) -> bool
    ensures { result ≡ was_given before.now name.now }
{
    before.iter().any(|socket| *name == *socket.place.name())
}

/// Whether an endpoint has this name.
fn has_name(ends: &[Endpoint], name: &Octets) -> bool
    ensures { result ≡ list_any (λ e. bytes_eq (name_of e.place) name.now) ends.now }
{
    ends.iter().any(|end| *end.place.name() == *name)
}

/// Whether no two endpoints have the same name.
fn are_apart(ends: &[Endpoint]) -> bool
    ensures { result ≡ are_apart ends.now }
{
    let mut rest = ends;
    'ends: while let Some((end, after)) = rest.split_first() {
        if has_name(after, end.place.name()) {
            return false;
        }
        rest = after;
    }
    true
}

/// Whether a name of an endpoint was given before.
fn some_given(before: &[SocketFact], ends: &[Endpoint]) -> bool
    ensures { result ≡ list_any (λ e. was_given before.now (name_of e.place)) ends.now }
{
    ends.iter().any(|end| was_given(before, end.place.name()))
}

/// Whether no name of an endpoint was given before, and no two endpoints have the same name.
#[tactic(auto, unfolding(crate::specs::Endpoints::are_new))]
fn are_new(before: &[SocketFact], ends: &[Endpoint]) -> bool
    ensures { result ≡ are_new before.now ends.now }
{
    !some_given(before, ends) && are_apart(ends)
}

/// The field that names the endpoints of an item.
fn naming_field(value: &Value) -> u8
    ensures { result ≡ naming_field (get (codes "tcp") (view value.now)) }
{
    match value.get("tcp") {
        Some(_) => 9,
        None => 1,
    }
}

/// The endpoints of the item at this index, beside the sockets before it.
#[tactic(auto, unfolding(crate::specs::Endpoints::endpoints_of))]
pub(crate) fn endpoints(
    alloc: Global,
    index: u32,
    before: &[SocketFact],
    value: &Value,
) -> Result<Vec<Endpoint>, ConfigFault>
    requires at_most { length before.now ≤ MAX_SOCKETS }
    ensures value { Gives (λ v. v.items) result (endpoints_of index before.now (view value.now)) }
    ensures some { IfOk result (λ v. 0 < length v.items) }
    ensures at_most { IfOk result (λ v. length before.now + length v.items ≤ MAX_SOCKETS) }
    ensures places { IfOk result (λ v. AllByRecursion HasPlace v.items) }
    ensures fresh { IfOk result (λ v. are_new before.now v.items ≡ true) }
{
    object_at(ConfigFault::Kind(socket_place(index, 0)), value)?;
    let ends = endpoints_by(alloc, index, before.len(), value)?;
    if are_new(before, ends.as_slice()) {
        Ok(ends)
    } else {
        Err(ConfigFault::Duplicate(socket_place(index, naming_field(value))))
    }
}
