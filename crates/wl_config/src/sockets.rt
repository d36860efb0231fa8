//! The sockets of a configuration.

ghost use Rattle.std.specs.Prelude.{◌≡◌, ◌<◌, ◌≤◌, ◌++◌, length, map, IfOk, IfErr, OnOk};
ghost use Rattle.std.specs.List.{AllByRecursion};
ghost use Rattle.serde_json.specs.View.{view};
ghost use Rattle.wl_config.specs.declared.fault.ConfigFault.TheVariants.{Memory};
ghost use Rattle.wl_config.specs.declared.limits.TheConstants.{MAX_SOCKETS, MAX_SOCKET_ITEMS, MAX_CONNECTIONS, MAX_SOCKET_SELECTORS};
ghost use Rattle.wl_config.specs.Checks.{Gives};
ghost use Rattle.wl_config.specs.Endpoints.{HasPlace};
ghost use Rattle.wl_config.specs.Sockets.{says_workers, connections_of, fact_of, some_plain, socket_of, sockets_of, SocketsWithin, SocketWithin};

use crate::config::SocketFact;
use crate::endpoints::{Endpoint, endpoints, is_plain};
use crate::fault::ConfigFault;
use crate::limits::{DEFAULT_CONNECTIONS, MAX_CONNECTIONS};
use crate::members::number_or;
use crate::places::socket_place;
use crate::selectors::{selectors_with, texts};
use serde_json::Value;
use std::alloc::Global;
use wl_selector::Selector;

/// Whether a socket names its connections by `workers`, as they were called.
#[tactic(auto, unfolding(crate::specs::Sockets::says_workers))]
fn says_workers(value: &Value) -> bool
    ensures { result ≡ says_workers (view value.now) }
{
    value.get("connections").is_none() && value.get("workers").is_some()
}

/// How many connections each of the sockets of the item at this index serves.
#[tactic(auto, unfolding(crate::specs::Sockets::connections_of))]
fn connections(index: u32, value: &Value) -> Result<u32, ConfigFault>
    ensures value { Gives (λ n. n) result (connections_of index (view value.now)) }
    ensures some { IfOk result (λ n. 0 < n) }
    ensures at_most { IfOk result (λ n. n ≤ MAX_CONNECTIONS) }
{
    let (place, name) = if says_workers(value) {
        (socket_place(index, 2), "workers")
    } else {
        (socket_place(index, 8), "connections")
    };
    number_or(DEFAULT_CONNECTIONS, 1, MAX_CONNECTIONS, place, name, value)
}

/// The socket at an endpoint.
fn fact(
    alloc: Global,
    connections: u32,
    texts: &[Selector],
    end: &Endpoint,
) -> Result<SocketFact, wl_octets::Memory>
    requires texts { length texts.now ≤ MAX_SOCKET_SELECTORS }
    requires some { 0 < connections }
    requires at_most { connections ≤ MAX_CONNECTIONS }
    requires place { HasPlace end.now }
    ensures value { IfOk result (λ s. s ≡ fact_of connections texts.now end.now) }
    ensures within { IfOk result SocketWithin }
{
    Ok(SocketFact {
        place: end.place.copy(alloc)?,
        connections,
        selectors: selectors_with(alloc, texts, end.uid)?,
    })
}

/// The sockets at these endpoints.
fn facts(
    alloc: Global,
    connections: u32,
    texts: &[Selector],
    ends: &[Endpoint],
) -> Result<Vec<SocketFact>, ConfigFault>
    requires texts { length texts.now ≤ MAX_SOCKET_SELECTORS }
    requires some { 0 < connections }
    requires at_most { connections ≤ MAX_CONNECTIONS }
    requires places { AllByRecursion HasPlace ends.now }
    ensures value { IfOk result (λ v. v.items ≡ map (fact_of connections texts.now) ends.now) }
    ensures within { IfOk result (λ v. AllByRecursion SocketWithin v.items) }
    ensures memory { IfErr result (λ e. e ≡ Memory) }
{
    let mut facts = Vec::new(alloc);
    for end in ends {
        facts.push(fact(alloc, connections, texts, end)?)?;
    }
    Ok(facts)
}

/// Whether the callers of some endpoint have no selector but those of `selectors`.
fn some_plain(ends: &[Endpoint]) -> bool
    ensures { result ≡ some_plain ends.now }
{
    ends.iter().any(|end| is_plain(end))
}

/// The sockets of the item at this index, beside those before it.
#[tactic(auto, unfolding(crate::specs::Sockets::socket_of))]
fn socket(
    alloc: Global,
    index: u32,
    before: &[SocketFact],
    value: &Value,
) -> Result<Vec<SocketFact>, ConfigFault>
    requires count { length before.now ≤ MAX_SOCKETS }
    requires within { SocketsWithin before.now }
    ensures value { Gives (λ v. v.items) result (socket_of index before.now (view value.now)) }
    ensures within { IfOk result (λ v. SocketsWithin (before.now ++ v.items)) }
    ensures some { IfOk result (λ v. 0 < length v.items) }
    ensures at_most { IfOk result (λ v. length (before.now ++ v.items) ≤ MAX_SOCKETS) }
{
    let ends = endpoints(alloc, index, before, value)?;
    let connections = connections(index, value)?;
    let needed = some_plain(ends.as_slice());
    let texts = texts(alloc, needed, socket_place(index, 3), value)?;
    let sockets = facts(alloc, connections, texts.as_slice(), ends.as_slice())?;
    Ok(sockets)
}

/// Puts more sockets after those that there are.
fn append(sockets: &mut Vec<SocketFact>, mut more: Vec<SocketFact>) -> Result<(), wl_octets::Memory>
    ensures { OnOk result (sockets.new.items ≡ sockets.old.items ++ more.items) }
{
    Ok(sockets.append(&mut more)?)
}

/// The sockets of an array.
pub(crate) fn sockets(alloc: Global, values: &[Value]) -> Result<Vec<SocketFact>, ConfigFault>
    requires { length values.now ≤ MAX_SOCKET_ITEMS }
    ensures value { Gives (λ v. v.items) result (sockets_of (map view values.now)) }
    ensures within { IfOk result (λ v. SocketsWithin v.items) }
    ensures some { IfOk result (λ v. 0 < length values.now → 0 < length v.items) }
    ensures at_most { IfOk result (λ v. length v.items ≤ MAX_SOCKETS) }
{
    let mut done = Vec::new(alloc);
    let mut index: u32 = 0;
    for value in values {
        let added = socket(alloc, index, done.as_slice(), value)?;
        append(&mut done, added)?;
        index += 1;
    }
    Ok(done)
}
