//! Tickets in flight, by entry, so that an ask is looked for among those of its own entry alone.

ghost use Rattle.std.specs.Prelude.{◌≡◌, ℕ, List, [], ◌∷◌, ◌++◌, unwrap_or, IfOk, OnOk};
ghost use Rattle.std.specs.BTreeMap as btree;
ghost use Rattle.std.specs.List.{list_any};
ghost use Rattle.std.specs.Ordering.{nat_cmp};
ghost use Rattle.std.specs.Cmp.Lexicographic.{slice_cmp};
ghost use Rattle.wl_entry.specs.Same.{same_ask};
ghost use Rattle.wl_store.specs.Groups.{asks_under};

use crate::tickets::Flight;
use std::alloc::Global;
use std::collections::BTreeMap;
use wl_entry::Ask;
use wl_octets::{Memory, Octets, Row, Shared};

/// The asks of tickets in flight, by the id of their entry.
pub(crate) type Groups = BTreeMap<Octets, Row<Shared<Ask>>>;

/// Adds one more flight to those of its entry.
fn group_one(alloc: Global, groups: &mut Groups, flight: &Flight) -> Result<(), Memory>
    ensures { OnOk result ((q : List ℕ) → unwrap_or (btree.get (slice_cmp nat_cmp) groups.new q) []
        ≡ unwrap_or (btree.get (slice_cmp nat_cmp) groups.old q) [] ++ asks_under q (flight.now ∷ [])) }
{
    let entry_id = flight.ask.part().entry_id.copy(alloc)?;
    let mut asks = groups.remove(&entry_id).unwrap_or(Row::empty(alloc));
    asks.push(flight.ask.share()?)?;
    groups.insert(entry_id, asks)?;
    Ok(())
}

/// The flights by entry. It takes memory only where there is a flight.
pub(crate) fn group_all(alloc: Global, in_flight: &[Flight]) -> Result<Groups, Memory>
    ensures { IfOk result
        (λ groups. (q : List ℕ)
        → unwrap_or (btree.get (slice_cmp nat_cmp) groups q) [] ≡ asks_under q in_flight.now) }
{
    let mut groups = BTreeMap::new(alloc);
    for flight in in_flight {
        group_one(alloc, &mut groups, flight)?;
    }
    Ok(groups)
}

/// Whether the ask is one of these.
fn is_among(asks: &[Shared<Ask>], ask: &Ask) -> bool
    ensures { result ≡ list_any (λ b. same_ask b ask.now) asks.now }
{
    asks.iter().any(|other| *other.part() == *ask)
}

/// Whether the ask is one of its entry's.
pub(crate) fn has_flight(groups: &Groups, ask: &Ask) -> bool
    ensures { result
        ≡ list_any (λ b. same_ask b ask.now)
        (unwrap_or (btree.get (slice_cmp nat_cmp) groups.now ask.now.entry_id) []) }
{
    match groups.get(&ask.entry_id) {
        Some(asks) => is_among(asks.as_slice(), ask),
        None => false,
    }
}
