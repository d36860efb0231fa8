//! Places of entries in a list by ascending id.

ghost use Rattle.std.specs.Prelude.{◌||◌, ◌∷◌, [], ◌^◌, OnOk, IfOk, ◌≡◌, ◌<◌, ℕ, map, length, slice_get};
ghost use Rattle.std.specs.BTreeSet.{contains};
ghost use Rattle.std.specs.Ordering.{nat_cmp};
ghost use Rattle.std.specs.List.{flat_map};
ghost use Rattle.std.specs.List.Sorted.{IsStrictlySortedBy};
ghost use Rattle.list_laws.specs.Lists.{Rises};
ghost use Rattle.wl_entry.specs.Keys.{entry_key};
ghost use Rattle.wl_match.specs.Indexes.{entitled_places};
ghost use Rattle.wl_match.specs.Postings.{is_hit, ids_at, posting_key, IsIndex};

use crate::postings::{Posting, ids_at};
use sorted_lists::place_by_key;
use std::alloc::Global;
use std::collections::BTreeSet;
use wl_entry::Entry;
use wl_octets::{Memory, Octets, Row, Shared};
use wl_selector::Selectors;

/// Adds the place of the entry of this id, where the caller is entitled to it.
fn gather_one(
    entries: &[Shared<Entry>],
    id: &[u8],
    selectors: &Selectors,
    places: &mut BTreeSet<u32>,
) -> Result<(), Memory>
    requires rises { Rises (map entry_key entries.now) }
    requires at_most { length entries.now < 2 ^ 32 }
    ensures { OnOk result
        ((q : ℕ)
        → contains nat_cmp places.new q
        ≡ (contains nat_cmp places.old q || is_hit selectors.now (id.now ∷ []) (slice_get entries.now q))) }
{
    let Some(place) = place_by_key(entries, id) else {
        return Ok(());
    };
    if entries[place].part().selectors.is_subset(selectors) {
        places.insert(place as u32)?;
    }
    Ok(())
}

/// Adds the places of the entries of these ids to which the caller is entitled.
fn gather(
    entries: &[Shared<Entry>],
    ids: &[Octets],
    selectors: &Selectors,
    places: &mut BTreeSet<u32>,
) -> Result<(), Memory>
    requires rises { Rises (map entry_key entries.now) }
    requires at_most { length entries.now < 2 ^ 32 }
    ensures { OnOk result
        ((q : ℕ)
        → contains nat_cmp places.new q
        ≡ (contains nat_cmp places.old q || is_hit selectors.now ids.now (slice_get entries.now q))) }
{
    for id in ids {
        gather_one(entries, id.as_slice(), selectors, places)?;
    }
    Ok(())
}

/// The places of the entries to which the caller is entitled, among what is filed under the caller's selectors or
/// under none.
fn gather_all(
    alloc: Global,
    entries: &[Shared<Entry>],
    postings: &[Shared<Posting>],
    selectors: &Selectors,
) -> Result<BTreeSet<u32>, Memory>
    requires rises { Rises (map entry_key entries.now) }
    requires at_most { length entries.now < 2 ^ 32 }
    requires keys { Rises (map posting_key postings.now) }
    ensures { IfOk result
        (λ places. (q : ℕ)
        → contains nat_cmp places q
        ≡ is_hit selectors.now (flat_map (ids_at postings.now) ([] ∷ selectors.now))
        (slice_get entries.now q)) }
{
    let mut places = BTreeSet::new(alloc);
    gather(entries, ids_at(postings, &[]), selectors, &mut places)?;
    for selector in selectors.as_slice() {
        let ids = ids_at(postings, selector.as_bytes());
        gather(entries, ids, selectors, &mut places)?;
    }
    Ok(places)
}

/// The places, in their order.
fn places_in_order(alloc: Global, places: BTreeSet<u32>) -> Result<Vec<u32>, Memory>
    ensures value { IfOk result (λ v. v.items ≡ places.keys) }
    ensures ordered { IfOk result (λ v. IsStrictlySortedBy nat_cmp v.items) }
{
    Ok(places.into_iter().collect(alloc)?)
}

/// The rising places of exactly the entries to which the caller is entitled.
pub fn entitled_in(
    alloc: Global,
    entries: &[Shared<Entry>],
    postings: &[Shared<Posting>],
    selectors: &Selectors,
) -> Result<Row<u32>, Memory>
    requires { IsIndex entries.now postings.now }
    ensures { IfOk result (λ places. places ≡ entitled_places selectors.now entries.now) }
{
    let places = gather_all(alloc, entries, postings, selectors)?;
    let list = places_in_order(alloc, places)?;
    Ok(Row::from_vec(list))
}
