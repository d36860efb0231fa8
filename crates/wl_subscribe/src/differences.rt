//! What differs between two snapshots.

ghost use Rattle.std.specs.Prelude.{◌≡◌, ◌++◌, true, [], map, filter, is_some, option_map, slice_get, IfOk, OnOk};
ghost use Rattle.std.specs.Option.{option_eq};
ghost use Rattle.std.specs.List.{list_any};
ghost use Rattle.list_laws.specs.Lists.{Rises};
ghost use Rattle.list_laws.specs.Keys.{item_at};
ghost use Rattle.wl_snapshot.specs.Snapshots.{IsPublication};
ghost use Rattle.wl_snapshot.specs.Untouched.{SameBut};
ghost use Rattle.wl_subscribe.specs.Differing.{is_item, keys_gone, keys_new, is_same_at, is_other_bundle, federates_anew, all_differ};

use sorted_lists::{Keyed, find_by_key};
use spiffe_id::TrustDomain;
use std::alloc::Global;
use wl_entry::Entry;
use wl_octets::{Memory, Octets, Row, Shared};
use wl_snapshot::Snapshot;

/// The item at this place, counted from 0.
fn item_at<T>(items: &[T], place: usize) -> Option<&T>
    ensures { option_map (λ x. x.now) result ≡ slice_get items.now place }
{
    items.get(place)
}

/// The item of this key, in a list by ascending key: looked for at this place first, then by binary search.
fn find_near<'a, T: Keyed>(items: &'a [T], key: &[u8], place: usize) -> Option<&'a T>
    requires { Rises (map T.key items.now) }
    ensures { option_map (λ x. x.now) result ≡ item_at T.key items.now key.now }
{
    if let Some(item) = item_at(items, place) {
        if item.key() == key {
            return Some(item);
        }
    }
    find_by_key(items, key)
}

/// Whether an item is among these, as it is.
fn has_item<T: Keyed + PartialEq>(items: &[T], item: &T, place: usize) -> bool
    requires { Rises (map T.key items.now) }
    ensures { result ≡ is_item T.eq (item_at T.key items.now (T.key item.now)) item.now }
{
    match find_near(items, item.key(), place) {
        Some(other) => other == item,
        None => false,
    }
}

/// Whether one of these items has the key of this one.
fn has_key<T: Keyed>(items: &[T], item: &T, place: usize) -> bool
    requires { Rises (map T.key items.now) }
    ensures { result ≡ is_some (item_at T.key items.now (T.key item.now)) }
{
    find_near(items, item.key(), place).is_some()
}

/// Adds the keys of the items that are not among the later ones as they are.
#[tactic(auto, unfolding(crate::specs::Differing::keys_gone))]
fn push_gone<T: Keyed + PartialEq>(
    alloc: Global,
    before: &[T],
    after: &[T],
    keys: &mut Vec<Octets>,
) -> Result<(), Memory>
    requires { Rises (map T.key after.now) }
    ensures { OnOk result (keys.new.items ≡ keys.old.items ++ keys_gone T.eq T.key before.now after.now) }
{
    for (place, item) in before.iter().enumerate() {
        if !has_item(after, item, place) {
            keys.push(Octets::from_slice(alloc, item.key())?)?;
        }
    }
    Ok(())
}

/// Adds the keys of the later items that no earlier one has.
#[tactic(auto, unfolding(crate::specs::Differing::keys_new))]
fn push_new<T: Keyed>(
    alloc: Global,
    before: &[T],
    after: &[T],
    keys: &mut Vec<Octets>,
) -> Result<(), Memory>
    requires { Rises (map T.key before.now) }
    ensures { OnOk result (keys.new.items ≡ keys.old.items ++ keys_new T.key before.now after.now) }
{
    for (place, item) in after.iter().enumerate() {
        if !has_key(before, item, place) {
            keys.push(Octets::from_slice(alloc, item.key())?)?;
        }
    }
    Ok(())
}

/// The ids at which entries or SVIDs of two snapshots differ, some perhaps twice.
#[tactic(auto, using(crate::proofs::EqualKeys::same_but))]
pub fn differing_ids(alloc: Global, old: &Snapshot, new: &Snapshot) -> Result<Row<Octets>, Memory>
    ensures { IfOk result (λ ids. SameBut ids old.now new.now) }
{
    let mut ids = Vec::new(alloc);
    let (before, after) = (old.entries.part().as_slice(), new.entries.part().as_slice());
    push_gone(alloc, before, after, &mut ids)?;
    push_new(alloc, before, after, &mut ids)?;
    let old_svids = old.svids.to_row(alloc)?;
    let new_svids = new.svids.to_row(alloc)?;
    let (before, after) = (old_svids.as_slice(), new_svids.as_slice());
    push_gone(alloc, before, after, &mut ids)?;
    push_new(alloc, before, after, &mut ids)?;
    Ok(Row::from_vec(ids))
}

/// Whether two are the same, or both are none.
fn same_option<T: PartialEq>(a: Option<&Shared<T>>, b: Option<&Shared<T>>) -> bool
    ensures { result ≡ option_eq T.eq (option_map (λ x. x.now) a.entry) (option_map (λ x. x.now) b.entry) }
{
    match (a, b) {
        (Some(a), Some(b)) => a == b,
        (None, None) => true,
        _ => false,
    }
}

/// Whether the entry of this id and its SVID are the same in both.
#[tactic(auto, unfolding(crate::specs::Differing::is_same_at))]
pub fn is_same_at(old: &Snapshot, new: &Snapshot, id: &[u8]) -> bool
    ensures { result ≡ is_same_at old.now new.now id.now }
{
    same_option(
        find_by_key(old.entries.part().as_slice(), id),
        find_by_key(new.entries.part().as_slice(), id),
    ) && same_option(old.svids.find(id), new.svids.find(id))
}

/// Whether the bundle of this domain is another one.
#[tactic(auto, unfolding(crate::specs::Differing::is_other_bundle))]
pub fn is_other_bundle(old: &Snapshot, new: &Snapshot, domain: &[u8]) -> bool
    ensures { result ≡ is_other_bundle old.now new.now domain.now }
{
    !same_option(
        find_by_key(old.bundles.part().as_slice(), domain),
        find_by_key(new.bundles.part().as_slice(), domain),
    )
}

/// Whether the bundle of one of these domains is another one.
fn has_other_bundle(old: &Snapshot, new: &Snapshot, domains: &[TrustDomain]) -> bool
    ensures { result ≡ list_any (is_other_bundle old.now new.now) domains.now }
{
    domains
        .iter()
        .any(|domain| is_other_bundle(old, new, domain.as_bytes()))
}

/// Whether the entry federates with a domain whose bundle is another one.
#[tactic(auto, unfolding(crate::specs::Differing::federates_anew))]
pub fn federates_anew(old: &Snapshot, new: &Snapshot, entry: &Entry) -> bool
    ensures { result ≡ federates_anew old.now new.now entry.now }
{
    has_other_bundle(old, new, entry.federates_with.as_slice())
}

/// Whether the bundles of both are the same, so that no entry federates anew.
pub fn has_same_bundles(old: &Snapshot, new: &Snapshot) -> bool
    ensures { result ≡ true → filter (federates_anew old.now new.now) new.now.entries ≡ [] }
{
    old.bundles.part().as_slice() == new.bundles.part().as_slice()
}

/// Whether every view differs.
#[tactic(auto, unfolding(crate::specs::Differing::all_differ))]
pub fn all_differ(old: &Snapshot, new: &Snapshot) -> bool
    ensures value { result ≡ all_differ old.now new.now }
    ensures old { IsPublication old.now }
    ensures new { IsPublication new.now }
{
    old.domain != new.domain || is_other_bundle(old, new, new.domain.as_bytes())
}
