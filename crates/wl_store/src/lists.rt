//! Lists of entries, bundles and SVIDs, which share what did not change.

ghost use Rattle.std.specs.Prelude.{◌≡◌, ◌≤◌, [], map, length, IfOk};
ghost use Rattle.list_laws.specs.Lists.{Rises};
ghost use Rattle.wl_entry.specs.Asks.{ask_of};
ghost use Rattle.wl_entry.specs.Keys.{entry_key, bundle_key};
ghost use Rattle.svid_cache.specs.Timetables.{IsAbout};
ghost use Rattle.wl_store.specs.Stores.{asks_of};

use sorted_blocks::SortedBlocks;
use sorted_lists::find_by_key;
use std::alloc::Global;
use svid_cache::Timetable;
use wl_entry::{Ask, Bundle, Entry, Svid};
use wl_match::Index;
use wl_octets::{Memory, Row, Shared};

/// The asks of these entries.
pub(crate) fn asks_for(alloc: Global, entries: &[Entry]) -> Result<Row<Ask>, Memory>
    ensures { IfOk result (λ r. r ≡ asks_of entries.now) }
{
    let mut asks = Vec::with_capacity(alloc, entries.len())?;
    for entry in entries {
        asks.push(entry.ask(alloc)?)?;
    }
    Ok(Row::from_vec(asks))
}

/// The entry, as it is known already, if it is.
#[tactic(auto, using(wl_entry::proofs::Sames::entry_is))]
fn share_entry(
    alloc: Global,
    known: &[Shared<Entry>],
    entry: Entry,
) -> Result<Shared<Entry>, Memory>
    requires { Rises (map entry_key known.now) }
    ensures { IfOk result (λ s. s ≡ entry) }
{
    if let Some(old) = find_by_key(known, entry.id.as_slice()) {
        if *old.part() == entry {
            return old.share();
        }
    }
    Ok(Shared::new(alloc, entry)?)
}

/// The bundle, as it is known already, if it is.
#[tactic(auto, using(wl_entry::proofs::Sames::bundle_is))]
fn share_bundle(
    alloc: Global,
    known: &[Shared<Bundle>],
    bundle: Bundle,
) -> Result<Shared<Bundle>, Memory>
    requires { Rises (map bundle_key known.now) }
    ensures { IfOk result (λ s. s ≡ bundle) }
{
    if let Some(old) = find_by_key(known, bundle.domain.as_bytes()) {
        if *old.part() == bundle {
            return old.share();
        }
    }
    Ok(Shared::new(alloc, bundle)?)
}

/// The entries, those that are known already as they are.
pub(crate) fn share_entries(
    alloc: Global,
    known: &[Shared<Entry>],
    entries: Row<Entry>,
) -> Result<Row<Shared<Entry>>, Memory>
    requires { Rises (map entry_key known.now) }
    ensures { IfOk result (λ r. r ≡ entries) }
{
    let mut shared = Vec::with_capacity(alloc, entries.len())?;
    for entry in entries.into_vec() {
        shared.push(share_entry(alloc, known, entry)?)?;
    }
    Ok(Row::from_vec(shared))
}

/// The bundles, those that are known already as they are.
pub(crate) fn share_bundles(
    alloc: Global,
    known: &[Shared<Bundle>],
    bundles: Row<Bundle>,
) -> Result<Row<Shared<Bundle>>, Memory>
    requires { Rises (map bundle_key known.now) }
    ensures { IfOk result (λ r. r ≡ bundles) }
{
    let mut shared = Vec::with_capacity(alloc, bundles.len())?;
    for bundle in bundles.into_vec() {
        shared.push(share_bundle(alloc, known, bundle)?)?;
    }
    Ok(Row::from_vec(shared))
}

/// The index of these entries, to be shared.
pub(crate) fn index_of(alloc: Global, entries: &[Shared<Entry>]) -> Result<Shared<Index>, Memory>
    requires rises { Rises (map entry_key entries.now) }
    requires at_most { length entries.now ≤ 10000 }
    ensures { IfOk result (λ x. x ≡ entries.now) }
{
    let index = Index::build(alloc, entries)?;
    Ok(Shared::new(alloc, index)?)
}

/// The timetable of the asks of these entries and of this `renew_before`, without SVIDs.
pub(crate) fn table_of(
    alloc: Global,
    entries: &[Entry],
    renew_before: u64,
) -> Result<Shared<Timetable>, Memory>
    requires rises { Rises (map entry_key entries.now) }
    requires at_most { length entries.now ≤ 10000 }
    ensures asks { IfOk result (λ t. t.asks ≡ asks_of entries.now) }
    ensures renew_before { IfOk result (λ t. t.renew_before ≡ renew_before) }
    ensures about { IfOk result (λ t. IsAbout t []) }
{
    let asks = asks_for(alloc, entries)?;
    let none = SortedBlocks::empty(alloc);
    let cache = Timetable::start(alloc).prepare_sync(alloc, &none, asks, renew_before)?;
    let (table, _) = cache.into_parts();
    Ok(Shared::new(alloc, table)?)
}
