//! Making views.

ghost use Rattle.std.specs.Prelude.{◌≡◌, ◌<◌, ◌≤◌, ◌||◌, Bool, false, List, map, filter, length, All, IfOk, OnOk, option_map, ◌++◌, option_to_list, slice_get};
ghost use Rattle.std.specs.Str.{bytes_eq};
ghost use Rattle.std.specs.List.{list_any};
ghost use Rattle.std.specs.List.Sorted.{IsStrictlySortedBy};
ghost use Rattle.std.specs.Ordering.{nat_cmp};
ghost use Rattle.list_laws.specs.Lists.{Rises};
ghost use Rattle.wl_entry.specs.Entitled.{is_entitled};
ghost use Rattle.wl_entry.specs.Keys.{entry_key, svid_key, bundle_key};
ghost use Rattle.wl_snapshot.specs.Views.{view_in, view_model_of, entries_at, held_of, is_federated, is_seen, ChosenFrom};

use crate::snapshot::Snapshot;
use crate::views::{Held, View};
use sorted_blocks::SortedBlocks;
use sorted_lists::mark_key;
use spiffe_id::TrustDomain;
use std::alloc::Global;
use wl_entry::{Bundle, Entry, Svid};
use wl_octets::{Memory, Row, Shared};
use wl_selector::Selectors;

/// Whether the caller is entitled to an entry.
#[tactic(auto, unfolding(wl_entry::specs::Entitled::is_entitled))]
fn entitles(selectors: &Selectors, entry: &Entry) -> bool
    ensures { result ≡ is_entitled selectors.now entry.now }
{
    entry.selectors.is_subset(selectors)
}

/// The entries to which the caller is entitled.
fn entitled_in(
    alloc: Global,
    entries: &[Shared<Entry>],
    selectors: &Selectors,
) -> Result<Vec<Shared<Entry>>, Memory>
    ensures { IfOk result (λ v. v.items ≡ filter (is_entitled selectors.now) entries.now) }
{
    let mut chosen = Vec::new(alloc);
    for entry in entries {
        if entitles(selectors, entry.part()) {
            chosen.push(entry.share()?)?;
        }
    }
    Ok(chosen)
}

/// An entry with its SVID.
#[tactic(auto, unfolding(crate::specs::Views::held_of))]
fn hold(svids: &SortedBlocks<Svid>, entry: &Shared<Entry>) -> Result<Held, Memory>
    requires { Rises (map svid_key svids.now) }
    ensures { IfOk result (λ h. h ≡ held_of svids.now entry.now) }
{
    let svid = match svids.find(entry.part().id.as_slice()) {
        Some(svid) => Some(svid.share()?),
        None => None,
    };
    Ok(Held {
        entry: entry.share()?,
        svid,
    })
}

/// The entries with their SVIDs.
fn hold_all(
    alloc: Global,
    svids: &SortedBlocks<Svid>,
    entries: &[Shared<Entry>],
) -> Result<Row<Held>, Memory>
    requires { Rises (map svid_key svids.now) }
    ensures { IfOk result (λ r. r ≡ map (held_of svids.now) entries.now) }
{
    let mut held = Row::empty(alloc);
    for entry in entries {
        held.push(hold(svids, entry)?)?;
    }
    Ok(held)
}

/// A mark for each bundle, none of them set.
fn no_marks(alloc: Global, bundles: &[Shared<Bundle>]) -> Result<Vec<bool>, Memory>
    ensures { IfOk result (λ v. v.items ≡ map (λ b. false) bundles.now) }
{
    let mut marks = Vec::with_capacity(alloc, bundles.len())?;
    for _ in bundles {
        marks.push(false)?;
    }
    Ok(marks)
}

/// Marks the bundles of these domains.
fn mark_domains(bundles: &[Shared<Bundle>], domains: &[TrustDomain], marks: &mut [bool])
    requires rising { Rises (map bundle_key bundles.now) }
    requires each { length marks.old ≡ length bundles.now }
    ensures each { length marks.new ≡ length bundles.now }
    ensures marked { (before : Bundle → Bool) → marks.old ≡ map before bundles.now →
        marks.new ≡ map (λ b. before b || list_any (λ other. bytes_eq other b.domain) domains.now) bundles.now }
{
    for domain in domains {
        mark_key(bundles, domain.as_bytes(), marks);
    }
}

/// Marks the bundles of the domains with which one of the entries federates.
#[tactic(auto, unfolding(crate::specs::Views::is_federated))]
fn mark_federated(bundles: &[Shared<Bundle>], entries: &[Shared<Entry>], marks: &mut [bool])
    requires rising { Rises (map bundle_key bundles.now) }
    requires none { marks.old ≡ map (λ b. false) bundles.now }
    ensures { marks.new ≡ map (λ b. is_federated entries.now b.domain) bundles.now }
{
    for entry in entries {
        mark_domains(bundles, entry.part().federates_with.as_slice(), marks);
    }
}

/// The bundles that are seen by one who is entitled to these entries, where those of the domains with which the entries
/// federate are marked.
#[tactic(auto, unfolding(crate::specs::Views::is_seen))]
fn visible_bundles(
    alloc: Global,
    bundles: &[Shared<Bundle>],
    own: &[u8],
    entries: &[Shared<Entry>],
    marks: &[bool],
) -> Result<Row<Shared<Bundle>>, Memory>
    requires { marks.now ≡ map (λ b. is_federated entries.now b.domain) bundles.now }
    ensures { IfOk result (λ r. r ≡ filter (is_seen own.now entries.now) bundles.now) }
{
    let mut seen = Row::empty(alloc);
    for (at, bundle) in bundles.iter().enumerate() {
        if bundle.part().domain.as_bytes() == own || marks[at] {
            seen.push(bundle.share()?)?;
        }
    }
    Ok(seen)
}

/// The bundles that are seen by one who is entitled to these entries. It looks for each domain with which they federate
/// by halving, and takes a mark for each bundle.
fn bundles_in(
    alloc: Global,
    bundles: &[Shared<Bundle>],
    own: &[u8],
    entries: &[Shared<Entry>],
) -> Result<Row<Shared<Bundle>>, Memory>
    requires { Rises (map bundle_key bundles.now) }
    ensures { IfOk result (λ r. r ≡ filter (is_seen own.now entries.now) bundles.now) }
{
    let mut marks = no_marks(alloc, bundles)?;
    mark_federated(bundles, entries, &mut marks);
    visible_bundles(alloc, bundles, own, entries, &marks)
}

/// The view that is made of these entries of the publication.
#[tactic(auto, unfolding(crate::specs::Views::view_model_of))]
fn view_with(alloc: Global, snapshot: &Snapshot, entries: &[Shared<Entry>]) -> Result<View, Memory>
    requires { ChosenFrom snapshot.now entries.now }
    ensures { IfOk result (λ v. v ≡ view_model_of snapshot.now entries.now) }
{
    let domain = snapshot.domain.copy(alloc)?;
    let bundles = bundles_in(
        alloc,
        snapshot.bundles.part().as_slice(),
        domain.as_bytes(),
        entries,
    )?;
    let held = hold_all(alloc, &snapshot.svids, entries)?;
    Ok(View {
        domain,
        held,
        bundles,
    })
}

/// The view of a caller with these selectors.
#[tactic(auto, unfolding(crate::specs::Views::view_in))]
pub fn view(alloc: Global, snapshot: &Snapshot, selectors: &Selectors) -> Result<View, Memory>
    ensures { IfOk result (λ v. v ≡ view_in snapshot.now selectors.now) }
{
    let entries = entitled_in(alloc, snapshot.entries.part().as_slice(), selectors)?;
    view_with(alloc, snapshot, entries.as_slice())
}

fn entry_at(entries: &[Shared<Entry>], place: usize) -> Option<&Shared<Entry>>
    ensures { option_map (λ e. e.now) result ≡ slice_get entries.now place }
{
    entries.get(place)
}

/// Adds the entry at this place, where there is one.
fn pick(
    entries: &[Shared<Entry>],
    place: usize,
    chosen: &mut Vec<Shared<Entry>>,
) -> Result<(), Memory>
    ensures { OnOk result
        (chosen.new.items ≡ chosen.old.items ++ option_to_list (slice_get entries.now place)) }
{
    match entry_at(entries, place) {
        Some(entry) => Ok(chosen.push(entry.share()?)?),
        None => Ok(()),
    }
}

/// The entries at these places.
#[tactic(auto, unfolding(crate::specs::Views::entries_at))]
fn pick_all(
    alloc: Global,
    entries: &[Shared<Entry>],
    places: &[u32],
) -> Result<Vec<Shared<Entry>>, Memory>
    ensures { IfOk result (λ v. v.items ≡ entries_at entries.now places.now) }
{
    let mut chosen = Vec::new(alloc);
    for place in places {
        pick(entries, *place as usize, &mut chosen)?;
    }
    Ok(chosen)
}

/// The view that is made of the entries at these places, counted from 0, which rise and are below the number of
/// entries.
pub fn view_of(alloc: Global, snapshot: &Snapshot, places: &[u32]) -> Result<View, Memory>
    requires rising { IsStrictlySortedBy nat_cmp places.now }
    requires there { All (λ place. place < length snapshot.now.entries) places.now }
    ensures { IfOk result (λ v. v ≡ view_model_of snapshot.now (entries_at snapshot.now.entries places.now)) }
{
    let entries = pick_all(alloc, snapshot.entries.part().as_slice(), places)?;
    view_with(alloc, snapshot, entries.as_slice())
}
