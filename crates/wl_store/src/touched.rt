//! Which entries a step touches.

ghost use Rattle.std.specs.Prelude.{◌≡◌, ◌++◌, map, is_some, IfOk, OnOk};
ghost use Rattle.list_laws.specs.Lists.{Rises};
ghost use Rattle.list_laws.specs.Keys.{item_at};
ghost use Rattle.wl_entry.specs.Keys.{entry_key};
ghost use Rattle.wl_store.specs.Touched.{is_entry, ids_gone, ids_new, ids_ended};

use sorted_lists::find_by_key;
use std::alloc::Global;
use wl_entry::{Entry, Svid};
use wl_octets::{Memory, Octets, Row, Shared};

/// Whether this entry is among these, as it is.
fn has_entry(entries: &[Shared<Entry>], entry: &Entry) -> bool
    requires { Rises (map entry_key entries.now) }
    ensures { result ≡ is_entry (item_at entry_key entries.now entry.now.id) entry.now }
{
    match find_by_key(entries, entry.id.as_slice()) {
        Some(known) => *known.part() == *entry,
        None => false,
    }
}

/// Whether one of these entries has this id.
fn has_id(entries: &[Shared<Entry>], id: &Octets) -> bool
    requires { Rises (map entry_key entries.now) }
    ensures { result ≡ is_some (item_at entry_key entries.now id.now) }
{
    find_by_key(entries, id.as_slice()).is_some()
}

/// The ids of the entries that are not among the later ones as they are.
#[tactic(auto, unfolding(crate::specs::Touched::ids_gone))]
fn ids_gone(
    alloc: Global,
    before: &[Shared<Entry>],
    after: &[Shared<Entry>],
) -> Result<Vec<Octets>, Memory>
    requires { Rises (map entry_key after.now) }
    ensures { IfOk result (λ ids. ids.items ≡ ids_gone before.now after.now) }
{
    let mut ids = Vec::new(alloc);
    for entry in before {
        if !has_entry(after, entry.part()) {
            ids.push(entry.part().id.copy(alloc)?)?;
        }
    }
    Ok(ids)
}

/// Adds the ids of the later entries that no earlier one has.
#[tactic(auto, unfolding(crate::specs::Touched::ids_new))]
fn push_new(
    alloc: Global,
    before: &[Shared<Entry>],
    after: &[Shared<Entry>],
    ids: &mut Vec<Octets>,
) -> Result<(), Memory>
    requires { Rises (map entry_key before.now) }
    ensures { OnOk result (ids.new.items ≡ ids.old.items ++ ids_new before.now after.now) }
{
    for entry in after {
        if !has_id(before, &entry.part().id) {
            ids.push(entry.part().id.copy(alloc)?)?;
        }
    }
    Ok(())
}

/// The ids of the entries that are other ones, gone or new.
pub(crate) fn ids_changed(
    alloc: Global,
    before: &[Shared<Entry>],
    after: &[Shared<Entry>],
) -> Result<Row<Octets>, Memory>
    requires before { Rises (map entry_key before.now) }
    requires after { Rises (map entry_key after.now) }
    ensures { IfOk result (λ ids. ids ≡ ids_gone before.now after.now ++ ids_new before.now after.now) }
{
    let mut ids = ids_gone(alloc, before, after)?;
    push_new(alloc, before, after, &mut ids)?;
    Ok(Row::from_vec(ids))
}

/// The entry ids of the SVIDs that have expired.
#[tactic(auto, unfolding(crate::specs::Touched::ids_ended))]
pub(crate) fn ids_ended(
    alloc: Global,
    svids: &[Shared<Svid>],
    now: u64,
) -> Result<Row<Octets>, Memory>
    ensures { IfOk result (λ ids. ids ≡ ids_ended now svids.now) }
{
    let mut ids = Vec::new(alloc);
    for svid in svids {
        if svid.part().signed.not_after <= now {
            ids.push(svid.part().ask.entry_id.copy(alloc)?)?;
        }
    }
    Ok(Row::from_vec(ids))
}
