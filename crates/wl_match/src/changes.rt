//! Changes of the entries of an index.

ghost use Rattle.std.specs.Prelude.{List, ◌≡◌, ◌≤◌, ◌+◌, map, length, IfOk, OnOk, OnErr};
ghost use Rattle.std.specs.Map.{keys_of, values_of};
ghost use Rattle.std.specs.List.Sorted.{IsStrictlySortedBy};
ghost use Rattle.std.specs.Ordering.{nat_cmp};
ghost use Rattle.std.specs.Cmp.Lexicographic.{slice_cmp};
ghost use Rattle.list_laws.specs.Lists.{Rises};
ghost use Rattle.wl_entry.specs.Keys.{entry_key};
ghost use Rattle.wl_entry.specs.declared.entries.Entry.{Entry};
ghost use Rattle.wl_match.specs.Changes.{put_entry, changed_by, changed_entries, by_id};

use std::alloc::Global;
use std::collections::BTreeMap;
use wl_entry::Entry;
use wl_octets::{Memory, Octets, Shared};

/// A change of one entry.
#[derive(Drop)]
pub enum Change {
    /// The entry is there now, in the place of the one of its id.
    Put(Shared<Entry>),
    /// The entry of this id is gone.
    Remove(Octets),
}

/// Entries by id.
type ById = BTreeMap<Octets, Shared<Entry>>;

/// Puts an entry in the place of the one of its id.
fn put(alloc: Global, entries: &mut ById, entry: &Shared<Entry>) -> Result<(), Memory>
    ensures { (es : List Entry) → entries.old.entries ≡ by_id es
        → OnOk result (entries.new.entries ≡ by_id (put_entry entry.now es)) }
{
    let id = entry.part().id.copy(alloc)?;
    entries.insert(id, entry.share()?)?;
    Ok(())
}

/// The entries by id.
fn entries_by_id(alloc: Global, entries: &[Shared<Entry>]) -> Result<ById, Memory>
    requires { Rises (map entry_key entries.now) }
    ensures { IfOk result (λ m. m.entries ≡ by_id entries.now) }
{
    let mut all = BTreeMap::new(alloc);
    for entry in entries {
        put(alloc, &mut all, entry)?;
    }
    Ok(all)
}

/// Makes one change.
fn make(alloc: Global, entries: &mut ById, change: &Change) -> Result<(), Memory>
    ensures { (es : List Entry) → entries.old.entries ≡ by_id es
        → OnOk result (entries.new.entries ≡ by_id (changed_by change.now es)) }
{
    match change {
        Change::Put(entry) => put(alloc, entries, entry)?,
        Change::Remove(id) => {
            entries.remove(id);
        }
    }
    Ok(())
}

/// Makes the changes, in turn.
fn make_all(alloc: Global, entries: &mut ById, changes: &[Change]) -> Result<(), Memory>
    ensures { (es : List Entry) → entries.old.entries ≡ by_id es
        → OnOk result (entries.new.entries ≡ by_id (changed_entries changes.now es)) }
{
    for change in changes {
        make(alloc, entries, change)?;
    }
    Ok(())
}

/// The entries, by ascending id.
fn entries_in_order(alloc: Global, entries: ById) -> Result<Vec<Shared<Entry>>, Memory>
    ensures value { IfOk result (λ v. v.items ≡ values_of entries.entries) }
    ensures ordered { IsStrictlySortedBy (slice_cmp nat_cmp) (keys_of entries.entries) }
{
    let mut list = Vec::new(alloc);
    for (_, entry) in entries {
        list.push(entry)?;
    }
    Ok(list)
}

/// The entries after these changes, in turn, sharing those that did not change.
pub fn changed_list(
    alloc: Global,
    entries: &[Shared<Entry>],
    changes: &[Change],
) -> Result<Vec<Shared<Entry>>, Memory>
    requires { Rises (map entry_key entries.now) }
    ensures value { IfOk result (λ v. v.items ≡ changed_entries changes.now entries.now) }
    ensures rises { IfOk result (λ v. Rises (map entry_key v.items)) }
    ensures at_most { IfOk result (λ v. length v.items ≤ length entries.now + length changes.now) }
{
    let mut all = entries_by_id(alloc, entries)?;
    make_all(alloc, &mut all, changes)?;
    let list = entries_in_order(alloc, all)?;
    Ok(list)
}
