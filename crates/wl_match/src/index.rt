//! The index.

ghost use Rattle.std.specs.Prelude.{◌≡◌, ◌<◌, ◌+◌, ◌^◌, map, filter, length, IfOk, OnOk, OnErr};
ghost use Rattle.std.specs.List.{All};
ghost use Rattle.std.specs.List.Sorted.{IsStrictlySortedBy};
ghost use Rattle.std.specs.Ordering.{nat_cmp};
ghost use Rattle.list_laws.specs.Lists.{Rises};
ghost use Rattle.wl_entry.specs.Keys.{entry_key};
ghost use Rattle.wl_entry.specs.Entitled.{is_entitled};
ghost use Rattle.wl_match.specs.Indexes.{entitled_places, items_at};
ghost use Rattle.wl_match.specs.Changes.{changed_entries};
ghost use Rattle.wl_match.specs.Postings.{posting_key};

use crate::changes::{Change, changed_list};
use crate::places::entitled_in;
use crate::postings::{Posting, post};
use std::alloc::Global;
use std::marker::Model;
use wl_entry::Entry;
use wl_octets::{Memory, Row, Shared, share_all};
use wl_selector::Selectors;

/// Entries by ascending id, and what is needed to find those to which a caller is entitled.
#[derive(Drop)]
pub struct Index {
    entries: Vec<Shared<Entry>>,
    postings: Vec<Shared<Posting>>,
}

impl Model for Index {
    ghost use Rattle.std.specs.Prelude.{List};
    ghost use Rattle.wl_entry.specs.declared.entries.Entry.{Entry};
    ghost use Rattle.wl_match.specs.Postings.{IsIndex};

    ghost Value = { List Entry };

    ghost view = { λ i. i.entries.items };

    ghost invariant = { λ i. IsIndex i.entries.items i.postings.items };
}

/// The index of these entries, sharing those of these postings that did not change.
fn index_with(
    alloc: Global,
    entries: Vec<Shared<Entry>>,
    old: &[Shared<Posting>],
) -> Result<Index, Memory>
    requires rises { Rises (map entry_key entries.items) }
    requires at_most { length entries.items < 2 ^ 32 }
    requires keys { Rises (map posting_key old.now) }
    ensures { IfOk result (λ index. index ≡ entries.items) }
{
    let postings = post(alloc, entries.as_slice(), old)?;
    Ok(Index { entries, postings })
}

impl Index {
    /// The index of entries by ascending id.
    pub fn build(alloc: Global, entries: &[Shared<Entry>]) -> Result<Index, Memory>
        requires rises { Rises (map entry_key entries.now) }
        requires at_most { length entries.now < 2 ^ 32 }
        ensures { IfOk result (λ index. index ≡ entries.now) }
    {
        let index = index_with(alloc, share_all(alloc, entries)?.into_vec(), &[])?;
        Ok(index)
    }

    /// The index of other entries, by ascending id. It shares the postings that did not change.
    pub fn synced(&self, alloc: Global, entries: &[Shared<Entry>]) -> Result<Index, Memory>
        requires rises { Rises (map entry_key entries.now) }
        requires at_most { length entries.now < 2 ^ 32 }
        ensures { IfOk result (λ index. index ≡ entries.now) }
    {
        let index = index_with(
            alloc,
            share_all(alloc, entries)?.into_vec(),
            self.postings.as_slice(),
        )?;
        Ok(index)
    }

    /// The entries, by ascending id.
    pub fn entries(&self) -> &[Shared<Entry>]
        ensures { result.now ≡ self.now }
    {
        self.entries.as_slice()
    }

    /// The places, rising, of exactly the entries to which a caller with these selectors is entitled. Only what is
    /// filed under a selector of the caller, or has no selector, is looked at.
    pub fn entitled(&self, alloc: Global, selectors: &Selectors) -> Result<Row<u32>, Memory>
        ensures value { IfOk result (λ places. places ≡ entitled_places selectors.now self.now) }
        ensures chosen { IfOk result
            (λ places. items_at self.now places ≡ filter (is_entitled selectors.now) self.now) }
        ensures rising { IfOk result (IsStrictlySortedBy nat_cmp) }
        ensures there { IfOk result (All (λ place. place < length self.now)) }
    {
        let entries = self.entries.as_slice();
        let places = entitled_in(alloc, entries, self.postings.as_slice(), selectors)?;
        Ok(places)
    }

    /// The index of the entries after these changes, in turn. It shares the entries and the postings that did not
    /// change.
    pub fn changed(&self, alloc: Global, changes: &[Change]) -> Result<Index, Memory>
        requires { length self.now + length changes.now < 2 ^ 32 }
        ensures { IfOk result (λ index. index ≡ changed_entries changes.now self.now) }
    {
        let entries = changed_list(alloc, self.entries.as_slice(), changes)?;
        let index = index_with(alloc, entries, self.postings.as_slice())?;
        Ok(index)
    }

    /// Changes the entries, in turn. If memory runs out the index is as it was.
    pub fn change(&mut self, alloc: Global, changes: &[Change]) -> Result<(), Memory>
        requires { length self.old + length changes.now < 2 ^ 32 }
        ensures ok { OnOk result (self.new ≡ changed_entries changes.now self.old) }
        ensures err { OnErr result (self.new ≡ self.old) }
    {
        *self = self.changed(alloc, changes)?;
        Ok(())
    }
}
