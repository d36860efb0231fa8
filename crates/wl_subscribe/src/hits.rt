//! The subscribers that are entitled to entries.

ghost use Rattle.std.specs.Prelude.{◌≡◌, ℕ, ◌||◌, ◌&&◌, ◌==◌, true, List, OnOk, Some, option_map, option_to_list, filter};
ghost use Rattle.std.specs.List.{list_any, flat_map};
ghost use Rattle.std.specs.BTreeSet.{contains};
ghost use Rattle.std.specs.BTreeMap.{get};
ghost use Rattle.std.specs.Ordering.{nat_cmp};
ghost use Rattle.wl_entry.specs.Entitled.{is_entitled};
ghost use Rattle.wl_subscribe.specs.Filed.{has_number, is_filed, is_hit, AreFiled, IsFiledUnder, AddsHits};
ghost use Rattle.wl_subscribe.specs.Differing.{entries_differing, federates_anew};

use crate::differences::{federates_anew, has_same_bundles, is_same_at};
use crate::filing::{Filed, numbers_at};
use sorted_lists::find_by_key;
use std::alloc::Global;
use std::collections::{BTreeMap, BTreeSet};
use wl_entry::Entry;
use wl_octets::{Memory, Octets, Shared};
use wl_selector::{Selector, Selectors};
use wl_snapshot::Snapshot;

/// Subscribers by number, with their selectors.
pub type Members = BTreeMap<u64, Selectors>;

/// The subscribers that are hit.
#[derive(Drop)]
pub struct Hits {
    /// Whether all of them are.
    pub everyone: bool,
    pub numbers: BTreeSet<u64>,
}

/// Whether the member of this number is entitled to the entry.
#[tactic(auto, unfolding(wl_entry::specs::Entitled::is_entitled))]
fn entitles(members: &Members, number: u64, entry: &Entry) -> bool
    ensures { (selectors : List (List ℕ)) → get nat_cmp members.now number ≡ Some selectors
        → result ≡ is_entitled selectors entry.now }
{
    match members.get(&number) {
        Some(selectors) => entry.selectors.is_subset(selectors),
        None => false,
    }
}

/// The shorter one of two lists.
fn shorter<'a>(one: &'a [u64], other: &'a [u64]) -> &'a [u64]
    ensures { (n : ℕ) → has_number one.now n ≡ true → has_number other.now n ≡ true
        → has_number result.now n ≡ true }
{
    if other.len() < one.len() { other } else { one }
}

/// The shortest one of what is filed under this selector and under each of these.
fn shortest<'a>(filed: &'a Filed, first: &Selector, selectors: &[Selector]) -> &'a [u64]
    ensures { (n : ℕ) → is_filed filed.now first.now n ≡ true
        → IsFiledUnder filed.now selectors.now n → has_number result.now n ≡ true }
{
    let mut best = numbers_at(filed, first);
    for selector in selectors {
        best = shorter(best, numbers_at(filed, selector));
    }
    best
}

impl Hits {
    /// Adds a member, where it is entitled to the entry.
    fn add_number(&mut self, members: &Members, number: u64, entry: &Entry) -> Result<(), Memory>
        ensures { OnOk result (AddsHits members.now self.old self.new
            (λ n selectors. number == n && is_entitled selectors entry.now)) }
    {
        if entitles(members, number, entry) {
            self.numbers.insert(number)?;
        }
        Ok(())
    }

    /// Adds those of these members that are entitled to the entry.
    fn add_numbers(
        &mut self,
        members: &Members,
        numbers: &[u64],
        entry: &Entry,
    ) -> Result<(), Memory>
        ensures { OnOk result (AddsHits members.now self.old self.new
            (λ n selectors. has_number numbers.now n && is_entitled selectors entry.now)) }
    {
        for number in numbers {
            self.add_number(members, *number, entry)?;
        }
        Ok(())
    }

    /// Adds the members that are entitled to the entry. They are looked for under that one of its selectors which the
    /// fewest have; to an entry without selectors everyone is entitled.
    fn add_entry(&mut self, members: &Members, filed: &Filed, entry: &Entry) -> Result<(), Memory>
        requires { AreFiled members.now filed.now }
        ensures { OnOk result (AddsHits members.now self.old self.new
            (λ n selectors. is_entitled selectors entry.now)) }
    {
        let selectors = entry.selectors.as_slice();
        let Some(first) = selectors.first() else {
            self.everyone = true;
            return Ok(());
        };
        self.add_numbers(members, shortest(filed, first, selectors), entry)?;
        Ok(())
    }

    /// Adds the members that are entitled to the entry, where there is one.
    fn add_found(
        &mut self,
        members: &Members,
        filed: &Filed,
        entry: Option<&Shared<Entry>>,
    ) -> Result<(), Memory>
        requires { AreFiled members.now filed.now }
        ensures { OnOk result (AddsHits members.now self.old self.new
            (λ n selectors. list_any (is_entitled selectors)
            (option_to_list (option_map (λ e. e.now) entry.entry)))) }
    {
        match entry {
            Some(entry) => self.add_entry(members, filed, entry.part()),
            None => Ok(()),
        }
    }

    /// Adds the members that are entitled to the entry of this id in one of the snapshots, where it or its SVID differs.
    #[tactic(auto, unfolding(crate::specs::Differing::entries_differing))]
    fn add_differing(
        &mut self,
        members: &Members,
        filed: &Filed,
        old: &Snapshot,
        new: &Snapshot,
        id: &[u8],
    ) -> Result<(), Memory>
        requires { AreFiled members.now filed.now }
        ensures { OnOk result (AddsHits members.now self.old self.new
            (λ n selectors. list_any (is_entitled selectors) (entries_differing old.now new.now id.now))) }
    {
        if is_same_at(old, new, id) {
            return Ok(());
        }
        self.add_found(
            members,
            filed,
            find_by_key(old.entries.part().as_slice(), id),
        )?;
        self.add_found(
            members,
            filed,
            find_by_key(new.entries.part().as_slice(), id),
        )
    }

    /// Adds the members that are entitled to an entry of one of these ids, where it or its SVID differs.
    pub fn add_all_differing(
        &mut self,
        members: &Members,
        filed: &Filed,
        old: &Snapshot,
        new: &Snapshot,
        ids: &[Octets],
    ) -> Result<(), Memory>
        requires { AreFiled members.now filed.now }
        ensures { OnOk result (AddsHits members.now self.old self.new
            (λ n selectors. list_any (is_entitled selectors)
            (flat_map (entries_differing old.now new.now) ids.now))) }
    {
        for id in ids {
            self.add_differing(members, filed, old, new, id.as_slice())?;
        }
        Ok(())
    }

    /// Adds the members that are entitled to the entry, where it federates with a domain whose bundle differs.
    fn add_federated(
        &mut self,
        members: &Members,
        filed: &Filed,
        old: &Snapshot,
        new: &Snapshot,
        entry: &Entry,
    ) -> Result<(), Memory>
        requires { AreFiled members.now filed.now }
        ensures { OnOk result (AddsHits members.now self.old self.new
            (λ n selectors. federates_anew old.now new.now entry.now && is_entitled selectors entry.now)) }
    {
        if federates_anew(old, new, entry) {
            self.add_entry(members, filed, entry)?;
        }
        Ok(())
    }

    /// Adds the members that are entitled to an entry that federates with a domain whose bundle differs.
    fn add_all_federated(
        &mut self,
        members: &Members,
        filed: &Filed,
        old: &Snapshot,
        new: &Snapshot,
    ) -> Result<(), Memory>
        requires { AreFiled members.now filed.now }
        ensures { OnOk result (AddsHits members.now self.old self.new
            (λ n selectors. list_any (is_entitled selectors)
            (filter (federates_anew old.now new.now) new.now.entries))) }
    {
        for entry in new.entries.part().as_slice() {
            self.add_federated(members, filed, old, new, entry.part())?;
        }
        Ok(())
    }

    /// The same. Where no bundle differs no entry is looked at.
    #[tactic(auto, using(crate::proofs::Bundles::none_hit))]
    pub fn add_federated_anew(
        &mut self,
        members: &Members,
        filed: &Filed,
        old: &Snapshot,
        new: &Snapshot,
    ) -> Result<(), Memory>
        requires { AreFiled members.now filed.now }
        ensures { OnOk result (AddsHits members.now self.old self.new
            (λ n selectors. list_any (is_entitled selectors)
            (filter (federates_anew old.now new.now) new.now.entries))) }
    {
        if has_same_bundles(old, new) {
            return Ok(());
        }
        self.add_all_federated(members, filed, old, new)
    }

    /// Whether a subscriber is hit.
    pub fn has(&self, number: u64) -> bool
        ensures { result ≡ is_hit self.now number }
    {
        self.everyone || self.numbers.contains(&number)
    }
}
